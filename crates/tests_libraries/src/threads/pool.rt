ghost use Rattle.std.specs.Prelude.{◌≤◌};

use crate::bytes::blob;
use crate::threads::meeting::Meeting;
use b3par::{Open, ParFault, hash_join, hash_pool, hash_pooled};
use b3tree::{Hash, Mode, hash};
use std::test::Fail;
use std::thread::Threads;

// Threads are run to their end; that the two agree for every input is proved.
#[test]
fn joined_hash_is_the_hash(rt: HostRuntime) -> Result<(), Fail> {
    let mode = Mode::hash();
    for len in [0, 1, 1024, 1025, 2049, 65_536, 65_537] {
        let bytes = blob(rt.alloc(), len)?;
        let whole = hash(&mode, bytes.as_slice());
        for grain in [1, 3, 64] {
            assert!(rt;
                hash_join(&rt, &mode, bytes.as_slice(), grain) == whole,
                "{len} {grain}"
            );
        }
    }
    Ok(())
}

// The same of the pool, against `hash_join`: the longest input is sixteen jobs.
#[test]
fn pooled_hash_is_the_joined_hash(rt: HostRuntime) -> Result<(), Fail> {
    let mode = Mode::hash();
    for len in [
        0, 1, 1024, 1025, 2049, 8191, 8192, 8193, 65_536, 65_537, 1_000_000,
    ] {
        let bytes = blob(rt.alloc(), len)?;
        let joined = hash_join(&rt, &mode, bytes.as_slice(), 512);
        for workers in [1, 2, 7, 64] {
            let pooled = hash_pool(&rt, rt.alloc(), &mode, bytes.as_slice(), workers, &Open)?;
            assert!(rt; pooled == joined, "{len} {workers}");
        }
    }
    Ok(())
}

// How many jobs so many bytes have: a job is a whole subtree of 64 chunks, 65,536 bytes, or what is left of them at
// the end, and the empty chunk of no bytes is one.
const JOBS: [(usize, usize); 11] = [
    (0, 1),
    (1, 1),
    (1025, 1),
    (65_535, 1),
    (65_536, 1),
    (65_537, 2),
    (131_072, 2),
    (131_073, 3),
    (262_144, 4),
    (300_000, 5),
    (1_000_000, 16),
];

// What so many workers make of the bytes: the hash, how many jobs there are, and what the gate saw.
fn seen_of<R: AllocGlobal + Threads + Sync>(
    rt: &R,
    bytes: &[u8],
    workers: usize,
) -> Result<(Hash, usize, (u64, u64, u64)), Fail>
    requires { (1 ≤ workers) × (workers ≤ 64) }
{
    let gate = Meeting::of(0);
    let pooled = hash_pooled(rt, rt.alloc(), &Mode::hash(), bytes, workers, &gate)?;
    if pooled.answered != pooled.jobs {
        return Err("a job that no worker answered for".into());
    }
    Ok((pooled.hash, pooled.jobs, gate.seen()))
}

// Each job is answered for by a worker, and each worker passes the gate once, with its own number, though there are
// fewer jobs than workers. A worker that doesn't pass fails this, and so does one that passes and takes no job.
#[test]
fn workers_answer_for_all_jobs(rt: HostRuntime) -> Result<(), Fail> {
    for (len, jobs) in JOBS {
        let bytes = blob(rt.alloc(), len)?;
        let whole = hash(&Mode::hash(), bytes.as_slice());
        for (workers, numbers) in [(1, 0b1), (2, 0b11), (7, 0b111_1111), (64, u64::MAX)] {
            let seen = seen_of(&rt, bytes.as_slice(), workers)?;
            let all = workers as u64;
            assert!(rt;
                seen == (whole, jobs, (all, numbers, all)),
                "{len} {workers}"
            );
        }
    }
    Ok(())
}

// Two workers run at once, also where there is one job: the first goes on only when the second has come.
#[test]
fn two_workers_meet(rt: HostRuntime) -> Result<(), Fail> {
    let mode = Mode::hash();
    for len in [0, 1, 1_000_000] {
        let bytes = blob(rt.alloc(), len)?;
        let gate = Meeting::of(2);
        let pooled = hash_pool(&rt, rt.alloc(), &mode, bytes.as_slice(), 2, &gate)?;
        assert!(rt; pooled == hash(&mode, bytes.as_slice()), "{len}");
        assert!(rt; gate.seen() == (2, 0b11, 2), "{len}");
    }
    Ok(())
}

#[test]
fn fault_text(rt: HostRuntime) -> Result<(), Fail> {
    let fault = ParFault::Memory;
    assert!(rt; fault.code() == 301);
    assert!(rt; format!(in rt.alloc(); "{fault}")?.as_str() == "301 memory");
    Ok(())
}
