ghost use Rattle.std.specs.Prelude.{◌≡◌, ℕ, List, ◌≤◌, length, IfErr, IfOk, IfSome};
ghost use Rattle.b3tree.specs.Hashing.{hash};
ghost use Rattle.b3par.specs.Given.{HasOther, IsHashOf};
ghost use Rattle.b3par.specs.Jobs.{job_count};

use crate::fault::{ParFault, ReadFault};
use crate::gate::{Gate, Open};
use crate::jobs::{Cutting, sharers};
use crate::pieces::ends_at;
use crate::pool::tree_by_pool;
use crate::source::Source;
use b3tree::{Hash, Mode, root_hash, rooted};
use bao_text::Choice;
use std::alloc::Global;
use std::thread::Threads;

/// The hash that a pool computed, and how much of the work its workers did.
#[derive(Clone, Copy, Debug, PartialEq, Eq)]
pub struct Pooled {
    /// The hash.
    pub hash: Hash,
    /// How many jobs the bytes were cut into: at least one.
    pub jobs: usize,
    /// How many jobs the workers did. The caller's thread did the others.
    pub answered: usize,
}

/// Returns the hash of `bytes` in `mode`, as `hash_pool` does, and how many jobs the workers did: all of them,
/// unless every worker was refused memory.
///
/// Refuses with `Memory` (301); no thread is then left running.
pub fn hash_pooled<R: Threads + Sync, G: Gate + Sync>(
    rt: &R,
    alloc: Global,
    mode: &Mode,
    bytes: &[u8],
    workers: usize,
    gate: &G,
) -> Result<Pooled, ParFault>
    requires { (1 ≤ workers) × (workers ≤ 64) }
    ensures hash { IfOk result (λ pooled. pooled.hash.0 ≡ hash mode.now bytes.now) }
    ensures jobs { IfOk result (λ pooled. pooled.jobs ≡ job_count 65536 (length bytes.now)) }
    ensures answered { IfOk result (λ pooled. pooled.answered ≤ pooled.jobs) }
{
    let cutting = Cutting::of_bytes(bytes.len() as u64);
    let choice = Choice::of_nothing();
    match tree_by_pool(rt, alloc, &choice, mode, &bytes, &cutting, workers, gate) {
        Ok(done) => Ok(Pooled {
            hash: root_hash(&rooted(&done.tree.top)),
            jobs: done.jobs,
            answered: done.answered,
        }),
        Err(ReadFault::Memory) => Err(ParFault::Memory),
        Err(ReadFault::Reader) => unreachable!(),
    }
}

/// Returns the hash of `bytes` in `mode`, computed by a pool of `workers` threads, 1 to 64.
///
/// The jobs are the largest subtrees of at most `JOB_CHUNKS` chunks. All are queued before the first worker
/// starts, and workers steal them from the caller's deque. Each worker calls `gate` once with its index, before
/// its first job. What no worker did, the caller's thread does at the end; if a thread can't be started,
/// another does its work.
///
/// Refuses with `Memory` (301); no thread is then left running.
pub fn hash_pool<R: Threads + Sync, G: Gate + Sync>(
    rt: &R,
    alloc: Global,
    mode: &Mode,
    bytes: &[u8],
    workers: usize,
    gate: &G,
) -> Result<Hash, ParFault>
    requires { (1 ≤ workers) × (workers ≤ 64) }
    ensures { IfOk result (λ answer. answer.0 ≡ hash mode.now bytes.now) }
{
    Ok(hash_pooled(rt, alloc, mode, bytes, workers, gate)?.hash)
}

/// Returns the hash of the `len` bytes of `source` in `mode`, computed by a pool of at most `workers` threads,
/// 1 to 64.
///
/// Each thread reads at most 256 KiB at a time into a buffer of its own, so the memory doesn't grow with `len`;
/// an empty source takes none but the pool's. If a thread can't be started, another does its work, and no
/// thread outlives the call.
///
/// Refuses with `Memory` (311), and with `Reader` (312) if a read fails (also with the kind `Interrupted`; it
/// isn't retried) or if the source doesn't have exactly `len` bytes.
pub fn hash_source<R: Threads + Sync, S: Source + Sync>(
    rt: &R,
    alloc: Global,
    mode: &Mode,
    source: &S,
    len: u64,
    workers: usize,
) -> Result<Hash, ReadFault>
    requires workers { (1 ≤ workers) × (workers ≤ 64) }
    ensures all { IfOk result (λ answer. IfSome (S.contents source.now) (λ bytes. IsHashOf mode.now len bytes answer.0)) }
    ensures some { IfOk result (λ answer. (bytes : List ℕ) × IsHashOf mode.now len bytes answer.0) }
    ensures fault { IfErr result (λ fault. fault ≡ ReadFault.Reader → HasOther (S.contents source.now) (S.faultless source.now) len) }
{
    let choice = Choice::of_nothing();
    let cutting = Cutting::of_source(len);
    let workers = sharers(len, workers);
    let done = tree_by_pool(rt, alloc, &choice, mode, source, &cutting, workers, &Open)?;
    if !ends_at(source, len) {
        return Err(ReadFault::Reader);
    }
    Ok(root_hash(&rooted(&done.tree.top)))
}
