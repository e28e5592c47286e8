// `b3par`: bytes in memory, and sources whose bytes are known. The number of workers, the grain, the gate and the kind of the
// source have no part in an answer.

ghost use Rattle.std.specs.Prelude.{◌≡◌, ◌+◌, ◌-◌, ◌^◌, ◌≤◌, length, take, IfOk, IfSome};
ghost use Rattle.bao_text.specs.Texts.{joined};
ghost use Rattle.determined_texts.specs.Agreeing.{AgreeUnless};
ghost use Rattle.determined_program.specs.Files.{MayCome};

use b3par::{
    Gate, ParFault, Pooled, ReadFault, Source, combined_source, ends_at, fill, hash_join,
    hash_pool, hash_pooled, hash_source, outboard_source, slice_source,
};
use b3tree::{Hash, Mode};
use std::alloc::Global;
use std::io;
use std::thread::Threads;

pub fn hash_join_determined<R: Threads + Sync>(
    rt: &R,
    mode: &Mode,
    bytes: &[u8],
    grain: u64,
    other_grain: u64,
) -> (Hash, Hash)
    requires ours { 1 ≤ grain }
    requires theirs { 1 ≤ other_grain }
    ensures { result.0 ≡ result.1 }
{
    (
        hash_join(rt, mode, bytes, grain),
        hash_join(rt, mode, bytes, other_grain),
    )
}

// Memory may run out at any time, and is the only fault.
pub fn hash_pool_determined<R: Threads + Sync, G: Gate + Sync, H: Gate + Sync>(
    rt: &R,
    alloc: Global,
    mode: &Mode,
    bytes: &[u8],
    workers: usize,
    other_workers: usize,
    gate: &G,
    other_gate: &H,
) -> (Result<Hash, ParFault>, Result<Hash, ParFault>)
    requires ours { (1 ≤ workers) × (workers ≤ 64) }
    requires theirs { (1 ≤ other_workers) × (other_workers ≤ 64) }
    ensures { IfOk result.0 (λ a. IfOk result.1 (λ b. a ≡ b)) }
{
    (
        hash_pool(rt, alloc, mode, bytes, workers, gate),
        hash_pool(rt, alloc, mode, bytes, other_workers, other_gate),
    )
}

// For how many jobs a worker answered is the schedule's, and isn't determined.
pub fn hash_pooled_determined<R: Threads + Sync, G: Gate + Sync, H: Gate + Sync>(
    rt: &R,
    alloc: Global,
    mode: &Mode,
    bytes: &[u8],
    workers: usize,
    other_workers: usize,
    gate: &G,
    other_gate: &H,
) -> (Result<Pooled, ParFault>, Result<Pooled, ParFault>)
    requires ours { (1 ≤ workers) × (workers ≤ 64) }
    requires theirs { (1 ≤ other_workers) × (other_workers ≤ 64) }
    ensures hash { IfOk result.0 (λ a. IfOk result.1 (λ b. a.hash ≡ b.hash)) }
    ensures jobs { IfOk result.0 (λ a. IfOk result.1 (λ b. a.jobs ≡ b.jobs)) }
{
    (
        hash_pooled(rt, alloc, mode, bytes, workers, gate),
        hash_pooled(rt, alloc, mode, bytes, other_workers, other_gate),
    )
}

// Memory may run out, and a read of a source that isn't faultless may fail, at any time. Where the source is faultless, it is
// determined whether it has the length.
pub fn hash_source_determined<R: Threads + Sync, S: Source + Sync, T: Source + Sync>(
    rt: &R,
    alloc: Global,
    mode: &Mode,
    ours: &S,
    theirs: &T,
    len: u64,
    workers: usize,
    other_workers: usize,
) -> (Result<Hash, ReadFault>, Result<Hash, ReadFault>)
    requires ours { (1 ≤ workers) × (workers ≤ 64) }
    requires theirs { (1 ≤ other_workers) × (other_workers ≤ 64) }
    requires same { S.contents ours.now ≡ T.contents theirs.now }
    ensures { IfSome (S.contents ours.now) (λ _. AgreeUnless (λ a b. a ≡ b) (MayCome (S.faultless ours.now)) (MayCome (T.faultless theirs.now)) result.0 result.1) }
{
    (
        hash_source(rt, alloc, mode, ours, len, workers),
        hash_source(rt, alloc, mode, theirs, len, other_workers),
    )
}

// As `hash_source_determined`. Into how many texts the encoding is parted isn't determined.
pub fn combined_source_determined<R: Threads + Sync, S: Source + Sync, T: Source + Sync>(
    rt: &R,
    alloc: Global,
    mode: &Mode,
    ours: &S,
    theirs: &T,
    len: u64,
    workers: usize,
    other_workers: usize,
) -> (
    Result<(Hash, Vec<Vec<u8>>), ReadFault>,
    Result<(Hash, Vec<Vec<u8>>), ReadFault>,
)
    requires ours { (1 ≤ workers) × (workers ≤ 64) }
    requires theirs { (1 ≤ other_workers) × (other_workers ≤ 64) }
    requires same { S.contents ours.now ≡ T.contents theirs.now }
    ensures { IfSome (S.contents ours.now) (λ _. AgreeUnless (λ a b. (a.0 ≡ b.0) × (joined a.1.items ≡ joined b.1.items)) (MayCome (S.faultless ours.now)) (MayCome (T.faultless theirs.now)) result.0 result.1) }
{
    let one = combined_source(rt, alloc, mode, ours, len, workers);
    let other = combined_source(rt, alloc, mode, theirs, len, other_workers);
    (one, other)
}

// As `combined_source_determined`.
pub fn outboard_source_determined<R: Threads + Sync, S: Source + Sync, T: Source + Sync>(
    rt: &R,
    alloc: Global,
    mode: &Mode,
    ours: &S,
    theirs: &T,
    len: u64,
    workers: usize,
    other_workers: usize,
) -> (
    Result<(Hash, Vec<Vec<u8>>), ReadFault>,
    Result<(Hash, Vec<Vec<u8>>), ReadFault>,
)
    requires ours { (1 ≤ workers) × (workers ≤ 64) }
    requires theirs { (1 ≤ other_workers) × (other_workers ≤ 64) }
    requires same { S.contents ours.now ≡ T.contents theirs.now }
    ensures { IfSome (S.contents ours.now) (λ _. AgreeUnless (λ a b. (a.0 ≡ b.0) × (joined a.1.items ≡ joined b.1.items)) (MayCome (S.faultless ours.now)) (MayCome (T.faultless theirs.now)) result.0 result.1) }
{
    let one = outboard_source(rt, alloc, mode, ours, len, workers);
    let other = outboard_source(rt, alloc, mode, theirs, len, other_workers);
    (one, other)
}

// As `combined_source_determined`.
pub fn slice_source_determined<R: Threads + Sync, S: Source + Sync, T: Source + Sync>(
    rt: &R,
    alloc: Global,
    mode: &Mode,
    ours: &S,
    theirs: &T,
    len: u64,
    start: u64,
    count: u64,
    workers: usize,
    other_workers: usize,
) -> (
    Result<(Hash, Vec<Vec<u8>>), ReadFault>,
    Result<(Hash, Vec<Vec<u8>>), ReadFault>,
)
    requires ours { (1 ≤ workers) × (workers ≤ 64) }
    requires theirs { (1 ≤ other_workers) × (other_workers ≤ 64) }
    requires same { S.contents ours.now ≡ T.contents theirs.now }
    ensures { IfSome (S.contents ours.now) (λ _. AgreeUnless (λ a b. (a.0 ≡ b.0) × (joined a.1.items ≡ joined b.1.items)) (MayCome (S.faultless ours.now)) (MayCome (T.faultless theirs.now)) result.0 result.1) }
{
    let one = slice_source(rt, alloc, mode, ours, len, start, count, workers);
    let other = slice_source(rt, alloc, mode, theirs, len, start, count, other_workers);
    (one, other)
}

// What the buffer has after a fault isn't determined.
pub fn fill_determined<S: Source, T: Source>(
    ours: &S,
    theirs: &T,
    at: u64,
    a: &mut [u8],
    b: &mut [u8],
) -> (Result<(), ReadFault>, Result<(), ReadFault>)
    requires end { at + length a.old ≤ 2 ^ 64 - 1 }
    requires size { length b.old ≡ length a.old }
    requires same { S.contents ours.now ≡ T.contents theirs.now }
    ensures { IfSome (S.contents ours.now) (λ _. AgreeUnless (λ _ _. a.new ≡ b.new) (λ _. ¬ S.faultless ours.now) (λ _. ¬ T.faultless theirs.now) result.0 result.1) }
{
    (fill(ours, at, a), fill(theirs, at, b))
}

// A source that isn't faultless may not be said to end where it does.
pub fn ends_at_determined<S: Source, T: Source>(ours: &S, theirs: &T, len: u64) -> (bool, bool)
    requires { S.contents ours.now ≡ T.contents theirs.now }
    ensures { IfSome (S.contents ours.now) (λ _. S.faultless ours.now → T.faultless theirs.now → result.0 ≡ result.1) }
{
    (ends_at(ours, len), ends_at(theirs, len))
}

// How many bytes a read gives, and whether it fails, is the source's; which they are is determined.
pub fn read_at_determined<S: Source, T: Source>(
    ours: &S,
    theirs: &T,
    at: u64,
    a: &mut [u8],
    b: &mut [u8],
) -> (io::Result<usize>, io::Result<usize>)
    requires { S.contents ours.now ≡ T.contents theirs.now }
    ensures { IfSome (S.contents ours.now) (λ _. IfOk result.0 (λ m. IfOk result.1 (λ n. m ≡ n → take m a.new ≡ take n b.new))) }
{
    let one = ours.read_at(a, at);
    let other = theirs.read_at(b, at);
    (one, other)
}

// A source may say that its bytes don't lie in memory.
pub fn at_hand_determined<'a, S: Source, T: Source>(
    ours: &'a S,
    theirs: &'a T,
) -> (Option<&'a [u8]>, Option<&'a [u8]>)
    requires { S.contents ours.now ≡ T.contents theirs.now }
    ensures { IfSome result.0 (λ a. IfSome result.1 (λ b. a.now ≡ b.now)) }
{
    let one = ours.at_hand();
    let other = theirs.at_hand();
    (one, other)
}
