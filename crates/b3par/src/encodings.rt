ghost use Rattle.std.specs.Prelude.{◌≡◌, ℕ, List, ◌++◌, ◌≤◌, ◌⊎◌, length, IfErr, IfOk, IfSome};
ghost use Rattle.bao_text.specs.declared.choice.Choice.{Choice};
ghost use Rattle.bao_text.specs.Texts.{joined};
ghost use Rattle.b3par.specs.Encodings.{IsCombinedOf, IsOutboardOf, IsSliceOf, IsTextOf};
ghost use Rattle.b3par.specs.Given.{HasOther};

use crate::fault::ReadFault;
use crate::gate::Open;
use crate::jobs::{Cutting, sharers};
use crate::pieces::ends_at;
use crate::pool::tree_by_pool;
use crate::source::Source;
use crate::tree::Tree;
use b3tree::{Hash, Mode, root_hash, rooted};
use bao_text::Choice;
use std::alloc::Global;
use std::thread::Threads;

// What the choice wants of the `len` bytes of the source, after their length, and their hash.
fn chosen_source<R: Threads + Sync, S: Source + Sync>(
    rt: &R,
    alloc: Global,
    choice: &Choice,
    mode: &Mode,
    source: &S,
    len: u64,
    workers: usize,
) -> Result<(Hash, Vec<Vec<u8>>), ReadFault>
    ensures all { (of : ℕ → Choice) → choice.now ≡ of len
        → IfOk result (λ made. IfSome (S.contents source.now) (λ bytes. IsTextOf of mode.now len bytes made.0.0 (joined made.1.items))) }
    ensures some { (of : ℕ → Choice) → choice.now ≡ of len
        → IfOk result (λ made. (bytes : List ℕ) × IsTextOf of mode.now len bytes made.0.0 (joined made.1.items)) }
    ensures fault { IfErr result (λ fault. fault ≡ ReadFault.Reader → HasOther (S.contents source.now) (S.faultless source.now) len) }
{
    let mut length = Vec::new(alloc);
    length.extend_from_slice(&len.to_le_bytes())?;
    let mut texts = Vec::new(alloc);
    texts.push(length)?;
    let cutting = Cutting::of_source(len);
    let workers = sharers(len, workers);
    let done = tree_by_pool(rt, alloc, choice, mode, source, &cutting, workers, &Open)?;
    let Tree {
        top,
        texts: mut rest,
    } = done.tree;
    if !ends_at(source, len) {
        return Err(ReadFault::Reader);
    }
    texts.append(&mut rest)?;
    Ok((root_hash(&rooted(&top)), texts))
}

/// Returns the hash of the `len` bytes of `source` in `mode` and their combined encoding, as buffers that
/// follow one another.
///
/// At most `workers` threads, 1 to 64, share the subtrees. The memory is that of the encoding, and at most 256
/// KiB for each thread to read into. If a thread can't be started, another does its work, and no thread
/// outlives the call.
///
/// Refuses with `Memory` (311), and with `Reader` (312) if a read fails (also with the kind `Interrupted`; it
/// isn't retried) or if the source doesn't have exactly `len` bytes.
pub fn combined_source<R: Threads + Sync, S: Source + Sync>(
    rt: &R,
    alloc: Global,
    mode: &Mode,
    source: &S,
    len: u64,
    workers: usize,
) -> Result<(Hash, Vec<Vec<u8>>), ReadFault>
    requires workers { (1 ≤ workers) × (workers ≤ 64) }
    ensures all { IfOk result (λ made. IfSome (S.contents source.now) (λ bytes. IsCombinedOf mode.now len bytes made.0.0 (joined made.1.items))) }
    ensures some { IfOk result (λ made. (bytes : List ℕ) × IsCombinedOf mode.now len bytes made.0.0 (joined made.1.items)) }
    ensures fault { IfErr result (λ fault. fault ≡ ReadFault.Reader → HasOther (S.contents source.now) (S.faultless source.now) len) }
{
    let choice = Choice::of_combined(len);
    chosen_source(rt, alloc, &choice, mode, source, len, workers)
}

/// Returns the hash of the `len` bytes of `source` in `mode` and their outboard encoding, as `combined_source`
/// does.
///
/// The memory is that of the encoding, a sixteenth of the bytes, and at most 256 KiB for each thread. Refuses
/// with `Memory` (311) and `Reader` (312), as `combined_source` does.
pub fn outboard_source<R: Threads + Sync, S: Source + Sync>(
    rt: &R,
    alloc: Global,
    mode: &Mode,
    source: &S,
    len: u64,
    workers: usize,
) -> Result<(Hash, Vec<Vec<u8>>), ReadFault>
    requires workers { (1 ≤ workers) × (workers ≤ 64) }
    ensures all { IfOk result (λ made. IfSome (S.contents source.now) (λ bytes. IsOutboardOf mode.now len bytes made.0.0 (joined made.1.items))) }
    ensures some { IfOk result (λ made. (bytes : List ℕ) × IsOutboardOf mode.now len bytes made.0.0 (joined made.1.items)) }
    ensures fault { IfErr result (λ fault. fault ≡ ReadFault.Reader → HasOther (S.contents source.now) (S.faultless source.now) len) }
{
    let choice = Choice::of_outboard(len);
    chosen_source(rt, alloc, &choice, mode, source, len, workers)
}

/// Returns the hash of the `len` bytes of `source` in `mode` and the slice of `count` bytes from byte `start`
/// on, as `combined_source` does.
///
/// All bytes are read, for the hash, but only the slice is kept: the memory is that of the slice, and at most
/// 256 KiB for each thread, whatever `len` is. A `count` of 0 counts as 1, a `start` at or past the end as the
/// last byte, and `start + count` never wraps. Refuses with `Memory` (311) and `Reader` (312), as
/// `combined_source` does.
pub fn slice_source<R: Threads + Sync, S: Source + Sync>(
    rt: &R,
    alloc: Global,
    mode: &Mode,
    source: &S,
    len: u64,
    start: u64,
    count: u64,
    workers: usize,
) -> Result<(Hash, Vec<Vec<u8>>), ReadFault>
    requires workers { (1 ≤ workers) × (workers ≤ 64) }
    ensures all { IfOk result (λ made. IfSome (S.contents source.now) (λ bytes. IsSliceOf mode.now len start count bytes made.0.0 (joined made.1.items))) }
    ensures some { IfOk result (λ made. (bytes : List ℕ) × IsSliceOf mode.now len start count bytes made.0.0 (joined made.1.items)) }
    ensures fault { IfErr result (λ fault. fault ≡ ReadFault.Reader → HasOther (S.contents source.now) (S.faultless source.now) len) }
{
    let choice = Choice::of_slice(len, start, count);
    chosen_source(rt, alloc, &choice, mode, source, len, workers)
}
