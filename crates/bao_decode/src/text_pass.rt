// One pass over an encoding, which is read by position, in blocks. Each block is verified, then its bytes of a part of the blob are written.

ghost use Rattle.std.specs.Prelude.{◌≡◌, ℕ, ◌+◌, ◌-◌, ◌*◌, ◌/◌, ◌^◌, ◌<◌, ◌≤◌, List, [], ◌++◌, ◌⊎◌, length, take, drop, Err, None, Ok, IfErr, IfOk, IfSome, OnOk};
ghost use Rattle.std.specs.Thread.{IsSync};
ghost use Rattle.std.specs.Io.KnownBytes.{Appends};
ghost use Rattle.bao_check.specs.Checking.{HasDecodedAs, HasTakenAs};
ghost use Rattle.bao_check.specs.Decoded.{decoded};
ghost use Rattle.bao_check.specs.Waiting.{CheckTask, IsAcceptedAs};
ghost use Rattle.b3par.specs.Given.{GivenAt};
ghost use Rattle.bao_text.specs.Cut.{claimed};
ghost use Rattle.bao_decode.specs.Ranges.{first_decoded, first_written, last_written, part_bytes, part_len, part_start, positions, written_count};
ghost use Rattle.bao_text.specs.Faults.{WroteOnly};
ghost use Rattle.bao_decode.specs.declared.copy_pass.PassFault.TheVariants as PassFault;
ghost use Rattle.bao_decode.specs.TextPass.{HaveLen, IsNext, IsWholeText, TextStops, StopsAs, task_of_part};

use crate::copy_pass::{PassFault, fill_most};
use crate::forward::Forward;
use b3tree::{CHUNK_LEN, Hash, Mode, bytes_are};
use bao_check::{CheckFault, Checking, Decoded};
use bao_text::{Choice, LENGTH_LEN, Part, WriteFault, claimed, write_text};
use std::alloc::{AllocError, Global};
use std::io::Write;
use std::mem::swap;
use std::thread::{Threads, join_mut};

/// How many bytes of an encoding are read at once: a subtree of 256 chunks, and the parents above it.
const BLOCK_LEN: usize = 288 << 10;

// No encoding is read past this offset: no file has a byte there.
const LAST_PLACE: u64 = 1 << 63;

// The slice that is checked: its first position and its length.
pub(crate) fn slice_of(part: &Part) -> (u64, u64)
    ensures start { result.0 ≡ part_start part.now }
    ensures len { result.1 ≡ part_len part.now }
{
    match part {
        Part::Whole => (0, u64::MAX),
        Part::Slice { start, len } => (*start, *len),
    }
}

// The positions whose bytes are written, in a blob of `total` bytes: the first, and the one after the last.
pub(crate) fn written_of(part: &Part, total: u64) -> (u64, u64)
    ensures first { result.0 ≡ first_written part.now total }
    ensures last { result.1 ≡ last_written part.now total }
    ensures order { result.0 ≤ result.1 }
{
    match part {
        Part::Whole => (0, total),
        Part::Slice { start, len } => ((*start).min(total), start.saturating_add(*len).min(total)),
    }
}

// The position where the first chunk in the encoding begins, in a blob of `total` bytes.
fn decoded_from(part: &Part, total: u64) -> u64
    ensures { result ≡ first_decoded part.now total }
{
    let (start, len) = slice_of(part);
    let chunk_len = CHUNK_LEN as u64;
    Choice::of_slice(total, start, len).start() / chunk_len * chunk_len
}

// Those of the bytes, which begin at position `at`, that are at the positions from `from` up to, but not including, `to`.
fn between(bytes: &[u8], at: u64, from: u64, to: u64) -> &[u8]
    ensures { result.now ≡ positions at from to bytes.now }
{
    let end = to.saturating_sub(at).min(bytes.len() as u64);
    let start = from.saturating_sub(at).min(end);
    &bytes[start as usize..end as usize]
}

// Reads and verifies the length at the start of an encoding. Returns the check, which has taken it, and its bytes.
pub(crate) fn begin<F: Forward>(
    mode: &Mode,
    root: &Hash,
    part: &Part,
    source: &F,
) -> Result<(Checking, [u8; LENGTH_LEN]), PassFault>
    ensures size { IfOk result (λ begun. length begun.1 ≡ 8) }
    ensures given { IfOk result (λ begun. GivenAt (F.contents source.now) 0 begun.1) }
    ensures decodes { IfOk result (λ begun. HasDecodedAs begun.0 (task_of_part mode.now root.now.0 part.now) begun.1 []) }
    ensures fault { IfErr result (λ fault. IfSome (F.contents source.now) (λ s. StopsAs (task_of_part mode.now root.now.0 part.now) (F.faultless source.now) s fault)) }
{
    let (start, len) = slice_of(part);
    let mut checking = Checking::of_slice(mode, root, start, len);
    let mut header = [0; LENGTH_LEN];
    let count = fill_most(source, 0, &mut header)?;
    if count < LENGTH_LEN {
        return Err(PassFault::Check(CheckFault::Short { at: 0 }));
    }
    match checking.take(&header) {
        Ok(()) => Ok((checking, header)),
        Err(fault) => Err(PassFault::Check(fault)),
    }
}

// Reads the encoding's next block, from offset `at` on, verifies its complete nodes, and copies the bytes of their chunks to the
// front of `room`. Returns `None` at the end of an accepted encoding.
pub(crate) fn next_block<F: Forward>(
    checking: &mut Checking,
    source: &F,
    at: u64,
    block: &mut [u8],
    room: &mut [u8],
) -> Result<Option<Decoded>, PassFault>
    requires block { (1024 ≤ length block.old) × (length block.old ≤ 2 ^ 32) }
    requires room { length block.old ≤ length room.old }
    ensures sizes { (length block.new ≡ length block.old) × (length room.new ≡ length room.old) }
    ensures some { IfOk result (λ next. IfSome next (λ step. (1 ≤ step.taken) × (step.filled ≤ step.taken) × (step.filled ≤ length room.new) × (at + step.taken ≤ 2 ^ 63 + 2 ^ 32))) }
    ensures step { (task : CheckTask) (taken blob : List ℕ) → HasDecodedAs checking.old task taken blob → at ≡ length taken → GivenAt (F.contents source.now) 0 taken
        → IfOk result (λ next. IfSome next (λ step. (more : List ℕ) × (length more ≡ step.taken) × (more ≡ take step.taken block.new) × GivenAt (F.contents source.now) at more
        × HasDecodedAs checking.new task (taken ++ more) (blob ++ take step.filled room.new))) }
    ensures last { (task : CheckTask) (taken blob : List ℕ) → HasDecodedAs checking.old task taken blob → at ≡ length taken
        → IfOk result (λ next. next ≡ None → IsAcceptedAs task taken × (decoded taken task.start task.len ≡ blob) × IfSome (F.contents source.now) (λ s. length s ≤ at) × (at ≤ 2 ^ 63)) }
    ensures fault { (task : CheckTask) (taken : List ℕ) → HasTakenAs checking.old task taken → at ≡ length taken → GivenAt (F.contents source.now) 0 taken
        → IfErr result (λ fault. IfSome (F.contents source.now) (λ s. StopsAs task (F.faultless source.now) s fault)) }
{
    if at > LAST_PLACE {
        return Err(PassFault::Check(CheckFault::Memory));
    }
    let count = fill_most(source, at, block)?;
    let decoded = match checking.decode(&block[..count], room) {
        Ok(decoded) => decoded,
        Err(fault) => return Err(PassFault::Check(fault)),
    };
    if decoded.taken > 0 {
        return Ok(Some(decoded));
    }
    match checking.wants() {
        Some(_) => Err(PassFault::Check(CheckFault::Short { at })),
        None if count > 0 => Err(PassFault::Check(CheckFault::Trailing { at })),
        None => Ok(None),
    }
}

/// Reads an encoding once, in blocks, and verifies it as that of this part of the blob with this root.
///
/// Refuses with the encoding's first fault, or if a read fails.
pub(crate) fn verify_pass<F: Forward>(
    mode: &Mode,
    root: &Hash,
    part: &Part,
    source: &F,
    block: &mut [u8],
    room: &mut [u8],
) -> Result<(), PassFault>
    requires block { (1024 ≤ length block.old) × (length block.old ≤ 2 ^ 32) }
    requires room { length block.old ≤ length room.old }
    ensures sizes { (length block.new ≡ length block.old) × (length room.new ≡ length room.old) }
    ensures ok { IfOk result (λ _. (text : List ℕ) × IsWholeText (F.contents source.now) mode.now root.now.0 part.now text) }
    ensures err { IfErr result (λ fault. IfSome (F.contents source.now) (λ s. StopsAs (task_of_part mode.now root.now.0 part.now) (F.faultless source.now) s fault)) }
{
    let (mut checking, header) = begin(mode, root, part, source)?;
    // A lemma for the proof, here and below: no code runs.
    bytes_are(&header);
    let mut at = LENGTH_LEN as u64;
    'blocks: while let Some(Decoded { taken, .. }) = next_block(
        &mut checking,
        source,
        at,
        block,
        room,
    )? {
        bytes_are(block);
        at += taken as u64;
    }
    Ok(())
}

/// The buffers of a pass that writes: for a block of an encoding, for the blob's bytes in it, and for those of the
/// block before it.
#[derive(Drop)]
pub(crate) struct Blocks {
    pub(crate) block: Vec<u8>,
    pub(crate) room: Vec<u8>,
    before: Vec<u8>,
}

impl Blocks {
    /// Returns buffers of [`BLOCK_LEN`] bytes each.
    pub(crate) fn new(alloc: Global) -> Result<Blocks, AllocError>
        ensures { IfOk result (HaveLen 294912) }
    {
        let block = vec![in alloc; 0u8; BLOCK_LEN]?;
        let room = vec![in alloc; 0u8; BLOCK_LEN]?;
        let before = vec![in alloc; 0u8; BLOCK_LEN]?;
        Ok(Blocks {
            block,
            room,
            before,
        })
    }
}

// As `next_block`, while this thread writes bytes of the blocks before. If both fail, it answers that writing did.
fn next_while_writing<R: Threads + Sync, F: Forward + Sync, W: Write>(
    rt: &R,
    checking: &mut Checking,
    source: &F,
    at: u64,
    block: &mut [u8],
    room: &mut [u8],
    written: &[u8],
    out: &mut W,
) -> Result<Option<Decoded>, PassFault>
    requires block { (1024 ≤ length block.old) × (length block.old ≤ 2 ^ 32) }
    requires room { length block.old ≤ length room.old }
    ensures sizes { (length block.new ≡ length block.old) × (length room.new ≡ length room.old) }
    ensures sent { OnOk result (Appends (W.contents out.old) (W.contents out.new) written.now) }
    ensures next { IfOk result (λ next. IsNext (F.contents source.now) (F.faultless source.now) checking.old checking.new at block.new room.new (Ok next)) }
    ensures stopped { IfErr result (λ fault. ((fault ≡ PassFault.Output) × ((why : WriteFault) × WroteOnly (W.contents out.old) (W.contents out.new) written.now why))
        ⊎ (Appends (W.contents out.old) (W.contents out.new) written.now × IsNext (F.contents source.now) (F.faultless source.now) checking.old checking.new at block.new room.new (Err fault))) }
{
    let (next, sent) = join_mut(
        rt,
        &mut || -> Result<Option<Decoded>, PassFault>
            requires { IsSync F.row × ((1024 ≤ length block.now) × (length block.now ≤ 2 ^ 32) × (length block.now ≤ length room.now)) }
            ensures sizes { (length block.exit.now ≡ length block.entry.now) × (length room.exit.now ≡ length room.entry.now) }
            ensures next { IsNext (F.contents source.entry.now) (F.faultless source.entry.now) checking.entry.now checking.exit.now at block.exit.now room.exit.now result }
        { next_block(checking, source, at, block, room) },
        &mut || -> Result<(), WriteFault>
            ensures text { OnOk result (Appends (W.contents out.entry.now) (W.contents out.exit.now) written.entry.now) }
            ensures err { IfErr result (WroteOnly (W.contents out.entry.now) (W.contents out.exit.now) written.entry.now) }
        { write_text(written, out) },
    );
    match sent {
        Ok(()) => next,
        Err(_) => Err(PassFault::Output),
    }
}

/// Reads an encoding once, in blocks, verifies it as that of this part of the blob with this root, writes each block's
/// bytes of the part to `out` once it is verified, and returns how many bytes the part has. While they are written,
/// another thread reads and verifies the next block.
///
/// Refuses with the encoding's first fault, or if a read or a write fails; a beginning may have been written.
pub(crate) fn text_pass<R: Threads + Sync, F: Forward + Sync, W: Write>(
    rt: &R,
    mode: &Mode,
    root: &Hash,
    part: &Part,
    source: &F,
    blocks: &mut Blocks,
    out: &mut W,
) -> Result<u64, PassFault>
    requires { HaveLen 294912 blocks.old }
    ensures sizes { HaveLen 294912 blocks.new }
    ensures ok { IfOk result (λ count. (text : List ℕ) × IsWholeText (F.contents source.now) mode.now root.now.0 part.now text × (count ≡ written_count part.now text)
        × Appends (W.contents out.old) (W.contents out.new) (part_bytes part.now text)) }
    ensures err { IfErr result (λ fault. IfSome (F.contents source.now) (λ s.
        TextStops (task_of_part mode.now root.now.0 part.now) (F.faultless source.now) part.now s (W.contents out.old) (W.contents out.new) fault)) }
{
    let (mut checking, header) = begin(mode, root, part, source)?;
    // A lemma for the proof, here and below: no code runs.
    bytes_are(&header);
    let total = claimed(&header);
    let (first, last) = written_of(part, total);
    let base = decoded_from(part, total);
    let (skip, end) = (first.saturating_sub(base), last.saturating_sub(base));
    let mut at = LENGTH_LEN as u64;
    // The bytes of the block before wait to be written: so many, from position `done` on.
    let mut done = 0;
    let mut waiting = 0;
    'texts: while let Some(Decoded { taken, filled }) = next_while_writing(
        rt,
        &mut checking,
        source,
        at,
        blocks.block.as_mut_slice(),
        blocks.room.as_mut_slice(),
        between(&blocks.before[..waiting], done, skip, end),
        out,
    )? {
        bytes_are(blocks.block.as_slice());
        swap(&mut blocks.room, &mut blocks.before);
        at += taken as u64;
        done += waiting as u64;
        waiting = filled;
    }
    Ok(last - first)
}
