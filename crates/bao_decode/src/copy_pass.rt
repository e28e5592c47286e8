// One pass over a plain copy, which is read by position, 256 KiB at a time. Each piece is verified beside the outline, then written.

ghost use Rattle.std.specs.Prelude.{◌≡◌, ℕ, ◌+◌, ◌*◌, ◌^◌, ◌<◌, ◌≤◌, List, length, take, IfErr, IfOk, IfSome};
ghost use Rattle.std.specs.Io.KnownBytes.{Appends};
ghost use Rattle.bao_check.specs.Bare.{AreChunksOf};
ghost use Rattle.bao_check.specs.Beside.{bare_len};
ghost use Rattle.b3par.specs.Given.{GivenAt};
ghost use Rattle.bao_text.specs.Choice.{chunk_count};
ghost use Rattle.bao_decode.specs.CopyPass.{IsPieceOf, IsWholeCopy, PassStops, PieceStops, fault_from};
ghost use Rattle.bao_decode.specs.Forward.{Reaches};

use crate::forward::Forward;
use b3par::Source;
use b3tree::{CHUNK_LEN, bytes_are};
use bao_check::{CheckFault, Outline, check_bare};
use bao_text::{chunk_count, write_text};
use std::io::Write;

// The most chunks that are read at once: few enough to stay in a processor's cache.
const PIECE_CHUNKS: u64 = 256;

/// The length of the buffer: for these chunks, and for a byte that may follow the last one.
pub(crate) const ROOM_LEN: usize = PIECE_CHUNKS as usize * CHUNK_LEN + 1;

/// Why a pass ended early.
#[derive(Clone, Copy, Debug, PartialEq, Eq)]
pub(crate) enum PassFault {
    /// The input isn't accepted: its first fault.
    Check(CheckFault),
    /// A read failed.
    Input,
    /// A write failed, or wrote no byte.
    Output,
}

// Reads bytes from offset `at` on to the front of `buf`, until it is full or they end. Returns how many.
pub(crate) fn fill_most<F: Forward>(source: &F, at: u64, buf: &mut [u8]) -> Result<usize, PassFault>
    requires { at + length buf.old ≤ 2 ^ 64 }
    ensures size { length buf.new ≡ length buf.old }
    ensures bound { IfOk result (λ count. count ≤ length buf.new) }
    ensures given { Reaches (F.contents source.now) (F.anywhere source.now) at → IfOk result (λ count. GivenAt (F.contents source.now) at (take count buf.new)) }
    ensures end { IfOk result (λ count. count < length buf.new → IfSome (F.contents source.now) (λ s. length s ≤ at + count)) }
    ensures fault { IfErr result (λ fault. (fault ≡ PassFault.Input) × ¬ F.faultless source.now) }
{
    let mut filled = 0;
    'reads: while filled < buf.len() {
        match source.read_on(&mut buf[filled..], at + filled as u64) {
            Ok(0) => return Ok(filled),
            Ok(count) => filled += count,
            Err(_) => return Err(PassFault::Input),
        }
    }
    Ok(filled)
}

// The fault of a piece that begins at offset `start` of the copy, with its offset in the copy.
fn fault_of_copy(fault: CheckFault, start: u64) -> CheckFault
    ensures { result ≡ fault_from start fault }
{
    match fault {
        CheckFault::Short { at } => CheckFault::Short {
            at: start.saturating_add(at),
        },
        CheckFault::Mismatch { at } => CheckFault::Mismatch {
            at: start.saturating_add(at),
        },
        CheckFault::Trailing { at } => CheckFault::Trailing {
            at: start.saturating_add(at),
        },
        other => other,
    }
}

// How many bytes to ask for, of `count` chunks from chunk `first` on: one more than they have if they include the last chunk.
fn asked_len(total: u64, first: u64, count: u64) -> usize
    requires chunks { (1 ≤ count) × (first + count ≤ chunk_count total) }
    requires fits { 1024 * count < 2 ^ 64 }
    ensures last { first + count ≡ chunk_count total → result ≡ bare_len total (1024 * first) (1024 * count) + 1 }
    ensures other { first + count < chunk_count total → result ≡ bare_len total (1024 * first) (1024 * count) }
    ensures most { result ≤ 1024 * count + 1 }
    ensures end { 1024 * first + result ≤ 2 ^ 64 }
{
    let start = CHUNK_LEN as u64 * first;
    let end = start.saturating_add(CHUNK_LEN as u64 * count).min(total);
    let len = (end - start) as usize;
    if first + count == chunk_count(total) {
        len + 1
    } else {
        len
    }
}

// Reads `count` chunks from chunk `first` on, verifies them, and returns how many bytes they have. After the last chunk one byte
// more is asked for, which must not exist.
fn read_piece<S: Source>(
    outline: &Outline<'_>,
    copy: &S,
    first: u64,
    count: u64,
    buf: &mut [u8],
) -> Result<usize, PassFault>
    requires chunks { AreChunksOf outline.now first count }
    requires room { 1024 * count < length buf.old }
    ensures size { length buf.new ≡ length buf.old }
    ensures bound { IfOk result (λ len. len ≤ length buf.new) }
    ensures piece { IfOk result (λ len. IsPieceOf (S.contents copy.now) outline.now first count (take len buf.new)) }
    ensures fault { IfErr result (PieceStops (S.contents copy.now) (S.faultless copy.now) outline.now first) }
{
    let total = outline.claimed();
    let start = CHUNK_LEN as u64 * first;
    let room = asked_len(total, first, count);
    let len = fill_most(copy, start, &mut buf[..room])?;
    let piece = &buf[..len];
    // A lemma for the proof: no code runs.
    bytes_are(piece);
    match check_bare(outline, first, count, piece) {
        Ok(_) => Ok(len),
        Err(fault) => Err(PassFault::Check(fault_of_copy(fault, start))),
    }
}

/// Reads the copy once, through `buf`, verifies each piece beside the outline, writes it to `out`, and returns how many
/// bytes the copy has.
///
/// Refuses with the copy's first fault, or if a read or a write fails; a beginning may have been written.
pub(crate) fn copy_pass<S: Source, W: Write>(
    outline: &Outline<'_>,
    copy: &S,
    buf: &mut [u8],
    out: &mut W,
) -> Result<u64, PassFault>
    requires { 262144 < length buf.old }
    ensures size { length buf.new ≡ length buf.old }
    ensures ok { IfOk result (λ count. (bytes : List ℕ) × IsWholeCopy (S.contents copy.now) outline.now bytes × (count ≡ length bytes)
        × Appends (W.contents out.old) (W.contents out.new) bytes) }
    ensures err { IfErr result (λ fault. IfSome (S.contents copy.now) (λ s. PassStops outline.now (S.faultless copy.now) s (W.contents out.old) (W.contents out.new) fault)) }
{
    let chunks = chunk_count(outline.claimed());
    let mut next = 0;
    'pieces: while next < chunks {
        let count = PIECE_CHUNKS.min(chunks - next);
        let len = read_piece(outline, copy, next, count, buf)?;
        match write_text(&buf[..len], out) {
            Ok(()) => {}
            Err(_) => return Err(PassFault::Output),
        }
        next += count;
    }
    Ok(outline.claimed())
}
