// A second pass over an input, whose parents the first one kept: its bytes are read again, each piece is verified by the value
// that the kept parents have for it, and its combined encoding is written, while other threads read on.

ghost use Rattle.std.specs.Prelude.{◌≡◌, ℕ, ◌+◌, ◌-◌, ◌*◌, ◌^◌, ◌<◌, ◌≤◌, List, length, take, drop, OnErr, OnOk};
ghost use Rattle.std.specs.Io.KnownBytes.{Appends};
ghost use Rattle.b3tree.specs.Bytes.{words_of};
ghost use Rattle.b3tree.specs.Tree.{subtree_cv, top_input};
ghost use Rattle.b3tree.specs.Valid.{AreBytes};
ghost use Rattle.b3par.specs.Given.{GivenAt};
ghost use Rattle.bao_text.specs.Choice.{chunk_count, of_combined};
ghost use Rattle.bao_text.specs.Pieces.{HasParents, whole_text};
ghost use Rattle.bao_text.specs.Texts.{outboard_text};
ghost use Rattle.bao_files.specs.Again.{EncodesAgain, Replaces, Sends, WritesAgain};
ghost use Rattle.bao_files.specs.Ahead.{AreRead, AreUnread};
ghost use Rattle.bao_files.specs.Encoded.{AppendsPart};

use crate::ahead::Pieces;
use b3par::{Source, fill};
use b3tree::{CHUNK_LEN, Cv, Mode, bytes_are, cv, left_len, top_input};
use bao_text::{CV_LEN, Choice, LENGTH_LEN, PARENT_LEN, write_text};
use std::io::Write;
use std::thread::Threads;

/// Why a second pass ended early.
#[derive(Clone, Copy, Debug, PartialEq, Eq)]
pub(crate) enum AgainFault {
    /// A read failed, or the input has other bytes than before.
    Input,
    /// A write failed or wrote no byte.
    Output,
}

/// Writes all of `text`.
pub(crate) fn send<W: Write>(text: &[u8], out: &mut W) -> Result<(), AgainFault>
    ensures { Sends text.now (W.contents out.old) (W.contents out.new) result }
{
    match write_text(text, out) {
        Ok(()) => Ok(()),
        Err(_) => Err(AgainFault::Output),
    }
}

// Reads chunk `first`, which has as many bytes as `chunk`, again.
fn read_chunk<S: Source>(
    mode: &Mode,
    source: &S,
    asked: &Cv,
    first: u64,
    chunk: &mut [u8],
) -> Result<(), AgainFault>
    requires { 1024 * first + length chunk.old ≤ 2 ^ 64 - 1 }
    ensures given { OnOk result (GivenAt (S.contents source.now) (1024 * first) chunk.new) }
    ensures are { OnOk result (AreBytes chunk.new) }
    ensures value { OnOk result (subtree_cv mode.now first chunk.new ≡ asked.now.0) }
{
    if fill(source, CHUNK_LEN as u64 * first, chunk).is_err() {
        return Err(AgainFault::Input);
    }
    // A law, so that the proof has what it says: nothing runs.
    bytes_are(chunk);
    if Cv(cv(&top_input(mode, first, chunk))) != *asked {
        return Err(AgainFault::Input);
    }
    Ok(())
}

// The values that a parent's 64 bytes have for its left and its right part.
fn part_values(parent: &[u8]) -> (Cv, Cv)
    requires { length parent.now ≡ 64 }
    ensures left { result.0.0 ≡ words_of 8 (take 32 parent.now) }
    ensures right { result.1.0 ≡ words_of 8 (drop 32 parent.now) }
{
    let (left, right) = parent.split_at(CV_LEN);
    (Cv::from_bytes(left), Cv::from_bytes(right))
}

// Writes the subtree over `n` bytes from chunk `first` on, which has this value and these parents: read again in one piece, if
// it is no larger.
#[cycle(again)]
fn write_subtree<R: Threads + Sync, S: Source + Sync, W: Write>(
    rt: &R,
    mode: &Mode,
    choice: &Choice,
    source: &S,
    asked: &Cv,
    first: u64,
    n: u64,
    parents: &[u8],
    pieces: &mut Pieces,
    out: &mut W,
) -> Result<(), AgainFault>
    requires some { 0 < n }
    requires range { 1024 * first + n ≤ 2 ^ 64 - 1 }
    requires parents { length parents.now + 64 ≡ 64 * chunk_count n }
    requires read { AreRead (S.contents source.now) choice.now mode.now pieces.old }
    ensures read { AreRead (S.contents source.now) choice.now mode.now pieces.new }
    ensures written { (total : ℕ) (before : List ℕ) → choice.now ≡ of_combined total → HasParents total mode.now first parents.now before → length before ≡ n
        → subtree_cv mode.now first before ≡ asked.now.0 → WritesAgain (S.contents source.now) total mode.now first before (W.contents out.old) (W.contents out.new) result }
{
    if n <= CHUNK_LEN as u64 {
        let mut room = [0; CHUNK_LEN];
        let chunk = &mut room[..n as usize];
        read_chunk(mode, source, asked, first, chunk)?;
        return send(chunk, out);
    }
    if pieces.fetch(rt, mode, choice, source, asked, first, n)? {
        return pieces.write(rt, mode, choice, source, out);
    }
    write_parts(rt, mode, choice, source, first, n, parents, pieces, out)
}

// The same of more than a chunk, of which it isn't asked what its own value is: its parent first, and then its two parts.
#[cycle(again)]
fn write_parts<R: Threads + Sync, S: Source + Sync, W: Write>(
    rt: &R,
    mode: &Mode,
    choice: &Choice,
    source: &S,
    first: u64,
    n: u64,
    parents: &[u8],
    pieces: &mut Pieces,
    out: &mut W,
) -> Result<(), AgainFault>
    requires more { 1024 < n }
    requires range { 1024 * first + n ≤ 2 ^ 64 - 1 }
    requires parents { length parents.now + 64 ≡ 64 * chunk_count n }
    requires read { AreRead (S.contents source.now) choice.now mode.now pieces.old }
    ensures read { AreRead (S.contents source.now) choice.now mode.now pieces.new }
    ensures written { (total : ℕ) (before : List ℕ) → choice.now ≡ of_combined total → HasParents total mode.now first parents.now before → length before ≡ n
        → (again : List ℕ) × (top_input mode.now first again ≡ top_input mode.now first before)
        × Replaces (S.contents source.now) mode.now first before again
        × Sends (whole_text total mode.now first again) (W.contents out.old) (W.contents out.new) result }
{
    // A law, so that the proof has what it says: nothing runs.
    mode.is_keyed();
    let left_len = left_len(n);
    let left_chunks = left_len / CHUNK_LEN as u64;
    let (parent, below) = parents.split_at(PARENT_LEN);
    let (near, far) = below.split_at(PARENT_LEN * (left_chunks as usize - 1));
    let (left, right) = part_values(parent);
    send(parent, out)?;
    write_subtree(
        rt, mode, choice, source, &left, first, left_len, near, pieces, out,
    )?;
    write_subtree(
        rt,
        mode,
        choice,
        source,
        &right,
        first + left_chunks,
        n - left_len,
        far,
        pieces,
        out,
    )
}

/// Reads the `len` bytes of `source`, more than a chunk, a second time, and writes their combined encoding to
/// `out`.
///
/// `text` is the outboard encoding of the first reading, and each buffer read must have the value that it has
/// for it. So what is written is the encoding of bytes with the same hash, or the beginning of it. While one
/// buffer is written, other threads read the next; nothing was read into `pieces` before.
pub(crate) fn write_again<R: Threads + Sync, S: Source + Sync, W: Write>(
    rt: &R,
    mode: &Mode,
    source: &S,
    len: u64,
    text: &[u8],
    pieces: &mut Pieces,
    out: &mut W,
) -> Result<(), AgainFault>
    requires more { 1024 < len }
    requires text { length text.now ≡ 8 + 64 * (chunk_count len - 1) }
    requires pieces { AreUnread pieces.old }
    ensures { (before : List ℕ) → text.now ≡ outboard_text mode.now before → length before ≡ len
        → EncodesAgain (S.contents source.now) mode.now before (W.contents out.old) (W.contents out.new) result }
{
    let choice = Choice::of_combined(len);
    let (length, parents) = text.split_at(LENGTH_LEN);
    send(length, out)?;
    write_parts(rt, mode, &choice, source, 0, len, parents, pieces, out)
}
