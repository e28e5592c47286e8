ghost use Rattle.std.specs.Prelude.{◌≡◌, ◌+◌, ◌-◌, ◌*◌, ◌^◌, ◌<◌, ◌≤◌, [], length, IfErr, IfOk, OnOk};
ghost use Rattle.b3par.specs.Encodings.{GainsText};
ghost use Rattle.b3par.specs.Given.{Lacks};

use crate::fault::ReadFault;
use crate::pieces::{PIECE_LEN, append_at_hand, append_in_pieces};
use crate::source::Source;
use b3tree::{CHUNK_LEN, Input, Mode};
use bao_text::{Choice, PARENT_LEN, WAITING_LEN, encoded_len, outboard_len};
use std::alloc::{AllocError, Global};

// The bytes of the parents on two ways down to a chunk.
const WAYS_LEN: u128 = 2 * (WAITING_LEN * PARENT_LEN) as u128;

/// A subtree's last compression, and what the choice wants of it.
#[derive(Drop)]
pub(crate) struct Made {
    pub top: Input,
    pub text: Vec<u8>,
}

// How many of the `len` bytes from place `at` on a choice wants, and at most so many more as the chunks at both ends of its
// range have that begin before it or end after it.
fn wanted_len(choice: &Choice, at: u64, len: u64) -> u64 {
    let start = choice.start().max(at);
    let end = choice.end().min(at.saturating_add(len));
    let ends = 2 * CHUNK_LEN as u64;
    end.saturating_sub(start).saturating_add(ends).min(len)
}

// Room for what a choice wants of `len` bytes that begin with chunk `first`: never more than all of them would take, nor,
// beyond what it wants, than the parents on the way down to both ends of its range.
fn room(choice: &Choice, first: u64, len: u64) -> usize
    requires { 1024 * first ≤ 2 ^ 64 - 1 }
{
    let at = CHUNK_LEN as u64 * first;
    if !choice.wants(at, len) {
        return 0;
    }
    let wanted = wanted_len(choice, at, len);
    let text_len = if choice.has_chunks() {
        encoded_len(wanted)
    } else {
        outboard_len(wanted)
    };
    let above = if wanted < len { WAYS_LEN } else { 0 };
    usize::try_from(text_len + above).unwrap_or(usize::MAX)
}

// At least so many bytes to read into, up to a piece.
fn grow(piece: &mut Vec<u8>, len: u64) -> Result<(), AllocError>
    ensures { OnOk result (length piece.new.items < 1024 → len ≤ length piece.new.items) }
{
    let wanted = len.min(PIECE_LEN as u64) as usize;
    if piece.len() < wanted {
        piece.resize(wanted, 0)?;
    }
    Ok(())
}

/// Reads and encodes the subtree over `len` bytes of the source, which begins with chunk `first`. `piece` is
/// the buffer to read into; it grows as needed and is used again.
pub(crate) fn make<S: Source>(
    alloc: Global,
    choice: &Choice,
    mode: &Mode,
    source: &S,
    first: u64,
    len: u64,
    piece: &mut Vec<u8>,
) -> Result<Made, ReadFault>
    requires range { 1024 * first + len ≤ 2 ^ 64 - 1 }
    ensures text { IfOk result (λ made. GainsText (S.contents source.now) choice.now mode.now first len [] made.text.items made.top) }
    ensures fault { IfErr result (λ fault. fault ≡ ReadFault.Reader → Lacks (S.contents source.now) (S.faultless source.now) (1024 * first + len)) }
{
    let mut text = Vec::with_capacity(alloc, room(choice, first, len))?;
    if let Some(bytes) = source.at_hand() {
        let top = append_at_hand(choice, mode, bytes, first, len, &mut text)?;
        return Ok(Made { top, text });
    }
    grow(piece, len)?;
    let top = append_in_pieces(
        choice,
        mode,
        source,
        first,
        len,
        piece.as_mut_slice(),
        &mut text,
    )?;
    Ok(Made { top, text })
}
