ghost use Rattle.std.specs.Prelude.{◌≡◌, ◌↔◌, ◌-◌, ◌/◌, ◌<◌, min, IfOk, IsOk, OnOk};
ghost use Rattle.bao_text.specs.Choice.{chunk_count};
ghost use Rattle.bao_check.specs.Checked.{piece_mode, piece_root};
ghost use Rattle.holders.specs.Pieces.{piece_of};
ghost use Rattle.bao_windows.specs.Available.{IsFitting, IsWithin, gives_in, span_in};
ghost use Rattle.bao_windows.specs.Asked.{ClaimsLess, IsAcceptedIn, IsAnswer, made_in, mode_in, root_in};

use crate::appending::CHUNK_BYTES;
use crate::fetching::pass_over;
use crate::wanted::Wanted;
use b3par::Source;
use b3tree::bytes_are;
use bao_check::{CheckFault, Checked, check_bare, check_slice};
use bao_text::chunk_count;
use holders::{ByteRange, Encoded, Form, Holder, Plain};
use std::alloc::{AllocError, Global};

// How many chunks of a plain copy a range is checked by: as many as it has, up to the end of the length that the outline claims.
fn chunks_in(claimed: u64, range: ByteRange) -> u64
    requires { range.start / 1024 < chunk_count claimed }
    ensures { result ≡ min (chunk_count range.len) (chunk_count claimed - range.start / 1024) }
{
    chunk_count(range.len).min(chunk_count(claimed) - range.start / CHUNK_BYTES)
}

// Fetches what a source gives for a range: nothing, where a read fails.
fn fetch_range<S: Source>(
    form: &Form<'_>,
    source: &S,
    range: ByteRange,
    room: &mut Vec<u8>,
) -> Result<(), AllocError>
    requires { IsWithin form.now range.start }
    ensures less { OnOk result (ClaimsLess form.now) }
    ensures given { OnOk result (gives_in form.now S.contents S.faultless source.now range.start (span_in form.now range.start range.len) room.new.items) }
{
    room.clear();
    match form {
        Form::Slices => pass_over(Encoded::at(source).fetch(range.start, range.len, room))?,
        Form::Bare(outline) => {
            let total = outline.claimed();
            let len = CHUNK_BYTES
                .saturating_mul(chunks_in(total, range))
                .min(total.saturating_sub(range.start));
            pass_over(Plain::at(source).fetch(range.start, len, room))?
        }
    }
    Ok(())
}

// Checks what was given for a range.
fn check_range<'b>(
    alloc: Global,
    wanted: &'b Wanted<'_>,
    range: ByteRange,
    text: &'b [u8],
) -> Result<Checked<'b>, CheckFault>
    requires { IsWithin wanted.now.form range.start }
    ensures accepted { IsOk result ↔ IsAcceptedIn wanted.now (made_in wanted.now.form range.start range.len text.now) }
    ensures piece { IfOk result (λ piece. piece_of 0 piece ≡ made_in wanted.now.form range.start range.len text.now) }
    ensures under { IfOk result (λ piece. (piece_mode piece ≡ mode_in wanted.now.form wanted.now) × (piece_root piece ≡ root_in wanted.now.form wanted.now)) }
{
    match &wanted.form {
        Form::Slices => check_slice(
            alloc,
            &wanted.mode,
            &wanted.root,
            range.start,
            range.len,
            text,
        ),
        Form::Bare(outline) => {
            let count = chunks_in(outline.claimed(), range);
            check_bare(outline, range.start / CHUNK_BYTES, count, text)
        }
    }
}

/// Asks a source for a range of the blob, as the form says, and checks what it gives: the slice of these bytes
/// under the root in the mode, or, beside an outboard encoding, the chunks that the range begins in, up to the
/// end of the length that this claims, under its root in its mode.
///
/// The result is the accepted slice, or `None` if what the source gave isn't accepted; a source whose read fails
/// gives nothing. `room` holds what it gave, and its capacity is used again. Refuses with `AllocError`.
pub fn ask<'b, S: Source>(
    alloc: Global,
    wanted: &'b Wanted<'_>,
    source: &S,
    range: ByteRange,
    room: &'b mut Vec<u8>,
) -> Result<Option<Checked<'b>>, AllocError>
    requires { IsWithin wanted.now.form range.start }
    ensures { IfOk result (IsAnswer S.contents S.faultless wanted.now source.now range.start range.len) }
{
    fetch_range(&wanted.form, source, range, room)?;
    // For the prover alone: the elements of a text are bytes.
    bytes_are(room.as_slice());
    match check_range(alloc, wanted, range, room.as_slice()) {
        Ok(piece) => {
            // For the prover alone: an accepted piece's encoding is of bytes.
            piece.is_accepted();
            Ok(Some(piece))
        }
        Err(_) => Ok(None),
    }
}
