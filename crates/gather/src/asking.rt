ghost use Rattle.std.specs.Prelude.{ℕ, IsTrue, IfOk, ◌↔◌, ◌<◌};
ghost use Rattle.gather.specs.Asked.{HasChunk, HasGroup, IsChunk, IsEnd, IsGroup, IsMade, IsPart, IsSliceCheck};
ghost use Rattle.holders.specs.Forms.{IsLengthOf};
ghost use Rattle.holders.specs.Pieces.{piece_of};

use bao_check::{CheckFault, Checked, GROUP_BYTES, check_bare, check_slice};
use bao_text::chunk_count;
use holders::{ByteRange, Fixed, Form};
use std::alloc::Global;

// Bytes of a chunk, for numbers of bytes.
const CHUNK_LEN: u64 = b3tree::CHUNK_LEN as u64;

// Whether it is of a blob of this length: slices are of each.
pub(crate) fn is_of(form: &Form<'_>, length: u64) -> bool
    ensures { IsTrue result ↔ IsLengthOf form.now length }
{
    match form {
        Form::Slices => true,
        Form::Bare(outline) => outline.claimed() == length,
    }
}

// What is asked for the length: the last chunk.
pub(crate) fn end(form: &Form<'_>) -> ByteRange
    ensures end { IsEnd form.now result }
    ensures part { IsPart form.now result }
{
    match form {
        Form::Slices => ByteRange {
            start: u64::MAX,
            len: 1,
        },
        Form::Bare(outline) => {
            let total = outline.claimed();
            let last = chunk_count(total) - 1;
            let start = CHUNK_LEN * last;
            ByteRange {
                start,
                len: total - start,
            }
        }
    }
}

// What is asked for a group's chunks.
pub(crate) fn group(form: &Form<'_>, group: u32) -> ByteRange
    requires { HasGroup form.now group }
    ensures group { IsGroup form.now group result }
    ensures part { IsPart form.now result }
{
    let start = GROUP_BYTES * u64::from(group);
    match form {
        Form::Slices => ByteRange {
            start,
            len: GROUP_BYTES,
        },
        Form::Bare(outline) => ByteRange {
            start,
            len: GROUP_BYTES.min(outline.claimed().saturating_sub(start)),
        },
    }
}

// What is asked for a chunk.
pub(crate) fn chunk(form: &Form<'_>, chunk: u64) -> ByteRange
    requires number { chunk < 65536 }
    requires chunk { HasChunk form.now chunk }
    ensures chunk { IsChunk form.now chunk result }
    ensures part { IsPart form.now result }
{
    let start = CHUNK_LEN * chunk;
    match form {
        Form::Slices => ByteRange {
            start,
            len: CHUNK_LEN,
        },
        Form::Bare(outline) => ByteRange {
            start,
            len: CHUNK_LEN.min(outline.claimed().saturating_sub(start)),
        },
    }
}

// Checks what was given for a part: slices under this root and in this mode.
pub(crate) fn check<'b>(
    alloc: Global,
    form: &'b Form<'_>,
    fixed: &Fixed,
    part: &ByteRange,
    text: &'b [u8],
) -> Result<Checked<'b>, CheckFault>
    requires { IsPart form.now part.now }
    ensures made { IfOk result (λ piece. (base : ℕ) → IsMade form.now part.now text.now (piece_of base piece)) }
    ensures slice { IsSliceCheck form.now fixed.now part.now text.now result }
{
    match form {
        Form::Slices => check_slice(alloc, &fixed.mode, &fixed.root, part.start, part.len, text),
        Form::Bare(outline) => {
            let first = part.start / CHUNK_LEN;
            let count = chunk_count(part.len);
            check_bare(outline, first, count, text)
        }
    }
}
