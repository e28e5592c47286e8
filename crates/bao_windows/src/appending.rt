ghost use Rattle.std.specs.Prelude.{◌≡◌, ◌+◌, ◌*◌, ◌%◌, ◌^◌, ◌<◌, false, true, length, take, IfOk};
ghost use Rattle.holders.specs.Pieces.{piece_of};
ghost use Rattle.bao_windows.specs.Windows.{AddsOf, LacksChunk, TakesOf};

use b3tree::CHUNK_LEN;
use bao_check::Checked;
use std::alloc::AllocError;

// Bytes of a chunk, for numbers of bytes.
pub(crate) const CHUNK_BYTES: u64 = CHUNK_LEN as u64;

// Appends the bytes of the piece's chunks, `len` bytes from byte `at` on, and answers whether all were appended: up to the first chunk
// that the piece lacks.
fn append_chunks(
    piece: &Checked<'_>,
    at: u64,
    len: u64,
    into: &mut Vec<u8>,
) -> Result<bool, AllocError>
    requires aligned { at % 1024 ≡ 0 }
    requires range { at + len < 2 ^ 64 }
    ensures all { IfOk result (λ all. all ≡ true → AddsOf piece.now at len into.old.items into.new.items) }
    ensures lacks { IfOk result (λ all. all ≡ false → LacksChunk (piece_of 0 piece.now) at len) }
    ensures kept { take (length into.old.items) into.new.items ≡ into.old.items }
{
    let mut came: u64 = 0;
    'chunks: while came < len {
        let count = CHUNK_BYTES.min(len - came);
        let Some(bytes) = piece.chunk((at + came) / CHUNK_BYTES) else {
            return Ok(false);
        };
        if bytes.len() as u64 != count {
            return Ok(false);
        }
        into.extend_from_slice(bytes)?;
        came += count;
    }
    Ok(true)
}

// Appends `len` bytes of the piece from byte `at` on, or, where it lacks a chunk of them, nothing, and answers whether it did.
pub(crate) fn append_part(
    piece: &Checked<'_>,
    at: u64,
    len: u64,
    into: &mut Vec<u8>,
) -> Result<bool, AllocError>
    requires aligned { at % 1024 ≡ 0 }
    requires range { at + len < 2 ^ 64 }
    ensures { IfOk result (λ took. TakesOf took piece.now at len into.old.items into.new.items) }
{
    let before = into.len();
    if append_chunks(piece, at, len, into)? {
        return Ok(true);
    }
    into.truncate(before);
    Ok(false)
}
