ghost use Rattle.std.specs.Prelude.{◌≡◌, ◌≢◌, ◌+◌, ◌*◌, ◌^◌, ◌<◌, ◌≤◌, ◌↔◌, ℕ, All, List, length, None, Ok, Some, IfNone, IfOk, IfSome, IsErr, IsTrue, slice_index_or};
ghost use Rattle.std.specs.Option.{option_copied};
ghost use Rattle.b3word.specs.declared.input.Input.{Input};
ghost use Rattle.b3tree.specs.Hashing.{hash};
ghost use Rattle.bao_check.specs.declared.checked.Checked.{Checked};
ghost use Rattle.bao_check.specs.Checked.{piece_claimed, piece_mode, piece_places, piece_root, piece_text};
ghost use Rattle.bao_check.specs.Pieces.{chunk_in, chunk_of};
ghost use Rattle.bao_text.specs.Choice.{chunk_count};
ghost use Rattle.bao_bind.specs.Verdict.{AgreesWith, Compared, IsFirst, IsForged, IsOfBlob, IsOfOther, IsOurs, NamesFrom, Says};

use crate::chunk_run::ChunkRun;
use crate::search::walk;
use crate::verdict::{AuditFault, Verdict};
use b3tree::{CHUNK_LEN, Hash, Hasher, Input};
use bao_check::Checked;
use bao_text::chunk_count;

// The bytes of a blob that are hashed before their chunks are compared: they are in the cache then.
const SHARE_LEN: usize = 512 * CHUNK_LEN;

// Chunk `number` of a blob, if it has so many.
fn chunk_of(blob: &[u8], number: u64) -> Option<&[u8]>
    ensures { option_copied result ≡ chunk_of blob.now number }
{
    if number < chunk_count(blob.len() as u64) {
        let at = number as usize * CHUNK_LEN;
        let end = blob.len().min(at + CHUNK_LEN);
        Some(&blob[at..end])
    } else {
        None
    }
}

// Whether these bytes of a piece are the blob's chunk of that number and, as the last of the claimed length,
// end the blob.
fn is_ours(blob: &[u8], claimed: u64, number: u64, bytes: &[u8]) -> bool
    ensures { IsTrue result ↔ IsOurs blob.now claimed number bytes.now }
{
    let same = match chunk_of(blob, number) {
        Some(ours) => ours == bytes,
        None => false,
    };
    same && (claimed == blob.len() as u64 || number + 1 != chunk_count(claimed))
}

// The first chunk of the piece that isn't the blob's or, as the last of the claimed length, doesn't end the
// blob: of those before number `to`, where `apart` is that of those before `from`.
fn first_apart<'a>(
    blob: &[u8],
    piece: &Checked<'a>,
    from: u64,
    to: u64,
    apart: Option<ChunkRun<'a>>,
) -> Option<ChunkRun<'a>>
    ensures { Compared blob.now piece.now from apart.entry → Compared blob.now piece.now to result }
{
    if let Some(chunk) = apart {
        return Some(chunk);
    }
    let claimed = piece.claimed();
    let (first, after) = piece.chunks();
    'chunks: for number in first.max(from)..after.min(to) {
        if let Some(bytes) = piece.chunk(number) {
            if !is_ours(blob, claimed, number, bytes) {
                return Some(ChunkRun {
                    first: number,
                    bytes,
                });
            }
        }
    }
    None
}

// The blob's hash in the piece's mode, and the first chunk of the piece that isn't the blob's. Each share of
// the blob is compared as soon as it was hashed.
fn hash_and_compare<'a>(blob: &[u8], piece: &Checked<'a>) -> (Hash, Option<ChunkRun<'a>>)
    ensures hash { result.0.0 ≡ hash (piece_mode piece.now) blob.now }
    ensures agrees { IfNone result.1 (AgreesWith blob.now piece.now) }
    ensures there { IfSome result.1 (λ chunk. chunk_in (piece_text piece.now) (piece_places piece.now) chunk.first ≡ Some chunk.bytes.now) }
    ensures apart { IfSome result.1 (λ chunk. ¬ IsOurs blob.now (piece_claimed piece.now) chunk.first chunk.bytes.now) }
{
    let len = blob.len();
    let mut hasher = Hasher::new(&piece.mode());
    let mut apart = None;
    let mut number = 0;
    let mut rest = blob;
    'shares: while !rest.is_empty() {
        let (share, others) = rest.split_at(rest.len().min(SHARE_LEN));
        if hasher.update(share).is_err() {
            // A blob in memory has fewer bytes than that.
            unreachable!();
        }
        rest = others;
        let end = ((len - rest.len()) / CHUNK_LEN) as u64;
        apart = first_apart(blob, piece, number, end, apart);
        number = end;
    }
    let (_, after) = piece.chunks();
    let apart = first_apart(blob, piece, number, after, apart);
    (hasher.finalize(), apart)
}

/// Compares the chunks of an accepted slice with those of `blob`, and returns two colliding compression inputs
/// if one differs: hashing the blob compresses `ours`, checking the slice compresses `theirs`, and both have
/// the same chaining value.
///
/// Refuses with 601 `OtherRoot` exactly if the blob's hash in the slice's mode isn't the slice's root.
/// Otherwise it returns `Agrees` exactly if each chunk of the slice is the blob's chunk of that index and,
/// where the slice has a tail, its length is the blob's. It doesn't allocate, and costs a hash of the blob and
/// a comparison.
pub fn audit(blob: &[u8], piece: &Checked<'_>) -> Result<Verdict, AuditFault>
    ensures other_root { IsErr result ↔ (hash (piece_mode piece.now) blob.now ≢ piece_root piece.now) }
    ensures says { IfOk result (λ verdict. Says blob.now piece.now verdict) }
{
    let (hash, apart) = hash_and_compare(blob, piece);
    if hash != piece.root() {
        return Err(AuditFault::OtherRoot);
    }
    let Some(chunk) = apart else {
        return Ok(Verdict::Agrees);
    };
    let mode = piece.mode();
    // A law, so that the proof has what it says: nothing runs.
    mode.is_keyed();
    let ours = ChunkRun {
        first: 0,
        bytes: blob,
    };
    match walk(&mode, piece, true, &ours, 0, piece.claimed(), &chunk) {
        Some(pair) => Ok(Verdict::Collision {
            ours: pair.ours,
            theirs: pair.theirs,
        }),
        // Where nothing differs on the way, it ends in the blob's own chunk.
        None => unreachable!(),
    }
}

/// Audits accepted slices against `blob` in order, as `audit` does. Returns `None` if all agree, else the index
/// (from 0) of the first that doesn't, with the blob's and the slice's colliding input.
///
/// Refuses with 601 `OtherRoot` exactly if the first slice that doesn't agree has another root; the later ones
/// aren't examined. It doesn't allocate, and costs a hash of the blob and a comparison for each slice that it
/// audits.
pub fn audit_all(
    blob: &[u8],
    pieces: &[Checked<'_>],
) -> Result<Option<(usize, Input, Input)>, AuditFault>
    ensures none { (result ≡ Ok None) ↔ All (IsOfBlob blob.now) pieces.now }
    ensures forged { (i : ℕ) → ((ours theirs : Input) × (result ≡ Ok (Some (i, ours, theirs)))) ↔ IsFirst (IsForged blob.now) blob.now pieces.now i }
    ensures names { IfOk result (λ found. IfSome found (λ at. (d : Checked) → NamesFrom blob.now (slice_index_or pieces.now at.0 d) at.1 at.2)) }
    ensures other_root { IsErr result ↔ ((i : ℕ) × IsFirst (IsOfOther blob.now) blob.now pieces.now i) }
{
    'audits: for (index, piece) in pieces.iter().enumerate() {
        match audit(blob, piece)? {
            Verdict::Agrees => {}
            Verdict::Collision { ours, theirs } => return Ok(Some((index, ours, theirs))),
        }
    }
    Ok(None)
}
