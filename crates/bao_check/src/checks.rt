ghost use Rattle.std.specs.Prelude.{◌↔◌, ◌-◌, ◌*◌, ◌^◌, IfErr, IfOk, IsOk, IsTrue, MatchResult};
ghost use Rattle.bao_check.specs.Bare.{AreBare, AreChunksOf, IsBareFault, bare_part};
ghost use Rattle.bao_check.specs.Beside.{beside_text};
ghost use Rattle.bao_check.specs.Accepted.{IsAccepted, outboard_nodes, slice_nodes};
ghost use Rattle.bao_check.specs.Faults.{IsFirstFault};
ghost use Rattle.bao_check.specs.Forms.{form_nodes};
ghost use Rattle.bao_check.specs.Checked.{IsPiece};
ghost use Rattle.bao_check.specs.Outline.{IsOutline, outline_mode, outline_root, outline_text};

use crate::asked::Asked;
use crate::bare::Bare;
use crate::checked::Checked;
use crate::fault::CheckFault;
use crate::form::EncodingForm;
use crate::outline::Outline;
use crate::walk::check_subtree;
use b3tree::{CHUNK_LEN, Cv, Hash, Mode};
use bao_text::{LENGTH_LEN, chunk_count, claimed};
use std::alloc::Global;

// Checks an encoding of the form that is there as a whole.
fn check_bytes(mode: &Mode, root: &Hash, form: &EncodingForm, text: &[u8]) -> Result<(), CheckFault>
    ensures { MatchResult result (λ _. IsAccepted mode.now root.now.0 text.now (form_nodes form.now text.now))
        (λ fault. IsFirstFault mode.now root.now.0 text.now (form_nodes form.now text.now) fault) }
{
    if text.len() < LENGTH_LEN {
        return Err(CheckFault::Short { at: 0 });
    }
    let total = claimed(text);
    let choice = form.choice(total);
    let asked = Asked::of_root(root);
    let at = check_subtree(text, LENGTH_LEN, &choice, mode, &asked, 0, total)?;
    if at < text.len() {
        return Err(CheckFault::Trailing { at: at as u64 });
    }
    Ok(())
}

/// Checks `text` as the slice of `len` bytes from byte `start` on of the blob with the hash `root` in `mode`
/// (Bao specification, on decoding).
///
/// It is accepted exactly if it is the claimed length, followed by the slice's nodes for that length, each with
/// the value required there (the root's at the top, else its half of the parent above), and nothing else. A
/// claimed length is never refused for its size. The call doesn't allocate, and copies nothing.
///
/// Refuses with the first fault: 501 `Short`, 502 `Mismatch` or 503 `Trailing`, never 504. A node is read as a
/// whole and verified before the next.
#[tactic(auto, using(crate::proofs::Laws::apart))]
pub fn check_slice<'a>(
    // Not used: it is there so that a later body may take memory.
    _alloc: Global,
    mode: &Mode,
    root: &Hash,
    start: u64,
    len: u64,
    text: &'a [u8],
) -> Result<Checked<'a>, CheckFault>
    ensures accepted { IsOk result ↔ IsAccepted mode.now root.now.0 text.now (slice_nodes text.now start len) }
    ensures piece { IfOk result (λ piece. IsPiece piece mode.now root.now.0 start len text.now) }
    ensures fault { IfErr result (λ fault. IsFirstFault mode.now root.now.0 text.now (slice_nodes text.now start len) fault) }
{
    check_bytes(mode, root, &EncodingForm::Slice { start, len }, text)?;
    Ok(Checked::new(mode, root, start, len, text))
}

/// Checks `text` as the combined encoding of the blob with the hash `root` in `mode`: as `check_slice` from
/// byte 0 on with the length 2^64 - 1.
pub fn check_combined<'a>(
    alloc: Global,
    mode: &Mode,
    root: &Hash,
    text: &'a [u8],
) -> Result<Checked<'a>, CheckFault>
    ensures accepted { IsOk result ↔ IsAccepted mode.now root.now.0 text.now (slice_nodes text.now 0 (2 ^ 64 - 1)) }
    ensures piece { IfOk result (λ piece. IsPiece piece mode.now root.now.0 0 (2 ^ 64 - 1) text.now) }
    ensures fault { IfErr result (λ fault. IsFirstFault mode.now root.now.0 text.now (slice_nodes text.now 0 (2 ^ 64 - 1)) fault) }
{
    check_slice(alloc, mode, root, 0, u64::MAX, text)
}

/// Checks `text` as the outboard encoding of the blob with the hash `root` in `mode` (Bao specification, on
/// outboard encodings).
///
/// It is accepted exactly if it is the claimed length, followed by the parents for that length, each with the
/// value required there, and nothing else. A length of at most one chunk has no parent, so its 8 bytes alone
/// are accepted under every root. The call doesn't allocate, and copies nothing. Refuses with the first fault,
/// as `check_slice` does.
#[tactic(auto, using(crate::proofs::Laws::apart))]
pub fn check_outboard<'a>(
    _alloc: Global,
    mode: &Mode,
    root: &Hash,
    text: &'a [u8],
) -> Result<Outline<'a>, CheckFault>
    ensures accepted { IsOk result ↔ IsAccepted mode.now root.now.0 text.now (outboard_nodes text.now) }
    ensures outline { IfOk result (λ outline. IsOutline outline mode.now root.now.0 text.now) }
    ensures fault { IfErr result (λ fault. IsFirstFault mode.now root.now.0 text.now (outboard_nodes text.now) fault) }
{
    check_bytes(mode, root, &EncodingForm::Outboard, text)?;
    Ok(Outline::new(mode, root, text))
}

/// Returns whether `count` chunks from chunk `first` on are chunks of the length that `outline` claims: `count`
/// is at least 1, and `first + count` at most the number of its chunks.
pub fn bare_fits(outline: &Outline<'_>, first: u64, count: u64) -> bool
    ensures { IsTrue result ↔ AreChunksOf outline.now first count }
{
    let chunks = chunk_count(outline.claimed());
    count >= 1 && count <= chunks && first <= chunks - count
}

// Verifies each of the chunks by the outline's value for it.
fn check_chunks(
    outline: &Outline<'_>,
    first: u64,
    count: u64,
    chunks: &[u8],
) -> Result<(), CheckFault>
    requires { AreChunksOf outline.now first count }
    ensures { MatchResult result (λ _. AreBare (outline_mode outline.now) (outline_root outline.now) (outline_text outline.now) first count chunks.now)
        (λ fault. IsBareFault (outline_mode outline.now) (outline_root outline.now) (outline_text outline.now) first count chunks.now fault) }
{
    let total = outline.claimed();
    let bare = Bare {
        mode: outline.mode(),
        outline: outline.text,
        first,
        after: first + count,
        chunks,
    };
    let asked = Asked::of_root(&outline.root());
    bare.check_part(&asked, 0, total, LENGTH_LEN, None)?;
    let start = CHUNK_LEN as u64 * first;
    let at = start
        .saturating_add((CHUNK_LEN as u64).saturating_mul(count))
        .min(total)
        - start;
    if at < chunks.len() as u64 {
        return Err(CheckFault::Trailing { at });
    }
    Ok(())
}

/// Checks `chunks`, a range of a plain copy, as the `count` chunks from chunk `first` on of the blob that
/// `outline` describes. `bare_fits` tells which ranges there are.
///
/// They are accepted exactly if each chunk is complete and has the outline's value for it (a single chunk that
/// of the root), and nothing follows the last. This is so exactly if the slice encoding made of the outline's
/// length and parents and of `chunks` is accepted, and the result is that slice. The call doesn't allocate, and
/// copies nothing.
///
/// Refuses with the first fault in the order of the chunks: 501 `Short` at a chunk that isn't complete, 502
/// `Mismatch` at one that doesn't have the outline's value, 503 `Trailing` at what follows the last; never 504.
/// `at` is an offset in `chunks`, where chunk k begins at `1,024 * (k - first)`.
pub fn check_bare<'a>(
    outline: &'a Outline<'a>,
    first: u64,
    count: u64,
    chunks: &'a [u8],
) -> Result<Checked<'a>, CheckFault>
    requires { AreChunksOf outline.now first count }
    ensures accepted { IsOk result ↔ AreBare (outline_mode outline.now) (outline_root outline.now) (outline_text outline.now) first count chunks.now }
    ensures slice { IsOk result ↔ IsAccepted (outline_mode outline.now) (outline_root outline.now)
        (beside_text (outline_text outline.now) (1024 * first) (bare_part count) chunks.now)
        (slice_nodes (beside_text (outline_text outline.now) (1024 * first) (bare_part count) chunks.now) (1024 * first) (bare_part count)) }
    ensures piece { IfOk result (λ piece. IsPiece piece (outline_mode outline.now) (outline_root outline.now) (1024 * first) (bare_part count)
        (beside_text (outline_text outline.now) (1024 * first) (bare_part count) chunks.now)) }
    ensures fault { IfErr result (λ fault. IsBareFault (outline_mode outline.now) (outline_root outline.now) (outline_text outline.now) first count chunks.now fault) }
{
    // A law, so that the proof has what it says: nothing runs.
    outline.is_of_bytes();
    check_chunks(outline, first, count, chunks)?;
    let chunk_len = CHUNK_LEN as u64;
    Ok(Checked::beside(
        &outline.mode(),
        &outline.root(),
        chunk_len * first,
        chunk_len.saturating_mul(count),
        outline,
        chunks,
    ))
}
