ghost use Rattle.store_core.specs.declared.history.Call.TheVariants.{Commit};
ghost use Rattle.store_core.specs.Masks.{IsMaskOf};
ghost use Rattle.holders.specs.Pieces.{holds_chunk, piece_of};
ghost use Rattle.store_core.specs.Stores.{ChunksBind, IsOf};
ghost use Rattle.store_core.specs.Views.{seat_claims};
ghost use Rattle.store_core.specs.Knowledge.{Called};
ghost use Rattle.store_steps.specs.Words.{CoversGroup, IsGripOf, fixed_of};

use crate::items::store_items;
use bao_check::Checked;
use store_core::mask_below;
use store_steps::{ChunkKind, Grip, Words};

// The mask of the group's chunks that the piece holds.
fn held_in(words: &Words, group: u32, piece: &Checked<'_>) -> u64
    ensures { IsMaskOf group result (λ c. holds_chunk (piece_of (fixed_of words.now).base piece.now) c) }
{
    let base = words.base();
    let (first, after) = piece.chunks();
    let before = mask_below(group, first.saturating_sub(base));
    let until = mask_below(group, after.saturating_sub(base));
    until & !before
}

/// Stores exactly those chunks of a group that the grip claims and the accepted slice has, ends these claims,
/// and returns their mask: bit j stands for chunk 64 * group + j. `claimed` is the mask of the group's chunks
/// that the grip claims. It doesn't allocate.
///
/// For each chunk 129 words are stored; then one `fetch_or` on the held word, where the call linearizes even if
/// the mask is 0, publishes them all. So no reader sees part of a chunk.
///
/// For every blob with the store's root, each chunk stored is the blob's chunk of that index, counted from the
/// base; or the contract exhibits a collision, one input from the blob and one from the slice.
pub fn commit(words: &Words, grip: &mut Grip, group: u32, piece: &Checked<'_>, claimed: u64) -> u64
    requires of { IsGripOf words.now grip.old }
    requires group { CoversGroup words.now group }
    requires piece { IsOf (fixed_of words.now) piece.now }
    requires claimed { IsMaskOf group claimed (λ c. seat_claims grip.old.view c) }
    ensures of { IsGripOf words.now grip.new }
    ensures called { Called (Commit group (piece_of (fixed_of words.now).base piece.now) result) grip.old.view grip.new.view }
    ensures binds { ChunksBind (fixed_of words.now) (piece_of (fixed_of words.now).base piece.now) group result }
{
    // Laws, so that the proof has what they say: nothing runs.
    words.fixed().mode.is_keyed();
    piece.is_accepted();
    let mask = claimed & held_in(words, group, piece);
    store_items::<ChunkKind>(words, grip, group, piece, mask);
    words.publish(grip, group, piece, mask);
    mask
}
