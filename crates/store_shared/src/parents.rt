ghost use Rattle.std.specs.Prelude.{◌≡◌, ◌⊎◌, ◌&&◌, ℕ, [], nat_lt};
ghost use Rattle.store_core.specs.declared.history.Call.TheVariants.{Parents};
ghost use Rattle.store_core.specs.declared.history.Storing.TheVariants.{OtherLength, Stored};
ghost use Rattle.store_core.specs.Masks.{IsMaskOf};
ghost use Rattle.holders.specs.Pieces.{holds_parent, piece_of};
ghost use Rattle.store_core.specs.Stores.{IsOf};
ghost use Rattle.store_shared.specs.Parents.{AreAllParents, SeatParentsBind};
ghost use Rattle.store_core.specs.Knowledge.{AreAllNames, Called};
ghost use Rattle.store_steps.specs.Words.{CoversGroup, IsGripOf, fixed_of};

use crate::items::store_items;
use bao_check::Checked;
use store_core::{GROUP_LEN, Storing, mask_below};
use store_steps::{Grip, ParentKind, Words};

// The mask of the group's boundaries below the capacity of which the piece holds the parent.
fn parents_in(piece: &Checked<'_>, group: u32, capacity: u32) -> u64
    ensures { IsMaskOf group result (λ m. nat_lt m capacity && holds_parent (piece_of 0 piece.now) m) }
{
    mask_below(group, u64::from(capacity)) & piece.parents_of(u64::from(group))
}

/// Stores parents of a group's boundaries that the accepted slice has, and returns `Stored` with their mask:
/// bit j stands for boundary 64 * group + j. It doesn't allocate.
///
/// Parents that are held, or that another grip is storing at that moment, are left out; a grip with all
/// existing names stores all that it hasn't seen held. The mask is 0 if there is no such group. Returns
/// `OtherLength` if the slice claims another length than the recorded one, or none is recorded. The grip is
/// storing no parents before or after the call.
///
/// For each parent 8 words are stored; then one `fetch_or` on the held word of boundaries, where the call
/// linearizes even if the mask is 0, publishes them all. So no reader sees part of a parent. If the length
/// differs or there is no such group, the call linearizes at the load of the length.
///
/// For every blob with the store's root, each parent that the grip has seen held is the blob's at that
/// boundary; or the contract exhibits a collision, one input from the blob and one from the slice that the
/// parent or the recorded length came from.
pub fn commit_parents(words: &Words, grip: &mut Grip, group: u32, piece: &Checked<'_>) -> Storing
    requires of { IsGripOf words.now grip.old }
    requires piece { IsOf (fixed_of words.now) piece.now }
    requires none { grip.old.view.storing ≡ [] }
    ensures of { IsGripOf words.now grip.new }
    ensures called { Called (Parents group (piece_of (fixed_of words.now).base piece.now) result) grip.old.view grip.new.view }
    ensures alone { AreAllNames grip.old.view.names → AreAllParents grip.old.view group (piece_of (fixed_of words.now).base piece.now) result }
    ensures absent { ¬ CoversGroup words.now group → (result ≡ OtherLength) ⊎ (result ≡ Stored 0) }
    ensures binds { SeatParentsBind grip.new.view }
{
    let fixed = words.fixed();
    // A law, so that the proof has what it says: nothing runs.
    fixed.mode.is_keyed();
    let length = words.length_to_store(grip, group, piece);
    if length != Some(piece.claimed()) {
        return Storing::OtherLength;
    }
    if group >= fixed.capacity.div_ceil(GROUP_LEN) {
        return Storing::Stored(0);
    }
    let want = parents_in(piece, group, fixed.capacity);
    let mask = words.claim_parents(grip, group, want);
    store_items::<ParentKind>(words, grip, group, piece, mask);
    words.publish_parents(grip, group, piece, mask);
    Storing::Stored(mask)
}
