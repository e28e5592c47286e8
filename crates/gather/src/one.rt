ghost use Rattle.std.specs.Prelude.{◌≡◌, ◌≤◌, ◌+◌, ◌⊎◌, ℕ, List, IsTrue, true, is_some, length, sum_by};
ghost use Rattle.store_core.specs.Stores.{fixed_of, state_of};
ghost use Rattle.gather.specs.Claims.{Among};
ghost use Rattle.bao_text.specs.Choice.{chunk_count};
ghost use Rattle.gather.specs.Filled.{HasAllParents, IsFilled};
ghost use Rattle.holders.specs.Available.{HaveSlices};
ghost use Rattle.holders.specs.declared.grain.Grain.TheVariants.{Group as ByGroup};
ghost use Rattle.gather.specs.Counts.{HasFailed, IsAnswered, IsToldTooLarge, Still};
ghost use Rattle.gather.specs.Lasting.{HasParent, HoldsChunk, IsBusy, Records};
ghost use Rattle.holders.specs.Blobs.{IsBlob};
ghost use Rattle.holders.specs.Holders.{AreLater, IsHanded, IsNone};
ghost use Rattle.holders.specs.Blobs.{AreLonger, IsTooLarge};
ghost use Rattle.gather.specs.Worked.{AddsBlobs, AddsCertified, Gains, HasWorked, worker_claims};

use crate::completing::closing_round;
use crate::report::Report;
use crate::shelf::Shelf;
use crate::worker::{Place, work};
use bao_check::{Checked, Tail, accepted_binds};
use holders::{Fixed, Form, Holder};
use std::alloc::Global;
use store_core::{Settling, Store, StoreFault};

// The seat number of the worker of a one-thread store.
const SEAT: u32 = 0;

// The shelf of a one-thread store, which is its one worker's seat and has all there is to say of it.
#[derive(Drop)]
struct Alone;

impl Shelf for Alone {
    ghost use Rattle.gather.specs.Working.{goes_work};
    ghost use Rattle.gather.specs.Lasting.{HasParent, HoldsChunk, IsBusy, Records, lasts_work};
    ghost use Rattle.store_core.specs.Stores.{fixed_of};

    type Seat = Store;

    ghost has = { λ _ _. Unit {0} };

    ghost fixed_of = { λ store. fixed_of store };

    ghost claims = { λ store. worker_claims store };

    ghost gained = { λ handed old new chunks parents. HasWorked handed old new chunks parents };

    ghost goes = { goes_work };

    ghost records = { λ store l. Records store l };

    ghost holds = { λ store c. HoldsChunk store c };

    ghost has_parent = { λ store m. HasParent store m };

    ghost busy = { λ old new c. IsBusy old new c };

    ghost lasts = { lasts_work };

    fn fixed(&self, store: &Store) -> Fixed {
        store.fixed()
    }

    fn take(&self, store: &mut Store, group: u32, want: u64) -> Result<u64, StoreFault> {
        store.take(SEAT, group, want)
    }

    fn give(&self, store: &mut Store, group: u32, mask: u64) -> u64 {
        store.give(SEAT, group, mask)
    }

    fn commit(
        &self,
        store: &mut Store,
        group: u32,
        piece: &Checked<'_>,
    ) -> Result<u64, StoreFault> {
        store.commit(SEAT, group, piece)
    }

    fn commit_parents(
        &self,
        store: &mut Store,
        group: u32,
        piece: &Checked<'_>,
    ) -> Result<u64, StoreFault> {
        store.commit_parents(group, piece)
    }

    // No parent that is held is asked for again.
    fn has_parent(&self, store: &mut Store, boundary: u32) -> bool
        ensures still { Still (HasWorked IsNone) worker_claims store.old store.new }
        ensures held { result ≡ true → HasParent store.new boundary }
        ensures all { result ≡ is_some ((state_of store.old).parents boundary) }
    {
        store.has_parent(boundary)
    }

    #[tactic(auto, using(crate::proofs::Alone::settles_still, crate::proofs::Alone::settles_large, crate::proofs::Knowing::settle_records))]
    fn settle(&self, store: &mut Store, tail: &Tail<'_>) -> Settling {
        // For the prover alone: a tail is of a piece with its last chunk.
        tail.is_last();
        store.settle(tail)
    }

    fn length(&self, store: &mut Store) -> Option<u64> {
        store.length()
    }
}

/// Gathers what a store lacks of its blob from untrusted holders: one worker, whose seat is 0. The store's base
/// is 0.
///
/// If no length is recorded, the worker asks its holders in order for the last chunk, checks what each supplies
/// and settles the length that it certifies, until one is recorded. It ends if none comes, or if one is above
/// the store's capacity. Then, for each group of 64 chunks that the length needs, it takes the group's chunks,
/// asks its holders in order, each once, for those bytes, checks and commits what each supplies until none of
/// the granted chunks is left, and gives the rest back. From an encoding that it settled or committed from, it
/// also stores the parents. All this is done twice. Last, for each group of which a parent isn't held, whichever
/// of its chunks are, it asks its holders in order for the group and stores the parents of what is accepted,
/// until none is missing. Everything is checked under the store's root in its mode.
///
/// It refuses nothing. Refused memory is counted in the report: if a take is refused, the group is skipped,
/// else the next holder is asked.
///
/// What the worker did is a history of its own calls, with slices that its holders may have supplied, accepted
/// under the store's root. For every blob with that root, each chunk stored is the blob's of that index,
/// counted from the base; or the contract exhibits a collision: two different inputs with the same chaining
/// value, one from the blob and one from that slice. No claim remains that the worker made.
///
/// It suffices that, for a blob with the root that fits the store, one holder supplies the slice of the last
/// byte, and for each group of its chunks some holder supplies the group's slice, whatever they supply
/// otherwise, and even if other devices fail. If no memory was refused and no accepted slice certifies a length
/// that is too large, a length is then recorded; and if it is that blob's, each of its chunks is held, or was
/// already claimed by another seat, and each of its parents is held. So once all chunks are held, only memory
/// can refuse a slice.
///
/// In the report, `committed` and `parents` are how many chunks and parents were stored, and `failed` is at
/// most the rise of the holders' counts. `too_large` is set only if an accepted slice certifies a length that
/// doesn't fit the store: then no blob with the root fits, or such a collision is exhibited.
pub fn run_one<H: Holder>(alloc: Global, store: &mut Store, holders: &mut [H]) -> Report
    ensures worked { Gains (IsHanded H.gives holders.old) store.old store.new result }
    ensures certified { AddsCertified (IsHanded H.gives holders.old) store.old store.new }
    ensures binds { AddsBlobs (IsHanded H.gives holders.old) store.old store.new }
    ensures later { AreLater H.gives holders.old holders.new }
    ensures claims { Among (worker_claims store.old) (worker_claims store.new) }
    ensures failed { result.failed + sum_by H.count holders.old ≤ sum_by H.count holders.new }
    ensures answered { IsAnswered result }
    ensures too_large { IsTrue result.too_large → IsTooLarge (IsHanded H.gives holders.old) (fixed_of store.old) }
    ensures longer { IsTrue result.too_large → AreLonger (IsHanded H.gives holders.old) (fixed_of store.old) }
    ensures available { (blob : List ℕ) → IsBlob (fixed_of store.old) blob → (fixed_of store.old).base ≡ 0 → chunk_count (length blob) ≤ (fixed_of store.old).capacity
        → HaveSlices ByGroup H.gives (fixed_of store.old).mode blob holders.old
        → HasFailed result ⊎ IsToldTooLarge result (IsHanded H.gives holders.old) (fixed_of store.old) ⊎ IsFilled Records HoldsChunk IsBusy store.old store.new blob }
    ensures complete { (blob : List ℕ) → IsBlob (fixed_of store.old) blob → (fixed_of store.old).base ≡ 0 → chunk_count (length blob) ≤ (fixed_of store.old).capacity
        → HaveSlices ByGroup H.gives (fixed_of store.old).mode blob holders.old
        → HasFailed result ⊎ IsToldTooLarge result (IsHanded H.gives holders.old) (fixed_of store.old) ⊎ HasAllParents Records HasParent store.new blob }
{
    let place = Place {
        number: 0,
        workers: 1,
    };
    let fixed = store.fixed();
    // For the prover alone: the flags of a mode are apart from the tree's, and what is accepted binds.
    fixed.mode.is_keyed();
    accepted_binds();
    let mut report = Report::new();
    work(alloc, &Alone, store, holders, place, &mut report);
    closing_round(
        alloc,
        &Form::Slices,
        &Alone,
        store,
        holders,
        place,
        &mut report,
    );
    report
}
