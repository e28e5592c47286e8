// What crews' rounds leave to nobody.

ghost use Rattle.std.specs.Prelude.{◌≡◌, ◌⊎◌, ◌<◌, ◌≤◌, All, ℕ, List, false, length};
ghost use Rattle.bao_text.specs.Choice.{chunk_count};
ghost use Rattle.gather.specs.Crews.{Each};
ghost use Rattle.gather.specs.SeatLasting.{IsAlone};
ghost use Rattle.determined_stores.specs.Serves.{HasChunksBeside, HasEveryNode};
ghost use Rattle.holders.specs.Available.{HaveSlices};
ghost use Rattle.gather.specs.Counts.{HasFailed, IsToldTooLarge};
ghost use Rattle.holders.specs.declared.grain.Grain.TheVariants.{Group as ByGroup};
ghost use Rattle.holders.specs.Holders.{IsHanded};
ghost use Rattle.store_core.specs.Histories.{state_after};
ghost use Rattle.holders.specs.Blobs.{IsBlob};
ghost use Rattle.store_core.specs.Stores.{CollisionSettled};
ghost use Rattle.store_core.specs.Views.{seat_claims};
ghost use Rattle.store_shared.specs.Seats.{IsSeatOf, fixed_of};

use gather::{Crew, Holder, Open, run};
use std::alloc::Global;
use std::slice::from_mut;
use std::thread::Threads;
use store_shared::Assembly;

// A crew that is alone, claims nothing, and whose holders have the blob's slices between them, fills its store: its seat has seen every
// node of the blob held, as `peer_fills` wants it. Memory was refused in this call otherwise, or a collision is exhibited.
pub fn run_alone_fills<R: Threads + Sync, H: Holder + Send>(
    rt: &R,
    alloc: Global,
    assembly: &Assembly,
    crew: &mut Crew<H>,
)
    requires of { IsSeatOf assembly.now crew.old.seat }
    requires alone { IsAlone crew.old.seat.view }
    requires free { (c : ℕ) → seat_claims crew.old.seat.view c ≡ false }
    ensures { (blob : List ℕ) → IsBlob (fixed_of assembly.now) blob → (fixed_of assembly.now).base ≡ 0 → chunk_count (length blob) ≤ (fixed_of assembly.now).capacity
        → HaveSlices ByGroup H.gives (fixed_of assembly.now).mode blob crew.old.holders.items
        → HasFailed crew.new.report ⊎ IsToldTooLarge crew.new.report (IsHanded H.gives crew.old.holders.items) (fixed_of assembly.now)
        ⊎ HasEveryNode (state_after crew.new.seat.view.seen) blob ⊎ ((l : ℕ) × CollisionSettled (fixed_of assembly.now) crew.new.seat.view.seen blob l) }
{
    // For the prover alone: the flags of a mode are apart from the tree's.
    assembly.mode().is_keyed();
    run(rt, alloc, assembly, from_mut(crew), &Open);
}

// Of crews that claim nothing, each whose holders have the blob's slices between them has seen every chunk held in the end, or claimed by
// somebody who is none of them. Memory was refused to it in this call otherwise, or a collision is exhibited.
pub fn run_fills<R: Threads + Sync, H: Holder + Send>(
    rt: &R,
    alloc: Global,
    assembly: &Assembly,
    crews: &mut [Crew<H>],
)
    requires count { (0 < length crews.old) × (length crews.old ≤ 64) }
    requires of { All (λ crew. IsSeatOf assembly.now crew.seat) crews.old }
    requires free { All (λ crew. (c : ℕ) → seat_claims crew.seat.view c ≡ false) crews.old }
    ensures { (blob : List ℕ) → IsBlob (fixed_of assembly.now) blob → (fixed_of assembly.now).base ≡ 0 → chunk_count (length blob) ≤ (fixed_of assembly.now).capacity
        → Each (λ old new. HaveSlices ByGroup H.gives (fixed_of assembly.now).mode blob old.holders.items
        → HasFailed new.report ⊎ IsToldTooLarge new.report (IsHanded H.gives old.holders.items) (fixed_of assembly.now)
        ⊎ HasChunksBeside crews.old old.seat.view new.seat.view blob ⊎ ((l : ℕ) × CollisionSettled (fixed_of assembly.now) new.seat.view.seen blob l)) crews.old crews.new }
{
    // For the prover alone: the flags of a mode are apart from the tree's.
    assembly.mode().is_keyed();
    run(rt, alloc, assembly, crews, &Open);
}
