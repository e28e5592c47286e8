// One worker, and crews of several.
//
// Which chunks and parents are stored isn't determined where no holder has a blob's slices, and several workers meet
// as their threads run: so no count of a report is, but that all workers' sums are those of their reports. `texts` has
// the law for texts of which one is whole.

ghost use Rattle.std.specs.Prelude.{◌≡◌, ◌⊎◌, ◌<◌, ◌≤◌, ℕ, All, List, None, Some, length, map};
ghost use Rattle.gather.specs.Beside.{IsOfStore};
ghost use Rattle.holders.specs.declared.grain.Grain.TheVariants.{Group as ByGroup};
ghost use Rattle.gather.specs.Filled.{IsFilled};
ghost use Rattle.holders.specs.Available.{HaveSlices, IsServed};
ghost use Rattle.gather.specs.Counts.{HasFailedSince, IsToldTooLarge};
ghost use Rattle.holders.specs.Holders.{IsHanded};
ghost use Rattle.holders.specs.Blobs.{HasCollision};
ghost use Rattle.holders.specs.Blobs.{IsBlob};
ghost use Rattle.store_core.specs.Reached.{IsReached};
ghost use Rattle.store_core.specs.States.{held_count};
ghost use Rattle.store_core.specs.Stores.{IsSame, fixed_of, state_of};
ghost use Rattle.store_shared.specs.Seats.{IsSeatOf, fixed_of as fixed_in};

use b3par::Gate;
use bao_check::Outline;
use gather::{Crew, Holder, Place, Report, Shelf, run, run_bare, run_one, work};
use std::alloc::Global;
use std::thread::Threads;
use store_core::Store;
use store_shared::Assembly;

// What both stores gain of a chunk is the same, for each blob with the root, or a collision is exhibited. Of the report
// the count of chunks alone is determined, by how many are held before and after.
pub fn run_one_determined<H: Holder>(
    alloc: Global,
    a: &mut Store,
    b: &mut Store,
    ours: &mut [H],
    theirs: &mut [H],
) -> (Report, Report)
    requires stores { IsSame a.old b.old }
    requires holders { ours.old ≡ theirs.old }
    ensures fixed { fixed_of a.new ≡ fixed_of b.new }
    ensures held { (blob : List ℕ) → IsBlob (fixed_of a.old) blob → (c : ℕ) (x y : List ℕ) → (state_of a.old).held c ≡ None
        → (state_of a.new).held c ≡ Some x → (state_of b.new).held c ≡ Some y → (x ≡ y) ⊎ HasCollision (IsHanded H.gives ours.old) (fixed_of a.old) blob }
    ensures committed { IsReached (fixed_of a.old) (state_of a.old) → held_count (state_of a.new) (fixed_of a.old).capacity ≡ held_count (state_of b.new) (fixed_of a.old).capacity
        → result.0.committed ≡ result.1.committed }
{
    let one = run_one(alloc, a, ours);
    let other = run_one(alloc, b, theirs);
    (one, other)
}

// The sums, by what the crews' reports are afterwards.
pub fn run_determined<R: Threads + Sync, H: Holder + Send, G: Gate + Sync>(
    rt: &R,
    alloc: Global,
    a: &Assembly,
    b: &Assembly,
    ours: &mut [Crew<H>],
    theirs: &mut [Crew<H>],
    gate: &G,
) -> (Report, Report)
    requires count { (0 < length ours.old) × (length ours.old ≤ 64) }
    requires count_theirs { (0 < length theirs.old) × (length theirs.old ≤ 64) }
    requires of { All (λ crew. IsSeatOf a.now crew.seat) ours.old }
    requires of_theirs { All (λ crew. IsSeatOf b.now crew.seat) theirs.old }
    ensures { map (λ crew. crew.report) ours.new ≡ map (λ crew. crew.report) theirs.new → result.0 ≡ result.1 }
{
    let one = run(rt, alloc, a, ours, gate);
    let other = run(rt, alloc, b, theirs, gate);
    (one, other)
}

pub fn run_bare_determined<R: Threads + Sync, H: Holder + Send, G: Gate + Sync>(
    rt: &R,
    alloc: Global,
    a: &Assembly,
    b: &Assembly,
    outline: &Outline<'_>,
    ours: &mut [Crew<H>],
    theirs: &mut [Crew<H>],
    gate: &G,
) -> (Report, Report)
    requires count { (0 < length ours.old) × (length ours.old ≤ 64) }
    requires count_theirs { (0 < length theirs.old) × (length theirs.old ≤ 64) }
    requires outline { IsOfStore (fixed_in a.now) outline.now × IsOfStore (fixed_in b.now) outline.now }
    requires of { All (λ crew. IsSeatOf a.now crew.seat) ours.old }
    requires of_theirs { All (λ crew. IsSeatOf b.now crew.seat) theirs.old }
    ensures { map (λ crew. crew.report) ours.new ≡ map (λ crew. crew.report) theirs.new → result.0 ≡ result.1 }
{
    let one = run_bare(rt, alloc, a, outline, ours, gate);
    let other = run_bare(rt, alloc, b, outline, theirs, gate);
    (one, other)
}

// A worker that was out of memory works when it is asked again: only memory that is refused in the second call excuses it.
pub fn work_asked_again<S: Shelf, H: Holder>(
    alloc: Global,
    shelf: &S,
    seat: &mut S::Seat,
    holders: &mut [H],
    place: Place,
) -> (Report, Report)
    requires has { S.has shelf.now seat.old }
    requires place { place.number < place.workers }
    ensures { (blob : List ℕ) → IsServed (S.fixed_of seat.old) blob → HaveSlices ByGroup H.gives (S.fixed_of seat.old).mode blob holders.old
        → HasFailedSince result.0 result.1 ⊎ IsToldTooLarge result.1 (IsHanded H.gives holders.old) (S.fixed_of seat.old) ⊎ IsFilled S.records S.holds S.busy seat.old seat.new blob }
{
    let mut report = Report::new();
    work(alloc, shelf, seat, holders, place, &mut report);
    let first = report;
    work(alloc, shelf, seat, holders, place, &mut report);
    (first, report)
}
