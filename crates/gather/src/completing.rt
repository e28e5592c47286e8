ghost use Rattle.std.specs.Prelude.{◌≡◌, ◌⊎◌, ℕ, ◌/◌, ◌<◌, ◌≤◌, IfSome, List, Some, length, sum_by, true};
ghost use Rattle.bao_text.specs.Choice.{chunk_count};
ghost use Rattle.gather.specs.Filled.{HasAllParents, IsFilled};
ghost use Rattle.holders.specs.Available.{HasSlice, IsServed, slice_of};
ghost use Rattle.gather.specs.Claims.{Among};
ghost use Rattle.gather.specs.Counts.{HasFailedSince, IsToldTooLarge, Reports, Still};
ghost use Rattle.holders.specs.declared.grain.Grain.TheVariants.{Group as ByGroup};
ghost use Rattle.holders.specs.Forms.{IsLengthOf, made_of};
ghost use Rattle.gather.specs.Asked.{IsPart, checked_len};
ghost use Rattle.holders.specs.Holders.{AreLater, IsHanded, IsNone};
ghost use Rattle.holders.specs.Parts.{HaveParts, IsFor};
ghost use Rattle.holders.specs.Pieces.{holds_parent};

use crate::asking;
use crate::masks::MAX_GROUPS;
use crate::report::Report;
use crate::shelf::Shelf;
use crate::worker::{Place, ask, work_as};
use bao_check::GROUP_LEN;
use bao_text::chunk_count;
use holders::{ByteRange, Form, Holder};
use std::alloc::Global;

// Whether all parents at boundaries of the group are held: there is one at each chunk below `chunks` but the first.
fn has_parents<S: Shelf>(shelf: &S, seat: &mut S::Seat, group: u32, chunks: u32) -> bool
    requires has { S.has shelf.now seat.old }
    requires room { chunks ≤ (S.fixed_of seat.old).capacity }
    ensures has { S.has shelf.now seat.new }
    ensures still { Still (S.gained IsNone) S.claims seat.old seat.new }
    ensures held { result ≡ true → (m : ℕ) → 0 < m → m / 64 ≡ group → m < chunks → S.has_parent seat.new m }
{
    let first = GROUP_LEN * u64::from(group);
    let end = (first + GROUP_LEN).min(u64::from(chunks));
    for boundary in first.max(1)..end {
        if !shelf.has_parent(seat, boundary as u32) {
            return false;
        }
    }
    true
}

// While a parent of the group isn't held, asks the holders in order for this part of the blob, and stores the parents of what is
// accepted.
fn complete_group<S: Shelf, H: Holder>(
    alloc: Global,
    form: &Form<'_>,
    shelf: &S,
    seat: &mut S::Seat,
    holders: &mut [H],
    part: &ByteRange,
    group: u32,
    chunks: u32,
    room: &mut Vec<u8>,
    report: &mut Report,
)
    requires has { S.has shelf.now seat.old }
    requires part { IsPart form.now part.now }
    requires room { chunks ≤ (S.fixed_of seat.old).capacity }
    ensures has { S.has shelf.now seat.new }
    ensures reports { Reports S.fixed_of S.gained seat.old seat.new (IsHanded (made_of form.now H.gives) holders.old) (IsHanded (made_of form.now H.gives) holders.new) (sum_by H.count holders.old) (sum_by H.count holders.new) report.old report.new }
    ensures later { AreLater (made_of form.now H.gives) holders.old holders.new }
    ensures claims { Among (S.claims seat.old) (S.claims seat.new) }
    ensures complete { (blob : List ℕ) → IsFor form.now (S.fixed_of seat.old) blob → IsServed (S.fixed_of seat.old) blob → S.records seat.old (length blob)
        → HasSlice (made_of form.now H.gives) (S.fixed_of seat.old).mode blob part.now.start (checked_len form.now part.now) holders.old
        → ((m : ℕ) → 0 < m → m / 64 ≡ group → m < chunks → (m < 65536) × (holds_parent (slice_of (S.fixed_of seat.old) blob part.now.start (checked_len form.now part.now)) m ≡ true))
        → HasFailedSince report.old report.new ⊎ ((m : ℕ) → 0 < m → m / 64 ≡ group → m < chunks → S.has_parent seat.new m) }
{
    report.fits();
    let mut done = has_parents(shelf, seat, group, chunks);
    for holder in holders.iter_mut() {
        if done {
            break;
        }
        ask(
            alloc, form, shelf, seat, holder, part, group, 0, room, report,
        );
        done = has_parents(shelf, seat, group, chunks);
    }
}

// The recorded length, if there is one and the form is of it.
fn length_for<S: Shelf>(form: &Form<'_>, shelf: &S, seat: &mut S::Seat) -> Option<u64>
    requires { S.has shelf.now seat.old }
    ensures has { S.has shelf.now seat.new }
    ensures still { Still (S.gained IsNone) S.claims seat.old seat.new }
    ensures records { IfSome result (λ l. S.records seat.new l) }
    ensures of { IfSome result (λ l. IsLengthOf form.now l) }
    ensures known { (l : ℕ) → S.records seat.old l → IsLengthOf form.now l → result ≡ Some l }
{
    match shelf.length(seat) {
        Some(length) if asking::is_of(form, length) => Some(length),
        _ => None,
    }
}

// Goes over the groups that the recorded length needs, and where a parent of one isn't held, whichever chunks are, asks the holders
// for the group, and stores the parents of what is accepted, until none is missing. It asks nobody where no length is recorded,
// or the form is of another.
fn complete<S: Shelf, H: Holder>(
    alloc: Global,
    form: &Form<'_>,
    shelf: &S,
    seat: &mut S::Seat,
    holders: &mut [H],
    report: &mut Report,
)
    requires has { S.has shelf.now seat.old }
    ensures has { S.has shelf.now seat.new }
    ensures reports { Reports S.fixed_of S.gained seat.old seat.new (IsHanded (made_of form.now H.gives) holders.old) (IsHanded (made_of form.now H.gives) holders.new) (sum_by H.count holders.old) (sum_by H.count holders.new) report.old report.new }
    ensures later { AreLater (made_of form.now H.gives) holders.old holders.new }
    ensures claims { Among (S.claims seat.old) (S.claims seat.new) }
    ensures complete { (blob : List ℕ) → IsFor form.now (S.fixed_of seat.old) blob → IsServed (S.fixed_of seat.old) blob → S.records seat.old (length blob)
        → HaveParts form.now ByGroup H.gives (S.fixed_of seat.old).mode blob holders.old
        → HasFailedSince report.old report.new ⊎ ((m : ℕ) → 0 < m → m < chunk_count (length blob) → S.has_parent seat.new m) }
{
    report.fits();
    let Some(length) = length_for(form, shelf, seat) else {
        return;
    };
    let capacity = shelf.fixed(seat).capacity;
    let chunks = chunk_count(length).min(u64::from(capacity)) as u32;
    let groups = u64::from(chunks).div_ceil(GROUP_LEN).min(MAX_GROUPS);
    let mut room = Vec::new(alloc);
    for number in 0..groups {
        let group = number as u32;
        let part = asking::group(form, group);
        complete_group(
            alloc, form, shelf, seat, holders, &part, group, chunks, &mut room, report,
        );
    }
}

/// A worker's closing round: its work, as [`work_as`](crate::work_as) does it, and then for each group that the recorded length
/// needs, and of which a parent isn't held, whichever chunks are, it asks its holders in order for the group, and stores the
/// parents of what is accepted, until none of the group is missing. Where none is missing it asks nobody for that.
///
/// Work alone doesn't see to that: an encoding that claims another length than the recorded one may have right chunks, which
/// are committed, but none of its parents is stored, and nobody is asked for chunks that are held. A store that has all chunks then can't
/// serve them.
///
/// What is enough for the blob's chunks is enough for its parents: where memory wasn't refused in this call, and the recorded
/// length is the blob's, each of them is held. Of a shared store this holds where the seat has all names that there are, since
/// somebody else may be storing a parent.
pub fn closing_round<S: Shelf, H: Holder>(
    alloc: Global,
    form: &Form<'_>,
    shelf: &S,
    seat: &mut S::Seat,
    holders: &mut [H],
    place: Place,
    report: &mut Report,
)
    requires has { S.has shelf.now seat.old }
    requires place { place.number < place.workers }
    ensures has { S.has shelf.now seat.new }
    ensures reports { Reports S.fixed_of S.gained seat.old seat.new (IsHanded (made_of form.now H.gives) holders.old) (IsHanded (made_of form.now H.gives) holders.new) (sum_by H.count holders.old) (sum_by H.count holders.new) report.old report.new }
    ensures later { AreLater (made_of form.now H.gives) holders.old holders.new }
    ensures claims { Among (S.claims seat.old) (S.claims seat.new) }
    ensures complete { (blob : List ℕ) → IsFor form.now (S.fixed_of seat.old) blob → IsServed (S.fixed_of seat.old) blob → HaveParts form.now ByGroup H.gives (S.fixed_of seat.old).mode blob holders.old
        → HasFailedSince report.old report.new ⊎ IsToldTooLarge report.new (IsHanded (made_of form.now H.gives) holders.old) (S.fixed_of seat.old)
        ⊎ (IsFilled S.records S.holds S.busy seat.old seat.new blob × HasAllParents S.records S.has_parent seat.new blob) }
{
    work_as(alloc, form, shelf, seat, holders, place, report);
    complete(alloc, form, shelf, seat, holders, report);
}
