ghost use Rattle.std.specs.Prelude.{IfSome, IsTrue, List, length, true, false, ◌⊎◌, ◌≡◌, ℕ, ◌-◌, ◌*◌, ◌<◌, ◌≤◌, [], Bool, IfNone, nat_lt, sum_by};
ghost use Rattle.gather.specs.Claims.{Among, AmongAnd};
ghost use Rattle.bao_text.specs.Choice.{chunk_count};
ghost use Rattle.store_core.specs.Masks.{in_mask};
ghost use Rattle.gather.specs.Filled.{IsFilled, IsWanted};
ghost use Rattle.holders.specs.Available.{GivesSlice, HasSlice, HaveSlices, IsServed, slice_of};
ghost use Rattle.holders.specs.declared.grain.Grain.TheVariants.{Group as ByGroup};
ghost use Rattle.holders.specs.Forms.{AreSlices, IsLengthOf, made_of};
ghost use Rattle.gather.specs.Asked.{IsPart, checked_len};
ghost use Rattle.holders.specs.Parts.{HaveParts, IsEndIn, IsFor};
ghost use Rattle.gather.specs.Filled.{IsAgreed};
ghost use Rattle.holders.specs.Pieces.{holds_chunk, holds_parent};
ghost use Rattle.gather.specs.Counts.{HasFailedSince, IsToldTooLarge, Reports};
ghost use Rattle.holders.specs.Holders.{AreLater, GivesNoMore, IsGiven, IsHanded};

use crate::asking;
use crate::masks::{MAX_GROUPS, without};
use crate::parents::store_parents;
use crate::report::Report;
use crate::shelf::Shelf;
use bao_check::GROUP_LEN;
use bao_text::chunk_count;
use holders::{ByteRange, Form, Holder};
use std::alloc::Global;
use store_core::{Settling, StoreFault, mask_below};

/// A worker's number among the workers, from 0.
#[derive(Clone, Copy, Debug)]
pub struct Place {
    pub number: u32,
    pub workers: u32,
}

// Asks one holder for the last chunk, settles the length that its text certifies, stores the text's parents, and
// answers whether that length is above what the store has room for.
#[tactic(auto, using(crate::proofs::Forming::made_no_more))]
fn ask_end<S: Shelf, H: Holder>(
    alloc: Global,
    form: &Form<'_>,
    shelf: &S,
    seat: &mut S::Seat,
    holder: &mut H,
    room: &mut Vec<u8>,
    report: &mut Report,
) -> bool
    requires { S.has shelf.now seat.old }
    ensures has { S.has shelf.now seat.new }
    ensures reports { Reports S.fixed_of S.gained seat.old seat.new (IsGiven (made_of form.now H.gives) holder.old) (IsGiven (made_of form.now H.gives) holder.new) (H.count holder.old) (H.count holder.new) report.old report.new }
    ensures no_more { GivesNoMore (made_of form.now H.gives) holder.old holder.new }
    ensures claims { Among (S.claims seat.old) (S.claims seat.new) }
    ensures agreed { (blob : List ℕ) (start len : ℕ) → IsFor form.now (S.fixed_of seat.old) blob → IsServed (S.fixed_of seat.old) blob → IsEndIn form.now start len
        → GivesSlice (made_of form.now H.gives) (S.fixed_of seat.old).mode blob start len holder.old
        → HasFailedSince report.old report.new ⊎ ((l : ℕ) × S.records seat.new l) }
    ensures large { IsTrue result → IsToldTooLarge report.new (IsGiven (made_of form.now H.gives) holder.old) (S.fixed_of seat.old) }
{
    let part = asking::end(form);
    report.fits();
    report.count_asked();
    room.clear();
    match holder.fetch(part.start, part.len, room) {
        Ok(()) => {}
        Err(fault) => {
            report.count_lost(fault);
            return false;
        }
    }
    let fixed = shelf.fixed(seat);
    match asking::check(alloc, form, &fixed, &part, room.as_slice()) {
        Ok(piece) => {
            let Some(tail) = piece.tail() else {
                return false;
            };
            match shelf.settle(seat, &tail) {
                Settling::TooLarge => {
                    report.too_large = true;
                    true
                }
                _ => {
                    store_parents(shelf, seat, &piece, report);
                    false
                }
            }
        }
        Err(fault) => {
            report.count_refused(&fault);
            false
        }
    }
}

// The recorded length, if the form is of a blob of it. If there is none, the holders are asked for it in order, until one
// is recorded or a certified one is above what the store has room for.
pub(crate) fn agree<S: Shelf, H: Holder>(
    alloc: Global,
    form: &Form<'_>,
    shelf: &S,
    seat: &mut S::Seat,
    holders: &mut [H],
    room: &mut Vec<u8>,
    report: &mut Report,
) -> Option<u64>
    requires { S.has shelf.now seat.old }
    ensures has { S.has shelf.now seat.new }
    ensures reports { Reports S.fixed_of S.gained seat.old seat.new (IsHanded (made_of form.now H.gives) holders.old) (IsHanded (made_of form.now H.gives) holders.new) (sum_by H.count holders.old) (sum_by H.count holders.new) report.old report.new }
    ensures later { AreLater (made_of form.now H.gives) holders.old holders.new }
    ensures claims { Among (S.claims seat.old) (S.claims seat.new) }
    ensures records { IfSome result (λ l. S.records seat.new l) }
    ensures of { IfSome result (λ l. IsLengthOf form.now l) }
    ensures agreed { (blob : List ℕ) (start len : ℕ) → IsFor form.now (S.fixed_of seat.old) blob → IsServed (S.fixed_of seat.old) blob → IsEndIn form.now start len
        → HasSlice (made_of form.now H.gives) (S.fixed_of seat.old).mode blob start len holders.old
        → HasFailedSince report.old report.new ⊎ IsToldTooLarge report.new (IsHanded (made_of form.now H.gives) holders.old) (S.fixed_of seat.old) ⊎ IsAgreed S.records form.now result seat.new }
{
    report.fits();
    let mut length = shelf.length(seat);
    let mut too_large = false;
    for holder in holders.iter_mut() {
        if length.is_some() || too_large {
            continue;
        }
        too_large = ask_end(alloc, form, shelf, seat, holder, room, report);
        length = shelf.length(seat);
    }
    match length {
        Some(length) if asking::is_of(form, length) => Some(length),
        _ => None,
    }
}

// Asks one holder for a part of a blob, whose text comes in the place of the last one. Commits what it holds of a group's
// chunks that are left, stores its parents, and answers the chunks that are left then. With none left it stores parents alone.
#[tactic(auto, using(crate::proofs::Forming::made_no_more))]
pub(crate) fn ask<S: Shelf, H: Holder>(
    alloc: Global,
    form: &Form<'_>,
    shelf: &S,
    seat: &mut S::Seat,
    holder: &mut H,
    part: &ByteRange,
    group: u32,
    left: u64,
    text: &mut Vec<u8>,
    report: &mut Report,
) -> u64
    requires has { S.has shelf.now seat.old }
    requires part { IsPart form.now part.now }
    ensures has { S.has shelf.now seat.new }
    ensures reports { Reports S.fixed_of S.gained seat.old seat.new (IsGiven (made_of form.now H.gives) holder.old) (IsGiven (made_of form.now H.gives) holder.new) (H.count holder.old) (H.count holder.new) report.old report.new }
    ensures no_more { GivesNoMore (made_of form.now H.gives) holder.old holder.new }
    ensures claims { (before : ℕ → Bool) → AmongAnd before group left (S.claims seat.old) → AmongAnd before group result (S.claims seat.new) }
    ensures fewer { (c : ℕ) → in_mask group result c ≡ true → in_mask group left c ≡ true }
    ensures kept { (c : ℕ) → in_mask group left c ≡ true → S.claims seat.old c ≡ true
        → ((in_mask group result c ≡ true) × (S.claims seat.new c ≡ true)) ⊎ ((in_mask group result c ≡ false) × S.holds seat.new c) }
    ensures served { (blob : List ℕ) → IsFor form.now (S.fixed_of seat.old) blob → IsServed (S.fixed_of seat.old) blob
        → GivesSlice (made_of form.now H.gives) (S.fixed_of seat.old).mode blob part.now.start (checked_len form.now part.now) holder.old
        → ((c : ℕ) → in_mask group left c ≡ true → (S.claims seat.old c ≡ true) × (holds_chunk (slice_of (S.fixed_of seat.old) blob part.now.start (checked_len form.now part.now)) c ≡ true))
        → HasFailedSince report.old report.new ⊎ ((c : ℕ) → in_mask group result c ≡ false) }
    ensures stored { (blob : List ℕ) → IsFor form.now (S.fixed_of seat.old) blob → IsServed (S.fixed_of seat.old) blob → S.records seat.old (length blob)
        → GivesSlice (made_of form.now H.gives) (S.fixed_of seat.old).mode blob part.now.start (checked_len form.now part.now) holder.old
        → HasFailedSince report.old report.new ⊎ ((m : ℕ) → m < 65536 → holds_parent (slice_of (S.fixed_of seat.old) blob part.now.start (checked_len form.now part.now)) m ≡ true → S.has_parent seat.new m) }
{
    report.fits();
    report.count_asked();
    text.clear();
    match holder.fetch(part.start, part.len, text) {
        Ok(()) => {}
        Err(fault) => {
            report.count_lost(fault);
            return left;
        }
    }
    let fixed = shelf.fixed(seat);
    match asking::check(alloc, form, &fixed, part, text.as_slice()) {
        Ok(piece) => match shelf.commit(seat, group, &piece) {
            Ok(committed) => {
                report.committed = report
                    .committed
                    .saturating_add(u64::from(committed.count_ones()));
                store_parents(shelf, seat, &piece, report);
                without(left, committed)
            }
            Err(fault) => {
                if fault == StoreFault::Memory {
                    report.count_memory();
                }
                left
            }
        },
        Err(fault) => {
            report.count_refused(&fault);
            left
        }
    }
}

// Takes the wanted chunks of a group, asks the holders in order for a part of the blob until none is left of those
// granted, and gives back those that are.
pub(crate) fn work_part<S: Shelf, H: Holder>(
    alloc: Global,
    form: &Form<'_>,
    shelf: &S,
    seat: &mut S::Seat,
    holders: &mut [H],
    part: &ByteRange,
    group: u32,
    want: u64,
    room: &mut Vec<u8>,
    report: &mut Report,
)
    requires has { S.has shelf.now seat.old }
    requires part { IsPart form.now part.now }
    ensures has { S.has shelf.now seat.new }
    ensures reports { Reports S.fixed_of S.gained seat.old seat.new (IsHanded (made_of form.now H.gives) holders.old) (IsHanded (made_of form.now H.gives) holders.new) (sum_by H.count holders.old) (sum_by H.count holders.new) report.old report.new }
    ensures later { AreLater (made_of form.now H.gives) holders.old holders.new }
    ensures claims { Among (S.claims seat.old) (S.claims seat.new) }
    ensures served { (blob : List ℕ) → IsFor form.now (S.fixed_of seat.old) blob → IsServed (S.fixed_of seat.old) blob
        → HasSlice (made_of form.now H.gives) (S.fixed_of seat.old).mode blob part.now.start (checked_len form.now part.now) holders.old
        → ((c : ℕ) → IsWanted group want c → (c < chunk_count (length blob)) × (holds_chunk (slice_of (S.fixed_of seat.old) blob part.now.start (checked_len form.now part.now)) c ≡ true))
        → HasFailedSince report.old report.new ⊎ ((c : ℕ) → IsWanted group want c → S.holds seat.new c ⊎ S.busy seat.old seat.new c) }
{
    report.fits();
    let granted = match shelf.take(seat, group, want) {
        Ok(granted) => granted,
        Err(fault) => {
            if fault == StoreFault::Memory {
                report.count_memory();
            }
            return;
        }
    };
    let mut left = granted;
    for holder in holders.iter_mut() {
        if left == 0 {
            break;
        }
        left = ask(
            alloc, form, shelf, seat, holder, part, group, left, room, report,
        );
    }
    if left == 0 {
        return;
    }
    shelf.give(seat, group, left);
}

/// A worker's round: it records a length, and goes once round all groups that the length needs, from its own
/// part of them on. No claim remains that it made.
///
/// If no length is recorded, it asks its holders in order for the last chunk and settles the length that an
/// accepted slice certifies, until one is recorded. It ends if none comes, or if one is above the store's
/// capacity. Of K groups it begins with group number * K / workers. It takes a group's chunks, asks its holders
/// in order, each once, for those bytes, checks and commits what each supplies until none of the granted chunks
/// is left, and gives the rest back. From an encoding that it settled or committed from, it also stores the
/// parents, if the encoding claims the recorded length.
///
/// It refuses nothing, and adds what it stored, asked for and met to the report.
pub fn work<S: Shelf, H: Holder>(
    alloc: Global,
    shelf: &S,
    seat: &mut S::Seat,
    holders: &mut [H],
    place: Place,
    report: &mut Report,
)
    requires has { S.has shelf.now seat.old }
    requires place { place.number < place.workers }
    ensures has { S.has shelf.now seat.new }
    ensures reports { Reports S.fixed_of S.gained seat.old seat.new (IsHanded H.gives holders.old) (IsHanded H.gives holders.new) (sum_by H.count holders.old) (sum_by H.count holders.new) report.old report.new }
    ensures later { AreLater H.gives holders.old holders.new }
    ensures claims { Among (S.claims seat.old) (S.claims seat.new) }
    ensures served { (blob : List ℕ) → IsServed (S.fixed_of seat.old) blob → HaveSlices ByGroup H.gives (S.fixed_of seat.old).mode blob holders.old
        → HasFailedSince report.old report.new ⊎ IsToldTooLarge report.new (IsHanded H.gives holders.old) (S.fixed_of seat.old) ⊎ IsFilled S.records S.holds S.busy seat.old seat.new blob }
{
    work_as(alloc, &Form::Slices, shelf, seat, holders, place, report);
}

/// A worker's round as [`work`] does it, with holders of this form. Holders of slices are asked as there.
///
/// Bytes of plain copies are checked beside the form's outboard encoding, and what is handed over are the
/// slices that they make with its parents. Let L be the length that it claims, and n the number of its chunks.
/// A holder is asked for the last chunk as (1,024 * (n - 1), L - 1,024 * (n - 1)), and for group g as (65,536 *
/// g, min(65,536, L - 65,536 * g)), each an offset and a length. The worker ends as soon as it finds a recorded
/// length other than L, first or after asking.
///
/// It suffices that the outboard encoding claims the length of a blob of at least one byte, that one holder's
/// bytes of the last chunk make its slice with the outboard encoding's parents, and that for each group of the
/// blob's chunks some holder's bytes do so, whatever they supply otherwise, as for [`run_one`](crate::run_one).
pub fn work_as<S: Shelf, H: Holder>(
    alloc: Global,
    form: &Form<'_>,
    shelf: &S,
    seat: &mut S::Seat,
    holders: &mut [H],
    place: Place,
    report: &mut Report,
)
    requires has { S.has shelf.now seat.old }
    requires place { place.number < place.workers }
    ensures has { S.has shelf.now seat.new }
    ensures reports { Reports S.fixed_of S.gained seat.old seat.new (IsHanded (made_of form.now H.gives) holders.old) (IsHanded (made_of form.now H.gives) holders.new) (sum_by H.count holders.old) (sum_by H.count holders.new) report.old report.new }
    ensures later { AreLater (made_of form.now H.gives) holders.old holders.new }
    ensures claims { Among (S.claims seat.old) (S.claims seat.new) }
    ensures served { AreSlices form.now → (blob : List ℕ) → IsServed (S.fixed_of seat.old) blob → HaveSlices ByGroup (made_of form.now H.gives) (S.fixed_of seat.old).mode blob holders.old
        → HasFailedSince report.old report.new ⊎ IsToldTooLarge report.new (IsHanded (made_of form.now H.gives) holders.old) (S.fixed_of seat.old) ⊎ IsFilled S.records S.holds S.busy seat.old seat.new blob }
    ensures parts { (blob : List ℕ) → IsFor form.now (S.fixed_of seat.old) blob → IsServed (S.fixed_of seat.old) blob → HaveParts form.now ByGroup H.gives (S.fixed_of seat.old).mode blob holders.old
        → HasFailedSince report.old report.new ⊎ IsToldTooLarge report.new (IsHanded (made_of form.now H.gives) holders.old) (S.fixed_of seat.old) ⊎ IsFilled S.records S.holds S.busy seat.old seat.new blob }
{
    report.fits();
    let mut room = Vec::new(alloc);
    let Some(length) = agree(alloc, form, shelf, seat, holders, &mut room, report) else {
        return;
    };
    let chunks = chunk_count(length);
    let groups = chunks.div_ceil(GROUP_LEN).min(MAX_GROUPS);
    let first = u64::from(place.number) * groups / u64::from(place.workers);
    for step in 0..groups {
        let group = ((first + step) % groups) as u32;
        let part = asking::group(form, group);
        work_part(
            alloc,
            form,
            shelf,
            seat,
            holders,
            &part,
            group,
            mask_below(group, chunks),
            &mut room,
            report,
        );
    }
}
