ghost use Rattle.std.specs.Prelude.{◌⊎◌, ℕ, List, sum_by};
ghost use Rattle.gather.specs.Filled.{IsFilled};
ghost use Rattle.holders.specs.Available.{HaveSlices, IsServed};
ghost use Rattle.gather.specs.Claims.{Among};
ghost use Rattle.gather.specs.Counts.{HasFailedSince, IsToldTooLarge, Reports};
ghost use Rattle.holders.specs.declared.grain.Grain.TheVariants.{Chunk as ByChunk};
ghost use Rattle.holders.specs.Forms.{AreSlices, made_of};
ghost use Rattle.holders.specs.Parts.{HaveParts, IsFor};
ghost use Rattle.holders.specs.Holders.{AreLater, IsHanded};

use crate::asking;
use crate::report::Report;
use crate::shelf::Shelf;
use crate::worker::{agree, work_part};
use bao_check::GROUP_LEN;
use bao_text::chunk_count;
use holders::{Form, Holder};
use std::alloc::Global;
use store_core::{MAX_CAPACITY, with_bit};

/// A worker's round over single chunks, for groups that no holder has as a whole.
///
/// It records a length as [`work`](crate::work) does, and goes once over all chunks that the length needs, in
/// order. It takes each chunk that isn't held, asks its holders in order, each once, for that chunk's bytes
/// alone, (1,024 * c, 1,024) for chunk c, until it is committed, and else gives it back. So a chunk that no
/// holder has costs no other. No claim remains that it made. It refuses nothing, and adds to the report as
/// [`work`](crate::work) does.
///
/// Holders of plain copies are asked for min(1,024, L - 1,024 * c) bytes, where L is the length that the form's
/// outboard encoding claims, and the worker ends if another length is recorded.
///
/// It suffices that, for a blob with the root that fits the store, one holder supplies the slice of the last
/// byte, and for each of its chunks some holder supplies the chunk's slice, whatever they supply otherwise, as
/// for [`run_one`](crate::run_one). Beside an outboard encoding that claims the blob's length, of at least one
/// byte, it suffices that a holder's bytes make these slices with the outboard encoding's parents, the last
/// chunk in place of the last byte.
pub fn salvage<S: Shelf, H: Holder>(
    alloc: Global,
    form: &Form<'_>,
    shelf: &S,
    seat: &mut S::Seat,
    holders: &mut [H],
    report: &mut Report,
)
    requires has { S.has shelf.now seat.old }
    ensures has { S.has shelf.now seat.new }
    ensures reports { Reports S.fixed_of S.gained seat.old seat.new (IsHanded (made_of form.now H.gives) holders.old) (IsHanded (made_of form.now H.gives) holders.new) (sum_by H.count holders.old) (sum_by H.count holders.new) report.old report.new }
    ensures later { AreLater (made_of form.now H.gives) holders.old holders.new }
    ensures claims { Among (S.claims seat.old) (S.claims seat.new) }
    ensures served { AreSlices form.now → (blob : List ℕ) → IsServed (S.fixed_of seat.old) blob → HaveSlices ByChunk (made_of form.now H.gives) (S.fixed_of seat.old).mode blob holders.old
        → HasFailedSince report.old report.new ⊎ IsToldTooLarge report.new (IsHanded (made_of form.now H.gives) holders.old) (S.fixed_of seat.old) ⊎ IsFilled S.records S.holds S.busy seat.old seat.new blob }
    ensures parts { (blob : List ℕ) → IsFor form.now (S.fixed_of seat.old) blob → IsServed (S.fixed_of seat.old) blob → HaveParts form.now ByChunk H.gives (S.fixed_of seat.old).mode blob holders.old
        → HasFailedSince report.old report.new ⊎ IsToldTooLarge report.new (IsHanded (made_of form.now H.gives) holders.old) (S.fixed_of seat.old) ⊎ IsFilled S.records S.holds S.busy seat.old seat.new blob }
{
    report.fits();
    let mut room = Vec::new(alloc);
    let Some(length) = agree(alloc, form, shelf, seat, holders, &mut room, report) else {
        return;
    };
    let chunks = chunk_count(length).min(u64::from(MAX_CAPACITY));
    for chunk in 0..chunks {
        let part = asking::chunk(form, chunk);
        let group = (chunk / GROUP_LEN) as u32;
        let want = with_bit(0, (chunk % GROUP_LEN) as u32);
        work_part(
            alloc, form, shelf, seat, holders, &part, group, want, &mut room, report,
        );
    }
}
