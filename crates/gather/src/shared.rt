use crate::shelf::Shelf;
use bao_check::{Checked, Tail};
use holders::Fixed;
use store_core::{Settling, StoreFault};
use store_shared::{Assembly, ParentsFault, Seat};

/// A shared store as its workers see it, each with a seat of its own: an argument of `gather::work` and
/// `gather::salvage`.
#[derive(Clone, Copy)]
pub struct Shared<'a>(pub &'a Assembly);

impl Shelf for Shared<'_> {
    ghost use Rattle.store_shared.specs.Seats.{IsSeatOf};
    ghost use Rattle.gather.specs.Going.{goes};
    ghost use Rattle.gather.specs.SeatLasting.{HasParentOn, HoldsOn, IsBusyOn, RecordsOn, lasts};
    ghost use Rattle.gather.specs.Seats.{GoneOn, claims_of, fixed_of};

    type Seat = Seat;

    ghost has = { λ shared seat. IsSeatOf shared.0.now seat };

    ghost fixed_of = { λ seat. fixed_of seat };

    ghost claims = { λ seat. claims_of seat };

    ghost gained = { λ handed old new chunks parents. GoneOn handed old new chunks parents };

    ghost goes = { goes };

    ghost records = { λ seat l. RecordsOn seat l };

    ghost holds = { λ seat c. HoldsOn seat c };

    ghost has_parent = { λ seat m. HasParentOn seat m };

    ghost busy = { λ old new c. IsBusyOn old new c };

    ghost lasts = { lasts };

    fn fixed(&self, _seat: &Seat) -> Fixed {
        Fixed {
            root: self.0.root(),
            mode: self.0.mode(),
            capacity: self.0.capacity(),
            base: self.0.base(),
        }
    }

    fn take(&self, seat: &mut Seat, group: u32, want: u64) -> Result<u64, StoreFault> {
        match self.0.take(seat, group, want) {
            Ok(granted) => {
                // For the prover alone: a seat that is alone has made all calls that there were.
                self.0.look_round(seat);
                Ok(granted)
            }
            Err(_) => Err(StoreFault::NoGroup),
        }
    }

    fn give(&self, seat: &mut Seat, group: u32, mask: u64) -> u64 {
        self.0.give(seat, group, mask)
    }

    fn commit(&self, seat: &mut Seat, group: u32, piece: &Checked<'_>) -> Result<u64, StoreFault> {
        match self.0.commit(seat, group, piece) {
            Ok(committed) => Ok(committed),
            Err(_) => Err(StoreFault::OtherRoot),
        }
    }

    #[tactic(auto, using(crate::proofs::Sharing::unstored_gains))]
    fn commit_parents(
        &self,
        seat: &mut Seat,
        group: u32,
        piece: &Checked<'_>,
    ) -> Result<u64, StoreFault> {
        match self.0.commit_parents(seat, group, piece) {
            Ok(stored) => Ok(stored),
            Err(ParentsFault::OtherRoot) => Err(StoreFault::OtherRoot),
            Err(ParentsFault::OtherLength) => Err(StoreFault::OtherLength),
        }
    }

    #[tactic(auto, using(crate::proofs::SeatKnowing::parent_on, crate::proofs::Sharing::looked_still))]
    fn has_parent(&self, seat: &mut Seat, boundary: u32) -> bool {
        self.0.has_parent(seat, boundary)
    }

    #[tactic(auto, using(crate::proofs::SeatKnowing::settle_records, crate::proofs::Sharing::settles_large, crate::proofs::Sharing::settles_still))]
    fn settle(&self, seat: &mut Seat, tail: &Tail<'_>) -> Settling {
        // For the prover alone: a tail is of a piece with its last chunk.
        tail.is_last();
        self.0.settle(seat, tail)
    }

    fn length(&self, seat: &mut Seat) -> Option<u64> {
        self.0.length(seat)
    }
}
