ghost use Rattle.std.specs.Prelude.{◌≡◌};
ghost use Rattle.gather.specs.Counts.{no_counts};

use crate::report::Report;
use store_shared::Seat;

/// A worker: its seat of a shared store, its holders, and its report.
#[derive(Drop)]
pub struct Crew<H> {
    /// Its seat of the store, with its claims and its calls.
    pub seat: Seat,
    /// The holders that it asks, in order. There may be none.
    pub holders: Vec<H>,
    /// What it did.
    pub report: Report,
}

impl<H> Crew<H> {
    /// Returns a worker that has done nothing yet.
    pub fn new(seat: Seat, holders: Vec<H>) -> Crew<H>
        ensures seat { result.seat ≡ seat }
        ensures holders { result.holders ≡ holders }
        ensures report { result.report ≡ no_counts }
    {
        Crew {
            seat,
            holders,
            report: Report::new(),
        }
    }
}
