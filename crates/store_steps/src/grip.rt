ghost use Rattle.std.specs.Prelude.{◌≡◌, ◌<◌, [], ◌∷◌};
ghost use Rattle.store_steps.specs.Grips.{Gripped, first_of};

use atomic_table::Seat;
use std::collections::LinkedList;
use std::marker::Model;
use store_core::SeatView;

/// A seat's hold on the words of a shared store: one thread's token for its steps. It has no bytes at run time;
/// contracts refer to its table and to its view, what it knows.
#[derive(Drop)]
pub struct Grip {
    pub(crate) seat: Seat<(), LinkedList<SeatView>>,
}

impl Model for Grip {
    ghost Value = { Gripped };

    ghost view = { λ g. record { table_id = g.seat.table_id; view = first_of g.seat.me.0 } };

    ghost invariant = { λ g. (g.seat.me.0 ≡ first_of g.seat.me.0 ∷ []) × (g.seat.me.1 ≡ []) };
}
