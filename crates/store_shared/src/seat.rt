use std::marker::Model;
use store_steps::Grip;

/// A seat of a shared store: one thread's token for its calls, with the mask of the chunks that it claims in
/// each group.
///
/// Contracts refer to its store and to its view, what it knows.
#[derive(Drop)]
pub struct Seat {
    pub(crate) grip: Grip,
    pub(crate) claims: Vec<u64>,
}

impl Model for Seat {
    ghost use Rattle.store_shared.specs.Seats.{AreClaims};
    ghost use Rattle.store_shared.specs.Grips.{Gripped};

    ghost Value = { Gripped };

    ghost view = { λ s. s.grip };

    ghost invariant = { λ s. AreClaims s.grip.view s.claims.items };
}
