ghost use Rattle.std.specs.Prelude.{IfOk};
ghost use Rattle.store_shared.specs.Seats.{IsSeatOf};

use b3tree::{Hash, Mode};
use std::alloc::Global;
use std::test::Fail;
use store_shared::{Assembly, Seat};

// A shared store for this root, and its first seat.
pub(crate) fn store(alloc: Global, root: Hash, capacity: u32) -> Result<(Assembly, Seat), Fail>
    ensures { IfOk result (λ made. IsSeatOf made.0 made.1) }
{
    Ok(Assembly::new(alloc, root, Mode::hash(), capacity)?)
}

// A second seat, split off this one.
pub(crate) fn split(store: &Assembly, seat: Seat) -> Result<(Seat, Seat), Fail>
    requires { IsSeatOf store.now seat }
    ensures { IfOk result (λ seats. IsSeatOf store.now seats.0 × IsSeatOf store.now seats.1) }
{
    match store.split(seat) {
        Ok(seats) => Ok(seats),
        Err(_) => Err("no second seat".into()),
    }
}
