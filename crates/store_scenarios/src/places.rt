ghost use Rattle.std.specs.Prelude.{IfOk};
ghost use Rattle.store_scenarios.specs.Rooms.{AreSeatsOf};
ghost use Rattle.store_shared.specs.Seats.{IsSeatOf};

use anyhow::{Context, Result, bail};
use store_shared::{Assembly, Seat};

// The seat with this number, which is then away.
pub fn take_out(store: &Assembly, seats: &mut Vec<Option<Seat>>, number: usize) -> Result<Seat>
    requires { AreSeatsOf store.now seats.old.items }
    ensures others { AreSeatsOf store.now seats.new.items }
    ensures seat { IfOk result (IsSeatOf store.now) }
{
    if number >= seats.len() {
        bail!("a seat");
    }
    let seat = seats[number].take();
    seat.context("a seat that is there")
}

// The seat is there again.
pub fn put_back(
    store: &Assembly,
    seats: &mut Vec<Option<Seat>>,
    number: usize,
    seat: Seat,
) -> Result<()>
    requires seats { AreSeatsOf store.now seats.old.items }
    requires seat { IsSeatOf store.now seat }
    ensures { AreSeatsOf store.now seats.new.items }
{
    if number >= seats.len() {
        bail!("a seat");
    }
    seats[number] = Some(seat);
    Ok(())
}

// One seat more, which is the last.
pub fn put_last(store: &Assembly, seats: &mut Vec<Option<Seat>>, seat: Seat) -> Result<()>
    requires seats { AreSeatsOf store.now seats.old.items }
    requires seat { IsSeatOf store.now seat }
    ensures { AreSeatsOf store.now seats.new.items }
{
    seats.push(Some(seat)).ok().context("room")
}
