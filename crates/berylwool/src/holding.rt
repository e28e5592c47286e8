ghost use Rattle.std.specs.Prelude.{◌≡◌, ◌≢◌, ◌↔◌, ◌*◌, ◌+◌, ◌^◌, ◌<◌, ◌≤◌};
ghost use Rattle.store_shared.specs.Seats.{IsGroupOf, IsSeatOf};
ghost use Rattle.berylwool.specs.Handles.{HasSeat, SeatDid};
ghost use Rattle.berylwool.specs.Holding.{LooksAt};
ghost use Rattle.berylwool.specs.Storing.{EachGroup};

use crate::handle::{BwHandle, with_held};
use crate::status::NO_GROUP;
use b3tree::CHUNK_LEN;
use std::alloc::Global;
use store_core::GROUP_LEN;
use store_shared::{Assembly, Seat};

// The bit of a group's chunk if its first byte is held, else 0.
fn look(store: &Assembly, seat: &mut Seat, group: u32, j: u32) -> u64
    requires seat { IsSeatOf store.now seat.old }
    requires chunk { j < 64 }
    ensures of { IsSeatOf store.now seat.new }
    ensures looks { LooksAt group j result seat.old.view seat.new.view }
    ensures bound { result ≤ 2 ^ j }
{
    let chunk = u64::from(GROUP_LEN) * u64::from(group) + u64::from(j);
    let mut byte = [0];
    match store.read(seat, CHUNK_LEN as u64 * chunk, &mut byte) {
        Ok(()) => 1 << j,
        Err(_) => 0,
    }
}

// The mask of those chunks of a group whose first byte is held.
fn held(store: &Assembly, seat: &mut Seat, group: u32) -> u64
    requires { IsSeatOf store.now seat.old }
    ensures of { IsSeatOf store.now seat.new }
    ensures looks { EachGroup (LooksAt group) 64 result seat.old.view seat.new.view }
{
    let mut mask = 0;
    for j in 0..GROUP_LEN {
        mask += look(store, seat, group, j);
    }
    mask
}

/// Returns in `mask` which chunks of a group are held, and claims none.
#[unsafe(no_mangle)]
pub extern "C" fn bw_seat_held(
    alloc: Global,
    seat: &mut BwHandle,
    group: u32,
    mask: &mut u64,
) -> u32
    ensures looks { result ≡ 0 → SeatDid (λ _ old new. EachGroup (LooksAt group) 64 mask.new old.view new.view) seat.old.held seat.new.held }
    ensures group { result ≡ 0 ↔ HasSeat (λ store _. IsGroupOf store group) seat.old.held }
    ensures no_seat { result ≡ 1202 ↔ (¬ HasSeat (λ _ _. Unit) seat.old.held) }
    ensures status { result ≢ 0 → result ≢ 1202 → result ≡ 803 }
    ensures same { result ≢ 0 → seat.new.held ≡ seat.old.held }
    ensures no_mask { result ≢ 0 → mask.new ≡ mask.old }
{
    with_held!(seat, alloc, Seat, |it| {
        if group < it.store.groups() {
            *mask = held(&it.store, &mut it.seat, group);
            0
        } else {
            NO_GROUP
        }
    })
}
