ghost use Rattle.std.specs.Prelude.{◌≡◌, ◌≢◌, ◌↔◌, IsTrue, None, Some};
ghost use Rattle.store_shared.specs.Seats.{fixed_of};
ghost use Rattle.store_core.specs.Knowledge.{IsMerged};
ghost use Rattle.berylwool.specs.Handles.{AreAlike, AreOfOneStore, AreUnlike, HaveSeats, SeatParts};

use crate::handle::{BwHandle, put, take};
use crate::owned::{Held, Seated};
use crate::status::{NO_HANDLE, OTHER_STORE};
use std::alloc::Global;
use std::mem;
use store_core::Fixed;
use store_shared::{Assembly, Seat};

// What never changes in a store.
pub(crate) fn fixed(store: &Assembly) -> Fixed
    ensures { result ≡ fixed_of store.now }
{
    Fixed {
        root: store.root(),
        mode: store.mode(),
        capacity: store.capacity(),
        base: store.base(),
    }
}

// Whether two stores have the same root, mode, capacity and first chunk.
fn are_alike(one: &Assembly, other: &Assembly) -> bool
    ensures { IsTrue result ↔ (fixed_of one.now ≡ fixed_of other.now) }
{
    let fixed = fixed(one);
    if fixed.capacity != other.capacity() {
        return false;
    }
    if fixed.base != other.base() {
        return false;
    }
    fixed.is_of(&other.root(), &other.mode())
}

// 0 if both are seats of stores that are alike, else 1202 or 1211.
fn both_status(one: &Held, two: &Held) -> u32
    ensures alike { result ≡ 0 ↔ AreAlike (Some one.now) (Some two.now) }
    ensures no_seat { result ≡ 1202 ↔ (¬ HaveSeats (Some one.now) (Some two.now)) }
    ensures other_store { result ≡ 1211 ↔ AreUnlike (Some one.now) (Some two.now) }
    ensures status { result ≢ 0 → result ≢ 1202 → result ≡ 1211 }
{
    let Held::Seat(first) = one else {
        return NO_HANDLE;
    };
    let Held::Seat(second) = two else {
        return NO_HANDLE;
    };
    if are_alike(&first.store, &second.store) {
        0
    } else {
        OTHER_STORE
    }
}

/// Joins two seats of one store: `seat` has the claims and calls of both, and `other` is empty.
#[unsafe(no_mangle)]
pub extern "C" fn bw_seat_join(alloc: Global, seat: &mut BwHandle, other: &mut BwHandle) -> u32
    requires one_store { AreAlike seat.old.held other.old.held → AreOfOneStore seat.old.held other.old.held }
    ensures merged { result ≡ 0 → SeatParts (λ joined first second. IsMerged first.view second.view joined.view) seat.new.held seat.old.held other.old.held }
    ensures empty { result ≡ 0 → other.new.held ≡ None }
    ensures no_seat { result ≡ 1202 ↔ (¬ HaveSeats seat.old.held other.old.held) }
    ensures other_store { result ≡ 1211 ↔ AreUnlike seat.old.held other.old.held }
    ensures status { result ≢ 0 → result ≢ 1202 → result ≡ 1211 }
    ensures same { result ≢ 0 → seat.new.held ≡ seat.old.held }
    ensures other_same { result ≢ 0 → other.new.held ≡ other.old.held }
{
    let Some(mut held) = take(seat, alloc) else {
        return NO_HANDLE;
    };
    let Some(mut others) = take(other, alloc) else {
        put(seat, held);
        return NO_HANDLE;
    };
    let status = both_status(&held, &others);
    if status != 0 {
        put(seat, held);
        put(other, others);
        return status;
    }
    let Held::Seat(Seated { store, seat: first }) = mem::replace(&mut *held, Held::Gone) else {
        unreachable!();
    };
    let Held::Seat(second) = mem::replace(&mut *others, Held::Gone) else {
        unreachable!();
    };
    let seat_of_both = store.join(first, second.seat);
    *held = Held::Seat(Seated {
        store,
        seat: seat_of_both,
    });
    put(seat, held);
    0
}
