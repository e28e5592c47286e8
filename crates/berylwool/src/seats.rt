ghost use Rattle.std.specs.Prelude.{◌≡◌, ◌≢◌, ◌↔◌, ◌⊎◌, ◌<◌, ◌≤◌, ◌*◌, ◌-◌, ◌^◌, ℕ, false, true, IfSome, None, Some, drop, length, take};
ghost use Rattle.std.specs.Arc.{arc_value};
ghost use Rattle.gather.specs.FinishCalls.{Asks};
ghost use Rattle.gather.specs.Finished.{BindsNone, BindsTo, IsFinished, IsOther, IsUnfinished};
ghost use Rattle.store_core.specs.Histories.{state_after};
ghost use Rattle.store_core.specs.declared.history.Call.TheVariants.{Give, Length, Settle, Take};
ghost use Rattle.store_core.specs.declared.history.Settling.TheVariants.{Differs};
ghost use Rattle.holders.specs.Pieces.{EndsBlob, length_of};
ghost use Rattle.holders.specs.Room.{has_room};
ghost use Rattle.store_shared.specs.Seats.{IsGroupOf, IsSeatOf, fixed_of};
ghost use Rattle.store_core.specs.Knowledge.{ArePartsOf, Called, opening_view};
ghost use Rattle.berylwool.specs.Handles.{HasSeat, SeatDid, SeatParts};
ghost use Rattle.berylwool.specs.Modes.{IsKnown, mode_of};
ghost use Rattle.berylwool.specs.Calls.{HasSettled, IsNoSliceOf, IsSliceOf, LacksAt, Reads, ReadsAt, slice_piece};

use crate::checking::told;
use crate::handle::{BwHandle, put, take, with_held};
use crate::mode::BwMode;
use crate::owned::{Held, Seated};
use crate::status::{
    DIFFERS, MISSING, NO_HANDLE, NO_MEMORY, NO_MODE, NO_TAIL, NOT_THE_ROOT, ROOM, TOO_LARGE,
    UNFINISHED,
};
use b3tree::{CHUNK_LEN, Hash, hash};
use bao_check::check_slice;
use std::alloc::Global;
use std::mem;
use std::sync::Arc;
use store_core::Settling;
use store_shared::{Assembly, Seat};

/// Makes a store of the `capacity` chunks of a blob from chunk `first_chunk` on, and its first seat, which has
/// seen nothing.
#[unsafe(no_mangle)]
pub extern "C" fn bw_seat_new(
    alloc: Global,
    mode: &BwMode,
    root: &[u8; 32],
    first_chunk: u64,
    capacity: u32,
    seat: &mut BwHandle,
) -> u32
    ensures fixed { result ≡ 0 → HasSeat (λ store _. fixed_of store ≡ record { root = record { 0 = root.now }; mode = mode_of mode.now; capacity = capacity; base = first_chunk }) seat.new.held }
    ensures view { result ≡ 0 → HasSeat (λ store first. first.view ≡ opening_view (fixed_of store)) seat.new.held }
    ensures unknown { result ≡ 1213 ↔ (¬ IsKnown mode.now) }
    ensures capacity { result ≡ 802 ↔ (IsKnown mode.now × (¬ ((0 < capacity) × (capacity ≤ 65536) × (first_chunk ≤ 2 ^ 54)))) }
    ensures status { result ≢ 0 → result ≢ 801 → result ≢ 802 → result ≢ 1213 → result ≡ 1203 }
    ensures empty { result ≢ 0 → seat.new.held ≡ None }
{
    let _old = take(seat, alloc);
    if !mode.is_known() {
        return NO_MODE;
    }
    let made = match Assembly::from_chunk(alloc, Hash(*root), mode.get(), first_chunk, capacity) {
        Ok(made) => made,
        Err(fault) => return u32::from(fault.code()),
    };
    let (assembly, first) = made;
    let Ok(store) = Arc::new(alloc, assembly) else {
        return NO_MEMORY;
    };
    match Box::new(alloc, Held::Seat(Seated { store, seat: first })) {
        Ok(held) => {
            put(seat, held);
            0
        }
        Err(_) => NO_MEMORY,
    }
}

// Another share of a store, and a box for what a handle owns.
fn shared(
    alloc: Global,
    store: &Arc<Assembly, Global>,
) -> Option<(Arc<Assembly, Global>, Box<Held, Global>)>
    ensures { IfSome result (λ r. arc_value r.0 ≡ arc_value store.now) }
{
    let Ok(again) = Arc::try_clone(store) else {
        return None;
    };
    match Box::new(alloc, Held::Gone) {
        Ok(room) => Some((again, room)),
        Err(_) => None,
    }
}

/// Makes `other` another seat of the store, which has seen the same and has no claims or calls.
#[unsafe(no_mangle)]
pub extern "C" fn bw_seat_split(alloc: Global, seat: &mut BwHandle, other: &mut BwHandle) -> u32
    ensures parts { result ≡ 0 → SeatParts (λ old first second. ArePartsOf old.view first.view second.view) seat.old.held seat.new.held other.new.held }
    ensures no_seat { result ≡ 1202 ↔ (¬ HasSeat (λ _ _. Unit) seat.old.held) }
    ensures status { result ≢ 0 → result ≢ 806 → result ≢ 1202 → result ≡ 1203 }
    ensures same { result ≢ 0 → seat.new.held ≡ seat.old.held }
    ensures empty { result ≢ 0 → other.new.held ≡ None }
{
    let _old = take(other, alloc);
    let Some(mut held) = take(seat, alloc) else {
        return NO_HANDLE;
    };
    let status = match mem::replace(&mut *held, Held::Gone) {
        Held::Seat(Seated { store, seat: whole }) => match shared(alloc, &store) {
            Some((again, mut room)) => match store.split(whole) {
                Ok((first, second)) => {
                    *held = Held::Seat(Seated { store, seat: first });
                    *room = Held::Seat(Seated {
                        store: again,
                        seat: second,
                    });
                    put(other, room);
                    0
                }
                Err(fault) => {
                    let code = u32::from(fault.code());
                    *held = Held::Seat(Seated {
                        store,
                        seat: fault.seat,
                    });
                    code
                }
            },
            None => {
                *held = Held::Seat(Seated { store, seat: whole });
                NO_MEMORY
            }
        },
        kept => {
            *held = kept;
            NO_HANDLE
        }
    };
    put(seat, held);
    status
}

/// Claims those chunks of `want` that are below the capacity and neither held nor claimed, and returns their
/// mask in `granted`.
#[unsafe(no_mangle)]
pub extern "C" fn bw_seat_take(
    alloc: Global,
    seat: &mut BwHandle,
    group: u32,
    want: u64,
    granted: &mut u64,
) -> u32
    ensures called { result ≡ 0 → SeatDid (λ _ old new. Called (Take group want granted.new) old.view new.view) seat.old.held seat.new.held }
    ensures group { result ≡ 0 ↔ HasSeat (λ store _. IsGroupOf store group) seat.old.held }
    ensures no_seat { result ≡ 1202 ↔ (¬ HasSeat (λ _ _. Unit) seat.old.held) }
    ensures status { result ≢ 0 → result ≢ 1202 → result ≡ 803 }
    ensures same { result ≢ 0 → seat.new.held ≡ seat.old.held }
{
    with_held!(
        seat,
        alloc,
        Seat,
        |it| match it.store.take(&mut it.seat, group, want) {
            Ok(mask) => {
                *granted = mask;
                0
            }
            Err(fault) => u32::from(fault.code()),
        }
    )
}

/// Ends the seat's claims to chunks of `mask`, and returns the mask of those that it had in `given`.
#[unsafe(no_mangle)]
pub extern "C" fn bw_seat_give(
    alloc: Global,
    seat: &mut BwHandle,
    group: u32,
    mask: u64,
    given: &mut u64,
) -> u32
    ensures called { result ≡ 0 → SeatDid (λ _ old new. Called (Give group mask given.new) old.view new.view) seat.old.held seat.new.held }
    ensures has { result ≡ 0 ↔ HasSeat (λ _ _. Unit) seat.old.held }
    ensures status { result ≢ 0 → result ≡ 1202 }
    ensures same { result ≢ 0 → seat.new.held ≡ seat.old.held }
{
    with_held!(seat, alloc, Seat, |it| {
        *given = it.store.give(&mut it.seat, group, mask);
        0
    })
}

// Settles the length, as `bw_seat_settle` does.
fn settled(alloc: Global, store: &Assembly, seat: &mut Seat, text: &[u8], at: &mut u64) -> u32
    requires { IsSeatOf store.now seat.old }
    ensures of { IsSeatOf store.now seat.new }
    ensures settled { result ≡ 0 → HasSettled (slice_piece (fixed_of store.now).base text.now (2 ^ 64 - 1) 1) seat.old.view seat.new.view }
    ensures differs { result ≡ 1206 → Called (Settle (slice_piece (fixed_of store.now).base text.now (2 ^ 64 - 1) 1) Differs) seat.old.view seat.new.view }
    ensures large { result ≡ 805 → has_room (fixed_of store.now) (length_of (slice_piece (fixed_of store.now).base text.now (2 ^ 64 - 1) 1)) ≡ false }
    ensures room { ((result ≡ 0) ⊎ (result ≡ 1206)) → has_room (fixed_of store.now) (length_of (slice_piece (fixed_of store.now).base text.now (2 ^ 64 - 1) 1)) ≡ true }
    ensures fault { result ≢ 0 → result < 506 → IsNoSliceOf store.now text.now (2 ^ 64 - 1) 1 result at.new }
    ensures accepted { ((result ≡ 0) ⊎ (505 < result)) → IsSliceOf store.now text.now (2 ^ 64 - 1) 1 }
    ensures same { result ≢ 0 → result ≢ 1206 → seat.new ≡ seat.old }
    ensures no_tail { result ≡ 1205 → (¬ EndsBlob (slice_piece 0 text.now (2 ^ 64 - 1) 1)) }
    ensures status { result ≢ 0 → 505 < result → result ≢ 805 → result ≢ 1205 → result ≡ 1206 }
{
    match check_slice(alloc, &store.mode(), &store.root(), u64::MAX, 1, text) {
        Ok(piece) => {
            let Some(tail) = piece.tail() else {
                return NO_TAIL;
            };
            match store.settle(seat, &tail) {
                Settling::Settled | Settling::Known => 0,
                Settling::Differs => DIFFERS,
                Settling::TooLarge => TOO_LARGE,
                // The slice was accepted under the store's root, in its mode.
                Settling::OtherRoot => unreachable!(),
            }
        }
        Err(fault) => told(&fault, at),
    }
}

/// Checks `text` as the slice (2^64 - 1, 1), which has the last chunk, under the store's root, and records the
/// length that it certifies, if none is recorded.
#[unsafe(no_mangle)]
pub extern "C" fn bw_seat_settle(
    alloc: Global,
    seat: &mut BwHandle,
    text: &[u8],
    at: &mut u64,
) -> u32
    ensures settled { result ≡ 0 → SeatDid (λ store old new. HasSettled (slice_piece (fixed_of store).base text.now (2 ^ 64 - 1) 1) old.view new.view) seat.old.held seat.new.held }
    ensures differs { result ≡ 1206 → SeatDid (λ store old new. Called (Settle (slice_piece (fixed_of store).base text.now (2 ^ 64 - 1) 1) Differs) old.view new.view) seat.old.held seat.new.held }
    ensures large { result ≡ 805 → HasSeat (λ store _. has_room (fixed_of store) (length_of (slice_piece (fixed_of store).base text.now (2 ^ 64 - 1) 1)) ≡ false) seat.old.held }
    ensures room { ((result ≡ 0) ⊎ (result ≡ 1206)) → HasSeat (λ store _. has_room (fixed_of store) (length_of (slice_piece (fixed_of store).base text.now (2 ^ 64 - 1) 1)) ≡ true) seat.old.held }
    ensures no_tail { result ≡ 1205 → (¬ EndsBlob (slice_piece 0 text.now (2 ^ 64 - 1) 1)) }
    ensures accepted { ((result ≡ 0) ⊎ (505 < result)) → result ≢ 1202 → HasSeat (λ store _. IsSliceOf store text.now (2 ^ 64 - 1) 1) seat.old.held }
    ensures fault { result ≢ 0 → result < 506 → HasSeat (λ store _. IsNoSliceOf store text.now (2 ^ 64 - 1) 1 result at.new) seat.old.held }
    ensures no_seat { result ≡ 1202 ↔ (¬ HasSeat (λ _ _. Unit) seat.old.held) }
    ensures status { result ≢ 0 → 505 < result → result ≢ 805 → result ≢ 1202 → result ≢ 1205 → result ≡ 1206 }
    ensures same { result ≢ 0 → result ≢ 1206 → seat.new.held ≡ seat.old.held }
{
    with_held!(
        seat,
        alloc,
        Seat,
        |it| settled(alloc, &it.store, &mut it.seat, text, at)
    )
}

/// Returns the recorded length of the blob in `len`.
#[unsafe(no_mangle)]
pub extern "C" fn bw_seat_length(alloc: Global, seat: &mut BwHandle, len: &mut u64) -> u32
    ensures called { result ≡ 0 → SeatDid (λ _ old new. Called (Length (Some len.new)) old.view new.view) seat.old.held seat.new.held }
    ensures unknown { result ≡ 901 → SeatDid (λ _ old new. Called (Length None) old.view new.view) seat.old.held seat.new.held }
    ensures whole { result ≡ 0 → HasSeat (λ store _. (fixed_of store).base ≡ 0) seat.old.held }
    ensures no_seat { result ≡ 1202 ↔ (¬ HasSeat (λ _ _. Unit) seat.old.held) }
    ensures status { result ≢ 0 → result ≢ 901 → result ≡ 1202 }
    ensures same { result ≡ 1202 → seat.new.held ≡ seat.old.held }
{
    with_held!(
        seat,
        alloc,
        Seat,
        |it| match it.store.length(&mut it.seat) {
            Some(length) => {
                *len = length;
                0
            }
            None => UNFINISHED,
        }
    )
}

// Fills a buffer, as `bw_seat_read` does.
fn filled(store: &Assembly, seat: &mut Seat, at: u64, out: &mut [u8], missing: &mut u64) -> u32
    requires { IsSeatOf store.now seat.old }
    ensures of { IsSeatOf store.now seat.new }
    ensures all { result ≡ 0 → Reads at out.old out.new None seat.old seat.new }
    ensures part { result ≡ 1204 → Reads at out.old out.new (Some missing.new) seat.old seat.new }
    ensures status { result ≢ 0 → result ≡ 1204 }
{
    match store.read(seat, at, out) {
        Ok(()) => 0,
        Err(place) => {
            *missing = place.0;
            MISSING
        }
    }
}

/// Fills `out` with the bytes from offset `at` of the store on, which is byte `at` of the blob if the store's
/// first chunk is the blob's.
#[unsafe(no_mangle)]
pub extern "C" fn bw_seat_read(
    alloc: Global,
    seat: &mut BwHandle,
    at: u64,
    out: &mut [u8],
    missing: &mut u64,
) -> u32
    ensures all { result ≡ 0 → SeatDid (λ _ old new. Reads at out.old out.new None old new) seat.old.held seat.new.held }
    ensures part { result ≡ 1204 → SeatDid (λ _ old new. Reads at out.old out.new (Some missing.new) old new) seat.old.held seat.new.held }
    ensures no_seat { result ≡ 1202 ↔ (¬ HasSeat (λ _ _. Unit) seat.old.held) }
    ensures status { result ≢ 0 → result ≢ 1204 → result ≡ 1202 }
    ensures same { result ≡ 1202 → seat.new.held ≡ seat.old.held }
{
    with_held!(
        seat,
        alloc,
        Seat,
        |it| filled(&it.store, &mut it.seat, at, out, missing)
    )
}

// Fills a buffer, as `bw_seat_read_at` does.
fn filled_at(store: &Assembly, seat: &mut Seat, at: u64, out: &mut [u8], missing: &mut u64) -> u32
    requires { IsSeatOf store.now seat.old }
    ensures of { IsSeatOf store.now seat.new }
    ensures all { result ≡ 0 → ReadsAt (fixed_of store.now).base at out.old out.new None seat.old seat.new }
    ensures part { result ≡ 1204 → LacksAt (fixed_of store.now).base at out.old out.new missing.new seat.old seat.new }
    ensures status { result ≢ 0 → result ≡ 1204 }
{
    let base = store.base();
    if at / (CHUNK_LEN as u64) < base {
        *missing = at;
        return MISSING;
    }
    let first = CHUNK_LEN as u64 * base;
    match store.read(seat, at - first, out) {
        Ok(()) => 0,
        Err(place) => {
            *missing = first.saturating_add(place.0);
            MISSING
        }
    }
}

/// Fills `out` with the bytes from byte `at` of the blob on.
#[unsafe(no_mangle)]
pub extern "C" fn bw_seat_read_at(
    alloc: Global,
    seat: &mut BwHandle,
    at: u64,
    out: &mut [u8],
    missing: &mut u64,
) -> u32
    ensures all { result ≡ 0 → SeatDid (λ store old new. ReadsAt (fixed_of store).base at out.old out.new None old new) seat.old.held seat.new.held }
    ensures part { result ≡ 1204 → SeatDid (λ store old new. LacksAt (fixed_of store).base at out.old out.new missing.new old new) seat.old.held seat.new.held }
    ensures no_seat { result ≡ 1202 ↔ (¬ HasSeat (λ _ _. Unit) seat.old.held) }
    ensures status { result ≢ 0 → result ≢ 1204 → result ≡ 1202 }
    ensures same { result ≡ 1202 → seat.new.held ≡ seat.old.held }
{
    with_held!(
        seat,
        alloc,
        Seat,
        |it| filled_at(&it.store, &mut it.seat, at, out, missing)
    )
}

// Copies the whole blob to a buffer, as `bw_seat_finish` does.
fn finished(store: &Assembly, seat: &mut Seat, out: &mut [u8], used: &mut usize) -> u32
    requires { IsSeatOf store.now seat.old }
    ensures of { IsSeatOf store.now seat.new }
    ensures asks { Asks seat.old.view seat.new.view }
    ensures blob { result ≡ 0 → IsFinished (fixed_of store.now) (state_after seat.new.view.seen) (take used.new out.new) }
    ensures binds { result ≡ 0 → BindsTo (fixed_of store.now) seat.new.view.seen (take used.new out.new) }
    ensures within { result ≡ 0 → used.new ≤ length out.new }
    ensures rest { result ≡ 0 → drop used.new out.new ≡ drop used.new out.old }
    ensures unfinished { result ≡ 901 → IsUnfinished (state_after seat.new.view.seen) }
    ensures other { result ≡ 902 → IsOther (fixed_of store.now) (state_after seat.new.view.seen) }
    ensures none { result ≡ 902 → BindsNone (fixed_of store.now) seat.new.view.seen }
    ensures room { result ≡ 1201 → Called (Length (Some used.new)) seat.old.view seat.new.view × (length out.old < used.new) }
    ensures first { (l : ℕ) → (state_after seat.new.view.seen).recorded ≡ Some l → length out.old < l → result ≡ 1201 }
    ensures whole { result ≢ 901 → (fixed_of store.now).base ≡ 0 }
    ensures status { result ≢ 0 → result ≢ 901 → result ≢ 902 → result ≡ 1201 }
{
    let mode = store.mode();
    // For the prover alone: this cites a lemma, and has no effect.
    mode.is_keyed();
    let Some(length) = store.length(seat) else {
        return UNFINISHED;
    };
    if length > out.len() as u64 {
        *used = length as usize;
        return ROOM;
    }
    let length = length as usize;
    if let Err(_place) = store.read(seat, 0, &mut out[..length]) {
        return UNFINISHED;
    }
    if hash(&mode, &out[..length]) != store.root() {
        return NOT_THE_ROOT;
    }
    *used = length;
    0
}

/// Copies the whole blob to the front of `out`, with its length in `used`, if the hash of its bytes is the
/// root.
#[unsafe(no_mangle)]
pub extern "C" fn bw_seat_finish(
    alloc: Global,
    seat: &mut BwHandle,
    out: &mut [u8],
    used: &mut usize,
) -> u32
    ensures asks { result ≢ 1202 → SeatDid (λ _ old new. Asks old.view new.view) seat.old.held seat.new.held }
    ensures blob { result ≡ 0 → SeatDid (λ store _ new. IsFinished (fixed_of store) (state_after new.view.seen) (take used.new out.new)) seat.old.held seat.new.held }
    ensures binds { result ≡ 0 → SeatDid (λ store _ new. BindsTo (fixed_of store) new.view.seen (take used.new out.new)) seat.old.held seat.new.held }
    ensures within { result ≡ 0 → used.new ≤ length out.new }
    ensures rest { result ≡ 0 → drop used.new out.new ≡ drop used.new out.old }
    ensures unfinished { result ≡ 901 → SeatDid (λ _ _ new. IsUnfinished (state_after new.view.seen)) seat.old.held seat.new.held }
    ensures other { result ≡ 902 → SeatDid (λ store _ new. IsOther (fixed_of store) (state_after new.view.seen)) seat.old.held seat.new.held }
    ensures none { result ≡ 902 → SeatDid (λ store _ new. BindsNone (fixed_of store) new.view.seen) seat.old.held seat.new.held }
    ensures room { result ≡ 1201 → SeatDid (λ _ old new. Called (Length (Some used.new)) old.view new.view × (length out.old < used.new)) seat.old.held seat.new.held }
    ensures first { result ≢ 1202 → SeatDid (λ _ _ new. (l : ℕ) → (state_after new.view.seen).recorded ≡ Some l → length out.old < l → result ≡ 1201) seat.old.held seat.new.held }
    ensures whole { result ≢ 901 → result ≢ 1202 → HasSeat (λ store _. (fixed_of store).base ≡ 0) seat.old.held }
    ensures no_seat { result ≡ 1202 ↔ (¬ HasSeat (λ _ _. Unit) seat.old.held) }
    ensures status { result ≢ 0 → result ≢ 901 → result ≢ 902 → result ≢ 1202 → result ≡ 1201 }
    ensures same { result ≡ 1202 → seat.new.held ≡ seat.old.held }
{
    with_held!(
        seat,
        alloc,
        Seat,
        |it| finished(&it.store, &mut it.seat, out, used)
    )
}
