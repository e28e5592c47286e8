// What an encoding that isn't accepted has before its first fault.

ghost use Rattle.std.specs.Prelude.{◌≡◌, ◌≢◌, ◌↔◌, ℕ, ◌<◌, ◌≤◌, IfNone, IfSome};
ghost use Rattle.bao_check.specs.Accepted.{slice_nodes};
ghost use Rattle.bao_check.specs.Faults.{IsFirstFault};
ghost use Rattle.bao_text.specs.Cut.{slice_len};
ghost use Rattle.holders.specs.Room.{groups};
ghost use Rattle.store_shared.specs.Seats.{IsSeatOf, fixed_of};
ghost use Rattle.berylwool.specs.Calls.{IsNoSliceOf, IsSliceOf, slice_piece};
ghost use Rattle.berylwool.specs.Handles.{HasSeat, SeatDid};
ghost use Rattle.berylwool.specs.Status.{place_of};
ghost use Rattle.berylwool.specs.Storing.{CommitsFront, CommitsGroup, EachGroup};

use crate::checking::told;
use crate::handle::{BwHandle, put, take, with_held};
use crate::sizes::slice_size;
use crate::storing::commit_groups;
use bao_check::{CheckFault, Checked, check_slice};
use bao_text::{LENGTH_LEN, claimed};
use std::alloc::Global;
use store_shared::{Assembly, Seat};

// The most bytes from byte `start` on, of `len`, whose slice ends no later than offset `at` of its encoding; none if
// the slice of one chunk ends later.
fn front_len(total: u64, start: u64, len: u64, at: u64) -> Option<u64>
    ensures within { IfSome result (λ part. part ≤ len) }
    ensures before { IfSome result (λ part. slice_len total start part ≤ at) }
    ensures most { IfSome result (λ part. (more : ℕ) → part < more → more ≤ len → at < slice_len total start more) }
    ensures none { IfNone result (at < slice_len total start 0) }
{
    let at = u128::from(at);
    if slice_size(total, start, 0) > at {
        return None;
    }
    let mut part = 0;
    let mut most = len;
    'search: while part < most {
        let middle = most - (most - part) / 2;
        if slice_size(total, start, middle) <= at {
            part = middle;
        } else {
            most = middle - 1;
        }
    }
    Some(part)
}

// Stores the chunks that an encoding has before its first fault, and returns how many.
fn commit_front(
    store: &Assembly,
    seat: &mut Seat,
    start: u64,
    len: u64,
    text: &[u8],
    fault: &CheckFault,
    at: u64,
) -> u64
    requires seat { IsSeatOf store.now seat.old }
    requires fault { IsFirstFault (fixed_of store.now).mode (fixed_of store.now).root.0 text.now (slice_nodes text.now start len) fault.now }
    requires at { at ≡ place_of fault.now }
    ensures of { IsSeatOf store.now seat.new }
    ensures commits { CommitsFront (fixed_of store.now) text.now start len at result seat.old.view seat.new.view }
{
    if text.len() < LENGTH_LEN {
        return 0;
    }
    let total = claimed(text);
    if total == 0 {
        return 0;
    }
    let Some(part) = front_len(total, start, len, at) else {
        return 0;
    };
    let size = slice_size(total, start, part) as usize;
    let piece = Checked::new(&store.mode(), &store.root(), start, part, &text[..size]);
    commit_groups(store, seat, &piece)
}

// Stores the chunks that an encoding has, as `bw_seat_commit_some` does.
fn stored_some(
    alloc: Global,
    store: &Assembly,
    seat: &mut Seat,
    start: u64,
    len: u64,
    text: &[u8],
    committed: &mut u64,
    at: &mut u64,
) -> u32
    requires { IsSeatOf store.now seat.old }
    ensures of { IsSeatOf store.now seat.new }
    ensures commits { result ≡ 0 → EachGroup (CommitsGroup (fixed_of store.now) (slice_piece (fixed_of store.now).base text.now start len)) (groups (fixed_of store.now)) committed.new seat.old.view seat.new.view }
    ensures some { result ≢ 0 → CommitsFront (fixed_of store.now) text.now start len at.new committed.new seat.old.view seat.new.view }
    ensures accepted { result ≡ 0 ↔ IsSliceOf store.now text.now start len }
    ensures fault { result ≢ 0 → IsNoSliceOf store.now text.now start len result at.new }
    ensures low { result < 506 }
{
    match check_slice(alloc, &store.mode(), &store.root(), start, len, text) {
        Ok(piece) => {
            *committed = commit_groups(store, seat, &piece);
            0
        }
        Err(fault) => {
            let status = told(&fault, at);
            *committed = commit_front(store, seat, start, len, text, &fault, *at);
            status
        }
    }
}

/// Checks `text` as the slice (`start`, `len`) under the store's root, and stores its chunks as
/// `bw_seat_commit_chunks` does; if it isn't accepted, those before its first fault.
#[unsafe(no_mangle)]
pub extern "C" fn bw_seat_commit_some(
    alloc: Global,
    seat: &mut BwHandle,
    start: u64,
    len: u64,
    text: &[u8],
    committed: &mut u64,
    at: &mut u64,
) -> u32
    ensures commits { result ≡ 0 → SeatDid (λ store old new. EachGroup (CommitsGroup (fixed_of store) (slice_piece (fixed_of store).base text.now start len)) (groups (fixed_of store)) committed.new old.view new.view) seat.old.held seat.new.held }
    ensures some { result ≢ 0 → result ≢ 1202 → SeatDid (λ store old new. CommitsFront (fixed_of store) text.now start len at.new committed.new old.view new.view) seat.old.held seat.new.held }
    ensures accepted { result ≡ 0 ↔ HasSeat (λ store _. IsSliceOf store text.now start len) seat.old.held }
    ensures fault { result ≢ 0 → result ≢ 1202 → HasSeat (λ store _. IsNoSliceOf store text.now start len result at.new) seat.old.held }
    ensures no_seat { result ≡ 1202 ↔ (¬ HasSeat (λ _ _. Unit) seat.old.held) }
    ensures same { result ≡ 1202 → seat.new.held ≡ seat.old.held }
{
    with_held!(
        seat,
        alloc,
        Seat,
        |it| stored_some(
            alloc,
            &it.store,
            &mut it.seat,
            start,
            len,
            text,
            committed,
            at,
        )
    )
}
