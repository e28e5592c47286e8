// What was gathered or stored is served, unless there is no memory.

ghost use Rattle.std.specs.Prelude.{◌≡◌, ◌+◌, ◌≤◌, IfErr, IfOk};
ghost use Rattle.bao_check.specs.Checked.{piece_claimed, piece_len, piece_start};
ghost use Rattle.gather.specs.SeatLasting.{IsAlone};
ghost use Rattle.determined_stores.specs.Serves.{AreStored, HasSliceOf, IsReady};
ghost use Rattle.holders.specs.Room.{groups};
ghost use Rattle.holders.specs.Pieces.{piece_of};
ghost use Rattle.store_core.specs.Stores.{IsOf};
ghost use Rattle.store_shared.specs.Seats.{IsGroupOf, IsSeatOf, fixed_of};

use b3tree::{Hash, Mode};
use bao_check::Checked;
use std::alloc::Global;
use store_shared::{Assembly, NewFault, Seat, ServeFault};

// The first seat of a store is alone.
pub fn first_is_alone(
    alloc: Global,
    root: Hash,
    mode: Mode,
    capacity: u32,
) -> Result<(Assembly, Seat), NewFault>
    ensures { IfOk result (λ made. IsAlone made.1.view) }
{
    Assembly::new(alloc, root, mode, capacity)
}

// A seat that is alone stores all that a piece has of a group, whether or not it claimed some of it before.
pub fn group_is_stored(a: &Assembly, seat: &mut Seat, group: u32, piece: &Checked<'_>)
    requires of { IsSeatOf a.now seat.old }
    requires group { IsGroupOf a.now group }
    requires piece { IsOf (fixed_of a.now) piece.now }
    requires ready { IsReady seat.old.view (piece_of (fixed_of a.now).base piece.now) }
    ensures of { IsSeatOf a.now seat.new }
    ensures ready { IsReady seat.new.view (piece_of (fixed_of a.now).base piece.now) }
    ensures stored { AreStored seat.old.view (piece_of (fixed_of a.now).base piece.now) group → AreStored seat.new.view (piece_of (fixed_of a.now).base piece.now) (group + 1) }
{
    let Ok(_granted) = a.take(seat, group, u64::MAX) else {
        unreachable!();
    };
    a.look_round(seat);
    let Ok(_committed) = a.commit(seat, group, piece) else {
        unreachable!();
    };
    let Ok(_stored) = a.commit_parents(seat, group, piece) else {
        // The piece is of the store's root and mode, and of the length that is recorded.
        unreachable!();
    };
}

// So it does of all groups.
pub fn piece_is_stored(a: &Assembly, seat: &mut Seat, piece: &Checked<'_>)
    requires of { IsSeatOf a.now seat.old }
    requires piece { IsOf (fixed_of a.now) piece.now }
    requires ready { IsReady seat.old.view (piece_of (fixed_of a.now).base piece.now) }
    ensures of { IsSeatOf a.now seat.new }
    ensures ready { IsReady seat.new.view (piece_of (fixed_of a.now).base piece.now) }
    ensures stored { AreStored seat.new.view (piece_of (fixed_of a.now).base piece.now) (groups (fixed_of a.now)) }
{
    for group in 0..a.groups() {
        group_is_stored(a, seat, group, piece);
    }
}

// Then it serves each slice all of whose nodes the piece has, and memory alone refuses it.
pub fn stored_is_served(
    a: &Assembly,
    seat: &mut Seat,
    piece: &Checked<'_>,
    start: u64,
    len: u64,
) -> Result<Vec<u8>, ServeFault>
    requires of { IsSeatOf a.now seat.old }
    requires piece { IsOf (fixed_of a.now) piece.now }
    requires ready { IsReady seat.old.view (piece_of (fixed_of a.now).base piece.now) }
    requires has { HasSliceOf (piece_of (fixed_of a.now).base piece.now) start len }
    ensures { IfErr result (λ fault. fault ≡ ServeFault.Memory) }
{
    piece_is_stored(a, seat, piece);
    a.serve_slice(seat, start, len)
}

// The slice that the piece is of is one.
pub fn own_slice_is_served(
    a: &Assembly,
    seat: &mut Seat,
    piece: &Checked<'_>,
    start: u64,
    len: u64,
) -> Result<Vec<u8>, ServeFault>
    requires of { IsSeatOf a.now seat.old }
    requires piece { IsOf (fixed_of a.now) piece.now }
    requires ready { IsReady seat.old.view (piece_of (fixed_of a.now).base piece.now) }
    requires own { (start ≡ piece_start piece.now) × (len ≡ piece_len piece.now) }
    ensures { IfErr result (λ fault. fault ≡ ServeFault.Memory) }
{
    stored_is_served(a, seat, piece, start, len)
}

// And so is each slice, where the piece is of the whole blob.
pub fn every_slice_is_served(
    a: &Assembly,
    seat: &mut Seat,
    piece: &Checked<'_>,
    start: u64,
    len: u64,
) -> Result<Vec<u8>, ServeFault>
    requires of { IsSeatOf a.now seat.old }
    requires piece { IsOf (fixed_of a.now) piece.now }
    requires ready { IsReady seat.old.view (piece_of (fixed_of a.now).base piece.now) }
    requires whole { (piece_start piece.now ≡ 0) × (piece_claimed piece.now ≤ piece_len piece.now) }
    ensures { IfErr result (λ fault. fault ≡ ServeFault.Memory) }
{
    stored_is_served(a, seat, piece, start, len)
}
