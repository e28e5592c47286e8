ghost use Rattle.std.specs.Prelude.{IfOk};
ghost use Rattle.store_shared.specs.Seats.{IsSeatOf};

use crate::bytes::array;
use b3tree::{Hash, Mode};
use bao_check::{Checked, check_combined};
use bao_text::combined;
use std::alloc::Global;
use std::process::Abort;
use std::test::Fail;
use store_core::{MicroStep, ReplayFault, Store, StoreFault, replay};
use store_shared::{Assembly, NewFault, Seat, Settling};

// What the store grants of group 0, if need be at the second call.
fn granted(store: &mut Store) -> Result<u64, StoreFault> {
    match store.take(7, 0, u64::MAX) {
        Err(StoreFault::Memory) => store.take(7, 0, u64::MAX),
        granted => granted,
    }
}

// What it stores of a piece, if need be at the second call, before which nothing was given back.
fn committed<R: Abort>(rt: &R, store: &mut Store, piece: &Checked<'_>) -> Result<u64, StoreFault> {
    match store.commit(7, 0, piece) {
        Err(StoreFault::Memory) => {
            assert!(rt; store.take(8, 0, u64::MAX)? == 0);
            store.commit(7, 0, piece)
        }
        committed => committed,
    }
}

fn stores_all<R: AllocGlobal + Abort>(
    rt: &R,
    root: Hash,
    piece: &Checked<'_>,
    bytes: &[u8; 2049],
) -> Result<(), Fail> {
    let mut store = Store::new(rt.alloc(), root, Mode::hash(), 3)?;
    assert!(rt; granted(&mut store)? == 0b111);
    assert!(rt; committed(rt, &mut store, piece)? == 0b111);
    let mut out = [0; 2049];
    assert!(rt; store.read(0, &mut out) == Ok(()));
    assert!(rt; out.as_slice() == bytes.as_slice());
    Ok(())
}

// Where memory is refused, that is told, nothing was changed, and a second call does what was asked for.
#[test]
fn claims_and_commits(rt: HostRuntime) -> Result<(), Fail> {
    let mode = Mode::hash();
    let bytes = array::<2049>();
    let (root, text) = combined(rt.alloc(), &mode, &bytes)?;
    let piece = check_combined(rt.alloc(), &mode, &root, text.as_slice())?;
    stores_all(&rt, root, &piece, &bytes)
}

// The same of a schedule: a claim of each seat, and a length.
#[test]
fn a_schedule(rt: HostRuntime) -> Result<(), Fail> {
    let mode = Mode::hash();
    let bytes = array::<2049>();
    let (root, text) = combined(rt.alloc(), &mode, &bytes)?;
    let pieces = [check_combined(rt.alloc(), &mode, &root, text.as_slice())?];
    let steps = [
        MicroStep::Claim {
            seat: 1,
            group: 0,
            want: 1,
        },
        MicroStep::Claim {
            seat: 2,
            group: 0,
            want: 3,
        },
        MicroStep::Hash { seat: 2, piece: 0 },
        MicroStep::Settle { seat: 2 },
        MicroStep::Load {
            seat: 1,
            at: 0,
            len: 1,
        },
        MicroStep::Length { seat: 1 },
    ];
    let (replies, store) = match replay(rt.alloc(), root, mode, 3, &pieces, &steps) {
        Err(ReplayFault::Memory) => replay(rt.alloc(), root, mode, 3, &pieces, &steps)?,
        run => run?,
    };
    assert!(rt; replies.len() == 5);
    assert!(rt; store.length() == Some(2049));
    Ok(())
}

// A store, if need be at the second call.
pub(crate) fn made(alloc: Global, root: Hash, capacity: u32) -> Result<(Assembly, Seat), NewFault>
    ensures { IfOk result (λ made. IsSeatOf made.0 made.1) }
{
    match Assembly::new(alloc, root, Mode::hash(), capacity) {
        Err(NewFault::Memory) => Assembly::new(alloc, root, Mode::hash(), capacity),
        made => made,
    }
}

// Two seats of one, if need be at the second call, for which the seat comes back.
pub(crate) fn parted(store: &Assembly, seat: Seat) -> Result<(Seat, Seat), Fail>
    requires { IsSeatOf store.now seat }
    ensures { IfOk result (λ seats. IsSeatOf store.now seats.0 × IsSeatOf store.now seats.1) }
{
    let seat = match store.split(seat) {
        Ok(seats) => return Ok(seats),
        Err(fault) => fault.seat,
    };
    match store.split(seat) {
        Ok(seats) => Ok(seats),
        Err(_) => Err("a growth was refused".into()),
    }
}

// Both seats claim and store, and meet; and the second reads all.
fn both_store<R: Abort>(
    rt: &R,
    store: &Assembly,
    first: &mut Seat,
    second: &mut Seat,
    piece: &Checked<'_>,
) -> Result<(), Fail>
    requires first { IsSeatOf store.now first.old }
    requires second { IsSeatOf store.now second.old }
{
    assert!(rt; store.take(first, 0, 0b011) == Ok(0b011));
    assert!(rt; store.take(second, 0, 0b111) == Ok(0b100));
    assert!(rt; store.commit(first, 0, piece) == Ok(0b011));
    assert!(rt; store.commit(second, 0, piece) == Ok(0b100));
    assert!(rt; store.settle(first, &piece.tail().ok_or("tail")?) == Settling::Settled);
    store.meet(first, second);
    let mut out = [0; 2049];
    assert!(rt; store.read(second, 0, &mut out) == Ok(()));
    assert!(rt; out == [7; 2049]);
    Ok(())
}

fn seats_store<R: AllocGlobal + Abort>(
    rt: &R,
    root: Hash,
    piece: &Checked<'_>,
) -> Result<(), Fail> {
    let (store, seat) = made(rt.alloc(), root, 3)?;
    let (mut first, mut second) = parted(&store, seat)?;
    both_store(rt, &store, &mut first, &mut second, piece)
}

// Where memory is refused, that is told, and a second call has the store or the seats. What they call then takes none.
#[test]
fn stores_and_seats(rt: HostRuntime) -> Result<(), Fail> {
    let (root, text) = combined(rt.alloc(), &Mode::hash(), &[7; 2049])?;
    let piece = check_combined(rt.alloc(), &Mode::hash(), &root, text.as_slice())?;
    seats_store(&rt, root, &piece)
}
