ghost use Rattle.store_shared.specs.Seats.{IsSeatOf};

use crate::bytes::array;
use crate::memory::stores::made;
use b3tree::{Hash, Mode};
use bao_check::{CheckFault, Checked, check_slice};
use bao_text::{Memory, slice};
use std::alloc::Global;
use std::process::Abort;
use std::test::Fail;
use store_core::{ServeFault, Settling, Store, StoreFault};
use store_shared::{Assembly, Seat};

// The root of 2049 bytes, and the slices of the first of them and of the last.
fn slices(alloc: Global) -> Result<(Hash, Vec<u8>, Vec<u8>), Memory> {
    let bytes = array::<2049>();
    let (root, first) = slice(alloc, &Mode::hash(), &bytes, 0, 1)?;
    let (_, last) = slice(alloc, &Mode::hash(), &bytes, 2048, 1)?;
    Ok((root, first, last))
}

// What these slices are accepted as.
fn pieces<'a>(
    alloc: Global,
    root: &Hash,
    first: &'a [u8],
    last: &'a [u8],
) -> Result<(Checked<'a>, Checked<'a>), CheckFault> {
    let piece = check_slice(alloc, &Mode::hash(), root, 0, 1, first)?;
    let end = check_slice(alloc, &Mode::hash(), root, 2048, 1, last)?;
    Ok((piece, end))
}

// Stores the parents of group 0, if need be at the second call.
fn stored(store: &mut Store, piece: &Checked<'_>) -> Result<u64, StoreFault> {
    match store.commit_parents(0, piece) {
        Err(StoreFault::Memory) => store.commit_parents(0, piece),
        stored => stored,
    }
}

// Stores the first chunk, the length, and the parents of both pieces.
fn fill<R: Abort>(
    rt: &R,
    store: &mut Store,
    piece: &Checked<'_>,
    end: &Checked<'_>,
) -> Result<(), Fail> {
    assert!(rt; store.take(0, 0, 1)? == 1);
    assert!(rt; store.commit(0, 0, piece)? == 1);
    assert!(rt; store.settle(&end.tail().ok_or("tail")?) == Settling::Settled);
    assert!(rt; stored(store, end)? == 4);
    assert!(rt; stored(store, piece)? == 2);
    Ok(())
}

// A store's slice of the first byte, if need be at the second call.
fn served(store: &Store) -> Result<Vec<u8>, ServeFault> {
    match store.serve_slice(0, 1) {
        Err(ServeFault::Memory) => store.serve_slice(0, 1),
        text => text,
    }
}

// What a store with these pieces serves.
fn serves<R: AllocGlobal + Abort>(
    rt: &R,
    root: Hash,
    piece: &Checked<'_>,
    end: &Checked<'_>,
) -> Result<Vec<u8>, Fail> {
    let mut store = Store::new(rt.alloc(), root, Mode::hash(), 3)?;
    fill(rt, &mut store, piece, end)?;
    Ok(served(&store)?)
}

// Where a growth is refused, that is told, and a second call stores the parents or serves the slice.
#[test]
fn slices_of_a_store(rt: HostRuntime) -> Result<(), Fail> {
    let (root, first, last) = slices(rt.alloc())?;
    let (piece, end) = pieces(rt.alloc(), &root, first.as_slice(), last.as_slice())?;
    let text = serves(&rt, root, &piece, &end)?;
    assert!(rt; text.as_slice() == first.as_slice());
    Ok(())
}

// `fill` of a shared store, whose parents take no memory.
fn fill_shared<R: Abort>(
    rt: &R,
    store: &Assembly,
    seat: &mut Seat,
    piece: &Checked<'_>,
    end: &Checked<'_>,
) -> Result<(), Fail>
    requires { IsSeatOf store.now seat.old }
    ensures { IsSeatOf store.now seat.new }
{
    assert!(rt; store.take(seat, 0, 1) == Ok(1));
    assert!(rt; store.commit(seat, 0, piece) == Ok(1));
    assert!(rt; store.settle(seat, &end.tail().ok_or("tail")?) == Settling::Settled);
    assert!(rt; store.commit_parents(seat, 0, end) == Ok(0b100));
    assert!(rt; store.commit_parents(seat, 0, piece) == Ok(0b010));
    Ok(())
}

fn served_shared(store: &Assembly, seat: &mut Seat) -> Result<Vec<u8>, ServeFault>
    requires { IsSeatOf store.now seat.old }
{
    match store.serve_slice(seat, 0, 1) {
        Err(ServeFault::Memory) => store.serve_slice(seat, 0, 1),
        text => text,
    }
}

fn serves_shared<R: AllocGlobal + Abort>(
    rt: &R,
    root: Hash,
    piece: &Checked<'_>,
    end: &Checked<'_>,
) -> Result<Vec<u8>, Fail> {
    let (store, mut seat) = made(rt.alloc(), root, 3)?;
    fill_shared(rt, &store, &mut seat, piece, end)?;
    Ok(served_shared(&store, &mut seat)?)
}

// The same of a shared store.
#[test]
fn slices_of_a_shared_store(rt: HostRuntime) -> Result<(), Fail> {
    let (root, first, last) = slices(rt.alloc())?;
    let (piece, end) = pieces(rt.alloc(), &root, first.as_slice(), last.as_slice())?;
    let text = serves_shared(&rt, root, &piece, &end)?;
    assert!(rt; text.as_slice() == first.as_slice());
    Ok(())
}
