ghost use Rattle.std.specs.Prelude.{IfOk};
ghost use Rattle.store_shared.specs.Seats.{IsSeatOf};

use crate::bytes::blob;
use crate::threads::stores::{split, store};
use b3tree::{Hash, Mode};
use bao_text::combined;
use gather::{Crew, Encoded, Holder, HolderFault, Open, Peer, finish, run};
use std::alloc::Global;
use std::slice::from_mut;
use std::test::Fail;
use std::thread::{Threads, join};
use store_shared::{Assembly, Seat};

// A holder over an encoding that has one group of 64 chunks, and the blob's end.
#[derive(Drop)]
struct Third<'a> {
    group: u64,
    whole: Encoded<&'a [u8]>,
}

impl Holder for Third<'_> {
    ghost count = { λ _. 0 };

    ghost gives = { λ _ _ _ _. Unit {0} };

    fn fetch(&mut self, start: u64, len: u64, into: &mut Vec<u8>) -> Result<(), HolderFault> {
        if start != u64::MAX && start / 65_536 != self.group {
            return Ok(());
        }
        match self.whole.fetch(start, len, into) {
            Ok(()) => Ok(()),
            Err(_) => Err(HolderFault::Memory),
        }
    }

    fn faults(&self) -> u64 {
        0
    }
}

// One worker of a store asks its one holder, a peer over the next store.
fn ask_next<R: Threads + Sync>(
    rt: &R,
    alloc: Global,
    ours: &Assembly,
    seat: Seat,
    next: &Assembly,
    lent: Seat,
) -> bool
    requires ours { IsSeatOf ours.now seat }
    requires next { IsSeatOf next.now lent }
{
    let Ok(holders) = vec![in alloc; Peer::new(next, lent)] else {
        return false;
    };
    let mut crew = Crew::new(seat, holders);
    run(rt, alloc, ours, from_mut(&mut crew), &Open);
    true
}

// One worker of a store gathers a group from its one holder.
fn feed<R: Threads + Sync>(
    rt: &R,
    alloc: Global,
    store: &Assembly,
    seat: Seat,
    third: Third<'_>,
) -> Result<(), Fail>
    requires { IsSeatOf store.now seat }
{
    let holders = vec![in alloc; third]?;
    let mut crew = Crew::new(seat, holders);
    let report = run(rt, alloc, store, from_mut(&mut crew), &Open);
    if report.committed == 64 {
        Ok(())
    } else {
        Err(Fail::from("a third"))
    }
}

// Two seats of a store: the worker's of one round, and that through which the store before asks.
type Pair = (Seat, Seat);

fn pair(store: &Assembly, seat: Seat) -> Result<(Seat, Pair), Fail>
    requires { IsSeatOf store.now seat }
    ensures { IfOk result (λ made. IsSeatOf store.now made.0 × (IsSeatOf store.now made.1.0 × IsSeatOf store.now made.1.1)) }
{
    let (seat, asks) = split(store, seat)?;
    let (seat, lent) = split(store, seat)?;
    Ok((seat, (asks, lent)))
}

// A store with one group of the blob.
fn fed<R: Threads + Sync>(
    rt: &R,
    alloc: Global,
    root: Hash,
    group: u64,
    whole: &[u8],
) -> Result<(Assembly, Seat), Fail>
    ensures { IfOk result (λ made. IsSeatOf made.0 made.1) }
{
    let (store, seat) = store(alloc, root, 192)?;
    let (seat, own) = split(&store, seat)?;
    let whole = Encoded::new(whole);
    feed(rt, alloc, &store, own, Third { group, whole })?;
    Ok((store, seat))
}

// Each of three stores asks the next, all at once.
fn ask_round<R: Threads + Sync>(
    rt: &R,
    alloc: Global,
    one: &Assembly,
    first: Pair,
    two: &Assembly,
    second: Pair,
    three: &Assembly,
    third: Pair,
)
    requires first { IsSeatOf one.now first.0 × IsSeatOf one.now first.1 }
    requires second { IsSeatOf two.now second.0 × IsSeatOf two.now second.1 }
    requires third { IsSeatOf three.now third.0 × IsSeatOf three.now third.1 }
{
    let (asks_two, lent_one) = first;
    let (asks_three, lent_two) = second;
    let (asks_one, lent_three) = third;
    join(
        rt,
        move || -> bool
            requires { IsSeatOf one.now asks_two × IsSeatOf two.now lent_two }
        { ask_next(rt, alloc, one, asks_two, two, lent_two) },
        move || -> (bool, bool)
            requires { IsSeatOf two.now asks_three × IsSeatOf three.now lent_three × IsSeatOf three.now asks_one × IsSeatOf one.now lent_one }
        {
            join(
                rt,
                move || -> bool
                    requires { IsSeatOf two.now asks_three × IsSeatOf three.now lent_three }
                { ask_next(rt, alloc, two, asks_three, three, lent_three) },
                move || -> bool
                    requires { IsSeatOf three.now asks_one × IsSeatOf one.now lent_one }
                { ask_next(rt, alloc, three, asks_one, one, lent_one) },
            )
        },
    );
}

// The store has the whole blob.
fn has(alloc: Global, store: &Assembly, mut seat: Seat, bytes: &[u8]) -> Result<(), Fail>
    requires { IsSeatOf store.now seat }
{
    let gathered = finish(alloc, store, &mut seat)?;
    if gathered.as_slice() == bytes {
        Ok(())
    } else {
        Err(Fail::from("another blob"))
    }
}

// Two rounds, after which each store has the blob.
fn ask_in_ring<R: Threads + Sync>(
    rt: &R,
    alloc: Global,
    one: &Assembly,
    first: Seat,
    two: &Assembly,
    second: Seat,
    three: &Assembly,
    third: Seat,
    bytes: &[u8],
) -> Result<(), Fail>
    requires first { IsSeatOf one.now first }
    requires second { IsSeatOf two.now second }
    requires third { IsSeatOf three.now third }
{
    let (first, in_one) = pair(one, first)?;
    let (second, in_two) = pair(two, second)?;
    let (third, in_three) = pair(three, third)?;
    ask_round(rt, alloc, one, in_one, two, in_two, three, in_three);
    let (first, in_one) = pair(one, first)?;
    let (second, in_two) = pair(two, second)?;
    let (third, in_three) = pair(three, third)?;
    ask_round(rt, alloc, one, in_one, two, in_two, three, in_three);
    has(alloc, one, first, bytes)?;
    has(alloc, two, second, bytes)?;
    has(alloc, three, third, bytes)
}

// Three stores, each with a third of the blob, ask one another in a ring: after two rounds each has the blob.
#[test]
fn a_ring_of_three(rt: HostRuntime) -> Result<(), Fail> {
    let bytes = blob(rt.alloc(), 196_608)?;
    let (root, whole) = combined(rt.alloc(), &Mode::hash(), bytes.as_slice())?;
    let (one, first) = fed(&rt, rt.alloc(), root, 0, whole.as_slice())?;
    let (two, second) = fed(&rt, rt.alloc(), root, 1, whole.as_slice())?;
    let (three, third) = fed(&rt, rt.alloc(), root, 2, whole.as_slice())?;
    ask_in_ring(
        &rt,
        rt.alloc(),
        &one,
        first,
        &two,
        second,
        &three,
        third,
        bytes.as_slice(),
    )
}
