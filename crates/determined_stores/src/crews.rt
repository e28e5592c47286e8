// Seats of a shared store.

ghost use Rattle.std.specs.Prelude.{◌≡◌, ◌<◌, IfErr, OnOk};
ghost use Rattle.determined_stores.specs.Alone.{AreAlike};
ghost use Rattle.determined_texts.specs.Agreeing.{AgreeButFor};
ghost use Rattle.gather.specs.declared.fault.FinishFault.TheVariants.{Memory};
ghost use Rattle.store_core.specs.Histories.{state_after};
ghost use Rattle.store_shared.specs.Seats.{IsSeatOf, fixed_of};

use gather::{Crew, FinishFault, Holder, HolderFault, Peer, finish};
use std::alloc::Global;
use store_shared::{Assembly, Seat};

pub fn crew_determined<H>(
    first: Seat,
    second: Seat,
    ours: Vec<H>,
    theirs: Vec<H>,
) -> (Crew<H>, Crew<H>)
    requires seats { first ≡ second }
    requires holders { ours ≡ theirs }
    ensures seat { result.0.seat ≡ result.1.seat }
    ensures holders { result.0.holders ≡ result.1.holders }
    ensures report { result.0.report ≡ result.1.report }
{
    let one = Crew::new(first, ours);
    let other = Crew::new(second, theirs);
    (one, other)
}

pub fn peer_determined<'a>(
    a: &'a Assembly,
    b: &'a Assembly,
    first: Seat,
    second: Seat,
) -> (Peer<'a>, Peer<'a>)
    requires of { IsSeatOf a.now first }
    requires of_theirs { IsSeatOf b.now second }
    requires stores { a.now ≡ b.now }
    requires seats { first ≡ second }
    ensures { result.0 ≡ result.1 }
{
    let one = Peer::new(a, first);
    let other = Peer::new(b, second);
    (one, other)
}

// Of two seats that have seen the same at the end. One may be out of memory.
pub fn finish_determined(
    alloc: Global,
    a: &Assembly,
    b: &Assembly,
    first: &mut Seat,
    second: &mut Seat,
) -> (Result<Vec<u8>, FinishFault>, Result<Vec<u8>, FinishFault>)
    requires of { IsSeatOf a.now first.old }
    requires of_theirs { IsSeatOf b.now second.old }
    requires fixed { fixed_of a.now ≡ fixed_of b.now }
    ensures { state_after first.new.view.seen ≡ state_after second.new.view.seen → AgreeButFor Memory (λ x y. x.items ≡ y.items) result.0 result.1 }
{
    let one = finish(alloc, a, first);
    let other = finish(alloc, b, second);
    (one, other)
}

// Of two seats that are alone and have seen the same before. One may be out of memory.
pub fn finish_alone(
    alloc: Global,
    a: &Assembly,
    b: &Assembly,
    first: &mut Seat,
    second: &mut Seat,
) -> (Result<Vec<u8>, FinishFault>, Result<Vec<u8>, FinishFault>)
    requires of { IsSeatOf a.now first.old }
    requires of_theirs { IsSeatOf b.now second.old }
    requires alike { AreAlike first.old.view second.old.view }
    ensures { AgreeButFor Memory (λ x y. x.items ≡ y.items) result.0 result.1 }
{
    let one = finish(alloc, a, first);
    a.look_round(first);
    let other = finish(alloc, b, second);
    b.look_round(second);
    (one, other)
}

// What a peer appends whose seat is alone, where neither is out of memory.
pub fn peer_fetch_alone(
    a: &Assembly,
    b: &Assembly,
    first: Seat,
    second: Seat,
    start: u64,
    len: u64,
    ours: &mut Vec<u8>,
    theirs: &mut Vec<u8>,
) -> (Result<(), HolderFault>, Result<(), HolderFault>)
    requires of { IsSeatOf a.now first }
    requires of_theirs { IsSeatOf b.now second }
    requires alike { AreAlike first.view second.view }
    requires buffers { ours.old.items ≡ theirs.old.items }
    ensures text { OnOk result.0 (OnOk result.1 (ours.new.items ≡ theirs.new.items)) }
    ensures memory { IfErr result.0 (λ fault. fault ≡ HolderFault.Memory) }
{
    let mut one = Peer::new(a, first);
    let mut other = Peer::new(b, second);
    let fetched = one.fetch(start, len, ours);
    let also = other.fetch(start, len, theirs);
    let mut seat = one.into_seat();
    a.look_round(&mut seat);
    let mut next = other.into_seat();
    b.look_round(&mut next);
    (fetched, also)
}
