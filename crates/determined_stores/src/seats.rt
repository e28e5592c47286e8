// What a shared store is of, and seats that are made, split, joined and met.

ghost use Rattle.std.specs.Prelude.{◌≡◌, ◌↔◌, Err, IfErr, IfOk};
ghost use Rattle.determined_stores.specs.Alone.{HaveTheSame};
ghost use Rattle.store_shared.specs.Seats.{IsSeatOf, fixed_of};

use b3tree::{Hash, Mode};
use std::alloc::Global;
use store_shared::{Assembly, NewFault, Seat, SplitFault};

pub fn new_determined(
    alloc: Global,
    root: Hash,
    mode: Mode,
    capacity: u32,
) -> (
    Result<(Assembly, Seat), NewFault>,
    Result<(Assembly, Seat), NewFault>,
)
    ensures made { IfOk result.0 (λ x. IfOk result.1 (λ y. (fixed_of x.0 ≡ fixed_of y.0) × (x.1.view ≡ y.1.view))) }
    ensures capacity { (result.0 ≡ Err NewFault.Capacity) ↔ (result.1 ≡ Err NewFault.Capacity) }
{
    let one = Assembly::new(alloc, root, mode, capacity);
    let other = Assembly::new(alloc, root, mode, capacity);
    (one, other)
}

pub fn from_chunk_determined(
    alloc: Global,
    root: Hash,
    mode: Mode,
    base: u64,
    capacity: u32,
) -> (
    Result<(Assembly, Seat), NewFault>,
    Result<(Assembly, Seat), NewFault>,
)
    ensures made { IfOk result.0 (λ x. IfOk result.1 (λ y. (fixed_of x.0 ≡ fixed_of y.0) × (x.1.view ≡ y.1.view))) }
    ensures capacity { (result.0 ≡ Err NewFault.Capacity) ↔ (result.1 ≡ Err NewFault.Capacity) }
{
    let one = Assembly::from_chunk(alloc, root, mode, base, capacity);
    let other = Assembly::from_chunk(alloc, root, mode, base, capacity);
    (one, other)
}

pub fn split_determined(
    a: &Assembly,
    b: &Assembly,
    first: Seat,
    second: Seat,
) -> (
    Result<(Seat, Seat), SplitFault>,
    Result<(Seat, Seat), SplitFault>,
)
    requires first { IsSeatOf a.now first }
    requires second { IsSeatOf b.now second }
    requires same { first.view ≡ second.view }
    ensures parts { IfOk result.0 (λ x. IfOk result.1 (λ y. (x.0.view ≡ y.0.view) × (x.1.view ≡ y.1.view))) }
    ensures back { IfErr result.0 (λ x. x.seat ≡ first) × IfErr result.1 (λ y. y.seat ≡ second) }
{
    let one = a.split(first);
    let other = b.split(second);
    (one, other)
}

// In which order the calls of two seats came is known once they are joined, and the two views don't tell it: so all but
// the order of what was seen is one.
pub fn join_determined(
    a: &Assembly,
    b: &Assembly,
    one: Seat,
    two: Seat,
    three: Seat,
    four: Seat,
) -> (Seat, Seat)
    requires first { IsSeatOf a.now one }
    requires second { IsSeatOf a.now two }
    requires third { IsSeatOf b.now three }
    requires fourth { IsSeatOf b.now four }
    requires same { (one.view ≡ three.view) × (two.view ≡ four.view) }
    ensures { HaveTheSame result.0.view result.1.view }
{
    let ours = a.join(one, two);
    let theirs = b.join(three, four);
    (ours, theirs)
}

// As at a join, the order of what was seen isn't known before.
pub fn meet_determined(
    a: &Assembly,
    b: &Assembly,
    one: &mut Seat,
    two: &mut Seat,
    three: &mut Seat,
    four: &mut Seat,
)
    requires first { IsSeatOf a.now one.old }
    requires second { IsSeatOf a.now two.old }
    requires third { IsSeatOf b.now three.old }
    requires fourth { IsSeatOf b.now four.old }
    requires same { (one.old.view ≡ three.old.view) × (two.old.view ≡ four.old.view) }
    ensures first { HaveTheSame one.new.view three.new.view }
    ensures second { HaveTheSame two.new.view four.new.view }
    ensures seen { (one.new.view.seen ≡ two.new.view.seen) × (three.new.view.seen ≡ four.new.view.seen) }
{
    a.meet(one, two);
    b.meet(three, four);
}

pub fn new_code_determined(fault: &NewFault) -> (u16, u16)
    ensures { result.0 ≡ result.1 }
{
    (fault.code(), fault.code())
}
