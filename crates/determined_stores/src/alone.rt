// Two seats that are alone and have seen the same.

ghost use Rattle.std.specs.Prelude.{◌≡◌, ◌≢◌, Err};
ghost use Rattle.determined_stores.specs.Alone.{AreAlike};
ghost use Rattle.determined_texts.specs.Agreeing.{AgreeButFor};
ghost use Rattle.store_core.specs.declared.fault.ServeFault.TheVariants as unserved;
ghost use Rattle.store_shared.specs.Seats.{IsSeatOf};

use bao_check::{Checked, Tail};
use store_shared::{
    Assembly, Missing, NoGroup, OtherRoot, ParentsFault, Seat, ServeFault, Settling,
};

pub fn look_round_alone(a: &Assembly, b: &Assembly, first: &mut Seat, second: &mut Seat)
    requires first { IsSeatOf a.now first.old }
    requires second { IsSeatOf b.now second.old }
    requires alike { AreAlike first.old.view second.old.view }
    ensures { AreAlike first.new.view second.new.view }
{
    a.look_round(first);
    b.look_round(second);
}

pub fn take_alone(
    a: &Assembly,
    b: &Assembly,
    first: &mut Seat,
    second: &mut Seat,
    group: u32,
    want: u64,
) -> (Result<u64, NoGroup>, Result<u64, NoGroup>)
    requires first { IsSeatOf a.now first.old }
    requires second { IsSeatOf b.now second.old }
    requires alike { AreAlike first.old.view second.old.view }
    ensures { (result.0 ≡ result.1) × AreAlike first.new.view second.new.view }
{
    let ours = a.take(first, group, want);
    a.look_round(first);
    let theirs = b.take(second, group, want);
    b.look_round(second);
    (ours, theirs)
}

pub fn give_alone(
    a: &Assembly,
    b: &Assembly,
    first: &mut Seat,
    second: &mut Seat,
    group: u32,
    mask: u64,
) -> (u64, u64)
    requires first { IsSeatOf a.now first.old }
    requires second { IsSeatOf b.now second.old }
    requires alike { AreAlike first.old.view second.old.view }
    ensures { (result.0 ≡ result.1) × AreAlike first.new.view second.new.view }
{
    let ours = a.give(first, group, mask);
    a.look_round(first);
    let theirs = b.give(second, group, mask);
    b.look_round(second);
    (ours, theirs)
}

pub fn commit_alone(
    a: &Assembly,
    b: &Assembly,
    first: &mut Seat,
    second: &mut Seat,
    group: u32,
    piece: &Checked<'_>,
) -> (Result<u64, OtherRoot>, Result<u64, OtherRoot>)
    requires first { IsSeatOf a.now first.old }
    requires second { IsSeatOf b.now second.old }
    requires alike { AreAlike first.old.view second.old.view }
    ensures { (result.0 ≡ result.1) × AreAlike first.new.view second.new.view }
{
    let ours = a.commit(first, group, piece);
    a.look_round(first);
    let theirs = b.commit(second, group, piece);
    b.look_round(second);
    (ours, theirs)
}

pub fn settle_alone(
    a: &Assembly,
    b: &Assembly,
    first: &mut Seat,
    second: &mut Seat,
    tail: &Tail<'_>,
) -> (Settling, Settling)
    requires first { IsSeatOf a.now first.old }
    requires second { IsSeatOf b.now second.old }
    requires alike { AreAlike first.old.view second.old.view }
    ensures { (result.0 ≡ result.1) × AreAlike first.new.view second.new.view }
{
    let ours = a.settle(first, tail);
    a.look_round(first);
    let theirs = b.settle(second, tail);
    b.look_round(second);
    (ours, theirs)
}

pub fn length_alone(
    a: &Assembly,
    b: &Assembly,
    first: &mut Seat,
    second: &mut Seat,
) -> (Option<u64>, Option<u64>)
    requires first { IsSeatOf a.now first.old }
    requires second { IsSeatOf b.now second.old }
    requires alike { AreAlike first.old.view second.old.view }
    ensures { (result.0 ≡ result.1) × AreAlike first.new.view second.new.view }
{
    let ours = a.length(first);
    a.look_round(first);
    let theirs = b.length(second);
    b.look_round(second);
    (ours, theirs)
}

pub fn read_alone(
    a: &Assembly,
    b: &Assembly,
    first: &mut Seat,
    second: &mut Seat,
    at: u64,
    ours: &mut [u8],
    theirs: &mut [u8],
) -> (Result<(), Missing>, Result<(), Missing>)
    requires first { IsSeatOf a.now first.old }
    requires second { IsSeatOf b.now second.old }
    requires alike { AreAlike first.old.view second.old.view }
    requires buffers { ours.old ≡ theirs.old }
    ensures { (result.0 ≡ result.1) × (ours.new ≡ theirs.new) × AreAlike first.new.view second.new.view }
{
    let one = a.read(first, at, ours);
    a.look_round(first);
    let other = b.read(second, at, theirs);
    b.look_round(second);
    (one, other)
}

pub fn commit_parents_alone(
    a: &Assembly,
    b: &Assembly,
    first: &mut Seat,
    second: &mut Seat,
    group: u32,
    piece: &Checked<'_>,
) -> (Result<u64, ParentsFault>, Result<u64, ParentsFault>)
    requires first { IsSeatOf a.now first.old }
    requires second { IsSeatOf b.now second.old }
    requires alike { AreAlike first.old.view second.old.view }
    ensures { (result.0 ≡ result.1) × AreAlike first.new.view second.new.view }
{
    let ours = a.commit_parents(first, group, piece);
    a.look_round(first);
    let theirs = b.commit_parents(second, group, piece);
    b.look_round(second);
    (ours, theirs)
}

// Memory may run out for the one alone, and before the slice is known to lack a node: then nothing is said.
pub fn serve_slice_alone(
    a: &Assembly,
    b: &Assembly,
    first: &mut Seat,
    second: &mut Seat,
    start: u64,
    len: u64,
) -> (Result<Vec<u8>, ServeFault>, Result<Vec<u8>, ServeFault>)
    requires first { IsSeatOf a.now first.old }
    requires second { IsSeatOf b.now second.old }
    requires alike { AreAlike first.old.view second.old.view }
    ensures { AgreeButFor unserved.Memory (λ x y. x.items ≡ y.items) result.0 result.1
        × (result.0 ≢ Err unserved.Memory → result.1 ≢ Err unserved.Memory → AreAlike first.new.view second.new.view) }
{
    let ours = a.serve_slice(first, start, len);
    a.look_round(first);
    let theirs = b.serve_slice(second, start, len);
    b.look_round(second);
    (ours, theirs)
}
