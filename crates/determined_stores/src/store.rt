// The calls of a store.

ghost use Rattle.std.specs.Prelude.{◌≡◌, ◌↔◌, Err, IfOk, IsOk, length, take};
ghost use Rattle.determined_texts.specs.Agreeing.{AgreeButFor, AgreeOrLack};
ghost use Rattle.store_core.specs.Stores.{IsSame};
ghost use Rattle.store_core.specs.declared.fault.StoreFault.TheVariants as unstored;
ghost use Rattle.store_core.specs.declared.fault.ServeFault.TheVariants as unserved;

use b3tree::{Hash, Mode};
use bao_check::{Checked, Tail};
use std::alloc::Global;
use store_core::{BadCapacity, Missing, ServeFault, Settling, Store, StoreFault};

pub fn new_determined(
    alloc: Global,
    root: Hash,
    mode: Mode,
    capacity: u32,
) -> (Result<Store, BadCapacity>, Result<Store, BadCapacity>)
    ensures fits { IsOk result.0 ↔ IsOk result.1 }
    ensures same { IfOk result.0 (λ a. IfOk result.1 (λ b. IsSame a b)) }
{
    (
        Store::new(alloc, root, mode, capacity),
        Store::new(alloc, root, mode, capacity),
    )
}

pub fn from_chunk_determined(
    alloc: Global,
    root: Hash,
    mode: Mode,
    base: u64,
    capacity: u32,
) -> (Result<Store, BadCapacity>, Result<Store, BadCapacity>)
    ensures fits { IsOk result.0 ↔ IsOk result.1 }
    ensures same { IfOk result.0 (λ a. IfOk result.1 (λ b. IsSame a b)) }
{
    (
        Store::from_chunk(alloc, root, mode, base, capacity),
        Store::from_chunk(alloc, root, mode, base, capacity),
    )
}

pub fn take_determined(
    a: &mut Store,
    b: &mut Store,
    seat: u32,
    group: u32,
    want: u64,
) -> (Result<u64, StoreFault>, Result<u64, StoreFault>)
    requires { IsSame a.old b.old }
    ensures { AgreeOrLack unstored.Memory (λ m n. (m ≡ n) × IsSame a.new b.new) result.0 result.1 }
{
    (a.take(seat, group, want), b.take(seat, group, want))
}

pub fn give_determined(a: &mut Store, b: &mut Store, seat: u32, group: u32, mask: u64) -> (u64, u64)
    requires { IsSame a.old b.old }
    ensures { (result.0 ≡ result.1) × IsSame a.new b.new }
{
    (a.give(seat, group, mask), b.give(seat, group, mask))
}

pub fn settle_determined(a: &mut Store, b: &mut Store, tail: &Tail<'_>) -> (Settling, Settling)
    requires { IsSame a.old b.old }
    ensures { (result.0 ≡ result.1) × IsSame a.new b.new }
{
    (a.settle(tail), b.settle(tail))
}

pub fn length_determined(a: &Store, b: &Store) -> (Option<u64>, Option<u64>)
    requires { IsSame a.now b.now }
    ensures { result.0 ≡ result.1 }
{
    (a.length(), b.length())
}

pub fn commit_determined(
    a: &mut Store,
    b: &mut Store,
    seat: u32,
    group: u32,
    piece: &Checked<'_>,
) -> (Result<u64, StoreFault>, Result<u64, StoreFault>)
    requires { IsSame a.old b.old }
    ensures { AgreeOrLack unstored.Memory (λ m n. (m ≡ n) × IsSame a.new b.new) result.0 result.1 }
{
    (a.commit(seat, group, piece), b.commit(seat, group, piece))
}

pub fn read_determined(
    a: &Store,
    b: &Store,
    at: u64,
    ours: &mut [u8],
    theirs: &mut [u8],
) -> (Result<(), Missing>, Result<(), Missing>)
    requires stores { IsSame a.now b.now }
    requires buffers { ours.old ≡ theirs.old }
    ensures { (result.0 ≡ result.1) × (ours.new ≡ theirs.new) }
{
    (a.read(at, ours), b.read(at, theirs))
}

pub fn commit_parents_determined(
    a: &mut Store,
    b: &mut Store,
    group: u32,
    piece: &Checked<'_>,
) -> (Result<u64, StoreFault>, Result<u64, StoreFault>)
    requires { IsSame a.old b.old }
    ensures { AgreeOrLack unstored.Memory (λ m n. (m ≡ n) × IsSame a.new b.new) result.0 result.1 }
{
    (
        a.commit_parents(group, piece),
        b.commit_parents(group, piece),
    )
}

pub fn serve_slice_determined(
    a: &Store,
    b: &Store,
    start: u64,
    len: u64,
) -> (Result<Vec<u8>, ServeFault>, Result<Vec<u8>, ServeFault>)
    requires { IsSame a.now b.now }
    ensures answers { AgreeButFor unserved.Memory (λ x y. x.items ≡ y.items) result.0 result.1 }
    ensures no_length { (result.0 ≡ Err unserved.NoLength) ↔ (result.1 ≡ Err unserved.NoLength) }
{
    (a.serve_slice(start, len), b.serve_slice(start, len))
}
