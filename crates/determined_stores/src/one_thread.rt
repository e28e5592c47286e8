// A seat that is alone and a one-thread store that stands for the same, asked the same.

ghost use Rattle.std.specs.Prelude.{◌≡◌, ◌≢◌, ◌↔◌, ℕ, Err, IfOk, IsErr};
ghost use Rattle.determined_stores.specs.Alone.{AnswerAlike, StandsAlike, store_fault};
ghost use Rattle.determined_texts.specs.Agreeing.{AgreeButFor};
ghost use Rattle.store_core.specs.declared.fault.ServeFault.TheVariants as unserved;
ghost use Rattle.store_core.specs.declared.fault.StoreFault.TheVariants as unstored;
ghost use Rattle.store_shared.specs.Seats.{IsSeatOf};

use b3tree::{Hash, Mode};
use bao_check::{Checked, Tail};
use std::alloc::Global;
use store_core::{BadCapacity, Store, StoreFault};
use store_shared::{
    Assembly, Missing, NewFault, NoGroup, OtherRoot, ParentsFault, Seat, ServeFault, Settling,
};

/// So both begin: the first seat of a new shared store, and a new one-thread store.
pub fn new_is_the_stores(
    alloc: Global,
    root: Hash,
    mode: Mode,
    capacity: u32,
) -> (
    Result<(Assembly, Seat), NewFault>,
    Result<Store, BadCapacity>,
)
    ensures alike { IfOk result.0 (λ made. IfOk result.1 (λ store. (number : ℕ) → StandsAlike store number made.1.view)) }
    ensures capacity { (result.0 ≡ Err NewFault.Capacity) ↔ IsErr result.1 }
{
    let ours = Assembly::new(alloc, root, mode, capacity);
    let theirs = Store::new(alloc, root, mode, capacity);
    (ours, theirs)
}

/// So do those of a part of a blob.
pub fn from_chunk_is_the_stores(
    alloc: Global,
    root: Hash,
    mode: Mode,
    base: u64,
    capacity: u32,
) -> (
    Result<(Assembly, Seat), NewFault>,
    Result<Store, BadCapacity>,
)
    ensures alike { IfOk result.0 (λ made. IfOk result.1 (λ store. (number : ℕ) → StandsAlike store number made.1.view)) }
    ensures capacity { (result.0 ≡ Err NewFault.Capacity) ↔ IsErr result.1 }
{
    let ours = Assembly::from_chunk(alloc, root, mode, base, capacity);
    let theirs = Store::from_chunk(alloc, root, mode, base, capacity);
    (ours, theirs)
}

pub fn take_is_the_stores(
    a: &Assembly,
    seat: &mut Seat,
    store: &mut Store,
    number: u32,
    group: u32,
    want: u64,
) -> (Result<u64, NoGroup>, Result<u64, StoreFault>)
    requires of { IsSeatOf a.now seat.old }
    requires alike { StandsAlike store.old number seat.old.view }
    ensures { AnswerAlike unstored.Memory (λ _. unstored.NoGroup) result.0 result.1 (StandsAlike store.new number seat.new.view) }
{
    let ours = a.take(seat, group, want);
    a.look_round(seat);
    let theirs = store.take(number, group, want);
    (ours, theirs)
}

pub fn give_is_the_stores(
    a: &Assembly,
    seat: &mut Seat,
    store: &mut Store,
    number: u32,
    group: u32,
    mask: u64,
) -> (u64, u64)
    requires of { IsSeatOf a.now seat.old }
    requires alike { StandsAlike store.old number seat.old.view }
    ensures { (result.0 ≡ result.1) × StandsAlike store.new number seat.new.view }
{
    let ours = a.give(seat, group, mask);
    a.look_round(seat);
    let theirs = store.give(number, group, mask);
    (ours, theirs)
}

pub fn commit_is_the_stores(
    a: &Assembly,
    seat: &mut Seat,
    store: &mut Store,
    number: u32,
    group: u32,
    piece: &Checked<'_>,
) -> (Result<u64, OtherRoot>, Result<u64, StoreFault>)
    requires of { IsSeatOf a.now seat.old }
    requires alike { StandsAlike store.old number seat.old.view }
    ensures { AnswerAlike unstored.Memory (λ _. unstored.OtherRoot) result.0 result.1 (StandsAlike store.new number seat.new.view) }
{
    let ours = a.commit(seat, group, piece);
    a.look_round(seat);
    let theirs = store.commit(number, group, piece);
    (ours, theirs)
}

pub fn settle_is_the_stores(
    a: &Assembly,
    seat: &mut Seat,
    store: &mut Store,
    tail: &Tail<'_>,
) -> (Settling, Settling)
    requires of { IsSeatOf a.now seat.old }
    ensures { (number : ℕ) → StandsAlike store.old number seat.old.view → (result.0 ≡ result.1) × StandsAlike store.new number seat.new.view }
{
    let ours = a.settle(seat, tail);
    a.look_round(seat);
    let theirs = store.settle(tail);
    (ours, theirs)
}

pub fn length_is_the_stores(
    a: &Assembly,
    seat: &mut Seat,
    store: &Store,
) -> (Option<u64>, Option<u64>)
    requires of { IsSeatOf a.now seat.old }
    ensures { (number : ℕ) → StandsAlike store.now number seat.old.view → (result.0 ≡ result.1) × StandsAlike store.now number seat.new.view }
{
    let ours = a.length(seat);
    a.look_round(seat);
    let theirs = store.length();
    (ours, theirs)
}

pub fn read_is_the_stores(
    a: &Assembly,
    seat: &mut Seat,
    store: &Store,
    at: u64,
    ours: &mut [u8],
    theirs: &mut [u8],
) -> (Result<(), Missing>, Result<(), Missing>)
    requires of { IsSeatOf a.now seat.old }
    requires buffers { ours.old ≡ theirs.old }
    ensures { (number : ℕ) → StandsAlike store.now number seat.old.view → (result.0 ≡ result.1) × (ours.new ≡ theirs.new) × StandsAlike store.now number seat.new.view }
{
    let one = a.read(seat, at, ours);
    a.look_round(seat);
    let other = store.read(at, theirs);
    (one, other)
}

pub fn commit_parents_is_the_stores(
    a: &Assembly,
    seat: &mut Seat,
    store: &mut Store,
    group: u32,
    piece: &Checked<'_>,
) -> (Result<u64, ParentsFault>, Result<u64, StoreFault>)
    requires of { IsSeatOf a.now seat.old }
    ensures { (number : ℕ) → StandsAlike store.old number seat.old.view → AnswerAlike unstored.Memory store_fault result.0 result.1 (StandsAlike store.new number seat.new.view) }
{
    let ours = a.commit_parents(seat, group, piece);
    a.look_round(seat);
    let theirs = store.commit_parents(group, piece);
    (ours, theirs)
}

// Either may be out of memory, and before it knows that a node is lacking: then nothing is said.
pub fn serve_slice_is_the_stores(
    a: &Assembly,
    seat: &mut Seat,
    store: &Store,
    start: u64,
    len: u64,
) -> (Result<Vec<u8>, ServeFault>, Result<Vec<u8>, ServeFault>)
    requires of { IsSeatOf a.now seat.old }
    ensures { (number : ℕ) → StandsAlike store.now number seat.old.view → AgreeButFor unserved.Memory (λ x y. x.items ≡ y.items) result.0 result.1
        × (result.0 ≢ Err unserved.Memory → result.1 ≢ Err unserved.Memory → StandsAlike store.now number seat.new.view) }
{
    let ours = a.serve_slice(seat, start, len);
    a.look_round(seat);
    let theirs = store.serve_slice(start, len);
    (ours, theirs)
}
