// Steps on a store's words, made with a grip that is alone: what a store's seat asks is made of them. no-law.txt says why the
// others have no law.

ghost use Rattle.std.specs.Prelude.{◌≡◌, ◌<◌, ◌≤◌, ◌^◌, [], IfOk, IsOk, Some, true, is_some};
ghost use Rattle.bao_check.specs.Checked.{piece_claimed};
ghost use Rattle.bao_check.specs.Tail.{tail_piece};
ghost use Rattle.determined_stores.specs.Alone.{AreAlike};
ghost use Rattle.store_shared.specs.Grips.{CoversGroup, IsGripOf, fixed_of};
ghost use Rattle.store_core.specs.declared.fault.ServeFault.TheVariants as unserved;
ghost use Rattle.holders.specs.Room.{has_room};
ghost use Rattle.store_core.specs.Histories.{state_after};
ghost use Rattle.holders.specs.Pieces.{length_of, piece_of};
ghost use Rattle.store_core.specs.Stores.{IsOf};
ghost use Rattle.store_steps.specs.Asks.{AreClaimed, AreHeldClaims, AreParentsWritten, AreWordsStored};
ghost use Rattle.store_steps.specs.Kinds.{Owns, chunk_kind, held_in, width};

use b3tree::{Hash, Mode};
use bao_check::{Checked, Tail};
use std::alloc::Global;
use store_core::Settling;
use store_steps::{Grip, Item, NewFault, Words};

pub fn words_new_determined(
    alloc: Global,
    root: Hash,
    mode: Mode,
    base: u64,
    capacity: u32,
) -> (
    Result<(Words, Grip), NewFault>,
    Result<(Words, Grip), NewFault>,
)
    requires some { (0 < capacity) × (capacity ≤ 65536) }
    requires low { base ≤ 2 ^ 54 }
    ensures { IfOk result.0 (λ x. IfOk result.1 (λ y. (fixed_of x.0 ≡ fixed_of y.0) × (x.1.view ≡ y.1.view))) }
{
    let one = Words::new(alloc, root, mode, base, capacity);
    let other = Words::new(alloc, root, mode, base, capacity);
    (one, other)
}

pub fn words_take_alone(
    a: &Words,
    b: &Words,
    first: &mut Grip,
    second: &mut Grip,
    group: u32,
    want: u64,
) -> (u64, u64)
    requires first { IsGripOf a.now first.old }
    requires second { IsGripOf b.now second.old }
    requires alike { AreAlike first.old.view second.old.view }
    requires groups { CoversGroup a.now group × CoversGroup b.now group }
    ensures { (result.0 ≡ result.1) × AreAlike first.new.view second.new.view }
{
    let ours = a.take(first, group, want);
    a.look_round(first);
    let theirs = b.take(second, group, want);
    b.look_round(second);
    (ours, theirs)
}

pub fn words_settle_alone(
    a: &Words,
    b: &Words,
    first: &mut Grip,
    second: &mut Grip,
    tail: &Tail<'_>,
) -> (Settling, Settling)
    requires first { IsGripOf a.now first.old }
    requires second { IsGripOf b.now second.old }
    requires alike { AreAlike first.old.view second.old.view }
    requires piece { IsOf (fixed_of a.now) (tail_piece tail.now) × IsOf (fixed_of b.now) (tail_piece tail.now) }
    requires fits { (has_room (fixed_of a.now) (piece_claimed (tail_piece tail.now)) ≡ true) × (has_room (fixed_of b.now) (piece_claimed (tail_piece tail.now)) ≡ true) }
    ensures { (result.0 ≡ result.1) × AreAlike first.new.view second.new.view }
{
    let ours = a.settle(first, tail);
    a.look_round(first);
    let theirs = b.settle(second, tail);
    b.look_round(second);
    (ours, theirs)
}

pub fn words_length_alone(
    a: &Words,
    b: &Words,
    first: &mut Grip,
    second: &mut Grip,
) -> (Option<u64>, Option<u64>)
    requires first { IsGripOf a.now first.old }
    requires second { IsGripOf b.now second.old }
    requires alike { AreAlike first.old.view second.old.view }
    ensures { (result.0 ≡ result.1) × AreAlike first.new.view second.new.view }
{
    let ours = a.length(first);
    a.look_round(first);
    let theirs = b.length(second);
    b.look_round(second);
    (ours, theirs)
}

pub fn words_store_determined<K: Item>(
    a: &Words,
    b: &Words,
    first: &mut Grip,
    second: &mut Grip,
    item: u32,
    word: u8,
    value: u64,
)
    requires first { IsGripOf a.now first.old }
    requires second { IsGripOf b.now second.old }
    requires same { first.old.view ≡ second.old.view }
    requires own { Owns K.kind first.old.view item × Owns K.kind second.old.view item }
    requires word { word < width K.kind }
    ensures { first.new.view ≡ second.new.view }
{
    a.store::<K>(first, item, word, value);
    b.store::<K>(second, item, word, value);
}

// A word of an item that the grip has not seen held is whatever a store may be writing there.
pub fn words_copy_determined<K: Item>(
    a: &Words,
    b: &Words,
    first: &mut Grip,
    second: &mut Grip,
    item: u32,
    word: u8,
) -> (u64, u64)
    requires first { IsGripOf a.now first.old }
    requires second { IsGripOf b.now second.old }
    requires same { first.old.view ≡ second.old.view }
    requires item { (item < (fixed_of a.now).capacity) × (item < (fixed_of b.now).capacity) }
    requires word { word < width K.kind }
    requires held { is_some (held_in K.kind (state_after first.old.view.seen) item) ≡ true }
    ensures { result.0 ≡ result.1 }
{
    (
        a.copy::<K>(first, item, word),
        b.copy::<K>(second, item, word),
    )
}

pub fn words_give_alone(
    a: &Words,
    b: &Words,
    first: &mut Grip,
    second: &mut Grip,
    group: u32,
    mask: u64,
    given: u64,
)
    requires first { IsGripOf a.now first.old }
    requires second { IsGripOf b.now second.old }
    requires alike { AreAlike first.old.view second.old.view }
    requires groups { CoversGroup a.now group × CoversGroup b.now group }
    requires given { AreClaimed first.old.view group mask given × AreClaimed second.old.view group mask given }
    ensures { AreAlike first.new.view second.new.view }
{
    a.give(first, group, mask, given);
    a.look_round(first);
    b.give(second, group, mask, given);
    b.look_round(second);
}

pub fn words_give_none_alone(
    a: &Words,
    b: &Words,
    first: &mut Grip,
    second: &mut Grip,
    group: u32,
    mask: u64,
)
    requires first { IsGripOf a.now first.old }
    requires second { IsGripOf b.now second.old }
    requires alike { AreAlike first.old.view second.old.view }
    requires groups { (¬ CoversGroup a.now group) × (¬ CoversGroup b.now group) }
    ensures { AreAlike first.new.view second.new.view }
{
    a.give_none(first, group, mask);
    a.look_round(first);
    b.give_none(second, group, mask);
    b.look_round(second);
}

pub fn words_publish_alone(
    a: &Words,
    b: &Words,
    first: &mut Grip,
    second: &mut Grip,
    group: u32,
    piece: &Checked<'_>,
    mask: u64,
)
    requires first { IsGripOf a.now first.old }
    requires second { IsGripOf b.now second.old }
    requires alike { AreAlike first.old.view second.old.view }
    requires groups { CoversGroup a.now group × CoversGroup b.now group }
    requires piece { IsOf (fixed_of a.now) piece.now × IsOf (fixed_of b.now) piece.now }
    requires mask { AreHeldClaims first.old.view group (piece_of (fixed_of a.now).base piece.now) mask × AreHeldClaims second.old.view group (piece_of (fixed_of b.now).base piece.now) mask }
    requires written { AreWordsStored chunk_kind first.old.view group mask (piece_of (fixed_of a.now).base piece.now) × AreWordsStored chunk_kind second.old.view group mask (piece_of (fixed_of b.now).base piece.now) }
    ensures { AreAlike first.new.view second.new.view }
{
    a.publish(first, group, piece, mask);
    a.look_round(first);
    b.publish(second, group, piece, mask);
    b.look_round(second);
}

pub fn words_publish_none_alone(
    a: &Words,
    b: &Words,
    first: &mut Grip,
    second: &mut Grip,
    group: u32,
    piece: &Checked<'_>,
)
    requires first { IsGripOf a.now first.old }
    requires second { IsGripOf b.now second.old }
    requires alike { AreAlike first.old.view second.old.view }
    requires groups { (¬ CoversGroup a.now group) × (¬ CoversGroup b.now group) }
    requires piece { IsOf (fixed_of a.now) piece.now × IsOf (fixed_of b.now) piece.now }
    ensures { AreAlike first.new.view second.new.view }
{
    a.publish_none(first, group, piece);
    a.look_round(first);
    b.publish_none(second, group, piece);
    b.look_round(second);
}

pub fn words_publish_parents_alone(
    a: &Words,
    b: &Words,
    first: &mut Grip,
    second: &mut Grip,
    group: u32,
    piece: &Checked<'_>,
    mask: u64,
)
    requires first { IsGripOf a.now first.old }
    requires second { IsGripOf b.now second.old }
    requires alike { AreAlike first.old.view second.old.view }
    requires groups { CoversGroup a.now group × CoversGroup b.now group }
    requires piece { IsOf (fixed_of a.now) piece.now × IsOf (fixed_of b.now) piece.now }
    requires length { ((state_after first.old.view.seen).recorded ≡ Some (length_of (piece_of (fixed_of a.now).base piece.now))) × ((state_after second.old.view.seen).recorded ≡ Some (length_of (piece_of (fixed_of b.now).base piece.now))) }
    requires written { AreParentsWritten first.old.view group mask (piece_of (fixed_of a.now).base piece.now) × AreParentsWritten second.old.view group mask (piece_of (fixed_of b.now).base piece.now) }
    ensures { AreAlike first.new.view second.new.view }
{
    a.publish_parents(first, group, piece, mask);
    a.look_round(first);
    b.publish_parents(second, group, piece, mask);
    b.look_round(second);
}

// What it then knows is the same but for what it counts as stored.
pub fn words_claim_parents_alone(
    a: &Words,
    b: &Words,
    first: &mut Grip,
    second: &mut Grip,
    group: u32,
    want: u64,
) -> (u64, u64)
    requires first { IsGripOf a.now first.old }
    requires second { IsGripOf b.now second.old }
    requires alike { AreAlike first.old.view second.old.view }
    requires groups { CoversGroup a.now group × CoversGroup b.now group }
    requires none { (first.old.view.storing ≡ []) × (second.old.view.storing ≡ []) }
    ensures { (result.0 ≡ result.1) × AreAlike first.new.view second.new.view × (first.new.view.storing ≡ second.new.view.storing) }
{
    let ours = a.claim_parents(first, group, want);
    let theirs = b.claim_parents(second, group, want);
    (ours, theirs)
}

pub fn words_part_determined(
    a: &Words,
    b: &Words,
    first: Grip,
    second: Grip,
) -> (Result<(Grip, Grip), Grip>, Result<(Grip, Grip), Grip>)
    requires first { IsGripOf a.now first }
    requires second { IsGripOf b.now second }
    requires same { first.view ≡ second.view }
    ensures ok { IsOk result.0 × IsOk result.1 }
    ensures parts { IfOk result.0 (λ x. IfOk result.1 (λ y. (x.0.view ≡ y.0.view) × (x.1.view ≡ y.1.view))) }
{
    let one = a.part(first);
    let other = b.part(second);
    (one, other)
}
