ghost use Rattle.std.specs.Prelude.{◌≡◌, ℕ, ◌+◌, ◌^◌, ◌<◌, ◌≤◌, ◌%◌, max, is_some, IfOk, OnOk, length, true, nat_lt, ◌&&◌, if◌then◌else◌};
ghost use Rattle.store_core.specs.Masks.{IsMaskOf, has_bit, in_mask};
ghost use Rattle.holders.specs.Pieces.{holds_chunk, piece_of};
ghost use Rattle.std.specs.Option.{option_copied};
ghost use Rattle.store_core.specs.Slots.{AreCopies, IsSlotCopy, claimed_slot, held_in, is_of, picks, slot_at};

use crate::masks::{GROUP_LEN, has_bit, with_bit};
use bao_check::Checked;
use std::alloc::{AllocError, Global};
use std::mem::replace;

/// The state of a chunk in a store.
#[derive(Drop)]
pub(crate) enum Slot {
    Free,
    /// Claimed by the seat with this number.
    Claimed(u32),
    /// Held with these bytes: for chunk c of the store, those of the blob's chunk base + c.
    Held(Vec<u8>),
}

/// The chunks that a call is about.
#[derive(Clone, Copy)]
pub(crate) enum Pick<'a> {
    Free,
    /// Those that the seat claims.
    Claimed(u32),
    /// Those that the seat claims and the accepted slice has; the number is the store's base.
    InPiece(u32, u64, Checked<'a>),
}

impl Slot {
    // Whether the seat claims the chunk.
    fn is_of(&self, seat: u32) -> bool
        ensures { result ≡ is_of seat self.now }
    {
        match self {
            Slot::Claimed(n) => *n == seat,
            _ => false,
        }
    }
}

// Whether the piece holds the chunk, which is counted from this one of the blob: it is among its numbers, so nothing of its
// tree is walked.
pub(crate) fn is_in(piece: &Checked<'_>, base: u64, chunk: u64) -> bool
    ensures { result ≡ holds_chunk (piece_of base piece.now) chunk }
{
    let (first, after) = piece.chunks();
    let number = base.saturating_add(chunk);
    first <= number && number < after
}

impl Pick<'_> {
    fn picks(&self, chunk: u64, slot: &Slot) -> bool
        ensures { result ≡ picks self.now chunk slot.now }
    {
        match self {
            Pick::Free => matches!(slot, Slot::Free),
            Pick::Claimed(seat) => slot.is_of(*seat),
            Pick::InPiece(seat, base, piece) => slot.is_of(*seat) && is_in(piece, *base, chunk),
        }
    }
}

// Whether chunk `c` is held.
pub(crate) fn is_held(slots: &[Slot], c: usize) -> bool
    ensures { result ≡ is_some (held_in (slot_at slots.now c)) }
{
    matches!(slots.get(c), Some(Slot::Held(_)))
}

// The bytes of chunk `c`, if it is held.
pub(crate) fn held_chunk(slots: &[Slot], c: usize) -> Option<&[u8]>
    ensures { option_copied result ≡ held_in (slot_at slots.now c) }
{
    match slots.get(c) {
        Some(Slot::Held(bytes)) => Some(bytes.as_slice()),
        _ => None,
    }
}

// Whether chunk `c` has a slot and is picked.
pub(crate) fn is_picked(slots: &[Slot], c: usize, pick: &Pick<'_>) -> bool
    ensures { result ≡ (nat_lt c (length slots.now) && picks pick.now c (slot_at slots.now c)) }
{
    match slots.get(c) {
        Some(slot) => pick.picks(c as u64, slot),
        None => false,
    }
}

// The mask of the chunks of the group that are among the mask, have a slot, and are picked.
pub(crate) fn chosen(slots: &[Slot], group: u32, among: u64, pick: &Pick<'_>) -> u64
    requires { group < 1024 }
    ensures { IsMaskOf group result (λ c. has_bit among (c % 64) && (nat_lt c (length slots.now) && picks pick.now c (slot_at slots.now c))) }
{
    let first = GROUP_LEN as usize * group as usize;
    let mut mask = 0;
    for j in 0..64u32 {
        if has_bit(among, j) && is_picked(slots, first + j as usize, pick) {
            mask = with_bit(mask, j);
        }
    }
    mask
}

// The place of a chunk that this seat claims, or none.
fn claimed_slot(seat: Option<u32>) -> Slot
    ensures { result ≡ claimed_slot seat }
{
    match seat {
        Some(n) => Slot::Claimed(n),
        None => Slot::Free,
    }
}

// Each chunk of the group's mask is claimed by the seat, or by none.
pub(crate) fn put_claims(slots: &mut [Slot], group: u32, mask: u64, seat: Option<u32>)
    requires group_in { group < 1024 }
    requires within { (c : ℕ) → in_mask group mask c ≡ true → c < length slots.old }
    ensures { (c : ℕ) → slot_at slots.new c ≡ (if in_mask group mask c then claimed_slot seat else slot_at slots.old c) }
{
    let first = GROUP_LEN as usize * group as usize;
    for j in 0..64u32 {
        if has_bit(mask, j) {
            slots[first + j as usize] = claimed_slot(seat);
        }
    }
}

// At least `len` chunks have a slot, if there is memory, and no more than these and those that had one. What
// each slot has stays.
pub(crate) fn grow(slots: &mut Vec<Slot>, len: usize) -> Result<(), AllocError>
    ensures same { (c : ℕ) → slot_at slots.new.items c ≡ slot_at slots.old.items c }
    ensures enough { OnOk result (len ≤ length slots.new.items) }
    ensures most { length slots.new.items ≤ max len (length slots.old.items) }
{
    while slots.len() < len {
        slots.push(Slot::Free)?;
    }
    Ok(())
}

// What chunk `chunk` is in a store whose first chunk is this one of the blob, if the piece holds it.
fn copy(alloc: Global, piece: &Checked<'_>, base: u64, chunk: u64) -> Result<Slot, AllocError>
    requires { base + chunk < 2 ^ 64 }
    ensures { IfOk result (λ slot. IsSlotCopy base piece.now chunk slot) }
{
    match piece.chunk(base + chunk) {
        Some(bytes) => Ok(Slot::Held(bytes.to_vec(alloc)?)),
        None => Ok(Slot::Free),
    }
}

// A slot for each bit of the mask of a group: that of its chunk in the piece where the bit is set.
pub(crate) fn copies(
    alloc: Global,
    piece: &Checked<'_>,
    base: u64,
    group: u32,
    mask: u64,
) -> Result<Vec<Slot>, AllocError>
    requires group { group < 1024 }
    requires low { base ≤ 2 ^ 54 }
    ensures { IfOk result (λ ready. AreCopies base piece.now group mask 64 ready.items) }
{
    let first = GROUP_LEN as u64 * u64::from(group);
    let mut ready = Vec::new(alloc);
    for j in 0..64u32 {
        let slot = if has_bit(mask, j) {
            copy(alloc, piece, base, first + u64::from(j))?
        } else {
            Slot::Free
        };
        ready.push(slot)?;
    }
    Ok(ready)
}

// Each chunk of the group's mask has the slot of its bit.
pub(crate) fn put_ready(slots: &mut [Slot], group: u32, mask: u64, ready: &mut [Slot])
    requires group_in { group < 1024 }
    requires within { (c : ℕ) → in_mask group mask c ≡ true → c < length slots.old }
    requires full { length ready.old ≡ 64 }
    ensures { (c : ℕ) → slot_at slots.new c ≡ (if in_mask group mask c then slot_at ready.old (c % 64) else slot_at slots.old c) }
{
    let first = GROUP_LEN as usize * group as usize;
    for j in 0..64u32 {
        if has_bit(mask, j) {
            slots[first + j as usize] = replace(&mut ready[j as usize], Slot::Free);
        }
    }
}
