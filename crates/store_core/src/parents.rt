ghost use Rattle.std.specs.Prelude.{◌≡◌, ℕ, ◌<◌, ◌≤◌, length, is_some, not, ◌&&◌, if◌then◌else◌, true, OnOk};
ghost use Rattle.std.specs.Option.{option_copied};
ghost use Rattle.store_core.specs.Masks.{IsMaskOf, in_mask};
ghost use Rattle.holders.specs.Pieces.{holds_parent, parent_bytes, piece_of};
ghost use Rattle.store_core.specs.Slots.{parent_among};

use crate::masks::{GROUP_LEN, has_bit, with_bit};
use bao_check::Checked;
use std::alloc::AllocError;

// The bytes of the parent at a boundary, if it is held.
pub(crate) fn held_parent(parents: &[Option<[u8; 64]>], m: usize) -> Option<&[u8]>
    ensures { option_copied result ≡ parent_among parents.now m }
{
    match parents.get(m) {
        Some(Some(bytes)) => Some(bytes.as_slice()),
        _ => None,
    }
}

// Whether the parent at a boundary is held.
fn is_held(parents: &[Option<[u8; 64]>], m: usize) -> bool
    ensures { result ≡ is_some (parent_among parents.now m) }
{
    matches!(parents.get(m), Some(Some(_)))
}

// The mask of the group's boundaries of which the piece holds the parent.
fn held_in(piece: &Checked<'_>, group: u32) -> u64
    ensures { IsMaskOf group result (λ m. holds_parent (piece_of 0 piece.now) m) }
{
    piece.parents_of(u64::from(group))
}

// The mask of the group's boundaries of which the piece holds the parent and none is held yet.
pub(crate) fn wanted(parents: &[Option<[u8; 64]>], group: u32, piece: &Checked<'_>) -> u64
    ensures { IsMaskOf group result (λ m. holds_parent (piece_of 0 piece.now) m && not (is_some (parent_among parents.now m))) }
{
    let first = GROUP_LEN as u64 * u64::from(group);
    let has = held_in(piece, group);
    let mut mask = 0;
    for j in 0..64u32 {
        let m = first + u64::from(j);
        if has_bit(has, j) && !is_held(parents, m as usize) {
            mask = with_bit(mask, j);
        }
    }
    mask
}

// There is room for the parents at the first `len` boundaries, if there is memory. Those that are held stay.
pub(crate) fn make_room(parents: &mut Vec<Option<[u8; 64]>>, len: usize) -> Result<(), AllocError>
    ensures same { (m : ℕ) → parent_among parents.new.items m ≡ parent_among parents.old.items m }
    ensures enough { OnOk result (len ≤ length parents.new.items) }
{
    while parents.len() < len {
        parents.push(None)?;
    }
    Ok(())
}

// The parent of the piece at a boundary, if it holds it.
fn copy(piece: &Checked<'_>, m: u64) -> Option<[u8; 64]>
    ensures { result ≡ parent_bytes (piece_of 0 piece.now) m }
{
    match piece.parent(m) {
        Some(bytes) => {
            let mut copy = [0; 64];
            copy.copy_from_slice(bytes);
            Some(copy)
        }
        None => None,
    }
}

// At each boundary of the group's mask the piece's parent is held.
pub(crate) fn put_parents(
    parents: &mut [Option<[u8; 64]>],
    group: u32,
    mask: u64,
    piece: &Checked<'_>,
)
    requires within { (m : ℕ) → in_mask group mask m ≡ true → m < length parents.old }
    ensures { (m : ℕ) → parent_among parents.new m ≡ (if in_mask group mask m then parent_bytes (piece_of 0 piece.now) m else parent_among parents.old m) }
{
    let first = GROUP_LEN as u64 * u64::from(group);
    for j in 0..64u32 {
        if has_bit(mask, j) {
            let m = first + u64::from(j);
            parents[m as usize] = copy(piece, m);
        }
    }
}
