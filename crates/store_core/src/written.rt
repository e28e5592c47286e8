ghost use Rattle.std.specs.Prelude.{◌≡◌, ℕ, ◌<◌, ◌≤◌, nat_lt, ◌==◌, ◌&&◌, ◌||◌, if◌then◌else◌, ◌↔◌, true, false, length, slice_index_or, IsTrue, OnOk};
ghost use Rattle.store_core.specs.Masks.{in_mask};
ghost use Rattle.store_core.specs.Slots.{caller};
ghost use Rattle.store_core.specs.ScheduleRuns.{IsCleared, is_marked};
ghost use Rattle.store_core.specs.States.{claims};
ghost use Rattle.store_core.specs.Stores.{fixed_of, state_of};

use crate::masks::{CELL_WORDS, GROUP_LEN, has_bit};
use crate::store::Store;
use std::alloc::AllocError;

// Whether all words of the chunk's cell are marked as written.
pub fn is_written(written: &[bool], chunk: u32) -> bool
    ensures { IsTrue result ↔ ((w : ℕ) → w < 129 → is_marked written.now chunk w ≡ true) }
{
    let first = CELL_WORDS as usize * chunk as usize;
    for w in 0..CELL_WORDS as usize {
        if first + w >= written.len() || !written[first + w] {
            return false;
        }
    }
    true
}

// At least `len` words have a mark, if there is memory; none is added as written.
fn grow(written: &mut Vec<bool>, len: usize) -> Result<(), AllocError>
    ensures same { (k : ℕ) → slice_index_or written.new.items k false ≡ slice_index_or written.old.items k false }
    ensures enough { OnOk result (len ≤ length written.new.items) }
{
    while written.len() < len {
        written.push(false)?;
    }
    Ok(())
}

// Marks a word of the chunk's cell as written.
pub fn mark(written: &mut Vec<bool>, chunk: u32, word: u8) -> Result<(), AllocError>
    requires { word < 129 }
    ensures { OnOk result ((c w : ℕ) → w < 129 → is_marked written.new.items c w ≡ ((c == chunk) && (w == word) || is_marked written.old.items c w)) }
{
    let i = CELL_WORDS as usize * chunk as usize + word as usize;
    grow(written, i + 1)?;
    written[i] = true;
    Ok(())
}

// No word of the chunk's cell counts as written.
fn unmark(written: &mut [bool], chunk: u32)
    ensures { IsCleared (λ c. c == chunk) written.old written.new }
{
    let first = CELL_WORDS as usize * chunk as usize;
    for w in 0..CELL_WORDS as usize {
        if first + w < written.len() {
            written[first + w] = false;
        }
    }
}

// No word of the mask's chunks counts as written.
pub fn unmark_group(written: &mut [bool], group: u32, mask: u64)
    requires { group < 1024 }
    ensures { IsCleared (in_mask group mask) written.old written.new }
{
    for j in 0..64u32 {
        if has_bit(mask, j) {
            unmark(written, GROUP_LEN * group + j);
        }
    }
}

// No word of the chunks that the seat claims counts as written.
pub fn unmark_claims(written: &mut [bool], store: &Store, seat: u32)
    ensures { IsCleared (λ c. nat_lt c (fixed_of store.now).capacity && claims (caller seat) (state_of store.now) c) written.old written.new }
{
    for chunk in 0..store.fixed().capacity {
        if store.has_claim(seat, chunk) {
            unmark(written, chunk);
        }
    }
}
