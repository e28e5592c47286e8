ghost use Rattle.std.specs.Prelude.{◌≡◌, ◌≢◌, ◌↔◌, ◌+◌, ◌-◌, ◌^◌, ◌<◌, ℕ, List, [], ◌++◌, length, None};
ghost use Rattle.b3tree.specs.declared.mode.Mode.{Mode};
ghost use Rattle.b3tree.specs.Hashing.{stream};
ghost use Rattle.b3tree.specs.Taken.{Holds};
ghost use Rattle.berylwool.specs.Handles.{HasHasher, HoldsIn};
ghost use Rattle.berylwool.specs.Modes.{IsKnown, mode_of};

use crate::handle::{BwHandle, put, take, with_held};
use crate::mode::BwMode;
use crate::owned::Held;
use crate::status::{NO_MEMORY, NO_MODE, PAST_OUTPUT};
use b3tree::{Hasher, xof_fits};
use std::alloc::Global;

// Makes an empty handle own a hasher.
fn put_hasher(alloc: Global, it: Hasher, hasher: &mut BwHandle) -> u32
    requires { hasher.old.held ≡ None }
    ensures made { result ≡ 0 → (mode : Mode) (s : List ℕ) → Holds it mode s → HoldsIn hasher.new.held mode s }
    ensures status { result ≢ 0 → result ≡ 1203 }
    ensures empty { result ≢ 0 → hasher.new.held ≡ None }
{
    let Ok(boxed) = Box::new(alloc, it) else {
        return NO_MEMORY;
    };
    match Box::new(alloc, Held::Hasher(boxed)) {
        Ok(held) => {
            put(hasher, held);
            0
        }
        Err(_) => NO_MEMORY,
    }
}

/// Makes a hasher that has no input yet.
#[unsafe(no_mangle)]
pub extern "C" fn bw_hasher_new(alloc: Global, mode: &BwMode, hasher: &mut BwHandle) -> u32
    ensures made { result ≡ 0 → HoldsIn hasher.new.held (mode_of mode.now) [] }
    ensures unknown { result ≡ 1213 ↔ (¬ IsKnown mode.now) }
    ensures status { result ≢ 0 → result ≢ 1213 → result ≡ 1203 }
    ensures empty { result ≢ 0 → hasher.new.held ≡ None }
{
    let _old = take(hasher, alloc);
    if !mode.is_known() {
        return NO_MODE;
    }
    put_hasher(alloc, Hasher::new(&mode.get()), hasher)
}

/// Makes `other` another hasher with the same mode and input so far. What one of them takes in then, the other doesn't.
#[unsafe(no_mangle)]
pub extern "C" fn bw_hasher_copy(alloc: Global, hasher: &mut BwHandle, other: &mut BwHandle) -> u32
    ensures copied { (mode : Mode) (s : List ℕ) → HoldsIn hasher.old.held mode s → result ≡ 0 → HoldsIn other.new.held mode s }
    ensures no_hasher { result ≡ 1202 ↔ (¬ HasHasher hasher.old.held) }
    ensures status { result ≢ 0 → result ≢ 1202 → result ≡ 1203 }
    ensures same { hasher.new.held ≡ hasher.old.held }
    ensures empty { result ≢ 0 → other.new.held ≡ None }
{
    let _old = take(other, alloc);
    with_held!(
        hasher,
        alloc,
        Hasher,
        |it| put_hasher(alloc, it.copy(), other)
    )
}

/// Appends `bytes` to a hasher's input.
#[unsafe(no_mangle)]
pub extern "C" fn bw_hasher_update(alloc: Global, hasher: &mut BwHandle, bytes: &[u8]) -> u32
    ensures taken { (mode : Mode) (s : List ℕ) → HoldsIn hasher.old.held mode s → result ≡ 0 → HoldsIn hasher.new.held mode (s ++ bytes.now) }
    ensures too_long { (mode : Mode) (s : List ℕ) → HoldsIn hasher.old.held mode s → (result ≡ 201 ↔ (2 ^ 64 - 1 < length s + length bytes.now)) }
    ensures no_hasher { result ≡ 1202 ↔ (¬ HasHasher hasher.old.held) }
    ensures status { result ≢ 0 → result ≢ 1202 → result ≡ 201 }
    ensures same { result ≢ 0 → hasher.new.held ≡ hasher.old.held }
{
    with_held!(hasher, alloc, Hasher, |it| match it.update(bytes) {
        Ok(()) => 0,
        Err(fault) => u32::from(fault.code()),
    })
}

/// Fills `out` with the extended output of a hasher's input so far, from byte `at` of the output on. More input
/// may follow.
#[unsafe(no_mangle)]
pub extern "C" fn bw_hasher_finish(
    alloc: Global,
    hasher: &mut BwHandle,
    at: u64,
    out: &mut [u8],
) -> u32
    ensures output { result ≡ 0 → (mode : Mode) (s : List ℕ) → HoldsIn hasher.old.held mode s → out.new ≡ stream mode s at (length out.old) }
    ensures fits { result ≡ 1208 ↔ (2 ^ 64 - 1 < at + length out.old) }
    ensures has { result ≡ 0 → HasHasher hasher.old.held }
    ensures no_hasher { result ≡ 1202 → (¬ HasHasher hasher.old.held) }
    ensures status { result ≢ 0 → result ≢ 1208 → result ≡ 1202 }
    ensures same { hasher.new.held ≡ hasher.old.held }
    ensures unchanged { result ≢ 0 → out.new ≡ out.old }
{
    if !xof_fits(at, out.len() as u64) {
        return PAST_OUTPUT;
    }
    with_held!(hasher, alloc, Hasher, |it| {
        it.finalize_xof(at, out);
        0
    })
}
