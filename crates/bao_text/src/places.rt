ghost use Rattle.std.specs.Prelude.{◌≡◌, ℕ, List, true, ◌+◌, ◌^◌, ◌<◌, ◌≤◌, ◌++◌, length, take, nat_le, IfErr, IfOk, OnOk};
ghost use Rattle.b3tree.specs.Pieces.{piece};

use crate::fault::Memory;
use crate::texts::extend;

/// Bytes that are copied by position, from memory or by reads that may fail.
pub trait Places {
    /// Why bytes were not copied.
    type Fault: Drop;

    // That its bytes are these.
    ghost holds: { Self → List ℕ → Type 0 };

    // That a copy may answer this fault.
    ghost fails: { Self → Self.Fault → Type 0 };

    /// Appends the `len` bytes from offset `at` on, or those of them that exist, and returns whether all of
    /// them do.
    ///
    /// After a fault `into` still begins with what it had.
    fn append(&self, at: u128, len: u128, into: &mut Vec<u8>) -> Result<bool, Self::Fault>
        requires { at + len < 2 ^ 128 }
        ensures part { (bytes : List ℕ) → holds self.now bytes → OnOk result (into.new.items ≡ into.old.items ++ piece bytes at len) }
        ensures whole { (bytes : List ℕ) → holds self.now bytes → IfOk result (λ whole. 0 < len → whole ≡ nat_le (at + len) (length bytes)) }
        ensures none { IfOk result (λ whole. len ≡ 0 → whole ≡ true) }
        ensures all { IfOk result (λ whole. whole ≡ true → length into.new.items ≡ length into.old.items + len) }
        ensures few { OnOk result (length into.new.items ≤ length into.old.items + len) }
        ensures kept { take (length into.old.items) into.new.items ≡ into.old.items }
        ensures fault { IfErr result (λ fault. fails self.now fault) };
}

/// Returns the `len` bytes from offset `at` on, or those of them that exist.
pub fn part_of(bytes: &[u8], at: u128, len: u128) -> &[u8]
    ensures { result.now ≡ piece bytes.now at len }
{
    let end = bytes.len() as u128;
    &bytes[at.min(end) as usize..at.saturating_add(len).min(end) as usize]
}

impl Places for &[u8] {
    ghost use Rattle.std.specs.Prelude.{⊤};

    type Fault = Memory;

    ghost holds = { λ text bytes. bytes ≡ text.now };

    ghost fails = { λ _ _. ⊤ };

    fn append(&self, at: u128, len: u128, into: &mut Vec<u8>) -> Result<bool, Memory> {
        let part = part_of(self, at, len);
        extend(into, part)?;
        Ok(part.len() as u128 == len)
    }
}
