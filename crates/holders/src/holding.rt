ghost use Rattle.std.specs.Prelude.{◌≡◌, ℕ, List, [], ◌<◌, ◌≤◌, ◌++◌, length, take, IsErrOf, OnOk};
ghost use Rattle.holders.specs.declared.holder.HolderFault.TheVariants.{Device};
ghost use Rattle.holders.specs.Holders.{Appends};

use crate::holder::HolderFault;
use bao_text::{Memory, Places};

/// What a holder reads from: bytes by position, in memory or in a source.
pub trait Holding: Places {
    // How many faults of its device it has counted.
    ghost count: { Self → ℕ };

    // That its device may fail.
    ghost may_fail: { Self → Type 0 };

    // That its bytes are the same.
    ghost stays: { Self → Self → Type 0 };

    // Which texts may be given as what is made of its bytes in this way.
    ghost gives: { Self → (List ℕ → List ℕ) → List ℕ → Type 0 };

    // That what is made of its bytes in this way was appended, as far as they are known.
    ghost adds: { Self → (List ℕ → List ℕ) → List ℕ → List ℕ → Type 0 };

    /// Counts a fault of a copy if the device failed, and returns it. Once the count is 2^64 - 1 it stays, and
    /// such a fault becomes `Ok`.
    fn missed(&mut self, fault: Self::Fault) -> Result<(), HolderFault>
        requires { Self.fails self.old fault }
        ensures device { IsErrOf result Device → count self.old < count self.new }
        ensures failed { IsErrOf result Device → may_fail self.old }
        ensures lost { IsErrOf result Device → (way : List ℕ → List ℕ) → gives self.old way [] }
        ensures nothing { OnOk result ((way : List ℕ → List ℕ) (into : List ℕ) → gives self.old way [] × adds self.old way into into) }
        ensures counts { count self.old ≤ count self.new }
        ensures no_more { (way : List ℕ → List ℕ) (text : List ℕ) → gives self.new way text → gives self.old way text }
        ensures stays { stays self.old self.new };

    /// Returns how many faults of its device were counted.
    fn faults(&self) -> u64
        ensures { result ≡ count self.now };

    // What was copied is given.
    ghost given: { (it : Self) (way : List ℕ → List ℕ) (old new : List ℕ) → take (length old) new ≡ old
        → ((bytes : List ℕ) → Self.holds it bytes → new ≡ old ++ way bytes) → Appends (gives it way) old new × adds it way old new };

    // Where nothing happens its bytes are the same.
    ghost still: { (it : Self) → stays it it };
}

/// Bytes in memory, which have no device that fails.
impl<'a> Holding for &'a [u8] {
    ghost use Rattle.std.proofs.Common.{refl};
    ghost use Rattle.holders.specs.Given.{given_here};

    ghost count = { λ _. 0 };

    ghost may_fail = { λ _. ⊥ };

    ghost stays = { λ old new. new.now ≡ old.now };

    ghost gives = { λ bytes way text. text ≡ way bytes.now };

    ghost adds = { λ bytes way old new. new ≡ old ++ way bytes.now };

    ghost given = { λ bytes. given_here bytes.now };

    ghost still = { λ bytes. refl };

    fn missed(&mut self, _fault: Memory) -> Result<(), HolderFault> {
        Err(HolderFault::Memory)
    }

    fn faults(&self) -> u64 {
        0
    }
}
