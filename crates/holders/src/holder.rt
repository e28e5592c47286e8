ghost use Rattle.std.specs.Prelude.{◌≡◌, ℕ, List, [], ◌<◌, ◌≤◌, IsErrOf, OnErr, OnOk};
ghost use Rattle.holders.specs.declared.holder.HolderFault.TheVariants.{Device};
ghost use Rattle.holders.specs.Holders.{Appends, GivesNoMore};

use thiserror::Error;

/// Why a holder returned no bytes.
#[derive(Clone, Copy, Debug, PartialEq, Eq, Error)]
pub enum HolderFault {
    /// Its device failed, and its count of faults rose.
    #[error("holder's device")]
    Device,
    /// Memory was refused.
    #[error("holder's memory")]
    Memory,
}

/// A possible source of a blob's encoding. Nothing is assumed about the bytes: they may be cut, changed or
/// another blob's.
pub trait Holder {
    // How many faults of its device it has counted.
    ghost count: { Self → ℕ };

    // Which texts it may give as the slice of so many bytes from a byte on: any, where nothing is known of it.
    ghost gives: { Self → ℕ → ℕ → List ℕ → Type 0 };

    /// Appends to `into` the slice of `len` bytes from byte `start` on, or any other bytes.
    ///
    /// Refuses with `Device` only if the count of faults rose during the call, and with `Memory` only if memory
    /// was refused; `into` is then unchanged. The count never falls. Once it is 2^64 - 1 it stays, and a fetch
    /// whose device fails returns `Ok` and appends nothing.
    ///
    /// A device that fails supplies nothing, so the empty encoding is then among those that this holder may
    /// supply for the slice. A holder that supplies nothing but the slice of a blob, which is never empty,
    /// therefore doesn't fail when asked for it.
    fn fetch(&mut self, start: u64, len: u64, into: &mut Vec<u8>) -> Result<(), HolderFault>
        ensures appended { OnOk result (Appends (gives self.old start len) into.old.items into.new.items) }
        ensures no_more { GivesNoMore gives self.old self.new }
        ensures unchanged { OnErr result (into.new.items ≡ into.old.items) }
        ensures device { IsErrOf result Device → count self.old < count self.new }
        ensures lost { IsErrOf result Device → gives self.old start len [] }
        ensures counts { count self.old ≤ count self.new };

    /// Returns how many faults of its device were counted.
    fn faults(&self) -> u64
        ensures { result ≡ count self.now };
}
