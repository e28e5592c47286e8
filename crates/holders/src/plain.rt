ghost use Rattle.std.specs.Prelude.{◌≡◌, [], ◌+◌, ◌<◌, ◌≤◌, length, IfOk, IsErrOf, OnErr, OnOk, map, vec_items};
ghost use Rattle.b3tree.specs.Pieces.{piece};
ghost use Rattle.holders.specs.declared.holder.HolderFault.TheVariants.{Device};
ghost use Rattle.holders.specs.Holders.{Appends, GivesNoMore};
ghost use Rattle.holders.specs.Plains.{copy_of};

use crate::holder::{Holder, HolderFault};
use crate::holding::Holding;
use crate::places::Placed;
use b3par::Source;
use std::alloc::{AllocError, Global};

/// A holder of a plain copy of a blob, which nobody has checked: of its bytes, or of a source that is read by
/// position. It borrows them.
#[derive(Drop)]
pub struct Plain<P> {
    places: P,
}

impl<P: Holding> Plain<P> {
    /// Returns a holder of these bytes.
    pub fn new(places: P) -> Plain<P>
        ensures { result.places ≡ places }
    {
        Plain { places }
    }
}

impl<'a, S: Source> Plain<Placed<'a, S>> {
    /// Returns a holder of what the source has. Its memory doesn't grow with the copy, and its count of faults
    /// is 0.
    pub fn at(source: &'a S) -> Plain<Placed<'a, S>>
        ensures source { result.places.source.now ≡ source.now }
        ensures faults { result.places.faults ≡ 0 }
    {
        Plain {
            places: Placed::new(source),
        }
    }
}

impl<P: Holding> Holder for Plain<P> {
    ghost count = { λ holder. P.count holder.places };

    ghost gives = { λ holder start len text. P.gives holder.places (λ bytes. piece bytes start len) text };

    /// Appends the `len` bytes of the copy from byte `start` on, as far as it has them: of N bytes, those from
    /// min(start, N) up to min(start + len, N). If the copy is read, memory grows as the bytes arrive.
    fn fetch(&mut self, start: u64, len: u64, into: &mut Vec<u8>) -> Result<(), HolderFault>
        ensures appended { OnOk result (Appends (P.gives self.old.places (λ bytes. piece bytes start len)) into.old.items into.new.items) }
        ensures no_more { GivesNoMore (λ holder start len text. P.gives holder.places (λ bytes. piece bytes start len) text) self.old self.new }
        ensures unchanged { OnErr result (into.new.items ≡ into.old.items) }
        ensures device { IsErrOf result Device → P.count self.old.places < P.count self.new.places }
        ensures lost { IsErrOf result Device → P.gives self.old.places (λ bytes. piece bytes start len) [] }
        ensures counts { P.count self.old.places ≤ P.count self.new.places }
        ensures failed { IsErrOf result Device → P.may_fail self.old.places }
        ensures same { P.stays self.old.places self.new.places }
        ensures part { OnOk result (P.adds self.old.places (λ bytes. piece bytes start len) into.old.items into.new.items) }
        ensures few { OnOk result (length into.new.items ≤ length into.old.items + len) }
    {
        let before = into.len();
        match self.places.append(u128::from(start), u128::from(len), into) {
            Ok(_) => Ok(()),
            Err(fault) => {
                into.truncate(before);
                self.places.missed(fault)
            }
        }
    }

    fn faults(&self) -> u64 {
        self.places.faults()
    }
}
