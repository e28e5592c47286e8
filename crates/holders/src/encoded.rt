ghost use Rattle.std.specs.Prelude.{◌≡◌, ℕ, [], ◌+◌, ◌^◌, ◌<◌, ◌≤◌, length, IsErrOf, OnErr, OnOk};
ghost use Rattle.bao_text.specs.Cut.{cut_text, slice_len};
ghost use Rattle.holders.specs.declared.holder.HolderFault.TheVariants.{Device};
ghost use Rattle.holders.specs.Holders.{Appends, GivesNoMore};

use crate::holder::{Holder, HolderFault};
use crate::holding::Holding;
use crate::places::Placed;
use b3par::Source;
use bao_text::append_cut;

/// A holder of a combined encoding, which nobody has checked: of its bytes, or of a source that is read by
/// position. It borrows them.
#[derive(Drop)]
pub struct Encoded<P> {
    places: P,
}

impl<P: Holding> Encoded<P> {
    /// Returns a holder of these bytes.
    pub fn new(places: P) -> Encoded<P>
        ensures { result.places ≡ places }
    {
        Encoded { places }
    }
}

impl<'a, S: Source> Encoded<Placed<'a, S>> {
    /// Returns a holder of what the source has. Its memory doesn't grow with the encoding, and its count of
    /// faults is 0.
    pub fn at(source: &'a S) -> Encoded<Placed<'a, S>>
        ensures source { result.places.source.now ≡ source.now }
        ensures faults { result.places.faults ≡ 0 }
    {
        Encoded {
            places: Placed::new(source),
        }
    }
}

impl<P: Holding> Holder for Encoded<P> {
    ghost count = { λ holder. P.count holder.places };

    ghost gives = { λ holder start len text. P.gives holder.places (λ bytes. cut_text bytes start len) text };

    /// Appends the slice that `cut_slice` would cut out of all the bytes there. The length, and each subtree
    /// that is wanted as a whole, is copied as one range, and memory is taken for no more than the slice.
    fn fetch(&mut self, start: u64, len: u64, into: &mut Vec<u8>) -> Result<(), HolderFault>
        ensures appended { OnOk result (Appends (P.gives self.old.places (λ bytes. cut_text bytes start len)) into.old.items into.new.items) }
        ensures no_more { GivesNoMore (λ holder start len text. P.gives holder.places (λ bytes. cut_text bytes start len) text) self.old self.new }
        ensures unchanged { OnErr result (into.new.items ≡ into.old.items) }
        ensures device { IsErrOf result Device → P.count self.old.places < P.count self.new.places }
        ensures lost { IsErrOf result Device → P.gives self.old.places (λ bytes. cut_text bytes start len) [] }
        ensures counts { P.count self.old.places ≤ P.count self.new.places }
        ensures failed { IsErrOf result Device → P.may_fail self.old.places }
        ensures same { P.stays self.old.places self.new.places }
        ensures cut { OnOk result (P.adds self.old.places (λ bytes. cut_text bytes start len) into.old.items into.new.items) }
        ensures few { OnOk result ((total : ℕ) × (total < 2 ^ 64) × (length into.new.items ≤ length into.old.items + slice_len total start len)) }
    {
        let before = into.len();
        match append_cut(&self.places, start, len, into) {
            Ok(()) => Ok(()),
            Err(fault) => {
                into.truncate(before);
                self.places.missed(fault)
            }
        }
    }

    fn faults(&self) -> u64 {
        self.places.faults()
    }
}
