ghost use Rattle.std.specs.Prelude.{◌≡◌, true, ◌+◌, ◌-◌, ◌<◌, ◌≤◌, ◌++◌, length, take, nat_le, IfOk};
ghost use Rattle.b3tree.specs.Pieces.{piece};
ghost use Rattle.holders.specs.declared.holder.HolderFault.TheVariants.{Device};
ghost use Rattle.holders.specs.Reads.{ReadFrom};

use crate::holder::HolderFault;
use crate::holding::Holding;
use b3par::Source;
use bao_text::Places;

// No file and no slice of memory has a byte at this place or after it.
const END: u128 = u64::MAX as u128;

// The most bytes that are asked for at once: a group's chunks with their parents are fewer.
const ASKED_LEN: u128 = 1 << 17;

/// The bytes of a source by position, with a count of the reads that failed. It borrows the source.
#[derive(Drop)]
pub struct Placed<'a, S: Source> {
    source: &'a S,
    faults: u64,
}

impl<'a, S: Source> Placed<'a, S> {
    // What this source has. No fault is counted yet.
    pub(crate) fn new(source: &'a S) -> Placed<'a, S>
        ensures source { result.source.now ≡ source.now }
        ensures faults { result.faults ≡ 0 }
    {
        Placed { source, faults: 0 }
    }
}

impl<'a, S: Source> Places for Placed<'a, S> {
    ghost use Rattle.holders.specs.Places.{AreKnown};

    type Fault = HolderFault;

    ghost holds = { λ placed bytes. AreKnown (S.contents placed.source.now) bytes };

    ghost fails = { λ placed fault. fault ≡ Device → S.faultless placed.source.now → ⊥ };

    // By as many reads as it takes. Room is taken as the bytes come.
    #[tactic(auto, using(crate::proofs::Reading::read_more))]
    fn append(&self, at: u128, len: u128, into: &mut Vec<u8>) -> Result<bool, HolderFault> {
        let mut came = 0;
        'reads: while came < len {
            let place = at + came;
            if place >= END {
                return Ok(false);
            }
            let room = ASKED_LEN.min(len - came).min(END - place) as usize;
            let start = into.len();
            if into.resize(start.saturating_add(room), 0).is_err() {
                return Err(HolderFault::Memory);
            }
            match self
                .source
                .read_at(&mut into.as_mut_slice()[start..], place as u64)
            {
                Ok(count) => {
                    into.truncate(start + count);
                    if count == 0 {
                        return Ok(false);
                    }
                    came += count as u128;
                }
                Err(_) => return Err(HolderFault::Device),
            }
        }
        Ok(true)
    }
}

/// `Device` if a read failed (also with the kind `Interrupted`; it isn't retried).
impl<'a, S: Source> Holding for Placed<'a, S> {
    ghost use Rattle.std.specs.Prelude.{◌⊎◌, ◌^◌};
    ghost use Rattle.std.proofs.Common.{refl};
    ghost use Rattle.holders.specs.Given.{given_there};
    ghost use Rattle.holders.specs.Places.{IsLost, OfBytes};

    ghost count = { λ placed. placed.faults };

    ghost may_fail = { λ placed. S.faultless placed.source.now → ⊥ };

    ghost stays = { λ old new. new.source.now ≡ old.source.now };

    ghost gives = { λ placed way text. OfBytes (S.contents placed.source.now) (λ bytes. (text ≡ way bytes) ⊎ IsLost (S.faultless placed.source.now) text) };

    ghost adds = { λ placed way old new. placed.faults < 2 ^ 64 - 1 → OfBytes (S.contents placed.source.now) (λ bytes. new ≡ old ++ way bytes) };

    ghost given = { λ placed. given_there (S.contents placed.source.now) (S.faultless placed.source.now) (placed.faults < 2 ^ 64 - 1) };

    ghost still = { λ placed. refl };

    fn missed(&mut self, fault: HolderFault) -> Result<(), HolderFault> {
        match (fault, self.faults.checked_add(1)) {
            (HolderFault::Device, Some(more)) => {
                self.faults = more;
                Err(HolderFault::Device)
            }
            (HolderFault::Device, None) => Ok(()),
            (HolderFault::Memory, _) => Err(HolderFault::Memory),
        }
    }

    fn faults(&self) -> u64 {
        self.faults
    }
}
