ghost use Rattle.std.specs.Prelude.{◌≡◌, ◌↔◌, ℕ, [], ◌++◌, IfErr, IfOk, IsOk, OnErr, OnOk};
ghost use Rattle.bao_check.specs.declared.fault.CheckFault.TheVariants.{Short};
ghost use Rattle.bao_check.specs.Accepted.{IsAccepted, outboard_nodes};
ghost use Rattle.bao_check.specs.Faults.{IsFirstFault};
ghost use Rattle.bao_check.specs.Outline.{IsOutline};
ghost use Rattle.bao_check.specs.Verified.{IsGoodSoFar, IsPieceFault, IsVerified, IsVerified-prop};

use crate::fault::CheckFault;
use crate::feed_parents::verify;
use crate::outline::Outline;
use b3tree::{Hash, Mode};
use bao_text::{LENGTH_LEN, PARENT_LEN, chunk_count, claimed};
use std::alloc::Global;

/// Checks an outboard encoding that arrives in parts of any size: `check_outboard` for a caller that doesn't
/// have all of it yet. It keeps the bytes, which make an outline once all are there.
#[derive(Drop)]
pub struct OutboardFeed {
    mode: Mode,
    root: Hash,
    text: Vec<u8>,
    // How many parents are verified: all that are wholly there.
    verified: usize,
    ghost known: { IsVerified mode root.0 text.items verified } by { IsVerified-prop mode root.0 text.items verified },
}

impl OutboardFeed {
    ghost use Rattle.bao_check.specs.Feeds.{IsFeed, feed_mode, feed_root, feed_text};

    /// Returns a check of an outboard encoding of the blob with the hash `root` in `mode` that has no bytes
    /// yet. It doesn't allocate.
    pub fn new(alloc: Global, mode: &Mode, root: &Hash) -> OutboardFeed
        ensures { IsFeed result mode.now root.now.0 [] }
    {
        OutboardFeed {
            mode: *mode,
            root: *root,
            text: Vec::new(alloc),
            verified: 0,
        }
    }

    /// Appends `bytes`, any number of them, and verifies each parent as soon as it is complete.
    ///
    /// Refuses with 502 `Mismatch` at a parent that doesn't have the value required there, with 503 `Trailing`
    /// at what follows the last node, and with 504 `Memory`. The offset is that of the first fault of every
    /// outboard encoding that begins with the bytes kept and these. After a refusal none of `bytes` is kept,
    /// and others can be pushed in their place.
    pub fn push(&mut self, bytes: &[u8]) -> Result<(), CheckFault>
        ensures taken { OnOk result (IsFeed self.new (feed_mode self.old) (feed_root self.old) (feed_text self.old ++ bytes.now)) }
        ensures good { OnOk result (IsGoodSoFar (feed_mode self.old) (feed_root self.old) (feed_text self.old ++ bytes.now)) }
        ensures fault { IfErr result (IsPieceFault (feed_mode self.old) (feed_root self.old) (feed_text self.old ++ bytes.now)) }
        ensures same { OnErr result (IsFeed self.new (feed_mode self.old) (feed_root self.old) (feed_text self.old)) }
    {
        let had = self.text.len();
        let Ok(()) = self.text.extend_from_slice(bytes) else {
            return Err(CheckFault::Memory);
        };
        match verify(&self.mode, &self.root, self.text.as_slice(), self.verified) {
            Ok(verified) => {
                self.verified = verified;
                Ok(())
            }
            Err(fault) => {
                self.text.truncate(had);
                Err(fault)
            }
        }
    }

    /// Returns what `check_outboard` returns for the bytes so far, without hashing them again.
    ///
    /// Refuses with 501 `Short` if they end too soon; they can have no other fault.
    pub fn outline(&self) -> Result<Outline<'_>, CheckFault>
        ensures accepted { IsOk result ↔ IsAccepted (feed_mode self.now) (feed_root self.now) (feed_text self.now) (outboard_nodes (feed_text self.now)) }
        ensures outline { IfOk result (λ outline. IsOutline outline (feed_mode self.now) (feed_root self.now) (feed_text self.now)) }
        ensures fault { IfErr result (λ fault. IsFirstFault (feed_mode self.now) (feed_root self.now) (feed_text self.now) (outboard_nodes (feed_text self.now)) fault) }
        ensures short { IfErr result (λ fault. (at : ℕ) × (fault ≡ Short at)) }
    {
        let text = self.text.as_slice();
        if text.len() < LENGTH_LEN {
            return Err(CheckFault::Short { at: 0 });
        }
        if (self.verified as u64) < chunk_count(claimed(text)) - 1 {
            return Err(CheckFault::Short {
                at: (LENGTH_LEN + PARENT_LEN * self.verified) as u64,
            });
        }
        Ok(Outline::new(&self.mode, &self.root, text))
    }

    /// Returns the bytes so far.
    pub fn into_text(self) -> Vec<u8>
        ensures { result.items ≡ feed_text self }
    {
        self.text
    }
}
