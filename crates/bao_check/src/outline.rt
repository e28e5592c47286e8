ghost use Rattle.std.specs.Prelude.{◌≡◌, ℕ, ◌≤◌, ◌<◌, ◌↔◌, List, IfSome, IsSome};
ghost use Rattle.b3tree.specs.Valid.{AreBytes};
ghost use Rattle.bao_text.specs.Choice.{chunk_count};
ghost use Rattle.bao_check.specs.Accepted.{IsAccepted, outboard_nodes, places_of};
ghost use Rattle.bao_check.specs.AcceptedProp.{IsAccepted-prop};
ghost use Rattle.bao_check.specs.Pieces.{IsLeafValue};

use crate::leaves::leaf_below;
use b3tree::{CHUNK_LEN, Cv, Hash, Mode, bytes_are};
use bao_text::{LENGTH_LEN, claimed};

/// An outline: an encoding that was accepted as an outboard encoding under a root.
///
/// The type is the evidence of acceptance, so its holder needs no further premise. It borrows the bytes. Its
/// calls don't allocate, and cost at most the height of the tree.
#[derive(Clone, Copy, Debug)]
pub struct Outline<'a> {
    mode: Mode,
    root: Hash,
    pub(crate) text: &'a [u8],
    ghost accepted: { IsAccepted mode root.0 text.now (outboard_nodes text.now) } by { IsAccepted-prop mode root.0 text.now (outboard_nodes text.now) },
}

impl<'a> Outline<'a> {
    ghost use Rattle.bao_check.specs.Outline.{IsOutline, outline_claimed, outline_mode, outline_root, outline_text};

    /// Returns the outline for an outboard encoding that is known to be accepted.
    pub fn new(mode: &Mode, root: &Hash, text: &'a [u8]) -> Outline<'a>
        requires { IsAccepted mode.now root.now.0 text.now (outboard_nodes text.now) }
        ensures { IsOutline result mode.now root.now.0 text.now }
    {
        Outline {
            mode: *mode,
            root: *root,
            text,
        }
    }

    // The elements of its encoding are bytes: a law. Nothing runs.
    pub(crate) fn is_of_bytes(&self)
        ensures { AreBytes (outline_text self.now) }
    {
        bytes_are(self.text);
    }

    /// Returns the root under which the encoding was accepted.
    pub fn root(&self) -> Hash
        ensures { result.0 ≡ outline_root self.now }
    {
        self.root
    }

    /// Returns the mode in which it was accepted.
    pub fn mode(&self) -> Mode
        ensures { result ≡ outline_mode self.now }
    {
        self.mode
    }

    /// Returns the blob's length in bytes that the encoding claims. Only the last chunk can certify it, and no
    /// outboard encoding has one.
    pub fn claimed(&self) -> u64
        ensures { result ≡ outline_claimed self.now }
    {
        claimed(self.text)
    }

    /// Returns the chaining value of chunk `i`: the half of a parent that stands for it.
    ///
    /// `None` exactly if the claimed length has at most one chunk, whose only value is the root, or no chunk
    /// `i`.
    pub fn leaf(&self, i: u64) -> Option<Cv>
        ensures there { IsSome result ↔ ((1 < chunk_count (outline_claimed self.now)) × (i < chunk_count (outline_claimed self.now))) }
        ensures value { IfSome result (λ v. IsLeafValue (outline_text self.now) (places_of (outboard_nodes (outline_text self.now))) i v.0) }

        // It is the only one that the encoding has for that chunk.
        ensures only { IfSome result (λ v. (w : List ℕ) → IsLeafValue (outline_text self.now) (places_of (outboard_nodes (outline_text self.now))) i w → w ≡ v.0) }
    {
        let total = self.claimed();
        if total <= CHUNK_LEN as u64 || i > (total - 1) / CHUNK_LEN as u64 {
            return None;
        }
        Some(leaf_below(self.text, i, 0, total, LENGTH_LEN))
    }
}
