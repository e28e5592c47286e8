ghost use Rattle.std.specs.Prelude.{◌≡◌, ◌⊎◌, ℕ, ◌+◌, ◌-◌, ◌*◌, List, length, Some};
ghost use Rattle.b3tree.specs.Hashing.{hash};
ghost use Rattle.b3tree.specs.Valid.{AreBytes};
ghost use Rattle.bao_text.specs.Choice.{chunk_count};
ghost use Rattle.bao_check.specs.Checked.{HasLastCertificate, HoldsLast, HoldsLast-prop, piece_claimed, piece_mode, piece_nodes, piece_places, piece_root, piece_text};
ghost use Rattle.bao_check.specs.Accepted.{IsAccepted};
ghost use Rattle.bao_check.specs.Inputs.{NamesCollision};
ghost use Rattle.bao_check.specs.Pieces.{chunk_in};

use crate::checked::Checked;
use b3tree::{Hash, Mode};
use bao_text::chunk_count;

/// An accepted slice that has the last chunk of its claimed length, so that the length is certified. It borrows
/// the slice's encoding.
#[derive(Clone, Copy, Debug)]
pub struct Tail<'a> {
    pub(crate) piece: Checked<'a>,
    ghost last: { HoldsLast piece } by { HoldsLast-prop piece },
}

impl<'a> Tail<'a> {
    ghost use Rattle.bao_check.specs.Tail.{tail_piece};

    /// Lemma: the encoding consists of bytes, is accepted under the slice's root in its mode, and has the last
    /// chunk of its claimed length. No effect at run time.
    pub fn is_last(&self)
        ensures bytes { AreBytes (piece_text (tail_piece self.now)) }
        ensures accepted { IsAccepted (piece_mode (tail_piece self.now)) (piece_root (tail_piece self.now)) (piece_text (tail_piece self.now)) (piece_nodes (tail_piece self.now)) }
        ensures last { HoldsLast (tail_piece self.now) }
    {
        self.piece.is_accepted();
    }

    /// Returns the root under which the slice was accepted.
    pub fn root(&self) -> Hash
        ensures { result.0 ≡ piece_root (tail_piece self.now) }
    {
        self.piece.root()
    }

    /// Returns the mode in which it was accepted.
    pub fn mode(&self) -> Mode
        ensures { result ≡ piece_mode (tail_piece self.now) }
    {
        self.piece.mode()
    }

    /// Returns the blob's length in bytes: 1,024 times the index of the last chunk, and that chunk's length.
    ///
    /// The root, the slice's parents above that chunk and its bytes are a certificate of the last chunk: the
    /// path to it goes right at each parent. For every blob with the root it is the blob's length; or the
    /// contract exhibits a collision, one input from the blob and one from the encoding.
    pub fn length(&self) -> u64
        ensures value { result ≡ piece_claimed (tail_piece self.now) }
        ensures ends { (bytes : List ℕ) → chunk_in (piece_text (tail_piece self.now)) (piece_places (tail_piece self.now)) (chunk_count result - 1) ≡ Some bytes
            → 1024 * (chunk_count result - 1) + length bytes ≡ result }
        ensures certificate { HasLastCertificate (tail_piece self.now) result }
        ensures binds { (blob : List ℕ) → AreBytes blob → hash (piece_mode (tail_piece self.now)) blob ≡ piece_root (tail_piece self.now)
            → (result ≡ length blob) ⊎ NamesCollision (piece_mode (tail_piece self.now)) blob (piece_text (tail_piece self.now)) (piece_places (tail_piece self.now)) }
    {
        // A law, so that the proof has what it says: nothing runs.
        self.is_last();
        let length = self.piece.claimed();
        // So that the proof has the certificate of the last chunk.
        let _last = self.piece.chunk(chunk_count(length) - 1);
        length
    }
}
