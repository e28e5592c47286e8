ghost use Rattle.std.specs.Prelude.{◌≡◌, ℕ, List, ◌≤◌, ◌<◌, ◌+◌, ◌↔◌, length, map, IfSome, IsSome};
ghost use Rattle.std.specs.Option.{option_copied};
ghost use Rattle.bao_text.specs.Choice.{of_slice};
ghost use Rattle.b3tree.specs.Hashing.{hash};
ghost use Rattle.b3tree.specs.Valid.{AreBytes};
ghost use Rattle.bao_check.specs.Laws.{BindsChunk};
ghost use Rattle.bao_check.specs.Pieces.{chunk_in};
ghost use Rattle.bao_check.specs.Spans.{chunk_place};
ghost use Rattle.bao_check.specs.Accepted.{IsAccepted, slice_nodes};
ghost use Rattle.bao_check.specs.AcceptedProp.{IsAccepted-prop};
ghost use Rattle.bao_check.specs.Bodies.{IsOfWhole, IsOfWhole-prop, text_of};

use crate::bare::bare_chunk;
use crate::locate::{LENGTH_LEN, Span, bytes_from, find_chunk, nodes_size};
use crate::outline::Outline;
use crate::tail::Tail;
use b3tree::{CHUNK_LEN, Hash, Mode, bytes_are};
use bao_text::{Choice, Nodes, chunk_count, claimed};

/// Where the nodes of an accepted slice are read from.
#[derive(Clone, Copy, Debug)]
pub(crate) enum Body<'a> {
    /// Its complete encoding.
    Text(&'a [u8]),
    /// An outline, and the chunks beside it.
    Beside {
        outline: &'a Outline<'a>,
        chunks: &'a [u8],
    },
}

/// An accepted slice: an encoding that was accepted as a slice under a root, or chunks accepted beside an
/// outline.
///
/// The type is the evidence of acceptance, so its holder needs no further premise. It borrows the bytes. Its
/// calls don't allocate, and cost at most the height of the tree.
#[derive(Clone, Copy, Debug)]
pub struct Checked<'a> {
    mode: Mode,
    root: Hash,
    start: u64,
    len: u64,
    pub(crate) body: Body<'a>,
    ghost accepted: { IsAccepted mode root.0 (text_of body start len) (slice_nodes (text_of body start len) start len) } by { IsAccepted-prop mode root.0 (text_of body start len) (slice_nodes (text_of body start len) start len) },
    ghost whole: { IsOfWhole body start len } by { IsOfWhole-prop body start len },
}

impl<'a> Checked<'a> {
    ghost use Rattle.bao_check.specs.Checked.{HasCertificate, HasLastCertificate, IsPiece, piece_claimed, piece_len, piece_mode, piece_nodes, piece_places, piece_root, piece_start, piece_text, HoldsLast};
    ghost use Rattle.bao_check.specs.Beside.{IsOfChunks, beside_text};
    ghost use Rattle.bao_check.specs.Outline.{outline_claimed, outline_text};
    ghost use Rattle.bao_check.specs.Tail.{tail_piece};
    ghost use Rattle.bao_text.specs.NodeNames.{name};
    ghost use Rattle.bao_text.specs.Rest.{rest_of};

    /// Returns the accepted slice for an encoding that is known to be accepted.
    pub fn new(mode: &Mode, root: &Hash, start: u64, len: u64, text: &'a [u8]) -> Checked<'a>
        requires { IsAccepted mode.now root.now.0 text.now (slice_nodes text.now start len) }
        ensures { IsPiece result mode.now root.now.0 start len text.now }
    {
        Checked {
            mode: *mode,
            root: *root,
            start,
            len,
            body: Body::Text(text),
        }
    }

    // The piece that chunks beside an outline are.
    pub(crate) fn beside(
        mode: &Mode,
        root: &Hash,
        start: u64,
        len: u64,
        outline: &'a Outline<'a>,
        chunks: &'a [u8],
    ) -> Checked<'a>
        requires whole { IsOfChunks (outline_claimed outline.now) start len }
        requires accepted { IsAccepted mode.now root.now.0 (beside_text (outline_text outline.now) start len chunks.now) (slice_nodes (beside_text (outline_text outline.now) start len chunks.now) start len) }
        ensures { IsPiece result mode.now root.now.0 start len (beside_text (outline_text outline.now) start len chunks.now) }
    {
        Checked {
            mode: *mode,
            root: *root,
            start,
            len,
            body: Body::Beside { outline, chunks },
        }
    }

    /// Returns the root under which the slice was accepted.
    pub fn root(&self) -> Hash
        ensures { result.0 ≡ piece_root self.now }
    {
        self.root
    }

    /// Returns the mode in which it was accepted.
    pub fn mode(&self) -> Mode
        ensures { result ≡ piece_mode self.now }
    {
        self.mode
    }

    /// Returns the blob's length in bytes that the encoding claims. Only the last chunk certifies it: see
    /// `tail`.
    pub fn claimed(&self) -> u64
        ensures { result ≡ piece_claimed self.now }
    {
        match self.body {
            Body::Text(text) => claimed(text),
            Body::Beside { outline, .. } => outline.claimed(),
        }
    }

    /// Returns the length of the accepted encoding in bytes: 8 for the blob's length, and those of its nodes.
    pub fn text_len(&self) -> u128
        ensures { result ≡ length (piece_text self.now) }
    {
        LENGTH_LEN + nodes_size(&self.choice(), 0, self.claimed())
    }

    // The elements of its encoding are bytes: a law. Nothing runs.
    fn is_of_bytes(&self)
        ensures { AreBytes (piece_text self.now) }
    {
        match self.body {
            Body::Text(text) => bytes_are(text),
            Body::Beside { outline, chunks } => {
                outline.is_of_bytes();
                bytes_are(chunks);
            }
        }
    }

    /// Lemma: the encoding consists of bytes and is accepted under the slice's root in its mode. No effect at
    /// run time.
    pub fn is_accepted(&self)
        ensures bytes { AreBytes (piece_text self.now) }
        ensures accepted { IsAccepted (piece_mode self.now) (piece_root self.now) (piece_text self.now) (piece_nodes self.now) }
    {
        self.is_of_bytes();
    }

    // The part of the blob that the encoding is of.
    pub(crate) fn choice(&self) -> Choice
        ensures { result ≡ of_slice (piece_claimed self.now) (piece_start self.now) (piece_len self.now) }
    {
        Choice::of_slice(self.claimed(), self.start, self.len)
    }

    /// Returns the index of the first chunk that the slice has, and the index after its last: it has all of
    /// these, at least one.
    #[tactic(auto, using(crate::proofs::Presence::chunks_present))]
    pub fn chunks(&self) -> (u64, u64)
        ensures some { result.0 < result.1 }
        ensures spans { (i : ℕ) → IsSome (chunk_in (piece_text self.now) (piece_places self.now) i) ↔ ((result.0 ≤ i) × (i < result.1)) }
    {
        let choice = self.choice();
        let chunk_len = CHUNK_LEN as u64;
        (choice.start() / chunk_len, choice.end().div_ceil(chunk_len))
    }

    /// Returns the nodes of its encoding in order: chunks by their index, and parents by the first chunk of
    /// their right child.
    pub fn nodes(&self) -> Nodes
        ensures { rest_of result ≡ map name (piece_nodes self.now) }
    {
        bao_text::nodes(self.claimed(), self.start, self.len)
    }

    // Where the encoding has chunk `i`.
    fn span(&self, i: u64) -> Option<Span>
        ensures value { result ≡ chunk_place (piece_places self.now) i }
        ensures within { IfSome result (λ span. span.at + span.len ≤ length (piece_text self.now)) }
    {
        find_chunk(&self.choice(), 0, self.claimed(), LENGTH_LEN, i)
    }

    // The bytes of chunk `i`, where they stand.
    #[tactic(auto, using(crate::proofs::BesidePieces::chunks_read))]
    fn bytes(&self, i: u64) -> Option<&'a [u8]>
        ensures { option_copied result ≡ chunk_in (piece_text self.now) (piece_places self.now) i }
    {
        match self.span(i) {
            Some(span) => match self.body {
                Body::Text(text) => Some(bytes_from(text, span.at, span.len)),
                Body::Beside { chunks, .. } => {
                    Some(bare_chunk(chunks, self.start / CHUNK_LEN as u64, i, span.len))
                }
            },
            None => None,
        }
    }

    /// Returns the bytes of chunk `i`, at most 1,024, borrowed from the slice; `None` exactly if the slice
    /// doesn't have it.
    ///
    /// The root, the slice's parents above the chunk and these bytes are a certificate. For every blob with the
    /// root they are the blob's chunk `i`; or the contract exhibits a collision, one input from the blob and
    /// one from the encoding.
    pub fn chunk(&self, i: u64) -> Option<&'a [u8]>
        ensures value { option_copied result ≡ chunk_in (piece_text self.now) (piece_places self.now) i }
        ensures certificate { IfSome result (λ bytes. HasCertificate self.now i bytes.now) }
        ensures binds { (blob : List ℕ) → AreBytes blob → hash (piece_mode self.now) blob ≡ piece_root self.now
            → IfSome result (λ bytes. BindsChunk (piece_mode self.now) (piece_text self.now) (piece_start self.now) (piece_len self.now) blob i bytes.now) }
    {
        // Laws, so that the proof has what they say: nothing runs.
        self.mode.is_keyed();
        self.is_of_bytes();
        self.bytes(i)
    }

    /// Returns the slice as a tail exactly if it has the last chunk of its claimed length, which is then
    /// certified: the path to the last chunk goes right at each parent.
    pub fn tail(&self) -> Option<Tail<'a>>
        ensures there { IsSome result ↔ HoldsLast self.now }
        ensures piece { IfSome result (λ tail. tail_piece tail ≡ self.now) }
        ensures certificate { IfSome result (λ _. HasLastCertificate self.now (piece_claimed self.now)) }
    {
        let last = chunk_count(self.claimed()) - 1;
        let (first, after) = self.chunks();
        if first <= last && last < after {
            // A law, so that the proof has what it says: nothing runs.
            self.is_of_bytes();
            Some(Tail { piece: *self })
        } else {
            None
        }
    }
}
