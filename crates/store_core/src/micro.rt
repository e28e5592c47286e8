ghost use Rattle.std.specs.Prelude.{◌≡◌, ℕ, List};

use crate::history::Settling;
use std::marker::Model;

/// A step of a schedule: a whole call of a seat, or one of the steps that make up a commit or a read. In a mask
/// of a group's chunks, bit j stands for chunk 64 * group + j.
#[derive(Clone, Copy, Debug)]
pub enum MicroStep {
    /// Claims the wanted chunks of a group.
    Claim { seat: u32, group: u32, want: u64 },
    /// Makes the accepted slice with this index in the list the seat's current one.
    Hash { seat: u32, piece: usize },
    /// Writes a word of a chunk's cell from the seat's current slice: word 0 is the size, words 1 to 128 the
    /// data.
    Write { seat: u32, chunk: u32, word: u8 },
    /// Commits the chunks of a group that the seat claims and its current slice has.
    Publish { seat: u32, group: u32 },
    /// Gives up claims of a group.
    GiveBack { seat: u32, group: u32, mask: u64 },
    /// Loads the held word of one group for a read of `len` bytes from offset `at` on, and copies bytes of that
    /// group.
    Load { seat: u32, at: u64, len: u32 },
    /// Settles the length by the seat's current slice.
    Settle { seat: u32 },
    /// Asks for the recorded length.
    Length { seat: u32 },
}

/// Bytes returned by a read. Contracts refer to them as a list.
#[derive(Drop)]
pub struct ReadBytes {
    bytes: Vec<u8>,
}

impl Model for ReadBytes {
    ghost Value = { List ℕ };

    ghost view = { λ r. r.bytes.items };
}

impl ReadBytes {
    // These bytes, as a read gave them.
    pub(crate) fn new(bytes: Vec<u8>) -> ReadBytes
        ensures { result ≡ bytes.items }
    {
        ReadBytes { bytes }
    }

    /// Returns the bytes.
    pub fn as_slice(&self) -> &[u8]
        ensures { result.now ≡ self.now }
    {
        self.bytes.as_slice()
    }
}

/// The result of a step of a schedule; some steps have none.
#[derive(Drop)]
pub enum Reply {
    /// The mask of the chunks granted to a `Claim`.
    Granted(u64),
    /// The mask of the chunks that a `Publish` stored.
    Committed(u64),
    /// The mask of the claims that a `GiveBack` ended.
    Given(u64),
    /// All bytes of a read.
    Bytes(ReadBytes),
    /// The least offset of a read that isn't held.
    NotHeld(u64),
    /// The result of a `Settle`.
    Settling(Settling),
    /// The recorded length, if there is one.
    LengthIs(Option<u64>),
}
