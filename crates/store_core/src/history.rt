use bao_text::Node;
use holders::Piece;
use std::collections::LinkedList;

// The types of histories. Contracts and views speak of their values; no program makes one.

/// The result of settling the length. Only the first three are results of an event.
#[derive(Clone, Copy, Debug, PartialEq, Eq)]
pub enum Settling {
    /// None was recorded: the length is recorded now.
    Settled,
    /// The same length was recorded.
    Known,
    /// Another length was recorded, and stays.
    Differs,
    /// The accepted slice has another root or mode: there is no event. Number 804.
    OtherRoot,
    /// The length is above the store's capacity: there is no event. Number 805.
    TooLarge,
}

/// The result of storing the parents of an accepted slice.
#[derive(Clone, Copy, Debug, PartialEq, Eq)]
pub enum Storing {
    /// The slice claims another length than the recorded one, or none is recorded.
    OtherLength,
    /// The mask of the boundaries whose parents were stored: bit j stands for boundary 64 * group + j.
    Stored(u64),
}

/// The result of serving a slice.
#[derive(Drop)]
pub enum Serving {
    /// No length is recorded.
    NoLength,
    /// This node, the first of the slice that is missing, isn't held.
    Lacking(Node),
    /// The slice's encoding.
    Text(LinkedList<u8>),
}

/// A call of a store, and its reply as the last field. In a mask of a group's chunks, bit j stands for chunk 64
/// * group + j.
#[derive(Drop)]
pub enum Call {
    /// Claims chunks: the mask wanted, and the mask granted.
    Take {
        group: u32,
        want: u64,
        granted: u64,
    },
    /// Ends claims: the mask given up, and the mask of those that were the caller's.
    Give {
        group: u32,
        mask: u64,
        given: u64,
    },
    /// Stores chunks of an accepted slice: the mask of those that the caller had claimed and the slice has.
    Commit {
        group: u32,
        piece: Piece,
        committed: u64,
    },
    /// Settles the length by an accepted slice that has the last chunk.
    Settle {
        piece: Piece,
        answer: Settling,
    },
    /// Reads `len` bytes from offset `at` on, or those before the first that isn't held.
    Read {
        at: u64,
        len: u64,
        bytes: LinkedList<u8>,
    },
    /// Returns the recorded length, if there is one.
    Length {
        recorded: Option<u64>,
    },
    /// Stores parents of an accepted slice: some or all of those at the group's boundaries that aren't held.
    Parents {
        group: u32,
        piece: Piece,
        answer: Storing,
    },
    /// Returns the encoding of the slice (`start`, `len`), assembled from the length and the nodes held.
    Serve {
        start: u64,
        len: u64,
        answer: Serving,
    },
}

/// A call and its caller: a set of names in dictionary order. A name is a list of numbers.
#[derive(Drop)]
pub struct Event {
    pub who: LinkedList<LinkedList<u64>>,
    pub call: Call,
}
