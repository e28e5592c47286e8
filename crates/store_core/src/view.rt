use crate::history::Event;
use holders::Fixed;
use std::collections::LinkedList;

/// A name of a seat, and how many seats were split off from it.
#[derive(Drop)]
pub struct Named {
    pub name: LinkedList<u64>,
    pub splits: u64,
}

/// A stored word of a chunk's cell: word w of chunk c has the number 129 * c + w.
#[derive(Clone, Copy, Debug)]
pub struct StoredWord {
    pub number: u64,
    pub value: u64,
}

/// Boundaries of a group as a mask: bit j stands for boundary 64 * group + j.
#[derive(Clone, Copy, Debug)]
pub struct Boundaries {
    pub group: u64,
    pub mask: u64,
}

/// What a seat of a store knows. Only contracts refer to it.
///
/// It has the seat's names in dictionary order, the history that the seat has seen, the cell words that it
/// stored for chunks that it claims (the newest first), the boundaries whose parents it is storing, and the
/// words that it stored for these: word w of the parent at boundary m has the number 8 * m + w.
#[derive(Drop)]
pub struct SeatView {
    pub fixed: Fixed,
    pub names: LinkedList<Named>,
    pub seen: LinkedList<Event>,
    pub written: LinkedList<StoredWord>,
    pub storing: LinkedList<Boundaries>,
    pub parent_words: LinkedList<StoredWord>,
}
