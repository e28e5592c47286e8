use std::collections::LinkedList;

/// An encoding and the slice (`start`, `len`) as which it is accepted under a store's root in its mode, with
/// the index in the blob of the store's chunk 0.
#[derive(Drop)]
pub struct Piece {
    pub base: u64,
    pub start: u64,
    pub len: u64,
    pub text: LinkedList<u8>,
}
