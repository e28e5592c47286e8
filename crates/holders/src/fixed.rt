ghost use Rattle.std.specs.Prelude.{◌≡◌, ◌↔◌, ◌≤◌, ◌^◌, IsTrue};
ghost use Rattle.holders.specs.Room.{has_room};
ghost use Rattle.holders.specs.Room.{groups};

use b3tree::{CHUNK_LEN, Hash, Mode};
use bao_check::GROUP_LEN;

/// What never changes in a store: its blob's root and mode, its capacity in chunks, and the chunk of the blob
/// that it begins with.
#[derive(Clone, Copy, Debug, PartialEq, Eq)]
pub struct Fixed {
    pub root: Hash,
    pub mode: Mode,
    /// The capacity in chunks: 1 to 65,536 in any store.
    pub capacity: u32,
    /// The index in the blob of the store's chunk 0; 0 if the store is of a whole blob.
    ///
    /// Chunks, groups, masks and offsets in the store's calls are counted from there. The range of a slice is
    /// counted from the blob's first chunk.
    pub base: u64,
}

impl Fixed {
    /// Returns how many groups of 64 chunks there are; the last may have fewer.
    pub fn groups(&self) -> u32
        ensures count { result ≡ groups self.now }
        ensures few { result ≤ 2 ^ 26 }
    {
        self.capacity.div_ceil(GROUP_LEN as u32)
    }

    /// Returns whether a blob of `length` bytes fits, from its first chunk on.
    pub fn has_room(&self, length: u64) -> bool
        ensures { result ≡ has_room self.now length }
    {
        self.base == 0 && length <= CHUNK_LEN as u64 * u64::from(self.capacity)
    }

    /// Returns whether these are the store's root and mode.
    pub fn is_of(&self, root: &Hash, mode: &Mode) -> bool
        ensures { IsTrue result ↔ ((root.now ≡ self.now.root) × (mode.now ≡ self.now.mode)) }
    {
        *root == self.root && *mode == self.mode
    }
}
