ghost use Rattle.std.specs.Prelude.{◌≡◌, ◌+◌, ◌*◌, ◌<◌, ◌≤◌, ◌^◌};
ghost use Rattle.holders.specs.Room.{groups};
ghost use Rattle.store_steps.specs.Kinds.{width, word_place};
ghost use Rattle.store_steps.specs.Layout.{word_count};

use crate::places::{groups, length_place};
use store_core::{CELL_WORDS, Fixed, PARENT_WORDS};

/// A kind of item that is stored word by word.
pub trait Item {
    ghost use Rattle.store_steps.specs.Kinds.{Kind};

    ghost kind: { Kind };

    /// Returns how many words an item has.
    fn width() -> u8
        ensures { result ≡ width kind };

    /// Returns the index of a word of an item in a store whose chunks' cells begin at index `cells`.
    fn place(fixed: &Fixed, cells: usize, item: u32, word: u8) -> usize
        requires cells { cells ≡ 2 * groups fixed.now }
        requires small { cells ≤ 2 ^ 27 }
        requires item { item < fixed.now.capacity }
        requires word { word < width kind }
        ensures place { result ≡ word_place kind fixed.now (width kind * item + word) }
        ensures within { result < word_count fixed.now };
}

/// Chunks: each has a cell of 129 words, its size in bytes and its data.
pub struct ChunkKind;

impl Item for ChunkKind {
    ghost use Rattle.store_steps.specs.Kinds.{chunk_kind};

    ghost kind = { chunk_kind };

    #[inline(always)]
    fn width() -> u8 {
        CELL_WORDS
    }

    #[inline(always)]
    fn place(fixed: &Fixed, cells: usize, item: u32, word: u8) -> usize {
        // So that the contract can speak of it.
        let _ = fixed;
        cells + CELL_WORDS as usize * item as usize + word as usize
    }
}

/// Boundaries: each has the 8 words of its parent.
pub struct ParentKind;

impl Item for ParentKind {
    ghost use Rattle.store_steps.specs.Kinds.{parent_kind};

    ghost kind = { parent_kind };

    #[inline(always)]
    fn width() -> u8 {
        PARENT_WORDS
    }

    fn place(fixed: &Fixed, cells: usize, item: u32, word: u8) -> usize {
        length_place(fixed) + 1 + cells + PARENT_WORDS as usize * item as usize + word as usize
    }
}
