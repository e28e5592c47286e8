ghost use Rattle.std.specs.Prelude.{◌≡◌, ◌<◌, ◌≤◌, ◌^◌, IfSome};
ghost use Rattle.std.specs.Option.{option_copied};
ghost use Rattle.holders.specs.Pieces.{piece_of};
ghost use Rattle.store_shared.specs.StoredCells.{AreOwnItems, Fits, HasWords, HaveWords};
ghost use Rattle.store_steps.specs.Kinds.{Owns, bytes_in, width, word_of};
ghost use Rattle.store_steps.specs.Words.{CoversGroup, IsGripOf, fixed_of};

use crate::cell::{WORD_LEN, cell_word, whole_word};
use bao_check::Checked;
use store_core::{GROUP_LEN, has_bit};
use store_steps::{ChunkKind, Grip, Item, ParentKind, Words};

// A kind of items that a piece has.
pub(crate) trait PieceItem: Item {
    // A word of an item with these bytes.
    fn word(bytes: &[u8], word: u8) -> u64
        requires fits { Fits Self.kind bytes.now }
        requires word { word < width Self.kind }
        ensures { result ≡ word_of Self.kind bytes.now word };

    // The bytes that a piece has for an item of a store from chunk `base` of the blob on.
    fn bytes_in<'a>(piece: &Checked<'a>, base: u64, item: u64) -> Option<&'a [u8]>
        requires base { base ≤ 2 ^ 54 }
        requires item { item < 2 ^ 32 }
        ensures value { option_copied result ≡ bytes_in Self.kind (piece_of base piece.now) item }
        ensures fits { IfSome result (λ bytes. Fits Self.kind bytes.now) };
}

impl PieceItem for ChunkKind {
    #[inline(always)]
    fn word(bytes: &[u8], word: u8) -> u64 {
        cell_word(bytes, word)
    }

    fn bytes_in<'a>(piece: &Checked<'a>, base: u64, item: u64) -> Option<&'a [u8]> {
        piece.chunk(base + item)
    }
}

impl PieceItem for ParentKind {
    #[inline(always)]
    fn word(bytes: &[u8], word: u8) -> u64 {
        whole_word(bytes, WORD_LEN * usize::from(word))
    }

    fn bytes_in<'a>(piece: &Checked<'a>, base: u64, item: u64) -> Option<&'a [u8]> {
        // So that the contract can speak of it.
        let _ = base;
        piece.parent(item)
    }
}

// Stores the words of an item that the grip may store, with these bytes.
fn store_words<K: PieceItem>(words: &Words, grip: &mut Grip, item: u32, bytes: &[u8])
    requires of { IsGripOf words.now grip.old }
    requires own { Owns K.kind grip.old.view item }
    requires fits { Fits K.kind bytes.now }
    ensures of { IsGripOf words.now grip.new }
    ensures stored { HasWords K.kind item bytes.now (width K.kind) grip.old.view grip.new.view }
{
    for word in 0..K::width() {
        words.store::<K>(grip, item, word, K::word(bytes, word));
    }
}

// Stores the words of the group's items of the mask, which the grip may store and the piece has.
pub(crate) fn store_items<K: PieceItem>(
    words: &Words,
    grip: &mut Grip,
    group: u32,
    piece: &Checked<'_>,
    mask: u64,
)
    requires of { IsGripOf words.now grip.old }
    requires group { CoversGroup words.now group }
    requires own { AreOwnItems K.kind grip.old.view group mask (piece_of (fixed_of words.now).base piece.now) }
    ensures of { IsGripOf words.now grip.new }
    ensures stored { HaveWords K.kind group mask (piece_of (fixed_of words.now).base piece.now) 64 grip.old.view grip.new.view }
{
    let base = words.base();
    let start = GROUP_LEN as u64 * u64::from(group);
    for j in 0..GROUP_LEN {
        if has_bit(mask, j) {
            let item = start + j as u64;
            let bytes = K::bytes_in(piece, base, item).unwrap();
            store_words::<K>(words, grip, item as u32, bytes);
        }
    }
}
