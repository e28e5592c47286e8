ghost use Rattle.std.specs.Prelude.{◌≡◌, ◌+◌, ◌*◌, ◌/◌, ◌%◌, ◌^◌, ◌<◌, ◌≤◌, ◌++◌, length, take, drop, true};
ghost use Rattle.store_core.specs.Histories.{state_after};
ghost use Rattle.store_core.specs.States.{is_held};
ghost use Rattle.store_shared.specs.Filled.{IsBufferFilled, StopsFilling, held_size};
ghost use Rattle.store_steps.specs.Words.{IsGripOf};

use crate::cell::WORD_LEN;
use b3tree::CHUNK_LEN;
use store_core::put_bytes;
use store_steps::{ChunkKind, Grip, Words};

// Copies `count` bytes of one word of a held chunk, or none: from the position of the buffer's index `from` on.
fn copy_part(words: &Words, grip: &mut Grip, at: u64, out: &mut [u8], from: usize, count: usize)
    requires of { IsGripOf words.now grip.old }
    requires place { at + from ≤ 2 ^ 26 }
    requires word { (at + from) % 8 + count ≤ 8 }
    requires held { (at + from) % 1024 + count ≤ held_size (state_after grip.old.view.seen) ((at + from) / 1024) }
    requires room { from + count ≤ length out.old }
    ensures same { grip.new ≡ grip.old }
    ensures filled { IsBufferFilled (state_after grip.old.view.seen) at from (from + count) out.old out.new }
{
    if count == 0 {
        return;
    }
    let position = at as usize + from;
    let chunk = (position / CHUNK_LEN) as u32;
    let word = (position % CHUNK_LEN / WORD_LEN + 1) as u8;
    let bytes = words.copy::<ChunkKind>(grip, chunk, word).to_le_bytes();
    let skip = position % WORD_LEN;
    put_bytes(out, from, &bytes[skip..skip + count]);
}

// Copies `count` whole words of a held chunk: from the position of the buffer's index `from` on.
fn copy_words(words: &Words, grip: &mut Grip, at: u64, out: &mut [u8], from: usize, count: usize)
    requires of { IsGripOf words.now grip.old }
    requires place { at + from ≤ 2 ^ 26 }
    requires word { 0 < count → (at + from) % 8 ≡ 0 }
    requires held { (at + from) % 1024 + 8 * count ≤ held_size (state_after grip.old.view.seen) ((at + from) / 1024) }
    requires room { from + 8 * count ≤ length out.old }
    ensures same { grip.new ≡ grip.old }
    ensures filled { IsBufferFilled (state_after grip.old.view.seen) at from (from + 8 * count) out.old out.new }
{
    let position = at as usize + from;
    let chunk = (position / CHUNK_LEN) as u32;
    let first = position % CHUNK_LEN / WORD_LEN + 1;
    'words: for i in 0..count {
        let bytes = words
            .copy::<ChunkKind>(grip, chunk, (first + i) as u8)
            .to_le_bytes();
        put_bytes(out, from + WORD_LEN * i, &bytes);
    }
}

// Copies what the chunk of the position of the buffer's index `from` has from there on, as far as the buffer goes, and
// answers how much of the buffer is then filled.
pub(crate) fn copy_chunk(
    words: &Words,
    grip: &mut Grip,
    at: u64,
    out: &mut [u8],
    from: usize,
) -> usize
    requires of { IsGripOf words.now grip.old }
    requires place { at + from < 2 ^ 26 }
    requires held { is_held (state_after grip.old.view.seen) ((at + from) / 1024) ≡ true }
    requires room { from ≤ length out.old }
    ensures same { grip.new ≡ grip.old }
    ensures filled { IsBufferFilled (state_after grip.old.view.seen) at from result out.old out.new }
    ensures stops { StopsFilling (state_after grip.old.view.seen) (at + result) (1024 * ((at + from) / 1024 + 1)) result (length out.old) }
{
    let position = at as usize + from;
    let chunk = (position / CHUNK_LEN) as u32;
    let within = position % CHUNK_LEN;
    let size = words.copy::<ChunkKind>(grip, chunk, 0) as usize;
    if size <= within {
        return from;
    }
    let count = (size - within).min(out.len() - from);
    let lead = ((WORD_LEN - within % WORD_LEN) % WORD_LEN).min(count);
    let whole = (count - lead) / WORD_LEN;
    let last = (count - lead) % WORD_LEN;
    copy_part(words, grip, at, out, from, lead);
    copy_words(words, grip, at, out, from + lead, whole);
    let rest = from + lead + WORD_LEN * whole;
    copy_part(words, grip, at, out, rest, last);
    from + count
}
