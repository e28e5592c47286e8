ghost use Rattle.std.specs.Prelude.{◌≡◌, ◌+◌, ◌-◌, ◌*◌, ◌<◌, ◌≤◌, ℕ, Bool, length, take};
ghost use Rattle.b3word.specs.Compression.{cv};
ghost use Rattle.b3tree.specs.Chunk.{block_count, chunk_input, last_chunk_input};
ghost use Rattle.bao_check.specs.Inputs.{marked, whole_chunk};
ghost use Rattle.bao_bind.specs.Search.{Finds};

use crate::chunk_run::ChunkRun;
use crate::pair::{Pair, are_same, marked};
use b3tree::{BLOCK_LEN, Mode, bytes_are, chunk_input};

// The number of a chunk's last block.
fn last_block(bytes: &[u8]) -> usize
    ensures { result ≡ block_count (length bytes.now) - 1 }
{
    bytes.len().div_ceil(BLOCK_LEN).max(1) - 1
}

// From block `k` of the one chunk and block `l` of the other, whose inputs are the same, back to the first
// blocks: the inputs of the nearest two that differ, so that both have the chaining value that is the next
// ones' own.
fn blocks_apart(
    mode: &Mode,
    ours: &ChunkRun<'_>,
    k: usize,
    theirs: &ChunkRun<'_>,
    l: usize,
) -> Option<Pair>
    requires our_len { length ours.now.bytes.now ≤ 1024 }
    requires our_block { k < block_count (length ours.now.bytes.now) }
    requires their_len { length theirs.now.bytes.now ≤ 1024 }
    requires their_block { l < block_count (length theirs.now.bytes.now) }
    ensures { (top either : Bool)
        → marked either (chunk_input mode.now ours.now.first ours.now.bytes.now k) ≡ marked either (chunk_input mode.now theirs.now.first theirs.now.bytes.now l)
        → Finds (whole_chunk top mode.now ours.now.first ours.now.bytes.now) (whole_chunk top mode.now theirs.now.first theirs.now.bytes.now)
        (take (64 * (k + 1)) ours.now.bytes.now ≡ take (64 * (l + 1)) theirs.now.bytes.now) result }
{
    // Laws, so that the proof has what they say: nothing runs.
    bytes_are(ours.bytes);
    bytes_are(theirs.bytes);
    if k == 0 || l == 0 {
        return None;
    }
    let x = chunk_input(mode, ours.first, ours.bytes, k - 1);
    let y = chunk_input(mode, theirs.first, theirs.bytes, l - 1);
    if !are_same(&x, &y) {
        return Some(Pair { ours: x, theirs: y });
    }
    blocks_apart(mode, ours, k - 1, theirs, l - 1)
}

// The last inputs that differ of two chunks with one chaining value; none if the chunks are the same.
pub(crate) fn chunks_apart(
    mode: &Mode,
    top: bool,
    ours: &ChunkRun<'_>,
    theirs: &ChunkRun<'_>,
) -> Option<Pair>
    requires our_len { length ours.now.bytes.now ≤ 1024 }
    requires their_len { length theirs.now.bytes.now ≤ 1024 }
    ensures { cv (marked top (last_chunk_input mode.now ours.now.first ours.now.bytes.now)) ≡ cv (marked top (last_chunk_input mode.now theirs.now.first theirs.now.bytes.now))
        → Finds (whole_chunk top mode.now ours.now.first ours.now.bytes.now) (whole_chunk top mode.now theirs.now.first theirs.now.bytes.now)
        ((ours.now.first ≡ theirs.now.first) × (ours.now.bytes.now ≡ theirs.now.bytes.now)) result }
{
    // Laws, so that the proof has what they say: nothing runs.
    bytes_are(ours.bytes);
    bytes_are(theirs.bytes);
    let k = last_block(ours.bytes);
    let l = last_block(theirs.bytes);
    let x = marked(top, &chunk_input(mode, ours.first, ours.bytes, k));
    let y = marked(top, &chunk_input(mode, theirs.first, theirs.bytes, l));
    if !are_same(&x, &y) {
        return Some(Pair { ours: x, theirs: y });
    }
    blocks_apart(mode, ours, k, theirs, l)
}
