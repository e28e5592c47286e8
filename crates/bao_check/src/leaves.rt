ghost use Rattle.std.specs.Prelude.{ℕ, ◌+◌, ◌-◌, ◌*◌, ◌^◌, ◌≤◌, ◌<◌, List, length};
ghost use Rattle.bao_text.specs.Choice.{chunk_count};
ghost use Rattle.bao_text.specs.declared.choice.Choice.{Choice};
ghost use Rattle.bao_text.specs.Nodes.{Side, placed_nodes, subtree_nodes};
ghost use Rattle.bao_check.specs.Leaves.{WantsParents};
ghost use Rattle.bao_check.specs.Pieces.{IsLeafValue};

use crate::walk::halves;
use b3tree::{CHUNK_LEN, Cv, left_len};
use bao_text::PARENT_LEN;

// The value of chunk `i` in the parents of the subtree over `n` bytes from chunk `number` on, the first of
// which begins at `at`.
pub(crate) fn leaf_below(text: &[u8], i: u64, number: u64, n: u64, at: usize) -> Cv
    requires parent { 1024 < n }
    requires range { 1024 * number + n ≤ 2 ^ 64 - 1 }
    requires first { number ≤ i }
    requires last { i < number + chunk_count n }
    requires fits { at + 64 * (chunk_count n - 1) ≤ length text.now }
    ensures { (choice : Choice) (sides : List Side) (source : ℕ) → WantsParents choice number n
        → IsLeafValue text.now (placed_nodes at (subtree_nodes choice number n sides source)) i result.0 }
{
    let parent = &text[at..at + PARENT_LEN];
    let left_len = left_len(n);
    let left_chunks = left_len / CHUNK_LEN as u64;
    if i < number + left_chunks {
        if left_chunks == 1 {
            halves(parent).0.value
        } else {
            leaf_below(text, i, number, left_len, at + PARENT_LEN)
        }
    } else if n - left_len <= CHUNK_LEN as u64 {
        halves(parent).1.value
    } else {
        // After this parent come those of the left part, one fewer than it has chunks.
        leaf_below(
            text,
            i,
            number + left_chunks,
            n - left_len,
            at + PARENT_LEN * left_chunks as usize,
        )
    }
}
