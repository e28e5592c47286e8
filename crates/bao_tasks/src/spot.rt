// Which bytes of a blob a node of its encoding covers.

ghost use Rattle.std.specs.Prelude.{◌≡◌, ℕ, ◌+◌, ◌-◌, ◌*◌, ◌^◌, ◌<◌, ◌≤◌, true, List};
ghost use Rattle.bao_text.specs.Choice.{of_outboard, wants};
ghost use Rattle.bao_text.specs.Nodes.{Side, chosen_nodes, nodes, placed_nodes, subtree_nodes, subtree_size};
ghost use Rattle.bao_tasks.specs.Spots.{EndsBy, IsMet, spot_at, spot_if};

use crate::missing::Span;
use b3tree::{CHUNK_LEN, left_len};
use bao_text::{Choice, LENGTH_LEN, PARENT_LEN};

/// The range of the blob that a node of an encoding covers.
#[derive(Clone, Copy, Debug, PartialEq, Eq)]
pub struct Spot {
    /// Whether the node is a chunk; otherwise it is a parent.
    pub is_chunk: bool,
    /// The bytes of the chunk, or those below the parent.
    pub bytes: Span,
}

// The result of looking among some nodes for the one at an offset of the encoding.
enum Walk {
    // All of them begin before it. They end at this offset.
    Past(u128),
    // The first that doesn't begin before it, if it begins exactly there.
    Met(Option<Spot>),
}

// Returns what the node over `n` bytes from chunk `number` on covers, if `here`, where it begins, is `at`.
fn spot_met(is_chunk: bool, number: u64, n: u64, here: u128, at: u64) -> Option<Spot>
    requires range { 1024 * number + n ≤ 2 ^ 64 - 1 }
    requires order { at ≤ here }
    ensures { result ≡ spot_if is_chunk number n here at }
{
    if here > u128::from(at) {
        return None;
    }
    let start = CHUNK_LEN as u64 * number;
    Some(Spot {
        is_chunk,
        bytes: Span {
            at: start,
            end: start + n,
        },
    })
}

// Looks for the node at offset `at` where the only node, if any, is the chunk of this number with `n` bytes at `here`.
fn find_chunk(choice: &Choice, number: u64, n: u64, here: u128, at: u64) -> Walk
    requires one { n ≤ 1024 }
    requires wanted { wants choice.now (1024 * number) n ≡ true }
    requires range { 1024 * number + n ≤ 2 ^ 64 - 1 }
    requires room { here + n < 2 ^ 128 }
    ensures met { (sides : List Side) (from : ℕ) → IsMet at here (subtree_nodes choice.now number n sides from) result }
    ensures end { EndsBy (here + n) result }
{
    if !choice.has_chunks() {
        return Walk::Past(here);
    }
    if here < u128::from(at) {
        return Walk::Past(here + u128::from(n));
    }
    Walk::Met(spot_met(true, number, n, here, at))
}

// Looks for the node at offset `at` among those of the subtree over `n` bytes from chunk `number` on, the first of
// which is at `here`.
fn find(choice: &Choice, number: u64, n: u64, here: u128, at: u64) -> Walk
    requires range { 1024 * number + n ≤ 2 ^ 64 - 1 }
    requires room { here + subtree_size n < 2 ^ 128 }
    ensures met { (sides : List Side) (from : ℕ) → IsMet at here (subtree_nodes choice.now number n sides from) result }
    ensures end { EndsBy (here + subtree_size n) result }
{
    if !choice.wants(CHUNK_LEN as u64 * number, n) {
        return Walk::Past(here);
    }
    if n <= CHUNK_LEN as u64 {
        return find_chunk(choice, number, n, here, at);
    }
    if here >= u128::from(at) {
        return Walk::Met(spot_met(false, number, n, here, at));
    }
    let left_len = left_len(n);
    match find(choice, number, left_len, here + PARENT_LEN as u128, at) {
        Walk::Past(after) => {
            let middle = number + left_len / CHUNK_LEN as u64;
            find(choice, middle, n - left_len, after, at)
        }
        Walk::Met(spot) => Walk::Met(spot),
    }
}

// Returns what the node at offset `at` covers, in an encoding of a blob of `total` bytes.
fn spot_in(choice: &Choice, total: u64, at: u64) -> Option<Spot>
    ensures { result ≡ spot_at at (placed_nodes 8 (chosen_nodes choice.now total)) }
{
    match find(choice, 0, total, LENGTH_LEN as u128, at) {
        Walk::Past(_) => None,
        Walk::Met(spot) => spot,
    }
}

/// Returns what the node at offset `at` of the slice (`start`, `len`) of a blob of `total` bytes covers, or `None` if
/// no node begins there.
///
/// It takes time in proportion to the nodes before that one, and no memory.
pub fn spot_in_slice(total: u64, start: u64, len: u64, at: u64) -> Option<Spot>
    ensures { result ≡ spot_at at (placed_nodes 8 (nodes total start len)) }
{
    spot_in(&Choice::of_slice(total, start, len), total, at)
}

/// Returns what the parent at offset `at` of the outboard encoding of a blob of `total` bytes covers, or `None` if no
/// parent begins there.
///
/// It takes time in proportion to the nodes before that one, and no memory.
pub fn spot_in_outboard(total: u64, at: u64) -> Option<Spot>
    ensures { result ≡ spot_at at (placed_nodes 8 (chosen_nodes (of_outboard total) total)) }
{
    spot_in(&Choice::of_outboard(total), total, at)
}
