ghost use Rattle.std.specs.Prelude.{◌≡◌, ℕ, ◌+◌, ◌-◌, ◌*◌, ◌^◌, ◌<◌, ◌≤◌, List, length, take, drop, sum_by};
ghost use Rattle.std.specs.Int.{IsPowerOfTwo};
ghost use Rattle.bao_text.specs.Nodes.{Side, placed_nodes, size, subtree_nodes, subtree_size};
ghost use Rattle.bao_check.specs.Spans.{chunk_place};

use b3tree::{CHUNK_LEN, left_len};
use bao_text::{Choice, encoded_len, outboard_len};

// Bytes of the length at an encoding's start, for places.
pub(crate) const LENGTH_LEN: u128 = bao_text::LENGTH_LEN as u128;

// Bytes of a parent, for places.
pub(crate) const PARENT_LEN: u128 = bao_text::PARENT_LEN as u128;

/// Where a chunk is in an encoding: its offset and its length in bytes.
#[derive(Clone, Copy)]
pub(crate) struct Span {
    pub(crate) at: u128,
    pub(crate) len: u64,
}

// The `len` bytes of the encoding from place `at` on.
pub(crate) fn bytes_from(text: &[u8], at: u128, len: u64) -> &[u8]
    requires { at + len ≤ length text.now }
    ensures bytes { result.now ≡ take len (drop at text.now) }
    ensures len { length result.now ≡ len }
{
    let at = at as usize;
    &text[at..at + len as usize]
}

// How many bytes of an encoding the wanted nodes of the subtree over `n` bytes from chunk `number` on are. It
// goes down only where a subtree is wanted in part, so along the two edges of the wanted positions.
#[tactic(auto, using(crate::proofs::Sizes::sizes_told))]
pub(crate) fn nodes_size(choice: &Choice, number: u64, n: u64) -> u128
    requires { 1024 * number + n ≤ 2 ^ 64 - 1 }
    ensures value { (sides : List Side) (from : ℕ) → result ≡ sum_by size (subtree_nodes choice.now number n sides from) }
    ensures bound { result ≤ subtree_size n }
{
    let at = CHUNK_LEN as u64 * number;
    if !choice.wants(at, n) {
        return 0;
    }
    if choice.covers(at, n) {
        return if choice.has_chunks() {
            encoded_len(n) - LENGTH_LEN
        } else {
            outboard_len(n) - LENGTH_LEN
        };
    }
    if n <= CHUNK_LEN as u64 {
        return if choice.has_chunks() {
            u128::from(n)
        } else {
            0
        };
    }
    let left_len = left_len(n);
    let left = nodes_size(choice, number, left_len);
    let right = nodes_size(choice, number + left_len / CHUNK_LEN as u64, n - left_len);
    PARENT_LEN + left + right
}

// The same, sooner told where none of them is wanted: so it is of most parts on the way to a slice.
#[tactic(auto, using(crate::proofs::Sizes::sizes_told))]
pub(crate) fn size_before(choice: &Choice, number: u64, n: u64) -> u128
    requires { 1024 * number + n ≤ 2 ^ 64 - 1 }
    ensures value { (sides : List Side) (from : ℕ) → result ≡ sum_by size (subtree_nodes choice.now number n sides from) }
    ensures bound { result ≤ subtree_size n }
{
    if choice.wants(CHUNK_LEN as u64 * number, n) {
        nodes_size(choice, number, n)
    } else {
        0
    }
}

// Where chunk `i` is, one of the left part of a parent at `at`: `count` chunks from chunk `number` on, a power of two of them,
// of which none lies before the wanted positions. So all that stands before it is there.
fn chunk_of_left(choice: &Choice, number: u64, count: u64, at: u128, i: u64) -> Option<Span>
    requires power { IsPowerOfTwo count }
    requires chunk { (number ≤ i) × (i < number + count) }
    requires start { choice.now.start ≤ 1024 * number }
    requires range { 1024 * (number + count) ≤ 2 ^ 64 - 1 }
    requires room { at + 64 + subtree_size (1024 * count) < 2 ^ 128 }
    ensures { (sides : List Side) (from : ℕ) → result ≡ chunk_place (placed_nodes (at + 64) (subtree_nodes choice.now number (1024 * count) sides from)) i }
{
    // So many chunks stand before it, and parents: one fewer than these for the parts that end before it, and those to whose left
    // part it belongs, one for each digit 0 of `k`.
    let k = i - number;
    let parents = 1 + k + u64::from((count - 1 - k).count_ones());
    let at = at + u128::from(CHUNK_LEN as u64 * k) + PARENT_LEN * u128::from(parents);
    let len = CHUNK_LEN as u64;
    let there = choice.has_chunks() && choice.wants(len * i, len);
    there.then_some(Span { at, len })
}

// Where chunk `i`, which isn't before chunk `number`, is in an encoding, of which the wanted nodes of the subtree over `n` bytes
// from chunk `number` on begin at `at`. It goes down to the first parent in whose left part the chunk is, and all of that part is
// wanted before it.
#[tactic(auto, using(crate::proofs::Presence::chunks_found))]
pub(crate) fn find_chunk(choice: &Choice, number: u64, n: u64, at: u128, i: u64) -> Option<Span>
    requires range { 1024 * number + n ≤ 2 ^ 64 - 1 }
    requires room { at + subtree_size n < 2 ^ 128 }
    requires first { number ≤ i }
    ensures { (sides : List Side) (from : ℕ) → result ≡ chunk_place (placed_nodes at (subtree_nodes choice.now number n sides from)) i }
{
    let start = CHUNK_LEN as u64 * number;
    if n <= CHUNK_LEN as u64 {
        if i != number || !choice.has_chunks() || !choice.wants(start, n) {
            return None;
        }
        return Some(Span { at, len: n });
    }
    let left_len = left_len(n);
    let count = left_len / CHUNK_LEN as u64;
    if i >= number + count {
        let at = at + PARENT_LEN + size_before(choice, number, left_len);
        return find_chunk(choice, number + count, n - left_len, at, i);
    }
    if choice.start() > start {
        return find_chunk(choice, number, left_len, at + PARENT_LEN, i);
    }
    chunk_of_left(choice, number, count, at, i)
}
