ghost use Rattle.std.specs.Prelude.{◌≡◌, ℕ, ◌+◌, ◌-◌, ◌*◌, ◌/◌, ◌^◌, ◌<◌, ◌≤◌, List, length, take, drop};
ghost use Rattle.b3word.specs.Compression.{cv};
ghost use Rattle.b3tree.specs.declared.mode.Mode.{Mode};
ghost use Rattle.b3tree.specs.Chunk.{last_chunk_input};
ghost use Rattle.b3tree.specs.Tree.{IsLeftLen, left_len, parent_input, subtree_cv, top_input};

use crate::chunk::{CHUNK_LEN, last_chunk_input};
use crate::few::few_top;
use crate::flags::PARENT;
use crate::lanes::{LANES, chunks_a_lane, whole_top};
use crate::mode::Mode;
use crate::values::Cv;
use b3word::{Input, cv};

/// Returns how many of the `len` bytes, more than one chunk, are in the left subtree: the largest 1,024 * 2^k
/// below `len` (BLAKE3 paper, 2.1).
pub fn left_len(len: u64) -> u64
    requires { 1024 < len }
    ensures value { result ≡ left_len len }
    ensures largest { IsLeftLen len result }

    // Where a tree over so many bytes parts, whatever they are.
    ensures parts { (mode : Mode) (first : ℕ) (s : List ℕ) → length s ≡ len → top_input mode first s ≡ parent_input mode
        (subtree_cv mode first (take result s)) (subtree_cv mode (first + result / 1024) (drop result s)) }
{
    let chunk_len = CHUNK_LEN as u64;
    chunk_len << ((len - 1) / chunk_len).ilog2()
}

/// Returns the compression input of a parent whose children have these chaining values (BLAKE3 paper, 2.5).
pub fn parent_input(mode: &Mode, left: &Cv, right: &Cv) -> Input
    ensures { result ≡ parent_input mode.now left.now.0 right.now.0 }
{
    let mut m = [0; 16];
    m[..8].copy_from_slice(&left.0);
    m[8..].copy_from_slice(&right.0);
    Input {
        h: mode.key_words(),
        m,
        t: 0,
        b: 64,
        d: mode.flags() | PARENT,
    }
}

// The chaining value of the parent of two subtrees.
pub(crate) fn parent_cv(mode: &Mode, left: [u32; 8], right: [u32; 8]) -> [u32; 8]
    ensures { result ≡ cv (parent_input mode.now left right) }
{
    cv(&parent_input(mode, &Cv(left), &Cv(right)))
}

// The chaining value of the subtree over `bytes`, whose first chunk has the number `first`.
#[cycle(subtrees)]
pub(crate) fn subtree_value(mode: &Mode, first: u64, bytes: &[u8]) -> [u32; 8]
    requires { 1024 * first + length bytes.now ≤ 2 ^ 64 - 1 }
    ensures { result ≡ subtree_cv mode.now first bytes.now }
{
    cv(&top_input(mode, first, bytes))
}

/// Returns the last compression of the tree over `bytes`, which begins with chunk `first`, without the flag
/// ROOT (BLAKE3 paper, 2.5).
///
/// For one chunk it is the chunk's last compression, else that of the top parent. Its `cv` is `subtree_cv`. The
/// tree ends at most at byte 2^64 - 1 of the input. Whole subtrees of 8 to 512 chunks, and two to eight chunks
/// of which the last may be short, are hashed in lanes.
#[cycle(subtrees)]
pub fn top_input(mode: &Mode, first: u64, bytes: &[u8]) -> Input
    requires { 1024 * first + length bytes.now ≤ 2 ^ 64 - 1 }
    ensures value { result ≡ top_input mode.now first bytes.now }

    // The recursive definition, at these bytes.
    ensures chunk { length bytes.now ≤ 1024 → result ≡ last_chunk_input mode.now first bytes.now }
    ensures parent { (l : ℕ) → IsLeftLen (length bytes.now) l → 1024 < length bytes.now → result ≡ parent_input mode.now
        (subtree_cv mode.now first (take l bytes.now)) (subtree_cv mode.now (first + l / 1024) (drop l bytes.now)) }
{
    if bytes.len() <= CHUNK_LEN {
        return last_chunk_input(mode, first, bytes);
    }
    if let Some(chunks) = chunks_a_lane(bytes.len() as u64) {
        return whole_top(mode, first, bytes, chunks);
    }
    if bytes.len() < LANES * CHUNK_LEN {
        return few_top(mode, first, bytes);
    }
    let left_len = left_len(bytes.len() as u64);
    let (left, right) = bytes.split_at(left_len as usize);
    let right_first = first + left_len / CHUNK_LEN as u64;
    let left = Cv(subtree_value(mode, first, left));
    let right = Cv(subtree_value(mode, right_first, right));
    parent_input(mode, &left, &right)
}
