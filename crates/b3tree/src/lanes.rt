// Whole subtrees in eight lanes: each lane hashes its own, all in lock step, so that a parent is one
// compression of all lanes and nothing moves between them on the way up.

ghost use Rattle.std.specs.Prelude.{◌≡◌, ℕ, ◌+◌, ◌-◌, ◌*◌, ◌/◌, ◌%◌, ◌^◌, ◌<◌, ◌≤◌, [], ◌∷◌, length, map, slice_index, slice_index_or, IfSome};
ghost use Rattle.std.specs.Int.{IsPowerOfTwo};
ghost use Rattle.b3word.specs.Compression.{cv};
ghost use Rattle.b3word.specs.Lanes.{lane8, lane16};
ghost use Rattle.b3tree.specs.Bytes.{words_of};
ghost use Rattle.b3tree.specs.Chunk.{block, block_words, last_chunk_input};
ghost use Rattle.b3tree.specs.Modes.{key_words};
ghost use Rattle.b3tree.specs.Pieces.{piece};
ghost use Rattle.b3tree.specs.Tree.{parent_input, subtree_cv, top_input};

use crate::bytes::words_of;
use crate::chunk::{BLOCK_LEN, CHUNK_LEN, block_flags};
use crate::flags::PARENT;
use crate::mode::Mode;
use crate::tree::parent_input;
use crate::values::Cv;
use b3word::{Input, cv_lanes, joined, transposed};
use std::simd::u32x8;

// Lanes of a vector.
pub(crate) const LANES: usize = 8;

/// The most chunks of a subtree that is hashed at once. In larger ones the lanes' bytes lie too far apart for
/// the caches.
pub(crate) const MOST_CHUNKS: usize = 512;

// Blocks of a whole chunk.
pub(crate) const BLOCKS: usize = CHUNK_LEN / BLOCK_LEN;

// Half a block, 32 bytes, from place `at` on.
#[inline(always)]
pub(crate) fn half_block(bytes: &[u8], at: usize) -> u32x8
    requires { at + 32 ≤ length bytes.now }
    ensures { result ≡ words_of 8 (piece bytes.now at 32) }
{
    u32x8::from_array(words_of(&bytes[at..at + BLOCK_LEN / 2]))
}

// Half a block in each lane, `stride` bytes apart.
#[inline(always)]
fn half_blocks(bytes: &[u8], at: usize, stride: usize) -> [u32x8; 8]
    requires { at + stride * 7 + 32 ≤ length bytes.now }
    ensures { (j : ℕ) → j < 8 → lane8 j result ≡ words_of 8 (piece bytes.now (at + stride * j) 32) }
{
    transposed(&[
        half_block(bytes, at),
        half_block(bytes, at + stride),
        half_block(bytes, at + stride * 2),
        half_block(bytes, at + stride * 3),
        half_block(bytes, at + stride * 4),
        half_block(bytes, at + stride * 5),
        half_block(bytes, at + stride * 6),
        half_block(bytes, at + stride * 7),
    ])
}

// Block `k` of a chunk in each lane, the chunks `stride` bytes apart.
#[inline(always)]
pub(crate) fn message(bytes: &[u8], at: usize, stride: usize, k: usize) -> [u32x8; 16]
    requires block { k < 16 }
    requires len { at + stride * 7 + 1024 ≤ length bytes.now }
    ensures { (j : ℕ) → j < 8 → lane16 j result ≡ block_words (block (piece bytes.now (at + stride * j) 1024) k) }
{
    let start = at + BLOCK_LEN * k;
    let front = half_blocks(bytes, start, stride);
    let back = half_blocks(bytes, start + BLOCK_LEN / 2, stride);
    joined(&front, &back)
}

// The key words of the mode in each lane.
#[inline(always)]
pub(crate) fn key_lanes(mode: &Mode) -> [u32x8; 8]
    ensures { (j : ℕ) → j < 8 → lane8 j result ≡ key_words mode.now }
{
    let [k0, k1, k2, k3, k4, k5, k6, k7] = mode.key_words();
    [
        u32x8::splat(k0),
        u32x8::splat(k1),
        u32x8::splat(k2),
        u32x8::splat(k3),
        u32x8::splat(k4),
        u32x8::splat(k5),
        u32x8::splat(k6),
        u32x8::splat(k7),
    ]
}

#[inline(always)]
fn low_word(counter: u64) -> u32
    ensures { result ≡ counter % 2 ^ 32 }
{
    (counter & 0xffff_ffff) as u32
}

#[inline(always)]
fn high_word(counter: u64) -> u32
    ensures { result ≡ counter / 2 ^ 32 }
{
    (counter >> 32) as u32
}

// The low words of the chunk numbers, `apart` from lane to lane.
pub(crate) fn low_words(first: u64, apart: u64) -> u32x8
    requires { first + apart * 7 < 2 ^ 64 }
    ensures { (j : ℕ) → j < 8 → slice_index result j ≡ (first + apart * j) % 2 ^ 32 }
{
    u32x8::from_array([
        low_word(first),
        low_word(first + apart),
        low_word(first + apart * 2),
        low_word(first + apart * 3),
        low_word(first + apart * 4),
        low_word(first + apart * 5),
        low_word(first + apart * 6),
        low_word(first + apart * 7),
    ])
}

// Their high words.
pub(crate) fn high_words(first: u64, apart: u64) -> u32x8
    requires { first + apart * 7 < 2 ^ 64 }
    ensures { (j : ℕ) → j < 8 → slice_index result j ≡ (first + apart * j) / 2 ^ 32 }
{
    u32x8::from_array([
        high_word(first),
        high_word(first + apart),
        high_word(first + apart * 2),
        high_word(first + apart * 3),
        high_word(first + apart * 4),
        high_word(first + apart * 5),
        high_word(first + apart * 6),
        high_word(first + apart * 7),
    ])
}

// The value of a chunk in each lane: lane `j` has the chunk `apart * j` chunks on.
pub(crate) fn chunk_lanes(
    mode: &Mode,
    first: u64,
    bytes: &[u8],
    at: usize,
    apart: usize,
) -> [u32x8; 8]
    requires number { first + apart * 7 < 2 ^ 64 }
    requires len { at + 1024 * apart * 7 + 1024 ≤ length bytes.now }
    ensures { (j : ℕ) → j < 8
        → lane8 j result ≡ cv (last_chunk_input mode.now (first + apart * j) (piece bytes.now (at + 1024 * apart * j) 1024)) }
{
    let t_low = low_words(first, apart as u64);
    let t_high = high_words(first, apart as u64);
    let len = u32x8::splat(BLOCK_LEN as u32);
    let mut h = key_lanes(mode);
    'next_block: for k in 0..BLOCKS {
        let m = message(bytes, at, CHUNK_LEN * apart, k);
        let flags = u32x8::splat(block_flags(mode, BLOCKS, k));
        let next = cv_lanes::<1>(&h, &m, t_low, t_high, len, flags);
        h = next;
    }
    h
}

/// Returns in each lane the chaining value of the parent whose children are the values in that lane of `left`
/// and `right`.
pub fn parent_lanes(mode: &Mode, left: &[u32x8; 8], right: &[u32x8; 8]) -> [u32x8; 8]
    ensures { (j : ℕ) → j < 8 → lane8 j result ≡ cv (parent_input mode.now (lane8 j left.now) (lane8 j right.now)) }
{
    let m = joined(left, right);
    let zero = u32x8::splat(0);
    let len = u32x8::splat(BLOCK_LEN as u32);
    let flags = u32x8::splat(mode.flags() | PARENT);
    cv_lanes::<2>(&key_lanes(mode), &m, zero, zero, len, flags)
}

// The value of a whole subtree of `chunks` chunks in each lane, `apart` chunks from lane to lane.
pub(crate) fn subtree_lanes(
    mode: &Mode,
    first: u64,
    bytes: &[u8],
    at: usize,
    apart: usize,
    chunks: usize,
) -> [u32x8; 8]
    requires some { 0 < chunks }
    requires number { first + apart * 7 + chunks < 2 ^ 64 }
    requires len { at + 1024 * apart * 7 + 1024 * chunks ≤ length bytes.now }
    ensures { (j : ℕ) → IsPowerOfTwo chunks → j < 8
        → lane8 j result ≡ subtree_cv mode.now (first + apart * j) (piece bytes.now (at + 1024 * apart * j) (1024 * chunks)) }
{
    if chunks == 1 {
        return chunk_lanes(mode, first, bytes, at, apart);
    }
    let half = chunks / 2;
    let left = subtree_lanes(mode, first, bytes, at, apart, half);
    let right = subtree_lanes(
        mode,
        first + half as u64,
        bytes,
        at + CHUNK_LEN * half,
        apart,
        half,
    );
    parent_lanes(mode, &left, &right)
}

// The even lanes of a vector, each twice.
#[inline(always)]
fn even_lanes(v: u32x8) -> u32x8
    ensures { (j : ℕ) → j < 4 → slice_index result j ≡ slice_index v (2 * j) }
{
    v.swizzle([0, 2, 4, 6, 0, 2, 4, 6])
}

// Its odd lanes.
#[inline(always)]
fn odd_lanes(v: u32x8) -> u32x8
    ensures { (j : ℕ) → j < 4 → slice_index result j ≡ slice_index v (2 * j + 1) }
{
    v.swizzle([1, 3, 5, 7, 1, 3, 5, 7])
}

// The parents of neighbouring lanes, two and two: lane `j` has that of lanes `2 * j` and `2 * j + 1`.
pub(crate) fn neighbour_lanes(mode: &Mode, values: &[u32x8; 8]) -> [u32x8; 8]
    ensures { (j : ℕ) → j < 4
        → lane8 j result ≡ cv (parent_input mode.now (lane8 (2 * j) values.now) (lane8 (2 * j + 1) values.now)) }
{
    parent_lanes(mode, &values.map(even_lanes), &values.map(odd_lanes))
}

// The last compression over a whole subtree of `8 * chunks` chunks.
pub(crate) fn whole_top(mode: &Mode, first: u64, bytes: &[u8], chunks: usize) -> Input
    requires some { 0 < chunks }
    requires len { length bytes.now ≡ 8192 * chunks }
    requires number { first + 8 * chunks < 2 ^ 64 }
    ensures { IsPowerOfTwo chunks → result ≡ top_input mode.now first bytes.now }
{
    let eighths = subtree_lanes(mode, first, bytes, 0, chunks, chunks);
    let quarters = neighbour_lanes(mode, &eighths);
    let halves = neighbour_lanes(mode, &quarters);
    let [left, right, ..] = transposed(&halves);
    parent_input(mode, &Cv(left.to_array()), &Cv(right.to_array()))
}

/// Returns how many chunks each of eight lanes gets if `len` bytes are a whole subtree of 8 to 512 chunks, else
/// `None`.
pub fn chunks_a_lane(len: u64) -> Option<usize>
    ensures { IfSome result (λ chunks. IsPowerOfTwo chunks × (len ≡ 8192 * chunks) × (chunks ≤ 64)) }
{
    let count = len / (LANES * CHUNK_LEN) as u64;
    if count == 0 || count > (MOST_CHUNKS / LANES) as u64 {
        return None;
    }
    let chunks = 1u64 << count.ilog2();
    if (LANES * CHUNK_LEN) as u64 * chunks == len {
        return Some(chunks as usize);
    }
    None
}
