// Two to eight chunks, of which the last may be short: one in each lane, and then the tree over their values.

ghost use Rattle.std.specs.Prelude.{◌≡◌, ℕ, ◌+◌, ◌-◌, ◌*◌, ◌^◌, ◌<◌, ◌≤◌, List, [], ◌∷◌, ◌++◌, length, replicate, slice_index, slice_index_or};
ghost use Rattle.b3word.specs.Lanes.{lane8};
ghost use Rattle.b3tree.specs.Chunk.{block, block_count};
ghost use Rattle.b3tree.specs.Parents.{AreChunkValues};
ghost use Rattle.b3tree.specs.Pieces.{before_block, piece};
ghost use Rattle.b3tree.specs.Tree.{subtree_cv, top_input};

use crate::chunk::{
    BLOCK_LEN, CHUNK_LEN, block_count, block_flags, block_input, full_block_input,
    last_chunk_input, value_before,
};
use crate::lanes::{BLOCKS, LANES, high_words, key_lanes, low_words, message};
use crate::mode::Mode;
use crate::tree::{left_len, parent_input};
use crate::values::Cv;
use b3word::{Input, cv, cv_lanes, cv_pair, cv_two_pairs, transposed};
use std::simd::u32x8;

// `value` in each lane before this one, which has `of_lane`.
#[inline(always)]
fn all_but(lane: usize, of_lane: u32, value: u32) -> u32x8
    requires { lane < 8 }
    ensures of_lane { slice_index result lane ≡ of_lane }
    ensures others { (j : ℕ) → j < lane → slice_index result j ≡ value }
{
    // Most often it is the same, and then nothing goes through memory.
    if of_lane == value {
        return u32x8::splat(value);
    }
    let mut lanes = [value; LANES];
    lanes[lane] = of_lane;
    u32x8::from_array(lanes)
}

// How many bytes block `k` has of a chunk of `len` bytes.
#[inline(always)]
fn block_len(len: usize, k: usize) -> u32
    requires { k < 16 }
    ensures { (chunk : List ℕ) → length chunk ≡ len → result ≡ length (block chunk k) }
{
    len.saturating_sub(BLOCK_LEN * k).min(BLOCK_LEN) as u32
}

// The blocks from `from` on and before `to`, of a chunk in each lane, after the values `before`. The chunks lie in `text`
// side by side. That of lane `last` has `last_len` bytes and zeros after them, and those before it are whole: each lane
// that the chunks reach has what comes before block `to` of its chunk, where the chunk has as many blocks.
fn lane_blocks(
    mode: &Mode,
    first: u64,
    text: &[u8],
    last: usize,
    last_len: usize,
    from: usize,
    to: usize,
    before: &[u32x8; 8],
) -> [u32x8; 8]
    requires number { first + 7 < 2 ^ 64 }
    requires text { length text.now ≡ 8192 }
    requires last { last < 8 }
    requires last_len { last_len ≤ 1024 }
    requires order { from ≤ to }
    requires blocks { to ≤ 16 }
    ensures { (s : List ℕ) (j : ℕ) → text.now ≡ s ++ replicate (8192 - length s) 0 → length s ≡ 1024 * last + last_len → j ≤ last
        → to ≤ block_count (length (piece s (1024 * j) 1024))
        → lane8 j before.now ≡ before_block mode.now (first + j) (piece s (1024 * j) 1024) from
        → lane8 j result ≡ before_block mode.now (first + j) (piece s (1024 * j) 1024) to }
{
    let t_low = low_words(first, 1);
    let t_high = high_words(first, 1);
    let count = block_count(last_len);
    let mut h = *before;
    'next_block: for k in from..to {
        let m = message(text, 0, CHUNK_LEN, k);
        let len = all_but(last, block_len(last_len, k), BLOCK_LEN as u32);
        let flags = all_but(
            last,
            block_flags(mode, count, k),
            block_flags(mode, BLOCKS, k),
        );
        let next = cv_lanes::<4>(&h, &m, t_low, t_high, len, flags);
        h = next;
    }
    h
}

// The chaining values of the chunks of `bytes`, at most eight, at once.
fn few_values(mode: &Mode, first: u64, bytes: &[u8]) -> [[u32; 8]; 8]
    requires some { 0 < length bytes.now }
    requires few { length bytes.now ≤ 8192 }
    requires end { 1024 * first + length bytes.now ≤ 2 ^ 64 - 1 }
    ensures { AreChunkValues mode.now first bytes.now (λ j. slice_index_or result j []) }
{
    let last = (bytes.len() - 1) / CHUNK_LEN;
    let last_len = bytes.len() - CHUNK_LEN * last;
    let count = block_count(last_len);
    let mut text = [0; LANES * CHUNK_LEN];
    text[..bytes.len()].copy_from_slice(bytes);
    // The last chunk ends first.
    let ended = lane_blocks(
        mode,
        first,
        &text,
        last,
        last_len,
        0,
        count,
        &key_lanes(mode),
    );
    let whole = lane_blocks(mode, first, &text, last, last_len, count, BLOCKS, &ended);
    let mut values = transposed(&whole).map(
        |row|
            ensures { result ≡ row }
        { row.to_array() },
    );
    values[last] = transposed(&ended)[last].to_array();
    values
}

// The chaining value of the tree over chunks with the values from place `at` on, of `len` bytes in all.
#[cycle(joined)]
fn joined_value(mode: &Mode, values: &[[u32; 8]; 8], at: usize, len: u64) -> [u32; 8]
    requires some { 0 < len }
    requires within { 1024 * at + len ≤ 8192 }
    ensures { (first : ℕ) (s : List ℕ) → length s ≡ len → AreChunkValues mode.now first s (λ j. slice_index_or values.now (at + j) [])
        → result ≡ subtree_cv mode.now first s }
{
    if len <= CHUNK_LEN as u64 {
        return values[at];
    }
    cv(&joined_top(mode, values, at, len))
}

// The last compression of that tree, where there is more than one chunk.
#[cycle(joined)]
fn joined_top(mode: &Mode, values: &[[u32; 8]; 8], at: usize, len: u64) -> Input
    requires more { 1024 < len }
    requires within { 1024 * at + len ≤ 8192 }
    ensures { (first : ℕ) (s : List ℕ) → length s ≡ len → AreChunkValues mode.now first s (λ j. slice_index_or values.now (at + j) [])
        → result ≡ top_input mode.now first s }
{
    let left_len = left_len(len);
    let middle = at + (left_len / CHUNK_LEN as u64) as usize;
    let left = joined_value(mode, values, at, left_len);
    let right = joined_value(mode, values, middle, len - left_len);
    parent_input(mode, &Cv(left), &Cv(right))
}

// What comes before block `to` of two chunks that lie side by side, of which the first is whole, where `values` come
// before block `from`: both at once.
#[inline(never)]
fn two_before(
    mode: &Mode,
    first: u64,
    left: &[u8],
    right: &[u8],
    from: usize,
    values: ([u32; 8], [u32; 8]),
    to: usize,
) -> ([u32; 8], [u32; 8])
    requires number { first + 1 < 2 ^ 64 }
    requires left { length left.now ≡ 1024 }
    requires right { length right.now ≤ 1024 }
    requires order { from ≤ to }
    requires blocks { to ≤ block_count (length right.now) }
    ensures left { values.0 ≡ before_block mode.now first left.now from → result.0 ≡ before_block mode.now first left.now to }
    ensures right { values.1 ≡ before_block mode.now (first + 1) right.now from → result.1 ≡ before_block mode.now (first + 1) right.now to }
{
    let mut both = values;
    'next_block: for k in from..to {
        let of_left = full_block_input(mode, first, left, k, both.0);
        let of_right = block_input(mode, first + 1, right, k, both.1);
        both = cv_pair::<0>(&of_left, &of_right);
    }
    both
}

// The same of four, from the first block on: three of them are whole.
#[inline(never)]
fn four_before(
    mode: &Mode,
    first: u64,
    a: &[u8],
    b: &[u8],
    c: &[u8],
    d: &[u8],
    to: usize,
) -> [[u32; 8]; 4]
    requires number { first + 3 < 2 ^ 64 }
    requires whole { (length a.now ≡ 1024) × (length b.now ≡ 1024) × (length c.now ≡ 1024) }
    requires last { length d.now ≤ 1024 }
    requires blocks { to ≤ block_count (length d.now) }
    ensures { result
        ≡ before_block mode.now first a.now to
        ∷ before_block mode.now (first + 1) b.now to
        ∷ before_block mode.now (first + 2) c.now to
        ∷ before_block mode.now (first + 3) d.now to ∷ [] }
{
    let key = mode.key_words();
    let mut values = [key, key, key, key];
    'next_block: for k in 0..to {
        let of_a = full_block_input(mode, first, a, k, values[0]);
        let of_b = full_block_input(mode, first + 1, b, k, values[1]);
        let of_c = full_block_input(mode, first + 2, c, k, values[2]);
        let of_d = block_input(mode, first + 3, d, k, values[3]);
        values = cv_two_pairs(&of_a, &of_b, &of_c, &of_d);
    }
    values
}

// The last compression of the tree over two chunks.
fn two_top(mode: &Mode, first: u64, bytes: &[u8]) -> Input
    requires more { 1024 < length bytes.now }
    requires two { length bytes.now ≤ 2048 }
    requires end { 1024 * first + length bytes.now ≤ 2 ^ 64 - 1 }
    ensures { result ≡ top_input mode.now first bytes.now }
{
    let (left, right) = bytes.split_at(CHUNK_LEN);
    let count = block_count(right.len());
    let start = (mode.key_words(), mode.key_words());
    // The second ends first.
    let (a, b) = two_before(mode, first, left, right, 0, start, count);
    let whole = value_before(mode, first, left, count, a, BLOCKS);
    parent_input(mode, &Cv(whole), &Cv(b))
}

// That over three.
fn three_top(mode: &Mode, first: u64, bytes: &[u8]) -> Input
    requires more { 2048 < length bytes.now }
    requires three { length bytes.now ≤ 3072 }
    requires end { 1024 * first + length bytes.now ≤ 2 ^ 64 - 1 }
    ensures { result ≡ top_input mode.now first bytes.now }
{
    let (front, last) = bytes.split_at(2 * CHUNK_LEN);
    let left = cv(&two_top(mode, first, front));
    let right = cv(&last_chunk_input(mode, first + 2, last));
    parent_input(mode, &Cv(left), &Cv(right))
}

// That over four.
fn four_top(mode: &Mode, first: u64, bytes: &[u8]) -> Input
    requires more { 3072 < length bytes.now }
    requires four { length bytes.now ≤ 4096 }
    requires end { 1024 * first + length bytes.now ≤ 2 ^ 64 - 1 }
    ensures { result ≡ top_input mode.now first bytes.now }
{
    let (front, back) = bytes.split_at(2 * CHUNK_LEN);
    let (a, b) = front.split_at(CHUNK_LEN);
    let (c, d) = back.split_at(CHUNK_LEN);
    let count = block_count(d.len());
    // The last ends first.
    let [of_a, of_b, of_c, of_d] = four_before(mode, first, a, b, c, d, count);
    let (whole_a, whole_b) = two_before(mode, first, a, b, count, (of_a, of_b), BLOCKS);
    let whole_c = value_before(mode, first + 2, c, count, of_c, BLOCKS);
    let left = parent_input(mode, &Cv(whole_a), &Cv(whole_b));
    let right = parent_input(mode, &Cv(whole_c), &Cv(of_d));
    let (of_left, of_right) = cv_pair::<1>(&left, &right);
    parent_input(mode, &Cv(of_left), &Cv(of_right))
}

// That over up to eight. Not in line: its copy of 8 KiB would stand in each frame of the recursion that ends in
// `few_top`.
#[inline(never)]
fn lanes_top(mode: &Mode, first: u64, bytes: &[u8]) -> Input
    requires more { 1024 < length bytes.now }
    requires few { length bytes.now ≤ 8192 }
    requires end { 1024 * first + length bytes.now ≤ 2 ^ 64 - 1 }
    ensures { result ≡ top_input mode.now first bytes.now }
{
    let values = few_values(mode, first, bytes);
    joined_top(mode, &values, 0, bytes.len() as u64)
}

// The last compression of the tree over two to eight chunks.
#[inline(never)]
pub(crate) fn few_top(mode: &Mode, first: u64, bytes: &[u8]) -> Input
    requires more { 1024 < length bytes.now }
    requires few { length bytes.now ≤ 8192 }
    requires end { 1024 * first + length bytes.now ≤ 2 ^ 64 - 1 }
    ensures { result ≡ top_input mode.now first bytes.now }
{
    let last = (bytes.len() - 1) / CHUNK_LEN;
    match last {
        1 => two_top(mode, first, bytes),
        2 => three_top(mode, first, bytes),
        3 => four_top(mode, first, bytes),
        _ => lanes_top(mode, first, bytes),
    }
}
