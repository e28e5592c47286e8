// Whole subtrees of an encoding in eight lanes: each lane hashes its own, and compares the parents that the encoding
// has with the values that it found.

ghost use Rattle.std.specs.Prelude.{◌≡◌, ℕ, ◌+◌, ◌-◌, ◌*◌, ◌^◌, ◌<◌, ◌≤◌, length, slice_index, bit_or, bit_xor, true, false, IsTrue};
ghost use Rattle.std.specs.Int.{IsPowerOfTwo};
ghost use Rattle.b3word.specs.Compression.{cv};
ghost use Rattle.b3word.specs.Lanes.{lane8};
ghost use Rattle.b3tree.specs.Bytes.{words_of};
ghost use Rattle.b3tree.specs.Pieces.{lane_place, piece};
ghost use Rattle.b3tree.specs.Tree.{parent_input};
ghost use Rattle.bao_check.specs.Whole.{IsWholeOf, whole_len};

use b3tree::{CHUNK_LEN, Mode, parent_lanes, spaced_chunks, spaced_values};
use bao_text::{CV_LEN, PARENT_LEN};
use std::simd::u32x8;

#[inline(always)]
fn xor(a: u32x8, b: u32x8) -> u32x8
    ensures { (j : ℕ) → j < 8 → slice_index result j ≡ bit_xor (slice_index a j) (slice_index b j) }
{
    a ^ b
}

#[inline(always)]
fn or(a: u32x8, b: u32x8) -> u32x8
    ensures { (j : ℕ) → j < 8 → slice_index result j ≡ bit_or (slice_index a j) (slice_index b j) }
{
    a | b
}

// Zero in each lane in which two values are the same.
#[inline(always)]
fn differences(a: &[u32x8; 8], b: &[u32x8; 8]) -> u32x8
    ensures { (j : ℕ) → j < 8 → slice_index result j ≡ 0 → lane8 j a.now ≡ lane8 j b.now }
{
    let [a0, a1, a2, a3, a4, a5, a6, a7] = *a;
    let [b0, b1, b2, b3, b4, b5, b6, b7] = *b;
    let d0 = or(xor(a0, b0), xor(a1, b1));
    let d1 = or(xor(a2, b2), xor(a3, b3));
    let d2 = or(xor(a4, b4), xor(a5, b5));
    let d3 = or(xor(a6, b6), xor(a7, b7));
    or(or(d0, d1), or(d2, d3))
}

// Whether no lane has a difference.
#[inline(always)]
fn is_zero(a: u32x8) -> bool
    ensures { IsTrue result → (j : ℕ) → j < 8 → slice_index a j ≡ 0 }
{
    a.reduce_or() == 0
}

// Whether the parent in each lane, that of lane 0 from place `at` on, has these values.
#[tactic(auto, using(crate::proofs::Differences::or_both))]
#[inline(always)]
fn says(text: &[u8], at: usize, step: usize, left: &[u32x8; 8], right: &[u32x8; 8]) -> bool
    requires { at + step * 7 + 320 ≤ length text.now }
    ensures { IsTrue result → (j : ℕ) → j < 8
        → (words_of 8 (piece text.now (lane_place at step j) 32) ≡ lane8 j left.now)
        × (words_of 8 (piece text.now (lane_place at step j + 32) 32) ≡ lane8 j right.now) }
{
    let told_left = spaced_values(text, at, step);
    let told_right = spaced_values(text, at + CV_LEN, step);
    let near = differences(&told_left, left);
    let far = differences(&told_right, right);
    is_zero(or(near, far))
}

// The value of a whole subtree of `chunks` chunks in each lane, `apart` chunks from lane to lane, whose encoding
// begins in lane 0 at place `at`. Where a parent of the encoding has other values, `same` becomes false.
pub(crate) fn text_lanes(
    mode: &Mode,
    first: u64,
    apart: u64,
    text: &[u8],
    at: usize,
    step: usize,
    chunks: usize,
    same: &mut bool,
) -> [u32x8; 8]
    requires some { 0 < chunks }
    requires number { first + apart * 7 + chunks < 2 ^ 54 }
    requires len { at + step * 7 + 256 + whole_len true chunks ≤ length text.now }
    ensures kept { IsTrue same.new → IsTrue same.old }
    ensures whole { IsTrue same.new → (j : ℕ) → IsPowerOfTwo chunks → j < 8
        → IsWholeOf true mode.now (first + apart * j) chunks (lane8 j result) (piece text.now (lane_place at step j) (whole_len true chunks)) }
{
    if chunks == 1 {
        return spaced_chunks(mode, first, apart, text, at, step);
    }
    let half = chunks / 2;
    let part = (CHUNK_LEN + PARENT_LEN) * half - PARENT_LEN;
    let below = at + PARENT_LEN;
    let left = text_lanes(mode, first, apart, text, below, step, half, same);
    let right = text_lanes(
        mode,
        first + half as u64,
        apart,
        text,
        below + part,
        step,
        half,
        same,
    );
    if !says(text, at, step, &left, &right) {
        *same = false;
    }
    parent_lanes(mode, &left, &right)
}

// The value of the parent of two parts in each lane, of which the encoding tells the values.
fn told_lanes(mode: &Mode, text: &[u8], at: usize, step: usize) -> [u32x8; 8]
    requires { at + step * 7 + 320 ≤ length text.now }
    ensures { (j : ℕ) → j < 8 → lane8 j result ≡ cv (parent_input mode.now
        (words_of 8 (piece text.now (lane_place at step j) 32)) (words_of 8 (piece text.now (lane_place at step j + 32) 32))) }
{
    let left = spaced_values(text, at, step);
    let right = spaced_values(text, at + CV_LEN, step);
    parent_lanes(mode, &left, &right)
}

// As `text_lanes`, of an encoding without chunks, and of whole subtrees of `pairs` pairs of chunks.
pub(crate) fn outline_lanes(
    mode: &Mode,
    text: &[u8],
    at: usize,
    step: usize,
    pairs: usize,
    same: &mut bool,
) -> [u32x8; 8]
    requires some { 0 < pairs }
    requires len { at + step * 7 + 192 + 128 * pairs ≤ length text.now }
    ensures kept { IsTrue same.new → IsTrue same.old }
    ensures whole { IsTrue same.new → (j number : ℕ) → IsPowerOfTwo pairs → j < 8
        → IsWholeOf false mode.now number (pairs + pairs) (lane8 j result) (piece text.now (lane_place at step j) (whole_len false (pairs + pairs))) }
{
    if pairs == 1 {
        return told_lanes(mode, text, at, step);
    }
    let half = pairs / 2;
    let part = 2 * PARENT_LEN * half - PARENT_LEN;
    let below = at + PARENT_LEN;
    let left = outline_lanes(mode, text, below, step, half, same);
    let right = outline_lanes(mode, text, below + part, step, half, same);
    if !says(text, at, step, &left, &right) {
        *same = false;
    }
    parent_lanes(mode, &left, &right)
}
