// Eight lanes over a text in pre-order, in which parents stand between the lanes' parts: lane `j` begins
// `step * j` bytes and `j / 2 + j / 4` parents after lane 0.

ghost use Rattle.std.specs.Prelude.{◌≡◌, ℕ, ◌+◌, ◌*◌, ◌^◌, ◌<◌, ◌≤◌, ◌++◌, length};
ghost use Rattle.b3word.specs.Compression.{cv};
ghost use Rattle.b3word.specs.Lanes.{lane8, lane16};
ghost use Rattle.b3tree.specs.Bytes.{words_of};
ghost use Rattle.b3tree.specs.Chunk.{last_chunk_input};
ghost use Rattle.b3tree.specs.Pieces.{lane_place, piece};

use crate::chunk::{BLOCK_LEN, block_flags};
use crate::lanes::{BLOCKS, half_block, high_words, key_lanes, low_words};
use crate::mode::Mode;
use b3word::{cv_lanes, joined, transposed};
use std::simd::u32x8;

/// Returns in each lane 32 bytes of `text` as words: lane 0 reads from offset `at` on, and lane `j` from `step
/// * j` bytes and `j / 2 + j / 4` parents later.
#[inline(always)]
pub fn spaced_values(text: &[u8], at: usize, step: usize) -> [u32x8; 8]
    requires { at + step * 7 + 288 ≤ length text.now }
    ensures { (j : ℕ) → j < 8 → lane8 j result ≡ words_of 8 (piece text.now (lane_place at step j) 32) }
{
    transposed(&[
        half_block(text, at),
        half_block(text, at + step),
        half_block(text, at + step * 2 + BLOCK_LEN),
        half_block(text, at + step * 3 + BLOCK_LEN),
        half_block(text, at + step * 4 + 3 * BLOCK_LEN),
        half_block(text, at + step * 5 + 3 * BLOCK_LEN),
        half_block(text, at + step * 6 + 4 * BLOCK_LEN),
        half_block(text, at + step * 7 + 4 * BLOCK_LEN),
    ])
}

// The words of 64 bytes.
#[inline(always)]
fn spaced_words(text: &[u8], at: usize, step: usize) -> [u32x8; 16]
    requires { at + step * 7 + 320 ≤ length text.now }
    ensures { (j : ℕ) → j < 8 → lane16 j result
        ≡ words_of 8 (piece text.now (lane_place at step j) 32) ++ words_of 8 (piece text.now (lane_place at step j + 32) 32) }
{
    let front = spaced_values(text, at, step);
    let back = spaced_values(text, at + BLOCK_LEN / 2, step);
    joined(&front, &back)
}

/// Returns in each lane the chaining value of a whole chunk of `text`, which begins where `spaced_values`
/// reads.
///
/// The chunk in lane `j` has index `first + apart * j`.
pub fn spaced_chunks(
    mode: &Mode,
    first: u64,
    apart: u64,
    text: &[u8],
    at: usize,
    step: usize,
) -> [u32x8; 8]
    requires number { first + apart * 7 < 2 ^ 64 }
    requires len { at + step * 7 + 1280 ≤ length text.now }
    ensures { (j : ℕ) → j < 8
        → lane8 j result ≡ cv (last_chunk_input mode.now (first + apart * j) (piece text.now (lane_place at step j) 1024)) }
{
    let t_low = low_words(first, apart);
    let t_high = high_words(first, apart);
    let len = u32x8::splat(BLOCK_LEN as u32);
    let mut h = key_lanes(mode);
    'next_block: for k in 0..BLOCKS {
        let m = spaced_words(text, at + BLOCK_LEN * k, step);
        let flags = u32x8::splat(block_flags(mode, BLOCKS, k));
        let next = cv_lanes::<3>(&h, &m, t_low, t_high, len, flags);
        h = next;
    }
    h
}
