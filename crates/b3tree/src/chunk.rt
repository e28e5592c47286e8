ghost use Rattle.std.specs.Prelude.{◌≡◌, ◌+◌, ◌*◌, ◌<◌, ◌≤◌, length};
ghost use Rattle.b3word.specs.Compression.{cv};
ghost use Rattle.b3tree.specs.Modes.{key_words, mode_flags};
ghost use Rattle.b3tree.specs.Chunk.{padded, block, block_count, block_words, block_flags, block_input, chunk_input, last_chunk_input};
ghost use Rattle.b3tree.specs.Pieces.{before_block};

use crate::bytes::words_of;
use crate::flags::{CHUNK_END, CHUNK_START};
use crate::mode::Mode;
use b3word::{Input, compress};

/// The length of a block in bytes.
pub const BLOCK_LEN: usize = 64;

/// The length of a chunk in bytes.
pub const CHUNK_LEN: usize = 1024;

pub(crate) fn block_count(len: usize) -> usize
    requires { len ≤ 1024 }
    ensures { result ≡ block_count len }
{
    ((len + 63) / BLOCK_LEN).max(1)
}

#[inline(never)]
fn padded(block: &[u8]) -> [u8; 64]
    requires { length block.now ≤ 64 }
    ensures { result ≡ padded block.now }
{
    let mut bytes = [0; BLOCK_LEN];
    bytes[..block.len()].copy_from_slice(block);
    bytes
}

#[inline(always)]
#[tactic(auto, unfolding(crate::specs::Chunk::block_words))]
fn block_words(block: &[u8]) -> [u32; 16]
    requires { length block.now ≤ 64 }
    ensures { result ≡ block_words block.now }
{
    if block.len() == BLOCK_LEN {
        return words_of(block);
    }
    words_of(&padded(block))
}

#[inline(always)]
fn block(chunk: &[u8], k: usize) -> &[u8]
    requires len { length chunk.now ≤ 1024 }
    requires block { k < block_count (length chunk.now) }
    ensures bytes { result.now ≡ block chunk.now k }
    ensures len { length result.now ≤ 64 }
{
    let start = BLOCK_LEN * k;
    let end = chunk.len().min(start + BLOCK_LEN);
    &chunk[start..end]
}

#[inline(always)]
pub(crate) fn block_flags(mode: &Mode, count: usize, k: usize) -> u32
    requires { k < 16 }
    ensures { result ≡ block_flags mode.now count k }
{
    let start = if k == 0 { CHUNK_START } else { 0 };
    let end = if k + 1 == count { CHUNK_END } else { 0 };
    mode.flags() | start | end
}

#[inline(always)]
pub(crate) fn block_input(mode: &Mode, i: u64, chunk: &[u8], k: usize, h: [u32; 8]) -> Input
    requires len { length chunk.now ≤ 1024 }
    requires block { k < block_count (length chunk.now) }
    ensures { result ≡ block_input mode.now i chunk.now k h }
{
    let block = block(chunk, k);
    Input {
        h,
        m: block_words(block),
        t: i,
        b: block.len() as u32,
        d: block_flags(mode, block_count(chunk.len()), k),
    }
}

// The same of a whole chunk, where each block is full.
#[inline(always)]
pub(crate) fn full_block_input(mode: &Mode, i: u64, chunk: &[u8], k: usize, h: [u32; 8]) -> Input
    requires len { length chunk.now ≡ 1024 }
    requires block { k < 16 }
    ensures { result ≡ block_input mode.now i chunk.now k h }
{
    let start = BLOCK_LEN * k;
    Input {
        h,
        m: words_of(&chunk[start..start + BLOCK_LEN]),
        t: i,
        b: BLOCK_LEN as u32,
        d: block_flags(mode, CHUNK_LEN / BLOCK_LEN, k),
    }
}

// As `b3word::cv`, in line.
#[inline(always)]
fn chaining_value(input: &Input) -> [u32; 8]
    ensures { result ≡ cv input.now }
{
    let out = compress(input);
    [
        out[0], out[1], out[2], out[3], out[4], out[5], out[6], out[7],
    ]
}

// What comes before block `to`, where `h` comes before block `from`: the chaining value of the block before it, if it
// isn't the first. The compression is in line, so that the value stays in registers from block to block.
#[inline(never)]
pub(crate) fn value_before(
    mode: &Mode,
    i: u64,
    chunk: &[u8],
    from: usize,
    h: [u32; 8],
    to: usize,
) -> [u32; 8]
    requires len { length chunk.now ≤ 1024 }
    requires order { from ≤ to }
    requires blocks { to ≤ block_count (length chunk.now) }
    ensures { h ≡ before_block mode.now i chunk.now from → result ≡ before_block mode.now i chunk.now to }
{
    let mut value = h;
    'earlier: for j in from..to {
        value = chaining_value(&block_input(mode, i, chunk, j, value));
    }
    value
}

/// Returns the compression input of block `k` (from 0) of chunk number `i`, whose bytes are `chunk` (BLAKE3
/// paper, 2.4).
///
/// A chunk has at most 1,024 bytes, in blocks of 64; an empty chunk has one empty block.
pub fn chunk_input(mode: &Mode, i: u64, chunk: &[u8], k: usize) -> Input
    requires len { length chunk.now ≤ 1024 }
    requires block { k < block_count (length chunk.now) }
    ensures { result ≡ chunk_input mode.now i chunk.now k }
{
    let h = value_before(mode, i, chunk, 0, mode.key_words(), k);
    block_input(mode, i, chunk, k, h)
}

pub(crate) fn last_chunk_input(mode: &Mode, i: u64, chunk: &[u8]) -> Input
    requires { length chunk.now ≤ 1024 }
    ensures { result ≡ last_chunk_input mode.now i chunk.now }
{
    chunk_input(mode, i, chunk, block_count(chunk.len()) - 1)
}
