ghost use Rattle.std.specs.Prelude.{◌≡◌, ◌≢◌, ◌↔◌, ℕ, ◌+◌, ◌-◌, ◌*◌, ◌^◌, ◌<◌, ◌≤◌, List, [], ◌++◌, drop, length, take, true, IfSome};
ghost use Rattle.std.specs.List.{flat_map};
ghost use Rattle.bao_check.specs.Beside.{beside_text, node_beside};
ghost use Rattle.bao_text.specs.declared.choice.Choice.{Choice};
ghost use Rattle.bao_text.specs.Choice.{chunk_count};
ghost use Rattle.bao_text.specs.Cut.{claimed, cut_text};
ghost use Rattle.bao_text.specs.Nodes.{Side, subtree_nodes, subtree_size};
ghost use Rattle.berylwool.specs.Outlines.{HasParentsAt};
ghost use Rattle.berylwool.specs.Ranges.{HavePart, parts};

use crate::status::{ROOM, TOO_LONG};
use b3tree::{CHUNK_LEN, left_len};
use bao_text::{Choice, LENGTH_LEN, PARENT_LEN, encoded_len, subtree_size};

/// The `len` bytes from byte `at` on, as C has them.
#[repr(C)]
#[derive(Clone, Copy)]
pub struct BwRange {
    pub at: u64,
    pub len: u64,
}

// Puts a range after the first `count` of a buffer, or extends the last of these if it ends where the range
// begins. Returns how many there are then, or none if the buffer is full.
fn put_range(out: &mut [BwRange], count: usize, at: u64, len: u64) -> Option<usize>
    requires count { count ≤ length out.old }
    requires end { at + len < 2 ^ 64 }
    ensures count { IfSome result (λ n. n ≤ length out.new) }
    ensures size { length out.new ≡ length out.old }
    ensures parts { IfSome result (λ n. (text : List ℕ) → parts text (take n out.new) ≡ parts text (take count out.old) ++ take len (drop at text)) }
{
    if count > 0 {
        let last = out[count - 1];
        if last.at <= at && at - last.at == last.len {
            out[count - 1] = BwRange {
                at: last.at,
                len: last.len + len,
            };
            return Some(count);
        }
    }
    if count == out.len() {
        return None;
    }
    out[count] = BwRange { at, len };
    Some(count + 1)
}

// Puts the ranges of the wanted nodes of the subtree over `n` bytes from chunk `number` on, which begins at
// offset `at` of a combined encoding, after the first `count`.
fn put_nodes(
    choice: &Choice,
    number: u64,
    n: u64,
    at: u64,
    out: &mut [BwRange],
    count: usize,
) -> Option<usize>
    requires range { 1024 * number + n ≤ 2 ^ 64 - 1 }
    requires room { at + subtree_size n < 2 ^ 64 }
    requires chunks { choice.now.chunks ≡ true }
    requires count { count ≤ length out.old }
    ensures count { IfSome result (λ n. n ≤ length out.new) }
    ensures size { length out.new ≡ length out.old }
    ensures parts { IfSome result (λ k. (sides : List Side) (text : List ℕ) → at + subtree_size n ≤ length text
        → HavePart text (take count out.old) (take k out.new) (subtree_nodes choice.now number n sides at)) }
{
    let first = CHUNK_LEN as u64 * number;
    if !choice.wants(first, n) {
        return Some(count);
    }
    if n <= CHUNK_LEN as u64 || choice.covers(first, n) {
        return put_range(out, count, at, subtree_size(n) as u64);
    }
    let upper = put_range(out, count, at, PARENT_LEN as u64)?;
    let left_len = left_len(n);
    let left_at = at + PARENT_LEN as u64;
    let near = put_nodes(choice, number, left_len, left_at, out, upper)?;
    let right_at = left_at + subtree_size(left_len) as u64;
    put_nodes(
        choice,
        number + left_len / CHUNK_LEN as u64,
        n - left_len,
        right_at,
        out,
        near,
    )
}

/// Lists the ranges of the combined encoding of a blob of `total` bytes that are the slice (`start`, `len`), in
/// order, at the front of `out`, with their number in `count`.
#[unsafe(no_mangle)]
pub extern "C" fn bw_slice_ranges(
    total: u64,
    start: u64,
    len: u64,
    out: &mut [BwRange],
    count: &mut usize,
) -> u32
    ensures parts { result ≡ 0 → (text : List ℕ) → claimed text ≡ total → 8 + subtree_size total ≤ length text
        → parts text (take count.new out.new) ≡ cut_text text start len }
    ensures within { result ≡ 0 → count.new ≤ length out.new }
    ensures too_long { result ≡ 201 ↔ (2 ^ 64 ≤ 8 + subtree_size total) }
    ensures status { result ≢ 0 → result ≢ 201 → result ≡ 1201 }
{
    if encoded_len(total) > u128::from(u64::MAX) {
        return TOO_LONG;
    }
    let Some(head) = put_range(out, 0, 0, LENGTH_LEN as u64) else {
        return ROOM;
    };
    let choice = Choice::of_slice(total, start, len);
    let Some(ranges) = put_nodes(&choice, 0, total, LENGTH_LEN as u64, out, head) else {
        return ROOM;
    };
    *count = ranges;
    0
}

// Puts the ranges of the wanted parents of the subtree over `n` bytes from chunk `number` on, which are in an
// outboard encoding from offset `at` on, after the first `count`.
fn put_parents(
    choice: &Choice,
    number: u64,
    n: u64,
    at: u64,
    out: &mut [BwRange],
    count: usize,
) -> Option<usize>
    requires range { 1024 * number + n ≤ 2 ^ 64 - 1 }
    requires room { at + 64 * (chunk_count n - 1) < 2 ^ 64 }
    requires chunks { choice.now.chunks ≡ true }
    requires count { count ≤ length out.old }
    ensures count { IfSome result (λ n. n ≤ length out.new) }
    ensures size { length out.new ≡ length out.old }
    ensures parts { IfSome result (λ k. (own : Choice) (first : ℕ) (sides : List Side) (source : ℕ) (text : List ℕ) → HasParentsAt text own number n sides source at
        → parts text (take k out.new) ≡ parts text (take count out.old) ++ flat_map (node_beside text first []) (subtree_nodes choice.now number n sides source)) }
{
    let chunk_len = CHUNK_LEN as u64;
    if !choice.wants(chunk_len * number, n) {
        return Some(count);
    }
    if n <= chunk_len {
        return Some(count);
    }
    let top = put_range(out, count, at, PARENT_LEN as u64)?;
    let left_len = left_len(n);
    let left_chunks = left_len / chunk_len;
    let near = put_parents(choice, number, left_len, at + PARENT_LEN as u64, out, top)?;
    put_parents(
        choice,
        number + left_chunks,
        n - left_len,
        at + PARENT_LEN as u64 * left_chunks,
        out,
        near,
    )
}

/// Lists the ranges of the outboard encoding of a blob of `total` bytes that are its length and the parents of
/// the slice (`start`, `len`), in order, at the front of `out`, with their number in `count`.
#[unsafe(no_mangle)]
pub extern "C" fn bw_outboard_ranges(
    total: u64,
    start: u64,
    len: u64,
    out: &mut [BwRange],
    count: &mut usize,
) -> u32
    ensures parts { result ≡ 0 → (text : List ℕ) → claimed text ≡ total → parts text (take count.new out.new) ≡ beside_text text start len [] }
    ensures within { result ≡ 0 → count.new ≤ length out.new }
    ensures status { result ≢ 0 → result ≡ 1201 }
{
    let Some(first) = put_range(out, 0, 0, LENGTH_LEN as u64) else {
        return ROOM;
    };
    let choice = Choice::of_slice(total, start, len);
    let Some(ranges) = put_parents(&choice, 0, total, LENGTH_LEN as u64, out, first) else {
        return ROOM;
    };
    *count = ranges;
    0
}
