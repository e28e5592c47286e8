ghost use Rattle.std.specs.Prelude.{◌≡◌, ◌≢◌, ◌↔◌, ℕ, ◌+◌, ◌-◌, ◌*◌, ◌^◌, ◌<◌, ◌≤◌, List, [], ◌∷◌, ◌++◌, length, map, take, true, false, IfErr, IfNone, IfOk, IfSome, OnErr, Some};
ghost use Rattle.std.specs.Option.{option_map};
ghost use Rattle.b3tree.specs.Tree.{left_len};
ghost use Rattle.bao_text.specs.declared.choice.Choice.{Choice};
ghost use Rattle.bao_text.specs.Choice.{chunk_count};
ghost use Rattle.bao_text.specs.Nodes.{Side, TreeNode, nodes, subtree_nodes, subtree_size};
ghost use Rattle.berylwool.specs.Outlines.{HasParentsAmong};
ghost use Rattle.berylwool.specs.Placed.{node_over, outboard_places, over_no_byte, placed_at, placed_of};

use crate::status::{ROOM, TOO_LONG};
use b3tree::{CHUNK_LEN, left_len};
use bao_text::{Choice, LENGTH_LEN, PARENT_LEN, encoded_len, subtree_size};

/// A node of a slice and its offsets, as C has them: `kind` and `number` as in `BwNode`, and its `size` in
/// bytes in an encoding.
///
/// It covers `len` bytes of the blob from byte `start` on. It begins at byte `combined_at` of the combined
/// encoding and at byte `outboard_at` of the outboard encoding, which is 0 for a chunk.
#[repr(C)]
#[derive(Clone, Copy)]
pub struct BwPlaced {
    pub kind: u32,
    pub size: u32,
    pub number: u64,
    pub start: u64,
    pub len: u64,
    pub combined_at: u64,
    pub outboard_at: u64,
}

// Puts a node after the first `count` of a buffer. Returns how many there are then, or none if the buffer is
// full.
fn put_node(out: &mut [BwPlaced], count: usize, node: BwPlaced) -> Option<usize>
    requires { count ≤ length out.old }
    ensures count { IfSome result (λ k. (k ≡ count + 1) × (k ≤ length out.new)) }
    ensures node { IfSome result (λ k. take k out.new ≡ take count out.old ++ node ∷ []) }
    ensures full { IfNone result (length out.old ≡ count) }
    ensures size { length out.new ≡ length out.old }
{
    if count == out.len() {
        return None;
    }
    out[count] = node;
    Some(count + 1)
}

// Chunk `number`, which has `len` bytes.
fn chunk(number: u64, len: u64, combined_at: u64) -> BwPlaced
    requires len { len ≤ 1024 }
    requires range { 1024 * number + len ≤ 2 ^ 64 - 1 }
    ensures { (total : ℕ) (sides : List Side) → result ≡ placed_of total (record { is_chunk = true; number = number; len = len; sides = sides; source = combined_at }) }
{
    BwPlaced {
        kind: 1,
        size: len as u32,
        number,
        start: CHUNK_LEN as u64 * number,
        len,
        combined_at,
        outboard_at: 0,
    }
}

// The parent over `len` bytes from chunk `number` on whose right child begins with chunk `middle`.
fn parent(number: u64, middle: u64, len: u64, combined_at: u64, outboard_at: u64) -> BwPlaced
    requires range { 1024 * number + len ≤ 2 ^ 64 - 1 }
    ensures { result ≡ record { kind = 0; size = 64; number = middle; start = 1024 * number; len = len; combined_at = combined_at; outboard_at = outboard_at } }
{
    BwPlaced {
        kind: 0,
        size: PARENT_LEN as u32,
        number: middle,
        start: CHUNK_LEN as u64 * number,
        len,
        combined_at,
        outboard_at,
    }
}

// Puts the wanted nodes of the subtree over `n` bytes from chunk `number` on after the first `count`. The
// subtree begins at offset `combined_at` of a combined encoding, and its parents at offset `outboard_at` of an
// outboard encoding.
fn put_subtree(
    choice: &Choice,
    number: u64,
    n: u64,
    combined_at: u64,
    outboard_at: u64,
    out: &mut [BwPlaced],
    count: usize,
) -> Option<usize>
    requires range { 1024 * number + n ≤ 2 ^ 64 - 1 }
    requires combined { combined_at + subtree_size n < 2 ^ 64 }
    requires outboard { outboard_at + 64 * (chunk_count n - 1) < 2 ^ 64 }
    requires chunks { choice.now.chunks ≡ true }
    requires count { count ≤ length out.old }
    ensures count { IfSome result (λ k. (sides : List Side) → (k ≤ length out.new) × (k ≡ count + length (subtree_nodes choice.now number n sides combined_at))) }
    ensures nodes { IfSome result (λ k. (total : ℕ) (own : Choice) (sides : List Side) → HasParentsAmong (outboard_places total) own number n sides combined_at outboard_at
        → take k out.new ≡ take count out.old ++ map (placed_of total) (subtree_nodes choice.now number n sides combined_at)) }
    ensures full { IfNone result ((sides : List Side) → length out.old < count + length (subtree_nodes choice.now number n sides combined_at)) }
    ensures size { length out.new ≡ length out.old }
{
    let start = CHUNK_LEN as u64 * number;
    if !choice.wants(start, n) {
        return Some(count);
    }
    if n <= CHUNK_LEN as u64 {
        return put_node(out, count, chunk(number, n, combined_at));
    }
    let left_len = left_len(n);
    let left_chunks = left_len / CHUNK_LEN as u64;
    let middle = number + left_chunks;
    let top = put_node(
        out,
        count,
        parent(number, middle, n, combined_at, outboard_at),
    )?;
    let below = combined_at + PARENT_LEN as u64;
    let near = put_subtree(
        choice,
        number,
        left_len,
        below,
        outboard_at + PARENT_LEN as u64,
        out,
        top,
    )?;
    put_subtree(
        choice,
        middle,
        n - left_len,
        below + subtree_size(left_len) as u64,
        outboard_at + PARENT_LEN as u64 * left_chunks,
        out,
        near,
    )
}

/// Lists the nodes of the slice (`start`, `len`) of a blob of `total` bytes, in the order of its encoding, at
/// the front of `out`, with their number in `count`.
#[unsafe(no_mangle)]
pub extern "C" fn bw_slice_nodes(
    total: u64,
    start: u64,
    len: u64,
    out: &mut [BwPlaced],
    count: &mut usize,
) -> u32
    ensures nodes { result ≡ 0 → take count.new out.new ≡ map (placed_of total) (nodes total start len) }
    ensures many { result ≡ 0 → count.new ≡ length (nodes total start len) }
    ensures too_long { result ≡ 201 ↔ (2 ^ 64 ≤ 8 + subtree_size total) }
    ensures no_room { result ≡ 1201 ↔ ((8 + subtree_size total < 2 ^ 64) × (length out.old < length (nodes total start len))) }
    ensures status { result ≢ 0 → result ≢ 201 → result ≡ 1201 }
    ensures same { result ≢ 0 → count.new ≡ count.old }
    ensures untouched { result ≡ 201 → out.new ≡ out.old }
{
    if encoded_len(total) > u128::from(u64::MAX) {
        return TOO_LONG;
    }
    let choice = Choice::of_slice(total, start, len);
    let first = LENGTH_LEN as u64;
    let Some(all) = put_subtree(&choice, 0, total, first, first, out, 0) else {
        return ROOM;
    };
    *count = all;
    0
}

// An entry that covers no byte of the blob.
fn over_no_byte(kind: u32, size: u32) -> BwPlaced
    ensures { result ≡ over_no_byte kind size }
{
    BwPlaced {
        kind,
        size,
        number: 0,
        start: 0,
        len: 0,
        combined_at: 0,
        outboard_at: 0,
    }
}

// The wanted node of a subtree, which has its offsets as in `put_subtree`, that has byte `at`; else how much of
// `at` is left after these nodes. It descends only where a subtree is wanted in part, along the two edges of
// the wanted positions, and to the node that has the byte.
fn find_node(
    choice: &Choice,
    number: u64,
    n: u64,
    combined_at: u64,
    outboard_at: u64,
    at: u64,
) -> Result<BwPlaced, u64>
    requires range { 1024 * number + n ≤ 2 ^ 64 - 1 }
    requires combined { combined_at + subtree_size n < 2 ^ 64 }
    requires outboard { outboard_at + 64 * (chunk_count n - 1) < 2 ^ 64 }
    requires chunks { choice.now.chunks ≡ true }
    ensures found { IfOk result (λ node. (total : ℕ) (own : Choice) (sides : List Side) (rest : List TreeNode) → HasParentsAmong (outboard_places total) own number n sides combined_at outboard_at
        → option_map (placed_of total) (node_over (subtree_nodes choice.now number n sides combined_at ++ rest) at) ≡ Some node) }
    ensures after { IfErr result (λ left. (sides : List Side) (rest : List TreeNode)
        → node_over (subtree_nodes choice.now number n sides combined_at ++ rest) at ≡ node_over rest left) }
{
    let start = CHUNK_LEN as u64 * number;
    if !choice.wants(start, n) {
        return Err(at);
    }
    if n <= CHUNK_LEN as u64 {
        if at < n.max(1) {
            return Ok(chunk(number, n, combined_at));
        }
        return Err(at - n);
    }
    let size = subtree_size(n) as u64;
    if at >= size && choice.covers(start, n) {
        return Err(at - size);
    }
    let left_len = left_len(n);
    let left_chunks = left_len / CHUNK_LEN as u64;
    let middle = number + left_chunks;
    let parent_len = PARENT_LEN as u64;
    if at < parent_len {
        return Ok(parent(number, middle, n, combined_at, outboard_at));
    }
    let below = combined_at + parent_len;
    let near = find_node(
        choice,
        number,
        left_len,
        below,
        outboard_at + parent_len,
        at - parent_len,
    );
    let Err(left) = near else {
        return near;
    };
    let far_at = below + subtree_size(left_len) as u64;
    find_node(
        choice,
        middle,
        n - left_len,
        far_at,
        outboard_at + parent_len * left_chunks,
        left,
    )
}

// What a search found, or no node.
fn found_or_none(found: Result<BwPlaced, u64>) -> BwPlaced
    ensures found { IfOk found (λ node. result ≡ node) }
    ensures none { OnErr found (result ≡ over_no_byte 3 0) }
{
    match found {
        Ok(node) => node,
        Err(_) => over_no_byte(3, 0),
    }
}

/// Finds the node that byte `at` of the encoding of the slice (`start`, `len`) belongs to, for a blob of
/// `total` bytes.
#[unsafe(no_mangle)]
pub extern "C" fn bw_node_at(total: u64, start: u64, len: u64, at: u64, node: &mut BwPlaced) -> u32
    ensures node { result ≡ 0 → node.new ≡ placed_at total start len at }
    ensures too_long { result ≡ 201 ↔ (2 ^ 64 ≤ 8 + subtree_size total) }
    ensures status { result ≢ 0 → result ≡ 201 }
    ensures same { result ≢ 0 → node.new ≡ node.old }
{
    if encoded_len(total) > u128::from(u64::MAX) {
        return TOO_LONG;
    }
    let first = LENGTH_LEN as u64;
    if at < first {
        *node = over_no_byte(2, LENGTH_LEN as u32);
        return 0;
    }
    let choice = Choice::of_slice(total, start, len);
    let found = find_node(&choice, 0, total, first, first, at - first);
    *node = found_or_none(found);
    0
}
