// Laws: the contracts of the calls without a store determine their results. Each function makes one call twice,
// with the same arguments, and ensures that both results are equal. Nothing calls them.

ghost use Rattle.std.specs.Prelude.{◌≡◌, ◌≢◌, ◌↔◌, ◌⊎◌, ℕ, List, length, take};
ghost use Rattle.b3tree.specs.declared.mode.Mode.{Mode};
ghost use Rattle.holders.specs.declared.fixed.Fixed.{Fixed};
ghost use Rattle.berylwool.specs.Handles.{HasOutline, HoldsIn};
ghost use Rattle.berylwool.specs.Modes.{mode_of};
ghost use Rattle.berylwool.specs.Outlines.{IsOutlined};
ghost use Rattle.berylwool.specs.Storing.{IsFront};
ghost use Rattle.berylwool.specs.Subtrees.{ParentsInOutboard};

use crate::about::bw_version;
use crate::checking::bw_check;
use crate::decoding::bw_decode;
use crate::handle::BwHandle;
use crate::hasher::{bw_hasher_finish, bw_hasher_update};
use crate::hashing::bw_hash;
use crate::mode::{BwMode, bw_mode_derive};
use crate::nodes::{BwPlaced, bw_node_at, bw_slice_nodes};
use crate::outlines::{
    BwChunks, bw_outline_check, bw_outline_length, bw_outline_new, bw_outline_slice,
};
use crate::sizes::bw_slice_len;
use crate::slice::BwSlice;
use crate::writing::{bw_cut_slice, bw_encode, bw_outboard, bw_outboard_len, bw_parents};
use std::alloc::Global;

pub fn version_determined() -> (u32, u32)
    ensures { result.0 ≡ result.1 }
{
    (bw_version(), bw_version())
}

pub fn hash_determined(
    mode: &BwMode,
    bytes: &[u8],
    at: u64,
    ours: &mut [u8],
    theirs: &mut [u8],
) -> (u32, u32)
    requires { ours.old ≡ theirs.old }
    ensures status { result.0 ≡ result.1 }
    ensures output { ours.new ≡ theirs.new }
{
    (
        bw_hash(mode, bytes, at, ours),
        bw_hash(mode, bytes, at, theirs),
    )
}

pub fn mode_derive_determined(context: &[u8], ours: &mut BwMode, theirs: &mut BwMode) -> (u32, u32)
    requires { ours.old ≡ theirs.old }
    ensures status { result.0 ≡ result.1 }
    ensures mode { ours.new ≡ theirs.new }
{
    (
        bw_mode_derive(context, ours),
        bw_mode_derive(context, theirs),
    )
}

pub fn outboard_len_determined(len: u64) -> (u64, u64)
    ensures { result.0 ≡ result.1 }
{
    (bw_outboard_len(len), bw_outboard_len(len))
}

pub fn slice_len_determined(total: u64, start: u64, len: u64) -> (u64, u64)
    ensures { result.0 ≡ result.1 }
{
    (
        bw_slice_len(total, start, len),
        bw_slice_len(total, start, len),
    )
}

// The nodes of a slice. Both buffers have the same length.
pub fn slice_nodes_determined(
    total: u64,
    start: u64,
    len: u64,
    ours: &mut [BwPlaced],
    theirs: &mut [BwPlaced],
    used: &mut usize,
    also: &mut usize,
) -> (u32, u32)
    requires { length ours.old ≡ length theirs.old }
    ensures status { result.0 ≡ result.1 }
    ensures count { result.0 ≡ 0 → used.new ≡ also.new }
    ensures nodes { result.0 ≡ 0 → take used.new ours.new ≡ take also.new theirs.new }
{
    (
        bw_slice_nodes(total, start, len, ours, used),
        bw_slice_nodes(total, start, len, theirs, also),
    )
}

// The node that has a byte.
pub fn node_at_determined(
    total: u64,
    start: u64,
    len: u64,
    at: u64,
    ours: &mut BwPlaced,
    theirs: &mut BwPlaced,
) -> (u32, u32)
    requires { ours.old ≡ theirs.old }
    ensures status { result.0 ≡ result.1 }
    ensures node { ours.new ≡ theirs.new }
{
    (
        bw_node_at(total, start, len, at, ours),
        bw_node_at(total, start, len, at, theirs),
    )
}

// An encoding that is written: one call may run out of memory (401).
pub fn encode_determined(
    alloc: Global,
    mode: &BwMode,
    bytes: &[u8],
    ours: &mut [u8],
    theirs: &mut [u8],
    used: &mut usize,
    also: &mut usize,
    root: &mut [u8; 32],
    its: &mut [u8; 32],
) -> (u32, u32)
    requires { ours.old ≡ theirs.old }
    ensures status { (result.0 ≡ result.1) ⊎ (result.0 ≡ 401) ⊎ (result.1 ≡ 401) }
    ensures text { result.0 ≡ result.1 → ours.new ≡ theirs.new }
    ensures used { result.0 ≡ 0 → result.1 ≡ 0 → (used.new ≡ also.new) × (root.new ≡ its.new) }
{
    let one = bw_encode(alloc, mode, bytes, ours, used, root);
    let other = bw_encode(alloc, mode, bytes, theirs, also, its);
    (one, other)
}

pub fn outboard_determined(
    alloc: Global,
    mode: &BwMode,
    bytes: &[u8],
    ours: &mut [u8],
    theirs: &mut [u8],
    used: &mut usize,
    also: &mut usize,
    root: &mut [u8; 32],
    its: &mut [u8; 32],
) -> (u32, u32)
    requires { ours.old ≡ theirs.old }
    ensures status { (result.0 ≡ result.1) ⊎ (result.0 ≡ 401) ⊎ (result.1 ≡ 401) }
    ensures text { result.0 ≡ result.1 → ours.new ≡ theirs.new }
    ensures used { result.0 ≡ 0 → result.1 ≡ 0 → (used.new ≡ also.new) × (root.new ≡ its.new) }
{
    let one = bw_outboard(alloc, mode, bytes, ours, used, root);
    let other = bw_outboard(alloc, mode, bytes, theirs, also, its);
    (one, other)
}

pub fn parents_determined(
    alloc: Global,
    mode: &BwMode,
    first: u64,
    bytes: &[u8],
    ours: &mut [u8],
    theirs: &mut [u8],
    used: &mut usize,
    also: &mut usize,
) -> (u32, u32)
    requires { ours.old ≡ theirs.old }
    ensures status { (result.0 ≡ result.1) ⊎ (result.0 ≡ 401) ⊎ (result.1 ≡ 401) }
    ensures text { result.0 ≡ result.1 → ours.new ≡ theirs.new }
    ensures used { result.0 ≡ 0 → result.1 ≡ 0 → used.new ≡ also.new }
{
    let one = bw_parents(alloc, mode, first, bytes, ours, used);
    let other = bw_parents(alloc, mode, first, bytes, theirs, also);
    (one, other)
}

// What `bw_parents` writes of a subtree of a blob is in the blob's outboard encoding, at the offset that `bw_slice_nodes`
// lists for its parent.
pub fn parents_in_outboard()
    ensures { ParentsInOutboard }
{}

pub fn cut_slice_determined(
    alloc: Global,
    text: &[u8],
    start: u64,
    len: u64,
    ours: &mut [u8],
    theirs: &mut [u8],
    used: &mut usize,
    also: &mut usize,
) -> (u32, u32)
    requires { ours.old ≡ theirs.old }
    ensures status { (result.0 ≡ result.1) ⊎ (result.0 ≡ 401) ⊎ (result.1 ≡ 401) }
    ensures text { result.0 ≡ result.1 → ours.new ≡ theirs.new }
    ensures used { result.0 ≡ 0 → result.1 ≡ 0 → used.new ≡ also.new }
{
    let one = bw_cut_slice(alloc, text, start, len, ours, used);
    let other = bw_cut_slice(alloc, text, start, len, theirs, also);
    (one, other)
}

// Whether an encoding is accepted. That its first fault is determined is a law of `bao_check`.
pub fn check_determined(
    alloc: Global,
    slice: &BwSlice,
    text: &[u8],
    at: &mut u64,
    place: &mut u64,
) -> (u32, u32)
    ensures { result.0 ≡ 0 ↔ result.1 ≡ 0 }
{
    let one = bw_check(alloc, slice, text, at);
    let other = bw_check(alloc, slice, text, place);
    (one, other)
}

// What an encoding is decoded to. That its first fault is determined is a law of `bao_check`.
pub fn decode_determined(
    alloc: Global,
    slice: &BwSlice,
    text: &[u8],
    ours: &mut [u8],
    theirs: &mut [u8],
    used: &mut usize,
    also: &mut usize,
    total: &mut u64,
    its: &mut u64,
    at: &mut u64,
    place: &mut u64,
) -> (u32, u32)
    requires { ours.old ≡ theirs.old }
    ensures accepted { result.0 ≡ 0 ↔ result.1 ≡ 0 }
    ensures room { result.0 ≡ 1201 ↔ result.1 ≡ 1201 }
    ensures bytes { ours.new ≡ theirs.new }
    ensures used { ((result.0 ≡ 0) ⊎ (result.0 ≡ 1201)) → used.new ≡ also.new }
    ensures total { result.0 ≡ 0 → total.new ≡ its.new }
{
    let one = bw_decode(alloc, slice, text, ours, used, total, at);
    let other = bw_decode(alloc, slice, text, theirs, also, its, place);
    (one, other)
}

// The outboard encoding that an outline has: a call may run out of memory (1203).
pub fn outline_new_determined(
    alloc: Global,
    mode: &BwMode,
    root: &[u8; 32],
    outboard: &[u8],
    a: &mut BwHandle,
    b: &mut BwHandle,
    at: &mut u64,
    place: &mut u64,
) -> (u32, u32)
    ensures accepted { ((result.0 ≡ 0) ⊎ (result.0 ≡ 1203)) ↔ ((result.1 ≡ 0) ⊎ (result.1 ≡ 1203)) }
    ensures outline { result.0 ≡ 0 → result.1 ≡ 0 → HasOutline (IsOutlined (mode_of mode.now) root.now outboard.now) a.new.held
        × HasOutline (IsOutlined (mode_of mode.now) root.now outboard.now) b.new.held }
{
    let one = bw_outline_new(alloc, mode, root, outboard, a, at);
    let other = bw_outline_new(alloc, mode, root, outboard, b, place);
    (one, other)
}

pub fn outline_length_determined(
    alloc: Global,
    outline: &mut BwHandle,
    ours: &mut u64,
    theirs: &mut u64,
) -> (u32, u32)
    ensures status { result.0 ≡ 0 ↔ result.1 ≡ 0 }
    ensures length { result.0 ≡ 0 → ours.new ≡ theirs.new }
{
    (
        bw_outline_length(alloc, outline, ours),
        bw_outline_length(alloc, outline, theirs),
    )
}

// Whether chunks are accepted beside an outline. That their first fault is determined is a law of `bao_check`.
pub fn outline_check_determined(
    alloc: Global,
    outline: &mut BwHandle,
    which: &BwChunks,
    chunks: &[u8],
    at: &mut u64,
    place: &mut u64,
) -> (u32, u32)
    ensures accepted { result.0 ≡ 0 ↔ result.1 ≡ 0 }
    ensures chunks { result.0 ≡ 1210 ↔ result.1 ≡ 1210 }
    ensures no_outline { result.0 ≡ 1202 ↔ result.1 ≡ 1202 }
{
    let one = bw_outline_check(alloc, outline, which, chunks, at);
    let other = bw_outline_check(alloc, outline, which, chunks, place);
    (one, other)
}

// The slice that these chunks make: one call may run out of memory (401).
pub fn outline_slice_determined(
    alloc: Global,
    outline: &mut BwHandle,
    which: &BwChunks,
    chunks: &[u8],
    ours: &mut [u8],
    theirs: &mut [u8],
    used: &mut usize,
    also: &mut usize,
    at: &mut u64,
    place: &mut u64,
) -> (u32, u32)
    requires { ours.old ≡ theirs.old }
    ensures text { result.0 ≡ 0 → result.1 ≡ 0 → (ours.new ≡ theirs.new) × (used.new ≡ also.new) }
    ensures chunks { result.0 ≡ 1210 ↔ result.1 ≡ 1210 }
    ensures no_outline { result.0 ≡ 1202 ↔ result.1 ≡ 1202 }
{
    let one = bw_outline_slice(alloc, outline, which, chunks, ours, used, at);
    let other = bw_outline_slice(alloc, outline, which, chunks, theirs, also, place);
    (one, other)
}

// Two hashers of the same mode with the same input.
pub fn hasher_update_determined(
    alloc: Global,
    a: &mut BwHandle,
    b: &mut BwHandle,
    bytes: &[u8],
) -> (u32, u32)
    ensures { (mode : Mode) (s : List ℕ) → HoldsIn a.old.held mode s → HoldsIn b.old.held mode s → (result.0 ≡ 201 ↔ result.1 ≡ 201) }
{
    (
        bw_hasher_update(alloc, a, bytes),
        bw_hasher_update(alloc, b, bytes),
    )
}

pub fn hasher_finish_determined(
    alloc: Global,
    a: &mut BwHandle,
    b: &mut BwHandle,
    at: u64,
    ours: &mut [u8],
    theirs: &mut [u8],
) -> (u32, u32)
    requires { length ours.old ≡ length theirs.old }
    ensures fits { result.0 ≡ 1208 ↔ result.1 ≡ 1208 }
    ensures output { result.0 ≡ 0 → result.1 ≡ 0 → (mode : Mode) (s : List ℕ) → HoldsIn a.old.held mode s → HoldsIn b.old.held mode s → ours.new ≡ theirs.new }
{
    (
        bw_hasher_finish(alloc, a, at, ours),
        bw_hasher_finish(alloc, b, at, theirs),
    )
}

// Which chunks are stored of an encoding that isn't accepted: where its first fault is determines it.
pub fn front_determined()
    ensures { (fixed : Fixed) (text : List ℕ) (start len at part other : ℕ) → IsFront fixed text start len at part → IsFront fixed text start len at other → part ≡ other }
{}
