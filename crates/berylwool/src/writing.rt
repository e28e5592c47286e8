ghost use Rattle.std.specs.Prelude.{◌≡◌, ◌≢◌, ◌↔◌, ◌⊎◌, ℕ, ◌+◌, ◌-◌, ◌*◌, ◌^◌, ◌<◌, ◌≤◌, ◌++◌, IfOk, IsTrue, drop, length, min};
ghost use Rattle.b3tree.specs.Hashing.{hash};
ghost use Rattle.bao_text.specs.Choice.{chunk_count, of_outboard};
ghost use Rattle.bao_text.specs.Texts.{combined_text, outboard_text, subtree_text};
ghost use Rattle.bao_text.specs.Cut.{cut_text};
ghost use Rattle.berylwool.specs.Modes.{IsKnown, mode_of};
ghost use Rattle.berylwool.specs.Subtrees.{IsSubtree};

use crate::mode::BwMode;
use crate::room::put;
use crate::status::{NO_MODE, NO_SUBTREE, ROOM, TOO_LONG};
use b3tree::{CHUNK_LEN, Hash, Mode, left_len};
use bao_text::{
    Choice, LENGTH_LEN, Memory, append_subtree, combined, cut_slice, encoded_len, outboard,
    outboard_len, slice,
};
use std::alloc::Global;

/// Returns the length in bytes of the outboard encoding of a blob of `len` bytes.
#[unsafe(no_mangle)]
pub extern "C" fn bw_outboard_len(len: u64) -> u64
    ensures { result ≡ 8 + 64 * (chunk_count len - 1) }
{
    outboard_len(len) as u64
}

// Whether an encoding of this length fits a buffer; if not, its length is in `used`.
pub(crate) fn fits(size: u128, out: &[u8], used: &mut usize) -> bool
    ensures fits { IsTrue result ↔ (size ≤ length out.now) }
    ensures told { (¬ IsTrue result) → used.new ≡ min size (2 ^ 64 - 1) }
{
    if size <= out.len() as u128 {
        return true;
    }
    *used = match usize::try_from(size) {
        Ok(size) => size,
        Err(_) => usize::MAX,
    };
    false
}

// Writes an encoding, its length, and the hash of the bytes that it encodes.
fn handed(hash: &Hash, text: &[u8], out: &mut [u8], used: &mut usize, root: &mut [u8; 32]) -> u32
    ensures text { result ≡ 0 → out.new ≡ text.now ++ drop used.new out.old }
    ensures used { used.new ≡ length text.now }
    ensures root { result ≡ 0 → root.new ≡ hash.now.0 }
    ensures room { result ≡ 1201 ↔ (length out.old < length text.now) }
    ensures status { result ≢ 0 → result ≡ 1201 }
    ensures same { result ≢ 0 → out.new ≡ out.old }
{
    *used = text.len();
    if !put(text, out) {
        return ROOM;
    }
    *root = hash.0;
    0
}

/// Writes the combined encoding of `bytes` to the front of `out`, with its length in `used`, and the hash of
/// `bytes` to `root`.
#[unsafe(no_mangle)]
pub extern "C" fn bw_encode(
    alloc: Global,
    mode: &BwMode,
    bytes: &[u8],
    out: &mut [u8],
    used: &mut usize,
    root: &mut [u8; 32],
) -> u32
    ensures text { result ≡ 0 → out.new ≡ combined_text (mode_of mode.now) bytes.now ++ drop used.new out.old }
    ensures used { result ≢ 401 → result ≢ 1213 → used.new ≡ length (combined_text (mode_of mode.now) bytes.now) }
    ensures root { result ≡ 0 → root.new ≡ hash (mode_of mode.now) bytes.now }
    ensures unknown { result ≡ 1213 ↔ (¬ IsKnown mode.now) }
    ensures room { result ≡ 1201 ↔ (IsKnown mode.now × (length out.old < length (combined_text (mode_of mode.now) bytes.now))) }
    ensures status { result ≢ 0 → result ≢ 1201 → result ≢ 1213 → result ≡ 401 }
    ensures same { result ≢ 0 → out.new ≡ out.old }
{
    if !mode.is_known() {
        return NO_MODE;
    }
    if !fits(encoded_len(bytes.len() as u64), out, used) {
        return ROOM;
    }
    match combined(alloc, &mode.get(), bytes) {
        Ok((hash, text)) => handed(&hash, text.as_slice(), out, used, root),
        Err(fault) => u32::from(fault.code()),
    }
}

/// Writes the outboard encoding of `bytes` to the front of `out`, with its length in `used`, and the hash of
/// `bytes` to `root`.
#[unsafe(no_mangle)]
pub extern "C" fn bw_outboard(
    alloc: Global,
    mode: &BwMode,
    bytes: &[u8],
    out: &mut [u8],
    used: &mut usize,
    root: &mut [u8; 32],
) -> u32
    ensures text { result ≡ 0 → out.new ≡ outboard_text (mode_of mode.now) bytes.now ++ drop used.new out.old }
    ensures used { result ≢ 401 → result ≢ 1213 → used.new ≡ length (outboard_text (mode_of mode.now) bytes.now) }
    ensures root { result ≡ 0 → root.new ≡ hash (mode_of mode.now) bytes.now }
    ensures unknown { result ≡ 1213 ↔ (¬ IsKnown mode.now) }
    ensures room { result ≡ 1201 ↔ (IsKnown mode.now × (length out.old < length (outboard_text (mode_of mode.now) bytes.now))) }
    ensures status { result ≢ 0 → result ≢ 1201 → result ≢ 1213 → result ≡ 401 }
    ensures same { result ≢ 0 → out.new ≡ out.old }
{
    if !mode.is_known() {
        return NO_MODE;
    }
    if !fits(outboard_len(bytes.len() as u64), out, used) {
        return ROOM;
    }
    match outboard(alloc, &mode.get(), bytes) {
        Ok((hash, text)) => handed(&hash, text.as_slice(), out, used, root),
        Err(fault) => u32::from(fault.code()),
    }
}

// Whether `len` bytes from chunk `first` on are a subtree.
fn is_subtree(first: u64, len: u64) -> bool
    ensures { IsTrue result ↔ IsSubtree first len }
{
    let chunk_len = CHUNK_LEN as u64;
    len <= chunk_len || first % (2 * (left_len(len) / chunk_len)) == 0
}

// The parents of the subtree over `bytes` from chunk `first` on.
fn parents_of(alloc: Global, mode: &Mode, first: u64, bytes: &[u8]) -> Result<Vec<u8>, Memory>
    requires { 1024 * first + length bytes.now < 2 ^ 64 }
    ensures text { IfOk result (λ text. (total : ℕ) → 1024 * first + length bytes.now ≤ total → text.items ≡ subtree_text (of_outboard total) mode.now first bytes.now) }
    ensures size { IfOk result (λ text. length text.items ≡ 64 * (chunk_count (length bytes.now) - 1)) }
{
    let end = CHUNK_LEN as u64 * first + bytes.len() as u64;
    let mut text = Vec::new(alloc);
    append_subtree(&Choice::of_outboard(end), mode, first, bytes, &mut text)?;
    Ok(text)
}

/// Writes the parents of the subtree over `bytes`, whose first chunk is chunk `first` of a blob, to the front of
/// `out` as the blob's outboard encoding has them, with their length in `used`.
#[unsafe(no_mangle)]
pub extern "C" fn bw_parents(
    alloc: Global,
    mode: &BwMode,
    first: u64,
    bytes: &[u8],
    out: &mut [u8],
    used: &mut usize,
) -> u32
    ensures text { result ≡ 0 → (total : ℕ) → 1024 * first + length bytes.now ≤ total
        → out.new ≡ subtree_text (of_outboard total) (mode_of mode.now) first bytes.now ++ drop used.new out.old }
    ensures used { ((result ≡ 0) ⊎ (result ≡ 1201)) → used.new ≡ 64 * (chunk_count (length bytes.now) - 1) }
    ensures unknown { result ≡ 1213 ↔ (¬ IsKnown mode.now) }
    ensures too_long { result ≡ 201 ↔ (IsKnown mode.now × (2 ^ 64 ≤ 1024 * first + length bytes.now)) }
    ensures no_subtree { result ≡ 1216 ↔ (IsKnown mode.now × (1024 * first + length bytes.now < 2 ^ 64) × (¬ IsSubtree first (length bytes.now))) }
    ensures room { result ≡ 1201 ↔ (IsKnown mode.now × (1024 * first + length bytes.now < 2 ^ 64) × IsSubtree first (length bytes.now) × (length out.old < 64 * (chunk_count (length bytes.now) - 1))) }
    ensures status { result ≢ 0 → result ≢ 201 → result ≢ 1201 → result ≢ 1213 → result ≢ 1216 → result ≡ 401 }
    ensures same { result ≢ 0 → out.new ≡ out.old }
{
    if !mode.is_known() {
        return NO_MODE;
    }
    let len = bytes.len() as u64;
    if first > (u64::MAX - len) / CHUNK_LEN as u64 {
        return TOO_LONG;
    }
    if !is_subtree(first, len) {
        return NO_SUBTREE;
    }
    if !fits(outboard_len(len) - LENGTH_LEN as u128, out, used) {
        return ROOM;
    }
    match parents_of(alloc, &mode.get(), first, bytes) {
        Ok(parents) => {
            *used = parents.len();
            if !put(parents.as_slice(), out) {
                return ROOM;
            }
            0
        }
        Err(fault) => u32::from(fault.code()),
    }
}

/// Copies the slice (`start`, `len`) out of the combined encoding `text` to the front of `out`, with its length
/// in `used`, and verifies nothing.
#[unsafe(no_mangle)]
pub extern "C" fn bw_cut_slice(
    alloc: Global,
    text: &[u8],
    start: u64,
    len: u64,
    out: &mut [u8],
    used: &mut usize,
) -> u32
    ensures text { result ≡ 0 → out.new ≡ cut_text text.now start len ++ drop used.new out.old }
    ensures used { result ≢ 401 → used.new ≡ length (cut_text text.now start len) }
    ensures room { result ≡ 1201 → length out.old < length (cut_text text.now start len) }
    ensures status { result ≢ 0 → result ≢ 1201 → result ≡ 401 }
    ensures same { result ≢ 0 → out.new ≡ out.old }
{
    match cut_slice(alloc, text, start, len) {
        Ok(cut) => {
            *used = cut.len();
            if !put(cut.as_slice(), out) {
                return ROOM;
            }
            0
        }
        Err(fault) => u32::from(fault.code()),
    }
}
