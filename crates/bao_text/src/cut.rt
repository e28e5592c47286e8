ghost use Rattle.std.specs.Prelude.{◌≡◌, ℕ, List, true, ◌+◌, ◌-◌, ◌*◌, ◌^◌, ◌<◌, ◌≤◌, ◌++◌, length, take, IfErr, IfOk, OnOk};
ghost use Rattle.bao_text.specs.Cut.{Cuts, claimed, cut_text, slice_len};
ghost use Rattle.b3tree.specs.declared.mode.Mode.{Mode};
ghost use Rattle.bao_text.specs.Texts.{combined_text, slice_text};
ghost use Rattle.bao_text.specs.Nodes.{Side, subtree_nodes, subtree_size};

use crate::choice::Choice;
use crate::fault::Memory;
use crate::places::Places;
use crate::sizes::{LENGTH_LEN, PARENT_LEN, subtree_size};
use b3tree::{CHUNK_LEN, left_len};
use std::alloc::Global;

/// Returns the length in bytes that the first 8 bytes of an encoding claim, little-endian. It isn't verified.
pub fn claimed(text: &[u8]) -> u64
    requires { 8 ≤ length text.now }
    ensures { result ≡ claimed text.now }
{
    u64::from_le_bytes([
        text[0], text[1], text[2], text[3], text[4], text[5], text[6], text[7],
    ])
}

// Appends the wanted nodes of the subtree over `n` bytes from chunk `number` on, which begins at the place `at` of a combined
// encoding, up to the first that isn't wholly there; answers whether all were. A subtree of which everything is wanted
// is copied as one part, so that what is read is read as seldom as can be.
fn append_nodes<P: Places>(
    places: &P,
    choice: &Choice,
    number: u64,
    n: u64,
    at: u128,
    into: &mut Vec<u8>,
) -> Result<bool, P::Fault>
    requires range { 1024 * number + n ≤ 2 ^ 64 - 1 }
    requires room { at + subtree_size n < 2 ^ 128 }
    requires chunks { choice.now.chunks ≡ true }
    ensures cuts { (sides : List Side) → IfOk result (λ whole. Cuts (P.holds places.now) into.old.items into.new.items (subtree_nodes choice.now number n sides at) n whole) }
    ensures kept { take (length into.old.items) into.new.items ≡ into.old.items }
    ensures fault { IfErr result (λ fault. P.fails places.now fault) }
{
    let first = CHUNK_LEN as u64 * number;
    if !choice.wants(first, n) {
        return Ok(true);
    }
    if n <= CHUNK_LEN as u64 || choice.covers(first, n) {
        return places.append(at, subtree_size(n), into);
    }
    if !places.append(at, PARENT_LEN as u128, into)? {
        return Ok(false);
    }
    let left_len = left_len(n);
    let left_at = at + PARENT_LEN as u128;
    if !append_nodes(places, choice, number, left_len, left_at, into)? {
        return Ok(false);
    }
    let right_at = left_at + subtree_size(left_len);
    append_nodes(
        places,
        choice,
        number + left_len / CHUNK_LEN as u64,
        n - left_len,
        right_at,
        into,
    )
}

/// Appends to `into` the slice (`start`, `len`), copied out of the combined encoding that is read from
/// `places`, and verifies nothing.
///
/// The length is read from the first 8 bytes, and the slice's nodes are copied in order. An encoding that ends
/// early is copied as far as it goes: the first incomplete node ends the slice, with the bytes of it that are
/// there. Memory grows with what is copied, not with the claimed length. Fails only with a fault of `places`;
/// `into` then still begins with what it had.
pub fn append_cut<P: Places>(
    places: &P,
    start: u64,
    len: u64,
    into: &mut Vec<u8>,
) -> Result<(), P::Fault>
    ensures cut { (bytes : List ℕ) → P.holds places.now bytes → OnOk result (into.new.items ≡ into.old.items ++ cut_text bytes start len) }
    ensures few { OnOk result ((total : ℕ) × (total < 2 ^ 64) × (length into.new.items ≤ length into.old.items + slice_len total start len)) }
    ensures kept { take (length into.old.items) into.new.items ≡ into.old.items }
    ensures fault { IfErr result (λ fault. P.fails places.now fault) }
{
    let begin = into.len();
    if !places.append(0, LENGTH_LEN as u128, into)? {
        return Ok(());
    }
    let total = claimed(&into.as_slice()[begin..]);
    let choice = Choice::of_slice(total, start, len);
    append_nodes(places, &choice, 0, total, LENGTH_LEN as u128, into)?;
    Ok(())
}

/// Returns the slice (`start`, `len`), cut out of the combined encoding `text` as `append_cut` does, and
/// verifies nothing.
///
/// If `text` is a blob's combined encoding, the result is the blob's slice. Refuses with `Memory` (401).
#[tactic(auto, using(crate::proofs::Laws::laws))]
pub fn cut_slice(alloc: Global, text: &[u8], start: u64, len: u64) -> Result<Vec<u8>, Memory>
    ensures cut { IfOk result (λ v. v.items ≡ cut_text text.now start len) }
    ensures slice { (mode : Mode) (blob : List ℕ) → length blob < 2 ^ 64 → text.now ≡ combined_text mode blob
        → IfOk result (λ v. v.items ≡ slice_text mode blob start len) }
{
    let mut out = Vec::new(alloc);
    append_cut(&text, start, len, &mut out)?;
    Ok(out)
}
