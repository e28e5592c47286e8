ghost use Rattle.std.specs.Prelude.{◌≡◌, ◌+◌, ◌-◌, ◌*◌, ◌^◌, ◌≤◌, ◌++◌, length, max, take, drop, vec_len, IfOk, OnErr, OnOk};
ghost use Rattle.b3tree.specs.Bytes.{bytes_of};
ghost use Rattle.b3tree.specs.Tree.{top_input};
ghost use Rattle.b3tree.specs.Hashing.{hash};
ghost use Rattle.std.specs.List.{flat_map};
ghost use Rattle.bao_text.specs.Choice.{of_combined, of_outboard};
ghost use Rattle.bao_text.specs.Nodes.{chosen_nodes, nodes};
ghost use Rattle.bao_text.specs.Texts.{chosen_text, combined_text, length_text, node_text, outboard_text, slice_text, subtree_text};

use crate::choice::Choice;
use crate::eight::append_eight;
use crate::fault::Memory;
use crate::sizes::{CV_LEN, EIGHT_LEN, LENGTH_LEN, PARENT_LEN, encoded_len, outboard_len};
use b3tree::{
    CHUNK_LEN, Cv, Hash, Input, Mode, cv, eight_parents, left_len, parent_input, root_hash, rooted,
    top_input,
};
use std::alloc::Global;

// Appends `bytes`; where the growth is refused the encoding is unchanged.
pub(crate) fn extend(text: &mut Vec<u8>, bytes: &[u8]) -> Result<(), Memory>
    ensures ok { OnOk result (text.new.items ≡ text.old.items ++ bytes.now) }
    ensures err { OnErr result (text.new.items ≡ text.old.items) }
{
    text.extend_from_slice(bytes).map_err(|_| Memory)
}

// The 64 bytes of the parent of two subtrees with these chaining values.
pub(crate) fn parent_bytes(left: &Cv, right: &Cv) -> [u8; 64]
    ensures { result ≡ bytes_of left.now.0 ++ bytes_of right.now.0 }
{
    let mut bytes = [0; PARENT_LEN];
    bytes[..CV_LEN].copy_from_slice(&left.to_bytes());
    bytes[CV_LEN..].copy_from_slice(&right.to_bytes());
    bytes
}

/// Overwrites the 64 bytes of `text` from offset `at` on with the parent that has these children.
pub fn put_parent(text: &mut Vec<u8>, at: usize, left: &Cv, right: &Cv)
    requires { at + 64 ≤ vec_len text.old }
    ensures { text.new.items ≡ take at text.old.items
        ++ ((bytes_of left.now.0 ++ bytes_of right.now.0) ++ drop (at + 64) text.old.items) }
{
    text.as_mut_slice()[at..at + PARENT_LEN].copy_from_slice(&parent_bytes(left, right));
}

/// Appends to `text` what the choice wants of the subtree over `bytes`, which begins with chunk `first`, as it
/// is in the encoding of the whole blob. Returns the subtree's last compression, as `top_input` does.
///
/// Refuses with `Memory` (401); the content of `text` is then unspecified.
#[tactic(auto, using(crate::proofs::ParentPut::put_together))]
pub fn append_subtree(
    choice: &Choice,
    mode: &Mode,
    first: u64,
    bytes: &[u8],
    text: &mut Vec<u8>,
) -> Result<Input, Memory>
    requires { 1024 * first + length bytes.now ≤ 2 ^ 64 - 1 }
    ensures top { IfOk result (λ x. x ≡ top_input mode.now first bytes.now) }
    ensures text { OnOk result (text.new.items ≡ text.old.items ++ subtree_text choice.now mode.now first bytes.now) }
{
    let len = bytes.len() as u64;
    if !choice.wants(CHUNK_LEN as u64 * first, len) {
        return Ok(top_input(mode, first, bytes));
    }
    if bytes.len() <= CHUNK_LEN {
        if choice.chunks {
            extend(text, bytes)?;
        }
        return Ok(top_input(mode, first, bytes));
    }
    if bytes.len() == EIGHT_LEN && choice.covers(CHUNK_LEN as u64 * first, len) {
        let parents = eight_parents(mode, first, bytes);
        append_eight(choice, &parents, bytes, text)?;
        return Ok(parent_input(mode, &parents.top.left, &parents.top.right));
    }
    // The parent's place is kept free until the values of its parts are there.
    let at = text.len();
    extend(text, &[0; PARENT_LEN])?;
    let left_len = left_len(len);
    let (left, right) = bytes.split_at(left_len as usize);
    let right_first = first + left_len / CHUNK_LEN as u64;
    let left = Cv(cv(&append_subtree(choice, mode, first, left, text)?));
    let right = Cv(cv(&append_subtree(choice, mode, right_first, right, text)?));
    put_parent(text, at, &left, &right);
    Ok(parent_input(mode, &left, &right))
}

// The encoding of `bytes` for a choice, with room for `room` bytes from the start, and the hash.
#[tactic(auto, using(crate::proofs::Laws::laws), unfolding(b3tree::specs::Hashing::hash))]
fn chosen(
    alloc: Global,
    choice: &Choice,
    mode: &Mode,
    bytes: &[u8],
    room: u128,
) -> Result<(Hash, Vec<u8>), Memory>
    ensures hash { IfOk result (λ r. r.0.0 ≡ hash mode.now bytes.now) }
    ensures text { IfOk result (λ r. r.1.items ≡ chosen_text choice.now mode.now bytes.now) }
    ensures nodes { IfOk result (λ r. r.1.items ≡ length_text (length bytes.now)
        ++ flat_map (node_text mode.now bytes.now) (chosen_nodes choice.now (length bytes.now))) }
{
    let room = usize::try_from(room).map_err(|_| Memory)?;
    let mut text = Vec::with_capacity(alloc, room).map_err(|_| Memory)?;
    extend(&mut text, &(bytes.len() as u64).to_le_bytes())?;
    let top = append_subtree(choice, mode, 0, bytes, &mut text)?;
    Ok((root_hash(&rooted(&top)), text))
}

/// Returns the hash of `bytes` in `mode` and their combined encoding. Refuses with `Memory` (401).
pub fn combined(alloc: Global, mode: &Mode, bytes: &[u8]) -> Result<(Hash, Vec<u8>), Memory>
    ensures hash { IfOk result (λ r. r.0.0 ≡ hash mode.now bytes.now) }
    ensures text { IfOk result (λ r. r.1.items ≡ combined_text mode.now bytes.now) }
    ensures nodes { IfOk result (λ r. r.1.items ≡ length_text (length bytes.now)
        ++ flat_map (node_text mode.now bytes.now) (chosen_nodes (of_combined (length bytes.now)) (length bytes.now))) }
{
    let len = bytes.len() as u64;
    chosen(
        alloc,
        &Choice::of_combined(len),
        mode,
        bytes,
        encoded_len(len),
    )
}

/// Returns the hash of `bytes` in `mode` and their outboard encoding. Refuses with `Memory` (401).
pub fn outboard(alloc: Global, mode: &Mode, bytes: &[u8]) -> Result<(Hash, Vec<u8>), Memory>
    ensures hash { IfOk result (λ r. r.0.0 ≡ hash mode.now bytes.now) }
    ensures text { IfOk result (λ r. r.1.items ≡ outboard_text mode.now bytes.now) }
    ensures nodes { IfOk result (λ r. r.1.items ≡ length_text (length bytes.now)
        ++ flat_map (node_text mode.now bytes.now) (chosen_nodes (of_outboard (length bytes.now)) (length bytes.now))) }
{
    let len = bytes.len() as u64;
    chosen(
        alloc,
        &Choice::of_outboard(len),
        mode,
        bytes,
        outboard_len(len),
    )
}

/// Returns the hash of all of `bytes` in `mode` and their slice of `len` bytes from byte `start` on.
///
/// A `len` of 0 counts as 1, a `start` at or past the end selects the last chunk, and `start + len` never
/// wraps. Refuses with `Memory` (401).
pub fn slice(
    alloc: Global,
    mode: &Mode,
    bytes: &[u8],
    start: u64,
    len: u64,
) -> Result<(Hash, Vec<u8>), Memory>
    ensures hash { IfOk result (λ r. r.0.0 ≡ hash mode.now bytes.now) }
    ensures text { IfOk result (λ r. r.1.items ≡ slice_text mode.now bytes.now start len) }
    ensures nodes { IfOk result (λ r. r.1.items ≡ length_text (length bytes.now)
        ++ flat_map (node_text mode.now bytes.now) (nodes (length bytes.now) start len)) }

    // A slice of everything is the combined encoding, a length of 0 counts as 1, and a start at or past
    // the end is the last position.
    ensures everything { start ≡ 0 → length bytes.now ≤ len → IfOk result (λ r. r.1.items ≡ combined_text mode.now bytes.now) }
    ensures empty { len ≡ 0 → IfOk result (λ r. r.1.items ≡ slice_text mode.now bytes.now start 1) }
    ensures late { length bytes.now ≤ start → IfOk result (λ r. r.1.items ≡ slice_text mode.now bytes.now (max (length bytes.now) 1 - 1) 1) }
{
    let total = bytes.len() as u64;
    chosen(
        alloc,
        &Choice::of_slice(total, start, len),
        mode,
        bytes,
        LENGTH_LEN as u128,
    )
}
