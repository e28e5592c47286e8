// The slice made from an outboard encoding and the bytes of chunks.

ghost use Rattle.std.specs.Prelude.{◌≡◌, ℕ, ◌+◌, ◌-◌, ◌*◌, ◌^◌, ◌≤◌, List, ◌++◌, length, true, IfOk, OnOk};
ghost use Rattle.std.specs.List.{flat_map};
ghost use Rattle.bao_check.specs.Beside.{node_beside};
ghost use Rattle.bao_text.specs.declared.choice.Choice.{Choice};
ghost use Rattle.bao_text.specs.Choice.{chunk_count};
ghost use Rattle.bao_text.specs.Nodes.{Side, subtree_nodes};
ghost use Rattle.berylwool.specs.Outlines.{AreBeside, HasParentsAt, bare_text, outlined_text};

use crate::outlined::Outlined;
use b3tree::{CHUNK_LEN, left_len};
use bao_text::{Choice, LENGTH_LEN, PARENT_LEN, part_of};
use std::alloc::{AllocError, Global};

// Appends the wanted nodes of the subtree over `n` bytes from chunk `number` on: its parents, which are in the
// outboard encoding `outline` from offset `at` on, and its chunks, which are in `chunks` one after another from
// chunk `first` on.
fn append_nodes(
    outline: &[u8],
    first: u64,
    chunks: &[u8],
    choice: &Choice,
    number: u64,
    n: u64,
    at: usize,
    into: &mut Vec<u8>,
) -> Result<(), AllocError>
    requires range { 1024 * number + n ≤ 2 ^ 64 - 1 }
    requires fits { at + 64 * (chunk_count n - 1) ≤ length outline.now }
    requires chunks { choice.now.chunks ≡ true }
    ensures { OnOk result ((own : Choice) (sides : List Side) (source : ℕ) → HasParentsAt outline.now own number n sides source at
        → into.new.items ≡ into.old.items ++ flat_map (node_beside outline.now first chunks.now) (subtree_nodes choice.now number n sides source)) }
{
    let chunk_len = CHUNK_LEN as u64;
    if !choice.wants(chunk_len * number, n) {
        return Ok(());
    }
    if n <= chunk_len {
        let from = chunk_len * number.saturating_sub(first);
        into.extend_from_slice(part_of(chunks, u128::from(from), u128::from(n)))?;
        return Ok(());
    }
    into.extend_from_slice(&outline[at..at + PARENT_LEN])?;
    let left_len = left_len(n);
    let left_chunks = left_len / chunk_len;
    append_nodes(
        outline,
        first,
        chunks,
        choice,
        number,
        left_len,
        at + PARENT_LEN,
        into,
    )?;
    append_nodes(
        outline,
        first,
        chunks,
        choice,
        number + left_chunks,
        n - left_len,
        at + PARENT_LEN * left_chunks as usize,
        into,
    )
}

// The slice of `count` chunks from chunk `first` on, whose bytes are `chunks`.
pub(crate) fn slice_beside(
    alloc: Global,
    it: &Outlined,
    first: u64,
    count: u64,
    chunks: &[u8],
) -> Result<Vec<u8>, AllocError>
    requires { AreBeside first count chunks.now it.now }
    ensures { IfOk result (λ text. text.items ≡ bare_text (outlined_text it.now) first count chunks.now) }
{
    let outline = it.text.as_slice();
    let total = it.claimed();
    let chunk_len = CHUNK_LEN as u64;
    let choice = Choice::of_slice(total, chunk_len * first, chunk_len.saturating_mul(count));
    let mut text = Vec::with_capacity(alloc, chunks.len())?;
    text.extend_from_slice(&outline[..LENGTH_LEN])?;
    append_nodes(
        outline, first, chunks, &choice, 0, total, LENGTH_LEN, &mut text,
    )?;
    Ok(text)
}
