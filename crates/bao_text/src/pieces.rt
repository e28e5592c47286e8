ghost use Rattle.std.specs.Prelude.{◌≡◌, ℕ, ◌+◌, ◌*◌, ◌^◌, ◌<◌, ◌≤◌, ◌++◌, length, take};
ghost use Rattle.b3tree.specs.declared.mode.Mode.{Mode};
ghost use Rattle.bao_text.specs.Faults.{Writes};
ghost use Rattle.bao_text.specs.Nodes.{subtree_size};
ghost use Rattle.bao_text.specs.Pieces.{HasParents, HasParts, HasSize, whole_text};

use crate::fault::WriteFault;
use crate::sizes::{LENGTH_LEN, PARENT_LEN};
use crate::writer::write_after;
use b3tree::{CHUNK_LEN, left_len};
use std::io::Write;

// The largest subtree whose encoding goes out at once, in bytes of the blob.
const WRITTEN_LEN: usize = 64 * CHUNK_LEN;

/// The most levels of subtrees larger than what is written at once: 2^64 bytes are 2^48 groups.
pub(crate) const LEVELS: u32 = 48;

/// The largest buffer that is written at once: the length, a parent of each level, and a group with its
/// parents.
pub(crate) const ROOM_LEN: usize = LENGTH_LEN
    + PARENT_LEN * LEVELS as usize
    + WRITTEN_LEN
    + PARENT_LEN * 63;

/// A subtree's bytes, beside its parents in pre-order.
#[derive(Clone, Copy)]
pub(crate) struct SubtreeBytes<'a> {
    pub(crate) parents: &'a [u8],
    pub(crate) bytes: &'a [u8],
}

// The encoding of the subtree's own parent, and its left and right part.
fn parts<'a>(subtree: SubtreeBytes<'a>) -> (&'a [u8], SubtreeBytes<'a>, SubtreeBytes<'a>)
    requires more { 1024 < length subtree.bytes.now }
    requires size { HasSize subtree.parents.now subtree.bytes.now }
    ensures parent { length result.0.now ≡ 64 }
    ensures left { HasSize result.1.parents.now result.1.bytes.now }
    ensures right { HasSize result.2.parents.now result.2.bytes.now }
    ensures bytes { length result.1.bytes.now + length result.2.bytes.now ≡ length subtree.entry.bytes.now }
    ensures sizes { 64 + subtree_size (length result.1.bytes.now) + subtree_size (length result.2.bytes.now)
        ≡ subtree_size (length subtree.entry.bytes.now) }
    ensures some { (0 < length result.1.bytes.now) × (0 < length result.2.bytes.now) }
    ensures half { (k : ℕ) → length subtree.entry.bytes.now ≤ 65536 * 2 ^ (k + 1) → length result.1.bytes.now ≤ 65536 * 2 ^ k }
    ensures text { (total : ℕ) (mode : Mode) (first : ℕ) → HasParents total mode first subtree.entry.parents.now subtree.entry.bytes.now
        → HasParts total mode first subtree.entry.bytes.now result.0.now result.1.parents.now result.1.bytes.now
        result.2.parents.now result.2.bytes.now }
{
    let left_len = left_len(subtree.bytes.len() as u64) as usize;
    let (left, right) = subtree.bytes.split_at(left_len);
    let (parent, below) = subtree.parents.split_at(PARENT_LEN);
    let (near, far) = below.split_at(PARENT_LEN * (left_len / CHUNK_LEN - 1));
    let left = SubtreeBytes {
        parents: near,
        bytes: left,
    };
    let right = SubtreeBytes {
        parents: far,
        bytes: right,
    };
    (parent, left, right)
}

// Puts the subtree's combined encoding into the room, from place `at` on.
fn fill(subtree: SubtreeBytes<'_>, room: &mut [u8], at: usize)
    requires size { HasSize subtree.parents.now subtree.bytes.now }
    requires room { at + subtree_size (length subtree.bytes.now) ≤ length room.old }
    ensures { (total : ℕ) (mode : Mode) (first : ℕ) → HasParents total mode first subtree.entry.parents.now subtree.entry.bytes.now
        → take (at + subtree_size (length subtree.entry.bytes.now)) room.new
        ≡ take at room.old ++ whole_text total mode first subtree.entry.bytes.now }
{
    if subtree.bytes.len() <= CHUNK_LEN {
        room[at..at + subtree.bytes.len()].copy_from_slice(subtree.bytes);
        return;
    }
    let (parent, left, right) = parts(subtree);
    let left_at = at + PARENT_LEN;
    room[at..left_at].copy_from_slice(parent);
    fill(left, room, left_at);
    fill(right, room, left_at + left.parents.len() + left.bytes.len());
}

// Writes the first `lead` bytes of the room, and the subtree's combined encoding after them. A larger subtree's
// parent goes out with its left part.
pub(crate) fn write_subtree<W: Write>(
    subtree: SubtreeBytes<'_>,
    levels: u32,
    room: &mut [u8],
    lead: usize,
    before: u128,
    out: &mut W,
) -> Result<(), WriteFault>
    requires size { HasSize subtree.parents.now subtree.bytes.now }
    requires levels { length subtree.bytes.now ≤ 65536 * 2 ^ levels }
    requires room { lead + 64 * levels + 69568 ≤ length room.old }
    requires fits { before + lead + subtree_size (length subtree.bytes.now) < 2 ^ 128 }
    ensures { (total : ℕ) (mode : Mode) (first : ℕ) → HasParents total mode first subtree.entry.parents.now subtree.entry.bytes.now
        → Writes before (W.contents out.old) (W.contents out.new)
        (take lead room.old ++ whole_text total mode first subtree.entry.bytes.now) result }
{
    if subtree.bytes.len() <= WRITTEN_LEN {
        fill(subtree, room, lead);
        let end = lead + subtree.parents.len() + subtree.bytes.len();
        return write_after(before, &room[..end], out);
    }
    let (parent, left, right) = parts(subtree);
    let lead_end = lead + PARENT_LEN;
    room[lead..lead_end].copy_from_slice(parent);
    write_subtree(left, levels - 1, room, lead_end, before, out)?;
    let gone = lead_end as u128 + left.parents.len() as u128 + left.bytes.len() as u128;
    write_subtree(right, levels, room, 0, before + gone, out)
}
