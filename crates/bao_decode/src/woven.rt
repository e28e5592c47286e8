// The slice of an outboard encoding and a plain copy, read in order.

ghost use Rattle.std.specs.Prelude.{◌≡◌, ◌+◌, ◌-◌, ◌*◌, ◌^◌, ◌<◌, ◌≤◌, ◌++◌, ℕ, List, true, length, sum_by, if◌then◌else◌, IfErr, IfNone, IfOk, IfSome};
ghost use Rattle.bao_text.specs.Choice.{chunk_count};
ghost use Rattle.bao_text.specs.Nodes.{Side, TreeNode, size, subtree_nodes, subtree_size};
ghost use Rattle.bao_decode.specs.CopyPass.{StopsShort};
ghost use Rattle.bao_decode.specs.Cutting.{ClaimsLength};
ghost use Rattle.bao_decode.specs.Weaving.{GoesOnWithin, woven_nodes, woven_text};

use crate::copy_pass::PassFault;
use crate::cut::{HEADER_LEN, NODE_LEN, claimed_length};
use crate::forward::Forward;
use b3par::Source;
use b3tree::{CHUNK_LEN, left_len};
use bao_text::{Choice, subtree_size};
use std::io;

// `len` adjacent bytes of one of the two, from offset `at` on.
#[derive(Clone, Copy)]
struct Stretch {
    is_in_copy: bool,
    at: u128,
    len: u128,
}

// Finds byte `skip` of the wanted nodes of a subtree, with the bytes of its node that follow. If they have fewer bytes, returns how many are left
// to skip. The subtree is over `n` bytes from chunk `number` on, and begins at offset `at` of the combined encoding. A parent's offset in the
// outboard encoding is smaller by the bytes of the chunks before it.
fn place_of(choice: &Choice, number: u64, n: u64, at: u128, skip: u128) -> Result<Stretch, u128>
    requires range { 1024 * number + n ≤ 2 ^ 64 - 1 }
    requires room { at + subtree_size n < 2 ^ 128 }
    requires low { 1024 * number ≤ at }
    requires parents { at - 1024 * number + 64 * (chunk_count n - 1) < 2 ^ 64 }
    requires chunks { choice.now.chunks ≡ true }
    ensures found { IfOk result (λ place. (outline copy : List ℕ) (sides : List Side) (rest : List TreeNode)
        → GoesOnWithin (if place.is_in_copy then copy else outline) (woven_nodes outline copy (subtree_nodes choice.now number n sides at ++ rest)) skip place.at place.len) }
    ensures within { IfOk result (λ place. (0 < place.len) × (place.at < 2 ^ 64)) }
    ensures after { IfErr result (λ left. (sides : List Side) → skip ≡ left + sum_by size (subtree_nodes choice.now number n sides at)) }
{
    let first = CHUNK_LEN as u64 * number;
    if !choice.wants(first, n) {
        return Err(skip);
    }
    let base = u128::from(first);
    if n <= CHUNK_LEN as u64 {
        let len = u128::from(n);
        if skip >= len {
            return Err(skip - len);
        }
        return Ok(Stretch {
            is_in_copy: true,
            at: base + skip,
            len: len - skip,
        });
    }
    if choice.covers(first, n) {
        let size = subtree_size(n);
        if skip >= size {
            return Err(skip - size);
        }
    }
    if skip < NODE_LEN {
        return Ok(Stretch {
            is_in_copy: false,
            at: at - base + skip,
            len: NODE_LEN - skip,
        });
    }
    let left_len = left_len(n);
    let left_at = at + NODE_LEN;
    let near = place_of(choice, number, left_len, left_at, skip - NODE_LEN);
    let Err(left) = near else {
        return near;
    };
    let middle = number + left_len / CHUNK_LEN as u64;
    let right_at = left_at + subtree_size(left_len);
    place_of(choice, middle, n - left_len, right_at, left)
}

/// The slice (`start`, `len`) of the combined encoding that consists of an outboard encoding and a plain copy, neither of
/// them checked. It ends at the first byte that its file lacks.
///
/// A read returns bytes of one node. It takes no memory, and borrows both.
#[derive(Drop)]
pub(crate) struct Woven<'a, S: Source> {
    outboard: &'a S,
    copy: &'a S,
    // The length that the outboard encoding claims.
    total: u64,
    start: u64,
    len: u64,
}

impl<'a, S: Source> Woven<'a, S> {
    /// Returns that slice, and reads the length that the outboard encoding claims. Refuses with `Short` at 0 if that
    /// encoding has fewer than 8 bytes, and if a read fails.
    pub(crate) fn of(
        outboard: &'a S,
        copy: &'a S,
        start: u64,
        len: u64,
    ) -> Result<Woven<'a, S>, PassFault>
        ensures same { IfOk result (λ woven. (woven.outboard.now ≡ outboard.now) × (woven.copy.now ≡ copy.now) × (woven.start ≡ start) × (woven.len ≡ len)) }
        ensures claims { IfOk result (λ woven. ClaimsLength (S.contents outboard.now) woven.total) }
        ensures fault { IfErr result (λ fault. StopsShort (S.contents outboard.now) (S.faultless outboard.now) fault) }
    {
        let total = claimed_length(outboard)?;
        Ok(Woven {
            outboard,
            copy,
            total,
            start,
            len,
        })
    }

    // Finds the slice's byte `at`, with the bytes of its node that follow, if the slice has it.
    fn place_at(&self, at: u64) -> Option<Stretch>
        ensures some { IfSome result (λ place. (outline copy : List ℕ)
            → GoesOnWithin (if place.is_in_copy then copy else outline) (woven_text self.now.total self.now.start self.now.len outline copy) at place.at place.len) }
        ensures within { IfSome result (λ place. (0 < place.len) × (place.at < 2 ^ 64)) }
        ensures none { IfNone result ((outline copy : List ℕ) → length (woven_text self.now.total self.now.start self.now.len outline copy) ≤ at) }
    {
        let at = u128::from(at);
        if at < HEADER_LEN {
            return Some(Stretch {
                is_in_copy: false,
                at,
                len: HEADER_LEN - at,
            });
        }
        let choice = Choice::of_slice(self.total, self.start, self.len);
        place_of(&choice, 0, self.total, HEADER_LEN, at - HEADER_LEN).ok()
    }
}

impl<S: Source> Forward for Woven<'_, S> {
    ghost use Rattle.bao_decode.specs.Weaving.{woven_contents};

    ghost contents = { λ woven. woven_contents woven.total woven.start woven.len (S.contents woven.outboard.now) (S.contents woven.copy.now) };

    ghost faultless = { λ woven. S.faultless woven.outboard.now × S.faultless woven.copy.now };

    fn read_on(&self, buf: &mut [u8], at: u64) -> io::Result<usize> {
        let Some(place) = self.place_at(at) else {
            return Ok(0);
        };
        let room = place.len.min(buf.len() as u128) as usize;
        if place.is_in_copy {
            self.copy.read_at(&mut buf[..room], place.at as u64)
        } else {
            self.outboard.read_at(&mut buf[..room], place.at as u64)
        }
    }
}
