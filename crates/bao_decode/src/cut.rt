// The slice that is cut out of a combined encoding, read by position.

ghost use Rattle.std.specs.Prelude.{◌≡◌, ℕ, true, List, ◌+◌, ◌-◌, ◌*◌, ◌^◌, ◌<◌, ◌≤◌, ◌++◌, length, sum_by, IfErr, IfNone, IfOk, IfSome};
ghost use Rattle.bao_text.specs.Cut.{cut_nodes};
ghost use Rattle.bao_text.specs.Nodes.{Side, TreeNode, size, subtree_nodes, subtree_size};
ghost use Rattle.bao_decode.specs.Cutting.{ClaimsLength, GoesOn, cut_as};
ghost use Rattle.bao_decode.specs.CopyPass.{StopsShort};

use crate::copy_pass::{PassFault, fill_most};
use b3par::Source;
use b3tree::{CHUNK_LEN, left_len};
use bao_check::CheckFault;
use bao_text::{Choice, LENGTH_LEN, PARENT_LEN, claimed, subtree_size};
use std::io;

// The lengths of an encoding's first field and of a parent, as offsets are computed.
pub(crate) const HEADER_LEN: u128 = LENGTH_LEN as u128;

pub(crate) const NODE_LEN: u128 = PARENT_LEN as u128;

// No source has a byte at this offset or past it.
const END: u128 = u64::MAX as u128;

// `len` adjacent bytes of a combined encoding, from offset `at` on.
#[derive(Clone, Copy)]
struct Run {
    at: u128,
    len: u128,
}

// Finds byte `skip` of the wanted nodes of a subtree, with the wanted bytes that follow it directly in the combined encoding. If they have
// fewer bytes, returns how many are left to skip. The subtree is over `n` bytes from chunk `number` on, and begins at offset `at` of the
// encoding. The search descends only where a subtree is partly wanted: along the two edges of the wanted positions.
fn find(choice: &Choice, number: u64, n: u64, at: u128, skip: u128) -> Result<Run, u128>
    requires range { 1024 * number + n ≤ 2 ^ 64 - 1 }
    requires room { at + subtree_size n < 2 ^ 128 }
    requires chunks { choice.now.chunks ≡ true }
    ensures found { IfOk result (λ run. (s : List ℕ) (sides : List Side) (rest : List TreeNode)
        → GoesOn s (cut_nodes s (subtree_nodes choice.now number n sides at ++ rest)) skip run.at run.len) }
    ensures within { IfOk result (λ run. (at ≤ run.at) × (0 < run.len)) }
    ensures after { IfErr result (λ left. (sides : List Side) → skip ≡ left + sum_by size (subtree_nodes choice.now number n sides at)) }
{
    let first = CHUNK_LEN as u64 * number;
    if !choice.wants(first, n) {
        return Err(skip);
    }
    if n <= CHUNK_LEN as u64 || choice.covers(first, n) {
        let size = subtree_size(n);
        if skip >= size {
            return Err(skip - size);
        }
        return Ok(Run {
            at: at + skip,
            len: size - skip,
        });
    }
    if skip < NODE_LEN {
        return Ok(Run {
            at: at + skip,
            len: NODE_LEN - skip,
        });
    }
    let left_len = left_len(n);
    let left_at = at + NODE_LEN;
    let near = find(choice, number, left_len, left_at, skip - NODE_LEN);
    let Err(left) = near else {
        return near;
    };
    let middle = number + left_len / CHUNK_LEN as u64;
    let right_at = left_at + subtree_size(left_len);
    find(choice, middle, n - left_len, right_at, left)
}

/// The slice (`start`, `len`) of a combined encoding, neither of them checked, as a source.
///
/// A read is one read of the encoding, and returns bytes that are adjacent there. It takes no memory, and borrows the
/// encoding.
#[derive(Drop)]
pub(crate) struct Cut<'a, S: Source> {
    encoding: &'a S,
    // The length that the encoding claims.
    total: u64,
    start: u64,
    len: u64,
}

// The length that an encoding claims in its first 8 bytes. `Short` at 0 if it has fewer.
pub(crate) fn claimed_length<S: Source>(encoding: &S) -> Result<u64, PassFault>
    ensures claims { IfOk result (ClaimsLength (S.contents encoding.now)) }
    ensures fault { IfErr result (λ fault. StopsShort (S.contents encoding.now) (S.faultless encoding.now) fault) }
{
    let mut header = [0; LENGTH_LEN];
    let count = fill_most(encoding, 0, &mut header)?;
    if count < LENGTH_LEN {
        return Err(PassFault::Check(CheckFault::Short { at: 0 }));
    }
    Ok(claimed(&header))
}

impl<'a, S: Source> Cut<'a, S> {
    /// Returns that slice, and reads the length that the encoding claims. Refuses with `Short` at 0 if the encoding
    /// has fewer than 8 bytes, and if a read fails.
    pub(crate) fn of(encoding: &'a S, start: u64, len: u64) -> Result<Cut<'a, S>, PassFault>
        ensures same { IfOk result (λ cut. (cut.encoding.now ≡ encoding.now) × (cut.start ≡ start) × (cut.len ≡ len)) }
        ensures claims { IfOk result (λ cut. ClaimsLength (S.contents encoding.now) cut.total) }
        ensures fault { IfErr result (λ fault. StopsShort (S.contents encoding.now) (S.faultless encoding.now) fault) }
    {
        let total = claimed_length(encoding)?;
        Ok(Cut {
            encoding,
            total,
            start,
            len,
        })
    }

    // Finds the slice's byte `at` in the encoding, with the slice's bytes that follow it directly there, if the slice has it.
    fn run_at(&self, at: u64) -> Option<Run>
        ensures some { IfSome result (λ run. (s : List ℕ) → GoesOn s (cut_as self.now.total self.now.start self.now.len s) at run.at run.len) }
        ensures len { IfSome result (λ run. 0 < run.len) }
        ensures none { IfNone result ((s : List ℕ) → length (cut_as self.now.total self.now.start self.now.len s) ≤ at) }
    {
        let at = u128::from(at);
        if at < HEADER_LEN {
            return Some(Run {
                at,
                len: HEADER_LEN - at,
            });
        }
        let choice = Choice::of_slice(self.total, self.start, self.len);
        find(&choice, 0, self.total, HEADER_LEN, at - HEADER_LEN).ok()
    }
}

impl<S: Source> Source for Cut<'_, S> {
    ghost use Rattle.bao_decode.specs.Cutting.{cut_contents};

    ghost contents = { λ cut. cut_contents cut.total cut.start cut.len (S.contents cut.encoding.now) };

    ghost faultless = { λ cut. S.faultless cut.encoding.now };

    fn read_at(&self, buf: &mut [u8], at: u64) -> io::Result<usize> {
        match self.run_at(at) {
            Some(run) if run.at < END => {
                let room = run.len.min(buf.len() as u128) as usize;
                self.encoding.read_at(&mut buf[..room], run.at as u64)
            }
            _ => Ok(0),
        }
    }
}
