// Which slices of a blob a plain copy has, beside an outboard encoding. Neither is checked as a whole.

ghost use Rattle.std.specs.Prelude.{◌≡◌, ◌^◌, ◌≤◌, length, IfNone, IfSome};
ghost use Rattle.b3par.specs.Given.{GivenAt, Lacks};
ghost use Rattle.bao_decode.specs.Damage.{JudgesOutline, JudgesSliceOf, parent_hash};

use crate::cut::claimed_length;
use crate::text_pass::verify_pass;
use crate::woven::Woven;
use b3par::{Source, fill};
use b3tree::{CHUNK_LEN, Cv, Hash, Mode, parent_input, root_hash, rooted};
use bao_text::{LENGTH_LEN, PARENT_LEN, Part, outboard_len};

// The hash of the root, a parent with these bytes.
fn parent_hash(mode: &Mode, parent: &[u8]) -> Hash
    requires { length parent.now ≡ 64 }
    ensures { result.0 ≡ parent_hash mode.now parent.now }
{
    let left = Cv::from_bytes(&parent[..32]);
    let right = Cv::from_bytes(&parent[32..64]);
    root_hash(&rooted(&parent_input(mode, &left, &right)))
}

// The first parent of an outboard encoding.
fn first_parent<S: Source>(outboard: &S) -> Option<[u8; PARENT_LEN]>
    ensures some { IfSome result (λ parent. (length parent ≡ 64) × GivenAt (S.contents outboard.now) 8 parent) }
    ensures none { IfNone result (Lacks (S.contents outboard.now) (S.faultless outboard.now) 72) }
{
    let mut parent = [0; PARENT_LEN];
    match fill(outboard, LENGTH_LEN as u64, &mut parent) {
        Ok(()) => Some(parent),
        Err(_) => None,
    }
}

/// Returns the length that an outboard encoding claims, if this asks for the `size` that it has, and if its first
/// parent, where there is one, is that of the root. None of the others is looked at. Returns nothing, too, if the
/// encoding can't be read.
pub fn outline_length<S: Source>(mode: &Mode, root: &Hash, outboard: &S, size: u64) -> Option<u64>
    ensures { IfSome (S.contents outboard.now) (λ s. size ≡ length s → JudgesOutline (S.faultless outboard.now) mode.now root.now.0 s result) }
{
    let Ok(total) = claimed_length(outboard) else {
        return None;
    };
    if u128::from(size) != outboard_len(total) {
        return None;
    }
    if total <= CHUNK_LEN as u64 {
        return Some(total);
    }
    let Some(parent) = first_parent(outboard) else {
        return None;
    };
    if parent_hash(mode, &parent) != *root {
        return None;
    }
    Some(total)
}

/// Returns whether the slice of `len` bytes from byte `start` on is accepted under this root, with its parents from an
/// outboard encoding and its chunks from a plain copy. It isn't if one of the two can't be read.
///
/// The slice is read by position, in blocks of the length of `block`; `room` is for the blob's bytes in them.
pub fn has_slice<S: Source>(
    mode: &Mode,
    root: &Hash,
    outboard: &S,
    copy: &S,
    start: u64,
    len: u64,
    block: &mut [u8],
    room: &mut [u8],
) -> bool
    requires block { (1024 ≤ length block.old) × (length block.old ≤ 2 ^ 32) }
    requires room { length block.old ≤ length room.old }
    ensures { JudgesSliceOf (S.faultless outboard.now × S.faultless copy.now) mode.now root.now.0 start len (S.contents outboard.now) (S.contents copy.now) result }
{
    let Ok(woven) = Woven::of(outboard, copy, start, len) else {
        return false;
    };
    let part = Part::Slice { start, len };
    match verify_pass(mode, root, &part, &woven, block, room) {
        Ok(()) => true,
        Err(_) => false,
    }
}
