ghost use Rattle.std.specs.Prelude.{◌≡◌, ◌+◌, ◌^◌, ◌<◌, length, IfSome};
ghost use Rattle.bao_text.specs.Nodes.{left, right};
ghost use Rattle.bao_check.specs.Accepted.{part_value};
ghost use Rattle.bao_windows.specs.Windows.{IsValueIn};

use crate::appending::CHUNK_BYTES;
use b3tree::Cv;
use bao_check::{Checked, GROUP_BYTES, GROUP_LEN};
use bao_text::CV_LEN;
use holders::ByteRange;

// The chaining values of a parent's two children.
#[tactic(auto, unfolding(bao_check::specs::Accepted::part_value))]
fn halves(parent: &[u8]) -> (Cv, Cv)
    requires { length parent.now ≡ 64 }
    ensures left { result.0.0 ≡ part_value left parent.now }
    ensures right { result.1.0 ≡ part_value right parent.now }
{
    let (left, right) = parent.split_at(CV_LEN);
    (Cv::from_bytes(left), Cv::from_bytes(right))
}

// The chaining value of the whole group that is this part of the blob, of which the accepted slice has all chunks: the half of the
// parent above it, if the slice has that.
pub(crate) fn group_value(piece: &Checked<'_>, part: ByteRange) -> Option<Cv>
    requires range { part.start + part.len < 2 ^ 64 }
    ensures { IfSome result (IsValueIn piece.now part.start part.len) }
{
    // A law, so that the proof has what it says: nothing runs.
    piece.is_accepted();
    let total = piece.claimed();
    let end = part.start + part.len;
    if part.start % GROUP_BYTES != 0
        || part.len != GROUP_BYTES
        || total <= GROUP_BYTES
        || end > total
    {
        return None;
    }
    let first = part.start / CHUNK_BYTES;
    // The second group of a pair, and one that ends the blob, are their parent's right child.
    if part.start / GROUP_BYTES % 2 == 1 || end == total {
        return match piece.parent(first) {
            Some(parent) => Some(halves(parent).1),
            None => None,
        };
    }
    match piece.parent(first + GROUP_LEN) {
        Some(parent) => Some(halves(parent).0),
        None => None,
    }
}
