ghost use Rattle.std.specs.Prelude.{◌≡◌, ℕ, List, length, Option, IfSome};
ghost use Rattle.std.specs.Option.{option_copied};
ghost use Rattle.b3tree.specs.Tree.{parent_input};
ghost use Rattle.bao_text.specs.Nodes.{left, right};
ghost use Rattle.bao_check.specs.Accepted.{part_value};

use b3tree::{Cv, Input, Mode, parent_input};
use bao_check::Checked;
use bao_text::CV_LEN;

/// Where the parents of a tree come from.
pub(crate) trait Parents {
    // The 64 bytes of the parent whose right part begins at a chunk, where it is known.
    ghost bytes: { Self → ℕ → Option (List ℕ) };

    fn parent_before(&self, m: u64) -> Option<&[u8]>
        ensures value { option_copied result ≡ bytes self.now m }
        ensures len { IfSome result (λ parent. length parent.now ≡ 64) };
}

impl<'a> Parents for Checked<'a> {
    ghost use Rattle.bao_check.specs.Checked.{piece_places, piece_text};
    ghost use Rattle.bao_check.specs.Parents.{parent_in};

    ghost bytes = { λ piece m. parent_in (piece_text piece) (piece_places piece) m };

    fn parent_before(&self, m: u64) -> Option<&[u8]> {
        self.parent(m)
    }
}

// The input that a parent's 64 bytes make: the chaining values of its left and of its right part.
#[tactic(auto, unfolding(bao_check::specs::Accepted::part_value))]
pub(crate) fn input_of(mode: &Mode, parent: &[u8]) -> Input
    requires { length parent.now ≡ 64 }
    ensures { result ≡ parent_input mode.now (part_value left parent.now) (part_value right parent.now) }
{
    let (left, right) = parent.split_at(CV_LEN);
    parent_input(mode, &Cv::from_bytes(left), &Cv::from_bytes(right))
}
