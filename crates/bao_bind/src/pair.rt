ghost use Rattle.std.specs.Prelude.{◌≡◌, ◌↔◌, IsTrue};
ghost use Rattle.bao_check.specs.Inputs.{marked};

use b3tree::{Input, rooted};

/// Two compression inputs: one of a blob's, and one of an accepted slice's.
#[derive(Clone, Copy, Debug, PartialEq, Eq)]
pub(crate) struct Pair {
    pub(crate) ours: Input,
    pub(crate) theirs: Input,
}

// The input, with ROOT at the top.
pub(crate) fn marked(top: bool, input: &Input) -> Input
    ensures { result ≡ marked top input.now }
{
    if top { rooted(input) } else { *input }
}

// Whether two inputs are the same.
pub(crate) fn are_same(x: &Input, y: &Input) -> bool
    ensures { IsTrue result ↔ (x.now ≡ y.now) }
{
    x == y
}
