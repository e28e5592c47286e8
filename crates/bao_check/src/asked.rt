ghost use Rattle.std.specs.Prelude.{◌≡◌, ◌↔◌, IsTrue};
ghost use Rattle.bao_check.specs.Walk.{Meets, asked_root};

use b3tree::{Cv, Hash, Input, cv, rooted};

/// The chaining value that is required of a node; at the top, that of the root.
#[derive(Clone, Copy)]
pub(crate) struct Asked {
    pub(crate) top: bool,
    pub(crate) value: Cv,
}

impl Asked {
    ghost use Rattle.bao_check.specs.Waiting.{below_parent};

    // What a parent asks of its part with this value.
    pub(crate) fn below(value: Cv) -> Asked
        ensures { result ≡ below_parent value }
    {
        Asked { top: false, value }
    }

    // What the top of a whole encoding asks for.
    pub(crate) fn of_root(root: &Hash) -> Asked
        ensures { result ≡ asked_root root.now.0 }
    {
        Asked {
            top: true,
            value: Cv::from_bytes(&root.0),
        }
    }
}

// Whether the input has the value that is asked for.
pub(crate) fn meets(asked: &Asked, input: &Input) -> bool
    ensures { IsTrue result ↔ Meets asked.now input.now }
{
    let input = if asked.top { rooted(input) } else { *input };
    Cv(cv(&input)) == asked.value
}
