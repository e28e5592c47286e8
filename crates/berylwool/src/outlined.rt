ghost use Rattle.std.specs.Prelude.{◌≡◌};
ghost use Rattle.bao_check.specs.Accepted.{IsAccepted, outboard_nodes};
ghost use Rattle.bao_check.specs.AcceptedProp.{IsAccepted-prop};

use b3tree::{Hash, Mode};
use bao_check::Outline;

/// An outboard encoding that was accepted under a root, with its bytes.
#[derive(Drop)]
pub struct Outlined {
    mode: Mode,
    root: Hash,
    pub(crate) text: Vec<u8>,
    ghost accepted: { IsAccepted mode root.0 text.items (outboard_nodes text.items) } by { IsAccepted-prop mode root.0 text.items (outboard_nodes text.items) },
}

impl Outlined {
    ghost use Rattle.bao_check.specs.Outline.{IsOutline};
    ghost use Rattle.bao_text.specs.Cut.{claimed};
    ghost use Rattle.berylwool.specs.Outlines.{IsOutlined, outlined_mode, outlined_root, outlined_text};

    // These bytes, which were accepted.
    pub(crate) fn new(mode: Mode, root: Hash, text: Vec<u8>) -> Outlined
        requires { IsAccepted mode root.0 text.items (outboard_nodes text.items) }
        ensures { IsOutlined mode root.0 text.items result }
    {
        Outlined { mode, root, text }
    }

    // The outline that they are.
    pub(crate) fn outline(&self) -> Outline<'_>
        ensures { IsOutline result (outlined_mode self.now) (outlined_root self.now) (outlined_text self.now) }
    {
        Outline::new(&self.mode, &self.root, self.text.as_slice())
    }

    // The root under which they were accepted.
    pub(crate) fn root(&self) -> Hash
        ensures { result ≡ self.now.root }
    {
        self.root
    }

    pub(crate) fn mode(&self) -> Mode
        ensures { result ≡ self.now.mode }
    {
        self.mode
    }

    // The length that they claim.
    pub(crate) fn claimed(&self) -> u64
        ensures { result ≡ claimed (outlined_text self.now) }
    {
        self.outline().claimed()
    }
}
