ghost use Rattle.std.specs.Prelude.{◌<◌};

use crate::asked::Asked;
use b3tree::Cv;

/// A subtree whose wanted nodes are still to come, with the value that is required of its top.
#[derive(Clone, Copy)]
pub(crate) struct WaitingPart {
    pub(crate) asked: Asked,
    // The number of its first chunk, and how many bytes of the blob it has.
    pub(crate) number: u64,
    pub(crate) len: u64,
    ghost some: { 0 < len },
}

impl Default for WaitingPart {
    fn default() -> WaitingPart {
        WaitingPart {
            asked: Asked {
                top: false,
                value: Cv([0; 8]),
            },
            number: 0,
            len: 1,
        }
    }
}
