ghost use Rattle.std.specs.Prelude.{◌↔◌, IsTrue};
ghost use Rattle.bao_windows.specs.Available.{IsFitting, IsWithin};

use crate::appending::CHUNK_BYTES;
use b3tree::{Hash, Mode};
use bao_text::chunk_count;
use holders::{Fixed, Form, Grain};

/// What is gathered: the blob with this root in this mode.
#[derive(Clone, Copy, Debug)]
pub struct Wanted<'a> {
    pub root: Hash,
    pub mode: Mode,
    /// What the sources supply: slices, or bytes of plain copies, which are checked beside an outboard
    /// encoding.
    pub form: Form<'a>,
    /// The smallest range that they are asked for.
    pub grain: Grain,
}

impl Wanted<'_> {
    // Whether the outline, if there is one, is of the root and the mode.
    pub(crate) fn is_fitting(&self) -> bool
        ensures { IsTrue result ↔ IsFitting self.now self.now.form }
    {
        match self.form {
            Form::Slices => true,
            Form::Bare(outline) => {
                let fixed = Fixed {
                    root: self.root,
                    mode: self.mode,
                    capacity: 0,
                    base: 0,
                };
                fixed.is_of(&outline.root(), &outline.mode())
            }
        }
    }

    // Whether a range that begins there is asked for: beside an outline, at a chunk of the length that it claims.
    pub(crate) fn begins_within(&self, at: u64) -> bool
        ensures { IsTrue result ↔ IsWithin self.now.form at }
    {
        match self.form {
            Form::Slices => true,
            Form::Bare(outline) => {
                at % CHUNK_BYTES == 0 && at / CHUNK_BYTES < chunk_count(outline.claimed())
            }
        }
    }
}
