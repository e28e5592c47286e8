ghost use Rattle.std.specs.Prelude.{◌≡◌};

use bao_text::Choice;

/// The format of the encoding that is checked.
#[derive(Clone, Copy)]
pub(crate) enum EncodingForm {
    /// The slice of `len` bytes from byte `start` on.
    Slice { start: u64, len: u64 },
    /// The outboard encoding.
    Outboard,
}

impl EncodingForm {
    ghost use Rattle.bao_check.specs.Forms.{choice_of};

    // What an encoding of this form is of, over a blob of `total` bytes.
    pub(crate) fn choice(&self, total: u64) -> Choice
        ensures { result ≡ choice_of self.now total }
    {
        match self {
            EncodingForm::Slice { start, len } => Choice::of_slice(total, *start, *len),
            EncodingForm::Outboard => Choice::of_outboard(total),
        }
    }
}
