ghost use Rattle.std.specs.Prelude.{◌↔◌, IsNone};

use crate::worth::Worth;

/// What became of a file that a blob was to be gathered from.
#[derive(Clone, Copy, Debug)]
pub enum Fate {
    /// It was opened, and its bytes were used.
    Taken {
        /// Its worth, if that was asked for and there was memory to count it.
        worth: Option<Worth>,
        /// How many bytes were read of it, if it isn't regular and not all were.
        cut: Option<u64>,
    },
    /// It can't be opened or read.
    Unread,
    /// It isn't regular, and a copy of it can't be written or read.
    Uncopied,
    /// There was no memory for it.
    Starved,
    /// Gathering ended before it was opened: it isn't a regular file, and the regular ones, or a fault of the
    /// outboard encoding, ended the work.
    Unopened,
}

impl Fate {
    ghost use Rattle.std.specs.Prelude.{◌≡◌};
    ghost use Rattle.std.specs.Option.{option_copied};
    ghost use Rattle.bao_tasks.specs.Fates.{IsTaken, reason_of};

    /// Returns why the file was left out, if it was.
    pub fn reason(self) -> Option<&'static str>
        ensures taken { IsNone result ↔ IsTaken self }
        ensures text { option_copied result ≡ reason_of self }
    {
        match self {
            Fate::Taken { .. } => None,
            Fate::Unread => Some("can't be read"),
            Fate::Uncopied => Some("can't be copied"),
            Fate::Starved => Some("no memory"),
            Fate::Unopened => Some("not opened"),
        }
    }
}
