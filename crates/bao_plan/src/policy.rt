ghost use Rattle.std.specs.Prelude.{◌≡◌};

use thiserror::Error;

/// The most chunks of a request. All are of one unit of so many.
pub const REQUEST_CHUNKS: u64 = 1024;

/// The numbers that a plan goes by. Times are in milliseconds.
#[derive(Clone, Copy, Debug, PartialEq, Eq)]
pub struct Policy {
    /// After this many failures in a row a holder is left out.
    pub faults: u32,
    /// How long a holder is left alone after a first failure. Each further failure doubles it.
    pub pause: u32,
    /// The longest time that a holder is left alone, also where it asks for more.
    pub longest_pause: u32,
    /// How long after some chunk of a unit was asked for last another holder is asked for those that are under way as well.
    pub patience: u32,
}

/// What to do next with a holder.
#[derive(Clone, Copy, Debug, PartialEq, Eq)]
pub enum Next {
    /// Ask it for `count` chunks from chunk `first` on: they are under way from now on.
    Fetch { first: u64, count: u64 },
    /// Nothing until that moment, or until something else has happened.
    WaitUntil(u64),
    /// Nothing more, but for what is under way at it: it has nothing that is lacking, or is left out.
    Nothing,
}

/// How a request ended. Whether it was a failure the plan sees by itself: it was unless some chunk of it was decided.
#[derive(Clone, Copy, Debug, PartialEq, Eq)]
pub enum Outcome {
    /// All came, or less, or nothing.
    Over,
    /// The holder asked to be asked later, after that time.
    LaterBy(u64),
    /// The request was given up without a fault of the holder's.
    Cut,
}

/// Why the end of a request wasn't taken. Nothing has changed.
#[derive(Clone, Copy, Debug, PartialEq, Eq, Error)]
pub enum EndFault {
    /// No such request is under way.
    #[error("no such request is under way")]
    NoRequest,
    /// Out of memory.
    #[error("out of memory")]
    Memory,
}

impl Outcome {
    ghost use Rattle.bao_plan.specs.Events.{is_cut};

    pub(crate) fn is_cut(self) -> bool
        ensures { result ≡ is_cut self }
    {
        matches!(self, Outcome::Cut)
    }
}
