ghost use Rattle.std.specs.Prelude.{◌≡◌};

use thiserror::Error;

/// Why no blob was gathered.
#[derive(Clone, Copy, Debug, PartialEq, Eq, Error)]
pub enum GatherFault {
    /// An accepted slice certifies a length above the capacity. Number 805.
    #[error("805 too large")]
    TooLarge,
    /// The blob is unfinished. Number 901.
    #[error("901 unfinished")]
    Unfinished,
    /// All bytes are held, and their hash isn't the root. Number 902.
    #[error("902 not the root")]
    NotTheRoot,
    /// Out of memory for the blob. Number 903.
    #[error("903 memory")]
    Memory,
    /// Out of memory for what a holder supplies. Number 911.
    #[error("911 memory")]
    Starved,
}

impl GatherFault {
    ghost use Rattle.bao_windows.specs.Faults.{number_of_gather};

    /// Returns the number of the fault: 805, 901 to 903 or 911.
    pub fn code(&self) -> u16
        ensures { result ≡ number_of_gather self.now }
    {
        match self {
            GatherFault::TooLarge => 805,
            GatherFault::Unfinished => 901,
            GatherFault::NotTheRoot => 902,
            GatherFault::Memory => 903,
            GatherFault::Starved => 911,
        }
    }
}

/// Why a blob was not gathered and written window by window.
#[derive(Clone, Copy, Debug, PartialEq, Eq, Error)]
pub enum WindowsFault {
    /// The blob wasn't gathered: 805 `TooLarge`, 901 `Unfinished`, 902 `NotTheRoot`, or for memory 903 `Memory`
    /// or 911 `Starved`.
    #[error("{0}")]
    Gather(GatherFault),
    /// A write failed or wrote no byte.
    #[error("writing failed")]
    Write,
}
