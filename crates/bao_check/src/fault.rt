ghost use Rattle.std.specs.Prelude.{◌≡◌};

use thiserror::Error;

/// Why an encoding was not accepted: its first fault, in the order of the encoding. `at` is an offset in bytes.
#[derive(Clone, Copy, Debug, PartialEq, Eq, Error)]
pub enum CheckFault {
    /// The encoding ends within the node that begins at `at`, or, if `at` is 0, within its length. Number 501.
    #[error("501 short at {at}")]
    Short { at: u64 },
    /// The node that begins at `at` doesn't have the value required there. Number 502.
    #[error("502 mismatch at {at}")]
    Mismatch { at: u64 },
    /// All nodes are good, and something follows the last, which ends at `at`. Number 503.
    #[error("503 trailing at {at}")]
    Trailing { at: u64 },
    /// Out of memory for an encoding that is read. Number 504.
    #[error("504 memory")]
    Memory,
    /// A read failed. Number 505.
    #[error("505 reader")]
    Reader,
}

impl CheckFault {
    ghost use Rattle.bao_check.specs.Faults.{number_of};

    /// Returns the number of the fault: 501 to 505.
    pub fn code(&self) -> u16
        ensures { result ≡ number_of self.now }
    {
        match self {
            CheckFault::Short { .. } => 501,
            CheckFault::Mismatch { .. } => 502,
            CheckFault::Trailing { .. } => 503,
            CheckFault::Memory => 504,
            CheckFault::Reader => 505,
        }
    }
}
