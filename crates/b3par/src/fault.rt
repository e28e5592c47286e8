ghost use Rattle.std.specs.Prelude.{◌≡◌};
ghost use Rattle.b3par.specs.declared.fault.ReadFault.TheVariants.{Memory};
ghost use Rattle.b3par.specs.Faults.{number_of};

use std::alloc::{AllocError, AllocFailed};
use thiserror::Error;

/// Why a pool did not hash bytes in memory.
#[derive(Clone, Copy, Debug, PartialEq, Eq, Error)]
pub enum ParFault {
    /// Out of memory for the pool; no thread is left running. Number 301.
    #[error("301 memory")]
    Memory,
}

impl ParFault {
    /// Returns the number of the fault: 301.
    pub fn code(&self) -> u16
        ensures { result ≡ 301 }
    {
        match self {
            ParFault::Memory => 301,
        }
    }
}

/// Why a source was not hashed or encoded. The numbers are those of reads by position; 301 (a pool), 401 (an
/// encoding of bytes in memory), 504 and 505 (an encoding that is checked) are other types'.
#[derive(Clone, Copy, Debug, PartialEq, Eq, Error)]
pub enum ReadFault {
    /// Out of memory: for a read buffer, the encoding or the pool. Number 311.
    #[error("311 memory")]
    Memory,
    /// A read failed, or the source doesn't have the length given. Number 312.
    #[error("312 reader")]
    Reader,
}

impl ReadFault {
    /// Returns the number of the fault: 311 or 312.
    pub fn code(&self) -> u16
        ensures { result ≡ number_of self.now }
    {
        match self {
            ReadFault::Memory => 311,
            ReadFault::Reader => 312,
        }
    }
}

impl From<AllocError> for ReadFault {
    ghost from_gives = { λ _ fault. fault ≡ Memory };

    fn from(_fault: AllocError) -> ReadFault {
        ReadFault::Memory
    }
}

impl<T: Drop> From<AllocFailed<T>> for ReadFault {
    ghost from_gives = { λ _ fault. fault ≡ Memory };

    fn from(_fault: AllocFailed<T>) -> ReadFault {
        ReadFault::Memory
    }
}

impl From<bao_text::Memory> for ReadFault {
    ghost from_gives = { λ _ fault. fault ≡ Memory };

    fn from(_fault: bao_text::Memory) -> ReadFault {
        ReadFault::Memory
    }
}
