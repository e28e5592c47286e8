ghost use Rattle.std.specs.Prelude.{◌≡◌};

use std::alloc::AllocError;
use store_core::Missing;
use thiserror::Error;

/// Why a store's blob was not returned. The store is unchanged.
#[derive(Clone, Copy, Debug, PartialEq, Eq, Error)]
pub enum FinishFault {
    /// No length is recorded, or a byte below it isn't held. Number 901.
    #[error("901 unfinished")]
    Unfinished,
    /// All bytes are held, and their hash isn't the root. Number 902.
    #[error("902 not the root")]
    NotTheRoot,
    /// Out of memory. Number 903.
    #[error("903 memory")]
    Memory,
}

impl From<AllocError> for FinishFault {
    ghost use Rattle.gather.specs.declared.fault.FinishFault.{FinishFault};

    ghost from_gives = { λ _ fault. fault ≡ FinishFault.Memory };

    fn from(_memory: AllocError) -> FinishFault {
        FinishFault::Memory
    }
}

impl From<Missing> for FinishFault {
    ghost use Rattle.gather.specs.declared.fault.FinishFault.{FinishFault};

    ghost from_gives = { λ _ fault. fault ≡ FinishFault.Unfinished };

    fn from(_missing: Missing) -> FinishFault {
        FinishFault::Unfinished
    }
}

impl FinishFault {
    ghost use Rattle.gather.specs.Faults.{number_of};

    /// Returns the number of the fault: 901 to 903.
    pub fn code(&self) -> u16
        ensures { result ≡ number_of self.now }
    {
        match self {
            FinishFault::Unfinished => 901,
            FinishFault::NotTheRoot => 902,
            FinishFault::Memory => 903,
        }
    }
}
