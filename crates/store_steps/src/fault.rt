ghost use Rattle.std.specs.Prelude.{◌≡◌};

use std::alloc::AllocError;
use thiserror::Error;

/// Why no shared store was made.
#[derive(Clone, Copy, Debug, PartialEq, Eq, Error)]
pub enum NewFault {
    /// Out of memory. Number 801.
    #[error("801 memory")]
    Memory,
    /// The capacity isn't 1 to 65,536 chunks, or the base is above chunk 2^54. Number 802.
    #[error("802 capacity")]
    Capacity,
}

impl From<AllocError> for NewFault {
    ghost use Rattle.store_steps.specs.declared.fault.NewFault.{NewFault};

    ghost from_gives = { λ _ fault. fault ≡ NewFault.Memory };

    fn from(_memory: AllocError) -> NewFault {
        NewFault::Memory
    }
}

impl NewFault {
    ghost use Rattle.store_steps.specs.Faults.{number_of};

    /// Returns the number of the fault: 801 or 802.
    pub fn code(&self) -> u16
        ensures { result ≡ number_of self.now }
    {
        match self {
            NewFault::Memory => 801,
            NewFault::Capacity => 802,
        }
    }
}
