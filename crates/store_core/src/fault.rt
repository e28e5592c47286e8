ghost use Rattle.std.specs.Prelude.{◌≡◌};

use bao_text::Node;
use std::alloc::AllocError;
use thiserror::Error;

/// The capacity isn't 1 to 65,536 chunks, or the base is above chunk 2^54. Number 802.
#[derive(Clone, Copy, Debug, PartialEq, Eq, Error)]
#[error("802 capacity")]
pub struct BadCapacity;

impl BadCapacity {
    /// Returns the number of the fault: 802.
    pub fn code(&self) -> u16
        ensures { result ≡ 802 }
    {
        802
    }
}

/// Why a store did not claim or commit chunks, or store parents. It is unchanged.
#[derive(Clone, Copy, Debug, PartialEq, Eq, Error)]
pub enum StoreFault {
    /// Out of memory. Number 701.
    #[error("701 memory")]
    Memory,
    /// The store has no such group. Number 803.
    #[error("803 no group")]
    NoGroup,
    /// The accepted slice has another root or mode. Number 804.
    #[error("804 other root")]
    OtherRoot,
    /// The accepted slice claims another length than the recorded one, or none is recorded. Number 807.
    #[error("807 other length")]
    OtherLength,
}

impl From<AllocError> for StoreFault {
    ghost use Rattle.store_core.specs.declared.fault.StoreFault.{StoreFault};

    ghost from_gives = { λ _ fault. fault ≡ StoreFault.Memory };

    fn from(_memory: AllocError) -> StoreFault {
        StoreFault::Memory
    }
}

impl StoreFault {
    ghost use Rattle.store_core.specs.Faults.{number_of};

    /// Returns the number of the fault: 701, 803, 804 or 807.
    pub fn code(&self) -> u16
        ensures { result ≡ number_of self.now }
    {
        match self {
            StoreFault::Memory => 701,
            StoreFault::NoGroup => 803,
            StoreFault::OtherRoot => 804,
            StoreFault::OtherLength => 807,
        }
    }
}

/// Why a slice was not served. The store is unchanged.
#[derive(Clone, Copy, Debug, PartialEq, Eq, Error)]
pub enum ServeFault {
    /// No length is recorded. Number 808.
    #[error("808 no length")]
    NoLength,
    /// This node, the first of the slice that is missing, isn't held. Number 809.
    #[error("809 lacking")]
    Lacking(Node),
    /// Out of memory. Number 810.
    #[error("810 memory")]
    Memory,
}

impl From<AllocError> for ServeFault {
    ghost use Rattle.store_core.specs.declared.fault.ServeFault.{ServeFault};

    ghost from_gives = { λ _ fault. fault ≡ ServeFault.Memory };

    fn from(_memory: AllocError) -> ServeFault {
        ServeFault::Memory
    }
}

impl ServeFault {
    ghost use Rattle.store_core.specs.Faults.{serve_number_of};

    /// Returns the number of the fault: 808, 809 or 810.
    pub fn code(&self) -> u16
        ensures { result ≡ serve_number_of self.now }
    {
        match self {
            ServeFault::NoLength => 808,
            ServeFault::Lacking(_) => 809,
            ServeFault::Memory => 810,
        }
    }
}

/// The least offset in bytes of a range that isn't held.
#[derive(Clone, Copy, Debug, PartialEq, Eq)]
pub struct Missing(pub u64);

/// Why a step of a schedule did not run.
#[derive(Clone, Copy, Debug, PartialEq, Eq, Error)]
pub enum StepFault {
    /// Out of memory. Number 701.
    #[error("701 memory")]
    Memory,
    /// The step isn't legal. Number 702.
    #[error("702 illegal step")]
    Illegal,
}

impl From<AllocError> for StepFault {
    ghost use Rattle.store_core.specs.declared.fault.StepFault.{StepFault};

    ghost from_gives = { λ _ fault. fault ≡ StepFault.Memory };

    fn from(_memory: AllocError) -> StepFault {
        StepFault::Memory
    }
}

impl StepFault {
    ghost use Rattle.store_core.specs.Faults.{step_number_of};

    /// Returns the number of the fault: 701 or 702.
    pub fn code(&self) -> u16
        ensures { result ≡ step_number_of self.now }
    {
        match self {
            StepFault::Memory => 701,
            StepFault::Illegal => 702,
        }
    }
}

/// Why a schedule was refused. No store is returned.
#[derive(Clone, Copy, Debug, PartialEq, Eq, Error)]
pub enum ReplayFault {
    /// Out of memory. Number 701.
    #[error("701 memory")]
    Memory,
    /// The step with this index, from 0, is the first that isn't legal. Number 702.
    #[error("702 illegal step {step}")]
    Illegal { step: usize },
    /// The capacity isn't 1 to 65,536 chunks. Number 802.
    #[error("802 capacity")]
    Capacity,
}

impl From<AllocError> for ReplayFault {
    ghost use Rattle.store_core.specs.declared.fault.ReplayFault.{ReplayFault};

    ghost from_gives = { λ _ fault. fault ≡ ReplayFault.Memory };

    fn from(_memory: AllocError) -> ReplayFault {
        ReplayFault::Memory
    }
}

impl ReplayFault {
    ghost use Rattle.store_core.specs.Faults.{replay_number_of};

    /// Returns the number of the fault: 701, 702 or 802.
    pub fn code(&self) -> u16
        ensures { result ≡ replay_number_of self.now }
    {
        match self {
            ReplayFault::Memory => 701,
            ReplayFault::Illegal { .. } => 702,
            ReplayFault::Capacity => 802,
        }
    }
}
