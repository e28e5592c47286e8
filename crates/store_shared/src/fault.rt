ghost use Rattle.std.specs.Prelude.{◌≡◌};

use crate::seat::Seat;
use thiserror::Error;

/// The store has no such group. Number 803.
#[derive(Clone, Copy, Debug, PartialEq, Eq, Error)]
#[error("803 no group")]
pub struct NoGroup;

impl NoGroup {
    /// Returns the number of the fault: 803.
    pub fn code(&self) -> u16
        ensures { result ≡ 803 }
    {
        803
    }
}

/// The accepted slice has another root or mode. Number 804.
#[derive(Clone, Copy, Debug, PartialEq, Eq, Error)]
#[error("804 other root")]
pub struct OtherRoot;

impl OtherRoot {
    /// Returns the number of the fault: 804.
    pub fn code(&self) -> u16
        ensures { result ≡ 804 }
    {
        804
    }
}

/// Why parents were not stored.
#[derive(Clone, Copy, Debug, PartialEq, Eq, Error)]
pub enum ParentsFault {
    /// The accepted slice has another root or mode. Number 804.
    #[error("804 other root")]
    OtherRoot,
    /// The accepted slice claims another length than the recorded one, or none is recorded. Number 807.
    #[error("807 other length")]
    OtherLength,
}

impl ParentsFault {
    ghost use Rattle.store_shared.specs.Calls.{number_of};

    /// Returns the number of the fault: 804 or 807.
    pub fn code(&self) -> u16
        ensures { result ≡ number_of self.now }
    {
        match self {
            ParentsFault::OtherRoot => 804,
            ParentsFault::OtherLength => 807,
        }
    }
}

/// Out of memory: the seat is returned unchanged. Number 806.
#[derive(Drop)]
pub struct SplitFault {
    pub seat: Seat,
}

impl SplitFault {
    /// Returns the number of the fault: 806.
    pub fn code(&self) -> u16
        ensures { result ≡ 806 }
    {
        806
    }
}
