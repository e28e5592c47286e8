ghost use Rattle.std.specs.Prelude.{◌≡◌};
ghost use Rattle.bao_script.specs.declared.fault.ReplayScriptFault.TheVariants as replay;
ghost use Rattle.bao_script.specs.declared.fault.ScriptFault.TheVariants.{Memory};

use bao_check::CheckFault;
use std::alloc::{AllocError, AllocFailed};
use thiserror::Error;

/// Why a script wasn't read. The faults have messages and no numbers: one is of the script's text, the other of
/// this crate's own memory.
#[derive(Clone, Copy, Debug, PartialEq, Eq, Error)]
pub enum ScriptFault {
    /// The line with this number, from 1, is the first that has none of the forms.
    #[error("usage: script line {number}")]
    Line { number: u64 },
    /// Out of memory for the lines.
    #[error("memory")]
    Memory,
}

impl ScriptFault {
    ghost use Rattle.std.specs.Prelude.{None};

    /// Returns the number of the fault: none.
    pub fn code(&self) -> Option<u16>
        ensures { result ≡ None }
    {
        None
    }
}

impl From<AllocError> for ScriptFault {
    ghost from_gives = { λ _ fault. fault ≡ Memory };

    fn from(_memory: AllocError) -> ScriptFault {
        ScriptFault::Memory
    }
}

impl<T: Drop> From<AllocFailed<T>> for ScriptFault {
    ghost from_gives = { λ _ fault. fault ≡ Memory };

    fn from(_memory: AllocFailed<T>) -> ScriptFault {
        ScriptFault::Memory
    }
}

/// Why a script's run has no output. Each fault has the number of the call that it came from, except this
/// crate's own memory, which has only a message.
#[derive(Clone, Copy, Debug, PartialEq, Eq, Error)]
pub enum ReplayScriptFault {
    /// The slice that this line names wasn't accepted, with this fault; it is the first such line. No step ran.
    /// Number 501 to 503.
    #[error("line {line}: {fault}")]
    Refused { line: u64, fault: CheckFault },
    /// A step of this line isn't legal, and all before it were. Number 702.
    #[error("702 illegal step at line {line}")]
    Illegal { line: u64 },
    /// The capacity isn't 1 to 65,536 chunks. Number 802.
    #[error("802 capacity")]
    Capacity,
    /// Out of memory for a slice. Number 401.
    #[error("401 memory")]
    Cutting,
    /// Out of memory for the schedule. Number 701.
    #[error("701 memory")]
    Replaying,
    /// Out of memory for the slices, the steps or the output. It has no number.
    #[error("memory")]
    Memory,
}

impl ReplayScriptFault {
    ghost use Rattle.bao_script.specs.Faults.{script_number_of};

    /// Returns the number of the fault, if it has one: 401, 501 to 503, 701, 702 or 802.
    pub fn code(&self) -> Option<u16>
        ensures { result ≡ script_number_of self.now }
    {
        match self {
            ReplayScriptFault::Refused { fault, .. } => Some(fault.code()),
            ReplayScriptFault::Illegal { .. } => Some(702),
            ReplayScriptFault::Capacity => Some(802),
            ReplayScriptFault::Cutting => Some(401),
            ReplayScriptFault::Replaying => Some(701),
            ReplayScriptFault::Memory => None,
        }
    }
}

impl From<AllocError> for ReplayScriptFault {
    ghost from_gives = { λ _ fault. fault ≡ replay.Memory };

    fn from(_memory: AllocError) -> ReplayScriptFault {
        ReplayScriptFault::Memory
    }
}

impl<T: Drop> From<AllocFailed<T>> for ReplayScriptFault {
    ghost from_gives = { λ _ fault. fault ≡ replay.Memory };

    fn from(_memory: AllocFailed<T>) -> ReplayScriptFault {
        ReplayScriptFault::Memory
    }
}

impl From<bao_text::Memory> for ReplayScriptFault {
    ghost from_gives = { λ _ fault. fault ≡ replay.Cutting };

    fn from(_memory: bao_text::Memory) -> ReplayScriptFault {
        ReplayScriptFault::Cutting
    }
}
