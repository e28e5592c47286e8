ghost use Rattle.std.specs.Prelude.{◌≡◌};

use thiserror::Error;

/// Out of memory for an encoding. Number 401.
#[derive(Clone, Copy, Debug, PartialEq, Eq, Error)]
#[error("401 memory")]
pub struct Memory;

impl Memory {
    /// Returns the number of the fault: 401.
    pub fn code(&self) -> u16
        ensures { result ≡ 401 }
    {
        401
    }
}

/// Why an encoding was not written, or not all of it.
#[derive(Clone, Copy, Debug, PartialEq, Eq, Error)]
pub enum WriteFault {
    /// Out of memory for the encoding; nothing was written. Number 401.
    #[error("401 memory")]
    Memory,
    /// A write failed or wrote no byte; exactly the first `written` bytes of the encoding were written. Number
    /// 402.
    #[error("402 writer failed after {written} bytes")]
    Writer { written: u128 },
}

impl From<Memory> for WriteFault {
    ghost use Rattle.bao_text.specs.declared.fault.WriteFault.{WriteFault};

    ghost from_gives = { λ _ fault. fault ≡ WriteFault.Memory };

    fn from(_memory: Memory) -> WriteFault {
        WriteFault::Memory
    }
}

impl WriteFault {
    ghost use Rattle.bao_text.specs.Faults.{number_of};

    /// Returns the number of the fault: 401 or 402.
    pub fn code(&self) -> u16
        ensures { result ≡ number_of self.now }
    {
        match self {
            WriteFault::Memory => 401,
            WriteFault::Writer { .. } => 402,
        }
    }
}
