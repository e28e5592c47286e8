use std::alloc::AllocError;
use thiserror::Error;

/// Why a file or a stream was not read or written, with the message that the program prints.
#[derive(Clone, Copy, Debug, Error)]
pub enum FileFault<'a> {
    /// An input file can't be opened or read.
    #[error("cannot read {0}")]
    Read(&'a str),
    /// An output file can't be created or written.
    #[error("cannot write {0}")]
    Write(&'a str),
    /// Standard output can't be written.
    #[error("cannot write output")]
    Output,
    /// Out of memory for an encoding.
    #[error("401 memory")]
    Encoding,
    /// Out of memory for something else.
    #[error("memory")]
    Memory,
}

impl FileFault<'_> {
    ghost use Rattle.std.specs.Prelude.{◌≡◌};
    ghost use Rattle.bao_files.specs.Faults.{number_of};

    /// Returns the number of the fault, if its message has one: 401.
    pub fn code(&self) -> Option<u16>
        ensures { result ≡ number_of self.now }
    {
        match self {
            FileFault::Encoding => Some(401),
            _ => None,
        }
    }
}

impl From<AllocError> for FileFault<'_> {
    ghost use Rattle.std.specs.Prelude.{◌≡◌};
    ghost use Rattle.bao_files.specs.declared.fault.FileFault.TheVariants as FileFault;

    ghost from_gives = { λ _ fault. fault ≡ FileFault.Memory };

    fn from(_memory: AllocError) -> Self {
        FileFault::Memory
    }
}
