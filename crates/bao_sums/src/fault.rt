use bao_files::FileFault;
use std::alloc::AllocError;
use thiserror::Error;

/// Why files were not checked to the end, with the message that the program prints.
#[derive(Clone, Copy, Debug, Error)]
pub enum SumsFault<'a> {
    /// The file with the lines can't be read, standard output can't be written, or out of memory.
    #[error("{0}")]
    File(FileFault<'a>),
    /// The file with the lines has more than 64 MiB.
    #[error("more than 64 MiB of lines")]
    TooLong,
    /// None of its lines has a hash and a path.
    #[error("no line has a hash and a path")]
    NoLine,
}

impl<'a> From<FileFault<'a>> for SumsFault<'a> {
    ghost use Rattle.std.specs.Prelude.{◌≡◌};
    ghost use Rattle.bao_sums.specs.declared.fault.SumsFault.TheVariants as SumsFault;

    ghost from_gives = { λ file fault. fault ≡ SumsFault.File file };

    fn from(fault: FileFault<'a>) -> Self {
        SumsFault::File(fault)
    }
}

impl From<AllocError> for SumsFault<'_> {
    ghost use Rattle.std.specs.Prelude.{◌≡◌};
    ghost use Rattle.bao_files.specs.declared.fault.FileFault.TheVariants as FileFault;
    ghost use Rattle.bao_sums.specs.declared.fault.SumsFault.TheVariants as SumsFault;

    ghost from_gives = { λ _ fault. fault ≡ SumsFault.File FileFault.Memory };

    fn from(_memory: AllocError) -> Self {
        SumsFault::File(FileFault::Memory)
    }
}
