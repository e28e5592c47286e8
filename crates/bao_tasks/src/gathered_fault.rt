use bao_check::CheckFault;
use bao_files::FileFault;
use bao_windows::GatherFault;
use thiserror::Error;

/// Why a blob was not gathered and written, with the message that the program prints.
#[derive(Clone, Copy, Debug, Error)]
pub enum GatheredFault<'a> {
    /// A file can't be read or written.
    #[error("{0}")]
    File(FileFault<'a>),
    /// The outboard encoding wasn't accepted: its first fault.
    #[error("{0}")]
    Outboard(CheckFault),
    /// No blob was gathered, or there was no memory to read it from its store.
    #[error("{0}")]
    Gather(GatherFault),
}

impl GatheredFault<'_> {
    ghost use Rattle.std.specs.Prelude.{◌≡◌};
    ghost use Rattle.bao_tasks.specs.GatheredFaults.{gathered_number_of};

    /// Returns the number of the fault, if its message has one: 401, 501 to 504, 801, 802, 805, 806, 901 to 903, or
    /// 911.
    pub fn code(&self) -> Option<u16>
        ensures { result ≡ gathered_number_of self.now }
    {
        match self {
            GatheredFault::File(fault) => fault.code(),
            GatheredFault::Outboard(fault) => Some(fault.code()),
            GatheredFault::Gather(fault) => Some(fault.code()),
        }
    }
}

impl<'a> From<FileFault<'a>> for GatheredFault<'a> {
    ghost use Rattle.std.specs.Prelude.{◌≡◌};
    ghost use Rattle.bao_tasks.specs.declared.gathered_fault.GatheredFault.TheVariants as GatheredFault;

    ghost from_gives = { λ file fault. fault ≡ GatheredFault.File file };

    fn from(file: FileFault<'a>) -> Self {
        GatheredFault::File(file)
    }
}
