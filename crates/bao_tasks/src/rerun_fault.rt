use bao_files::FileFault;
use bao_script::ReplayScriptFault;
use thiserror::Error;

/// Why a schedule was not run to its end, with the message that the program prints.
#[derive(Clone, Copy, Debug, Error)]
pub enum RerunFault<'a> {
    /// A file can't be read.
    #[error("{0}")]
    File(FileFault<'a>),
    /// The line of the schedule with this number, counted from 1, is malformed.
    #[error("usage: script line {0}")]
    Script(u64),
    /// A slice isn't accepted, no store has the capacity, or a step isn't legal.
    #[error("{0}")]
    Replay(ReplayScriptFault),
}

impl RerunFault<'_> {
    ghost use Rattle.std.specs.Prelude.{◌≡◌};
    ghost use Rattle.bao_tasks.specs.RerunFaults.{rerun_number_of};

    /// Returns the number of the fault, if its message has one: 401, 501 to 504, 701, 702 or 802.
    pub fn code(&self) -> Option<u16>
        ensures { result ≡ rerun_number_of self.now }
    {
        match self {
            RerunFault::File(fault) => fault.code(),
            RerunFault::Script(_) => None,
            RerunFault::Replay(fault) => fault.code(),
        }
    }
}

impl<'a> From<FileFault<'a>> for RerunFault<'a> {
    ghost use Rattle.std.specs.Prelude.{◌≡◌};
    ghost use Rattle.bao_tasks.specs.declared.rerun_fault.RerunFault.TheVariants as RerunFault;

    ghost from_gives = { λ file fault. fault ≡ RerunFault.File file };

    fn from(file: FileFault<'a>) -> Self {
        RerunFault::File(file)
    }
}
