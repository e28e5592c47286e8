ghost use Rattle.std.specs.Prelude.{◌≡◌};
ghost use Rattle.bao_command.specs.Surveys.{fault_status_of, sums_status_of, tally_status};

use crate::fault::{Fault, file_status};
use bao_files::Once;
use bao_sums::{SumsFault, Tally};
use std::io::Write;
use thiserror::Error;

/// Why a survey of many files ended early. What is printed is `bao_gather: `, the text below and a line end.
#[derive(Clone, Copy, Debug, Error)]
pub enum SurveyFault<'a> {
    /// The key or the context is refused, or the key file is or can't be read. The fault's status: 2, 3 or 4.
    #[error("{0}")]
    Mode(Fault<'a>),
    /// `--at` or `--length` is given with more than one file. Status 2.
    #[error("usage: at and length are for one file")]
    Output,
    /// SUMS has no line with a hash and a path, or more than 64 MiB: status 2. SUMS can't be read, or standard output can't
    /// be written: status 3. Out of memory: status 4.
    #[error("{0}")]
    Sums(SumsFault<'a>),
}

// The exit status of a fault of SUMS, or of what is printed.
fn sums_status(fault: SumsFault<'_>) -> u8
    ensures { result ≡ sums_status_of fault.entry }
{
    match fault {
        SumsFault::File(fault) => file_status(fault),
        SumsFault::TooLong | SumsFault::NoLine => 2,
    }
}

// The exit status of what came of the files.
pub(crate) fn tally_status(tally: Tally) -> u8
    ensures { result ≡ tally_status tally }
{
    if tally.failed {
        1
    } else if tally.unread {
        3
    } else {
        0
    }
}

impl SurveyFault<'_> {
    /// Returns the exit status.
    pub fn status(self) -> u8
        ensures { result ≡ fault_status_of self.entry }
    {
        match self {
            SurveyFault::Mode(fault) => fault.status(),
            SurveyFault::Output => 2,
            SurveyFault::Sums(fault) => sums_status(fault),
        }
    }

    /// Prints the fault on `err`, ignoring a write that fails, and returns its status.
    pub fn report<E: Write>(self, err: &mut E) -> u8
        ensures { result ≡ fault_status_of self.entry }
    {
        let _ = writeln!(Once(err), "bao_gather: {self}");
        self.status()
    }
}
