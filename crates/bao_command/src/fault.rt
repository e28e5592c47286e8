ghost use Rattle.std.specs.Prelude.{◌≡◌};
ghost use Rattle.bao_command.specs.Numbers.{number_of};
ghost use Rattle.bao_command.specs.Status.{check_status_of, decode_status_of, file_status_of, gather_status_of, gathered_status_of, replay_status_of, rerun_status_of, status_of};

use bao_check::CheckFault;
use bao_decode::DecodeFault;
use bao_files::{FileFault, Once};
use bao_script::ReplayScriptFault;
use bao_tasks::{GatheredFault, RerunFault};
use bao_windows::GatherFault;
use std::io::Write;
use thiserror::Error;

/// Why a command failed. What is printed is `bao_gather: `, the text below and a line end.
#[derive(Clone, Copy, Debug, Error)]
pub enum Fault<'a> {
    /// An argument is not UTF-8. Status 2.
    #[error("usage: a word is not UTF-8")]
    Word,
    /// ROOT isn't 64 hexadecimal digits. Status 2.
    #[error("usage: root is not 64 hexadecimal digits")]
    Root,
    /// `--key` isn't 64 hexadecimal digits. Status 2.
    #[error("usage: key is not 64 hexadecimal digits")]
    Key,
    /// `--key` and `--context` are both given. Status 2.
    #[error("usage: key and context exclude each other")]
    KeyAndContext,
    /// The file of `--key-file` has anything but 64 hexadecimal digits and at most one line feed. Status 2.
    #[error("usage: key file is not 64 hexadecimal digits")]
    KeyFile,
    /// `--key-file` is given with `--key` or `--context`. Status 2.
    #[error("usage: key file excludes key and context")]
    KeyFileAndOthers,
    /// The bytes of output would end beyond byte 2^64 - 1. Status 2.
    #[error("usage: output range too large")]
    OutputRange,
    /// More than 64 files are given. Status 2.
    #[error("usage: too many files")]
    TooManyFiles,
    /// OUT is a name of standard output, where the line with the hash or `ok` goes. Status 2.
    #[error("usage: OUT is standard output")]
    OutIsOutput,
    /// OUT leads to standard output by another name. Status 2.
    #[error("usage: OUT leads to standard output")]
    OutLeadsToOutput,
    /// OUT leads to a file that is read, except one of the FILEs of `gather`. Status 2.
    #[error("usage: OUT is a file that is read")]
    OutIsRead,
    /// `--long` is given with a `--capacity` other than 65536. Status 2.
    #[error("usage: long excludes capacity")]
    LongAndCapacity,
    /// LIST, the file of `--missing`, has OUT's name, or one of standard output's. Status 2.
    #[error("usage: LIST is OUT or standard output")]
    ListIsOut,
    /// LIST has the name of a file that is read: a FILE, the outboard encoding or the key file. Status 2.
    #[error("usage: LIST is a file that is read")]
    ListIsRead,
    /// LIST leads to OUT, to standard output or to a file that is read, by another name. Status 2.
    #[error("usage: LIST leads to another file of the command")]
    ListLeadsToOther,
    /// A file or standard output can't be read or written. Status 3, and 4 if out of memory.
    #[error("{0}")]
    File(FileFault<'a>),
    /// An encoding or a plain copy wasn't decoded. Status 1 if it is refused, 3 for a file, and 4 if out of memory.
    #[error("{0}")]
    Decode(DecodeFault<'a>),
    /// The blob wasn't gathered, for this fault. Status 1 if it isn't in the files, 2 for a capacity out of
    /// range, 3 for a file, and 4 if out of memory. `unlisted` is why LIST couldn't be written, if it couldn't.
    #[error("{fault}")]
    Gather {
        fault: GatheredFault<'a>,
        unlisted: Option<FileFault<'a>>,
    },
    /// A schedule wasn't run to its end. Status 1 if a slice or a step is refused, 2 for a line with no valid form or a
    /// capacity out of range, 3 for a file, and 4 if out of memory.
    #[error("{0}")]
    Replay(RerunFault<'a>),
}

// The exit status of a file's fault.
pub(crate) fn file_status(fault: FileFault<'_>) -> u8
    ensures { result ≡ file_status_of fault.entry }
{
    match fault {
        FileFault::Read(_) | FileFault::Write(_) | FileFault::Output => 3,
        FileFault::Encoding | FileFault::Memory => 4,
    }
}

// The exit status of a check's fault.
fn check_status(fault: CheckFault) -> u8
    ensures { result ≡ check_status_of fault }
{
    match fault {
        CheckFault::Short { .. } | CheckFault::Mismatch { .. } | CheckFault::Trailing { .. } => 1,
        CheckFault::Reader => 3,
        CheckFault::Memory => 4,
    }
}

// The exit status of a decoding fault.
fn decode_status(fault: DecodeFault<'_>) -> u8
    ensures { result ≡ decode_status_of fault.entry }
{
    match fault {
        DecodeFault::File(fault) => file_status(fault),
        DecodeFault::Check(fault) => check_status(fault),
    }
}

// The exit status of a fault of the workers.
fn gather_status(fault: GatherFault) -> u8
    ensures { result ≡ gather_status_of fault }
{
    match fault {
        GatherFault::TooLarge | GatherFault::Unfinished | GatherFault::NotTheRoot => 1,
        GatherFault::Memory | GatherFault::Starved => 4,
    }
}

// The exit status of a gathering fault.
pub(crate) fn gathered_status(fault: GatheredFault<'_>) -> u8
    ensures { result ≡ gathered_status_of fault.entry }
{
    match fault {
        GatheredFault::File(fault) => file_status(fault),
        GatheredFault::Outboard(fault) => check_status(fault),
        GatheredFault::Gather(fault) => gather_status(fault),
    }
}

// The exit status of a fault in running a schedule.
fn replay_status(fault: ReplayScriptFault) -> u8
    ensures { result ≡ replay_status_of fault }
{
    match fault {
        ReplayScriptFault::Refused { fault, .. } => check_status(fault),
        ReplayScriptFault::Illegal { .. } => 1,
        ReplayScriptFault::Capacity => 2,
        ReplayScriptFault::Cutting | ReplayScriptFault::Replaying | ReplayScriptFault::Memory => 4,
    }
}

// The exit status of a schedule's fault.
fn rerun_status(fault: RerunFault<'_>) -> u8
    ensures { result ≡ rerun_status_of fault.entry }
{
    match fault {
        RerunFault::File(fault) => file_status(fault),
        RerunFault::Script(_) => 2,
        RerunFault::Replay(fault) => replay_status(fault),
    }
}

impl Fault<'_> {
    /// Returns the exit status.
    pub fn status(self) -> u8
        ensures { result ≡ status_of self.entry }
    {
        match self {
            Fault::Word
            | Fault::Root
            | Fault::Key
            | Fault::KeyAndContext
            | Fault::KeyFile
            | Fault::KeyFileAndOthers
            | Fault::OutputRange
            | Fault::TooManyFiles
            | Fault::OutIsOutput
            | Fault::OutLeadsToOutput
            | Fault::OutIsRead
            | Fault::LongAndCapacity
            | Fault::ListIsOut
            | Fault::ListIsRead
            | Fault::ListLeadsToOther => 2,
            Fault::File(fault) => file_status(fault),
            Fault::Decode(fault) => decode_status(fault),
            Fault::Gather { fault, .. } => gathered_status(fault),
            Fault::Replay(fault) => rerun_status(fault),
        }
    }

    /// Returns the number that the fault's text begins with, if it has one.
    pub fn code(&self) -> Option<u16>
        ensures { result ≡ number_of self.now }
    {
        match self {
            Fault::Word
            | Fault::Root
            | Fault::Key
            | Fault::KeyAndContext
            | Fault::KeyFile
            | Fault::KeyFileAndOthers
            | Fault::OutputRange
            | Fault::TooManyFiles
            | Fault::OutIsOutput
            | Fault::OutLeadsToOutput
            | Fault::OutIsRead
            | Fault::LongAndCapacity
            | Fault::ListIsOut
            | Fault::ListIsRead
            | Fault::ListLeadsToOther => None,
            Fault::File(fault) => fault.code(),
            Fault::Decode(fault) => fault.code(),
            Fault::Gather { fault, .. } => fault.code(),
            Fault::Replay(fault) => fault.code(),
        }
    }

    /// Prints the fault on `err`, ignoring a write that fails, and returns its status.
    pub fn report<E: Write>(self, err: &mut E) -> u8
        ensures { result ≡ status_of self.entry }
    {
        let _ = writeln!(Once(err), "bao_gather: {self}");
        self.status()
    }
}
