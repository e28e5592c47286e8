// Why a file can't be read or written, in the system's words.

use crate::fault::Fault;
use crate::lists::is_among;
use bao_decode::DecodeFault;
use bao_files::{Disk, FileFault, Once};
use bao_request::{Request, Task};
use bao_tasks::{GatheredFault, RerunFault};
use std::io;
use std::io::Write;

// Prints the system's reason, if it is known. A write that fails has no effect.
fn tell_reason<E: Write>(path: &str, reason: Option<io::Error>, err: &mut E) {
    if let Some(error) = reason {
        let _ = writeln!(Once(err), "bao_gather: {path}: {error}");
    }
}

// Prints why the file can't be read or written, if this is the fault and the disk knows.
pub(crate) fn tell_file<D: Disk, E: Write>(disk: &D, fault: FileFault<'_>, err: &mut E) {
    match fault {
        FileFault::Read(path) => tell_reason(path, disk.why(path), err),
        FileFault::Write(path) => tell_reason(path, disk.why_unwritten(), err),
        FileFault::Output | FileFault::Encoding | FileFault::Memory => {}
    }
}

// Prints that the file was left out, and why, with the system's reason, if it is known.
pub(crate) fn tell_left_out<E: Write>(
    path: &str,
    reason: &str,
    why: Option<io::Error>,
    err: &mut E,
) -> io::Result<()> {
    match why {
        None => writeln!(Once(err), "bao_gather: left out {path}: {reason}"),
        Some(error) => writeln!(Once(err), "bao_gather: left out {path}: {reason}: {error}"),
    }
}

// The fault of a file, if this is one.
fn file_fault<'a>(fault: Fault<'a>) -> Option<FileFault<'a>> {
    match fault {
        Fault::File(fault) => Some(fault),
        Fault::Decode(DecodeFault::File(fault)) => Some(fault),
        Fault::Replay(RerunFault::File(fault)) => Some(fault),
        Fault::Gather {
            fault: GatheredFault::File(fault),
            ..
        } => Some(fault),
        _ => None,
    }
}

// Whether it has been reported before why this file can't be read or written: a FILE of `gather` where it was left out, and OUT before LIST was tried.
fn is_told(task: &Task<'_>, fault: FileFault<'_>) -> bool {
    match (task, fault) {
        (Task::Gather(task), FileFault::Read(path)) => is_among(path, task.files.as_slice()),
        (Task::Gather(task), FileFault::Write(path)) => path == task.out,
        _ => false,
    }
}

// With `--verbose`, prints why a file can't be read or written, if this is the fault.
pub(crate) fn tell_why<D: Disk, E: Write>(
    disk: &D,
    request: &Request<'_>,
    fault: Fault<'_>,
    err: &mut E,
) {
    match file_fault(fault) {
        Some(fault) if request.verbose && !is_told(&request.task, fault) => {
            tell_file(disk, fault, err);
        }
        _ => {}
    }
}
