// What is told on standard error beside the lines that are printed.

use bao_files::{Disk, Once};
use std::io::Write;

/// How it is told what has no line, or isn't one.
#[derive(Clone, Copy, Debug)]
pub struct Telling<'a> {
    /// The name of the program, which each line begins with.
    pub program: &'a str,
    /// Whether the system's reason is told, too.
    pub verbose: bool,
}

// Tells that the file at `path` can't be read. A write that fails has no effect.
pub(crate) fn tell_unread<D: Disk, E: Write>(
    telling: Telling<'_>,
    disk: &D,
    path: &str,
    err: &mut E,
) {
    let program = telling.program;
    if telling.verbose {
        if let Some(error) = disk.why(path) {
            let _ = writeln!(Once(err), "{program}: {path}: {error}");
        }
    }
    let _ = writeln!(Once(err), "{program}: cannot read {path}");
}

// Tells that the line with this number, from 1 on, has no hash and path. A write that fails has no effect.
pub(crate) fn tell_bad_line<E: Write>(telling: Telling<'_>, number: u64, err: &mut E) {
    let program = telling.program;
    let _ = writeln!(Once(err), "{program}: line {number} has no hash and path");
}

// Tells that the damaged ranges of the file at `path` aren't known. A write that fails has no effect.
pub(crate) fn tell_no_ranges<E: Write>(telling: Telling<'_>, path: &str, err: &mut E) {
    let program = telling.program;
    let _ = writeln!(
        Once(err),
        "{program}: no ranges of {path}: no outboard file of it is at {path}.obao"
    );
}
