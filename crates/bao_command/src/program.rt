ghost use Rattle.std.specs.Prelude.{◌≡◌, ◌≤◌, map, string_bytes};
ghost use Rattle.std.specs.Process.{exit_status};
ghost use Rattle.bao_command.specs.Outcome.{Ends};

use crate::commands::command;
use bao_files::{Meter, System};
use std::cell::Cell;
use std::fs::File;
use std::io::{IsTerminal, Write};
use std::process::ExitCode;
use std::rt::{Clock, Files};
use std::thread::Threads;

/// Runs the program on `words`, its name first, over the system's files, with `out` and `err` as its standard output and error, and returns the exit status:
/// [`command`] says what it does. If `err` is a terminal, the progress of long reads is shown there.
pub fn run<
    R: Files<File = File> + Clock + AllocGlobal + Threads + Sync,
    O: Write,
    E: Write + IsTerminal + Copy + Sync,
>(rt: &R, words: &[String], out: &mut O, err: &mut E) -> ExitCode
    ensures status { exit_status result ≤ 4 }
    ensures outcome { Ends (map string_bytes words.now) (O.contents out.old) (O.contents out.new) (exit_status result) }
{
    let meter = if err.is_terminal() {
        Some(Meter::new(rt, *err))
    } else {
        None
    };
    let failed = Cell::new(0);
    let mut system = System::new(rt, &failed);
    ExitCode::from(command(rt, &mut system, words, out, err, &meter))
}
