// What is known of values: numbers of faults, digits, and what is made over a clock, a path or a source.

ghost use Rattle.std.specs.Prelude.{◌≡◌, IfOk, option_copied, string_bytes};

use bao_files::{LateFile, Meter, Progress, Shown, bytes_of_digits};
use bao_tasks::Fate;
use std::alloc::AllocError;
use std::cell::Cell;
use std::io::Write;
use std::rt::{Clock, Files};

pub fn bytes_of_digits_determined(text: &str) -> (Option<[u8; 32]>, Option<[u8; 32]>)
    ensures { result.0 ≡ result.1 }
{
    (bytes_of_digits(text), bytes_of_digits(text))
}

// How far its work has come isn't told by the contract: it lies in cells.
pub fn meter_determined<'a, C: Clock, E: Write + Copy>(
    clock: &'a C,
    terminal: E,
) -> (Meter<'a, C, E>, Meter<'a, C, E>)
    ensures clock { result.0.clock ≡ result.1.clock }
    ensures terminal { result.0.terminal ≡ result.1.terminal }
{
    let one = Meter::new(clock, terminal);
    let other = Meter::new(clock, terminal);
    (one, other)
}

// Memory may run out at any time, and what stands at the path no contract of it sees.
pub fn late_file_determined<'a, R: Files + AllocGlobal>(
    rt: &'a R,
    failed: &'a Cell<i32>,
    path: &str,
) -> Result<(LateFile<'a, R>, LateFile<'a, R>), AllocError>
    ensures rt { IfOk result (λ made. made.0.rt ≡ made.1.rt) }
    ensures path { IfOk result (λ made. string_bytes made.0.path ≡ string_bytes made.1.path) }
    ensures file { IfOk result (λ made. made.0.file ≡ made.1.file) }
{
    let one = LateFile::new(rt, failed, path)?;
    let other = LateFile::new(rt, failed, path)?;
    Ok((one, other))
}

pub fn over_determined<'a, S, P: Progress>(
    ours: S,
    theirs: S,
    len: Option<u64>,
    progress: &'a P,
) -> (Shown<'a, S, P>, Shown<'a, S, P>)
    requires { ours ≡ theirs }
    ensures { result.0.source ≡ result.1.source }
{
    let one = Shown::over(ours, len, progress);
    let other = Shown::over(theirs, len, progress);
    (one, other)
}

pub fn reason_determined(fate: Fate) -> (Option<&'static str>, Option<&'static str>)
    ensures { option_copied result.0 ≡ option_copied result.1 }
{
    let one = fate.reason();
    let other = fate.reason();
    (one, other)
}
