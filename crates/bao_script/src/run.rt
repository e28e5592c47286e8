ghost use Rattle.std.specs.Prelude.{◌≡◌, ◌++◌, ℕ, IfErr, IsErrOf, OnOk, map, option_to_list, string_bytes};
ghost use Rattle.bao_script.specs.declared.fault.ReplayScriptFault.TheVariants.{Illegal};
ghost use Rattle.bao_script.specs.Faults.{IsLate};
ghost use Rattle.bao_script.specs.ScriptRuns.{RanLines, RanSteps, StandsAt, StopsAmong, StopsAtLine, answers_text};
ghost use Rattle.bao_script.specs.Steps.{steps_of};
ghost use Rattle.holders.specs.declared.fixed.Fixed.{Fixed};
ghost use Rattle.store_core.specs.Machine.{Machine};

use crate::fault::ReplayScriptFault;
use crate::numbered::NumberedLine;
use crate::printed::push_reply;
use crate::steps::{piece_count, step_at, step_count};
use bao_check::Checked;
use std::alloc::{AllocError, Global};
use store_core::{Reply, ScheduleRun, StepFault};

// Adds the line of a reply to the line with this number, if there is one.
fn print_reply(
    alloc: Global,
    out: &mut String,
    number: u64,
    reply: Option<Reply>,
) -> Result<(), AllocError>
    ensures { OnOk result (string_bytes out.new ≡ string_bytes out.old ++ answers_text (map (λ reply. (number, reply)) (option_to_list reply))) }
{
    if let Some(reply) = reply {
        push_reply(alloc, out, number, &reply)?;
    }
    Ok(())
}

// Runs the steps of a line, and prints what they answer. Its piece, if it has one, is that with this number of the list.
fn run_line<'a>(
    alloc: Global,
    run: &mut ScheduleRun<'a>,
    pieces: &[Checked<'a>],
    piece: usize,
    line: &NumberedLine,
    out: &mut String,
) -> Result<(), ReplayScriptFault>
    ensures ok { (fixed : Fixed) (m : Machine) → StandsAt fixed pieces.now m run.old
        → OnOk result (RanSteps fixed pieces.now m (steps_of piece line.now.line) line.now.number (string_bytes out.old) (string_bytes out.new) run.new) }
    ensures illegal { (fixed : Fixed) (m : Machine) (number : ℕ) → StandsAt fixed pieces.now m run.old → IsErrOf result (Illegal number)
        → (line.now.number ≡ number) × StopsAmong fixed pieces.now m (steps_of piece line.now.line) }
    ensures fault { IfErr result IsLate }
{
    for index in 0..step_count(&line.line) {
        match run.step(pieces, &step_at(&line.line, piece, index)) {
            Ok(reply) => print_reply(alloc, out, line.number, reply)?,
            Err(StepFault::Memory) => return Err(ReplayScriptFault::Replaying),
            Err(StepFault::Illegal) => {
                return Err(ReplayScriptFault::Illegal { line: line.number });
            }
        }
    }
    Ok(())
}

// Runs the lines of a script, and prints what they answer.
pub fn run_lines<'a>(
    alloc: Global,
    run: &mut ScheduleRun<'a>,
    pieces: &[Checked<'a>],
    lines: &[NumberedLine],
    out: &mut String,
) -> Result<(), ReplayScriptFault>
    ensures ok { (fixed : Fixed) (m : Machine) → StandsAt fixed pieces.now m run.old
        → OnOk result (RanLines fixed pieces.now m lines.now (string_bytes out.old) (string_bytes out.new) run.new) }
    ensures illegal { (fixed : Fixed) (m : Machine) (number : ℕ) → StandsAt fixed pieces.now m run.old → IsErrOf result (Illegal number)
        → StopsAtLine fixed pieces.now 0 m lines.now number }
    ensures fault { IfErr result IsLate }
{
    let mut piece = 0;
    for line in lines {
        run_line(alloc, run, pieces, piece, line, out)?;
        piece += piece_count(&line.line);
    }
    Ok(())
}
