ghost use Rattle.std.specs.Prelude.{◌≡◌, ℕ, ◌<◌, ◌++◌, List, length, map, IfOk, OnOk, IsErrOf};
ghost use Rattle.bao_script.specs.declared.fault.ScriptFault.TheVariants.{Line as RefusedLine};
ghost use Rattle.bao_script.specs.declared.numbered.NumberedLine.{NumberedLine};
ghost use Rattle.bao_script.specs.Scripts.{GainsLine, IsFirstRefused, IsScript, IsRefusedLine};
ghost use Rattle.bao_script.specs.Slices.{NameFiles};
ghost use Rattle.bao_script.specs.Words.{lines_of};

use crate::fault::ScriptFault;
use crate::forms::read_line;
use crate::numbered::NumberedLine;
use std::alloc::{AllocError, Global};
use std::marker::Model;

/// The lines of a script that aren't empty, in order. Contracts refer to them as a list.
#[derive(Drop)]
pub struct Script {
    lines: Vec<NumberedLine>,
}

impl Model for Script {
    ghost Value = { List NumberedLine };

    ghost view = { λ script. script.lines.items };
}

impl Script {
    /// Returns the lines, in order.
    pub fn lines(&self) -> &[NumberedLine]
        ensures { result.now ≡ self.now }
    {
        self.lines.as_slice()
    }
}

// The lines of a text.
fn split_lines<'a>(alloc: Global, text: &'a [u8]) -> Result<Vec<&'a [u8]>, AllocError>
    ensures { IfOk result (λ lines. map (λ line. line.now) lines.items ≡ lines_of text.now) }
{
    text.split(|byte| *byte == b'\n').collect(alloc)
}

// Adds what the line with this number says, if it isn't empty.
fn add_line(
    alloc: Global,
    lines: &mut Vec<NumberedLine>,
    number: u64,
    line: &[u8],
    files: usize,
) -> Result<(), ScriptFault>
    ensures ok { OnOk result (GainsLine files lines.old.items lines.new.items number line.now) }
    ensures refused { (n : ℕ) → IsErrOf result (RefusedLine n) → (n ≡ number) × IsRefusedLine files line.now }
{
    if line.is_empty() {
        return Ok(());
    }
    match read_line(alloc, line, files)? {
        Some(line) => {
            lines.push(NumberedLine { number, line })?;
            Ok(())
        }
        None => Err(ScriptFault::Line { number }),
    }
}

/// Parses a script that may name `files` files.
///
/// Lines end with a line feed, which the last may lack; empty lines are skipped. Words are separated by one
/// space. A number is one or more decimal digits without a sign; leading zeros are allowed.
///
/// Refuses with `Line` and the number of the first line that has none of the nine forms: another name, fewer or
/// more numbers, a number that is too large, a file that doesn't exist, or a carriage return. Refuses with
/// `Memory` if there is none for the lines.
pub fn parse(alloc: Global, text: &[u8], files: usize) -> Result<Script, ScriptFault>
    ensures script { IfOk result (IsScript files text.now) }
    ensures files { IfOk result (NameFiles files) }
    ensures refused { (number : ℕ) → IsErrOf result (RefusedLine number) → IsFirstRefused files text.now number }
{
    let texts = split_lines(alloc, text)?;
    let mut lines = Vec::new(alloc);
    for (index, line) in texts.iter().enumerate() {
        add_line(alloc, &mut lines, index as u64 + 1, line, files)?;
    }
    Ok(Script { lines })
}
