ghost use Rattle.std.specs.Prelude.{◌≡◌, ◌++◌, [], length, map, OnOk, IfErr, IfOk, List, ℕ, IsErrOf};
ghost use Rattle.bao_script.specs.declared.fault.ReplayScriptFault.TheVariants.{Refused};
ghost use Rattle.bao_script.specs.Faults.{IsEarly, IsWant};
ghost use Rattle.bao_script.specs.Forms.{NamesFile};
ghost use Rattle.bao_script.specs.Slices.{ArePieces, IsPieceOf, IsRefusedSlice, NameFiles, Slice, slice_of_line, slices_of};
ghost use Rattle.bao_check.specs.Accepted.{slice_nodes};
ghost use Rattle.bao_check.specs.Faults.{IsFirstFault};
ghost use Rattle.bao_check.specs.declared.fault.CheckFault.{CheckFault};

use crate::fault::ReplayScriptFault;
use crate::line::Line;
use crate::numbered::NumberedLine;
use b3tree::{Hash, Mode};
use bao_check::{Checked, check_slice};
use bao_text::cut_slice;
use std::alloc::Global;
use std::marker::Model;

// The slice that the line with this number names, cut out of its file.
#[derive(Drop)]
pub struct CutSlice {
    number: u64,
    start: u64,
    len: u64,
    text: Vec<u8>,
}

impl Model for CutSlice {
    ghost Value = { Slice };

    ghost view = { λ s. record { number = s.number; start = s.start; len = s.len; text = s.text.items } };
}

// Adds the slice that a line names, if it names one.
fn push_slice(
    alloc: Global,
    slices: &mut Vec<CutSlice>,
    files: &[Vec<u8>],
    line: &NumberedLine,
) -> Result<(), ReplayScriptFault>
    requires { NamesFile (length files.now) line.now.line }
    ensures ok { OnOk result (slices.new.items ≡ slices.old.items ++ slice_of_line (map (λ file. file.items) files.now) line.now.number line.now.line) }
    ensures fault { IfErr result IsWant }
{
    if let Line::Hash {
        file,
        start,
        len,
        ..
    } = line.line
    {
        let text = cut_slice(alloc, files[file].as_slice(), start, len)?;
        slices.push(CutSlice {
            number: line.number,
            start,
            len,
            text,
        })?;
    }
    Ok(())
}

// The slices that the lines name, in order.
pub fn cut_slices(
    alloc: Global,
    files: &[Vec<u8>],
    lines: &[NumberedLine],
) -> Result<Vec<CutSlice>, ReplayScriptFault>
    requires { NameFiles (length files.now) lines.now }
    ensures ok { IfOk result (λ slices. slices.items ≡ slices_of (map (λ file. file.items) files.now) lines.now) }
    ensures fault { IfErr result IsWant }
{
    let mut slices = Vec::new(alloc);
    for line in lines {
        push_slice(alloc, &mut slices, files, line)?;
    }
    Ok(slices)
}

// The slice as a piece under the root.
fn check_cut<'a>(
    alloc: Global,
    root: &Hash,
    mode: &Mode,
    slice: &'a CutSlice,
) -> Result<Checked<'a>, ReplayScriptFault>
    ensures fault { IfErr result IsEarly }
    ensures piece { IfOk result (IsPieceOf mode.now root.now.0 slice.now) }
    ensures refused { (number : ℕ) (fault : CheckFault) → IsErrOf result (Refused number fault)
        → (number ≡ slice.now.number) × IsFirstFault mode.now root.now.0 slice.now.text (slice_nodes slice.now.text slice.now.start slice.now.len) fault }
{
    let text = slice.text.as_slice();
    match check_slice(alloc, mode, root, slice.start, slice.len, text) {
        Ok(piece) => Ok(piece),
        Err(fault) => Err(ReplayScriptFault::Refused {
            line: slice.number,
            fault,
        }),
    }
}

// The slices as pieces under the root, or the first that is refused.
pub fn check_slices<'a>(
    alloc: Global,
    root: &Hash,
    mode: &Mode,
    slices: &'a [CutSlice],
) -> Result<Vec<Checked<'a>>, ReplayScriptFault>
    ensures fault { IfErr result IsEarly }
    ensures pieces { IfOk result (λ pieces. ArePieces mode.now root.now.0 slices.now pieces.items) }
    ensures refused { (number : ℕ) (fault : CheckFault) → IsErrOf result (Refused number fault) → IsRefusedSlice mode.now root.now.0 slices.now number fault }
{
    let mut pieces = Vec::new(alloc);
    for slice in slices {
        let piece = check_cut(alloc, root, mode, slice)?;
        pieces.push(piece)?;
    }
    Ok(pieces)
}
