ghost use Rattle.std.specs.Prelude.{◌≡◌, ◌<◌, ℕ, Some, length, slice_get};
ghost use Rattle.bao_script.specs.Steps.{pieces_in, steps_of};

use crate::line::Line;
use store_core::{CELL_WORDS, MicroStep};

// How many steps a line stands for.
pub fn step_count(line: &Line) -> u8
    ensures { (piece : ℕ) → result ≡ length (steps_of piece line.now) }
{
    match line {
        Line::Fill { .. } => CELL_WORDS,
        _ => 1,
    }
}

// The step of a line with this index; its piece, if it has one, is that with this number of the list.
pub fn step_at(line: &Line, piece: usize, index: u8) -> MicroStep
    requires { index < length (steps_of piece line.now) }
    ensures { slice_get (steps_of piece line.now) index ≡ Some result }
{
    match *line {
        Line::Claim { seat, group, want } => MicroStep::Claim { seat, group, want },
        Line::Hash { seat, .. } => MicroStep::Hash { seat, piece },
        Line::Write { seat, chunk, word } => MicroStep::Write { seat, chunk, word },
        Line::Fill { seat, chunk } => MicroStep::Write {
            seat,
            chunk,
            word: index,
        },
        Line::Publish { seat, group } => MicroStep::Publish { seat, group },
        Line::Give { seat, group, mask } => MicroStep::GiveBack { seat, group, mask },
        Line::Load { seat, at, len } => MicroStep::Load { seat, at, len },
        Line::Settle { seat } => MicroStep::Settle { seat },
        Line::Length { seat } => MicroStep::Length { seat },
    }
}

// How many pieces of the list are the line's own.
pub fn piece_count(line: &Line) -> usize
    ensures { result ≡ pieces_in line.now }
{
    match line {
        Line::Hash { .. } => 1,
        _ => 0,
    }
}
