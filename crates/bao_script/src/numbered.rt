use crate::line::Line;

/// A line of a script, with its number in the script's text, from 1.
#[derive(Clone, Copy, Debug, PartialEq, Eq)]
pub struct NumberedLine {
    pub number: u64,
    pub line: Line,
}
