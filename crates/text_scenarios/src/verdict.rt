use crate::line::{three, two};
use crate::trickle::Trickle;
use anyhow::{Result, bail};
use b3tree::{Hash, Mode};
use bao_check::{
    CheckFault, Checked, bare_fits, check_bare, check_combined, check_outboard, check_slice,
    check_stream,
};
use std::alloc::Global;
use std::io::ErrorKind;

// As which text bytes are checked.
#[derive(Clone, Copy)]
pub enum Form {
    Combined,
    Outboard,
    Slice { start: u64, len: u64 },
    // Through a reader that gives at most so many bytes a call.
    Stream { start: u64, len: u64, most: u64 },
    // So many chunks from this one on, without parents: those are in the outline.
    Bare { first: u64, count: u64 },
}

impl Form {
    pub fn read(alloc: Global, words: &str) -> Result<Form> {
        match words.split_once(' ') {
            None if words == "combined" => Ok(Form::Combined),
            None if words == "outboard" => Ok(Form::Outboard),
            Some(("slice", range)) => {
                let (start, len) = two(alloc, range)?;
                Ok(Form::Slice { start, len })
            }
            Some(("stream", range)) => {
                let (start, len, most) = three(alloc, range)?;
                Ok(Form::Stream { start, len, most })
            }
            Some(("bare", part)) => {
                let (first, count) = two(alloc, part)?;
                Ok(Form::Bare { first, count })
            }
            _ => bail!("a form of text"),
        }
    }
}

// What is known of an accepted piece, or the first fault.
fn told(alloc: Global, checked: Result<Checked<'_>, CheckFault>) -> Result<String> {
    let piece = match checked {
        Ok(piece) => piece,
        Err(fault) => return Ok(format!(in alloc; "{fault}")?),
    };
    let claimed = piece.claimed();
    let (first, after) = piece.chunks();
    let last = after - 1;
    let said = format!(in alloc; "accepted: claims {claimed}, chunks {first} to {last}")?;
    match piece.tail() {
        Some(tail) => {
            let length = tail.length();
            Ok(format!(in alloc; "{said}, length {length}")?)
        }
        None => Ok(format!(in alloc; "{said}, no length")?),
    }
}

// The verdict on chunks beside an outline, if that is accepted and has such chunks.
fn beside(
    alloc: Global,
    mode: &Mode,
    root: &Hash,
    outline: &[u8],
    first: u64,
    count: u64,
    text: &[u8],
) -> Result<String> {
    match check_outboard(alloc, mode, root, outline) {
        Ok(outline) => {
            if bare_fits(&outline, first, count) {
                told(alloc, check_bare(&outline, first, count, text))
            } else {
                Ok(String::from_str(alloc, "no such chunks")?)
            }
        }
        Err(fault) => Ok(format!(in alloc; "outline: {fault}")?),
    }
}

pub fn verdict(
    alloc: Global,
    mode: &Mode,
    root: &Hash,
    form: Form,
    outline: &[u8],
    text: &[u8],
) -> Result<String> {
    match form {
        Form::Combined => told(alloc, check_combined(alloc, mode, root, text)),
        Form::Slice { start, len } => told(alloc, check_slice(alloc, mode, root, start, len, text)),
        Form::Stream { start, len, most } => {
            let mut held = Vec::new(alloc);
            let mut reader = Trickle::new(text, most as usize);
            let checked = check_stream(alloc, mode, root, start, len, &mut reader, &mut held);
            let said = told(alloc, checked)?;
            let left = reader.left.len();
            Ok(format!(in alloc; "{said}, {left} bytes left")?)
        }
        Form::Outboard => match check_outboard(alloc, mode, root, text) {
            Ok(outline) => {
                let claimed = outline.claimed();
                Ok(format!(in alloc; "accepted: claims {claimed}")?)
            }
            Err(fault) => Ok(format!(in alloc; "{fault}")?),
        },
        Form::Bare { first, count } => beside(alloc, mode, root, outline, first, count, text),
    }
}

// The verdict on what a reader gives that fails so after so many bytes, and whether it was read on then, or what was read is lost.
pub fn verdict_until(
    alloc: Global,
    mode: &Mode,
    root: &Hash,
    form: Form,
    text: &[u8],
    until: usize,
    kind: ErrorKind,
) -> Result<String> {
    let Form::Stream { start, len, most } = form else {
        bail!("a stream");
    };
    let mut held = Vec::new(alloc);
    let mut reader = Trickle::failing(text, most as usize, until, kind);
    let checked = check_stream(alloc, mode, root, start, len, &mut reader, &mut held);
    let said = told(alloc, checked)?;
    let left = text.len().saturating_sub(reader.left.len());
    if text.get(..left) != Some(held.as_slice()) {
        return Ok(format!(in alloc; "{said}, and other bytes")?);
    }
    if left > until {
        return Ok(format!(in alloc; "{said}, read on")?);
    }
    Ok(said)
}
