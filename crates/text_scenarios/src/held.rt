use crate::verdict::Form;
use anyhow::{Result, bail};
use b3tree::{Hash, Mode};
use bao_bind::audit_all;
use bao_check::{Checked, check_combined, check_slice};
use std::alloc::Global;

// A text that is held to be audited with others, and as what it is accepted.
#[derive(Drop)]
pub struct Held {
    mode: Mode,
    root: Hash,
    form: Form,
    text: Vec<u8>,
}

impl Held {
    pub fn new(mode: Mode, root: Hash, form: Form, text: Vec<u8>) -> Held {
        Held {
            mode,
            root,
            form,
            text,
        }
    }
}

// The piece that a text of this form is.
pub fn piece_of<'a>(
    alloc: Global,
    mode: &Mode,
    root: &Hash,
    form: Form,
    text: &'a [u8],
) -> Result<Checked<'a>> {
    match form {
        Form::Combined => Ok(check_combined(alloc, mode, root, text)?),
        Form::Slice { start, len } | Form::Stream { start, len, .. } => {
            Ok(check_slice(alloc, mode, root, start, len, text)?)
        }
        Form::Outboard | Form::Bare { .. } => bail!("a text with chunks and parents"),
    }
}

// What an audit of all of them against the blob says.
pub fn audited(alloc: Global, blob: &[u8], held: &[Held]) -> Result<String> {
    let mut pieces = Vec::new(alloc);
    for it in held {
        let text = it.text.as_slice();
        pieces.push(piece_of(alloc, &it.mode, &it.root, it.form, text)?)?;
    }
    match audit_all(blob, pieces.as_slice()) {
        Ok(None) => Ok(String::from_str(alloc, "all agree")?),
        Ok(Some((index, _, _))) => Ok(format!(in alloc; "collision at {index}")?),
        Err(fault) => Ok(format!(in alloc; "{fault}")?),
    }
}
