use anyhow::{Context, Result};
use b3tree::{Hash, Mode};
use bao_check::{Checked, check_slice};
use bao_text::slice;
use std::alloc::Global;

// A slice's text, with what it is checked as.
#[derive(Drop)]
pub struct Piece {
    pub name: String,
    mode: Mode,
    root: Hash,
    start: u64,
    len: u64,
    pub text: Vec<u8>,
}

impl Piece {
    // The slice of the blob.
    pub fn cut(
        alloc: Global,
        name: &str,
        mode: Mode,
        blob: &[u8],
        start: u64,
        len: u64,
    ) -> Result<Piece> {
        let (root, text) = slice(alloc, &mode, blob, start, len)?;
        let name = String::from_str(alloc, name)?;
        Ok(Piece {
            name,
            mode,
            root,
            start,
            len,
            text,
        })
    }

    // Writes another length in front.
    pub fn claim(&mut self, length: u64) -> Result<()> {
        self.text
            .as_mut_slice()
            .get_mut(..8)
            .context("a length")?
            .copy_from_slice(&length.to_le_bytes());
        Ok(())
    }

    pub fn checked(&self, alloc: Global) -> Result<Checked<'_>> {
        let text = self.text.as_slice();
        Ok(check_slice(alloc, &self.mode, &self.root, self.start, self.len, text)?)
    }
}
