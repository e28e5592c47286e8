//! Encodings of bytes that are all there: `bao_text`.

use crate::telling::{tell, tell_text};
use anyhow::Result;
use b3tree::Mode;
use bao_text::{combined, cut_slice, outboard, slice};
use std::alloc::Global;

/// The combined encoding has the blob's bytes and the tree's parents. A slice of it is cut out with nothing hashed.
pub fn show_combined<R: Print>(rt: &R, alloc: Global, blob: &[u8]) -> Result<()> {
    let (root, text) = combined(alloc, &Mode::hash(), blob)?;
    tell(rt, alloc, "root", &root.0)?;
    tell_text(rt, alloc, "combined", text.as_slice())?;
    let part = cut_slice(alloc, text.as_slice(), 70_000, 1_000)?;
    tell_text(rt, alloc, "cut slice", part.as_slice())
}

/// The outboard encoding has the parents alone, and stands beside the blob.
pub fn show_outboard<R: Print>(rt: &R, alloc: Global, blob: &[u8]) -> Result<()> {
    let (_, text) = outboard(alloc, &Mode::hash(), blob)?;
    tell_text(rt, alloc, "outboard", text.as_slice())
}

/// A slice has the chunks of a range, and the parents above them: here of 1,000 bytes from byte 70,000 on.
pub fn show_slice<R: Print>(rt: &R, alloc: Global, blob: &[u8]) -> Result<()> {
    let (_, text) = slice(alloc, &Mode::hash(), blob, 70_000, 1_000)?;
    tell_text(rt, alloc, "slice", text.as_slice())
}

/// Prints a line for each.
pub fn show<R: Print>(rt: &R, alloc: Global, blob: &[u8]) -> Result<()> {
    show_combined(rt, alloc, blob)?;
    show_outboard(rt, alloc, blob)?;
    show_slice(rt, alloc, blob)
}
