//! A blob out of several damaged copies, by one worker: `gather`.

use crate::telling::tell_text;
use anyhow::{Context, Result};
use b3tree::{Hash, Mode};
use bao_text::combined;
use gather::{Encoded, finish_one, run_one};
use std::alloc::{AllocError, Global};
use store_core::Store;

// The most chunks that the blob may have.
const CAPACITY: u32 = 256;

/// A holder over each of these copies of a combined encoding, none of which is trusted.
pub fn holders_over(alloc: Global, copies: &[Vec<u8>]) -> Result<Vec<Encoded<&[u8]>>, AllocError> {
    let mut holders = Vec::with_capacity(alloc, copies.len())?;
    for copy in copies {
        holders.push(Encoded::new(copy.as_slice()))?;
    }
    Ok(holders)
}

/// The blob with this root.
pub fn gathered(alloc: Global, root: Hash, copies: &[Vec<u8>]) -> Result<Vec<u8>> {
    let mut store = Store::new(alloc, root, Mode::hash(), CAPACITY)?;
    let mut holders = holders_over(alloc, copies)?;
    run_one(alloc, &mut store, holders.as_mut_slice());
    Ok(finish_one(alloc, &store)?)
}

// A copy of a text with another byte at this place.
fn damaged(alloc: Global, text: &[u8], at: usize) -> Result<Vec<u8>> {
    let mut copy = text.to_vec(alloc)?;
    let byte = copy
        .as_mut_slice()
        .get_mut(at)
        .context("a place of the text")?;
    *byte ^= 1;
    Ok(copy)
}

/// The blob's root, and two copies of its combined encoding: the first damaged near the front, the second near the end.
pub fn damaged_copies(alloc: Global, blob: &[u8]) -> Result<(Hash, Vec<Vec<u8>>)> {
    let (root, text) = combined(alloc, &Mode::hash(), blob)?;
    let mut copies = Vec::new(alloc);
    for at in [10_000, 150_000] {
        copies.push(damaged(alloc, text.as_slice(), at)?)?;
    }
    Ok((root, copies))
}

/// Prints a line.
pub fn show<R: Print>(rt: &R, alloc: Global, blob: &[u8]) -> Result<()> {
    let (root, copies) = damaged_copies(alloc, blob)?;
    let blob = gathered(alloc, root, copies.as_slice())?;
    tell_text(rt, alloc, "gathered", blob.as_slice())
}
