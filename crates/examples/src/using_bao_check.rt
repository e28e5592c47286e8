//! Encodings that a stranger sent, checked: `bao_check`.

use crate::telling::{tell, tell_text};
use anyhow::{Context, Result, bail};
use b3tree::{Hash, Mode, hash};
use bao_check::{
    CheckFault, Checking, OutboardFeed, bare_fits, check_bare, check_outboard, check_slice,
};
use bao_text::{combined, outboard, slice};
use std::alloc::Global;

// The bytes that come at once.
const PIECE_LEN: usize = 4_000;

/// The chunk with byte `at` of the blob with this root, out of the encoding of the slice of that byte. It is borrowed from
/// the encoding.
pub fn checked_chunk<'a>(alloc: Global, root: &Hash, at: u64, text: &'a [u8]) -> Result<&'a [u8]> {
    let piece = check_slice(alloc, &Mode::hash(), root, at, 1, text)?;
    let (first, _) = piece.chunks();
    piece.chunk(first).context("the only chunk")
}

/// How long the blob is, by the encoding of the slice of its last byte: that alone certifies a length.
pub fn certified_length(alloc: Global, root: &Hash, text: &[u8]) -> Result<u64> {
    let piece = check_slice(alloc, &Mode::hash(), root, u64::MAX, 1, text)?;
    let tail = piece.tail().context("the last chunk")?;
    Ok(tail.length())
}

/// The second chunk out of a plain copy, checked beside the outboard encoding.
pub fn second_chunk(alloc: Global, root: &Hash, outline: &[u8], chunk: &[u8]) -> Result<Vec<u8>> {
    let outline = check_outboard(alloc, &Mode::hash(), root, outline)?;
    if !bare_fits(&outline, 1, 1) {
        bail!("a blob with a second chunk");
    }
    let piece = check_bare(&outline, 1, 1, chunk)?;
    let bytes = piece.chunk(1).context("the second chunk")?;
    Ok(bytes.to_vec(alloc)?)
}

// Takes what has come into the check, as far as nodes are whole, and appends the blob's bytes among it. What is left waits.
fn feed(alloc: Global, check: &mut Checking, come: Vec<u8>, blob: &mut Vec<u8>) -> Result<Vec<u8>> {
    let mut room = vec![in alloc; 0u8; come.len()]?;
    let decoded = check.decode(come.as_slice(), room.as_mut_slice())?;
    blob.extend_from_slice(&room.as_slice()[..decoded.filled])?;
    Ok(come.as_slice()[decoded.taken..].to_vec(alloc)?)
}

/// The blob out of a combined encoding that comes in pieces. Each byte that is handed out was checked before.
pub fn decoded(alloc: Global, root: &Hash, text: &[u8]) -> Result<Vec<u8>> {
    let mut check = Checking::of_combined(&Mode::hash(), root);
    let mut blob = Vec::new(alloc);
    let mut left = Vec::new(alloc);
    for piece in text.chunks(PIECE_LEN) {
        left.extend_from_slice(piece)?;
        left = feed(alloc, &mut check, left, &mut blob)?;
    }
    if !check.is_done() || !left.is_empty() {
        bail!("an encoding that ends where the check does");
    }
    Ok(blob)
}

/// The length that an outboard encoding claims, which comes in pieces. A false parent is refused before more of it comes.
pub fn claimed_length(alloc: Global, root: &Hash, text: &[u8]) -> Result<u64, CheckFault> {
    let mut feed = OutboardFeed::new(alloc, &Mode::hash(), root);
    for piece in text.chunks(PIECE_LEN) {
        feed.push(piece)?;
    }
    let outline = feed.outline()?;
    Ok(outline.claimed())
}

fn show_chunk<R: Print>(rt: &R, alloc: Global, root: &Hash, blob: &[u8]) -> Result<()> {
    let (_, text) = slice(alloc, &Mode::hash(), blob, 70_000, 1)?;
    let chunk = checked_chunk(alloc, root, 70_000, text.as_slice())?;
    tell_text(rt, alloc, "checked chunk", chunk)
}

fn show_length<R: Print>(rt: &R, alloc: Global, root: &Hash, blob: &[u8]) -> Result<()> {
    let (_, text) = slice(alloc, &Mode::hash(), blob, u64::MAX, 1)?;
    let length = certified_length(alloc, root, text.as_slice())?;
    println!(rt; "certified length: {length}")?;
    Ok(())
}

fn show_beside<R: Print>(rt: &R, alloc: Global, root: &Hash, blob: &[u8]) -> Result<()> {
    let (_, outline) = outboard(alloc, &Mode::hash(), blob)?;
    let chunk = blob.get(1_024..2_048).context("a second chunk")?;
    let checked = second_chunk(alloc, root, outline.as_slice(), chunk)?;
    tell_text(rt, alloc, "second chunk", checked.as_slice())
}

fn show_claimed<R: Print>(rt: &R, alloc: Global, root: &Hash, blob: &[u8]) -> Result<()> {
    let (_, text) = outboard(alloc, &Mode::hash(), blob)?;
    let length = claimed_length(alloc, root, text.as_slice())?;
    println!(rt; "claimed by an outboard in pieces: {length}")?;
    Ok(())
}

/// Prints a line for each.
pub fn show<R: Print>(rt: &R, alloc: Global, blob: &[u8]) -> Result<()> {
    let root = hash(&Mode::hash(), blob);
    show_chunk(rt, alloc, &root, blob)?;
    show_length(rt, alloc, &root, blob)?;
    show_beside(rt, alloc, &root, blob)?;
    let (_, text) = combined(alloc, &Mode::hash(), blob)?;
    let decoded = decoded(alloc, &root, text.as_slice())?;
    tell(
        rt,
        alloc,
        "hash of what was decoded",
        &hash(&Mode::hash(), decoded.as_slice()).0,
    )?;
    show_claimed(rt, alloc, &root, blob)
}
