use crate::line::{one, three};
use anyhow::{Context, Result, bail};
use std::alloc::Global;

// The byte at a place, with its lowest bit changed.
pub fn flip(text: &mut [u8], at: usize) -> Result<()> {
    let byte = text.get_mut(at).context("a byte of the text")?;
    *byte ^= 1;
    Ok(())
}

// The bytes of two parts of one size change places.
fn swap(text: &mut [u8], first: usize, second: usize, count: usize) -> Result<()> {
    for k in 0..count {
        let (a, b) = (first.saturating_add(k), second.saturating_add(k));
        if a >= text.len() || b >= text.len() {
            bail!("bytes of the text");
        }
        text.swap(a, b);
    }
    Ok(())
}

// Writes another length in front.
fn claim(text: &mut [u8], length: u64) -> Result<()> {
    text.get_mut(..8)
        .context("a length")?
        .copy_from_slice(&length.to_le_bytes());
    Ok(())
}

// Changes the text, where the command is one that does.
pub fn change(alloc: Global, name: &str, words: &str, text: &mut Vec<u8>) -> Result<bool> {
    match name {
        "keep" => text.truncate(one(alloc, words)? as usize),
        "flip" => flip(text.as_mut_slice(), one(alloc, words)? as usize)?,
        "append" => text.extend_from_slice(hex::decode(alloc, words)?.as_slice())?,
        "claim" => claim(text.as_mut_slice(), one(alloc, words)?)?,
        "swap" => {
            let (first, second, count) = three(alloc, words)?;
            swap(
                text.as_mut_slice(),
                first as usize,
                second as usize,
                count as usize,
            )?;
        }
        "text" => *text = hex::decode(alloc, words)?,
        _ => return Ok(false),
    }
    Ok(true)
}
