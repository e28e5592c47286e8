use anyhow::Result;
use b3tree::{Mode, hash};
use std::alloc::Global;

/// Prints bytes in hexadecimal, after what they are.
pub fn tell<R: Print>(rt: &R, alloc: Global, name: &str, bytes: &[u8]) -> Result<()> {
    let digits = hex::encode(alloc, bytes)?;
    println!(rt; "{name}: {digits}")?;
    Ok(())
}

/// Prints how many bytes a text has and its plain hash, after what it is.
pub fn tell_text<R: Print>(rt: &R, alloc: Global, name: &str, text: &[u8]) -> Result<()> {
    let count = text.len();
    let digits = hex::encode(alloc, hash(&Mode::hash(), text).0)?;
    println!(rt; "{name}: {count} bytes {digits}")?;
    Ok(())
}
