use anyhow::{Context, Result, bail};
use b3tree::Mode;
use hex::FromHex;
use std::alloc::Global;

// The words of a line, with one space between them.
pub fn words<'a>(alloc: Global, line: &'a str) -> Result<Vec<&'a str>> {
    Ok(line.split(' ').collect(alloc)?)
}

pub fn number(word: &str) -> Result<u64> {
    word.parse::<u64>().context("a number")
}

// A number of 32 bits: a larger one counts as the largest.
pub fn short(word: &str) -> Result<u32> {
    Ok(u32::try_from(number(word)?).unwrap_or(u32::MAX))
}

pub fn mode(words: &str) -> Result<Mode> {
    match words.split_once(' ') {
        None if words == "plain" => Ok(Mode::hash()),
        Some(("key", key)) => Ok(Mode::keyed(<[u8; 32] as FromHex>::from_hex(key)?)),
        _ => bail!("a mode"),
    }
}
