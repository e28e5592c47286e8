use anyhow::{Context, Result, bail};
use b3tree::Mode;
use hex::FromHex;
use std::alloc::Global;

// The decimal numbers of a line, with one space between them.
pub fn numbers(alloc: Global, words: &str) -> Result<Vec<u64>> {
    let mut numbers = Vec::new(alloc);
    for word in words.split(' ') {
        numbers.push(word.parse::<u64>().context("a number")?)?;
    }
    Ok(numbers)
}

pub fn one(alloc: Global, words: &str) -> Result<u64> {
    match numbers(alloc, words)?.as_slice() {
        [number] => Ok(*number),
        _ => bail!("one number"),
    }
}

pub fn two(alloc: Global, words: &str) -> Result<(u64, u64)> {
    match numbers(alloc, words)?.as_slice() {
        [first, second] => Ok((*first, *second)),
        _ => bail!("two numbers"),
    }
}

pub fn three(alloc: Global, words: &str) -> Result<(u64, u64, u64)> {
    match numbers(alloc, words)?.as_slice() {
        [first, second, third] => Ok((*first, *second, *third)),
        _ => bail!("three numbers"),
    }
}

// The 32 bytes that 64 hexadecimal digits write.
pub fn digest(text: &str) -> Result<[u8; 32]> {
    Ok(<[u8; 32] as FromHex>::from_hex(text)?)
}

pub fn mode(words: &str) -> Result<Mode> {
    match words.split_once(' ') {
        None if words == "plain" => Ok(Mode::hash()),
        Some(("key", key)) => Ok(Mode::keyed(digest(key)?)),
        Some(("context", context)) => Ok(Mode::derive(context)),
        _ => bail!("a mode"),
    }
}
