//! Encodings of bytes that are read by position, by several threads: `b3par`.

use crate::telling::tell;
use anyhow::Result;
use b3par::{ReadFault, Source, combined_source, hash_source};
use b3tree::{Hash, Hasher, Mode, TooLong};
use std::alloc::Global;
use std::thread::Threads;

// How many threads share the work.
const WORKERS: usize = 4;

/// The hash of the `len` bytes of a source. A file is one, and bytes in memory are.
pub fn source_hash<R: Threads + Sync, S: Source + Sync>(
    rt: &R,
    alloc: Global,
    source: &S,
    len: u64,
) -> Result<Hash, ReadFault> {
    hash_source(rt, alloc, &Mode::hash(), source, len, WORKERS)
}

/// Their combined encoding, in texts that follow one another.
pub fn source_texts<R: Threads + Sync, S: Source + Sync>(
    rt: &R,
    alloc: Global,
    source: &S,
    len: u64,
) -> Result<Vec<Vec<u8>>, ReadFault> {
    let (_, texts) = combined_source(rt, alloc, &Mode::hash(), source, len, WORKERS)?;
    Ok(texts)
}

// The hash of the texts as one.
fn hash_of_texts(texts: &[Vec<u8>]) -> Result<Hash, TooLong> {
    let mut hasher = Hasher::new(&Mode::hash());
    for text in texts {
        hasher.update(text.as_slice())?;
    }
    Ok(hasher.finalize())
}

/// Prints a line for each.
pub fn show<R: Print + Threads + Sync>(rt: &R, alloc: Global, blob: &[u8]) -> Result<()> {
    let len = blob.len() as u64;
    tell(
        rt,
        alloc,
        "hash of a source",
        &source_hash(rt, alloc, &blob, len)?.0,
    )?;
    let texts = source_texts(rt, alloc, &blob, len)?;
    tell(
        rt,
        alloc,
        "combined of a source",
        &hash_of_texts(texts.as_slice())?.0,
    )
}
