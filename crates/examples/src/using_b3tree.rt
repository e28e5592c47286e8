//! Hashes: `b3tree`, and the pool of threads of `b3par`.

use crate::telling::tell;
use anyhow::Result;
use b3par::{Open, ParFault, hash_pool};
use b3tree::{Hash, Hasher, Mode, TooLong, hash, xof};
use std::alloc::Global;
use std::thread::Threads;

// The bytes that come at once.
const PIECE_LEN: usize = 4_000;

/// The hash of bytes that are all there.
pub fn plain_hash(bytes: &[u8]) -> Hash {
    hash(&Mode::hash(), bytes)
}

/// The hash under a key: nobody without the key can make it.
pub fn keyed_hash(key: [u8; 32], bytes: &[u8]) -> Hash {
    hash(&Mode::keyed(key), bytes)
}

/// A key for one use, the context, out of key material.
pub fn derived_key(context: &str, material: &[u8]) -> Hash {
    hash(&Mode::derive(context), material)
}

/// More output than a hash has, from its first byte on.
pub fn longer_output(bytes: &[u8]) -> [u8; 48] {
    let mut output = [0; 48];
    xof(&Mode::hash(), bytes, 0, &mut output);
    output
}

/// The hash of bytes that come in pieces.
pub fn hash_in_pieces(bytes: &[u8]) -> Result<Hash, TooLong> {
    let mut hasher = Hasher::new(&Mode::hash());
    for piece in bytes.chunks(PIECE_LEN) {
        hasher.update(piece)?;
    }
    Ok(hasher.finalize())
}

/// The hash by a pool of four threads.
pub fn hash_by_pool<R: Threads + Sync>(
    rt: &R,
    alloc: Global,
    bytes: &[u8],
) -> Result<Hash, ParFault> {
    hash_pool(rt, alloc, &Mode::hash(), bytes, 4, &Open)
}

/// Prints a line for each.
pub fn show<R: Print + Threads + Sync>(rt: &R, alloc: Global, blob: &[u8]) -> Result<()> {
    tell(rt, alloc, "hash", &plain_hash(blob).0)?;
    tell(rt, alloc, "keyed hash", &keyed_hash([7; 32], blob).0)?;
    tell(
        rt,
        alloc,
        "derived key",
        &derived_key("examples 2026", blob).0,
    )?;
    tell(rt, alloc, "longer output", &longer_output(blob))?;
    tell(rt, alloc, "hash in pieces", &hash_in_pieces(blob)?.0)?;
    tell(
        rt,
        alloc,
        "hash by a pool",
        &hash_by_pool(rt, alloc, blob)?.0,
    )
}
