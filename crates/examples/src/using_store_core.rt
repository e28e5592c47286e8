//! A store of one blob's chunks, for one thread: `store_core`.

use crate::telling::{tell, tell_text};
use anyhow::{Context, Result};
use b3tree::{Hash, Mode, hash};
use bao_check::{Checked, GROUP_BYTES, check_slice};
use bao_text::slice;
use gather::finish_one;
use std::alloc::Global;
use store_core::{Missing, Store, StoreFault};

// The seat that all claims are of.
const SEAT: u32 = 0;

// Room for so many chunks.
const CAPACITY: u32 = 256;

/// Stores the chunks of a group that a piece holds, and the parents of the piece. They are claimed before, and no claim is left.
pub fn put_group(store: &mut Store, group: u32, piece: &Checked<'_>) -> Result<u64, StoreFault> {
    store.take(SEAT, group, u64::MAX)?;
    let committed = store.commit(SEAT, group, piece);
    store.give(SEAT, group, u64::MAX);
    for boundaries in 0..store.fixed().groups() {
        store.commit_parents(boundaries, piece)?;
    }
    committed
}

/// Checks the encoding of a group's slice under the store's root, and stores it.
pub fn put_text(alloc: Global, store: &mut Store, group: u32, text: &[u8]) -> Result<u64> {
    let (root, mode) = (store.fixed().root, store.fixed().mode);
    let start = u64::from(group) * GROUP_BYTES;
    let piece = check_slice(alloc, &mode, &root, start, GROUP_BYTES, text)?;
    Ok(put_group(store, group, &piece)?)
}

/// Checks the encoding of the slice of the last byte, and records the length that it certifies.
pub fn put_length(alloc: Global, store: &mut Store, text: &[u8]) -> Result<Option<u64>> {
    let (root, mode) = (store.fixed().root, store.fixed().mode);
    let piece = check_slice(alloc, &mode, &root, u64::MAX, 1, text)?;
    let tail = piece.tail().context("the last chunk")?;
    store.settle(&tail);
    Ok(store.length())
}

/// The 16 bytes from a position on, as soon as their chunks are held, or the first position that isn't.
pub fn read_16(store: &Store, at: u64) -> Result<[u8; 16], Missing> {
    let mut bytes = [0; 16];
    store.read(at, &mut bytes)?;
    Ok(bytes)
}

// Stores a group of the blob, as somebody who has the blob sends it.
fn fetch_group(alloc: Global, store: &mut Store, blob: &[u8], group: u32) -> Result<()> {
    let start = u64::from(group) * GROUP_BYTES;
    let (_, text) = slice(alloc, &Mode::hash(), blob, start, GROUP_BYTES)?;
    put_text(alloc, store, group, text.as_slice())?;
    Ok(())
}

// An incomplete blob is read and served.
fn show_part<R: Print>(rt: &R, alloc: Global, store: &Store) -> Result<()> {
    for at in [70_000, 131_070] {
        match read_16(store, at) {
            Ok(bytes) => tell(rt, alloc, "read of a part", &bytes)?,
            Err(Missing(position)) => println!(rt; "missing from {position} on")?,
        }
    }
    let text = store.serve_slice(70_000, 1_000)?;
    tell_text(rt, alloc, "served slice", text.as_slice())
}

// A blob that is complete is read, and its hash compared.
fn show_whole<R: Print>(rt: &R, alloc: Global, store: &Store) -> Result<()> {
    let whole = finish_one(alloc, store)?;
    tell_text(rt, alloc, "finished", whole.as_slice())
}

// A store with the length and the second group of the blob.
fn begun(alloc: Global, root: Hash, blob: &[u8]) -> Result<Store> {
    let mut store = Store::new(alloc, root, Mode::hash(), CAPACITY)?;
    let (_, text) = slice(alloc, &Mode::hash(), blob, u64::MAX, 1)?;
    put_length(alloc, &mut store, text.as_slice())?;
    fetch_group(alloc, &mut store, blob, 1)?;
    Ok(store)
}

/// Prints a line for each.
pub fn show<R: Print>(rt: &R, alloc: Global, blob: &[u8]) -> Result<()> {
    let mut store = begun(alloc, hash(&Mode::hash(), blob), blob)?;
    show_part(rt, alloc, &store)?;
    for group in [0, 2, 3] {
        fetch_group(alloc, &mut store, blob, group)?;
    }
    show_whole(rt, alloc, &store)
}
