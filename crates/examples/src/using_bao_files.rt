//! Files by their paths, which are in memory here: `bao_files`.

use crate::telling::tell_text;
use anyhow::{Context, Result};
use b3tree::{Hash, Mode};
use bao_files::{Disk, FileFault, MemoryFiles, encode_on};
use bao_text::Encoding;
use std::alloc::Global;
use std::thread::Threads;

/// Writes the combined encoding of the file at `file` to the file at `path`, and answers the hash. With `System` for a disk these
/// are the system's own files.
pub fn encode<'a, R: AllocGlobal + Threads + Sync, D: Disk>(
    rt: &R,
    disk: &mut D,
    file: &'a str,
    path: &'a str,
) -> Result<Hash, FileFault<'a>> {
    encode_on(rt, disk, &Mode::hash(), Encoding::Combined, file, path, &())
}

/// Prints a line.
pub fn show<R: Print + AllocGlobal + Threads + Sync>(
    rt: &R,
    alloc: Global,
    blob: &[u8],
) -> Result<()> {
    let mut disk = MemoryFiles::new(alloc);
    disk.put("blob", blob.to_vec(alloc)?)?;
    encode(rt, &mut disk, "blob", "blob.bao")?;
    let text = disk.get("blob.bao").context("a file that was written")?;
    tell_text(rt, alloc, "combined in a file", text)
}
