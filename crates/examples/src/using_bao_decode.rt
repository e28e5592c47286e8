//! What an encoding has of a blob, written once all of it was verified: `bao_decode`.

use crate::telling::tell_text;
use anyhow::Result;
use b3tree::{Hash, Mode};
use bao_decode::{DecodeFault, write_decoded};
use bao_text::{Part, combined, cut_slice};
use std::alloc::{AllocGlobal, Global};
use std::thread::Threads;

/// Writes the bytes of `len` from `start` on that this slice has of the blob with this root, and answers how many there are. The
/// slice may be any bytes, in a file as well: nothing is written unless it is accepted.
pub fn write_part<R: AllocGlobal + Threads + Sync>(
    rt: &R,
    root: &Hash,
    start: u64,
    len: u64,
    slice: &[u8],
    out: &mut Vec<u8>,
) -> Result<u64, DecodeFault<'static>> {
    let part = Part::Slice { start, len };
    write_decoded(
        rt,
        &Mode::hash(),
        root,
        &part,
        &slice,
        "the slice",
        out,
        "the part",
    )
}

/// Prints a line.
pub fn show<R: Print + AllocGlobal + Threads + Sync>(
    rt: &R,
    alloc: Global,
    blob: &[u8],
) -> Result<()> {
    let (root, text) = combined(alloc, &Mode::hash(), blob)?;
    let slice = cut_slice(alloc, text.as_slice(), 70_000, 1_000)?;
    let mut out = Vec::new(alloc);
    write_part(rt, &root, 70_000, 1_000, slice.as_slice(), &mut out)?;
    tell_text(rt, alloc, "decoded slice", out.as_slice())
}
