//! A blob of any length out of several damaged copies, written window by window: `bao_windows`.

use crate::telling::tell_text;
use crate::using_gather::damaged_copies;
use anyhow::Result;
use b3tree::{Hash, Mode};
use bao_windows::{Wanted, WindowsFault, write_windows};
use gather::{Form, Grain};
use std::alloc::Global;
use std::thread::Threads;

// How many threads ask the copies at once.
const WORKERS: u32 = 2;

/// Writes the blob with this root out of copies of its combined encoding, none of which is trusted, and answers how many bytes it
/// has. A file is a source, too, and any writer takes the bytes.
pub fn write_gathered<R: AllocGlobal + Threads + Sync>(
    rt: &R,
    root: Hash,
    copies: &[&[u8]],
    out: &mut Vec<u8>,
) -> Result<u64, WindowsFault> {
    let wanted = Wanted {
        root,
        mode: Mode::hash(),
        form: Form::Slices,
        grain: Grain::Group,
    };
    write_windows(rt, &wanted, WORKERS, u64::MAX, copies, out)
}

/// The bytes of each copy, by reference: sources that are read by position.
pub fn sources_over<'a>(alloc: Global, copies: &'a [Vec<u8>]) -> Result<Vec<&'a [u8]>> {
    let mut sources = Vec::new(alloc);
    for copy in copies {
        sources.push(copy.as_slice())?;
    }
    Ok(sources)
}

/// Prints a line.
pub fn show<R: Print + AllocGlobal + Threads + Sync>(
    rt: &R,
    alloc: Global,
    blob: &[u8],
) -> Result<()> {
    let (root, copies) = damaged_copies(alloc, blob)?;
    let sources = sources_over(alloc, copies.as_slice())?;
    let mut out = Vec::new(alloc);
    write_gathered(rt, root, sources.as_slice(), &mut out)?;
    tell_text(rt, alloc, "written by windows", out.as_slice())
}
