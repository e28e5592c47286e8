//! A blob out of several damaged copies, by several workers that share a store: `crews`.

use crate::telling::tell_text;
use crate::using_gather::{damaged_copies, holders_over};
use anyhow::{Result, bail};
use b3tree::{Hash, Mode};
use gather::{Crew, Open, finish, run};
use std::alloc::Global;
use std::thread::Threads;
use store_shared::Assembly;

// The most chunks that the blob may have.
const CAPACITY: u32 = 256;

/// The blob with this root, by two workers, each with a seat of its own and holders over all copies.
pub fn gathered<R: Threads + Sync>(
    rt: &R,
    alloc: Global,
    root: Hash,
    copies: &[Vec<u8>],
) -> Result<Vec<u8>> {
    let (assembly, seat) = Assembly::new(alloc, root, Mode::hash(), CAPACITY)?;
    let Ok((seat, first)) = assembly.split(seat) else {
        bail!("no memory for a seat");
    };
    let Ok((mut seat, second)) = assembly.split(seat) else {
        bail!("no memory for a seat");
    };
    let first = Crew::new(first, holders_over(alloc, copies)?);
    let second = Crew::new(second, holders_over(alloc, copies)?);
    let mut crews = vec![in alloc; first, second]?;
    run(rt, alloc, &assembly, crews.as_mut_slice(), &Open);
    Ok(finish(alloc, &assembly, &mut seat)?)
}

/// Prints a line.
pub fn show<R: Print + Threads + Sync>(rt: &R, alloc: Global, blob: &[u8]) -> Result<()> {
    let (root, copies) = damaged_copies(alloc, blob)?;
    let blob = gathered(rt, alloc, root, copies.as_slice())?;
    tell_text(rt, alloc, "gathered by workers", blob.as_slice())
}
