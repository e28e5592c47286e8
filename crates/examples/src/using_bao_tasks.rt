//! What no copy has of a blob, as a list for whoever fetches it: `bao_tasks`.

use crate::telling::tell_text;
use crate::using_bao_windows::sources_over;
use crate::using_gather::damaged_copies;
use anyhow::{Result, bail};
use b3tree::{Hash, Mode};
use bao_tasks::{Form, Grain, Lack, lack_of, write_parts};
use bao_windows::Wanted;
use std::alloc::Global;

// The most parts that are listed.
const MOST_PARTS: usize = 1_000;

/// What none of these copies has of the combined encoding of the blob with this root.
pub fn lack_of_copies(alloc: Global, root: Hash, copies: &[&[u8]]) -> Lack {
    let wanted = Wanted {
        root,
        mode: Mode::hash(),
        form: Form::Slices,
        grain: Grain::Group,
    };
    lack_of(alloc, &wanted, copies, MOST_PARTS)
}

/// Prints a line of what the first copy lacks: a line `START LEN` for each part of it.
pub fn show<R: Print>(rt: &R, alloc: Global, blob: &[u8]) -> Result<()> {
    let (root, copies) = damaged_copies(alloc, blob)?;
    let sources = sources_over(alloc, copies.as_slice())?;
    let Some((first, _)) = sources.as_slice().split_first() else {
        bail!("no copy");
    };
    let Lack::Missing(parts) = lack_of_copies(alloc, root, &[*first]) else {
        bail!("no parts");
    };
    let mut list = Vec::new(alloc);
    write_parts(parts.shown.as_slice(), &mut list)?;
    tell_text(rt, alloc, "list of what a copy lacks", list.as_slice())
}
