//! A schedule of seats' steps, run over pieces of encodings: `bao_script`.

use crate::telling::tell_text;
use anyhow::Result;
use b3tree::{Hash, Mode};
use bao_script::{ReplayScriptFault, ScriptFault, parse, replay_script};
use bao_text::combined;
use std::alloc::Global;
use thiserror::Error;

// The most chunks that the blob may have.
const CAPACITY: u32 = 256;

// Seat 1 claims the first chunk, hashes the piece (0, 1,000) of the first file, writes the chunk's words and publishes it; then it reads
// five bytes of it.
const SCHEDULE: &str = "claim 1 0 1\nhash 1 0 0 1000\nfill 1 0\npublish 1 0\nload 2 1000 5\n";

/// Why a schedule has no replies.
#[derive(Clone, Copy, Debug, PartialEq, Eq, Error)]
pub enum ScheduleFault {
    /// It isn't one.
    #[error("{0}")]
    Text(#[from] ScriptFault),
    /// Its run ended at a fault.
    #[error("{0}")]
    Run(#[from] ReplayScriptFault),
}

/// The replies to this schedule's steps on an empty store, whose pieces are cut out of the files: combined encodings, none of which is
/// trusted.
pub fn replies(
    alloc: Global,
    root: Hash,
    schedule: &str,
    files: &[Vec<u8>],
) -> Result<Vec<u8>, ScheduleFault> {
    let script = parse(alloc, schedule.as_bytes(), files.len())?;
    let text = replay_script(alloc, root, Mode::hash(), CAPACITY, &script, files)?;
    Ok(text)
}

/// Prints a line.
pub fn show<R: Print>(rt: &R, alloc: Global, blob: &[u8]) -> Result<()> {
    let (root, text) = combined(alloc, &Mode::hash(), blob)?;
    let mut files = Vec::new(alloc);
    files.push(text)?;
    let printed = replies(alloc, root, SCHEDULE, files.as_slice())?;
    tell_text(rt, alloc, "replies to a schedule", printed.as_slice())
}
