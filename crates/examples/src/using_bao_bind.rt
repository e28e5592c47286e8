//! An accepted piece beside the blob: `bao_bind`.

use anyhow::Result;
use b3tree::Mode;
use bao_bind::{AuditFault, Verdict, audit};
use bao_check::{Checked, check_slice};
use bao_text::slice;
use std::alloc::Global;

/// Whether a piece is of the blob. If it isn't, two inputs collide under BLAKE3, and the verdict names them.
pub fn verdict_on(blob: &[u8], piece: &Checked<'_>) -> Result<&'static str, AuditFault> {
    Ok(match audit(blob, piece)? {
        Verdict::Agrees => "agrees",
        Verdict::Collision { .. } => "a collision",
    })
}

/// Prints a line.
pub fn show<R: Print>(rt: &R, alloc: Global, blob: &[u8]) -> Result<()> {
    let (root, text) = slice(alloc, &Mode::hash(), blob, 70_000, 1_000)?;
    let piece = check_slice(alloc, &Mode::hash(), &root, 70_000, 1_000, text.as_slice())?;
    let verdict = verdict_on(blob, &piece)?;
    println!(rt; "audit: {verdict}")?;
    Ok(())
}
