//! The program `examples`: calls each library as a crate above it does, and prints a line for each result. There is a file
//! for each library, `using_` and its name. What the program has to print, its file `stdout`, is made by the definitions
//! alone, in another language (`scripts/scenarios.py`).
#![tactic(auto)]

mod telling;
mod using_b3par;
mod using_b3tree;
mod using_bao_bind;
mod using_bao_check;
mod using_bao_decode;
mod using_bao_files;
mod using_bao_script;
mod using_bao_tasks;
mod using_bao_text;
mod using_bao_windows;
mod using_crews;
mod using_gather;
mod using_store_core;
mod using_store_shared;

use anyhow::Result;
use std::alloc::Global;
use std::thread::Threads;

/// The blob of all examples: 200,000 bytes, i mod 251, as in BLAKE3's test vectors. It has 196 chunks, in 4 groups.
fn example_blob(alloc: Global) -> Result<Vec<u8>> {
    let mut bytes = Vec::new(alloc);
    for i in 0..200_000u32 {
        bytes.push((i % 251) as u8)?;
    }
    Ok(bytes)
}

// The examples of encodings.
fn encodings<R: Print + Threads + Sync>(rt: &R, alloc: Global, blob: &[u8]) -> Result<()> {
    using_b3tree::show(rt, alloc, blob)?;
    using_bao_text::show(rt, alloc, blob)?;
    using_b3par::show(rt, alloc, blob)?;
    using_bao_check::show(rt, alloc, blob)?;
    using_bao_bind::show(rt, alloc, blob)
}

// The examples of files.
fn files<R: Print + AllocGlobal + Threads + Sync>(
    rt: &R,
    alloc: Global,
    blob: &[u8],
) -> Result<()> {
    using_bao_files::show(rt, alloc, blob)?;
    using_bao_decode::show(rt, alloc, blob)
}

// The examples of stores.
fn stores<R: Print + Threads + Sync>(rt: &R, alloc: Global, blob: &[u8]) -> Result<()> {
    using_store_core::show(rt, alloc, blob)?;
    using_store_shared::show(rt, alloc, blob)?;
    using_bao_script::show(rt, alloc, blob)?;
    using_gather::show(rt, alloc, blob)?;
    using_crews::show(rt, alloc, blob)
}

// The examples of windows.
fn windows<R: Print + AllocGlobal + Threads + Sync>(
    rt: &R,
    alloc: Global,
    blob: &[u8],
) -> Result<()> {
    using_bao_windows::show(rt, alloc, blob)?;
    using_bao_tasks::show(rt, alloc, blob)
}

fn run<R: Print + AllocGlobal + Threads + Sync>(rt: &R) -> Result<()> {
    let blob = example_blob(rt.alloc())?;
    encodings(rt, rt.alloc(), blob.as_slice())?;
    files(rt, rt.alloc(), blob.as_slice())?;
    stores(rt, rt.alloc(), blob.as_slice())?;
    windows(rt, rt.alloc(), blob.as_slice())
}

fn main(rt: HostRuntime) -> Result<()> {
    run(&rt)
}
