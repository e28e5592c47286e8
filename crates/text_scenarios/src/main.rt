//! The program `text_scenarios`: makes, cuts, changes, checks and audits texts as the lines of standard input say, and
//! prints each line with its reply. What it has to print for its stored input is made by the definitions alone, in another
//! language (`scripts/scenarios.py`).
#![tactic(auto)]

mod changes;
mod faults;
mod held;
mod line;
mod scene;
mod source;
mod trickle;
mod verdict;
mod writing;

use anyhow::{Context, Result};
use scene::Scene;
use std::io;
use std::io::{BufRead, BufReader, BufWriter, Write};
use std::thread::Threads;

fn run<R: Input + Print + AllocGlobal + Threads + Sync>(rt: &R) -> Result<()> {
    let mut scene = Scene::new(rt.alloc());
    let mut out = BufWriter::new(rt.alloc(), io::writer(rt))?;
    for line in BufReader::new(rt.alloc(), rt.reader())?.lines(rt.alloc()) {
        let line = line?;
        let said = scene
            .reply(rt, rt.alloc(), line.as_str())
            .context(format_args!("{line}"))?;
        writeln!(out, "{line}")?;
        for reply in said.as_str().lines() {
            writeln!(out, "    {reply}")?;
        }
    }
    out.flush()?;
    Ok(())
}

fn main(rt: HostRuntime) -> Result<()> {
    run(&rt)
}
