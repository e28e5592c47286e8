//! The program `crew_scenarios`: makes texts, damages them, puts holders of every kind over them and gathers blobs from these, as
//! the lines of standard input say, and prints each line with its reply: of one worker the whole report, of several what no
//! schedule changes. What it has to print for its stored input is made by the definitions alone, in another language
//! (`scripts/scenarios.py`).
#![tactic(auto)]

mod dealing;
mod faults;
mod fetches;
mod holder;
mod line;
mod place;
mod scene;
mod texts;

use anyhow::{Context, Result};
use scene::Scene;
use std::io;
use std::io::{BufRead, BufReader, BufWriter, Write};
use std::thread::Threads;

// A line with its reply below it.
fn tell<W: Write>(out: &mut W, line: &str, said: &str) -> io::Result<()> {
    writeln!(out, "{line}")?;
    for reply in said.lines() {
        writeln!(out, "    {reply}")?;
    }
    Ok(())
}

fn run<R: Input + Print + AllocGlobal + Threads + Sync>(rt: &R) -> Result<()> {
    let mut scene = Scene::new(rt.alloc())?;
    let mut out = BufWriter::new(rt.alloc(), io::writer(rt))?;
    for line in BufReader::new(rt.alloc(), rt.reader())?.lines(rt.alloc()) {
        let line = line?;
        let said = scene
            .reply(rt, rt.alloc(), line.as_str())
            .context(format_args!("{line}"))?;
        tell(&mut out, line.as_str(), said.as_str())?;
    }
    out.flush()?;
    Ok(())
}

fn main(rt: HostRuntime) -> Result<()> {
    run(&rt)
}
