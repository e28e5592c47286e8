//! The program `store_scenarios`: makes the calls that the lines of standard input say, of the store of one thread and of the
//! shared one, and prints each line with its reply. What it has to print for its stored input is made by the definitions
//! alone, in another language (`scripts/scenarios.py`).
#![tactic(auto)]

ghost use Rattle.std.specs.Prelude.{IfOk};

mod draw;
mod faults;
mod line;
mod piece;
mod places;
mod room;
mod scene;

use anyhow::{Context, Result};
use b3tree::{Hash, Mode};
use room::Room;
use scene::Scene;
use std::io;
use std::io::{BufRead, BufReader, BufWriter, Write};

fn run<R: Input + Print + AllocGlobal>(rt: &R) -> Result<()> {
    let mut scene = Scene::new(rt.alloc());
    let mut room = Room::new(rt.alloc(), Hash([0; 32]), Mode::hash(), 1)?;
    let mut out = BufWriter::new(rt.alloc(), io::writer(rt))?;
    'lines: for line in BufReader::new(rt.alloc(), rt.reader())?.lines(rt.alloc()) {
        let line = line?;
        let said = scene
            .reply(rt.alloc(), &mut room, line.as_str())
            .context(format_args!("{line}"))?;
        writeln!(out, "{line}")?;
        for reply in said.as_str().lines() {
            writeln!(out, "    {reply}")?;
        }
    }
    out.flush()?;
    Ok(())
}

fn main(rt: HostRuntime) -> Result<()> {
    run(&rt)
}
