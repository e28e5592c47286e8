//! The program `bao_gather`: BLAKE3 hashes of files and their Bao encodings, written and checked.
#![tactic(auto)]

use bao_command::{own_words, run};
use std::process::ExitCode;

fn main(rt: HostRuntime) -> ExitCode {
    let mut err = rt.stderr();
    match own_words(&rt) {
        Ok(words) => run(&rt, words.as_slice(), &mut rt.stdout(), &mut err),
        Err(fault) => ExitCode::from(fault.report(&mut err)),
    }
}
