use bao_command::{command, own_words};
use bao_files::System;
use std::alloc::Global;
use std::cell::Cell;
use std::env::FillError;
use std::fs::File;
use std::io::ErrorKind;
use std::process::Abort;
use std::rt::{Env, Files};
use std::test::Fail;
use std::thread::Threads;
use std::{fs, process, str};
use tests_libraries::bytes::{Broken, failing, taking};

// The words of a process: its name, and then the byte FF.
#[derive(Drop)]
struct OddWords(Global);

impl Alloc for OddWords {
    type A = Global;

    fn alloc(&self) -> Global {
        self.0
    }
}

impl Env for OddWords {
    fn arg(&self, i: usize, buf: &mut [u8]) -> Result<usize, FillError> {
        if i > 1 || buf.is_empty() {
            return Err(FillError::NotPresent);
        }
        buf[0] = if i == 0 { b'b' } else { 0xff };
        Ok(1)
    }

    fn var(&self, _name: &str, _buf: &mut [u8]) -> Result<usize, FillError> {
        Err(FillError::NotPresent)
    }

    fn var_at(&self, _i: usize, _buf: &mut [u8]) -> Result<usize, FillError> {
        Err(FillError::NotPresent)
    }
}

pub(crate) fn words(alloc: Global, given: &[&str]) -> Result<Vec<String>, Fail> {
    let mut words = Vec::new(alloc);
    words.push(String::from_str(alloc, "bao_gather")?)?;
    for word in given {
        words.push(String::from_str(alloc, word)?)?;
    }
    Ok(words)
}

// Runs the program with these two streams, and answers its status.
fn ran<R: Files<File = File> + AllocGlobal + Threads + Sync>(
    rt: &R,
    given: &[&str],
    out: &mut Broken,
    err: &mut Broken,
) -> Result<u8, Fail> {
    let words = words(rt.alloc(), given)?;
    let failed = Cell::new(0);
    let mut system = System::new(rt, &failed);
    Ok(command(rt, &mut system, words.as_slice(), out, err, &()))
}

// Runs the program, and asserts its status and what it prints on its two streams.
pub(crate) fn expect<R: Files<File = File> + AllocGlobal + Threads + Sync + Abort>(
    rt: &R,
    given: &[&str],
    status: u8,
    out: &str,
    err: &str,
) -> Result<(), Fail> {
    let mut printed = taking(rt.alloc());
    let mut faults = taking(rt.alloc());
    let got = ran(rt, given, &mut printed, &mut faults)?;
    assert!(rt; got == status, "{given:?}");
    assert!(rt; printed.held.as_slice() == out.as_bytes());
    assert!(rt; faults.held.as_slice() == err.as_bytes());
    Ok(())
}

// A path of the test's own process.
pub(crate) fn path(alloc: Global, process: u32, name: &str) -> Result<String, Fail> {
    Ok(format!(in alloc; "/tmp/bao_gather-{process}-{name}")?)
}

// A file with what /proc/version has, whose size the metadata doesn't tell.
fn copy_version<R: Files<File = File> + AllocGlobal + Abort>(
    rt: &R,
    file: &str,
) -> Result<(), Fail> {
    let told = fs::metadata(rt, "/proc/version")?.len();
    assert!(rt; told == 0);
    let version = fs::read(rt, "/proc/version")?;
    assert!(rt; !version.is_empty());
    fs::write(rt, file, version.as_slice())?;
    Ok(())
}

// The program has one hash for both.
fn version_has_hash_of<R: Files<File = File> + AllocGlobal + Threads + Sync + Abort>(
    rt: &R,
    file: &str,
) -> Result<(), Fail> {
    let mut line = taking(rt.alloc());
    let mut faults = taking(rt.alloc());
    assert!(rt; ran(rt, &["hash", file], &mut line, &mut faults)? == 0);
    let line = str::from_utf8(line.held.as_slice())?;
    expect(rt, &["hash", "/proc/version"], 0, line, "")
}

#[test]
fn a_file_of_no_size_is_read_whole(rt: HostRuntime) -> Result<(), Fail> {
    let file = path(rt.alloc(), process::id(rt.process()), "whole")?;
    copy_version(&rt, file.as_str())?;
    version_has_hash_of(&rt, file.as_str())?;
    fs::remove_file(&rt, file.as_str())?;
    Ok(())
}

const OUTPUT: &str = "bao_gather: cannot write output\n";

// Standard output fails after `text`, which ends the run so.
fn output_fails<R: Files<File = File> + AllocGlobal + Threads + Sync + Abort>(
    rt: &R,
    given: &[&str],
    kind: ErrorKind,
    text: &[u8],
    status: u8,
    told: &str,
) -> Result<(), Fail> {
    let mut out = failing(rt.alloc(), text.len(), kind);
    let mut faults = taking(rt.alloc());
    assert!(rt; ran(rt, given, &mut out, &mut faults)? == status);
    assert!(rt; faults.held.as_slice() == told.as_bytes());
    assert!(rt; out.held.as_slice() == text);
    Ok(())
}

// Standard output can't be flushed.
fn output_is_stuck<R: Files<File = File> + AllocGlobal + Threads + Sync + Abort>(
    rt: &R,
    given: &[&str],
) -> Result<(), Fail> {
    let mut out = taking(rt.alloc());
    out.stuck = true;
    let mut faults = taking(rt.alloc());
    assert!(rt; ran(rt, given, &mut out, &mut faults)? == 3);
    assert!(rt; faults.held.as_slice() == OUTPUT.as_bytes());
    Ok(())
}

// A pipe that its reader closed is no fault of help.
fn outputs_fail<R: Files<File = File> + AllocGlobal + Threads + Sync + Abort>(
    rt: &R,
    file: &str,
) -> Result<(), Fail> {
    let (none, some) = (b"".as_slice(), b"6437b3ac38".as_slice());
    for kind in [ErrorKind::BrokenPipe, ErrorKind::Interrupted] {
        output_fails(rt, &["hash", file], kind, none, 3, OUTPUT)?;
        output_fails(rt, &["hash", file], kind, some, 3, OUTPUT)?;
    }
    let (help, begins) = (["help", "hash"], b"Print the ".as_slice());
    output_fails(rt, &help, ErrorKind::BrokenPipe, begins, 0, "")?;
    output_fails(rt, &help, ErrorKind::Interrupted, begins, 3, OUTPUT)?;
    output_is_stuck(rt, &["hash", file])?;
    output_is_stuck(rt, &help)
}

#[test]
fn faults_of_streams(rt: HostRuntime) -> Result<(), Fail> {
    let file = path(rt.alloc(), process::id(rt.process()), "streams")?;
    fs::write(&rt, file.as_str(), "abc")?;
    outputs_fail(&rt, file.as_str())?;
    fs::remove_file(&rt, file.as_str())?;
    Ok(())
}

fn error_fails<R: Files<File = File> + AllocGlobal + Threads + Sync + Abort>(
    rt: &R,
    given: &[&str],
    kind: ErrorKind,
    status: u8,
) -> Result<(), Fail> {
    let mut printed = taking(rt.alloc());
    let mut err = failing(rt.alloc(), 5, kind);
    assert!(rt; ran(rt, given, &mut printed, &mut err)? == status);
    assert!(rt; printed.held.is_empty());
    assert!(rt; err.held.len() == 5);
    Ok(())
}

// A fault of standard error changes no status, and nothing is written after it.
#[test]
fn faults_of_standard_error(rt: HostRuntime) -> Result<(), Fail> {
    for kind in [ErrorKind::BrokenPipe, ErrorKind::Interrupted] {
        error_fails(&rt, &["hash", "/tmp/missing/file"], kind, 3)?;
        error_fails(&rt, &["hash", "--no"], kind, 2)?;
    }
    Ok(())
}

#[test]
fn words_are_text(rt: HostRuntime) -> Result<(), Fail> {
    let words = own_words(&rt)?;
    assert!(rt; !words.is_empty());
    let Err(fault) = own_words(&OddWords(rt.alloc())) else {
        return Err("a word that is no text".into());
    };
    let mut printed = Vec::new(rt.alloc());
    assert!(rt; fault.report(&mut printed) == 2);
    let word = "bao_gather: usage: a word is not UTF-8\n";
    assert!(rt; printed.as_slice() == word.as_bytes());
    Ok(())
}
