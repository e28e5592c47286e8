// The program over files in memory.

use crate::program::words;
use bao_command::command;
use bao_files::MemoryFiles;
use std::process::Abort;
use std::test::Fail;
use std::thread::Threads;
use tests_libraries::bytes::taking;

// The bytes `abc`, of which `b3sum` 1.2.0 prints this hash.
const BYTES: &[u8] = b"abc";

const ROOT: &str = "6437b3ac38465133ffb63b75273a8db548c558465d79db03fd359c6cd5bd9d85";

const HASH: &str = "6437b3ac38465133ffb63b75273a8db548c558465d79db03fd359c6cd5bd9d85\n";

// Their length, which is their outboard encoding, and their combined encoding, which is every slice of it too.
const OUTLINE: &[u8] = b"\x03\0\0\0\0\0\0\0";

const TEXT: &[u8] = b"\x03\0\0\0\0\0\0\0abc";

// Encodings that aren't accepted under their root.
const FORGED: &[u8] = b"\x03\0\0\0\0\0\0\0abd";

const LONGER: &[u8] = b"\x04\0\0\0\0\0\0\0abc";

// A run: its words, its status, and what it prints and what the file `out` has afterwards.
#[derive(Clone, Copy)]
struct Run<'a>(&'a [&'a str], u8, &'a str, &'a [u8]);

// Runs the program over the files.
fn is_run<R: AllocGlobal + Threads + Sync + Abort>(
    rt: &R,
    held: &mut MemoryFiles,
    run: &Run<'_>,
) -> Result<(), Fail> {
    let Run(given, status, line, out) = run;
    let words = words(rt.alloc(), given)?;
    let mut printed = taking(rt.alloc());
    let mut faults = taking(rt.alloc());
    let got = command(rt, held, words.as_slice(), &mut printed, &mut faults, &());
    assert!(rt; got == *status, "{given:?}");
    assert!(rt; printed.held.as_slice() == line.as_bytes(), "{given:?}");
    assert!(rt; held.get("out") == Some(*out), "{given:?}");
    Ok(())
}

// The files that are there.
fn files<R: AllocGlobal>(rt: &R) -> Result<MemoryFiles, Fail> {
    let alloc = rt.alloc();
    let mut held = MemoryFiles::new(alloc);
    for (path, bytes) in [
        ("abc", BYTES),
        ("text", TEXT),
        ("outline", OUTLINE),
        ("forged", FORGED),
        ("longer", LONGER),
        ("key", ROOT.as_bytes()),
        ("script", b"0 hash 0 0 3\n0 commit 0\n".as_slice()),
        ("out", b"".as_slice()),
    ] {
        held.put(path, Vec::from_slice(alloc, bytes)?)?;
    }
    Ok(held)
}

// Each task over them, and refusals, which leave `out` as it was.
#[test]
fn tasks_over_files_in_memory(rt: HostRuntime) -> Result<(), Fail> {
    let mut held = files(&rt)?;
    for run in [
        Run(&["hash", "abc"], 0, HASH, b""),
        Run(&["hash", "none"], 3, "", b""),
        Run(&["encode", "abc", "out"], 0, HASH, TEXT),
        Run(&["outboard", "abc", "out"], 0, HASH, OUTLINE),
        Run(&["slice", "0", "3", "abc", "out"], 0, HASH, TEXT),
        Run(&["decode", ROOT, "text", "out"], 0, "ok 3\n", BYTES),
        Run(&["decode", ROOT, "forged", "out"], 1, "", BYTES),
        Run(&["decode", ROOT, "longer", "out"], 1, "", BYTES),
        Run(
            &["cut-slice", ROOT, "1", "1", "text", "out"],
            0,
            "ok 1\n",
            TEXT,
        ),
        Run(&["cut-slice", ROOT, "1", "1", "forged", "out"], 1, "", TEXT),
        Run(
            &["decode", "--outboard", "outline", ROOT, "abc", "out"],
            0,
            "ok 3\n",
            BYTES,
        ),
        Run(
            &[
                "cut-slice",
                "--outboard",
                "outline",
                ROOT,
                "0",
                "9",
                "abc",
                "out",
            ],
            0,
            "ok 3\n",
            TEXT,
        ),
        Run(
            &["decode", "--outboard", "outline", ROOT, "key", "out"],
            1,
            "",
            TEXT,
        ),
        Run(
            &["gather", ROOT, "out", "forged", "none", "text"],
            0,
            "ok 3\n",
            BYTES,
        ),
        Run(
            &["gather", "--encode", ROOT, "out", "forged", "text"],
            0,
            "ok 3\n",
            TEXT,
        ),
        Run(&["gather", ROOT, "out", "forged", "longer"], 1, "", TEXT),
        Run(
            &["gather", "--outboard", "outline", ROOT, "out", "key", "abc"],
            0,
            "ok 3\n",
            BYTES,
        ),
        Run(
            &["decode", "--key-file", "key", ROOT, "text", "out"],
            1,
            "",
            BYTES,
        ),
        Run(&["decode", ROOT, "text", "-"], 2, "", BYTES),
    ] {
        is_run(&rt, &mut held, &run)?;
    }
    Ok(())
}

// Runs the program over the files, and looks at the file `key`.
fn lists<R: AllocGlobal + Threads + Sync + Abort>(
    rt: &R,
    held: &mut MemoryFiles,
    run: &Run<'_>,
    list: &[u8],
) -> Result<(), Fail> {
    is_run(rt, held, run)?;
    assert!(rt; held.get("key") == Some(list));
    Ok(())
}

// A list of an earlier run is emptied if no file claims the blob's length, and if nothing is missing.
#[test]
fn lists_in_memory(rt: HostRuntime) -> Result<(), Fail> {
    let mut held = files(&rt)?;
    for run in [Run(
        &["gather", "--missing", "key", ROOT, "out", "forged"],
        1,
        "",
        b"",
    )] {
        lists(&rt, &mut held, &run, b"")?;
    }
    for run in [Run(
        &["gather", "--missing", "key", ROOT, "out", "text"],
        0,
        "ok 3\n",
        BYTES,
    )] {
        lists(&rt, &mut held, &run, b"")?;
    }
    Ok(())
}
