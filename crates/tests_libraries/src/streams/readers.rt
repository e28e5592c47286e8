use crate::bytes::{Broken, blob, taking};
use b3tree::Mode;
use bao_files::{FileFault, InputFault, print_input, print_reader, read_whole};
use std::alloc::Global;
use std::io;
use std::io::{ErrorKind, Read};
use std::process::Abort;
use std::test::Fail;
use std::thread::Threads;

// The hash of the bytes i mod 251, 2^20 + 1 of them, by `b3sum` 1.2.0.
const LARGE: &str = "2f053cd7472cf0cd2f9adaf45c1180255b91b9a865404a63671a0ee5f792ed33\n";

// Gives the bytes, at most `most` a call. Where there is a kind, one call after `before` bytes answers a fault
// of that kind, and the calls after it give on. A byte that comes after those that a call claims is no byte of
// the reader's.
#[derive(Drop)]
struct Dealing<'a> {
    rest: &'a [u8],
    most: usize,
    before: usize,
    kind: Option<ErrorKind>,
}

impl Read for Dealing<'_> {
    fn read(&mut self, buf: &mut [u8]) -> io::Result<usize> {
        if self.before == 0 {
            self.before = usize::MAX;
            if let Some(kind) = self.kind.take() {
                return Err(io::Error::from(kind));
            }
        }
        let count = buf
            .len()
            .min(self.rest.len())
            .min(self.most)
            .min(self.before);
        self.before -= count;
        let (given, rest) = self.rest.split_at(count);
        self.rest = rest;
        buf[..count].copy_from_slice(given);
        if count < buf.len() {
            buf[count] = 0xff;
        }
        Ok(count)
    }
}

// What a reader gives is hashed, and the digits printed.
fn printed(
    alloc: Global,
    reader: &mut Dealing<'_>,
    out: &mut Broken,
) -> Result<(), FileFault<'static>> {
    print_reader(alloc, &Mode::hash(), reader, "file", 0, 32, out)
}

fn digits_are_printed<R: AllocGlobal + Abort>(rt: &R, bytes: &[u8], most: usize) {
    let mut reader = Dealing {
        rest: bytes,
        most,
        before: usize::MAX,
        kind: None,
    };
    let mut out = taking(rt.alloc());
    assert!(rt; printed(rt.alloc(), &mut reader, &mut out).is_ok());
    assert!(rt; out.held.as_slice() == LARGE.as_bytes(), "{most}");
}

#[test]
fn digits_of_all_that_a_reader_gives(rt: HostRuntime) -> Result<(), Fail> {
    let bytes = blob(rt.alloc(), 1_048_577)?;
    for most in [1, 3, 1000, usize::MAX] {
        digits_are_printed(&rt, bytes.as_slice(), most);
    }
    Ok(())
}

fn nothing_is_printed<R: AllocGlobal + Abort>(
    rt: &R,
    bytes: &[u8],
    before: usize,
    kind: ErrorKind,
) -> Result<(), Fail> {
    let mut reader = Dealing {
        rest: bytes,
        most: 300_000,
        before,
        kind: Some(kind),
    };
    let mut out = taking(rt.alloc());
    let Err(FileFault::Read(path)) = printed(rt.alloc(), &mut reader, &mut out) else {
        return Err("a fault of reading".into());
    };
    assert!(rt; path == "file");
    assert!(rt; out.held.is_empty());
    Ok(())
}

// A fault comes first, in a piece, and in place of the end.
#[test]
fn nothing_is_printed_after_a_fault_of_reading(rt: HostRuntime) -> Result<(), Fail> {
    let bytes = blob(rt.alloc(), 1_048_577)?;
    for kind in [ErrorKind::Other, ErrorKind::Interrupted] {
        for before in [0, 1, 1000, 1_048_576, 1_048_577] {
            nothing_is_printed(&rt, bytes.as_slice(), before, kind)?;
        }
    }
    Ok(())
}

fn all_is_hashed<R: AllocGlobal + Threads + Sync + Abort>(rt: &R, bytes: &[u8], len: Option<u64>) {
    let mut input = bytes;
    let mut out = taking(rt.alloc());
    let got = print_input(rt, &Mode::hash(), &mut input, len, "file", 0, 32, &mut out);
    assert!(rt; got.is_ok());
    assert!(rt; out.held.as_slice() == LARGE.as_bytes(), "{len:?}");
}

// An input that hasn't the length that it was said to have is read on one thread.
#[test]
fn digits_of_all_that_an_input_has(rt: HostRuntime) -> Result<(), Fail> {
    let bytes = blob(rt.alloc(), 1_048_577)?;
    for len in [
        None,
        Some(0),
        Some(1_048_576),
        Some(1_048_577),
        Some(u64::MAX),
    ] {
        all_is_hashed(&rt, bytes.as_slice(), len);
    }
    Ok(())
}

// Gives `left` bytes 7, at most 1,000 a call, and answers one read by a fault of this kind after `before` calls.
#[derive(Drop)]
struct Dripping {
    left: usize,
    before: u32,
    kind: Option<ErrorKind>,
}

impl Read for Dripping {
    fn read(&mut self, buf: &mut [u8]) -> io::Result<usize> {
        if self.before == 0 {
            if let Some(kind) = self.kind.take() {
                return Err(io::Error::from(kind));
            }
        }
        self.before = self.before.saturating_sub(1);
        let count = buf.len().min(self.left).min(1000);
        for byte in buf[..count].iter_mut() {
            *byte = 7;
        }
        self.left -= count;
        Ok(count)
    }
}

#[test]
fn reads_to_the_end_or_a_fault(rt: HostRuntime) -> Result<(), Fail> {
    let mut bytes = Vec::new(rt.alloc());
    let mut reader = Dripping {
        left: 700_000,
        before: 0,
        kind: None,
    };
    assert!(rt; read_whole(&mut reader, &mut bytes) == Ok(()));
    assert!(rt; bytes.len() == 700_000);
    for kind in [ErrorKind::Other, ErrorKind::Interrupted] {
        let mut bytes = Vec::new(rt.alloc());
        let mut reader = Dripping {
            left: 700_000,
            before: 3,
            kind: Some(kind),
        };
        assert!(rt; read_whole(&mut reader, &mut bytes) == Err(InputFault::Reader));
        assert!(rt; bytes.len() == 3000);
    }
    assert_ne!(rt; InputFault::Memory, InputFault::Reader);
    Ok(())
}
