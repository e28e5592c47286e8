use crate::bytes::{Broken, blob, taking};
use b3par::Source;
use b3tree::{Hash, Mode};
use bao_files::{FileFault, encode_input};
use bao_text::{Encoding, combined, outboard, slice};
use std::alloc::Global;
use std::io;
use std::io::{ErrorKind, Read};
use std::process::Abort;
use std::test::Fail;
use std::thread::Threads;

// How many bytes i mod 251: enough for threads.
const LEN: usize = 4_200_001;

// Bytes that are given to reads in order, where these don't fail, and to none at places.
#[derive(Drop)]
struct InOrder<'a> {
    rest: &'a [u8],
    fails: bool,
}

impl Read for InOrder<'_> {
    fn read(&mut self, buf: &mut [u8]) -> io::Result<usize> {
        if self.fails {
            return Err(io::Error::from(ErrorKind::Interrupted));
        }
        let count = buf.len().min(self.rest.len());
        let (given, rest) = self.rest.split_at(count);
        self.rest = rest;
        buf[..count].copy_from_slice(given);
        Ok(count)
    }
}

impl Source for InOrder<'_> {
    fn read_at(&self, _buf: &mut [u8], _at: u64) -> io::Result<usize> {
        Err(io::Error::from(ErrorKind::Other))
    }
}

// What a task makes of the bytes by the functions over bytes, which aren't read at places.
fn plainly(alloc: Global, encoding: Encoding, bytes: &[u8]) -> Result<(Hash, Vec<u8>), Fail> {
    let mode = Mode::hash();
    Ok(match encoding {
        Encoding::Combined => combined(alloc, &mode, bytes)?,
        Encoding::Outboard => outboard(alloc, &mode, bytes)?,
        Encoding::Slice { start, len } => slice(alloc, &mode, bytes, start, len)?,
    })
}

// What an input that is said to have `size` bytes is encoded as.
pub(crate) fn encoded<R: AllocGlobal + Threads + Sync, I: Read + Source + Sync>(
    rt: &R,
    encoding: Encoding,
    input: &mut I,
    size: usize,
    out: &mut Broken,
) -> Result<Hash, FileFault<'static>> {
    encode_input(
        rt,
        &Mode::hash(),
        encoding,
        input,
        size as u64,
        "file",
        out,
        "out",
    )
}

fn is_encoded<R: AllocGlobal + Threads + Sync + Abort, I: Read + Source + Sync>(
    rt: &R,
    encoding: Encoding,
    input: &mut I,
    size: usize,
    hash: &Hash,
    text: &[u8],
) -> Result<(), Fail> {
    let mut written = taking(rt.alloc());
    let Ok(answer) = encoded(rt, encoding, input, size, &mut written) else {
        return Err("an encoding".into());
    };
    assert!(rt; answer.0 == hash.0, "{size}");
    assert!(rt; written.held.as_slice() == text, "{size}");
    Ok(())
}

fn all_is_encoded<R: AllocGlobal + Threads + Sync + Abort>(
    rt: &R,
    encoding: Encoding,
    bytes: &[u8],
) -> Result<(), Fail> {
    let (hash, text) = plainly(rt.alloc(), encoding, bytes)?;
    for size in [0, LEN - 1, LEN, LEN + 1] {
        let mut input = bytes;
        is_encoded(rt, encoding, &mut input, size, &hash, text.as_slice())?;
    }
    let mut input = InOrder {
        rest: bytes,
        fails: false,
    };
    is_encoded(rt, encoding, &mut input, LEN, &hash, text.as_slice())
}

// An input that hasn't the length that it was said to have is read whole, and so is one that can't be read at places.
#[test]
fn encodings_of_all_that_an_input_has(rt: HostRuntime) -> Result<(), Fail> {
    let bytes = blob(rt.alloc(), LEN)?;
    for encoding in [Encoding::Combined, Encoding::Outboard] {
        all_is_encoded(&rt, encoding, bytes.as_slice())?;
    }
    Ok(())
}

fn nothing_is_encoded<R: AllocGlobal + Threads + Sync + Abort>(
    rt: &R,
    encoding: Encoding,
) -> Result<(), Fail> {
    let mut input = InOrder {
        rest: b"abc".as_slice(),
        fails: true,
    };
    let mut written = taking(rt.alloc());
    let Err(FileFault::Read(path)) = encoded(rt, encoding, &mut input, LEN, &mut written) else {
        return Err("a fault of reading".into());
    };
    assert!(rt; path == "file");
    assert!(rt; written.held.is_empty());
    Ok(())
}

#[test]
fn nothing_is_encoded_after_a_fault_of_reading(rt: HostRuntime) -> Result<(), Fail> {
    nothing_is_encoded(&rt, Encoding::Combined)?;
    nothing_is_encoded(&rt, Encoding::Outboard)?;
    nothing_is_encoded(&rt, Encoding::Slice { start: 0, len: 1 })
}
