use crate::bytes::{blob, failing};
use b3par::{ReadFault, outboard_source};
use b3tree::Mode;
use bao_text::{WriteFault, combined, write_combined};
use std::io;
use std::io::{ErrorKind, Write};
use std::process::Abort;
use std::test::Fail;

// The hashes of the bytes i mod 251, 200,000 of them, and of their combined encoding as the Python program
// makes it: by `b3sum` 1.2.0.
const LARGE_HASH: [u8; 32] = [
    0x55, 0x40, 0x91, 0x42, 0xcc, 0xed, 0x2e, 0xc7, 0x98, 0x97, 0x45, 0x9f, 0x17, 0x0b, 0x6d, 0x22,
    0x56, 0x5d, 0xaf, 0x88, 0x37, 0x10, 0xb4, 0xad, 0x7a, 0xee, 0xdd, 0xae, 0xf5, 0x42, 0x44, 0xb4,
];

const LARGE_ENCODING_HASH: [u8; 32] = [
    0x24, 0x23, 0xbd, 0x75, 0x9c, 0x5f, 0xf3, 0x31, 0xd7, 0x00, 0x20, 0x8d, 0x9f, 0xc0, 0xcf, 0x80,
    0x6f, 0xe3, 0xd9, 0x04, 0xf4, 0x13, 0xde, 0x89, 0x5f, 0xc9, 0x91, 0xef, 0xd6, 0x3b, 0x14, 0xcf,
];

// The bytes before the fault, `full` in number, are the text's first.
fn fails_after<R: AllocGlobal + Abort>(rt: &R, bytes: &[u8], text: &[u8], full: usize) {
    let mut out = failing(rt.alloc(), full, ErrorKind::BrokenPipe);
    let result = write_combined(rt.alloc(), &Mode::hash(), bytes, &mut out);
    let written = full as u128;
    assert!(rt; result == Err(WriteFault::Writer { written }));
    assert!(rt; Some(out.held.as_slice()) == text.get(..full));
}

#[test]
fn a_write_fails_after_each_number_of_bytes(rt: HostRuntime) -> Result<(), Fail> {
    let bytes = blob(rt.alloc(), 2049)?;
    let (_, text) = combined(rt.alloc(), &Mode::hash(), bytes.as_slice())?;
    assert!(rt; text.len() == 2185);
    for full in 0..text.len() {
        fails_after(&rt, bytes.as_slice(), text.as_slice(), full);
    }
    Ok(())
}

// A blob of more than a piece goes out in several writes, each of at most 72 KiB, whose parts fit.
#[test]
fn writes_a_large_blob_in_pieces(rt: HostRuntime) -> Result<(), Fail> {
    let bytes = blob(rt.alloc(), 200_000)?;
    let mut out = Longest {
        held: Vec::new(rt.alloc()),
        longest: 0,
        writes: 0,
    };
    let hash = write_combined(rt.alloc(), &Mode::hash(), bytes.as_slice(), &mut out)?;
    assert!(rt; hash.0 == LARGE_HASH);
    assert!(rt; out.held.len() == 212_488);
    assert!(rt; b3tree::hash(&Mode::hash(), out.held.as_slice()).0 == LARGE_ENCODING_HASH);
    assert!(rt; out.writes == 4);
    assert!(rt; out.longest <= 73_728);
    Ok(())
}

// Counts writes, and keeps the size of the longest.
#[derive(Drop)]
struct Longest {
    held: Vec<u8>,
    longest: usize,
    writes: usize,
}

impl Write for Longest {
    fn write(&mut self, buf: &[u8]) -> io::Result<usize> {
        self.held.extend_from_slice(buf)?;
        self.longest = self.longest.max(buf.len());
        self.writes = self.writes.wrapping_add(1);
        Ok(buf.len())
    }

    fn flush(&mut self) -> io::Result<()> {
        Ok(())
    }
}

// No machine has room for the encoding of so many bytes, and none of them is asked for.
#[test]
fn want_of_memory_is_the_answer(rt: HostRuntime) -> Result<(), Fail> {
    let got = outboard_source(&rt, rt.alloc(), &Mode::hash(), &[7].as_slice(), u64::MAX, 2);
    assert!(rt; got.err() == Some(ReadFault::Memory));
    Ok(())
}
