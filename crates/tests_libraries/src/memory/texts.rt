use crate::bytes::array;
use b3tree::{Hash, Mode, hash};
use bao_check::{CheckFault, check_combined, check_outboard, check_slice, check_stream};
use bao_text::{Memory, WriteFault, combined, cut_slice, outboard, slice, write_combined};
use std::alloc::Global;
use std::process::Abort;
use std::test::Fail;

// The published hash of the 2049 bytes i mod 251.
const ROOT: Hash = Hash([
    0x5f, 0x4d, 0x72, 0xf4, 0x0d, 0x7a, 0x5f, 0x82, 0xb1, 0x5c, 0xa2, 0xb2, 0xe4, 0x4b, 0x1d, 0xe3,
    0xc2, 0xef, 0x86, 0xc4, 0x26, 0xc9, 0x5c, 0x1a, 0xf0, 0xb6, 0x87, 0x95, 0x22, 0x56, 0x30, 0x30,
]);

// The hashes of encodings of the 2049 bytes i mod 251, of 2,185 and 136 bytes, and of the slice (1000, 100), of 2,184:
// by the program in Python.
const COMBINED: Hash = Hash([
    0xc1, 0x76, 0x71, 0x21, 0x60, 0x0f, 0xa5, 0x3e, 0x33, 0xc6, 0xc6, 0x38, 0xd0, 0xd2, 0x43, 0xa1,
    0x64, 0xc4, 0x1a, 0xf7, 0xdc, 0xdd, 0x65, 0x5b, 0xde, 0xe4, 0x28, 0x76, 0x51, 0xe7, 0xad, 0xe2,
]);

const OUTBOARD: Hash = Hash([
    0x64, 0x59, 0x52, 0x3b, 0x46, 0x59, 0xbe, 0x60, 0xef, 0x29, 0x10, 0x18, 0xe0, 0x35, 0x80, 0x51,
    0x77, 0x1a, 0x8c, 0x35, 0xac, 0x97, 0x08, 0x2b, 0x06, 0x89, 0x6e, 0xa4, 0x66, 0x70, 0x31, 0x33,
]);

const SLICE: Hash = Hash([
    0x9d, 0x89, 0xf2, 0xf1, 0x4f, 0xf1, 0x27, 0x36, 0x89, 0xe7, 0x3b, 0x05, 0x9a, 0x0e, 0xba, 0x6c,
    0xb5, 0x4a, 0xd0, 0x67, 0x1c, 0x6a, 0x5b, 0x1f, 0xe0, 0x94, 0xd7, 0x99, 0xe0, 0xcd, 0x4e, 0x38,
]);

// The combined encoding, if need be at the second call.
fn whole_of<R: AllocGlobal + Abort>(rt: &R, bytes: &[u8]) -> Result<Vec<u8>, Memory> {
    let mode = Mode::hash();
    let (root, text) = match combined(rt.alloc(), &mode, bytes) {
        Err(Memory) => combined(rt.alloc(), &mode, bytes)?,
        Ok(made) => made,
    };
    assert!(rt; root == ROOT);
    assert!(rt; hash(&mode, text.as_slice()) == COMBINED);
    Ok(text)
}

fn outboard_is_made<R: AllocGlobal + Abort>(rt: &R, bytes: &[u8]) -> Result<(), Memory> {
    let mode = Mode::hash();
    let (root, text) = match outboard(rt.alloc(), &mode, bytes) {
        Err(Memory) => outboard(rt.alloc(), &mode, bytes)?,
        Ok(made) => made,
    };
    assert!(rt; root == ROOT);
    assert!(rt; hash(&mode, text.as_slice()) == OUTBOARD);
    Ok(())
}

fn slice_of<R: AllocGlobal + Abort>(rt: &R, bytes: &[u8]) -> Result<Vec<u8>, Memory> {
    let mode = Mode::hash();
    let (root, text) = match slice(rt.alloc(), &mode, bytes, 1000, 100) {
        Err(Memory) => slice(rt.alloc(), &mode, bytes, 1000, 100)?,
        Ok(made) => made,
    };
    assert!(rt; root == ROOT);
    assert!(rt; hash(&mode, text.as_slice()) == SLICE);
    Ok(text)
}

fn cut_of(alloc: Global, whole: &[u8]) -> Result<Vec<u8>, Memory> {
    match cut_slice(alloc, whole, 1000, 100) {
        Err(Memory) => cut_slice(alloc, whole, 1000, 100),
        cut => cut,
    }
}

// Where memory is refused, that is told, and a second call has the text.
#[test]
fn texts(rt: HostRuntime) -> Result<(), Fail> {
    let bytes = array::<2049>();
    outboard_is_made(&rt, &bytes)?;
    let whole = whole_of(&rt, &bytes)?;
    let text = slice_of(&rt, &bytes)?;
    let cut = cut_of(rt.alloc(), whole.as_slice())?;
    assert!(rt; cut.as_slice() == text.as_slice());
    Ok(())
}

// The vector takes the text, and refuses it where memory is refused to it: that is a fault of the writer, after the bytes
// that it holds. Where it is refused to the call, nothing was written.
#[test]
fn a_text_for_a_vector(rt: HostRuntime) -> Result<(), Fail> {
    let mode = Mode::hash();
    let bytes = array::<2049>();
    let mut out = Vec::new(rt.alloc());
    let root = match write_combined(rt.alloc(), &mode, &bytes, &mut out) {
        Err(WriteFault::Writer { written }) => {
            assert!(rt; written == out.len() as u128);
            out.clear();
            write_combined(rt.alloc(), &mode, &bytes, &mut out)?
        }
        Err(WriteFault::Memory) => {
            assert!(rt; out.is_empty());
            write_combined(rt.alloc(), &mode, &bytes, &mut out)?
        }
        Ok(root) => root,
    };
    assert!(rt; root == ROOT);
    assert!(rt; hash(&mode, out.as_slice()) == COMBINED);
    Ok(())
}

fn check_whole<R: AllocGlobal + Abort>(
    rt: &R,
    text: &[u8],
    second: Option<&[u8]>,
) -> Result<(), CheckFault> {
    let mode = Mode::hash();
    let piece = check_combined(rt.alloc(), &mode, &ROOT, text)?;
    assert!(rt; piece.chunk(1) == second);
    Ok(())
}

fn check_part<R: AllocGlobal + Abort>(
    rt: &R,
    text: &[u8],
    second: Option<&[u8]>,
) -> Result<(), CheckFault> {
    let mode = Mode::hash();
    let piece = check_slice(rt.alloc(), &mode, &ROOT, 1000, 100, text)?;
    assert!(rt; piece.chunk(1) == second);
    Ok(())
}

fn check_bare<R: AllocGlobal + Abort>(rt: &R, text: &[u8]) -> Result<(), CheckFault> {
    let outline = check_outboard(rt.alloc(), &Mode::hash(), &ROOT, text)?;
    assert!(rt; outline.claimed() == 2049);
    Ok(())
}

// A check takes no memory but for what a reader gives.
#[test]
fn checks(rt: HostRuntime) -> Result<(), Fail> {
    let mode = Mode::hash();
    let bytes = array::<2049>();
    let second = bytes.get(1024..2048);
    let (_, text) = combined(rt.alloc(), &mode, &bytes)?;
    check_whole(&rt, text.as_slice(), second)?;
    let (_, text) = outboard(rt.alloc(), &mode, &bytes)?;
    check_bare(&rt, text.as_slice())?;
    let (_, text) = slice(rt.alloc(), &mode, &bytes, 1000, 100)?;
    check_part(&rt, text.as_slice(), second)?;
    Ok(())
}

// Whether a check from a reader has this chunk.
fn reads(alloc: Global, text: &[u8], second: Option<&[u8]>) -> Result<bool, CheckFault> {
    let mut reader = text;
    let mut held = Vec::new(alloc);
    let piece = check_stream(
        alloc,
        &Mode::hash(),
        &ROOT,
        1000,
        100,
        &mut reader,
        &mut held,
    )?;
    Ok(piece.chunk(1) == second)
}

// The same of a check from a reader, after which the vector holds what was read.
#[test]
fn a_check_from_a_reader(rt: HostRuntime) -> Result<(), Fail> {
    let bytes = array::<2049>();
    let second = bytes.get(1024..2048);
    let (_, text) = slice(rt.alloc(), &Mode::hash(), &bytes, 1000, 100)?;
    let is_same = match reads(rt.alloc(), text.as_slice(), second) {
        Err(CheckFault::Memory) => reads(rt.alloc(), text.as_slice(), second)?,
        is_same => is_same?,
    };
    assert!(rt; is_same);
    Ok(())
}
