use crate::bytes::{InPieces, blob};
use b3par::{Open, combined_source, hash_join, hash_pool, hash_source, outboard_source};
use b3tree::{Hasher, Mode};
use std::test::Fail;

// The hash of the bytes i mod 251, 102,400 of them: by `b3sum` 1.2.0.
const HASH: [u8; 32] = [
    0xbc, 0x3e, 0x3d, 0x41, 0xa1, 0x14, 0x6b, 0x06, 0x9a, 0xbf, 0xfa, 0xd3, 0xc0, 0xd4, 0x48, 0x60,
    0xcf, 0x66, 0x43, 0x90, 0xaf, 0xce, 0x4d, 0x96, 0x61, 0xf7, 0x90, 0x2e, 0x79, 0x43, 0xe0, 0x85,
];

// The same of 1,048,577 of them, which are in two parts.
const LONG: usize = 1_048_577;

const LONG_HASH: [u8; 32] = [
    0x2f, 0x05, 0x3c, 0xd7, 0x47, 0x2c, 0xf0, 0xcd, 0x2f, 0x9a, 0xda, 0xf4, 0x5c, 0x11, 0x80, 0x25,
    0x5b, 0x91, 0xb9, 0xa8, 0x65, 0x40, 0x4a, 0x63, 0x67, 0x1a, 0x0e, 0xe5, 0xf7, 0x92, 0xed, 0x33,
];

// The hash of the outboard encoding of the 102,400 bytes, by the program in Python.
const OUTBOARD_HASH: [u8; 32] = [
    0x25, 0xd5, 0x82, 0xb3, 0x43, 0x1a, 0x22, 0xd3, 0x2c, 0xe5, 0x29, 0x90, 0xcc, 0x03, 0x67, 0xe0,
    0x64, 0x58, 0x8c, 0x19, 0x93, 0x6c, 0x2f, 0x20, 0x38, 0xbd, 0x4d, 0x94, 0x63, 0xba, 0x86, 0x52,
];

// Where memory is refused, the pool says so. `hash_join` always has the hash.
#[test]
fn hashes_of_bytes(rt: HostRuntime) -> Result<(), Fail> {
    let mode = Mode::hash();
    let bytes = blob(rt.alloc(), 102_400)?;
    let bytes = bytes.as_slice();
    assert!(rt; hash_join(&rt, &mode, bytes, 16).0 == HASH);
    assert!(rt; hash_pool(&rt, rt.alloc(), &mode, bytes, 2, &Open)?.0 == HASH);
    Ok(())
}

// The same of what is read by position, by two threads. These calls leave nothing behind, so none is made a second time.
#[test]
fn hash_of_a_source(rt: HostRuntime) -> Result<(), Fail> {
    let mode = Mode::hash();
    let bytes = blob(rt.alloc(), LONG)?;
    let source = InPieces(bytes.as_slice());
    let hash = hash_source(&rt, rt.alloc(), &mode, &source, LONG as u64, 2)?;
    assert!(rt; hash.0 == LONG_HASH);
    Ok(())
}

#[test]
fn outboard_of_a_source(rt: HostRuntime) -> Result<(), Fail> {
    let mode = Mode::hash();
    let bytes = blob(rt.alloc(), 102_400)?;
    let source = InPieces(bytes.as_slice());
    let (hash, texts) = outboard_source(&rt, rt.alloc(), &mode, &source, 102_400, 2)?;
    assert!(rt; hash.0 == HASH);
    let mut hasher = Hasher::new(&mode);
    for text in texts.as_slice() {
        hasher.update(text.as_slice())?;
    }
    assert!(rt; hasher.finalize().0 == OUTBOARD_HASH);
    Ok(())
}

// 1,024 parents come before 1,025 chunks and after the length.
#[test]
fn combined_of_a_source(rt: HostRuntime) -> Result<(), Fail> {
    let mode = Mode::hash();
    let bytes = blob(rt.alloc(), LONG)?;
    let source = InPieces(bytes.as_slice());
    let (hash, texts) = combined_source(&rt, rt.alloc(), &mode, &source, LONG as u64, 2)?;
    assert!(rt; hash.0 == LONG_HASH);
    let mut len = 0usize;
    for text in texts.as_slice() {
        len = len.saturating_add(text.len());
    }
    assert!(rt; len == 1_114_121);
    Ok(())
}
