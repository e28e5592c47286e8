use crate::bytes::{Broken, blob, failing, taking};
use crate::streams::inputs::encoded;
use b3tree::{Hash, Mode};
use bao_decode::{DecodeFault, write_decoded};
use bao_files::FileFault;
use bao_text::{Encoding, Part, combined, outboard, slice};
use std::io::ErrorKind;
use std::process::Abort;
use std::test::Fail;
use std::thread::Threads;

// How many bytes i mod 251: enough for threads.
const LEN: usize = 4_200_001;

// The range goes to a writer that takes all, and its first bytes to one that fails.
fn part_is_written<R: AllocGlobal + Threads + Sync + Abort>(
    rt: &R,
    root: &Hash,
    part: &Part,
    text: &[u8],
    bytes: &[u8],
) {
    let mode = Mode::hash();
    let mut out = taking(rt.alloc());
    let whole = write_decoded(rt, &mode, root, part, &text, "in", &mut out, "out");
    assert!(rt; matches!(whole, Ok(100)));
    assert!(rt; Some(out.held.as_slice()) == bytes.get(1000..1100));
    for room in [0, 10, 24, 90] {
        let mut out: Broken = failing(rt.alloc(), room, ErrorKind::Interrupted);
        let begun = write_decoded(rt, &mode, root, part, &text, "in", &mut out, "out");
        assert!(rt; matches!(begun, Err(DecodeFault::File(FileFault::Write("out")))));
        assert!(rt; Some(out.held.as_slice()) == bytes.get(1000..1000 + room));
    }
}

// A writer that fails, after a beginning of the range.
#[test]
fn parts_to_writers(rt: HostRuntime) -> Result<(), Fail> {
    let bytes = blob(rt.alloc(), 2049)?;
    let (root, text) = slice(rt.alloc(), &Mode::hash(), bytes.as_slice(), 1000, 100)?;
    let part = Part::Slice {
        start: 1000,
        len: 100,
    };
    part_is_written(&rt, &root, &part, text.as_slice(), bytes.as_slice());
    Ok(())
}

fn first_bytes_are_written<R: AllocGlobal + Threads + Sync + Abort>(
    rt: &R,
    encoding: Encoding,
    bytes: &[u8],
    size: usize,
    text: &[u8],
) -> Result<(), Fail> {
    let mut input = bytes;
    let mut out = failing(rt.alloc(), 200_000, ErrorKind::Interrupted);
    let Err(FileFault::Write(path)) = encoded(rt, encoding, &mut input, size, &mut out) else {
        return Err("a fault of writing".into());
    };
    assert!(rt; path == "out");
    assert!(rt; Some(out.held.as_slice()) == text.get(..200_000));
    Ok(())
}

// Whether the text was made at places or not, exactly its first bytes are written.
#[test]
fn a_write_that_fails_is_the_last(rt: HostRuntime) -> Result<(), Fail> {
    let bytes = blob(rt.alloc(), LEN)?;
    let bytes = bytes.as_slice();
    let (_, text) = combined(rt.alloc(), &Mode::hash(), bytes)?;
    for size in [0, LEN] {
        first_bytes_are_written(&rt, Encoding::Combined, bytes, size, text.as_slice())?;
    }
    let (_, text) = outboard(rt.alloc(), &Mode::hash(), bytes)?;
    for size in [0, LEN] {
        first_bytes_are_written(&rt, Encoding::Outboard, bytes, size, text.as_slice())?;
    }
    Ok(())
}
