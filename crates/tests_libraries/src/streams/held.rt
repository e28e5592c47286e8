use crate::bytes::blob;
use b3tree::{Hash, Mode};
use bao_check::CheckFault;
use bao_decode::{DecodeFault, decode_copy_on, decode_on};
use bao_files::{FileFault, MemoryFiles};
use bao_text::{Part, combined, outboard};
use std::alloc::Global;
use std::process::Abort;
use std::test::Fail;
use std::thread::Threads;

// How many bytes i mod 251: several blocks, and a chunk that isn't whole.
const LEN: usize = 1_200_000;

// The file at the path has these bytes.
fn holds<R: AllocGlobal + Abort>(
    rt: &R,
    held: &MemoryFiles,
    path: &str,
    bytes: &[u8],
) -> Result<(), Fail> {
    let there = held.get(path).ok_or("a file")?;
    assert!(rt; there == bytes, "{path}");
    Ok(())
}

// The bytes, with one at the place changed.
fn changed(alloc: Global, bytes: &[u8], at: usize) -> Result<Vec<u8>, Fail> {
    let mut other = Vec::from_slice(alloc, bytes)?;
    if let Some(byte) = other.as_mut_slice().get_mut(at) {
        *byte ^= 1;
    }
    Ok(other)
}

// What is decoded is at the path that it is asked for, and of an encoding that is refused nothing is anywhere.
fn is_decoded<R: AllocGlobal + Threads + Sync + Abort>(rt: &R) -> Result<(), Fail> {
    let alloc = rt.alloc();
    let mode = Mode::hash();
    let bytes = blob(alloc, LEN)?;
    let (root, text) = combined(alloc, &mode, bytes.as_slice())?;
    let mut held = MemoryFiles::new(alloc);
    let len = text.len();
    held.put("forged", changed(alloc, text.as_slice(), len - 1)?)?;
    held.put("text", text)?;
    held.put("out", blob(alloc, 3)?)?;
    let count = decode_on(
        rt,
        &mut held,
        &mode,
        &root,
        &Part::Whole,
        "text",
        "out",
        &(),
    );
    assert!(rt; matches!(count, Ok(count) if count == LEN as u64));
    holds(rt, &held, "out", bytes.as_slice())?;
    let slice = Part::Slice { start: 9, len: 5 };
    let refused = decode_on(rt, &mut held, &mode, &root, &slice, "text", "out", &());
    assert!(rt; matches!(refused, Err(DecodeFault::Check(_))));
    let refused = decode_on(
        rt,
        &mut held,
        &mode,
        &root,
        &Part::Whole,
        "forged",
        "out",
        &(),
    );
    let last = CheckFault::Mismatch {
        at: (len as u64).saturating_sub(896),
    };
    assert!(rt; matches!(refused, Err(DecodeFault::Check(fault)) if fault == last));
    let missing = decode_on(
        rt,
        &mut held,
        &mode,
        &root,
        &Part::Whole,
        "none",
        "out",
        &(),
    );
    assert!(rt; matches!(missing, Err(DecodeFault::File(FileFault::Read("none")))));
    holds(rt, &held, "out", bytes.as_slice())
}

// Decodes the copy beside the outboard encoding to the file "out".
fn beside<'a>(
    alloc: Global,
    held: &mut MemoryFiles,
    root: &Hash,
    outboard: &'a str,
    copy: &'a str,
) -> Result<u64, DecodeFault<'a>> {
    decode_copy_on(alloc, held, &Mode::hash(), root, outboard, copy, "out", &())
}

// The same of a copy beside an outboard encoding, of more than 64 KiB.
fn is_copied<R: AllocGlobal + Abort>(rt: &R) -> Result<(), Fail> {
    let alloc = rt.alloc();
    let bytes = blob(alloc, LEN)?;
    let (root, text) = outboard(alloc, &Mode::hash(), bytes.as_slice())?;
    let mut held = MemoryFiles::new(alloc);
    let len = text.len();
    assert!(rt; len > 65_536);
    let mut longer = Vec::from_slice(alloc, text.as_slice())?;
    longer.push(0)?;
    held.put("longer", longer)?;
    held.put("forged", changed(alloc, text.as_slice(), len - 1)?)?;
    held.put("early", changed(alloc, text.as_slice(), 8)?)?;
    held.put("text", text)?;
    held.put("other", changed(alloc, bytes.as_slice(), 1_024)?)?;
    held.put("copy", Vec::from_slice(alloc, bytes.as_slice())?)?;
    held.put("out", blob(alloc, 3)?)?;
    let count = beside(alloc, &mut held, &root, "text", "copy");
    assert!(rt; matches!(count, Ok(count) if count == LEN as u64));
    holds(rt, &held, "out", bytes.as_slice())?;
    let forged = beside(alloc, &mut held, &root, "forged", "copy");
    let last = CheckFault::Mismatch {
        at: len as u64 - 64,
    };
    assert!(rt; matches!(forged, Err(DecodeFault::Check(fault)) if fault == last));
    let longer = beside(alloc, &mut held, &root, "longer", "copy");
    let trailing = CheckFault::Trailing { at: len as u64 };
    assert!(rt; matches!(longer, Err(DecodeFault::Check(fault)) if fault == trailing));
    let early = beside(alloc, &mut held, &root, "early", "none");
    assert!(rt;
        matches!(
            early,
            Err(DecodeFault::Check(CheckFault::Mismatch { at: 8 }))
        )
    );
    let other = beside(alloc, &mut held, &root, "text", "other");
    assert!(rt;
        matches!(
            other,
            Err(DecodeFault::Check(CheckFault::Mismatch { at: 1_024 }))
        )
    );
    let missing = beside(alloc, &mut held, &root, "text", "none");
    assert!(rt; matches!(missing, Err(DecodeFault::File(FileFault::Read("none")))));
    holds(rt, &held, "out", bytes.as_slice())
}

#[test]
fn encodings_in_memory_are_decoded(rt: HostRuntime) -> Result<(), Fail> {
    is_decoded(&rt)
}

#[test]
fn copies_in_memory_are_decoded(rt: HostRuntime) -> Result<(), Fail> {
    is_copied(&rt)
}
