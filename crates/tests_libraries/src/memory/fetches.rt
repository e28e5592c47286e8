use crate::bytes::array;
use b3tree::{Hash, Mode};
use bao_text::{combined, slice};
use gather::{Encoded, Holder, HolderFault, Plain, finish_one, run_one};
use std::alloc::Global;
use std::process::Abort;
use std::test::Fail;
use store_core::Store;

// Has a worker store all, if need be at the second call.
fn fill<R: AllocGlobal + Abort>(rt: &R, store: &mut Store, whole: &[u8]) -> Result<(), Fail> {
    let mut holders = [Encoded::new(whole)];
    let report = run_one(rt.alloc(), store, &mut holders);
    if report.committed < 3 {
        assert!(rt; report.memory > 0);
        let again = run_one(rt.alloc(), store, &mut holders);
        if again.memory > 0 {
            return Err(Fail::from("a growth was refused"));
        }
        assert!(rt; again.committed == 3 - report.committed);
    }
    Ok(())
}

fn by_one_worker<R: AllocGlobal + Abort>(
    rt: &R,
    root: Hash,
    whole: &[u8],
) -> Result<Vec<u8>, Fail> {
    let mut store = Store::new(rt.alloc(), root, Mode::hash(), 3)?;
    fill(rt, &mut store, whole)?;
    Ok(finish_one(rt.alloc(), &store)?)
}

// Where a growth is refused, that is told, and a second call gives the blob.
#[test]
fn one_worker(rt: HostRuntime) -> Result<(), Fail> {
    let bytes = array::<3000>();
    let (root, whole) = combined(rt.alloc(), &Mode::hash(), &bytes)?;
    let blob = by_one_worker(&rt, root, whole.as_slice())?;
    assert!(rt; blob.as_slice() == bytes.as_slice());
    Ok(())
}

// What a holder appends, at the second call where a growth is refused at the first, which appends nothing.
fn appended_at_last<H: Holder>(alloc: Global, holder: &mut H, start: u64) -> Result<Vec<u8>, Fail> {
    let mut text = Vec::new(alloc);
    if holder.fetch(start, 1, &mut text) == Err(HolderFault::Memory) {
        if !text.is_empty() {
            return Err("bytes beside a fault".into());
        }
        holder.fetch(start, 1, &mut text)?;
    }
    Ok(text)
}

#[test]
fn holders_of_encodings_at_places(rt: HostRuntime) -> Result<(), Fail> {
    let bytes = array::<3000>();
    let (_, text) = combined(rt.alloc(), &Mode::hash(), &bytes)?;
    let (_, expected) = slice(rt.alloc(), &Mode::hash(), &bytes, 1024, 1)?;
    let got = appended_at_last(rt.alloc(), &mut Encoded::at(&text.as_slice()), 1024)?;
    assert!(rt; got.as_slice() == expected.as_slice());
    Ok(())
}

#[test]
fn holders_of_copies_at_places(rt: HostRuntime) -> Result<(), Fail> {
    let bytes = array::<3000>();
    let got = appended_at_last(rt.alloc(), &mut Plain::at(&bytes.as_slice()), 255)?;
    assert!(rt; got.as_slice() == [4].as_slice());
    Ok(())
}
