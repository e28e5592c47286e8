use crate::program::{expect, path};
use b3tree::{Cv, Hash, Mode, cv, parent_input, root_hash, rooted, subtree_cv};
use bao_text::combined;
use std::alloc::Global;
use std::fs::File;
use std::process::Abort;
use std::rt::Files;
use std::test::Fail;
use std::thread::Threads;
use std::{fs, process};
use tests_libraries::bytes::blob;

// A text of nodes, with the length that it claims.
fn text_of(alloc: Global, len: u64, nodes: &[&[u8]]) -> Result<Vec<u8>, Fail> {
    let mut text = Vec::new(alloc);
    text.extend_from_slice(&len.to_le_bytes())?;
    for node in nodes {
        text.extend_from_slice(node)?;
    }
    Ok(text)
}

// The 64 bytes of a parent.
fn parent_of(left: &Cv, right: &Cv) -> [u8; 64] {
    let mut bytes = [0; 64];
    bytes[..32].copy_from_slice(&left.to_bytes());
    bytes[32..].copy_from_slice(&right.to_bytes());
    bytes
}

// A root that no blob has, its 64 bytes, and those of the parent on its left, whose parts are both the first bytes.
fn no_blob(first: &[u8], last: &[u8]) -> (Hash, [u8; 64], [u8; 64]) {
    let mode = Mode::hash();
    let left = subtree_cv(&mode, 0, first);
    let right = subtree_cv(&mode, 64, last);
    let both = Cv(cv(&parent_input(&mode, &left, &left)));
    let root = root_hash(&rooted(&parent_input(&mode, &both, &right)));
    (root, parent_of(&both, &right), parent_of(&left, &left))
}

// The nodes below the claimed length.
fn nodes_of(alloc: Global, bytes: &[u8]) -> Result<Vec<u8>, Fail> {
    let (_, whole) = combined(alloc, &Mode::hash(), bytes)?;
    let mut nodes = Vec::new(alloc);
    nodes.extend_from_slice(whole.as_slice().get(8..).ok_or("nodes")?)?;
    Ok(nodes)
}

// A text of the last bytes, with zeros in the place of the nodes before them.
fn end_of(alloc: Global, top: &[u8], count: usize, last: &[u8]) -> Result<Vec<u8>, Fail> {
    let zeros = vec![in alloc; 0; count]?;
    text_of(alloc, 66_012, &[top, zeros.as_slice(), last])
}

// Such a root, and the texts of its beginning and of its end.
fn texts_of_no_blob(alloc: Global) -> Result<(Hash, Vec<u8>, Vec<u8>), Fail> {
    let first = blob(alloc, 65_536)?;
    let last = blob(alloc, 476)?;
    let (root, top, parent) = no_blob(first.as_slice(), last.as_slice());
    let nodes = nodes_of(alloc, first.as_slice())?;
    let end = end_of(alloc, &top, nodes.len(), last.as_slice())?;
    let start = text_of(alloc, 131_548, &[&top, &parent, nodes.as_slice()])?;
    Ok((root, start, end))
}

// The program makes no blob of these files.
fn makes_none<'a, R: Files<File = File> + AllocGlobal + Threads + Sync + Abort>(
    rt: &R,
    digits: &'a str,
    out: &'a str,
    begins: &'a str,
    ends: &'a str,
) -> Result<(), Fail> {
    let other = "bao_gather: 902 not the root\n";
    expect(rt, &["gather", digits, out, ends, begins], 1, "", other)?;
    assert!(rt; fs::metadata(rt, out).is_err());
    Ok(())
}

fn with_files<R: Files<File = File> + AllocGlobal + Threads + Sync + Abort>(
    rt: &R,
    id: u32,
    root: &Hash,
    start: &[u8],
    end: &[u8],
) -> Result<(), Fail> {
    let digits = hex::encode(rt.alloc(), &root.0)?;
    let begins = path(rt.alloc(), id, "begins")?;
    let ends = path(rt.alloc(), id, "ends")?;
    let out = path(rt.alloc(), id, "no-blob")?;
    fs::write(rt, begins.as_str(), start)?;
    fs::write(rt, ends.as_str(), end)?;
    makes_none(
        rt,
        digits.as_str(),
        out.as_str(),
        begins.as_str(),
        ends.as_str(),
    )?;
    fs::remove_file(rt, begins.as_str())?;
    fs::remove_file(rt, ends.as_str())?;
    Ok(())
}

// Under the hash of a parent that no blob has, one file certifies 65 chunks and the last of them, another 129 chunks
// and the first 64: all chunks come together, and no blob.
#[test]
fn a_root_of_no_blob(rt: HostRuntime) -> Result<(), Fail> {
    let (root, start, end) = texts_of_no_blob(rt.alloc())?;
    let id = process::id(rt.process());
    with_files(&rt, id, &root, start.as_slice(), end.as_slice())
}
