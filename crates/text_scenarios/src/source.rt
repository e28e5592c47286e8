use anyhow::{Result, bail};
use b3par::{ReadFault, Source, combined_source, hash_source, outboard_source};
use b3tree::{Hash, Mode};
use bao_text::write_texts;
use std::alloc::Global;
use std::io;
use std::io::ErrorKind;
use std::thread::Threads;

// Gives the bytes, at most `most` a call, and from the place `fails` on a fault. A byte that comes after those that a call
// claims is no byte of the source's.
#[derive(Drop)]
pub struct Dealing<'a> {
    pub bytes: &'a [u8],
    pub most: usize,
    pub fails: u64,
}

impl Source for Dealing<'_> {
    fn read_at(&self, buf: &mut [u8], at: u64) -> io::Result<usize> {
        if at >= self.fails {
            return Err(io::Error::from(ErrorKind::Interrupted));
        }
        let room = buf.len().min(self.most);
        let count = self.bytes.read_at(&mut buf[..room], at)?;
        if count < buf.len() {
            buf[count] = 0xff;
        }
        Ok(count)
    }
}

// A hash and the texts of an encoding, one after another, or why there is none.
fn encoded(
    alloc: Global,
    made: Result<(Hash, Vec<Vec<u8>>), ReadFault>,
) -> Result<(String, Vec<u8>)> {
    let mut text = Vec::new(alloc);
    let said = match made {
        Ok((root, texts)) => {
            write_texts(texts.as_slice(), &mut text)?;
            hex::encode(alloc, root.0)?
        }
        Err(fault) => format!(in alloc; "{fault}")?,
    };
    Ok((said, text))
}

// The hash of a source that is said to have so many bytes, and its encodings, by so many threads, 1 to 64: of each what is said,
// and its text.
pub fn read<R: Threads + Sync, S: Source + Sync>(
    rt: &R,
    alloc: Global,
    mode: &Mode,
    source: &S,
    size: u64,
    workers: usize,
) -> Result<[(String, Vec<u8>); 3]> {
    if workers == 0 || workers > 64 {
        bail!("1 to 64 threads");
    }
    let hash = match hash_source(rt, alloc, mode, source, size, workers) {
        Ok(hash) => hex::encode(alloc, hash.0)?,
        Err(fault) => format!(in alloc; "{fault}")?,
    };
    let combined = combined_source(rt, alloc, mode, source, size, workers);
    let outboard = outboard_source(rt, alloc, mode, source, size, workers);
    Ok([
        (hash, Vec::new(alloc)),
        encoded(alloc, combined)?,
        encoded(alloc, outboard)?,
    ])
}
