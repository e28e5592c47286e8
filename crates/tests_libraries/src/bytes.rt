use b3par::Source;
use std::alloc::Global;
use std::io;
use std::io::{ErrorKind, Write};
use std::test::Fail;

// After so many bytes they come again.
const CYCLE: usize = 251;

/// The bytes i mod 251, as in BLAKE3's test vectors. They are copied a cycle at a time, since a test is run once for each of its
/// allocations.
pub fn blob(alloc: Global, len: usize) -> Result<Vec<u8>, Fail> {
    let cycle = array::<CYCLE>();
    let mut bytes = vec![in alloc; 0u8; len]?;
    for part in bytes.as_mut_slice().chunks_mut(CYCLE) {
        let count = part.len().min(CYCLE);
        part[..count].copy_from_slice(&cycle[..count]);
    }
    Ok(bytes)
}

/// The same in an array, which takes no memory.
pub fn array<const N: usize>() -> [u8; N] {
    let mut bytes = [0; N];
    for (i, byte) in bytes.iter_mut().enumerate() {
        *byte = (i % CYCLE) as u8;
    }
    bytes
}

/// Bytes that have to be read, so that room for a piece of them is asked for too.
#[derive(Drop)]
pub struct InPieces<'a>(pub &'a [u8]);

impl Source for InPieces<'_> {
    fn read_at(&self, buf: &mut [u8], at: u64) -> io::Result<usize> {
        self.0.read_at(buf, at)
    }
}

/// Takes at most `room` bytes, then answers one write by a fault of this kind and takes all after it, so that a
/// write too many shows. It can't be flushed where `stuck`.
#[derive(Drop)]
pub struct Broken {
    /// What it has taken.
    pub held: Vec<u8>,
    room: usize,
    kind: ErrorKind,
    /// Whether a flush fails.
    pub stuck: bool,
}

impl Write for Broken {
    fn write(&mut self, buf: &[u8]) -> io::Result<usize> {
        if self.room == 0 {
            self.room = usize::MAX;
            return Err(io::Error::from(self.kind));
        }
        let count = buf.len().min(self.room);
        self.room -= count;
        self.held.extend_from_slice(&buf[..count])?;
        Ok(count)
    }

    fn flush(&mut self) -> io::Result<()> {
        if self.stuck {
            return Err(io::Error::from(ErrorKind::Other));
        }
        Ok(())
    }
}

/// A writer that fails after `room` bytes by a fault of this kind.
pub fn failing(alloc: Global, room: usize, kind: ErrorKind) -> Broken {
    Broken {
        held: Vec::new(alloc),
        room,
        kind,
        stuck: false,
    }
}

/// A writer that takes all.
pub fn taking(alloc: Global) -> Broken {
    failing(alloc, usize::MAX, ErrorKind::Other)
}
