use b3par::Source;
use std::io;
use std::io::ErrorKind;
use std::sync::atomic::{AtomicU64, Ordering};

// Bytes that are read by position, at most `most` a read. The read with the number `fails` answers a fault, and so do all
// where `breaks`. From the read with the number `shrinks` on there are `left` bytes.
#[derive(Drop)]
pub struct Dealing<'a> {
    pub bytes: &'a [u8],
    pub most: usize,
    pub fails: u64,
    pub breaks: bool,
    pub shrinks: u64,
    pub left: usize,
    reads: AtomicU64,
}

impl<'a> Dealing<'a> {
    pub fn of(bytes: &'a [u8]) -> Dealing<'a> {
        Dealing {
            bytes,
            most: usize::MAX,
            fails: u64::MAX,
            breaks: false,
            shrinks: u64::MAX,
            left: 0,
            reads: AtomicU64::new(0),
        }
    }

    // How many reads there were.
    pub fn reads(&self) -> u64 {
        self.reads.load(Ordering::SeqCst)
    }
}

impl Source for Dealing<'_> {
    fn read_at(&self, buf: &mut [u8], at: u64) -> io::Result<usize> {
        let number = self.reads.fetch_add(1, Ordering::SeqCst);
        if self.breaks || number == self.fails {
            return Err(io::Error::from(ErrorKind::Interrupted));
        }
        let there = if number < self.shrinks {
            self.bytes
        } else {
            &self.bytes[..self.left.min(self.bytes.len())]
        };
        let room = buf.len().min(self.most);
        there.read_at(&mut buf[..room], at)
    }
}

// Claims 2^64 - 1 bytes, and has as many bytes of 255 as a place can name.
#[derive(Clone, Copy)]
pub struct Endless;

impl Source for Endless {
    fn read_at(&self, buf: &mut [u8], _at: u64) -> io::Result<usize> {
        for byte in buf.iter_mut() {
            *byte = 255;
        }
        Ok(buf.len())
    }
}
