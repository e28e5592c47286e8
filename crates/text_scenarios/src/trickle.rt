use std::io;
use std::io::{ErrorKind, Read};

// A reader that gives at most so many bytes a call. Where there is a fault, one call after `until` bytes answers it, and those
// after it give the rest, so that a call too many shows.
#[derive(Drop)]
pub struct Trickle<'a> {
    pub left: &'a [u8],
    most: usize,
    until: usize,
    fault: Option<ErrorKind>,
}

impl<'a> Trickle<'a> {
    pub fn new(bytes: &'a [u8], most: usize) -> Trickle<'a> {
        Trickle {
            left: bytes,
            most,
            until: 0,
            fault: None,
        }
    }

    pub fn failing(bytes: &'a [u8], most: usize, until: usize, kind: ErrorKind) -> Trickle<'a> {
        Trickle {
            left: bytes,
            most,
            until,
            fault: Some(kind),
        }
    }
}

impl Read for Trickle<'_> {
    fn read(&mut self, buf: &mut [u8]) -> io::Result<usize> {
        let mut count = buf.len().min(self.most).min(self.left.len());
        if let Some(kind) = self.fault {
            if self.until == 0 {
                self.fault = None;
                return Err(io::Error::from(kind));
            }
            count = count.min(self.until);
            self.until -= count;
        }
        let (given, left) = self.left.split_at(count);
        buf[..count].copy_from_slice(given);
        self.left = left;
        Ok(count)
    }
}
