use anyhow::Result;
use b3tree::Mode;
use bao_text::write_combined;
use std::alloc::Global;
use std::io;
use std::io::{ErrorKind, Write};

// Takes at most `most` bytes a call. Once it holds `full` bytes it answers one write by `end`, where none is a write of 0 bytes,
// and takes all after it, so that a write too many shows. It can't be flushed.
#[derive(Drop)]
struct Choppy {
    held: Vec<u8>,
    most: usize,
    full: usize,
    end: Option<ErrorKind>,
}

impl Write for Choppy {
    fn write(&mut self, buf: &[u8]) -> io::Result<usize> {
        let room = self.full.saturating_sub(self.held.len());
        if room == 0 {
            self.full = usize::MAX;
            return match self.end {
                Some(kind) => Err(io::Error::from(kind)),
                None => Ok(0),
            };
        }
        let count = buf.len().min(self.most).min(room);
        self.held.extend_from_slice(&buf[..count])?;
        Ok(count)
    }

    fn flush(&mut self) -> io::Result<()> {
        Err(io::Error::from(ErrorKind::Other))
    }
}

// What comes of writing the combined encoding to a writer that fails so once it has so many bytes, and what it then holds.
pub fn written(
    alloc: Global,
    mode: &Mode,
    blob: &[u8],
    most: usize,
    full: usize,
    end: Option<ErrorKind>,
) -> Result<(String, Vec<u8>)> {
    let mut out = Choppy {
        held: Vec::new(alloc),
        most,
        full,
        end,
    };
    let said = match write_combined(alloc, mode, blob, &mut out) {
        Ok(root) => hex::encode(alloc, root.0)?,
        Err(fault) => format!(in alloc; "{fault}")?,
    };
    let Choppy { held, .. } = out;
    Ok((said, held))
}
