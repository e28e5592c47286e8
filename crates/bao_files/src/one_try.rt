ghost use Rattle.std.specs.Prelude.{OnOk};
ghost use Rattle.std.specs.Io.KnownBytes.{Appends};

use bao_text::write_text;
use std::io;
use std::io::{ErrorKind, Write};

/// A writer whose `write_all`, and so `write!`, retries no write: a fault of the kind `Interrupted` is a fault
/// like any other.
pub struct Once<'a, W>(pub &'a mut W);

impl<W> Drop for Once<'_, W> {
    fn drop(self) {
        let Once(_) = self;
    }
}

impl<W: Write> Write for Once<'_, W> {
    ghost contents = { λ once. W.contents once.0.now };

    fn write(&mut self, buf: &[u8]) -> io::Result<usize> {
        self.0.write(buf)
    }

    fn flush(&mut self) -> io::Result<()> {
        self.0.flush()
    }

    fn write_all(&mut self, buf: &[u8]) -> io::Result<()> {
        write_text(buf, self.0).map_err(|_| io::Error::from(ErrorKind::WriteZero))
    }
}
