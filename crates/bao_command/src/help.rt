ghost use Rattle.std.specs.Prelude.{◌≡◌, ◌≢◌, ◌↔◌, OnOk};
ghost use Rattle.std.specs.Io.KnownBytes.{Appends};
ghost use Rattle.bao_command.specs.Outcome.{IsShown};

use crate::fault::Fault;
use bao_files::FileFault;
use std::io;
use std::io::{ErrorKind, Write};

// Writes all of `text`. Stops at the first write that fails, for whatever reason, or takes no byte, and returns its error.
fn write_once<W: Write>(text: &[u8], out: &mut W) -> io::Result<()>
    ensures { OnOk result (Appends (W.contents out.old) (W.contents out.new) text.now) }
{
    let mut written = 0;
    'writes: while written < text.len() {
        match out.write(&text[written..]) {
            Ok(0) => return Err(io::Error::from(ErrorKind::WriteZero)),
            Ok(count) => written += count,
            Err(error) => return Err(error),
        }
    }
    Ok(())
}

// Writes and flushes help or the version. Returns the first error.
pub(crate) fn show<W: Write>(text: &[u8], out: &mut W) -> io::Result<()> {
    write_once(text, out)?;
    out.flush()
}

// The exit status then. It is no fault if the reader has closed the pipe.
pub(crate) fn shown_status<E: Write>(shown: io::Result<()>, err: &mut E) -> u8
    ensures done { result ≡ 0 ↔ IsShown shown }
    ensures fault { result ≢ 0 → result ≡ 3 }
{
    match shown {
        Ok(()) => 0,
        Err(error) if error.kind() == ErrorKind::BrokenPipe => 0,
        Err(_) => Fault::File(FileFault::Output).report(err),
    }
}
