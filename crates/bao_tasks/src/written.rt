ghost use Rattle.std.specs.Prelude.{◌≡◌, IfErr, OnOk};
ghost use Rattle.std.specs.Io.KnownBytes.{Appends};
ghost use Rattle.bao_text.specs.Faults.{WroteOnly};
ghost use Rattle.bao_tasks.specs.Gathered.{IsUnwritten, gathered_text};

use b3tree::Mode;
use bao_files::FileFault;
use bao_text::{WriteFault, write_combined, write_text};
use std::alloc::Global;
use std::io::Write;

// Writes the blob, or its combined encoding.
fn write_blob<W: Write>(
    alloc: Global,
    mode: &Mode,
    encode: bool,
    blob: &[u8],
    out: &mut W,
) -> Result<(), WriteFault>
    ensures text { OnOk result (Appends (W.contents out.old) (W.contents out.new) (gathered_text encode mode.now blob.now)) }
    ensures err { IfErr result (WroteOnly (W.contents out.old) (W.contents out.new) (gathered_text encode mode.now blob.now)) }
{
    if encode {
        write_combined(alloc, mode, blob, out)?;
        Ok(())
    } else {
        write_text(blob, out)
    }
}

// Writes the blob, or its combined encoding, to `out`, which is flushed.
pub(crate) fn write_whole<'a, W: Write>(
    alloc: Global,
    mode: &Mode,
    encode: bool,
    blob: &[u8],
    path: &'a str,
    out: &mut W,
) -> Result<(), FileFault<'a>>
    ensures text { OnOk result (Appends (W.contents out.old) (W.contents out.new) (gathered_text encode mode.now blob.now)) }
    ensures fault { IfErr result (IsUnwritten path.entry (gathered_text encode mode.now blob.now) (W.contents out.old) (W.contents out.new)) }
{
    match write_blob(alloc, mode, encode, blob, out) {
        Ok(()) => {}
        Err(WriteFault::Memory) => return Err(FileFault::Encoding),
        Err(WriteFault::Writer { .. }) => return Err(FileFault::Write(path)),
    }
    if out.flush().is_err() {
        return Err(FileFault::Write(path));
    }
    Ok(())
}
