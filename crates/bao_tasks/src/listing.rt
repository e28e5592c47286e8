// A list of the ranges that a blob lacks, for whoever fetches them.

ghost use Rattle.std.specs.Prelude.{◌≡◌, ◌⊎◌, IfErr, OnErr, OnOk, Some};
ghost use Rattle.std.specs.Io.KnownBytes.{Appends};
ghost use Rattle.bao_files.specs.Disks.{KeepsFiles, Puts};
ghost use Rattle.bao_files.specs.declared.fault.FileFault.TheVariants as FileFault;
ghost use Rattle.bao_tasks.specs.Listed.{line_of_part, lines_of_parts};

use crate::missing::Span;
use bao_files::{Disk, FileFault};
use std::io;
use std::io::Write;

// Writes the line of one range.
fn write_part<W: Write>(part: Span, out: &mut W) -> io::Result<()>
    ensures { OnOk result (Appends (W.contents out.old) (W.contents out.new) (line_of_part part)) }
{
    let (start, len) = (part.at, part.end.saturating_sub(part.at));
    writeln!(out, "{start} {len}")
}

/// Writes a line for each range, in order: its offset and its length in bytes, in decimal digits, separated by a
/// space.
///
/// Fails if a write does; a beginning of the lines may then have been written.
pub fn write_parts<W: Write>(parts: &[Span], out: &mut W) -> io::Result<()>
    ensures { OnOk result (Appends (W.contents out.old) (W.contents out.new) (lines_of_parts parts.now)) }
{
    for part in parts {
        write_part(*part, out)?;
    }
    Ok(())
}

/// Writes the lines of these ranges, as [`write_parts`] does, to the file at `path`, which is replaced. Without
/// ranges the file is empty.
///
/// Refuses with `Memory`, or with `Write` and the path if the file can't be created or written. All files are then
/// unchanged, except one that can't be replaced, such as a device.
pub fn list_parts<'a, D: Disk>(
    disk: &mut D,
    parts: &[Span],
    path: &'a str,
) -> Result<(), FileFault<'a>>
    ensures put { OnOk result (Puts (D.at disk.old) (D.at disk.new) path.now (Some (lines_of_parts parts.now))) }
    ensures kept { OnErr result (KeepsFiles (D.at disk.old) (D.at disk.new)) }
    ensures fault { IfErr result (λ fault. (fault ≡ FileFault.Memory) ⊎ (fault ≡ FileFault.Write path.entry)) }
{
    let Ok(mut out) = disk.draft(path) else {
        return Err(FileFault::Memory);
    };
    if write_parts(parts, &mut out).is_err() {
        return Err(FileFault::Write(path));
    }
    disk.finish(out, path)
}
