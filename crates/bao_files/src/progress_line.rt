ghost use Rattle.std.specs.Prelude.{◌≡◌, ◌++◌, ◌-◌, ◌<◌, ◌≤◌, IfOk, OnOk};
ghost use Rattle.bao_files.specs.ProgressLine.{files_shown, pace_shown, progress_line};

use arrayvec::ArrayString;
use std::fmt;
use std::fmt::Write;

// Room for the longest line: 46 characters, and six numbers with 102 digits in all.
pub(crate) const LINE_LEN: usize = 148;

const MEBIBYTE: u64 = 1 << 20;

type Line = ArrayString<LINE_LEN>;

// Adds how many of several files are done.
fn put_files(line: &mut Line, done: u64, files: u64) -> fmt::Result
    ensures { OnOk result (line.new.bytes ≡ line.old.bytes ++ files_shown done files) }
{
    if files <= 1 {
        return Ok(());
    }
    write!(line, "{done} of {files} files, ")
}

// Adds the mean rate, and the time that the bytes left take at that rate: nothing below one byte a millisecond.
fn put_pace(line: &mut Line, done: u64, left: u64, millis: u64) -> fmt::Result
    requires { 0 < millis }
    ensures { OnOk result (line.new.bytes ≡ line.old.bytes ++ pace_shown done left millis) }
{
    if done < millis {
        return Ok(());
    }
    let rate = done / MEBIBYTE * 1000 / millis;
    let seconds = left / (done / millis) / 1000;
    write!(line, ", {rate} MiB/s, {seconds} s left")
}

// The line that shows how many of how many files and bytes were read in how many milliseconds, over the one that stands
// there. An error says that it has no room.
pub(crate) fn shown_line(
    files_done: u64,
    files: u64,
    done: u64,
    total: u64,
    millis: u64,
) -> Result<Line, fmt::Error>
    requires done { done ≤ total }
    requires millis { 0 < millis }
    ensures { IfOk result (λ line. line.bytes ≡ progress_line files_done files done total millis) }
{
    let mut line = Line::new();
    line.write_str("\r")?;
    put_files(&mut line, files_done, files)?;
    let (mib_done, mib_total) = (done / MEBIBYTE, total / MEBIBYTE);
    write!(line, "{mib_done} of {mib_total} MiB read")?;
    put_pace(&mut line, done, total - done, millis)?;
    line.write_str("\x1b[K")?;
    Ok(line)
}
