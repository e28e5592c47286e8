// Verifying a plain copy beside an outboard encoding.

ghost use Rattle.std.specs.Borrow.{Bor};
ghost use Rattle.std.specs.Prelude.{◌≡◌, ◌⊎◌, ◌+◌, ◌-◌, ◌*◌, ◌^◌, ◌<◌, ◌≤◌, ℕ, List, IfErr, IfOk, IfSome, IsSome, OnErr, Some, length, min, take};
ghost use Rattle.std.specs.Io.KnownBytes.{Appends, Keeps};
ghost use Rattle.bao_files.specs.declared.fault.FileFault.TheVariants as FileFault;
ghost use Rattle.bao_decode.specs.declared.decode_fault.DecodeFault.TheVariants as DecodeFault;
ghost use Rattle.bao_check.specs.Accepted.{IsAccepted, outboard_nodes};
ghost use Rattle.bao_check.specs.Faults.{IsShortAt};
ghost use Rattle.bao_check.specs.Outline.{outline_claimed};
ghost use Rattle.bao_text.specs.Choice.{chunk_count};
ghost use Rattle.bao_text.specs.Cut.{claimed};
ghost use Rattle.bao_files.specs.Disks.{AreOf, Absent, IsKnown, IsStored, KeepsFiles, Puts, Stored};
ghost use Rattle.bao_files.specs.Extents.{extent_of};
ghost use Rattle.bao_decode.specs.Copies.{BesideStops, CopiesKnown, CopyStops, IsCopyBeside, IsEnough, IsEnoughOf, IsOfOutboard, LeavesUnknown};
ghost use Rattle.bao_decode.specs.Opened.{IsNotThere, IsUnread};
ghost use Rattle.bao_decode.specs.CopyPass.{IsVerifiedCopy, first_fault_of, second_fault_of};
ghost use Rattle.bao_decode.specs.DecodeFaults.{IsQuietDecode, NamesDecodePaths, NamesEither};

use crate::copy_pass::{PassFault, ROOM_LEN, copy_pass, fill_most};
use crate::decode_fault::DecodeFault;
use b3par::Source;
use b3tree::{Hash, Mode, bytes_are};
use bao_check::{CheckFault, Outline, check_outboard};
use bao_files::{Disk, Extent, FileFault, InputFault, Progress, Shown, read_whole};
use bao_text::{LENGTH_LEN, claimed, outboard_len};
use std::alloc::Global;
use std::io;
use std::io::{Read, Write};

// How many bytes of an outboard encoding are checked before more is read.
const FIRST_LEN: u64 = 1 << 16;

// The progress of reading a shorter file isn't reported.
const LEAST_SHOWN_LEN: u64 = 4 << 20;

// A fault of reading the file at `path`.
fn read_fault<'a>(fault: InputFault, path: &'a str) -> FileFault<'a>
    ensures { (result ≡ FileFault.Memory) ⊎ (result ≡ FileFault.Read path.entry) }
{
    match fault {
        InputFault::Memory => FileFault::Memory,
        InputFault::Reader => FileFault::Read(path),
    }
}

// How many bytes have to be read of an outboard encoding that begins with `text`: as many as it claims to have, and one more, which
// must not exist. 0 if it is already refused for this beginning.
fn outboard_limit(alloc: Global, mode: &Mode, root: &Hash, text: &[u8]) -> u64
    ensures accepted { IsAccepted mode.now root.now.0 text.now (outboard_nodes text.now) → length text.now < result }
    ensures claims { 0 < result → (8 ≤ length text.now) × (result ≡ 8 + 64 * (chunk_count (claimed text.now) - 1) + 1) }
    ensures refused { result ≡ 0 → (8 ≤ length text.now) → (at : ℕ) → ¬ IsShortAt mode.now root.now.0 text.now (outboard_nodes text.now) at }
{
    if text.len() < LENGTH_LEN {
        return 0;
    }
    match check_outboard(alloc, mode, root, text) {
        Err(CheckFault::Mismatch { .. }) => return 0,
        Err(CheckFault::Trailing { .. }) => return 0,
        _ => {}
    }
    u64::try_from(outboard_len(claimed(text)) + 1).unwrap_or(u64::MAX)
}

// The first `len` bytes of a source, or all of them if there are fewer.
fn front_of<'a, S: Source>(
    alloc: Global,
    source: &S,
    len: u64,
    path: &'a str,
) -> Result<Vec<u8>, FileFault<'a>>
    ensures front { IfOk result (λ text. IfSome (S.contents source.now) (λ s. text.items ≡ take len s)) }
    ensures fault { IfErr result (λ fault. (fault ≡ FileFault.Memory) ⊎ ((fault ≡ FileFault.Read path.entry) × ¬ S.faultless source.now)) }
{
    let Ok(mut text) = vec![in alloc; 0u8; len as usize] else {
        return Err(FileFault::Memory);
    };
    match fill_most(source, 0, text.as_mut_slice()) {
        Ok(count) => {
            text.truncate(count);
            Ok(text)
        }
        Err(_) => Err(FileFault::Read(path)),
    }
}

// As much as has to be read of the outboard encoding in a regular file that is said to have `size` bytes.
fn placed_outboard<'a, S: Source>(
    alloc: Global,
    mode: &Mode,
    root: &Hash,
    source: &S,
    size: u64,
    path: &'a str,
) -> Result<Vec<u8>, FileFault<'a>>
    ensures enough { IfOk result (λ text. IfSome (S.contents source.now) (λ s. length s ≡ size → IsEnough mode.now root.now.0 s text.items)) }
    ensures fault { IfErr result (λ fault. (fault ≡ FileFault.Memory) ⊎ ((fault ≡ FileFault.Read path.entry) × ¬ S.faultless source.now)) }
{
    let text = front_of(alloc, source, FIRST_LEN, path)?;
    let limit = outboard_limit(alloc, mode, root, text.as_slice());
    if limit <= text.len() as u64 {
        return Ok(text);
    }
    let most = limit.min(size.saturating_add(1));
    let more = front_of(alloc, source, most, path)?;
    if more.len() as u64 <= size {
        return Ok(more);
    }
    // The file has grown.
    front_of(alloc, source, limit, path)
}

// As much as has to be read of one that can't be read by position, such as a pipe.
fn streamed_outboard<'a, I: Read + Drop>(
    alloc: Global,
    mode: &Mode,
    root: &Hash,
    input: I,
    path: &'a str,
) -> Result<Vec<u8>, FileFault<'a>>
    ensures { IfErr result (λ fault. (fault ≡ FileFault.Memory) ⊎ (fault ≡ FileFault.Read path.entry)) }
{
    let mut text = Vec::new(alloc);
    let mut reader = input.take(FIRST_LEN);
    match read_whole(&mut reader, &mut text) {
        Ok(()) => {}
        Err(fault) => return Err(read_fault(fault, path)),
    }
    let limit = outboard_limit(alloc, mode, root, text.as_slice());
    reader.set_limit(limit.saturating_sub(text.len() as u64));
    match read_whole(&mut reader, &mut text) {
        Ok(()) => Ok(text),
        Err(fault) => Err(read_fault(fault, path)),
    }
}

/// Returns as much of the outboard encoding in the file at `path` on `disk` as decides whether it is accepted.
///
/// The first 64 KiB are read, and if they have no fault, as many bytes as the encoding claims to have, and one more.
/// If the result is accepted, it is the whole file. If not, its first fault is that of the file. Refuses with `Read`
/// and `path` if the file can't be opened or read, and with `Memory`.
pub fn read_outboard_on<'a, D: Disk>(
    alloc: Global,
    disk: &D,
    mode: &Mode,
    root: &Hash,
    path: &'a str,
) -> Result<Vec<u8>, FileFault<'a>>
    ensures enough { IfOk result (λ text. IsEnoughOf mode.now root.now.0 (D.at disk.now path.now) text.items) }
    ensures fault { IfErr result (λ fault. (fault ≡ FileFault.Memory) ⊎ (fault ≡ FileFault.Read path.entry)) }
    ensures there { IfErr result (λ fault. D.faultless disk.now → IsStored (D.at disk.now path.now) → fault ≡ FileFault.Memory) }
{
    let file = disk.open(path)?;
    match regular_len(disk.extent(&file)) {
        Some(size) => placed_outboard(alloc, mode, root, &file, size, path),
        None => streamed_outboard(alloc, mode, root, file, path),
    }
}

// The bytes of a copy that can't be read by position, such as a pipe: at most as many as the outline claims, and one more.
fn read_copy<'a, I: Read + Drop>(
    alloc: Global,
    outline: &Outline<'_>,
    input: I,
    path: &'a str,
) -> Result<Vec<u8>, FileFault<'a>>
    ensures most { IfOk result (λ bytes. IfSome (I.remaining input) (λ s. bytes.items ≡ take (min (outline_claimed outline.now + 1) (2 ^ 64 - 1)) s)) }
    ensures fault { IfErr result (λ fault. (fault ≡ FileFault.Memory) ⊎ (fault ≡ FileFault.Read path.entry)) }
{
    let mut reader = input.take(outline.claimed().saturating_add(1));
    let mut bytes = Vec::new(alloc);
    match read_whole(&mut reader, &mut bytes) {
        Ok(()) => Ok(bytes),
        Err(fault) => Err(read_fault(fault, path)),
    }
}

// A fault of the first pass over `file`. That pass writes nothing, or to a sink, which never fails: `Output` can't come.
pub(crate) fn first_fault<'a>(fault: PassFault, file: &'a str) -> DecodeFault<'a>
    ensures { result ≡ first_fault_of file.entry fault }
{
    match fault {
        PassFault::Check(fault) => DecodeFault::Check(fault),
        PassFault::Input => DecodeFault::File(FileFault::Read(file)),
        PassFault::Output => DecodeFault::File(FileFault::Memory),
    }
}

// A fault of the second pass: input that isn't accepted any more has changed, which counts as a failed read.
pub(crate) fn second_fault<'a>(fault: PassFault, file: &'a str, path: &'a str) -> DecodeFault<'a>
    ensures { result ≡ second_fault_of file.entry path.entry fault }
{
    match fault {
        PassFault::Check(_) | PassFault::Input => DecodeFault::File(FileFault::Read(file)),
        PassFault::Output => DecodeFault::File(FileFault::Write(path)),
    }
}

// Flushes the writer, the file at `path`, and returns the count.
pub(crate) fn flushed<'a, W: Write>(
    count: u64,
    path: &'a str,
    out: &mut W,
) -> Result<u64, DecodeFault<'a>>
    ensures keeps { Keeps (W.contents out.old) (W.contents out.new) }
    ensures ok { IfOk result (λ answer. answer ≡ count) }
    ensures err { IfErr result (λ fault. fault ≡ DecodeFault.File (FileFault.Write path.entry)) }
{
    match out.flush() {
        Ok(()) => Ok(count),
        Err(_) => Err(DecodeFault::File(FileFault::Write(path))),
    }
}

/// Verifies a plain copy beside the outline, then writes it to `out`, and returns how many bytes it has.
///
/// `copy` is the file at `file`, and `out` the file at `path`, which is flushed. The copy is read twice by position,
/// 256 KiB at a time: first to verify all of it, then to write it, where each 256 KiB are verified again before they
/// are written. They are all the memory that is needed.
///
/// Refuses with `Check` and the first fault of the copy, with its offset there: `Short` (501) at a chunk that isn't
/// complete, `Mismatch` (502) at a chunk that doesn't have the outline's chaining value, or `Trailing` (503) at the
/// end that the outline claims, if bytes follow it. Refuses with `File` and `Memory` if there is none. In these cases
/// nothing was written. Refuses with `File`, `Read` and `file` if a read fails, or if the copy has changed after the
/// first pass; and with `File`, `Write` and `path` if writing fails, which happens only if the copy was accepted.
/// After these two a beginning of the copy may have been written.
pub fn write_copy<'a, S: Source, W: Write>(
    alloc: Global,
    outline: &Outline<'_>,
    copy: &S,
    file: &'a str,
    out: &mut W,
    path: &'a str,
) -> Result<u64, DecodeFault<'a>>
    ensures some { IfOk result (λ count. (bytes : List ℕ) × IsVerifiedCopy outline.now bytes × (count ≡ length bytes) × Appends (W.contents out.old) (W.contents out.new) bytes) }
    ensures known { IfSome (S.contents copy.now) (λ s. CopiesKnown outline.now (S.faultless copy.now) s file.entry path.entry (W.contents out.old) (W.contents out.new) result) }
    ensures fault { IfErr result (LeavesUnknown file.entry path.entry (W.contents out.old) (W.contents out.new)) }
{
    let Ok(mut piece) = vec![in alloc; 0u8; ROOM_LEN] else {
        return Err(DecodeFault::File(FileFault::Memory));
    };
    let mut nowhere = io::sink();
    match copy_pass(outline, copy, piece.as_mut_slice(), &mut nowhere) {
        Ok(_) => {}
        Err(fault) => return Err(first_fault(fault, file)),
    }
    match copy_pass(outline, copy, piece.as_mut_slice(), out) {
        Ok(count) => flushed(count, path, out),
        Err(fault) => Err(second_fault(fault, file, path)),
    }
}

// The length that is given for a regular file. Only regular files are read by position.
pub(crate) fn regular_len(extent: Option<Extent>) -> Option<u64>
    ensures { (s : List ℕ) → extent ≡ Some (extent_of s) → result ≡ Some (length s) }
{
    match extent {
        Some(extent) if extent.is_regular => Some(extent.len),
        _ => None,
    }
}

// The length of a file whose progress is reported, which is done only for a long one.
pub(crate) fn shown_len(len: u64) -> Option<u64> {
    (len >= LEAST_SHOWN_LEN).then_some(len)
}

// Verifies the copy in `input`, the file at `file` as it was opened, and writes it to `out`, the file at `path`. The progress of reading a
// long regular file is reported to `progress`.
fn write_input<'a, D: Disk, P: Progress>(
    alloc: Global,
    disk: &D,
    outline: &Outline<'_>,
    input: D::Input,
    file: &'a str,
    out: &mut D::Draft,
    path: &'a str,
    progress: &P,
) -> Result<u64, DecodeFault<'a>>
    ensures ok { IfOk result (λ count. (bytes : List ℕ) × IsUnread (D.Input.contents input) (D.Input.remaining input) bytes
        × IsVerifiedCopy outline.now bytes × (count ≡ length bytes) × Appends (D.Draft.contents out.old) (D.Draft.contents out.new) bytes) }
    ensures refused { IfErr result (λ fault. IsSome (D.Draft.contents out.old) → (bytes : List ℕ) → D.Input.contents input ≡ Some bytes
        → CopyStops outline.now (D.Input.faultless input) bytes file.entry path.entry fault) }
    ensures err { IfErr result IsQuietDecode }
    ensures paths { IfErr result (NamesDecodePaths file.entry path.entry) }
{
    if let Some(len) = regular_len(disk.extent(&input))
        && (disk.is_replaced(out) || !disk.is_same(&input, path))
    {
        let shown = Shown::over(input, shown_len(len), progress);
        return write_copy(alloc, outline, &shown, file, out, path);
    }
    let bytes = read_copy(alloc, outline, input, file)?;
    write_copy(alloc, outline, &bytes.as_slice(), file, out, path)
}

/// Verifies the plain copy at `copy` beside the outboard encoding at `outboard`, writes it to the file at `path`, all
/// three on `disk`, and returns how many bytes it has.
///
/// The encoding is checked first, as the outboard encoding of the blob with this root, then the copy beside it; `path`
/// gets the copy, in place of what was there, once all of both is accepted. No more is read of the encoding than
/// [`read_outboard_on`] says. A regular copy is read twice, as [`write_copy`] does. Of any other copy, such as a pipe,
/// at most one byte more than the encoding claims is read, into memory. The same is done with a copy that is the
/// output itself, under any name, if that can't be replaced atomically ([`Disk::is_replaced`]). The progress of the
/// first pass over a regular copy of 4 MiB or more is reported to `progress`, which doesn't affect the result.
///
/// Refuses with `File` and `Read` if one of the two files can't be opened or read; with `Check` and the first fault of
/// the encoding, before the copy is opened; with `Check` and the first fault of the copy, as [`write_copy`] does; with
/// `File` and `Write` if the output can't be created, written or replaced, which is found only if both are accepted;
/// and with `File` and `Memory`. After a refusal all files are unchanged, if the output can be replaced. If it can't,
/// it may have a beginning of the copy after `Write`, and after `Read` in the second pass, if the copy can't be read
/// again or has changed.
pub fn decode_copy_on<'a, D: Disk, P: Progress>(
    alloc: Global,
    disk: &mut D,
    mode: &Mode,
    root: &Hash,
    outboard: &'a str,
    copy: &'a str,
    path: &'a str,
    progress: &P,
) -> Result<u64, DecodeFault<'a>>
    ensures done { IfOk result (λ count. (outline : List ℕ) × (bytes : List ℕ) × AreOf (D.at disk.old outboard.now) outline × AreOf (D.at disk.old copy.now) bytes
        × IsCopyBeside mode.now root.now.0 outline bytes × (count ≡ length bytes) × Puts (D.at disk.old) (D.at disk.new) path.now (Some bytes)) }
    ensures kept { OnErr result (KeepsFiles (D.at disk.old) (D.at disk.new)) }
    ensures refused { IfErr result (λ fault. IsKnown (D.at disk.old path.now) → (outline bytes : List ℕ) → D.at disk.old outboard.now ≡ Stored outline
        → D.at disk.old copy.now ≡ Stored bytes → BesideStops mode.now root.now.0 (D.faultless disk.old) outline bytes outboard.entry copy.entry path.entry fault) }
    ensures absent { IfErr result (λ fault. D.at disk.old outboard.now ≡ Absent → IsNotThere outboard.entry fault) }
    ensures no_copy { IfErr result (λ fault. D.at disk.old copy.now ≡ Absent → IsNotThere copy.entry fault ⊎ IsOfOutboard (D.at disk.old outboard.now) mode.now root.now.0 outboard.entry fault) }
    ensures err { IfErr result IsQuietDecode }
    ensures paths { IfErr result (NamesEither outboard.entry copy.entry path.entry) }
{
    let text = read_outboard_on(alloc, disk, mode, root, outboard)?;
    // A lemma for the proof: no code runs.
    bytes_are(text.as_slice());
    let outline = match check_outboard(alloc, mode, root, text.as_slice()) {
        Ok(outline) => outline,
        Err(fault) => return Err(DecodeFault::Check(fault)),
    };
    let input = disk.open(copy)?;
    let Ok(mut out) = disk.draft(path) else {
        return Err(DecodeFault::File(FileFault::Memory));
    };
    let count = write_input(alloc, disk, &outline, input, copy, &mut out, path, progress)?;
    disk.finish(out, path)?;
    Ok(count)
}
