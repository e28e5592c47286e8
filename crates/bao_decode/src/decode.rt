// Decoding an encoding that is read from a file.

ghost use Rattle.std.specs.Prelude.{◌≡◌, ◌⊎◌, ◌^◌, ◌<◌, ℕ, List, [], IfErr, IfOk, IfSome, IsSome, OnErr, OnOk, Some, length, true, false};
ghost use Rattle.std.specs.Borrow.{Bor};
ghost use Rattle.std.specs.Io.KnownBytes.{Appends};
ghost use Rattle.bao_check.specs.Checked.{IsPiece, piece_text};
ghost use Rattle.bao_files.specs.Disks.{AreOf, Absent, IsKnown, KeepsFiles, Puts, Stored};
ghost use Rattle.bao_files.specs.Extents.{extent_of};
ghost use Rattle.bao_decode.specs.Opened.{IsNotThere, IsUnread};
ghost use Rattle.bao_check.specs.declared.fault.CheckFault.TheVariants as CheckFault;
ghost use Rattle.bao_decode.specs.Copies.{LeavesUnknown};
ghost use Rattle.bao_decode.specs.DecodeFaults.{IsQuietDecode, NamesDecodePaths};
ghost use Rattle.bao_decode.specs.Ranges.{IsFileFault, IsPartText, IsVerifiedText, part_bytes, written_count};
ghost use Rattle.bao_decode.specs.TextPass.{DecodeStops, DecodesKnown, DraftsKnown, HasPassed, HaveLen, IsDecoded, NamesDraftPaths};

use crate::copy_pass::PassFault;
use crate::decode_fault::DecodeFault;
use crate::plain_copy::{first_fault, flushed, regular_len, second_fault, shown_len};
use crate::text_pass::{Blocks, slice_of, text_pass, verify_pass};
use b3par::Source;
use b3tree::{Hash, Mode};
use bao_check::{CheckFault, Checked, check_stream, read_checked};
use bao_files::{Disk, FileFault, Progress, Shown};
use bao_text::Part;
use std::alloc::{AllocGlobal, Global};
use std::io::{BufReader, Read, Write};
use std::thread::Threads;

// Whether the reader has a byte left. It reads that byte.
fn has_more<R: Read>(reader: &mut R) -> Result<bool, CheckFault>
    ensures more { IfOk result (λ more. more ≡ true → IfSome (R.remaining reader.old) (λ left. 0 < length left)) }
    ensures end { IfOk result (λ more. more ≡ false → IfSome (R.remaining reader.old) (λ left. left ≡ [])) }
    ensures fault { IfErr result (λ fault. fault ≡ CheckFault.Reader) }
{
    let mut after = [0; 1];
    match reader.read(&mut after) {
        Ok(count) => Ok(count > 0),
        Err(_) => Err(CheckFault::Reader),
    }
}

// The accepted slice, unless a byte follows its encoding.
fn ended<'a>(piece: Checked<'a>, has_more: bool) -> Result<Checked<'a>, CheckFault>
    requires { length (piece_text piece) < 2 ^ 64 }
    ensures ok { IfOk result (λ whole. (whole ≡ piece.entry) × (has_more ≡ false)) }
    ensures err { IfErr result (λ fault. (fault ≡ CheckFault.Trailing (length (piece_text piece.entry))) × (has_more ≡ true)) }
{
    if has_more {
        let at = piece.text_len() as u64;
        return Err(CheckFault::Trailing { at });
    }
    Ok(piece)
}

/// Reads all that `reader` has into `text`, which must be empty, and returns it as the accepted slice of `len`
/// bytes from byte `start` on.
///
/// The encoding is checked node by node while it is read, as the Bao specification says, so that `text` doesn't
/// grow past its first fault. Once it is accepted, one more byte is read, which must not exist. `text` has what
/// was read of the encoding, also after a refusal.
///
/// Refuses an encoding by its first fault: with `Short` (501) or `Mismatch` (502) and the offset of the node, and
/// with `Trailing` (503) and the offset of the encoding's end if a byte follows it. Refuses with `Memory` (504) if
/// there is none for a node, and with `Reader` (505) if a read fails.
pub fn read_text<'a, R: Read>(
    alloc: Global,
    mode: &Mode,
    root: &Hash,
    start: u64,
    len: u64,
    reader: &mut R,
    text: &'a mut Vec<u8>,
) -> Result<Checked<'a>, CheckFault>
    requires { text.old.items ≡ [] }
    ensures piece { IfOk result (λ piece. IsPiece piece mode.now root.now.0 start len (piece_text piece)) }
    ensures whole { IfOk result (λ piece. IfSome (R.remaining reader.old) (λ all. all ≡ piece_text piece)) }
    ensures fault { IfErr result (λ fault. IfSome (R.remaining reader.old) (λ all. IsFileFault mode.now root.now.0 start len all fault)) }
{
    let piece = check_stream(alloc, mode, root, start, len, reader, text)?;
    ended(piece, has_more(reader)?)
}

// Writes the part's bytes of an encoding that was verified before. Each block is verified again before its bytes are written.
fn write_verified<'a, R: Threads + Sync, S: Source + Sync, W: Write>(
    rt: &R,
    mode: &Mode,
    root: &Hash,
    part: &Part,
    source: &S,
    file: &'a str,
    blocks: &mut Blocks,
    out: &mut W,
    path: &'a str,
) -> Result<u64, DecodeFault<'a>>
    requires { HaveLen 294912 blocks.old }
    ensures some { IfOk result (λ count. (text : List ℕ) × IsVerifiedText mode.now root.now.0 part.now text × (count ≡ written_count part.now text)
        × Appends (W.contents out.old) (W.contents out.new) (part_bytes part.now text)) }
    ensures known { IfSome (S.contents source.now) (λ s. HasPassed mode.now root.now.0 part.now s → DecodesKnown mode.now root.now.0 part.now (S.faultless source.now) s file.entry path.entry (W.contents out.old) (W.contents out.new) result) }
    ensures fault { IfErr result (LeavesUnknown file.entry path.entry (W.contents out.old) (W.contents out.new)) }
{
    match text_pass(rt, mode, root, part, source, blocks, out) {
        Ok(count) => flushed(count, path, out),
        Err(fault) => Err(second_fault(fault, file, path)),
    }
}

/// Verifies an encoding of this part of the blob with this root, then writes the part's bytes to `out`, and returns
/// how many the part has.
///
/// `source` is the encoding, in the file at `file`, and `out` the file at `path`, which is flushed. The encoding is
/// read twice by position, in blocks of 288 KiB: first to verify all of it, then to write it. Each block is verified
/// again before its bytes are written, and meanwhile another thread verifies the next one. The memory is that of three
/// blocks.
///
/// Refuses with `Check` and the encoding's first fault, as the Bao specification orders them: `Short` (501) or
/// `Mismatch` (502) with the offset of the node, `Trailing` (503) with the offset of the encoding's end, or `Memory`
/// (504) if the encoding is longer than any file. Refuses with `File` and `Memory` if there is none for the blocks.
/// In these cases nothing was written. Refuses with `File`, `Read` and `file` if a read fails, or if the encoding
/// has changed after the first pass; and with `File`, `Write` and `path` if writing fails, which happens only if the
/// encoding was accepted. After these two a beginning of the part's bytes may have been written.
pub fn write_decoded<'a, R: Threads + Sync + AllocGlobal, S: Source + Sync, W: Write>(
    rt: &R,
    mode: &Mode,
    root: &Hash,
    part: &Part,
    source: &S,
    file: &'a str,
    out: &mut W,
    path: &'a str,
) -> Result<u64, DecodeFault<'a>>
    ensures some { IfOk result (λ count. (text : List ℕ) × IsVerifiedText mode.now root.now.0 part.now text × (count ≡ written_count part.now text)
        × Appends (W.contents out.old) (W.contents out.new) (part_bytes part.now text)) }
    ensures known { IfSome (S.contents source.now) (λ s. DecodesKnown mode.now root.now.0 part.now (S.faultless source.now) s file.entry path.entry (W.contents out.old) (W.contents out.new) result) }
    ensures fault { IfErr result (LeavesUnknown file.entry path.entry (W.contents out.old) (W.contents out.new)) }
{
    let Ok(mut blocks) = Blocks::new(rt.alloc()) else {
        return Err(DecodeFault::File(FileFault::Memory));
    };
    match verify_pass(
        mode,
        root,
        part,
        source,
        blocks.block.as_mut_slice(),
        blocks.room.as_mut_slice(),
    ) {
        Ok(()) => {}
        Err(fault) => return Err(first_fault(fault, file)),
    }
    write_verified(rt, mode, root, part, source, file, &mut blocks, out, path)
}

/// Writes the part's bytes of an encoding to `out` while the encoding is verified, and returns how many the part has.
///
/// The parameters are those of [`write_decoded`]. The encoding is read once: a block's bytes are written as soon as
/// the block is verified, while another thread verifies the next one. So `out` must be an output that nobody reads
/// before this has returned `Ok`, such as a draft that replaces a file later. If a write fails, the encoding is read
/// once more from its start, to find out whether it is accepted: its own fault is returned rather than that of the
/// output.
///
/// Refuses with `Check` and the encoding's first fault, as [`write_decoded`] does; with `File`, `Read` and `file` if a
/// read fails; and with `File`, `Write` and `path` if writing fails and the encoding is accepted. After these three a
/// beginning of the part's bytes may have been written. Refuses with `File` and `Memory` if there is none for the
/// blocks; nothing was then written.
pub fn write_draft<'a, R: Threads + Sync + AllocGlobal, S: Source + Sync, W: Write>(
    rt: &R,
    mode: &Mode,
    root: &Hash,
    part: &Part,
    source: &S,
    file: &'a str,
    out: &mut W,
    path: &'a str,
) -> Result<u64, DecodeFault<'a>>
    ensures some { IfOk result (λ count. (text : List ℕ) × IsVerifiedText mode.now root.now.0 part.now text × (count ≡ written_count part.now text)
        × Appends (W.contents out.old) (W.contents out.new) (part_bytes part.now text)) }
    ensures known { IfSome (S.contents source.now) (λ s. DraftsKnown mode.now root.now.0 part.now (S.faultless source.now) s file.entry path.entry (W.contents out.old) (W.contents out.new) result) }
    ensures paths { IfErr result (NamesDraftPaths file.entry path.entry) }
{
    let Ok(mut blocks) = Blocks::new(rt.alloc()) else {
        return Err(DecodeFault::File(FileFault::Memory));
    };
    match text_pass(rt, mode, root, part, source, &mut blocks, out) {
        Ok(count) => return flushed(count, path, out),
        Err(PassFault::Check(fault)) => return Err(DecodeFault::Check(fault)),
        Err(PassFault::Input) => return Err(DecodeFault::File(FileFault::Read(file))),
        Err(PassFault::Output) => {}
    }
    // A write failed. If the encoding isn't accepted, its fault is returned instead.
    match verify_pass(
        mode,
        root,
        part,
        source,
        blocks.block.as_mut_slice(),
        blocks.room.as_mut_slice(),
    ) {
        Ok(()) => Err(DecodeFault::File(FileFault::Write(path))),
        Err(fault) => Err(first_fault(fault, file)),
    }
}

// Reads the encoding in `input`, the file at `path`, into `text`, which is empty. It is checked node by node, because an input that
// isn't a regular file may never end after a fault.
fn read_input_text<'a, I: Read + Drop>(
    alloc: Global,
    mode: &Mode,
    root: &Hash,
    part: &Part,
    input: I,
    path: &'a str,
    text: &mut Vec<u8>,
) -> Result<(), DecodeFault<'a>>
    requires { text.old.items ≡ [] }
    ensures accepted { OnOk result (IsPartText mode.now root.now.0 part.now text.new.items) }
    ensures whole { OnOk result (IfSome (I.remaining input) (λ all. text.new.items ≡ all)) }
    ensures err { IfErr result IsQuietDecode }
    ensures paths { (other : Bor (List ℕ)) → IfErr result (NamesDecodePaths path.entry other) }
{
    let Ok(mut reader) = BufReader::new(alloc, input) else {
        return Err(DecodeFault::File(FileFault::Memory));
    };
    let (start, len) = slice_of(part);
    match read_checked(mode, root, start, len, &mut reader, text) {
        Ok(()) => {}
        Err(CheckFault::Reader) => return Err(DecodeFault::File(FileFault::Read(path))),
        Err(fault) => return Err(DecodeFault::Check(fault)),
    }
    match has_more(&mut reader) {
        Ok(false) => Ok(()),
        Ok(true) => {
            let at = text.len() as u64;
            Err(DecodeFault::Check(CheckFault::Trailing { at }))
        }
        Err(_) => Err(DecodeFault::File(FileFault::Read(path))),
    }
}

// Writes the part's bytes of an encoding that can't be read twice: it is read into memory first.
fn write_kept<'a, R: Threads + Sync + AllocGlobal, I: Read + Drop, W: Write>(
    rt: &R,
    mode: &Mode,
    root: &Hash,
    part: &Part,
    input: I,
    file: &'a str,
    out: &mut W,
    path: &'a str,
) -> Result<u64, DecodeFault<'a>>
    ensures ok { IfOk result (λ count. (text : List ℕ) × IfSome (I.remaining input) (λ all. text ≡ all)
        × IsDecoded mode.now root.now.0 part.now text count (W.contents out.old) (W.contents out.new)) }
    ensures err { IfErr result IsQuietDecode }
    ensures paths { IfErr result (NamesDecodePaths file.entry path.entry) }
{
    let alloc = rt.alloc();
    let mut text = Vec::new(alloc);
    if let Err(fault) = read_input_text(alloc, mode, root, part, input, file, &mut text) {
        return Err(fault);
    }
    let Ok(mut blocks) = Blocks::new(rt.alloc()) else {
        return Err(DecodeFault::File(FileFault::Memory));
    };
    write_verified(
        rt,
        mode,
        root,
        part,
        &text.as_slice(),
        file,
        &mut blocks,
        out,
        path,
    )
}

// Verifies the encoding in `input`, the file at `file` as it was opened, and writes the part's bytes to `out`, the file at `path`. The
// progress of reading a long regular file is reported to `progress`.
fn write_input<'a, R: Threads + Sync + AllocGlobal, D: Disk, P: Progress + Sync>(
    rt: &R,
    disk: &D,
    mode: &Mode,
    root: &Hash,
    part: &Part,
    input: D::Input,
    file: &'a str,
    out: &mut D::Draft,
    path: &'a str,
    progress: &P,
) -> Result<u64, DecodeFault<'a>>
    ensures ok { IfOk result (λ count. (text : List ℕ) × IsUnread (D.Input.contents input) (D.Input.remaining input) text
        × IsDecoded mode.now root.now.0 part.now text count (D.Draft.contents out.old) (D.Draft.contents out.new)) }
    ensures refused { IfErr result (λ fault. IsSome (D.Draft.contents out.old) → (text : List ℕ) → D.Input.contents input ≡ Some text
        → DecodeStops mode.now root.now.0 part.now (D.Input.faultless input) text file.entry path.entry fault) }
    ensures err { IfErr result IsQuietDecode }
    ensures paths { IfErr result (NamesDecodePaths file.entry path.entry) }
{
    let Some(len) = regular_len(disk.extent(&input)) else {
        return write_kept(rt, mode, root, part, input, file, out, path);
    };
    let is_replaced = disk.is_replaced(out);
    if !is_replaced && disk.is_same(&input, path) {
        return write_kept(rt, mode, root, part, input, file, out, path);
    }
    let shown = Shown::over(input, shown_len(len), progress);
    if is_replaced {
        write_draft(rt, mode, root, part, &shown, file, out, path)
    } else {
        write_decoded(rt, mode, root, part, &shown, file, out, path)
    }
}

/// Decodes the encoding in the file at `file` to the file at `path`, both on `disk`, and returns how many bytes the
/// part has.
///
/// The encoding is checked as that of this part of the blob with this root, and `path` gets the part's bytes, in
/// place of what was there, once all of the encoding is accepted. A regular file is read once, as [`write_draft`]
/// does, or twice, as [`write_decoded`] does, if the output can't be replaced atomically ([`Disk::is_replaced`]). Any
/// other file, such as a pipe, is checked node by node and read into memory. So is a file that is the output itself,
/// under any name, if that can't be replaced. The progress of a regular file of 4 MiB or more is reported to
/// `progress`, for the first of two passes only, which doesn't affect the result.
///
/// Refuses with `File` and `Read` if the file can't be opened or read; with `Check` and the encoding's first fault, as
/// [`write_decoded`] does; with `File` and `Write` if the output can't be created, written or replaced, which is found
/// only if the encoding is accepted; and with `File` and `Memory`, or `Check` and `Memory` (504) for a file that is read
/// into memory. After a refusal all files are unchanged, if the output can be replaced. If it can't, it may have a
/// beginning of the part's bytes after `Write`, and after `Read` in the second pass, if the file can't be read again or
/// has changed.
pub fn decode_on<'a, R: Threads + Sync + AllocGlobal, D: Disk, P: Progress + Sync>(
    rt: &R,
    disk: &mut D,
    mode: &Mode,
    root: &Hash,
    part: &Part,
    file: &'a str,
    path: &'a str,
    progress: &P,
) -> Result<u64, DecodeFault<'a>>
    ensures done { IfOk result (λ count. (text : List ℕ) × AreOf (D.at disk.old file.now) text × IsVerifiedText mode.now root.now.0 part.now text
        × (count ≡ written_count part.now text) × Puts (D.at disk.old) (D.at disk.new) path.now (Some (part_bytes part.now text))) }
    ensures kept { OnErr result (KeepsFiles (D.at disk.old) (D.at disk.new)) }
    ensures refused { IfErr result (λ fault. IsKnown (D.at disk.old path.now) → (text : List ℕ) → D.at disk.old file.now ≡ Stored text
        → DecodeStops mode.now root.now.0 part.now (D.faultless disk.old) text file.entry path.entry fault) }
    ensures absent { IfErr result (λ fault. D.at disk.old file.now ≡ Absent → IsNotThere file.entry fault) }
    ensures err { IfErr result IsQuietDecode }
    ensures paths { IfErr result (NamesDecodePaths file.entry path.entry) }
{
    let input = disk.open(file)?;
    let Ok(mut out) = disk.draft(path) else {
        return Err(DecodeFault::File(FileFault::Memory));
    };
    let count = write_input(
        rt, disk, mode, root, part, input, file, &mut out, path, progress,
    )?;
    disk.finish(out, path)?;
    Ok(count)
}
