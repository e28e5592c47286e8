// Cutting a slice out of a combined encoding, or of an outboard encoding and a copy, and verifying it.

ghost use Rattle.std.specs.Prelude.{◌≡◌, ◌⊎◌, ◌^◌, ◌<◌, ℕ, List, length, IfErr, IfOk, IfSome, OnErr, OnOk, Some, true};
ghost use Rattle.std.specs.Io.KnownBytes.{Appends};
ghost use Rattle.bao_files.specs.Disks.{Absent, IsKnown, KeepsFiles, Puts, Stored};
ghost use Rattle.bao_files.specs.declared.fault.FileFault.TheVariants as FileFault;
ghost use Rattle.bao_decode.specs.declared.decode_fault.DecodeFault.TheVariants as DecodeFault;
ghost use Rattle.bao_text.specs.declared.kinds.Part.TheVariants as Part;
ghost use Rattle.bao_text.specs.Cut.{cut_text};
ghost use Rattle.bao_text.specs.Texts.{combined_text, outboard_text, slice_text};
ghost use Rattle.bao_decode.specs.Copies.{LeavesUnknown};
ghost use Rattle.bao_decode.specs.Cutting.{IsCutOf};
ghost use Rattle.bao_decode.specs.DecodeFaults.{IsQuietDecode, NamesDecodePaths, NamesEither};
ghost use Rattle.bao_decode.specs.Opened.{IsNotThere};
ghost use Rattle.bao_decode.specs.Ranges.{IsVerifiedText, written_count};
ghost use Rattle.bao_decode.specs.TextPass.{DecodeStops, EncodesKnown};
ghost use Rattle.bao_decode.specs.Weaving.{CutBesideStops, IsCutBeside};

use crate::cut::Cut;
use crate::decode_fault::DecodeFault;
use crate::encoding_pass::encoding_pass;
use crate::forward::Forward;
use crate::origin::origin_of;
use crate::plain_copy::{first_fault, flushed, second_fault};
use crate::text_pass::{Blocks, verify_pass};
use crate::woven::Woven;
use b3par::Source;
use b3tree::{Hash, Mode};
use bao_files::{Disk, FileFault};
use bao_text::Part;
use std::alloc::Global;
use std::io::Write;

// Verifies an encoding of the part in a first pass, and writes the encoding itself in a second.
fn write_encoding<'a, F: Forward, W: Write>(
    alloc: Global,
    mode: &Mode,
    root: &Hash,
    part: &Part,
    source: &F,
    file: &'a str,
    out: &mut W,
    path: &'a str,
) -> Result<u64, DecodeFault<'a>>
    ensures some { IfOk result (λ count. (text : List ℕ) × IsVerifiedText mode.now root.now.0 part.now text × (count ≡ written_count part.now text)
        × Appends (W.contents out.old) (W.contents out.new) text) }
    ensures known { IfSome (F.contents source.now) (λ s. EncodesKnown mode.now root.now.0 part.now (F.faultless source.now) s file.entry path.entry (W.contents out.old) (W.contents out.new) result) }
    ensures fault { IfErr result (LeavesUnknown file.entry path.entry (W.contents out.old) (W.contents out.new)) }
{
    let Ok(mut blocks) = Blocks::new(alloc) else {
        return Err(DecodeFault::File(FileFault::Memory));
    };
    match verify_pass(
        mode,
        root,
        part,
        source,
        blocks.block.as_mut_slice(),
        blocks.room.as_mut_slice(),
    ) {
        Ok(()) => {}
        Err(fault) => return Err(first_fault(fault, file)),
    }
    match encoding_pass(
        mode,
        root,
        part,
        source,
        blocks.block.as_mut_slice(),
        blocks.room.as_mut_slice(),
        out,
    ) {
        Ok(count) => flushed(count, path, out),
        Err(fault) => Err(second_fault(fault, file, path)),
    }
}

/// Cuts the slice of `len` bytes from byte `start` on out of a combined encoding, verifies it under this root, then
/// writes it to `out`, and returns how many bytes of the range the blob has.
///
/// `encoding` is the file at `file`, and `out` the file at `path`, which is flushed. Only the length and the slice's
/// own nodes are read of the encoding, twice by position, in blocks of 288 KiB: first to verify all of them, then to
/// write them, where each block is verified again before it is written. The memory is that of three blocks.
///
/// Refuses with `Check` and the slice's first fault, as the Bao specification orders them, with the offset of the node
/// in the slice: `Short` (501) if the encoding ends before the node does, `Mismatch` (502), or `Memory` (504) if the slice
/// is longer than any file. Refuses with `File` and `Memory` if there is none for the blocks. In these cases nothing
/// was written. Refuses with `File`, `Read` and `file` if a read fails, or if the encoding has changed after the first
/// pass; and with `File`, `Write` and `path` if writing fails, which happens only if the slice was accepted. After
/// these two a beginning of the slice may have been written.
pub fn write_slice<'a, S: Source, W: Write>(
    alloc: Global,
    mode: &Mode,
    root: &Hash,
    start: u64,
    len: u64,
    encoding: &S,
    file: &'a str,
    out: &mut W,
    path: &'a str,
) -> Result<u64, DecodeFault<'a>>
    ensures some { IfOk result (λ count. (text : List ℕ) × IsVerifiedText mode.now root.now.0 (Part.Slice start len) text × (count ≡ written_count (Part.Slice start len) text)
        × Appends (W.contents out.old) (W.contents out.new) text) }
    ensures known { IfSome (S.contents encoding.now) (λ s. length s < 2 ^ 64 → EncodesKnown mode.now root.now.0 (Part.Slice start len) (S.faultless encoding.now) (cut_text s start len) file.entry path.entry
        (W.contents out.old) (W.contents out.new) result) }
    ensures fault { IfErr result (LeavesUnknown file.entry path.entry (W.contents out.old) (W.contents out.new)) }
{
    let cut = match Cut::of(encoding, start, len) {
        Ok(cut) => cut,
        Err(fault) => return Err(first_fault(fault, file)),
    };
    write_encoding(
        alloc,
        mode,
        root,
        &Part::Slice { start, len },
        &cut,
        file,
        out,
        path,
    )
}

/// Cuts the slice of `len` bytes from byte `start` on out of the combined encoding in the file at `file`, writes it to
/// the file at `path`, both on `disk`, and returns how many bytes of the range the blob has.
///
/// The slice is verified under this root and read as [`write_slice`] does; `path` gets it, in place of what was there,
/// once all of it is accepted. The file must be regular. If it is the output itself, under any name, and that can't be
/// replaced atomically ([`Disk::is_replaced`]), all of it is read into memory first.
///
/// Refuses with `File` and `Read` if the file can't be opened or read, or isn't regular; with `Check` and the slice's
/// first fault, as [`write_slice`] does; with `File` and `Write` if the output can't be created, written or replaced,
/// which is found only if the slice is accepted; and with `File` and `Memory`. After a refusal all files are
/// unchanged, if the output can be replaced. If it can't, it may have a beginning of the slice after `Write`, and after
/// `Read` in the second pass, if the file can't be read again or has changed.
pub fn slice_on<'a, D: Disk>(
    alloc: Global,
    disk: &mut D,
    mode: &Mode,
    root: &Hash,
    start: u64,
    len: u64,
    file: &'a str,
    path: &'a str,
) -> Result<u64, DecodeFault<'a>>
    ensures done { IfOk result (λ count. (text : List ℕ) × IsCutOf (D.at disk.old file.now) start len text × IsVerifiedText mode.now root.now.0 (Part.Slice start len) text
        × (count ≡ written_count (Part.Slice start len) text) × Puts (D.at disk.old) (D.at disk.new) path.now (Some text)) }
    ensures slice { (blob : List ℕ) → IsKnown (D.at disk.old path.now) → D.at disk.old file.now ≡ Stored (combined_text mode.now blob) → length (combined_text mode.now blob) < 2 ^ 64
        → OnOk result (D.at disk.new path.now ≡ Stored (slice_text mode.now blob start len)) }
    ensures kept { OnErr result (KeepsFiles (D.at disk.old) (D.at disk.new)) }
    ensures refused { IfErr result (λ fault. IsKnown (D.at disk.old path.now) → (encoding : List ℕ) → D.at disk.old file.now ≡ Stored encoding → length encoding < 2 ^ 63
        → DecodeStops mode.now root.now.0 (Part.Slice start len) (D.faultless disk.old) (cut_text encoding start len) file.entry path.entry fault) }
    ensures absent { IfErr result (λ fault. D.at disk.old file.now ≡ Absent → IsNotThere file.entry fault) }
    ensures err { IfErr result IsQuietDecode }
    ensures paths { IfErr result (NamesDecodePaths file.entry path.entry) }
{
    let Ok(mut out) = disk.draft(path) else {
        return Err(DecodeFault::File(FileFault::Memory));
    };
    let encoding = origin_of(alloc, disk, file, &out, path)?;
    let count = write_slice(
        alloc, mode, root, start, len, &encoding, file, &mut out, path,
    )?;
    disk.finish(out, path)?;
    Ok(count)
}

/// Cuts the slice of `len` bytes from byte `start` on out of the plain copy at `copy` and the outboard encoding at
/// `outboard`, writes it to the file at `path`, all three on `disk`, and returns how many bytes of the range the blob
/// has.
///
/// The slice is verified and written as by [`slice_on`]. Its length and parents are read from the outboard encoding,
/// and its chunks from the copy. Neither file is checked as a whole, nor has to be whole: what the slice doesn't need may
/// be missing. Both must be regular.
///
/// Refuses with `File` and `Read` if one of the two can't be opened or read, or isn't regular; the outboard encoding
/// comes first. A failed read names the copy, except that of the encoding's length. Refuses with `Check` if the slice
/// isn't accepted, also because one of the files ends too early: `Short` (501) or `Mismatch` (502) with the offset of
/// the node in the slice. The other refusals, and what is in the files after each, are those of [`slice_on`].
pub fn slice_beside_on<'a, D: Disk>(
    alloc: Global,
    disk: &mut D,
    mode: &Mode,
    root: &Hash,
    start: u64,
    len: u64,
    outboard: &'a str,
    copy: &'a str,
    path: &'a str,
) -> Result<u64, DecodeFault<'a>>
    ensures done { IfOk result (λ count. (text : List ℕ) × IsCutBeside (D.at disk.old outboard.now) (D.at disk.old copy.now) start len text
        × IsVerifiedText mode.now root.now.0 (Part.Slice start len) text × (count ≡ written_count (Part.Slice start len) text)
        × Puts (D.at disk.old) (D.at disk.new) path.now (Some text)) }
    ensures slice { (blob : List ℕ) → IsKnown (D.at disk.old path.now) → D.at disk.old outboard.now ≡ Stored (outboard_text mode.now blob) → D.at disk.old copy.now ≡ Stored blob
        → length (combined_text mode.now blob) < 2 ^ 63 → OnOk result (D.at disk.new path.now ≡ Stored (slice_text mode.now blob start len)) }
    ensures kept { OnErr result (KeepsFiles (D.at disk.old) (D.at disk.new)) }
    ensures refused { IfErr result (λ fault. IsKnown (D.at disk.old path.now) → (outline bytes : List ℕ) → D.at disk.old outboard.now ≡ Stored outline
        → D.at disk.old copy.now ≡ Stored bytes
        → CutBesideStops mode.now root.now.0 start len (D.faultless disk.old) outline bytes outboard.entry copy.entry path.entry fault) }
    ensures absent { IfErr result (λ fault. D.at disk.old outboard.now ≡ Absent → IsNotThere outboard.entry fault) }
    ensures no_copy { IfErr result (λ fault. D.at disk.old copy.now ≡ Absent → IsNotThere copy.entry fault ⊎ (fault ≡ DecodeFault.File (FileFault.Read outboard.entry))) }
    ensures err { IfErr result IsQuietDecode }
    ensures paths { IfErr result (NamesEither outboard.entry copy.entry path.entry) }
{
    let Ok(mut out) = disk.draft(path) else {
        return Err(DecodeFault::File(FileFault::Memory));
    };
    let beside = origin_of(alloc, disk, outboard, &out, path)?;
    let plain = origin_of(alloc, disk, copy, &out, path)?;
    let woven = match Woven::of(&beside, &plain, start, len) {
        Ok(woven) => woven,
        Err(fault) => return Err(first_fault(fault, outboard)),
    };
    let count = write_encoding(
        alloc,
        mode,
        root,
        &Part::Slice { start, len },
        &woven,
        copy,
        &mut out,
        path,
    )?;
    disk.finish(out, path)?;
    Ok(count)
}
