ghost use Rattle.b3par.specs.Given.{HasOther};
ghost use Rattle.std.specs.Prelude.{◌≡◌, ◌≢◌, ◌⊎◌, ℕ, ◌+◌, ◌-◌, ◌*◌, ◌<◌, ◌≤◌, List, length, None, Ok, IfErr, IfOk, IfSome, OnErr, OnOk, Some};
ghost use Rattle.std.specs.Io.KnownBytes.{Appends};
ghost use Rattle.b3tree.specs.Hashing.{hash};
ghost use Rattle.b3tree.specs.Valid.{AreBytes};
ghost use Rattle.bao_text.specs.Faults.{WroteOnly};
ghost use Rattle.bao_text.specs.Texts.{joined};
ghost use Rattle.bao_files.specs.Disks.{AreOf, Absent, IsKnown, KeepsFiles, Puts, Stored};
ghost use Rattle.bao_files.specs.Encoded.{Encodes, EncodesLike, IsMadeEncoding, IsReadOnce, IsAfterReading, answer_at_path, encoding_text};
ghost use Rattle.bao_files.specs.Again.{fault_at_paths};
ghost use Rattle.bao_files.specs.Ahead.{AreUnread};
ghost use Rattle.bao_files.specs.declared.fault.FileFault.TheVariants as FileFault;
ghost use Rattle.bao_text.specs.declared.kinds.Encoding.TheVariants as KindOf;
ghost use Rattle.bao_text.specs.Choice.{chunk_count};
ghost use Rattle.bao_files.specs.Printed.{IsQuiet, NamesPaths};

use crate::again::{AgainFault, write_again};
use crate::ahead::Pieces;
use crate::disk::{Disk, size_of};
use crate::fault::FileFault;
use crate::input::{LEAST_SHARED_LEN, read_input, read_placed};
use crate::progress::Progress;
use crate::shown::Shown;
use b3par::{ReadFault, Source, WORKERS, outboard_source, slice_source};
use b3tree::{Hash, Mode, bytes_are};
use bao_text::{
    Encoding, WriteFault, outboard, outboard_len, slice, write_combined, write_text, write_texts,
};
use std::alloc::{AllocError, Global};
use std::io::{Read, Write};
use std::thread::Threads;

// Writes an encoding that was made, and answers the hash that was made with it.
fn send<W: Write>(made: (Hash, Vec<u8>), out: &mut W) -> Result<Hash, WriteFault>
    ensures hash { IfOk result (λ h. h ≡ made.0) }
    ensures text { OnOk result (Appends (W.contents out.old) (W.contents out.new) made.1.items) }
    ensures err { IfErr result (WroteOnly (W.contents out.old) (W.contents out.new) made.1.items) }
{
    let (hash, text) = made;
    write_text(text.as_slice(), out)?;
    Ok(hash)
}

// The same of an encoding that was made in parts.
fn send_all<W: Write>(made: (Hash, Vec<Vec<u8>>), out: &mut W) -> Result<Hash, WriteFault>
    ensures hash { IfOk result (λ h. h ≡ made.0) }
    ensures text { OnOk result (Appends (W.contents out.old) (W.contents out.new) (joined made.1.items)) }
    ensures err { IfErr result (WroteOnly (W.contents out.old) (W.contents out.new) (joined made.1.items)) }
{
    let (hash, texts) = made;
    write_texts(texts.as_slice(), out)?;
    Ok(hash)
}

/// Writes this encoding of `bytes` in `mode` to `out`, and returns their hash.
///
/// Refuses with `Memory` (401), with nothing written, and with `Writer` (402) only if a write fails or writes
/// no byte: exactly the first `written` bytes of the encoding were then written.
pub fn write_encoding<W: Write>(
    alloc: Global,
    mode: &Mode,
    encoding: Encoding,
    bytes: &[u8],
    out: &mut W,
) -> Result<Hash, WriteFault>
    ensures hash { IfOk result (λ h. h.0 ≡ hash mode.now bytes.now) }
    ensures text { OnOk result (Appends (W.contents out.old) (W.contents out.new) (encoding_text mode.now encoding bytes.now)) }
    ensures err { IfErr result (WroteOnly (W.contents out.old) (W.contents out.new) (encoding_text mode.now encoding bytes.now)) }
{
    match encoding {
        Encoding::Combined => write_combined(alloc, mode, bytes, out),
        Encoding::Outboard => send(outboard(alloc, mode, bytes)?, out),
        Encoding::Slice { start, len } => send(slice(alloc, mode, bytes, start, len)?, out),
    }
}

// The outboard encoding of the bytes of an input that is said to have `size` of them, or a slice, and their hash, by several
// threads at once. Where the bytes are few or not so many, and where a read fails, there is none, nor is there a combined
// encoding. The input is read by position, so that it is left where it stood.
fn encoding_by_position<R: Threads + Sync, I: Source + Sync>(
    rt: &R,
    alloc: Global,
    mode: &Mode,
    encoding: Encoding,
    input: &I,
    size: u64,
) -> Result<Option<(Hash, Vec<Vec<u8>>)>, AllocError>
    ensures long { IfOk result (λ found. IfSome found (λ _. 4194304 ≤ size)) }
    ensures all { IfOk result (λ found. IfSome found (λ made. IfSome (I.contents input.now) (λ s. IsMadeEncoding mode.now encoding size s made.0.0 (joined made.1.items)))) }
    ensures some { IfOk result (λ found. IfSome found (λ made. (bytes : List ℕ) × IsMadeEncoding mode.now encoding size bytes made.0.0 (joined made.1.items))) }
    ensures other { result ≡ Ok None → encoding ≢ KindOf.Combined → 4194304 ≤ size → HasOther (I.contents input.now) (I.faultless input.now) size }
{
    if size < LEAST_SHARED_LEN {
        return Ok(None);
    }
    let made = match encoding {
        Encoding::Combined => return Ok(None),
        Encoding::Outboard => outboard_source(rt, alloc, mode, input, size, WORKERS),
        Encoding::Slice { start, len } => {
            slice_source(rt, alloc, mode, input, size, start, len, WORKERS)
        }
    };
    match made {
        Ok(made) => Ok(Some(made)),
        Err(ReadFault::Memory) => Err(AllocError),
        Err(ReadFault::Reader) => Ok(None),
    }
}

// The outboard encoding, where there is memory for it, too.
fn parents_by_position<R: Threads + Sync, I: Source + Sync>(
    rt: &R,
    alloc: Global,
    mode: &Mode,
    input: &I,
    size: u64,
) -> Option<(Hash, Vec<Vec<u8>>)>
    ensures long { IfSome result (λ _. 4194304 ≤ size) }
    ensures all { IfSome result (λ made. IfSome (I.contents input.now) (λ s. IsMadeEncoding mode.now KindOf.Outboard size s made.0.0 (joined made.1.items))) }
    ensures some { IfSome result (λ made. (bytes : List ℕ) × IsMadeEncoding mode.now KindOf.Outboard size bytes made.0.0 (joined made.1.items)) }
{
    match encoding_by_position(rt, alloc, mode, Encoding::Outboard, input, size) {
        Ok(found) => found,
        Err(_) => None,
    }
}

// All texts in one, with room for `len` bytes from the start. Each is given back as soon as it was taken over.
fn in_one(alloc: Global, texts: Vec<Vec<u8>>, len: u128) -> Option<Vec<u8>>
    ensures { IfSome result (λ all. all.items ≡ joined texts.items) }
{
    let len = usize::try_from(len).ok()?;
    let mut all = Vec::with_capacity(alloc, len).ok()?;
    'texts: for text in texts {
        all.extend_from_slice(text.as_slice()).ok()?;
    }
    Some(all)
}

// What a first pass over an input keeps for the second one: the hash, the outboard encoding, and room for the pieces.
#[derive(Drop)]
struct Kept {
    hash: Hash,
    text: Vec<u8>,
    pieces: Pieces,
}

// A first pass over an input that is said to have `size` bytes. Where the bytes are few or not so many, and where a read or
// memory fails, nothing is kept.
fn kept_by_position<R: Threads + Sync, I: Source + Sync>(
    rt: &R,
    alloc: Global,
    mode: &Mode,
    input: &I,
    size: u64,
) -> Option<Kept>
    ensures long { IfSome result (λ _. 4194304 ≤ size) }
    ensures pieces { IfSome result (λ kept. AreUnread kept.pieces) }
    ensures all { IfSome result (λ kept. IfSome (I.contents input.now) (λ s. IsMadeEncoding mode.now KindOf.Outboard size s kept.hash.0 kept.text.items)) }
    ensures some { IfSome result (λ kept. (bytes : List ℕ) × IsMadeEncoding mode.now KindOf.Outboard size bytes kept.hash.0 kept.text.items) }
{
    let (hash, texts) = parents_by_position(rt, alloc, mode, input, size)?;
    let text = in_one(alloc, texts, outboard_len(size))?;
    let pieces = Pieces::new(alloc).ok()?;
    Some(Kept { hash, text, pieces })
}

// A fault of a second pass, as one of the program.
fn fault_again<'a>(fault: AgainFault, file: &'a str, path: &'a str) -> FileFault<'a>
    ensures { result ≡ fault_at_paths file.entry path.entry fault }
{
    match fault {
        AgainFault::Input => FileFault::Read(file),
        AgainFault::Output => FileFault::Write(path),
    }
}

// A second pass, which writes the combined encoding to the file at `path`, of bytes that have the hash which the first one kept.
fn encode_again<'a, R: Threads + Sync, I: Source + Sync, W: Write>(
    rt: &R,
    mode: &Mode,
    input: &I,
    size: u64,
    kept: Kept,
    file: &'a str,
    out: &mut W,
    path: &'a str,
) -> Result<Hash, FileFault<'a>>
    requires long { 1024 < size }
    requires text { length kept.text.items ≡ 8 + 64 * (chunk_count size - 1) }
    requires pieces { AreUnread kept.pieces }
    ensures { (bytes : List ℕ) → IsMadeEncoding mode.now KindOf.Outboard size bytes kept.hash.0 kept.text.items
        → EncodesLike (I.contents input.now) mode.now bytes file.entry path.entry (W.contents out.old) (W.contents out.new) result }
{
    let Kept {
        hash,
        text,
        mut pieces,
    } = kept;
    let written = write_again(rt, mode, input, size, text.as_slice(), &mut pieces, out);
    match written {
        Ok(()) => Ok(hash),
        Err(fault) => Err(fault_again(fault, file, path)),
    }
}

// The answer of writing an encoding to the file at `path`, as a fault of the program.
fn answer_at<'a>(written: Result<Hash, WriteFault>, path: &'a str) -> Result<Hash, FileFault<'a>>
    ensures { result ≡ answer_at_path path.entry written }
{
    match written {
        Ok(hash) => Ok(hash),
        Err(WriteFault::Memory) => Err(FileFault::Encoding),
        Err(WriteFault::Writer { .. }) => Err(FileFault::Write(path)),
    }
}

/// Writes this encoding in `mode` of all that `input`, the file at `file`, has to `out`, the file at `path`,
/// and returns the hash.
///
/// An input that is said to have a `size` of at least 4 MiB is read by position, 256 KiB at a time, by several
/// threads. An outboard encoding then takes memory for a sixteenth of the bytes, and a slice for its range. A
/// combined encoding takes two passes: the first makes the parents, a sixteenth of the bytes, and the second
/// reads the input again on two threads, verifies it by the parents, and meanwhile writes it with them. If the
/// first pass gives nothing, and for a shorter input, all is read into memory: by position if the input has as
/// many bytes as it is said to have, else from where it is. The faults are then those of this reading.
///
/// Refuses with `Memory` for the input's bytes and with `Encoding` for the encoding; nothing is then written.
/// Refuses with `Read` and the input's path if a read fails; nothing is then written either, except in the
/// second pass, where `Read` also means that the input has other bytes than before, and a beginning of the
/// encoding of bytes with the same hash may be written. Refuses with `Write` and the other path if writing
/// fails: exactly a beginning of the encoding was then written, and not all.
pub fn encode_input<'a, R: Threads + Sync + AllocGlobal, I: Read + Source + Sync, W: Write>(
    rt: &R,
    mode: &Mode,
    encoding: Encoding,
    input: &mut I,
    size: u64,
    file: &'a str,
    out: &mut W,
    path: &'a str,
) -> Result<Hash, FileFault<'a>>
    ensures all { IfSome (I.contents input.old) (λ s. I.remaining input.old ≡ Some s
        → Encodes mode.now encoding s file.entry path.entry (W.contents out.old) (W.contents out.new) result) }
    ensures some { (bytes : List ℕ) × AreBytes bytes × Encodes mode.now encoding bytes file.entry path.entry (W.contents out.old) (W.contents out.new) result }
    ensures read { IfErr result (λ fault. fault ≡ FileFault.Read file.entry → IsReadOnce encoding size → HasOther (I.contents input.old) (I.faultless input.old) size) }
{
    let alloc = rt.alloc();
    if let Encoding::Combined = encoding
        && let Some(kept) = kept_by_position(rt, alloc, mode, input, size)
    {
        return encode_again(rt, mode, input, size, kept, file, out, path);
    }
    let bytes = match encoding_by_position(rt, alloc, mode, encoding, input, size) {
        Ok(Some(made)) => return answer_at(send_all(made, out), path),
        Ok(None) if size >= LEAST_SHARED_LEN => read_input(alloc, input, size, file)?,
        Ok(None) | Err(_) => read_placed(alloc, input, size, file)?,
    };
    // A law, so that the proof has what it says: nothing runs.
    bytes_are(bytes.as_slice());
    let written = write_encoding(alloc, mode, encoding, bytes.as_slice(), out);
    answer_at(written, path)
}

/// Writes this encoding in `mode` of the file at `file` to the file at `path`, which it replaces, both on
/// `disk`, and returns the hash. The progress of a file that is said to have at least 4 MiB is reported to
/// `progress`, which doesn't affect the result.
///
/// After a refusal all files are unchanged, if the one at `path` can be replaced atomically
/// ([`Disk::is_replaced`]). If it can't, such as a device, they are unchanged after `Read`, if the file can't
/// be opened or read, and after `Memory` and `Encoding`. After `Write` a beginning of the encoding may be
/// there, and so after `Read` in the second pass of a combined encoding, if the file can't be read again or has
/// changed. If the two paths are of one file, under any names, that can't be replaced, it is read as a whole
/// before it is written.
///
/// On a disk where only memory can be refused, a file with known contents is refused only for memory or because
/// writing failed. A combined encoding of 4 MiB or more, which is written while the file is read again, may
/// also be refused for that.
pub fn encode_on<'a, R: AllocGlobal + Threads + Sync, D: Disk, P: Progress + Sync>(
    rt: &R,
    disk: &mut D,
    mode: &Mode,
    encoding: Encoding,
    file: &'a str,
    path: &'a str,
    progress: &P,
) -> Result<Hash, FileFault<'a>>
    ensures done { IfOk result (λ h. (bytes : List ℕ) × AreOf (D.at disk.old file.now) bytes × (h.0 ≡ hash mode.now bytes)
        × Puts (D.at disk.old) (D.at disk.new) path.now (Some (encoding_text mode.now encoding bytes))) }
    ensures kept { OnErr result (KeepsFiles (D.at disk.old) (D.at disk.new)) }
    ensures refused { IfErr result (λ fault. D.faultless disk.old → IsKnown (D.at disk.old path.now) → (bytes : List ℕ) → D.at disk.old file.now ≡ Stored bytes
        → IsReadOnce encoding (length bytes) → IsAfterReading path.entry fault) }
    ensures absent { IfErr result (λ fault. D.at disk.old file.now ≡ Absent → (fault ≡ FileFault.Memory) ⊎ (fault ≡ FileFault.Read file.entry)) }
    ensures fault { IfErr result IsQuiet }
    ensures paths { IfErr result (NamesPaths file.entry path.entry) }
{
    let input = disk.open(file)?;
    let Ok(mut out) = disk.draft(path) else {
        return Err(FileFault::Memory);
    };
    // OUT may be the file itself: then all of it is read before it is written over.
    let size = if !disk.is_replaced(&out) && disk.is_same(&input, path) {
        0
    } else {
        size_of(disk, &input, file)?
    };
    let shown = (size >= LEAST_SHARED_LEN).then_some(size);
    let mut input = Shown::over(input, shown, progress);
    let hash = encode_input(rt, mode, encoding, &mut input, size, file, &mut out, path)?;
    disk.finish(out, path)?;
    Ok(hash)
}
