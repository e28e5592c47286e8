ghost use Rattle.std.specs.Prelude.{◌≡◌, ℕ, List, [], ◌++◌, ◌⊎◌, length, IfErr, IfOk, IfSome, None, Ok, OnErr, OnOk, Some};
ghost use Rattle.std.specs.Io.KnownBytes.{IsAtEnd};
ghost use Rattle.bao_files.specs.Reading.{AppendsTaken};
ghost use Rattle.b3par.specs.Given.{HasOther};

use crate::fault::FileFault;
use b3par::{Source, ends_at, fill};
use std::alloc::{AllocError, Global};
use std::fs;
use std::fs::OpenFile;
use std::io::Read;
use std::os::unix::fs::MetadataExt;
use std::rt::Files;

// The most bytes that one read asks for.
const READ_LEN: usize = 1 << 18;

// A file of fewer bytes isn't worth threads.
pub(crate) const LEAST_SHARED_LEN: u64 = 4 << 20;

/// Why a reader was not read to its end.
#[derive(Clone, Copy, Debug, PartialEq, Eq)]
pub enum InputFault {
    /// Out of memory.
    Memory,
    /// A read failed, for any reason.
    Reader,
}

impl InputFault {
    /// Returns the number of the fault: none.
    pub fn code(&self) -> Option<u16>
        ensures { result ≡ None }
    {
        None
    }
}

// Appends what one read gives, and answers how many bytes that is: none only at the reader's end. A fault
// leaves the bytes as they were.
fn read_some<R: Read>(reader: &mut R, bytes: &mut Vec<u8>) -> Result<usize, InputFault>
    ensures ok { IfOk result (λ count. (taken : List ℕ) × (length taken ≡ count)
        × AppendsTaken (R.remaining reader.old) (R.remaining reader.new) bytes.old.items bytes.new.items taken) }
    ensures end { IfOk result (λ count. count ≡ 0 → IsAtEnd (R.remaining reader.new)) }
    ensures err { OnErr result (AppendsTaken (R.remaining reader.old) (R.remaining reader.new) bytes.old.items bytes.new.items []) }
{
    let start = bytes.len();
    if bytes.resize(start.saturating_add(READ_LEN), 0).is_err() {
        return Err(InputFault::Memory);
    }
    match reader.read(&mut bytes.as_mut_slice()[start..]) {
        Ok(count) => {
            bytes.truncate(start + count);
            Ok(count)
        }
        Err(_) => {
            bytes.truncate(start);
            Err(InputFault::Reader)
        }
    }
}

/// Appends all that `reader` has left to `bytes`, which grow geometrically.
///
/// Refuses with `Memory`, and with `Reader` if a read fails (also with the kind `Interrupted`; it isn't
/// retried). `bytes` then has what was read.
pub fn read_whole<R: Read>(reader: &mut R, bytes: &mut Vec<u8>) -> Result<(), InputFault>
    ensures all { OnOk result (IfSome (R.remaining reader.old) (λ left. bytes.new.items ≡ bytes.old.items ++ left)) }
    ensures end { OnOk result (IsAtEnd (R.remaining reader.new)) }
    ensures read { (taken : List ℕ) × AppendsTaken (R.remaining reader.old) (R.remaining reader.new) bytes.old.items bytes.new.items taken }
{
    'reads: loop {
        if read_some(reader, bytes)? == 0 {
            return Ok(());
        }
    }
}

/// Appends all that `reader` has left, as `read_whole` does, if it is said to have `size` bytes: memory for
/// these is taken first, so that bytes are moved at most once. If that memory is refused, nothing was read.
pub fn read_sized<R: Read>(reader: &mut R, size: u64, bytes: &mut Vec<u8>) -> Result<(), InputFault>
    ensures all { OnOk result (IfSome (R.remaining reader.old) (λ left. bytes.new.items ≡ bytes.old.items ++ left)) }
    ensures end { OnOk result (IsAtEnd (R.remaining reader.new)) }
    ensures read { (taken : List ℕ) × AppendsTaken (R.remaining reader.old) (R.remaining reader.new) bytes.old.items bytes.new.items taken }
{
    let room = usize::try_from(size)
        .unwrap_or(usize::MAX)
        .saturating_add(READ_LEN);
    if bytes.reserve(room).is_err() {
        return Err(InputFault::Memory);
    }
    read_whole(reader, bytes)
}

/// The path that means standard input where a file is read. A file of this name is read as `./-`.
pub const STANDARD_INPUT: &str = "-";

/// Opens the file at `path` to be read; `-` is standard input. Refuses with `Read` if it can't be opened.
pub fn open_file<'a, R: Files>(rt: &R, path: &'a str) -> Result<R::File, FileFault<'a>>
    ensures { IfErr result (λ fault. fault ≡ FileFault.Read path.entry) }
{
    let opened = if path == STANDARD_INPUT {
        fs::open(rt, "/dev/stdin")
    } else {
        fs::open(rt, path)
    };
    match opened {
        Ok(file) => Ok(file),
        Err(_) => Err(FileFault::Read(path)),
    }
}

// How many bytes the file at `path` says it has.
fn size_of<'a, F: OpenFile>(file: &F, path: &'a str) -> Result<u64, FileFault<'a>>
    ensures { IfErr result (λ fault. fault ≡ FileFault.Read path.entry) }
{
    match file.metadata() {
        Ok(metadata) => Ok(metadata.len()),
        Err(_) => Err(FileFault::Read(path)),
    }
}

/// Returns whether the file at `path` is this one, under any name, so that it can't be read any more once
/// `path` is recreated.
pub(crate) fn is_same_file<R: Files, F: OpenFile>(rt: &R, file: &F, path: &str) -> bool {
    match (file.metadata(), fs::metadata(rt, path)) {
        (Ok(ours), Ok(theirs)) => ours.dev() == theirs.dev() && ours.ino() == theirs.ino(),
        _ => false,
    }
}

/// Returns all that `input`, the file at `path`, has left.
///
/// Refuses with `Read` if a read fails, and with `Memory`. Memory for the `size` that the file claims is taken
/// first, so that bytes are moved at most once; the claim has no other effect.
pub fn read_input<'a, I: Read>(
    alloc: Global,
    input: &mut I,
    size: u64,
    path: &'a str,
) -> Result<Vec<u8>, FileFault<'a>>
    ensures all { IfOk result (λ bytes. IfSome (I.remaining input.old) (λ left. bytes.items ≡ left)) }
    ensures fault { IfErr result (λ fault. (fault ≡ FileFault.Memory) ⊎ (fault ≡ FileFault.Read path.entry)) }
{
    let mut bytes = Vec::new(alloc);
    match read_sized(input, size, &mut bytes) {
        Ok(()) => Ok(bytes),
        Err(InputFault::Memory) => Err(FileFault::Memory),
        Err(InputFault::Reader) => Err(FileFault::Read(path)),
    }
}

// All bytes of a source that is read by position and is said to have `size` of them. There are none where it has fewer or more, and where a read fails.
fn placed_bytes<S: Source>(
    alloc: Global,
    source: &S,
    size: u64,
) -> Result<Option<Vec<u8>>, AllocError>
    ensures all { IfOk result (λ found. IfSome found (λ bytes. IfSome (S.contents source.now) (λ s. bytes.items ≡ s))) }
    ensures other { result ≡ Ok None → HasOther (S.contents source.now) (S.faultless source.now) size }
{
    let mut bytes = vec![in alloc; 0u8; size as usize]?;
    if fill(source, 0, bytes.as_mut_slice()).is_err() {
        return Ok(None);
    }
    if !ends_at(source, size) {
        return Ok(None);
    }
    Ok(Some(bytes))
}

// As `read_input`, of an input that can also be read by position: so it is read first, where it has as many bytes as the file claims.
pub(crate) fn read_placed<'a, I: Read + Source>(
    alloc: Global,
    input: &mut I,
    size: u64,
    path: &'a str,
) -> Result<Vec<u8>, FileFault<'a>>
    ensures all { IfOk result (λ bytes. IfSome (I.contents input.old) (λ s. I.remaining input.old ≡ Some s → bytes.items ≡ s)) }
    ensures fault { IfErr result (λ fault. (fault ≡ FileFault.Memory) ⊎ (fault ≡ FileFault.Read path.entry)) }
    ensures other { IfErr result (λ fault. fault ≡ FileFault.Read path.entry → HasOther (I.contents input.old) (I.faultless input.old) size) }
{
    match placed_bytes(alloc, input, size) {
        Ok(Some(bytes)) => Ok(bytes),
        Ok(None) => read_input(alloc, input, size, path),
        Err(_) => Err(FileFault::Memory),
    }
}

/// Returns all bytes of the file at `path`, as `read_input` does. Refuses with `Read` also if it can't be
/// opened.
pub fn read_file<'a, R: Files + AllocGlobal>(
    rt: &R,
    path: &'a str,
) -> Result<Vec<u8>, FileFault<'a>>
    ensures { IfErr result (λ fault. (fault ≡ FileFault.Memory) ⊎ (fault ≡ FileFault.Read path.entry)) }
{
    let mut file = open_file(rt, path)?;
    let size = size_of(&file, path)?;
    read_input(rt.alloc(), &mut file, size, path)
}
