ghost use Rattle.std.specs.Prelude.{◌≡◌, ◌≢◌, ℕ, [], IfErr, IfOk, IfSome, OnOk, Some, take, true};
ghost use Rattle.std.specs.Io.KnownBytes.{Appends};
ghost use Rattle.bao_files.specs.Disks.{Absent, IsStored};
ghost use Rattle.bao_files.specs.declared.fault.FileFault.TheVariants as FileFault;
ghost use Rattle.bao_tasks.specs.FromFiles.{taken_bytes};
ghost use Rattle.bao_tasks.specs.Givens.{given_contents, is_given_faultless, most_bytes};

use b3par::Source;
use bao_files::{Disk, FileFault, read_input};
use bao_text::encoded_len;
use holders::Form;
use std::alloc::Global;
use std::io;
use std::io::{Read, Write};

// How many bytes are copied at a time.
const COPY_LEN: usize = 1 << 16;

/// The bytes of a file that a blob is gathered from. A regular file is read by position; the bytes of any other
/// are copied to a draft, or held in memory.
#[derive(Drop)]
pub enum Given<I> {
    /// An open regular file, or a draft that is read back.
    Placed(I),
    /// The bytes read from a file that can't be read by position, such as a pipe.
    Held(Vec<u8>),
}

impl<I: Source> Source for Given<I> {
    ghost use Rattle.bao_tasks.specs.Givens.{given_contents, is_given_faultless};

    ghost contents = { given_contents I.contents };

    ghost faultless = { is_given_faultless I.faultless };

    fn read_at(&self, buf: &mut [u8], at: u64) -> io::Result<usize> {
        match self {
            Given::Placed(file) => file.read_at(buf, at),
            Given::Held(text) => text.as_slice().read_at(buf, at),
        }
    }

    fn at_hand(&self) -> Option<&[u8]> {
        match self {
            Given::Placed(file) => file.at_hand(),
            Given::Held(text) => Some(text.as_slice()),
        }
    }
}

/// A file that was opened: its bytes, how many they are, and whether it has more, which aren't read.
#[derive(Drop)]
pub(crate) struct Opened<I> {
    pub(crate) given: Given<I>,
    pub(crate) len: u64,
    pub(crate) is_cut: bool,
}

/// Opens a regular file. Its length is the one that the disk reports, or 0 if it reports none.
///
/// Refuses with `Read` and the path if the file can't be opened or a first read of it fails, and with `Memory` if
/// there is none to open it.
pub(crate) fn placed<'a, D: Disk>(
    disk: &D,
    path: &'a str,
) -> Result<Opened<D::Input>, FileFault<'a>>
    ensures bytes { IfOk result (λ made. (most : ℕ) → IfSome (taken_bytes true most (D.at disk.now path.now)) (λ bytes. given_contents D.Input.contents made.given ≡ Some bytes)) }
    ensures sure { IfOk result (λ made. D.faultless disk.now → is_given_faultless D.Input.faultless made.given) }
    ensures found { OnOk result (D.at disk.now path.now ≢ Absent) }
    ensures there { IfErr result (λ fault. D.faultless disk.now → IsStored (D.at disk.now path.now) → fault ≡ FileFault.Memory) }
{
    let file = disk.open(path)?;
    if file.read_at(&mut [0], 0).is_err() {
        return Err(FileFault::Read(path));
    }
    let len = match disk.extent(&file) {
        Some(extent) => extent.len,
        None => 0,
    };
    Ok(Opened {
        given: Given::Placed(file),
        len,
        is_cut: false,
    })
}

/// How many bytes of a file can help to gather a blob of at most `len` bytes: those of the longest encoding, or copy,
/// and one more, but fewer than 2^64.
pub(crate) fn most_bytes(form: &Form<'_>, len: u64) -> u64
    ensures { result ≡ most_bytes form.now len }
{
    match form {
        Form::Slices => u64::try_from(encoded_len(len) + 1).unwrap_or(u64::MAX),
        Form::Bare(_) => len.saturating_add(1),
    }
}

/// Reads `input`, the file at `path`, into memory: its first `most` bytes, or all if it has fewer.
///
/// Refuses with `Read` and the path if a read fails, and with `Memory` if there is none for the bytes.
pub(crate) fn held<'a, I: Read + Source + Drop>(
    alloc: Global,
    input: I,
    most: u64,
    path: &'a str,
) -> Result<Opened<I>, FileFault<'a>>
    ensures bytes { IfOk result (λ made. IfSome (I.remaining input) (λ left. given_contents I.contents made.given ≡ Some (take most left))) }
    ensures sure { IfOk result (λ made. is_given_faultless I.faultless made.given) }
{
    let mut input = input.take(most);
    let text = read_input(alloc, &mut input, 0, path)?;
    let len = text.len() as u64;
    Ok(Opened {
        given: Given::Held(text),
        len,
        is_cut: len >= most,
    })
}

/// Returns an empty draft of the file at `beside`, to copy a file to, if a draft can be written and isn't written to
/// `beside` itself.
pub(crate) fn spool<D: Disk>(disk: &D, beside: &str) -> Option<D::Draft>
    ensures { IfSome result (λ draft. D.faultless disk.now → D.Draft.contents draft ≡ Some []) }
{
    let mut draft = disk.draft(beside).ok()?;
    if !disk.is_replaced(&draft) {
        return None;
    }
    draft.flush().ok()?;
    Some(draft)
}

// Copies what `input`, the file at `path`, has left to a draft of the file at `beside`, and returns how many bytes that is.
fn copy_rest<'a, I: Read, W: Write>(
    input: &mut I,
    path: &'a str,
    draft: &mut W,
    beside: &'a str,
) -> Result<u64, FileFault<'a>>
    ensures { OnOk result (IfSome (I.remaining input.old) (Appends (W.contents draft.old) (W.contents draft.new))) }
{
    let mut buf = [0; COPY_LEN];
    let mut len = 0u64;
    'copies: for _ in 0..u64::MAX {
        let Ok(count) = input.read(&mut buf) else {
            return Err(FileFault::Read(path));
        };
        if count == 0 {
            return Ok(len);
        }
        let Ok(()) = draft.write_all(&buf[..count]) else {
            return Err(FileFault::Write(beside));
        };
        len = len.saturating_add(count as u64);
    }
    Err(FileFault::Read(path))
}

/// Copies `input`, the file at `path`, to `draft`, an empty draft of the file at `beside`: its first `most` bytes, or all
/// if it has fewer. The draft is gone as soon as the copy isn't used any more.
///
/// Refuses with `Read` and the path if a read fails, with `Write` and `beside` if the draft can't be written or read back,
/// and with `Memory`.
pub(crate) fn spooled<'a, D: Disk>(
    disk: &D,
    input: D::Input,
    draft: D::Draft,
    most: u64,
    path: &'a str,
    beside: &'a str,
) -> Result<Opened<D::Input>, FileFault<'a>>
    requires { D.faultless disk.now → D.Draft.contents draft ≡ Some [] }
    ensures bytes { IfOk result (λ made. D.faultless disk.now → IfSome (D.Input.remaining input) (λ left. given_contents D.Input.contents made.given ≡ Some (take most left))) }
    ensures sure { IfOk result (λ made. D.faultless disk.now → is_given_faultless D.Input.faultless made.given) }
{
    let mut draft = draft;
    let mut input = input.take(most);
    let len = copy_rest(&mut input, path, &mut draft, beside)?;
    let copy = disk.read_back(draft, beside)?;
    Ok(Opened {
        given: Given::Placed(copy),
        len,
        is_cut: len >= most,
    })
}
