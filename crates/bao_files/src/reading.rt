ghost use Rattle.std.specs.Prelude.{◌≡◌, ◌⊎◌, ◌+◌, ◌-◌, ◌^◌, ◌<◌, ◌≤◌, ℕ, List, ◌++◌, length, IfErr, IfOk, IfSome, OnOk, Some};
ghost use Rattle.std.specs.Io.KnownBytes.{Consumes, IsAtEnd};
ghost use Rattle.b3tree.specs.declared.mode.Mode.{Mode};
ghost use Rattle.b3tree.specs.Hashing.{stream};
ghost use Rattle.b3tree.specs.Taken.{Holds};
ghost use Rattle.b3tree.specs.Valid.{AreBytes};
ghost use Rattle.bao_files.specs.Disks.{AreOf};
ghost use Rattle.bao_files.specs.Printed.{OnOutput, Prints, digits_line};

use crate::digits::{print_digits, print_output};
use crate::disk::{Disk, len_hint};
use crate::fault::FileFault;
use crate::input::InputFault;
use crate::progress::Progress;
use crate::shown::Shown;
use b3par::{Source, WORKERS, hash_source};
use b3tree::{Hash, Hasher, Mode, bytes_are};
use std::alloc::Global;
use std::io::{Read, Write};
use std::thread::Threads;

// The most bytes that one read asks for: few enough to stay in a processor's cache.
const HASHED_LEN: usize = 1 << 20;

// The bytes of a hash, as far as extended output goes.
const HASH_LEN: u32 = 32;

// Has the hasher take in what one read gives, and answers how many bytes that is: none only at the reader's
// end.
fn hash_some<R: Read>(
    reader: &mut R,
    hasher: &mut Hasher,
    piece: &mut [u8],
) -> Result<usize, InputFault>
    requires { 0 < length piece.old }
    ensures room { length piece.new ≡ length piece.old }
    ensures taken { IfOk result (λ count. (taken : List ℕ) × Consumes (R.remaining reader.old) (R.remaining reader.new) taken × AreBytes taken
        × ((mode : Mode) (s : List ℕ) → Holds hasher.old mode s → Holds hasher.new mode (s ++ taken))) }
    ensures end { IfOk result (λ count. count ≡ 0 → IsAtEnd (R.remaining reader.new)) }
    ensures fault { IfErr result (λ fault. fault ≡ InputFault.Reader) }
{
    let count = match reader.read(piece) {
        Ok(count) => count,
        Err(_) => return Err(InputFault::Reader),
    };
    let taken = &piece[..count];
    // A law, so that the proof has what it says: nothing runs.
    bytes_are(taken);
    match hasher.update(taken) {
        Ok(()) => Ok(count),
        Err(_) => Err(InputFault::Reader),
    }
}

/// Returns a hasher of `mode` with all that `reader` has left as its input. `piece` is the buffer to read into.
///
/// Refuses with `Reader` if a read fails (also with the kind `Interrupted`; it isn't retried), or if there are
/// more than 2^64 - 1 bytes.
pub fn hash_reader<R: Read>(
    mode: &Mode,
    reader: &mut R,
    piece: &mut [u8],
) -> Result<Hasher, InputFault>
    requires { 0 < length piece.old }
    ensures all { IfOk result (λ hasher. IfSome (R.remaining reader.old) (λ left. Holds hasher mode.now left)) }
    ensures some { IfOk result (λ hasher. (bytes : List ℕ) × AreBytes bytes × Holds hasher mode.now bytes) }
    ensures end { OnOk result (IsAtEnd (R.remaining reader.new)) }
    ensures fault { IfErr result (λ fault. fault ≡ InputFault.Reader) }
{
    let mut hasher = Hasher::new(mode);
    'reads: for _ in 0..u64::MAX {
        if hash_some(reader, &mut hasher, piece)? == 0 {
            return Ok(hasher);
        }
    }
    Err(InputFault::Reader)
}

/// Writes `len` bytes of the extended output of all that `reader` has left in `mode`, from byte `at` of the
/// output on, to `out`, in lower-case hexadecimal digits, and a line end. At 0 the first 32 are the hash.
///
/// The memory doesn't grow with the number of bytes. Refuses with `Memory`, or with `Read` and the path if the
/// reader wasn't read to its end; nothing is then written. After `Output` a beginning of the line may be.
pub fn print_reader<'a, R: Read, W: Write>(
    alloc: Global,
    mode: &Mode,
    reader: &mut R,
    path: &'a str,
    at: u64,
    len: u32,
    out: &mut W,
) -> Result<(), FileFault<'a>>
    requires { at + len ≤ 2 ^ 64 - 1 }
    ensures all { IfSome (R.remaining reader.old) (λ left.
        Prints (digits_line (stream mode.now left at len)) (W.contents out.old) (W.contents out.new) result) }
    ensures some { (bytes : List ℕ) × AreBytes bytes × Prints (digits_line (stream mode.now bytes at len)) (W.contents out.old) (W.contents out.new) result }
    ensures end { OnOk result (IsAtEnd (R.remaining reader.new)) }
    ensures fault { IfErr result (λ fault. (fault ≡ FileFault.Memory) ⊎ (fault ≡ FileFault.Output) ⊎ (fault ≡ FileFault.Read path.entry)) }
{
    let mut piece = vec![in alloc; 0u8; HASHED_LEN].map_err(|_| FileFault::Memory)?;
    match hash_reader(mode, reader, piece.as_mut_slice()) {
        Ok(hasher) => print_output(alloc, &hasher, at, len, out),
        Err(_) => Err(FileFault::Read(path)),
    }
}

// The hash of the bytes of an input that is said to have `len` of them, on several threads. Where it hasn't, and
// where a read or memory fails, there is none. The input is read by position, so that it is left where it stood.
fn shared_hash<R: AllocGlobal + Threads + Sync, I: Source + Sync>(
    rt: &R,
    mode: &Mode,
    input: &I,
    len: Option<u64>,
) -> Option<Hash>
    ensures all { IfSome result (λ hash. IfSome (I.contents input.now) (λ s. hash.0 ≡ stream mode.now s 0 32)) }
    ensures some { IfSome result (λ hash. (bytes : List ℕ) × AreBytes bytes × (hash.0 ≡ stream mode.now bytes 0 32)) }
{
    hash_source(rt, rt.alloc(), mode, input, len?, WORKERS).ok()
}

/// Writes extended output as `print_reader` does, of an input that can also be read by position. If it is said
/// to have `len_hint` bytes and its hash is asked for, it is first read on several threads. If that gives no
/// hash, it is read from where it is on one thread, and the faults are those of that reading.
pub fn print_input<'a, R: AllocGlobal + Threads + Sync, I: Read + Source + Sync, W: Write>(
    rt: &R,
    mode: &Mode,
    input: &mut I,
    len_hint: Option<u64>,
    path: &'a str,
    at: u64,
    len: u32,
    out: &mut W,
) -> Result<(), FileFault<'a>>
    requires { at + len ≤ 2 ^ 64 - 1 }
    ensures all { IfSome (I.contents input.old) (λ s. I.remaining input.old ≡ Some s
        → Prints (digits_line (stream mode.now s at len)) (W.contents out.old) (W.contents out.new) result) }
    ensures some { (bytes : List ℕ) × AreBytes bytes × Prints (digits_line (stream mode.now bytes at len)) (W.contents out.old) (W.contents out.new) result }
    ensures fault { IfErr result (λ fault. (fault ≡ FileFault.Memory) ⊎ (fault ≡ FileFault.Output) ⊎ (fault ≡ FileFault.Read path.entry)) }
{
    if at == 0 && len == HASH_LEN {
        if let Some(hash) = shared_hash(rt, mode, input, len_hint) {
            return print_digits(rt.alloc(), &hash.0, out);
        }
    }
    print_reader(rt.alloc(), mode, input, path, at, len, out)
}

/// Writes extended output of the file at `file`, from its start on, as `print_input` does. Refuses with `Read`
/// also if it can't be opened. The progress of a file that is said to have at least 4 MiB is reported to
/// `progress`, which doesn't affect the result.
pub fn print_file<'a, R: AllocGlobal + Threads + Sync, D: Disk, W: Write, P: Progress + Sync>(
    rt: &R,
    disk: &D,
    mode: &Mode,
    file: &'a str,
    at: u64,
    len: u32,
    out: &mut W,
    progress: &P,
) -> Result<(), FileFault<'a>>
    requires { at + len ≤ 2 ^ 64 - 1 }
    ensures prints { (bytes : List ℕ) × OnOutput result (AreOf (D.at disk.now file.now) bytes)
        × Prints (digits_line (stream mode.now bytes at len)) (W.contents out.old) (W.contents out.new) result }
    ensures fault { IfErr result (λ fault. (fault ≡ FileFault.Memory) ⊎ (fault ≡ FileFault.Output) ⊎ (fault ≡ FileFault.Read file.entry)) }
{
    let input = disk.open(file)?;
    let hint = len_hint(disk, &input);
    let mut input = Shown::over(input, hint, progress);
    print_input(rt, mode, &mut input, hint, file, at, len, out)
}
