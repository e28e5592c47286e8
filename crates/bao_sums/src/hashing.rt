ghost use Rattle.std.specs.Prelude.{◌≡◌, ◌⊎◌, ◌++◌, ◌∷◌, [], ℕ, Bool, if◌then◌else◌, All, IfErr, IfOk};
ghost use Rattle.std.specs.List.{list_all};
ghost use Rattle.std.specs.Io.KnownBytes.{Appends};
ghost use Rattle.b3tree.specs.Hashing.{hash};
ghost use Rattle.bao_files.specs.Printed.{Prints, digits_line};
ghost use Rattle.bao_files.specs.declared.fault.FileFault.TheVariants as FileFault;
ghost use Rattle.bao_sums.specs.Each.{LeavesFirst, PrintsEach, lines_of};
ghost use Rattle.bao_sums.specs.Early.{IsHashedEarly};
ghost use Rattle.bao_sums.specs.Steps.{LeavesOne, PrintsOne};
ghost use Rattle.bao_sums.specs.Hashed.{AllKnown, IsReadingAt, hash_line, is_given, paths_of, readings_in};
ghost use Rattle.bao_sums.specs.Sums.{sum_line};

use crate::ahead::Ahead;
use crate::lines::sum_line;
use crate::logic::{both, path_at};
use crate::one::len_at;
use crate::report::{Telling, tell_unread};
use b3tree::{Hash, Mode};
use bao_files::{Disk, FileFault, Progress, print_digits, print_text};
use std::alloc::{AllocError, Global};
use std::io::Write;
use std::thread::Threads;

/// Files to be hashed.
#[derive(Clone, Copy)]
pub struct Hashing<'a> {
    /// The mode of the hashes.
    pub mode: &'a Mode,
    /// The paths of the files; `-` is standard input.
    pub files: &'a [&'a str],
    /// Whether each hash is printed with its path.
    pub names: bool,
    /// How it is told which files can't be read.
    pub telling: Telling<'a>,
}

// The line of a hash and a path.
fn named_line(alloc: Global, hash: &Hash, path: &[u8]) -> Result<Vec<u8>, AllocError>
    ensures { IfOk result (λ line. line.items ≡ sum_line hash.now.0 path.now ++ 10 ∷ []) }
{
    let mut line = sum_line(alloc, hash, path)?;
    line.push(b'\n')?;
    Ok(line)
}

// Prints the line of a file.
fn print_hash<'a, O: Write>(
    alloc: Global,
    names: bool,
    path: &str,
    hash: &Hash,
    out: &mut O,
) -> Result<(), FileFault<'a>>
    ensures prints { Prints (if names then sum_line hash.now.0 path.now ++ 10 ∷ [] else digits_line hash.now.0) (O.contents out.old) (O.contents out.new) result }
    ensures fault { IfErr result (λ fault. (fault ≡ FileFault.Memory) ⊎ (fault ≡ FileFault.Output)) }
{
    if !names {
        return print_digits(alloc, &hash.0, out);
    }
    let line = named_line(alloc, hash, path.as_bytes())?;
    print_text(line.as_slice(), out)
}

// Tells `progress` how many files and bytes there are to read.
fn begin<D: Disk, P: Progress>(disk: &D, files: &[&str], progress: &P) {
    if !progress.is_shown() {
        return;
    }
    let mut total: u64 = 0;
    for path in files {
        total = total.saturating_add(len_at(disk, path));
    }
    progress.begin_files(files.len() as u64, total);
}

// Prints the line of the file at `path`, or reports that it can't be read. Returns whether it was.
fn hash_one<'a, R: AllocGlobal + Threads + Sync, D: Disk, O: Write, E: Write, P: Progress + Sync>(
    rt: &R,
    disk: &D,
    hashing: &Hashing<'_>,
    ahead: &mut Ahead<'_>,
    path: &str,
    out: &mut O,
    err: &mut E,
    progress: &P,
) -> Result<bool, FileFault<'a>>
    requires { All (IsHashedEarly (D.at disk.now) hashing.now.mode.now) ahead.old.early.items }
    ensures same { ahead.new.early ≡ ahead.old.early }
    ensures one { IfOk result (λ whole. PrintsOne (IsReadingAt (D.faultless disk.now) (D.at disk.now)) (hash_line hashing.now.mode.now hashing.now.names) path.now
        (O.contents out.old) (O.contents out.new) (λ reading. whole ≡ is_given reading)) }
    ensures fault { IfErr result (LeavesOne (IsReadingAt (D.faultless disk.now) (D.at disk.now)) (hash_line hashing.now.mode.now hashing.now.names) path.now
        (O.contents out.old) (O.contents out.new)) }
{
    match ahead.hash_at(rt, disk, hashing.mode, path, progress)? {
        Some(hash) => {
            print_hash(rt.alloc(), hashing.names, path, &hash, out)?;
            Ok(true)
        }
        None => {
            tell_unread(hashing.telling, disk, path, err);
            Ok(false)
        }
    }
}

/// Prints the hashes of files to `out`, in their order, a line each: with `names` as `b3sum` prints it, else the 64
/// lower-case hexadecimal digits. Each line is flushed as soon as its hash is known.
///
/// A file that can't be read has no line: it is told on `err`, and the others are hashed. Returns whether all
/// were read. Regular files of fewer than 1 MiB are hashed side by side, those among 64 files at a time; a larger one is
/// hashed by several threads. `progress` is told how many files and bytes there are, and what was read. The memory doesn't
/// grow with the files.
///
/// Refuses with `Memory`, when the lines of the first files have been printed, and with `Output`, when a beginning of
/// such lines has been.
pub fn hash_files<
    'a,
    R: AllocGlobal + Threads + Sync,
    D: Disk,
    O: Write,
    E: Write,
    P: Progress + Sync,
>(
    rt: &R,
    disk: &D,
    hashing: &Hashing<'_>,
    out: &mut O,
    err: &mut E,
    progress: &P,
) -> Result<bool, FileFault<'a>>
    ensures each { IfOk result (λ whole. PrintsEach (IsReadingAt (D.faultless disk.now) (D.at disk.now)) (hash_line hashing.now.mode.now hashing.now.names) (paths_of hashing.now.files.now)
        (O.contents out.old) (O.contents out.new) (λ readings. whole ≡ list_all is_given readings)) }
    ensures fault { IfErr result (LeavesFirst (IsReadingAt (D.faultless disk.now) (D.at disk.now)) (hash_line hashing.now.mode.now hashing.now.names) (paths_of hashing.now.files.now)
        (O.contents out.old) (O.contents out.new)) }
    ensures known { D.faultless disk.now → AllKnown (D.at disk.now) (paths_of hashing.now.files.now) → IfOk result (λ whole.
        (whole ≡ list_all is_given (readings_in (D.at disk.now) (paths_of hashing.now.files.now)))
        × Appends (O.contents out.old) (O.contents out.new) (lines_of (hash_line hashing.now.mode.now hashing.now.names) (paths_of hashing.now.files.now) (readings_in (D.at disk.now) (paths_of hashing.now.files.now)))) }
{
    let files = hashing.files;
    begin(disk, files, progress);
    let mut ahead = Ahead::new(rt.alloc());
    let mut whole = true;
    'items: for index in 0..files.len() {
        ahead.go_on(rt, disk, hashing.mode, index, &files[index..]);
        let path = path_at(files, index);
        let is_given = hash_one(rt, disk, hashing, &mut ahead, path, out, err, progress)?;
        whole = both(whole, is_given);
    }
    Ok(whole)
}
