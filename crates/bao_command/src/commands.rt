ghost use Rattle.std.specs.Prelude.{◌≡◌, ◌≢◌, ◌⊎◌, ⊤, true, false, ◌+◌, ◌-◌, ◌^◌, ◌<◌, ◌≤◌, ℕ, List, Some, length, map, string_bytes, IfErr, IfOk, IsErr, IsErrAnd, OnErr, OnOk};
ghost use Rattle.bao_command.specs.declared.fault.Fault.TheVariants as Fault;
ghost use Rattle.std.specs.Io.KnownBytes.{Keeps};
ghost use Rattle.b3tree.specs.Hashing.{hash as hash_of, stream};
ghost use Rattle.clap.specs.Words.{kind_of};
ghost use Rattle.clap.specs.declared.error.kind.ErrorKind.TheVariants as ErrorKind;
ghost use Rattle.hex.specs.Hex.{decode_of};
ghost use Rattle.bao_request.specs.CommandLine.{IsHelp};
ghost use Rattle.bao_files.specs.Disks.{AreOf, KeepsFiles, Puts};
ghost use Rattle.bao_files.specs.Encoded.{encoding_text};
ghost use Rattle.bao_files.specs.Printed.{IsDigits, digits_line, ok_line};
ghost use Rattle.bao_files.specs.declared.fault.FileFault.{FileFault};
ghost use Rattle.bao_text.specs.declared.kinds.Part.TheVariants as Part;
ghost use Rattle.bao_decode.specs.Ranges.{IsVerifiedText, part_bytes, written_count};
ghost use Rattle.bao_decode.specs.declared.decode_fault.DecodeFault.{DecodeFault};
ghost use Rattle.bao_command.specs.Effects.{IsRelisted, Writes, list_of};
ghost use Rattle.bao_command.specs.Gaps.{LeavesListFor, LeavesListOf};
ghost use Rattle.bao_command.specs.Works.{CopiesRight, CutsRight, DecodesRight, EncodesRight, Leaves};
ghost use Rattle.bao_command.specs.ModeWords.{MixesKeys};
ghost use Rattle.bao_request.specs.declared.tasks.Request.{Request};
ghost use Rattle.bao_tasks.specs.declared.rerun_fault.RerunFault.{RerunFault};
ghost use Rattle.bao_command.specs.Outcome.{AreRefused, ArePassed, Begun, Done, IsEachFor, IsRefusable, IsUsage, LeavesAt, LeavesListAt};
ghost use Rattle.bao_command.specs.Printed.{CommandPrints, OnPrinted, told_of};
ghost use Rattle.bao_command.specs.Refused.{IsBlobFor, IsBlobOf, IsRefused, IsRefusedCopy, IsRefusedCut, IsRefusedFor, IsRefusedReplay, IsRefusedText, OfDigits};
ghost use Rattle.bao_command.specs.Surveys.{AreOfMany, AreOfOne, Surveyed};
ghost use Rattle.bao_command.specs.Status.{decode_status_of, rerun_status_of, status_of};
ghost use Rattle.bao_command.specs.Tasks.{Answers, HasBadLine, HasManyFiles, HasRoot, IfPassed, IsCutFrom, IsDue, IsNoCapacity, IsMixed, IsNoOutput, IsOfFile, IsPassed, IsPastOutput, IsReplay, IsRight, IsRightCopy, IsRightPart, LeavesFiles, LeavesFilesOf, ListClashes, ReadsList, ReadsOut, WritesApart, line_of, part_line};

use crate::fault::Fault;
use crate::gathering::{MOST_FILES, gather};
use crate::help::{show, shown_status};
use crate::lists::check_list;
use crate::mode::asked_mode;
use crate::places::check_places;
use crate::refused::{tell_beside, tell_cut, tell_encoding};
use crate::survey::conduct_survey;
use crate::unread::tell_why;
use b3tree::{Hash, Mode, xof_fits};
use bao_decode::{DecodeFault, decode_copy_on, decode_on, slice_beside_on, slice_on};
use bao_files::{
    Disk, FileFault, Once, Progress, bytes_of_digits, encode_on, print_count, print_digits,
    print_file, print_text,
};
use bao_request::{Asked, Request, Task, parse};
use bao_tasks::replay_on;
use bao_text::{Encoding, Part};
use clap::error::ErrorKind;
use std::alloc::Global;
use std::io::Write;
use std::thread::Threads;

// The default of `--capacity`, in chunks.
const MOST_CHUNKS: u32 = 65_536;

/// Runs the program on `words`, its name first, over the files on `disk`, with `out` and `err` as its standard output and
/// error, and returns the exit status: 0 success, 1 an encoding or a blob is refused, 2 wrong arguments, 3 a file can't be
/// read or written, 4 out of memory. While a file that is said to have at least 4 MiB is read, its progress is reported to
/// `progress`, which learns that the work is over before anything is printed.
///
/// At 0, `out` gets the line of the request that the arguments make. It is computed from the bytes of the request's files, or
/// of the gathered blob: those that a file is known to have, or else some bytes, each below 256. OUT holds what the request
/// writes, LIST is empty, and no other file has changed. If the arguments ask for help or the version, `out` gets that
/// instead, or a beginning of it if its reader closed the pipe.
///
/// At 3, `out` gets at most a beginning of the line, and after other faults nothing. All files are unchanged after each status
/// but 0, except LIST. But at 3 and 4 OUT may hold what it does at 0, if what comes after it failed: writing LIST, or printing
/// the line. LIST is unchanged at 2. If gathering fails with another status, LIST is made anew: it has the ranges that no FILE
/// has, and is empty if they aren't known; if it can't be written, the status stays, and a line on `err` says so.
///
/// All files are unchanged, too, and the status isn't 0, if OUT or LIST has a name of standard output or of a file that is
/// read, or both have one name. But OUT may be one of the FILEs that are gathered from.
///
/// On a disk without faults where the contents of OUT and of all FILEs are known, a gathering has put at OUT at 0 each blob
/// with ROOT, or its encoding; or two different inputs with one chaining value are exhibited, one from the blob and one made
/// of a FILE.
///
/// Arguments that `clap` refuses give 2, or 4 if out of memory. 2 comes only if there is a reason to refuse the arguments, the
/// key file or the script, as far as the files are known: two names with known contents lead to one file only if they are
/// equal. At 0 and 1 there is no reason to refuse the arguments or the key file. 1 comes only from a task that may refuse an
/// encoding or a blob, so not from `hash`, `encode`, `outboard` and `slice`.
///
/// If the files are known, 1 comes from decoding, from cutting a slice and from a schedule only if these very bytes have such
/// a fault, and never if the file, or the outboard encoding, doesn't exist. On a disk without faults it comes from gathering only
/// if no FILE is intact and the FILEs don't have the blob together, each group, or with `--salvage` each chunk, right in one of
/// them; or two different inputs with one chaining value are exhibited.
///
/// On such a disk, LIST is exact after 901, unless memory is refused: no FILE but standard input has a group, or with
/// `--salvage` a chunk, of its ranges, and some FILE has each other one that was looked for. After another fault of
/// gathering LIST is empty, if it is made anew.
///
/// `hash` with several files, `check` and `info` are surveys: `out` gets a line for each file, in order, and no file changes.
/// A file that can't be read has no line of `hash` and `info`, and `cannot read` in that of `check`, and the others get theirs.
/// With `--ranges` the line of a file that FAILED is followed by one for each of its damaged ranges, if its outboard file tells
/// them. The status is 1 if a file has another hash than its line in SUMS gives, and else 3 if one can't be read. After `Output`
/// or `Memory` a beginning of the lines was printed. Over files that are all known, on a disk without faults, the lines and the
/// status are exact. All that is said above of a status is about the other commands.
pub fn command<R: AllocGlobal + Threads + Sync, D: Disk, O: Write, E: Write, P: Progress + Sync>(
    rt: &R,
    disk: &mut D,
    words: &[String],
    out: &mut O,
    err: &mut E,
    progress: &P,
) -> u8
    ensures status { result ≤ 4 }
    ensures done { AreOfOne (map string_bytes words.now) → result ≡ 0 → Done (map string_bytes words.now) (D.at disk.old) (D.at disk.new) (O.contents out.old) (O.contents out.new) }
    ensures file_fault { AreOfOne (map string_bytes words.now) → result ≡ 3 → Begun (map string_bytes words.now) (D.at disk.old) (D.at disk.new) (O.contents out.old) (O.contents out.new) }
    ensures fault { AreOfOne (map string_bytes words.now) → result ≢ 0 → result ≢ 3 → Keeps (O.contents out.old) (O.contents out.new) }
    ensures files { result ≢ 0 → LeavesAt (map string_bytes words.now) (D.at disk.old) (D.at disk.new) result }
    ensures gaps { result ≢ 0 → LeavesListAt (map string_bytes words.now) (D.faultless disk.old) (D.at disk.old) (D.at disk.new) result }
    ensures refused { AreRefused (map string_bytes words.now) → (result ≡ 2) ⊎ (result ≡ 4) }
    ensures usage { AreOfOne (map string_bytes words.now) → result ≡ 2 → IsUsage (map string_bytes words.now) (D.at disk.old) }
    ensures blob { AreOfOne (map string_bytes words.now) → result ≡ 0 → IsEachFor (map string_bytes words.now) (D.faultless disk.old) (D.at disk.old) (D.at disk.new) (O.contents out.old) (O.contents out.new) }
    ensures refusal { AreOfOne (map string_bytes words.now) → result ≡ 1 → IsRefusable (map string_bytes words.now) (D.faultless disk.old) (D.at disk.old) }
    ensures passed { AreOfOne (map string_bytes words.now) → result ≡ 0 → ArePassed (map string_bytes words.now) (D.at disk.old) }
    ensures judged { AreOfOne (map string_bytes words.now) → result ≡ 1 → ArePassed (map string_bytes words.now) (D.at disk.old) }
    ensures surveyed { AreOfMany (map string_bytes words.now) → KeepsFiles (D.at disk.old) (D.at disk.new)
        × (((result ≡ 4) × Keeps (O.contents out.old) (O.contents out.new)) ⊎ Surveyed (map string_bytes words.now) (D.faultless disk.old) (D.at disk.old) (O.contents out.old) (O.contents out.new) result) }
{
    match parse(rt.alloc(), words) {
        Ok(Asked::Many(survey)) => conduct_survey(rt, disk, &survey, out, err, progress),
        Ok(Asked::One(request)) => match serve(rt, disk, &request, out, err, progress) {
            Ok(()) => 0,
            Err(fault) => {
                tell_why(disk, &request, fault, err);
                fault.report(err)
            }
        },
        Err(error) => answer_clap(rt.alloc(), &error, out, err),
    }
}

// Does what the request asks for. What `--verbose` reports goes to `err`.
fn serve<'a, R: AllocGlobal + Threads + Sync, D: Disk, O: Write, E: Write, P: Progress + Sync>(
    rt: &R,
    disk: &mut D,
    request: &Request<'a>,
    out: &mut O,
    err: &mut E,
    progress: &P,
) -> Result<(), Fault<'a>>
    ensures answer { Answers request.now (D.at disk.old) (D.at disk.new) (O.contents out.old) (O.contents out.new) result }
    ensures files { IfErr result (LeavesFilesOf (D.at disk.old) (D.at disk.new) request.now) }
    ensures refused { IfErr result (λ fault. status_of fault ≡ 1 → IsRefusedFor (D.faultless disk.old) (D.at disk.old) request.now) }
    ensures blob { OnOk result (IsBlobFor (D.faultless disk.old) (D.at disk.old) (D.at disk.new) request.now (O.contents out.old) (O.contents out.new)) }
    ensures root { ¬ HasRoot request.now.task → IsErrAnd result (λ fault. fault ≡ Fault.Root) }
    ensures mixed { HasRoot request.now.task → IsMixed request.now.task → IsErrAnd result (λ fault. fault ≡ Fault.LongAndCapacity) }
    ensures keys { HasRoot request.now.task → ¬ IsMixed request.now.task → MixesKeys request.now → IsErrAnd result (λ fault. fault ≡ Fault.KeyFileAndOthers) }
    ensures list { ListClashes request.now.task → IsErr result }
    ensures read { ReadsList request.now → IsErr result }
    ensures out { ReadsOut request.now → IsErr result }
    ensures due { IfErr result (IsDue (D.at disk.old) request.now) }
    ensures listed { IfErr result (IsRelisted (D.at disk.old) (D.at disk.new) (list_of request.now.task)) }
    ensures gaps { IfErr result (LeavesListFor (D.faultless disk.old) (D.at disk.old) (D.at disk.new) request.now) }
    ensures passed { IfPassed result (IsPassed (D.at disk.old) request.now) }
{
    check_root(&request.task)?;
    check_long(&request.task)?;
    let mode = asked_mode(disk, request)?;
    if writes_apart(&request.task) {
        check_list(request)?;
        check_places(disk, request)?;
        let verbose = request.verbose;
        serve_task(rt, disk, &mode, &request.task, verbose, out, err, progress)
    } else {
        Err(Fault::OutIsOutput)
    }
}

// The result of printing, with the program's fault.
pub(crate) fn told<'a>(printed: Result<(), FileFault<'a>>) -> Result<(), Fault<'a>>
    ensures prints { result ≡ told_of printed.entry }
    ensures file { IfErr result IsOfFile }
{
    match printed {
        Ok(()) => Ok(()),
        Err(fault) => Err(Fault::File(fault)),
    }
}

// The root with these hexadecimal digits.
pub(crate) fn root_of<'a>(digits: &str) -> Result<Hash, Fault<'a>>
    ensures ok { IfOk result (λ root. decode_of digits.now ≡ Ok root.0) }
    ensures err { IfErr result (λ fault. (fault ≡ Fault.Root) × ¬ IsDigits digits.now) }
{
    match bytes_of_digits(digits) {
        Some(root) => Ok(Hash(root)),
        None => Err(Fault::Root),
    }
}

// Prints bytes of the file's extended output.
fn hash<'a, R: AllocGlobal + Threads + Sync, D: Disk, O: Write, P: Progress + Sync>(
    rt: &R,
    disk: &D,
    mode: &Mode,
    at: u64,
    len: u32,
    file: &'a str,
    out: &mut O,
    progress: &P,
) -> Result<(), Fault<'a>>
    ensures prints { (bytes : List ℕ) × OnPrinted result (AreOf (D.at disk.now file.now) bytes)
        × CommandPrints (digits_line (stream mode.now bytes at len)) (O.contents out.old) (O.contents out.new) result }
    ensures due { IfErr result (λ fault. IsOfFile fault ⊎ ((fault ≡ Fault.OutputRange) × ¬ (at + len ≤ 2 ^ 64 - 1))) }
    ensures refused { IfErr result (λ fault. status_of fault ≢ 1) }
    ensures fits { OnOk result (at + len ≤ 2 ^ 64 - 1) }
{
    if !xof_fits(at, u64::from(len)) {
        return Err(Fault::OutputRange);
    }
    told(print_file(rt, disk, mode, file, at, len, out, progress))
}

// Encodes the file, and prints the hash.
fn encode<'a, R: AllocGlobal + Threads + Sync, D: Disk, O: Write, P: Progress + Sync>(
    rt: &R,
    disk: &mut D,
    mode: &Mode,
    encoding: Encoding,
    file: &'a str,
    path: &'a str,
    out: &mut O,
    progress: &P,
) -> Result<(), Fault<'a>>
    ensures prints { (bytes : List ℕ) × OnPrinted result (EncodesRight (D.at disk.old) (D.at disk.new) mode.now encoding file.now path.now bytes)
        × CommandPrints (digits_line (hash_of mode.now bytes)) (O.contents out.old) (O.contents out.new) result }
    ensures files { IfErr result (Leaves (D.at disk.old) (D.at disk.new) (EncodesRight (D.at disk.old) (D.at disk.new) mode.now encoding file.now path.now)) }
    ensures file { IfErr result IsOfFile }
{
    match encode_on(rt, disk, mode, encoding, file, path, progress) {
        Ok(hash) => told(print_digits(rt.alloc(), &hash.0, out)),
        Err(fault) => Err(Fault::File(fault)),
    }
}

// Cuts the slice out of the file, which is a plain copy if an outboard encoding is named.
fn slice_of<'a, D: Disk>(
    alloc: Global,
    disk: &mut D,
    mode: &Mode,
    root: &Hash,
    start: u64,
    len: u64,
    outboard: Option<&'a str>,
    file: &'a str,
    path: &'a str,
) -> Result<u64, DecodeFault<'a>>
    ensures done { IfOk result (λ count. (text : List ℕ) × IsCutFrom (D.at disk.old) start len outboard.entry file.now text × IsVerifiedText mode.now root.now.0 (Part.Slice start len) text
        × (count ≡ written_count (Part.Slice start len) text) × Puts (D.at disk.old) (D.at disk.new) path.now (Some text)) }
    ensures kept { OnErr result (KeepsFiles (D.at disk.old) (D.at disk.new)) }
    ensures refused { IfErr result (λ fault. decode_status_of fault ≡ 1 → IsRefusedCut (D.at disk.old) mode.now start len outboard.entry file.now path.now root.now.0) }
{
    match outboard {
        Some(outboard) => {
            slice_beside_on(alloc, disk, mode, root, start, len, outboard, file, path)
        }
        None => slice_on(alloc, disk, mode, root, start, len, file, path),
    }
}

// Cuts a slice out, and prints how many bytes of its range the blob has. With `verbose`, reports what is damaged if the slice is refused.
fn cut_slice<'a, D: Disk, O: Write, E: Write>(
    alloc: Global,
    disk: &mut D,
    mode: &Mode,
    digits: &str,
    start: u64,
    len: u64,
    outboard: Option<&'a str>,
    verbose: bool,
    file: &'a str,
    path: &'a str,
    out: &mut O,
    err: &mut E,
) -> Result<(), Fault<'a>>
    ensures prints { (bytes : List ℕ) × OnPrinted result (CutsRight (D.at disk.old) (D.at disk.new) mode.now digits.now start len outboard.entry file.now path.now bytes)
        × CommandPrints (part_line (Part.Slice start len) bytes) (O.contents out.old) (O.contents out.new) result }
    ensures files { IfErr result (Leaves (D.at disk.old) (D.at disk.new) (CutsRight (D.at disk.old) (D.at disk.new) mode.now digits.now start len outboard.entry file.now path.now)) }
    ensures refused { IfErr result (λ fault. status_of fault ≡ 1 → OfDigits digits.now (IsRefusedCut (D.at disk.old) mode.now start len outboard.entry file.now path.now)) }
    ensures due { IfErr result (λ fault. IsOfFile fault ⊎ ((fault ≡ Fault.Root) × ¬ IsDigits digits.now) ⊎ ((cause : DecodeFault) × (fault ≡ Fault.Decode cause))) }
{
    let root = root_of(digits)?;
    match slice_of(alloc, disk, mode, &root, start, len, outboard, file, path) {
        Ok(count) => told(print_count(alloc, count, out)),
        Err(fault) => {
            match fault {
                DecodeFault::Check(fault) if verbose => {
                    tell_cut(disk, start, len, outboard, file, fault, err);
                }
                _ => {}
            }
            Err(Fault::Decode(fault))
        }
    }
}

// Decodes the file, and prints how many bytes were written. With `verbose`, reports where the file is damaged if it is refused.
fn decode<'a, R: AllocGlobal + Threads + Sync, D: Disk, O: Write, E: Write, P: Progress + Sync>(
    rt: &R,
    disk: &mut D,
    mode: &Mode,
    digits: &str,
    part: &Part,
    verbose: bool,
    file: &'a str,
    path: &'a str,
    out: &mut O,
    err: &mut E,
    progress: &P,
) -> Result<(), Fault<'a>>
    ensures prints { (bytes : List ℕ) × OnPrinted result (DecodesRight (D.at disk.old) (D.at disk.new) mode.now digits.now part.now file.now path.now bytes)
        × CommandPrints (part_line part.now bytes) (O.contents out.old) (O.contents out.new) result }
    ensures files { IfErr result (Leaves (D.at disk.old) (D.at disk.new) (DecodesRight (D.at disk.old) (D.at disk.new) mode.now digits.now part.now file.now path.now)) }
    ensures refused { IfErr result (λ fault. status_of fault ≡ 1 → OfDigits digits.now (IsRefusedText (D.at disk.old) mode.now part.now file.now path.now)) }
    ensures due { IfErr result (λ fault. IsOfFile fault ⊎ ((fault ≡ Fault.Root) × ¬ IsDigits digits.now) ⊎ ((cause : DecodeFault) × (fault ≡ Fault.Decode cause))) }
{
    let root = root_of(digits)?;
    match decode_on(rt, disk, mode, &root, part, file, path, progress) {
        Ok(count) => told(print_count(rt.alloc(), count, out)),
        Err(fault) => {
            match fault {
                DecodeFault::Check(fault) if verbose => tell_encoding(disk, part, file, fault, err),
                _ => {}
            }
            Err(Fault::Decode(fault))
        }
    }
}

// Checks the plain copy beside the outboard encoding, and prints how many bytes were written. With `verbose`, reports which of the
// two is refused, and where.
fn decode_beside<'a, D: Disk, O: Write, E: Write, P: Progress>(
    alloc: Global,
    disk: &mut D,
    mode: &Mode,
    digits: &str,
    outboard: &'a str,
    verbose: bool,
    copy: &'a str,
    path: &'a str,
    out: &mut O,
    err: &mut E,
    progress: &P,
) -> Result<(), Fault<'a>>
    ensures prints { (bytes : List ℕ) × OnPrinted result (CopiesRight (D.at disk.old) (D.at disk.new) mode.now digits.now outboard.now copy.now path.now bytes)
        × CommandPrints (ok_line (length bytes)) (O.contents out.old) (O.contents out.new) result }
    ensures files { IfErr result (Leaves (D.at disk.old) (D.at disk.new) (CopiesRight (D.at disk.old) (D.at disk.new) mode.now digits.now outboard.now copy.now path.now)) }
    ensures refused { IfErr result (λ fault. status_of fault ≡ 1 → OfDigits digits.now (IsRefusedCopy (D.at disk.old) mode.now outboard.now copy.now path.now)) }
    ensures due { IfErr result (λ fault. IsOfFile fault ⊎ ((fault ≡ Fault.Root) × ¬ IsDigits digits.now) ⊎ ((cause : DecodeFault) × (fault ≡ Fault.Decode cause))) }
{
    let root = root_of(digits)?;
    match decode_copy_on(alloc, disk, mode, &root, outboard, copy, path, progress) {
        Ok(count) => told(print_count(alloc, count, out)),
        Err(fault) => {
            match fault {
                DecodeFault::Check(fault) if verbose => {
                    tell_beside(alloc, disk, mode, &root, outboard, copy, fault, err);
                }
                _ => {}
            }
            Err(Fault::Decode(fault))
        }
    }
}

// Runs the schedule over the files, and prints the replies.
fn replay<'a, D: Disk, O: Write>(
    alloc: Global,
    disk: &D,
    mode: &Mode,
    digits: &str,
    capacity: u32,
    script: &'a str,
    files: &[&'a str],
    out: &mut O,
) -> Result<(), Fault<'a>>
    ensures answer { (text : List ℕ) × OnPrinted result (IsReplay (D.at disk.now) mode.now digits.now capacity script.now files.now text)
        × CommandPrints text (O.contents out.old) (O.contents out.new) result }
    ensures few { OnPrinted result (length files.now ≤ 64) }
    ensures many { 64 < length files.now → IsErrAnd result (λ fault. fault ≡ Fault.TooManyFiles) }
    ensures refused { IfErr result (λ fault. status_of fault ≡ 1 → IsRefusedReplay (D.at disk.now) mode.now digits.now capacity script.now files.now) }
    ensures due { IfErr result (λ fault. IsOfFile fault ⊎ ((fault ≡ Fault.Root) × ¬ IsDigits digits.now) ⊎ ((fault ≡ Fault.TooManyFiles) × (64 < length files.now))
        ⊎ ((cause : RerunFault) × (fault ≡ Fault.Replay cause) × (rerun_status_of cause ≡ 2 → IsNoCapacity capacity ⊎ HasBadLine (D.at disk.now) script.now files.now))) }
{
    if files.len() > MOST_FILES {
        return Err(Fault::TooManyFiles);
    }
    let root = root_of(digits)?;
    match replay_on(alloc, disk, mode, &root, capacity, script, files) {
        Ok(text) => told(print_text(text.as_slice(), out)),
        Err(fault) => Err(Fault::Replay(fault)),
    }
}

// Does the task. OUT and LIST have been checked.
fn serve_task<'a, R: AllocGlobal + Threads + Sync, D: Disk, O: Write, E: Write, P: Progress + Sync>(
    rt: &R,
    disk: &mut D,
    mode: &Mode,
    task: &Task<'a>,
    verbose: bool,
    out: &mut O,
    err: &mut E,
    progress: &P,
) -> Result<(), Fault<'a>>
    ensures prints { (bytes : List ℕ) × OnPrinted result (IsRight (D.at disk.old) mode.now task.now bytes × Writes (D.at disk.old) (D.at disk.new) mode.now task.now (list_of task.now) bytes)
        × CommandPrints (line_of mode.now task.now bytes) (O.contents out.old) (O.contents out.new) result }
    ensures files { IfErr result (LeavesFiles (D.at disk.old) (D.at disk.new) mode.now task.now) }
    ensures usage { IfErr result (λ fault. status_of fault ≡ 2 → KeepsFiles (D.at disk.old) (D.at disk.new)) }
    ensures refused { IfErr result (λ fault. status_of fault ≡ 1 → IsRefused (D.faultless disk.old) (D.at disk.old) mode.now task.now) }
    ensures blob { OnOk result (IsBlobOf (D.faultless disk.old) (D.at disk.old) (D.at disk.new) mode.now task.now (O.contents out.old) (O.contents out.new)) }
    ensures due { IfErr result (λ fault. (request : Request) → request.task ≡ task.now → IsDue (D.at disk.old) request fault) }
    ensures listed { IfErr result (IsRelisted (D.at disk.old) (D.at disk.new) (list_of task.now)) }
    ensures gaps { IfErr result (LeavesListOf (D.faultless disk.old) (D.at disk.old) (D.at disk.new) mode.now task.now) }
    ensures passed { IfPassed result ((¬ IsPastOutput task.now) × ¬ HasManyFiles task.now) }
{
    let alloc = rt.alloc();
    match task {
        Task::Hash { at, length, file } => hash(rt, disk, mode, *at, *length, file, out, progress),
        Task::Encode {
            encoding,
            file,
            out: path,
        } => encode(rt, disk, mode, *encoding, file, path, out, progress),
        Task::CutSlice {
            root,
            start,
            len,
            outboard,
            file,
            out: path,
        } => cut_slice(
            alloc, disk, mode, root, *start, *len, *outboard, verbose, file, path, out, err,
        ),
        Task::Decode {
            root,
            part,
            file,
            out: path,
        } => decode(
            rt, disk, mode, root, part, verbose, file, path, out, err, progress,
        ),
        Task::DecodeCopy {
            root,
            outboard,
            copy,
            out: path,
        } => decode_beside(
            alloc, disk, mode, root, outboard, verbose, copy, path, out, err, progress,
        ),
        Task::Gather(task) => gather(rt, disk, mode, task, verbose, out, err, progress),
        Task::Replay {
            root,
            capacity,
            script,
            files,
        } => {
            let files = files.as_slice();
            replay(alloc, disk, mode, root, *capacity, script, files, out)
        }
    }
}

// Checks ROOT, before anything else.
fn check_root<'a>(task: &Task<'a>) -> Result<(), Fault<'a>>
    ensures ok { OnOk result (HasRoot task.now) }
    ensures err { IfErr result (λ fault. (fault ≡ Fault.Root) × ¬ HasRoot task.now) }
{
    let root = match task {
        Task::CutSlice { root, .. } => root,
        Task::Decode { root, .. } | Task::DecodeCopy { root, .. } => root,
        Task::Gather(task) => task.root,
        Task::Replay { root, .. } => root,
        Task::Hash { .. } | Task::Encode { .. } => return Ok(()),
    };
    match bytes_of_digits(root) {
        Some(_) => Ok(()),
        None => Err(Fault::Root),
    }
}

// Refuses `--long` with `--capacity`. The default capacity is allowed, since `clap` doesn't tell it from an argument.
fn check_long<'a>(task: &Task<'a>) -> Result<(), Fault<'a>>
    ensures ok { OnOk result (¬ IsMixed task.now) }
    ensures err { IfErr result (λ fault. (fault ≡ Fault.LongAndCapacity) × IsMixed task.now) }
{
    match task {
        Task::Gather(task) if task.long && task.capacity != MOST_CHUNKS => {
            Err(Fault::LongAndCapacity)
        }
        _ => Ok(()),
    }
}

// Whether the path is one of standard output's names.
pub(crate) fn is_output(path: &str) -> bool
    ensures yes { result ≡ true → ¬ IsNoOutput path.now }
    ensures no { result ≡ false → IsNoOutput path.now }
{
    matches!(path, "-" | "/dev/stdout" | "/dev/fd/1" | "/proc/self/fd/1")
}

// Whether OUT, if there is one, isn't a name of standard output, where the line goes.
fn writes_apart(task: &Task<'_>) -> bool
    ensures yes { result ≡ true → WritesApart task.now }
    ensures no { result ≡ false → ¬ WritesApart task.now }
{
    let path = match task {
        Task::Encode { out, .. } | Task::CutSlice { out, .. } | Task::Decode { out, .. } => out,
        Task::DecodeCopy { out, .. } => out,
        Task::Gather(task) => task.out,
        Task::Hash { .. } | Task::Replay { .. } => return true,
    };
    !is_output(path)
}

// Prints `clap`'s message: help and the version on `out`, whose reader may close the pipe early, a refusal on `err`.
fn answer_clap<O: Write, E: Write>(
    alloc: Global,
    error: &clap::Error,
    out: &mut O,
    err: &mut E,
) -> u8
    ensures status { result ≤ 4 }
    ensures done { result ≡ 0 → IsHelp (kind_of error.now) }
    ensures file_fault { result ≡ 3 → IsHelp (kind_of error.now) }
    ensures refused { ¬ IsHelp (kind_of error.now) → (result ≡ 2) ⊎ (result ≡ 4) }
    ensures fault { result ≢ 0 → result ≢ 3 → Keeps (O.contents out.old) (O.contents out.new) }
    ensures usage { result ≡ 2 → kind_of error.now ≢ ErrorKind.OutOfMemory }
    ensures memory { kind_of error.now ≡ ErrorKind.OutOfMemory → result ≡ 4 }
    ensures refusal { result ≢ 1 }
{
    if error.kind() == ErrorKind::OutOfMemory {
        return Fault::File(FileFault::Memory).report(err);
    }
    if error.use_stderr() {
        let _ = write!(Once(err), "{error}");
        return 2;
    }
    let Ok(text) = format!(in alloc; "{error}") else {
        return Fault::File(FileFault::Memory).report(err);
    };
    shown_status(show(text.as_bytes(), out), err)
}
