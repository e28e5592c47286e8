// Gathering: what the program reports beside its line, and the list of what is missing.

ghost use Rattle.std.specs.Prelude.{◌≡◌, ◌≢◌, ◌⊎◌, ⊤, if◌then◌else◌, ◌-◌, ◌^◌, ◌<◌, ◌≤◌, ℕ, List, Option, [], None, length, take, IfErr, IsErrAnd, IsSome, OnErr, OnOk};
ghost use Rattle.bao_command.specs.declared.fault.Fault.TheVariants as Fault;
ghost use Rattle.holders.specs.declared.grain.Grain.TheVariants as Grain;
ghost use Rattle.std.specs.Io.KnownBytes.{Appends};
ghost use Rattle.bao_files.specs.Disks.{KeepsFiles};
ghost use Rattle.bao_files.specs.Printed.{IsDigits, IsQuiet, ok_line};
ghost use Rattle.bao_files.specs.declared.fault.FileFault.{FileFault};
ghost use Rattle.bao_command.specs.Effects.{IsRelisted, Lists, Writes, parts_in};
ghost use Rattle.bao_command.specs.Gaps.{LeavesListOf};
ghost use Rattle.bao_tasks.specs.Listed.{lines_of_parts};
ghost use Rattle.bao_command.specs.Printed.{CommandPrints, OnPrinted};
ghost use Rattle.bao_command.specs.Refused.{IsBlobOf, IsRefused};
ghost use Rattle.bao_command.specs.Status.{gathered_status_of, status_of};
ghost use Rattle.bao_command.specs.Tasks.{IsOfFile, IsRight, LeavesFiles};
ghost use Rattle.bao_request.specs.declared.tasks.Task.TheVariants.{Gather};
ghost use Rattle.bao_tasks.specs.declared.gathered_fault.GatheredFault.{GatheredFault};
ghost use Rattle.bao_command.specs.ReportLines.{claimed_line, part_line as missing_line, parts_line, unlooked_line, worth_line};

use crate::commands::{root_of, told};
use crate::fault::{Fault, gathered_status};
use crate::refused::{is_no_encoding, tell_no_encoding, tell_outboard};
use crate::unread::{tell_file, tell_left_out};
use b3tree::Mode;
use bao_files::{Disk, FileFault, Once, Progress, print_count};
use bao_request::GatherTask;
use bao_tasks::{
    Fate, Form, GatheredFault, Gathering, Grain, Lack, MissingParts, Notes, Span, Worth,
    gather_beside_on, gather_on, list_parts,
};
use bao_windows::{GatherFault, Wanted};
use std::io;
use std::io::Write;
use std::thread::Threads;

// The most files that a task takes.
pub(crate) const MOST_FILES: usize = 64;

// The most missing ranges that are printed.
const MOST_SHOWN: usize = 8;

// Prints how many groups of a file are refused.
fn tell_worth<W: Write>(file: &str, worth: Worth, out: &mut W) -> io::Result<()>
    ensures { OnOk result (Appends (W.contents out.old) (W.contents out.new) (worth_line file.now worth)) }
{
    let Worth { groups, refused } = worth;
    writeln!(
        out,
        "bao_gather: {file}: {refused} of {groups} groups of 64 KiB refused"
    )
}

// Prints why a file was left out, or how many of its groups are refused, or that there was no memory to count them; and before, that not all of it was
// read. With an outboard encoding the file is a plain copy.
fn tell_fate<D: Disk, E: Write>(
    disk: &D,
    is_beside: bool,
    file: &str,
    fate: Fate,
    err: &mut E,
) -> io::Result<()> {
    if let Fate::Taken { cut: Some(len), .. } = fate {
        writeln!(
            Once(err),
            "bao_gather: {file}: only its first {len} bytes were read"
        )?;
    }
    match (fate.reason(), fate) {
        (Some(reason), Fate::Unread) => tell_left_out(file, reason, disk.why(file), err),
        (Some(reason), Fate::Uncopied) => { tell_left_out(file, reason, disk.why_unwritten(), err) }
        (Some(reason), _) => tell_left_out(file, reason, None, err),
        (
            None,
            Fate::Taken {
                worth: Some(worth),
                ..
            },
        ) if !is_beside && worth.refused == worth.groups && is_no_encoding(disk, file) => {
            tell_no_encoding(file, err)
        }
        (
            None,
            Fate::Taken {
                worth: Some(worth),
                ..
            },
        ) => tell_worth(file, worth, &mut Once(err)),
        (None, _) => writeln!(Once(err), "bao_gather: {file}: not counted: no memory"),
    }
}

// The offset of the last byte of a range.
pub(crate) fn last_of(part: Span) -> u64
    ensures { result ≡ part.end - 1 }
{
    part.end.saturating_sub(1)
}

// Prints a range that no file has.
fn tell_part<W: Write>(part: Span, out: &mut W) -> io::Result<()>
    ensures { OnOk result (Appends (W.contents out.old) (W.contents out.new) (missing_line part)) }
{
    let (first, last) = (part.at, last_of(part));
    writeln!(out, "bao_gather: missing: bytes {first} to {last}")
}

// Prints how many bytes no file has, of how many, and in how many ranges.
fn tell_parts<W: Write>(parts: &MissingParts, out: &mut W) -> io::Result<()>
    ensures { OnOk result (Appends (W.contents out.old) (W.contents out.new) (parts_line parts.now)) }
{
    let (bytes, looked, count) = (parts.bytes, parts.looked, parts.count);
    writeln!(
        out,
        "bao_gather: missing: {bytes} of {looked} bytes, ranges: {count}"
    )
}

// Prints the length that is claimed, where no file certifies it.
fn tell_claimed<W: Write>(parts: &MissingParts, out: &mut W) -> io::Result<()>
    ensures { OnOk result (Appends (W.contents out.old) (W.contents out.new) (claimed_line parts.now)) }
{
    let total = parts.total;
    writeln!(
        out,
        "bao_gather: missing: the length isn't certified yet: {total} bytes are claimed"
    )
}

// Prints which bytes of the blob were not looked for.
fn tell_unlooked<W: Write>(parts: &MissingParts, out: &mut W) -> io::Result<()>
    ensures { OnOk result (Appends (W.contents out.old) (W.contents out.new) (unlooked_line parts.now)) }
{
    let (looked, total) = (parts.looked, parts.total);
    writeln!(
        out,
        "bao_gather: missing: not looked for: bytes from {looked} on, of {total}"
    )
}

// The ranges that are printed.
fn first_of(parts: &[Span]) -> &[Span]
    ensures { result.now ≡ take 8 parts.now }
{
    &parts[..parts.len().min(MOST_SHOWN)]
}

// Whether some files were counted, and every group of each of them is refused.
fn fits_none(fates: &[Fate]) -> bool {
    let mut some = false;
    for fate in fates {
        match fate {
            Fate::Taken {
                worth: Some(worth),
                ..
            } if worth.refused == worth.groups => some = true,
            Fate::Taken { .. } => return false,
            Fate::Unread | Fate::Uncopied | Fate::Starved | Fate::Unopened => {}
        }
    }
    some
}

// Prints that no file has the end of the blob, and, if nothing at all fits the root, what may be the cause. With `--salvage`, chunks of refused groups may
// fit.
fn tell_no_end<E: Write>(grain: Grain, fates: &[Fate], err: &mut E) -> io::Result<()> {
    writeln!(
        Once(err),
        "bao_gather: missing: the end of the blob, so its length isn't known"
    )?;
    if matches!(grain, Grain::Chunk) || !fits_none(fates) {
        return Ok(());
    }
    writeln!(
        Once(err),
        "bao_gather: nothing fits ROOT: check ROOT, the key and --context; plain copies need --outboard, encodings don't"
    )
}

// Prints what no file has of a blob that stayed unfinished.
fn tell_lack<E: Write>(grain: Grain, notes: &Notes, err: &mut E) -> io::Result<()> {
    match &notes.lack {
        Lack::Unasked => Ok(()),
        Lack::Starved => writeln!(Once(err), "bao_gather: missing: not looked for: no memory"),
        Lack::End => tell_no_end(grain, notes.fates.as_slice(), err),
        Lack::Missing(parts) if parts.count == 0 && parts.looked == parts.total => {
            writeln!(
                Once(err),
                "bao_gather: missing: nothing at a second look: an earlier read failed"
            )
        }
        Lack::Missing(parts) => {
            for part in first_of(parts.shown.as_slice()) {
                tell_part(*part, &mut Once(err))?;
            }
            tell_parts(parts, &mut Once(err))?;
            if !parts.certified {
                tell_claimed(parts, &mut Once(err))?;
            }
            if parts.looked < parts.total {
                tell_unlooked(parts, &mut Once(err))?;
            }
            Ok(())
        }
    }
}

// Prints what is wrong with each file, and what none of them has. Stops at the first write that fails, which has no other effect.
fn tell_files<D: Disk, E: Write>(disk: &D, task: &GatherTask<'_>, notes: &Notes, err: &mut E) {
    let is_beside = task.outboard.is_some();
    for (file, fate) in task.files.iter().zip(notes.fates.as_slice()) {
        if tell_fate(disk, is_beside, file, *fate, err).is_err() {
            return;
        }
    }
    let _ = tell_lack(grain_of(task.salvage), notes, err);
}

// Prints what is wrong with the files: with the outboard encoding if it was refused, since no other file was opened then, or with each.
fn tell<D: Disk, E: Write>(
    disk: &D,
    task: &GatherTask<'_>,
    notes: &Notes,
    gathered: &Result<u64, GatheredFault<'_>>,
    err: &mut E,
) {
    match (gathered, task.outboard) {
        (Err(GatheredFault::Outboard(fault)), Some(outboard)) => {
            tell_outboard(disk, outboard, *fault, err);
        }
        (Err(GatheredFault::File(fault @ FileFault::Write(_))), _) => {
            tell_files(disk, task, notes, err);
            tell_file(disk, *fault, err);
        }
        (Err(GatheredFault::Gather(GatherFault::TooLarge)), _) if !task.long => {
            tell_files(disk, task, notes, err);
            let _ = writeln!(
                Once(err),
                "bao_gather: the blob is longer than --capacity allows: --long lifts that limit"
            );
        }
        _ => tell_files(disk, task, notes, err),
    }
}

// The smallest unit that the files are asked for.
fn grain_of(salvage: bool) -> Grain
    ensures { result ≡ (if salvage then Grain.Chunk else Grain.Group) }
{
    if salvage { Grain::Chunk } else { Grain::Group }
}

// How many of the missing ranges are wanted: all for the list, the first ones for `--verbose`, or none.
fn parts_asked(verbose: bool, list: Option<&str>) -> usize
    ensures { IsSome list.entry → result ≡ 2 ^ 64 - 1 }
{
    match (verbose, list) {
        (_, Some(_)) => usize::MAX,
        (true, None) => MOST_SHOWN,
        (false, None) => 0,
    }
}

// Empties the list, if there is one: nothing is missing. A link that led nowhere may lead to OUT now; the list then can't be written.
fn list_nothing<'a, D: Disk>(disk: &mut D, task: &GatherTask<'a>) -> Result<(), Fault<'a>>
    ensures lists { OnOk result (Lists (D.at disk.old) (D.at disk.new) task.now.missing []) }
    ensures kept { OnErr result (KeepsFiles (D.at disk.old) (D.at disk.new)) }
    ensures quiet { IfErr result (λ fault. (file : FileFault) × (fault ≡ Fault.File file) × IsQuiet file) }
{
    let Some(path) = task.missing else {
        return Ok(());
    };
    if disk.is_one(path, task.out) {
        return Err(Fault::File(FileFault::Write(path)));
    }
    match list_parts(disk, &[], path) {
        Ok(()) => Ok(()),
        Err(fault) => Err(Fault::File(fault)),
    }
}

// The ranges that are known to be missing: none, if they were not looked for or the length isn't known.
fn known_parts(lack: &Lack) -> &[Span]
    ensures { result.now ≡ parts_in lack.now }
{
    match lack {
        Lack::Missing(parts) => parts.shown.as_slice(),
        Lack::Unasked | Lack::Starved | Lack::End => &[],
    }
}

// Writes the ranges that are known to be missing to the list, if there is one, and prints why if it can't: the fault, which is returned.
fn list_lack<'a, D: Disk, E: Write>(
    disk: &mut D,
    list: Option<&'a str>,
    lack: &Lack,
    verbose: bool,
    err: &mut E,
) -> Option<FileFault<'a>>
    ensures lists { result ≡ None → Lists (D.at disk.old) (D.at disk.new) list.entry (lines_of_parts (parts_in lack.now)) }
    ensures kept { KeepsFiles (D.at disk.old) (D.at disk.new) ⊎ Lists (D.at disk.old) (D.at disk.new) list.entry (lines_of_parts (parts_in lack.now)) }
{
    let Some(path) = list else {
        return None;
    };
    match list_parts(disk, known_parts(lack), path) {
        Ok(()) => None,
        Err(fault) => {
            if verbose {
                tell_file(disk, fault, err);
            }
            let _ = writeln!(Once(err), "bao_gather: {path}: left as it is: {fault}");
            Some(fault)
        }
    }
}

// The same after a fault. Wrong arguments leave the list as it is.
fn relist<'a, D: Disk, E: Write>(
    disk: &mut D,
    list: Option<&'a str>,
    lack: &Lack,
    fault: GatheredFault<'_>,
    verbose: bool,
    err: &mut E,
) -> Option<FileFault<'a>>
    ensures usage { gathered_status_of fault.entry ≡ 2 → KeepsFiles (D.at disk.old) (D.at disk.new) }
    ensures lists { gathered_status_of fault.entry ≢ 2 → result ≡ None → Lists (D.at disk.old) (D.at disk.new) list.entry (lines_of_parts (parts_in lack.now)) }
    ensures kept { KeepsFiles (D.at disk.old) (D.at disk.new) ⊎ Lists (D.at disk.old) (D.at disk.new) list.entry (lines_of_parts (parts_in lack.now)) }
{
    if gathered_status(fault) == 2 {
        return None;
    }
    list_lack(disk, list, lack, verbose, err)
}

// Does a task of `gather`, and prints the blob's length. With `verbose`, prints what is wrong with each of its files. Makes the list of what none of them
// has anew, unless the arguments are wrong.
pub(crate) fn gather<
    'a,
    R: AllocGlobal + Threads + Sync,
    D: Disk,
    O: Write,
    E: Write,
    P: Progress + Sync,
>(
    rt: &R,
    disk: &mut D,
    mode: &Mode,
    task: &GatherTask<'a>,
    verbose: bool,
    out: &mut O,
    err: &mut E,
    progress: &P,
) -> Result<(), Fault<'a>>
    ensures prints { (blob : List ℕ) × OnPrinted result (IsRight (D.at disk.old) mode.now (Gather task.now) blob × Writes (D.at disk.old) (D.at disk.new) mode.now (Gather task.now) task.now.missing blob)
        × CommandPrints (ok_line (length blob)) (O.contents out.old) (O.contents out.new) result }
    ensures files { IfErr result (LeavesFiles (D.at disk.old) (D.at disk.new) mode.now (Gather task.now)) }
    ensures usage { IfErr result (λ fault. status_of fault ≡ 2 → KeepsFiles (D.at disk.old) (D.at disk.new)) }
    ensures refused { IfErr result (λ fault. status_of fault ≡ 1 → IsRefused (D.faultless disk.old) (D.at disk.old) mode.now (Gather task.now)) }
    ensures blob { OnOk result (IsBlobOf (D.faultless disk.old) (D.at disk.old) (D.at disk.new) mode.now (Gather task.now) (O.contents out.old) (O.contents out.new)) }
    ensures listed { IfErr result (IsRelisted (D.at disk.old) (D.at disk.new) task.now.missing) }
    ensures gaps { IfErr result (LeavesListOf (D.faultless disk.old) (D.at disk.old) (D.at disk.new) mode.now (Gather task.now)) }
    ensures many { 64 < length task.now.files.items → IsErrAnd result (λ fault. fault ≡ Fault.TooManyFiles) }
    ensures due { IfErr result (λ fault. IsOfFile fault ⊎ ((fault ≡ Fault.Root) × ¬ IsDigits task.now.root.now) ⊎ ((fault ≡ Fault.TooManyFiles) × (64 < length task.now.files.items))
        ⊎ ((cause : GatheredFault) × (unlisted : Option FileFault) × (fault ≡ Fault.Gather cause unlisted))) }
{
    let files = task.files.as_slice();
    if files.len() > MOST_FILES {
        return Err(Fault::TooManyFiles);
    }
    let root = root_of(task.root)?;
    let Ok(mut notes) = Notes::new(rt.alloc(), files.len()) else {
        let fault = GatheredFault::File(FileFault::Memory);
        let unlisted = relist(disk, task.missing, &Lack::Unasked, fault, verbose, err);
        return Err(Fault::Gather { fault, unlisted });
    };
    let how = Gathering {
        wanted: Wanted {
            root,
            mode: *mode,
            form: Form::Slices,
            grain: grain_of(task.salvage),
        },
        workers: task.workers,
        capacity: task.capacity,
        long: task.long,
        encode: task.encode,
        count: verbose,
        parts: parts_asked(verbose, task.missing),
    };
    let kept = &mut notes;
    let gathered = match task.outboard {
        Some(outboard) => gather_beside_on(
            rt, disk, &how, outboard, files, task.out, kept, progress,
        ),
        None => gather_on(rt, disk, &how, files, task.out, kept, progress),
    };
    if verbose {
        tell(disk, task, &notes, &gathered, err);
    }
    match gathered {
        Ok(count) => {
            list_nothing(disk, task)?;
            told(print_count(rt.alloc(), count, out))
        }
        Err(fault) => {
            let unlisted = relist(disk, task.missing, &notes.lack, fault, verbose, err);
            Err(Fault::Gather { fault, unlisted })
        }
    }
}
