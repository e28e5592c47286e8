// Checks on the disk that OUT and LIST are no other file of the command, under any name.

ghost use Rattle.std.specs.Prelude.{◌≡◌, ◌⊎◌, ◌<◌, ℕ, HoldsAt, IfErr, IsSomeAnd, OnOk, codes, false, length, true};
ghost use Rattle.bao_command.specs.declared.fault.Fault.TheVariants as Fault;
ghost use Rattle.bao_command.specs.Tasks.{IsLedTo, LeadsListTo, LeadsToOther, ReadsOne, ReadsOut, ReadsOutAs, out_of};

use crate::fault::Fault;
use bao_files::Disk;
use bao_request::{Request, Task};

// A name of standard output.
const OUTPUT: &str = "/dev/stdout";

// Whether a path leads to the file that is named, if one is.
fn is_named_file<D: Disk>(disk: &D, path: &str, named: Option<&str>) -> bool
    ensures yes { result ≡ true → IsSomeAnd named.entry (λ other. IsLedTo (D.at disk.now) path.now other.now) }
    ensures no { result ≡ false → ¬ IsSomeAnd named.entry (λ other. path.now ≡ other.now) }
{
    match named {
        Some(named) => path == named || disk.is_one(path, named),
        None => false,
    }
}

// Whether a path leads to one of the files.
fn is_one_of<D: Disk>(disk: &D, path: &str, files: &[&str]) -> bool
    ensures { result ≡ true → (k : ℕ) × (k < length files.now) × HoldsAt (λ file. IsLedTo (D.at disk.now) path.now file.now) files.now k }
{
    for file in files {
        if disk.is_one(path, file) {
            return true;
        }
    }
    false
}

// The task's OUT, if it has one.
fn out_of<'a>(task: &Task<'a>) -> Option<&'a str>
    ensures { result ≡ out_of task.now }
{
    match task {
        Task::Encode { out, .. } | Task::CutSlice { out, .. } => Some(out),
        Task::Decode { out, .. } => Some(out),
        Task::DecodeCopy { out, .. } => Some(out),
        Task::Gather(task) => Some(task.out),
        Task::Hash { .. } | Task::Replay { .. } => None,
    }
}

// Whether the list, if there is one, leads to standard output, to OUT, or to a file that is read.
fn leads_to_other<D: Disk>(
    disk: &D,
    list: Option<&str>,
    out: &str,
    outboard: Option<&str>,
    key_file: Option<&str>,
    files: &[&str],
) -> bool
    ensures { result ≡ true → LeadsToOther (D.at disk.now) out.now outboard.entry key_file.entry files.now list.entry }
{
    let Some(list) = list else {
        return false;
    };
    if disk.is_one(list, OUTPUT) {
        return true;
    }
    if disk.is_one(list, out) {
        return true;
    }
    if is_named_file(disk, list, outboard) {
        return true;
    }
    if is_named_file(disk, list, key_file) {
        return true;
    }
    is_one_of(disk, list, files)
}

// Whether the request's list leads to another of its files.
fn is_list_other<D: Disk>(disk: &D, request: &Request<'_>) -> bool
    ensures { result ≡ true → LeadsListTo (D.at disk.now) request.now.key_file request.now.task }
{
    match &request.task {
        Task::Gather(task) => leads_to_other(
            disk,
            task.missing,
            task.out,
            task.outboard,
            request.key_file,
            task.files.as_slice(),
        ),
        _ => false,
    }
}

// Whether OUT leads to one of the files that are named.
fn reads_one<D: Disk>(
    disk: &D,
    out: &str,
    key_file: Option<&str>,
    outboard: Option<&str>,
    file: Option<&str>,
) -> bool
    ensures yes { result ≡ true → ReadsOne (IsLedTo (D.at disk.now) out.now) key_file.entry outboard.entry file.entry }
    ensures no { result ≡ false → ¬ ReadsOne (λ path. out.now ≡ path) key_file.entry outboard.entry file.entry }
{
    if is_named_file(disk, out, key_file) {
        return true;
    }
    if is_named_file(disk, out, outboard) {
        return true;
    }
    is_named_file(disk, out, file)
}

// Whether OUT leads to a file that is read, except a FILE of `gather`.
fn is_out_read<D: Disk>(disk: &D, key_file: Option<&str>, task: &Task<'_>) -> bool
    ensures yes { result ≡ true → ReadsOutAs (IsLedTo (D.at disk.now)) key_file.entry task.now }
    ensures no { result ≡ false → ¬ ReadsOutAs (λ ours theirs. ours ≡ theirs) key_file.entry task.now }
{
    match task {
        Task::Encode { file, out, .. } => reads_one(disk, out, key_file, None, Some(file)),
        Task::CutSlice {
            outboard,
            file,
            out,
            ..
        } => reads_one(disk, out, key_file, *outboard, Some(file)),
        Task::Decode { file, out, .. } => reads_one(disk, out, key_file, None, Some(file)),
        Task::DecodeCopy {
            outboard,
            copy,
            out,
            ..
        } => reads_one(disk, out, key_file, Some(outboard), Some(copy)),
        Task::Gather(task) => reads_one(disk, task.out, key_file, task.outboard, None),
        Task::Hash { .. } | Task::Replay { .. } => false,
    }
}

// Refuses names that lead to one file, which would be overwritten or written twice: OUT and standard output, or a file that is read except a FILE of
// `gather`; and LIST and OUT, standard output, or any file that is read.
pub(crate) fn check_places<'a, D: Disk>(disk: &D, request: &Request<'a>) -> Result<(), Fault<'a>>
    ensures apart { OnOk result (¬ ReadsOut request.now) }
    ensures err { IfErr result (λ fault. ((fault ≡ Fault.OutLeadsToOutput) × IsSomeAnd (out_of request.now.task) (λ out. IsLedTo (D.at disk.now) out.now (codes "/dev/stdout")))
        ⊎ ((fault ≡ Fault.OutIsRead) × ReadsOutAs (IsLedTo (D.at disk.now)) request.now.key_file request.now.task)
        ⊎ ((fault ≡ Fault.ListLeadsToOther) × LeadsListTo (D.at disk.now) request.now.key_file request.now.task)) }
{
    match out_of(&request.task) {
        Some(out) if disk.is_one(out, OUTPUT) => return Err(Fault::OutLeadsToOutput),
        _ => {}
    }
    if is_out_read(disk, request.key_file, &request.task) {
        return Err(Fault::OutIsRead);
    }
    if is_list_other(disk, request) {
        return Err(Fault::ListLeadsToOther);
    }
    Ok(())
}
