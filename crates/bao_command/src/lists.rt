// Checks by names that LIST, the file of `--missing`, is no other file of the command.

ghost use Rattle.std.specs.Prelude.{◌≡◌, ◌⊎◌, IfErr, OnOk, true, false};
ghost use Rattle.bao_command.specs.declared.fault.Fault.TheVariants as Fault;
ghost use Rattle.bao_command.specs.Tasks.{IsPathAmong, IsListAt, IsListRead, IsNamed, ListClashes, ReadsList, ReadsListOf};

use crate::commands::is_output;
use crate::fault::Fault;
use bao_request::{Request, Task};

// Whether the list has OUT's name, or one of standard output's.
fn is_list_at(out: &str, list: Option<&str>) -> bool
    ensures yes { result ≡ true → IsListAt out.now list.entry }
    ensures no { result ≡ false → ¬ IsListAt out.now list.entry }
{
    match list {
        Some(list) => list == out || is_output(list),
        None => false,
    }
}

// Whether one of the files has this name.
pub(crate) fn is_among(path: &str, files: &[&str]) -> bool
    ensures yes { result ≡ true → IsPathAmong path.now files.now }
    ensures no { result ≡ false → ¬ IsPathAmong path.now files.now }
{
    files.contains(&path)
}

// Whether this path is the one that is given, if one is.
fn is_named(path: &str, named: Option<&str>) -> bool
    ensures yes { result ≡ true → IsNamed path.now named.entry }
    ensures no { result ≡ false → ¬ IsNamed path.now named.entry }
{
    match named {
        Some(named) => named == path,
        None => false,
    }
}

// Whether the list has the name of a file that is read.
fn is_list_read(
    key_file: Option<&str>,
    outboard: Option<&str>,
    files: &[&str],
    list: Option<&str>,
) -> bool
    ensures yes { result ≡ true → IsListRead key_file.entry outboard.entry files.now list.entry }
    ensures no { result ≡ false → ¬ IsListRead key_file.entry outboard.entry files.now list.entry }
{
    match list {
        Some(list) => {
            is_among(list, files) || is_named(list, outboard) || is_named(list, key_file)
        }
        None => false,
    }
}

// Whether the task's list has the name of a file that is read, or of the key file.
fn reads_list(key_file: Option<&str>, task: &Task<'_>) -> bool
    ensures yes { result ≡ true → ReadsListOf key_file.entry task.now }
    ensures no { result ≡ false → ¬ ReadsListOf key_file.entry task.now }
{
    match task {
        Task::Gather(task) => is_list_read(
            key_file,
            task.outboard,
            task.files.as_slice(),
            task.missing,
        ),
        _ => false,
    }
}

// Whether the task's list has OUT's name, or one of standard output's.
fn clashes(task: &Task<'_>) -> bool
    ensures yes { result ≡ true → ListClashes task.now }
    ensures no { result ≡ false → ¬ ListClashes task.now }
{
    match task {
        Task::Gather(task) => is_list_at(task.out, task.missing),
        _ => false,
    }
}

// Refuses a list with the name of OUT, of standard output, or of a file that is read.
pub(crate) fn check_list<'a>(request: &Request<'a>) -> Result<(), Fault<'a>>
    ensures clash { OnOk result (¬ ListClashes request.now.task) }
    ensures read { OnOk result (¬ ReadsList request.now) }
    ensures err { IfErr result (λ fault. ((fault ≡ Fault.ListIsOut) × ListClashes request.now.task) ⊎ ((fault ≡ Fault.ListIsRead) × ReadsList request.now)) }
{
    if clashes(&request.task) {
        return Err(Fault::ListIsOut);
    }
    if reads_list(request.key_file, &request.task) {
        return Err(Fault::ListIsRead);
    }
    Ok(())
}
