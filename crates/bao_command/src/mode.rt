ghost use Rattle.std.specs.Borrow.{Bor};
ghost use Rattle.std.specs.Option.{option_copied};
ghost use Rattle.std.specs.Prelude.{◌≡◌, ◌⊎◌, ℕ, List, IfErr, IfOk, IfSome, IsErrAnd, IsSome};
ghost use Rattle.b3tree.specs.Valid.{AreBytes};
ghost use Rattle.bao_command.specs.ModeWords.{AsksForMode, GivesFileMode, GivesMode, GivesNoKey, HasMode, IsKeyedBy, IsKeyedIn, IsModeDue, IsModeFault, MixesKeys};
ghost use Rattle.bao_command.specs.Tasks.{IsDue};
ghost use Rattle.bao_command.specs.declared.fault.Fault.TheVariants as Fault;
ghost use Rattle.bao_files.specs.declared.fault.FileFault.TheVariants as FileFault;

use crate::fault::Fault;
use b3tree::Mode;
use bao_files::{Disk, bytes_of_digits, read_key};
use bao_request::Request;
use std::io::Read;

/// Returns the mode that `--key` and `--context` ask for: hash mode if neither is given.
///
/// Refuses with `Key` if the key isn't 64 hexadecimal digits, and else with `KeyAndContext` if both are given.
pub fn mode_of<'a>(key: Option<&str>, context: Option<&str>) -> Result<Mode, Fault<'a>>
    ensures { GivesMode (option_copied key.entry) (option_copied context.entry) result }
{
    let key = match key {
        Some(text) => Some(bytes_of_digits(text).ok_or(Fault::Key)?),
        None => None,
    };
    match (key, context) {
        (Some(_), Some(_)) => Err(Fault::KeyAndContext),
        (Some(key), None) => Ok(Mode::keyed(key)),
        (None, Some(context)) => Ok(Mode::derive(context)),
        (None, None) => Ok(Mode::hash()),
    }
}

/// Returns the mode of keyed hashing with the key in the rest of `input`, the file at `path`.
///
/// Refuses with `KeyFile` if that is anything but 64 hexadecimal digits and at most one line feed, and with `File`
/// and `Read` if it can't be read.
pub fn mode_of_input<'a, I: Read>(input: &mut I, path: &'a str) -> Result<Mode, Fault<'a>>
    ensures known { IfSome (I.remaining input.old) (λ left. GivesFileMode path.entry left result) }
    ensures some { IfOk result (λ mode. (bytes : List ℕ) × AreBytes bytes × IsKeyedBy bytes mode) }
    ensures fault { IfErr result (λ fault. (fault ≡ Fault.KeyFile) ⊎ (fault ≡ Fault.File (FileFault.Read path.entry))) }
{
    match read_key(input, path) {
        Ok(Some(key)) => Ok(Mode::keyed(key)),
        Ok(None) => Err(Fault::KeyFile),
        Err(fault) => Err(Fault::File(fault)),
    }
}

// The same for the file at `path` on the disk.
fn mode_of_file<'a, D: Disk>(disk: &D, path: &'a str) -> Result<Mode, Fault<'a>>
    ensures some { IfOk result (IsKeyedIn (D.at disk.now path.now)) }
    ensures fault { IfErr result (λ fault. (fault ≡ Fault.KeyFile) ⊎ (fault ≡ Fault.File FileFault.Memory) ⊎ (fault ≡ Fault.File (FileFault.Read path.entry))) }
    ensures none { IfErr result (λ fault. fault ≡ Fault.KeyFile → GivesNoKey (D.at disk.now path.now)) }
{
    match disk.open(path) {
        Ok(mut input) => mode_of_input(&mut input, path),
        Err(fault) => Err(Fault::File(fault)),
    }
}

// The mode that is asked for by `--key` and `--context`, as in `mode_of`, or by the file of `--key-file`, as in
// `mode_of_input`. Refuses with `KeyFileAndOthers` if that file is given with one of the others, and doesn't open it then.
pub(crate) fn mode_by<'a, D: Disk>(
    disk: &D,
    key: Option<&'a str>,
    key_file: Option<&'a str>,
    context: Option<&'a str>,
) -> Result<Mode, Fault<'a>>
    ensures mode { IfOk result (AsksForMode (D.at disk.now) (option_copied key.entry) (option_copied key_file.entry) (option_copied context.entry)) }
    ensures fault { IfErr result (IsModeFault key_file.entry) }
    ensures due { IfErr result (IsModeDue (D.at disk.now) key.entry key_file.entry context.entry) }
    ensures mixed { IsSome key_file.entry → IsSome key.entry ⊎ IsSome context.entry → IsErrAnd result (λ fault. fault ≡ Fault.KeyFileAndOthers) }
{
    match (key_file, key, context) {
        (None, key, context) => mode_of(key, context),
        (Some(path), None, None) => mode_of_file(disk, path),
        (Some(_), Some(_), _) | (Some(_), _, Some(_)) => Err(Fault::KeyFileAndOthers),
    }
}

// The mode that a request asks for: by `--key` and `--context`, as in `mode_of`, or by the file of `--key-file`, as in
// `mode_of_input`. Refuses with `KeyFileAndOthers` if that file is given with one of the others, and doesn't open it then.
pub(crate) fn asked_mode<'a, D: Disk>(disk: &D, request: &Request<'a>) -> Result<Mode, Fault<'a>>
    ensures mode { IfOk result (HasMode (D.at disk.now) request.now) }
    ensures mixed { MixesKeys request.now → IsErrAnd result (λ fault. fault ≡ Fault.KeyFileAndOthers) }
    ensures fault { IfErr result (IsModeFault request.now.key_file) }
    ensures due { IfErr result (IsDue (D.at disk.now) request.now) }
{
    mode_by(disk, request.key, request.key_file, request.context)
}
