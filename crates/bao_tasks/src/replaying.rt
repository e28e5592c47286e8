ghost use Rattle.std.specs.Borrow.{Bor};
ghost use Rattle.std.specs.Prelude.{◌≡◌, ◌⊎◌, ◌<◌, ◌≤◌, ℕ, List, IfErr, IfOk, IsErrOf, IsOk, Some, length, map, slice_get};
ghost use Rattle.bao_check.specs.declared.fault.CheckFault.{CheckFault};
ghost use Rattle.bao_files.specs.Disks.{AreOf};
ghost use Rattle.bao_script.specs.Scripts.{IsFirstRefused};
ghost use Rattle.bao_script.specs.declared.fault.ReplayScriptFault.TheVariants as replay;
ghost use Rattle.bao_files.specs.declared.fault.FileFault.TheVariants as FileFault;
ghost use Rattle.bao_tasks.specs.declared.rerun_fault.RerunFault.TheVariants as RerunFault;
ghost use Rattle.bao_tasks.specs.Replayed.{AreOfAll, IsAcceptedRun, IsRefusedRun, IsRun, IsStoppedRun, OfFiles};
ghost use Rattle.bao_tasks.specs.RerunFaults.{IsOfNoFile, NamesRead};

use crate::rerun_fault::RerunFault;
use b3tree::{Hash, Mode, bytes_are};
use bao_files::{Disk, FileFault, read_input};
use bao_script::{ScriptFault, parse, replay_script};
use std::alloc::Global;

// Returns all bytes of the file at `path`.
fn read_one<'a, D: Disk>(alloc: Global, disk: &D, path: &'a str) -> Result<Vec<u8>, FileFault<'a>>
    ensures bytes { IfOk result (λ bytes. AreOf (D.at disk.now path.now) bytes.items) }
    ensures fault { IfErr result (λ fault. (fault ≡ FileFault.Memory) ⊎ (fault ≡ FileFault.Read path.entry)) }
{
    let mut file = disk.open(path)?;
    let Some(extent) = disk.extent(&file) else {
        return Err(FileFault::Read(path));
    };
    let bytes = read_input(alloc, &mut file, extent.len, path)?;
    // A law, so that the proof has what it says: nothing runs.
    bytes_are(bytes.as_slice());
    Ok(bytes)
}

// Returns the bytes of all files, in the order of the paths. The fault names the first that can't be read.
fn read_all<'a, D: Disk>(
    alloc: Global,
    disk: &D,
    paths: &[&'a str],
) -> Result<Vec<Vec<u8>>, FileFault<'a>>
    ensures count { IfOk result (λ files. length files.items ≡ length paths.now) }
    ensures files { IfOk result (λ files. AreOfAll (D.at disk.now) paths.now (map (λ file. file.items) files.items)) }
    ensures paths { IfErr result (λ fault. (fault ≡ FileFault.Memory)
        ⊎ ((i : ℕ) × (path : Bor (List ℕ)) × (slice_get paths.now i ≡ Some path) × (fault ≡ FileFault.Read path))) }
{
    let mut files = Vec::with_capacity(alloc, paths.len())?;
    for path in paths {
        files
            .push(read_one(alloc, disk, path)?)
            .map_err(|_| FileFault::Memory)?;
    }
    Ok(files)
}

/// Runs the schedule `script` on an empty store of `capacity` chunks for the blob with this root and returns what is
/// printed: the replies, and how many chunks are held in the end. The slices that its lines name are cut from `files`,
/// which are combined encodings.
///
/// Refuses with `Script` and the number of the first malformed line; and with `Replay`, in this order, for the first
/// slice that isn't accepted (501 to 503), for a capacity that isn't 1 to 65,536 (802) and for the first step that
/// isn't legal (702). If memory is refused, the fault is `File` with `Memory` (401) or one of `Replay` (401, 701, or
/// without a number).
pub fn replay_text<'a>(
    alloc: Global,
    mode: &Mode,
    root: &Hash,
    capacity: u32,
    script: &[u8],
    files: &[Vec<u8>],
) -> Result<Vec<u8>, RerunFault<'a>>
    ensures answer { IfOk result (λ text. IsRun mode.now root.now capacity script.now (map (λ file. file.items) files.now) text.items) }
    ensures script { (number : ℕ) → IsErrOf result (RerunFault.Script number) → IsFirstRefused (length files.now) script.now number }
    ensures illegal { (number : ℕ) → IsErrOf result (RerunFault.Replay (replay.Illegal number))
        → IsStoppedRun mode.now root.now capacity script.now (map (λ file. file.items) files.now) number }
    ensures refused { (number : ℕ) (fault : CheckFault) → IsErrOf result (RerunFault.Replay (replay.Refused number fault))
        → IsRefusedRun mode.now root.now script.now (map (λ file. file.items) files.now) number fault }
    ensures capacity { IsErrOf result (RerunFault.Replay replay.Capacity) → ((capacity ≡ 0) ⊎ (65536 < capacity))
        × IsAcceptedRun mode.now root.now script.now (map (λ file. file.items) files.now) }
    ensures within { IsOk result → (0 < capacity) × (capacity ≤ 65536) }
    ensures illegal_within { (number : ℕ) → IsErrOf result (RerunFault.Replay (replay.Illegal number)) → (0 < capacity) × (capacity ≤ 65536) }
    ensures file { IfErr result IsOfNoFile }
{
    let script = match parse(alloc, script, files.len()) {
        Ok(script) => script,
        Err(ScriptFault::Line { number }) => return Err(RerunFault::Script(number)),
        Err(ScriptFault::Memory) => return Err(RerunFault::File(FileFault::Memory)),
    };
    match replay_script(alloc, *root, *mode, capacity, &script, files) {
        Ok(text) => Ok(text),
        Err(fault) => Err(RerunFault::Replay(fault)),
    }
}

/// Runs the schedule in the file `script` with slices of `files`, all on `disk`, as [`replay_text`] does.
///
/// Refuses with `File` and `Read` the first file that can't be read, in the order of the arguments, before the
/// schedule is parsed; then as [`replay_text`] does.
pub fn replay_on<'a, D: Disk>(
    alloc: Global,
    disk: &D,
    mode: &Mode,
    root: &Hash,
    capacity: u32,
    script: &'a str,
    files: &[&'a str],
) -> Result<Vec<u8>, RerunFault<'a>>
    ensures answer { IfOk result (λ text. OfFiles (D.at disk.now) script.now files.now (λ lines pieces. IsRun mode.now root.now capacity lines pieces text.items)) }
    ensures script { (number : ℕ) → IsErrOf result (RerunFault.Script number) → OfFiles (D.at disk.now) script.now files.now (λ lines pieces. IsFirstRefused (length pieces) lines number) }
    ensures illegal { (number : ℕ) → IsErrOf result (RerunFault.Replay (replay.Illegal number))
        → OfFiles (D.at disk.now) script.now files.now (λ lines pieces. IsStoppedRun mode.now root.now capacity lines pieces number) }
    ensures refused { (number : ℕ) (fault : CheckFault) → IsErrOf result (RerunFault.Replay (replay.Refused number fault))
        → OfFiles (D.at disk.now) script.now files.now (λ lines pieces. IsRefusedRun mode.now root.now lines pieces number fault) }
    ensures capacity { IsErrOf result (RerunFault.Replay replay.Capacity) → ((capacity ≡ 0) ⊎ (65536 < capacity))
        × OfFiles (D.at disk.now) script.now files.now (λ lines pieces. IsAcceptedRun mode.now root.now lines pieces) }
    ensures within { IsOk result → (0 < capacity) × (capacity ≤ 65536) }
    ensures illegal_within { (number : ℕ) → IsErrOf result (RerunFault.Replay (replay.Illegal number)) → (0 < capacity) × (capacity ≤ 65536) }
    ensures file { IfErr result (NamesRead script.entry files.now) }
{
    let text = read_one(alloc, disk, script)?;
    let pieces = read_all(alloc, disk, files)?;
    replay_text(
        alloc,
        mode,
        root,
        capacity,
        text.as_slice(),
        pieces.as_slice(),
    )
}
