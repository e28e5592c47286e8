ghost use Rattle.std.specs.Prelude.{◌≡◌, ◌⊎◌, ℕ, ◌<◌, ◌≤◌, length, map, IfOk, IsErrOf, IsOk};
ghost use Rattle.bao_check.specs.declared.fault.CheckFault.{CheckFault};
ghost use Rattle.bao_script.specs.declared.fault.ReplayScriptFault.TheVariants.{Capacity, Illegal, Refused};
ghost use Rattle.bao_script.specs.Printouts.{IsPrinted, IsStopped};
ghost use Rattle.bao_script.specs.Slices.{AreAccepted, IsRefusedSlice, NameFiles, slices_of};

use crate::fault::ReplayScriptFault;
use crate::printed::push_held;
use crate::run::run_lines;
use crate::script::Script;
use crate::slice::{check_slices, cut_slices};
use b3tree::{Hash, Mode};
use std::alloc::Global;
use store_core::{BadCapacity, ScheduleRun};

/// Runs a script over slices of `files` from an empty store of `capacity` chunks of the blob with the hash
/// `root` in `mode`, and returns the text to print: a line for each reply, with the number of its script line,
/// and a last line with the number of chunks held.
///
/// Each slice that a line names is cut out of its file, a combined encoding, and checked under `root`. The
/// first step runs only once all are accepted.
///
/// Refuses with `Refused` (501 to 503) for the first line whose slice isn't accepted. After that it refuses
/// with `Capacity` (802) unless `capacity` is 1 to 65,536, and with `Illegal` (702) and the line of the first
/// step that isn't legal. Memory for a slice (401), for the schedule (701) and for the output each have a fault
/// of their own.
///
/// What is held at the end is the blob's, or there is a collision (`scripts_bind`).
pub fn replay_script(
    alloc: Global,
    root: Hash,
    mode: Mode,
    capacity: u32,
    script: &Script,
    files: &[Vec<u8>],
) -> Result<Vec<u8>, ReplayScriptFault>
    requires { NameFiles (length files.now) script.now }
    ensures printed { IfOk result (λ text. IsPrinted (record { root = root; mode = mode; capacity = capacity; base = 0 }) (map (λ file. file.items) files.now) script.now text.items) }
    ensures illegal { (number : ℕ) → IsErrOf result (Illegal number)
        → IsStopped (record { root = root; mode = mode; capacity = capacity; base = 0 }) (map (λ file. file.items) files.now) script.now number }
    ensures refused { (number : ℕ) (fault : CheckFault) → IsErrOf result (Refused number fault)
        → IsRefusedSlice mode root.0 (slices_of (map (λ file. file.items) files.now) script.now) number fault }
    ensures capacity { IsErrOf result Capacity → ((capacity ≡ 0) ⊎ (65536 < capacity)) × AreAccepted mode root.0 (slices_of (map (λ file. file.items) files.now) script.now) }
    ensures within { IsOk result → (0 < capacity) × (capacity ≤ 65536) }
    ensures illegal_within { (number : ℕ) → IsErrOf result (Illegal number) → (0 < capacity) × (capacity ≤ 65536) }
{
    let lines = script.lines();
    let slices = cut_slices(alloc, files, lines)?;
    let pieces = check_slices(alloc, &root, &mode, slices.as_slice())?;
    let mut run = match ScheduleRun::new(alloc, root, mode, capacity) {
        Ok(run) => run,
        Err(BadCapacity) => return Err(ReplayScriptFault::Capacity),
    };
    let mut text = String::new(alloc);
    run_lines(alloc, &mut run, pieces.as_slice(), lines, &mut text)?;
    push_held(&mut text, run.into_store().held_count())?;
    Ok(text.into_bytes())
}
