// Schedules that are run.

ghost use Rattle.std.specs.Prelude.{◌≡◌, ℕ, List};
ghost use Rattle.bao_files.specs.Disks.{Stored};
ghost use Rattle.determined_texts.specs.Agreeing.{AgreeUnless};
ghost use Rattle.determined_program.specs.Replays.{AreStored, IsWant, MayComeOfRun};

use b3tree::{Hash, Mode};
use bao_files::Disk;
use bao_tasks::{RerunFault, replay_on, replay_text};
use std::alloc::Global;

// Memory may run out at any time; each other fault is determined.
pub fn replay_text_determined<'a>(
    alloc: Global,
    mode: &Mode,
    root: &Hash,
    capacity: u32,
    script: &[u8],
    files: &[Vec<u8>],
) -> (
    Result<Vec<u8>, RerunFault<'a>>,
    Result<Vec<u8>, RerunFault<'a>>,
)
    ensures { AgreeUnless (λ a b. a.items ≡ b.items) IsWant IsWant result.0 result.1 }
{
    let one = replay_text(alloc, mode, root, capacity, script, files);
    let other = replay_text(alloc, mode, root, capacity, script, files);
    (one, other)
}

// The same of files whose bytes are known. That a file can't be read may come at any time, too.
pub fn replay_on_determined<'a, D: Disk, E: Disk>(
    alloc: Global,
    ours: &D,
    theirs: &E,
    mode: &Mode,
    root: &Hash,
    capacity: u32,
    script: &'a str,
    files: &[&'a str],
) -> (
    Result<Vec<u8>, RerunFault<'a>>,
    Result<Vec<u8>, RerunFault<'a>>,
)
    requires { (at : List ℕ) → D.at ours.now at ≡ E.at theirs.now at }
    ensures { (lines : List ℕ) (pieces : List (List ℕ)) → D.at ours.now script.now ≡ Stored lines → AreStored (D.at ours.now) files.now pieces
        → AgreeUnless (λ a b. a.items ≡ b.items) MayComeOfRun MayComeOfRun result.0 result.1 }
{
    let one = replay_on(alloc, ours, mode, root, capacity, script, files);
    let other = replay_on(alloc, theirs, mode, root, capacity, script, files);
    (one, other)
}
