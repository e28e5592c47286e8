// Blobs that are gathered for one root. Who the holders are and what they have, in which form, how many workers there are, the grain
// and the capacity have no part in what is written: where both have a blob, it is the same, or the two are a collision. Which
// fault is answered depends on what each holder was asked for, and isn't determined.

ghost use Rattle.std.specs.Prelude.{◌≡◌, ◌⊎◌, ◌^◌, ◌<◌, ℕ, List, length};
ghost use Rattle.bao_files.specs.Disks.{IsKnown, Stored};
ghost use Rattle.bao_tasks.specs.FromFiles.{AreEnough, CollidesBeside, CollidesBesideOutline, HasRoom, HaveBytes, IsExcusedGathering, IsFromFile, IsInFile, fixed_of};
ghost use Rattle.bao_tasks.specs.GatheredFaults.{AreAbsent};
ghost use Rattle.bao_text.specs.Texts.{outboard_text};
ghost use Rattle.holders.specs.Blobs.{HasCollision};
ghost use Rattle.holders.specs.Blobs.{IsBlob};
ghost use Rattle.determined_texts.specs.Agreeing.{AgreeUnless};
ghost use Rattle.determined_program.specs.Files.{SameWhereKnown};
ghost use Rattle.determined_program.specs.Blobs.{AreAlike, AreSameFaults, SameOutboard, SamePut, SameRight};

use bao_files::{Disk, Progress};
use bao_tasks::{GatheredFault, Gathering, Notes, gather_beside_on, gather_on};
use std::thread::Threads;

// The same out of the same known files. Where both put a blob, it is one, or the two are a collision. On disks without faults, where it is known what
// is at OUT, the collision of a blob with the root is named from the files; neither says that there is none with the root, where there is one; and where
// one of the files is true, or several have the blob together in the parts that each run asks for, both put it, unless there was no memory or writing
// failed. Where no file is there, both name the first, memory aside. Which of the other faults is answered isn't determined.
pub fn gather_on_determined<
    'a,
    R: AllocGlobal + Threads + Sync,
    D: Disk,
    E: Disk,
    P: Progress + Sync,
>(
    rt: &R,
    ours: &mut D,
    theirs: &mut E,
    how: &Gathering<'_>,
    other_how: &Gathering<'_>,
    files: &[&'a str],
    path: &'a str,
    notes: &mut Notes,
    other_notes: &mut Notes,
    progress: &P,
) -> (
    Result<u64, GatheredFault<'a>>,
    Result<u64, GatheredFault<'a>>,
)
    requires same { (at : List ℕ) → D.at ours.old at ≡ E.at theirs.old at }
    requires alike { AreAlike how.now other_how.now }
    requires form { how.now.wanted.form ≡ other_how.now.wanted.form }
    ensures put { SamePut how.now.wanted.mode how.now.wanted.root.0 how.now.encode (D.at ours.old) (D.at ours.new) (E.at theirs.new) path.now result.0 result.1 }
    ensures absent { AreAbsent (D.at ours.old) files.now → AreSameFaults result.0 result.1 }
    ensures right { D.faultless ours.old → E.faultless theirs.old → IsKnown (D.at ours.old path.now) → (blob : List ℕ) → IsBlob (fixed_of how.now) blob
        → SameRight (D.at ours.old) (D.at ours.new) (E.at theirs.new) result.0 result.1
        ⊎ HasCollision (IsFromFile how.now.wanted.form (fixed_of how.now) how.now.long (D.at ours.old) files.now) (fixed_of how.now) blob }
    ensures enough { D.faultless ours.old → E.faultless theirs.old → IsKnown (D.at ours.old path.now) → (blob : List ℕ)
        → AreEnough how.now.wanted.form (fixed_of how.now) how.now blob (IsInFile (D.at ours.old) files.now)
        → AreEnough how.now.wanted.form (fixed_of how.now) other_how.now blob (IsInFile (D.at ours.old) files.now)
        → AgreeUnless (λ m n. (m ≡ n) × SameWhereKnown (D.at ours.old) (D.at ours.new) (E.at theirs.new)) IsExcusedGathering IsExcusedGathering result.0 result.1
        ⊎ HasCollision (IsFromFile how.now.wanted.form (fixed_of how.now) how.now.long (D.at ours.old) files.now) (fixed_of how.now) blob }
{
    (
        gather_on(rt, ours, how, files, path, notes, progress),
        gather_on(rt, theirs, other_how, files, path, other_notes, progress),
    )
}

// The same of plain copies beside an outboard encoding, which both accept or refuse by its first fault, where its bytes are known.
pub fn gather_beside_on_determined<
    'a,
    R: AllocGlobal + Threads + Sync,
    D: Disk,
    E: Disk,
    P: Progress + Sync,
>(
    rt: &R,
    ours: &mut D,
    theirs: &mut E,
    how: &Gathering<'_>,
    other_how: &Gathering<'_>,
    outboard: &'a str,
    files: &[&'a str],
    path: &'a str,
    notes: &mut Notes,
    other_notes: &mut Notes,
    progress: &P,
) -> (
    Result<u64, GatheredFault<'a>>,
    Result<u64, GatheredFault<'a>>,
)
    requires same { (at : List ℕ) → D.at ours.old at ≡ E.at theirs.old at }
    requires alike { AreAlike how.now other_how.now }
    ensures put { SamePut how.now.wanted.mode how.now.wanted.root.0 how.now.encode (D.at ours.old) (D.at ours.new) (E.at theirs.new) path.now result.0 result.1 }
    ensures outboard { (text : List ℕ) → D.at ours.old outboard.now ≡ Stored text → SameOutboard result.0 result.1 }
    ensures right { D.faultless ours.old → E.faultless theirs.old → IsKnown (D.at ours.old path.now) → (blob : List ℕ) → IsBlob (fixed_of how.now) blob
        → SameRight (D.at ours.old) (D.at ours.new) (E.at theirs.new) result.0 result.1
        ⊎ CollidesBesideOutline (fixed_of how.now) how.now.long (D.at ours.old) outboard.now files.now blob }
    ensures enough { D.faultless ours.old → E.faultless theirs.old → IsKnown (D.at ours.old path.now) → (blob : List ℕ)
        → IsBlob (fixed_of how.now) blob → HasRoom how.now (length blob) → 0 < length blob → length blob < 2 ^ 64
        → D.at ours.old outboard.now ≡ Stored (outboard_text how.now.wanted.mode blob)
        → IsInFile (D.at ours.old) files.now blob ⊎ HaveBytes (IsInFile (D.at ours.old) files.now) how.now.wanted.grain blob
        → IsInFile (D.at ours.old) files.now blob ⊎ HaveBytes (IsInFile (D.at ours.old) files.now) other_how.now.wanted.grain blob
        → AgreeUnless (λ m n. (m ≡ n) × SameWhereKnown (D.at ours.old) (D.at ours.new) (E.at theirs.new)) IsExcusedGathering IsExcusedGathering result.0 result.1
        ⊎ CollidesBeside (fixed_of how.now) how.now.long (D.at ours.old) files.now blob }
{
    (
        gather_beside_on(rt, ours, how, outboard, files, path, notes, progress),
        gather_beside_on(
            rt,
            theirs,
            other_how,
            outboard,
            files,
            path,
            other_notes,
            progress,
        ),
    )
}
