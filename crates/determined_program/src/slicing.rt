// Slices that are cut out of files, and verified.

ghost use Rattle.std.specs.Prelude.{◌≡◌, ◌^◌, ◌<◌, ◌≤◌, ℕ, List, Some, length, OnErr, OnOk};
ghost use Rattle.bao_decode.specs.Ranges.{IsPartText};
ghost use Rattle.bao_decode.specs.Weaving.{cut_beside};
ghost use Rattle.bao_decode.specs.declared.decode_fault.DecodeFault.TheVariants as DecodeFault;
ghost use Rattle.bao_files.specs.Disks.{Absent, IsKnown, Stored};
ghost use Rattle.bao_files.specs.declared.fault.FileFault.TheVariants as FileFault;
ghost use Rattle.bao_text.specs.Cut.{cut_text};
ghost use Rattle.bao_text.specs.declared.kinds.Part.TheVariants as Part;
ghost use Rattle.determined_texts.specs.Agreeing.{AgreeButFor, AgreeUnless};
ghost use Rattle.determined_program.specs.Files.{SameWhereKnown};
ghost use Rattle.determined_program.specs.Copies.{MayComeBeside, MayComeOfCopy};

use b3par::Source;
use b3tree::{Hash, Mode};
use bao_decode::{DecodeFault, has_slice, outline_length, slice_beside_on, slice_on};
use bao_files::Disk;
use std::alloc::Global;

// Memory may run out at any time, and on a disk that isn't faultless a read may fail. Writing may fail too, but that is returned only if the slice is
// accepted. Everything else is decided by the encoding, if it isn't longer than any file, and both disks agree at each path that was known before.
pub fn slice_on_determined<'a, D: Disk, E: Disk>(
    alloc: Global,
    ours: &mut D,
    theirs: &mut E,
    mode: &Mode,
    root: &Hash,
    start: u64,
    len: u64,
    file: &'a str,
    path: &'a str,
) -> (Result<u64, DecodeFault<'a>>, Result<u64, DecodeFault<'a>>)
    requires { (at : List ℕ) → D.at ours.old at ≡ E.at theirs.old at }
    ensures answer { IsKnown (D.at ours.old path.now) → (text : List ℕ) → D.at ours.old file.now ≡ Stored text → length text < 2 ^ 63
        → AgreeUnless (λ m n. m ≡ n) (MayComeOfCopy (IsPartText mode.now root.now.0 (Part.Slice start len) (cut_text text start len)) (D.faultless ours.old) file.entry path.entry) (MayComeOfCopy (IsPartText mode.now root.now.0 (Part.Slice start len) (cut_text text start len)) (E.faultless theirs.old) file.entry path.entry) result.0 result.1 }
    ensures absent { D.at ours.old file.now ≡ Absent
        → AgreeButFor (DecodeFault.File FileFault.Memory) (λ _ _. ⊥) result.0 result.1 }
    ensures put { (text : List ℕ) → D.at ours.old file.now ≡ Stored text → length text < 2 ^ 64
        → OnOk result.0 (OnOk result.1 (SameWhereKnown (D.at ours.old) (D.at ours.new) (E.at theirs.new))) }
    ensures kept { OnErr result.0 (OnErr result.1 (SameWhereKnown (D.at ours.old) (D.at ours.new) (E.at theirs.new))) }
{
    (
        slice_on(alloc, ours, mode, root, start, len, file, path),
        slice_on(alloc, theirs, mode, root, start, len, file, path),
    )
}

// The same for a plain copy beside an outboard encoding, if the slice isn't longer than any file.
pub fn slice_beside_on_determined<'a, D: Disk, E: Disk>(
    alloc: Global,
    ours: &mut D,
    theirs: &mut E,
    mode: &Mode,
    root: &Hash,
    start: u64,
    len: u64,
    outboard: &'a str,
    copy: &'a str,
    path: &'a str,
) -> (Result<u64, DecodeFault<'a>>, Result<u64, DecodeFault<'a>>)
    requires { (at : List ℕ) → D.at ours.old at ≡ E.at theirs.old at }
    ensures answer { IsKnown (D.at ours.old path.now) → (outline bytes : List ℕ) → D.at ours.old outboard.now ≡ Stored outline → D.at ours.old copy.now ≡ Stored bytes
        → length (cut_beside outline bytes start len) < 2 ^ 63 → AgreeUnless (λ m n. m ≡ n) (MayComeBeside (IsPartText mode.now root.now.0 (Part.Slice start len) (cut_beside outline bytes start len)) (D.faultless ours.old) outboard.entry copy.entry path.entry)
        (MayComeBeside (IsPartText mode.now root.now.0 (Part.Slice start len) (cut_beside outline bytes start len)) (E.faultless theirs.old) outboard.entry copy.entry path.entry) result.0 result.1 }
    ensures absent { D.at ours.old outboard.now ≡ Absent
        → AgreeButFor (DecodeFault.File FileFault.Memory) (λ _ _. ⊥) result.0 result.1 }
    ensures put { (outline bytes : List ℕ) → D.at ours.old outboard.now ≡ Stored outline → D.at ours.old copy.now ≡ Stored bytes
        → OnOk result.0 (OnOk result.1 (SameWhereKnown (D.at ours.old) (D.at ours.new) (E.at theirs.new))) }
    ensures kept { OnErr result.0 (OnErr result.1 (SameWhereKnown (D.at ours.old) (D.at ours.new) (E.at theirs.new))) }
{
    (
        slice_beside_on(alloc, ours, mode, root, start, len, outboard, copy, path),
        slice_beside_on(alloc, theirs, mode, root, start, len, outboard, copy, path),
    )
}

// Of two files whose bytes are known, and whose reads never fail, it is decided whether a slice is had of them.
pub fn has_slice_determined<S: Source>(
    mode: &Mode,
    root: &Hash,
    outboard: &S,
    copy: &S,
    start: u64,
    len: u64,
    block: &mut [u8],
    room: &mut [u8],
) -> (bool, bool)
    requires block { (1024 ≤ length block.old) × (length block.old ≤ 2 ^ 32) }
    requires room { length block.old ≤ length room.old }
    ensures { (outline bytes : List ℕ) → S.contents outboard.now ≡ Some outline → S.contents copy.now ≡ Some bytes → S.faultless outboard.now → S.faultless copy.now → result.0 ≡ result.1 }
{
    let one = has_slice(mode, root, outboard, copy, start, len, block, room);
    let other = has_slice(mode, root, outboard, copy, start, len, block, room);
    (one, other)
}

// Nor is it open which length an outboard file claims that is accepted, if its size is right.
pub fn outline_length_determined<S: Source>(
    mode: &Mode,
    root: &Hash,
    outboard: &S,
    size: u64,
) -> (Option<u64>, Option<u64>)
    ensures { (outline : List ℕ) → S.contents outboard.now ≡ Some outline → size ≡ length outline → S.faultless outboard.now → result.0 ≡ result.1 }
{
    (
        outline_length(mode, root, outboard, size),
        outline_length(mode, root, outboard, size),
    )
}
