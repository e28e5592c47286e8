// Encodings that `bao_files` writes to writers that hold the same.

ghost use Rattle.std.specs.Prelude.{◌≡◌, ℕ, List, length, IfOk, IfSome, OnErr, OnOk, Some};
ghost use Rattle.bao_files.specs.Disks.{Absent, IsKnown, Stored};
ghost use Rattle.bao_files.specs.Encoded.{IsAfterReading, IsReadOnce};
ghost use Rattle.bao_files.specs.declared.fault.FileFault.TheVariants as FileFault;
ghost use Rattle.determined_texts.specs.Agreeing.{AgreeButFor, AgreeUnless};
ghost use Rattle.determined_program.specs.Files.{IsBeforeWriting, SameWhereKnown, SameWritten};

use b3par::Source;
use b3tree::{Hash, Mode};
use bao_files::{Disk, FileFault, Progress, encode_input, encode_on, write_encoding};
use bao_text::{Encoding, WriteFault};
use std::alloc::Global;
use std::io::{Read, Write};
use std::thread::Threads;

// Memory may run out and a writer may fail at any time. After a fault the writers hold the same where it has the same count.
pub fn write_encoding_determined<V: Write, W: Write>(
    alloc: Global,
    mode: &Mode,
    encoding: Encoding,
    bytes: &[u8],
    ours: &mut V,
    theirs: &mut W,
) -> (Result<Hash, WriteFault>, Result<Hash, WriteFault>)
    requires { V.contents ours.old ≡ W.contents theirs.old }
    ensures hash { IfOk result.0 (λ a. IfOk result.1 (λ b. a ≡ b)) }
    ensures written { IfSome (V.contents ours.old) (λ _. result.0 ≡ result.1 → V.contents ours.new ≡ W.contents theirs.new) }
{
    (
        write_encoding(alloc, mode, encoding, bytes, ours),
        write_encoding(alloc, mode, encoding, bytes, theirs),
    )
}

// The input stands at its beginning. Any of the faults may come at any time; whether it is read on several threads, and once or
// twice, has no part in the answer.
pub fn encode_input_determined<
    'a,
    R: Threads + Sync + AllocGlobal,
    I: Read + Source + Sync,
    J: Read + Source + Sync,
    V: Write,
    W: Write,
>(
    rt: &R,
    mode: &Mode,
    encoding: Encoding,
    a: &mut I,
    b: &mut J,
    size: u64,
    other_size: u64,
    file: &'a str,
    ours: &mut V,
    theirs: &mut W,
    path: &'a str,
) -> (Result<Hash, FileFault<'a>>, Result<Hash, FileFault<'a>>)
    requires contents { I.contents a.old ≡ J.contents b.old }
    requires left { I.remaining a.old ≡ J.remaining b.old }
    requires same { V.contents ours.old ≡ W.contents theirs.old }
    ensures hash { IfSome (I.contents a.old) (λ s. I.remaining a.old ≡ Some s → IfOk result.0 (λ x. IfOk result.1 (λ y. x ≡ y))) }
    ensures written { IfSome (I.contents a.old) (λ s. I.remaining a.old ≡ Some s → IfSome (V.contents ours.old) (λ _.
        SameWritten (IsBeforeWriting encoding) (V.contents ours.new) (W.contents theirs.new) result.0 result.1)) }
{
    (
        encode_input(rt, mode, encoding, a, size, file, ours, path),
        encode_input(rt, mode, encoding, b, other_size, file, theirs, path),
    )
}

// Where the file's bytes are known, so is the hash, and so is what is at each path of which it was known before. Any of the faults may come at any
// time; but of a known file on a disk without faults, which is read once, none does but want of memory and a write that fails.
pub fn encode_on_determined<
    'a,
    R: AllocGlobal + Threads + Sync,
    D: Disk,
    E: Disk,
    P: Progress + Sync,
>(
    rt: &R,
    ours: &mut D,
    theirs: &mut E,
    mode: &Mode,
    encoding: Encoding,
    file: &'a str,
    path: &'a str,
    progress: &P,
) -> (Result<Hash, FileFault<'a>>, Result<Hash, FileFault<'a>>)
    requires { (at : List ℕ) → D.at ours.old at ≡ E.at theirs.old at }
    ensures hash { IsKnown (D.at ours.old file.now) → IfOk result.0 (λ a. IfOk result.1 (λ b. a ≡ b)) }
    ensures put { IsKnown (D.at ours.old file.now) → OnOk result.0 (OnOk result.1 (SameWhereKnown (D.at ours.old) (D.at ours.new) (E.at theirs.new))) }
    ensures kept { OnErr result.0 (OnErr result.1 (SameWhereKnown (D.at ours.old) (D.at ours.new) (E.at theirs.new))) }
    ensures answer { D.faultless ours.old → E.faultless theirs.old → IsKnown (D.at ours.old path.now) → (bytes : List ℕ) → D.at ours.old file.now ≡ Stored bytes
        → IsReadOnce encoding (length bytes) → AgreeUnless (λ a b. a ≡ b) (IsAfterReading path.entry) (IsAfterReading path.entry) result.0 result.1 }
    ensures absent { D.at ours.old file.now ≡ Absent
        → AgreeButFor FileFault.Memory (λ _ _. ⊥) result.0 result.1 }
{
    (
        encode_on(rt, ours, mode, encoding, file, path, progress),
        encode_on(rt, theirs, mode, encoding, file, path, progress),
    )
}
