// What `bao_files` prints on writers that hold the same. How much stands there after `Output` is the writer's.

ghost use Rattle.std.specs.Prelude.{◌≡◌, ◌+◌, ◌-◌, ◌^◌, ◌≤◌, ◌⊎◌, ℕ, List, IfErr, IfSome, Some};
ghost use Rattle.b3tree.specs.declared.mode.Mode.{Mode};
ghost use Rattle.b3tree.specs.Taken.{Holds};
ghost use Rattle.bao_files.specs.Disks.{Stored};
ghost use Rattle.bao_files.specs.Printed.{IsQuiet};
ghost use Rattle.determined_program.specs.Files.{SameWritten};

use b3par::Source;
use b3tree::{Hasher, Mode};
use bao_files::{
    Disk, FileFault, Progress, print_count, print_digits, print_file, print_input, print_output,
    print_reader, print_text,
};
use std::alloc::Global;
use std::io::{Read, Write};
use std::thread::Threads;

pub fn print_text_determined<'a, V: Write, W: Write>(
    text: &[u8],
    ours: &mut V,
    theirs: &mut W,
) -> (Result<(), FileFault<'a>>, Result<(), FileFault<'a>>)
    requires { V.contents ours.old ≡ W.contents theirs.old }
    ensures written { IfSome (V.contents ours.old) (λ _. SameWritten IsQuiet (V.contents ours.new) (W.contents theirs.new) result.0 result.1) }
    ensures fault { IfErr result.0 (λ e. IfErr result.1 (λ f. e ≡ f)) }
{
    (print_text(text, ours), print_text(text, theirs))
}

pub fn print_digits_determined<'a, V: Write, W: Write>(
    alloc: Global,
    bytes: &[u8],
    ours: &mut V,
    theirs: &mut W,
) -> (Result<(), FileFault<'a>>, Result<(), FileFault<'a>>)
    requires { V.contents ours.old ≡ W.contents theirs.old }
    ensures written { IfSome (V.contents ours.old) (λ _. SameWritten IsQuiet (V.contents ours.new) (W.contents theirs.new) result.0 result.1) }
    ensures fault { IfErr result.0 (λ e. IfErr result.1 (λ f. (e ≡ f) ⊎ (e ≡ FileFault.Memory) ⊎ (f ≡ FileFault.Memory))) }
{
    (
        print_digits(alloc, bytes, ours),
        print_digits(alloc, bytes, theirs),
    )
}

pub fn print_count_determined<'a, V: Write, W: Write>(
    alloc: Global,
    count: u64,
    ours: &mut V,
    theirs: &mut W,
) -> (Result<(), FileFault<'a>>, Result<(), FileFault<'a>>)
    requires { V.contents ours.old ≡ W.contents theirs.old }
    ensures written { IfSome (V.contents ours.old) (λ _. SameWritten IsQuiet (V.contents ours.new) (W.contents theirs.new) result.0 result.1) }
    ensures fault { IfErr result.0 (λ e. IfErr result.1 (λ f. (e ≡ f) ⊎ (e ≡ FileFault.Memory) ⊎ (f ≡ FileFault.Memory))) }
{
    (
        print_count(alloc, count, ours),
        print_count(alloc, count, theirs),
    )
}

pub fn print_output_determined<'a, V: Write, W: Write>(
    alloc: Global,
    a: &Hasher,
    b: &Hasher,
    at: u64,
    len: u32,
    ours: &mut V,
    theirs: &mut W,
) -> (Result<(), FileFault<'a>>, Result<(), FileFault<'a>>)
    requires end { at + len ≤ 2 ^ 64 - 1 }
    requires same { V.contents ours.old ≡ W.contents theirs.old }
    ensures written { (mode : Mode) (s : List ℕ) → Holds a.now mode s → Holds b.now mode s
        → IfSome (V.contents ours.old) (λ _. SameWritten IsQuiet (V.contents ours.new) (W.contents theirs.new) result.0 result.1) }
    ensures fault { IfErr result.0 (λ e. IfErr result.1 (λ f. (e ≡ f) ⊎ (e ≡ FileFault.Memory) ⊎ (f ≡ FileFault.Memory))) }
{
    (
        print_output(alloc, a, at, len, ours),
        print_output(alloc, b, at, len, theirs),
    )
}

// Any of the three faults may come at any time.
pub fn print_reader_determined<'a, R: Read, S: Read, V: Write, W: Write>(
    alloc: Global,
    mode: &Mode,
    a: &mut R,
    b: &mut S,
    path: &'a str,
    at: u64,
    len: u32,
    ours: &mut V,
    theirs: &mut W,
) -> (Result<(), FileFault<'a>>, Result<(), FileFault<'a>>)
    requires end { at + len ≤ 2 ^ 64 - 1 }
    requires left { R.remaining a.old ≡ S.remaining b.old }
    requires same { V.contents ours.old ≡ W.contents theirs.old }
    ensures { IfSome (R.remaining a.old) (λ _. IfSome (V.contents ours.old) (λ _.
        SameWritten IsQuiet (V.contents ours.new) (W.contents theirs.new) result.0 result.1)) }
{
    (
        print_reader(alloc, mode, a, path, at, len, ours),
        print_reader(alloc, mode, b, path, at, len, theirs),
    )
}

// So may they here, where the input stands at its beginning; whether it is read on several threads has no part in the answer.
pub fn print_input_determined<
    'a,
    R: AllocGlobal + Threads + Sync,
    I: Read + Source + Sync,
    J: Read + Source + Sync,
    V: Write,
    W: Write,
>(
    rt: &R,
    mode: &Mode,
    a: &mut I,
    b: &mut J,
    len_hint: Option<u64>,
    other_hint: Option<u64>,
    path: &'a str,
    at: u64,
    len: u32,
    ours: &mut V,
    theirs: &mut W,
) -> (Result<(), FileFault<'a>>, Result<(), FileFault<'a>>)
    requires end { at + len ≤ 2 ^ 64 - 1 }
    requires contents { I.contents a.old ≡ J.contents b.old }
    requires left { I.remaining a.old ≡ J.remaining b.old }
    requires same { V.contents ours.old ≡ W.contents theirs.old }
    ensures { IfSome (I.contents a.old) (λ s. I.remaining a.old ≡ Some s → IfSome (V.contents ours.old) (λ _.
        SameWritten IsQuiet (V.contents ours.new) (W.contents theirs.new) result.0 result.1)) }
{
    (
        print_input(rt, mode, a, len_hint, path, at, len, ours),
        print_input(rt, mode, b, other_hint, path, at, len, theirs),
    )
}

// So may they here, where the bytes of the file are known.
pub fn print_file_determined<
    'a,
    R: AllocGlobal + Threads + Sync,
    D: Disk,
    E: Disk,
    V: Write,
    W: Write,
    P: Progress + Sync,
>(
    rt: &R,
    our_disk: &D,
    their_disk: &E,
    mode: &Mode,
    file: &'a str,
    at: u64,
    len: u32,
    ours: &mut V,
    theirs: &mut W,
    progress: &P,
) -> (Result<(), FileFault<'a>>, Result<(), FileFault<'a>>)
    requires end { at + len ≤ 2 ^ 64 - 1 }
    requires files { D.at our_disk.now file.now ≡ E.at their_disk.now file.now }
    requires same { V.contents ours.old ≡ W.contents theirs.old }
    ensures { (s : List ℕ) → D.at our_disk.now file.now ≡ Stored s → IfSome (V.contents ours.old) (λ _.
        SameWritten IsQuiet (V.contents ours.new) (W.contents theirs.new) result.0 result.1) }
{
    (
        print_file(rt, our_disk, mode, file, at, len, ours, progress),
        print_file(rt, their_disk, mode, file, at, len, theirs, progress),
    )
}
