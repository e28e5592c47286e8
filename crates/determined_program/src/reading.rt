// Readers of `bao_files` that have the same left.

ghost use Rattle.std.specs.Prelude.{◌≡◌, ◌<◌, ◌⊎◌, ℕ, List, length, IfErr, IfOk, IfSome, OnOk};
ghost use Rattle.b3tree.specs.Hashing.{hash};
ghost use Rattle.b3tree.specs.declared.mode.Mode.{Mode};
ghost use Rattle.b3tree.specs.Taken.{Holds};

use b3tree::{Hash, Hasher, Mode};
use bao_files::{
    FileFault, InputFault, hash_reader, open_file, read_file, read_input, read_key, read_sized,
    read_whole,
};
use std::alloc::Global;
use std::io::Read;
use std::rt::Files;

// A growth may be refused and a read may fail at any time. However far it came: of as many bytes that were read the vectors have
// the same, and the readers have the same left.
pub fn read_whole_determined<R: Read, S: Read>(
    ours: &mut R,
    theirs: &mut S,
    a: &mut Vec<u8>,
    b: &mut Vec<u8>,
) -> (Result<(), InputFault>, Result<(), InputFault>)
    requires bytes { a.old.items ≡ b.old.items }
    requires same { R.remaining ours.old ≡ S.remaining theirs.old }
    ensures whole { IfSome (R.remaining ours.old) (λ _. OnOk result.0 (OnOk result.1 ((a.new.items ≡ b.new.items) × (R.remaining ours.new ≡ S.remaining theirs.new)))) }
    ensures part { IfSome (R.remaining ours.old) (λ _. length a.new.items ≡ length b.new.items → (a.new.items ≡ b.new.items) × (R.remaining ours.new ≡ S.remaining theirs.new)) }
{
    (read_whole(ours, a), read_whole(theirs, b))
}

// The same, whatever sizes they are said to have.
pub fn read_sized_determined<R: Read, S: Read>(
    ours: &mut R,
    theirs: &mut S,
    size: u64,
    other_size: u64,
    a: &mut Vec<u8>,
    b: &mut Vec<u8>,
) -> (Result<(), InputFault>, Result<(), InputFault>)
    requires bytes { a.old.items ≡ b.old.items }
    requires same { R.remaining ours.old ≡ S.remaining theirs.old }
    ensures whole { IfSome (R.remaining ours.old) (λ _. OnOk result.0 (OnOk result.1 ((a.new.items ≡ b.new.items) × (R.remaining ours.new ≡ S.remaining theirs.new)))) }
    ensures part { IfSome (R.remaining ours.old) (λ _. length a.new.items ≡ length b.new.items → (a.new.items ≡ b.new.items) × (R.remaining ours.new ≡ S.remaining theirs.new)) }
{
    (read_sized(ours, size, a), read_sized(theirs, other_size, b))
}

// Either of the two faults may come at any time.
pub fn read_input_determined<'a, R: Read, S: Read>(
    alloc: Global,
    ours: &mut R,
    theirs: &mut S,
    size: u64,
    other_size: u64,
    path: &'a str,
) -> (
    Result<Vec<u8>, FileFault<'a>>,
    Result<Vec<u8>, FileFault<'a>>,
)
    requires { R.remaining ours.old ≡ S.remaining theirs.old }
    ensures { IfSome (R.remaining ours.old) (λ _. IfOk result.0 (λ a. IfOk result.1 (λ b. a.items ≡ b.items))) }
{
    let one = read_input(alloc, ours, size, path);
    let other = read_input(alloc, theirs, other_size, path);
    (one, other)
}

// A read may fail at any time, and that is the only fault.
pub fn read_key_determined<'a, R: Read, S: Read>(
    ours: &mut R,
    theirs: &mut S,
    path: &'a str,
) -> (
    Result<Option<[u8; 32]>, FileFault<'a>>,
    Result<Option<[u8; 32]>, FileFault<'a>>,
)
    requires { R.remaining ours.old ≡ S.remaining theirs.old }
    ensures key { IfSome (R.remaining ours.old) (λ _. IfOk result.0 (λ a. IfOk result.1 (λ b. a ≡ b))) }
    ensures fault { IfErr result.0 (λ e. IfErr result.1 (λ f. e ≡ f)) }
{
    let one = read_key(ours, path);
    let other = read_key(theirs, path);
    (one, other)
}

// The hash that a hasher gives, where there is one.
fn finished(answer: Result<Hasher, InputFault>) -> Result<Hash, InputFault>
    ensures hash { (mode : Mode) (s : List ℕ) → IfOk answer (λ hasher. Holds hasher mode s) → IfOk result (λ found. found.0 ≡ hash mode s) }
    ensures fault { IfErr result (λ f. answer ≡ Err f) }
{
    match answer {
        Ok(hasher) => Ok(hasher.finalize()),
        Err(fault) => Err(fault),
    }
}

// A read may fail at any time. What a hasher's buffer has isn't determined; the hash that it gives is.
pub fn hash_reader_determined<R: Read, S: Read>(
    mode: &Mode,
    ours: &mut R,
    theirs: &mut S,
    piece: &mut [u8],
    other_piece: &mut [u8],
) -> (Result<Hash, InputFault>, Result<Hash, InputFault>)
    requires first { 0 < length piece.old }
    requires second { 0 < length other_piece.old }
    requires same { R.remaining ours.old ≡ S.remaining theirs.old }
    ensures hash { IfSome (R.remaining ours.old) (λ _. IfOk result.0 (λ a. IfOk result.1 (λ b. a ≡ b))) }
    ensures fault { IfErr result.0 (λ e. IfErr result.1 (λ f. e ≡ f)) }
{
    let one = hash_reader(mode, ours, piece);
    let other = hash_reader(mode, theirs, other_piece);
    (finished(one), finished(other))
}

// Which fault it is, but for the want of memory; what a file has no contract knows.
pub fn read_file_determined<'a, R: Files + AllocGlobal>(
    rt: &R,
    path: &'a str,
) -> (
    Result<Vec<u8>, FileFault<'a>>,
    Result<Vec<u8>, FileFault<'a>>,
)
    ensures { IfErr result.0 (λ e. IfErr result.1 (λ f. (e ≡ f) ⊎ (e ≡ FileFault.Memory) ⊎ (f ≡ FileFault.Memory))) }
{
    let one = read_file(rt, path);
    let other = read_file(rt, path);
    (one, other)
}

// Which fault it is; whether a file can be opened no contract knows.
pub fn open_file_determined<'a, R: Files>(
    rt: &R,
    path: &'a str,
) -> (
    Result<R::File, FileFault<'a>>,
    Result<R::File, FileFault<'a>>,
)
    ensures { IfErr result.0 (λ e. IfErr result.1 (λ f. e ≡ f)) }
{
    let one = open_file(rt, path);
    let other = open_file(rt, path);
    (one, other)
}
