// The hash of one file.

ghost use Rattle.std.specs.Prelude.{◌≡◌, ◌⊎◌, ℕ, List, length, IfErr, IfOk, IfSome, Some};
ghost use Rattle.b3tree.specs.Hashing.{hash};
ghost use Rattle.b3tree.specs.Valid.{AreBytes};
ghost use Rattle.b3par.specs.Given.{HasOther};
ghost use Rattle.bao_files.specs.Disks.{IsStored, Opens};
ghost use Rattle.bao_files.specs.Extents.{extent_of};
ghost use Rattle.bao_sums.specs.Hashed.{IsFileHash};

use b3par::{PIECE_LEN, ReadFault, Source, WORKERS, hash_source};
use b3tree::{Hash, Mode};
use bao_files::{Disk, Extent, FileFault, Progress, Shown, hash_reader};
use std::alloc::Global;
use std::io::Read;
use std::thread::Threads;

// How many bytes a regular file is said to have.
pub(crate) fn regular_len(extent: Option<Extent>) -> Option<u64>
    ensures { (s : List ℕ) → extent ≡ Some (extent_of s) → result ≡ Some (length s) }
{
    let extent = extent?;
    extent.is_regular.then_some(extent.len)
}

// The hash of all that a reader has left.
fn read_hash<'a, I: Read>(
    alloc: Global,
    mode: &Mode,
    input: &mut I,
    path: &'a str,
) -> Result<Hash, FileFault<'a>>
    ensures all { IfOk result (λ answer. IfSome (I.remaining input.old) (λ s. answer.0 ≡ hash mode.now s)) }
    ensures some { IfOk result (λ answer. (bytes : List ℕ) × AreBytes bytes × (answer.0 ≡ hash mode.now bytes)) }
    ensures fault { IfErr result (λ fault. (fault ≡ FileFault.Memory) ⊎ (fault ≡ FileFault.Read path.entry)) }
{
    let mut piece = vec![in alloc; 0u8; PIECE_LEN]?;
    match hash_reader(mode, input, piece.as_mut_slice()) {
        Ok(hasher) => Ok(hasher.finalize()),
        Err(_) => Err(FileFault::Read(path)),
    }
}

// The hash of an input: by several threads if it has the length that a regular file is said to have, else by one.
fn hash_input<'a, R: AllocGlobal + Threads + Sync, I: Read + Source + Sync>(
    rt: &R,
    mode: &Mode,
    input: &mut I,
    len: Option<u64>,
    path: &'a str,
) -> Result<Hash, FileFault<'a>>
    ensures all { IfOk result (λ answer. IfSome (I.contents input.old) (λ s. I.remaining input.old ≡ Some s → answer.0 ≡ hash mode.now s)) }
    ensures some { IfOk result (λ answer. (bytes : List ℕ) × AreBytes bytes × (answer.0 ≡ hash mode.now bytes)) }
    ensures fault { IfErr result (λ fault. (fault ≡ FileFault.Memory) ⊎ (fault ≡ FileFault.Read path.entry)) }
    ensures other { IfErr result (λ fault. fault ≡ FileFault.Read path.entry → IfSome len (λ n. HasOther (I.contents input.old) (I.faultless input.old) n)) }
{
    let Some(len) = len else {
        return read_hash(rt.alloc(), mode, input, path);
    };
    match hash_source(rt, rt.alloc(), mode, input, len, WORKERS) {
        Ok(hash) => Ok(hash),
        Err(ReadFault::Memory) => Err(FileFault::Memory),
        Err(ReadFault::Reader) => read_hash(rt.alloc(), mode, input, path),
    }
}

// How many bytes are known to be read of the file at `path`: those of a regular one.
pub(crate) fn len_at<D: Disk>(disk: &D, path: &str) -> u64 {
    regular_len(disk.look(path)).unwrap_or(0)
}

// The hash of the file at `path`. `progress` is told how many bytes each read returned.
pub(crate) fn hash_file<'a, R: AllocGlobal + Threads + Sync, D: Disk, P: Progress + Sync>(
    rt: &R,
    disk: &D,
    mode: &Mode,
    path: &'a str,
    progress: &P,
) -> Result<Hash, FileFault<'a>>
    ensures hash { IfOk result (λ answer. IsFileHash (D.at disk.now path.now) mode.now answer.0) }
    ensures fault { IfErr result (λ fault. (fault ≡ FileFault.Memory) ⊎ (fault ≡ FileFault.Read path.entry)) }
    ensures unread { IfErr result (λ fault. fault ≡ FileFault.Read path.entry → D.faultless disk.now → ¬ IsStored (D.at disk.now path.now)) }
{
    let input = disk.open(path)?;
    let len = regular_len(disk.extent(&input));
    let mut input = Shown::over(input, None, progress);
    hash_input(rt, mode, &mut input, len, path)
}
