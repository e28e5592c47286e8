// Small files, which are hashed side by side, before it is the turn of the first of them.

ghost use Rattle.std.specs.Prelude.{◌≡◌, ℕ, List, ◌<◌, All, [], length, IfOk, IfSome, None, Ok, slice_index_or, vec_len};
ghost use Rattle.b3tree.specs.declared.mode.Mode.{Mode};
ghost use Rattle.bao_files.specs.Disks.{FileState, IsStored};
ghost use Rattle.bao_sums.specs.Early.{IsHashedEarly, IsOpened};
ghost use Rattle.bao_sums.specs.Hashed.{IsFileHash};

use crate::one::{hash_file, regular_len};
use b3par::{LEAST_RANGE_LEN, Source, WORKERS, hash_source};
use b3tree::{Hash, Mode};
use bao_files::{Disk, FileFault, Progress};
use std::alloc::{AllocError, Global};
use std::io::Read;
use std::thread::{Threads, map_indices};

/// How many files are looked at together for small ones.
pub(crate) const BATCH: usize = 64;

/// Returns whether a batch begins with the file with this index.
pub(crate) fn begins_batch(index: usize) -> bool {
    index % BATCH == 0
}

// A small file that was opened.
#[derive(Drop)]
pub(crate) struct Opened<'a, I> {
    path: &'a str,
    input: I,
    len: u64,
}

/// A small file's hash, if it could be had beside others.
#[derive(Clone, Copy)]
pub(crate) struct Early<'a> {
    path: &'a str,
    hash: Option<Hash>,
    len: u64,
}

// Opens a file, if it is a regular one of fewer bytes than are worth threads of their own.
fn open_small<'a, D: Disk>(disk: &D, path: &'a str) -> Option<Opened<'a, D::Input>>
    ensures { IfSome result (IsOpened D.Input.contents D.Input.remaining (D.at disk.now)) }
{
    let len = regular_len(disk.look(path))?;
    if len >= LEAST_RANGE_LEN {
        return None;
    }
    match disk.open(path) {
        Ok(input) => Some(Opened { path, input, len }),
        Err(_) => None,
    }
}

// Opens the small ones of the first files.
fn open_batch<'a, D: Disk>(
    alloc: Global,
    disk: &D,
    paths: &[&'a str],
) -> Result<Vec<Opened<'a, D::Input>>, AllocError>
    ensures { IfOk result (λ batch. All (IsOpened D.Input.contents D.Input.remaining (D.at disk.now)) batch.items) }
{
    let mut batch = Vec::new(alloc);
    let count = paths.len().min(BATCH);
    for path in &paths[..count] {
        if let Some(opened) = open_small(disk, path) {
            batch.push(opened)?;
        }
    }
    Ok(batch)
}

// The hash of a small file, if it can be read and there is memory.
fn hash_small<'a, R: AllocGlobal + Threads + Sync, I: Read + Source + Sync>(
    rt: &R,
    mode: &Mode,
    opened: &Opened<'a, I>,
) -> Early<'a>
    ensures { (at : List ℕ → FileState) → IsOpened I.contents I.remaining at opened.now → IsHashedEarly at mode.now result }
{
    let Opened { path, input, len } = opened;
    Early {
        path,
        hash: hash_source(rt, rt.alloc(), mode, input, *len, 1).ok(),
        len: *len,
    }
}

// The hashes of one worker's files: as many as it has memory for.
fn hash_share<'a, R: AllocGlobal + Threads + Sync, I: Read + Source + Sync>(
    rt: &R,
    mode: &Mode,
    batch: &[Opened<'a, I>],
    worker: usize,
) -> Vec<Early<'a>>
    ensures { (at : List ℕ → FileState) → All (IsOpened I.contents I.remaining at) batch.now → All (IsHashedEarly at mode.now) result.items }
{
    let count = batch.len().div_ceil(WORKERS);
    let start = worker.saturating_mul(count).min(batch.len());
    let end = start.saturating_add(count).min(batch.len());
    let mut share = Vec::new(rt.alloc());
    for opened in &batch[start..end] {
        if share.push(hash_small(rt, mode, opened)).is_err() {
            return share;
        }
    }
    share
}

// The hashes of all files, by several workers.
fn hash_shares<'a, R: AllocGlobal + Threads + Sync, I: Read + Source + Sync>(
    rt: &R,
    mode: &Mode,
    batch: &[Opened<'a, I>],
) -> Result<Vec<Vec<Early<'a>>>, AllocError>
    ensures { IfOk result (λ shares. (at : List ℕ → FileState) → All (IsOpened I.contents I.remaining at) batch.now
        → (i : ℕ) (d : _) → i < vec_len shares → All (IsHashedEarly at mode.now) (slice_index_or shares.items i d).items) }
{
    map_indices(
        rt,
        rt.alloc(),
        WORKERS,
        &|worker: usize| -> Vec<Early>
            ensures { (at : List ℕ → FileState) → All (IsOpened I.contents I.remaining at) batch.entry.now → All (IsHashedEarly at mode.entry.now) result.items }
        { hash_share(rt, mode, batch, worker) },
    )
}

// The same in one list.
fn joined<'a>(alloc: Global, shares: &[Vec<Early<'a>>]) -> Result<Vec<Early<'a>>, AllocError>
    ensures { IfOk result (λ all. (at : List ℕ → FileState) (mode : Mode)
        → ((i : ℕ) (d : _) → i < length shares.now → All (IsHashedEarly at mode) (slice_index_or shares.now i d).items) → All (IsHashedEarly at mode) all.items) }
{
    let mut all = Vec::new(alloc);
    for share in shares {
        all.extend_from_slice(share.as_slice())?;
    }
    Ok(all)
}

// The hashes of the small ones of the first files, which are hashed side by side.
fn hash_early<'a, R: AllocGlobal + Threads + Sync, D: Disk>(
    rt: &R,
    disk: &D,
    mode: &Mode,
    paths: &[&'a str],
) -> Result<Vec<Early<'a>>, AllocError>
    ensures { IfOk result (λ all. All (IsHashedEarly (D.at disk.now) mode.now) all.items) }
{
    let batch = open_batch(rt.alloc(), disk, paths)?;
    if batch.len() < 2 {
        return Ok(Vec::new(rt.alloc()));
    }
    let shares = hash_shares(rt, mode, batch.as_slice())?;
    joined(rt.alloc(), shares.as_slice())
}

/// The hashes of small files that come next, as far as they could be had.
#[derive(Drop)]
pub(crate) struct Ahead<'a> {
    early: Vec<Early<'a>>,
    // How many of them were looked at.
    seen: usize,
}

impl<'a> Ahead<'a> {
    /// Returns no hashes.
    pub(crate) fn new(alloc: Global) -> Ahead<'a>
        ensures { result.early.items ≡ [] }
    {
        Ahead {
            early: Vec::new(alloc),
            seen: 0,
        }
    }

    /// At a file whose index begins a batch, goes on to the small ones of the first of `paths`, which are hashed side by
    /// side. Without memory for that there are none.
    pub(crate) fn go_on<R: AllocGlobal + Threads + Sync, D: Disk>(
        &mut self,
        rt: &R,
        disk: &D,
        mode: &Mode,
        index: usize,
        paths: &[&'a str],
    )
        requires { All (IsHashedEarly (D.at disk.now) mode.now) self.old.early.items }
        ensures { All (IsHashedEarly (D.at disk.now) mode.now) self.new.early.items }
    {
        if !begins_batch(index) {
            return;
        }
        self.seen = 0;
        self.early = match hash_early(rt, disk, mode, paths) {
            Ok(early) => early,
            Err(_) => Vec::new(rt.alloc()),
        };
    }

    // The next hash, if it is that of the file at `path`. `progress` is told how many bytes that was made of.
    fn next<P: Progress>(&mut self, path: &str, progress: &P) -> Option<Hash>
        ensures same { self.new.early ≡ self.old.early }
        ensures hash { (at : List ℕ → FileState) (mode : Mode) → All (IsHashedEarly at mode) self.old.early.items
            → IfSome result (λ answer. IsFileHash (at path.now) mode answer.0) }
    {
        let early = self.early.get(self.seen)?;
        if early.path != path {
            return None;
        }
        self.seen += 1;
        let hash = early.hash?;
        progress.add(early.len);
        Some(hash)
    }

    /// Returns the hash of the file at `path`, or none if it can't be read. `progress` is told how many bytes were read, and
    /// that a file is done.
    pub(crate) fn hash_at<R: AllocGlobal + Threads + Sync, D: Disk, P: Progress + Sync>(
        &mut self,
        rt: &R,
        disk: &D,
        mode: &Mode,
        path: &str,
        progress: &P,
    ) -> Result<Option<Hash>, AllocError>
        requires { All (IsHashedEarly (D.at disk.now) mode.now) self.old.early.items }
        ensures same { self.new.early ≡ self.old.early }
        ensures hash { IfOk result (λ found. IfSome found (λ answer. IsFileHash (D.at disk.now path.now) mode.now answer.0)) }
        ensures unread { result ≡ Ok None → D.faultless disk.now → ¬ IsStored (D.at disk.now path.now) }
    {
        if let Some(hash) = self.next(path, progress) {
            progress.file_done();
            return Ok(Some(hash));
        }
        let hashed = hash_file(rt, disk, mode, path, progress);
        progress.file_done();
        match hashed {
            Ok(hash) => Ok(Some(hash)),
            Err(FileFault::Memory) => Err(AllocError),
            Err(_) => Ok(None),
        }
    }
}
