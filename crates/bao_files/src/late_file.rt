ghost use Rattle.std.specs.Prelude.{◌≡◌, ◌≤◌, IfOk, None, length, string_bytes};

use std::alloc::{AllocError, Global};
use std::cell::Cell;
use std::fs::{File, Metadata, OpenFile, OpenOptions, TryLockError};
use std::io::{ErrorKind, Seek, Write};
use std::os::unix::fs::{MetadataExt, OpenOptionsExt, fchown};
use std::rt::Files;
use std::{fs, io};

// What the name of the new file ends with: the first of these that no other run has. They aren't those of a browser's downloads, since what a killed run
// left under them is removed.
const SUFFIXES: [&str; 9] = [
    ".part.gather",
    ".part.gather2",
    ".part.gather3",
    ".part.gather4",
    ".part.gather5",
    ".part.gather6",
    ".part.gather7",
    ".part.gather8",
    ".part.gather9",
];

// The most bytes that one of them has.
const MOST_SUFFIX_LEN: usize = 13;

// The most bytes that a file system takes for a name.
const MOST_NAME_LEN: usize = 255;

// A regular file that is to be replaced, or made, and the new file beside it.
#[derive(Drop)]
struct DraftPlace {
    target: String,
    // With room for the target's name and a suffix.
    draft: String,
}

// The name of what is to be replaced at this path, and room for that of the new file.
fn named(alloc: Global, target: &str) -> Result<DraftPlace, AllocError> {
    let room = target.len().saturating_add(MOST_SUFFIX_LEN);
    Ok(DraftPlace {
        target: String::from_str(alloc, target)?,
        draft: String::with_capacity(alloc, room)?,
    })
}

// Whether the name is one of a file that is open, and so stands for what is written to it and not for a file's place.
fn is_open_file(path: &str) -> bool {
    path.starts_with("/dev/fd/")
        || path.starts_with("/proc/")
        || matches!(path, "/dev/stdin" | "/dev/stdout" | "/dev/stderr")
}

// What is replaced at the path: nothing, where there is no regular file but something else.
fn place_of<R: Files + AllocGlobal>(rt: &R, path: &str) -> Result<Option<DraftPlace>, AllocError> {
    if is_open_file(path) {
        return Ok(None);
    }
    let alloc = rt.alloc();
    let metadata = match fs::symlink_metadata(rt, path) {
        Ok(metadata) => metadata,
        Err(error) if error.kind() == ErrorKind::NotFound => {
            return Ok(Some(named(alloc, path)?));
        }
        Err(_) => return Ok(None),
    };
    if metadata.is_file() {
        return Ok(Some(named(alloc, path)?));
    }
    match fs::metadata(rt, path) {
        Ok(metadata) if metadata.is_file() => {}
        _ => return Ok(None),
    }
    match fs::canonicalize(rt, path) {
        Ok(target) => Ok(Some(named(alloc, target.into_string().as_str())?)),
        Err(error) if error.kind() == ErrorKind::OutOfMemory => Err(AllocError),
        Err(_) => Ok(None),
    }
}

// What the system says of the file that is to be replaced, if there is one. It has to be one that may be written.
fn replaced_by<R: Files>(rt: &R, target: &str) -> io::Result<Option<Metadata>> {
    match OpenOptions::new().write(true).open(rt, target) {
        Ok(file) => Ok(Some(file.metadata()?)),
        Err(error) if error.kind() == ErrorKind::NotFound => Ok(None),
        Err(error) => Err(error),
    }
}

// Gives the new file the group, the owner and the permissions of the one that it is to replace: the first two as far as the system allows it.
fn dress(file: &File, replaced: &Metadata) -> io::Result<()> {
    let _ = fchown(file, None, Some(replaced.gid()));
    let _ = fchown(file, Some(replaced.uid()), None);
    file.set_permissions(replaced.permissions())
}

// The path without what its last name has too many bytes of for a suffix.
fn stem_of(target: &str) -> &str {
    let name = match target.rsplit_once('/') {
        Some((_, name)) => name,
        None => target,
    };
    let folder_len = target.len().saturating_sub(name.len());
    let most = folder_len.saturating_add(MOST_NAME_LEN - MOST_SUFFIX_LEN);
    &target[..target.floor_char_boundary(most)]
}

// Whether the file has lost its last name: another run took it for a leftover, before it was locked.
fn is_removed(file: &File) -> bool {
    match file.metadata() {
        Ok(metadata) => metadata.nlink() == 0,
        Err(_) => false,
    }
}

// Locks a new file, so that other runs know it for one in use. Where the file system has no locks, none is needed to go on.
fn is_held(file: &File) -> bool {
    !matches!(file.try_lock(), Err(TryLockError::WouldBlock)) && !is_removed(file)
}

// Removes a regular file that a killed run left at the path: one that nobody holds. It is held meanwhile, so that no other run takes the path.
fn remove_left<R: Files<File = File>>(rt: &R, path: &str) -> io::Result<()> {
    if !fs::symlink_metadata(rt, path)?.is_file() {
        return Ok(());
    }
    let file = fs::open(rt, path)?;
    file.try_lock()?;
    let (held, there) = (file.metadata()?, fs::symlink_metadata(rt, path)?);
    if held.dev() != there.dev() || held.ino() != there.ino() {
        return Ok(());
    }
    fs::remove_file(rt, path)
}

impl DraftPlace {
    // Has the name of the new file end with this.
    fn name(&mut self, suffix: &str) -> Result<(), AllocError> {
        self.draft.clear();
        self.draft.push_str(stem_of(self.target.as_str()))?;
        self.draft.push_str(suffix)
    }

    // Removes what killed runs left.
    fn clear<R: Files<File = File>>(&mut self, rt: &R) -> io::Result<()> {
        for suffix in SUFFIXES {
            self.name(suffix)?;
            let _ = remove_left(rt, self.draft.as_str());
        }
        Ok(())
    }

    // Makes the new file, under the first name that no other run has.
    fn create<R: Files<File = File>>(&mut self, rt: &R, mode: u32) -> io::Result<File> {
        self.clear(rt)?;
        let mut taken = io::Error::from(ErrorKind::AlreadyExists);
        for suffix in SUFFIXES {
            self.name(suffix)?;
            let mut how = OpenOptions::new();
            match how
                .read(true)
                .write(true)
                .create_new(true)
                .mode(mode)
                .open(rt, self.draft.as_str())
            {
                Ok(file) if is_held(&file) => return Ok(file),
                Ok(_) => {}
                Err(error) if error.kind() == ErrorKind::AlreadyExists => taken = error,
                Err(error) => return Err(error),
            }
        }
        Err(taken)
    }
}

/// A file that is replaced atomically.
///
/// What is written goes to a new file beside it: `PATH.part.gather`, or, if another run has that, the first of
/// `PATH.part.gather2` to `PATH.part.gather9` that no run has. It is created by the first write, with the
/// permissions of the file that it replaces and, as far as the system allows, its owner and group. A name of
/// more than 242 bytes is cut before the ending. [`LateFile::finish`] puts the new file in its place. Until then
/// the path is unchanged, and it stays so, and the new file is removed, if `finish` isn't called or fails. What
/// killed runs left is removed by the next run.
///
/// If the path is a symbolic link, its target is replaced. These aren't replaced, but created by the first
/// write as far as they can be, and written in place: what isn't a regular file, such as a device or a pipe;
/// the names of open files (`/dev/stdout`, `/dev/fd/3`, below `/proc`); and the target of a link to nothing.
pub struct LateFile<'a, R: Files> {
    rt: &'a R,
    // Gets the system's number of each error.
    failed: &'a Cell<i32>,
    path: String,
    place: Option<DraftPlace>,
    file: Option<R::File>,
    is_drafted: bool,
}

impl<R: Files> Drop for LateFile<'_, R> {
    fn drop(self) {
        let LateFile {
            rt,
            failed: _,
            path: _,
            place,
            file: _,
            is_drafted,
        } = self;
        match place {
            Some(place) if is_drafted => {
                let _ = fs::remove_file(rt, place.draft.as_str());
            }
            _ => {}
        }
    }
}

impl<'a, R: Files + AllocGlobal> LateFile<'a, R> {
    /// Returns the file at `path`, with nothing written. `failed` gets the system's number of each error. Refuses if
    /// there is no memory for its names.
    pub fn new(rt: &'a R, failed: &'a Cell<i32>, path: &str) -> Result<LateFile<'a, R>, AllocError>
        ensures rt { IfOk result (λ it. it.rt ≡ rt.entry) }
        ensures path { IfOk result (λ it. string_bytes it.path ≡ path.now) }
        ensures unmade { IfOk result (λ it. it.file ≡ None) }
    {
        Ok(LateFile {
            rt,
            failed,
            path: String::from_str(rt.alloc(), path)?,
            place: place_of(rt, path)?,
            file: None,
            is_drafted: false,
        })
    }
}

impl<R: Files<File = File>> LateFile<'_, R> {
    /// Returns whether what is written appears at the path only once it is finished.
    pub fn is_replaced(&self) -> bool {
        self.place.is_some()
    }

    // Makes the file that is written to.
    fn make(&mut self) -> io::Result<()> {
        let Some(place) = &mut self.place else {
            self.file = Some(fs::create(self.rt, self.path.as_str())?);
            return Ok(());
        };
        let replaced = replaced_by(self.rt, place.target.as_str())?;
        // Until it has the other's permissions nobody else may open it.
        let mode = if replaced.is_some() { 0o600 } else { 0o666 };
        let file = place.create(self.rt, mode)?;
        self.is_drafted = true;
        if let Some(replaced) = &replaced {
            dress(&file, replaced)?;
        }
        self.file = Some(file);
        Ok(())
    }

    // Notes the system's number of an error, or 0 where it has none.
    fn noted<T: Drop>(&self, answer: io::Result<T>) -> io::Result<T>
        ensures { result ≡ answer }
    {
        if let Err(error) = &answer {
            self.failed.set(error.raw_os_error().unwrap_or(0));
        }
        answer
    }

    fn put(&mut self) -> io::Result<()> {
        self.flush()?;
        let (Some(place), Some(file)) = (&self.place, &self.file) else {
            return Ok(());
        };
        file.sync_all()?;
        fs::rename(self.rt, place.draft.as_str(), place.target.as_str())?;
        self.is_drafted = false;
        Ok(())
    }

    fn put_bytes(&mut self, buf: &[u8]) -> io::Result<usize>
        ensures { IfOk result (λ count. count ≤ length buf.now) }
    {
        if self.file.is_none() {
            self.make()?;
        }
        match &mut self.file {
            Some(file) => file.write(buf),
            None => Ok(0),
        }
    }

    fn put_through(&mut self) -> io::Result<()> {
        if self.file.is_none() {
            self.make()?;
        }
        match &mut self.file {
            Some(file) => file.flush(),
            None => Ok(()),
        }
    }

    // Takes the file that was written to, as one that is read from its start on.
    fn rewound(&mut self) -> io::Result<File> {
        self.put_through()?;
        let Some(mut file) = self.file.take() else {
            return Err(io::Error::from(ErrorKind::NotFound));
        };
        file.rewind()?;
        Ok(file)
    }

    /// Returns what was written, as a file that is read from its start on. It has no name once this one is dropped, and
    /// nothing can be written or finished after that. Refuses if the path isn't replaced and can't be read.
    pub fn reopen(&mut self) -> io::Result<File> {
        let reopened = self.rewound();
        self.noted(reopened)
    }

    /// Puts what was written in its place, if it is replaced, once the device has it. Nothing can be written
    /// after that.
    pub fn finish(&mut self) -> io::Result<()> {
        let put = self.put();
        self.noted(put)
    }
}

impl<R: Files<File = File>> Write for LateFile<'_, R> {
    fn write(&mut self, buf: &[u8]) -> io::Result<usize> {
        let written = self.put_bytes(buf);
        self.noted(written)
    }

    fn flush(&mut self) -> io::Result<()> {
        let flushed = self.put_through();
        self.noted(flushed)
    }
}
