use crate::disk::Disk;
use crate::extent::Extent;
use crate::fault::FileFault;
use crate::input::{STANDARD_INPUT, is_same_file, open_file};
use crate::late_file::LateFile;
use crate::places::is_one_file;
use std::alloc::AllocError;
use std::cell::Cell;
use std::fs::{File, OpenFile};
use std::io::Read;
use std::rt::Files;
use std::{fs, io};

/// The system's own files. Their contents aren't known.
pub struct System<'a, R> {
    rt: &'a R,
    // The system's number of the error of the last draft that failed, or 0.
    failed: &'a Cell<i32>,
}

impl<R> Drop for System<'_, R> {
    fn drop(self) {
        let System { rt: _, failed: _ } = self;
    }
}

impl<'a, R> System<'a, R> {
    /// Returns the files that `rt` gives access to. `failed` gets the system's number of each error of a draft.
    pub fn new(rt: &'a R, failed: &'a Cell<i32>) -> System<'a, R> {
        System { rt, failed }
    }
}

// What metadata says of a file.
fn extent_of(metadata: &fs::Metadata) -> Extent {
    Extent {
        len: metadata.len(),
        is_regular: metadata.is_file(),
    }
}

// Asks once more for what can't be read: for what is at the path, to open it, and for its first byte. What is neither a regular file nor a
// folder isn't opened, which might wait for somebody who writes to it.
fn ask_again<R: Files>(rt: &R, path: &str) -> io::Result<()> {
    let path = if path == STANDARD_INPUT {
        "/dev/stdin"
    } else {
        path
    };
    let metadata = fs::metadata(rt, path)?;
    if metadata.is_file() || metadata.is_dir() {
        let mut file = fs::open(rt, path)?;
        file.read(&mut [0])?;
    }
    Ok(())
}

impl<'a, R: Files<File = File> + AllocGlobal> Disk for System<'a, R> {
    ghost use Rattle.bao_files.specs.Disks.{Unknown};

    type Input = File;

    type Draft = LateFile<'a, R>;

    ghost at = { λ _ _. Unknown };

    ghost faultless = { λ _. ⊥ };

    fn open<'p>(&self, path: &'p str) -> Result<File, FileFault<'p>> {
        let file = open_file(self.rt, path)?;
        // So that no run takes what is read here for what a killed run left, and removes it.
        let _ = file.try_lock_shared();
        Ok(file)
    }

    fn extent(&self, input: &File) -> Option<Extent> {
        match input.metadata() {
            Ok(metadata) => Some(extent_of(&metadata)),
            Err(_) => None,
        }
    }

    fn look(&self, path: &str) -> Option<Extent> {
        if path == STANDARD_INPUT {
            return None;
        }
        match fs::metadata(self.rt, path) {
            Ok(metadata) => Some(extent_of(&metadata)),
            Err(_) => None,
        }
    }

    fn is_same(&self, input: &File, path: &str) -> bool {
        is_same_file(self.rt, input, path)
    }

    fn is_one(&self, ours: &str, theirs: &str) -> bool {
        is_one_file(self.rt, ours, theirs)
    }

    fn why(&self, path: &str) -> Option<io::Error> {
        ask_again(self.rt, path).err()
    }

    fn why_unwritten(&self) -> Option<io::Error> {
        match self.failed.get() {
            0 => None,
            number => Some(io::Error::from_raw_os_error(number)),
        }
    }

    fn draft(&self, path: &str) -> Result<LateFile<'a, R>, AllocError> {
        LateFile::new(self.rt, self.failed, path)
    }

    fn is_replaced(&self, draft: &LateFile<'a, R>) -> bool {
        draft.is_replaced()
    }

    fn read_back<'p>(&self, draft: LateFile<'a, R>, path: &'p str) -> Result<File, FileFault<'p>> {
        let mut draft = draft;
        match draft.reopen() {
            Ok(file) => Ok(file),
            Err(_) => Err(FileFault::Write(path)),
        }
    }

    fn finish<'p>(&mut self, draft: LateFile<'a, R>, path: &'p str) -> Result<(), FileFault<'p>> {
        let mut draft = draft;
        match draft.finish() {
            Ok(()) => Ok(()),
            Err(_) => Err(FileFault::Write(path)),
        }
    }
}
