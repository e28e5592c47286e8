ghost use Rattle.std.specs.Prelude.{◌≡◌};
ghost use Rattle.bao_files.specs.Extents.{extent_of as said_of};

use crate::disk::Disk;
use crate::extent::Extent;
use crate::fault::FileFault;
use b3par::Source;
use std::alloc::{AllocError, Global};
use std::collections::BTreeMap;
use std::io;
use std::io::{Cursor, Read};

/// An opened file of [`MemoryFiles`]: its bytes when it was opened.
#[derive(Drop)]
pub struct HeldInput {
    cursor: Cursor<Vec<u8>>,
}

impl Read for HeldInput {
    ghost use Rattle.std.specs.Prelude.{Some};
    ghost use Rattle.std.specs.Io.Cursor.{cursor_remaining};

    ghost remaining = { λ input. cursor_remaining (λ bytes. Some bytes.items) input.cursor };

    fn read(&mut self, buf: &mut [u8]) -> io::Result<usize> {
        self.cursor.read(buf)
    }
}

impl Source for HeldInput {
    ghost use Rattle.std.specs.Prelude.{Some, ⊤};
    ghost use Rattle.std.specs.Io.Cursor.{cursor_inner};

    ghost contents = { λ input. Some (cursor_inner input.cursor).items };

    ghost faultless = { λ _. ⊤ };

    fn read_at(&self, buf: &mut [u8], at: u64) -> io::Result<usize> {
        self.cursor.get_ref().as_slice().read_at(buf, at)
    }

    fn at_hand(&self) -> Option<&[u8]> {
        Some(self.cursor.get_ref().as_slice())
    }
}

/// Files in memory, whose contents are known. A path is only a name: no two lead to one file.
#[derive(Drop)]
pub struct MemoryFiles {
    alloc: Global,
    files: BTreeMap<String, Vec<u8>>,
}

impl MemoryFiles {
    ghost use Rattle.std.specs.Prelude.{ℕ, List, IfSome, IsNone, OnErr, OnOk, Some};
    ghost use Rattle.bao_files.specs.Disks.{Absent, KeepsFiles, Puts, Stored};
    ghost use Rattle.bao_files.specs.HeldFiles.{held_at};

    /// Returns no files.
    pub fn new(alloc: Global) -> MemoryFiles
        ensures { (path : List ℕ) → held_at result.files path ≡ Absent }
    {
        MemoryFiles {
            alloc,
            files: BTreeMap::new(alloc),
        }
    }

    /// Puts these bytes at `path`, in place of what was there. Refuses if out of memory, and changes nothing
    /// then.
    pub fn put(&mut self, path: &str, bytes: Vec<u8>) -> Result<(), AllocError>
        ensures put { OnOk result (Puts (held_at self.old.files) (held_at self.new.files) path.now (Some bytes.items)) }
        ensures kept { OnErr result (KeepsFiles (held_at self.old.files) (held_at self.new.files)) }
    {
        let path = String::from_str(self.alloc, path)?;
        match self.files.insert(path, bytes) {
            Ok(_) => Ok(()),
            Err(_) => Err(AllocError),
        }
    }

    /// Returns the bytes at `path`, if there is a file.
    pub fn get(&self, path: &str) -> Option<&[u8]>
        ensures some { IfSome result (λ bytes. held_at self.now.files path.now ≡ Stored bytes.now) }
        ensures none { IsNone result → held_at self.now.files path.now ≡ Absent }
    {
        match self.files.get(path) {
            Some(bytes) => Some(bytes.as_slice()),
            None => None,
        }
    }
}

// What is said of a file with these bytes.
fn extent_of(bytes: &[u8]) -> Extent
    ensures { result ≡ said_of bytes.now }
{
    Extent {
        len: bytes.len() as u64,
        is_regular: true,
    }
}

impl Disk for MemoryFiles {
    ghost use Rattle.std.specs.Prelude.{⊤};
    ghost use Rattle.bao_files.specs.HeldFiles.{held_at};

    type Input = HeldInput;

    type Draft = Vec<u8>;

    ghost at = { λ held. held_at held.files };

    ghost faultless = { λ _. ⊤ };

    fn open<'p>(&self, path: &'p str) -> Result<HeldInput, FileFault<'p>> {
        let Some(bytes) = self.get(path) else {
            return Err(FileFault::Read(path));
        };
        Ok(HeldInput {
            cursor: Cursor::new(Vec::from_slice(self.alloc, bytes)?),
        })
    }

    fn extent(&self, input: &HeldInput) -> Option<Extent> {
        Some(extent_of(input.cursor.get_ref().as_slice()))
    }

    fn look(&self, path: &str) -> Option<Extent> {
        match self.get(path) {
            Some(bytes) => Some(extent_of(bytes)),
            None => None,
        }
    }

    fn is_same(&self, _input: &HeldInput, _path: &str) -> bool {
        false
    }

    fn is_one(&self, ours: &str, theirs: &str) -> bool {
        ours == theirs
    }

    fn why(&self, _path: &str) -> Option<io::Error> {
        None
    }

    fn why_unwritten(&self) -> Option<io::Error> {
        None
    }

    fn draft(&self, _path: &str) -> Result<Vec<u8>, AllocError> {
        Ok(Vec::new(self.alloc))
    }

    fn is_replaced(&self, _draft: &Vec<u8>) -> bool {
        true
    }

    fn read_back<'p>(&self, draft: Vec<u8>, _path: &'p str) -> Result<HeldInput, FileFault<'p>> {
        Ok(HeldInput {
            cursor: Cursor::new(draft),
        })
    }

    fn finish<'p>(&mut self, draft: Vec<u8>, path: &'p str) -> Result<(), FileFault<'p>> {
        self.put(path, draft)?;
        Ok(())
    }
}
