ghost use Rattle.std.specs.Prelude.{◌≡◌, ◌⊎◌, ℕ, List, [], length, None, Some, IfErr, IfOk, IfSome, IsSome, OnErr, OnOk, true};
ghost use Rattle.bao_files.specs.Disks.{FileState, IsKnown, IsStored, KeepsFiles, Opens, Puts};
ghost use Rattle.bao_files.specs.Extents.{LooksAs, extent_of};

use crate::extent::Extent;
use crate::fault::FileFault;
use crate::input::LEAST_SHARED_LEN;
use b3par::Source;
use std::alloc::AllocError;
use std::io;
use std::io::{Read, Write};

/// Files by their paths: all that the program reads and writes. [`System`](crate::System) has the system's own,
/// whose contents no contract knows; [`MemoryFiles`](crate::MemoryFiles) has files in memory, whose contents
/// contracts know.
///
/// A file is opened, and then read from its start on or by position. It is written as a draft, which is nowhere
/// on the disk until it is finished; then it replaces what was at its path.
pub trait Disk {
    /// A file that was opened.
    type Input: Read + Source + Sync + Drop;

    /// A file that is being written.
    type Draft: Write + Drop;

    // What is known to be at each path.
    ghost at: { Self → List ℕ → FileState };

    // That no call on it fails but for memory, and no read of a file that it opened.
    ghost faultless: { Self → Type 0 };

    /// Opens the file at `path`, to be read from its start on. Refuses with `Read` if it can't be opened, and
    /// with `Memory`.
    fn open<'a>(&self, path: &'a str) -> Result<Self::Input, FileFault<'a>>
        ensures opened { IfOk result (λ input. Opens (at self.now path.now) (Self.Input.contents input) (Self.Input.remaining input)) }
        ensures sure { IfOk result (λ input. faultless self.now → Self.Input.faultless input) }
        ensures fault { IfErr result (λ fault. (fault ≡ FileFault.Memory) ⊎ (fault ≡ FileFault.Read path.entry)) }
        ensures there { IfErr result (λ fault. faultless self.now → IsStored (at self.now path.now) → fault ≡ FileFault.Memory) };

    /// Returns what the disk says of an opened file, if anything.
    fn extent(&self, input: &Self::Input) -> Option<Extent>
        ensures { IfSome (Self.Input.contents input.now) (λ s. result ≡ Some (extent_of s)) };

    /// Returns what the disk says of the file at `path`, without opening it.
    fn look(&self, path: &str) -> Option<Extent>
        ensures { LooksAs (at self.now path.now) result };

    /// Returns whether the file at `path` is this one, under any name, so that it can't be read any more once
    /// `path` is recreated.
    fn is_same(&self, input: &Self::Input, path: &str) -> bool;

    /// Returns whether both paths lead to one file, under any names, or, if neither exists, to one place. Paths
    /// that are known to have certain contents lead to one file only if they are equal.
    fn is_one(&self, ours: &str, theirs: &str) -> bool
        ensures { result ≡ true → IsKnown (at self.now ours.now) → IsKnown (at self.now theirs.now) → ours.now ≡ theirs.now };

    /// Returns why the file at `path` can't be read, if that is still so when asked again, and if it can be
    /// told.
    fn why(&self, path: &str) -> Option<io::Error>;

    /// Returns why the last draft that couldn't be written or finished couldn't be, if it can be told.
    fn why_unwritten(&self) -> Option<io::Error>;

    /// Returns an empty draft of the file at `path`.
    fn draft(&self, path: &str) -> Result<Self::Draft, AllocError>
        ensures known { IfOk result (λ draft. IsKnown (at self.now path.now) → Self.Draft.contents draft ≡ Some []) }
        ensures sure { IfOk result (λ draft. faultless self.now → Self.Draft.contents draft ≡ Some []) };

    /// Returns whether a draft appears at its path only once it is finished. Otherwise it is written there from
    /// the first write on.
    fn is_replaced(&self, draft: &Self::Draft) -> bool
        ensures { IsSome (Self.Draft.contents draft.now) → result ≡ true };

    /// Gives up the draft of the file at `path`, and returns what it has as a file that was opened. It appears nowhere
    /// then. Refuses with `Write` if it can't be read, and with `Memory`.
    fn read_back<'a>(&self, draft: Self::Draft, path: &'a str) -> Result<Self::Input, FileFault<'a>>
        ensures opened { IfOk result (λ input. IfSome (Self.Draft.contents draft) (λ s. (Self.Input.contents input ≡ Some s) × (Self.Input.remaining input ≡ Some s))) }
        ensures fault { IfErr result (λ fault. (fault ≡ FileFault.Memory) ⊎ (fault ≡ FileFault.Write path.entry)) }
        ensures sure { IfErr result (λ fault. faultless self.now → fault ≡ FileFault.Memory) }
        ensures sound { IfOk result (λ input. faultless self.now → Self.Input.faultless input) };

    /// Puts the draft of the file at `path` in its place. Refuses with `Write` or `Memory`; all files are then
    /// unchanged, except one that can't be replaced.
    fn finish<'a>(&mut self, draft: Self::Draft, path: &'a str) -> Result<(), FileFault<'a>>
        ensures put { OnOk result (Puts (at self.old) (at self.new) path.now (Self.Draft.contents draft)) }
        ensures kept { OnErr result (KeepsFiles (at self.old) (at self.new)) }
        ensures fault { IfErr result (λ fault. (fault ≡ FileFault.Memory) ⊎ (fault ≡ FileFault.Write path.entry)) }
        ensures sure { IfErr result (λ fault. faultless self.old → fault ≡ FileFault.Memory) };
}

// How many bytes an opened file, at `path`, is said to have.
pub(crate) fn size_of<'a, D: Disk>(
    disk: &D,
    input: &D::Input,
    path: &'a str,
) -> Result<u64, FileFault<'a>>
    ensures size { IfOk result (λ size. IfSome (D.Input.contents input.now) (λ s. size ≡ length s)) }
    ensures fault { IfErr result (λ fault. fault ≡ FileFault.Read path.entry) }
    ensures known { IfErr result (λ _. D.Input.contents input.now ≡ None) }
{
    match disk.extent(input) {
        Some(extent) => Ok(extent.len),
        None => Err(FileFault::Read(path)),
    }
}

// How many bytes a regular file is said to have, where they are enough to be worth threads.
pub(crate) fn len_hint<D: Disk>(disk: &D, input: &D::Input) -> Option<u64> {
    let extent = disk.extent(input)?;
    (extent.is_regular && extent.len >= LEAST_SHARED_LEN).then_some(extent.len)
}
