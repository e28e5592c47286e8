ghost use Rattle.std.specs.Prelude.{◌≡◌, ℕ, List, Option, None, Some, IfOk, IfSome, IsOk};
ghost use Rattle.std.specs.Io.{ReadsAtMost};
ghost use Rattle.b3par.specs.Given.{ReadsAt};

use std::fs::File;
use std::io;
use std::os::unix::fs::FileExt;

/// Bytes that are read by position; by several threads at once if the type is `Sync`.
pub trait Source {
    // The bytes, where they are known.
    ghost contents: { Self → Option (List ℕ) } = { λ _. None };

    // That no read of it answers a fault.
    ghost faultless: { Self → Type 0 } = { λ _. ⊥ };

    /// Reads bytes from offset `at` on to the front of `buf` and returns how many: 0 only at or past the end,
    /// or if `buf` is empty.
    fn read_at(&self, buf: &mut [u8], at: u64) -> io::Result<usize>
        ensures bound { ReadsAtMost result buf.new }
        ensures bytes { IfOk result (λ count. ReadsAt (contents self.now) at count buf.new) }
        ensures fault { faultless self.now → IsOk result };

    /// Returns all of the bytes if they are in memory, so that nobody has to copy them.
    fn at_hand(&self) -> Option<&[u8]>
        ensures { IfSome result (λ bytes. contents self.now ≡ Some bytes.now) }
    {
        None
    }
}

// No file has a byte past this place: a system's call takes none beyond, and answers a fault.
const LAST_PLACE: u64 = i64::MAX as u64;

/// The file's own position is neither used nor moved. Past the greatest offset that a file can have, a read
/// returns 0, as past the end.
impl Source for File {
    fn read_at(&self, buf: &mut [u8], at: u64) -> io::Result<usize> {
        if at > LAST_PLACE {
            return Ok(0);
        }
        FileExt::read_at(self, buf, at)
    }
}

impl Source for &[u8] {
    ghost use Rattle.std.specs.Prelude.{IsSome, Some, ⊤};

    ghost contents = { λ bytes. Some bytes.now };

    ghost faultless = { λ _. ⊤ };

    fn read_at(&self, buf: &mut [u8], at: u64) -> io::Result<usize> {
        let start = usize::try_from(at).unwrap_or(usize::MAX).min(self.len());
        let rest = &self[start..];
        let count = rest.len().min(buf.len());
        buf[..count].copy_from_slice(&rest[..count]);
        Ok(count)
    }

    fn at_hand(&self) -> Option<&[u8]>
        ensures there { IsSome result }
        ensures all { IfSome result (λ bytes. Some self.now.now ≡ Some bytes.now) }
    {
        Some(self)
    }
}
