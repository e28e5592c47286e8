// Bytes that are read in order.

ghost use Rattle.std.specs.Prelude.{ℕ, List, Option, None, IfOk, IsOk};
ghost use Rattle.std.specs.Io.{ReadsAtMost};
ghost use Rattle.b3par.specs.Given.{ReadsAt};
ghost use Rattle.bao_decode.specs.Forward.{Reaches};

use b3par::Source;
use std::io;

/// Bytes that are read in order, each read beginning where the one before it ended. Every [`Source`] can be read so.
pub(crate) trait Forward {
    // The bytes, where they are known.
    ghost contents: { Self → Option (List ℕ) } = { λ _. None };

    // That no read of it answers a fault.
    ghost faultless: { Self → Type 0 } = { λ _. ⊥ };

    // That a read past the end returns no byte, as of a source.
    ghost anywhere: { Self → Type 0 } = { λ _. ⊥ };

    /// Reads bytes from offset `at` on to the front of `buf` and returns how many: 0 only at the end, or if `buf` is
    /// empty. What a read past the end returns isn't said.
    fn read_on(&self, buf: &mut [u8], at: u64) -> io::Result<usize>
        ensures bound { ReadsAtMost result buf.new }
        ensures bytes { Reaches (contents self.now) (anywhere self.now) at → IfOk result (λ count. ReadsAt (contents self.now) at count buf.new) }
        ensures fault { faultless self.now → IsOk result };
}

impl<S: Source> Forward for S {
    ghost use Rattle.std.specs.Prelude.{⊤};

    ghost contents = { S.contents };

    ghost faultless = { S.faultless };

    ghost anywhere = { λ _. ⊤ };

    fn read_on(&self, buf: &mut [u8], at: u64) -> io::Result<usize> {
        self.read_at(buf, at)
    }
}
