// A source, some of whose bytes are held in memory.

ghost use Rattle.std.specs.Prelude.{◌≡◌, ◌≤◌, ◌^◌, length, take};
ghost use Rattle.b3par.specs.Given.{GivenAt};
ghost use Rattle.bao_sums.specs.Windows.{GivenFrom};

use b3par::{Source, fill};
use std::io;

// No file has a byte past this place.
const LAST_PLACE: u64 = 1 << 63;

/// A source that is read often within a few bytes: those from offset `start` on are held.
#[derive(Drop)]
pub(crate) struct Window<'a, S: Source> {
    source: &'a S,
    start: u64,
    held: &'a [u8],
    ghost given: { GivenFrom (S.contents source.now) start held.now },
}

/// Reads bytes from offset `start` on into all of `room`, and returns how many are held there: none if that fails.
pub(crate) fn hold<S: Source>(source: &S, start: u64, room: &mut [u8]) -> usize
    requires { length room.old ≤ 2 ^ 32 }
    ensures bound { result ≤ length room.new }
    ensures given { GivenAt (S.contents source.now) start (take result room.new) }
{
    if start > LAST_PLACE {
        return 0;
    }
    match fill(source, start, room) {
        Ok(()) => room.len(),
        Err(_) => 0,
    }
}

impl<'a, S: Source> Window<'a, S> {
    /// Returns the source, whose bytes from `start` on `held` has.
    pub(crate) fn over(source: &'a S, start: u64, held: &'a [u8]) -> Window<'a, S>
        requires { GivenAt (S.contents source.now) start held.now }
        ensures { result.source.now ≡ source.now }
    {
        Window {
            source,
            start,
            held,
        }
    }
}

impl<S: Source> Source for Window<'_, S> {
    ghost contents = { λ window. S.contents window.source.now };

    ghost faultless = { λ window. S.faultless window.source.now };

    fn read_at(&self, buf: &mut [u8], at: u64) -> io::Result<usize> {
        match at.checked_sub(self.start) {
            Some(skip) if skip < self.held.len() as u64 => self.held.read_at(buf, skip),
            _ => self.source.read_at(buf, at),
        }
    }
}
