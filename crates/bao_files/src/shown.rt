ghost use Rattle.std.specs.Prelude.{◌≡◌};

use crate::progress::Progress;
use b3par::Source;
use std::io;
use std::io::Read;

/// A source or a reader that reports to `progress` how many bytes each read returned. Its bytes and faults are
/// those of `source`.
pub struct Shown<'a, S, P: Progress> {
    source: S,
    progress: &'a P,
    // Whether `progress` was told that work begins.
    is_begun: bool,
}

impl<S: Drop, P: Progress> Drop for Shown<'_, S, P> {
    fn drop(self) {
        let Shown {
            source: _,
            progress,
            is_begun,
        } = self;
        if is_begun {
            progress.end();
        }
    }
}

impl<'a, S, P: Progress> Shown<'a, S, P> {
    /// Returns the same source. If its length is known, `progress` is told that work on so many bytes begins,
    /// and that it is over once a read reaches the end or the value is dropped. Without a length it is told of
    /// neither, as for one of several sources.
    pub fn over(source: S, len: Option<u64>, progress: &'a P) -> Shown<'a, S, P>
        ensures { result.source ≡ source }
    {
        if let Some(len) = len {
            progress.begin(len);
        }
        Shown {
            source,
            progress,
            is_begun: len.is_some(),
        }
    }
}

impl<S, P: Progress> Shown<'_, S, P> {
    // Tells how many bytes came. A read that gives none has come to the end.
    fn tell(&self, read: &io::Result<usize>) {
        match read {
            Ok(0) if self.is_begun => self.progress.end(),
            Ok(count) => self.progress.add(*count as u64),
            Err(_) => {}
        }
    }
}

impl<S: Source, P: Progress> Source for Shown<'_, S, P> {
    ghost contents = { λ shown. S.contents shown.source };

    ghost faultless = { λ shown. S.faultless shown.source };

    fn read_at(&self, buf: &mut [u8], at: u64) -> io::Result<usize> {
        let read = self.source.read_at(buf, at);
        self.tell(&read);
        read
    }

    fn at_hand(&self) -> Option<&[u8]> {
        self.source.at_hand()
    }
}

impl<S: Read, P: Progress> Read for Shown<'_, S, P> {
    ghost remaining = { λ shown. S.remaining shown.source };

    fn read(&mut self, buf: &mut [u8]) -> io::Result<usize> {
        let read = self.source.read(buf);
        self.tell(&read);
        read
    }
}
