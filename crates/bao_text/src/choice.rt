ghost use Rattle.std.specs.Prelude.{◌≡◌, ◌+◌, ◌≤◌, ◌↔◌, max, IsTrue};

/// The positions of a blob that an encoding covers, and whether the encoding has the chunks.
#[derive(Clone, Copy, Debug)]
pub struct Choice {
    pub(crate) start: u64,
    pub(crate) end: u64,
    pub(crate) chunks: bool,
}

impl Choice {
    ghost use Rattle.bao_text.specs.Choice.{of_combined, of_nothing, of_outboard, of_slice, wants};

    /// Returns the choice of a combined encoding of a blob of `total` bytes: everything.
    pub fn of_combined(total: u64) -> Choice
        ensures { result ≡ of_combined total }
    {
        Choice {
            start: 0,
            end: total.max(1),
            chunks: true,
        }
    }

    /// Returns the choice of an outboard encoding of a blob of `total` bytes: everything but the chunks.
    pub fn of_outboard(total: u64) -> Choice
        ensures { result ≡ of_outboard total }
    {
        Choice {
            chunks: false,
            ..Choice::of_combined(total)
        }
    }

    /// Returns the choice of nothing: only a hash is wanted.
    pub fn of_nothing() -> Choice
        ensures { result ≡ of_nothing }
    {
        Choice {
            end: 0,
            ..Choice::of_outboard(0)
        }
    }

    /// Returns the choice of the slice of `len` bytes from byte `start` on of a blob of `total` bytes.
    ///
    /// A `len` of 0 counts as 1, a `start` at or past the end as the last position, and `start + len` never
    /// wraps.
    pub fn of_slice(total: u64, start: u64, len: u64) -> Choice
        ensures { result ≡ of_slice total start len }
    {
        let first = start.min(total.max(1) - 1);
        let last = start.saturating_add(len.max(1)).min(total);
        Choice {
            start: first,
            end: last.max(first + 1),
            chunks: true,
        }
    }

    /// Returns whether any of the `n` bytes from position `at` on is wanted; an `n` of 0 counts as 1.
    pub fn wants(&self, at: u64, n: u64) -> bool
        ensures { result ≡ wants self.now at n }
    {
        at < self.end && (self.start < at || self.start - at < n.max(1))
    }

    /// Returns whether all of the `n` bytes from position `at` on are wanted; an `n` of 0 counts as 1.
    pub fn covers(&self, at: u64, n: u64) -> bool
        ensures { IsTrue result ↔ ((self.now.start ≤ at) × (at + max n 1 ≤ self.now.end)) }
    {
        at >= self.start && at < self.end && n.max(1) <= self.end - at
    }

    /// Returns the first wanted position.
    pub fn start(&self) -> u64
        ensures { result ≡ self.now.start }
    {
        self.start
    }

    /// Returns the position after the last wanted one.
    pub fn end(&self) -> u64
        ensures { result ≡ self.now.end }
    {
        self.end
    }

    /// Returns whether the encoding has the chunks.
    pub fn has_chunks(&self) -> bool
        ensures { result ≡ self.now.chunks }
    {
        self.chunks
    }
}
