/// What of a blob an encoding covers.
#[derive(Clone, Copy, Debug)]
pub enum Part {
    /// All of it: a combined encoding.
    Whole,
    /// A slice: `len` bytes from byte `start` on.
    Slice { start: u64, len: u64 },
}

/// A format of a blob's encoding.
#[derive(Clone, Copy, Debug)]
pub enum Encoding {
    /// The combined encoding.
    Combined,
    /// The outboard encoding.
    Outboard,
    /// The slice of `len` bytes from byte `start` on.
    Slice { start: u64, len: u64 },
}
