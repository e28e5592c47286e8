use bao_check::Outline;

/// The `len` bytes of a blob from byte `start` on.
#[derive(Clone, Copy, Debug)]
pub struct ByteRange {
    pub start: u64,
    pub len: u64,
}

/// What a worker's holders supply: it decides which bytes are asked for, and how they are checked.
#[derive(Clone, Copy, Debug)]
pub enum Form<'a> {
    /// Slices, each with the parents that certify it.
    Slices,
    /// Bytes of plain copies of the blob, which are checked beside this outboard encoding of it.
    Bare(&'a Outline<'a>),
}
