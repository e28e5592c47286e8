/// What the disk says of a file.
#[derive(Clone, Copy, Debug, PartialEq, Eq)]
pub struct Extent {
    /// The length of the file in bytes, as reported.
    pub len: u64,
    /// Whether it is a regular file, which can be read by position.
    pub is_regular: bool,
}
