/// What came of a file that was checked.
#[derive(Clone, Copy, Debug, PartialEq, Eq)]
pub enum Verdict {
    /// It has the hash that its line gives.
    Same,
    /// It has another hash.
    Other,
    /// It can't be read.
    Unread,
}

/// What came of all files that were checked.
#[derive(Clone, Copy, Debug, PartialEq, Eq)]
pub struct Tally {
    /// Whether a file has another hash than its line gives.
    pub failed: bool,
    /// Whether a file can't be read.
    pub unread: bool,
}
