/// Receives the progress of work, from several threads at once if the type is `Sync`.
pub trait Progress {
    /// Work on `total` bytes begins.
    fn begin(&self, total: u64);

    /// Work on so many files begins, of `total` bytes in all.
    fn begin_files(&self, _files: u64, total: u64) {
        self.begin(total);
    }

    /// So many more bytes are done.
    fn add(&self, bytes: u64);

    /// One more file is done: what was shown is removed until more bytes are.
    fn file_done(&self) {}

    /// The work is over: what was shown is removed, and nothing is shown until other work begins.
    fn end(&self);

    /// Whether anything is shown: if not, how much work there is needn't be found out.
    fn is_shown(&self) -> bool {
        true
    }
}

/// Shows nothing.
impl Progress for () {
    fn begin(&self, _total: u64) {}

    fn add(&self, _bytes: u64) {}

    fn end(&self) {}

    fn is_shown(&self) -> bool {
        false
    }
}

/// Shows what the value shows, if there is one.
impl<P: Progress> Progress for Option<P> {
    fn begin(&self, total: u64) {
        if let Some(progress) = self {
            progress.begin(total);
        }
    }

    fn begin_files(&self, files: u64, total: u64) {
        if let Some(progress) = self {
            progress.begin_files(files, total);
        }
    }

    fn add(&self, bytes: u64) {
        if let Some(progress) = self {
            progress.add(bytes);
        }
    }

    fn file_done(&self) {
        if let Some(progress) = self {
            progress.file_done();
        }
    }

    fn end(&self) {
        if let Some(progress) = self {
            progress.end();
        }
    }

    fn is_shown(&self) -> bool {
        match self {
            Some(progress) => progress.is_shown(),
            None => false,
        }
    }
}
