/// A hook that each worker calls once, before its first job. It may wait.
pub trait Gate {
    /// Is called by the worker with the index `worker`, from 0.
    fn pass(&self, worker: usize);
}

/// A gate that returns at once.
#[derive(Clone, Copy, Debug)]
pub struct Open;

impl Gate for Open {
    fn pass(&self, _worker: usize) {}
}
