ghost use Rattle.std.specs.Prelude.{◌≡◌, ◌*◌, ◌<◌, ◌≤◌, ◌^◌};

use crate::fault::ReadFault;
use crate::subtree_text::Made;
use b3tree::CHUNK_LEN;

/// The most chunks in a job over bytes in memory: enough to be worth stealing, and few enough that no thread
/// waits long for the last.
pub const JOB_CHUNKS: u64 = 64;

/// The number of threads that keep the processors of a usual machine busy.
pub const WORKERS: usize = 4;

/// The least bytes of a source that are worth one more thread.
pub const LEAST_RANGE_LEN: u64 = 1 << 20;

// The most jobs of a source that has to be read: so many that no thread waits long for the last, and few enough that what
// is kept of each is nothing beside its bytes.
const MOST_JOBS: u64 = 256;

/// A subtree that one thread hashes or encodes.
#[derive(Clone, Copy)]
pub(crate) struct Job {
    /// Its index among the jobs, from 0.
    pub number: usize,
    /// The index of its first chunk.
    pub first: u64,
    /// Its length in bytes.
    pub len: u64,
}

/// The result of a job.
#[derive(Drop)]
pub(crate) struct Answer {
    pub job: Job,
    pub made: Result<Made, ReadFault>,
}

/// A number of bytes cut into jobs of a number of chunks. If that is a power of two, the jobs are the largest
/// subtrees of at most as many chunks.
#[derive(Clone, Copy)]
pub(crate) struct Cutting {
    len: u64,
    chunks: u64,
    ghost some: { 0 < chunks },
    ghost most: { 1024 * chunks ≤ 2 ^ 63 },
}

impl Cutting {
    ghost use Rattle.std.specs.Prelude.{◌+◌, ◌-◌, ◌/◌};
    ghost use Rattle.std.specs.Int.{IsPowerOfTwo};
    ghost use Rattle.b3par.specs.Jobs.{IsJob, job_count, job_with};

    /// Cuts bytes that are in memory.
    pub(crate) fn of_bytes(len: u64) -> Cutting
        ensures { (result.len ≡ len) × (result.chunks ≡ 64) }
    {
        Cutting {
            len,
            chunks: JOB_CHUNKS,
        }
    }

    /// Cuts a source that has to be read: into jobs of 64 chunks, or, if that were more than 256 jobs, of the
    /// least power of two that gives at most 256.
    pub(crate) fn of_source(len: u64) -> Cutting
        ensures len { result.len ≡ len }
        ensures power { IsPowerOfTwo result.chunks }
        ensures least { 64 ≤ result.chunks }
        ensures few { job_count (1024 * result.chunks) len ≤ 256 }
        ensures no_larger { 64 < result.chunks → 256 < job_count (1024 * (result.chunks / 2)) len }
    {
        let share = len.div_ceil(CHUNK_LEN as u64 * MOST_JOBS);
        Cutting {
            len,
            chunks: share.next_power_of_two().max(JOB_CHUNKS),
        }
    }

    /// Returns how many bytes there are.
    pub(crate) fn len(&self) -> u64
        ensures { result ≡ self.now.len }
    {
        self.len
    }

    /// Returns how many chunks each job but the last has.
    pub(crate) fn chunks(&self) -> u64
        ensures value { result ≡ self.now.chunks }
        ensures some { 0 < result }
        ensures most { 1024 * result ≤ 2 ^ 63 }
    {
        self.chunks
    }

    /// Returns how many jobs there are: one for no bytes.
    pub(crate) fn count(&self) -> usize
        ensures { result ≡ job_count (1024 * self.now.chunks) self.now.len }
    {
        self.len.div_ceil(CHUNK_LEN as u64 * self.chunks).max(1) as usize
    }

    /// Returns the job with this index.
    pub(crate) fn job(&self, number: usize) -> Job
        requires { number < job_count (1024 * self.now.chunks) self.now.len }
        ensures value { result ≡ job_with self.now.chunks self.now.len number }
        ensures range { IsJob result }
    {
        let first = self.chunks * number as u64;
        let start = CHUNK_LEN as u64 * first;
        Job {
            number,
            first,
            len: (CHUNK_LEN as u64 * self.chunks).min(self.len - start),
        }
    }
}

/// Returns how many of the workers are worth starting for `len` bytes that have to be read.
pub(crate) fn sharers(len: u64, workers: usize) -> usize {
    let most = len.div_ceil(LEAST_RANGE_LEN).max(1);
    workers.min(usize::try_from(most).unwrap_or(usize::MAX))
}
