use b3par::Gate;
use std::sync::atomic::{AtomicU64, Ordering};
use std::thread;

// Whoever comes is held until so many came: a test that waits too long is ended from outside.
#[derive(Drop)]
pub(crate) struct Meeting {
    // How many are waited for.
    awaited: u64,
    // How many came, and the bits of their numbers.
    came: AtomicU64,
    numbers: AtomicU64,
    // How many went on once all of them had come.
    met: AtomicU64,
}

impl Meeting {
    pub(crate) fn of(awaited: u64) -> Meeting {
        Meeting {
            awaited,
            came: AtomicU64::new(0),
            numbers: AtomicU64::new(0),
            met: AtomicU64::new(0),
        }
    }

    // How many came, the bits of their numbers, and how many went on.
    pub(crate) fn seen(&self) -> (u64, u64, u64) {
        (
            self.came.load(Ordering::SeqCst),
            self.numbers.load(Ordering::SeqCst),
            self.met.load(Ordering::SeqCst),
        )
    }
}

impl Gate for Meeting {
    fn pass(&self, worker: usize) {
        self.came.fetch_add(1, Ordering::SeqCst);
        self.numbers
            .fetch_or(1u64.rotate_left((worker % 64) as u32), Ordering::SeqCst);
        for _ in 0..u64::MAX {
            if self.came.load(Ordering::SeqCst) >= self.awaited {
                self.met.fetch_add(1, Ordering::SeqCst);
                return;
            }
            thread::yield_now();
        }
    }
}
