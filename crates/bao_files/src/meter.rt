ghost use Rattle.std.specs.Prelude.{◌≡◌};

use crate::progress::Progress;
use crate::progress_line::shown_line;
use std::io::Write;
use std::rt::Clock;
use std::sync::atomic::{AtomicBool, AtomicU64, Ordering};

// So many milliseconds of work show nothing.
const QUIET: u64 = 500;

// So many pass at least between two lines.
const PAUSE: u64 = 100;

// A time that doesn't come.
const NEVER: u64 = u64::MAX;

// Takes the line away, and leaves the cursor at its start.
const WIPED: &str = "\r\x1b[K";

/// Shows progress on a terminal: one line, overwritten at most ten times a second, and not before half a second
/// of work. It takes no memory and no lock. It shows nothing if the clock can't be read, and nothing more after
/// a line that can't be written.
#[derive(Drop)]
pub struct Meter<'a, C, E> {
    clock: &'a C,
    terminal: E,
    // Of so many files and bytes in all, so many are done.
    files: AtomicU64,
    files_done: AtomicU64,
    total: AtomicU64,
    done: AtomicU64,
    // At which of the clock's milliseconds the work began.
    begun: AtomicU64,
    // From which of the clock's milliseconds on a line may be written.
    due: AtomicU64,
    // Whether a line stands there.
    stands: AtomicBool,
}

// The clock's time, in milliseconds.
fn time_of<C: Clock>(clock: &C) -> Option<u64> {
    let time = clock.monotonic().ok()?;
    let whole = time.as_secs().saturating_mul(1000);
    Some(whole.saturating_add(u64::from(time.subsec_millis())))
}

impl<'a, C: Clock, E: Write + Copy> Meter<'a, C, E> {
    /// Returns a meter on this terminal, by this clock. Nothing is shown before work begins.
    pub fn new(clock: &'a C, terminal: E) -> Meter<'a, C, E>
        ensures clock { result.clock ≡ clock.entry }
        ensures terminal { result.terminal ≡ terminal }
    {
        Meter {
            clock,
            terminal,
            files: AtomicU64::new(0),
            files_done: AtomicU64::new(0),
            total: AtomicU64::new(0),
            done: AtomicU64::new(0),
            begun: AtomicU64::new(0),
            due: AtomicU64::new(NEVER),
            stands: AtomicBool::new(false),
        }
    }

    // The time, if a line is due and this thread the one to write it.
    fn due_time(&self) -> Option<u64> {
        let due = self.due.load(Ordering::SeqCst);
        if due == NEVER {
            return None;
        }
        let now = time_of(self.clock)?;
        if now < due {
            return None;
        }
        let next = now.saturating_add(PAUSE);
        self.due
            .compare_exchange(due, next, Ordering::SeqCst, Ordering::SeqCst)
            .ok()?;
        Some(now)
    }

    // Writes the line if it is due, by one write.
    fn show(&self) {
        let Some(now) = self.due_time() else {
            return;
        };
        // A line is due no earlier, and the time may not be 0.
        let millis = now
            .saturating_sub(self.begun.load(Ordering::SeqCst))
            .max(QUIET);
        let total = self.total.load(Ordering::SeqCst);
        let done = self.done.load(Ordering::SeqCst).min(total);
        let files = self.files.load(Ordering::SeqCst);
        let files_done = self.files_done.load(Ordering::SeqCst);
        let Ok(line) = shown_line(files_done, files, done, total, millis) else {
            return;
        };
        let mut terminal = self.terminal;
        match terminal.write(line.as_str().as_bytes()) {
            Ok(_) => self.stands.store(true, Ordering::SeqCst),
            Err(_) => self.due.store(NEVER, Ordering::SeqCst),
        }
    }

    // Takes the line away, if it stands there.
    fn wipe(&self) {
        if self.stands.swap(false, Ordering::SeqCst) {
            let mut terminal = self.terminal;
            let _ = terminal.write(WIPED.as_bytes());
        }
    }
}

impl<C: Clock, E: Write + Copy> Progress for Meter<'_, C, E> {
    fn begin(&self, total: u64) {
        self.begin_files(1, total);
    }

    fn begin_files(&self, files: u64, total: u64) {
        self.files.store(files, Ordering::SeqCst);
        self.files_done.store(0, Ordering::SeqCst);
        self.total.store(total, Ordering::SeqCst);
        self.done.store(0, Ordering::SeqCst);
        let now = time_of(self.clock).unwrap_or(NEVER);
        self.begun.store(now, Ordering::SeqCst);
        self.due.store(now.saturating_add(QUIET), Ordering::SeqCst);
    }

    fn add(&self, bytes: u64) {
        self.done.fetch_add(bytes, Ordering::SeqCst);
        self.show();
    }

    fn file_done(&self) {
        self.files_done.fetch_add(1, Ordering::SeqCst);
        self.wipe();
    }

    fn end(&self) {
        self.due.store(NEVER, Ordering::SeqCst);
        self.wipe();
    }
}
