ghost use Rattle.std.specs.Prelude.{◌≡◌};
ghost use Rattle.gather.specs.Counts.{Fits, asked_once, checked_once, lost_once, memory_once, no_counts};

use bao_check::CheckFault;
use holders::HolderFault;

/// What a worker did. A count stays at 2^64 - 1 once there.
#[derive(Clone, Copy, Debug, PartialEq, Eq)]
pub struct Report {
    /// Chunks committed.
    pub committed: u64,
    /// Parents stored.
    pub parents: u64,
    /// Fetches.
    pub asked: u64,
    /// Encodings that a check refused, for another reason than memory.
    pub refused: u64,
    /// Fetches whose device failed.
    pub failed: u64,
    /// Refusals of memory.
    pub memory: u64,
    /// Whether a certified length was above the store's capacity.
    pub too_large: bool,
}

impl Report {
    /// Returns the report of no work.
    pub fn new() -> Report
        ensures { result ≡ no_counts }
    {
        Report {
            committed: 0,
            parents: 0,
            asked: 0,
            refused: 0,
            failed: 0,
            memory: 0,
            too_large: false,
        }
    }

    // Its counts are of 64 bits: a field that is read tells its range.
    pub(crate) fn fits(&self)
        ensures { Fits self.now }
    {
        let _committed = self.committed;
        let _parents = self.parents;
        let _memory = self.memory;
        let _failed = self.failed;
    }

    // Counts a fetch.
    pub(crate) fn count_asked(&mut self)
        ensures { self.new ≡ asked_once self.old }
    {
        self.asked = self.asked.saturating_add(1);
    }

    // Counts a fetch that gave no text.
    pub(crate) fn count_lost(&mut self, fault: HolderFault)
        ensures { self.new ≡ lost_once fault self.old }
    {
        match fault {
            HolderFault::Device => self.failed = self.failed.saturating_add(1),
            HolderFault::Memory => self.memory = self.memory.saturating_add(1),
        }
    }

    // Counts a growth that was refused.
    pub(crate) fn count_memory(&mut self)
        ensures { self.new ≡ memory_once self.old }
    {
        self.memory = self.memory.saturating_add(1);
    }

    // Counts a text that a check refused.
    pub(crate) fn count_refused(&mut self, fault: &CheckFault)
        ensures { self.new ≡ checked_once fault.now self.old }
    {
        match fault {
            CheckFault::Memory => self.memory = self.memory.saturating_add(1),
            _ => self.refused = self.refused.saturating_add(1),
        }
    }
}
