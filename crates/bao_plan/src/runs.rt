ghost use Rattle.std.specs.Prelude.{◌≡◌, ℕ, ◌+◌, ◌*◌, ◌/◌, ◌%◌, ◌<◌, ◌≤◌, ◌==◌, nat_lt, not, false, true, Bool, ◌&&◌, ◌||◌, [], ◌^◌, ◌↔◌, length, IfOk, OnErr, OnOk, IsTrue, Some, slice_get, if◌then◌else◌};
ghost use Rattle.std.specs.List.{remove};
ghost use Rattle.std.specs.List.Sorted.{IsNonDecreasingBy};
ghost use Rattle.bao_plan.specs.declared.runs.Run.{Run};
ghost use Rattle.bao_plan.specs.Sets.{IsRunOf, contains, has_bit, in_mask, in_range, index_of, mask_at};

use crate::sets::{GROUP_LEN, has_bit, mask_below, mask_of};
use std::alloc::{AllocError, Global};

// Groups that have the same mask, up to this group.
#[derive(Clone, Copy)]
pub(crate) struct Run {
    pub(crate) end: usize,
    pub(crate) mask: u64,
}

// A set of chunks. It takes memory for its runs alone, and has few where most groups are as those beside them.
#[derive(Drop)]
pub(crate) struct ChunkSet {
    runs: Vec<Run>,
    ghost sorted: { IsNonDecreasingBy (λ (r : Run). r.end) runs.items },
}

// No chunk, from any group on.
pub(crate) fn no_run() -> Run
    ensures { (group : ℕ) → group < 2 ^ 63 → IsRunOf group result (λ c. false) }
{
    Run {
        end: usize::MAX,
        mask: 0,
    }
}

// All chunks of groups up to this one.
pub(crate) fn whole_run(end: usize) -> Run
    ensures end { result.end ≡ end }
    ensures all { (group : ℕ) → group < end → IsRunOf group result (λ c. true) }
{
    Run {
        end,
        mask: u64::MAX,
    }
}

// The chunks that are below this one, from a group on.
pub(crate) fn run_below(group: usize, end: u64) -> Run
    requires { group < 2 ^ 63 }
    ensures { IsRunOf group result (λ c. nat_lt c end) }
{
    let whole = (end / GROUP_LEN) as usize;
    if group < whole {
        whole_run(whole)
    } else if group == whole {
        Run {
            end: group + 1,
            mask: mask_below(group as u64, end),
        }
    } else {
        no_run()
    }
}

impl Run {
    // What both have, as far as both go.
    pub(crate) fn and(self, other: Run) -> Run
        ensures { (group : ℕ) (p q : ℕ → Bool) → IsRunOf group self p → IsRunOf group other q → IsRunOf group result (λ c. p c && q c) }
    {
        Run {
            end: self.end.min(other.end),
            mask: self.mask & other.mask,
        }
    }

    // What one of them has, as far as both go.
    pub(crate) fn or(self, other: Run) -> Run
        ensures { (group : ℕ) (p q : ℕ → Bool) → IsRunOf group self p → IsRunOf group other q → IsRunOf group result (λ c. p c || q c) }
    {
        Run {
            end: self.end.min(other.end),
            mask: self.mask | other.mask,
        }
    }

    // What it doesn't have.
    pub(crate) fn others(self) -> Run
        ensures end { result.end ≡ self.end }
        ensures others { (group : ℕ) (p : ℕ → Bool) → IsRunOf group self p → IsRunOf group result (λ c. not (p c)) }
    {
        Run {
            end: self.end,
            mask: !self.mask,
        }
    }
}

impl ChunkSet {
    // No chunks.
    pub(crate) fn new(alloc: Global) -> ChunkSet
        ensures { result.runs.items ≡ [] }
    {
        ChunkSet {
            runs: Vec::new(alloc),
        }
    }

    // All chunks below this one.
    pub(crate) fn below(alloc: Global, end: u64) -> Result<ChunkSet, AllocError>
        requires { end ≤ 2 ^ 54 }
        ensures { IfOk result (λ set. (c : ℕ) → contains set.runs.items c ≡ nat_lt c end) }
    {
        let whole = (end / GROUP_LEN) as usize;
        let mask = mask_below(whole as u64, end);
        let mut runs = Vec::new(alloc);
        runs.push(Run {
            end: whole,
            mask: u64::MAX,
        })?;
        runs.push(Run {
            end: whole + 1,
            mask,
        })?;
        Ok(ChunkSet { runs })
    }

    // The same chunks.
    pub(crate) fn copy(&self) -> Result<ChunkSet, AllocError>
        ensures { IfOk result (λ set. set.runs.items ≡ self.now.runs.items) }
    {
        let runs = Vec::from_slice(*self.runs.allocator(), self.runs.as_slice())?;
        Ok(ChunkSet { runs })
    }

    // The run that has the mask of a group.
    fn index_of(&self, group: usize) -> usize
        ensures { result ≡ index_of self.now.runs.items group }
    {
        let mut low = 0;
        let mut high = self.runs.len();
        'halves: while low < high {
            let middle = low + (high - low) / 2;
            if group < self.runs[middle].end {
                high = middle;
            } else {
                low = middle + 1;
            }
        }
        low
    }

    // The mask of a group.
    pub(crate) fn mask(&self, group: usize) -> u64
        ensures { result ≡ mask_at self.now.runs.items group }
    {
        let index = self.index_of(group);
        match nth(self.runs.as_slice(), index) {
            Some(run) => run.mask,
            None => 0,
        }
    }

    // The chunks from a group on.
    pub(crate) fn run_at(&self, group: usize) -> Run
        requires { group < 2 ^ 63 }
        ensures { IsRunOf group result (contains self.now.runs.items) }
    {
        let index = self.index_of(group);
        match nth(self.runs.as_slice(), index) {
            Some(run) => run,
            None => no_run(),
        }
    }

    // Whether the chunk is in the set.
    pub(crate) fn contains(&self, chunk: u64) -> bool
        ensures { result ≡ contains self.now.runs.items chunk }
    {
        let mask = self.mask((chunk / GROUP_LEN) as usize);
        has_bit(mask, (chunk % GROUP_LEN) as u32)
    }

    // The group has this mask from now on.
    fn set(&mut self, group: usize, mask: u64) -> Result<(), AllocError>
        requires { group < 2 ^ 63 }
        ensures ok { OnOk result ((g : ℕ) → mask_at self.new.runs.items g ≡ (if g == group then mask else mask_at self.old.runs.items g)) }
        ensures err { OnErr result ((g : ℕ) → mask_at self.new.runs.items g ≡ mask_at self.old.runs.items g) }
    {
        let index = self.index_of(group);
        let before = self.mask(group);
        self.runs.insert(
            index,
            Run {
                end: group,
                mask: before,
            },
        )?;
        self.runs.insert(
            index + 1,
            Run {
                end: group + 1,
                mask,
            },
        )?;
        self.tidy(index + 2);
        self.tidy(index + 1);
        self.tidy(index);
        self.tidy(index.saturating_sub(1));
        Ok(())
    }

    // Takes a run out, where that changes nothing.
    fn tidy(&mut self, index: usize)
        ensures { (g : ℕ) → mask_at self.new.runs.items g ≡ mask_at self.old.runs.items g }
    {
        if is_idle(self.runs.as_slice(), index) {
            let _run = self.runs.remove(index);
        }
    }

    // Puts the chunks of a mask of a group in.
    pub(crate) fn insert_all(&mut self, group: usize, mask: u64) -> Result<(), AllocError>
        requires { group < 2 ^ 63 }
        ensures ok { OnOk result ((c : ℕ) → contains self.new.runs.items c ≡ (contains self.old.runs.items c || in_mask group mask c)) }
        ensures err { OnErr result ((c : ℕ) → contains self.new.runs.items c ≡ contains self.old.runs.items c) }
    {
        let before = self.mask(group);
        self.set(group, before | mask)
    }

    // Takes the chunks of a mask of a group out.
    pub(crate) fn remove_all(&mut self, group: usize, mask: u64) -> Result<(), AllocError>
        requires { group < 2 ^ 63 }
        ensures ok { OnOk result ((c : ℕ) → contains self.new.runs.items c ≡ (contains self.old.runs.items c && not (in_mask group mask c))) }
        ensures err { OnErr result ((c : ℕ) → contains self.new.runs.items c ≡ contains self.old.runs.items c) }
    {
        let before = self.mask(group);
        self.set(group, before & !mask)
    }

    // Puts `count` chunks from `first` on in. After an error some of them may be.
    pub(crate) fn insert_range(&mut self, first: u64, count: u64) -> Result<(), AllocError>
        requires { first + count < 2 ^ 63 }
        ensures { OnOk result ((c : ℕ) → contains self.new.runs.items c ≡ (contains self.old.runs.items c || in_range first count c)) }
    {
        for group in first / GROUP_LEN..(first + count).div_ceil(GROUP_LEN) {
            self.insert_all(group as usize, mask_of(group, first, count))?;
        }
        Ok(())
    }

    // Takes `count` chunks from `first` on out. After an error some of them may be.
    pub(crate) fn remove_range(&mut self, first: u64, count: u64) -> Result<(), AllocError>
        requires { first + count < 2 ^ 63 }
        ensures { OnOk result ((c : ℕ) → contains self.new.runs.items c ≡ (contains self.old.runs.items c && not (in_range first count c))) }
    {
        for group in first / GROUP_LEN..(first + count).div_ceil(GROUP_LEN) {
            self.remove_all(group as usize, mask_of(group, first, count))?;
        }
        Ok(())
    }

    // Whether all of `count` chunks from `first` on are in.
    pub(crate) fn has_range(&self, first: u64, count: u64) -> bool
        requires { first + count < 2 ^ 64 }
        ensures { IsTrue result ↔ ((c : ℕ) → in_range first count c ≡ true → contains self.now.runs.items c ≡ true) }
    {
        for i in 0..count {
            if !self.contains(first + i) {
                return false;
            }
        }
        true
    }
}

// A run of a set.
fn nth(runs: &[Run], index: usize) -> Option<Run>
    ensures { result ≡ slice_get runs.now index }
{
    runs.get(index).copied()
}

// Whether the masks are the same without a run: it has no group, or the mask of the next one.
fn is_idle(runs: &[Run], index: usize) -> bool
    ensures within { IsTrue result → index < length runs.now }
    ensures same { IsTrue result → (g : ℕ) → mask_at (remove runs.now index) g ≡ mask_at runs.now g }
{
    let Some(run) = nth(runs, index) else {
        return false;
    };
    is_empty(runs, index, run) || is_as_next(runs, index, run)
}

// Whether a run ends where it begins.
fn is_empty(runs: &[Run], index: usize, run: Run) -> bool
    requires { slice_get runs.now index ≡ Some run }
    ensures { IsTrue result → (g : ℕ) → mask_at (remove runs.now index) g ≡ mask_at runs.now g }
{
    if index == 0 {
        return run.end == 0;
    }
    match nth(runs, index - 1) {
        Some(before) => run.end <= before.end,
        None => false,
    }
}

// Whether the groups of a run have the mask of those that follow.
fn is_as_next(runs: &[Run], index: usize, run: Run) -> bool
    requires { slice_get runs.now index ≡ Some run }
    ensures { IsTrue result → (g : ℕ) → mask_at (remove runs.now index) g ≡ mask_at runs.now g }
{
    match nth(runs, index + 1) {
        Some(next) => run.mask == next.mask && run.end <= next.end,
        None => run.mask == 0,
    }
}
