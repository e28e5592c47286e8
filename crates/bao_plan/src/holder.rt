ghost use Rattle.std.specs.Prelude.{◌≡◌, ℕ, ◌+◌, ◌*◌, ◌/◌, ◌%◌, ◌^◌, ◌<◌, ◌≤◌, ◌==◌, not, true, false, ◌&&◌, ◌||◌, OnErr, OnOk, IsTrue, ◌↔◌};
ghost use Rattle.bao_plan.specs.Sets.{IsRunOf, in_mask, in_range};
ghost use Rattle.bao_plan.specs.States.{is_better, is_left_out, may_have, unknown};
ghost use Rattle.bao_plan.specs.Events.{after_chunks, after_request, pause_after, pause_of};

use crate::policy::{Outcome, Policy};
use crate::runs::{ChunkSet, Run};
use crate::sets::is_some_bit;
use std::alloc::{AllocError, Global};

// What is known of a holder.
#[derive(Drop)]
pub(crate) struct Holder {
    // The chunks that it gave falsely, those that it said it lacks, and those of its requests under way.
    refused: ChunkSet,
    absent: ChunkSet,
    asked: ChunkSet,
    // Its failures since it last gave a chunk truly.
    in_row: u32,
    // The moment before which it isn't asked.
    pub(crate) later: u64,
    // It is asked only for what no holder of a lower rank may have.
    pub(crate) rank: u32,
}

// How long a holder is left alone after so many failures in a row.
fn pause_of(policy: Policy, in_row: u32) -> u64
    ensures value { result ≡ pause_of policy in_row }
    ensures most { result < 2 ^ 32 }
{
    if in_row == 0 {
        return 0;
    }
    let longest = u64::from(policy.longest_pause);
    let mut pause = longest.min(u64::from(policy.pause));
    for _n in 0..in_row - 1 {
        pause = longest.min(2 * pause);
    }
    pause
}

// How long it is left alone after a request that ended so.
fn pause_after(policy: Policy, outcome: Outcome, in_row: u32) -> u64
    ensures value { result ≡ pause_after policy outcome in_row }
    ensures most { result < 2 ^ 32 }
{
    match outcome {
        Outcome::Over => pause_of(policy, in_row),
        Outcome::LaterBy(ms) => u64::from(policy.longest_pause).min(ms),
        Outcome::Cut => 0,
    }
}

impl Holder {
    ghost use Rattle.bao_plan.specs.Holders.{IsAskedBelow, seen};

    // A holder that may have all.
    pub(crate) fn new(alloc: Global) -> Holder
        ensures seen { seen result ≡ unknown }
        ensures below { (end : ℕ) → IsAskedBelow end result }
    {
        Holder {
            refused: ChunkSet::new(alloc),
            absent: ChunkSet::new(alloc),
            asked: ChunkSet::new(alloc),
            in_row: 0,
            later: 0,
            rank: 0,
        }
    }

    // Whether it has failed too often.
    pub(crate) fn is_left_out(&self, policy: Policy) -> bool
        ensures { result ≡ is_left_out policy (seen self.now) }
    {
        self.in_row >= policy.faults
    }

    // Whether it is of a lower rank than this, and may be asked now.
    pub(crate) fn is_better(&self, policy: Policy, now: u64, rank: u32) -> bool
        ensures { result ≡ is_better policy now rank (seen self.now) }
    {
        self.rank < rank && !self.is_left_out(policy) && self.later <= now
    }

    // Which chunks it may have, from a group on.
    pub(crate) fn may_have(&self, group: usize) -> Run
        requires { group < 2 ^ 63 }
        ensures { IsRunOf group result (may_have (seen self.now)) }
    {
        let refused = self.refused.run_at(group);
        let absent = self.absent.run_at(group);
        refused.others().and(absent.others())
    }

    // Which chunks it is asked for, from a group on.
    pub(crate) fn is_asked_from(&self, group: usize) -> Run
        requires { group < 2 ^ 63 }
        ensures { IsRunOf group result (seen self.now).asked }
    {
        self.asked.run_at(group)
    }

    // It gave chunks truly, and nobody before it.
    pub(crate) fn gave(&mut self, policy: Policy, taken: u64)
        ensures seen { seen self.new ≡ after_chunks policy taken (seen self.old) }
        ensures below { (end : ℕ) → IsAskedBelow end self.old → IsAskedBelow end self.new }
    {
        if is_some_bit(taken) && !self.is_left_out(policy) {
            self.in_row = 0;
        }
    }

    // It gave chunks falsely.
    pub(crate) fn refuse(&mut self, group: usize, mask: u64) -> Result<(), AllocError>
        requires { group < 2 ^ 63 }
        ensures ok { OnOk result (seen self.new ≡ record (seen self.old) { refused = λ c. (seen self.old).refused c || in_mask group mask c }) }
        ensures err { OnErr result (seen self.new ≡ seen self.old) }
        ensures below { (end : ℕ) → IsAskedBelow end self.old → IsAskedBelow end self.new }
    {
        self.refused.insert_all(group, mask)
    }

    // It said that it lacks chunks.
    pub(crate) fn lack(&mut self, group: usize, mask: u64) -> Result<(), AllocError>
        requires { group < 2 ^ 63 }
        ensures ok { OnOk result (seen self.new ≡ record (seen self.old) { absent = λ c. (seen self.old).absent c || in_mask group mask c }) }
        ensures err { OnErr result (seen self.new ≡ seen self.old) }
        ensures below { (end : ℕ) → IsAskedBelow end self.old → IsAskedBelow end self.new }
    {
        self.absent.insert_all(group, mask)
    }

    // It said that it has chunks.
    pub(crate) fn has(&mut self, group: usize, mask: u64) -> Result<(), AllocError>
        requires { group < 2 ^ 63 }
        ensures ok { OnOk result (seen self.new ≡ record (seen self.old) { absent = λ c. (seen self.old).absent c && not (in_mask group mask c) }) }
        ensures err { OnErr result (seen self.new ≡ seen self.old) }
        ensures below { (end : ℕ) → IsAskedBelow end self.old → IsAskedBelow end self.new }
    {
        self.absent.remove_all(group, mask)
    }

    // Its failures are forgotten.
    pub(crate) fn forgive(&mut self)
        ensures seen { seen self.new ≡ record (seen self.old) { in_row = 0 } }
        ensures below { (end : ℕ) → IsAskedBelow end self.old → IsAskedBelow end self.new }
    {
        self.in_row = 0;
    }

    // It has this rank from now on.
    pub(crate) fn set_rank(&mut self, rank: u32)
        ensures seen { seen self.new ≡ record (seen self.old) { rank = rank } }
        ensures below { (end : ℕ) → IsAskedBelow end self.old → IsAskedBelow end self.new }
    {
        self.rank = rank;
    }

    // It is asked for chunks.
    pub(crate) fn ask_for(&mut self, first: u64, count: u64) -> Result<(), AllocError>
        requires { first + count < 2 ^ 63 }
        ensures ok { OnOk result (seen self.new ≡ record (seen self.old) { asked = λ c. (seen self.old).asked c || in_range first count c }) }
        ensures err { OnErr result (seen self.new ≡ seen self.old) }
        ensures below { (end : ℕ) → first + count ≤ end → IsAskedBelow end self.old → IsAskedBelow end self.new }
    {
        let mut asked = self.asked.copy()?;
        asked.insert_range(first, count)?;
        self.asked = asked;
        Ok(())
    }

    // Whether a request of these chunks is under way.
    pub(crate) fn is_asked(&self, first: u64, count: u64) -> bool
        requires { first + count < 2 ^ 64 }
        ensures { IsTrue result ↔ ((c : ℕ) → in_range first count c ≡ true → (seen self.now).asked c ≡ true) }
    {
        self.asked.has_range(first, count)
    }

    // Its request of these chunks has ended.
    pub(crate) fn end(
        &mut self,
        policy: Policy,
        first: u64,
        count: u64,
        outcome: Outcome,
        now: u64,
        failed: bool,
    ) -> Result<(), AllocError>
        requires fits { first + count < 2 ^ 63 }
        requires moment { now < 2 ^ 63 }
        ensures ok { OnOk result (seen self.new ≡ after_request policy (seen self.old) first count outcome now failed) }
        ensures err { OnErr result (seen self.new ≡ seen self.old) }
        ensures below { (end : ℕ) → IsAskedBelow end self.old → IsAskedBelow end self.new }
    {
        let mut asked = self.asked.copy()?;
        asked.remove_range(first, count)?;
        self.asked = asked;
        if failed && !self.is_left_out(policy) {
            self.in_row += 1;
        }
        let row = if failed { self.in_row } else { 0 };
        self.later = self.later.max(now + pause_after(policy, outcome, row));
        Ok(())
    }
}
