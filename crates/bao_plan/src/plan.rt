ghost use Rattle.std.specs.Prelude.{◌≡◌, ℕ, ◌+◌, ◌-◌, ◌*◌, ◌/◌, ◌%◌, ◌^◌, ◌<◌, ◌≤◌, ◌==◌, not, true, false, ◌&&◌, ◌||◌, length, IfErr, IfOk, MatchOption, OnErr, OnOk, IsTrue, ◌↔◌, ◌⊎◌, All};
ghost use Rattle.bao_plan.specs.Sets.{IsRunOf, contains, has_bit, in_range};
ghost use Rattle.bao_plan.specs.Holders.{IsAskedBelow};

use crate::holder::Holder;
use crate::policy::{EndFault, Next, Outcome, Policy, REQUEST_CHUNKS};
use crate::runs::{ChunkSet, Run, no_run, run_below, whole_run};
use crate::sets::{GROUP_LEN, has_bit, is_some_bit, lowest, ones_from};
use std::alloc::{AllocError, Global};

/// What is known of a fetch of one blob, and who is to be asked for what.
///
/// A holder is a number, from 0 on in the order in which they are added. A group is 64 chunks, and bit j of a mask stands for
/// chunk 64 * group + j. Moments are in milliseconds, by whichever clock the caller reads.
#[derive(Drop)]
pub struct Plan {
    policy: Policy,
    chunks: u64,
    // Only chunks below it are asked for.
    end: u64,
    alloc: Global,
    // The chunks that are lacking, and when chunks of each unit of REQUEST_CHUNKS were last asked for.
    missing: ChunkSet,
    since: Vec<u64>,
    holders: Vec<Holder>,
    ghost small: { chunks ≤ 2 ^ 54 },
    ghost opens: { (c : ℕ) → contains missing.runs.items c ≡ true → c < chunks },
    ghost times: { length since.items ≡ (chunks + 1023) / 1024 },
    ghost asks: { All (IsAskedBelow chunks) holders.items },
}

// How many groups a unit of REQUEST_CHUNKS has.
const UNIT_GROUPS: usize = 16;

impl Plan {
    ghost use Rattle.bao_plan.specs.Events.{Did, IfFetch, IsUnderWay, IsWhole, after_asking, is_decided, is_failure};
    ghost use Rattle.bao_plan.specs.Events.Event.{Added, Asked, Ended, Forgiven, Has, Kept, Lacks, Limited, Ranked, Refused};
    ghost use Rattle.bao_plan.specs.Plans.{state_of};
    ghost use Rattle.bao_plan.specs.declared.policy.EndFault.TheVariants.{NoRequest};
    ghost use Rattle.bao_plan.specs.States.{has_better, is_late, is_left_out, is_ready, is_undecided, is_under_way, is_wanted, start};

    /// A plan of a blob of so many chunks, at most 2^54, of which all are lacking.
    pub fn new(alloc: Global, policy: Policy, chunks: u64) -> Result<Plan, AllocError>
        requires { chunks ≤ 2 ^ 54 }
        ensures { IfOk result (λ plan. state_of plan ≡ start policy chunks) }
    {
        let units = chunks.div_ceil(REQUEST_CHUNKS) as usize;
        let missing = ChunkSet::below(alloc, chunks)?;
        let since = vec![in alloc; 0; units]?;
        Ok(Plan {
            policy,
            chunks,
            end: chunks,
            alloc,
            missing,
            since,
            holders: Vec::new(alloc),
        })
    }

    /// How many chunks the blob has.
    pub fn chunks(&self) -> u64
        ensures { result ≡ (state_of self.now).chunks }
    {
        self.chunks
    }

    /// How many holders there are.
    pub fn holders(&self) -> usize
        ensures { result ≡ (state_of self.now).count }
    {
        self.holders.len()
    }

    /// One more holder, that may have all. Its number.
    pub fn add_holder(&mut self) -> Result<usize, AllocError>
        ensures number { IfOk result (λ h. h ≡ (state_of self.old).count) }
        ensures ok { IfOk result (λ _. Did (state_of self.old) (state_of self.new) Added) }
        ensures err { OnErr result (state_of self.new ≡ state_of self.old) }
    {
        let number = self.holders.len();
        let holder = Holder::new(self.alloc);
        self.holders.push(holder)?;
        Ok(number)
    }

    /// The holder gave these chunks of a group truly. Which of them were lacking: they are counted now, and never again. Where
    /// memory for it is refused, nothing has changed.
    pub fn kept(&mut self, holder: usize, group: usize, mask: u64) -> Result<u64, AllocError>
        requires holder { holder < (state_of self.old).count }
        requires group { 64 * group < (state_of self.old).chunks }
        ensures ok { IfOk result (λ taken. Did (state_of self.old) (state_of self.new) (Kept holder group mask taken)) }
        ensures err { OnErr result (state_of self.new ≡ state_of self.old) }
    {
        let taken = mask & self.missing.mask(group);
        self.missing.remove_all(group, mask)?;
        self.holders[holder].gave(self.policy, taken);
        Ok(taken)
    }

    /// The holder gave these chunks of a group falsely. It isn't asked for them again. Where memory for it is
    /// refused, nothing has changed, and it may be.
    pub fn refused(&mut self, holder: usize, group: usize, mask: u64) -> Result<(), AllocError>
        requires holder { holder < (state_of self.old).count }
        requires group { 64 * group < (state_of self.old).chunks }
        ensures ok { OnOk result (Did (state_of self.old) (state_of self.new) (Refused holder group mask)) }
        ensures err { OnErr result (state_of self.new ≡ state_of self.old) }
    {
        self.holders[holder].refuse(group, mask)
    }

    /// The holder said that it lacks these chunks of a group. It isn't asked for them until it has them.
    /// Where memory for it is refused, nothing has changed, and it may be.
    pub fn lacks(&mut self, holder: usize, group: usize, mask: u64) -> Result<(), AllocError>
        requires holder { holder < (state_of self.old).count }
        requires group { 64 * group < (state_of self.old).chunks }
        ensures ok { OnOk result (Did (state_of self.old) (state_of self.new) (Lacks holder group mask)) }
        ensures err { OnErr result (state_of self.new ≡ state_of self.old) }
    {
        self.holders[holder].lack(group, mask)
    }

    /// The holder said that it has these chunks of a group. Those that it gave falsely it isn't asked for all the
    /// same. Where memory for it is refused, nothing has changed.
    pub fn has(&mut self, holder: usize, group: usize, mask: u64) -> Result<(), AllocError>
        requires holder { holder < (state_of self.old).count }
        requires group { 64 * group < (state_of self.old).chunks }
        ensures ok { OnOk result (Did (state_of self.old) (state_of self.new) (Has holder group mask)) }
        ensures err { OnErr result (state_of self.new ≡ state_of self.old) }
    {
        self.holders[holder].has(group, mask)
    }

    /// From now on only chunks below the end are asked for, as where the blob's bytes go through a window.
    pub fn limit(&mut self, end: u64)
        ensures { Did (state_of self.old) (state_of self.new) (Limited end) }
    {
        self.end = end;
    }

    /// The holder's failures are forgotten: where it was left out, it is asked again, but for what it gave falsely.
    pub fn forgive(&mut self, holder: usize)
        requires { holder < (state_of self.old).count }
        ensures { Did (state_of self.old) (state_of self.new) (Forgiven holder) }
    {
        self.holders[holder].forgive();
    }

    /// From now on the holder is asked only for what none of a lower rank may have, of those that may be asked at that time.
    pub fn rank(&mut self, holder: usize, rank: u32)
        requires { holder < (state_of self.old).count }
        ensures { Did (state_of self.old) (state_of self.new) (Ranked holder rank) }
    {
        self.holders[holder].set_rank(rank);
    }

    /// Whether the holder has failed too often to be asked again.
    pub fn is_left_out(&self, holder: usize) -> bool
        requires { holder < (state_of self.now).count }
        ensures { result ≡ is_left_out (state_of self.now).policy ((state_of self.now).holder holder) }
    {
        self.holders[holder].is_left_out(self.policy)
    }

    // How many groups there are.
    fn groups(&self) -> usize
        ensures most { result ≤ 2 ^ 48 }
        ensures all { (c : ℕ) → (state_of self.now).is_open c ≡ true → c / 64 < result }
    {
        self.chunks.div_ceil(GROUP_LEN) as usize
    }

    // Which chunks the holder could be asked for, now or later, from a group on.
    fn wanted(&self, holder: usize, group: usize) -> Run
        requires holder { holder < (state_of self.now).count }
        requires group { group < 2 ^ 63 }
        ensures { IsRunOf group result (is_wanted (state_of self.now) holder) }
    {
        let may_have = self.holders[holder].may_have(group);
        let asked = self.holders[holder].is_asked_from(group);
        let undecided = self.missing.run_at(group).and(may_have);
        undecided
            .and(asked.others())
            .and(run_below(group, self.end))
    }

    // Which chunks some holder is asked for, from a group on.
    fn under_way(&self, group: usize) -> Run
        requires { group < 2 ^ 63 }
        ensures { IsRunOf group result (is_under_way (state_of self.now)) }
    {
        let mut run = no_run();
        for k in 0..self.holders.len() {
            run = run.or(self.holders[k].is_asked_from(group));
        }
        run
    }

    // Which chunks a better holder may have, than one of this rank, from a group on.
    fn better(&self, rank: u32, now: u64, group: usize) -> Run
        requires { group < 2 ^ 63 }
        ensures { IsRunOf group result (has_better (state_of self.now) rank now) }
    {
        let mut run = no_run();
        for k in 0..self.holders.len() {
            if self.holders[k].is_better(self.policy, now, rank) {
                run = run.or(self.holders[k].may_have(group));
            }
        }
        run
    }

    // Whether who was asked last for chunks of the group's unit has had his time.
    fn is_late(&self, now: u64, group: usize) -> bool
        ensures { (c : ℕ) → c / 1024 ≡ group / 16 → result ≡ is_late (state_of self.now) now c }
    {
        let since = self.since.get(group / UNIT_GROUPS).copied().unwrap_or(0);
        now.saturating_sub(since) >= u64::from(self.policy.patience)
    }

    // Which chunks may be overtaken, from a group on.
    fn late(&self, now: u64, overtakes: bool, group: usize) -> Run
        requires { group < 2 ^ 63 }
        ensures { IsRunOf group result (λ c. overtakes && is_late (state_of self.now) now c) }
    {
        if !overtakes {
            return no_run();
        }
        let unit = whole_run((group / UNIT_GROUPS + 1) * UNIT_GROUPS);
        if self.is_late(now, group) {
            unit
        } else {
            unit.others()
        }
    }

    // Which chunks the holder is to be asked for now, from a group on; also those that another one is slow to give, where it
    // may overtake.
    fn ready(&self, holder: usize, now: u64, overtakes: bool, group: usize) -> Run
        requires holder { holder < (state_of self.now).count }
        requires group { group < 2 ^ 63 }
        ensures { IsRunOf group result (is_ready (state_of self.now) holder now overtakes) }
    {
        let wanted = self.wanted(holder, group);
        if wanted.mask == 0 {
            return wanted;
        }
        let left = self.better(self.holders[holder].rank, now, group);
        let mine = wanted.and(left.others());
        if mine.mask == 0 {
            return mine;
        }
        let free = self.under_way(group).others();
        mine.and(free.or(self.late(now, overtakes, group)))
    }

    // A chunk that the holder could be asked for, now or later.
    fn first_wanted(&self, holder: usize) -> Option<u64>
        requires { holder < (state_of self.now).count }
        ensures { MatchOption result ((c : ℕ) → is_wanted (state_of self.now) holder c ≡ false) (λ c. is_wanted (state_of self.now) holder c ≡ true) }
    {
        let groups = self.groups();
        let mut group = 0;
        'runs: while group < groups {
            let run = self.wanted(holder, group);
            match lowest(run.mask) {
                Some(j) => return Some(GROUP_LEN * group as u64 + u64::from(j)),
                None => group = run.end,
            }
        }
        None
    }

    // The first chunk that the holder is to be asked for now.
    fn first_ready(&self, holder: usize, now: u64, overtakes: bool) -> Option<u64>
        requires { holder < (state_of self.now).count }
        ensures { MatchOption result ((c : ℕ) → is_ready (state_of self.now) holder now overtakes c ≡ false) (λ c. is_ready (state_of self.now) holder now overtakes c ≡ true) }
    {
        let groups = self.groups();
        let mut group = 0;
        'runs: while group < groups {
            let run = self.ready(holder, now, overtakes, group);
            match lowest(run.mask) {
                Some(j) => return Some(GROUP_LEN * group as u64 + u64::from(j)),
                None => group = run.end,
            }
        }
        None
    }

    // The end of the chunks of a group from this one on that the holder is to be asked for now.
    fn row_end(&self, holder: usize, now: u64, overtakes: bool, first: u64) -> u64
        requires holder { holder < (state_of self.now).count }
        requires first { first < 2 ^ 63 }
        ensures from { first ≤ result }
        ensures to { result ≤ 64 * (first / 64 + 1) }
        ensures ready { (c : ℕ) → first ≤ c → c < result → is_ready (state_of self.now) holder now overtakes c ≡ true }
        ensures last { result < 64 * (first / 64 + 1) → is_ready (state_of self.now) holder now overtakes result ≡ false }
    {
        let group = (first / GROUP_LEN) as usize;
        let run = self.ready(holder, now, overtakes, group);
        first + u64::from(ones_from(run.mask, (first % GROUP_LEN) as u32))
    }

    // How many chunks from this one on the holder is to be asked for now, up to the end of a request.
    fn run_from(&self, holder: usize, now: u64, overtakes: bool, first: u64) -> u64
        requires holder { holder < (state_of self.now).count }
        requires ready { is_ready (state_of self.now) holder now overtakes first ≡ true }
        ensures some { 0 < result }
        ensures room { first + result ≤ (state_of self.now).chunks }
        ensures whole { IsWhole (state_of self.now) holder now overtakes first result }
        ensures most { result ≤ 1024 }
        ensures within { (first + result - 1) / 1024 ≡ first / 1024 }
        ensures ready { (c : ℕ) → in_range first result c ≡ true → is_ready (state_of self.now) holder now overtakes c ≡ true }
    {
        let mut end = self.row_end(holder, now, overtakes, first);
        for group in first / GROUP_LEN + 1..(first / REQUEST_CHUNKS + 1) * UNIT_GROUPS as u64 {
            if end < GROUP_LEN * group {
                return end - first;
            }
            end = self.row_end(holder, now, overtakes, end);
        }
        end - first
    }

    // Whether the holder could be asked for a chunk of the unit, now or later.
    fn wants_of(&self, holder: usize, unit: usize) -> bool
        requires holder { holder < (state_of self.now).count }
        requires unit { unit < 2 ^ 54 }
    {
        let first = unit * UNIT_GROUPS;
        for group in first..first + UNIT_GROUPS {
            if self.wanted(holder, group).mask != 0 {
                return true;
            }
        }
        false
    }

    // The moment when a chunk that the holder could be asked for is left to nobody else, or a guess at it.
    fn due(&self, holder: usize, now: u64) -> u64
        requires holder { holder < (state_of self.now).count }
        requires moment { now < 2 ^ 63 }
        ensures { now < result }
    {
        let patience = u64::from(self.policy.patience);
        let mut due = now + patience.max(1);
        for unit in 0..self.since.len() {
            let end = self.since[unit].saturating_add(patience);
            if now < end && end < due && self.wants_of(holder, unit) {
                due = end;
            }
        }
        due
    }

    // The holder is asked for as many chunks as are ready from this one on.
    fn begin(
        &mut self,
        holder: usize,
        now: u64,
        overtakes: bool,
        first: u64,
    ) -> Result<Next, AllocError>
        requires holder { holder < (state_of self.old).count }
        requires ready { is_ready (state_of self.old) holder now overtakes first ≡ true }
        ensures ok { IfOk result (λ next. IfFetch next (λ first count. (0 < count) × (count ≤ 1024) × ((first + count - 1) / 1024 ≡ first / 1024)
            × IsWhole (state_of self.old) holder now overtakes first count
            × ((c : ℕ) → in_range first count c ≡ true → is_ready (state_of self.old) holder now overtakes c ≡ true)
            × (state_of self.new ≡ after_asking (state_of self.old) holder now next))) }
        ensures err { OnErr result (state_of self.new ≡ state_of self.old) }
    {
        let count = self.run_from(holder, now, overtakes, first);
        self.holders[holder].ask_for(first, count)?;
        self.since[(first / REQUEST_CHUNKS) as usize] = now;
        Ok(Next::Fetch { first, count })
    }

    /// What to do next with the holder. A chunk is asked of it only where it is lacking, the holder never gave it falsely nor
    /// said that it lacks it, and nobody else is asked for it, or is slow. Another one is overtaken only where nothing else is
    /// ready. Where memory for it is refused, nothing has changed.
    pub fn ask(&mut self, holder: usize, now: u64) -> Result<Next, AllocError>
        requires holder { holder < (state_of self.old).count }
        requires moment { now < 2 ^ 63 }
        ensures ok { IfOk result (λ next. Did (state_of self.old) (state_of self.new) (Asked holder now next)) }
        ensures err { OnErr result (state_of self.new ≡ state_of self.old) }
    {
        if self.holders[holder].is_left_out(self.policy) {
            return Ok(Next::Nothing);
        }
        match self.first_wanted(holder) {
            Some(_) => {}
            None => return Ok(Next::Nothing),
        }
        let later = self.holders[holder].later;
        if now < later {
            return Ok(Next::WaitUntil(later));
        }
        match self.first_ready(holder, now, false) {
            Some(first) => return self.begin(holder, now, false, first),
            None => {}
        }
        match self.first_ready(holder, now, true) {
            Some(first) => return self.begin(holder, now, true, first),
            None => {}
        }
        Ok(Next::WaitUntil(self.due(holder, now)))
    }

    // Whether a chunk of the request is no longer lacking, or is known not to be had of the holder.
    fn is_decided(&self, holder: usize, first: u64, count: u64) -> bool
        requires holder { holder < (state_of self.now).count }
        requires fits { first + count < 2 ^ 63 }
        ensures { result ≡ is_decided (state_of self.now) holder first count }
    {
        for i in 0..count {
            if !self.is_undecided(holder, first + i) {
                return true;
            }
        }
        false
    }

    // Whether the chunk is lacking and the holder may have it.
    fn is_undecided(&self, holder: usize, chunk: u64) -> bool
        requires holder { holder < (state_of self.now).count }
        requires fits { chunk < 2 ^ 63 }
        ensures { result ≡ is_undecided (state_of self.now) holder chunk }
    {
        let group = (chunk / GROUP_LEN) as usize;
        let run = self
            .missing
            .run_at(group)
            .and(self.holders[holder].may_have(group));
        has_bit(run.mask, (chunk % GROUP_LEN) as u32)
    }

    /// A request that the holder was asked for has ended. Whether that was a failure: it is where no chunk of it was decided,
    /// and the caller didn't give it up. After an error nothing has changed.
    pub fn ended(
        &mut self,
        holder: usize,
        first: u64,
        count: u64,
        outcome: Outcome,
        now: u64,
    ) -> Result<bool, EndFault>
        requires holder { holder < (state_of self.old).count }
        requires moment { now < 2 ^ 63 }
        ensures ok { IfOk result (λ failed. Did (state_of self.old) (state_of self.new) (Ended holder first count outcome now failed)) }
        ensures err { OnErr result (state_of self.new ≡ state_of self.old) }
        ensures none { IfErr result (λ fault. fault ≡ NoRequest → IsUnderWay (state_of self.old) holder first count → ⊥) }
    {
        if !self.is_request(holder, first, count) {
            return Err(EndFault::NoRequest);
        }
        let failed = self.is_failure(holder, first, count, outcome);
        match self.holders[holder].end(self.policy, first, count, outcome, now, failed) {
            Ok(()) => Ok(failed),
            Err(_) => Err(EndFault::Memory),
        }
    }

    // Whether a request of these chunks is under way at the holder.
    fn is_request(&self, holder: usize, first: u64, count: u64) -> bool
        requires { holder < (state_of self.now).count }
        ensures is { IsTrue result ↔ IsUnderWay (state_of self.now) holder first count }
        ensures room { IsTrue result → first + count ≤ 2 ^ 54 }
    {
        let end = self.chunks;
        if count == 0 || count > end || first > end - count {
            return false;
        }
        self.holders[holder].is_asked(first, count)
    }

    // Whether a request that ended so was a failure.
    fn is_failure(&self, holder: usize, first: u64, count: u64, outcome: Outcome) -> bool
        requires holder { holder < (state_of self.now).count }
        requires fits { first + count < 2 ^ 63 }
        ensures { result ≡ is_failure (state_of self.now) holder first count outcome }
    {
        !self.is_decided(holder, first, count) && !outcome.is_cut()
    }

    /// Whether nothing is lacking.
    pub fn is_done(&self) -> bool
        ensures { IsTrue result ↔ ((c : ℕ) → (state_of self.now).is_open c ≡ false) }
    {
        let groups = self.groups();
        let mut group = 0;
        'runs: while group < groups {
            let run = self.missing.run_at(group);
            if is_some_bit(run.mask) {
                return false;
            }
            group = run.end;
        }
        true
    }

    /// Which chunks of a group are lacking.
    pub fn lacking(&self, group: usize) -> u64
        ensures { (c : ℕ) → c / 64 ≡ group → has_bit result (c % 64) ≡ (state_of self.now).is_open c }
    {
        self.missing.mask(group)
    }
}
