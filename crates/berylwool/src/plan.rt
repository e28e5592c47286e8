ghost use Rattle.std.specs.Prelude.{◌≡◌, ◌≢◌, ◌↔◌, ℕ, ◌/◌, ◌%◌, ◌^◌, ◌<◌, ◌≤◌, false, nat_eq, None};
ghost use Rattle.bao_plan.specs.Events.{Did, IsUnderWay};
ghost use Rattle.bao_plan.specs.Events.Event.{Added, Asked, Ended, Forgiven, Has, Kept, Lacks, Limited, Ranked, Refused};
ghost use Rattle.bao_plan.specs.Plans.{state_of};
ghost use Rattle.bao_plan.specs.Sets.{has_bit};
ghost use Rattle.bao_plan.specs.States.{is_left_out, start};
ghost use Rattle.bao_text.specs.Choice.{chunk_count};
ghost use Rattle.berylwool.specs.Plans.{HasPlan, PlanDid, at_group, at_holder, at_place, moment_of, next_of, outcome_of, policy_of, status_of};

use crate::handle::{BwHandle, put, take, with_held};
use crate::owned::Held;
use crate::status::{NO_GROUP, NO_HOLDER, NO_MEMORY, NO_REQUEST};
use bao_plan::{EndFault, Next, Outcome, Plan, Policy};
use bao_text::chunk_count;
use std::alloc::Global;

/// The numbers that a plan goes by, as C has them. Times are in milliseconds.
#[repr(C)]
#[derive(Clone, Copy)]
pub struct BwPlanPolicy {
    pub faults: u32,
    pub pause_ms: u32,
    pub longest_pause_ms: u32,
    pub patience_ms: u32,
}

/// What to do next with a holder, as C has it: kind 0 is nothing, 1 a request and 2 a wait.
#[repr(C)]
#[derive(Clone, Copy)]
pub struct BwPlanNext {
    pub kind: u32,
    pub first: u64,
    pub count: u64,
    pub until_ms: u64,
}

fn policy(shown: &BwPlanPolicy) -> Policy
    ensures { result ≡ policy_of shown.now }
{
    Policy {
        faults: shown.faults,
        pause: shown.pause_ms,
        longest_pause: shown.longest_pause_ms,
        patience: shown.patience_ms,
    }
}

fn next_shown(next: Next) -> BwPlanNext
    ensures { next_of result ≡ next }
{
    let (kind, first, count, until_ms) = match next {
        Next::Nothing => (0, 0, 0, 0),
        Next::Fetch { first, count } => (1, first, count, 0),
        Next::WaitUntil(moment) => (2, 0, 0, moment),
    };
    BwPlanNext {
        kind,
        first,
        count,
        until_ms,
    }
}

fn outcome(shown: u32, later_ms: u64) -> Outcome
    ensures { result ≡ outcome_of shown later_ms }
{
    if shown == 1 {
        Outcome::LaterBy(later_ms)
    } else if shown == 2 {
        Outcome::Cut
    } else {
        Outcome::Over
    }
}

fn moment(now_ms: u64) -> u64
    ensures value { result ≡ moment_of now_ms }
    ensures most { result < 2 ^ 63 }
{
    now_ms.min(i64::MAX as u64)
}

// The status of a call that names a holder.
fn holder_status(plan: &Plan, holder: usize) -> u32
    ensures { result ≡ at_holder holder (state_of plan.now) }
{
    if holder < plan.holders() {
        0
    } else {
        NO_HOLDER
    }
}

// The status of a call that names a group.
fn group_status(plan: &Plan, group: u64) -> u32
    ensures { result ≡ at_group group (state_of plan.now) }
{
    if group <= u64::MAX / 64 && 64 * group < plan.chunks() {
        0
    } else {
        NO_GROUP
    }
}

// The status of a call that names a holder and a group.
fn place_status(plan: &Plan, holder: usize, group: u64) -> u32
    ensures { result ≡ at_place holder group (state_of plan.now) }
{
    if holder < plan.holders() {
        group_status(plan, group)
    } else {
        NO_HOLDER
    }
}

/// Makes a plan of a blob of `total` bytes that lacks every chunk and has no holder.
#[unsafe(no_mangle)]
pub extern "C" fn bw_plan_new(
    alloc: Global,
    total: u64,
    policy: &BwPlanPolicy,
    plan: &mut BwHandle,
) -> u32
    ensures made { result ≡ 0 → HasPlan (λ s. s ≡ start (policy_of policy.now) (chunk_count total)) plan.new.held }
    ensures status { result ≢ 0 → result ≡ 1203 }
    ensures empty { result ≢ 0 → plan.new.held ≡ None }
{
    let _old = take(plan, alloc);
    let Ok(made) = Plan::new(alloc, crate::plan::policy(policy), chunk_count(total)) else {
        return NO_MEMORY;
    };
    match Box::new(alloc, Held::Plan(made)) {
        Ok(held) => {
            put(plan, held);
            0
        }
        Err(_) => NO_MEMORY,
    }
}

/// Adds a holder that may have every chunk, and returns its number in `holder`: 0, 1, 2 and so on.
#[unsafe(no_mangle)]
pub extern "C" fn bw_plan_add_holder(alloc: Global, plan: &mut BwHandle, holder: &mut usize) -> u32
    ensures did { result ≡ 0 → PlanDid (λ old new. Did old new Added × (holder.new ≡ old.count)) plan.old.held plan.new.held }
    ensures memory { result ≡ 1203 → PlanDid (λ old new. new ≡ old) plan.old.held plan.new.held }
    ensures no_plan { result ≡ 1202 → plan.new.held ≡ plan.old.held }
    ensures status { result ≢ 1203 → result ≡ status_of (λ _. 0) plan.old.held }
    ensures unchanged { result ≢ 0 → holder.new ≡ holder.old }
{
    with_held!(plan, alloc, Plan, |it| match it.add_holder() {
        Ok(number) => {
            *holder = number;
            0
        }
        Err(_) => NO_MEMORY,
    })
}

/// Decides what to do next with a holder at the moment `now_ms`, and returns it in `next`.
#[unsafe(no_mangle)]
pub extern "C" fn bw_plan_ask(
    alloc: Global,
    plan: &mut BwHandle,
    holder: usize,
    now_ms: u64,
    next: &mut BwPlanNext,
) -> u32
    ensures did { result ≡ 0 → PlanDid (λ old new. Did old new (Asked holder (moment_of now_ms) (next_of next.new))) plan.old.held plan.new.held }
    ensures memory { result ≡ 1203 → PlanDid (λ old new. (at_holder holder old ≡ 0) × (new ≡ old)) plan.old.held plan.new.held }
    ensures status { result ≢ 1203 → result ≡ status_of (at_holder holder) plan.old.held }
    ensures same { result ≢ 0 → result ≢ 1203 → plan.new.held ≡ plan.old.held }
    ensures unchanged { result ≢ 0 → next.new ≡ next.old }
{
    with_held!(plan, alloc, Plan, |it| {
        let status = holder_status(it, holder);
        if status == 0 {
            match it.ask(holder, moment(now_ms)) {
                Ok(answer) => {
                    *next = next_shown(answer);
                    0
                }
                Err(_) => NO_MEMORY,
            }
        } else {
            status
        }
    })
}

/// Reports chunks of a group that a holder gave truly. Those of them that were lacking, and no longer are, are
/// in `taken`.
#[unsafe(no_mangle)]
pub extern "C" fn bw_plan_kept(
    alloc: Global,
    plan: &mut BwHandle,
    holder: usize,
    group: u64,
    mask: u64,
    taken: &mut u64,
) -> u32
    ensures did { result ≡ 0 → PlanDid (λ old new. Did old new (Kept holder group mask taken.new)) plan.old.held plan.new.held }
    ensures memory { result ≡ 1203 → PlanDid (λ old new. (at_place holder group old ≡ 0) × (new ≡ old)) plan.old.held plan.new.held }
    ensures status { result ≢ 1203 → result ≡ status_of (at_place holder group) plan.old.held }
    ensures same { result ≢ 0 → result ≢ 1203 → plan.new.held ≡ plan.old.held }
    ensures unchanged { result ≢ 0 → taken.new ≡ taken.old }
{
    with_held!(plan, alloc, Plan, |it| {
        let status = place_status(it, holder, group);
        if status == 0 {
            match it.kept(holder, group as usize, mask) {
                Ok(counted) => {
                    *taken = counted;
                    0
                }
                Err(_) => NO_MEMORY,
            }
        } else {
            status
        }
    })
}

/// Reports chunks of a group that a holder gave falsely.
#[unsafe(no_mangle)]
pub extern "C" fn bw_plan_refused(
    alloc: Global,
    plan: &mut BwHandle,
    holder: usize,
    group: u64,
    mask: u64,
) -> u32
    ensures did { result ≡ 0 → PlanDid (λ old new. Did old new (Refused holder group mask)) plan.old.held plan.new.held }
    ensures memory { result ≡ 1203 → PlanDid (λ old new. (at_place holder group old ≡ 0) × (new ≡ old)) plan.old.held plan.new.held }
    ensures status { result ≢ 1203 → result ≡ status_of (at_place holder group) plan.old.held }
    ensures same { result ≢ 0 → result ≢ 1203 → plan.new.held ≡ plan.old.held }
{
    with_held!(plan, alloc, Plan, |it| {
        let status = place_status(it, holder, group);
        if status == 0 {
            match it.refused(holder, group as usize, mask) {
                Ok(()) => 0,
                Err(_) => NO_MEMORY,
            }
        } else {
            status
        }
    })
}

/// Reports chunks of a group that a holder says it lacks.
#[unsafe(no_mangle)]
pub extern "C" fn bw_plan_lacks(
    alloc: Global,
    plan: &mut BwHandle,
    holder: usize,
    group: u64,
    mask: u64,
) -> u32
    ensures did { result ≡ 0 → PlanDid (λ old new. Did old new (Lacks holder group mask)) plan.old.held plan.new.held }
    ensures memory { result ≡ 1203 → PlanDid (λ old new. (at_place holder group old ≡ 0) × (new ≡ old)) plan.old.held plan.new.held }
    ensures status { result ≢ 1203 → result ≡ status_of (at_place holder group) plan.old.held }
    ensures same { result ≢ 0 → result ≢ 1203 → plan.new.held ≡ plan.old.held }
{
    with_held!(plan, alloc, Plan, |it| {
        let status = place_status(it, holder, group);
        if status == 0 {
            match it.lacks(holder, group as usize, mask) {
                Ok(()) => 0,
                Err(_) => NO_MEMORY,
            }
        } else {
            status
        }
    })
}

/// Reports chunks of a group that a holder says it has.
#[unsafe(no_mangle)]
pub extern "C" fn bw_plan_has(
    alloc: Global,
    plan: &mut BwHandle,
    holder: usize,
    group: u64,
    mask: u64,
) -> u32
    ensures did { result ≡ 0 → PlanDid (λ old new. Did old new (Has holder group mask)) plan.old.held plan.new.held }
    ensures memory { result ≡ 1203 → PlanDid (λ old new. (at_place holder group old ≡ 0) × (new ≡ old)) plan.old.held plan.new.held }
    ensures status { result ≢ 1203 → result ≡ status_of (at_place holder group) plan.old.held }
    ensures same { result ≢ 0 → result ≢ 1203 → plan.new.held ≡ plan.old.held }
{
    with_held!(plan, alloc, Plan, |it| {
        let status = place_status(it, holder, group);
        if status == 0 {
            match it.has(holder, group as usize, mask) {
                Ok(()) => 0,
                Err(_) => NO_MEMORY,
            }
        } else {
            status
        }
    })
}

/// Reports the end of the request of `count` chunks from `first` on.
#[unsafe(no_mangle)]
pub extern "C" fn bw_plan_ended(
    alloc: Global,
    plan: &mut BwHandle,
    holder: usize,
    first: u64,
    count: u64,
    outcome: u32,
    later_ms: u64,
    now_ms: u64,
    failed: &mut u32,
) -> u32
    ensures did { result ≡ 0 → PlanDid (λ old new. Did old new (Ended holder first count (outcome_of outcome later_ms) (moment_of now_ms) (nat_eq failed.new 1))) plan.old.held plan.new.held }
    ensures no_request { result ≡ 1215 → PlanDid (λ old new. (new ≡ old) × (IsUnderWay old holder first count → ⊥)) plan.old.held plan.new.held }
    ensures memory { result ≡ 1203 → PlanDid (λ old new. (at_holder holder old ≡ 0) × (new ≡ old)) plan.old.held plan.new.held }
    ensures status { result ≢ 1215 → result ≢ 1203 → result ≡ status_of (at_holder holder) plan.old.held }
    ensures same { result ≢ 0 → result ≢ 1215 → result ≢ 1203 → plan.new.held ≡ plan.old.held }
    ensures flag { result ≡ 0 → failed.new ≤ 1 }
    ensures unchanged { result ≢ 0 → failed.new ≡ failed.old }
{
    with_held!(plan, alloc, Plan, |it| {
        let status = holder_status(it, holder);
        if status == 0 {
            let how = crate::plan::outcome(outcome, later_ms);
            match it.ended(holder, first, count, how, moment(now_ms)) {
                Ok(has_failed) => {
                    *failed = u32::from(has_failed);
                    0
                }
                Err(EndFault::NoRequest) => NO_REQUEST,
                Err(EndFault::Memory) => NO_MEMORY,
            }
        } else {
            status
        }
    })
}

/// Ranks a holder: from now on it is asked only for chunks that no holder of a lower rank may have that may be
/// asked at that time.
#[unsafe(no_mangle)]
pub extern "C" fn bw_plan_rank(alloc: Global, plan: &mut BwHandle, holder: usize, rank: u32) -> u32
    ensures did { result ≡ 0 → PlanDid (λ old new. Did old new (Ranked holder rank)) plan.old.held plan.new.held }
    ensures status { result ≡ status_of (at_holder holder) plan.old.held }
    ensures same { result ≢ 0 → plan.new.held ≡ plan.old.held }
{
    with_held!(plan, alloc, Plan, |it| {
        let status = holder_status(it, holder);
        if status == 0 {
            it.rank(holder, rank);
        }
        status
    })
}

/// Forgets a holder's failures in a row.
#[unsafe(no_mangle)]
pub extern "C" fn bw_plan_forgive(alloc: Global, plan: &mut BwHandle, holder: usize) -> u32
    ensures did { result ≡ 0 → PlanDid (λ old new. Did old new (Forgiven holder)) plan.old.held plan.new.held }
    ensures status { result ≡ status_of (at_holder holder) plan.old.held }
    ensures same { result ≢ 0 → plan.new.held ≡ plan.old.held }
{
    with_held!(plan, alloc, Plan, |it| {
        let status = holder_status(it, holder);
        if status == 0 {
            it.forgive(holder);
        }
        status
    })
}

/// Returns whether a holder is left out, as 1 or 0 in `is`.
#[unsafe(no_mangle)]
pub extern "C" fn bw_plan_is_left_out(
    alloc: Global,
    plan: &mut BwHandle,
    holder: usize,
    is: &mut u32,
) -> u32
    ensures is { result ≡ 0 → HasPlan (λ s. nat_eq is.new 1 ≡ is_left_out s.policy (s.holder holder)) plan.old.held }
    ensures flag { result ≡ 0 → is.new ≤ 1 }
    ensures status { result ≡ status_of (at_holder holder) plan.old.held }
    ensures same { plan.new.held ≡ plan.old.held }
    ensures unchanged { result ≢ 0 → is.new ≡ is.old }
{
    with_held!(plan, alloc, Plan, |it| {
        let status = holder_status(it, holder);
        if status == 0 {
            *is = u32::from(it.is_left_out(holder));
        }
        status
    })
}

/// Limits requests to chunks below `end` from now on.
#[unsafe(no_mangle)]
pub extern "C" fn bw_plan_limit(alloc: Global, plan: &mut BwHandle, end: u64) -> u32
    ensures did { result ≡ 0 → PlanDid (λ old new. Did old new (Limited end)) plan.old.held plan.new.held }
    ensures status { result ≡ status_of (λ _. 0) plan.old.held }
    ensures same { result ≢ 0 → plan.new.held ≡ plan.old.held }
{
    with_held!(plan, alloc, Plan, |it| {
        it.limit(end);
        0
    })
}

/// Returns whether no chunk is lacking, as 1 or 0 in `is`.
#[unsafe(no_mangle)]
pub extern "C" fn bw_plan_is_done(alloc: Global, plan: &mut BwHandle, is: &mut u32) -> u32
    ensures is { result ≡ 0 → HasPlan (λ s. is.new ≡ 1 ↔ ((c : ℕ) → s.is_open c ≡ false)) plan.old.held }
    ensures flag { result ≡ 0 → is.new ≤ 1 }
    ensures status { result ≡ status_of (λ _. 0) plan.old.held }
    ensures same { plan.new.held ≡ plan.old.held }
    ensures unchanged { result ≢ 0 → is.new ≡ is.old }
{
    with_held!(plan, alloc, Plan, |it| {
        *is = u32::from(it.is_done());
        0
    })
}

/// Returns the chunks of a group that are lacking, in `mask`.
#[unsafe(no_mangle)]
pub extern "C" fn bw_plan_lacking(
    alloc: Global,
    plan: &mut BwHandle,
    group: u64,
    mask: &mut u64,
) -> u32
    ensures mask { result ≡ 0 → HasPlan (λ s. (c : ℕ) → c / 64 ≡ group → has_bit mask.new (c % 64) ≡ s.is_open c) plan.old.held }
    ensures status { result ≡ status_of (at_group group) plan.old.held }
    ensures same { plan.new.held ≡ plan.old.held }
    ensures unchanged { result ≢ 0 → mask.new ≡ mask.old }
{
    with_held!(plan, alloc, Plan, |it| {
        let status = group_status(it, group);
        if status == 0 {
            *mask = it.lacking(group as usize);
        }
        status
    })
}
