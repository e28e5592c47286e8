ghost use Rattle.std.specs.Prelude.{◌≡◌, ℕ, ◌*◌, ◌++◌, ◌^◌, ◌<◌, ◌≤◌, All, IfErr, IfOk, List, Option, [], length, map, None, slice_index_or, vec_len};
ghost use Rattle.crossbeam_deque.specs.Handles.{IsPassOf, SameWorker, stealer_deque, view, worker_capacity, worker_deque, worker_index, worker_view};
ghost use Rattle.b3tree.specs.declared.mode.Mode.{Mode};
ghost use Rattle.bao_text.specs.declared.choice.Choice.{Choice};
ghost use Rattle.bao_text.specs.Texts.{joined};
ghost use Rattle.b3par.specs.Encodings.{GainsText};
ghost use Rattle.b3par.specs.Given.{Lacks};
ghost use Rattle.b3par.specs.Jobs.{AllThere, IsJob, IsJobAnswer, job_count, jobs_below};

use crate::fault::ReadFault;
use crate::gate::Gate;
use crate::jobs::{Answer, Cutting, Job};
use crate::source::Source;
use crate::subtree_text::make;
use crate::tree::{Tree, tree_over};
use b3tree::Mode;
use bao_text::Choice;
use crossbeam_deque::protocol::{Outcome, Protocol};
use crossbeam_deque::{Pass, Steal, Stealer, Worker};
use std::alloc::{AllocError, Global};
use std::collections::LinkedList;
use std::thread::{Threads, map_indices};

// What a thread knows of the deque: the jobs that it put, or took, in order. In a clause it is a list, and no
// value of it is made.
type Log = LinkedList<Job>;

// The rule of the deque: every task in it is a job.
struct Jobs;

impl Protocol<Job, Log> for Jobs {
    ghost holds = { λ items _. All IsJob items };

    ghost first = { [] };

    ghost guest = { [] };
}

// What is put is a job, and so is what is stolen; it is the next of the thread's own.
impl Outcome<Job, Log> for Jobs {
    ghost then = { λ log jobs more. (more ≡ log ++ jobs) × All IsJob jobs };
}

type Owner = Worker<Job, Global, Log, Jobs>;

type Thief = Stealer<Job, Global, Log, Jobs>;

// Puts all jobs into the deque, in order, each once: it has room for them.
fn put_jobs(owner: &mut Owner, cutting: &Cutting)
    requires empty { (worker_index owner.old ≡ 0) × (worker_view owner.old ≡ []) }
    requires room { job_count (1024 * cutting.now.chunks) cutting.now.len ≤ worker_capacity owner.old }
    ensures { worker_view owner.new ≡ jobs_below cutting.now.chunks cutting.now.len (job_count (1024 * cutting.now.chunks) cutting.now.len) }
{
    'jobs: for number in 0..cutting.count() {
        match owner.push_as::<Jobs>(cutting.job(number)) {
            Ok(()) => {}
            Err(_) => unreachable!(),
        }
    }
}

// A deque with all jobs, in order, each once.
fn owner_of(alloc: Global, cutting: &Cutting) -> Result<Owner, AllocError>
    ensures { IfOk result (λ owner. worker_view owner ≡ jobs_below cutting.now.chunks cutting.now.len (job_count (1024 * cutting.now.chunks) cutting.now.len)) }
{
    let mut owner = Owner::fifo_as(alloc, cutting.count())?;
    put_jobs(&mut owner, cutting);
    Ok(owner)
}

// Steals jobs until there is none left, and answers for each that was taken. It takes none where there is no
// memory for its answer, and ends: the job is left to another.
fn answers_of<S: Source>(
    alloc: Global,
    choice: &Choice,
    mode: &Mode,
    source: &S,
    thief: &Thief,
    pass: &mut Pass<Job, Log>,
) -> Vec<Answer>
    requires { IsPassOf (stealer_deque thief.now) pass.old × (view pass.old ≡ []) }
    ensures right { All (IsJobAnswer (S.contents source.now) (S.faultless source.now) choice.now mode.now) result.items }
    ensures each { map (λ answer. answer.job) result.items ≡ view pass.new }
{
    let mut answers = Vec::new(alloc);
    let mut piece = Vec::new(alloc);
    // With an end, so that a worker needs no `Wait`.
    'steals: for _ in 0..u64::MAX {
        if answers.reserve(1).is_err() {
            break;
        }
        match thief.steal_as::<Jobs>(pass) {
            Steal::Success(job) => {
                let made = make(alloc, choice, mode, source, job.first, job.len, &mut piece);
                match answers.push(Answer { job, made }) {
                    Ok(()) => {}
                    Err(_) => unreachable!(),
                }
            }
            Steal::Empty => break,
            Steal::Retry => {}
        }
    }
    answers
}

// One worker: passes the gate, and then takes jobs.
fn work<S: Source, G: Gate>(
    alloc: Global,
    choice: &Choice,
    mode: &Mode,
    source: &S,
    thief: &Thief,
    gate: &G,
    worker: usize,
) -> Vec<Answer>
    ensures { All (IsJobAnswer (S.contents source.now) (S.faultless source.now) choice.now mode.now) result.items }
{
    gate.pass(worker);
    let mut pass = thief.pass();
    answers_of(alloc, choice, mode, source, thief, &mut pass)
}

// What all workers answer, once they have ended. All jobs were put before the first began.
fn all_answers<R: Threads + Sync, S: Source + Sync, G: Gate + Sync>(
    rt: &R,
    alloc: Global,
    choice: &Choice,
    mode: &Mode,
    source: &S,
    owner: &Owner,
    workers: usize,
    gate: &G,
) -> Result<Vec<Vec<Answer>>, AllocError>
    ensures len { IfOk result (λ all. vec_len all ≡ workers) }
    ensures right { IfOk result (λ all. (i : ℕ) (d : _) → i < vec_len all
        → All (IsJobAnswer (S.contents source.now) (S.faultless source.now) choice.now mode.now) (slice_index_or all.items i d).items) }
{
    let thief = &owner.stealer()?;
    map_indices(
        rt,
        alloc,
        workers,
        &|worker: usize| -> Vec<Answer>
            ensures { All (IsJobAnswer (S.contents source.entry.now) (S.faultless source.entry.now) choice.entry.now mode.entry.now) result.items }
        { work(alloc, choice, mode, source, thief, gate, worker) },
    )
}

// An empty slot for each job.
fn empty_slots(alloc: Global, count: usize) -> Result<Vec<Option<Answer>>, AllocError>
    ensures len { IfOk result (λ slots. length slots.items ≡ count) }
    ensures empty { IfOk result (λ slots. (i : ℕ) → slice_index_or slots.items i None ≡ None) }
{
    let mut slots = Vec::with_capacity(alloc, count)?;
    'slots: for _ in 0..count {
        slots.push(None)?;
    }
    Ok(slots)
}

// Notes an answer in the slot of its job. One for no job, and one that comes a second time are refused. `S`, here and
// below, is the kind of source that the contract speaks of.
fn note<S: Source>(slots: &mut [Option<Answer>], answer: Answer)
    ensures len { length slots.new ≡ length slots.old }
    ensures right { (source : S) (choice : Choice) (mode : Mode) → IsJobAnswer (S.contents source) (S.faultless source) choice mode answer
        → AllThere (IsJobAnswer (S.contents source) (S.faultless source) choice mode) slots.old
        → AllThere (IsJobAnswer (S.contents source) (S.faultless source) choice mode) slots.new }
{
    let number = answer.job.number;
    if number < slots.len() && slots[number].is_none() {
        slots[number] = Some(answer);
    }
}

// Notes what one worker answered.
fn collect<S: Source>(slots: &mut [Option<Answer>], answers: Vec<Answer>)
    ensures len { length slots.new ≡ length slots.old }
    ensures right { (source : S) (choice : Choice) (mode : Mode) → All (IsJobAnswer (S.contents source) (S.faultless source) choice mode) answers.items
        → AllThere (IsJobAnswer (S.contents source) (S.faultless source) choice mode) slots.old
        → AllThere (IsJobAnswer (S.contents source) (S.faultless source) choice mode) slots.new }
{
    'answers: for answer in answers {
        note::<S>(slots, answer);
    }
}

// Notes what all workers answered.
fn gather<S: Source>(slots: &mut [Option<Answer>], all: Vec<Vec<Answer>>)
    ensures len { length slots.new ≡ length slots.old }
    ensures right { (source : S) (choice : Choice) (mode : Mode)
        → ((i : ℕ) (d : _) → i < length all.items → All (IsJobAnswer (S.contents source) (S.faultless source) choice mode) (slice_index_or all.items i d).items)
        → AllThere (IsJobAnswer (S.contents source) (S.faultless source) choice mode) slots.old
        → AllThere (IsJobAnswer (S.contents source) (S.faultless source) choice mode) slots.new }
{
    'workers: for answers in all {
        collect::<S>(slots, answers);
    }
}

// How many slots have an answer.
fn answered_count(slots: &[Option<Answer>]) -> usize
    ensures most { result ≤ length slots.now }
{
    slots.iter().filter(|slot| slot.is_some()).count()
}

/// A tree whose jobs a pool did.
#[derive(Drop)]
pub(crate) struct Done {
    pub tree: Tree,
    /// How many jobs there were.
    pub jobs: usize,
    /// How many of them the workers did.
    pub answered: usize,
}

/// Returns the tree over all bytes of the source that `cutting` cuts. The `workers` threads steal its jobs,
/// which are all queued before the first worker starts, and each calls `gate` once before its first job. What
/// none of them did, the caller's thread does at the end.
pub(crate) fn tree_by_pool<R: Threads + Sync, S: Source + Sync, G: Gate + Sync>(
    rt: &R,
    alloc: Global,
    choice: &Choice,
    mode: &Mode,
    source: &S,
    cutting: &Cutting,
    workers: usize,
    gate: &G,
) -> Result<Done, ReadFault>
    ensures text { IfOk result (λ done. GainsText (S.contents source.now) choice.now mode.now 0 cutting.now.len [] (joined done.tree.texts.items) done.tree.top) }
    ensures jobs { IfOk result (λ done. done.jobs ≡ job_count (1024 * cutting.now.chunks) cutting.now.len) }
    ensures answered { IfOk result (λ done. done.answered ≤ done.jobs) }
    ensures fault { IfErr result (λ fault. fault ≡ ReadFault.Reader → Lacks (S.contents source.now) (S.faultless source.now) cutting.now.len) }
{
    let jobs = cutting.count();
    let mut slots = empty_slots(alloc, jobs)?;
    let owner = owner_of(alloc, cutting)?;
    let all = all_answers(rt, alloc, choice, mode, source, &owner, workers, gate)?;
    gather::<S>(slots.as_mut_slice(), all);
    let there = answered_count(slots.as_slice());
    let mut piece = Vec::new(alloc);
    let tree = tree_over(
        alloc,
        choice,
        mode,
        source,
        cutting.chunks(),
        0,
        cutting.len(),
        slots.as_mut_slice(),
        &mut piece,
    )?;
    let left = answered_count(slots.as_slice());
    Ok(Done {
        tree,
        jobs,
        answered: there.saturating_sub(left),
    })
}
