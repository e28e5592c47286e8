ghost use Rattle.std.specs.Prelude.{◌≡◌, ◌<◌, ◌≤◌, ◌+◌, ℕ, IsTrue, List, length, All};
ghost use Rattle.bao_text.specs.Choice.{chunk_count};
ghost use Rattle.gather.specs.Counts.{IsAnswered};
ghost use Rattle.holders.specs.declared.form.Form.TheVariants.{Bare, Slices};
ghost use Rattle.holders.specs.Forms.{IsMadeBeside, made_of};
ghost use Rattle.holders.specs.Blobs.{AreLonger, IsTooLarge};
ghost use Rattle.holders.specs.Parts.{IsFor, IsOutlineFor};
ghost use Rattle.holders.specs.Blobs.{IsBlob};
ghost use Rattle.store_shared.specs.Seats.{IsSeatOf, fixed_of};
ghost use Rattle.gather.specs.Crews.{Each, IsHandedTo, Worked, all_faults, all_of};
ghost use Rattle.gather.specs.Beside.{IsOfStore};
ghost use Rattle.gather.specs.Filling.{Fills, IsBusyBeside};
ghost use Rattle.gather.specs.Seats.{SeenBinds};

use crate::crew::Crew;
use crate::report::Report;
use crate::rounds::{all_reports, first_round, last_round};
use b3par::Gate;
use bao_check::Outline;
use holders::{Form, Holder};
use std::alloc::Global;
use std::thread::Threads;
use store_shared::Assembly;

// What `run` says, with holders of this form.
fn run_as<R: Threads + Sync, H: Holder + Send, G: Gate + Sync>(
    rt: &R,
    alloc: Global,
    assembly: &Assembly,
    form: &Form<'_>,
    crews: &mut [Crew<H>],
    gate: &G,
) -> Report
    requires count { (0 < length crews.old) × (length crews.old ≤ 64) }
    requires of { All (λ crew. IsSeatOf assembly.now crew.seat) crews.old }
    ensures each { Each (Worked assembly.now (made_of form.now H.gives) H.count) crews.old crews.new }
    ensures all { result ≡ all_of crews.new }
    ensures binds { All (λ crew. SeenBinds crew.seat.view) crews.new }
    ensures failed { result.failed + all_faults H.count crews.old ≤ all_faults H.count crews.new }
    ensures answered { IsAnswered result }
    ensures too_large { IsTrue result.too_large → IsTooLarge (IsHandedTo (made_of form.now H.gives) crews.old) (fixed_of assembly.now) }
    ensures longer { IsTrue result.too_large → AreLonger (IsHandedTo (made_of form.now H.gives) crews.old) (fixed_of assembly.now) }
    ensures available { (blob : List ℕ) → IsBlob (fixed_of assembly.now) blob → (fixed_of assembly.now).base ≡ 0 → chunk_count (length blob) ≤ (fixed_of assembly.now).capacity → IsFor form.now (fixed_of assembly.now) blob
        → Each (Fills form.now H.gives (fixed_of assembly.now) blob (IsBusyBeside crews.old)) crews.old crews.new }
{
    // For the prover alone: the flags of a mode are apart from the tree's.
    assembly.mode().is_keyed();
    first_round(rt, alloc, assembly, form, crews, gate);
    last_round(alloc, assembly, form, crews);
    all_reports(crews)
}

/// Gathers what a shared store lacks of its blob from untrusted holders, with one worker for each element of
/// `crews`, all at once. The store's base is 0. Returns the sums of the workers' reports.
///
/// There are 1 to 64 workers, and each one's seat is of this store. Each first calls `gate` once, with its
/// number from 0. If no length is recorded, it asks its holders in order for the last chunk, checks what each
/// supplies and settles the length that it certifies, until one is recorded. It ends if none comes, or if one
/// is above the store's capacity. Then it goes once round the groups of 64 chunks that the length needs: of C
/// workers and K groups, worker w begins with group w * K / C. It takes a group's chunks, asks its holders in
/// order, each once, for those bytes, checks and commits what each supplies until none of the granted chunks is
/// left, and gives the rest back. From an encoding that it settled or committed from, it also stores the
/// parents, if the encoding claims the recorded length. When all workers have ended, each in turn makes one
/// more such round, without the gate. Everything is checked under the store's root in its mode.
///
/// It refuses nothing. Each worker's report starts anew. Refused memory is counted there, and the next holder
/// is then asked. If a thread can't be started, its work runs on another thread of the call.
///
/// The history that a worker's seat has seen is a legal one, and begins with what it had seen before. In its
/// report, `committed` is the number of chunks in the commits that it added to that history, and `parents` that
/// of the parents that it stored. It claims no more than before. For every blob with the root, each chunk seen
/// held is the blob's of that index, counted from the base; or a collision is exhibited: two different inputs
/// with the same chaining value, one from the blob and one from the slice from which the chunk was committed.
///
/// `failed` is at most the rise of the holders' counts. `too_large` is set only if an accepted slice certifies
/// a length that doesn't fit the store: then no blob with the root fits, or such a collision is exhibited.
///
/// It suffices that a worker's holders have a blob with the root between them that fits the store, as for
/// `gather::run_one`. If no memory was refused to that worker in this call, and no accepted slice certifies a
/// length that is too large, its seat then knows a length recorded. If that length is the blob's, each chunk is
/// held, or one of the workers had claimed it before the call, or the worker found it claimed by a seat that is
/// none of theirs: the history that its seat has seen since names when, and by whom. A seat that is the only one
/// finds none such, and each parent is then held too.
pub fn run<R: Threads + Sync, H: Holder + Send, G: Gate + Sync>(
    rt: &R,
    alloc: Global,
    assembly: &Assembly,
    crews: &mut [Crew<H>],
    gate: &G,
) -> Report
    requires count { (0 < length crews.old) × (length crews.old ≤ 64) }
    requires of { All (λ crew. IsSeatOf assembly.now crew.seat) crews.old }
    ensures each { Each (Worked assembly.now H.gives H.count) crews.old crews.new }
    ensures all { result ≡ all_of crews.new }
    ensures binds { All (λ crew. SeenBinds crew.seat.view) crews.new }
    ensures failed { result.failed + all_faults H.count crews.old ≤ all_faults H.count crews.new }
    ensures answered { IsAnswered result }
    ensures too_large { IsTrue result.too_large → IsTooLarge (IsHandedTo H.gives crews.old) (fixed_of assembly.now) }
    ensures longer { IsTrue result.too_large → AreLonger (IsHandedTo H.gives crews.old) (fixed_of assembly.now) }
    ensures available { (blob : List ℕ) → IsBlob (fixed_of assembly.now) blob → (fixed_of assembly.now).base ≡ 0 → chunk_count (length blob) ≤ (fixed_of assembly.now).capacity
        → Each (Fills Slices H.gives (fixed_of assembly.now) blob (IsBusyBeside crews.old)) crews.old crews.new }
{
    run_as(rt, alloc, assembly, &Form::Slices, crews, gate)
}

/// Gathers what a shared store lacks of its blob from untrusted plain copies, beside an outboard encoding that
/// was accepted under the store's root in its mode, as [`run`] does.
///
/// There are 1 to 64 workers, and each one's seat is of this store. Holders are asked for bytes alone, which
/// are checked beside the outline (`check_bare`). Let L be the length that the outline claims, and n the number
/// of its chunks. The last chunk is asked for as (1,024 * (n - 1), L - 1,024 * (n - 1)), and group g as (65,536
/// * g, min(65,536, L - 65,536 * g)), each an offset and a length. So a copy that is too long is asked for
/// nothing beyond L, and one that is too short supplies what it has. After its call of `gate`, a worker ends as
/// soon as it finds a recorded length other than L, first or after asking, and so does its last round.
///
/// It refuses nothing. Its report, what the seats have seen and what they claim are as for [`run`]. What is
/// handed over are the slices that the outline's parents and the holders' bytes make together. What suffices is also
/// as there, of a blob of at least one byte whose length the outline claims.
pub fn run_bare<R: Threads + Sync, H: Holder + Send, G: Gate + Sync>(
    rt: &R,
    alloc: Global,
    assembly: &Assembly,
    outline: &Outline<'_>,
    crews: &mut [Crew<H>],
    gate: &G,
) -> Report
    requires count { (0 < length crews.old) × (length crews.old ≤ 64) }
    requires outline { IsOfStore (fixed_of assembly.now) outline.now }
    requires of { All (λ crew. IsSeatOf assembly.now crew.seat) crews.old }
    ensures each { Each (Worked assembly.now (IsMadeBeside outline.now H.gives) H.count) crews.old crews.new }
    ensures all { result ≡ all_of crews.new }
    ensures binds { All (λ crew. SeenBinds crew.seat.view) crews.new }
    ensures failed { result.failed + all_faults H.count crews.old ≤ all_faults H.count crews.new }
    ensures answered { IsAnswered result }
    ensures too_large { IsTrue result.too_large → IsTooLarge (IsHandedTo (IsMadeBeside outline.now H.gives) crews.old) (fixed_of assembly.now) }
    ensures longer { IsTrue result.too_large → AreLonger (IsHandedTo (IsMadeBeside outline.now H.gives) crews.old) (fixed_of assembly.now) }
    ensures available { (blob : List ℕ) → IsBlob (fixed_of assembly.now) blob → (fixed_of assembly.now).base ≡ 0 → chunk_count (length blob) ≤ (fixed_of assembly.now).capacity → IsOutlineFor (fixed_of assembly.now) outline.now blob
        → Each (Fills (Bare outline.entry) H.gives (fixed_of assembly.now) blob (IsBusyBeside crews.old)) crews.old crews.new }
{
    run_as(rt, alloc, assembly, &Form::Bare(outline), crews, gate)
}
