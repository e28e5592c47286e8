ghost use Rattle.std.specs.Prelude.{◌≡◌, ◌<◌, ◌≤◌, ℕ, List, length, All};
ghost use Rattle.holders.specs.Available.{IsServed};
ghost use Rattle.holders.specs.Forms.{made_of};
ghost use Rattle.holders.specs.Parts.{IsFor};
ghost use Rattle.store_shared.specs.Seats.{IsSeatOf, fixed_of};
ghost use Rattle.gather.specs.Crews.{Each, Worked, WorkedOn, all_of};
ghost use Rattle.gather.specs.Filling.{Closes, Fills, IsBusyBeside};
ghost use Rattle.gather.specs.SeatLasting.{IsBusyOn};
ghost use Rattle.gather.specs.Turns.{Turns};

use crate::completing::closing_round;
use crate::crew::Crew;
use crate::meeting::all_meet;
use crate::report::Report;
use crate::shared::Shared;
use crate::worker::{Place, work_as};
use b3par::Gate;
use holders::{Form, Holder};
use std::alloc::Global;
use std::thread::{Threads, for_each_mut};
use store_shared::Assembly;

// All crews' first rounds, at once: each crew passes the gate, and begins its report anew.
pub(crate) fn first_round<R: Threads + Sync, H: Holder + Send, G: Gate + Sync>(
    rt: &R,
    alloc: Global,
    assembly: &Assembly,
    form: &Form<'_>,
    crews: &mut [Crew<H>],
    gate: &G,
)
    requires count { (0 < length crews.old) × (length crews.old ≤ 64) }
    requires of { All (λ crew. IsSeatOf assembly.now crew.seat) crews.old }
    ensures { Each (Worked assembly.now (made_of form.now H.gives) H.count) crews.old crews.new }
{
    let workers = crews.len();
    for_each_mut(
        rt,
        crews,
        workers,
        &|number: usize, crew: &mut Crew<H>|
            requires { (number < workers) × (workers ≤ 64) × IsSeatOf assembly.now crew.now.seat }
            ensures { Worked assembly.entry.now (made_of form.entry.now H.gives) H.count crew.entry.now crew.exit.now }
        {
            gate.pass(number);
            crew.report = Report::new();
            let place = Place {
                number: number as u32,
                workers: workers as u32,
            };
            work_as(
                alloc,
                form,
                &Shared(assembly),
                &mut crew.seat,
                crew.holders.as_mut_slice(),
                place,
                &mut crew.report,
            );
        },
    );
}

// One crew's closing round, with which its report goes on. It is the crew with this number, from 0.
fn go_round<H: Holder>(
    alloc: Global,
    assembly: &Assembly,
    form: &Form<'_>,
    number: usize,
    crews: usize,
    crew: &mut Crew<H>,
)
    requires of { IsSeatOf assembly.now crew.old.seat }
    requires number { (number < crews) × (crews ≤ 64) }
    ensures worked { WorkedOn assembly.now (made_of form.now H.gives) H.count crew.old crew.new }
    ensures fills { (blob : List ℕ) → IsFor form.now (fixed_of assembly.now) blob → IsServed (fixed_of assembly.now) blob → Fills form.now H.gives (fixed_of assembly.now) blob IsBusyOn crew.old crew.new }
{
    let place = Place {
        number: number as u32,
        workers: crews as u32,
    };
    closing_round(
        alloc,
        form,
        &Shared(assembly),
        &mut crew.seat,
        crew.holders.as_mut_slice(),
        place,
        &mut crew.report,
    );
}

// One crew's closing round, and what it comes to.
fn close<H: Holder>(
    alloc: Global,
    assembly: &Assembly,
    form: &Form<'_>,
    number: usize,
    crews: usize,
    crew: &mut Crew<H>,
)
    requires of { IsSeatOf assembly.now crew.old.seat }
    requires number { (number < crews) × (crews ≤ 64) }
    ensures { Closes assembly.now form.now H.gives H.count IsBusyOn crew.old crew.new }
{
    go_round(alloc, assembly, form, number, crews, crew);
}

// One crew's closing round, while the others make no call. All meet before it and after it, so that each claim that the crew finds is known
// to be another crew's from before, or of somebody outside.
fn close_in_turn<H: Holder>(
    alloc: Global,
    assembly: &Assembly,
    form: &Form<'_>,
    number: usize,
    crews: &mut [Crew<H>],
)
    requires count { (number < length crews.old) × (length crews.old ≤ 64) }
    requires of { All (λ crew. IsSeatOf assembly.now crew.seat) crews.old }
    ensures { Turns assembly.now form.now H.gives H.count number crews.old crews.new }
{
    all_meet(assembly, crews);
    let workers = crews.len();
    close(alloc, assembly, form, number, workers, &mut crews[number]);
    all_meet(assembly, crews);
}

// The closing round, each crew in turn.
pub(crate) fn last_round<H: Holder>(
    alloc: Global,
    assembly: &Assembly,
    form: &Form<'_>,
    crews: &mut [Crew<H>],
)
    requires count { length crews.old ≤ 64 }
    requires of { All (λ crew. IsSeatOf assembly.now crew.seat) crews.old }
    ensures { Each (Closes assembly.now form.now H.gives H.count (IsBusyBeside crews.old)) crews.old crews.new }
{
    for number in 0..crews.len() {
        close_in_turn(alloc, assembly, form, number, crews);
    }
}

// The sums of the crews' reports.
pub(crate) fn all_reports<H>(crews: &[Crew<H>]) -> Report
    ensures { result ≡ all_of crews.now }
{
    let mut all = Report::new();
    for crew in crews {
        let report = &crew.report;
        all.committed = all.committed.saturating_add(report.committed);
        all.parents = all.parents.saturating_add(report.parents);
        all.asked = all.asked.saturating_add(report.asked);
        all.refused = all.refused.saturating_add(report.refused);
        all.failed = all.failed.saturating_add(report.failed);
        all.memory = all.memory.saturating_add(report.memory);
        all.too_large |= report.too_large;
    }
    all
}
