// A schedule on its way, step by step.

ghost use Rattle.std.specs.Prelude.{◌≡◌, ◌↔◌, IfOk, IsOk, List};
ghost use Rattle.bao_check.specs.declared.checked.Checked.{Checked as Piece};
ghost use Rattle.determined_texts.specs.Agreeing.{AgreeOrLack};
ghost use Rattle.determined_stores.specs.Runs.{TookTheSame};
ghost use Rattle.store_core.specs.Stores.{IsSame};
ghost use Rattle.store_core.specs.declared.fault.StepFault.TheVariants.{Memory};

use b3tree::{Hash, Mode};
use bao_check::Checked;
use std::alloc::Global;
use store_core::{BadCapacity, MicroStep, Reply, ScheduleRun, StepFault, Store};

pub fn run_new_determined<'a>(
    alloc: Global,
    root: Hash,
    mode: Mode,
    capacity: u32,
) -> (
    Result<ScheduleRun<'a>, BadCapacity>,
    Result<ScheduleRun<'a>, BadCapacity>,
)
    ensures fits { IsOk result.0 ↔ IsOk result.1 }
    ensures fresh { (pieces : List Piece) → IfOk result.0 (λ a. IfOk result.1 (λ b. TookTheSame pieces a b)) }
{
    let one = ScheduleRun::new(alloc, root, mode, capacity);
    let other = ScheduleRun::new(alloc, root, mode, capacity);
    (one, other)
}

pub fn step_determined<'a>(
    a: &mut ScheduleRun<'a>,
    b: &mut ScheduleRun<'a>,
    pieces: &[Checked<'a>],
    step: &MicroStep,
) -> (
    Result<Option<Reply>, StepFault>,
    Result<Option<Reply>, StepFault>,
)
    requires { TookTheSame pieces.now a.old b.old }
    ensures { AgreeOrLack Memory (λ x y. (x ≡ y) × TookTheSame pieces.now a.new b.new) result.0 result.1 }
{
    let one = a.step(pieces, step);
    let other = b.step(pieces, step);
    (one, other)
}

pub fn into_store_determined<'a>(a: ScheduleRun<'a>, b: ScheduleRun<'a>) -> (Store, Store)
    ensures { (pieces : List Piece) → TookTheSame pieces a.entry b.entry → IsSame result.0 result.1 }
{
    let one = a.into_store();
    let other = b.into_store();
    (one, other)
}
