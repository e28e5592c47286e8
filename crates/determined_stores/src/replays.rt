// The replay of a schedule.

ghost use Rattle.std.specs.Prelude.{◌≡◌, ◌↔◌, Err};
ghost use Rattle.determined_texts.specs.Agreeing.{AgreeButFor};
ghost use Rattle.store_core.specs.Stores.{IsSame};
ghost use Rattle.store_core.specs.declared.fault.ReplayFault.TheVariants.{Capacity, Memory};

use b3tree::{Hash, Mode};
use bao_check::Checked;
use std::alloc::Global;
use store_core::{MicroStep, ReplayFault, Reply, Store, replay};

pub fn replay_determined(
    alloc: Global,
    root: Hash,
    mode: Mode,
    capacity: u32,
    pieces: &[Checked<'_>],
    steps: &[MicroStep],
) -> (
    Result<(Vec<Reply>, Store), ReplayFault>,
    Result<(Vec<Reply>, Store), ReplayFault>,
)
    ensures capacity { (result.0 ≡ Err Capacity) ↔ (result.1 ≡ Err Capacity) }
    ensures answers { AgreeButFor Memory (λ x y. (x.0.items ≡ y.0.items) × IsSame x.1 y.1) result.0 result.1 }
{
    (
        replay(alloc, root, mode, capacity, pieces, steps),
        replay(alloc, root, mode, capacity, pieces, steps),
    )
}
