// The blob of a one-thread store, and the verdict on bytes by their hash.

ghost use Rattle.std.specs.Prelude.{◌≡◌, Err};
ghost use Rattle.determined_texts.specs.Agreeing.{AgreeButFor};
ghost use Rattle.gather.specs.declared.fault.FinishFault.TheVariants.{Memory, Unfinished};
ghost use Rattle.store_core.specs.Stores.{IsSame, state_of};

use b3tree::Hash;
use gather::{FinishFault, finish_one, judge};
use std::alloc::Global;
use store_core::{Fixed, Store};

pub fn judge_determined(
    fixed: &Fixed,
    hashed: Hash,
) -> (Result<(), FinishFault>, Result<(), FinishFault>)
    ensures { result.0 ≡ result.1 }
{
    (judge(fixed, hashed), judge(fixed, hashed))
}

// One may be out of memory, but where no length is recorded.
pub fn finish_one_determined(
    alloc: Global,
    a: &Store,
    b: &Store,
) -> (Result<Vec<u8>, FinishFault>, Result<Vec<u8>, FinishFault>)
    requires { IsSame a.now b.now }
    ensures answers { AgreeButFor Memory (λ x y. x.items ≡ y.items) result.0 result.1 }
    ensures no_length { (state_of a.now).recorded ≡ None → (result.0 ≡ Err Unfinished) × (result.1 ≡ Err Unfinished) }
{
    let one = finish_one(alloc, a);
    let other = finish_one(alloc, b);
    (one, other)
}
