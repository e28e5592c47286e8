// What one worker filled is served.

ghost use Rattle.std.specs.Prelude.{◌≡◌, ◌⊎◌, ◌≤◌, ℕ, IfErr, List, false, length};
ghost use Rattle.bao_text.specs.Choice.{chunk_count};
ghost use Rattle.holders.specs.declared.grain.Grain.TheVariants.{Group as ByGroup};
ghost use Rattle.holders.specs.Available.{HaveSlices};
ghost use Rattle.gather.specs.Counts.{HasFailed, IsToldTooLarge};
ghost use Rattle.holders.specs.Holders.{IsHanded};
ghost use Rattle.holders.specs.Blobs.{IsBlob};
ghost use Rattle.store_core.specs.Reached.{IsReached};
ghost use Rattle.store_core.specs.States.{is_claimed};
ghost use Rattle.store_core.specs.Stores.{CollisionSettled, fixed_of, state_of};

use gather::{Holder, Report, run_one};
use std::alloc::Global;
use store_core::{ServeFault, Store};

// Where some of the holders give the blob's slices, a store that nobody else claims anything of serves each slice of the blob
// afterwards, whatever the others give: memory alone refuses it, or it was refused before, or a collision is exhibited.
pub fn filled_is_served<H: Holder>(
    alloc: Global,
    store: &mut Store,
    holders: &mut [H],
    start: u64,
    len: u64,
) -> (Report, Result<Vec<u8>, ServeFault>)
    requires whole { (fixed_of store.old).base ≡ 0 }
    requires free { (c : ℕ) → is_claimed (state_of store.old) c ≡ false }
    ensures { (blob : List ℕ) → IsBlob (fixed_of store.old) blob → chunk_count (length blob) ≤ (fixed_of store.old).capacity
        → HaveSlices ByGroup H.gives (fixed_of store.old).mode blob holders.old
        → HasFailed result.0 ⊎ IsToldTooLarge result.0 (IsHanded H.gives holders.old) (fixed_of store.old) ⊎ IfErr result.1 (λ fault. fault ≡ ServeFault.Memory)
        ⊎ ((by : IsReached (fixed_of store.new) (state_of store.new)) → (l : ℕ) × CollisionSettled (fixed_of store.new) by.history blob l) }
{
    let report = run_one(alloc, store, holders);
    // For the prover alone: what the recorded length binds to.
    let _length = store.length();
    (report, store.serve_slice(start, len))
}
