ghost use Rattle.std.specs.Prelude.{◌≡◌, ◌≢◌, ◌*◌, ◌≤◌, Err, IfOk, IsErrOf, None, length};
ghost use Rattle.gather.specs.declared.fault.FinishFault.TheVariants.{NotTheRoot, Unfinished};
ghost use Rattle.gather.specs.Finished.{Binds, Finishes, IsUnfinished, IsWhole};
ghost use Rattle.store_core.specs.Histories.{state_after};
ghost use Rattle.store_shared.specs.Seats.{IsSeatOf, fixed_of};
ghost use Rattle.gather.specs.FinishCalls.{Asks};

use crate::fault::FinishFault;
use crate::judging::judge;
use crate::shared::Shared;
use crate::shelf::Shelf;
use b3tree::hash;
use std::alloc::Global;
use store_shared::{Assembly, Seat};

// All bytes of a shared store below its recorded length.
#[tactic(auto, using(crate::proofs::Finishing::no_none, store_shared::proofs::Asking::length_there, crate::proofs::SeatFinishing::asks_both, crate::proofs::SeatFinishing::recorded_then))]
fn read_all(alloc: Global, assembly: &Assembly, seat: &mut Seat) -> Result<Vec<u8>, FinishFault>
    requires of { IsSeatOf assembly.now seat.old }
    ensures of { IsSeatOf assembly.now seat.new }
    ensures asks { Asks seat.old.view seat.new.view }
    ensures whole { IfOk result (λ blob. IsWhole (state_after seat.new.view.seen) blob.items) }
    ensures fits { IfOk result (λ blob. length blob.items ≤ 1024 * (fixed_of assembly.now).capacity) }
    ensures no_length { (state_after seat.new.view.seen).recorded ≡ None → result ≡ Err Unfinished }
    ensures unfinished { IsErrOf result Unfinished → IsUnfinished (state_after seat.new.view.seen) }
    ensures never { result ≢ Err NotTheRoot }
{
    let length = match assembly.length(seat) {
        Some(length) => length,
        None => return Err(FinishFault::Unfinished),
    };
    let mut blob = vec![in alloc; 0u8; length as usize]?;
    assembly.read(seat, 0, blob.as_mut_slice())?;
    Ok(blob)
}

/// Returns the blob of a shared store: all bytes below the recorded length, if their hash in the store's mode
/// is its root. The seat is one of this store's.
///
/// Refuses, in this order, with 901 `Unfinished` if no length is recorded, 903 `Memory`, 901 if a byte below
/// the length isn't held, and 902 `NotTheRoot` if the hash isn't the root. The store is unchanged: the seat
/// asks for the length, and then reads at most once.
///
/// For every blob with the root, the result is that blob, and `NotTheRoot` never occurs; or the contract
/// exhibits a collision: two different inputs with the same chaining value, one from the blob and one from a
/// slice from which the history that the seat has seen committed a chunk, or by which it settled the length.
#[tactic(auto, using(crate::proofs::Finishing::finished, crate::proofs::Finishing::judged_at, crate::proofs::Finishing::verdict_finishes))]
pub fn finish(alloc: Global, assembly: &Assembly, seat: &mut Seat) -> Result<Vec<u8>, FinishFault>
    requires of { IsSeatOf assembly.now seat.old }
    ensures of { IsSeatOf assembly.now seat.new }
    ensures asks { Asks seat.old.view seat.new.view }
    ensures finishes { Finishes (λ blob. blob.items) (fixed_of assembly.now) (state_after seat.new.view.seen) result }
    ensures binds { Binds (λ blob. blob.items) (fixed_of assembly.now) seat.new.view.seen result }
{
    let blob = read_all(alloc, assembly, seat)?;
    let fixed = Shared(assembly).fixed(seat);
    // For the prover alone: the flags of a mode are apart from the tree's.
    fixed.mode.is_keyed();
    judge(&fixed, hash(&fixed.mode, blob.as_slice()))?;
    Ok(blob)
}
