ghost use Rattle.std.specs.Prelude.{◌≡◌, ◌≢◌, ◌↔◌, ℕ, List, Err, IfErr, IfOk, IsErrOf, IsOk, Some};
ghost use Rattle.b3tree.specs.Hashing.{hash};
ghost use Rattle.store_core.specs.Reached.{IsReached};
ghost use Rattle.store_core.specs.Stores.{fixed_of, state_of};
ghost use Rattle.gather.specs.declared.fault.FinishFault.TheVariants.{NotTheRoot, Unfinished};
ghost use Rattle.gather.specs.Finished.{Binds, Finishes, IsWhole, Judges, LacksByte};

use crate::fault::FinishFault;
use b3tree::{Hash, hash};
use holders::Fixed;
use std::alloc::Global;
use store_core::{Store, read_means};

// How many bytes are read at a time. They are few enough to stay in the processor's cache until they are appended.
const PART_LEN: usize = 1 << 16;

// The bytes of a store below its recorded length, all of them. Fresh memory is written once.
fn read_all(alloc: Global, store: &Store, end: u64) -> Result<Vec<u8>, FinishFault>
    requires { (state_of store.now).recorded ≡ Some end }
    ensures whole { IfOk result (λ blob. IsWhole (state_of store.now) blob.items) }
    ensures lacks { IsErrOf result Unfinished → LacksByte (state_of store.now) }
    ensures never { result ≢ Err NotTheRoot }
{
    // For the prover alone: what is read of a store are its bytes.
    read_means();
    let end = end as usize;
    let mut blob = Vec::with_capacity(alloc, end)?;
    let mut part = [0u8; PART_LEN];
    while blob.len() < end {
        let count = PART_LEN.min(end - blob.len());
        store.read(blob.len() as u64, &mut part[..count])?;
        blob.extend_from_slice(&part[..count])?;
    }
    Ok(blob)
}

/// Compares a hash with the root of a store: refuses with 902 `NotTheRoot` unless it is the root.
///
/// If it is the hash of all bytes that a store holds below its recorded length and is refused, then for every
/// blob with the root the contract exhibits a collision: two different inputs with the same chaining value, one
/// from the blob and one from a slice from which the store's history committed a chunk, or by which it settled
/// the length.
#[tactic(auto, using(holders::proofs::Same::alike, holders::proofs::Same::differs, crate::proofs::Finishing::judged_other, crate::proofs::Finishing::judged_root))]
pub fn judge(fixed: &Fixed, hashed: Hash) -> Result<(), FinishFault>
    ensures root { IsOk result ↔ (hashed.0 ≡ fixed.now.root.0) }
    ensures fault { IfErr result (λ fault. fault ≡ NotTheRoot) }
    ensures judges { (bytes : List ℕ) → hashed.0 ≡ hash fixed.now.mode bytes → Judges fixed.now bytes result }
{
    // For the prover alone: the flags of a mode are apart from the tree's.
    fixed.mode.is_keyed();
    if hashed != fixed.root {
        return Err(FinishFault::NotTheRoot);
    }
    Ok(())
}

/// Returns the blob of a store: all bytes below the recorded length, if their hash in the store's mode is its
/// root. The store is unchanged.
///
/// Refuses, in this order, with 901 `Unfinished` if no length is recorded, 903 `Memory`, 901 if a byte below
/// the length isn't held, and 902 `NotTheRoot` if the hash isn't the root.
///
/// For every blob with the root, and whatever legal history led to the store, the result is that blob, and
/// `NotTheRoot` never occurs; or the contract exhibits a collision: two different inputs with the same chaining
/// value, one from the blob and one from a slice from which that history committed a chunk, or by which it
/// settled the length.
#[tactic(auto, using(crate::proofs::Finishing::judged_at, crate::proofs::Finishing::verdict_binds, crate::proofs::Finishing::verdict_finishes))]
pub fn finish_one(alloc: Global, store: &Store) -> Result<Vec<u8>, FinishFault>
    ensures finishes { Finishes (λ blob. blob.items) (fixed_of store.now) (state_of store.now) result }
    ensures binds { (by : IsReached (fixed_of store.now) (state_of store.now)) → Binds (λ blob. blob.items) (fixed_of store.now) by.history result }
{
    let length = match store.length() {
        Some(length) => length,
        None => return Err(FinishFault::Unfinished),
    };
    let blob = read_all(alloc, store, length)?;
    let fixed = store.fixed();
    // For the prover alone: the flags of a mode are apart from the tree's.
    fixed.mode.is_keyed();
    judge(&fixed, hash(&fixed.mode, blob.as_slice()))?;
    Ok(blob)
}
