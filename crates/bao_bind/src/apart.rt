ghost use Rattle.std.specs.Prelude.{◌≡◌, ◌≢◌, ◌↔◌, ◌+◌, ◌*◌, ◌-◌, ◌^◌, ◌≤◌, ℕ, List, length, IfOk, IsErr};
ghost use Rattle.b3word.specs.declared.input.Input.{Input};
ghost use Rattle.b3tree.specs.Hashing.{hash};
ghost use Rattle.b3tree.specs.Tree.{subtree_cv};
ghost use Rattle.bao_check.specs.Checked.{piece_mode, piece_root};
ghost use Rattle.bao_bind.specs.Apart.{AreOurs, HasParentsOver, nodes_over};
ghost use Rattle.bao_bind.specs.Search.{FindsOnly, part_inputs};
ghost use Rattle.bao_bind.specs.Verdict.{SaysOfParents};

use crate::chunk_run::ChunkRun;
use crate::pair::{Pair, are_same, marked};
use crate::parents::{Parents, input_of};
use crate::verdict::{AuditFault, ParentVerdict};
use b3tree::{CHUNK_LEN, Cv, Mode, cv, hash, left_len, parent_input, subtree_cv};
use bao_check::Checked;

// The chaining value of the tree over `ours`, and the topmost parent of it that differs from the one known at
// its boundary, as two inputs: none if no parent that is known differs. Below a parent that isn't known none is.
fn parents_apart<P: Parents>(
    mode: &Mode,
    parents: &P,
    top: bool,
    ours: &ChunkRun<'_>,
) -> (Cv, Option<Pair>)
    requires range { 1024 * ours.now.first + length ours.now.bytes.now ≤ 2 ^ 64 - 1 }
    ensures value { result.0.0 ≡ subtree_cv mode.now ours.now.first ours.now.bytes.now }
    ensures apart { (blob : List ℕ) (theirs : List Input) (over : HasParentsOver (P.bytes parents.now) theirs mode.now top blob ours.now.first ours.now.bytes.now)
        → FindsOnly (part_inputs top mode.now ours.now.first ours.now.bytes.now) theirs (AreOurs (P.bytes parents.now) mode.now blob (nodes_over over)) result.1 }
{
    // A law, so that the proof has what it says: nothing runs.
    mode.is_keyed();
    if ours.bytes.len() <= CHUNK_LEN {
        return (subtree_cv(mode, ours.first, ours.bytes), None);
    }
    let left_len = left_len(ours.bytes.len() as u64);
    let Some(parent) = parents.parent_before(ours.first + left_len / CHUNK_LEN as u64) else {
        return (subtree_cv(mode, ours.first, ours.bytes), None);
    };
    let (left, right) = ours.parts();
    let (left_cv, left_pair) = parents_apart(mode, parents, false, &left);
    let (right_cv, right_pair) = parents_apart(mode, parents, false, &right);
    let own = parent_input(mode, &left_cv, &right_cv);
    let value = Cv(cv(&own));
    let x = marked(top, &own);
    let y = marked(top, &input_of(mode, parent));
    if !are_same(&x, &y) {
        return (value, Some(Pair { ours: x, theirs: y }));
    }
    if left_pair.is_some() {
        return (value, left_pair);
    }
    (value, right_pair)
}

/// Compares the parents of an accepted slice with those of `blob`, and returns two colliding compression inputs
/// if one differs. Together with `audit`, which covers the chunks and the length, it decides whether a slice
/// that a store serves is the blob's.
///
/// Refuses with 601 `OtherRoot` exactly if the blob's hash in the slice's mode isn't the slice's root.
/// Otherwise it returns `OtherLength` exactly if the slice claims another length than the blob's, and `Agrees`
/// exactly if it claims the blob's length and each of its parents is the blob's at that boundary. It doesn't
/// allocate, and costs at most two hashes of the blob.
pub fn audit_parents(blob: &[u8], piece: &Checked<'_>) -> Result<ParentVerdict, AuditFault>
    ensures other_root { IsErr result ↔ (hash (piece_mode piece.now) blob.now ≢ piece_root piece.now) }
    ensures says { IfOk result (λ verdict. SaysOfParents blob.now piece.now verdict) }
{
    let mode = piece.mode();
    if hash(&mode, blob) != piece.root() {
        return Err(AuditFault::OtherRoot);
    }
    if piece.claimed() != blob.len() as u64 {
        return Ok(ParentVerdict::OtherLength);
    }
    // Laws, so that the proof has what they say: nothing runs.
    mode.is_keyed();
    piece.is_accepted();
    let ours = ChunkRun {
        first: 0,
        bytes: blob,
    };
    let (_, apart) = parents_apart(&mode, piece, true, &ours);
    match apart {
        None => Ok(ParentVerdict::Agrees),
        Some(pair) => Ok(ParentVerdict::Collision {
            ours: pair.ours,
            theirs: pair.theirs,
        }),
    }
}
