// The parents of an outboard encoding, verified as far as they are there.

ghost use Rattle.std.specs.Prelude.{◌≡◌, ℕ, ◌+◌, ◌<◌, ◌≤◌, List, ◌++◌, length, take, IfErr, IfOk, OnOk};
ghost use Rattle.b3tree.specs.declared.mode.Mode.{Mode};
ghost use Rattle.bao_text.specs.declared.choice.Choice.{Choice};
ghost use Rattle.bao_text.specs.Choice.{chunk_count};
ghost use Rattle.bao_text.specs.Nodes.{Side, placed_nodes, subtree_nodes};
ghost use Rattle.bao_check.specs.Leaves.{WantsParents};
ghost use Rattle.bao_check.specs.Verified.{AreGoodFirst, AsksAt, IsPieceFault, IsVerified, nth_parent_at, parent_count};

use crate::asked::Asked;
use crate::fault::CheckFault;
use crate::walk::{check_parent, halves};
use b3tree::{CHUNK_LEN, Hash, Mode, left_len};
use bao_text::{LENGTH_LEN, PARENT_LEN, chunk_count, claimed};

// What is asked of parent `k`, in the subtree over `n` bytes whose top is parent `first`, of which this is asked.
fn asked_of(text: &[u8], asked: &Asked, first: usize, n: u64, k: usize) -> Asked
    requires more { 1024 < n }
    requires first { first ≤ k }
    requires last { k + 1 < first + chunk_count n }
    requires there { nth_parent_at k ≤ length text.now }
    ensures { (mode : Mode) (choice : Choice) (number : ℕ) (sides : List Side) (source : ℕ) (more : List ℕ) → WantsParents choice number n
        → AsksAt asked.now sides mode (take (nth_parent_at k) text.now ++ more) (placed_nodes (nth_parent_at first) (subtree_nodes choice number n sides source))
        (nth_parent_at k) result }
{
    if k == first {
        return *asked;
    }
    let at = LENGTH_LEN + PARENT_LEN * first;
    let (left, right) = halves(&text[at..at + PARENT_LEN]);
    let left_len = left_len(n);
    // After this parent come those of the left part, one fewer than it has chunks.
    let right_first = first + (left_len / CHUNK_LEN as u64) as usize;
    if k < right_first {
        asked_of(text, &left, first + 1, left_len, k)
    } else {
        asked_of(text, &right, right_first, n - left_len, k)
    }
}

// Verifies parent `k`, which is there. Those before it are good.
fn verify_parent(mode: &Mode, root: &Hash, text: &[u8], k: usize) -> Result<(), CheckFault>
    requires there { nth_parent_at (k + 1) ≤ length text.now }
    requires last { k < parent_count text.now }
    requires good { AreGoodFirst mode.now root.now.0 text.now k }
    ensures ok { OnOk result (AreGoodFirst mode.now root.now.0 text.now (k + 1)) }
    ensures err { IfErr result (IsPieceFault mode.now root.now.0 text.now) }
{
    let asked = asked_of(text, &Asked::of_root(root), 0, claimed(text), k);
    check_parent(text, LENGTH_LEN + PARENT_LEN * k, mode, &asked)?;
    Ok(())
}

// Verifies the parents from the one after the first `from` on, as many as are wholly there, and answers how many are verified then.
//
// Refused: 502 `Mismatch` and 503 `Trailing`, the encoding's first fault.
pub(crate) fn verify(
    mode: &Mode,
    root: &Hash,
    text: &[u8],
    from: usize,
) -> Result<usize, CheckFault>
    requires there { 0 < from → nth_parent_at from ≤ length text.now }
    requires few { 8 ≤ length text.now → from ≤ parent_count text.now }
    requires good { AreGoodFirst mode.now root.now.0 text.now from }
    ensures ok { IfOk result (IsVerified mode.now root.now.0 text.now) }
    ensures err { IfErr result (IsPieceFault mode.now root.now.0 text.now) }
{
    if text.len() < LENGTH_LEN {
        return Ok(from);
    }
    let count = chunk_count(claimed(text)) - 1;
    let there = (text.len() - LENGTH_LEN) / PARENT_LEN;
    let to = count.min(there as u64) as usize;
    'parents: for k in from..to {
        verify_parent(mode, root, text, k)?;
    }
    let at = LENGTH_LEN + PARENT_LEN * to;
    if to as u64 == count && text.len() > at {
        return Err(CheckFault::Trailing { at: at as u64 });
    }
    Ok(to)
}
