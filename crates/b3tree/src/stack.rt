ghost use Rattle.std.specs.Prelude.{◌≡◌, ℕ, ◌+◌, ◌*◌, ◌^◌, ◌<◌, List, ◌++◌, length};
ghost use Rattle.b3tree.specs.Stack.{whole_subtrees};
ghost use Rattle.b3tree.specs.Tree.{subtree_cv};

use crate::mode::Mode;
use crate::tree::parent_input;
use crate::values::Cv;
use arrayvec::ArrayVec;
use b3word::cv;

/// The most levels of a tree: it has at most 2^54 chunks.
pub(crate) const STACK_LEN: usize = 54;

// The chaining values of the whole subtrees of the chunks so far, the largest first: one for each
// binary digit 1 of their number.
pub(crate) type Stack = ArrayVec<[u32; 8], STACK_LEN>;

// Adds the value of a whole subtree, of a size of which the chunks so far have `before`.
pub(crate) fn push_subtree(stack: &mut Stack, mode: &Mode, before: u64, value: [u32; 8])
    requires { before + 1 < 2 ^ 64 }
    ensures { (k : ℕ) (s piece : List ℕ) → length s ≡ 1024 * (2 ^ k * before) → length piece ≡ 1024 * 2 ^ k → 2 ^ k * (before + 1) < 2 ^ 54
        → stack.old.items ≡ whole_subtrees 54 mode.now 0 s → value ≡ subtree_cv mode.now (2 ^ k * before) piece
        → stack.new.items ≡ whole_subtrees 54 mode.now 0 (s ++ piece) }
{
    let mut value = value;
    let mut count = before + 1;
    // Each round the value's subtree is the end of the chunks so far, and takes its left neighbour of
    // the same size from the stack, where an even count says that there is one.
    'join: while count % 2 == 0 {
        if let Some(left) = stack.pop() {
            value = cv(&parent_input(mode, &Cv(left), &Cv(value)));
        }
        count /= 2;
    }
    let _ = stack.try_push(value);
}
