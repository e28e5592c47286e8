// The encoding of a whole subtree of 8 to 512 chunks, verified at once by lanes: each lane has its own eighth.

ghost use Rattle.std.specs.Prelude.{◌≡◌, ℕ, ◌+◌, ◌-◌, ◌*◌, ◌^◌, ◌<◌, ◌≤◌, length, true, false, IsTrue};
ghost use Rattle.std.specs.Int.{IsPowerOfTwo};
ghost use Rattle.b3word.specs.Lanes.{lane8};
ghost use Rattle.b3tree.specs.Parents.{lane_parents};
ghost use Rattle.bao_check.specs.Walk.{Meets};
ghost use Rattle.bao_check.specs.Whole.{HasEight, HasFour, HasParentAt, IsWholeAsked, lane_top};

use crate::asked::{Asked, meets};
use crate::text_lanes::{outline_lanes, text_lanes};
use crate::walk::halves;
use b3tree::{CHUNK_LEN, EightParents, FourParents, Mode, Parts, lane_parents, parent_input};
use bao_text::PARENT_LEN;
use std::simd::u32x8;

// Whether the encoding has the parent at place `at`.
fn has_parts(text: &[u8], at: usize, parent: &Parts) -> bool
    requires { at + 64 ≤ length text.now }
    ensures { IsTrue result → HasParentAt text.now at parent.now }
{
    let (left, right) = halves(&text[at..at + PARENT_LEN]);
    left.value == parent.left && right.value == parent.right
}

// Whether the encoding from place `at` on has these upper parents, of four parts of `step` bytes.
fn has_four(text: &[u8], at: usize, step: usize, parents: &FourParents) -> bool
    requires { at + 192 + step * 2 ≤ length text.now }
    ensures { IsTrue result → HasFour text.now at step parents.now }
{
    has_parts(text, at, &parents.top)
        && has_parts(text, at + PARENT_LEN, &parents.left)
        && has_parts(text, at + 2 * PARENT_LEN + step * 2, &parents.right)
}

// The same of a whole encoding, of eight parts.
fn has_eight(text: &[u8], step: usize, parents: &EightParents) -> bool
    requires { 448 + step * 6 ≤ length text.now }
    ensures { IsTrue result → HasEight text.now step parents.now }
{
    if !has_parts(text, 0, &parents.top) || !has_four(text, PARENT_LEN, step, &parents.left) {
        return false;
    }
    has_four(text, 4 * PARENT_LEN + step * 4, step, &parents.right)
}

// Whether the upper parents of a whole encoding are those of the values in the lanes, and the top one has the
// value asked for.
fn has_top(mode: &Mode, asked: &Asked, text: &[u8], step: usize, values: &[u32x8; 8]) -> bool
    requires { 448 + step * 6 ≤ length text.now }
    ensures eight { IsTrue result → HasEight text.now step (lane_parents mode.now (λ j. lane8 j values.now)) }
    ensures meets { IsTrue result → Meets asked.now (lane_top mode.now (λ j. lane8 j values.now)) }
{
    let parents = lane_parents(mode, values);
    if !has_eight(text, step, &parents) {
        return false;
    }
    let top = parent_input(mode, &parents.top.left, &parents.top.right);
    meets(asked, &top)
}

// Whether the bytes are the encoding of a whole subtree of `8 * chunks` chunks from chunk `number` on, with the
// value asked for.
pub(crate) fn is_whole_text(
    mode: &Mode,
    asked: &Asked,
    number: u64,
    text: &[u8],
    chunks: usize,
) -> bool
    requires some { 0 < chunks }
    requires len { length text.now ≡ 8704 * chunks - 64 }
    requires range { 1024 * number + 8192 * chunks ≤ 2 ^ 64 - 1 }
    ensures { IsTrue result → IsPowerOfTwo chunks → IsWholeAsked true asked.now mode.now number (8 * chunks) text.now }
{
    let step = (CHUNK_LEN + PARENT_LEN) * chunks - PARENT_LEN;
    let mut same = true;
    let values = text_lanes(
        mode,
        number,
        chunks as u64,
        text,
        3 * PARENT_LEN,
        step,
        chunks,
        &mut same,
    );
    same && has_top(mode, asked, text, step, &values)
}

// The same of an encoding without chunks, whose lanes have `pairs` pairs of chunks each.
pub(crate) fn is_whole_outline(mode: &Mode, asked: &Asked, text: &[u8], pairs: usize) -> bool
    requires some { 0 < pairs }
    requires len { length text.now ≡ 1024 * pairs - 64 }
    ensures { IsTrue result → (number : ℕ) → IsPowerOfTwo pairs → IsWholeAsked false asked.now mode.now number (16 * pairs) text.now }
{
    let step = 2 * PARENT_LEN * pairs - PARENT_LEN;
    let mut same = true;
    let values = outline_lanes(mode, text, 3 * PARENT_LEN, step, pairs, &mut same);
    same && has_top(mode, asked, text, step, &values)
}
