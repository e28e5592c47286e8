// The parents of eight whole chunks, by lanes.

ghost use Rattle.std.specs.Prelude.{◌≡◌, ℕ, ◌+◌, ◌-◌, ◌*◌, ◌^◌, ◌<◌, ◌≤◌, Some, length, slice_get};
ghost use Rattle.b3word.specs.Compression.{cv};
ghost use Rattle.b3word.specs.Lanes.{lane8};
ghost use Rattle.b3tree.specs.declared.values.Cv.{Cv};
ghost use Rattle.b3tree.specs.Chunk.{last_chunk_input};
ghost use Rattle.b3tree.specs.Parents.{eight_parents, lane_parents};
ghost use Rattle.b3tree.specs.Pieces.{piece};

use crate::lanes::{chunk_lanes, neighbour_lanes, subtree_lanes};
use crate::mode::Mode;
use crate::values::Cv;
use b3word::transposed;
use std::simd::u32x8;

/// A parent node: the chaining values of its two children.
#[derive(Clone, Copy, Debug, PartialEq, Eq)]
pub struct Parts {
    pub left: Cv,
    pub right: Cv,
}

/// The parents over four whole chunks: the top, then those of each pair of chunks.
#[derive(Clone, Copy, Debug, PartialEq, Eq)]
pub struct FourParents {
    pub top: Parts,
    pub left: Parts,
    pub right: Parts,
}

/// The parents over eight whole chunks: the top, then those of each half.
#[derive(Clone, Copy, Debug, PartialEq, Eq)]
pub struct EightParents {
    pub top: Parts,
    pub left: FourParents,
    pub right: FourParents,
}

// The parent of two values.
fn parent_of(left: u32x8, right: u32x8) -> Parts
    ensures { result ≡ record { left = record { 0 = left }; right = record { 0 = right } } }
{
    Parts {
        left: Cv(left.to_array()),
        right: Cv(right.to_array()),
    }
}

/// Returns the chaining values of the eight chunks of `bytes`, computed at once.
///
/// `bytes` has 8,192 bytes. Its first chunk has index `first`, and its end is at most at byte 2^64 - 1 of the
/// input.
pub fn eight_values(mode: &Mode, first: u64, bytes: &[u8]) -> [Cv; 8]
    requires len { length bytes.now ≡ 8192 }
    requires end { 1024 * first + 8192 ≤ 2 ^ 64 - 1 }
    ensures count { length result ≡ 8 }
    ensures each { (j : ℕ) (value : Cv) → slice_get result j ≡ Some value
        → value.0 ≡ cv (last_chunk_input mode.now (first + j) (piece bytes.now (1024 * j) 1024)) }
{
    let rows = transposed(&chunk_lanes(mode, first, bytes, 0, 1));
    rows.map(
        |row|
            ensures { result.0 ≡ row }
        { Cv(row.to_array()) },
    )
}

/// Returns the seven parents over the eight chunks of `bytes`, computed at once.
///
/// The values are those of `subtree_cv`. `bytes` has 8,192 bytes. Its first chunk has index `first`, and its
/// end is at most at byte 2^64 - 1 of the input.
pub fn eight_parents(mode: &Mode, first: u64, bytes: &[u8]) -> EightParents
    requires len { length bytes.now ≡ 8192 }
    requires end { 1024 * first + 8192 ≤ 2 ^ 64 - 1 }
    ensures { result ≡ eight_parents mode.now first bytes.now }
{
    let values = subtree_lanes(mode, first, bytes, 0, 1, 1);
    lane_parents(mode, &values)
}

/// Returns the seven parents over the chaining values in eight lanes: each joins two neighbours.
pub fn lane_parents(mode: &Mode, values: &[u32x8; 8]) -> EightParents
    ensures { result ≡ lane_parents mode.now (λ j. lane8 j values.now) }
{
    let pairs = neighbour_lanes(mode, values);
    let fours = neighbour_lanes(mode, &pairs);
    let [c0, c1, c2, c3, c4, c5, c6, c7] = transposed(values);
    let [p0, p1, p2, p3, ..] = transposed(&pairs);
    let [q0, q1, ..] = transposed(&fours);
    EightParents {
        top: parent_of(q0, q1),
        left: FourParents {
            top: parent_of(p0, p1),
            left: parent_of(c0, c1),
            right: parent_of(c2, c3),
        },
        right: FourParents {
            top: parent_of(p2, p3),
            left: parent_of(c4, c5),
            right: parent_of(c6, c7),
        },
    }
}
