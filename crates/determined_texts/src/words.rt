// `b3word`.

ghost use Rattle.std.specs.Prelude.{◌≡◌, ℕ, ◌/◌, ◌%◌, ◌^◌, ◌<◌, slice_index};
ghost use Rattle.b3word.specs.Lanes.{lane8, lane16};

use b3word::{Input, cv_lanes, cv_pair, joined, transposed};
use std::simd::u32x8;

pub fn cv_pair_determined(a: &Input, b: &Input) -> (([u32; 8], [u32; 8]), ([u32; 8], [u32; 8]))
    ensures first { result.0.0 ≡ result.1.0 }
    ensures second { result.0.1 ≡ result.1.1 }
{
    (cv_pair::<0>(a, b), cv_pair::<1>(a, b))
}

pub fn cv_lanes_determined(
    h: &[u32x8; 8],
    m: &[u32x8; 16],
    t_low: u32x8,
    t_high: u32x8,
    b: u32x8,
    d: u32x8,
    ours: &mut [u32x8; 8],
    theirs: &mut [u32x8; 8],
)
    ensures { (j t : ℕ) → j < 8 → slice_index t_low j ≡ t % 2 ^ 32 → slice_index t_high j ≡ t / 2 ^ 32
        → lane8 j ours.new ≡ lane8 j theirs.new }
{
    *ours = cv_lanes::<0>(h, m, t_low, t_high, b, d);
    *theirs = cv_lanes::<1>(h, m, t_low, t_high, b, d);
}

pub fn transposed_determined(rows: &[u32x8; 8], ours: &mut [u32x8; 8], theirs: &mut [u32x8; 8])
    ensures { (j : ℕ) → j < 8 → lane8 j ours.new ≡ lane8 j theirs.new }
{
    *ours = transposed(rows);
    *theirs = transposed(rows);
}

pub fn joined_determined(
    front: &[u32x8; 8],
    back: &[u32x8; 8],
    ours: &mut [u32x8; 16],
    theirs: &mut [u32x8; 16],
)
    ensures { (j : ℕ) → j < 8 → lane16 j ours.new ≡ lane16 j theirs.new }
{
    *ours = joined(front, back);
    *theirs = joined(front, back);
}
