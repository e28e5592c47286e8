// The compression function on two inputs side by side: each vector has a row of the first input's state in its first
// half, and the same row of the second's in the other.

ghost use Rattle.std.specs.Prelude.{◌≡◌, ℕ, ◌<◌, List, [], ◌∷◌, slice_index, slice_index_or, take};
ghost use Rattle.b3word.specs.Compression.{round, permuted, initial_state, rounds, output_words, cv};
ghost use Rattle.b3word.specs.Lanes.{half, halves, paired_rows, rows};

use crate::compression::IV;
use crate::input::Input;
use crate::lanes::{quarter_round, xor};
use std::simd::u32x8;

// Each half from its word 1 on, then word 0.
#[inline(always)]
fn turned(v: u32x8) -> u32x8
    ensures { result
        ≡ slice_index v 1 ∷ slice_index v 2 ∷ slice_index v 3 ∷ slice_index v 0
        ∷ slice_index v 5 ∷ slice_index v 6 ∷ slice_index v 7 ∷ slice_index v 4 ∷ [] }
{
    v.swizzle([1, 2, 3, 0, 5, 6, 7, 4])
}

// The same twice.
#[inline(always)]
fn half_turned(v: u32x8) -> u32x8
    ensures { result
        ≡ slice_index v 2 ∷ slice_index v 3 ∷ slice_index v 0 ∷ slice_index v 1
        ∷ slice_index v 6 ∷ slice_index v 7 ∷ slice_index v 4 ∷ slice_index v 5 ∷ [] }
{
    v.swizzle([2, 3, 0, 1, 6, 7, 4, 5])
}

// The same back.
#[inline(always)]
fn turned_back(v: u32x8) -> u32x8
    ensures { result
        ≡ slice_index v 3 ∷ slice_index v 0 ∷ slice_index v 1 ∷ slice_index v 2
        ∷ slice_index v 7 ∷ slice_index v 4 ∷ slice_index v 5 ∷ slice_index v 6 ∷ [] }
{
    v.swizzle([3, 0, 1, 2, 7, 4, 5, 6])
}

// As the round of one state, in each half.
#[inline(always)]
fn round(v: [u32x8; 4], x: u32x8, y: u32x8, z: u32x8, w: u32x8) -> [u32x8; 4]
    ensures { (k : ℕ) → k < 2
        → rows (halves k result) ≡ round (rows (halves k v)) (paired_rows (half k x) (half k y) (half k z) (half k w)) }
{
    let [a, b, c, d] = v;
    let (a, b, c, d) = quarter_round(a, b, c, d, x, y);
    let (a, b, c, d) = quarter_round(a, turned(b), half_turned(c), turned_back(d), z, w);
    [a, turned_back(b), half_turned(c), turned(d)]
}

#[inline(always)]
fn permuted(x: u32x8, y: u32x8, z: u32x8, w: u32x8) -> (u32x8, u32x8, u32x8, u32x8)
    ensures { (k : ℕ) → k < 2
        → paired_rows (half k result.0) (half k result.1) (half k result.2) (half k result.3)
        ≡ permuted (paired_rows (half k x) (half k y) (half k z) (half k w)) }
{
    let xz = x.shuffle(z, [3, 9, 0, 0, 7, 13, 4, 4]);
    let yz = y.shuffle(z, [0, 10, 0, 0, 4, 14, 4, 4]);
    let wy = w.shuffle(y, [1, 10, 0, 0, 5, 14, 4, 4]);
    (
        x.shuffle(y, [1, 9, 11, 2, 5, 13, 15, 6]),
        xz.shuffle(w, [0, 1, 2, 10, 4, 5, 6, 14]),
        yz.shuffle(w, [0, 1, 8, 11, 4, 5, 12, 15]),
        wy.shuffle(z, [0, 1, 11, 8, 4, 5, 15, 12]),
    )
}

#[inline(always)]
fn initial_state(a: &Input, b: &Input) -> [u32x8; 4]
    ensures first { rows (halves 0 result) ≡ initial_state a.now }
    ensures second { rows (halves 1 result) ≡ initial_state b.now }
{
    let g = &a.h;
    let h = &b.h;
    let (s, t) = (a.t, b.t);
    [
        u32x8::from_array([g[0], g[1], g[2], g[3], h[0], h[1], h[2], h[3]]),
        u32x8::from_array([g[4], g[5], g[6], g[7], h[4], h[5], h[6], h[7]]),
        u32x8::from_array([IV[0], IV[1], IV[2], IV[3], IV[0], IV[1], IV[2], IV[3]]),
        u32x8::from_array([
            (s & 0xffff_ffff) as u32,
            (s >> 32) as u32,
            a.b,
            a.d,
            (t & 0xffff_ffff) as u32,
            (t >> 32) as u32,
            b.b,
            b.d,
        ]),
    ]
}

// By whole rows of eight words, which are read at once.
#[inline(always)]
fn paired_rows(m: &[u32; 16], n: &[u32; 16]) -> (u32x8, u32x8, u32x8, u32x8)
    ensures first { paired_rows (half 0 result.0) (half 0 result.1) (half 0 result.2) (half 0 result.3) ≡ m.now }
    ensures second { paired_rows (half 1 result.0) (half 1 result.1) (half 1 result.2) (half 1 result.3) ≡ n.now }
{
    let m_front = u32x8::from_array([m[0], m[1], m[2], m[3], m[4], m[5], m[6], m[7]]);
    let m_back = u32x8::from_array([m[8], m[9], m[10], m[11], m[12], m[13], m[14], m[15]]);
    let n_front = u32x8::from_array([n[0], n[1], n[2], n[3], n[4], n[5], n[6], n[7]]);
    let n_back = u32x8::from_array([n[8], n[9], n[10], n[11], n[12], n[13], n[14], n[15]]);
    (
        m_front.shuffle(n_front, [0, 2, 4, 6, 8, 10, 12, 14]),
        m_front.shuffle(n_front, [1, 3, 5, 7, 9, 11, 13, 15]),
        m_back.shuffle(n_back, [0, 2, 4, 6, 8, 10, 12, 14]),
        m_back.shuffle(n_back, [1, 3, 5, 7, 9, 11, 13, 15]),
    )
}

// As that of `cv_lanes`, it goes in line where one call alone has a COPY.
#[inline(always)]
fn seven_rounds<const COPY: usize>(
    v: [u32x8; 4],
    x: u32x8,
    y: u32x8,
    z: u32x8,
    w: u32x8,
) -> [u32x8; 4]
    ensures { (k : ℕ) → k < 2
        → rows (halves k result) ≡ rounds (rows (halves k v)) (paired_rows (half k x) (half k y) (half k z) (half k w)) 7 }
{
    let v1 = round(v, x, y, z, w);
    let (x, y, z, w) = permuted(x, y, z, w);
    let v2 = round(v1, x, y, z, w);
    let (x, y, z, w) = permuted(x, y, z, w);
    let v3 = round(v2, x, y, z, w);
    let (x, y, z, w) = permuted(x, y, z, w);
    let v4 = round(v3, x, y, z, w);
    let (x, y, z, w) = permuted(x, y, z, w);
    let v5 = round(v4, x, y, z, w);
    let (x, y, z, w) = permuted(x, y, z, w);
    let v6 = round(v5, x, y, z, w);
    let (x, y, z, w) = permuted(x, y, z, w);
    round(v6, x, y, z, w)
}

// Seven rounds of two pairs, round by round, so that the processor has both at hand at any time.
#[inline(always)]
fn seven_rounds_of_both(
    v: [u32x8; 4],
    m: (u32x8, u32x8, u32x8, u32x8),
    u: [u32x8; 4],
    n: (u32x8, u32x8, u32x8, u32x8),
) -> [u32x8; 8]
    ensures front { (k : ℕ) → k < 2
        → rows (halves k result) ≡ rounds (rows (halves k v)) (paired_rows (half k m.0) (half k m.1) (half k m.2) (half k m.3)) 7 }
    ensures back { (k : ℕ) → k < 2
        → rows (halves k (slice_index_or result 4 [] ∷ slice_index_or result 5 [] ∷ slice_index_or result 6 [] ∷ slice_index_or result 7 [] ∷ []))
        ≡ rounds (rows (halves k u)) (paired_rows (half k n.0) (half k n.1) (half k n.2) (half k n.3)) 7 }
{
    let (x, y, z, w) = m;
    let (p, q, r, s) = n;
    let v1 = round(v, x, y, z, w);
    let u1 = round(u, p, q, r, s);
    let (x, y, z, w) = permuted(x, y, z, w);
    let (p, q, r, s) = permuted(p, q, r, s);
    let v2 = round(v1, x, y, z, w);
    let u2 = round(u1, p, q, r, s);
    let (x, y, z, w) = permuted(x, y, z, w);
    let (p, q, r, s) = permuted(p, q, r, s);
    let v3 = round(v2, x, y, z, w);
    let u3 = round(u2, p, q, r, s);
    let (x, y, z, w) = permuted(x, y, z, w);
    let (p, q, r, s) = permuted(p, q, r, s);
    let v4 = round(v3, x, y, z, w);
    let u4 = round(u3, p, q, r, s);
    let (x, y, z, w) = permuted(x, y, z, w);
    let (p, q, r, s) = permuted(p, q, r, s);
    let v5 = round(v4, x, y, z, w);
    let u5 = round(u4, p, q, r, s);
    let (x, y, z, w) = permuted(x, y, z, w);
    let (p, q, r, s) = permuted(p, q, r, s);
    let v6 = round(v5, x, y, z, w);
    let u6 = round(u5, p, q, r, s);
    let (x, y, z, w) = permuted(x, y, z, w);
    let (p, q, r, s) = permuted(p, q, r, s);
    let [v0, v1, v2, v3] = round(v6, x, y, z, w);
    let [u0, u1, u2, u3] = round(u6, p, q, r, s);
    [v0, v1, v2, v3, u0, u1, u2, u3]
}

// The xor of the halves of each state.
#[inline(always)]
fn values(v: [u32x8; 4]) -> ([u32; 8], [u32; 8])
    ensures first { (h : List ℕ) → result.0 ≡ take 8 (output_words h (rows (halves 0 v))) }
    ensures second { (h : List ℕ) → result.1 ≡ take 8 (output_words h (rows (halves 1 v))) }
{
    let [v0, v1, v2, v3] = v;
    let front = xor(v0, v2).to_array();
    let back = xor(v1, v3).to_array();
    (
        [
            front[0], front[1], front[2], front[3], back[0], back[1], back[2], back[3],
        ],
        [
            front[4], front[5], front[6], front[7], back[4], back[5], back[6], back[7],
        ],
    )
}

/// Returns the chaining values of two inputs, computed side by side.
///
/// `COPY` may be any number and doesn't change the result: each value has code of its own, which the compiler
/// inlines if it is called once.
#[inline(always)]
pub fn cv_pair<const COPY: usize>(a: &Input, b: &Input) -> ([u32; 8], [u32; 8])
    ensures first { result.0 ≡ cv a.now }
    ensures second { result.1 ≡ cv b.now }
{
    let (x, y, z, w) = paired_rows(&a.m, &b.m);
    values(seven_rounds::<COPY>(initial_state(a, b), x, y, z, w))
}

/// Returns the chaining values of four inputs, computed as two interleaved pairs.
#[inline(always)]
pub fn cv_two_pairs(a: &Input, b: &Input, c: &Input, d: &Input) -> [[u32; 8]; 4]
    ensures { result ≡ cv a.now ∷ cv b.now ∷ cv c.now ∷ cv d.now ∷ [] }
{
    let m = paired_rows(&a.m, &b.m);
    let n = paired_rows(&c.m, &d.m);
    let [v0, v1, v2, v3, u0, u1, u2, u3] = seven_rounds_of_both(
        initial_state(a, b),
        m,
        initial_state(c, d),
        n,
    );
    let (of_a, of_b) = values([v0, v1, v2, v3]);
    let (of_c, of_d) = values([u0, u1, u2, u3]);
    [of_a, of_b, of_c, of_d]
}
