// The compression function on eight inputs at a time, one in each lane.

ghost use Rattle.std.specs.Prelude.{◌≡◌, ℕ, ◌/◌, ◌%◌, ◌^◌, ◌<◌, [], ◌∷◌, ◌++◌, bit_xor, drop, length, map, slice_index, slice_index_or, take};
ghost use Rattle.b3word.specs.Compression.{add32, xor_rotated, quarter_round, round, permuted, initial_state, rounds, cv};
ghost use Rattle.b3word.specs.Lanes.{lane8, lane16, lane_input};

use crate::compression::IV;
use crate::input::Input;
use std::simd::u32x8;

#[inline(always)]
fn add(a: u32x8, b: u32x8) -> u32x8
    ensures { (j : ℕ) → j < 8 → slice_index result j ≡ add32 (slice_index a j) (slice_index b j) }
{
    a + b
}

#[inline(always)]
pub(crate) fn xor(a: u32x8, b: u32x8) -> u32x8
    ensures { (j : ℕ) → j < 8 → slice_index result j ≡ bit_xor (slice_index a j) (slice_index b j) }
{
    a ^ b
}

#[inline(always)]
fn xor_rotated(a: u32x8, b: u32x8, n: u32) -> u32x8
    requires { (0 < n) × (n < 32) }
    ensures { (j : ℕ) → j < 8 → slice_index result j ≡ xor_rotated (slice_index a j) (slice_index b j) n }
{
    let x = a ^ b;
    (x >> u32x8::splat(n)) | (x << u32x8::splat(32 - n))
}

#[inline(always)]
pub(crate) fn quarter_round(
    a: u32x8,
    b: u32x8,
    c: u32x8,
    d: u32x8,
    x: u32x8,
    y: u32x8,
) -> (u32x8, u32x8, u32x8, u32x8)
    ensures { (j : ℕ) → j < 8
        → slice_index result.0 j ∷ slice_index result.1 j ∷ slice_index result.2 j ∷ slice_index result.3 j ∷ []
        ≡ quarter_round (slice_index a j) (slice_index b j) (slice_index c j) (slice_index d j) (slice_index x j) (slice_index y j) }
{
    let ab = add(a, b);
    let a1 = add(ab, x);
    let d1 = xor_rotated(d, a1, 16);
    let c1 = add(c, d1);
    let b1 = xor_rotated(b, c1, 12);
    let ab1 = add(a1, b1);
    let a2 = add(ab1, y);
    let d2 = xor_rotated(d1, a2, 8);
    let c2 = add(c1, d2);
    let b2 = xor_rotated(b1, c2, 7);
    (a2, b2, c2, d2)
}

#[inline(always)]
fn round(v: [u32x8; 16], m: [u32x8; 16]) -> [u32x8; 16]
    ensures { (j : ℕ) → j < 8 → lane16 j result ≡ round (lane16 j v) (lane16 j m) }
{
    let [
        v0,
        v1,
        v2,
        v3,
        v4,
        v5,
        v6,
        v7,
        v8,
        v9,
        v10,
        v11,
        v12,
        v13,
        v14,
        v15,
    ] = v;
    let (v0, v4, v8, v12) = quarter_round(v0, v4, v8, v12, m[0], m[1]);
    let (v1, v5, v9, v13) = quarter_round(v1, v5, v9, v13, m[2], m[3]);
    let (v2, v6, v10, v14) = quarter_round(v2, v6, v10, v14, m[4], m[5]);
    let (v3, v7, v11, v15) = quarter_round(v3, v7, v11, v15, m[6], m[7]);
    let (v0, v5, v10, v15) = quarter_round(v0, v5, v10, v15, m[8], m[9]);
    let (v1, v6, v11, v12) = quarter_round(v1, v6, v11, v12, m[10], m[11]);
    let (v2, v7, v8, v13) = quarter_round(v2, v7, v8, v13, m[12], m[13]);
    let (v3, v4, v9, v14) = quarter_round(v3, v4, v9, v14, m[14], m[15]);
    [
        v0, v1, v2, v3, v4, v5, v6, v7, v8, v9, v10, v11, v12, v13, v14, v15,
    ]
}

#[inline(always)]
#[tactic(auto, unfolding(crate::specs::Compression::permuted))]
fn permuted(m: [u32x8; 16]) -> [u32x8; 16]
    ensures { (j : ℕ) → j < 8 → lane16 j result ≡ permuted (lane16 j m) }
{
    [
        m[2], m[6], m[3], m[10], m[7], m[0], m[4], m[13], m[1], m[11], m[12], m[5], m[9], m[14],
        m[15], m[8],
    ]
}

// Too large for its attribute to count. Where one call alone has a COPY, the compiler puts that in line all the same.
#[inline(always)]
fn seven_rounds<const COPY: usize>(v: [u32x8; 16], m: [u32x8; 16]) -> [u32x8; 16]
    ensures { (j : ℕ) → j < 8 → lane16 j result ≡ rounds (lane16 j v) (lane16 j m) 7 }
{
    let v1 = round(v, m);
    let m1 = permuted(m);
    let v2 = round(v1, m1);
    let m2 = permuted(m1);
    let v3 = round(v2, m2);
    let m3 = permuted(m2);
    let v4 = round(v3, m3);
    let m4 = permuted(m3);
    let v5 = round(v4, m4);
    let m5 = permuted(m4);
    let v6 = round(v5, m5);
    let m6 = permuted(m5);
    round(v6, m6)
}

#[inline(always)]
fn initial_state(h: &[u32x8; 8], t_low: u32x8, t_high: u32x8, b: u32x8, d: u32x8) -> [u32x8; 16]
    ensures { (j t : ℕ) → j < 8 → slice_index t_low j ≡ t % 2 ^ 32 → slice_index t_high j ≡ t / 2 ^ 32
        → lane16 j result ≡ initial_state (lane_input j h.now [] t b d) }
{
    [
        h[0],
        h[1],
        h[2],
        h[3],
        h[4],
        h[5],
        h[6],
        h[7],
        u32x8::splat(IV[0]),
        u32x8::splat(IV[1]),
        u32x8::splat(IV[2]),
        u32x8::splat(IV[3]),
        t_low,
        t_high,
        b,
        d,
    ]
}

/// Returns the chaining values of eight inputs, one in each lane: each vector has the same word of all eight.
///
/// The counter of lane `j` has the low word `t_low[j]` and the high word `t_high[j]`. `COPY` may be any number
/// and doesn't change the result: each value has code of its own, which the compiler inlines if it is called
/// once.
#[inline(always)]
pub fn cv_lanes<const COPY: usize>(
    h: &[u32x8; 8],
    m: &[u32x8; 16],
    t_low: u32x8,
    t_high: u32x8,
    b: u32x8,
    d: u32x8,
) -> [u32x8; 8]
    ensures { (j t : ℕ) → j < 8 → slice_index t_low j ≡ t % 2 ^ 32 → slice_index t_high j ≡ t / 2 ^ 32
        → lane8 j result ≡ cv (lane_input j h.now m.now t b d) }
{
    let start = initial_state(h, t_low, t_high, b, d);
    let v = seven_rounds::<COPY>(start, *m);
    let [
        v0,
        v1,
        v2,
        v3,
        v4,
        v5,
        v6,
        v7,
        v8,
        v9,
        v10,
        v11,
        v12,
        v13,
        v14,
        v15,
    ] = v;
    [
        xor(v0, v8),
        xor(v1, v9),
        xor(v2, v10),
        xor(v3, v11),
        xor(v4, v12),
        xor(v5, v13),
        xor(v6, v14),
        xor(v7, v15),
    ]
}

// Words from the front of each half of two vectors, in turns, and those from its back.
#[inline(always)]
fn by_words(a: u32x8, b: u32x8) -> (u32x8, u32x8)
    ensures lanes { (length a ≡ 8) × (length b ≡ 8) }
    ensures front { result.0
        ≡ slice_index a 0 ∷ slice_index b 0 ∷ slice_index a 1 ∷ slice_index b 1
        ∷ slice_index a 4 ∷ slice_index b 4 ∷ slice_index a 5 ∷ slice_index b 5 ∷ [] }
    ensures back { result.1
        ≡ slice_index a 2 ∷ slice_index b 2 ∷ slice_index a 3 ∷ slice_index b 3
        ∷ slice_index a 6 ∷ slice_index b 6 ∷ slice_index a 7 ∷ slice_index b 7 ∷ [] }
{
    (
        a.shuffle(b, [0, 8, 1, 9, 4, 12, 5, 13]),
        a.shuffle(b, [2, 10, 3, 11, 6, 14, 7, 15]),
    )
}

// The same by pairs of words.
#[inline(always)]
fn by_pairs(a: u32x8, b: u32x8) -> (u32x8, u32x8)
    ensures front { result.0
        ≡ slice_index a 0 ∷ slice_index a 1 ∷ slice_index b 0 ∷ slice_index b 1
        ∷ slice_index a 4 ∷ slice_index a 5 ∷ slice_index b 4 ∷ slice_index b 5 ∷ [] }
    ensures back { result.1
        ≡ slice_index a 2 ∷ slice_index a 3 ∷ slice_index b 2 ∷ slice_index b 3
        ∷ slice_index a 6 ∷ slice_index a 7 ∷ slice_index b 6 ∷ slice_index b 7 ∷ [] }
{
    (
        a.shuffle(b, [0, 1, 8, 9, 4, 5, 12, 13]),
        a.shuffle(b, [2, 3, 10, 11, 6, 7, 14, 15]),
    )
}

// The first halves of two vectors, and their second halves.
#[inline(always)]
fn by_halves(a: u32x8, b: u32x8) -> (u32x8, u32x8)
    ensures front { result.0
        ≡ slice_index a 0 ∷ slice_index a 1 ∷ slice_index a 2 ∷ slice_index a 3
        ∷ slice_index b 0 ∷ slice_index b 1 ∷ slice_index b 2 ∷ slice_index b 3 ∷ [] }
    ensures back { result.1
        ≡ slice_index a 4 ∷ slice_index a 5 ∷ slice_index a 6 ∷ slice_index a 7
        ∷ slice_index b 4 ∷ slice_index b 5 ∷ slice_index b 6 ∷ slice_index b 7 ∷ [] }
{
    (
        a.shuffle(b, [0, 1, 2, 3, 8, 9, 10, 11]),
        a.shuffle(b, [4, 5, 6, 7, 12, 13, 14, 15]),
    )
}

/// Transposes eight vectors: lane `j` of vector `k` of the result is lane `k` of row `j`.
#[inline(always)]
pub fn transposed(rows: &[u32x8; 8]) -> [u32x8; 8]
    ensures lanes { (j : ℕ) → j < 8 → lane8 j result ≡ slice_index_or rows.now j [] }
    ensures vectors { (j : ℕ) → j < 8 → slice_index_or result j [] ≡ lane8 j rows.now }
{
    let (a0, a1) = by_words(rows[0], rows[1]);
    let (a2, a3) = by_words(rows[2], rows[3]);
    let (a4, a5) = by_words(rows[4], rows[5]);
    let (a6, a7) = by_words(rows[6], rows[7]);
    let (b0, b1) = by_pairs(a0, a2);
    let (b2, b3) = by_pairs(a1, a3);
    let (b4, b5) = by_pairs(a4, a6);
    let (b6, b7) = by_pairs(a5, a7);
    let (v0, v4) = by_halves(b0, b4);
    let (v1, v5) = by_halves(b1, b5);
    let (v2, v6) = by_halves(b2, b6);
    let (v3, v7) = by_halves(b3, b7);
    [v0, v1, v2, v3, v4, v5, v6, v7]
}

/// Concatenates two arrays of eight vectors.
#[inline(always)]
pub fn joined(front: &[u32x8; 8], back: &[u32x8; 8]) -> [u32x8; 16]
    ensures { (j : ℕ) → j < 8 → lane16 j result ≡ lane8 j front.now ++ lane8 j back.now }
{
    let [v0, v1, v2, v3, v4, v5, v6, v7] = *front;
    let [w0, w1, w2, w3, w4, w5, w6, w7] = *back;
    [
        v0, v1, v2, v3, v4, v5, v6, v7, w0, w1, w2, w3, w4, w5, w6, w7,
    ]
}

/// Returns the chaining values of eight inputs: entry `k` is that of input `k`.
pub fn cv8(inputs: &[Input; 8]) -> [[u32; 8]; 8]
    ensures { result ≡ map cv inputs.now }
{
    let h = transposed(&inputs.map(
        |x|
            ensures { result ≡ x.h }
        { u32x8::from_array(x.h) },
    ));
    let front = transposed(&inputs.map(
        |x|
            ensures { result ≡ take 8 x.m }
        { u32x8::from_slice(&x.m) },
    ));
    let back = transposed(&inputs.map(
        |x|
            ensures { result ≡ drop 8 x.m }
        { u32x8::from_slice(&x.m[8..]) },
    ));
    let m = joined(&front, &back);
    let t_low = u32x8::from_array(inputs.map(|x| (x.t % (1 << 32)) as u32));
    let t_high = u32x8::from_array(inputs.map(|x| (x.t >> 32) as u32));
    let b = u32x8::from_array(inputs.map(|x| x.b));
    let d = u32x8::from_array(inputs.map(|x| x.d));
    let values = cv_lanes::<0>(&h, &m, t_low, t_high, b, d);
    let rows = transposed(&values);
    rows.map(
        |row|
            ensures { result ≡ row }
        { row.to_array() },
    )
}
