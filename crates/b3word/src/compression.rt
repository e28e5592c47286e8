ghost use Rattle.std.specs.Prelude.{◌≡◌, ℕ, ◌<◌, [], ◌∷◌, bit_xor, slice_index};
ghost use Rattle.b3word.specs.Compression.{add32, xor_rotated, quarter_round, round, permuted, initial_state, rounds, output_words, out, cv};
ghost use Rattle.b3word.specs.Lanes.{paired_rows, rows};

use crate::input::Input;
use std::simd::u32x4;

/// The eight initial words (BLAKE3 paper, Table 1): the key words of plain hashing; each state has the first
/// four.
pub const IV: [u32; 8] = [
    0x6A09E667, 0xBB67AE85, 0x3C6EF372, 0xA54FF53A, 0x510E527F, 0x9B05688C, 0x1F83D9AB, 0x5BE0CD19,
];

#[inline(always)]
fn add(a: u32x4, b: u32x4) -> u32x4
    ensures { (j : ℕ) → j < 4 → slice_index result j ≡ add32 (slice_index a j) (slice_index b j) }
{
    a + b
}

#[inline(always)]
fn xor_rotated(a: u32x4, b: u32x4, n: u32) -> u32x4
    requires { (0 < n) × (n < 32) }
    ensures { (j : ℕ) → j < 4 → slice_index result j ≡ xor_rotated (slice_index a j) (slice_index b j) n }
{
    let x = a ^ b;
    (x >> u32x4::splat(n)) | (x << u32x4::splat(32 - n))
}

// The quarter round of each column of the rows a, b, c and d.
#[inline(always)]
fn quarter_rounds(
    a: u32x4,
    b: u32x4,
    c: u32x4,
    d: u32x4,
    x: u32x4,
    y: u32x4,
) -> (u32x4, u32x4, u32x4, u32x4)
    ensures { (j : ℕ) → j < 4
        → slice_index result.0 j ∷ slice_index result.1 j ∷ slice_index result.2 j ∷ slice_index result.3 j ∷ []
        ≡ quarter_round (slice_index a j) (slice_index b j) (slice_index c j) (slice_index d j) (slice_index x j) (slice_index y j) }
{
    let ab = add(a, b);
    let a1 = add(ab, x);
    let d1 = xor_rotated(d, a1, 16);
    let c1 = add(c, d1);
    let b1 = xor_rotated(b, c1, 12);
    let ab1 = add(a1, b1);
    let a2 = add(ab1, y);
    let d2 = xor_rotated(d1, a2, 8);
    let c2 = add(c1, d2);
    let b2 = xor_rotated(b1, c2, 7);
    (a2, b2, c2, d2)
}

// A row from its word 1 on, then word 0.
#[inline(always)]
fn turned(v: u32x4) -> u32x4
    ensures { result ≡ slice_index v 1 ∷ slice_index v 2 ∷ slice_index v 3 ∷ slice_index v 0 ∷ [] }
{
    v.swizzle([1, 2, 3, 0])
}

// The same twice.
#[inline(always)]
fn half_turned(v: u32x4) -> u32x4
    ensures { result ≡ slice_index v 2 ∷ slice_index v 3 ∷ slice_index v 0 ∷ slice_index v 1 ∷ [] }
{
    v.swizzle([2, 3, 0, 1])
}

// The same back.
#[inline(always)]
fn turned_back(v: u32x4) -> u32x4
    ensures { result ≡ slice_index v 3 ∷ slice_index v 0 ∷ slice_index v 1 ∷ slice_index v 2 ∷ [] }
{
    v.swizzle([3, 0, 1, 2])
}

// The columns, and then the diagonals, which are columns while three rows are turned. The message is in four rows:
// the even and the odd words of its first half, and those of its second.
#[inline(always)]
fn round(v: [u32x4; 4], x: u32x4, y: u32x4, z: u32x4, w: u32x4) -> [u32x4; 4]
    ensures { rows result ≡ round (rows v) (paired_rows x y z w) }
{
    let [a, b, c, d] = v;
    let (a, b, c, d) = quarter_rounds(a, b, c, d, x, y);
    let (a, b, c, d) = quarter_rounds(a, turned(b), half_turned(c), turned_back(d), z, w);
    [a, turned_back(b), half_turned(c), turned(d)]
}

#[inline(always)]
fn permuted(x: u32x4, y: u32x4, z: u32x4, w: u32x4) -> (u32x4, u32x4, u32x4, u32x4)
    ensures { paired_rows result.0 result.1 result.2 result.3 ≡ permuted (paired_rows x y z w) }
{
    let xz = x.shuffle(z, [3, 5, 0, 0]);
    let yz = y.shuffle(z, [0, 6, 0, 0]);
    let wy = w.shuffle(y, [1, 6, 0, 0]);
    (
        x.shuffle(y, [1, 5, 7, 2]),
        xz.shuffle(w, [0, 1, 2, 6]),
        yz.shuffle(w, [0, 1, 4, 7]),
        wy.shuffle(z, [0, 1, 7, 4]),
    )
}

#[inline(always)]
fn initial_state(input: &Input) -> [u32x4; 4]
    ensures { rows result ≡ initial_state input.now }
{
    let h = &input.h;
    [
        u32x4::from_array([h[0], h[1], h[2], h[3]]),
        u32x4::from_array([h[4], h[5], h[6], h[7]]),
        u32x4::from_array([IV[0], IV[1], IV[2], IV[3]]),
        u32x4::from_array([
            (input.t & 0xffff_ffff) as u32,
            (input.t >> 32) as u32,
            input.b,
            input.d,
        ]),
    ]
}

#[inline(always)]
fn paired_rows(m: &[u32; 16]) -> (u32x4, u32x4, u32x4, u32x4)
    ensures { paired_rows result.0 result.1 result.2 result.3 ≡ m.now }
{
    (
        u32x4::from_array([m[0], m[2], m[4], m[6]]),
        u32x4::from_array([m[1], m[3], m[5], m[7]]),
        u32x4::from_array([m[8], m[10], m[12], m[14]]),
        u32x4::from_array([m[9], m[11], m[13], m[15]]),
    )
}

#[inline(always)]
fn seven_rounds(v: [u32x4; 4], x: u32x4, y: u32x4, z: u32x4, w: u32x4) -> [u32x4; 4]
    ensures { rows result ≡ rounds (rows v) (paired_rows x y z w) 7 }
{
    let v1 = round(v, x, y, z, w);
    let (x, y, z, w) = permuted(x, y, z, w);
    let v2 = round(v1, x, y, z, w);
    let (x, y, z, w) = permuted(x, y, z, w);
    let v3 = round(v2, x, y, z, w);
    let (x, y, z, w) = permuted(x, y, z, w);
    let v4 = round(v3, x, y, z, w);
    let (x, y, z, w) = permuted(x, y, z, w);
    let v5 = round(v4, x, y, z, w);
    let (x, y, z, w) = permuted(x, y, z, w);
    let v6 = round(v5, x, y, z, w);
    let (x, y, z, w) = permuted(x, y, z, w);
    round(v6, x, y, z, w)
}

// The xor of a state's halves, then that of its second half with the chaining value: rows of four words.
#[inline(always)]
fn output_words(h: &[u32; 8], v: [u32x4; 4]) -> [u32; 16]
    ensures { result ≡ output_words h.now (rows v) }
{
    let [a, b, c, d] = v;
    let a = a.to_array();
    let b = b.to_array();
    let c = c.to_array();
    let d = d.to_array();
    [
        a[0] ^ c[0],
        a[1] ^ c[1],
        a[2] ^ c[2],
        a[3] ^ c[3],
        b[0] ^ d[0],
        b[1] ^ d[1],
        b[2] ^ d[2],
        b[3] ^ d[3],
        c[0] ^ h[0],
        c[1] ^ h[1],
        c[2] ^ h[2],
        c[3] ^ h[3],
        d[0] ^ h[4],
        d[1] ^ h[5],
        d[2] ^ h[6],
        d[3] ^ h[7],
    ]
}

/// Returns the 16 output words of `input` after seven rounds (BLAKE3 paper, 2.2).
#[inline(always)]
#[tactic(auto, unfolding(crate::specs::Compression::out))]
pub fn compress(input: &Input) -> [u32; 16]
    ensures { result ≡ out input.now }
{
    let (x, y, z, w) = paired_rows(&input.m);
    let v = seven_rounds(initial_state(input), x, y, z, w);
    output_words(&input.h, v)
}

/// Returns the chaining value of `input`: the first 8 of its output words.
pub fn cv(input: &Input) -> [u32; 8]
    ensures { result ≡ cv input.now }
{
    let out = compress(input);
    [
        out[0], out[1], out[2], out[3], out[4], out[5], out[6], out[7],
    ]
}
