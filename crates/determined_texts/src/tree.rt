// `b3tree`.

ghost use Rattle.std.specs.Prelude.{◌≡◌, ℕ, List, ◌+◌, ◌-◌, ◌*◌, ◌^◌, ◌<◌, ◌≤◌, ◌↔◌, length, IfSome, IsErr};
ghost use Rattle.b3word.specs.Lanes.{lane8};
ghost use Rattle.b3tree.specs.Taken.{Holds};
ghost use Rattle.b3tree.specs.declared.mode.Mode.{Mode};

use b3tree::{
    Cv, Hash, Hasher, Input, Mode, TooLong, chunks_a_lane, eight_values, hash, parent_lanes,
    root_hash, spaced_chunks, spaced_values, subtree_cv, xof, xof_fits,
};
use std::simd::u32x8;

pub fn eight_values_determined(mode: &Mode, first: u64, bytes: &[u8]) -> ([Cv; 8], [Cv; 8])
    requires len { length bytes.now ≡ 8192 }
    requires end { 1024 * first + 8192 ≤ 2 ^ 64 - 1 }
    ensures { result.0 ≡ result.1 }
{
    (
        eight_values(mode, first, bytes),
        eight_values(mode, first, bytes),
    )
}

// What a new hasher's buffer has isn't determined; what it holds is, and with it, below, what it answers.
pub fn hasher_new_determined(mode: &Mode) -> (Hasher, Hasher)
    ensures { (of : Mode) (s : List ℕ) → Holds result.0 of s ↔ Holds result.1 of s }
{
    let one = Hasher::new(mode);
    let other = Hasher::new(mode);
    (one, other)
}

pub fn update_determined(
    a: &mut Hasher,
    b: &mut Hasher,
    bytes: &[u8],
) -> (Result<(), TooLong>, Result<(), TooLong>)
    ensures refused { (mode : Mode) (s : List ℕ) → Holds a.old mode s → Holds b.old mode s → IsErr result.0 ↔ IsErr result.1 }
    ensures after { (mode : Mode) (s : List ℕ) → Holds a.old mode s → Holds b.old mode s → (now : List ℕ) × Holds a.new mode now × Holds b.new mode now }
{
    (a.update(bytes), b.update(bytes))
}

pub fn finalize_determined(a: &Hasher, b: &Hasher) -> (Hash, Hash)
    ensures { (mode : Mode) (s : List ℕ) → Holds a.now mode s → Holds b.now mode s → result.0 ≡ result.1 }
{
    (a.finalize(), b.finalize())
}

pub fn finalize_xof_determined(a: &Hasher, b: &Hasher, at: u64, ours: &mut [u8], theirs: &mut [u8])
    requires end { at + length ours.old ≤ 2 ^ 64 - 1 }
    requires same { length theirs.old ≡ length ours.old }
    ensures { (mode : Mode) (s : List ℕ) → Holds a.now mode s → Holds b.now mode s → ours.new ≡ theirs.new }
{
    a.finalize_xof(at, ours);
    b.finalize_xof(at, theirs);
}

pub fn root_hash_determined(root: &Input) -> (Hash, Hash)
    ensures { result.0 ≡ result.1 }
{
    (root_hash(root), root_hash(root))
}

pub fn hash_determined(mode: &Mode, bytes: &[u8]) -> (Hash, Hash)
    ensures { result.0 ≡ result.1 }
{
    (hash(mode, bytes), hash(mode, bytes))
}

pub fn subtree_cv_determined(mode: &Mode, first: u64, bytes: &[u8]) -> (Cv, Cv)
    requires { 1024 * first + length bytes.now ≤ 2 ^ 64 - 1 }
    ensures { result.0 ≡ result.1 }
{
    (
        subtree_cv(mode, first, bytes),
        subtree_cv(mode, first, bytes),
    )
}

// It may answer `None` of any length.
pub fn chunks_a_lane_determined(len: u64) -> (Option<usize>, Option<usize>)
    ensures { IfSome result.0 (λ a. IfSome result.1 (λ b. a ≡ b)) }
{
    (chunks_a_lane(len), chunks_a_lane(len))
}

pub fn xof_fits_determined(at: u64, len: u64) -> (bool, bool)
    ensures { result.0 ≡ result.1 }
{
    (xof_fits(at, len), xof_fits(at, len))
}

pub fn xof_determined(mode: &Mode, bytes: &[u8], at: u64, a: &mut [u8], b: &mut [u8])
    requires end { at + length a.old ≤ 2 ^ 64 - 1 }
    requires same { length b.old ≡ length a.old }
    ensures { a.new ≡ b.new }
{
    xof(mode, bytes, at, a);
    xof(mode, bytes, at, b);
}

pub fn from_bytes_determined(bytes: &[u8]) -> (Cv, Cv)
    requires { length bytes.now ≡ 32 }
    ensures { result.0 ≡ result.1 }
{
    (Cv::from_bytes(bytes), Cv::from_bytes(bytes))
}

pub fn parent_lanes_determined(
    mode: &Mode,
    left: &[u32x8; 8],
    right: &[u32x8; 8],
    ours: &mut [u32x8; 8],
    theirs: &mut [u32x8; 8],
)
    ensures { (j : ℕ) → j < 8 → lane8 j ours.new ≡ lane8 j theirs.new }
{
    *ours = parent_lanes(mode, left, right);
    *theirs = parent_lanes(mode, left, right);
}

pub fn spaced_values_determined(
    text: &[u8],
    at: usize,
    step: usize,
    ours: &mut [u32x8; 8],
    theirs: &mut [u32x8; 8],
)
    requires { at + step * 7 + 288 ≤ length text.now }
    ensures { (j : ℕ) → j < 8 → lane8 j ours.new ≡ lane8 j theirs.new }
{
    *ours = spaced_values(text, at, step);
    *theirs = spaced_values(text, at, step);
}

pub fn spaced_chunks_determined(
    mode: &Mode,
    first: u64,
    apart: u64,
    text: &[u8],
    at: usize,
    step: usize,
    ours: &mut [u32x8; 8],
    theirs: &mut [u32x8; 8],
)
    requires number { first + apart * 7 < 2 ^ 64 }
    requires len { at + step * 7 + 1280 ≤ length text.now }
    ensures { (j : ℕ) → j < 8 → lane8 j ours.new ≡ lane8 j theirs.new }
{
    *ours = spaced_chunks(mode, first, apart, text, at, step);
    *theirs = spaced_chunks(mode, first, apart, text, at, step);
}
