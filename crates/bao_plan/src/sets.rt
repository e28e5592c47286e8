ghost use Rattle.std.specs.Prelude.{◌≡◌, ℕ, ◌+◌, ◌/◌, ◌%◌, ◌<◌, nat_lt, true, false, ◌&&◌, ◌^◌, ◌≤◌, MatchOption};
ghost use Rattle.bao_plan.specs.Sets.{has_bit, in_range, is_some_bit};

/// How many chunks a group has.
pub(crate) const GROUP_LEN: u64 = 64;

// Whether bit `j` of the mask is set.
pub(crate) fn has_bit(mask: u64, j: u32) -> bool
    requires { j < 64 }
    ensures { result ≡ has_bit mask j }
{
    (mask >> j) & 1 == 1
}

// The lowest bit that is set.
pub(crate) fn lowest(mask: u64) -> Option<u32>
    ensures { MatchOption result (is_some_bit mask ≡ false) (λ j. (j < 64) × (has_bit mask j ≡ true)) }
{
    if mask == 0 {
        None
    } else {
        Some(mask.trailing_zeros())
    }
}

// Whether some bit is set.
pub(crate) fn is_some_bit(mask: u64) -> bool
    ensures { result ≡ is_some_bit mask }
{
    match lowest(mask) {
        Some(_) => true,
        None => false,
    }
}

// The mask of a group's chunks that are below this one.
pub(crate) fn mask_below(group: u64, end: u64) -> u64
    ensures { (c : ℕ) → c / 64 ≡ group → has_bit result (c % 64) ≡ nat_lt c end }
{
    let start = GROUP_LEN.saturating_mul(group);
    let count = end.saturating_sub(start);
    if count < GROUP_LEN {
        (1 << count) - 1
    } else {
        u64::MAX
    }
}

// The mask of a group's chunks that are among `count` from `first` on.
pub(crate) fn mask_of(group: u64, first: u64, count: u64) -> u64
    requires { first + count < 2 ^ 64 }
    ensures { (c : ℕ) → c / 64 ≡ group → has_bit result (c % 64) ≡ in_range first count c }
{
    mask_below(group, first + count) & !mask_below(group, first)
}

// How many bits in a row are set, from this one on.
pub(crate) fn ones_from(mask: u64, j: u32) -> u32
    requires { j < 64 }
    ensures within { j + result ≤ 64 }
    ensures set { (k : ℕ) → j ≤ k → k < j + result → has_bit mask k ≡ true }
    ensures end { j + result < 64 → has_bit mask (j + result) ≡ false }
{
    for count in 0..64 - j {
        if !has_bit(mask, j + count) {
            return count;
        }
    }
    64 - j
}
