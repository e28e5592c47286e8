ghost use Rattle.std.specs.Prelude.{◌≡◌, ◌≢◌, ℕ, ◌<◌, nat_lt, true};
ghost use Rattle.store_core.specs.Masks.{IsMaskOf, has_bit};

/// How many chunks, and how many boundaries, a group has.
pub const GROUP_LEN: u32 = bao_check::GROUP_LEN as u32;

/// How many words the cell of a chunk has: the size, then 128 words of eight bytes.
pub const CELL_WORDS: u8 = 129;

/// How many words of eight bytes a parent has.
pub const PARENT_WORDS: u8 = 8;

/// Returns whether bit `j` of the mask is set; it stands for chunk, or boundary, 64 * group + j.
#[inline(always)]
pub fn has_bit(mask: u64, j: u32) -> bool
    requires { j < 64 }
    ensures { result ≡ has_bit mask j }
{
    (mask >> j) & 1 == 1
}

/// Returns the mask with bit `j` set as well.
#[inline(always)]
pub fn with_bit(mask: u64, j: u32) -> u64
    requires { j < 64 }
    ensures same { has_bit result j ≡ true }
    ensures others { (k : ℕ) → k ≢ j → has_bit result k ≡ has_bit mask k }
{
    mask | (1 << j)
}

/// Returns the mask of the group's chunks, or boundaries, below `end`.
pub fn mask_below(group: u32, end: u64) -> u64
    ensures { IsMaskOf group result (λ c. nat_lt c end) }
{
    let start = GROUP_LEN as u64 * u64::from(group);
    let count = end.saturating_sub(start);
    if count < GROUP_LEN as u64 {
        (1 << count) - 1
    } else {
        u64::MAX
    }
}
