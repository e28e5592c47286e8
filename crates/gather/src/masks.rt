ghost use Rattle.std.specs.Prelude.{◌≡◌, ℕ, ◌<◌, not, ◌&&◌};
ghost use Rattle.store_core.specs.Masks.{has_bit};

use bao_check::GROUP_LEN;
use store_core::MAX_CAPACITY;

// The most groups that a store has.
pub(crate) const MAX_GROUPS: u64 = MAX_CAPACITY as u64 / GROUP_LEN;

// A mask without the chunks of another.
#[tactic(auto, using(crate::proofs::Bits::bit_without))]
pub(crate) fn without(mask: u64, other: u64) -> u64
    ensures { (j : ℕ) → j < 64 → has_bit result j ≡ (has_bit mask j && not (has_bit other j)) }
{
    mask & !other
}
