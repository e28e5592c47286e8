ghost use Rattle.std.specs.Prelude.{◌≡◌, ◌<◌, ℕ, length, slice_index};
ghost use Rattle.std.specs.Int.Bits.{bit_or};

// Puts to each mask the bits of the other with its index.
pub(crate) fn put_masks(masks: &mut [u64], others: &[u64])
    requires { length masks.old ≡ length others.now }
    ensures count { length masks.new ≡ length masks.old }
    ensures bits { (k : ℕ) → k < length masks.old → slice_index masks.new k ≡ bit_or (slice_index masks.old k) (slice_index others.now k) }
{
    for k in 0..masks.len() {
        masks[k] |= others[k];
    }
}
