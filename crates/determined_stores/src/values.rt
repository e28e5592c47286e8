// What stands beside the store: masks, faults and bytes.

ghost use Rattle.std.specs.Prelude.{◌≡◌, ◌+◌, ◌<◌, ◌≤◌, length};

use b3tree::{Hash, Mode};
use holders::Fixed;
use store_core::{ReadBytes, mask_below, put_bytes, with_bit};

pub fn put_bytes_determined(a: &mut [u8], b: &mut [u8], from: usize, bytes: &[u8])
    requires end { from + length bytes.now ≤ length a.old }
    requires same { a.old ≡ b.old }
    ensures { a.new ≡ b.new }
{
    put_bytes(a, from, bytes);
    put_bytes(b, from, bytes);
}

pub fn is_of_determined(fixed: &Fixed, root: &Hash, mode: &Mode) -> (bool, bool)
    ensures { result.0 ≡ result.1 }
{
    (fixed.is_of(root, mode), fixed.is_of(root, mode))
}

pub fn with_bit_determined(mask: u64, j: u32) -> (u64, u64)
    requires { j < 64 }
    ensures { result.0 ≡ result.1 }
{
    (with_bit(mask, j), with_bit(mask, j))
}

pub fn mask_below_determined(group: u32, end: u64) -> (u64, u64)
    ensures { result.0 ≡ result.1 }
{
    (mask_below(group, end), mask_below(group, end))
}

pub fn as_slice_determined<'a>(bytes: &'a ReadBytes) -> (&'a [u8], &'a [u8])
    ensures { result.0.now ≡ result.1.now }
{
    (bytes.as_slice(), bytes.as_slice())
}
