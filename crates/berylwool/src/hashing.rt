ghost use Rattle.std.specs.Prelude.{◌≡◌, ◌≢◌, ◌↔◌, ◌+◌, ◌-◌, ◌^◌, ◌≤◌, length};
ghost use Rattle.b3tree.specs.Hashing.{stream};
ghost use Rattle.berylwool.specs.Modes.{IsKnown, mode_of};

use crate::mode::BwMode;
use crate::status::{NO_MODE, PAST_OUTPUT};
use b3tree::{xof, xof_fits};

/// Fills `out` with the extended output of `bytes` in a mode, from byte `at` of the output on. Its first 32
/// bytes are the hash.
#[unsafe(no_mangle)]
pub extern "C" fn bw_hash(mode: &BwMode, bytes: &[u8], at: u64, out: &mut [u8]) -> u32
    ensures unknown { result ≡ 1213 ↔ (¬ IsKnown mode.now) }
    ensures fits { result ≡ 0 ↔ (IsKnown mode.now × (at + length out.old ≤ 2 ^ 64 - 1)) }
    ensures output { result ≡ 0 → out.new ≡ stream (mode_of mode.now) bytes.now at (length out.old) }
    ensures status { result ≢ 0 → result ≢ 1213 → result ≡ 1208 }
    ensures same { (¬ (result ≡ 0)) → out.new ≡ out.old }
{
    if !mode.is_known() {
        return NO_MODE;
    }
    if !xof_fits(at, out.len() as u64) {
        return PAST_OUTPUT;
    }
    xof(&mode.get(), bytes, at, out);
    0
}
