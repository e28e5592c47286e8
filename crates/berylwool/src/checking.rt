ghost use Rattle.std.specs.Prelude.{◌≡◌, ◌≢◌, ◌↔◌, ◌-◌, ◌<◌};
ghost use Rattle.bao_check.specs.Waiting.{IsAcceptedAs};
ghost use Rattle.berylwool.specs.Feeds.{IsTextRefused};
ghost use Rattle.berylwool.specs.Modes.{IsKnown};
ghost use Rattle.berylwool.specs.Slices.{task_of};
ghost use Rattle.berylwool.specs.Status.{IsStatusOf};

use crate::slice::BwSlice;
use crate::status::NO_MODE;
use b3tree::Hash;
use bao_check::{CheckFault, check_slice};
use std::alloc::Global;

// Returns the number of a fault, and its offset in `at`.
pub(crate) fn told(fault: &CheckFault, at: &mut u64) -> u32
    ensures status { IsStatusOf fault.now result at.new }
    ensures from { 500 < result }
    ensures to { result < 506 }
{
    *at = match fault {
        CheckFault::Short { at } | CheckFault::Mismatch { at } | CheckFault::Trailing { at } => *at,
        CheckFault::Memory | CheckFault::Reader => 0,
    };
    u32::from(fault.code())
}

/// Checks `text` as the slice that `slice` names.
#[unsafe(no_mangle)]
pub extern "C" fn bw_check(alloc: Global, slice: &BwSlice, text: &[u8], at: &mut u64) -> u32
    ensures unknown { result ≡ 1213 ↔ (¬ IsKnown slice.now.mode) }
    ensures accepted { result ≡ 0 ↔ (IsKnown slice.now.mode × IsAcceptedAs (task_of slice.now) text.now) }
    ensures fault { result ≢ 0 → result ≢ 1213 → IsTextRefused (task_of slice.now) text.now result at.new }
{
    if !slice.mode.is_known() {
        return NO_MODE;
    }
    match check_slice(
        alloc,
        &slice.mode.get(),
        &Hash(slice.root),
        slice.start,
        slice.len,
        text,
    ) {
        Ok(_) => 0,
        Err(fault) => told(&fault, at),
    }
}
