ghost use Rattle.std.specs.Prelude.{◌≡◌, ◌≢◌, ◌↔◌, ◌<◌};
ghost use Rattle.bao_check.specs.Waiting.{IsAcceptedAs};
ghost use Rattle.b3tree.specs.Hashing.{hash};
ghost use Rattle.bao_bind.specs.declared.verdict.Verdict.TheVariants.{Agrees, Collision};
ghost use Rattle.berylwool.specs.Feeds.{IsTextRefused};
ghost use Rattle.berylwool.specs.Modes.{IsKnown, mode_of};
ghost use Rattle.berylwool.specs.Pairs.{IsAudit, input_of};
ghost use Rattle.berylwool.specs.Slices.{task_of};

use crate::checking::told;
use crate::slice::BwSlice;
use crate::status::{COLLISION, NO_MODE};
use b3tree::{Hash, Input};
use bao_bind::{Verdict, audit};
use bao_check::check_slice;
use std::alloc::Global;

/// The inputs of one compression (BLAKE3 paper, 2.2), as C has them.
#[repr(C)]
#[derive(Clone, Copy)]
pub struct BwInput {
    pub h: [u32; 8],
    pub m: [u32; 16],
    pub t: u64,
    pub b: u32,
    pub d: u32,
}

// The inputs as C has them.
fn shown(input: &Input) -> BwInput
    ensures { input_of result ≡ input.now }
{
    let h = input.h;
    let m = input.m;
    BwInput {
        h,
        m,
        t: input.t,
        b: input.b,
        d: input.d,
    }
}

/// Checks `text` as the slice that `slice` names, and compares it with `blob`.
#[unsafe(no_mangle)]
pub extern "C" fn bw_audit(
    alloc: Global,
    slice: &BwSlice,
    text: &[u8],
    blob: &[u8],
    at: &mut u64,
    ours: &mut BwInput,
    theirs: &mut BwInput,
) -> u32
    ensures agrees { result ≡ 0 → IsAudit (task_of slice.now) text.now blob.now Agrees }
    ensures collision { result ≡ 602 → IsAudit (task_of slice.now) text.now blob.now (Collision (input_of ours.new) (input_of theirs.new)) }
    ensures unknown { result ≡ 1213 ↔ (¬ IsKnown slice.now.mode) }
    ensures other_root { IsKnown slice.now.mode → IsAcceptedAs (task_of slice.now) text.now → (result ≡ 601 ↔ (hash (mode_of slice.now.mode) blob.now ≢ slice.now.root)) }
    ensures status { result ≢ 0 → result ≢ 602 → result ≢ 601 → result ≢ 1213 → IsTextRefused (task_of slice.now) text.now result at.new }
{
    if !slice.mode.is_known() {
        return NO_MODE;
    }
    match check_slice(
        alloc,
        &slice.mode.get(),
        &Hash(slice.root),
        slice.start,
        slice.len,
        text,
    ) {
        Ok(piece) => match audit(blob, &piece) {
            Ok(Verdict::Agrees) => 0,
            Ok(
                Verdict::Collision {
                    ours: first,
                    theirs: second,
                },
            ) => {
                *ours = shown(&first);
                *theirs = shown(&second);
                COLLISION
            }
            Err(fault) => u32::from(fault.code()),
        },
        Err(fault) => told(&fault, at),
    }
}
