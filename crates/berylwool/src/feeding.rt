ghost use Rattle.std.specs.Prelude.{◌≡◌, ◌≢◌, ◌↔◌, ℕ, ◌+◌, ◌-◌, ◌^◌, ◌<◌, ◌≤◌, List, [], ◌++◌, drop, length, replicate, take, IfSome, None, if◌then◌else◌};
ghost use Rattle.bao_check.specs.Checking.{HasDecodedAs, HasTakenAs, wanted};
ghost use Rattle.bao_check.specs.Waiting.{CheckTask, IsAcceptedAs};
ghost use Rattle.berylwool.specs.Feeds.{HasDecoded, HasFed, IsBelowNode, IsNodeRefused, IsTextRefused, OfTaken};
ghost use Rattle.berylwool.specs.Handles.{HasFeed};
ghost use Rattle.berylwool.specs.Modes.{IsKnown};
ghost use Rattle.berylwool.specs.Slices.{task_of};

use crate::checking::told;
use crate::handle::{BwHandle, put, take, with_held};
use crate::owned::Held;
use crate::slice::BwSlice;
use crate::status::{NO_MEMORY, NO_MODE, OTHER_SIZE, ROOM};
use b3tree::Hash;
use bao_check::Checking;
use std::alloc::Global;

/// Makes a check in pieces of the slice that `slice` names, which has no bytes yet.
#[unsafe(no_mangle)]
pub extern "C" fn bw_feed_new(alloc: Global, slice: &BwSlice, feed: &mut BwHandle) -> u32
    ensures made { result ≡ 0 → HasFed feed.new.held (task_of slice.now) [] }
    ensures decoded { result ≡ 0 → HasDecoded feed.new.held (task_of slice.now) [] [] }
    ensures unknown { result ≡ 1213 ↔ (¬ IsKnown slice.now.mode) }
    ensures status { result ≢ 0 → result ≢ 1213 → result ≡ 1203 }
    ensures empty { result ≢ 0 → feed.new.held ≡ None }
{
    let _old = take(feed, alloc);
    if !slice.mode.is_known() {
        return NO_MODE;
    }
    let check = Checking::of_slice(&slice.mode.get(), &Hash(slice.root), slice.start, slice.len);
    let Ok(check) = Box::new(alloc, check) else {
        return NO_MEMORY;
    };
    match Box::new(alloc, Held::Feed(check)) {
        Ok(held) => {
            put(feed, held);
            0
        }
        Err(_) => NO_MEMORY,
    }
}

// Verifies many nodes, as `bw_feed_take` does.
fn taken_many(
    check: &mut Checking,
    bytes: &[u8],
    out: &mut [u8],
    taken: &mut usize,
    filled: &mut usize,
    at: &mut u64,
) -> u32
    requires { length bytes.now ≤ length out.old }
    ensures taken { result ≡ 0 → (task : CheckTask) (had : List ℕ) → HasTakenAs check.old task had → HasTakenAs check.new task (had ++ take taken.new bytes.now) }
    ensures decoded { result ≡ 0 → (task : CheckTask) (had blob : List ℕ) → HasDecodedAs check.old task had blob
        → HasDecodedAs check.new task (had ++ take taken.new bytes.now) (blob ++ take filled.new out.new) }
    ensures most { result ≡ 0 → IfSome (wanted check.new) (λ size. length bytes.now < taken.new + size) }
    ensures bound { result ≡ 0 → (taken.new ≤ length bytes.now) × (filled.new ≤ taken.new) }
    ensures rest { result ≡ 0 → drop filled.new out.new ≡ replicate (length bytes.now - filled.new) 0 ++ drop (length bytes.now) out.old }
    ensures fault { result ≢ 0 → OfTaken (λ task had. IsNodeRefused task (had ++ bytes.now) result at.new) check.old }
    ensures before { result ≢ 0 → (task : CheckTask) (had : List ℕ) → HasTakenAs check.old task had
        → (used : ℕ) × (used ≤ length bytes.now) × HasTakenAs check.new task (had ++ take used bytes.now) }
    ensures cleared { result ≢ 0 → out.new ≡ replicate (length bytes.now) 0 ++ drop (length bytes.now) out.old }
    ensures low { result < 506 }
{
    let len = bytes.len();
    match check.decode(bytes, &mut out[..len]) {
        Ok(it) => {
            *taken = it.taken;
            *filled = it.filled;
            out[it.filled..len].fill(0);
            0
        }
        Err(fault) => {
            out[..len].fill(0);
            told(&fault, at)
        }
    }
}

/// Verifies as many whole nodes as `bytes` begins with, and copies the bytes of their chunks, which are the
/// blob's next ones, to the front of `out`.
#[unsafe(no_mangle)]
pub extern "C" fn bw_feed_take(
    alloc: Global,
    feed: &mut BwHandle,
    bytes: &[u8],
    out: &mut [u8],
    taken: &mut usize,
    filled: &mut usize,
    at: &mut u64,
) -> u32
    ensures taken { result ≡ 0 → (task : CheckTask) (had : List ℕ) → HasFed feed.old.held task had → HasFed feed.new.held task (had ++ take taken.new bytes.now) }
    ensures decoded { result ≡ 0 → (task : CheckTask) (had blob : List ℕ) → HasDecoded feed.old.held task had blob
        → HasDecoded feed.new.held task (had ++ take taken.new bytes.now) (blob ++ take filled.new out.new) }
    ensures most { result ≡ 0 → HasFeed (λ check. IfSome (wanted check) (λ size. length bytes.now < taken.new + size)) feed.new.held }
    ensures bound { result ≡ 0 → (taken.new ≤ length bytes.now) × (filled.new ≤ taken.new) }
    ensures rest { result ≡ 0 → drop filled.new out.new ≡ replicate (length bytes.now - filled.new) 0 ++ drop (length bytes.now) out.old }
    ensures fault { result ≢ 0 → result < 506 → HasFeed (OfTaken (λ task had. IsNodeRefused task (had ++ bytes.now) result at.new)) feed.old.held }
    ensures before { result ≢ 0 → result < 506 → (task : CheckTask) (had : List ℕ) → HasFed feed.old.held task had
        → (used : ℕ) × (used ≤ length bytes.now) × HasFed feed.new.held task (had ++ take used bytes.now) }
    ensures cleared { result ≢ 0 → result < 506 → out.new ≡ replicate (length bytes.now) 0 ++ drop (length bytes.now) out.old }
    ensures room { result ≡ 1201 ↔ length out.old < length bytes.now }
    ensures no_feed { result ≡ 1202 → (¬ HasFeed (λ _. Unit) feed.old.held) }
    ensures status { 505 < result → result ≢ 1202 → result ≡ 1201 }
    ensures same { 505 < result → feed.new.held ≡ feed.old.held }
    ensures unchanged { 505 < result → out.new ≡ out.old }
{
    if out.len() < bytes.len() {
        return ROOM;
    }
    with_held!(
        feed,
        alloc,
        Feed,
        |check| taken_many(check, bytes, out, taken, filled, at)
    )
}

// The verdict on an encoding, as `bw_feed_finish` returns it.
fn finished(check: &Checking, rest: &[u8], at: &mut u64) -> u32
    ensures accepted { result ≡ 0 → OfTaken (λ task taken. IsAcceptedAs task (taken ++ rest.now)) check.now }
    ensures fault { result ≢ 0 → result < 506 → OfTaken (λ task taken. IsTextRefused task (taken ++ rest.now) result at.new) check.now }
    ensures size { result ≡ 1212 ↔ (¬ IsBelowNode rest.now check.now) }
    ensures status { 505 < result → result ≡ 1212 }
{
    if check.wants().is_some_and(|size| rest.len() >= size) {
        return OTHER_SIZE;
    }
    match check.finish(rest) {
        Ok(()) => 0,
        Err(fault) => told(&fault, at),
    }
}

/// Returns the verdict on the encoding that consists of the bytes accepted so far and then `rest`: what
/// `bw_check` would return for it.
#[unsafe(no_mangle)]
pub extern "C" fn bw_feed_finish(
    alloc: Global,
    feed: &mut BwHandle,
    rest: &[u8],
    at: &mut u64,
) -> u32
    ensures accepted { result ≡ 0 → HasFeed (OfTaken (λ task taken. IsAcceptedAs task (taken ++ rest.now))) feed.old.held }
    ensures fault { result ≢ 0 → result < 506 → HasFeed (OfTaken (λ task taken. IsTextRefused task (taken ++ rest.now) result at.new)) feed.old.held }
    ensures size { result ≡ 1212 ↔ HasFeed (λ check. ¬ IsBelowNode rest.now check) feed.old.held }
    ensures no_feed { result ≡ 1202 ↔ (¬ HasFeed (λ _. Unit) feed.old.held) }
    ensures status { 505 < result → result ≢ 1202 → result ≡ 1212 }
    ensures same { feed.new.held ≡ feed.old.held }
{
    with_held!(feed, alloc, Feed, |check| finished(check, rest, at))
}
