ghost use Rattle.std.specs.Prelude.{◌≡◌, ◌⊎◌, ℕ, ◌+◌, ◌-◌, ◌*◌, ◌/◌, ◌%◌, ◌<◌, ◌≤◌, min, length, vec_len, false, true, None, Ok, Some, IfErr, IfOk, IfSome, IsErrOf, OnOk, slice_index_or};
ghost use Rattle.b3tree.specs.Tree.{subtree_cv};
ghost use Rattle.bao_windows.specs.declared.fault.GatherFault.TheVariants.{Starved, Unfinished};
ghost use Rattle.bao_windows.specs.Available.{IsFilled, IsTried};
ghost use Rattle.bao_windows.specs.Windows.{HasFault, IsValue};

use crate::appending::CHUNK_BYTES;
use crate::fault::GatherFault;
use crate::group::take_group;
use crate::wanted::Wanted;
use b3par::Source;
use b3tree::{Cv, Mode, subtree_cv};
use bao_check::GROUP_BYTES;
use holders::ByteRange;
use std::alloc::{AllocError, Global};
use std::thread::{Threads, for_each_mut};

// How many groups of 64 chunks a window has: 4,096 chunks, 4 MiB.
const WINDOW_GROUPS: usize = 64;

// The room for one group of a window, and what is kept of it from window to window.
#[derive(Drop)]
pub(crate) struct Slot {
    pub(crate) bytes: Vec<u8>,
    // The chaining value of the group, unless the blob ends with it.
    pub(crate) value: Option<Cv>,
    // The source that had a part last.
    pub(crate) last: usize,
    // Why the group isn't whole.
    fault: Option<GatherFault>,
}

// An empty window for a blob of `total` bytes: at least one slot, at most 64, and no more than the blob has groups.
pub(crate) fn new_window(alloc: Global, total: u64) -> Result<Vec<Slot>, AllocError>
    ensures { IfOk result (λ window. 0 < vec_len window) }
{
    let count = total.div_ceil(GROUP_BYTES).clamp(1, WINDOW_GROUPS as u64) as usize;
    let len = GROUP_BYTES.min(total) as usize;
    let mut window = Vec::with_capacity(alloc, count)?;
    'slots: while window.len() < count {
        window.push(Slot {
            bytes: Vec::with_capacity(alloc, len)?,
            value: None,
            last: 0,
            fault: None,
        })?;
    }
    Ok(window)
}

// Why a group isn't whole, if it isn't, of which all chunks were taken, or not.
fn fault_of(taken: Result<bool, AllocError>) -> Option<GatherFault>
    ensures none { result ≡ None → taken ≡ Ok true }
    ensures unfinished { result ≡ Some Unfinished → taken ≡ Ok false }
    ensures fault { IfSome result (λ fault. (fault ≡ Unfinished) ⊎ (fault ≡ Starved)) }
{
    match taken {
        Ok(true) => None,
        Ok(false) => Some(GatherFault::Unfinished),
        Err(_) => Some(GatherFault::Starved),
    }
}

// The chaining value of the group of these bytes, which begins at byte `at`, unless the blob, of `total` bytes, ends with it. It is made of
// the bytes, where none came with them.
fn value_of(mode: &Mode, at: u64, total: u64, came: Option<Cv>, bytes: &[u8]) -> Option<Cv>
    requires { at ≤ total }
    ensures { IfSome came (λ value. value.0 ≡ subtree_cv mode.now (at / 1024) bytes.now) → length bytes.now ≡ min 65536 (total - at) → IsValue mode.now at total bytes.now result }
{
    if total - at <= GROUP_BYTES || bytes.len() as u64 != GROUP_BYTES {
        return None;
    }
    match came {
        Some(value) => Some(value),
        None => Some(subtree_cv(mode, at / CHUNK_BYTES, bytes)),
    }
}

// Fills the slot with this number of a window that begins with byte `start` of a blob of `total` bytes.
fn fill_slot<S: Source>(
    alloc: Global,
    wanted: &Wanted<'_>,
    sources: &[S],
    start: u64,
    total: u64,
    number: usize,
    slot: &mut Slot,
)
    requires aligned { start % 65536 ≡ 0 }
    requires within { start ≤ total }
    ensures { IsTried S.contents S.faultless wanted.now sources.now start total number slot.new }
{
    slot.bytes.clear();
    slot.value = None;
    slot.fault = None;
    let before = GROUP_BYTES.saturating_mul(number as u64);
    if before >= total - start {
        return;
    }
    let at = start + before;
    let part = ByteRange {
        start: at,
        len: GROUP_BYTES.min(total - at),
    };
    let mut room = Vec::new(alloc);
    slot.fault = fault_of(take_group(alloc, wanted, sources, part, slot, &mut room));
    slot.value = value_of(&wanted.mode, at, total, slot.value, slot.bytes.as_slice());
}

// The first fault of a window's slots.
fn first_fault(window: &[Slot]) -> Result<(), GatherFault>
    ensures none { OnOk result ((i : ℕ) (d : Slot) → i < length window.now → (slice_index_or window.now i d).fault ≡ None) }
    ensures some { IfErr result (HasFault window.now) }
{
    for slot in window {
        if let Some(fault) = slot.fault {
            return Err(fault);
        }
    }
    Ok(())
}

// Fills a window with the bytes of the blob from byte `start` on, as far as it has slots and the blob, of `total` bytes, goes.
//
// So many workers, at least 1 and at most 64, take the window's groups, each as many in a row. A group is asked of the sources, of each at
// most once, first of the one that had the slot's group in the window before, until one has all of its chunks; with `Grain::Chunk`
// each chunk of a group that none has whole is then asked for by itself. A source of which a read answers a fault has nothing then. What
// a source has is accepted under the root, in the mode, before a byte of it is taken.
//
// Each byte is that of each blob with the root at its place, or a collision is exhibited, two different inputs with one chaining value, one
// of the blob's and one of a slice's that is accepted under the root and came from one of the sources.
//
// 901 `Unfinished` where no source has some group, nor, where chunks are asked for, some chunk of it; and 911 `Starved` where there is no
// memory for what one gives.
pub(crate) fn fill_window<R: Threads + Sync, S: Source + Sync>(
    rt: &R,
    alloc: Global,
    wanted: &Wanted<'_>,
    workers: u32,
    sources: &[S],
    start: u64,
    total: u64,
    window: &mut [Slot],
) -> Result<(), GatherFault>
    requires aligned { start % 65536 ≡ 0 }
    requires within { start ≤ total }
    ensures { IsFilled S.contents S.faultless wanted.now sources.now start total window.old window.new result }
{
    for_each_mut(
        rt,
        window,
        workers.clamp(1, 64) as usize,
        &|number, slot| { fill_slot(alloc, wanted, sources, start, total, number, slot) },
    );
    first_fault(window)
}
