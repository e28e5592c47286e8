ghost use Rattle.std.specs.Prelude.{◌≡◌, ℕ, ◌+◌, ◌-◌, ◌*◌, ◌%◌, ◌^◌, ◌<◌, ◌≤◌, ◌⊎◌, List, length, vec_len, min, IfErr, IfOk, IsErrOf, MatchResult, OnOk, Some, slice_get};
ghost use Rattle.std.specs.Io.KnownBytes.{Keeps};
ghost use Rattle.std.specs.Thread.{IsSync};
ghost use Rattle.bao_text.specs.Choice.{chunk_count};
ghost use Rattle.bao_text.specs.Texts.{combined_text};
ghost use Rattle.holders.specs.Available.{HaveSlices};
ghost use Rattle.bao_windows.specs.declared.fault.GatherFault.TheVariants as GatherFault;
ghost use Rattle.holders.specs.Forms.{AreSlices, IsLengthOf};
ghost use Rattle.holders.specs.Blobs.{HasCollision, IsOfNone};
ghost use Rattle.holders.specs.Lists.{source_gives};
ghost use Rattle.holders.specs.Blobs.{IsBlob};
ghost use Rattle.bao_windows.specs.declared.fault.WindowsFault.TheVariants as WindowsFault;
ghost use Rattle.bao_windows.specs.Available.{HasNoEnd, IsFilled, IsMissing};
ghost use Rattle.bao_windows.specs.Copies.{HaveCopies, IsOwn};
ghost use Rattle.bao_windows.specs.Windows.{AreOfWindow, AreValued, IsFrom, IsLengthOfEach, fixed_for};
ghost use Rattle.bao_windows.specs.Written.{AreNext, AreTooLong, HasTakenTo, IsBegun, IsOfWindow, IsOfWindows, IsOfWriting, IsPut, IsWrittenOut, WroteAll, WroteBlob, WroteOf};

use crate::fault::{GatherFault, WindowsFault};
use crate::length::certified_length;
use crate::output::put_window;
use crate::wanted::Wanted;
use crate::window::{Slot, fill_window, new_window};
use b3par::Source;
use b3tree::Hasher;
use bao_check::GROUP_BYTES;
use bao_text::chunk_count;
use std::alloc::Global;
use std::io::Write;
use std::mem::swap;
use std::thread::{Threads, join_mut};

// Takes a window that is whole, and begins with byte `at`, into the hash and writes it, while another thread fills the next one, where the
// blob goes on, and answers where it ends.
fn write_window<R: Threads + Sync, S: Source + Sync, W: Write>(
    rt: &R,
    alloc: Global,
    wanted: &Wanted<'_>,
    workers: u32,
    sources: &[S],
    total: u64,
    at: u64,
    window: &[Slot],
    next: &mut [Slot],
    hasher: &mut Hasher,
    out: &mut W,
) -> Result<u64, WindowsFault>
    requires aligned { at % 65536 ≡ 0 }
    requires below { at < total }
    requires taken { HasTakenTo wanted.now.mode total at hasher.old }
    requires whole { AreOfWindow (IsFrom wanted.now S.contents S.faultless sources.now) (fixed_for wanted.now) at total window.now }
    ensures next { IfOk result (λ end. end ≡ at + min (65536 * length window.now) (total - at)) }
    ensures whole { IfOk result (λ end. end < total → AreOfWindow (IsFrom wanted.now S.contents S.faultless sources.now) (fixed_for wanted.now) end total next.new) }
    ensures wrote { IfOk result (λ end. WroteOf (IsFrom wanted.now S.contents S.faultless sources.now) (fixed_for wanted.now) total at (end - at) (W.contents out.old) (W.contents out.new) hasher.old hasher.new) }
    ensures begun { IsBegun (IsFrom wanted.now S.contents S.faultless sources.now) (fixed_for wanted.now) at (W.contents out.old) (W.contents out.new) }
    ensures fault { IfErr result IsOfWindow }
    ensures missing { IsErrOf result (WindowsFault.Gather GatherFault.Unfinished) → IsMissing S.contents S.faultless wanted.now sources.now total }
{
    let count = GROUP_BYTES.saturating_mul(window.len() as u64);
    let end = at + count.min(total - at);
    if end >= total {
        return match put_window(window, hasher, out) {
            Ok(()) => Ok(end),
            Err(fault) => Err(fault),
        };
    }
    // The thread that writes needs a processor, too. Three workers keep up with it.
    let workers = if workers > 3 { workers - 1 } else { workers };
    let (filled, put) = join_mut(
        rt,
        &mut || -> Result<(), GatherFault>
            requires { IsSync R.row × IsSync S.row × (end % 65536 ≡ 0) × (end ≤ total) }
            ensures { IsFilled S.contents S.faultless wanted.entry.now sources.entry.now end total next.entry.now next.exit.now result }
        { fill_window(rt, alloc, wanted, workers, sources, end, total, next) },
        &mut || -> Result<(), WindowsFault>
            requires { AreNext (AreValued window.now) hasher.now }
            ensures { IsPut window.entry.now (W.contents out.entry.now) (W.contents out.exit.now) hasher.entry.now hasher.exit.now result }
        { put_window(window, hasher, out) },
    );
    match put {
        Ok(()) => {}
        Err(fault) => return Err(fault),
    }
    match filled {
        Ok(()) => Ok(end),
        Err(fault) => Err(WindowsFault::Gather(fault)),
    }
}

// Writes all windows of a blob of `total` bytes in their order, by two rooms for a window in turn, and then compares the hash of what was
// written with the root.
fn write_all<R: Threads + Sync, S: Source + Sync, W: Write>(
    rt: &R,
    alloc: Global,
    wanted: &Wanted<'_>,
    workers: u32,
    sources: &[S],
    total: u64,
    mut window: Vec<Slot>,
    mut next: Vec<Slot>,
    out: &mut W,
) -> Result<(), WindowsFault>
    requires some { 0 < vec_len window }
    requires more { 0 < vec_len next }
    ensures blob { OnOk result (WroteAll (IsFrom wanted.now S.contents S.faultless sources.now) wanted.now total (W.contents out.old) (W.contents out.new)) }
    ensures begun { IsBegun (IsFrom wanted.now S.contents S.faultless sources.now) (fixed_for wanted.now) 0 (W.contents out.old) (W.contents out.new) }
    ensures none { IsErrOf result (WindowsFault.Gather GatherFault.NotTheRoot) → IsLengthOfEach (IsFrom wanted.now S.contents S.faultless sources.now) (fixed_for wanted.now) total
        → IsOfNone (IsFrom wanted.now S.contents S.faultless sources.now) (fixed_for wanted.now) }
    ensures missing { IsErrOf result (WindowsFault.Gather GatherFault.Unfinished) → IsMissing S.contents S.faultless wanted.now sources.now total }
    ensures fault { IfErr result IsOfWriting }
{
    match fill_window(
        rt,
        alloc,
        wanted,
        workers,
        sources,
        0,
        total,
        window.as_mut_slice(),
    ) {
        Ok(()) => {}
        Err(fault) => return Err(WindowsFault::Gather(fault)),
    }
    let mut hasher = Hasher::new(&wanted.mode);
    let mut at: u64 = 0;
    'windows: while at < total {
        match write_window(
            rt,
            alloc,
            wanted,
            workers,
            sources,
            total,
            at,
            window.as_slice(),
            next.as_mut_slice(),
            &mut hasher,
            out,
        ) {
            Ok(end) => {
                swap(&mut window, &mut next);
                at = end;
            }
            Err(fault) => return Err(fault),
        }
    }
    if hasher.finalize() != wanted.root {
        return Err(WindowsFault::Gather(GatherFault::NotTheRoot));
    }
    Ok(())
}

/// Gathers the blob with this root, of any length, from untrusted sources that are read by position, such as
/// files; writes it to `out`, which is flushed; and returns its length in bytes.
///
/// The length is certified first, as `certified_length` says. Then the blob is gathered in windows of 4,096
/// chunks. The workers, 1 to 64, fill a window, each with consecutive groups of 64 chunks. A group is asked of
/// each source at most once, until one has all of its chunks; with `Grain::Chunk` each chunk of a group that no
/// source has as a whole is then asked for separately. Beside an outboard encoding, sources are asked for
/// exactly the bytes of the chunks. A source whose read fails supplies nothing then. A byte is used only from a
/// slice that is accepted under the root in the mode. A complete window is written by the calling thread, in place
/// of one of four or more workers, while the next is filled, so the memory is that of two windows and of what the
/// workers fetch, whatever the blob's length.
///
/// Refuses with 901 `Unfinished` if no source has the last chunk, or none has some group (or, if chunks are
/// asked for, some chunk of it), or if the outboard encoding is of another root or mode; with 805 `TooLarge` if
/// the blob has more chunks than `capacity`, before anything is written; with 902 `NotTheRoot` if the hash of
/// what was written isn't the root; with 903 `Memory` if there is none for a window, and with 911 `Starved` if
/// there is none for what a source supplies; and with `Write` if writing fails. There are no other refusals.
///
/// Whatever the result, each byte written is, at its offset, in a chunk of a slice that came from a source and is
/// accepted under the root, even if no blob has this root. The bytes written are the beginning of every blob with
/// the root; at 805 every such blob has more chunks than the capacity, and at 902 there is none. Or a collision is
/// exhibited: two different inputs with the same chaining value, one from the blob and one from such a slice.
///
/// It suffices that one source never fails, that its bytes are known, and that they are the combined encoding
/// of a blob with the root of at most `capacity` chunks. The blob is then written, unless memory is refused,
/// writing fails or a collision is exhibited. If none is complete, it suffices that what some source supplies
/// as the slice of the last byte is known to be the blob's, and so for each group, or with `Grain::Chunk` each
/// chunk.
///
/// The same holds for plain copies beside the blob's own outboard encoding: for one that never fails and is the
/// blob, or if what some source supplies as the last chunk's bytes is known to be the blob's, and so for each
/// group, or with `Grain::Chunk` each chunk. An outboard encoding that is accepted under the root and claims
/// the blob's length is its own, or a collision is exhibited ([`outline_binds`](crate::outline_binds)).
pub fn write_windows<R: AllocGlobal + Threads + Sync, S: Source + Sync, W: Write>(
    rt: &R,
    wanted: &Wanted<'_>,
    workers: u32,
    capacity: u64,
    sources: &[S],
    out: &mut W,
) -> Result<u64, WindowsFault>
    ensures blob { IfOk result (WroteBlob (IsFrom wanted.now S.contents S.faultless sources.now) wanted.now capacity (W.contents out.old) (W.contents out.new)) }
    ensures begun { IsBegun (IsFrom wanted.now S.contents S.faultless sources.now) (fixed_for wanted.now) 0 (W.contents out.old) (W.contents out.new) }
    ensures fault { IfErr result IsOfWindows }
    ensures too_long { IsErrOf result (WindowsFault.Gather GatherFault.TooLarge) → AreTooLong (IsFrom wanted.now S.contents S.faultless sources.now) (fixed_for wanted.now) capacity }
    ensures kept { IsErrOf result (WindowsFault.Gather GatherFault.TooLarge) → Keeps (W.contents out.old) (W.contents out.new) }
    ensures none { IsErrOf result (WindowsFault.Gather GatherFault.NotTheRoot) → IsOfNone (IsFrom wanted.now S.contents S.faultless sources.now) (fixed_for wanted.now) }
    ensures missing { IsErrOf result (WindowsFault.Gather GatherFault.Unfinished) → HasNoEnd S.contents S.faultless wanted.now sources.now
        ⊎ ((total : ℕ) × IsLengthOf wanted.now.form total × IsLengthOfEach (IsFrom wanted.now S.contents S.faultless sources.now) (fixed_for wanted.now) total
        × IsMissing S.contents S.faultless wanted.now sources.now total) }
    ensures covered { AreSlices wanted.now.form → (blob : List ℕ) → IsBlob (fixed_for wanted.now) blob → length blob < 2 ^ 64 → chunk_count (length blob) ≤ capacity
        → HaveSlices wanted.now.grain (source_gives S.contents S.faultless) wanted.now.mode blob sources.now
        → IsWrittenOut blob (W.contents out.old) (W.contents out.new) result ⊎ HasCollision (IsFrom wanted.now S.contents S.faultless sources.now) (fixed_for wanted.now) blob }
    ensures available { AreSlices wanted.now.form → (blob : List ℕ) (i : ℕ) (source : S) → IsBlob (fixed_for wanted.now) blob → length (combined_text wanted.now.mode blob) < 2 ^ 64
        → chunk_count (length blob) ≤ capacity → slice_get sources.now i ≡ Some source → S.contents source ≡ Some (combined_text wanted.now.mode blob) → S.faultless source
        → IsWrittenOut blob (W.contents out.old) (W.contents out.new) result ⊎ HasCollision (IsFrom wanted.now S.contents S.faultless sources.now) (fixed_for wanted.now) blob }
    ensures beside { (blob : List ℕ) → IsOwn wanted.now wanted.now.form blob → IsBlob (fixed_for wanted.now) blob → length blob < 2 ^ 64 → chunk_count (length blob) ≤ capacity
        → HaveCopies wanted.now.grain S.contents S.faultless blob sources.now
        → IsWrittenOut blob (W.contents out.old) (W.contents out.new) result ⊎ HasCollision (IsFrom wanted.now S.contents S.faultless sources.now) (fixed_for wanted.now) blob }
    ensures copied { (blob : List ℕ) (i : ℕ) (source : S) → IsOwn wanted.now wanted.now.form blob → IsBlob (fixed_for wanted.now) blob → length blob < 2 ^ 64
        → chunk_count (length blob) ≤ capacity → slice_get sources.now i ≡ Some source → S.contents source ≡ Some blob → S.faultless source
        → IsWrittenOut blob (W.contents out.old) (W.contents out.new) result ⊎ HasCollision (IsFrom wanted.now S.contents S.faultless sources.now) (fixed_for wanted.now) blob }
{
    // For the prover alone: the flags of a mode are apart from the tree's.
    wanted.mode.is_keyed();
    let alloc = rt.alloc();
    let total = match certified_length(alloc, wanted, sources) {
        Ok(total) => total,
        Err(missing) => return Err(WindowsFault::Gather(missing)),
    };
    if chunk_count(total) > capacity {
        return Err(WindowsFault::Gather(GatherFault::TooLarge));
    }
    let Ok(window) = new_window(alloc, total) else {
        return Err(WindowsFault::Gather(GatherFault::Memory));
    };
    let Ok(next) = new_window(alloc, total) else {
        return Err(WindowsFault::Gather(GatherFault::Memory));
    };
    match write_all(
        rt, alloc, wanted, workers, sources, total, window, next, out,
    ) {
        Ok(()) => {}
        Err(fault) => return Err(fault),
    }
    match out.flush() {
        Ok(()) => Ok(total),
        Err(_) => Err(WindowsFault::Write),
    }
}
