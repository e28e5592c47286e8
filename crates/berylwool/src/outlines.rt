ghost use Rattle.std.specs.Prelude.{◌≡◌, ◌≢◌, ◌↔◌, ◌⊎◌, ◌-◌, ◌*◌, ◌^◌, ◌<◌, ◌≤◌, ◌++◌, drop, length, min, None, IfOk};
ghost use Rattle.bao_check.specs.Accepted.{IsAccepted, outboard_nodes, slice_nodes};
ghost use Rattle.bao_check.specs.Bare.{bare_part};
ghost use Rattle.bao_text.specs.Cut.{claimed};
ghost use Rattle.berylwool.specs.Handles.{HasOutline};
ghost use Rattle.berylwool.specs.Modes.{IsKnown, mode_of};
ghost use Rattle.berylwool.specs.Outlines.{AreBeside, AreNotBeside, HasChunks, IsOutlined, bare_text, outlined_mode, outlined_root, outlined_text};
ghost use Rattle.berylwool.specs.Status.{IsRefused};

use crate::checking::told;
use crate::handle::{BwHandle, put, take, with_held};
use crate::mode::BwMode;
use crate::outlined::Outlined;
use crate::owned::Held;
use crate::room;
use crate::slicing::slice_beside;
use crate::status::{NO_CHUNKS, NO_MEMORY, NO_MODE, ROOM, TEXT_MEMORY};
use crate::writing::fits;
use b3tree::Hash;
use bao_check::{bare_fits, check_bare, check_outboard};
use std::alloc::{AllocError, Global};
use std::sync::Arc;

// A copy of bytes.
fn copy(alloc: Global, bytes: &[u8]) -> Result<Vec<u8>, AllocError>
    ensures { IfOk result (λ text. text.items ≡ bytes.now) }
{
    let mut text = Vec::with_capacity(alloc, bytes.len())?;
    text.extend_from_slice(bytes)?;
    Ok(text)
}

// Makes an empty handle own an outline.
fn put_outline(alloc: Global, it: Outlined, outline: &mut BwHandle) -> u32
    requires { outline.old.held ≡ None }
    ensures made { result ≡ 0 → HasOutline (λ its. its ≡ it) outline.new.held }
    ensures status { result ≢ 0 → result ≡ 1203 }
    ensures empty { result ≢ 0 → outline.new.held ≡ None }
{
    let Ok(shared) = Arc::new(alloc, it) else {
        return NO_MEMORY;
    };
    match Box::new(alloc, Held::Outline(shared)) {
        Ok(held) => {
            put(outline, held);
            0
        }
        Err(_) => NO_MEMORY,
    }
}

/// Checks `outboard` as the outboard encoding of the blob with the hash `root`, and makes an outline of a copy
/// of it.
#[unsafe(no_mangle)]
pub extern "C" fn bw_outline_new(
    alloc: Global,
    mode: &BwMode,
    root: &[u8; 32],
    outboard: &[u8],
    outline: &mut BwHandle,
    at: &mut u64,
) -> u32
    ensures made { result ≡ 0 → HasOutline (IsOutlined (mode_of mode.now) root.now outboard.now) outline.new.held }
    ensures unknown { result ≡ 1213 ↔ (¬ IsKnown mode.now) }
    ensures accepted { ((result ≡ 0) ⊎ (result ≡ 1203)) ↔ (IsKnown mode.now × IsAccepted (mode_of mode.now) root.now outboard.now (outboard_nodes outboard.now)) }
    ensures fault { result ≢ 0 → result ≢ 1203 → result ≢ 1213 → IsRefused (mode_of mode.now) root.now outboard.now (outboard_nodes outboard.now) result at.new }
    ensures empty { result ≢ 0 → outline.new.held ≡ None }
{
    let _old = take(outline, alloc);
    if !mode.is_known() {
        return NO_MODE;
    }
    let mode = mode.get();
    if let Err(fault) = check_outboard(alloc, &mode, &Hash(*root), outboard) {
        return told(&fault, at);
    }
    match copy(alloc, outboard) {
        Ok(text) => put_outline(alloc, Outlined::new(mode, Hash(*root), text), outline),
        Err(_) => NO_MEMORY,
    }
}

/// Makes `other` a second handle of the same outline, which isn't copied and is freed with its last handle.
#[unsafe(no_mangle)]
pub extern "C" fn bw_outline_share(
    alloc: Global,
    outline: &mut BwHandle,
    other: &mut BwHandle,
) -> u32
    ensures shared { result ≡ 0 → HasOutline (λ it. HasOutline (λ its. its ≡ it) other.new.held) outline.old.held }
    ensures no_outline { result ≡ 1202 ↔ (¬ HasOutline (λ _. Unit) outline.old.held) }
    ensures status { result ≢ 0 → result ≢ 1202 → result ≡ 1203 }
    ensures same { outline.new.held ≡ outline.old.held }
    ensures empty { result ≢ 0 → other.new.held ≡ None }
{
    let _old = take(other, alloc);
    with_held!(outline, alloc, Outline, |it| match Arc::try_clone(it) {
        Ok(again) => match Box::new(alloc, Held::Outline(again)) {
            Ok(made) => {
                put(other, made);
                0
            }
            Err(_) => NO_MEMORY,
        },
        Err(_) => NO_MEMORY,
    })
}

/// Returns in `len` the blob's length that an outline claims.
#[unsafe(no_mangle)]
pub extern "C" fn bw_outline_length(alloc: Global, outline: &mut BwHandle, len: &mut u64) -> u32
    ensures value { result ≡ 0 → HasOutline (λ it. len.new ≡ claimed (outlined_text it)) outline.old.held }
    ensures has { result ≡ 0 ↔ HasOutline (λ _. Unit) outline.old.held }
    ensures status { result ≢ 0 → result ≡ 1202 }
    ensures same { outline.new.held ≡ outline.old.held }
    ensures no_length { result ≢ 0 → len.new ≡ len.old }
{
    with_held!(outline, alloc, Outline, |it| {
        *len = it.claimed();
        0
    })
}

/// The `count` chunks of a blob from chunk `first` on, as C names them.
#[repr(C)]
#[derive(Clone, Copy)]
pub struct BwChunks {
    pub first: u64,
    pub count: u64,
}

// Checks chunks beside an outline, as `bw_outline_check` does.
fn checked(it: &Outlined, first: u64, count: u64, chunks: &[u8], at: &mut u64) -> u32
    ensures accepted { result ≡ 0 ↔ AreBeside first count chunks.now it.now }
    ensures chunks { result ≡ 1210 ↔ (¬ HasChunks (outlined_text it.now) first count) }
    ensures status { 505 < result → result ≡ 1210 }
    ensures fault { result ≢ 0 → result < 506 → AreNotBeside first count chunks.now result at.new it.now }
{
    let outline = it.outline();
    if !bare_fits(&outline, first, count) {
        return NO_CHUNKS;
    }
    match check_bare(&outline, first, count, chunks) {
        Ok(_) => 0,
        Err(fault) => told(&fault, at),
    }
}

/// Checks `chunks` as those chunks of the blob that `which` names.
#[unsafe(no_mangle)]
pub extern "C" fn bw_outline_check(
    alloc: Global,
    outline: &mut BwHandle,
    which: &BwChunks,
    chunks: &[u8],
    at: &mut u64,
) -> u32
    ensures accepted { result ≡ 0 ↔ HasOutline (AreBeside which.now.first which.now.count chunks.now) outline.old.held }
    ensures chunks { result ≡ 1210 ↔ HasOutline (λ it. ¬ HasChunks (outlined_text it) which.now.first which.now.count) outline.old.held }
    ensures no_outline { result ≡ 1202 ↔ (¬ HasOutline (λ _. Unit) outline.old.held) }
    ensures status { 505 < result → result ≢ 1202 → result ≡ 1210 }
    ensures fault { result ≢ 0 → result < 506 → HasOutline (AreNotBeside which.now.first which.now.count chunks.now result at.new) outline.old.held }
    ensures same { outline.new.held ≡ outline.old.held }
{
    with_held!(
        outline,
        alloc,
        Outline,
        |it| checked(it, which.first, which.count, chunks, at)
    )
}

// Writes the slice of chunks beside an outline, as `bw_outline_slice` does.
fn sliced(
    alloc: Global,
    it: &Outlined,
    first: u64,
    count: u64,
    chunks: &[u8],
    out: &mut [u8],
    used: &mut usize,
    at: &mut u64,
) -> u32
    ensures text { result ≡ 0 → out.new ≡ bare_text (outlined_text it.now) first count chunks.now ++ drop used.new out.old }
    ensures used { result ≡ 0 → used.new ≡ length (bare_text (outlined_text it.now) first count chunks.now) }
    ensures slice { result ≡ 0 → IsAccepted (outlined_mode it.now) (outlined_root it.now) (bare_text (outlined_text it.now) first count chunks.now)
        (slice_nodes (bare_text (outlined_text it.now) first count chunks.now) (1024 * first) (bare_part count)) }
    ensures accepted { ((result ≡ 0) ⊎ (result ≡ 401) ⊎ (result ≡ 1201)) ↔ AreBeside first count chunks.now it.now }
    ensures room { result ≡ 1201 → length out.old < length (bare_text (outlined_text it.now) first count chunks.now) }
    ensures fits { ((result ≡ 0) ⊎ (result ≡ 401)) → length (bare_text (outlined_text it.now) first count chunks.now) ≤ length out.old }
    ensures needed { result ≡ 1201 → used.new ≡ min (length (bare_text (outlined_text it.now) first count chunks.now)) (2 ^ 64 - 1) }
    ensures chunks { result ≡ 1210 ↔ (¬ HasChunks (outlined_text it.now) first count) }
    ensures status { 505 < result → result ≢ 1201 → result ≡ 1210 }
    ensures fault { 401 < result → result < 506 → AreNotBeside first count chunks.now result at.new it.now }
    ensures low { result ≢ 0 → 400 < result }
    ensures same { result ≢ 0 → out.new ≡ out.old }
{
    let outline = it.outline();
    if !bare_fits(&outline, first, count) {
        return NO_CHUNKS;
    }
    let piece = match check_bare(&outline, first, count, chunks) {
        Ok(piece) => piece,
        Err(fault) => return told(&fault, at),
    };
    if !fits(piece.text_len(), out, used) {
        return ROOM;
    }
    let Ok(text) = slice_beside(alloc, it, first, count, chunks) else {
        return TEXT_MEMORY;
    };
    *used = text.len();
    if !room::put(text.as_slice(), out) {
        // The buffer is as long as the encoding.
        unreachable!();
    }
    0
}

/// Checks `chunks` as `bw_outline_check` does, and writes their slice (1,024 * `first`, 1,024 * `count`) to the
/// front of `out`, with its length in `used`.
#[unsafe(no_mangle)]
pub extern "C" fn bw_outline_slice(
    alloc: Global,
    outline: &mut BwHandle,
    which: &BwChunks,
    chunks: &[u8],
    out: &mut [u8],
    used: &mut usize,
    at: &mut u64,
) -> u32
    ensures text { result ≡ 0 → HasOutline (λ it. out.new ≡ bare_text (outlined_text it) which.now.first which.now.count chunks.now ++ drop used.new out.old) outline.old.held }
    ensures used { result ≡ 0 → HasOutline (λ it. used.new ≡ length (bare_text (outlined_text it) which.now.first which.now.count chunks.now)) outline.old.held }
    ensures slice { result ≡ 0 → HasOutline (λ it. IsAccepted (outlined_mode it) (outlined_root it) (bare_text (outlined_text it) which.now.first which.now.count chunks.now)
        (slice_nodes (bare_text (outlined_text it) which.now.first which.now.count chunks.now) (1024 * which.now.first) (bare_part which.now.count))) outline.old.held }
    ensures accepted { ((result ≡ 0) ⊎ (result ≡ 401) ⊎ (result ≡ 1201)) ↔ HasOutline (AreBeside which.now.first which.now.count chunks.now) outline.old.held }
    ensures room { result ≡ 1201 → HasOutline (λ it. length out.old < length (bare_text (outlined_text it) which.now.first which.now.count chunks.now)) outline.old.held }
    ensures fits { ((result ≡ 0) ⊎ (result ≡ 401)) → HasOutline (λ it. length (bare_text (outlined_text it) which.now.first which.now.count chunks.now) ≤ length out.old) outline.old.held }
    ensures needed { result ≡ 1201 → HasOutline (λ it. used.new ≡ min (length (bare_text (outlined_text it) which.now.first which.now.count chunks.now)) (2 ^ 64 - 1)) outline.old.held }
    ensures chunks { result ≡ 1210 ↔ HasOutline (λ it. ¬ HasChunks (outlined_text it) which.now.first which.now.count) outline.old.held }
    ensures no_outline { result ≡ 1202 ↔ (¬ HasOutline (λ _. Unit) outline.old.held) }
    ensures status { 505 < result → result ≢ 1201 → result ≢ 1202 → result ≡ 1210 }
    ensures fault { 401 < result → result < 506 → HasOutline (AreNotBeside which.now.first which.now.count chunks.now result at.new) outline.old.held }
    ensures same { result ≢ 0 → out.new ≡ out.old }
    ensures kept { outline.new.held ≡ outline.old.held }
{
    with_held!(
        outline,
        alloc,
        Outline,
        |it| sliced(alloc, it, which.first, which.count, chunks, out, used, at)
    )
}
