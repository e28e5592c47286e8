ghost use Rattle.std.specs.Prelude.{◌≡◌, ◌≢◌, ◌↔◌, ◌⊎◌, ◌<◌, IsTrue};
ghost use Rattle.gather.specs.SeatLasting.{RecordsOn};
ghost use Rattle.holders.specs.Room.{groups};
ghost use Rattle.store_core.specs.Masks.{IsMaskOf};
ghost use Rattle.holders.specs.Pieces.{holds_chunk, length_of, piece_of};
ghost use Rattle.store_core.specs.Stores.{IsOf};
ghost use Rattle.store_shared.specs.Seats.{IsGroupOf, IsSeatOf, fixed_of};
ghost use Rattle.berylwool.specs.Calls.{IsNoSliceOf, IsSliceOf, slice_piece};
ghost use Rattle.berylwool.specs.Handles.{HasOutline, HasSeat, SeatDid};
ghost use Rattle.berylwool.specs.Outlines.{AreBeside, AreNotBeside, HasChunks, IsOfStore, bare_piece, outlined_text};
ghost use Rattle.berylwool.specs.Storing.{CommitsGroup, EachGroup, IsOfOther, StoresAll, StoresGroup};

use crate::checking::told;
use crate::handle::{BwHandle, put, take, with_held};
use crate::joining::fixed;
use crate::outlined::Outlined;
use crate::outlines::BwChunks;
use crate::owned::Held;
use crate::status::{NO_CHUNKS, NO_HANDLE, OTHER_LENGTH, OTHER_ROOT};
use bao_check::{Checked, bare_fits, check_bare, check_slice};
use std::alloc::Global;
use store_core::mask_below;
use store_shared::{Assembly, Seat};

// The mask of the group's chunks that the slice has, in a store from chunk `base` of the blob on.
fn chunks_in(base: u64, group: u32, piece: &Checked<'_>) -> u64
    ensures { IsMaskOf group result (λ c. holds_chunk (piece_of base piece.now) c) }
{
    let (first, after) = piece.chunks();
    let before = mask_below(group, first.saturating_sub(base));
    let until = mask_below(group, after.saturating_sub(base));
    until & !before
}

// Claims those chunks of a group that the slice has and that are free, stores those that the seat then claims,
// and returns how many.
fn commit_group(store: &Assembly, seat: &mut Seat, group: u32, piece: &Checked<'_>) -> u32
    requires seat { IsSeatOf store.now seat.old }
    requires piece { IsOf (fixed_of store.now) piece.now }
    requires group { IsGroupOf store.now group }
    ensures of { IsSeatOf store.now seat.new }
    ensures commits { CommitsGroup (fixed_of store.now) (piece_of (fixed_of store.now).base piece.now) group result seat.old.view seat.new.view }
    ensures records { RecordsOn seat.old (length_of (piece_of (fixed_of store.now).base piece.now)) → RecordsOn seat.new (length_of (piece_of (fixed_of store.now).base piece.now)) }
{
    let want = chunks_in(store.base(), group, piece);
    if want == 0 {
        return 0;
    }
    let Ok(_granted) = store.take(seat, group, want) else {
        unreachable!();
    };
    let Ok(mask) = store.commit(seat, group, piece) else {
        unreachable!();
    };
    mask.count_ones()
}

// Does the same for each group, in order.
pub(crate) fn commit_groups(store: &Assembly, seat: &mut Seat, piece: &Checked<'_>) -> u64
    requires seat { IsSeatOf store.now seat.old }
    requires piece { IsOf (fixed_of store.now) piece.now }
    ensures of { IsSeatOf store.now seat.new }
    ensures commits { EachGroup (CommitsGroup (fixed_of store.now) (piece_of (fixed_of store.now).base piece.now)) (groups (fixed_of store.now)) result seat.old.view seat.new.view }
    ensures records { RecordsOn seat.old (length_of (piece_of (fixed_of store.now).base piece.now)) → RecordsOn seat.new (length_of (piece_of (fixed_of store.now).base piece.now)) }
{
    let mut count = 0;
    for group in 0..store.groups() {
        count += u64::from(commit_group(store, seat, group, piece));
    }
    count
}

// Stores the parents that the slice has at a group's boundaries, and returns how many.
fn store_group(store: &Assembly, seat: &mut Seat, group: u32, piece: &Checked<'_>) -> u32
    requires seat { IsSeatOf store.now seat.old }
    requires piece { IsOf (fixed_of store.now) piece.now }
    requires records { RecordsOn seat.old (length_of (piece_of (fixed_of store.now).base piece.now)) }
    ensures of { IsSeatOf store.now seat.new }
    ensures records { RecordsOn seat.new (length_of (piece_of (fixed_of store.now).base piece.now)) }
    ensures stores { StoresGroup (piece_of (fixed_of store.now).base piece.now) group result seat.old.view seat.new.view }
{
    if piece.parents_of(u64::from(group)) == 0 {
        return 0;
    }
    let Ok(mask) = store.commit_parents(seat, group, piece) else {
        // The slice is of the store's root and mode, and of the recorded length.
        unreachable!();
    };
    mask.count_ones()
}

// Does the same for each group, in order.
fn store_groups(store: &Assembly, seat: &mut Seat, piece: &Checked<'_>) -> u64
    requires seat { IsSeatOf store.now seat.old }
    requires piece { IsOf (fixed_of store.now) piece.now }
    requires records { RecordsOn seat.old (length_of (piece_of (fixed_of store.now).base piece.now)) }
    ensures of { IsSeatOf store.now seat.new }
    ensures stores { EachGroup (StoresGroup (piece_of (fixed_of store.now).base piece.now)) (groups (fixed_of store.now)) result seat.old.view seat.new.view }
{
    let mut count = 0;
    for group in 0..store.groups() {
        count += u64::from(store_group(store, seat, group, piece));
    }
    count
}

// Stores all that a slice has, if it claims the recorded length.
fn stored_piece(
    store: &Assembly,
    seat: &mut Seat,
    piece: &Checked<'_>,
    committed: &mut u64,
    parents: &mut u64,
) -> u32
    requires seat { IsSeatOf store.now seat.old }
    requires piece { IsOf (fixed_of store.now) piece.now }
    ensures of { IsSeatOf store.now seat.new }
    ensures stores { result ≡ 0 → StoresAll (fixed_of store.now) (piece_of (fixed_of store.now).base piece.now) committed.new parents.new seat.old.view seat.new.view }
    ensures whole { result ≡ 0 → (fixed_of store.now).base ≡ 0 }
    ensures other_length { result ≡ 807 → IsOfOther (piece_of (fixed_of store.now).base piece.now) seat.old.view seat.new.view }
    ensures status { result ≢ 0 → result ≡ 807 }
{
    if store.length(seat) != Some(piece.claimed()) {
        return OTHER_LENGTH;
    }
    *committed = commit_groups(store, seat, piece);
    *parents = store_groups(store, seat, piece);
    0
}

// Stores all that an encoding has, as `bw_seat_commit` does.
fn stored_all(
    alloc: Global,
    store: &Assembly,
    seat: &mut Seat,
    start: u64,
    len: u64,
    text: &[u8],
    committed: &mut u64,
    parents: &mut u64,
    at: &mut u64,
) -> u32
    requires { IsSeatOf store.now seat.old }
    ensures of { IsSeatOf store.now seat.new }
    ensures stores { result ≡ 0 → StoresAll (fixed_of store.now) (slice_piece (fixed_of store.now).base text.now start len) committed.new parents.new seat.old.view seat.new.view }
    ensures whole { result ≡ 0 → (fixed_of store.now).base ≡ 0 }
    ensures other_length { result ≡ 807 → IsOfOther (slice_piece (fixed_of store.now).base text.now start len) seat.old.view seat.new.view }
    ensures accepted { ((result ≡ 0) ⊎ (result ≡ 807)) → IsSliceOf store.now text.now start len }
    ensures fault { result ≢ 0 → result ≢ 807 → IsNoSliceOf store.now text.now start len result at.new }
    ensures same { result ≢ 0 → result ≢ 807 → seat.new ≡ seat.old }
    ensures low { result < 808 }
{
    match check_slice(alloc, &store.mode(), &store.root(), start, len, text) {
        Ok(piece) => stored_piece(store, seat, &piece, committed, parents),
        Err(fault) => told(&fault, at),
    }
}

/// Checks `text` as the slice (`start`, `len`) under the store's root, and stores all that it has.
#[unsafe(no_mangle)]
pub extern "C" fn bw_seat_commit(
    alloc: Global,
    seat: &mut BwHandle,
    start: u64,
    len: u64,
    text: &[u8],
    committed: &mut u64,
    parents: &mut u64,
    at: &mut u64,
) -> u32
    ensures stores { result ≡ 0 → SeatDid (λ store old new. StoresAll (fixed_of store) (slice_piece (fixed_of store).base text.now start len) committed.new parents.new old.view new.view) seat.old.held seat.new.held }
    ensures whole { result ≡ 0 → HasSeat (λ store _. (fixed_of store).base ≡ 0) seat.old.held }
    ensures other_length { result ≡ 807 → SeatDid (λ store old new. IsOfOther (slice_piece (fixed_of store).base text.now start len) old.view new.view) seat.old.held seat.new.held }
    ensures accepted { ((result ≡ 0) ⊎ (result ≡ 807)) → HasSeat (λ store _. IsSliceOf store text.now start len) seat.old.held }
    ensures fault { result ≢ 0 → result ≢ 807 → result ≢ 1202 → HasSeat (λ store _. IsNoSliceOf store text.now start len result at.new) seat.old.held }
    ensures no_seat { result ≡ 1202 ↔ (¬ HasSeat (λ _ _. Unit) seat.old.held) }
    ensures same { result ≢ 0 → result ≢ 807 → seat.new.held ≡ seat.old.held }
{
    with_held!(
        seat,
        alloc,
        Seat,
        |it| stored_all(
            alloc,
            &it.store,
            &mut it.seat,
            start,
            len,
            text,
            committed,
            parents,
            at,
        )
    )
}

// Stores the chunks that an encoding has, as `bw_seat_commit_chunks` does.
fn stored_chunks(
    alloc: Global,
    store: &Assembly,
    seat: &mut Seat,
    start: u64,
    len: u64,
    text: &[u8],
    committed: &mut u64,
    at: &mut u64,
) -> u32
    requires { IsSeatOf store.now seat.old }
    ensures of { IsSeatOf store.now seat.new }
    ensures commits { result ≡ 0 → EachGroup (CommitsGroup (fixed_of store.now) (slice_piece (fixed_of store.now).base text.now start len)) (groups (fixed_of store.now)) committed.new seat.old.view seat.new.view }
    ensures accepted { result ≡ 0 ↔ IsSliceOf store.now text.now start len }
    ensures fault { result ≢ 0 → IsNoSliceOf store.now text.now start len result at.new }
    ensures same { result ≢ 0 → seat.new ≡ seat.old }
    ensures low { result < 506 }
{
    match check_slice(alloc, &store.mode(), &store.root(), start, len, text) {
        Ok(piece) => {
            *committed = commit_groups(store, seat, &piece);
            0
        }
        Err(fault) => told(&fault, at),
    }
}

/// Checks `text` as the slice (`start`, `len`) under the store's root, and stores its chunks as
/// `bw_seat_commit` does, but no parents.
#[unsafe(no_mangle)]
pub extern "C" fn bw_seat_commit_chunks(
    alloc: Global,
    seat: &mut BwHandle,
    start: u64,
    len: u64,
    text: &[u8],
    committed: &mut u64,
    at: &mut u64,
) -> u32
    ensures commits { result ≡ 0 → SeatDid (λ store old new. EachGroup (CommitsGroup (fixed_of store) (slice_piece (fixed_of store).base text.now start len)) (groups (fixed_of store)) committed.new old.view new.view) seat.old.held seat.new.held }
    ensures accepted { result ≡ 0 ↔ HasSeat (λ store _. IsSliceOf store text.now start len) seat.old.held }
    ensures fault { result ≢ 0 → result ≢ 1202 → HasSeat (λ store _. IsNoSliceOf store text.now start len result at.new) seat.old.held }
    ensures no_seat { result ≡ 1202 ↔ (¬ HasSeat (λ _ _. Unit) seat.old.held) }
    ensures same { result ≢ 0 → seat.new.held ≡ seat.old.held }
{
    with_held!(
        seat,
        alloc,
        Seat,
        |it| stored_chunks(
            alloc,
            &it.store,
            &mut it.seat,
            start,
            len,
            text,
            committed,
            at,
        )
    )
}

// The status of `$call` on the outline and the seat that two handles own, and keep; 1202 if either owns none. It is a
// macro for the reason of `with_held`.
macro_rules! with_both {
    ($outline:ident, $seat:ident, $alloc:ident, |$beside:ident, $it:ident| $call:expr) => {{
        let Some(outlined) = take($outline, $alloc) else {
            return NO_HANDLE;
        };
        let Some(mut held) = take($seat, $alloc) else {
            put($outline, outlined);
            return NO_HANDLE;
        };
        let status = match &*outlined {
            Held::Outline($beside) => match &mut *held {
                Held::Seat($it) => $call,
                Held::Hasher(_)
                | Held::Feed(_)
                | Held::Outline(_)
                | Held::Plan(_)
                | Held::Gone => NO_HANDLE,
            },
            Held::Hasher(_) | Held::Feed(_) | Held::Seat(_) | Held::Plan(_) | Held::Gone => {
                NO_HANDLE
            }
        };
        put($seat, held);
        put($outline, outlined);
        status
    }};
}

// Whether an outline is of the store's root and mode.
fn is_of_store(store: &Assembly, it: &Outlined) -> bool
    ensures { IsTrue result ↔ IsOfStore (fixed_of store.now) it.now }
{
    fixed(store).is_of(&it.root(), &it.mode())
}

// Stores all that chunks beside an outline have, as `bw_outline_commit` does.
fn stored_bare(
    store: &Assembly,
    seat: &mut Seat,
    it: &Outlined,
    first: u64,
    count: u64,
    chunks: &[u8],
    committed: &mut u64,
    parents: &mut u64,
    at: &mut u64,
) -> u32
    requires { IsSeatOf store.now seat.old }
    ensures of { IsSeatOf store.now seat.new }
    ensures stores { result ≡ 0 → StoresAll (fixed_of store.now) (bare_piece (fixed_of store.now).base (outlined_text it.now) first count chunks.now) committed.new parents.new seat.old.view seat.new.view }
    ensures whole { result ≡ 0 → (fixed_of store.now).base ≡ 0 }
    ensures other_length { result ≡ 807 → IsOfOther (bare_piece (fixed_of store.now).base (outlined_text it.now) first count chunks.now) seat.old.view seat.new.view }
    ensures other_root { result ≡ 804 ↔ (¬ IsOfStore (fixed_of store.now) it.now) }
    ensures accepted { ((result ≡ 0) ⊎ (result ≡ 807)) → AreBeside first count chunks.now it.now }
    ensures chunks { result ≡ 1210 → (¬ HasChunks (outlined_text it.now) first count) }
    ensures fault { result ≢ 0 → result < 506 → AreNotBeside first count chunks.now result at.new it.now }
    ensures status { 505 < result → result ≢ 804 → result ≢ 807 → result ≡ 1210 }
    ensures same { result ≢ 0 → result ≢ 807 → seat.new ≡ seat.old }
{
    if !is_of_store(store, it) {
        return OTHER_ROOT;
    }
    let outline = it.outline();
    if !bare_fits(&outline, first, count) {
        return NO_CHUNKS;
    }
    match check_bare(&outline, first, count, chunks) {
        Ok(piece) => stored_piece(store, seat, &piece, committed, parents),
        Err(fault) => told(&fault, at),
    }
}

/// Checks `chunks` as `bw_outline_check` does, and stores these chunks and the parents above them, as
/// `bw_seat_commit` does.
#[unsafe(no_mangle)]
pub extern "C" fn bw_outline_commit(
    alloc: Global,
    outline: &mut BwHandle,
    seat: &mut BwHandle,
    which: &BwChunks,
    chunks: &[u8],
    committed: &mut u64,
    parents: &mut u64,
    at: &mut u64,
) -> u32
    ensures stores { result ≡ 0 → HasOutline (λ it. SeatDid (λ store old new. StoresAll (fixed_of store) (bare_piece (fixed_of store).base (outlined_text it) which.now.first which.now.count chunks.now)
        committed.new parents.new old.view new.view) seat.old.held seat.new.held) outline.old.held }
    ensures whole { result ≡ 0 → HasSeat (λ store _. (fixed_of store).base ≡ 0) seat.old.held }
    ensures other_length { result ≡ 807 → HasOutline (λ it. SeatDid (λ store old new. IsOfOther (bare_piece (fixed_of store).base (outlined_text it) which.now.first which.now.count chunks.now)
        old.view new.view) seat.old.held seat.new.held) outline.old.held }
    ensures other_root { result ≡ 804 ↔ HasOutline (λ it. HasSeat (λ store _. ¬ IsOfStore (fixed_of store) it) seat.old.held) outline.old.held }
    ensures accepted { ((result ≡ 0) ⊎ (result ≡ 807)) → HasOutline (AreBeside which.now.first which.now.count chunks.now) outline.old.held }
    ensures chunks { result ≡ 1210 → HasOutline (λ it. ¬ HasChunks (outlined_text it) which.now.first which.now.count) outline.old.held }
    ensures fault { result ≢ 0 → result < 506 → HasOutline (AreNotBeside which.now.first which.now.count chunks.now result at.new) outline.old.held }
    ensures no_handle { result ≡ 1202 ↔ (¬ HasOutline (λ _. HasSeat (λ _ _. Unit) seat.old.held) outline.old.held) }
    ensures status { 505 < result → result ≢ 804 → result ≢ 807 → result ≢ 1202 → result ≡ 1210 }
    ensures same { result ≢ 0 → result ≢ 807 → seat.new.held ≡ seat.old.held }
    ensures kept { outline.new.held ≡ outline.old.held }
{
    with_both!(
        outline,
        seat,
        alloc,
        |beside, it| stored_bare(
            &it.store,
            &mut it.seat,
            beside,
            which.first,
            which.count,
            chunks,
            committed,
            parents,
            at,
        )
    )
}

// Stores the chunks beside an outline, as `bw_outline_commit_chunks` does.
fn stored_bare_chunks(
    store: &Assembly,
    seat: &mut Seat,
    it: &Outlined,
    first: u64,
    count: u64,
    chunks: &[u8],
    committed: &mut u64,
    at: &mut u64,
) -> u32
    requires { IsSeatOf store.now seat.old }
    ensures of { IsSeatOf store.now seat.new }
    ensures commits { result ≡ 0 → EachGroup (CommitsGroup (fixed_of store.now) (bare_piece (fixed_of store.now).base (outlined_text it.now) first count chunks.now)) (groups (fixed_of store.now)) committed.new seat.old.view seat.new.view }
    ensures other_root { result ≡ 804 ↔ (¬ IsOfStore (fixed_of store.now) it.now) }
    ensures accepted { result ≡ 0 → AreBeside first count chunks.now it.now }
    ensures chunks { result ≡ 1210 → (¬ HasChunks (outlined_text it.now) first count) }
    ensures fault { result ≢ 0 → result < 506 → AreNotBeside first count chunks.now result at.new it.now }
    ensures status { 505 < result → result ≢ 804 → result ≡ 1210 }
    ensures same { result ≢ 0 → seat.new ≡ seat.old }
{
    if !is_of_store(store, it) {
        return OTHER_ROOT;
    }
    let outline = it.outline();
    if !bare_fits(&outline, first, count) {
        return NO_CHUNKS;
    }
    let bare = match check_bare(&outline, first, count, chunks) {
        Ok(piece) => piece,
        Err(fault) => return told(&fault, at),
    };
    *committed = commit_groups(store, seat, &bare);
    0
}

/// Checks `chunks` as `bw_outline_check` does, and stores these chunks as `bw_seat_commit_chunks` does, but no
/// parents.
#[unsafe(no_mangle)]
pub extern "C" fn bw_outline_commit_chunks(
    alloc: Global,
    outline: &mut BwHandle,
    seat: &mut BwHandle,
    which: &BwChunks,
    chunks: &[u8],
    committed: &mut u64,
    at: &mut u64,
) -> u32
    ensures commits { result ≡ 0 → HasOutline (λ it. SeatDid (λ store old new. EachGroup (CommitsGroup (fixed_of store) (bare_piece (fixed_of store).base (outlined_text it) which.now.first which.now.count chunks.now))
        (groups (fixed_of store)) committed.new old.view new.view) seat.old.held seat.new.held) outline.old.held }
    ensures other_root { result ≡ 804 ↔ HasOutline (λ it. HasSeat (λ store _. ¬ IsOfStore (fixed_of store) it) seat.old.held) outline.old.held }
    ensures accepted { result ≡ 0 → HasOutline (AreBeside which.now.first which.now.count chunks.now) outline.old.held }
    ensures chunks { result ≡ 1210 → HasOutline (λ it. ¬ HasChunks (outlined_text it) which.now.first which.now.count) outline.old.held }
    ensures fault { result ≢ 0 → result < 506 → HasOutline (AreNotBeside which.now.first which.now.count chunks.now result at.new) outline.old.held }
    ensures no_handle { result ≡ 1202 ↔ (¬ HasOutline (λ _. HasSeat (λ _ _. Unit) seat.old.held) outline.old.held) }
    ensures status { 505 < result → result ≢ 804 → result ≢ 1202 → result ≡ 1210 }
    ensures same { result ≢ 0 → seat.new.held ≡ seat.old.held }
    ensures kept { outline.new.held ≡ outline.old.held }
{
    with_both!(
        outline,
        seat,
        alloc,
        |beside, it| stored_bare_chunks(
            &it.store,
            &mut it.seat,
            beside,
            which.first,
            which.count,
            chunks,
            committed,
            at,
        )
    )
}
