//! One store and several seats, each for a thread of its own: `store_shared`.

ghost use Rattle.store_shared.specs.Seats.{IsSeatOf};

use crate::telling::tell;
use anyhow::{Result, bail};
use b3tree::{Hash, Mode, hash};
use bao_check::{Checked, GROUP_BYTES, check_slice};
use bao_text::slice;
use std::alloc::Global;
use store_shared::{Assembly, Missing, Seat};

// Room for so many chunks.
const CAPACITY: u32 = 256;

/// Stores the chunks of a group that a piece holds, by a seat, and answers their mask. No claim is left.
pub fn put_group(store: &Assembly, seat: &mut Seat, group: u32, piece: &Checked<'_>) -> Result<u64>
    requires { IsSeatOf store.now seat.old }
    ensures { IsSeatOf store.now seat.new }
{
    store.take(seat, group, u64::MAX)?;
    let committed = store.commit(seat, group, piece);
    store.give(seat, group, u64::MAX);
    Ok(committed?)
}

// Stores a group of the blob, as somebody who has the blob sends it.
fn fetch_group(
    alloc: Global,
    store: &Assembly,
    seat: &mut Seat,
    root: &Hash,
    blob: &[u8],
    group: u32,
) -> Result<()>
    requires { IsSeatOf store.now seat.old }
    ensures { IsSeatOf store.now seat.new }
{
    let start = u64::from(group) * GROUP_BYTES;
    let (_, text) = slice(alloc, &Mode::hash(), blob, start, GROUP_BYTES)?;
    let piece = check_slice(
        alloc,
        &Mode::hash(),
        root,
        start,
        GROUP_BYTES,
        text.as_slice(),
    )?;
    put_group(store, seat, group, &piece)?;
    Ok(())
}

/// The 16 bytes from a position on, as soon as a seat sees that their chunks are held, or the first position that isn't.
pub fn read_16(store: &Assembly, seat: &mut Seat, at: u64) -> Result<[u8; 16], Missing>
    requires { IsSeatOf store.now seat.old }
    ensures { IsSeatOf store.now seat.new }
{
    let mut bytes = [0; 16];
    store.read(seat, at, &mut bytes)?;
    Ok(bytes)
}

/// The 16 bytes around the border of groups 0 and 1, each of which came by a seat of its own. A seat that joins two has seen what
/// both have.
pub fn by_two_seats(alloc: Global, root: Hash, blob: &[u8]) -> Result<[u8; 16]> {
    let (store, seat) = Assembly::new(alloc, root, Mode::hash(), CAPACITY)?;
    let Ok((mut first, mut second)) = store.split(seat) else {
        bail!("memory for a seat");
    };
    fetch_group(alloc, &store, &mut first, &root, blob, 0)?;
    fetch_group(alloc, &store, &mut second, &root, blob, 1)?;
    let mut both = store.join(first, second);
    match read_16(&store, &mut both, 65_528) {
        Ok(bytes) => Ok(bytes),
        Err(Missing(position)) => bail!("byte {position}"),
    }
}

/// Prints a line.
pub fn show<R: Print>(rt: &R, alloc: Global, blob: &[u8]) -> Result<()> {
    let root = hash(&Mode::hash(), blob);
    tell(
        rt,
        alloc,
        "read after two seats",
        &by_two_seats(alloc, root, blob)?,
    )
}
