ghost use Rattle.std.specs.Prelude.{IfOk};
ghost use Rattle.store_shared.specs.Seats.{IsSeatOf};

use crate::bytes::blob;
use crate::threads::stores::{split, store};
use b3tree::{Hash, Mode};
use bao_check::check_combined;
use bao_text::combined;
use std::alloc::Global;
use std::sync::{Barrier, Wait};
use std::test::Fail;
use std::thread::{Threads, join};
use store_core::Missing;
use store_shared::{Assembly, Seat};

// The hash of the 200,000 bytes i mod 251, by `b3sum` 1.2.0.
const ROOT: Hash = Hash([
    0x55, 0x40, 0x91, 0x42, 0xcc, 0xed, 0x2e, 0xc7, 0x98, 0x97, 0x45, 0x9f, 0x17, 0x0b, 0x6d, 0x22,
    0x56, 0x5d, 0xaf, 0x88, 0x37, 0x10, 0xb4, 0xad, 0x7a, 0xee, 0xdd, 0xae, 0xf5, 0x42, 0x44, 0xb4,
]);

// How many chunks a part has: the blob has four parts.
const PART: u32 = 49;

// How many times a reader reads while a part is committed.
const READS: u32 = 8;

// Where the second range begins that is read, and where it ends.
const FROM: usize = 70_000;

const TO: usize = 140_000;

// A byte that no blob of these tests has.
const UNREAD: u8 = 255;

// Waits before the part with this number until all have come, if there is a barrier before it.
fn meet_before<R: Wait>(rt: &R, part: u32, barriers: &[Barrier]) {
    if let Some(barrier) = barriers.get(part as usize) {
        barrier.wait(rt);
    }
}

// Checks the encoding, claims and commits these chunks one by one, and answers how many were the seat's: none where the
// encoding is refused.
fn commit_chunks<R: Wait>(
    rt: &R,
    alloc: Global,
    assembly: &Assembly,
    mut seat: Seat,
    encoding: &[u8],
    chunks: (u32, u32),
    barriers: &[Barrier],
) -> (Seat, Option<u32>)
    requires { IsSeatOf assembly.now seat }
    ensures { IsSeatOf assembly.now result.0 }
{
    let Ok(piece) = check_combined(alloc, &Mode::hash(), &assembly.root(), encoding) else {
        return (seat, None);
    };
    let mut committed = 0u32;
    for chunk in chunks.0..chunks.1 {
        if chunk % PART == 0 {
            meet_before(rt, chunk / PART, barriers);
        }
        let group = chunk / 64;
        if let (Ok(_), Ok(mask)) = (
            assembly.take(&mut seat, group, 1 << (chunk % 64)),
            assembly.commit(&mut seat, group, &piece),
        ) {
            committed = committed.saturating_add(mask.count_ones());
        }
    }
    (seat, Some(committed))
}

// How many bytes of the range from `at` on the seat reads, or none where a byte is wrong, where the rest of the buffer
// was written, or where the position that is missing isn't in the range.
fn read_right(
    assembly: &Assembly,
    seat: &mut Seat,
    at: usize,
    out: &mut [u8],
    range: &[u8],
) -> Option<usize>
    requires { IsSeatOf assembly.now seat.old }
    ensures { IsSeatOf assembly.now seat.new }
{
    let out = out.get_mut(..range.len())?;
    out.fill(UNREAD);
    let count = match assembly.read(seat, at as u64, out) {
        Ok(()) => range.len(),
        Err(Missing(position)) => {
            let count = position.checked_sub(at as u64)? as usize;
            if count >= range.len() {
                return None;
            }
            count
        }
    };
    let (read, rest) = out.split_at_checked(count)?;
    for byte in rest {
        if *byte != UNREAD {
            return None;
        }
    }
    (Some(read) == range.get(..count)).then_some(count)
}

// Whether each of many reads of two ranges is right, and none reads less than one before it.
fn watch<R: Wait>(
    rt: &R,
    alloc: Global,
    assembly: &Assembly,
    mut seat: Seat,
    bytes: &[u8],
    barriers: &[Barrier],
) -> (Seat, bool)
    requires { IsSeatOf assembly.now seat }
    ensures { IsSeatOf assembly.now result.0 }
{
    let Ok(mut out) = vec![in alloc; 0; bytes.len()] else {
        return (seat, false);
    };
    let Some(middle) = bytes.get(FROM..TO) else {
        return (seat, false);
    };
    let (mut of_whole, mut of_middle) = (0, 0);
    for round in 0..3 * READS {
        if round % READS == 0 {
            meet_before(rt, round / READS, barriers);
        }
        match read_right(assembly, &mut seat, 0, out.as_mut_slice(), bytes) {
            Some(count) if count >= of_whole => of_whole = count,
            _ => return (seat, false),
        }
        match read_right(assembly, &mut seat, FROM, out.as_mut_slice(), middle) {
            Some(count) if count >= of_middle => of_middle = count,
            _ => return (seat, false),
        }
    }
    (seat, true)
}

// Two threads commit the chunks of the first three parts, each all of them.
fn commit_both<R: Threads + Wait + Sync>(
    rt: &R,
    assembly: &Assembly,
    one: (Seat, Global),
    two: (Seat, Global),
    encoding: &[u8],
    barriers: &[Barrier],
) -> ((Seat, Option<u32>), (Seat, Option<u32>))
    requires { IsSeatOf assembly.now one.0 × IsSeatOf assembly.now two.0 }
    ensures one { IsSeatOf assembly.now result.0.0 }
    ensures two { IsSeatOf assembly.now result.1.0 }
{
    join(
        rt,
        move || -> (Seat, Option<u32>)
            requires { IsSeatOf assembly.now one.0 }
            ensures { IsSeatOf assembly.entry.now result.0 }
        { commit_chunks(rt, one.1, assembly, one.0, encoding, (0, 147), barriers) },
        move || -> (Seat, Option<u32>)
            requires { IsSeatOf assembly.now two.0 }
            ensures { IsSeatOf assembly.entry.now result.0 }
        { commit_chunks(rt, two.1, assembly, two.0, encoding, (0, 147), barriers) },
    )
}

// Two threads read.
fn watch_both<R: Threads + Wait + Sync>(
    rt: &R,
    assembly: &Assembly,
    one: (Seat, Global),
    two: (Seat, Global),
    bytes: &[u8],
    barriers: &[Barrier],
) -> ((Seat, bool), (Seat, bool))
    requires { IsSeatOf assembly.now one.0 × IsSeatOf assembly.now two.0 }
    ensures one { IsSeatOf assembly.now result.0.0 }
    ensures two { IsSeatOf assembly.now result.1.0 }
{
    join(
        rt,
        move || -> (Seat, bool)
            requires { IsSeatOf assembly.now one.0 }
            ensures { IsSeatOf assembly.entry.now result.0 }
        { watch(rt, one.1, assembly, one.0, bytes, barriers) },
        move || -> (Seat, bool)
            requires { IsSeatOf assembly.now two.0 }
            ensures { IsSeatOf assembly.entry.now result.0 }
        { watch(rt, two.1, assembly, two.0, bytes, barriers) },
    )
}

// Two threads commit and two read.
fn commit_and_watch<R: Threads + Wait + Sync>(
    rt: &R,
    assembly: &Assembly,
    writers: ((Seat, Global), (Seat, Global)),
    readers: ((Seat, Global), (Seat, Global)),
    encoding: &[u8],
    bytes: &[u8],
    barriers: &[Barrier],
) -> (
    ((Seat, Option<u32>), (Seat, Option<u32>)),
    ((Seat, bool), (Seat, bool)),
)
    requires writers { IsSeatOf assembly.now writers.0.0 × IsSeatOf assembly.now writers.1.0 }
    requires readers { IsSeatOf assembly.now readers.0.0 × IsSeatOf assembly.now readers.1.0 }
    ensures writers { IsSeatOf assembly.now result.0.0.0 × IsSeatOf assembly.now result.0.1.0 }
    ensures readers { IsSeatOf assembly.now result.1.0.0 × IsSeatOf assembly.now result.1.1.0 }
{
    join(
        rt,
        move || -> ((Seat, Option<u32>), (Seat, Option<u32>))
            requires { IsSeatOf assembly.now writers.0.0 × IsSeatOf assembly.now writers.1.0 }
            ensures { IsSeatOf assembly.entry.now result.0.0 × IsSeatOf assembly.entry.now result.1.0 }
        { commit_both(rt, assembly, writers.0, writers.1, encoding, barriers) },
        move || -> ((Seat, bool), (Seat, bool))
            requires { IsSeatOf assembly.now readers.0.0 × IsSeatOf assembly.now readers.1.0 }
            ensures { IsSeatOf assembly.entry.now result.0.0 × IsSeatOf assembly.entry.now result.1.0 }
        { watch_both(rt, assembly, readers.0, readers.1, bytes, barriers) },
    )
}

// What both seats read of the whole blob.
fn read_both(
    assembly: &Assembly,
    first: &mut Seat,
    second: &mut Seat,
    out: &mut [u8],
    bytes: &[u8],
) -> (Option<usize>, Option<usize>)
    requires first { IsSeatOf assembly.now first.old }
    requires second { IsSeatOf assembly.now second.old }
    ensures first { IsSeatOf assembly.now first.new }
    ensures second { IsSeatOf assembly.now second.new }
{
    let of_first = read_right(assembly, first, 0, out, bytes);
    let of_second = read_right(assembly, second, 0, out, bytes);
    (of_first, of_second)
}

// The seats of a writer and of both readers, which meet, where the threads did what they have to.
fn met(
    assembly: &Assembly,
    written: ((Seat, Option<u32>), (Seat, Option<u32>)),
    watched: ((Seat, bool), (Seat, bool)),
) -> Result<(Seat, Seat, Seat), Fail>
    requires written { IsSeatOf assembly.now written.0.0 × IsSeatOf assembly.now written.1.0 }
    requires watched { IsSeatOf assembly.now watched.0.0 × IsSeatOf assembly.now watched.1.0 }
    ensures { IfOk result (λ seats. IsSeatOf assembly.now seats.0 × IsSeatOf assembly.now seats.1 × IsSeatOf assembly.now seats.2) }
{
    let ((mut writer, by_one), (mut other, by_two)) = written;
    let ((mut first, first_right), (mut second, second_right)) = watched;
    assembly.meet(&mut writer, &mut other);
    assembly.meet(&mut writer, &mut first);
    assembly.meet(&mut first, &mut second);
    if !first_right || !second_right {
        return Err(Fail::from("a reader read something else"));
    }
    if by_one.unwrap_or(0).saturating_add(by_two.unwrap_or(0)) != 147 {
        return Err(Fail::from("other chunks were committed"));
    }
    Ok((writer, first, second))
}

// Has two threads commit the first three parts while two read, and answers the seats of a writer and of both readers,
// which have met. All four begin each part together, so that the readers read while it is committed.
fn read_beside_commits<R: AllocGlobal + Threads + Wait + Sync>(
    rt: &R,
    assembly: &Assembly,
    seat: Seat,
    whole: &[u8],
    bytes: &[u8],
) -> Result<(Seat, Seat, Seat), Fail>
    requires { IsSeatOf assembly.now seat }
    ensures { IfOk result (λ seats. IsSeatOf assembly.now seats.0 × IsSeatOf assembly.now seats.1 × IsSeatOf assembly.now seats.2) }
{
    let (writers, readers) = split(assembly, seat)?;
    let (one, two) = split(assembly, writers)?;
    let (first, second) = split(assembly, readers)?;
    let writers = ((one, rt.alloc()), (two, rt.alloc()));
    let readers = ((first, rt.alloc()), (second, rt.alloc()));
    let barriers = [Barrier::new(4), Barrier::new(4), Barrier::new(4)];
    let (written, watched) = commit_and_watch(
        rt, assembly, writers, readers, whole, bytes, &barriers,
    );
    met(assembly, written, watched)
}

// What both readers read of the blob beside the commits, how many chunks a writer commits then, the last part, and what both
// read after it.
fn read_before_and_after<R: AllocGlobal + Threads + Wait + Sync>(
    rt: &R,
    out: &mut [u8],
    whole: &[u8],
    bytes: &[u8],
) -> Result<
    (
        (Option<usize>, Option<usize>),
        Option<u32>,
        (Option<usize>, Option<usize>),
    ),
    Fail,
> {
    let (assembly, seat) = store(rt.alloc(), ROOT, 196)?;
    let (writer, mut first, mut second) = read_beside_commits(rt, &assembly, seat, whole, bytes)?;
    let before = read_both(&assembly, &mut first, &mut second, out, bytes);
    let (mut writer, last) = commit_chunks(
        rt,
        rt.alloc(),
        &assembly,
        writer,
        whole,
        (147, 196),
        &[],
    );
    assembly.meet(&mut writer, &mut first);
    assembly.meet(&mut first, &mut second);
    let after = read_both(&assembly, &mut first, &mut second, out, bytes);
    Ok((before, last, after))
}

// The last part is committed after both readers read the others.
#[test]
fn two_readers_beside_two_writers(rt: HostRuntime) -> Result<(), Fail> {
    let bytes = blob(rt.alloc(), 200_000)?;
    let (_, whole) = combined(rt.alloc(), &Mode::hash(), bytes.as_slice())?;
    let mut out = vec![in rt.alloc(); 0; 200_000]?;
    let (before, last, after) = read_before_and_after(
        &rt,
        out.as_mut_slice(),
        whole.as_slice(),
        bytes.as_slice(),
    )?;
    assert!(rt; before == (Some(150_528), Some(150_528)));
    assert!(rt; last == Some(49));
    assert!(rt; after == (Some(200_000), Some(200_000)));
    Ok(())
}
