ghost use Rattle.std.specs.Prelude.{◌≡◌, IfOk};
ghost use Rattle.store_shared.specs.Seats.{IsSeatOf};

use crate::bytes::blob;
use crate::threads::meeting::Meeting;
use crate::threads::stores::{split, store};
use b3tree::{Hash, Mode};
use bao_text::combined;
use gather::{Crew, Encoded, Gate, Holder, HolderFault, Open, finish, run};
use std::alloc::Global;
use std::test::Fail;
use std::thread::Threads;
use store_shared::{Assembly, Seat};

// A holder over an encoding that waits for others before its first fetch.
#[derive(Drop)]
struct Late<'a> {
    meeting: &'a Meeting,
    waits: bool,
    holder: Encoded<&'a [u8]>,
}

impl Holder for Late<'_> {
    ghost count = { λ _. 0 };

    ghost gives = { λ _ _ _ _. Unit {0} };

    fn fetch(&mut self, start: u64, len: u64, into: &mut Vec<u8>) -> Result<(), HolderFault> {
        if self.waits {
            self.waits = false;
            self.meeting.pass(0);
        }
        match self.holder.fetch(start, len, into) {
            Ok(()) => Ok(()),
            Err(_) => Err(HolderFault::Memory),
        }
    }

    fn faults(&self) -> u64 {
        0
    }
}

// A worker whose one holder is over this encoding, and waits for the meeting or not.
fn crew_of<'a>(
    alloc: Global,
    seat: Seat,
    meeting: &'a Meeting,
    waits: bool,
    whole: &'a [u8],
) -> Result<Crew<Late<'a>>, Fail>
    ensures { IfOk result (λ crew. crew.seat ≡ seat) }
{
    let holder = Encoded::new(whole);
    let late = Late {
        meeting,
        waits,
        holder,
    };
    let holders = vec![in alloc; late]?;
    Ok(Crew::new(seat, holders))
}

// How many chunks two workers commit that meet at the gate, or else in their holders.
fn committed_by_two<R: AllocGlobal + Threads + Sync>(
    rt: &R,
    assembly: &Assembly,
    one: Seat,
    two: Seat,
    meeting: &Meeting,
    at_gate: bool,
    whole: &[u8],
) -> Result<u64, Fail>
    requires one { IsSeatOf assembly.now one }
    requires two { IsSeatOf assembly.now two }
{
    let first = crew_of(rt.alloc(), one, meeting, !at_gate, whole)?;
    let second = crew_of(rt.alloc(), two, meeting, !at_gate, whole)?;
    let mut crews = [first, second];
    let report = if at_gate {
        run(rt, rt.alloc(), assembly, &mut crews, meeting)
    } else {
        run(rt, rt.alloc(), assembly, &mut crews, &Open)
    };
    Ok(report.committed)
}

// What two such workers gather of a blob of three chunks, all of which they commit.
fn gathered_by_two<R: AllocGlobal + Threads + Sync>(
    rt: &R,
    root: Hash,
    meeting: &Meeting,
    at_gate: bool,
    whole: &[u8],
) -> Result<Vec<u8>, Fail> {
    let (assembly, seat) = store(rt.alloc(), root, 3)?;
    let (mut seat, others) = split(&assembly, seat)?;
    let (one, two) = split(&assembly, others)?;
    if committed_by_two(rt, &assembly, one, two, meeting, at_gate, whole)? != 3 {
        return Err(Fail::from("other chunks were committed"));
    }
    Ok(finish(rt.alloc(), &assembly, &mut seat)?)
}

// Each of two workers passes the gate while the other does, and asks its holder while the other does.
#[test]
fn two_workers_meet(rt: HostRuntime) -> Result<(), Fail> {
    let bytes = blob(rt.alloc(), 3000)?;
    let (root, whole) = combined(rt.alloc(), &Mode::hash(), bytes.as_slice())?;
    for (at_gate, seen) in [(true, (2, 3, 2)), (false, (2, 1, 2))] {
        let meeting = Meeting::of(2);
        let gathered = gathered_by_two(&rt, root, &meeting, at_gate, whole.as_slice())?;
        assert!(rt; meeting.seen() == seen);
        assert!(rt; gathered.as_slice() == bytes.as_slice());
    }
    Ok(())
}
