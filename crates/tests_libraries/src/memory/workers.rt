ghost use Rattle.store_shared.specs.Seats.{IsSeatOf};

use crate::bytes::array;
use crate::memory::stores::{made, parted};
use b3tree::{Hash, Mode};
use bao_text::combined;
use gather::{Crew, Encoded, FinishFault, Open, Report, finish, run};
use std::alloc::Global;
use std::process::Abort;
use std::test::Fail;
use std::thread::Threads;
use store_shared::{Assembly, Seat};

// Asserts that one fetch was for the length and one for the group, and that after a refusal there was one more.
fn is_right<R: Abort>(rt: &R, report: &Report) -> Result<(), Fail> {
    if report.memory > 1 {
        return Err(Fail::from("a growth was refused"));
    }
    assert!(rt; (report.committed, report.refused) == (3, 0));
    assert!(rt; matches!((report.asked, report.memory), (2, 0) | (3, 1)));
    Ok(())
}

// Has one worker, who asks one holder, store all.
fn work<R: AllocGlobal + Threads + Sync + Abort>(
    rt: &R,
    assembly: &Assembly,
    own: Seat,
    text: &[u8],
) -> Result<(), Fail>
    requires { IsSeatOf assembly.now own }
{
    let holders = vec![in rt.alloc(); Encoded::new(text)]?;
    let mut crews = vec![in rt.alloc(); Crew::new(own, holders)]?;
    let report = run(rt, rt.alloc(), assembly, crews.as_mut_slice(), &Open);
    is_right(rt, &report)
}

// The blob, if need be at the second call.
fn finished(alloc: Global, assembly: &Assembly, seat: &mut Seat) -> Result<Vec<u8>, FinishFault>
    requires { IsSeatOf assembly.now seat.old }
{
    match finish(alloc, assembly, seat) {
        Err(FinishFault::Memory) => finish(alloc, assembly, seat),
        gathered => gathered,
    }
}

fn by_a_run<R: AllocGlobal + Threads + Sync + Abort>(
    rt: &R,
    root: Hash,
    text: &[u8],
) -> Result<Vec<u8>, Fail> {
    let (assembly, seat) = made(rt.alloc(), root, 3)?;
    let (mut seat, own) = parted(&assembly, seat)?;
    work(rt, &assembly, own, text)?;
    Ok(finished(rt.alloc(), &assembly, &mut seat)?)
}

// Where a growth is refused, that is counted, and the closing round has what is left.
#[test]
fn a_run(rt: HostRuntime) -> Result<(), Fail> {
    let bytes = array::<3000>();
    let (root, whole) = combined(rt.alloc(), &Mode::hash(), &bytes)?;
    let gathered = by_a_run(&rt, root, whole.as_slice())?;
    assert!(rt; gathered.as_slice() == bytes.as_slice());
    Ok(())
}
