ghost use Rattle.store_shared.specs.Seats.{IsSeatOf};

use crate::threads::stores::{split, store};
use b3tree::{Mode, hash};
use std::test::Fail;
use std::thread::join;
use store_shared::{Assembly, Seat};

// The chunks of group 0 that the seat gets when it asks for one after another.
fn claim_each(store: &Assembly, mut seat: Seat) -> u64
    requires { IsSeatOf store.now seat }
{
    let mut mask = 0;
    for j in 0..64u32 {
        if let Ok(granted) = store.take(&mut seat, 0, 1 << j) {
            mask |= granted;
        }
    }
    mask
}

#[test]
fn two_threads_claim_apart(rt: HostRuntime) -> Result<(), Fail> {
    let (store, seat) = store(rt.alloc(), hash(&Mode::hash(), b""), 64)?;
    let (one, two) = split(&store, seat)?;
    let shared = &store;
    let (ours, theirs) = join(
        &rt,
        move || -> u64
            requires { IsSeatOf shared.now one }
        { claim_each(shared, one) },
        move || -> u64
            requires { IsSeatOf shared.now two }
        { claim_each(shared, two) },
    );
    assert!(rt; ours & theirs == 0);
    assert!(rt; ours | theirs == u64::MAX);
    Ok(())
}
