// Peers compose: what a store has, another comes by.

ghost use Rattle.std.specs.Prelude.{◌⊎◌, ◌≤◌, ℕ, IfOk, List, length};
ghost use Rattle.bao_text.specs.Choice.{chunk_count};
ghost use Rattle.gather.specs.Peers.{MayServe};
ghost use Rattle.determined_stores.specs.Serves.{HasEveryNode, IsAnyNode};
ghost use Rattle.gather.specs.Counts.{HasFailed};
ghost use Rattle.holders.specs.Holders.{IsGiven};
ghost use Rattle.holders.specs.Blobs.{HasCollision};
ghost use Rattle.store_core.specs.Histories.{state_after};
ghost use Rattle.store_core.specs.Laws.{CollisionOf};
ghost use Rattle.holders.specs.Blobs.{IsBlob};
ghost use Rattle.store_core.specs.Stores.{fixed_of, state_of};
ghost use Rattle.store_shared.specs.Seats.{IsSeatOf, fixed_of as fixed_in};

use gather::{Peer, Report, run_one};
use std::alloc::Global;
use std::slice::from_mut;
use store_core::{BadCapacity, Store};
use store_shared::{Assembly, Seat};

// A store that has every node of a blob fills a new one, as the one holder, by a peer: the new store then has every node too.
// Only memory that was refused in this call excuses it, or a collision with the blob is exhibited: of a slice that the peer
// may give, or of one that the history of its store used.
pub fn peer_fills(
    alloc: Global,
    full: &Assembly,
    seat: Seat,
    capacity: u32,
) -> Result<(Report, Store), BadCapacity>
    requires of { IsSeatOf full.now seat }
    ensures { IfOk result (λ made. (blob : List ℕ) → IsBlob (fixed_in full.now) blob → chunk_count (length blob) ≤ capacity → HasEveryNode (state_after seat.view.seen) blob
        → HasFailed made.0 ⊎ HasEveryNode (state_of made.1) blob
        ⊎ HasCollision (IsGiven MayServe (record { assembly = full.now; seat = seat })) (fixed_of made.1) blob ⊎ CollisionOf (fixed_in full.now) seat.view.seen blob IsAnyNode) }
{
    let mode = full.mode();
    // For the prover alone: the flags of a mode are apart from the tree's.
    mode.is_keyed();
    let mut store = Store::new(alloc, full.root(), mode, capacity)?;
    let mut peer = Peer::new(full, seat);
    let report = run_one(alloc, &mut store, from_mut(&mut peer));
    Ok((report, store))
}
