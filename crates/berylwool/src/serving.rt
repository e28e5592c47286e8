ghost use Rattle.std.specs.Prelude.{◌≡◌, ◌≢◌, ◌↔◌, ◌<◌, ◌≤◌, ℕ, List, length, take};
ghost use Rattle.store_core.specs.declared.history.Serving.TheVariants.{Lacking, NoLength};
ghost use Rattle.store_shared.specs.Seats.{IsSeatOf, fixed_of};
ghost use Rattle.store_core.specs.Knowledge.{Sees};
ghost use Rattle.berylwool.specs.Calls.{LacksSlice, Serves};
ghost use Rattle.berylwool.specs.Handles.{HasSeat, SeatDid};
ghost use Rattle.berylwool.specs.CNodes.{node_of};

use crate::handle::{BwHandle, with_held};
use crate::room;
use crate::status::ROOM;
use bao_text::Node;
use std::alloc::Global;
use store_shared::{Assembly, Seat, ServeFault};

/// A node of a blob's tree, as C has it: kind 0 is the parent whose right child begins with chunk `number`, and
/// 1 is chunk `number`.
#[repr(C)]
#[derive(Clone, Copy)]
pub struct BwNode {
    pub kind: u32,
    pub number: u64,
}

// The node as C has it.
fn shown(node: Node) -> BwNode
    ensures { node_of result ≡ node }
{
    match node {
        Node::Parent(number) => BwNode { kind: 0, number },
        Node::Chunk(number) => BwNode { kind: 1, number },
    }
}

// Writes a slice to a buffer, as `bw_seat_slice` does.
fn served(
    store: &Assembly,
    seat: &mut Seat,
    start: u64,
    len: u64,
    out: &mut [u8],
    used: &mut usize,
    lacking: &mut BwNode,
) -> u32
    requires { IsSeatOf store.now seat.old }
    ensures of { IsSeatOf store.now seat.new }
    ensures serves { result ≡ 0 → Serves start len (take used.new out.new) seat.old seat.new }
    ensures within { result ≡ 0 → used.new ≤ length out.new }
    ensures no_room { result ≡ 1201 → (text : List ℕ) × Serves start len text seat.old seat.new × (length out.old < length text) × (used.new ≡ length text) }
    ensures no_length { result ≡ 808 → LacksSlice start len NoLength seat.old seat.new }
    ensures lacking { result ≡ 809 → LacksSlice start len (Lacking (node_of lacking.new)) seat.old seat.new }
    ensures memory { result ≡ 810 → Sees seat.old.view seat.new.view }
    ensures whole { result ≢ 808 → result ≢ 810 → (fixed_of store.now).base ≡ 0 }
    ensures status { result ≢ 0 → result ≢ 808 → result ≢ 809 → result ≢ 810 → result ≡ 1201 }
    ensures same { result ≢ 0 → out.new ≡ out.old }
{
    match store.serve_slice(seat, start, len) {
        Ok(text) => {
            *used = text.len();
            if !room::put(text.as_slice(), out) {
                return ROOM;
            }
            0
        }
        Err(ServeFault::NoLength) => 808,
        Err(ServeFault::Lacking(node)) => {
            *lacking = shown(node);
            809
        }
        Err(ServeFault::Memory) => 810,
    }
}

/// Writes the encoding of the slice (`start`, `len`) to the front of `out`, with its length in `used`: the
/// recorded length, and the bytes of the slice's nodes.
#[unsafe(no_mangle)]
pub extern "C" fn bw_seat_slice(
    alloc: Global,
    seat: &mut BwHandle,
    start: u64,
    len: u64,
    out: &mut [u8],
    used: &mut usize,
    lacking: &mut BwNode,
) -> u32
    ensures serves { result ≡ 0 → SeatDid (λ _ old new. Serves start len (take used.new out.new) old new) seat.old.held seat.new.held }
    ensures within { result ≡ 0 → used.new ≤ length out.new }
    ensures no_room { result ≡ 1201 → SeatDid (λ _ old new. (text : List ℕ) × Serves start len text old new × (length out.old < length text) × (used.new ≡ length text)) seat.old.held seat.new.held }
    ensures no_length { result ≡ 808 → SeatDid (λ _ old new. LacksSlice start len NoLength old new) seat.old.held seat.new.held }
    ensures lacking { result ≡ 809 → SeatDid (λ _ old new. LacksSlice start len (Lacking (node_of lacking.new)) old new) seat.old.held seat.new.held }
    ensures memory { result ≡ 810 → SeatDid (λ _ old new. Sees old.view new.view) seat.old.held seat.new.held }
    ensures whole { result ≢ 808 → result ≢ 810 → result ≢ 1202 → HasSeat (λ store _. (fixed_of store).base ≡ 0) seat.old.held }
    ensures no_seat { result ≡ 1202 ↔ (¬ HasSeat (λ _ _. Unit) seat.old.held) }
    ensures status { result ≢ 0 → result ≢ 808 → result ≢ 809 → result ≢ 810 → result ≢ 1202 → result ≡ 1201 }
    ensures same { result ≢ 0 → out.new ≡ out.old }
{
    with_held!(
        seat,
        alloc,
        Seat,
        |it| served(&it.store, &mut it.seat, start, len, out, used, lacking)
    )
}
