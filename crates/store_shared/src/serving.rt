ghost use Rattle.std.specs.Prelude.{◌≡◌, ◌*◌, ◌<◌, IfErr, IfOk, false, is_some, true};
ghost use Rattle.store_core.specs.declared.history.Call.TheVariants.{Serve};
ghost use Rattle.store_core.specs.declared.history.Serving.{Serving};
ghost use Rattle.store_core.specs.declared.history.Serving.TheVariants.{Text};
ghost use Rattle.store_core.specs.Histories.{state_after};
ghost use Rattle.store_shared.specs.Serving.{SeatIsRefused, SeatSliceBinds, SeatSliceIsAccepted};
ghost use Rattle.store_core.specs.Knowledge.{Called, Sees};
ghost use Rattle.store_steps.specs.Words.{IsGripOf, fixed_of};

use crate::nodes::append_node;
use b3tree::CHUNK_LEN;
use bao_text::{Node, nodes};
use std::alloc::Global;
use store_core::ServeFault;
use store_steps::{Grip, Words};

/// Returns the encoding of the slice (`start`, `len`) of the blob: the recorded length, and the bytes of the
/// slice's nodes. It doesn't wait.
///
/// Refuses with 808 `NoLength` if no length is recorded, with 809 `Lacking` and the first node, in the order of
/// the encoding, that isn't held, and with 810 `Memory`.
///
/// The call linearizes at its load for the last node: what was copied earlier is still held there, with the
/// same bytes. `NoLength` and `Lacking` linearize at the load that found nothing. `Memory` is no event: the
/// grip has only seen more. The grip's claims are unchanged, and it has seen all that it had seen before.
///
/// For every blob with the store's root it is the blob's slice; or the contract exhibits a collision, one input
/// from the blob and one from the slice that a node or the recorded length came from. Under any root, a blob's
/// hash or not, it is accepted as this slice; or one of its chunks was committed from a slice that claims
/// another length than the one that settled the length; or at one of its parents a collision is exhibited, one
/// input from the slice that the parent came from and one from another that a node or the length came from.
pub fn serve_slice(
    alloc: Global,
    words: &Words,
    grip: &mut Grip,
    start: u64,
    len: u64,
) -> Result<Vec<u8>, ServeFault>
    requires of { IsGripOf words.now grip.old }
    ensures of { IsGripOf words.now grip.new }
    ensures served { IfOk result (λ text. Called (Serve start len (Text text.items)) grip.old.view grip.new.view) }
    ensures refused { IfErr result (λ fault. SeatIsRefused start len fault grip.old.view grip.new.view) }
    ensures storing { grip.new.view.storing ≡ grip.old.view.storing }
    ensures binds { IfOk result (λ text. SeatSliceBinds grip.new.view start len text.items) }
    ensures accepted { IfOk result (λ text. SeatSliceIsAccepted grip.new.view start len text.items) }
{
    // A law, so that the proof has what it says: nothing runs.
    words.fixed().mode.is_keyed();
    let Some(length) = words.length_to_serve(grip, start, len) else {
        return Err(ServeFault::NoLength);
    };
    let mut out = Vec::new(alloc);
    out.extend_from_slice(&length.to_le_bytes())?;
    let mut rest = nodes(length, start, len);
    let mut next = rest.next();
    'nodes: while let Some(node) = next {
        next = rest.next();
        if !append_node(words, grip, &node, next.is_none(), start, len, &mut out)? {
            return Err(ServeFault::Lacking(node));
        }
    }
    Ok(out)
}

/// Returns whether the parent whose right child begins with chunk `boundary` is held: one load of a held word. It
/// doesn't allocate.
///
/// If it is held, the grip has seen it. If not, the call linearizes as a Serve of the slice of that chunk's first
/// byte, which lacks it.
pub fn has_parent(words: &Words, grip: &mut Grip, boundary: u32) -> bool
    requires of { IsGripOf words.now grip.old }
    requires boundary { boundary < (fixed_of words.now).capacity }
    ensures of { IsGripOf words.now grip.new }
    ensures held { result ≡ is_some ((state_after grip.new.view.seen).parents boundary) }
    ensures seen { result ≡ true → Sees grip.old.view grip.new.view }
    ensures lacked { result ≡ false → (answer : Serving) × Called (Serve (1024 * boundary) 1 answer) grip.old.view grip.new.view }
{
    let chunk = u64::from(boundary);
    words.load_node(
        grip,
        &Node::Parent(chunk),
        false,
        CHUNK_LEN as u64 * chunk,
        1,
    )
}
