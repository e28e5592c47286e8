ghost use Rattle.std.specs.Prelude.{◌≡◌, ◌<◌, ◌≤◌, length, is_some, take, true, Some, IfErr, IfOk};
ghost use Rattle.store_core.specs.Histories.{state_after};
ghost use Rattle.store_core.specs.Serves.{node_held};
ghost use Rattle.store_core.specs.Stores.{GainsNode};
ghost use Rattle.store_shared.specs.Serving.{room_of};
ghost use Rattle.store_steps.specs.Slices.{node_events, node_number};
ghost use Rattle.store_core.specs.Knowledge.{Looked};
ghost use Rattle.store_steps.specs.Words.{IsGripOf, fixed_of};

use crate::cell::WORD_LEN;
use crate::chunks::copy_chunk;
use b3tree::CHUNK_LEN;
use bao_text::{Node, PARENT_LEN};
use std::alloc::AllocError;
use store_core::{PARENT_WORDS, put_bytes};
use store_steps::{Grip, ParentKind, Words};

// How many bytes a node has at most.
fn room_of(node: &Node) -> usize
    ensures { result ≡ room_of node.now }
{
    match node {
        Node::Chunk(_) => CHUNK_LEN,
        Node::Parent(_) => PARENT_LEN,
    }
}

// Copies the bytes of a held parent.
fn copy_parent(words: &Words, grip: &mut Grip, boundary: u32, out: &mut [u8])
    requires of { IsGripOf words.now grip.old }
    requires boundary { boundary < (fixed_of words.now).capacity }
    requires held { is_some ((state_after grip.old.view.seen).parents boundary) ≡ true }
    requires room { length out.old ≡ 64 }
    ensures same { grip.new ≡ grip.old }
    ensures copied { (state_after grip.old.view.seen).parents boundary ≡ Some (take 64 out.new) }
    ensures room { length out.new ≡ length out.old }
{
    'words: for word in 0..PARENT_WORDS {
        let bytes = words.copy::<ParentKind>(grip, boundary, word).to_le_bytes();
        put_bytes(out, WORD_LEN * usize::from(word), &bytes);
    }
}

// Copies the bytes of a held node to the beginning of the buffer, and answers how many they are.
fn copy_node(words: &Words, grip: &mut Grip, node: &Node, out: &mut [u8]) -> usize
    requires of { IsGripOf words.now grip.old }
    requires node { node_number node.now < (fixed_of words.now).capacity }
    requires held { is_some (node_held (state_after grip.old.view.seen) node.now) ≡ true }
    requires room { length out.old ≡ room_of node.now }
    ensures same { grip.new ≡ grip.old }
    ensures room { (result ≤ length out.new) × (length out.new ≡ length out.old) }
    ensures copied { node_held (state_after grip.old.view.seen) node.now ≡ Some (take result out.new) }
{
    match *node {
        Node::Chunk(chunk) => copy_chunk(words, grip, CHUNK_LEN as u64 * chunk, out, 0),
        Node::Parent(boundary) => {
            copy_parent(words, grip, boundary as u32, out);
            PARENT_LEN
        }
    }
}

// Loads a node of the slice (`start`, `len`), and appends its bytes where it is held, which is the answer. The room for them
// is made first: where there is none, nothing is loaded.
pub(crate) fn append_node(
    words: &Words,
    grip: &mut Grip,
    node: &Node,
    last: bool,
    start: u64,
    len: u64,
    out: &mut Vec<u8>,
) -> Result<bool, AllocError>
    requires of { IsGripOf words.now grip.old }
    requires node { node_number node.now < (fixed_of words.now).capacity }
    ensures of { IsGripOf words.now grip.new }
    ensures looked { IfOk result (λ there. Looked (node_events grip.old.view node.now last start len) grip.old.view grip.new.view) }
    ensures appended { IfOk result (λ there. GainsNode (node_held (state_after grip.new.view.seen) node.now) out.old.items out.new.items there) }
    ensures memory { IfErr result (λ fault. grip.new ≡ grip.old) }
{
    let from = out.len();
    out.resize(from + room_of(node), 0)?;
    if !words.load_node(grip, node, last, start, len) {
        return Ok(false);
    }
    let count = copy_node(words, grip, node, &mut out[from..]);
    out.truncate(from + count);
    Ok(true)
}
