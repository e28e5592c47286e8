ghost use Rattle.std.specs.Prelude.{◌≡◌, ◌+◌, ◌*◌, ◌<◌, ◌≤◌, ◌^◌, ◌%◌};
ghost use Rattle.holders.specs.Room.{groups};
ghost use Rattle.store_core.specs.Masks.{has_bit};
ghost use Rattle.store_steps.specs.Layout.{claim_place, length_place, parent_claim_place, parent_held_place, word_count};
ghost use Rattle.store_steps.specs.Slices.{node_number, node_place};

use bao_text::Node;
use store_core::{CELL_WORDS, Fixed, PARENT_WORDS, has_bit};

// How many groups a store has.
pub(crate) fn groups(fixed: &Fixed) -> usize
    ensures count { result ≡ groups fixed.now }
    ensures few { result ≤ 2 ^ 26 }
{
    fixed.groups() as usize
}

// How many words a store has.
pub(crate) fn word_count(fixed: &Fixed) -> usize
    ensures { result ≡ word_count fixed.now }
{
    length_place(fixed) + 1 + 2 * groups(fixed) + PARENT_WORDS as usize * fixed.capacity as usize
}

// Where the held word of a group stands.
pub(crate) fn held_place(fixed: &Fixed, group: u32) -> usize
    requires { group < groups fixed.now }
    ensures place { result ≡ group }
    ensures within { result < word_count fixed.now }
{
    // So that the contract can speak of it.
    let _ = fixed;
    group as usize
}

// Where the claim word of a group stands.
pub(crate) fn claim_place(fixed: &Fixed, group: u32) -> usize
    requires { group < groups fixed.now }
    ensures place { result ≡ claim_place fixed.now group }
    ensures within { result < word_count fixed.now }
{
    groups(fixed) + group as usize
}

// Where the cells begin.
pub(crate) fn cells_place(fixed: &Fixed) -> usize
    ensures { result ≡ 2 * groups fixed.now }
{
    2 * groups(fixed)
}

// Where the length word stands.
pub(crate) fn length_place(fixed: &Fixed) -> usize
    ensures place { result ≡ length_place fixed.now }
    ensures within { result < word_count fixed.now }
    ensures small { result < 2 ^ 40 }
{
    2 * groups(fixed) + CELL_WORDS as usize * fixed.capacity as usize
}

// Where the held word of a group of boundaries stands.
pub(crate) fn parent_held_place(fixed: &Fixed, group: u32) -> usize
    requires { group < groups fixed.now }
    ensures place { result ≡ parent_held_place fixed.now group }
    ensures within { result < word_count fixed.now }
{
    length_place(fixed) + 1 + group as usize
}

// Where the claim word of a group of boundaries stands.
pub(crate) fn parent_claim_place(fixed: &Fixed, group: u32) -> usize
    requires { group < groups fixed.now }
    ensures place { result ≡ parent_claim_place fixed.now group }
    ensures within { result < word_count fixed.now }
{
    length_place(fixed) + 1 + groups(fixed) + group as usize
}

// Where the held word with a node's bit stands.
pub(crate) fn node_place(fixed: &Fixed, node: &Node) -> usize
    requires { node_number node.now < fixed.now.capacity }
    ensures place { result ≡ node_place fixed.now node.now }
    ensures within { result < word_count fixed.now }
{
    match node {
        Node::Chunk(chunk) => (*chunk / 64) as usize,
        Node::Parent(boundary) => length_place(fixed) + 1 + (*boundary / 64) as usize,
    }
}

// Whether a node's bit is set in its held word.
pub(crate) fn has_node(held: u64, node: &Node) -> bool
    ensures { result ≡ has_bit held (node_number node.now % 64) }
{
    match node {
        Node::Chunk(chunk) => has_bit(held, (*chunk % 64) as u32),
        Node::Parent(boundary) => has_bit(held, (*boundary % 64) as u32),
    }
}
