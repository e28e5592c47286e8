ghost use Rattle.std.specs.Prelude.{◌≡◌, ◌+◌, ◌-◌, ◌*◌, ◌^◌, ◌<◌, ◌≤◌, [], ◌∷◌, ◌++◌, length, true, IfNone, IfSome};
ghost use Rattle.bao_text.specs.NodeNames.{AreWaiting, AreWaiting-prop, node_names, slice_names, waiting_names};

use crate::choice::Choice;
use arrayvec::ArrayVec;
use b3tree::{CHUNK_LEN, left_len};

/// A node of a blob's tree.
#[derive(Clone, Copy, Debug, PartialEq, Eq)]
pub enum Node {
    /// The parent whose right child begins with the chunk of this index.
    Parent(u64),
    /// The chunk of this index.
    Chunk(u64),
}

// The subtree over `len` bytes from chunk `number` on.
#[derive(Clone, Copy, Debug, Default)]
struct WaitingSubtree {
    number: u64,
    len: u64,
}

/// The most subtrees that wait at once in a pre-order walk: the right child at each of at most 54 levels, and a
/// chunk.
pub const WAITING_LEN: usize = 55;

type Waiting = ArrayVec<WaitingSubtree, WAITING_LEN>;

/// Iterates over the nodes of a slice in pre-order. It doesn't allocate.
#[derive(Drop)]
pub struct Nodes {
    choice: Choice,
    waiting: Waiting,
    ghost chunks: { choice.chunks ≡ true },
    ghost subtrees: { AreWaiting choice 54 waiting.items } by { AreWaiting-prop choice 54 waiting.items },
}

// Puts a subtree last, if it is wanted.
#[tactic(auto, using(crate::proofs::NodeNaming::waiting))]
fn push_wanted(choice: &Choice, waiting: &mut Waiting, number: u64, len: u64)
    requires fits { (length waiting.old.items < 55) × (1024 * number + len ≤ 2 ^ 64 - 1) × (len ≤ 1024 * 2 ^ (54 - length waiting.old.items)) }
    requires subtrees { AreWaiting choice.now 54 waiting.old.items }
    ensures subtrees { AreWaiting choice.now 54 waiting.new.items }
    ensures names { waiting_names choice.now waiting.new.items ≡ node_names choice.now number len ++ waiting_names choice.now waiting.old.items }
    ensures room { length waiting.new.items ≤ length waiting.old.items + 1 }
{
    if choice.wants(CHUNK_LEN as u64 * number, len) {
        waiting.push(WaitingSubtree { number, len });
    }
}

// Takes the first node of those that the subtrees have: the last subtree's own, whose parts then wait in its place.
#[tactic(auto, using(crate::proofs::NodeNaming::waiting))]
fn next_node(choice: &Choice, waiting: &mut Waiting) -> Option<Node>
    requires chunks { choice.now.chunks ≡ true }
    requires subtrees { AreWaiting choice.now 54 waiting.old.items }
    ensures subtrees { AreWaiting choice.now 54 waiting.new.items }
    ensures first { IfSome result (λ node. waiting_names choice.now waiting.old.items ≡ node ∷ waiting_names choice.now waiting.new.items) }
    ensures none { IfNone result ((waiting_names choice.now waiting.old.items ≡ []) × (waiting_names choice.now waiting.new.items ≡ [])) }
{
    let WaitingSubtree { number, len } = waiting.pop()?;
    if len <= CHUNK_LEN as u64 {
        return Some(Node::Chunk(number));
    }
    let left_len = left_len(len);
    let middle = number + left_len / CHUNK_LEN as u64;
    push_wanted(choice, waiting, middle, len - left_len);
    push_wanted(choice, waiting, number, left_len);
    Some(Node::Parent(middle))
}

impl Nodes {
    ghost use Rattle.bao_text.specs.Rest.{rest_of};

    // Those of the slice (`start`, `len`) of a blob of `length` bytes.
    pub(crate) fn of_slice(length: u64, start: u64, len: u64) -> Nodes
        ensures { rest_of result ≡ slice_names length start len }
    {
        let choice = Choice::of_slice(length, start, len);
        let mut waiting = ArrayVec::new();
        push_wanted(&choice, &mut waiting, 0, length);
        Nodes { choice, waiting }
    }
}

impl Iterator for Nodes {
    ghost use Rattle.std.specs.Iterator.{YieldsFirst, item_count};
    ghost use Rattle.bao_text.specs.Rest.{rest_of};

    type Item = Node;

    ghost next_gives = { YieldsFirst rest_of };

    ghost remaining = { item_count rest_of };

    fn next(&mut self) -> Option<Node> {
        next_node(&self.choice, &mut self.waiting)
    }
}
