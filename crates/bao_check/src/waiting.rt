ghost use Rattle.std.specs.Prelude.{◌≡◌, ◌↔◌, ◌+◌, ◌-◌, ◌*◌, ◌/◌, ◌^◌, ◌<◌, ◌≤◌, List, [], ◌∷◌, ◌++◌, length, true, IfErr, IfSome, IsTrue, OnErr, OnOk, Some};
ghost use Rattle.b3word.specs.Compression.{cv};
ghost use Rattle.b3tree.specs.Chunk.{last_chunk_input};
ghost use Rattle.b3tree.specs.Tree.{left_len};
ghost use Rattle.bao_check.specs.declared.part.WaitingPart.{WaitingPart};
ghost use Rattle.bao_check.specs.Decoded.{Decodes, subtree_kinds, waiting_kinds};
ghost use Rattle.bao_check.specs.Known.{KnowsNext};
ghost use Rattle.bao_check.specs.Walk.{Meets};
ghost use Rattle.bao_check.specs.Waiting.{AreParts, HasRefused, HasTaken, IsBefore, chunk_waits, last_part, next_size, part_size};

use crate::asked::{Asked, meets};
use crate::fault::CheckFault;
use crate::part::WaitingPart;
use crate::walk::halves;
use arrayvec::ArrayVec;
use b3tree::{CHUNK_LEN, Cv, Mode, left_len, parent_input, top_input};
use bao_text::{Choice, PARENT_LEN, WAITING_LEN};

/// The subtrees of an encoding that are still to come, the next one last.
pub(crate) type Waiting = ArrayVec<WaitingPart, WAITING_LEN>;

// The part that comes first.
pub(crate) fn next_part(waiting: &Waiting) -> Option<WaitingPart>
    ensures { result ≡ last_part waiting.now.items }
{
    waiting.as_slice().last().copied()
}

// How many bytes the first node of a part has.
pub(crate) fn size(part: &WaitingPart) -> usize
    ensures { result ≡ part_size part.now }
{
    if part.len <= CHUNK_LEN as u64 {
        part.len as usize
    } else {
        PARENT_LEN
    }
}

// How many bytes the node has that comes next.
pub(crate) fn node_size(waiting: &Waiting) -> Option<usize>
    ensures value { result ≡ next_size waiting.now.items }
    ensures bounds { IfSome result (λ size. (1 ≤ size) × (size ≤ 1024)) }
{
    let part = next_part(waiting)?;
    Some(size(&part))
}

// Whether that node is a chunk.
pub(crate) fn is_chunk_next(waiting: &Waiting) -> bool
    ensures { result ≡ chunk_waits waiting.now.items }
{
    match next_part(waiting) {
        Some(part) => part.len <= CHUNK_LEN as u64,
        None => false,
    }
}

// Puts the subtree over `len` bytes from chunk `number` on before all that waits, if it is wanted.
#[tactic(auto, using(crate::proofs::ChunkBytes::pushed))]
pub(crate) fn push_wanted(
    choice: &Choice,
    waiting: &mut Waiting,
    asked: &Asked,
    number: u64,
    len: u64,
)
    requires fits { (length waiting.old.items < 55) × (1024 * number + len ≤ 2 ^ 64 - 1) × (len ≤ 1024 * 2 ^ (54 - length waiting.old.items)) }
    requires some { 0 < len }
    requires parts { AreParts choice.now waiting.old.items }
    ensures parts { AreParts choice.now waiting.new.items }
    ensures before { IsBefore choice.now asked.now number len waiting.old.items waiting.new.items }
    ensures kinds { waiting_kinds choice.now waiting.new.items ≡ subtree_kinds choice.now number len ++ waiting_kinds choice.now waiting.old.items }
    ensures room { length waiting.new.items ≤ length waiting.old.items + 1 }
{
    if choice.wants(CHUNK_LEN as u64 * number, len) {
        waiting.push(WaitingPart {
            asked: *asked,
            number,
            len,
        });
    }
}

// Puts the two parts below a parent, which asks this of them, before all that waits: the left one first.
#[tactic(auto, using(crate::proofs::Feeding::part_parted))]
fn push_halves(
    choice: &Choice,
    waiting: &mut Waiting,
    parent: &WaitingPart,
    left: &Asked,
    right: &Asked,
)
    requires parent { 1024 < parent.now.len }
    requires parts { AreParts choice.now (waiting.old.items ++ parent.now ∷ []) }
    ensures parts { AreParts choice.now waiting.new.items }
    ensures before { (middle : List WaitingPart)
        × IsBefore choice.now left.now parent.now.number (left_len parent.now.len) middle waiting.new.items
        × IsBefore choice.now right.now (parent.now.number + left_len parent.now.len / 1024) (parent.now.len - left_len parent.now.len) waiting.old.items middle }
    ensures kinds { waiting_kinds choice.now waiting.new.items ≡ (subtree_kinds choice.now parent.now.number (left_len parent.now.len)
        ++ subtree_kinds choice.now (parent.now.number + left_len parent.now.len / 1024) (parent.now.len - left_len parent.now.len)) ++ waiting_kinds choice.now waiting.old.items }
{
    let left_len = left_len(parent.len);
    push_wanted(
        choice,
        waiting,
        right,
        parent.number + left_len / CHUNK_LEN as u64,
        parent.len - left_len,
    );
    push_wanted(choice, waiting, left, parent.number, left_len);
}

// Whether the chunk with this number has the value that is asked for. Its own may be known, where it is a whole one below a parent.
fn chunk_meets(asked: &Asked, mode: &Mode, number: u64, node: &[u8], known: Option<Cv>) -> bool
    requires chunk { length node.now ≤ 1024 }
    requires range { 1024 * number + length node.now ≤ 2 ^ 64 - 1 }
    requires known { IfSome known (λ value. length node.now ≡ 1024 → value.0 ≡ cv (last_chunk_input mode.now number node.now)) }
    ensures { IsTrue result ↔ Meets asked.now (last_chunk_input mode.now number node.now) }
{
    if !asked.top && node.len() == CHUNK_LEN {
        if let Some(value) = known {
            return value == asked.value;
        }
    }
    meets(asked, &top_input(mode, number, node))
}

// Verifies the node that comes next, at place `at` of the encoding, and goes on to what comes after it. Where it is a whole chunk, its value may be
// known.
pub(crate) fn take_node(
    choice: &Choice,
    waiting: &mut Waiting,
    mode: &Mode,
    at: u64,
    node: &[u8],
    known: Option<Cv>,
) -> Result<(), CheckFault>
    requires chunks { choice.now.chunks ≡ true }
    requires next { next_size waiting.old.items ≡ Some (length node.now) }
    requires parts { AreParts choice.now waiting.old.items }
    requires known { KnowsNext mode.now waiting.old.items node.now known }
    ensures parts { AreParts choice.now waiting.new.items }
    ensures same { OnErr result (waiting.new ≡ waiting.old) }
    ensures ok { OnOk result (HasTaken mode.now choice.now waiting.old.items waiting.new.items node.now) }
    ensures chunk { (part : WaitingPart) → last_part waiting.old.items ≡ Some part → part.len ≤ 1024 → OnOk result (Decodes choice.now waiting.old.items waiting.new.items node.now node.now) }
    ensures parent { (part : WaitingPart) → last_part waiting.old.items ≡ Some part → 1024 < part.len → OnOk result (Decodes choice.now waiting.old.items waiting.new.items node.now []) }
    ensures err { IfErr result (HasRefused mode.now choice.now waiting.old.items at (length node.now) node.now) }
{
    let Some(part) = next_part(waiting) else {
        unreachable!()
    };
    if part.len <= CHUNK_LEN as u64 {
        if !chunk_meets(&part.asked, mode, part.number, node, known) {
            return Err(CheckFault::Mismatch { at });
        }
        // What is popped is `part`, here and below: it waits until its node is verified.
        let _taken = waiting.pop();
        return Ok(());
    }
    let (left, right) = halves(node);
    if !meets(&part.asked, &parent_input(mode, &left.value, &right.value)) {
        return Err(CheckFault::Mismatch { at });
    }
    let _taken = waiting.pop();
    push_halves(choice, waiting, &part, &left, &right);
    Ok(())
}
