// `bao_text`.

ghost use Rattle.std.specs.Prelude.{◌≡◌, ◌⊎◌, ◌↔◌, ◌+◌, ◌-◌, ◌*◌, ◌^◌, ◌<◌, ◌≤◌, length, vec_len, IfOk, IfSome, List, ℕ, OnOk, take};
ghost use Rattle.bao_text.specs.Rest.{rest_of};

use b3tree::{Cv, Hash, Input, Mode};
use bao_text::{
    Choice, Memory, Node, Nodes, Places, WriteFault, append_cut, append_subtree, combined,
    cut_slice, nodes, outboard, part_of, put_parent, slice, write_combined, write_text,
    write_texts,
};
use std::alloc::Global;
use std::io::Write;

pub fn covers_determined(choice: &Choice, at: u64, n: u64) -> (bool, bool)
    ensures { result.0 ≡ result.1 }
{
    (choice.covers(at, n), choice.covers(at, n))
}

pub fn cut_slice_determined(
    alloc: Global,
    text: &[u8],
    start: u64,
    len: u64,
) -> (Result<Vec<u8>, Memory>, Result<Vec<u8>, Memory>)
    ensures { IfOk result.0 (λ a. IfOk result.1 (λ b. a.items ≡ b.items)) }
{
    (
        cut_slice(alloc, text, start, len),
        cut_slice(alloc, text, start, len),
    )
}

pub fn from_memory_determined(a: Memory, b: Memory) -> (WriteFault, WriteFault)
    ensures { result.0 ≡ result.1 }
{
    (WriteFault::from(a), WriteFault::from(b))
}

pub fn part_of_determined<'a>(bytes: &'a [u8], at: u128, len: u128) -> (&'a [u8], &'a [u8])
    ensures { result.0.now ≡ result.1.now }
{
    (part_of(bytes, at, len), part_of(bytes, at, len))
}

pub fn nodes_determined(length: u64, start: u64, len: u64) -> (Nodes, Nodes)
    ensures { rest_of result.0 ≡ rest_of result.1 }
{
    (nodes(length, start, len), nodes(length, start, len))
}

pub fn put_parent_determined(a: &mut Vec<u8>, b: &mut Vec<u8>, at: usize, left: &Cv, right: &Cv)
    requires end { at + 64 ≤ vec_len a.old }
    requires same { a.old.items ≡ b.old.items }
    ensures { a.new.items ≡ b.new.items }
{
    put_parent(a, at, left, right);
    put_parent(b, at, left, right);
}

pub fn combined_determined(
    alloc: Global,
    mode: &Mode,
    bytes: &[u8],
) -> (
    Result<(Hash, Vec<u8>), Memory>,
    Result<(Hash, Vec<u8>), Memory>,
)
    ensures hash { IfOk result.0 (λ a. IfOk result.1 (λ b. a.0 ≡ b.0)) }
    ensures text { IfOk result.0 (λ a. IfOk result.1 (λ b. a.1.items ≡ b.1.items)) }
{
    (combined(alloc, mode, bytes), combined(alloc, mode, bytes))
}

pub fn outboard_determined(
    alloc: Global,
    mode: &Mode,
    bytes: &[u8],
) -> (
    Result<(Hash, Vec<u8>), Memory>,
    Result<(Hash, Vec<u8>), Memory>,
)
    ensures hash { IfOk result.0 (λ a. IfOk result.1 (λ b. a.0 ≡ b.0)) }
    ensures text { IfOk result.0 (λ a. IfOk result.1 (λ b. a.1.items ≡ b.1.items)) }
{
    (outboard(alloc, mode, bytes), outboard(alloc, mode, bytes))
}

pub fn slice_determined(
    alloc: Global,
    mode: &Mode,
    bytes: &[u8],
    start: u64,
    len: u64,
) -> (
    Result<(Hash, Vec<u8>), Memory>,
    Result<(Hash, Vec<u8>), Memory>,
)
    ensures hash { IfOk result.0 (λ a. IfOk result.1 (λ b. a.0 ≡ b.0)) }
    ensures text { IfOk result.0 (λ a. IfOk result.1 (λ b. a.1.items ≡ b.1.items)) }
{
    (
        slice(alloc, mode, bytes, start, len),
        slice(alloc, mode, bytes, start, len),
    )
}

pub fn append_subtree_determined(
    choice: &Choice,
    mode: &Mode,
    first: u64,
    bytes: &[u8],
    a: &mut Vec<u8>,
    b: &mut Vec<u8>,
) -> (Result<Input, Memory>, Result<Input, Memory>)
    requires end { 1024 * first + length bytes.now ≤ 2 ^ 64 - 1 }
    requires same { a.old.items ≡ b.old.items }
    ensures top { IfOk result.0 (λ x. IfOk result.1 (λ y. x ≡ y)) }
    ensures text { OnOk result.0 (OnOk result.1 (a.new.items ≡ b.new.items)) }
{
    (
        append_subtree(choice, mode, first, bytes, a),
        append_subtree(choice, mode, first, bytes, b),
    )
}

// Of places that have these bytes. After a fault, which one it is and what was copied before it isn't determined, but that
// it begins with what it had.
pub fn append_cut_determined<P: Places>(
    places: &P,
    start: u64,
    len: u64,
    a: &mut Vec<u8>,
    b: &mut Vec<u8>,
) -> (Result<(), P::Fault>, Result<(), P::Fault>)
    requires { a.old.items ≡ b.old.items }
    ensures cut { (bytes : List ℕ) → P.holds places.now bytes → OnOk result.0 (OnOk result.1 (a.new.items ≡ b.new.items)) }
    ensures kept { take (length a.old.items) a.new.items ≡ take (length a.old.items) b.new.items }
{
    (
        append_cut(places, start, len, a),
        append_cut(places, start, len, b),
    )
}

// Whether a writer takes bytes isn't determined; what it took tells the answer, and the answer tells what it took.
pub fn write_text_determined<W: Write>(
    text: &[u8],
    a: &mut W,
    b: &mut W,
) -> (Result<(), WriteFault>, Result<(), WriteFault>)
    requires { W.contents a.old ≡ W.contents b.old }
    ensures { IfSome (W.contents a.old) (λ _. (result.0 ≡ result.1) ↔ (W.contents a.new ≡ W.contents b.new)) }
{
    (write_text(text, a), write_text(text, b))
}

pub fn write_texts_determined<W: Write>(
    texts: &[Vec<u8>],
    a: &mut W,
    b: &mut W,
) -> (Result<(), WriteFault>, Result<(), WriteFault>)
    requires { W.contents a.old ≡ W.contents b.old }
    ensures { IfSome (W.contents a.old) (λ _. (result.0 ≡ result.1) ↔ (W.contents a.new ≡ W.contents b.new)) }
{
    (write_texts(texts, a), write_texts(texts, b))
}

// As `write_text`; but where nothing went out, the fault may be either.
pub fn write_combined_determined<W: Write>(
    alloc: Global,
    mode: &Mode,
    bytes: &[u8],
    a: &mut W,
    b: &mut W,
) -> (Result<Hash, WriteFault>, Result<Hash, WriteFault>)
    requires { W.contents a.old ≡ W.contents b.old }
    ensures hash { IfOk result.0 (λ x. IfOk result.1 (λ y. x ≡ y)) }
    ensures contents { IfSome (W.contents a.old) (λ _. result.0 ≡ result.1 → W.contents a.new ≡ W.contents b.new) }
    ensures answer { IfSome (W.contents a.old) (λ _. W.contents a.new ≡ W.contents b.new
        → (result.0 ≡ result.1) ⊎ (result.0 ≡ Err WriteFault.Memory) ⊎ (result.1 ≡ Err WriteFault.Memory)) }
{
    (
        write_combined(alloc, mode, bytes, a),
        write_combined(alloc, mode, bytes, b),
    )
}

pub fn next_determined(a: &mut Nodes, b: &mut Nodes) -> (Option<Node>, Option<Node>)
    requires { rest_of a.old ≡ rest_of b.old }
    ensures node { result.0 ≡ result.1 }
    ensures rest { rest_of a.new ≡ rest_of b.new }
{
    (a.next(), b.next())
}

// As `append_cut`. Of no bytes all are there, whatever the places have.
pub fn append_determined<P: Places>(
    places: &P,
    at: u128,
    len: u128,
    a: &mut Vec<u8>,
    b: &mut Vec<u8>,
) -> (Result<bool, P::Fault>, Result<bool, P::Fault>)
    requires end { at + len < 2 ^ 128 }
    requires same { a.old.items ≡ b.old.items }
    ensures part { (bytes : List ℕ) → P.holds places.now bytes → OnOk result.0 (OnOk result.1 (a.new.items ≡ b.new.items)) }
    ensures kept { take (length a.old.items) a.new.items ≡ take (length a.old.items) b.new.items }
    ensures whole { (bytes : List ℕ) → P.holds places.now bytes → 0 < len → IfOk result.0 (λ x. IfOk result.1 (λ y. x ≡ y)) }
    ensures none { len ≡ 0 → IfOk result.0 (λ x. IfOk result.1 (λ y. x ≡ y)) }
{
    (places.append(at, len, a), places.append(at, len, b))
}
