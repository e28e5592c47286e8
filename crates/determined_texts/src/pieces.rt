// What pieces, tails and outlines answer: two that are the same answer the same. In what parts a piece is kept isn't
// determined, and no answer tells.

ghost use Rattle.std.specs.Prelude.{◌≡◌, ◌↔◌, IfSome, IsSome, option_copied};
ghost use Rattle.bao_check.specs.Accepted.{IsAccepted, outboard_nodes, slice_nodes};
ghost use Rattle.bao_check.specs.Tail.{tail_piece};
ghost use Rattle.bao_text.specs.Rest.{rest_of};
ghost use Rattle.determined_texts.specs.Texts.{SameOutline, SamePiece};

use b3tree::{Cv, Hash, Mode};
use bao_check::{Checked, Outline, Tail};
use bao_text::Nodes;

pub fn new_determined<'a>(
    mode: &Mode,
    root: &Hash,
    start: u64,
    len: u64,
    text: &'a [u8],
) -> (Checked<'a>, Checked<'a>)
    requires { IsAccepted mode.now root.now.0 text.now (slice_nodes text.now start len) }
    ensures { SamePiece result.0 result.1 }
{
    (
        Checked::new(mode, root, start, len, text),
        Checked::new(mode, root, start, len, text),
    )
}

pub fn root_determined(a: &Checked<'_>, b: &Checked<'_>) -> (Hash, Hash)
    requires { SamePiece a.now b.now }
    ensures { result.0 ≡ result.1 }
{
    (a.root(), b.root())
}

pub fn chunks_determined(a: &Checked<'_>, b: &Checked<'_>) -> ((u64, u64), (u64, u64))
    requires { SamePiece a.now b.now }
    ensures { (result.0.0 ≡ result.1.0) × (result.0.1 ≡ result.1.1) }
{
    (a.chunks(), b.chunks())
}

pub fn nodes_determined(a: &Checked<'_>, b: &Checked<'_>) -> (Nodes, Nodes)
    requires { SamePiece a.now b.now }
    ensures { rest_of result.0 ≡ rest_of result.1 }
{
    (a.nodes(), b.nodes())
}

pub fn chunk_determined<'a>(
    a: &Checked<'a>,
    b: &Checked<'a>,
    i: u64,
) -> (Option<&'a [u8]>, Option<&'a [u8]>)
    requires { SamePiece a.now b.now }
    ensures { option_copied result.0 ≡ option_copied result.1 }
{
    (a.chunk(i), b.chunk(i))
}

pub fn tail_determined<'a>(a: &Checked<'a>, b: &Checked<'a>) -> (Option<Tail<'a>>, Option<Tail<'a>>)
    requires { SamePiece a.now b.now }
    ensures there { IsSome result.0 ↔ IsSome result.1 }
    ensures same { IfSome result.0 (λ x. IfSome result.1 (λ y. SamePiece (tail_piece x) (tail_piece y))) }
{
    (a.tail(), b.tail())
}

pub fn parents_of_determined(a: &Checked<'_>, b: &Checked<'_>, group: u64) -> (u64, u64)
    requires { SamePiece a.now b.now }
    ensures { result.0 ≡ result.1 }
{
    (a.parents_of(group), b.parents_of(group))
}

pub fn parent_determined<'a>(
    a: &Checked<'a>,
    b: &Checked<'a>,
    m: u64,
) -> (Option<&'a [u8]>, Option<&'a [u8]>)
    requires { SamePiece a.now b.now }
    ensures { option_copied result.0 ≡ option_copied result.1 }
{
    (a.parent(m), b.parent(m))
}

pub fn tail_root_determined(a: &Tail<'_>, b: &Tail<'_>) -> (Hash, Hash)
    requires { SamePiece (tail_piece a.now) (tail_piece b.now) }
    ensures { result.0 ≡ result.1 }
{
    (a.root(), b.root())
}

pub fn outline_determined<'a>(
    mode: &Mode,
    root: &Hash,
    text: &'a [u8],
) -> (Outline<'a>, Outline<'a>)
    requires { IsAccepted mode.now root.now.0 text.now (outboard_nodes text.now) }
    ensures { SameOutline result.0 result.1 }
{
    (
        Outline::new(mode, root, text),
        Outline::new(mode, root, text),
    )
}

pub fn outline_root_determined(a: &Outline<'_>, b: &Outline<'_>) -> (Hash, Hash)
    requires { SameOutline a.now b.now }
    ensures { result.0 ≡ result.1 }
{
    (a.root(), b.root())
}

pub fn leaf_determined(a: &Outline<'_>, b: &Outline<'_>, i: u64) -> (Option<Cv>, Option<Cv>)
    requires { SameOutline a.now b.now }
    ensures { result.0 ≡ result.1 }
{
    (a.leaf(i), b.leaf(i))
}
