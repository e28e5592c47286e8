// Outboard encodings that come in pieces, of which the same has come.

ghost use Rattle.std.specs.Prelude.{◌≡◌};
ghost use Rattle.determined_texts.specs.Agreeing.{Agree, AgreeButFor};
ghost use Rattle.determined_texts.specs.Texts.{SameFeed, SameOutline};

use b3tree::{Hash, Mode};
use bao_check::{CheckFault, OutboardFeed, Outline};
use std::alloc::Global;

pub fn outboard_feed_new_determined(
    alloc: Global,
    mode: &Mode,
    root: &Hash,
) -> (OutboardFeed, OutboardFeed)
    ensures { SameFeed result.0 result.1 }
{
    let one = OutboardFeed::new(alloc, mode, root);
    let other = OutboardFeed::new(alloc, mode, root);
    (one, other)
}

// Both take the same bytes, or refuse them for one fault, but where one is out of memory.
pub fn push_determined(
    a: &mut OutboardFeed,
    b: &mut OutboardFeed,
    bytes: &[u8],
) -> (Result<(), CheckFault>, Result<(), CheckFault>)
    requires { SameFeed a.old b.old }
    ensures answer { AgreeButFor CheckFault.Memory (λ _ _. Unit {0}) result.0 result.1 }
    ensures after { result.0 ≡ result.1 → SameFeed a.new b.new }
{
    let one = a.push(bytes);
    let other = b.push(bytes);
    (one, other)
}

pub fn feed_outline_determined<'a>(
    a: &'a OutboardFeed,
    b: &'a OutboardFeed,
) -> (
    Result<Outline<'a>, CheckFault>,
    Result<Outline<'a>, CheckFault>,
)
    requires { SameFeed a.now b.now }
    ensures { Agree SameOutline result.0 result.1 }
{
    (a.outline(), b.outline())
}

pub fn into_text_determined(a: OutboardFeed, b: OutboardFeed) -> (Vec<u8>, Vec<u8>)
    requires { SameFeed a b }
    ensures { result.0.items ≡ result.1.items }
{
    (a.into_text(), b.into_text())
}
