// The checks of encodings.

ghost use Rattle.std.specs.Prelude.{◌≡◌};
ghost use Rattle.bao_check.specs.Bare.{AreChunksOf};
ghost use Rattle.determined_texts.specs.Agreeing.{Agree};
ghost use Rattle.determined_texts.specs.Texts.{SameOutline, SamePiece};

use b3tree::{Hash, Mode};
use bao_check::{
    CheckFault, Checked, Outline, bare_fits, check_bare, check_combined, check_outboard,
    check_slice,
};
use std::alloc::Global;

pub fn check_slice_determined<'a>(
    alloc: Global,
    mode: &Mode,
    root: &Hash,
    start: u64,
    len: u64,
    text: &'a [u8],
) -> (
    Result<Checked<'a>, CheckFault>,
    Result<Checked<'a>, CheckFault>,
)
    ensures { Agree SamePiece result.0 result.1 }
{
    (
        check_slice(alloc, mode, root, start, len, text),
        check_slice(alloc, mode, root, start, len, text),
    )
}

pub fn check_combined_determined<'a>(
    alloc: Global,
    mode: &Mode,
    root: &Hash,
    text: &'a [u8],
) -> (
    Result<Checked<'a>, CheckFault>,
    Result<Checked<'a>, CheckFault>,
)
    ensures { Agree SamePiece result.0 result.1 }
{
    (
        check_combined(alloc, mode, root, text),
        check_combined(alloc, mode, root, text),
    )
}

pub fn check_outboard_determined<'a>(
    alloc: Global,
    mode: &Mode,
    root: &Hash,
    text: &'a [u8],
) -> (
    Result<Outline<'a>, CheckFault>,
    Result<Outline<'a>, CheckFault>,
)
    ensures { Agree SameOutline result.0 result.1 }
{
    (
        check_outboard(alloc, mode, root, text),
        check_outboard(alloc, mode, root, text),
    )
}

pub fn bare_fits_determined(
    a: &Outline<'_>,
    b: &Outline<'_>,
    first: u64,
    count: u64,
) -> (bool, bool)
    requires { SameOutline a.now b.now }
    ensures { result.0 ≡ result.1 }
{
    (bare_fits(a, first, count), bare_fits(b, first, count))
}

pub fn check_bare_determined<'a>(
    a: &'a Outline<'a>,
    b: &'a Outline<'a>,
    first: u64,
    count: u64,
    chunks: &'a [u8],
) -> (
    Result<Checked<'a>, CheckFault>,
    Result<Checked<'a>, CheckFault>,
)
    requires same { SameOutline a.now b.now }
    requires chunks { AreChunksOf a.now first count }
    ensures { Agree SamePiece result.0 result.1 }
{
    (
        check_bare(a, first, count, chunks),
        check_bare(b, first, count, chunks),
    )
}
