// Who the holders are and what they have, in which form, how many workers there are, the grain and the capacity have no part in a length that
// is certified, or in what is written. Which fault is answered depends on what each holder has, and isn't determined.

ghost use Rattle.std.specs.Prelude.{◌≡◌, ◌⊎◌, ℕ, List, IfOk, IfSome};
ghost use Rattle.bao_windows.specs.Available.{AreSound, IsWithin};
ghost use Rattle.bao_windows.specs.Windows.{IsFrom, fixed_for};
ghost use Rattle.determined_program.specs.Windows.{IsClaimed, IsHad, IsOneAnswer, SameBlob, SameFound, SameLength};
ghost use Rattle.holders.specs.Places.{AreKnown};
ghost use Rattle.holders.specs.Blobs.{HasCollision};
ghost use Rattle.holders.specs.declared.piece.Piece.{Piece};
ghost use Rattle.holders.specs.Blobs.{IsBlob};
ghost use Rattle.holders.specs.Pieces.{IsAcceptedPiece};
ghost use Rattle.std.specs.Io.KnownBytes.{Keeps};

use b3par::Source;
use bao_check::Checked;
use bao_windows::{GatherFault, Wanted, WindowsFault, ask, certified_length, write_windows};
use holders::ByteRange;
use std::alloc::{AllocError, Global};
use std::io::Write;
use std::thread::Threads;

// Where a source's bytes are known and no read of it fails, it has what it is asked for always or never, and it is one.
pub fn ask_determined<'b, S: Source>(
    alloc: Global,
    wanted: &'b Wanted<'_>,
    source: &S,
    range: ByteRange,
    ours: &'b mut Vec<u8>,
    theirs: &'b mut Vec<u8>,
) -> (
    Result<Option<Checked<'b>>, AllocError>,
    Result<Option<Checked<'b>>, AllocError>,
)
    requires { IsWithin wanted.now.form range.start }
    ensures { (bytes : List ℕ) → AreKnown (S.contents source.now) bytes → S.faultless source.now → IfOk result.0 (λ a. IfOk result.1 (λ b. SameFound a b)) }
{
    let one = ask(alloc, wanted, source, range, ours);
    let other = ask(alloc, wanted, source, range, theirs);
    (one, other)
}

// Two lengths that are certified under one root are one, for every blob that has it, or a collision is exhibited from a piece of a source.
// Beside outboard encodings that claim one length they are one.
pub fn certified_length_determined<S: Source, T: Source>(
    alloc: Global,
    wanted: &Wanted<'_>,
    other: &Wanted<'_>,
    sources: &[S],
    other_sources: &[T],
) -> (Result<u64, GatherFault>, Result<u64, GatherFault>)
    requires root { wanted.now.root ≡ other.now.root }
    requires mode { wanted.now.mode ≡ other.now.mode }
    ensures blob { IfOk result.0 (λ m. IfOk result.1 (λ n. (blob : List ℕ) → IsBlob (fixed_for wanted.now) blob → (m ≡ n)
        ⊎ HasCollision (IsFrom wanted.now S.contents S.faultless sources.now) (fixed_for wanted.now) blob
        ⊎ HasCollision (IsFrom other.now T.contents T.faultless other_sources.now) (fixed_for other.now) blob)) }
    ensures claimed { (l : ℕ) → IsClaimed wanted.now.form l → IsClaimed other.now.form l → IfOk result.0 (λ m. IfOk result.1 (λ n. m ≡ n)) }
{
    (
        certified_length(alloc, wanted, sources),
        certified_length(alloc, other, other_sources),
    )
}

// Where the bytes of the sources are known and no read of them fails, a length is certified always or never, and it is one.
pub fn certified_length_of_known<S: Source>(
    alloc: Global,
    wanted: &Wanted<'_>,
    sources: &[S],
) -> (Result<u64, GatherFault>, Result<u64, GatherFault>)
    requires { AreSound S.contents S.faultless sources.now }
    ensures { SameLength result.0 result.1 }
{
    (
        certified_length(alloc, wanted, sources),
        certified_length(alloc, wanted, sources),
    )
}

// Where both wrote a blob, it is the same, or the two are a collision. Where the sources of both have it between them, as encodings or as
// plain copies beside its own outboard encoding, both write it, memory and writing aside, or a collision is exhibited.
pub fn write_windows_determined<
    R: AllocGlobal + Threads + Sync,
    S: Source + Sync,
    T: Source + Sync,
    V: Write,
    W: Write,
>(
    rt: &R,
    wanted: &Wanted<'_>,
    other: &Wanted<'_>,
    workers: u32,
    other_workers: u32,
    capacity: u64,
    other_capacity: u64,
    sources: &[S],
    other_sources: &[T],
    ours: &mut V,
    theirs: &mut W,
) -> (Result<u64, WindowsFault>, Result<u64, WindowsFault>)
    requires root { wanted.now.root ≡ other.now.root }
    requires mode { wanted.now.mode ≡ other.now.mode }
    requires same { V.contents ours.old ≡ W.contents theirs.old }
    ensures same { IfSome (V.contents ours.old) (λ _. IfOk result.0 (λ m. IfOk result.1 (λ n.
        SameBlob wanted.now.mode wanted.now.root.0 (V.contents ours.old) (V.contents ours.new) (W.contents theirs.new) m n))) }
    ensures had { (blob : List ℕ) → IsHad wanted.now S.contents S.faultless sources.now capacity blob → IsHad other.now T.contents T.faultless other_sources.now other_capacity blob
        → IfSome (V.contents ours.old) (λ _. IsOneAnswer (V.contents ours.new) (W.contents theirs.new) result.0 result.1
        ⊎ HasCollision (IsFrom wanted.now S.contents S.faultless sources.now) (fixed_for wanted.now) blob
        ⊎ HasCollision (IsFrom other.now T.contents T.faultless other_sources.now) (fixed_for other.now) blob) }
{
    (
        write_windows(rt, wanted, workers, capacity, sources, ours),
        write_windows(
            rt,
            other,
            other_workers,
            other_capacity,
            other_sources,
            theirs,
        ),
    )
}

// Where no slice that comes from a source is accepted under the root, nothing is written, whether or not a blob has that root.
pub fn write_windows_of_nothing<R: AllocGlobal + Threads + Sync, S: Source + Sync, W: Write>(
    rt: &R,
    wanted: &Wanted<'_>,
    workers: u32,
    capacity: u64,
    sources: &[S],
    out: &mut W,
) -> Result<u64, WindowsFault>
    requires { (piece : Piece) → IsFrom wanted.now S.contents S.faultless sources.now piece → IsAcceptedPiece (fixed_for wanted.now) piece → ⊥ }
    ensures { Keeps (W.contents out.old) (W.contents out.new) }
{
    write_windows(rt, wanted, workers, capacity, sources, out)
}
