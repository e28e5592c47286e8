// Encodings that are read and checked, and what is written of them.

ghost use Rattle.std.specs.Prelude.{◌≡◌, ◌^◌, ◌<◌, ℕ, List, [], IfOk, IfSome, OnErr, OnOk, length};
ghost use Rattle.bao_check.specs.Accepted.{IsAccepted, slice_nodes};
ghost use Rattle.bao_check.specs.Checked.{piece_len, piece_mode, piece_root, piece_start, piece_text};
ghost use Rattle.bao_decode.specs.Copies.{IsCopyBeside};
ghost use Rattle.bao_decode.specs.CopyPass.{IsGoodCopy};
ghost use Rattle.bao_decode.specs.Ranges.{IsPartText};
ghost use Rattle.bao_decode.specs.declared.decode_fault.DecodeFault.TheVariants as DecodeFault;
ghost use Rattle.bao_files.specs.Disks.{Absent, IsKnown, Stored};
ghost use Rattle.bao_files.specs.declared.fault.FileFault.TheVariants as FileFault;
ghost use Rattle.bao_text.specs.Cut.{cut_text};
ghost use Rattle.bao_text.specs.declared.kinds.Part.TheVariants as Part;
ghost use Rattle.determined_texts.specs.Texts.{AgreeOfBytes, SamePiece};
ghost use Rattle.determined_texts.specs.Agreeing.{AgreeButFor, AgreeUnless};
ghost use Rattle.determined_program.specs.Files.{SameWhereKnown, SameWritten};
ghost use Rattle.determined_program.specs.Copies.{IsOfCopy, MayComeBeside, MayComeOfCopy};

use b3par::Source;
use b3tree::{Hash, Mode};
use bao_check::{CheckFault, Checked, Outline};
use bao_decode::{
    DecodeFault, decode_copy_on, decode_on, read_text, write_copy, write_decoded, write_draft,
    write_slice,
};
use bao_files::{Disk, Progress};
use bao_text::Part;
use std::alloc::{AllocGlobal, Global};
use std::io::{Read, Write};
use std::thread::Threads;

// What an accepted piece carries: a law, nothing runs.
fn is_accepted(answer: Result<Checked<'_>, CheckFault>)
    ensures { IfOk answer.entry (λ piece. IsAccepted (piece_mode piece) (piece_root piece) (piece_text piece) (slice_nodes (piece_text piece) (piece_start piece) (piece_len piece))) }
{
    if let Ok(piece) = answer {
        piece.is_accepted();
    }
}

// Memory may run out and a read may fail at any time; each other fault is determined.
pub fn read_text_determined<'a, R: Read, S: Read>(
    alloc: Global,
    mode: &Mode,
    root: &Hash,
    start: u64,
    len: u64,
    ours: &mut R,
    theirs: &mut S,
    a: &'a mut Vec<u8>,
    b: &'a mut Vec<u8>,
) -> (
    Result<Checked<'a>, CheckFault>,
    Result<Checked<'a>, CheckFault>,
)
    requires first { a.old.items ≡ [] }
    requires second { b.old.items ≡ [] }
    requires same { R.remaining ours.old ≡ S.remaining theirs.old }
    ensures { IfSome (R.remaining ours.old) (λ _. AgreeOfBytes SamePiece result.0 result.1) }
{
    let one = read_text(alloc, mode, root, start, len, ours, a);
    let other = read_text(alloc, mode, root, start, len, theirs, b);
    is_accepted(one);
    is_accepted(other);
    (one, other)
}

// Memory may run out at any time, and a read of a source that isn't faultless may fail. Writing may fail too, but that is returned only if the
// encoding is accepted. Everything else is decided by the encoding, if it isn't longer than any file.
pub fn write_decoded_determined<
    'a,
    R: AllocGlobal + Threads + Sync,
    S: Source + Sync,
    T: Source + Sync,
    V: Write,
    W: Write,
>(
    rt: &R,
    mode: &Mode,
    root: &Hash,
    part: &Part,
    our_text: &S,
    their_text: &T,
    file: &'a str,
    ours: &mut V,
    theirs: &mut W,
    path: &'a str,
) -> (Result<u64, DecodeFault<'a>>, Result<u64, DecodeFault<'a>>)
    requires contents { S.contents our_text.now ≡ T.contents their_text.now }
    requires same { V.contents ours.old ≡ W.contents theirs.old }
    ensures answer { IfSome (S.contents our_text.now) (λ text. length text < 2 ^ 63 → AgreeUnless (λ m n. m ≡ n) (MayComeOfCopy (IsPartText mode.now root.now.0 part.now text) (S.faultless our_text.now) file.entry path.entry)
        (MayComeOfCopy (IsPartText mode.now root.now.0 part.now text) (T.faultless their_text.now) file.entry path.entry) result.0 result.1) }
    ensures written { IfSome (S.contents our_text.now) (λ text. length text < 2 ^ 63
        → IfSome (V.contents ours.old) (λ _. SameWritten IsOfCopy (V.contents ours.new) (W.contents theirs.new) result.0 result.1)) }
{
    let one = write_decoded(rt, mode, root, part, our_text, file, ours, path);
    let other = write_decoded(rt, mode, root, part, their_text, file, theirs, path);
    (one, other)
}

// The same for one pass. What it has written of a refused encoding is thrown away.
pub fn write_draft_determined<
    'a,
    R: AllocGlobal + Threads + Sync,
    S: Source + Sync,
    T: Source + Sync,
    V: Write,
    W: Write,
>(
    rt: &R,
    mode: &Mode,
    root: &Hash,
    part: &Part,
    our_text: &S,
    their_text: &T,
    file: &'a str,
    ours: &mut V,
    theirs: &mut W,
    path: &'a str,
) -> (Result<u64, DecodeFault<'a>>, Result<u64, DecodeFault<'a>>)
    requires contents { S.contents our_text.now ≡ T.contents their_text.now }
    requires same { V.contents ours.old ≡ W.contents theirs.old }
    ensures answer { IfSome (S.contents our_text.now) (λ text. length text < 2 ^ 63 → AgreeUnless (λ m n. m ≡ n) (MayComeOfCopy (IsPartText mode.now root.now.0 part.now text) (S.faultless our_text.now) file.entry path.entry)
        (MayComeOfCopy (IsPartText mode.now root.now.0 part.now text) (T.faultless their_text.now) file.entry path.entry) result.0 result.1) }
    ensures written { IfSome (S.contents our_text.now) (λ text. length text < 2 ^ 63
        → IfSome (V.contents ours.old) (λ _. SameWritten (λ _. ⊥) (V.contents ours.new) (W.contents theirs.new) result.0 result.1)) }
{
    let one = write_draft(rt, mode, root, part, our_text, file, ours, path);
    let other = write_draft(rt, mode, root, part, their_text, file, theirs, path);
    (one, other)
}

// Memory may run out at any time, and a read of a copy that isn't faultless may fail. Writing may fail too, but that is returned only if the copy
// is accepted. Everything else is decided by the copy.
pub fn write_copy_determined<'a, S: Source, T: Source, V: Write, W: Write>(
    alloc: Global,
    outline: &Outline<'_>,
    our_copy: &S,
    their_copy: &T,
    file: &'a str,
    ours: &mut V,
    theirs: &mut W,
    path: &'a str,
) -> (Result<u64, DecodeFault<'a>>, Result<u64, DecodeFault<'a>>)
    requires contents { S.contents our_copy.now ≡ T.contents their_copy.now }
    requires same { V.contents ours.old ≡ W.contents theirs.old }
    ensures answer { IfSome (S.contents our_copy.now) (λ copy. AgreeUnless (λ m n. m ≡ n) (MayComeOfCopy (IsGoodCopy outline.now copy) (S.faultless our_copy.now) file.entry path.entry)
        (MayComeOfCopy (IsGoodCopy outline.now copy) (T.faultless their_copy.now) file.entry path.entry) result.0 result.1) }
    ensures written { IfSome (S.contents our_copy.now) (λ _. IfSome (V.contents ours.old) (λ _. SameWritten IsOfCopy (V.contents ours.new) (W.contents theirs.new) result.0 result.1)) }
{
    let one = write_copy(alloc, outline, our_copy, file, ours, path);
    let other = write_copy(alloc, outline, their_copy, file, theirs, path);
    (one, other)
}

// The same for a slice that is cut out of an encoding.
pub fn write_slice_determined<'a, S: Source, T: Source, V: Write, W: Write>(
    alloc: Global,
    mode: &Mode,
    root: &Hash,
    start: u64,
    len: u64,
    our_text: &S,
    their_text: &T,
    file: &'a str,
    ours: &mut V,
    theirs: &mut W,
    path: &'a str,
) -> (Result<u64, DecodeFault<'a>>, Result<u64, DecodeFault<'a>>)
    requires contents { S.contents our_text.now ≡ T.contents their_text.now }
    requires same { V.contents ours.old ≡ W.contents theirs.old }
    ensures answer { IfSome (S.contents our_text.now) (λ text. length text < 2 ^ 64 → length (cut_text text start len) < 2 ^ 63
        → AgreeUnless (λ m n. m ≡ n) (MayComeOfCopy (IsPartText mode.now root.now.0 (Part.Slice start len) (cut_text text start len)) (S.faultless our_text.now) file.entry path.entry) (MayComeOfCopy (IsPartText mode.now root.now.0 (Part.Slice start len) (cut_text text start len)) (T.faultless their_text.now) file.entry path.entry) result.0 result.1) }
    ensures written { IfSome (S.contents our_text.now) (λ text. length text < 2 ^ 64 → length (cut_text text start len) < 2 ^ 63
        → IfSome (V.contents ours.old) (λ _. SameWritten IsOfCopy (V.contents ours.new) (W.contents theirs.new) result.0 result.1)) }
{
    let one = write_slice(alloc, mode, root, start, len, our_text, file, ours, path);
    let other = write_slice(
        alloc, mode, root, start, len, their_text, file, theirs, path,
    );
    (one, other)
}

// Memory may run out at any time, and on a disk that isn't faultless a read may fail. Writing may fail too, but that is returned only if the encoding
// is accepted. Everything else is decided by the encoding, if it isn't longer than any file, and both disks agree at each path that was known before.
pub fn decode_on_determined<
    'a,
    R: AllocGlobal + Threads + Sync,
    D: Disk,
    E: Disk,
    P: Progress + Sync,
>(
    rt: &R,
    ours: &mut D,
    theirs: &mut E,
    mode: &Mode,
    root: &Hash,
    part: &Part,
    file: &'a str,
    path: &'a str,
    progress: &P,
) -> (Result<u64, DecodeFault<'a>>, Result<u64, DecodeFault<'a>>)
    requires { (at : List ℕ) → D.at ours.old at ≡ E.at theirs.old at }
    ensures answer { IsKnown (D.at ours.old path.now) → (text : List ℕ) → D.at ours.old file.now ≡ Stored text → length text < 2 ^ 63
        → AgreeUnless (λ m n. m ≡ n) (MayComeOfCopy (IsPartText mode.now root.now.0 part.now text) (D.faultless ours.old) file.entry path.entry) (MayComeOfCopy (IsPartText mode.now root.now.0 part.now text) (E.faultless theirs.old) file.entry path.entry) result.0 result.1 }
    ensures absent { D.at ours.old file.now ≡ Absent
        → AgreeButFor (DecodeFault.File FileFault.Memory) (λ _ _. ⊥) result.0 result.1 }
    ensures put { IsKnown (D.at ours.old file.now) → OnOk result.0 (OnOk result.1 (SameWhereKnown (D.at ours.old) (D.at ours.new) (E.at theirs.new))) }
    ensures kept { OnErr result.0 (OnErr result.1 (SameWhereKnown (D.at ours.old) (D.at ours.new) (E.at theirs.new))) }
{
    (
        decode_on(rt, ours, mode, root, part, file, path, progress),
        decode_on(rt, theirs, mode, root, part, file, path, progress),
    )
}

// The same for a plain copy beside an outboard encoding.
pub fn decode_copy_on_determined<'a, D: Disk, E: Disk, P: Progress>(
    alloc: Global,
    ours: &mut D,
    theirs: &mut E,
    mode: &Mode,
    root: &Hash,
    outboard: &'a str,
    copy: &'a str,
    path: &'a str,
    progress: &P,
) -> (Result<u64, DecodeFault<'a>>, Result<u64, DecodeFault<'a>>)
    requires { (at : List ℕ) → D.at ours.old at ≡ E.at theirs.old at }
    ensures answer { IsKnown (D.at ours.old path.now) → (outline bytes : List ℕ) → D.at ours.old outboard.now ≡ Stored outline → D.at ours.old copy.now ≡ Stored bytes
        → AgreeUnless (λ m n. m ≡ n) (MayComeBeside (IsCopyBeside mode.now root.now.0 outline bytes) (D.faultless ours.old) outboard.entry copy.entry path.entry)
        (MayComeBeside (IsCopyBeside mode.now root.now.0 outline bytes) (E.faultless theirs.old) outboard.entry copy.entry path.entry) result.0 result.1 }
    ensures put { IsKnown (D.at ours.old copy.now) → OnOk result.0 (OnOk result.1 (SameWhereKnown (D.at ours.old) (D.at ours.new) (E.at theirs.new))) }
    ensures kept { OnErr result.0 (OnErr result.1 (SameWhereKnown (D.at ours.old) (D.at ours.new) (E.at theirs.new))) }
{
    (
        decode_copy_on(alloc, ours, mode, root, outboard, copy, path, progress),
        decode_copy_on(alloc, theirs, mode, root, outboard, copy, path, progress),
    )
}
