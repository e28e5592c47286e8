// Encodings from readers that have the same left.

ghost use Rattle.std.specs.Prelude.{◌≡◌, [], IfErr, IfOk, IfSome, OnOk};
ghost use Rattle.std.specs.Io.KnownBytes.{Consumes};
ghost use Rattle.bao_check.specs.Streams.{IsReadFault};
ghost use Rattle.bao_check.specs.Accepted.{IsAccepted, slice_nodes};
ghost use Rattle.bao_check.specs.Checked.{piece_len, piece_mode, piece_root, piece_start, piece_text};
ghost use Rattle.determined_texts.specs.Texts.{AgreeOfBytes, IsOwn, SamePiece};

use b3tree::{Hash, Mode};
use bao_check::{CheckFault, Checked, check_stream, read_checked, read_piece};
use std::alloc::Global;
use std::io::Read;

// How much is read where memory or the reader fails isn't determined.
pub fn read_checked_determined<R: Read>(
    mode: &Mode,
    root: &Hash,
    start: u64,
    len: u64,
    ours: &mut R,
    theirs: &mut R,
    a: &mut Vec<u8>,
    b: &mut Vec<u8>,
) -> (Result<(), CheckFault>, Result<(), CheckFault>)
    requires first { a.old.items ≡ [] }
    requires second { b.old.items ≡ [] }
    requires same { R.remaining ours.old ≡ R.remaining theirs.old }
    ensures answer { IfSome (R.remaining ours.old) (λ all. AgreeOfBytes (λ _ _. a.new.items ≡ b.new.items) result.0 result.1) }
    ensures left { IfSome (R.remaining ours.old) (λ all. result.0 ≡ result.1 → IsOwn result.0
        → (a.new.items ≡ b.new.items) × (R.remaining ours.new ≡ R.remaining theirs.new)) }
{
    (
        read_checked(mode, root, start, len, ours, a),
        read_checked(mode, root, start, len, theirs, b),
    )
}

// What an accepted piece carries: a law, nothing runs.
fn is_accepted(answer: Result<Checked<'_>, CheckFault>)
    ensures { IfOk answer.entry (λ piece. IsAccepted (piece_mode piece) (piece_root piece) (piece_text piece) (slice_nodes (piece_text piece) (piece_start piece) (piece_len piece))) }
{
    if let Ok(piece) = answer {
        piece.is_accepted();
    }
}

// How much is read where memory or the reader fails isn't determined. What the vectors hold once nothing borrows them is asked of
// `read_piece` below: of `check_stream`, whose clause says the same, no caller's proof learns it.
pub fn check_stream_determined<'a, R: Read>(
    alloc: Global,
    mode: &Mode,
    root: &Hash,
    start: u64,
    len: u64,
    ours: &mut R,
    theirs: &mut R,
    a: &'a mut Vec<u8>,
    b: &'a mut Vec<u8>,
) -> (
    Result<Checked<'a>, CheckFault>,
    Result<Checked<'a>, CheckFault>,
)
    requires first { a.old.items ≡ [] }
    requires second { b.old.items ≡ [] }
    requires same { R.remaining ours.old ≡ R.remaining theirs.old }
    ensures answer { IfSome (R.remaining ours.old) (λ all. AgreeOfBytes SamePiece result.0 result.1) }
    ensures left { IfSome (R.remaining ours.old) (λ all. IsOwn result.0 → IsOwn result.1 → R.remaining ours.new ≡ R.remaining theirs.new) }
{
    let one = check_stream(alloc, mode, root, start, len, ours, a);
    let other = check_stream(alloc, mode, root, start, len, theirs, b);
    is_accepted(one);
    is_accepted(other);
    (one, other)
}

pub fn read_piece_determined<'a, R: Read>(
    a: &'a mut Vec<u8>,
    b: &'a mut Vec<u8>,
    mode: &Mode,
    root: &Hash,
    start: u64,
    len: u64,
    ours: &mut R,
    theirs: &mut R,
) -> (
    Result<Checked<'a>, CheckFault>,
    Result<Checked<'a>, CheckFault>,
)
    requires first { a.old.items ≡ [] }
    requires second { b.old.items ≡ [] }
    requires same { R.remaining ours.old ≡ R.remaining theirs.old }
    ensures { IfSome (R.remaining ours.old) (λ all. AgreeOfBytes SamePiece result.0 result.1) }
{
    let one = read_piece(a, mode, root, start, len, ours);
    let other = read_piece(b, mode, root, start, len, theirs);
    is_accepted(one);
    is_accepted(other);
    (one, other)
}

// What `read_piece` answers, and what the vector holds once nothing borrows it.
fn read_and_let_go<R: Read>(
    text: &mut Vec<u8>,
    mode: &Mode,
    root: &Hash,
    start: u64,
    len: u64,
    reader: &mut R,
) -> Result<(), CheckFault>
    requires { text.old.items ≡ [] }
    ensures reader { Consumes (R.remaining reader.old) (R.remaining reader.new) text.new.items }
    ensures ok { OnOk result (IsAccepted mode.now root.now.0 text.new.items (slice_nodes text.new.items start len)) }
    ensures fault { IfErr result (λ fault. IsReadFault mode.now root.now.0 start len text.new.items (R.remaining reader.new) fault) }
{
    match read_piece(text, mode, root, start, len, reader) {
        Ok(piece) => {
            piece.is_accepted();
            Ok(())
        }
        Err(fault) => Err(fault),
    }
}

// What the vectors hold once nothing borrows the pieces, and what the readers have left.
pub fn read_piece_left_determined<R: Read>(
    a: &mut Vec<u8>,
    b: &mut Vec<u8>,
    mode: &Mode,
    root: &Hash,
    start: u64,
    len: u64,
    ours: &mut R,
    theirs: &mut R,
) -> (Result<(), CheckFault>, Result<(), CheckFault>)
    requires first { a.old.items ≡ [] }
    requires second { b.old.items ≡ [] }
    requires same { R.remaining ours.old ≡ R.remaining theirs.old }
    ensures { IfSome (R.remaining ours.old) (λ all. result.0 ≡ result.1 → IsOwn result.0
        → (a.new.items ≡ b.new.items) × (R.remaining ours.new ≡ R.remaining theirs.new)) }
{
    (
        read_and_let_go(a, mode, root, start, len, ours),
        read_and_let_go(b, mode, root, start, len, theirs),
    )
}
