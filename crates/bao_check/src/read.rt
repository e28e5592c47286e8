ghost use Rattle.std.specs.Prelude.{◌≡◌, ◌-◌, ◌^◌, ◌<◌, [], List, ℕ, length, IfErr, IfOk, IfSome, MatchResult, OnOk};
ghost use Rattle.std.specs.Borrow.{sem};
ghost use Rattle.std.specs.Io.BufRead.{Rests};
ghost use Rattle.std.specs.Io.KnownBytes.{Consumes};
ghost use Rattle.bao_check.specs.Accepted.{IsAccepted, slice_nodes};
ghost use Rattle.bao_check.specs.Checked.{IsPiece, piece_text};
ghost use Rattle.bao_check.specs.Streams.{BeginsAccepted, IsOfBytes, IsReadFault, IsReadStop, IsStreamFault, bytes_row};

use crate::checked::Checked;
use crate::checking::begin;
use crate::fault::CheckFault;
use crate::stream::read_node;
use crate::waiting::{node_size, take_node};
use b3tree::{Hash, Mode};
use bao_text::LENGTH_LEN;
use std::alloc::Global;
use std::io::Read;

// Reads the length and then a node after another, each as far as it goes, and verifies each before the next is read.
fn read_nodes<R: Read>(
    mode: &Mode,
    root: &Hash,
    start: u64,
    len: u64,
    reader: &mut R,
    text: &mut Vec<u8>,
) -> Result<(), CheckFault>
    requires { text.old.items ≡ [] }
    ensures reader { Consumes (R.remaining reader.old) (R.remaining reader.new) text.new.items }
    ensures ok { OnOk result (IsAccepted mode.now root.now.0 text.new.items (slice_nodes text.new.items start len)) }
    ensures err { IfErr result (IsReadStop mode.now root.now.0 start len text.new.items (R.remaining reader.new)) }
{
    read_node(reader, text, LENGTH_LEN)?;
    let (choice, mut waiting) = begin(mode, root, start, len, text.as_slice())?;
    'nodes: while let Some(size) = node_size(&waiting) {
        let at = text.len();
        read_node(reader, text, size)?;
        let node = &text.as_slice()[at..];
        take_node(&choice, &mut waiting, mode, at as u64, node, None)?;
    }
    Ok(())
}

/// Reads an encoding from `reader` into `text`, which is empty, and checks it as the slice of `len` bytes from
/// byte `start` on of the blob with the hash `root` in `mode`, as `check_slice` does.
///
/// It is accepted exactly if what the reader has left begins with an accepted encoding. `text` then has that
/// encoding, and the reader the rest: a node is verified before the next is read, and no byte after the
/// encoding is read. `text` grows with the node that is read next, not with the claimed length.
///
/// Refuses with the first fault: 501 `Short` if a read returns no byte before a node's end, 502 `Mismatch`, 504
/// `Memory`, or 505 `Reader` if a read fails (also with the kind `Interrupted`); never 503. `text` then has
/// what was read, at most up to the end of the node at which the check ended.
pub fn read_checked<R: Read>(
    mode: &Mode,
    root: &Hash,
    start: u64,
    len: u64,
    reader: &mut R,
    text: &mut Vec<u8>,
) -> Result<(), CheckFault>
    requires { text.old.items ≡ [] }
    ensures reader { Consumes (R.remaining reader.old) (R.remaining reader.new) text.new.items }
    ensures ok { OnOk result (IsAccepted mode.now root.now.0 text.new.items (slice_nodes text.new.items start len)) }
    ensures fault { IfErr result (λ fault. IsReadFault mode.now root.now.0 start len text.new.items (R.remaining reader.new) fault) }
    ensures exact { IfSome (R.remaining reader.old) (λ all.
        MatchResult result (λ _. BeginsAccepted mode.now root.now.0 start len all) (IsStreamFault mode.now root.now.0 start len all)) }
    ensures refused { IfSome (R.remaining reader.old) (λ all. IfErr result (λ fault. IsOfBytes fault → ¬ BeginsAccepted mode.now root.now.0 start len all)) }
{
    read_nodes(mode, root, start, len, reader, text)
}

/// Reads and checks as `check_stream` does. Its first parameter is `text`: of no other does the proof of a caller
/// learn what it holds once nothing borrows it.
pub fn read_piece<'a, R: Read>(
    text: &'a mut Vec<u8>,
    mode: &Mode,
    root: &Hash,
    start: u64,
    len: u64,
    reader: &mut R,
) -> Result<Checked<'a>, CheckFault>
    requires { text.old.items ≡ [] }
    ensures* rests { sem 𝓛 (Rests bytes_row text.entry (λ last.
        MatchResult result (λ piece. last.items ≡ piece_text piece)
        (λ fault. Consumes (R.remaining reader.old) (R.remaining reader.new) last.items × IsReadFault mode.now root.now.0 start len last.items (R.remaining reader.new) fault))) }
    ensures piece { IfOk result (λ piece. IsPiece piece mode.now root.now.0 start len (piece_text piece)) }
    ensures size { IfOk result (λ piece. length (piece_text piece) < 2 ^ 64) }
    ensures reader { IfOk result (λ piece. Consumes (R.remaining reader.old) (R.remaining reader.new) (piece_text piece)) }
    ensures fault { IfErr result (λ fault.
        (read : List ℕ) × Consumes (R.remaining reader.old) (R.remaining reader.new) read × IsReadFault mode.now root.now.0 start len read (R.remaining reader.new) fault) }
    ensures exact { IfSome (R.remaining reader.old) (λ all.
        MatchResult result (λ _. BeginsAccepted mode.now root.now.0 start len all) (IsStreamFault mode.now root.now.0 start len all)) }
    ensures refused { IfSome (R.remaining reader.old) (λ all. IfErr result (λ fault. IsOfBytes fault → ¬ BeginsAccepted mode.now root.now.0 start len all)) }
{
    read_checked(mode, root, start, len, reader, text)?;
    Ok(Checked::new(mode, root, start, len, text.as_slice()))
}

/// Reads and checks as `read_checked` does, and returns the accepted slice, which borrows `text`.
///
/// `text` then has that encoding, or after a refusal what was read. Memory comes from its own allocator.
pub fn check_stream<'a, R: Read>(
    _alloc: Global,
    mode: &Mode,
    root: &Hash,
    start: u64,
    len: u64,
    reader: &mut R,
    text: &'a mut Vec<u8>,
) -> Result<Checked<'a>, CheckFault>
    requires { text.old.items ≡ [] }
    ensures* rests { sem 𝓛 (Rests bytes_row text.entry (λ last.
        MatchResult result (λ piece. last.items ≡ piece_text piece)
        (λ fault. Consumes (R.remaining reader.old) (R.remaining reader.new) last.items × IsReadFault mode.now root.now.0 start len last.items (R.remaining reader.new) fault))) }
    ensures piece { IfOk result (λ piece. IsPiece piece mode.now root.now.0 start len (piece_text piece)) }
    ensures size { IfOk result (λ piece. length (piece_text piece) < 2 ^ 64) }
    ensures reader { IfOk result (λ piece. Consumes (R.remaining reader.old) (R.remaining reader.new) (piece_text piece)) }
    ensures fault { IfErr result (λ fault.
        (read : List ℕ) × Consumes (R.remaining reader.old) (R.remaining reader.new) read × IsReadFault mode.now root.now.0 start len read (R.remaining reader.new) fault) }
    ensures exact { IfSome (R.remaining reader.old) (λ all.
        MatchResult result (λ _. BeginsAccepted mode.now root.now.0 start len all) (IsStreamFault mode.now root.now.0 start len all)) }
    ensures refused { IfSome (R.remaining reader.old) (λ all. IfErr result (λ fault. IsOfBytes fault → ¬ BeginsAccepted mode.now root.now.0 start len all)) }
{
    read_piece(text, mode, root, start, len, reader)
}
