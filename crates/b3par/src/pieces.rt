ghost use Rattle.std.specs.Prelude.{◌≡◌, true, ◌+◌, ◌-◌, ◌*◌, ◌^◌, ◌<◌, ◌≤◌, List, ℕ, Some, length, IfErr, IfOk, IfSome, OnOk};
ghost use Rattle.b3par.specs.Encodings.{GainsText};
ghost use Rattle.b3par.specs.Given.{GivenAt, Lacks};

use crate::fault::ReadFault;
use crate::source::Source;
use b3tree::{CHUNK_LEN, Cv, Input, Mode, bytes_are, cv, left_len, parent_input};
use bao_text::{Choice, PARENT_LEN, append_subtree, put_parent};

/// The most bytes that a thread reads at once: few enough to stay in the processor's cache.
pub const PIECE_LEN: usize = 1 << 18;

/// Fills `buf` with the bytes of the source from offset `at` on, in as many reads as needed.
///
/// Refuses with `Reader` (312) if a read fails (also with the kind `Interrupted`; it isn't retried) or returns
/// no byte. The content of `buf` is then unspecified.
pub fn fill<S: Source>(source: &S, at: u64, buf: &mut [u8]) -> Result<(), ReadFault>
    requires { at + length buf.old ≤ 2 ^ 64 - 1 }
    ensures given { OnOk result (GivenAt (S.contents source.now) at buf.new) }
    ensures fault { IfErr result (λ fault. fault ≡ ReadFault.Reader) }
    ensures lacks { IfErr result (λ _. Lacks (S.contents source.now) (S.faultless source.now) (at + length buf.old)) }
    ensures some { IfErr result (λ _. 0 < length buf.old) }
{
    let mut filled = 0;
    'reads: while filled < buf.len() {
        match source.read_at(&mut buf[filled..], at + filled as u64) {
            Ok(0) | Err(_) => return Err(ReadFault::Reader),
            Ok(count) => filled += count,
        }
    }
    Ok(())
}

/// Returns whether the source has no byte at offset `len` or after it: `false` also if the read fails.
pub fn ends_at<S: Source>(source: &S, len: u64) -> bool
    ensures ends { result ≡ true → IfSome (S.contents source.now) (λ s. length s ≤ len) }
    ensures found { S.faultless source.now → IfSome (S.contents source.now) (λ s. length s ≤ len → result ≡ true) }
{
    matches!(source.read_at(&mut [0], len), Ok(0))
}

// As `append_in_pieces`, of bytes that lie in memory, where they stand.
pub(crate) fn append_at_hand(
    choice: &Choice,
    mode: &Mode,
    bytes: &[u8],
    first: u64,
    len: u64,
    text: &mut Vec<u8>,
) -> Result<Input, ReadFault>
    requires range { 1024 * first + len ≤ 2 ^ 64 - 1 }
    ensures text { IfOk result (λ top. GainsText (Some bytes.now) choice.now mode.now first len text.old.items text.new.items top) }
    ensures fault { IfErr result (λ fault. fault ≡ ReadFault.Reader → length bytes.now < 1024 * first + len) }
{
    let start = CHUNK_LEN as u64 * first;
    let end = start + len;
    if end > bytes.len() as u64 {
        return Err(ReadFault::Reader);
    }
    let part = &bytes[start as usize..end as usize];
    // A law, so that the proof has what it says: nothing runs.
    bytes_are(part);
    Ok(append_subtree(choice, mode, first, part, text)?)
}

// Appends what the choice wants of the subtree over `len` bytes of the source, which begin with chunk `first`, and
// answers the subtree's last compression. The bytes come in pieces through `piece`, and the place of a parent of several
// pieces is kept free until the values of its parts are there.
#[cycle(pieces)]
pub(crate) fn append_in_pieces<S: Source>(
    choice: &Choice,
    mode: &Mode,
    source: &S,
    first: u64,
    len: u64,
    piece: &mut [u8],
    text: &mut Vec<u8>,
) -> Result<Input, ReadFault>
    requires room { length piece.old < 1024 → len ≤ length piece.old }
    requires range { 1024 * first + len ≤ 2 ^ 64 - 1 }
    ensures room { length piece.new ≡ length piece.old }
    ensures text { IfOk result (λ top. GainsText (S.contents source.now) choice.now mode.now first len text.old.items text.new.items top) }
    ensures fault { IfErr result (λ fault. fault ≡ ReadFault.Reader → Lacks (S.contents source.now) (S.faultless source.now) (1024 * first + len)) }
{
    if len <= piece.len() as u64 {
        let part = &mut piece[..len as usize];
        fill(source, CHUNK_LEN as u64 * first, part)?;
        // A law, so that the proof has what it says: nothing runs.
        bytes_are(part);
        return Ok(append_subtree(choice, mode, first, part, text)?);
    }
    let at = text.len();
    let is_wanted = choice.wants(CHUNK_LEN as u64 * first, len);
    if is_wanted {
        text.extend_from_slice(&[0; PARENT_LEN])?;
    }
    let left_len = left_len(len);
    let right_len = len - left_len;
    let right_first = first + left_len / CHUNK_LEN as u64;
    let left = append_in_pieces(choice, mode, source, first, left_len, piece, text)?;
    let left = Cv(cv(&left));
    let right = append_in_pieces(choice, mode, source, right_first, right_len, piece, text)?;
    let right = Cv(cv(&right));
    if is_wanted {
        put_parent(text, at, &left, &right);
    }
    Ok(parent_input(mode, &left, &right))
}
