ghost use Rattle.std.specs.Prelude.{◌≡◌, ◌⊎◌, ◌<◌, ◌≤◌, ◌++◌, ◌∷◌, ℕ, List, [], length, take, IfErr, IfOk, IfSome};
ghost use Rattle.std.specs.Io.KnownBytes.{Consumes, IsAtEnd};
ghost use Rattle.b3tree.specs.Valid.{AreBytes};
ghost use Rattle.bao_files.specs.Keys.{GivesKey, IsKeyText};

use crate::digits::decoded;
use crate::fault::FileFault;
use crate::input::InputFault;
use b3tree::bytes_are;
use std::io::Read;

// The most bytes of a file that matter to the key in it: 64 digits, a line end, and a byte that is one too many.
const MOST_LEN: usize = 66;

// Reads into `room` until that is full or the reader at its end, and answers how many bytes that were.
fn read_start<R: Read>(reader: &mut R, room: &mut [u8]) -> Result<usize, InputFault>
    ensures room { length room.new ≡ length room.old }
    ensures bound { IfOk result (λ count. count ≤ length room.old) }
    ensures start { IfOk result (λ count. Consumes (R.remaining reader.old) (R.remaining reader.new) (take count room.new)) }
    ensures end { IfOk result (λ count. count < length room.old → IsAtEnd (R.remaining reader.new)) }
    ensures taken { (taken : List ℕ) × (length taken ≤ length room.old) × Consumes (R.remaining reader.old) (R.remaining reader.new) taken }
{
    let mut filled = 0;
    'reads: while filled < room.len() {
        match reader.read(&mut room[filled..]) {
            Ok(0) => return Ok(filled),
            Ok(count) => filled += count,
            Err(_) => return Err(InputFault::Reader),
        }
    }
    Ok(filled)
}

// The bytes without the line end that they may have.
fn without_line_end(bytes: &[u8]) -> &[u8]
    ensures cut { (digits : List ℕ) → IsKeyText bytes.now digits → result.now ≡ digits }
    ensures rest { (bytes.now ≡ result.now) ⊎ (bytes.now ≡ result.now ++ 10 ∷ []) }
{
    match bytes.strip_suffix(b"\n") {
        Some(digits) => digits,
        None => bytes,
    }
}

// The key that the bytes give.
fn key_of(bytes: &[u8]) -> Option<[u8; 32]>
    ensures { GivesKey bytes.now result }
{
    decoded(without_line_end(bytes))
}

/// Returns the key that `input`, the file at `path`, has left: 64 hexadecimal digits of either case, and at
/// most one line end after them. `None` if it has anything else.
///
/// At most 66 bytes are read. Refuses with `Read` if a read fails (also with the kind `Interrupted`; it isn't
/// retried).
pub fn read_key<'a, I: Read>(
    input: &mut I,
    path: &'a str,
) -> Result<Option<[u8; 32]>, FileFault<'a>>
    ensures key { IfOk result (λ key. IfSome (I.remaining input.old) (λ left. GivesKey left key)) }
    ensures some { IfOk result (λ key. (bytes : List ℕ) × AreBytes bytes × GivesKey bytes key) }
    ensures taken { (taken : List ℕ) × (length taken ≤ 66) × Consumes (I.remaining input.old) (I.remaining input.new) taken }
    ensures fault { IfErr result (λ fault. fault ≡ FileFault.Read path.entry) }
{
    let mut room = [0; MOST_LEN];
    match read_start(input, &mut room) {
        Ok(count) => {
            let bytes = &room[..count];
            // A law, so that the proof has what it says: nothing runs.
            bytes_are(bytes);
            Ok(key_of(bytes))
        }
        Err(_) => Err(FileFault::Read(path)),
    }
}
