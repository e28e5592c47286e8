// What the lines of a text say.

ghost use Rattle.std.specs.Prelude.{◌≡◌, ◌≢◌, ◌↔◌, ◌∷◌, ℕ, List, length, map, false, true, OnOk, IfOk, IfSome, IsSomeAnd, None, Some};
ghost use Rattle.std.specs.List.{list_any};
ghost use Rattle.hex.specs.Hex.{encode_lower};
ghost use Rattle.b3tree.specs.Valid.{AreBytes};
ghost use Rattle.bao_sums.specs.Sums.{AreSums, IsLineOf, Says, Sum, escaped, is_special, sum_line};
ghost use Rattle.bao_sums.specs.Found.{AddsLine, found_sum, sum_of};

use crate::lines::sum_line;
use crate::report::{Telling, tell_bad_line};
use b3tree::{Hash, bytes_are};
use hex::FromHex;
use std::alloc::{AllocError, Global};
use std::io::Write;

// The digits of a hash.
const DIGITS: usize = 64;

// What stands before the path of a line: the digits and two spaces.
const BEFORE_PATH: usize = 66;

/// What a line says.
#[derive(Drop)]
pub(crate) struct SumLine {
    pub(crate) digest: Hash,
    pub(crate) path: String,
}

// The parts of a line that is long enough: whether it is marked, its digits, and its path as it is written.
#[derive(Clone, Copy)]
struct Parts<'a> {
    is_marked: bool,
    digits: &'a [u8],
    path: &'a [u8],
}

// A line without its mark, and whether it has one.
fn unmarked(line: &[u8]) -> (bool, &[u8])
    ensures marked { (rest : List ℕ) → line.now ≡ 92 ∷ rest → (result.0 ≡ true) × (result.1.now ≡ rest) }
    ensures plain { (first : ℕ) (rest : List ℕ) → line.now ≡ first ∷ rest → first ≢ 92 → (result.0 ≡ false) × (result.1.now ≡ line.now) }
{
    if !line.is_empty() && line[0] == b'\\' {
        return (true, &line[1..]);
    }
    (false, line)
}

fn parts_of(line: &[u8]) -> Option<Parts<'_>>
    ensures { (sum : Sum) → IsLineOf line.now sum → IsSomeAnd result (λ parts.
        (parts.is_marked ≡ list_any is_special sum.path) × (parts.digits.now ≡ encode_lower sum.digest) × (parts.path.now ≡ escaped sum.path)) }
{
    let (is_marked, rest) = unmarked(line);
    if rest.len() < BEFORE_PATH {
        return None;
    }
    let (before, path) = rest.split_at(BEFORE_PATH);
    let (digits, _) = before.split_at(DIGITS);
    Some(Parts {
        is_marked,
        digits,
        path,
    })
}

// The hash with these digits.
fn digest_of(digits: &[u8]) -> Option<Hash>
    ensures { (digest : List ℕ) → length digest ≡ 32 → AreBytes digest → digits.now ≡ encode_lower digest → IsSomeAnd result (λ answer. answer.0 ≡ digest) }
{
    match <[u8; 32] as FromHex>::from_hex(digits) {
        Ok(bytes) => Some(Hash(bytes)),
        Err(_) => None,
    }
}

// The bytes of a path that is written with backslashes.
fn unescaped(alloc: Global, written: &[u8]) -> Result<Vec<u8>, AllocError>
    ensures { (path : List ℕ) → written.now ≡ escaped path → IfOk result (λ bytes. bytes.items ≡ path) }
{
    let mut bytes = Vec::new(alloc);
    let mut is_second = false;
    'bytes: for byte in written {
        if is_second {
            bytes.push(if *byte == b'n' { b'\n' } else { *byte })?;
            is_second = false;
        } else if *byte == b'\\' {
            is_second = true;
        } else {
            bytes.push(*byte)?;
        }
    }
    Ok(bytes)
}

// The path of a line.
fn path_of(alloc: Global, parts: &Parts<'_>) -> Result<Vec<u8>, AllocError>
    ensures { (path : List ℕ) → parts.now.is_marked ≡ list_any is_special path → parts.now.path.now ≡ escaped path → IfOk result (λ bytes. bytes.items ≡ path) }
{
    if parts.is_marked {
        unescaped(alloc, parts.path)
    } else {
        Vec::from_slice(alloc, parts.path)
    }
}

// Whether the line is that of this hash and path.
fn is_line(alloc: Global, line: &[u8], digest: &Hash, path: &str) -> Result<bool, AllocError>
    ensures { IfOk result (λ is. is ≡ true ↔ (line.now ≡ sum_line digest.now.0 path.now)) }
{
    let written = sum_line(alloc, digest, path.as_bytes())?;
    Ok(written.as_slice() == line)
}

// What a line says, if it has a hash and a path.
fn read_line(alloc: Global, line: &[u8]) -> Result<Option<SumLine>, AllocError>
    ensures { IfOk result (λ found. Says line.now (found_sum found)) }
{
    let Some(parts) = parts_of(line) else {
        return Ok(None);
    };
    let Some(digest) = digest_of(parts.digits) else {
        return Ok(None);
    };
    let Ok(path) = String::from_utf8(path_of(alloc, &parts)?) else {
        return Ok(None);
    };
    if !is_line(alloc, line, &digest, path.as_str())? {
        return Ok(None);
    }
    // A law, so that the proof has what it says: nothing runs.
    bytes_are(&digest.0);
    Ok(Some(SumLine { digest, path }))
}

// Adds what a line says, if it has a hash and a path.
fn add_line(alloc: Global, lines: &mut Vec<SumLine>, line: &[u8]) -> Result<(), AllocError>
    ensures { OnOk result (AddsLine line.now (map sum_of lines.old.items) (map sum_of lines.new.items)) }
{
    match read_line(alloc, line)? {
        Some(sum) => Ok(lines.push(sum)?),
        None => Ok(()),
    }
}

/// Returns what the lines say that have a hash and a path, in order.
pub(crate) fn read_lines(alloc: Global, text: &[u8]) -> Result<Vec<SumLine>, AllocError>
    ensures { IfOk result (λ lines. AreSums text.now (map sum_of lines.items)) }
{
    let mut lines = Vec::new(alloc);
    'lines: for line in text.split(|byte| *byte == b'\n') {
        add_line(alloc, &mut lines, line)?;
    }
    Ok(lines)
}

/// Reports the other lines, if they aren't empty.
pub(crate) fn report_lines<E: Write>(
    alloc: Global,
    text: &[u8],
    telling: Telling<'_>,
    err: &mut E,
) -> Result<(), AllocError> {
    let mut number = 0u64;
    for line in text.split(|byte| *byte == b'\n') {
        number = number.saturating_add(1);
        if !line.is_empty() && read_line(alloc, line)?.is_none() {
            tell_bad_line(telling, number, err);
        }
    }
    Ok(())
}
