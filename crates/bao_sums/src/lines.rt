// Lines with a hash and a path.

ghost use Rattle.std.specs.Prelude.{◌≡◌, ◌++◌, ◌∷◌, [], IfOk, OnOk, true};
ghost use Rattle.std.specs.List.{list_any};
ghost use Rattle.bao_sums.specs.Sums.{escaped, escaped_byte, is_special, mark, shown, sum_line};

use b3tree::Hash;
use std::alloc::{AllocError, Global};

// Whether a byte of a path is written as two.
fn is_special(byte: u8) -> bool
    ensures { result ≡ is_special byte }
{
    byte == b'\\' || byte == b'\n'
}

// Whether a path has such a byte.
fn has_special(path: &[u8]) -> bool
    ensures { result ≡ list_any is_special path.now }
{
    let mut has = false;
    'bytes: for byte in path {
        has = has || is_special(*byte);
    }
    has
}

// Appends what marks a line whose path has such a byte.
fn put_mark(path: &[u8], line: &mut Vec<u8>) -> Result<(), AllocError>
    ensures { OnOk result (line.new.items ≡ line.old.items ++ mark path.now) }
{
    if has_special(path) {
        line.push(b'\\')?;
    }
    Ok(())
}

// Appends a byte of a path, as it is written.
fn put_byte(byte: u8, line: &mut Vec<u8>) -> Result<(), AllocError>
    ensures { OnOk result (line.new.items ≡ line.old.items ++ escaped_byte byte) }
{
    match byte {
        b'\\' => line.extend_from_slice(b"\\\\"),
        b'\n' => line.extend_from_slice(b"\\n"),
        _ => Ok(line.push(byte)?),
    }
}

// Appends a path, as it is written.
fn put_path(path: &[u8], line: &mut Vec<u8>) -> Result<(), AllocError>
    ensures { OnOk result (line.new.items ≡ line.old.items ++ escaped path.now) }
{
    for byte in path {
        put_byte(*byte, line)?;
    }
    Ok(())
}

/// Appends a path as it is shown.
pub(crate) fn put_shown(path: &[u8], line: &mut Vec<u8>) -> Result<(), AllocError>
    ensures { OnOk result (line.new.items ≡ line.old.items ++ shown path.now) }
{
    put_mark(path, line)?;
    put_path(path, line)
}

/// Returns the line of a hash and a path, without a line feed.
pub(crate) fn sum_line(alloc: Global, digest: &Hash, path: &[u8]) -> Result<Vec<u8>, AllocError>
    ensures { IfOk result (λ line. line.items ≡ sum_line digest.now.0 path.now) }
{
    let digits = hex::encode(alloc, &digest.0)?;
    let mut line = Vec::new(alloc);
    put_mark(path, &mut line)?;
    line.extend_from_slice(digits.as_bytes())?;
    line.extend_from_slice(b"  ")?;
    put_path(path, &mut line)?;
    Ok(line)
}
