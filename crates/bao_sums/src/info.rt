ghost use Rattle.std.specs.Prelude.{◌≡◌, ◌++◌, length, IfErr, IfOk, IfSome, None, OnOk, is_some};
ghost use Rattle.std.specs.List.{list_all};
ghost use Rattle.bao_sums.specs.Each.{LeavesFirst, PrintsEach};
ghost use Rattle.b3par.specs.Given.{Lacks};
ghost use Rattle.bao_sums.specs.Hashed.{paths_of};
ghost use Rattle.bao_sums.specs.Kinds.{IsLookAt, IsLookOf, claim_of, kind_line, kind_text, seen_text};
ghost use Rattle.bao_sums.specs.Steps.{LeavesOne, PrintsOne};
ghost use Rattle.bao_sums.specs.Sums.{shown};

use crate::kinds::Seen;
use crate::lines::put_shown;
use crate::logic::{both, path_at};
use crate::one::regular_len;
use crate::report::{Telling, tell_unread};
use b3par::{Source, fill};
use bao_files::{Disk, FileFault, print_text};
use bao_text::{LENGTH_LEN, claimed, encoded_len, outboard_len};
use std::alloc::{AllocError, Global};
use std::io::Write;

// What a file says of itself, if it is regular and can be read.
fn look_at<D: Disk>(disk: &D, path: &str) -> Result<Option<Seen>, AllocError>
    ensures { IfOk result (IsLookOf (D.faultless disk.now) (D.at disk.now path.now)) }
{
    let input = match disk.open(path) {
        Ok(input) => input,
        Err(FileFault::Memory) => return Err(AllocError),
        Err(_) => return Ok(None),
    };
    let Some(size) = regular_len(disk.extent(&input)) else {
        return Ok(None);
    };
    Ok(seen_of(&input, size))
}

// What a source with so many bytes says of itself, if it can be read.
fn seen_of<S: Source>(source: &S, size: u64) -> Option<Seen>
    ensures some { IfSome result (λ seen. IfSome (S.contents source.now) (λ s. size ≡ length s → (seen.size ≡ length s) × (seen.claim ≡ claim_of s))) }
    ensures none { result ≡ None → Lacks (S.contents source.now) (S.faultless source.now) size }
{
    if size < LENGTH_LEN as u64 {
        return Some(Seen { size, claim: None });
    }
    let mut first = [0; LENGTH_LEN];
    match fill(source, 0, &mut first) {
        Ok(()) => Some(Seen {
            size,
            claim: Some(claimed(&first)),
        }),
        Err(_) => None,
    }
}

// Appends what a file may be that has this size and claims a length of `n` bytes.
fn put_kind(alloc: Global, size: u64, n: u64, line: &mut Vec<u8>) -> Result<(), AllocError>
    ensures { OnOk result (line.new.items ≡ line.old.items ++ kind_text size n) }
{
    let is_combined = u128::from(size) == encoded_len(n);
    let is_outboard = u128::from(size) == outboard_len(n);
    let text = match (is_combined, is_outboard) {
        (true, true) => {
            format!(in alloc; ": combined encoding or outboard file of {n} bytes, not verified\n")?
        }
        (true, false) => format!(in alloc; ": combined encoding of {n} bytes, not verified\n")?,
        (false, true) => format!(in alloc; ": outboard file of {n} bytes, not verified\n")?,
        (false, false) => format!(in alloc; ": plain file of {size} bytes\n")?,
    };
    line.extend_from_slice(text.as_bytes())
}

// The line of a file.
fn seen_line(alloc: Global, path: &str, seen: Seen) -> Result<Vec<u8>, AllocError>
    ensures { IfOk result (λ line. line.items ≡ shown path.now ++ seen_text seen seen.claim) }
{
    let mut line = Vec::new(alloc);
    put_shown(path.as_bytes(), &mut line)?;
    match seen.claim {
        Some(n) => put_kind(alloc, seen.size, n, &mut line)?,
        None => {
            let size = seen.size;
            let text = format!(in alloc; ": plain file of {size} bytes\n")?;
            line.extend_from_slice(text.as_bytes())?;
        }
    }
    Ok(line)
}

// Prints the line of the file at `path`, or reports that it can't be read. Returns whether it was.
fn info_one<'a, D: Disk, O: Write, E: Write>(
    alloc: Global,
    disk: &D,
    path: &str,
    telling: Telling<'_>,
    out: &mut O,
    err: &mut E,
) -> Result<bool, FileFault<'a>>
    ensures one { IfOk result (λ whole. PrintsOne (IsLookAt (D.faultless disk.now) (D.at disk.now)) kind_line path.now
        (O.contents out.old) (O.contents out.new) (λ look. whole ≡ is_some look)) }
    ensures fault { IfErr result (LeavesOne (IsLookAt (D.faultless disk.now) (D.at disk.now)) kind_line path.now (O.contents out.old) (O.contents out.new)) }
{
    match look_at(disk, path)? {
        Some(seen) => {
            let line = seen_line(alloc, path, seen)?;
            print_text(line.as_slice(), out)?;
            Ok(true)
        }
        None => {
            tell_unread(telling, disk, path, err);
            Ok(false)
        }
    }
}

/// Prints to `out` what each file may be, by its size and its first eight bytes: a combined encoding or an outboard
/// file of a blob, if one of the length that they claim has this size; else a plain file. Nothing is verified.
///
/// A file that can't be read, or isn't a regular one, has no line: it is told on `err`. Returns whether all
/// files have a line.
///
/// Refuses with `Memory`, when the lines of the first files have been printed, and with `Output`, when a beginning of
/// such lines has been.
pub fn info_files<'a, D: Disk, O: Write, E: Write>(
    alloc: Global,
    disk: &D,
    files: &[&str],
    telling: Telling<'_>,
    out: &mut O,
    err: &mut E,
) -> Result<bool, FileFault<'a>>
    ensures each { IfOk result (λ whole. PrintsEach (IsLookAt (D.faultless disk.now) (D.at disk.now)) kind_line (paths_of files.now)
        (O.contents out.old) (O.contents out.new) (λ looks. whole ≡ list_all is_some looks)) }
    ensures fault { IfErr result (LeavesFirst (IsLookAt (D.faultless disk.now) (D.at disk.now)) kind_line (paths_of files.now) (O.contents out.old) (O.contents out.new)) }
{
    let mut whole = true;
    'items: for index in 0..files.len() {
        let path = path_at(files, index);
        let is_seen = info_one(alloc, disk, path, telling, out, err)?;
        whole = both(whole, is_seen);
    }
    Ok(whole)
}
