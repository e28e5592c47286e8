// What `--verbose` reports about a file that is refused: where it is damaged, and which bytes of the blob that affects.

ghost use Rattle.std.specs.Prelude.{OnOk};
ghost use Rattle.std.specs.Io.KnownBytes.{Appends};
ghost use Rattle.bao_command.specs.ReportLines.{chunk_line, damage_line, long_line, parent_line, short_line};

use crate::gathering::last_of;
use b3tree::{CHUNK_LEN, Hash, Mode};
use bao_check::{CheckFault, check_outboard};
use bao_decode::read_outboard_on;
use bao_files::{Disk, Once};
use bao_tasks::{Span, Spot, spot_in_outboard, spot_in_slice};
use bao_text::{Part, outboard_len};
use std::alloc::Global;
use std::io;
use std::io::{Read, Write};

// Prints that a file ends too early.
fn tell_short<W: Write>(file: &str, at: u64, out: &mut W) -> io::Result<()>
    ensures { OnOk result (Appends (W.contents out.old) (W.contents out.new) (short_line file.now at)) }
{
    writeln!(
        out,
        "bao_gather: {file}: too short: ends within what begins at its byte {at}"
    )
}

// Prints that a file goes on past the end.
fn tell_long<W: Write>(file: &str, at: u64, out: &mut W) -> io::Result<()>
    ensures { OnOk result (Appends (W.contents out.old) (W.contents out.new) (long_line file.now at)) }
{
    writeln!(
        out,
        "bao_gather: {file}: too long: bytes follow its first {at}"
    )
}

// Prints at which of its own bytes a file is damaged.
fn tell_damage<W: Write>(file: &str, at: u64, out: &mut W) -> io::Result<()>
    ensures { OnOk result (Appends (W.contents out.old) (W.contents out.new) (damage_line file.now at)) }
{
    writeln!(out, "bao_gather: {file}: damaged at its byte {at}")
}

// Prints which bytes of the blob a damaged chunk has.
fn tell_chunk<W: Write>(file: &str, bytes: Span, out: &mut W) -> io::Result<()>
    ensures { OnOk result (Appends (W.contents out.old) (W.contents out.new) (chunk_line file.now bytes)) }
{
    let (first, last) = (bytes.at, last_of(bytes));
    writeln!(
        out,
        "bao_gather: {file}: damaged at bytes {first} to {last} of the blob"
    )
}

// Prints which bytes of the blob are below a damaged parent.
fn tell_parent<W: Write>(file: &str, bytes: Span, out: &mut W) -> io::Result<()>
    ensures { OnOk result (Appends (W.contents out.old) (W.contents out.new) (parent_line file.now bytes)) }
{
    let (first, last) = (bytes.at, last_of(bytes));
    writeln!(
        out,
        "bao_gather: {file}: damaged parent over bytes {first} to {last} of the blob"
    )
}

// Prints where a file is damaged: in the blob, if that is known, else in the file.
fn tell_spot<E: Write>(file: &str, at: u64, spot: Option<Spot>, err: &mut E) -> io::Result<()> {
    match spot {
        Some(spot) if spot.is_chunk => tell_chunk(file, spot.bytes, &mut Once(err)),
        Some(spot) => tell_parent(file, spot.bytes, &mut Once(err)),
        None => tell_damage(file, at, &mut Once(err)),
    }
}

// The length that an encoding claims. It is read again, so the file has to be regular.
fn claimed_again<D: Disk>(disk: &D, path: &str) -> Option<u64> {
    if !is_regular(disk, path) {
        return None;
    }
    let mut file = disk.open(path).ok()?;
    let mut head = [0; 8];
    file.read_exact(&mut head).ok()?;
    Some(u64::from_le_bytes(head))
}

// Whether the file at the path is regular, so that it can be read again.
fn is_regular<D: Disk>(disk: &D, path: &str) -> bool {
    match disk.look(path) {
        Some(extent) => extent.is_regular,
        None => false,
    }
}

// What is at an offset of a combined encoding or a slice, in the file at this path.
fn spot_of_part<D: Disk>(disk: &D, part: &Part, path: &str, at: u64) -> Option<Spot> {
    let total = claimed_again(disk, path)?;
    match part {
        Part::Whole => spot_in_slice(total, 0, u64::MAX, at),
        Part::Slice { start, len } => spot_in_slice(total, *start, *len, at),
    }
}

// What is at an offset of an outboard encoding, in the file at this path.
fn spot_of_outboard<D: Disk>(disk: &D, path: &str, at: u64) -> Option<Spot> {
    spot_in_outboard(claimed_again(disk, path)?, at)
}

// The chunk that begins at an offset of a plain copy of a blob of `total` bytes.
fn spot_of_copy(total: u64, at: u64) -> Spot {
    let end = at.saturating_add(CHUNK_LEN as u64).min(total);
    Spot {
        is_chunk: true,
        bytes: Span { at, end },
    }
}

// Prints what is wrong with a file. `spot` is what is damaged, if it is known.
fn tell_fault<E: Write>(
    file: &str,
    fault: CheckFault,
    spot: Option<Spot>,
    err: &mut E,
) -> io::Result<()> {
    match fault {
        CheckFault::Short { at } => tell_short(file, at, &mut Once(err)),
        CheckFault::Trailing { at } => tell_long(file, at, &mut Once(err)),
        CheckFault::Mismatch { at } => tell_spot(file, at, spot, err),
        CheckFault::Memory | CheckFault::Reader => Ok(()),
    }
}

// At which offset a file is damaged, if it is.
fn damaged_at(fault: CheckFault) -> Option<u64> {
    match fault {
        CheckFault::Mismatch { at } => Some(at),
        _ => None,
    }
}

// The offset of an encoding's first node, after the length.
const FIRST_NODE: u64 = 8;

// Whether a regular file can't be a combined encoding, whatever the root, since one of the length that it claims has another size.
pub(crate) fn is_no_encoding<D: Disk>(disk: &D, path: &str) -> bool {
    let Some(total) = claimed_again(disk, path) else {
        return false;
    };
    match disk.look(path) {
        Some(extent) => u128::from(extent.len) != outboard_len(total) + u128::from(total),
        None => false,
    }
}

// Prints that.
pub(crate) fn tell_no_encoding<E: Write>(file: &str, err: &mut E) -> io::Result<()> {
    writeln!(
        Once(err),
        "bao_gather: {file}: not a combined encoding of ROOT; for a plain copy, use --outboard"
    )
}

// Prints what is wrong with a combined encoding or a slice. A write that fails has no effect.
pub(crate) fn tell_encoding<D: Disk, E: Write>(
    disk: &D,
    part: &Part,
    file: &str,
    fault: CheckFault,
    err: &mut E,
) {
    let spot = match damaged_at(fault) {
        Some(FIRST_NODE) if matches!(part, Part::Whole) && is_no_encoding(disk, file) => {
            let _ = tell_no_encoding(file, err);
            return;
        }
        Some(at) => spot_of_part(disk, part, file, at),
        None => None,
    };
    let _ = tell_fault(file, fault, spot, err);
}

// Prints what is wrong with an outboard encoding.
pub(crate) fn tell_outboard<D: Disk, E: Write>(
    disk: &D,
    file: &str,
    fault: CheckFault,
    err: &mut E,
) {
    let spot = match damaged_at(fault) {
        Some(FIRST_NODE) => {
            let _ = writeln!(
                Once(err),
                "bao_gather: {file}: not the outboard encoding of ROOT: check ROOT, the key and --context"
            );
            return;
        }
        Some(at) => spot_of_outboard(disk, file, at),
        None => None,
    };
    let _ = tell_fault(file, fault, spot, err);
}

// Prints which of an outboard encoding and a copy is damaged, and where. The outboard encoding is read again for it. A write that fails has no
// effect.
pub(crate) fn tell_beside<D: Disk, E: Write>(
    alloc: Global,
    disk: &D,
    mode: &Mode,
    root: &Hash,
    outboard: &str,
    copy: &str,
    fault: CheckFault,
    err: &mut E,
) {
    if !is_regular(disk, outboard) {
        return;
    }
    let Ok(text) = read_outboard_on(alloc, disk, mode, root, outboard) else {
        return;
    };
    match check_outboard(alloc, mode, root, text.as_slice()) {
        Ok(outline) => {
            let total = outline.claimed();
            let spot = damaged_at(fault).map(|at| spot_of_copy(total, at));
            let _ = tell_fault(copy, fault, spot, err);
        }
        Err(CheckFault::Memory) => {}
        Err(fault) => tell_outboard(disk, outboard, fault, err),
    }
}

// Prints what is damaged of the files that a slice was cut out of, an encoding or an outboard encoding and a copy, and at which bytes of the blob. The
// length is read again for it. A write that fails has no effect.
pub(crate) fn tell_cut<D: Disk, E: Write>(
    disk: &D,
    start: u64,
    len: u64,
    outboard: Option<&str>,
    file: &str,
    fault: CheckFault,
    err: &mut E,
) {
    let (CheckFault::Short { at } | CheckFault::Mismatch { at }) = fault else {
        return;
    };
    let parents = outboard.unwrap_or(file);
    let Some(total) = claimed_again(disk, parents) else {
        return;
    };
    let Some(spot) = spot_in_slice(total, start, len, at) else {
        return;
    };
    let damaged = if spot.is_chunk { file } else { parents };
    let _ = tell_spot(damaged, at, Some(spot), err);
}
