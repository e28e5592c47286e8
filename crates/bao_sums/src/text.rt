// The file with the lines.

ghost use Rattle.std.specs.Prelude.{◌≡◌, ◌⊎◌, ◌<◌, ◌≤◌, length, Err, IfErr, IfOk, IfSome, None, Ok, Some};
ghost use Rattle.b3par.specs.Given.{HasOther};
ghost use Rattle.bao_files.specs.Disks.{AreOf, IsStored};
ghost use Rattle.bao_files.specs.declared.fault.FileFault.TheVariants as FileFault;
ghost use Rattle.bao_sums.specs.Checked.{IsTooLong};
ghost use Rattle.bao_sums.specs.declared.fault.SumsFault.TheVariants as SumsFault;

use crate::fault::SumsFault;
use crate::one::regular_len;
use b3par::{Source, ends_at, fill};
use b3tree::bytes_are;
use bao_files::{Disk, FileFault, read_input};
use std::alloc::{AllocError, Global};
use std::io::Read;

/// The most bytes of a file with lines to be checked.
pub const MOST_SUMS_BYTES: u64 = 64 << 20;

// All bytes of a file that is said to have `len` of them, if it has.
fn read_placed<S: Source>(
    alloc: Global,
    source: &S,
    len: u64,
) -> Result<Option<Vec<u8>>, AllocError>
    ensures all { IfOk result (λ found. IfSome found (λ bytes. IfSome (S.contents source.now) (λ s. bytes.items ≡ s))) }
    ensures len { IfOk result (λ found. IfSome found (λ bytes. length bytes.items ≡ len)) }
    ensures other { result ≡ Ok None → HasOther (S.contents source.now) (S.faultless source.now) len }
{
    let mut bytes = vec![in alloc; 0u8; len as usize]?;
    if fill(source, 0, bytes.as_mut_slice()).is_err() || !ends_at(source, len) {
        return Ok(None);
    }
    Ok(Some(bytes))
}

// The bytes that a reader has left, if they aren't too many.
fn read_rest<'a, I: Read>(
    alloc: Global,
    input: &mut I,
    path: &'a str,
) -> Result<Vec<u8>, SumsFault<'a>>
    ensures all { IfOk result (λ bytes. IfSome (I.remaining input.old) (λ left. bytes.items ≡ left)) }
    ensures few { IfOk result (λ bytes. length bytes.items ≤ 67108864) }
    ensures long { result ≡ Err SumsFault.TooLong → IfSome (I.remaining input.old) (λ left. 67108864 < length left) }
    ensures fault { IfErr result (λ fault. (fault ≡ SumsFault.TooLong) ⊎ (fault ≡ SumsFault.File FileFault.Memory) ⊎ (fault ≡ SumsFault.File (FileFault.Read path.entry))) }
{
    let mut few = input.take(MOST_SUMS_BYTES + 1);
    let bytes = read_input(alloc, &mut few, 0, path)?;
    if bytes.len() as u64 > MOST_SUMS_BYTES {
        return Err(SumsFault::TooLong);
    }
    Ok(bytes)
}

// All bytes of an input, if they aren't too many: by position, if it has as many as a regular file is said to have.
fn read_opened<'a, I: Read + Source>(
    alloc: Global,
    input: &mut I,
    len: Option<u64>,
    path: &'a str,
) -> Result<Vec<u8>, SumsFault<'a>>
    ensures all { IfOk result (λ bytes. IfSome (I.contents input.old) (λ s. I.remaining input.old ≡ Some s → bytes.items ≡ s)) }
    ensures few { IfOk result (λ bytes. length bytes.items ≤ 67108864) }
    ensures long { result ≡ Err SumsFault.TooLong → IfSome (I.contents input.old) (λ s. I.remaining input.old ≡ Some s → IfSome len (λ n. n ≡ length s) → 67108864 < length s) }
    ensures fault { IfErr result (λ fault. (fault ≡ SumsFault.TooLong) ⊎ (fault ≡ SumsFault.File FileFault.Memory) ⊎ (fault ≡ SumsFault.File (FileFault.Read path.entry))) }
    ensures other { IfErr result (λ fault. fault ≡ SumsFault.File (FileFault.Read path.entry) → IfSome len (λ n. HasOther (I.contents input.old) (I.faultless input.old) n)) }
{
    let Some(len) = len else {
        return read_rest(alloc, input, path);
    };
    if len > MOST_SUMS_BYTES {
        return Err(SumsFault::TooLong);
    }
    match read_placed(alloc, input, len)? {
        Some(bytes) => Ok(bytes),
        None => read_rest(alloc, input, path),
    }
}

/// Returns the bytes of the file at `path`, if they aren't too many.
pub(crate) fn read_text<'a, D: Disk>(
    alloc: Global,
    disk: &D,
    path: &'a str,
) -> Result<Vec<u8>, SumsFault<'a>>
    ensures text { IfOk result (λ text. AreOf (D.at disk.now path.now) text.items) }
    ensures few { IfOk result (λ text. length text.items ≤ 67108864) }
    ensures long { result ≡ Err SumsFault.TooLong → IsTooLong (D.at disk.now path.now) }
    ensures fault { IfErr result (λ fault. (fault ≡ SumsFault.TooLong) ⊎ (fault ≡ SumsFault.File FileFault.Memory) ⊎ (fault ≡ SumsFault.File (FileFault.Read path.entry))) }
    ensures unread { IfErr result (λ fault. fault ≡ SumsFault.File (FileFault.Read path.entry) → D.faultless disk.now → ¬ IsStored (D.at disk.now path.now)) }
{
    let mut input = disk.open(path)?;
    let len = regular_len(disk.extent(&input));
    let bytes = read_opened(alloc, &mut input, len, path)?;
    // A law, so that the proof has what it says: nothing runs.
    bytes_are(bytes.as_slice());
    Ok(bytes)
}
