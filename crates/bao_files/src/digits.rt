ghost use Rattle.std.specs.Prelude.{◌≡◌, ◌↔◌, ◌⊎◌, ◌+◌, ◌-◌, ◌^◌, ◌≤◌, ℕ, List, IfErr, IfSome, IsSome};
ghost use Rattle.hex.specs.Hex.{decode_of};
ghost use Rattle.b3tree.specs.declared.mode.Mode.{Mode};
ghost use Rattle.b3tree.specs.Hashing.{stream};
ghost use Rattle.b3tree.specs.Taken.{Holds};
ghost use Rattle.bao_files.specs.Printed.{IsDigits, Prints, digits_line, ok_line};

use crate::fault::FileFault;
use b3tree::Hasher;
use bao_text::write_text;
use hex::FromHex;
use std::alloc::Global;
use std::io::Write;

// The 32 bytes that 64 hexadecimal digits of either case give.
pub(crate) fn decoded(digits: &[u8]) -> Option<[u8; 32]>
    ensures value { IfSome result (λ bytes. decode_of digits.now ≡ Ok bytes) }
    ensures found { IsSome result ↔ IsDigits digits.now }
{
    <[u8; 32] as FromHex>::from_hex(digits).ok()
}

/// Returns the 32 bytes that `text` writes as 64 hexadecimal digits of either case.
pub fn bytes_of_digits(text: &str) -> Option<[u8; 32]>
    ensures value { IfSome result (λ bytes. decode_of text.now ≡ Ok bytes) }
    ensures found { IsSome result ↔ IsDigits text.now }
{
    decoded(text.as_bytes())
}

/// Writes `text` to `out`, and flushes it. Refuses only with `Output`; a beginning of the text may then be
/// written.
pub fn print_text<'a, W: Write>(text: &[u8], out: &mut W) -> Result<(), FileFault<'a>>
    ensures prints { Prints text.now (W.contents out.old) (W.contents out.new) result }
    ensures fault { IfErr result (λ fault. fault ≡ FileFault.Output) }
{
    if write_text(text, out).is_err() {
        return Err(FileFault::Output);
    }
    match out.flush() {
        Ok(()) => Ok(()),
        Err(_) => Err(FileFault::Output),
    }
}

/// Writes `bytes` in lower-case hexadecimal digits, and a line end, to `out`.
///
/// Refuses with `Memory`, and nothing is then written, and with `Output`, when a beginning of the line may be.
pub fn print_digits<'a, W: Write>(
    alloc: Global,
    bytes: &[u8],
    out: &mut W,
) -> Result<(), FileFault<'a>>
    ensures prints { Prints (digits_line bytes.now) (W.contents out.old) (W.contents out.new) result }
    ensures fault { IfErr result (λ fault. (fault ≡ FileFault.Memory) ⊎ (fault ≡ FileFault.Output)) }
{
    let mut line = hex::encode(alloc, bytes)?;
    line.push('\n')?;
    print_text(line.as_bytes(), out)
}

/// Writes `ok`, the number of bytes written, and a line end to `out`.
///
/// Refuses with `Memory`, and nothing is then written, and with `Output`, when a beginning of the line may be.
pub fn print_count<'a, W: Write>(
    alloc: Global,
    count: u64,
    out: &mut W,
) -> Result<(), FileFault<'a>>
    ensures prints { Prints (ok_line count) (W.contents out.old) (W.contents out.new) result }
    ensures fault { IfErr result (λ fault. (fault ≡ FileFault.Memory) ⊎ (fault ≡ FileFault.Output)) }
{
    let counted = format!(in alloc; "ok {count}\n")?;
    print_text(counted.as_bytes(), out)
}

/// Writes `len` bytes of the extended output of the input of `hasher`, from byte `at` of the output on, to
/// `out`, in lower-case hexadecimal digits, and a line end.
///
/// Refuses with `Memory`, and nothing is then written, and with `Output`, when a beginning of the line may be.
pub fn print_output<'a, W: Write>(
    alloc: Global,
    hasher: &Hasher,
    at: u64,
    len: u32,
    out: &mut W,
) -> Result<(), FileFault<'a>>
    requires { at + len ≤ 2 ^ 64 - 1 }
    ensures prints { (mode : Mode) (s : List ℕ) → Holds hasher.now mode s
        → Prints (digits_line (stream mode s at len)) (W.contents out.old) (W.contents out.new) result }
    ensures fault { IfErr result (λ fault. (fault ≡ FileFault.Memory) ⊎ (fault ≡ FileFault.Output)) }
{
    let mut output = vec![in alloc; 0u8; len as usize]?;
    hasher.finalize_xof(at, output.as_mut_slice());
    print_digits(alloc, output.as_slice(), out)
}
