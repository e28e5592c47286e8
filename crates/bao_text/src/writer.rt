ghost use Rattle.std.specs.Prelude.{◌≡◌, ◌≢◌, ◌+◌, ◌-◌, ◌*◌, ◌^◌, ◌<◌, length, IfErr, IfOk, OnOk};
ghost use Rattle.std.specs.Io.KnownBytes.{Appends};
ghost use Rattle.b3tree.specs.declared.mode.Mode.{Mode};
ghost use Rattle.b3tree.specs.Hashing.{hash};
ghost use Rattle.bao_text.specs.Choice.{chunk_count};
ghost use Rattle.bao_text.specs.Faults.{Writes, WroteOnly};
ghost use Rattle.bao_text.specs.Texts.{combined_text, joined, outboard_text};

use crate::fault::WriteFault;
use crate::pieces::{LEVELS, ROOM_LEN, SubtreeBytes, write_subtree};
use crate::sizes::LENGTH_LEN;
use crate::texts::outboard;
use b3tree::{Hash, Mode};
use std::alloc::Global;
use std::io::Write;

// Writes all of `text`, after `before` bytes of a larger encoding, by as many writes as it takes. The first
// that answers a fault, of whatever kind, or takes no byte is the last.
#[tactic(auto, using(crate::proofs::Writing::writes))]
pub(crate) fn write_after<W: Write>(
    before: u128,
    text: &[u8],
    out: &mut W,
) -> Result<(), WriteFault>
    requires { before + length text.now < 2 ^ 128 }
    ensures { Writes before (W.contents out.old) (W.contents out.new) text.now result }
{
    let mut written = 0;
    'writes: while written < text.len() {
        match out.write(&text[written..]) {
            Ok(0) | Err(_) => {
                return Err(WriteFault::Writer {
                    written: before + written as u128,
                });
            }
            Ok(count) => written += count,
        }
    }
    Ok(())
}

/// Writes all of `text` to `out`, in as many writes as needed, and doesn't flush.
///
/// Refuses with `Writer` (402) only if a write fails (also with the kind `Interrupted`) or writes no byte:
/// exactly the first `written` bytes were then written, and not all. It never returns `Memory`.
pub fn write_text<W: Write>(text: &[u8], out: &mut W) -> Result<(), WriteFault>
    ensures text { OnOk result (Appends (W.contents out.old) (W.contents out.new) text.now) }
    ensures err { IfErr result (WroteOnly (W.contents out.old) (W.contents out.new) text.now) }
    ensures no_memory { IfErr result (λ fault. fault ≢ WriteFault.Memory) }
{
    write_after(0, text, out)
}

/// Writes `texts` to `out`, one after another, as `write_text` does: `written` counts from the first.
pub fn write_texts<W: Write>(texts: &[Vec<u8>], out: &mut W) -> Result<(), WriteFault>
    ensures text { OnOk result (Appends (W.contents out.old) (W.contents out.new) (joined texts.now)) }
    ensures err { IfErr result (WroteOnly (W.contents out.old) (W.contents out.new) (joined texts.now)) }
    ensures no_memory { IfErr result (λ fault. fault ≢ WriteFault.Memory) }
{
    let mut before = 0;
    for text in texts {
        write_after(before, text.as_slice(), out)?;
        before += text.len() as u128;
    }
    Ok(())
}

// Writes the combined encoding of `bytes` beside their outboard encoding, in pieces that are put together in
// `room`.
fn write_beside<W: Write>(
    outboard: &[u8],
    bytes: &[u8],
    room: &mut [u8],
    out: &mut W,
) -> Result<(), WriteFault>
    requires outboard { length outboard.now ≡ 8 + 64 * (chunk_count (length bytes.now) - 1) }
    requires room { length room.old ≡ 72648 }
    ensures { (mode : Mode) → outboard.now ≡ outboard_text mode bytes.now
        → Writes 0 (W.contents out.old) (W.contents out.new) (combined_text mode bytes.now) result }
{
    let (length, parents) = outboard.split_at(LENGTH_LEN);
    room[..LENGTH_LEN].copy_from_slice(length);
    let whole = SubtreeBytes { parents, bytes };
    write_subtree(whole, LEVELS, room, LENGTH_LEN, 0, out)
}

/// Writes the combined encoding of `bytes` in `mode` to `out`, and returns their hash. It doesn't flush.
///
/// The memory is that of the parents, a sixteenth of the bytes, and less than 72 KiB; it is allocated before
/// the first write. Refuses with `Memory` (401), with nothing written, and with `Writer` (402) only if a write
/// fails (also with the kind `Interrupted`) or writes no byte: exactly the first `written` bytes were then
/// written.
#[tactic(auto, using(crate::proofs::Laws::laws))]
pub fn write_combined<W: Write>(
    alloc: Global,
    mode: &Mode,
    bytes: &[u8],
    out: &mut W,
) -> Result<Hash, WriteFault>
    ensures hash { IfOk result (λ h. h.0 ≡ hash mode.now bytes.now) }
    ensures text { OnOk result (Appends (W.contents out.old) (W.contents out.new) (combined_text mode.now bytes.now)) }
    ensures err { IfErr result (WroteOnly (W.contents out.old) (W.contents out.new) (combined_text mode.now bytes.now)) }
{
    let (hash, outboard) = outboard(alloc, mode, bytes)?;
    let mut room = vec![in alloc; 0u8; ROOM_LEN].map_err(|_| WriteFault::Memory)?;
    write_beside(outboard.as_slice(), bytes, room.as_mut_slice(), out)?;
    Ok(hash)
}
