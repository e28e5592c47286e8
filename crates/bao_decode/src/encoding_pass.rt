// One pass over an encoding, which is read by position, in blocks. Each block is verified, then written as it is.

ghost use Rattle.std.specs.Prelude.{◌≡◌, ℕ, ◌≤◌, ◌^◌, List, length, IfErr, IfOk, IfSome};
ghost use Rattle.std.specs.Io.KnownBytes.{Appends};
ghost use Rattle.bao_decode.specs.Ranges.{written_count};
ghost use Rattle.bao_decode.specs.TextPass.{EncodingStops, IsWholeText, task_of_part};

use crate::copy_pass::PassFault;
use crate::forward::Forward;
use crate::text_pass::{begin, next_block, written_of};
use b3tree::{Hash, Mode, bytes_are};
use bao_check::Decoded;
use bao_text::{LENGTH_LEN, Part, claimed, write_text};
use std::io::Write;

/// Reads an encoding once, in blocks, verifies it as that of this part of the blob with this root, writes each block to
/// `out` once it is verified, and returns how many bytes the part has.
///
/// Refuses with the encoding's first fault, or if a read or a write fails; a beginning may have been written.
pub(crate) fn encoding_pass<F: Forward, W: Write>(
    mode: &Mode,
    root: &Hash,
    part: &Part,
    source: &F,
    block: &mut [u8],
    room: &mut [u8],
    out: &mut W,
) -> Result<u64, PassFault>
    requires block { (1024 ≤ length block.old) × (length block.old ≤ 2 ^ 32) }
    requires room { length block.old ≤ length room.old }
    ensures sizes { (length block.new ≡ length block.old) × (length room.new ≡ length room.old) }
    ensures ok { IfOk result (λ count. (text : List ℕ) × IsWholeText (F.contents source.now) mode.now root.now.0 part.now text × (count ≡ written_count part.now text)
        × Appends (W.contents out.old) (W.contents out.new) text) }
    ensures err { IfErr result (λ fault. IfSome (F.contents source.now) (λ s.
        EncodingStops (task_of_part mode.now root.now.0 part.now) (F.faultless source.now) s (W.contents out.old) (W.contents out.new) fault)) }
{
    let (mut checking, header) = begin(mode, root, part, source)?;
    // A lemma for the proof, here and below: no code runs.
    bytes_are(&header);
    let (first, last) = written_of(part, claimed(&header));
    match write_text(&header, out) {
        Ok(()) => {}
        Err(_) => return Err(PassFault::Output),
    }
    let mut at = LENGTH_LEN as u64;
    'blocks: while let Some(Decoded { taken, .. }) = next_block(
        &mut checking,
        source,
        at,
        block,
        room,
    )? {
        bytes_are(block);
        match write_text(&block[..taken], out) {
            Ok(()) => {}
            Err(_) => return Err(PassFault::Output),
        }
        at += taken as u64;
    }
    Ok(last - first)
}
