ghost use Rattle.std.specs.Prelude.{◌≡◌, ◌+◌, ◌-◌, ◌<◌, ◌≤◌, length, take, IfErr, OnOk};
ghost use Rattle.std.specs.Io.KnownBytes.{Consumes, IsAtEnd};
ghost use Rattle.bao_check.specs.declared.stream.Filled.TheVariants.{AtEnd, Failed, Whole};
ghost use Rattle.bao_check.specs.Streams.{IsCutShort, Reads};

use crate::fault::CheckFault;
use b3tree::CHUNK_LEN;
use std::io::Read;

/// How filling a buffer ended.
#[derive(Clone, Copy)]
enum Filled {
    /// The buffer is full.
    Whole,
    /// The reader has no more.
    AtEnd,
    /// A read failed.
    Failed,
}

// Reads until the buffer is full, and answers how many bytes came. A read that answers a fault, of
// whatever kind, or gives no byte is the last.
fn fill<R: Read>(reader: &mut R, buffer: &mut [u8]) -> (usize, Filled)
    ensures bound { result.0 ≤ length buffer.new }
    ensures bytes { Consumes (R.remaining reader.old) (R.remaining reader.new) (take result.0 buffer.new) }
    ensures whole { result.1 ≡ Whole → result.0 ≡ length buffer.new }
    ensures at_end { result.1 ≡ AtEnd → (result.0 < length buffer.new) × IsAtEnd (R.remaining reader.new) }
    ensures failed { result.1 ≡ Failed → result.0 < length buffer.new }
{
    let mut filled = 0;
    'reads: while filled < buffer.len() {
        match reader.read(&mut buffer[filled..]) {
            Ok(0) => return (filled, Filled::AtEnd),
            Ok(count) => filled += count,
            Err(_) => return (filled, Filled::Failed),
        }
    }
    (filled, Filled::Whole)
}

// Reads the `size` bytes of a node, at most 1,024, to the end of the vector. Room for them is made first, so that none
// that came is lost: where it is refused, none was read.
pub(crate) fn read_node<R: Read>(
    reader: &mut R,
    bytes: &mut Vec<u8>,
    size: usize,
) -> Result<(), CheckFault>
    requires { size ≤ 1024 }
    ensures reads { Reads bytes.old.items bytes.new.items (R.remaining reader.old) (R.remaining reader.new) }
    ensures whole { OnOk result (length bytes.new.items ≡ length bytes.old.items + size) }
    ensures err { IfErr result (IsCutShort size bytes.old.items bytes.new.items (R.remaining reader.new)) }
{
    if bytes.reserve(size).is_err() {
        return Err(CheckFault::Memory);
    }
    let at = bytes.len() as u64;
    let mut buffer = [0; CHUNK_LEN];
    let (filled, end) = fill(reader, &mut buffer[..size]);
    if bytes.extend_from_slice(&buffer[..filled]).is_err() {
        unreachable!()
    }
    match end {
        Filled::Whole => Ok(()),
        Filled::AtEnd => Err(CheckFault::Short { at }),
        Filled::Failed => Err(CheckFault::Reader),
    }
}
