ghost use Rattle.std.specs.Prelude.{◌≡◌, ◌+◌, ◌%◌, ◌^◌, ◌<◌, None, false, true, IfOk, IfSome};
ghost use Rattle.bao_windows.specs.Available.{LacksGroup, LacksOne};
ghost use Rattle.bao_windows.specs.Windows.{Adds, IsAddedValue, IsFrom, fixed_for};

use crate::appending::CHUNK_BYTES;
use crate::taking::take_any;
use crate::wanted::Wanted;
use crate::window::Slot;
use b3par::Source;
use bao_check::GROUP_BYTES;
use holders::{ByteRange, Grain};
use std::alloc::{AllocError, Global};

// Takes the chunks of a part into a slot one by one, each from the first source in turn that has it, up to one that none has.
fn take_chunks<S: Source>(
    alloc: Global,
    wanted: &Wanted<'_>,
    sources: &[S],
    part: ByteRange,
    slot: &mut Slot,
    room: &mut Vec<u8>,
) -> Result<bool, AllocError>
    requires aligned { part.start % 1024 ≡ 0 }
    requires range { part.start + part.len < 2 ^ 64 }
    ensures took { IfOk result (λ took. took ≡ true → Adds (IsFrom wanted.now S.contents S.faultless sources.now) (fixed_for wanted.now) part.start part.len slot.old.bytes.items slot.new.bytes.items) }
    ensures value { IfOk result (λ took. took ≡ true → slot.new.value ≡ None) }
    ensures lacks { IfOk result (λ took. took ≡ false → LacksOne S.contents S.faultless wanted.now sources.now part.start part.len) }
{
    let mut came: u64 = 0;
    'chunks: while came < part.len {
        let chunk = ByteRange {
            start: part.start + came,
            len: CHUNK_BYTES.min(part.len - came),
        };
        if !take_any(alloc, wanted, sources, chunk, CHUNK_BYTES, slot, room)? {
            return Ok(false);
        }
        came += chunk.len;
    }
    // A chunk's value isn't the part's.
    slot.value = None;
    Ok(true)
}

// Takes the chunks of a group, which are this part, into its slot: from the first source in turn that has all of them, or else, where the grain is a
// chunk, each from the first that has it; and in the first case the group's value, if the slice has it.
pub(crate) fn take_group<S: Source>(
    alloc: Global,
    wanted: &Wanted<'_>,
    sources: &[S],
    part: ByteRange,
    slot: &mut Slot,
    room: &mut Vec<u8>,
) -> Result<bool, AllocError>
    requires aligned { part.start % 65536 ≡ 0 }
    requires some { 0 < part.len }
    requires range { part.start + part.len < 2 ^ 64 }
    ensures took { IfOk result (λ took. took ≡ true → Adds (IsFrom wanted.now S.contents S.faultless sources.now) (fixed_for wanted.now) part.start part.len slot.old.bytes.items slot.new.bytes.items) }
    ensures value { IfOk result (λ took. took ≡ true → IfSome slot.new.value (IsAddedValue wanted.now.mode part.start slot.old.bytes.items slot.new.bytes.items)) }
    ensures lacks { IfOk result (λ took. took ≡ false → LacksGroup S.contents S.faultless wanted.now sources.now part.start part.len) }
{
    if take_any(alloc, wanted, sources, part, GROUP_BYTES, slot, room)? {
        return Ok(true);
    }
    match wanted.grain {
        Grain::Group => Ok(false),
        Grain::Chunk => take_chunks(alloc, wanted, sources, part, slot, room),
    }
}
