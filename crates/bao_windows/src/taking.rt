ghost use Rattle.std.specs.Prelude.{◌≡◌, ◌+◌, ◌%◌, ◌^◌, ◌<◌, false, true, length, IfOk, IfSome};
ghost use Rattle.bao_windows.specs.Available.{AllRefuse, IsFitting, IsWithin, Refuses};
ghost use Rattle.bao_windows.specs.Windows.{IsAddedValue, IsFrom, IsInTurn, Takes, fixed_for};

use crate::appending::append_part;
use crate::asking::ask;
use crate::value::group_value;
use crate::wanted::Wanted;
use crate::window::Slot;
use b3par::Source;
use holders::ByteRange;
use std::alloc::{AllocError, Global};

// Takes a part of the blob into a slot, from one source, of which `span` bytes from the part's place on are asked for, and the part's
// value, if it is a group of which the slice has that.
fn take_part<S: Source>(
    alloc: Global,
    wanted: &Wanted<'_>,
    sources: &[S],
    place: usize,
    part: ByteRange,
    span: u64,
    slot: &mut Slot,
    room: &mut Vec<u8>,
) -> Result<bool, AllocError>
    requires fitting { IsFitting wanted.now wanted.now.form }
    requires within { IsWithin wanted.now.form part.start }
    requires place { place < length sources.now }
    requires aligned { part.start % 1024 ≡ 0 }
    requires range { part.start + part.len < 2 ^ 64 }
    ensures took { IfOk result (λ took. Takes took (IsFrom wanted.now S.contents S.faultless sources.now) (fixed_for wanted.now) part.start part.len slot.old.bytes.items slot.new.bytes.items) }
    ensures value { IfOk result (λ took. took ≡ true → IfSome slot.new.value (IsAddedValue wanted.now.mode part.start slot.old.bytes.items slot.new.bytes.items)) }
    ensures refused { IfOk result (λ took. took ≡ false → Refuses S.contents S.faultless wanted.now sources.now part.start part.len span place) }
{
    let asked = ByteRange {
        start: part.start,
        len: span,
    };
    match ask(alloc, wanted, &sources[place], asked, room)? {
        Some(piece) => {
            slot.value = group_value(&piece, part);
            append_part(&piece, part.start, part.len, &mut slot.bytes)
        }
        None => Ok(false),
    }
}

// Which of so many sources has its turn, where the round begins with the first.
fn in_turn(first: usize, count: usize, turn: usize) -> usize
    requires first { first < count }
    requires turn { turn < count }
    ensures turn { IsInTurn first count turn result }
    ensures below { result < count }
{
    if turn < count - first {
        first + turn
    } else {
        turn - (count - first)
    }
}

// Takes a part of the blob, and its value, into a slot, from the first source in turn that has it: the one that had one last, and then the
// others, each once.
pub(crate) fn take_any<S: Source>(
    alloc: Global,
    wanted: &Wanted<'_>,
    sources: &[S],
    part: ByteRange,
    span: u64,
    slot: &mut Slot,
    room: &mut Vec<u8>,
) -> Result<bool, AllocError>
    requires aligned { part.start % 1024 ≡ 0 }
    requires range { part.start + part.len < 2 ^ 64 }
    ensures took { IfOk result (λ took. Takes took (IsFrom wanted.now S.contents S.faultless sources.now) (fixed_for wanted.now) part.start part.len slot.old.bytes.items slot.new.bytes.items) }
    ensures value { IfOk result (λ took. took ≡ true → IfSome slot.new.value (IsAddedValue wanted.now.mode part.start slot.old.bytes.items slot.new.bytes.items)) }
    ensures refused { IfOk result (λ took. took ≡ false → AllRefuse S.contents S.faultless wanted.now sources.now part.start part.len span) }
{
    if !wanted.is_fitting() || !wanted.begins_within(part.start) {
        return Ok(false);
    }
    let count = sources.len();
    let first = slot.last.min(count.saturating_sub(1));
    for turn in 0..count {
        let place = in_turn(first, count, turn);
        if take_part(alloc, wanted, sources, place, part, span, slot, room)? {
            slot.last = place;
            return Ok(true);
        }
    }
    Ok(false)
}
