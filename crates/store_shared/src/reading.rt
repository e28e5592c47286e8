ghost use Rattle.std.specs.Prelude.{◌≡◌, ◌+◌, ◌*◌, ◌<◌, ◌≤◌, length};
ghost use Rattle.store_core.specs.Stores.{filled_count, missing_in};
ghost use Rattle.store_shared.specs.Reading.{SeatDidRead, SeatReadBinds};
ghost use Rattle.store_steps.specs.Words.{IsGripOf, fixed_of};

use crate::groups::{copy_group, end_of};
use b3tree::CHUNK_LEN;
use store_core::{Fixed, GROUP_BYTES, Missing};
use store_steps::{Grip, Words};

// Where the positions end that a store has room for.
fn limit_of(fixed: &Fixed) -> u64
    ensures { result ≡ 1024 * fixed.now.capacity }
{
    CHUNK_LEN as u64 * u64::from(fixed.capacity)
}

// A read of at least one byte, from a position on that the store has room for.
fn read_groups(words: &Words, grip: &mut Grip, at: u64, out: &mut [u8]) -> Result<(), Missing>
    requires of { IsGripOf words.now grip.old }
    requires at { at < 1024 * (fixed_of words.now).capacity }
    requires some { 0 < length out.old }
    ensures of { IsGripOf words.now grip.new }
    ensures read { SeatDidRead grip.old.view grip.new.view at out.old out.new (missing_in result) }
{
    let limit = limit_of(&words.fixed());
    let mut group = (at / GROUP_BYTES) as u32;
    let mut done = 0;
    'groups: loop {
        let held = words.load(grip, group, at, out.len() as u64);
        let next = copy_group(words, grip, group, held, at, out, done);
        if next == out.len() {
            return Ok(());
        }
        let position = at + next as u64;
        if position < end_of(group) || limit <= position {
            return Err(Missing(position));
        }
        done = next;
        group += 1;
    }
}

// A read from any position on.
fn read_event(words: &Words, grip: &mut Grip, at: u64, out: &mut [u8]) -> Result<(), Missing>
    requires of { IsGripOf words.now grip.old }
    ensures of { IsGripOf words.now grip.new }
    ensures read { SeatDidRead grip.old.view grip.new.view at out.old out.new (missing_in result) }
{
    if out.is_empty() {
        // One load, for the proof alone: by it the read has its place in the history.
        words.load(grip, 0, at, out.len() as u64);
        return Ok(());
    }
    if at >= limit_of(&words.fixed()) {
        // One load, for the proof alone: by it the read has its place in the history.
        words.load(grip, 0, at, out.len() as u64);
        return Err(Missing(at));
    }
    read_groups(words, grip, at, out)
}

/// Fills `out` with the bytes from offset `at` on. It doesn't allocate or wait.
///
/// Refuses with `Missing(p)` if the range isn't all held, where p is the least offset that isn't: the bytes
/// before p are filled in, and the rest of `out` is unchanged. An offset is held if its chunk is held and long
/// enough; none from 1,024 times the capacity on is. An empty `out` is never refused.
///
/// The call linearizes at its last load of a held word: what was copied earlier is still held there, with the
/// same bytes. The grip's claims are unchanged, and it has seen all that it had seen before.
///
/// For every blob with the store's root, each byte filled in is the blob's byte at that offset, counted from
/// the base; or the contract exhibits a collision, one input from the blob and one from a slice that was
/// committed.
pub fn read(words: &Words, grip: &mut Grip, at: u64, out: &mut [u8]) -> Result<(), Missing>
    requires of { IsGripOf words.now grip.old }
    ensures of { IsGripOf words.now grip.new }
    ensures read { SeatDidRead grip.old.view grip.new.view at out.old out.new (missing_in result) }
    ensures binds { SeatReadBinds grip.new.view at out.new (filled_count at (length out.old) (missing_in result)) }
{
    // A law, so that the proof has what it says: nothing runs.
    words.fixed().mode.is_keyed();
    read_event(words, grip, at, out)
}
