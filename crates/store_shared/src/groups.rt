ghost use Rattle.std.specs.Prelude.{◌≡◌, ◌+◌, ◌*◌, ◌<◌, ◌≤◌, length};
ghost use Rattle.store_core.specs.Histories.{state_after};
ghost use Rattle.store_shared.specs.Filled.{IsBufferFilled, StopsFilling};
ghost use Rattle.store_steps.specs.Reads.{group_end};
ghost use Rattle.store_steps.specs.Tells.{FindsHeld};
ghost use Rattle.store_steps.specs.Words.{IsGripOf};

use crate::chunks::copy_chunk;
use b3tree::CHUNK_LEN;
use store_core::{GROUP_BYTES, GROUP_LEN, has_bit};
use store_steps::{Grip, Words};

// Where the positions of a group end.
pub(crate) fn end_of(group: u32) -> u64
    ensures { result ≡ group_end group }
{
    GROUP_BYTES * (u64::from(group) + 1)
}

// Copies what is held in a group, of which `held` is the held word, from the position of the buffer's index `from` on:
// up to the first that isn't held, and as far as the buffer and the group go. It answers how much of the buffer is then
// filled.
pub(crate) fn copy_group(
    words: &Words,
    grip: &mut Grip,
    group: u32,
    held: u64,
    at: u64,
    out: &mut [u8],
    from: usize,
) -> usize
    requires of { IsGripOf words.now grip.old }
    requires held { FindsHeld group held grip.old.view }
    requires group { group < 1024 }
    requires place { (65536 * group ≤ at + from) × (at + from ≤ group_end group) }
    requires room { from ≤ length out.old }
    ensures same { grip.new ≡ grip.old }
    ensures filled { IsBufferFilled (state_after grip.old.view.seen) at from result out.old out.new }
    ensures stops { StopsFilling (state_after grip.old.view.seen) (at + result) (group_end group) result (length out.old) }
{
    let end = end_of(group);
    let mut done = from;
    while done < out.len() && at + (done as u64) < end {
        let chunk = ((at + done as u64) / CHUNK_LEN as u64) as u32;
        if !has_bit(held, chunk % GROUP_LEN) {
            return done;
        }
        let next = copy_chunk(words, grip, at, out, done);
        if next == done {
            return done;
        }
        done = next;
    }
    done
}
