// The nodes at the front of bytes, taken and verified many at once, and the bytes of the chunks among them.

ghost use Rattle.std.specs.Prelude.{◌≡◌, ℕ, ◌+◌, ◌-◌, ◌*◌, ◌^◌, ◌<◌, ◌≤◌, List, ◌++◌, length, take, drop, true, IfErr, IfOk, IfSome, IsErr};
ghost use Rattle.bao_check.specs.Decoded.{Decodes, chunk_bytes, kinds_size, subtree_kinds};
ghost use Rattle.bao_check.specs.Known.{AreKnown, KnowsNext};
ghost use Rattle.bao_check.specs.Waiting.{AreParts, HasRefused, HasRefusedIn, HasTaken, next_size};

use crate::fault::CheckFault;
use crate::known::Known;
use crate::waiting::{Waiting, next_part, size, take_node};
use crate::walk::whole_at_hand;
use b3tree::{CHUNK_LEN, Cv, Mode, left_len};
use bao_text::{Choice, PARENT_LEN};

// Copies the chunks of a subtree, whose wanted nodes stand in `text` from place `at` on, into the room from `filled` on.
// Answers the places after both.
#[tactic(auto, using(crate::proofs::ChunkBytes::copied_sizes))]
fn copy_chunks(
    choice: &Choice,
    number: u64,
    n: u64,
    text: &[u8],
    at: usize,
    room: &mut [u8],
    filled: usize,
) -> (usize, usize)
    requires chunks { choice.now.chunks ≡ true }
    requires range { 1024 * number + n ≤ 2 ^ 64 - 1 }
    requires there { at + kinds_size (subtree_kinds choice.now number n) ≤ length text.now }
    requires room { filled + kinds_size (subtree_kinds choice.now number n) ≤ length room.old }
    ensures size { length room.new ≡ length room.old }
    ensures at { result.0 ≡ at + kinds_size (subtree_kinds choice.now number n) }
    ensures filled { (filled ≤ result.1) × (result.1 ≤ filled + kinds_size (subtree_kinds choice.now number n)) }
    ensures bytes { take result.1 room.new ≡ take filled room.old ++ chunk_bytes (subtree_kinds choice.now number n) (drop at text.now) }
{
    if !choice.wants(CHUNK_LEN as u64 * number, n) {
        return (at, filled);
    }
    if n <= CHUNK_LEN as u64 {
        let len = n as usize;
        room[filled..filled + len].copy_from_slice(&text[at..at + len]);
        return (at + len, filled + len);
    }
    let left_len = left_len(n);
    let middle = number + left_len / CHUNK_LEN as u64;
    let (at, filled) = copy_chunks(
        choice,
        number,
        left_len,
        text,
        at + PARENT_LEN,
        room,
        filled,
    );
    copy_chunks(choice, middle, n - left_len, text, at, room, filled)
}

// Takes all nodes of the part that comes first, at place `at` of the encoding, where these are a whole subtree of 8 to 512 chunks
// that the bytes begin with, and else its first node, where they begin with that: where it is a whole chunk, its value may be known. Puts the
// chunks' bytes into the room, from `filled` on, and answers how many bytes were taken, and where the room is free from then on.
fn take_first(
    choice: &Choice,
    waiting: &mut Waiting,
    mode: &Mode,
    at: u64,
    bytes: &[u8],
    known: Option<Cv>,
    room: &mut [u8],
    filled: usize,
) -> Result<Option<(usize, usize)>, CheckFault>
    requires chunks { choice.now.chunks ≡ true }
    requires parts { AreParts choice.now waiting.old.items }
    requires known { KnowsNext mode.now waiting.old.items bytes.now known }
    requires room { filled + length bytes.now ≤ length room.old }
    ensures parts { AreParts choice.now waiting.new.items }
    ensures size { length room.new ≡ length room.old }
    ensures taken { IfOk result (λ step. IfSome step (λ r. (1 ≤ r.0) × (r.0 ≤ length bytes.now) × (filled ≤ r.1) × (r.1 ≤ filled + r.0))) }
    ensures nodes { IfOk result (λ step. IfSome step (λ r. HasTaken mode.now choice.now waiting.old.items waiting.new.items (take r.0 bytes.now))) }
    ensures chunks { IfOk result (λ step. IfSome step (λ r. (part : List ℕ) × (take r.1 room.new ≡ take filled room.old ++ part)
        × Decodes choice.now waiting.old.items waiting.new.items (take r.0 bytes.now) part)) }
    ensures none { IfOk result (λ step. step ≡ None → (waiting.new ≡ waiting.old) × (room.new ≡ room.old) × IfSome (next_size waiting.old.items) (λ size. length bytes.now < size)) }
    ensures err { IfErr result (λ fault. (size : ℕ) × HasRefused mode.now choice.now waiting.old.items at size bytes.now fault) }
    ensures same { IsErr result → waiting.new ≡ waiting.old }
{
    let Some(part) = next_part(waiting) else {
        return Ok(None);
    };
    if let Some(len) = whole_at_hand(bytes, choice, mode, &part.asked, part.number, part.len) {
        let (_, free) = copy_chunks(choice, part.number, part.len, bytes, 0, room, filled);
        let _taken = waiting.pop();
        return Ok(Some((len, free)));
    }
    let len = size(&part);
    if bytes.len() < len {
        return Ok(None);
    }
    take_node(choice, waiting, mode, at, &bytes[..len], known)?;
    if part.len > CHUNK_LEN as u64 {
        return Ok(Some((len, filled)));
    }
    room[filled..filled + len].copy_from_slice(&bytes[..len]);
    Ok(Some((len, filled + len)))
}

// Takes as many whole nodes as the bytes begin with, the first of them at place `at` of the encoding, and puts the chunks' bytes to
// the front of the room. Answers how many bytes of it are filled. The place moves on by as many bytes as were taken; where a node
// is refused, to that node.
pub(crate) fn take_nodes(
    choice: &Choice,
    waiting: &mut Waiting,
    mode: &Mode,
    at: &mut u64,
    bytes: &[u8],
    room: &mut [u8],
) -> Result<usize, CheckFault>
    requires chunks { choice.now.chunks ≡ true }
    requires parts { AreParts choice.now waiting.old.items }
    requires places { at.old + length bytes.now < 2 ^ 64 }
    requires room { length bytes.now ≤ length room.old }
    ensures parts { AreParts choice.now waiting.new.items }
    ensures size { length room.new ≡ length room.old }
    ensures ok { IfOk result (λ filled. (used : ℕ) × (at.new ≡ at.old + used) × (used ≤ length bytes.now) × (filled ≤ used)
        × HasTaken mode.now choice.now waiting.old.items waiting.new.items (take used bytes.now)
        × Decodes choice.now waiting.old.items waiting.new.items (take used bytes.now) (take filled room.new)
        × IfSome (next_size waiting.new.items) (λ size. length bytes.now < used + size)) }
    ensures err { IfErr result (λ fault. (used : ℕ) × (at.new ≡ at.old + used) × HasRefusedIn mode.now choice.now waiting.old.items waiting.new.items at.old used bytes.now fault) }
{
    let mut known = Known::none();
    let mut used = 0;
    let mut filled = 0;
    'nodes: loop {
        let value = known.next_value(mode, waiting, bytes, used);
        let step = take_first(
            choice,
            waiting,
            mode,
            *at,
            &bytes[used..],
            value,
            room,
            filled,
        )?;
        let Some((len, free)) = step else {
            return Ok(filled);
        };
        used += len;
        filled = free;
        *at += len as u64;
    }
}
