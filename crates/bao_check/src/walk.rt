ghost use Rattle.std.specs.Prelude.{◌≡◌, ℕ, ◌+◌, ◌-◌, ◌*◌, ◌^◌, ◌≤◌, length, take, drop, IfErr, IfOk, IfSome, MatchResult};
ghost use Rattle.bao_text.specs.Nodes.{left, right};
ghost use Rattle.bao_check.specs.declared.fault.CheckFault.{CheckFault};
ghost use Rattle.bao_check.specs.Accepted.{part_value};
ghost use Rattle.bao_check.specs.Waiting.{below_parent};
ghost use Rattle.bao_check.specs.Whole.{HasWholeAhead};
ghost use Rattle.bao_check.specs.Walk.{IsTopStop, Meets, PassesIn, StopsIn, chunk_at, parent_at};

use crate::asked::{Asked, meets};
use crate::fault::CheckFault;
use crate::whole::{is_whole_outline, is_whole_text};
use b3tree::{CHUNK_LEN, Cv, Mode, chunks_a_lane, left_len, parent_input, top_input};
use bao_text::{CV_LEN, Choice, EIGHT_LEN, PARENT_LEN};

// Verifies the chunk at place `at` of the encoding, with the number `number` and `size` bytes, and answers where it ends.
fn check_chunk(
    text: &[u8],
    at: usize,
    mode: &Mode,
    asked: &Asked,
    number: u64,
    size: usize,
) -> Result<usize, CheckFault>
    requires at { at ≤ length text.now }
    requires chunk { size ≤ 1024 }
    requires range { 1024 * number + size ≤ 2 ^ 64 - 1 }
    ensures ok { IfOk result (λ end. (end ≡ at + size) × (at + size ≤ length text.now) × Meets asked.now (chunk_at mode.now number size text.now at)) }
    ensures err { IfErr result (λ fault. IsTopStop asked.now (chunk_at mode.now number size text.now at) text.now at (at + size) fault) }
{
    if text.len() - at < size {
        return Err(CheckFault::Short { at: at as u64 });
    }
    if meets(asked, &top_input(mode, number, &text[at..at + size])) {
        Ok(at + size)
    } else {
        Err(CheckFault::Mismatch { at: at as u64 })
    }
}

// What a parent's 64 bytes ask of its left and its right part.
#[tactic(auto, unfolding(crate::specs::Accepted::part_value))]
pub(crate) fn halves(parent: &[u8]) -> (Asked, Asked)
    requires { length parent.now ≡ 64 }
    ensures left { result.0 ≡ below_parent (record { 0 = part_value left parent.now }) }
    ensures right { result.1 ≡ below_parent (record { 0 = part_value right parent.now }) }
{
    let (left, right) = parent.split_at(CV_LEN);
    (
        Asked::below(Cv::from_bytes(left)),
        Asked::below(Cv::from_bytes(right)),
    )
}

// Verifies the parent at place `at` of the encoding, and answers what it asks of its left and its right part.
pub(crate) fn check_parent(
    text: &[u8],
    at: usize,
    mode: &Mode,
    asked: &Asked,
) -> Result<(Asked, Asked), CheckFault>
    requires { at ≤ length text.now }
    ensures there { IfOk result (λ _. at + 64 ≤ length text.now) }
    ensures meets { IfOk result (λ _. Meets asked.now (parent_at mode.now text.now at)) }
    ensures left { IfOk result (λ r. r.0 ≡ below_parent (record { 0 = part_value left (take 64 (drop at text.now)) })) }
    ensures right { IfOk result (λ r. r.1 ≡ below_parent (record { 0 = part_value right (take 64 (drop at text.now)) })) }
    ensures err { IfErr result (λ fault. IsTopStop asked.now (parent_at mode.now text.now at) text.now at (at + 64) fault) }
{
    if text.len() - at < PARENT_LEN {
        return Err(CheckFault::Short { at: at as u64 });
    }
    let (left, right) = halves(&text[at..at + PARENT_LEN]);
    if meets(asked, &parent_input(mode, &left.value, &right.value)) {
        Ok((left, right))
    } else {
        Err(CheckFault::Mismatch { at: at as u64 })
    }
}

// How many bytes the encoding of the subtree over `n` bytes from chunk `number` on has, where it is a whole
// subtree that is wanted whole, and its encoding begins the bytes and is all good.
pub(crate) fn whole_at_hand(
    bytes: &[u8],
    choice: &Choice,
    mode: &Mode,
    asked: &Asked,
    number: u64,
    n: u64,
) -> Option<usize>
    requires { 1024 * number + n ≤ 2 ^ 64 - 1 }
    ensures { IfSome result (λ len. HasWholeAhead asked.now choice.now mode.now number n len bytes.now) }
{
    if !choice.covers(CHUNK_LEN as u64 * number, n) {
        return None;
    }
    let chunks = chunks_a_lane(n)?;
    if choice.has_chunks() {
        let len = (EIGHT_LEN + 8 * PARENT_LEN) * chunks - PARENT_LEN;
        if bytes.len() >= len && is_whole_text(mode, asked, number, &bytes[..len], chunks) {
            return Some(len);
        }
    } else {
        let len = 8 * PARENT_LEN * chunks - PARENT_LEN;
        if chunks > 1
            && bytes.len() >= len
            && is_whole_outline(mode, asked, &bytes[..len], chunks / 2)
        {
            return Some(len);
        }
    }
    None
}

// Verifies the wanted nodes of the subtree over `n` bytes from chunk `number` on, which begin at place `at` of the encoding, each
// before the next, and answers where the last ends. A whole subtree of 8 to 512 chunks is first tried at once.
pub(crate) fn check_subtree(
    text: &[u8],
    at: usize,
    choice: &Choice,
    mode: &Mode,
    asked: &Asked,
    number: u64,
    n: u64,
) -> Result<usize, CheckFault>
    requires at { at ≤ length text.now }
    requires range { 1024 * number + n ≤ 2 ^ 64 - 1 }
    ensures { MatchResult result (PassesIn asked.now mode.now choice.now number n text.now at) (λ fault. (end : ℕ) × StopsIn asked.now mode.now choice.now number n text.now at fault end) }
{
    if !choice.wants(CHUNK_LEN as u64 * number, n) {
        return Ok(at);
    }
    if n <= CHUNK_LEN as u64 {
        return if choice.has_chunks() {
            check_chunk(text, at, mode, asked, number, n as usize)
        } else {
            Ok(at)
        };
    }
    if let Some(len) = whole_at_hand(&text[at..], choice, mode, asked, number, n) {
        return Ok(at + len);
    }
    let (left, right) = check_parent(text, at, mode, asked)?;
    let left_len = left_len(n);
    let middle = check_subtree(text, at + PARENT_LEN, choice, mode, &left, number, left_len)?;
    check_subtree(
        text,
        middle,
        choice,
        mode,
        &right,
        number + left_len / CHUNK_LEN as u64,
        n - left_len,
    )
}
