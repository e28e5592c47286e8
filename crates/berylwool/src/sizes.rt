ghost use Rattle.std.specs.Prelude.{◌≡◌, ℕ, ◌+◌, ◌-◌, ◌*◌, ◌^◌, ◌<◌, ◌≤◌, List, sum_by, true};
ghost use Rattle.bao_text.specs.Cut.{slice_len};
ghost use Rattle.bao_text.specs.Nodes.{Side, size, subtree_nodes, subtree_size};

use b3tree::{CHUNK_LEN, left_len};
use bao_text::{Choice, LENGTH_LEN, PARENT_LEN, subtree_size};

// How many bytes of an encoding the wanted nodes of the subtree over `n` bytes from chunk `number` on have. It
// descends only where a subtree is wanted in part, along the two edges of the wanted positions.
fn wanted_size(choice: &Choice, number: u64, n: u64) -> u128
    requires range { 1024 * number + n ≤ 2 ^ 64 - 1 }
    requires chunks { choice.now.chunks ≡ true }
    ensures value { (sides : List Side) (from : ℕ) → result ≡ sum_by size (subtree_nodes choice.now number n sides from) }
    ensures bound { result ≤ subtree_size n }
{
    let at = CHUNK_LEN as u64 * number;
    if !choice.wants(at, n) {
        return 0;
    }
    if choice.covers(at, n) {
        return subtree_size(n);
    }
    if n <= CHUNK_LEN as u64 {
        return u128::from(n);
    }
    let left_len = left_len(n);
    let left = wanted_size(choice, number, left_len);
    let right = wanted_size(choice, number + left_len / CHUNK_LEN as u64, n - left_len);
    PARENT_LEN as u128 + left + right
}

// The length in bytes of the slice (`start`, `len`) of a blob of `total` bytes.
pub(crate) fn slice_size(total: u64, start: u64, len: u64) -> u128
    ensures value { result ≡ slice_len total start len }
    ensures bound { result ≤ 8 + subtree_size total }
{
    let choice = Choice::of_slice(total, start, len);
    LENGTH_LEN as u128 + wanted_size(&choice, 0, total)
}

/// Returns the length in bytes of the slice (`start`, `len`) of a blob of `total` bytes, or 0 if it is above
/// 2^64 - 1.
#[unsafe(no_mangle)]
pub extern "C" fn bw_slice_len(total: u64, start: u64, len: u64) -> u64
    ensures value { slice_len total start len < 2 ^ 64 → result ≡ slice_len total start len }
    ensures above { 2 ^ 64 ≤ slice_len total start len → result ≡ 0 }
{
    match u64::try_from(slice_size(total, start, len)) {
        Ok(size) => size,
        Err(_) => 0,
    }
}
