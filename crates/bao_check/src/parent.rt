ghost use Rattle.std.specs.Prelude.{◌≡◌, ℕ, ◌+◌, ◌-◌, ◌*◌, ◌^◌, ◌≤◌, ◌<◌, List, length, is_some, IfSome};
ghost use Rattle.std.specs.Int.{IsPowerOfTwo};
ghost use Rattle.std.specs.Option.{option_copied};
ghost use Rattle.bao_text.specs.Nodes.{Side, placed_nodes, subtree_nodes, subtree_size};
ghost use Rattle.bao_check.specs.Accepted.{places_of};
ghost use Rattle.bao_check.specs.Parents.{IsBoundaryMask, IsParentMask, parent_in, parent_place};

use crate::checked::{Body, Checked};
use crate::locate::{LENGTH_LEN, PARENT_LEN, bytes_from, size_before};
use crate::outline::Outline;
use b3tree::{CHUNK_LEN, left_len};
use bao_text::Choice;

/// How many chunks a group has, and boundaries before them.
pub const GROUP_LEN: u64 = 64;

/// The length of a group in bytes.
pub const GROUP_BYTES: u64 = GROUP_LEN * CHUNK_LEN as u64;

// Where the parent whose right part begins at chunk `m` is, one of the left part of a parent at `at`: `count` chunks from chunk
// `number` on, a power of two of them, of which none lies before the wanted positions. So all that stands before it is there.
fn parent_of_left(choice: &Choice, number: u64, count: u64, at: u128, m: u64) -> Option<u128>
    requires power { IsPowerOfTwo count }
    requires boundary { (number < m) × (m < number + count) }
    requires start { choice.now.start ≤ 1024 * number }
    requires range { (1024 * (number + count) ≤ 2 ^ 64 - 1) × (2048 * count ≤ 2 ^ 64) }
    requires room { at + 64 + subtree_size (1024 * count) < 2 ^ 128 }
    ensures { (sides : List Side) (from : ℕ) → result ≡ parent_place (placed_nodes (at + 64) (subtree_nodes choice.now number (1024 * count) sides from)) m }
{
    // Its subtree begins with chunk `k` of them, and has as many chunks on the left as its boundary's lowest digit 1 says.
    let boundary = m - number;
    let k = boundary & (boundary - 1);
    let bytes = if choice.has_chunks() {
        CHUNK_LEN as u64 * k
    } else {
        0
    };
    let parents = k + u64::from((count - boundary).count_ones());
    let at = at + u128::from(bytes) + PARENT_LEN * u128::from(parents);
    let len = 2 * CHUNK_LEN as u64 * (boundary - k);
    choice
        .wants(CHUNK_LEN as u64 * (number + k), len)
        .then_some(at)
}

// Where the parent whose right part begins at chunk `m` is in an encoding, of which the wanted nodes of the subtree over `n` bytes
// from chunk `number` on begin at `at`. It goes down as `find_chunk` does.
#[tactic(auto, using(crate::proofs::Descents::parents_found))]
fn find_parent(choice: &Choice, number: u64, n: u64, at: u128, m: u64) -> Option<u128>
    requires range { 1024 * number + n ≤ 2 ^ 64 - 1 }
    requires room { at + subtree_size n < 2 ^ 128 }
    ensures { (sides : List Side) (from : ℕ) → result ≡ parent_place (placed_nodes at (subtree_nodes choice.now number n sides from)) m }
{
    if n <= CHUNK_LEN as u64 || m <= number {
        return None;
    }
    let start = CHUNK_LEN as u64 * number;
    let left_len = left_len(n);
    let count = left_len / CHUNK_LEN as u64;
    if m == number + count {
        return choice.wants(start, n).then_some(at);
    }
    if m > number + count {
        let at = at + PARENT_LEN + size_before(choice, number, left_len);
        return find_parent(choice, number + count, n - left_len, at, m);
    }
    if choice.start() > start {
        return find_parent(choice, number, left_len, at + PARENT_LEN, m);
    }
    parent_of_left(choice, number, count, at, m)
}

// The mask of a group's boundaries at which the wanted nodes of the subtree over `n` bytes from chunk `number` on have a parent.
#[tactic(auto, using(crate::proofs::Descents::parents_grouped))]
fn parents_in(choice: &Choice, number: u64, n: u64, group: u64) -> u64
    requires { 1024 * number + n ≤ 2 ^ 64 - 1 }
    ensures { (sides : List Side) (from at : ℕ) → IsBoundaryMask (placed_nodes at (subtree_nodes choice.now number n sides from)) group result }
{
    if n <= CHUNK_LEN as u64 || !choice.wants(CHUNK_LEN as u64 * number, n) {
        return 0;
    }
    let left_len = left_len(n);
    let middle = number + left_len / CHUNK_LEN as u64;
    if middle / GROUP_LEN < group {
        return parents_in(choice, middle, n - left_len, group);
    }
    if middle / GROUP_LEN > group {
        return parents_in(choice, number, left_len, group);
    }
    let left = parents_in(choice, number, left_len, group);
    let right = parents_in(choice, middle, n - left_len, group);
    (left | right) | (1 << (middle % GROUP_LEN))
}

impl<'a> Checked<'a> {
    ghost use Rattle.bao_check.specs.Checked.{piece_places, piece_text};

    // Where the encoding has the parent whose right part begins at chunk `m`.
    fn parent_at(&self, m: u64) -> Option<u128>
        ensures value { result ≡ parent_place (piece_places self.now) m }
        ensures within { IfSome result (λ at. at + 64 ≤ length (piece_text self.now)) }
    {
        find_parent(&self.choice(), 0, self.claimed(), LENGTH_LEN, m)
    }

    /// Returns whether the slice has a parent whose right child begins at chunk `m`. It costs less than
    /// `parent`.
    #[tactic(auto, using(crate::proofs::Parenting::parents_read))]
    pub fn has_parent(&self, m: u64) -> bool
        ensures { result ≡ is_some (parent_in (piece_text self.now) (piece_places self.now) m) }
    {
        self.parent_at(m).is_some()
    }

    /// Returns the mask of a group's boundaries at which the slice has a parent: bit i is set exactly if it has
    /// the parent whose right child begins at chunk 64 * group + i. It costs less than `has_parent` for each,
    /// and is 0 past the last group.
    #[tactic(auto, using(crate::proofs::Parenting::parents_read))]
    pub fn parents_of(&self, group: u64) -> u64
        ensures { IsParentMask (piece_text self.now) (piece_places self.now) group result }
    {
        parents_in(&self.choice(), 0, self.claimed(), group)
    }

    /// Returns the 64 bytes of the parent whose right child begins at chunk `m`, borrowed from the slice: the
    /// chaining values of its left and of its right child. `None` exactly if the slice has no such parent; no
    /// tree has two of them.
    #[tactic(auto, using(crate::proofs::Parenting::parents_read))]
    pub fn parent(&self, m: u64) -> Option<&'a [u8]>
        ensures value { option_copied result ≡ parent_in (piece_text self.now) (piece_places self.now) m }
        ensures len { IfSome result (λ bytes. length bytes.now ≡ 64) }
    {
        match self.parent_at(m) {
            Some(at) => match self.body {
                Body::Text(text) => Some(bytes_from(text, at, PARENT_LEN as u64)),
                Body::Beside { outline, .. } => outline.parent(m),
            },
            None => None,
        }
    }
}

impl<'a> Outline<'a> {
    ghost use Rattle.bao_check.specs.Outline.{outline_text};
    ghost use Rattle.bao_check.specs.Accepted.{outboard_nodes, places_of};

    // Where the encoding has the parent whose right part begins at chunk `m`.
    fn parent_at(&self, m: u64) -> Option<u128>
        ensures value { result ≡ parent_place (places_of (outboard_nodes (outline_text self.now))) m }
        ensures within { IfSome result (λ at. at + 64 ≤ length (outline_text self.now)) }
    {
        find_parent(
            &Choice::of_outboard(self.claimed()),
            0,
            self.claimed(),
            LENGTH_LEN,
            m,
        )
    }

    // The 64 bytes of the parent whose right part begins at chunk `m`, in the encoding itself.
    #[tactic(auto, using(crate::proofs::Parenting::parents_read))]
    pub(crate) fn parent(&self, m: u64) -> Option<&'a [u8]>
        ensures value { option_copied result ≡ parent_in (outline_text self.now) (places_of (outboard_nodes (outline_text self.now))) m }
        ensures len { IfSome result (λ bytes. length bytes.now ≡ 64) }
    {
        match self.parent_at(m) {
            Some(at) => Some(bytes_from(self.text, at, PARENT_LEN as u64)),
            None => None,
        }
    }
}
