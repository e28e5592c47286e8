ghost use Rattle.std.specs.Prelude.{◌≡◌, ℕ, ◌+◌, ◌-◌, ◌*◌, List, length};
ghost use Rattle.b3tree.specs.declared.mode.Mode.{Mode};
ghost use Rattle.bao_text.specs.Choice.{chunk_count};
ghost use Rattle.bao_text.specs.Nodes.{subtree_size};
ghost use Rattle.bao_text.specs.Texts.{combined_text, outboard_text};

use b3tree::CHUNK_LEN;

/// The length in bytes of the blob's length at the start of an encoding.
pub const LENGTH_LEN: usize = 8;

/// The length of a chaining value in bytes.
pub const CV_LEN: usize = 32;

/// The length of a parent in bytes: two chaining values.
pub const PARENT_LEN: usize = 2 * CV_LEN;

/// The length in bytes of eight chunks, which are hashed side by side.
pub const EIGHT_LEN: usize = 8 * CHUNK_LEN;

/// Returns how many chunks a blob of `len` bytes has: an empty blob has one empty chunk.
pub fn chunk_count(len: u64) -> u64
    ensures { result ≡ chunk_count len }
{
    len.div_ceil(CHUNK_LEN as u64).max(1)
}

/// Returns how many bytes of a combined encoding a subtree over `n` bytes takes: `n`, and 64 for each parent.
pub fn subtree_size(n: u64) -> u128
    ensures { result ≡ subtree_size n }
{
    u128::from(n) + PARENT_LEN as u128 * u128::from(chunk_count(n) - 1)
}

/// Returns the length in bytes of the combined encoding of a blob of `len` bytes: 8 for the length, 64 for each
/// parent (one fewer than chunks), and the blob's.
#[tactic(auto, using(crate::proofs::Laws::laws))]
pub fn encoded_len(len: u64) -> u128
    ensures value { result ≡ 8 + 64 * (chunk_count len - 1) + len }
    ensures text { (mode : Mode) (blob : List ℕ) → length blob ≡ len → length (combined_text mode blob) ≡ result }
{
    outboard_len(len) + u128::from(len)
}

/// Returns the length in bytes of the outboard encoding of a blob of `len` bytes: 8 for the length, and 64 for
/// each parent (one fewer than chunks).
#[tactic(auto, using(crate::proofs::Laws::laws))]
pub fn outboard_len(len: u64) -> u128
    ensures value { result ≡ 8 + 64 * (chunk_count len - 1) }
    ensures text { (mode : Mode) (blob : List ℕ) → length blob ≡ len → length (outboard_text mode blob) ≡ result }
{
    LENGTH_LEN as u128 + PARENT_LEN as u128 * u128::from(chunk_count(len) - 1)
}
