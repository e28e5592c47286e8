ghost use Rattle.std.specs.Prelude.{◌≡◌, ◌+◌, ◌*◌, ◌-◌, ◌^◌, ◌≤◌, length};
ghost use Rattle.b3tree.specs.Tree.{subtree_cv};
ghost use Rattle.b3tree.specs.Hashing.{hash, root_hash, rooted, stream};

use crate::flags::ROOT;
use crate::mode::Mode;
use crate::tree::{subtree_value, top_input};
use crate::values::{Cv, Hash};
use b3word::{Input, cv};

/// Returns `input` with the flag ROOT (BLAKE3 paper, 2.6).
pub fn rooted(input: &Input) -> Input
    ensures { result ≡ rooted input.now }
{
    Input {
        d: input.d | ROOT,
        ..*input
    }
}

/// Returns the hash whose root compression is `root`, with the flag ROOT set: the first 32 bytes of its output.
pub fn root_hash(root: &Input) -> Hash
    ensures { result.0 ≡ root_hash root.now }
{
    Hash(Cv(cv(root)).to_bytes())
}

/// Returns the hash of `bytes` in `mode` (BLAKE3 paper, 2.6).
#[tactic(auto, unfolding(crate::specs::Hashing::hash))]
pub fn hash(mode: &Mode, bytes: &[u8]) -> Hash
    ensures value { result.0 ≡ hash mode.now bytes.now }

    // The first 32 bytes of the output stream.
    ensures stream { result.0 ≡ stream mode.now bytes.now 0 32 }
{
    root_hash(&rooted(&top_input(mode, 0, bytes)))
}

/// Returns the chaining value of a subtree that isn't the root: it has the bytes `bytes` and begins with chunk
/// `first`.
///
/// The subtree ends at most at byte 2^64 - 1 of the input.
pub fn subtree_cv(mode: &Mode, first: u64, bytes: &[u8]) -> Cv
    requires { 1024 * first + length bytes.now ≤ 2 ^ 64 - 1 }
    ensures { result.0 ≡ subtree_cv mode.now first bytes.now }
{
    Cv(subtree_value(mode, first, bytes))
}
