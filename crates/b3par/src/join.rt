ghost use Rattle.std.specs.Prelude.{◌≡◌, ◌+◌, ◌-◌, ◌*◌, ◌^◌, ◌≤◌, length};
ghost use Rattle.std.specs.Thread.{IsSync};
ghost use Rattle.b3tree.specs.Hashing.{hash};
ghost use Rattle.b3tree.specs.Tree.{subtree_cv, top_input};

use b3tree::{CHUNK_LEN, Cv, Hash, Input, Mode, cv, left_len, parent_input, root_hash, rooted};
use std::thread::{Threads, join};

/// Returns the hash of `bytes` in `mode`, computed on as many threads as there are subtrees of at most `grain`
/// chunks.
///
/// A larger subtree is split, and its two children are hashed at once. `grain` is at least 1. It refuses
/// nothing: if a thread can't be started, another does its work, and no thread outlives the call.
#[tactic(auto, unfolding(b3tree::specs::Hashing::hash))]
pub fn hash_join<R: Threads + Sync>(rt: &R, mode: &Mode, bytes: &[u8], grain: u64) -> Hash
    requires { 1 ≤ grain }
    ensures { result.0 ≡ hash mode.now bytes.now }
{
    root_hash(&rooted(&top_join(rt, mode, 0, bytes, grain)))
}

// As `b3tree::top_input`.
#[cycle(join)]
fn top_join<R: Threads + Sync>(rt: &R, mode: &Mode, first: u64, bytes: &[u8], grain: u64) -> Input
    requires grain { 1 ≤ grain }
    requires range { 1024 * first + length bytes.now ≤ 2 ^ 64 - 1 }
    ensures { result ≡ top_input mode.now first bytes.now }
{
    if bytes.len().div_ceil(CHUNK_LEN) as u64 <= grain {
        return b3tree::top_input(mode, first, bytes);
    }
    let left_len = left_len(bytes.len() as u64);
    let (left, right) = bytes.split_at(left_len as usize);
    let right_first = first + left_len / CHUNK_LEN as u64;
    let (left, right) = join(
        rt,
        || -> Cv
            requires { IsSync R.row × (1 ≤ grain) × (1024 * first + length left.now ≤ 2 ^ 64 - 1) }
            ensures { result.0 ≡ subtree_cv mode.entry.now first left.entry.now }
        { Cv(cv(&top_join(rt, mode, first, left, grain))) },
        || -> Cv
            requires { IsSync R.row × (1 ≤ grain) × (1024 * right_first + length right.now ≤ 2 ^ 64 - 1) }
            ensures { result.0 ≡ subtree_cv mode.entry.now right_first right.entry.now }
        { Cv(cv(&top_join(rt, mode, right_first, right, grain))) },
    );
    parent_input(mode, &left, &right)
}
