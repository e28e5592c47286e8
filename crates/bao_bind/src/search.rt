ghost use Rattle.std.specs.Prelude.{◌≡◌, ◌+◌, ◌-◌, ◌*◌, ◌^◌, ◌<◌, ◌≤◌, ℕ, List, length};
ghost use Rattle.b3word.specs.declared.input.Input.{Input};
ghost use Rattle.b3word.specs.Compression.{cv};
ghost use Rattle.b3tree.specs.Tree.{top_input};
ghost use Rattle.bao_check.specs.Inputs.{marked};
ghost use Rattle.bao_check.specs.Ways.{LeadsTo};
ghost use Rattle.bao_bind.specs.Search.{Finds, TreeHasChunk, part_inputs};

use crate::chunk_run::ChunkRun;
use crate::chunks::chunks_apart;
use crate::pair::{Pair, are_same, marked};
use crate::parents::{Parents, input_of};
use b3tree::{CHUNK_LEN, Mode, left_len, top_input};

// Goes down to `chunk` through two trees together, whose tops have one chaining value: that over `ours`, and
// that over `n` bytes from chunk `number` on, whose parents are known. It hands out the first two inputs
// that differ; none if nothing differs down to the chunk.
pub(crate) fn walk<P: Parents>(
    mode: &Mode,
    parents: &P,
    top: bool,
    ours: &ChunkRun<'_>,
    number: u64,
    n: u64,
    chunk: &ChunkRun<'_>,
) -> Option<Pair>
    requires range { 1024 * number + n ≤ 2 ^ 64 - 1 }
    requires our_range { 1024 * ours.now.first + length ours.now.bytes.now ≤ 2 ^ 64 - 1 }
    requires chunk_range { 1024 * chunk.now.first + length chunk.now.bytes.now ≤ 2 ^ 64 - 1 }
    requires chunk_len { length chunk.now.bytes.now ≤ 1024 }
    ensures { (theirs : List Input) (value : List ℕ) → LeadsTo (P.bytes parents.now) theirs mode.now top value number n chunk.now.first chunk.now.bytes.now
        → cv (marked top (top_input mode.now ours.now.first ours.now.bytes.now)) ≡ value
        → Finds (part_inputs top mode.now ours.now.first ours.now.bytes.now) theirs (TreeHasChunk ours.now.first ours.now.bytes.now number n chunk.now.first chunk.now.bytes.now) result }
{
    let x = marked(top, &top_input(mode, ours.first, ours.bytes));
    if n <= CHUNK_LEN as u64 {
        if ours.bytes.len() <= CHUNK_LEN {
            return chunks_apart(mode, top, ours, chunk);
        }
        let y = marked(top, &top_input(mode, chunk.first, chunk.bytes));
        return Some(Pair { ours: x, theirs: y });
    }
    let left_len = left_len(n);
    let middle = number + left_len / CHUNK_LEN as u64;
    let parent = parents.parent_before(middle)?;
    let y = marked(top, &input_of(mode, parent));
    if ours.bytes.len() <= CHUNK_LEN || !are_same(&x, &y) {
        return Some(Pair { ours: x, theirs: y });
    }
    let (left, right) = ours.parts();
    if chunk.first < middle {
        walk(mode, parents, false, &left, number, left_len, chunk)
    } else {
        walk(mode, parents, false, &right, middle, n - left_len, chunk)
    }
}
