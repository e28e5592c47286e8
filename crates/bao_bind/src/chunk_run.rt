ghost use Rattle.std.specs.Prelude.{◌≡◌, ◌+◌, ◌-◌, ◌*◌, ◌/◌, ◌^◌, ◌≤◌, ◌<◌, ℕ, length, take, drop};
ghost use Rattle.b3tree.specs.Tree.{left_len};

use b3tree::{CHUNK_LEN, left_len};

/// Bytes that begin with chunk `first`.
#[derive(Clone, Copy)]
pub(crate) struct ChunkRun<'a> {
    pub(crate) first: u64,
    pub(crate) bytes: &'a [u8],
}

impl<'a> ChunkRun<'a> {
    // The parts of the tree over more than a chunk.
    pub(crate) fn parts(&self) -> (ChunkRun<'a>, ChunkRun<'a>)
        requires more { 1024 < length self.now.bytes.now }
        requires range { 1024 * self.now.first + length self.now.bytes.now ≤ 2 ^ 64 - 1 }
        ensures left_first { result.0.first ≡ self.now.first }
        ensures left { result.0.bytes.now ≡ take (left_len (length self.now.bytes.now)) self.now.bytes.now }
        ensures right_first { result.1.first ≡ self.now.first + left_len (length self.now.bytes.now) / 1024 }
        ensures right { result.1.bytes.now ≡ drop (left_len (length self.now.bytes.now)) self.now.bytes.now }
    {
        let left_len = left_len(self.bytes.len() as u64);
        let (left, right) = self.bytes.split_at(left_len as usize);
        let right_first = self.first + left_len / CHUNK_LEN as u64;
        (
            ChunkRun {
                first: self.first,
                bytes: left,
            },
            ChunkRun {
                first: right_first,
                bytes: right,
            },
        )
    }
}
