ghost use Rattle.std.specs.Prelude.{◌≡◌, ℕ, ◌+◌, ◌-◌, ◌*◌, ◌%◌, ◌^◌, ◌<◌, ◌≤◌, ◌↔◌, List, [], ◌++◌, length, take, IsErr, MatchResult, OnErr, OnOk};
ghost use Rattle.std.specs.Int.{IsPowerOfTwo};

use crate::chunk::CHUNK_LEN;
use crate::hashing::{root_hash, rooted};
use crate::lanes::MOST_CHUNKS;
use crate::mode::Mode;
use crate::output::fill_output;
use crate::stack::{Stack, push_subtree};
use crate::tree::{parent_input, subtree_value, top_input};
use crate::values::{Cv, Hash};
use arrayvec::ArrayVec;
use b3word::{Input, cv};
use thiserror::Error;

// The buffer has the bytes of eight chunks, so that lanes have whole subtrees in any cutting.
const BUFFER_CHUNKS: usize = 8;

const BUFFER_LEN: usize = BUFFER_CHUNKS * CHUNK_LEN;

// The chunks of the largest whole subtree that comes after `before` chunks and leaves some of `len`
// bytes, up to `MOST_CHUNKS`.
fn whole_chunks(before: u64, len: usize) -> usize
    requires len { 8192 < len }
    requires before { before % 8 ≡ 0 }
    ensures whole { IsPowerOfTwo result }
    ensures eighths { result % 8 ≡ 0 }
    ensures some { 0 < result }
    ensures place { before % result ≡ 0 }
    ensures within { 1024 * result < len }
{
    let mut chunks = BUFFER_CHUNKS;
    'doubled: while chunks < MOST_CHUNKS {
        let twice = 2 * chunks;
        if before % twice as u64 != 0 || CHUNK_LEN * twice >= len {
            break;
        }
        chunks = twice;
    }
    chunks
}

/// The input would be longer than 2^64 - 1 bytes. Number 201.
#[derive(Clone, Copy, Debug, PartialEq, Eq, Error)]
#[error("201 too long")]
pub struct TooLong;

impl TooLong {
    /// Returns the number of the fault: 201.
    pub fn code(&self) -> u16
        ensures { result ≡ 201 }
    {
        201
    }
}

/// Hashes an input that arrives in parts: the result is that of `hash` and `xof` over all the bytes, however
/// they are cut.
#[derive(Drop)]
pub struct Hasher {
    mode: Mode,
    // The chunks before those whose bytes are in the buffer: whole subtrees of eight or more.
    stack: Stack,
    chunks: u64,
    buffer: [u8; BUFFER_LEN],
    buffered: usize,
    ghost in_buffer: { buffered ≤ 8192 },
    ghost fits: { 1024 * chunks + buffered < 2 ^ 64 },
    ghost eighths: { chunks % 8 ≡ 0 },
}

impl Hasher {
    ghost use Rattle.b3tree.specs.declared.mode.Mode.{Mode};
    ghost use Rattle.b3tree.specs.Hashing.{hash, rooted, stream};
    ghost use Rattle.b3tree.specs.Taken.{Holds, Splits};
    ghost use Rattle.b3tree.specs.Tree.{subtree_cv, top_input};

    /// Returns a hasher in `mode` that has no input yet.
    pub fn new(mode: &Mode) -> Hasher
        ensures holds { Holds result mode.now [] }
        ensures splits { Splits result mode.now [] [] }
    {
        Hasher {
            mode: *mode,
            stack: ArrayVec::new(),
            chunks: 0,
            buffer: [0; BUFFER_LEN],
            buffered: 0,
        }
    }

    /// Returns another hasher with the same input so far: what one of them takes in then, the other doesn't.
    pub fn copy(&self) -> Hasher
        ensures { (mode : Mode) (s : List ℕ) → Holds self.now mode s → Holds result mode s }
    {
        let mut stack = ArrayVec::new();
        // There is room for all of an equal stack.
        let _ = stack.try_extend_from_slice(self.stack.as_slice());
        Hasher {
            mode: self.mode,
            stack,
            chunks: self.chunks,
            buffer: self.buffer,
            buffered: self.buffered,
        }
    }

    /// Appends `bytes` to the input.
    ///
    /// Refuses with `TooLong` (201) exactly if the input would be longer than 2^64 - 1 bytes; the hasher is
    /// then unchanged.
    pub fn update(&mut self, bytes: &[u8]) -> Result<(), TooLong>
        ensures taken { (mode : Mode) (s : List ℕ) → Holds self.old mode s → OnOk result (Holds self.new mode (s ++ bytes.now)) }

        // After whole subtrees, of which `update_subtree` took in some by their values.
        ensures ended { (mode : Mode) (s : List ℕ) → Splits self.old mode s [] → 0 < length bytes.now
            → MatchResult result (λ _. Holds self.new mode (s ++ bytes.now)) (λ _. 2 ^ 64 - 1 < length s + length bytes.now) }
        ensures refused { (mode : Mode) (s : List ℕ) → Holds self.old mode s
            → (IsErr result ↔ (2 ^ 64 - 1 < length s + length bytes.now)) }
        ensures unchanged { OnErr result (self.new ≡ self.old) }
    {
        let total = CHUNK_LEN as u64 * self.chunks + self.buffered as u64;
        if total.checked_add(bytes.len() as u64).is_none() {
            return Err(TooLong);
        }
        let mut rest = bytes;
        'pieces: while !rest.is_empty() {
            let count = self.take_some(rest);
            rest = rest.split_at(count).1;
        }
        Ok(())
    }

    /// Appends `chunks` chunks by the chaining value of their subtree, in place of their bytes.
    ///
    /// `chunks` is a power of two, at least 8, and the chunks so far are a multiple of it, all of them in such
    /// subtrees. At least one byte must follow, since only then is the subtree not the root.
    pub fn update_subtree(&mut self, chunks: usize, value: Cv)
        requires empty { self.old.buffered ≡ 0 }
        requires whole { IsPowerOfTwo chunks }
        requires eighths { chunks % 8 ≡ 0 }
        requires place { self.old.chunks % chunks ≡ 0 }
        requires fits { 1024 * self.old.chunks + 1024 * chunks < 2 ^ 64 }
        ensures chunks { self.new.chunks ≡ self.old.chunks + chunks }
        ensures buffered { self.new.buffered ≡ 0 }
        ensures mode { self.new.mode ≡ self.old.mode }
        ensures splits { (mode : Mode) (earlier piece : List ℕ) → Splits self.old mode earlier [] → length piece ≡ 1024 * chunks
            → value.0 ≡ subtree_cv self.old.mode self.old.chunks piece → Splits self.new mode (earlier ++ piece) [] }
    {
        push_subtree(
            &mut self.stack,
            &self.mode,
            self.chunks / chunks as u64,
            value.0,
        );
        self.chunks += chunks as u64;
    }

    // Takes in some of the bytes, and answers their number: whole subtrees where the buffer is empty, and
    // what the buffer has room for. At least one byte goes to the buffer, since it may be the last.
    fn take_some(&mut self, bytes: &[u8]) -> usize
        requires some { 0 < length bytes.now }
        requires fits { 1024 * self.old.chunks + self.old.buffered + length bytes.now < 2 ^ 64 }
        ensures some { 0 < result }
        ensures within { result ≤ length bytes.now }
        ensures total { 1024 * self.new.chunks + self.new.buffered ≡ 1024 * self.old.chunks + self.old.buffered + result }
        ensures taken { (mode : Mode) (earlier last : List ℕ) → Splits self.old mode earlier last → Holds self.new mode (earlier ++ last ++ take result bytes.now) }
    {
        if self.buffered == BUFFER_LEN {
            self.stack_buffer();
        }
        let whole = self.stack_wholes(bytes);
        let rest = &bytes[whole..];
        let count = rest.len().min(BUFFER_LEN - self.buffered);
        self.keep(&rest[..count]);
        whole + count
    }

    // Moves a full buffer's chunks to the stack.
    fn stack_buffer(&mut self)
        requires full { self.old.buffered ≡ 8192 }
        requires fits { 1024 * self.old.chunks + 8192 < 2 ^ 64 }
        ensures chunks { self.new.chunks ≡ self.old.chunks + 8 }
        ensures buffered { self.new.buffered ≡ 0 }
        ensures splits { (mode : Mode) (earlier last : List ℕ) → Splits self.old mode earlier last
            → Splits self.new mode (earlier ++ last) [] }
    {
        let value = subtree_value(&self.mode, self.chunks, &self.buffer[..self.buffered]);
        self.buffered = 0;
        self.update_subtree(BUFFER_CHUNKS, Cv(value));
    }

    // Moves whole subtrees from the front of `bytes` to the stack, where the buffer is empty, and answers
    // how many bytes they have: fewer than all.
    fn stack_wholes(&mut self, bytes: &[u8]) -> usize
        requires some { 0 < length bytes.now }
        requires fits { 1024 * self.old.chunks + self.old.buffered + length bytes.now < 2 ^ 64 }
        ensures within { result < length bytes.now }
        ensures total { 1024 * self.new.chunks ≡ 1024 * self.old.chunks + result }
        ensures buffered { self.new.buffered ≡ self.old.buffered }
        ensures splits { (mode : Mode) (earlier last : List ℕ) → Splits self.old mode earlier last
            → (0 < result → last ≡ []) × Splits self.new mode (earlier ++ take result bytes.now) last }
    {
        let mut taken = 0;
        if self.buffered > 0 {
            return taken;
        }
        'wholes: while bytes.len() - taken > BUFFER_LEN {
            let rest = &bytes[taken..];
            let chunks = whole_chunks(self.chunks, rest.len());
            let value = subtree_value(&self.mode, self.chunks, &rest[..CHUNK_LEN * chunks]);
            self.update_subtree(chunks, Cv(value));
            taken += CHUNK_LEN * chunks;
        }
        taken
    }

    // Takes `piece` into the buffer.
    fn keep(&mut self, piece: &[u8])
        requires room { self.old.buffered + length piece.now ≤ 8192 }
        requires fits { 1024 * self.old.chunks + self.old.buffered + length piece.now < 2 ^ 64 }
        ensures chunks { self.new.chunks ≡ self.old.chunks }
        ensures buffered { self.new.buffered ≡ self.old.buffered + length piece.now }
        ensures splits { (mode : Mode) (earlier last : List ℕ) → Splits self.old mode earlier last
            → Splits self.new mode earlier (last ++ piece.now) }
    {
        let end = self.buffered + piece.len();
        self.buffer[self.buffered..end].copy_from_slice(piece);
        self.buffered = end;
    }

    // The root's input: the tree over the buffer joined with the subtrees of the stack, the smallest first.
    fn root(&self) -> Input
        ensures { (mode : Mode) (s : List ℕ) → Holds self.now mode s → result ≡ rooted (top_input mode 0 s) }
    {
        let values = self.stack.as_slice();
        let mut input = top_input(&self.mode, self.chunks, &self.buffer[..self.buffered]);
        'joined: for i in (0..values.len()).rev() {
            input = parent_input(&self.mode, &Cv(values[i]), &Cv(cv(&input)));
        }
        rooted(&input)
    }

    /// Returns the hash of the input so far. More input may follow.
    #[tactic(auto, unfolding(crate::specs::Hashing::hash))]
    pub fn finalize(&self) -> Hash
        ensures { (mode : Mode) (s : List ℕ) → Holds self.now mode s → result.0 ≡ hash mode s }
    {
        root_hash(&self.root())
    }

    /// Fills `out` with extended output of the input so far, from byte `at` of the output on, as `xof` does.
    /// More input may follow.
    pub fn finalize_xof(&self, at: u64, out: &mut [u8])
        requires { at + length out.old ≤ 2 ^ 64 - 1 }
        ensures { (mode : Mode) (s : List ℕ) → Holds self.now mode s → out.new ≡ stream mode s at (length out.old) }
    {
        fill_output(&self.root(), at, out)
    }
}
