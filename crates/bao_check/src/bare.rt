// Chunks beside an outline: each is verified by the value that the outline has for it.

ghost use Rattle.std.specs.Prelude.{◌≡◌, ◌↔◌, ℕ, ◌+◌, ◌-◌, ◌*◌, ◌^◌, ◌<◌, ◌≤◌, List, length, take, drop, IfErr, IfSome, IsTrue, OnOk};
ghost use Rattle.b3tree.specs.Chunk.{last_chunk_input};
ghost use Rattle.bao_text.specs.Choice.{chunk_count};
ghost use Rattle.bao_text.specs.Nodes.{Side};
ghost use Rattle.bao_check.specs.Bare.{bare_at};
ghost use Rattle.bao_check.specs.Walk.{Meets};

use crate::asked::{Asked, meets};
use crate::fault::CheckFault;
use crate::walk::halves;
use b3tree::{CHUNK_LEN, Cv, Mode, eight_values, left_len, top_input};
use bao_text::{EIGHT_LEN, PARENT_LEN};

// The first `len` bytes of chunk `k`, as far as they are there: the chunks lie side by side, and chunk `first`
// is the first.
pub(crate) fn bare_chunk(chunks: &[u8], first: u64, k: u64, len: u64) -> &[u8]
    ensures { result.now ≡ take len (drop (1024 * (k - first)) chunks.now) }
{
    let at = CHUNK_LEN as u128 * u128::from(k.saturating_sub(first));
    let rest = &chunks[at.min(chunks.len() as u128) as usize..];
    &rest[..len.min(rest.len() as u64) as usize]
}

/// The chaining values of eight chunks, the first of which has the index `first`.
#[derive(Drop)]
pub(crate) struct Eight {
    first: u64,
    values: [Cv; 8],
}

/// The chunks from `first` up to and without `after` of a plain copy, beside the encoding of an outline.
#[derive(Drop)]
pub(crate) struct Bare<'a> {
    pub(crate) mode: Mode,
    pub(crate) outline: &'a [u8],
    pub(crate) first: u64,
    pub(crate) after: u64,
    pub(crate) chunks: &'a [u8],
}

impl Bare<'_> {
    ghost use Rattle.bao_check.specs.BareWalk.{AreEight, ChunkStops, IsChunkGood, PartPasses, PartStops, Reaches};

    // The values of the eight chunks from chunk `number` on, where all of them are there.
    fn eight(&self, number: u64) -> Option<Eight>
        requires { 1024 * number + 8192 ≤ 2 ^ 64 - 1 }
        ensures { IfSome result (λ eight. AreEight self.now eight) }
    {
        if number < self.first {
            return None;
        }
        let at = CHUNK_LEN as u64 * (number - self.first);
        let len = self.chunks.len() as u64;
        if at > len || len - at < EIGHT_LEN as u64 {
            return None;
        }
        let bytes = &self.chunks[at as usize..at as usize + EIGHT_LEN];
        Some(Eight {
            first: number,
            values: eight_values(&self.mode, number, bytes),
        })
    }

    // Whether chunk `k`, which is these bytes, has the value that is asked for. It may be known.
    fn is_same(&self, asked: &Asked, k: u64, bytes: &[u8], known: Option<&Eight>) -> bool
        requires chunk { length bytes.now ≤ 1024 }
        requires range { 1024 * k + length bytes.now ≤ 2 ^ 64 - 1 }
        requires there { bytes.now ≡ take (length bytes.now) (drop (bare_at self.now.first k) self.now.chunks.now) }
        requires known { IfSome known (λ eight. AreEight self.now eight.now) }
        ensures { IsTrue result ↔ Meets asked.now (last_chunk_input self.now.mode k bytes.now) }
    {
        if let Some(eight) = known
            && !asked.top
            && bytes.len() == CHUNK_LEN
            && k >= eight.first
            && let Some(value) = eight.values.get((k - eight.first) as usize)
        {
            return *value == asked.value;
        }
        meets(asked, &top_input(&self.mode, k, bytes))
    }

    // Verifies chunk `k`, which has `len` bytes.
    fn check_chunk(
        &self,
        asked: &Asked,
        k: u64,
        len: u64,
        known: Option<&Eight>,
    ) -> Result<(), CheckFault>
        requires first { self.now.first ≤ k }
        requires chunk { len ≤ 1024 }
        requires range { 1024 * k + len ≤ 2 ^ 64 - 1 }
        requires known { IfSome known (λ eight. AreEight self.now eight.now) }
        ensures ok { OnOk result (IsChunkGood self.now asked.now k len) }
        ensures err { IfErr result (λ fault. ChunkStops self.now asked.now k len fault) }
    {
        let at = CHUNK_LEN as u64 * (k - self.first);
        if at + len > self.chunks.len() as u64 {
            return Err(CheckFault::Short { at });
        }
        let bytes = &self.chunks[at as usize..(at + len) as usize];
        if self.is_same(asked, k, bytes, known) {
            Ok(())
        } else {
            Err(CheckFault::Mismatch { at })
        }
    }

    // Verifies those of the chunks that are in the subtree over `n` bytes from chunk `number` on, the parents of
    // which begin at place `at` of the outline.
    pub(crate) fn check_part(
        &self,
        asked: &Asked,
        number: u64,
        n: u64,
        at: usize,
        known: Option<&Eight>,
    ) -> Result<(), CheckFault>
        requires range { 1024 * number + n ≤ 2 ^ 64 - 1 }
        requires fits { at + 64 * (chunk_count n - 1) ≤ length self.now.outline.now }
        requires known { IfSome known (λ eight. AreEight self.now eight.now) }
        ensures ok { (root : List ℕ) (sides : List Side) (source : ℕ) → Reaches root self.now.outline.now asked.now number n sides source at
            → OnOk result (PartPasses self.now root number n) }
        ensures err { (root : List ℕ) (sides : List Side) (source : ℕ) → Reaches root self.now.outline.now asked.now number n sides source at
            → IfErr result (λ fault. PartStops self.now root number n fault) }
    {
        let chunk_len = CHUNK_LEN as u64;
        if number >= self.after || number + n.div_ceil(chunk_len).max(1) <= self.first {
            return Ok(());
        }
        if n <= chunk_len {
            return self.check_chunk(asked, number, n, known);
        }
        let eight = if n == EIGHT_LEN as u64 {
            self.eight(number)
        } else {
            None
        };
        let known = match &eight {
            Some(eight) => Some(eight),
            None => known,
        };
        let (left, right) = halves(&self.outline[at..at + PARENT_LEN]);
        let left_len = left_len(n);
        self.check_part(&left, number, left_len, at + PARENT_LEN, known)?;
        let left_chunks = left_len / chunk_len;
        self.check_part(
            &right,
            number + left_chunks,
            n - left_len,
            at + PARENT_LEN * left_chunks as usize,
            known,
        )
    }
}
