// Chunks that come next, up to eight, hashed at once before each has its turn to be verified: one in each lane.

ghost use Rattle.std.specs.Prelude.{◌≡◌, ℕ, ◌+◌, ◌-◌, ◌*◌, ◌^◌, ◌<◌, ◌≤◌, List, [], length, drop, slice_index, slice_index_or, IfSome};
ghost use Rattle.b3word.specs.Compression.{cv};
ghost use Rattle.b3tree.specs.declared.mode.Mode.{Mode};
ghost use Rattle.b3tree.specs.Chunk.{last_chunk_input};
ghost use Rattle.b3tree.specs.Pieces.{lane_place, piece};
ghost use Rattle.bao_check.specs.Known.{AreKnown, AreThere, IsValueAt, KnowsNext};

use crate::waiting::{Waiting, next_part};
use arrayvec::ArrayVec;
use b3tree::{CHUNK_LEN, Cv, Mode, chunks_a_lane, left_len, spaced_chunks};
use b3word::transposed;
use bao_text::PARENT_LEN;

const LANES: usize = 8;

// Room for a chunk in each lane, as `spaced_chunks` has them in a text: with parents between them.
const TEXT_LEN: usize = LANES * CHUNK_LEN + 4 * PARENT_LEN;

// How many nodes are looked at: eight chunks, and the parents before them.
const NODES: usize = 64;

type Places = ArrayVec<usize, LANES>;

/// Chaining values of consecutive chunks of an encoding.
#[derive(Drop)]
pub(crate) struct Known {
    // The number of the first.
    first: u64,
    // Where each begins.
    places: Places,
    values: [[u32; 8]; 8],
}

// A subtree that is still to come.
#[derive(Clone, Copy, Default)]
struct Shape {
    number: u64,
    len: u64,
}

// Whether a subtree of `len` bytes is one that is verified whole, since so many bytes have all of it.
fn is_whole_there(len: u64, bytes: usize) -> bool {
    match chunks_a_lane(len) {
        Some(chunks) => bytes >= (CHUNK_LEN + PARENT_LEN) * LANES * chunks - PARENT_LEN,
        None => false,
    }
}

// Where the whole chunks begin that come next, from place `from` of the bytes on, if their numbers follow one another from `first` on. What
// isn't so found is no fault: it is verified by itself.
fn next_places(waiting: &Waiting, bytes: &[u8], from: usize, first: u64) -> Places
    ensures { AreThere bytes.now result.items }
{
    let mut places = Places::new();
    let mut shapes: ArrayVec<Shape, NODES> = ArrayVec::new();
    for part in waiting.as_slice() {
        let _ = shapes.try_push(Shape {
            number: part.number,
            len: part.len,
        });
    }
    let mut at = from;
    for _ in 0..NODES {
        let Some(shape) = shapes.pop() else {
            return places;
        };
        let Some(room) = bytes.len().checked_sub(at) else {
            return places;
        };
        if shape.len <= CHUNK_LEN as u64 {
            let is_next = shape.number == first.saturating_add(places.len() as u64);
            if shape.len < CHUNK_LEN as u64 || !is_next || room < CHUNK_LEN {
                return places;
            }
            if places.try_push(at).is_err() {
                return places;
            }
            at += CHUNK_LEN;
            continue;
        }
        if room < PARENT_LEN || is_whole_there(shape.len, room) {
            return places;
        }
        at += PARENT_LEN;
        let left_len = left_len(shape.len);
        let _ = shapes.try_push(Shape {
            number: shape.number.saturating_add(left_len / CHUNK_LEN as u64),
            len: shape.len - left_len,
        });
        let _ = shapes.try_push(Shape {
            number: shape.number,
            len: left_len,
        });
    }
    places
}

// Copies the chunks that begin at these places, each to where its lane has it.
fn place_chunks(bytes: &[u8], places: &[usize], text: &mut [u8])
    requires few { length places.now ≤ 8 }
    requires there { AreThere bytes.now places.now }
    requires room { length text.old ≡ 8448 }
    ensures size { length text.new ≡ 8448 }
    ensures placed { (k : ℕ) → k < length places.now → piece text.new (lane_place 0 1024 k) 1024 ≡ piece bytes.now (slice_index places.now k) 1024 }
{
    'chunks: for k in 0..places.len() {
        let place = places[k];
        let to = CHUNK_LEN * k + PARENT_LEN * (k / 2 + k / 4);
        text[to..to + CHUNK_LEN].copy_from_slice(&bytes[place..place + CHUNK_LEN]);
    }
}

// The values of the chunks at these places. Not in line: the room for their copy is needed here alone.
#[inline(never)]
fn values_at(mode: &Mode, bytes: &[u8], places: &[usize], first: u64) -> [[u32; 8]; 8]
    requires few { length places.now ≤ 8 }
    requires there { AreThere bytes.now places.now }
    requires number { first + 7 < 2 ^ 64 }
    ensures { (k : ℕ) → k < length places.now → IsValueAt mode.now (first + k) bytes.now (slice_index places.now k) (slice_index_or result k []) }
{
    let mut text = [0; TEXT_LEN];
    place_chunks(bytes, places, &mut text);
    let values = spaced_chunks(mode, first, 1, &text, 0, CHUNK_LEN);
    transposed(&values).map(
        |row|
            ensures { result ≡ row }
        { row.to_array() },
    )
}

impl Known {
    // None.
    pub(crate) fn none() -> Known
        ensures { (mode : Mode) (bytes : List ℕ) → AreKnown mode bytes result }
    {
        Known {
            first: 0,
            places: ArrayVec::new(),
            values: [[0; 8]; 8],
        }
    }

    // Those of the chunks that come next, from place `from` of the bytes on, the first of them with the number `first`. One alone isn't hashed:
    // it takes less by itself.
    fn of_next(mode: &Mode, waiting: &Waiting, bytes: &[u8], from: usize, first: u64) -> Known
        ensures { AreKnown mode.now bytes.now result }
    {
        if first > u64::MAX - LANES as u64 {
            return Known::none();
        }
        let places = next_places(waiting, bytes, from, first);
        if places.len() < 2 {
            return Known::none();
        }
        let values = values_at(mode, bytes, places.as_slice(), first);
        Known {
            first,
            places,
            values,
        }
    }

    // The value of the chunk with this number that begins at this place, if it is among these.
    fn value_of(&self, number: u64, place: usize) -> Option<Cv>
        ensures { (mode : Mode) (bytes : List ℕ) → AreKnown mode bytes self.now → IfSome result (λ value. IsValueAt mode number bytes place value.0) }
    {
        let after = number.checked_sub(self.first)?;
        if after >= self.places.len() as u64 {
            return None;
        }
        let k = after as usize;
        if self.places.as_slice()[k] != place || k >= LANES {
            return None;
        }
        Some(Cv(self.values[k]))
    }

    // The value of the node that comes next, from place `from` of the bytes on, if it is a whole chunk: where it isn't among these, they become
    // those of it and the chunks after it.
    pub(crate) fn next_value(
        &mut self,
        mode: &Mode,
        waiting: &Waiting,
        bytes: &[u8],
        from: usize,
    ) -> Option<Cv>
        requires known { AreKnown mode.now bytes.now self.old }
        ensures known { AreKnown mode.now bytes.now self.new }
        ensures next { KnowsNext mode.now waiting.now.items (drop from bytes.now) result }
    {
        let Some(part) = next_part(waiting) else {
            return None;
        };
        if part.len != CHUNK_LEN as u64 || part.asked.top {
            return None;
        }
        if let Some(value) = self.value_of(part.number, from) {
            return Some(value);
        }
        *self = Known::of_next(mode, waiting, bytes, from, part.number);
        self.value_of(part.number, from)
    }
}
