ghost use Rattle.std.specs.Prelude.{◌≡◌, ◌≢◌, ◌↔◌, ℕ, ◌+◌, ◌-◌, ◌^◌, ◌<◌, ◌≤◌, drop, length, slice_get, take, IfSome, IsNone, None};
ghost use Rattle.bao_check.specs.Waiting.{IsAcceptedAs};
ghost use Rattle.bao_text.specs.Cut.{claimed};
ghost use Rattle.holders.specs.Pieces.{EndsBlob, piece_of};
ghost use Rattle.berylwool.specs.Calls.{slice_piece};
ghost use Rattle.berylwool.specs.Decoding.{AreBytesOf, asked_size, byte_of};
ghost use Rattle.berylwool.specs.Feeds.{IsTextRefused};
ghost use Rattle.berylwool.specs.Modes.{IsKnown};
ghost use Rattle.berylwool.specs.Slices.{task_of};

use crate::checking::told;
use crate::slice::BwSlice;
use crate::status::{NO_MODE, ROOM};
use b3tree::{CHUNK_LEN, Hash};
use bao_check::{Checked, check_slice};
use bao_text::{LENGTH_LEN, claimed};
use std::alloc::Global;
use store_core::put_bytes;

// How many bytes of the blob are asked for: those of the range that are below the length that the encoding
// claims.
fn asked(text: &[u8], start: u64, len: u64) -> u64
    ensures value { result ≡ asked_size text.now start len }
    ensures end { start + result < 2 ^ 64 }
{
    if text.len() < LENGTH_LEN {
        return 0;
    }
    claimed(text)
        .min(start.saturating_add(len))
        .saturating_sub(start)
}

// The slice's bytes from byte `at` of the blob to the end of their chunk, at most `most`; none if it lacks that
// byte.
fn bytes_at<'a>(piece: &Checked<'a>, at: u64, most: usize) -> Option<&'a [u8]>
    ensures some { IfSome result (λ bytes. (0 < length bytes.now) × (length bytes.now ≤ most)) }
    ensures are { IfSome result (λ bytes. (i : ℕ) → i < length bytes.now → byte_of (piece_of 0 piece.now) (at + i) ≡ slice_get bytes.now i) }
    ensures none { IsNone result → 0 < most → byte_of (piece_of 0 piece.now) at ≡ None }
{
    let chunk_len = CHUNK_LEN as u64;
    let bytes = piece.chunk(at / chunk_len)?;
    let within = (at % chunk_len) as usize;
    let count = bytes.len().min(CHUNK_LEN).saturating_sub(within).min(most);
    if count == 0 {
        return None;
    }
    Some(&bytes[within..within + count])
}

// Copies the slice's bytes from byte `start` of the blob on, up to the first that it lacks, and returns how
// many.
fn copied(piece: &Checked<'_>, start: u64, out: &mut [u8]) -> usize
    requires { start + length out.old < 2 ^ 64 }
    ensures bytes { AreBytesOf (piece_of 0 piece.now) start (length out.old) (take result out.new) }
    ensures rest { drop result out.new ≡ drop result out.old }
    ensures within { result ≤ length out.old }
    ensures size { length out.new ≡ length out.old }
{
    let mut filled = 0;
    while let Some(bytes) = bytes_at(piece, start + filled as u64, out.len() - filled) {
        put_bytes(out, filled, bytes);
        filled += bytes.len();
    }
    filled
}

/// Checks `text` as the slice that `slice` names, and copies the blob's bytes of its range to the front of
/// `out`.
#[unsafe(no_mangle)]
pub extern "C" fn bw_decode(
    alloc: Global,
    slice: &BwSlice,
    text: &[u8],
    out: &mut [u8],
    used: &mut usize,
    total: &mut u64,
    at: &mut u64,
) -> u32
    ensures bytes { result ≡ 0 → AreBytesOf (slice_piece 0 text.now slice.now.start slice.now.len) slice.now.start (asked_size text.now slice.now.start slice.now.len) (take used.new out.new) }
    ensures rest { result ≡ 0 → drop used.new out.new ≡ drop used.new out.old }
    ensures within { result ≡ 0 → used.new ≤ asked_size text.now slice.now.start slice.now.len }
    ensures fits { result ≡ 0 → used.new ≤ length out.new }
    ensures certified { result ≡ 0 → EndsBlob (slice_piece 0 text.now slice.now.start slice.now.len) → total.new ≡ claimed text.now }
    ensures uncertified { result ≡ 0 → (¬ EndsBlob (slice_piece 0 text.now slice.now.start slice.now.len)) → total.new ≡ 2 ^ 64 - 1 }
    ensures unknown { result ≡ 1213 ↔ (¬ IsKnown slice.now.mode) }
    ensures accepted { result ≢ 1201 → (result ≡ 0 ↔ (IsKnown slice.now.mode × IsAcceptedAs (task_of slice.now) text.now)) }
    ensures fault { result ≢ 0 → result ≢ 1201 → result ≢ 1213 → IsTextRefused (task_of slice.now) text.now result at.new }
    ensures room { result ≡ 1201 ↔ (IsKnown slice.now.mode × (length out.old < asked_size text.now slice.now.start slice.now.len)) }
    ensures needed { result ≡ 1201 → used.new ≡ asked_size text.now slice.now.start slice.now.len }
    ensures same { result ≢ 0 → out.new ≡ out.old }
{
    if !slice.mode.is_known() {
        return NO_MODE;
    }
    let size = asked(text, slice.start, slice.len) as usize;
    if size > out.len() {
        *used = size;
        return ROOM;
    }
    match check_slice(
        alloc,
        &slice.mode.get(),
        &Hash(slice.root),
        slice.start,
        slice.len,
        text,
    ) {
        Ok(piece) => {
            *used = copied(&piece, slice.start, &mut out[..size]);
            *total = match piece.tail() {
                Some(tail) => tail.length(),
                None => u64::MAX,
            };
            0
        }
        Err(fault) => told(&fault, at),
    }
}
