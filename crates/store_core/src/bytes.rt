ghost use Rattle.std.specs.Prelude.{◌≡◌, ℕ, ◌+◌, ◌*◌, ◌<◌, ◌≤◌, ◌++◌, length, take, drop, None, Some, slice_index};
ghost use Rattle.b3tree.specs.Valid.{AreBytes};
ghost use Rattle.store_core.specs.Slots.{slot_byte};

use crate::slot::Slot;
use b3tree::CHUNK_LEN;

// The bytes held from position `p` on in its chunk: none where the position isn't held.
pub(crate) fn bytes_from(slots: &[Slot], p: u64) -> &[u8]
    ensures held { (k : ℕ) → k < length result.now → slot_byte slots.now (p + k) ≡ Some (slice_index result.now k) }
    ensures none { length result.now ≡ 0 → slot_byte slots.now p ≡ None }
    ensures within { 0 < length result.now → p + length result.now ≤ 1024 * length slots.now }
{
    let chunk = (p / CHUNK_LEN as u64) as usize;
    let from = (p % CHUNK_LEN as u64) as usize;
    match slots.get(chunk) {
        Some(Slot::Held(bytes)) => {
            let bytes = bytes.as_slice();
            let end = bytes.len().min(CHUNK_LEN);
            &bytes[from.min(end)..end]
        }
        _ => &[],
    }
}

/// Copies `bytes` into `out` from index `from` on.
#[inline(always)]
pub fn put_bytes(out: &mut [u8], from: usize, bytes: &[u8])
    requires { from + length bytes.now ≤ length out.old }
    ensures { out.new ≡ take from out.old ++ (bytes.now ++ drop (from + length bytes.now) out.old) }
{
    out[from..from + bytes.len()].copy_from_slice(bytes);
}
