ghost use Rattle.std.specs.Prelude.{◌≡◌, ◌+◌, ◌-◌, ◌^◌, ◌≤◌, ◌↔◌, IsTrue, length};
ghost use Rattle.b3tree.specs.Hashing.{output, output_block, stream};

use crate::bytes::put_bytes;
use crate::hashing::rooted;
use crate::mode::Mode;
use crate::tree::top_input;
use b3word::{Input, compress};

const OUTPUT_BLOCK_LEN: usize = 64;

/// Returns whether `len` bytes of extended output from byte `at` on end at 2^64 - 1 or before.
pub fn xof_fits(at: u64, len: u64) -> bool
    ensures { IsTrue result ↔ (at + len ≤ 2 ^ 64 - 1) }
{
    at.checked_add(len).is_some()
}

// Block `n` of the output of `root`: 64 bytes.
fn output_block(root: &Input, n: u64) -> [u8; 64]
    ensures block { result ≡ output_block root.now n }
    ensures len { length result ≡ 64 }
{
    let mut bytes = [0; OUTPUT_BLOCK_LEN];
    put_bytes(&compress(&Input { t: n, ..*root }), &mut bytes);
    bytes
}

// Fills `out` with the output of `root` from byte `at` on.
pub(crate) fn fill_output(root: &Input, at: u64, out: &mut [u8])
    requires { at + length out.old ≤ 2 ^ 64 - 1 }
    ensures { out.new ≡ output root.now at (length out.old) }
{
    let mut done = 0;
    'fill: while done < out.len() {
        let position = at + done as u64;
        let start = (position % OUTPUT_BLOCK_LEN as u64) as usize;
        let count = (OUTPUT_BLOCK_LEN - start).min(out.len() - done);
        let block = output_block(root, position / OUTPUT_BLOCK_LEN as u64);
        out[done..done + count].copy_from_slice(&block[start..start + count]);
        done += count;
    }
}

/// Fills `out` with the extended output of `bytes` in `mode`, from byte `at` of the output on (BLAKE3 paper,
/// 2.6).
///
/// `at + out.len()` is at most 2^64 - 1, as `xof_fits` tests. The first 32 bytes of the output are the hash.
/// Only the blocks that `out` overlaps are computed.
pub fn xof(mode: &Mode, bytes: &[u8], at: u64, out: &mut [u8])
    requires { at + length out.old ≤ 2 ^ 64 - 1 }
    ensures { out.new ≡ stream mode.now bytes.now at (length out.old) }
{
    fill_output(&rooted(&top_input(mode, 0, bytes)), at, out)
}
