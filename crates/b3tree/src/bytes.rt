ghost use Rattle.std.specs.Prelude.{◌≡◌, ◌+◌, ◌*◌, ◌≤◌, length};
ghost use Rattle.b3tree.specs.Bytes.{bytes_of, word_at, words_of};
ghost use Rattle.b3tree.specs.Valid.{AreBytes};

/// Lemma: the elements of a byte slice are below 256. No effect at run time.
pub fn bytes_are(bytes: &[u8])
    ensures { AreBytes bytes.now }
{
    // A read of the slice, so that the proof has what its type says of it.
    let _count = bytes.len();
}

#[inline(always)]
fn word_at(bytes: &[u8], i: usize) -> u32
    requires { 4 * i + 4 ≤ length bytes.now }
    ensures { result ≡ word_at bytes.now i }
{
    u32::from_le_bytes([
        bytes[4 * i],
        bytes[4 * i + 1],
        bytes[4 * i + 2],
        bytes[4 * i + 3],
    ])
}

#[inline(always)]
pub(crate) fn words_of<const N: usize>(bytes: &[u8]) -> [u32; N]
    requires { length bytes.now ≡ 4 * N }
    ensures { result ≡ words_of N bytes.now }
{
    let mut words = [0; N];
    'words: for i in 0..N {
        words[i] = word_at(bytes, i);
    }
    words
}

pub(crate) fn put_bytes(words: &[u32], out: &mut [u8])
    requires { length out.old ≡ 4 * length words.now }
    ensures { out.new ≡ bytes_of words.now }
{
    'words: for i in 0..words.len() {
        out[4 * i..4 * i + 4].copy_from_slice(&words[i].to_le_bytes());
    }
}
