ghost use Rattle.std.specs.Prelude.{◌≡◌, ◌+◌, ◌<◌, ◌≤◌, length, take, drop};
ghost use Rattle.std.specs.Int.{w64, from_le_bytes};
ghost use Rattle.store_core.specs.Cells.{cell_word};

// How many bytes a word has.
pub(crate) const WORD_LEN: usize = 8;

// The eight bytes from index `at` on as a word, little-endian.
pub(crate) fn whole_word(bytes: &[u8], at: usize) -> u64
    requires { at + 8 ≤ length bytes.now }
    ensures { result ≡ from_le_bytes w64 (take 8 (drop at bytes.now)) }
{
    u64::from_le_bytes([
        bytes[at],
        bytes[at + 1],
        bytes[at + 2],
        bytes[at + 3],
        bytes[at + 4],
        bytes[at + 5],
        bytes[at + 6],
        bytes[at + 7],
    ])
}

// The bytes from index `at` on, less than eight, as a word: zeros stand after the last.
fn last_word(bytes: &[u8], at: usize) -> u64
    requires { length bytes.now < at + 8 }
    ensures { result ≡ from_le_bytes w64 (take 8 (drop at bytes.now)) }
{
    let rest = &bytes[at.min(bytes.len())..];
    let mut word = [0; WORD_LEN];
    word[..rest.len()].copy_from_slice(rest);
    u64::from_le_bytes(word)
}

// A word of the cell of a chunk with these bytes: word 0 is their count, words 1 to 128 are eight bytes each.
pub(crate) fn cell_word(bytes: &[u8], word: u8) -> u64
    ensures { result ≡ cell_word bytes.now word }
{
    if word == 0 {
        return bytes.len() as u64;
    }
    let at = WORD_LEN * (usize::from(word) - 1);
    if at + WORD_LEN <= bytes.len() {
        whole_word(bytes, at)
    } else {
        last_word(bytes, at)
    }
}
