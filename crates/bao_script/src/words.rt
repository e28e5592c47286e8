ghost use Rattle.std.specs.Prelude.{◌≡◌, map, IfOk, ◌==◌};
ghost use Rattle.std.specs.Char.{is_ascii_digit};
ghost use Rattle.std.specs.List.{list_all};
ghost use Rattle.bao_script.specs.Words.{line_words, written_number};

use std::alloc::{AllocError, Global};

// The words of a line.
pub fn split_words<'a>(alloc: Global, line: &'a str) -> Result<Vec<&'a str>, AllocError>
    ensures { IfOk result (λ words. map (λ word. word.now) words.items ≡ line_words line.now) }
{
    line.split(' ').collect(alloc)
}

fn has_digits_alone(word: &str) -> bool
    ensures { result ≡ list_all is_ascii_digit word.now }
{
    word.bytes().all(|byte| byte.is_ascii_digit())
}

// The number of 64 bits that a word writes.
pub fn number_64(word: &str) -> Option<u64>
    ensures { result ≡ written_number 64 word.now }
{
    if !has_digits_alone(word) {
        return None;
    }
    word.parse().ok()
}

// The number of 32 bits that a word writes.
pub fn number_32(word: &str) -> Option<u32>
    ensures { result ≡ written_number 32 word.now }
{
    u32::try_from(number_64(word)?).ok()
}

// The number of 8 bits that a word writes.
pub fn number_8(word: &str) -> Option<u8>
    ensures { result ≡ written_number 8 word.now }
{
    u8::try_from(number_64(word)?).ok()
}
