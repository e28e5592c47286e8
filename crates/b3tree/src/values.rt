ghost use Rattle.std.specs.Prelude.{◌≡◌, length};
ghost use Rattle.b3tree.specs.Bytes.{bytes_of, words_of};

use crate::bytes::{put_bytes, words_of};

/// The hash of an input: 32 bytes.
#[derive(Clone, Copy, Debug, PartialEq, Eq)]
pub struct Hash(pub [u8; 32]);

/// The chaining value of a subtree: 8 words.
#[derive(Clone, Copy, Debug, PartialEq, Eq)]
pub struct Cv(pub [u32; 8]);

impl Cv {
    /// Returns the chaining value whose words are these 32 bytes, little-endian, as an encoding's parent has
    /// them.
    pub fn from_bytes(bytes: &[u8]) -> Cv
        requires { length bytes.now ≡ 32 }
        ensures { result.0 ≡ words_of 8 bytes.now }
    {
        Cv(words_of(bytes))
    }

    /// Returns the words as 32 bytes, little-endian, as an encoding's parent has them.
    pub fn to_bytes(&self) -> [u8; 32]
        ensures { result ≡ bytes_of self.now.0 }
    {
        let mut bytes = [0; 32];
        put_bytes(&self.0, &mut bytes);
        bytes
    }
}
