ghost use Rattle.std.specs.Prelude.{◌≡◌, ◌%◌, ◌^◌, ◌<◌};
ghost use Rattle.b3tree.specs.Words.{AreWords};

use crate::bytes::words_of;
use crate::flags::{DERIVE_KEY_CONTEXT, DERIVE_KEY_MATERIAL, KEYED_HASH};
use crate::hashing::hash;
use b3word::IV;

/// A BLAKE3 mode: the key words and the flags of every compression (BLAKE3 paper, 2.3).
#[derive(Clone, Copy, Debug, PartialEq, Eq)]
pub struct Mode {
    key: [u32; 8],
    domain: u32,

    // None of the four flags of the tree: a parent's input has PARENT and a chunk's hasn't, so that the two are
    // never equal, and a collision of a parent and a chunk is of two different inputs.
    ghost apart: { domain % 16 ≡ 0 },
}

impl Mode {
    ghost use Rattle.b3tree.specs.Modes.{of_context_key, key_words, keyed, mode_flags, of_context, plain};
    ghost use Rattle.b3tree.specs.Hashing.{context_key, derived};
    ghost use Rattle.b3tree.specs.Valid.{IsKeyed};

    /// Returns the mode of plain hashing: the IV as key words, and no flags.
    pub fn hash() -> Mode
        ensures { result ≡ plain }
    {
        Mode { key: IV, domain: 0 }
    }

    /// Returns the mode that hashes under a key of 32 bytes: the key words are the key's, and the flag is
    /// KEYED_HASH.
    pub fn keyed(key: [u8; 32]) -> Mode
        ensures { result ≡ keyed key }
    {
        Mode {
            key: words_of(&key),
            domain: KEYED_HASH,
        }
    }

    /// Returns the mode that derives keys for the purpose that `context` names: `hash` and `xof` of key
    /// material give the derived key.
    ///
    /// The key is the hash of `context` under the IV with the flag DERIVE_KEY_CONTEXT; the flag is
    /// DERIVE_KEY_MATERIAL.
    pub fn derive(context: &str) -> Mode
        ensures { result ≡ derived context.now }
    {
        Mode::from_context_key(Mode::context_key(context.as_bytes()))
    }

    /// Returns the 32-byte key of a context: the hash of `context` under the IV with the flag
    /// DERIVE_KEY_CONTEXT.
    ///
    /// It isn't secret. Keeping it saves hashing the context for each mode. BLAKE3 defines contexts as UTF-8;
    /// here they may be any bytes.
    pub fn context_key(context: &[u8]) -> [u8; 32]
        ensures { result ≡ context_key context.now }
    {
        hash(&Mode::of_context(), context).0
    }

    /// Returns the key derivation mode for a key that `context_key` returned: `Mode::derive(context)` is
    /// `Mode::from_context_key(Mode::context_key(context))`.
    pub fn from_context_key(key: [u8; 32]) -> Mode
        ensures { result ≡ of_context_key key }
    {
        Mode {
            key: words_of(&key),
            domain: DERIVE_KEY_MATERIAL,
        }
    }

    /// Lemma: the key words and the flags of a mode are words. No effect at run time.
    pub fn is_keyed(&self)
        ensures { IsKeyed self.now }
    {
        // A law, so that the proof has what it says: nothing runs.
        words_are(&self.key);
        word_is(self.domain);
    }

    // The first step of key derivation.
    fn of_context() -> Mode
        ensures { result ≡ of_context }
    {
        Mode {
            key: IV,
            domain: DERIVE_KEY_CONTEXT,
        }
    }

    // The eight key words.
    pub(crate) fn key_words(&self) -> [u32; 8]
        ensures { result ≡ key_words self.now }
    {
        self.key
    }

    // The flags that every compression of the mode carries.
    pub(crate) fn flags(&self) -> u32
        ensures { result ≡ mode_flags self.now }
    {
        self.domain
    }
}

// The elements of a slice of words are words.
fn words_are(words: &[u32])
    ensures { AreWords words.now }
{
    // A read, so that the proof has what the type says.
    let _count = words.len();
}

fn word_is(word: u32)
    ensures { word < 2 ^ 32 }
{
    // A read, so that the proof has what the type says.
    let _word = word;
}
