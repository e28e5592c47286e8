ghost use Rattle.std.specs.Prelude.{◌≡◌, ◌≢◌, ◌↔◌, ◌≤◌, IsTrue};
ghost use Rattle.std.specs.Str.{IsUtf8};
ghost use Rattle.b3tree.specs.Hashing.{context_key, derived};
ghost use Rattle.berylwool.specs.Modes.{IsKnown, mode_of};

use crate::status::NOT_UTF8;
use b3tree::Mode;
use std::str;

/// A mode as C has it: kind 0 is plain hashing, 1 keyed hashing under `key`, and 2 key derivation, where `key`
/// was made from a context.
#[repr(C)]
#[derive(Clone, Copy)]
pub struct BwMode {
    pub kind: u32,
    pub key: [u8; 32],
}

impl BwMode {
    // The mode that it stands for: plain hashing if its kind is unknown.
    pub(crate) fn get(&self) -> Mode
        ensures { result ≡ mode_of self.now }
    {
        if self.kind == 1 {
            Mode::keyed(self.key)
        } else if self.kind == 2 {
            Mode::from_context_key(self.key)
        } else {
            Mode::hash()
        }
    }

    // Whether its kind is one of the three.
    pub(crate) fn is_known(&self) -> bool
        ensures { IsTrue result ↔ IsKnown self.now }
    {
        self.kind <= 2
    }
}

/// Makes the mode that derives keys for the purpose that `context` names.
#[unsafe(no_mangle)]
pub extern "C" fn bw_mode_derive(context: &[u8], mode: &mut BwMode) -> u32
    ensures text { result ≡ 0 ↔ IsUtf8 context.now }
    ensures mode { result ≡ 0 → mode_of mode.new ≡ derived context.now }
    ensures fields { result ≡ 0 → mode.new ≡ record { kind = 2; key = context_key context.now } }
    ensures status { result ≢ 0 → result ≡ 1207 }
    ensures same { result ≢ 0 → mode.new ≡ mode.old }
{
    if str::from_utf8(context).is_err() {
        return NOT_UTF8;
    }
    *mode = BwMode {
        kind: 2,
        key: Mode::context_key(context),
    };
    0
}
