ghost use Rattle.std.specs.Prelude.{◌≡◌, IfErr, OnOk};
ghost use Rattle.std.specs.Io.KnownBytes.{Appends};
ghost use Rattle.b3tree.specs.Valid.{AreBytes};
ghost use Rattle.bao_windows.specs.declared.fault.WindowsFault.TheVariants as WindowsFault;
ghost use Rattle.bao_windows.specs.Windows.{AreValued, IsValued, window_bytes};
ghost use Rattle.bao_windows.specs.Written.{AreNext, IsPut, Took, WroteBeginning};

use crate::fault::WindowsFault;
use crate::window::Slot;
use b3tree::{Hasher, bytes_are};
use bao_check::GROUP_LEN;
use bao_text::write_text;
use std::io::Write;

// Takes a slot into the hash: by the value of its group, or, where the blob ends with it, by its bytes.
fn take_slot(slot: &Slot, hasher: &mut Hasher)
    requires { AreNext (IsValued slot.now) hasher.old }
    ensures { Took (IsValued slot.now) hasher.old hasher.new slot.now.bytes.items }
{
    match slot.value {
        Some(value) => hasher.update_subtree(GROUP_LEN as usize, value),
        None => match hasher.update(slot.bytes.as_slice()) {
            Ok(()) => {}
            Err(_) => unreachable!(),
        },
    }
}

// Takes a window into the hash.
fn take_in(window: &[Slot], hasher: &mut Hasher)
    requires { AreNext (AreValued window.now) hasher.old }
    ensures took { Took (AreValued window.now) hasher.old hasher.new (window_bytes window.now) }
    ensures are { AreBytes (window_bytes window.now) }
{
    for slot in window {
        // A law, so that the proof has what it says: nothing runs.
        bytes_are(slot.bytes.as_slice());
        take_slot(slot, hasher);
    }
}

// Writes the bytes of a window.
fn write_slots<W: Write>(window: &[Slot], out: &mut W) -> Result<(), WindowsFault>
    ensures text { OnOk result (Appends (W.contents out.old) (W.contents out.new) (window_bytes window.now)) }
    ensures begun { WroteBeginning (W.contents out.old) (W.contents out.new) (window_bytes window.now) }
    ensures fault { IfErr result (λ fault. fault ≡ WindowsFault.Write) }
{
    for slot in window {
        match write_text(slot.bytes.as_slice(), out) {
            Ok(()) => {}
            Err(_) => return Err(WindowsFault::Write),
        }
    }
    Ok(())
}

// Takes a window into the hash and writes its bytes.
pub(crate) fn put_window<W: Write>(
    window: &[Slot],
    hasher: &mut Hasher,
    out: &mut W,
) -> Result<(), WindowsFault>
    requires { AreNext (AreValued window.now) hasher.old }
    ensures { IsPut window.now (W.contents out.old) (W.contents out.new) hasher.old hasher.new result }
{
    take_in(window, hasher);
    write_slots(window, out)
}
