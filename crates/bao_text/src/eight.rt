ghost use Rattle.std.specs.Prelude.{◌≡◌, ◌+◌, ◌≤◌, ◌++◌, length, OnOk};
ghost use Rattle.bao_text.specs.EightText.{eight_text, four_text, pair_text, parts_text};

use crate::choice::Choice;
use crate::fault::Memory;
use crate::texts::{extend, parent_bytes};
use b3tree::{CHUNK_LEN, EightParents, FourParents, Parts};

// Bytes of two chunks, and of four.
const PAIR_LEN: usize = 2 * CHUNK_LEN;

const FOUR_LEN: usize = 4 * CHUNK_LEN;

// Appends a parent's bytes.
fn append_parent(parent: &Parts, text: &mut Vec<u8>) -> Result<(), Memory>
    ensures { OnOk result (text.new.items ≡ text.old.items ++ parts_text parent.now) }
{
    extend(text, &parent_bytes(&parent.left, &parent.right))
}

// Appends the encoding of two whole chunks, which are the bytes from place `at` on, with their parent.
fn append_pair(
    choice: &Choice,
    parent: &Parts,
    bytes: &[u8],
    at: usize,
    text: &mut Vec<u8>,
) -> Result<(), Memory>
    requires { at + 2048 ≤ length bytes.now }
    ensures { OnOk result (text.new.items ≡ text.old.items ++ pair_text choice.now parent.now bytes.now at) }
{
    append_parent(parent, text)?;
    if choice.chunks {
        extend(text, &bytes[at..at + PAIR_LEN])?;
    }
    Ok(())
}

// The same of four.
fn append_four(
    choice: &Choice,
    parents: &FourParents,
    bytes: &[u8],
    at: usize,
    text: &mut Vec<u8>,
) -> Result<(), Memory>
    requires { at + 4096 ≤ length bytes.now }
    ensures { OnOk result (text.new.items ≡ text.old.items ++ four_text choice.now parents.now bytes.now at) }
{
    append_parent(&parents.top, text)?;
    append_pair(choice, &parents.left, bytes, at, text)?;
    append_pair(choice, &parents.right, bytes, at + PAIR_LEN, text)
}

// The same of eight, which are all of the bytes.
pub(crate) fn append_eight(
    choice: &Choice,
    parents: &EightParents,
    bytes: &[u8],
    text: &mut Vec<u8>,
) -> Result<(), Memory>
    requires { length bytes.now ≡ 8192 }
    ensures { OnOk result (text.new.items ≡ text.old.items ++ eight_text choice.now parents.now bytes.now) }
{
    append_parent(&parents.top, text)?;
    append_four(choice, &parents.left, bytes, 0, text)?;
    append_four(choice, &parents.right, bytes, FOUR_LEN, text)
}
