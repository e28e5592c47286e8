// Checks in pieces that check the same and have taken the same.

ghost use Rattle.std.specs.Prelude.{◌≡◌, ◌↔◌, ◌^◌, ◌<◌, ◌≤◌, ◌++◌, ℕ, List, IfOk, IfSome, Some, length, take};
ghost use Rattle.bao_check.specs.Checking.{HasDecodedAs, HasTakenAs, wanted};
ghost use Rattle.bao_check.specs.Waiting.{CheckTask};
ghost use Rattle.determined_texts.specs.Agreeing.{Agree, AgreeButFor};

use b3tree::{Hash, Mode};
use bao_check::{CheckFault, Checking, Decoded};

pub fn is_done_determined(a: &Checking, b: &Checking) -> (bool, bool)
    ensures { (task : CheckTask) (taken : List ℕ) → HasTakenAs a.now task taken → HasTakenAs b.now task taken → result.0 ≡ result.1 }
{
    (a.is_done(), b.is_done())
}

pub fn finish_determined(
    a: &Checking,
    b: &Checking,
    rest: &[u8],
) -> (Result<(), CheckFault>, Result<(), CheckFault>)
    requires first { IfSome (wanted a.now) (λ size. length rest.now < size) }
    requires second { IfSome (wanted b.now) (λ size. length rest.now < size) }
    ensures { (task : CheckTask) (taken : List ℕ) → HasTakenAs a.now task taken → HasTakenAs b.now task taken
        → Agree (λ _ _. Unit {0}) result.0 result.1 }
{
    (a.finish(rest), b.finish(rest))
}

pub fn take_determined(
    a: &mut Checking,
    b: &mut Checking,
    node: &[u8],
) -> (Result<(), CheckFault>, Result<(), CheckFault>)
    requires first { wanted a.old ≡ Some (length node.now) }
    requires second { wanted b.old ≡ Some (length node.now) }
    ensures answer { (task : CheckTask) (taken : List ℕ) → HasTakenAs a.old task taken → HasTakenAs b.old task taken
        → AgreeButFor CheckFault.Memory (λ _ _. Unit {0}) result.0 result.1 }
    ensures after { (task : CheckTask) (taken : List ℕ) → HasTakenAs a.old task taken → HasTakenAs b.old task taken
        → result.0 ≡ result.1 → (now : List ℕ) × HasTakenAs a.new task now × HasTakenAs b.new task now }
{
    let one = a.take(node);
    let other = b.take(node);
    a.wants();
    b.wants();
    (one, other)
}

// What waits in a check isn't determined before it has taken the length; what it has taken, and what it checks, is.
pub fn checking_of_slice_determined(
    mode: &Mode,
    root: &Hash,
    start: u64,
    len: u64,
) -> (Checking, Checking)
    ensures { (task : CheckTask) (taken : List ℕ) → HasTakenAs result.0 task taken ↔ HasTakenAs result.1 task taken }
{
    let one = Checking::of_slice(mode, root, start, len);
    let other = Checking::of_slice(mode, root, start, len);
    (one, other)
}

pub fn checking_of_combined_determined(mode: &Mode, root: &Hash) -> (Checking, Checking)
    ensures { (task : CheckTask) (taken : List ℕ) → HasTakenAs result.0 task taken ↔ HasTakenAs result.1 task taken }
{
    let one = Checking::of_combined(mode, root);
    let other = Checking::of_combined(mode, root);
    (one, other)
}

// What checks want that have taken the same: where the one wants so many bytes as `node` has, the other wants no more, if
// they can be counted. So, with the two exchanged, both want one number.
pub fn wants_of_taken_determined(a: &mut Checking, b: &Checking, node: &[u8]) -> Option<usize>
    requires { wanted a.old ≡ Some (length node.now) }
    ensures { (task : CheckTask) (taken : List ℕ) → HasTakenAs a.old task taken → HasTakenAs b.now task taken
        → length (taken ++ node.now) < 2 ^ 64 → (size : ℕ) × (result ≡ Some size) × (size ≤ length node.now) }
{
    a.wants();
    let _taken = a.take(node);
    a.wants();
    b.wants()
}

// What checks that have taken the same take of the same bytes, and the bytes of the blob among them.
pub fn decode_determined(
    a: &mut Checking,
    b: &mut Checking,
    bytes: &[u8],
    x: &mut [u8],
    y: &mut [u8],
) -> (Result<Decoded, CheckFault>, Result<Decoded, CheckFault>)
    requires first { length bytes.now ≤ length x.old }
    requires second { length bytes.now ≤ length y.old }
    ensures { (task : CheckTask) (taken blob : List ℕ) → HasDecodedAs a.old task taken blob → HasDecodedAs b.old task taken blob
        → length (taken ++ bytes.now) < 2 ^ 64 → (result.0 ≡ result.1) × IfOk result.0 (λ it. take it.filled x.new ≡ take it.filled y.new) }
{
    let one = a.decode(bytes, x);
    let other = b.decode(bytes, y);
    let _ours = a.wants();
    let _theirs = b.wants();
    (one, other)
}
