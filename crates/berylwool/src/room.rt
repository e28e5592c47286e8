ghost use Rattle.std.specs.Prelude.{◌≡◌, ◌≤◌, ◌↔◌, ◌++◌, IsTrue, drop, length};

// Copies an encoding to the front of a caller's buffer, if it fits.
pub(crate) fn put(text: &[u8], out: &mut [u8]) -> bool
    ensures fits { IsTrue result ↔ (length text.now ≤ length out.old) }
    ensures text { IsTrue result → out.new ≡ text.now ++ drop (length text.now) out.old }
    ensures same { (¬ IsTrue result) → out.new ≡ out.old }
{
    if text.len() > out.len() {
        return false;
    }
    out[..text.len()].copy_from_slice(text);
    true
}
