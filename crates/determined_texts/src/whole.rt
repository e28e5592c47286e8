// What an encoding of a whole blob is.

ghost use Rattle.std.specs.Prelude.{◌≡◌, ℕ, ◌-◌, ◌^◌, List, length};
ghost use Rattle.b3tree.specs.declared.mode.Mode.{Mode};
ghost use Rattle.b3tree.specs.Hashing.{hash};
ghost use Rattle.b3tree.specs.Valid.{AreBytes};
ghost use Rattle.bao_text.specs.Texts.{combined_text};
ghost use Rattle.bao_check.specs.Accepted.{IsAccepted, slice_nodes};
ghost use Rattle.bao_check.specs.Decoded.{decoded};

// An encoding that is accepted under a root as the slice of everything is the combined encoding of the bytes that it decodes to, and these have that root
// as their hash. No collision is excepted.
pub fn accepted_whole_has_the_hash()
    ensures { (mode : Mode) (root text : List ℕ) → AreBytes text → AreBytes root → length root ≡ 32 → IsAccepted mode root text (slice_nodes text 0 (2 ^ 64 - 1))
        → (text ≡ combined_text mode (decoded text 0 (2 ^ 64 - 1))) × (hash mode (decoded text 0 (2 ^ 64 - 1)) ≡ root) }
{}
