ghost use Rattle.std.specs.Prelude.{◌≡◌, ◌≢◌, ◌⊎◌, ℕ, ◌*◌, ◌/◌, ◌<◌, ◌≤◌, Bool, true, IfErr, IfOk, IfSome, Some, MatchResult, count_ones};
ghost use Rattle.holders.specs.declared.fixed.Fixed as fixed;
ghost use Rattle.store_core.specs.declared.history.Settling.TheVariants.{OtherRoot, TooLarge};
ghost use Rattle.gather.specs.Claims.{Among, AmongAnd, Without};
ghost use Rattle.bao_check.specs.Tail.{tail_piece};
ghost use Rattle.holders.specs.declared.piece.Piece.{Piece};
ghost use Rattle.gather.specs.Filled.{IsOfOtherLength, IsWanted, Keeps, KeepsBut, Lasts};
ghost use Rattle.store_core.specs.declared.fault.StoreFault.TheVariants.{Memory};
ghost use Rattle.store_core.specs.Masks.{in_mask};
ghost use Rattle.store_core.specs.Stores.{IsOf};
ghost use Rattle.holders.specs.Pieces.{holds_chunk, holds_parent, piece_of};
ghost use Rattle.gather.specs.Counts.{Goes, Still};
ghost use Rattle.holders.specs.Holders.{IsIt, IsNone};
ghost use Rattle.holders.specs.Blobs.{EndsTooFar};

use bao_check::{Checked, Tail};
use holders::Fixed;
use store_core::{Settling, StoreFault};

/// A store as one of its workers sees it: what [`work`](crate::work) requires. A worker's own part of the store
/// is its seat, and each call takes a seat of this store.
///
/// A group has 64 chunks; in a mask of a group's chunks, bit j stands for chunk 64 * group + j.
pub trait Shelf {
    /// One worker's part of the store.
    type Seat;

    // The seat is one of this store.
    ghost has: { Self → Self.Seat → Type 0 };

    // The root and the mode of the store's blob, how many chunks it has room for, and from which of the blob's on.
    ghost fixed_of: { Self.Seat → fixed.Fixed };

    // Which chunks the seat claims, by number.
    ghost claims: { Self.Seat → ℕ → Bool };

    // The seat's own calls, of such pieces alone, led from the one to the other, and stored so many chunks and so many
    // parents.
    ghost gained: { (Piece → Type 0) → Self.Seat → Self.Seat → ℕ → ℕ → Type 0 };

    // How such calls go on, one after another.
    ghost goes: { Goes fixed_of gained };

    // The length is known to be recorded.
    ghost records: { Self.Seat → ℕ → Type 0 };

    // A chunk is known to be held.
    ghost holds: { Self.Seat → ℕ → Type 0 };

    // A parent is known to be held, by the chunk that its right part begins with.
    ghost has_parent: { Self.Seat → ℕ → Type 0 };

    // Somebody claimed a chunk before the one, or between the two.
    ghost busy: { Self.Seat → Self.Seat → ℕ → Type 0 };

    // What is known lasts.
    ghost lasts: { Lasts gained claims records holds has_parent busy };

    /// Returns the root and the mode of the store's blob, the capacity in chunks, and the index in the blob of
    /// its first chunk.
    fn fixed(&self, seat: &Self::Seat) -> Fixed
        requires { has self.now seat.now }
        ensures { result ≡ fixed_of seat.now };

    /// Claims those wanted chunks of a group that may be granted, and returns their mask.
    ///
    /// Refuses with 701 if out of memory, and with 803 if there is no such group; nothing more is then claimed.
    fn take(&self, seat: &mut Self::Seat, group: u32, want: u64) -> Result<u64, StoreFault>
        requires { has self.now seat.old }
        ensures has { has self.now seat.new }
        ensures gained { gained IsNone seat.old seat.new 0 0 }
        ensures claims { MatchResult result (λ granted. AmongAnd (claims seat.old) group granted (claims seat.new)) (λ _. Among (claims seat.old) (claims seat.new)) }
        ensures granted { IfOk result (λ granted. (c : ℕ) → in_mask group granted c ≡ true → IsWanted group want c × (claims seat.new c ≡ true)) }
        ensures rest { IfOk result (λ granted. (c : ℕ) → IsWanted group want c → c < (fixed_of seat.old).capacity
            → (in_mask group granted c ≡ true) ⊎ holds seat.new c ⊎ busy seat.old seat.new c) }
        ensures refused { IfErr result (λ fault. (fault ≡ Memory) ⊎ ((fixed_of seat.old).capacity ≤ 64 * group)) };

    /// Ends the seat's claims to chunks of `mask`, and returns the mask of those that it had.
    fn give(&self, seat: &mut Self::Seat, group: u32, mask: u64) -> u64
        requires { has self.now seat.old }
        ensures has { has self.now seat.new }
        ensures gained { gained IsNone seat.old seat.new 0 0 }
        ensures claims { Without (claims seat.old) group mask (claims seat.new) };

    /// Stores those chunks of a group that the seat claims and the accepted slice has, ends these claims, and
    /// returns their mask.
    ///
    /// Refuses with 701 if out of memory, and with 804 if the slice has another root or mode; nothing is then
    /// stored.
    fn commit(
        &self,
        seat: &mut Self::Seat,
        group: u32,
        piece: &Checked<'_>,
    ) -> Result<u64, StoreFault>
        requires { has self.now seat.old }
        ensures has { has self.now seat.new }
        ensures gained { MatchResult result (λ committed. gained (IsIt (piece_of (fixed_of seat.old).base piece.now)) seat.old seat.new (count_ones committed) 0) (λ _. gained (IsIt (piece_of (fixed_of seat.old).base piece.now)) seat.old seat.new 0 0) }
        ensures claims { MatchResult result (λ committed. Without (claims seat.old) group committed (claims seat.new)) (λ _. Among (claims seat.old) (claims seat.new)) }
        ensures keeps { MatchResult result (λ committed. KeepsBut group committed (claims seat.old) (claims seat.new)) (λ _. Keeps (claims seat.old) (claims seat.new)) }
        ensures all { IfOk result (λ committed. (c : ℕ) → c / 64 ≡ group → claims seat.old c ≡ true → holds_chunk (piece_of (fixed_of seat.old).base piece.now) c ≡ true → in_mask group committed c ≡ true) }
        ensures held { IfOk result (λ committed. (c : ℕ) → in_mask group committed c ≡ true → holds seat.new c) }
        ensures refused { IfErr result (λ fault. (fault ≡ Memory) ⊎ (¬ IsOf (fixed_of seat.old) piece.now)) };

    /// Stores parents of the accepted slice at boundaries of a group, and returns their mask: bit j stands for
    /// the parent whose right child begins at chunk 64 * group + j. Afterwards all parents of the slice there
    /// are known to be held.
    ///
    /// Refuses with 701 if out of memory, with 804 if the slice has another root or mode, and with 807 if it
    /// claims another length than the recorded one, or none is recorded; nothing is then stored.
    fn commit_parents(
        &self,
        seat: &mut Self::Seat,
        group: u32,
        piece: &Checked<'_>,
    ) -> Result<u64, StoreFault>
        requires { has self.now seat.old }
        ensures has { has self.now seat.new }
        ensures gained { MatchResult result (λ stored. gained (IsIt (piece_of (fixed_of seat.old).base piece.now)) seat.old seat.new 0 (count_ones stored)) (λ _. gained (IsIt (piece_of (fixed_of seat.old).base piece.now)) seat.old seat.new 0 0) }
        ensures claims { Among (claims seat.old) (claims seat.new) }
        ensures keeps { Keeps (claims seat.old) (claims seat.new) }
        ensures parents { IfOk result (λ _. (m : ℕ) → m / 64 ≡ group → holds_parent (piece_of (fixed_of seat.old).base piece.now) m ≡ true → has_parent seat.new m) }
        ensures refused { IfErr result (λ fault. (fault ≡ Memory) ⊎ (¬ IsOf (fixed_of seat.old) piece.now) ⊎ IsOfOtherLength records seat.old (piece_of (fixed_of seat.old).base piece.now)) };

    /// Returns whether the parent whose right child begins with chunk `boundary` is held.
    fn has_parent(&self, seat: &mut Self::Seat, boundary: u32) -> bool
        requires has { has self.now seat.old }
        requires boundary { boundary < (fixed_of seat.old).capacity }
        ensures has { has self.now seat.new }
        ensures still { Still (gained IsNone) claims seat.old seat.new }
        ensures held { result ≡ true → has_parent seat.new boundary };

    /// Records the blob's length in bytes that the tail certifies, if none is recorded.
    fn settle(&self, seat: &mut Self::Seat, tail: &Tail<'_>) -> Settling
        requires { has self.now seat.old }
        ensures has { has self.now seat.new }
        ensures still { Still (gained (IsIt (piece_of (fixed_of seat.old).base (tail_piece tail.now)))) claims seat.old seat.new }
        ensures large { result ≡ TooLarge → EndsTooFar (fixed_of seat.old) (piece_of (fixed_of seat.old).base (tail_piece tail.now)) }
        ensures other { result ≡ OtherRoot → ¬ IsOf (fixed_of seat.old) (tail_piece tail.now) }
        ensures records { result ≢ TooLarge → result ≢ OtherRoot → (l : ℕ) × records seat.new l };

    /// Returns the recorded length in bytes, if there is one.
    fn length(&self, seat: &mut Self::Seat) -> Option<u64>
        requires { has self.now seat.old }
        ensures has { has self.now seat.new }
        ensures still { Still (gained IsNone) claims seat.old seat.new }
        ensures records { IfSome result (λ l. records seat.new l) }
        ensures known { (l : ℕ) → records seat.old l → result ≡ Some l };
}
