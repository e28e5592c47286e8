ghost use Rattle.std.specs.Prelude.{◌≡◌, ◌≢◌, ◌↔◌, ◌^◌, ◌<◌, ◌≤◌, ◌*◌, IfErr, IfOk, IfSome, IsOk, IsErrOf, OnErr, false, is_some, length, true};

use crate::committing::commit;
use crate::fault::{NoGroup, OtherRoot, ParentsFault, SplitFault};
use crate::masks::put_masks;
use crate::parents::commit_parents;
use crate::reading::read;
use crate::seat::Seat;
use crate::serving::{has_parent, serve_slice};
use b3tree::{Hash, Mode};
use bao_check::{Checked, Tail};
use std::alloc::Global;
use store_core::{GROUP_LEN, MAX_BASE, MAX_CAPACITY, Missing, ServeFault, Settling, Storing};
use store_steps::{NewFault, Words};

/// A store of one blob's chunks that threads share by reference: which chunks are held, which seat claims
/// which, and the blob's length once it is recorded. All of it comes from encodings accepted under the store's
/// root.
///
/// Chunk c of the store is chunk base + c of the blob, and offset q of the store is byte 1,024 * base + q of
/// the blob. The base is 0 for [`new`](Assembly::new), and an argument of [`from_chunk`](Assembly::from_chunk).
/// In a mask of a group's chunks, bit j stands for chunk 64 * group + j.
///
/// Each call takes a seat of this store. Each call that isn't refused linearizes: it is an event of one legal
/// history of the store. The history that a seat has seen only grows, and has each of the seat's own calls
/// once.
#[derive(Drop)]
pub struct Assembly {
    words: Words,
    alloc: Global,
}

impl Assembly {
    ghost use Rattle.bao_check.specs.Tail.{tail_piece};
    ghost use Rattle.store_core.specs.declared.history.Call.TheVariants.{Commit, Give, Length, Parents, Serve, Take};
    ghost use Rattle.store_core.specs.declared.history.Serving.{Serving};
    ghost use Rattle.store_core.specs.declared.history.Serving.TheVariants.{Text};
    ghost use Rattle.store_core.specs.Histories.{state_after};
    ghost use Rattle.store_core.specs.declared.history.Storing.TheVariants.{Stored};
    ghost use Rattle.store_shared.specs.Parents.{AreAllParents, SeatParentsBind};
    ghost use Rattle.store_shared.specs.Serving.{SeatIsRefused, SeatSliceBinds, SeatSliceIsAccepted};
    ghost use Rattle.holders.specs.Room.{groups};
    ghost use Rattle.holders.specs.Pieces.{piece_of};
    ghost use Rattle.store_core.specs.declared.history.Settling.TheVariants.{OtherRoot as RootIsOther};
    ghost use Rattle.store_core.specs.Stores.{ChunksBind, ClaimBinds, IsOf, filled_count, missing_in};
    ghost use Rattle.store_shared.specs.Reading.{SeatDidRead, SeatReadBinds};
    ghost use Rattle.store_shared.specs.Calls.{AreParentsHeld, HasSliceHeld, SeatIsUnstored, SeatLengthBinds, SeatSettles};
    ghost use Rattle.store_shared.specs.OneLine.{AreInOneLine};
    ghost use Rattle.store_shared.specs.Seats.{IsGroupOf, IsSeatOf, fixed_of};
    ghost use Rattle.store_core.specs.Knowledge.{AreAllNames, AreMet, ArePartsOf, Called, IsMerged, KeepsClaims, LooksRound, NoneIsClaimedByBoth, Sees, opening_view};

    /// Returns an empty store of a whole blob, and its first seat, which has seen nothing.
    ///
    /// Refuses with 802 `Capacity`, tested first, unless `capacity`, in chunks, is 1 to 65,536, and with 801
    /// `Memory`. It keeps no memory then.
    pub fn new(
        alloc: Global,
        root: Hash,
        mode: Mode,
        capacity: u32,
    ) -> Result<(Assembly, Seat), NewFault>
        ensures capacity { IsErrOf result NewFault.Capacity ↔ (¬ ((0 < capacity) × (capacity ≤ 65536))) }
        ensures fixed { IfOk result (λ made. fixed_of made.0 ≡ record { root = root; mode = mode; capacity = capacity; base = 0 }) }
        ensures of { IfOk result (λ made. IsSeatOf made.0 made.1) }
        ensures view { IfOk result (λ made. made.1.view ≡ opening_view (fixed_of made.0)) }
    {
        Assembly::from_chunk(alloc, root, mode, 0, capacity)
    }

    /// Returns an empty store of the `capacity` chunks of a blob from chunk `base` on, and its first seat.
    ///
    /// Chunks, groups and offsets are counted from `base`. Only a store with the base 0 records a length, so no
    /// other stores parents or serves slices. Refuses with 802 `Capacity`, tested first, unless `capacity` is 1
    /// to 65,536 and `base` at most 2^54, and with 801 `Memory`. It keeps no memory then.
    pub fn from_chunk(
        alloc: Global,
        root: Hash,
        mode: Mode,
        base: u64,
        capacity: u32,
    ) -> Result<(Assembly, Seat), NewFault>
        ensures capacity { IsErrOf result NewFault.Capacity ↔ (¬ ((0 < capacity) × (capacity ≤ 65536) × (base ≤ 2 ^ 54))) }
        ensures fixed { IfOk result (λ made. fixed_of made.0 ≡ record { root = root; mode = mode; capacity = capacity; base = base }) }
        ensures of { IfOk result (λ made. IsSeatOf made.0 made.1) }
        ensures view { IfOk result (λ made. made.1.view ≡ opening_view (fixed_of made.0)) }
    {
        if capacity == 0 || capacity > MAX_CAPACITY || base > MAX_BASE {
            return Err(NewFault::Capacity);
        }
        let (words, grip) = Words::new(alloc, root, mode, base, capacity)?;
        let claims = vec![in alloc; 0u64; capacity.div_ceil(GROUP_LEN) as usize]?;
        Ok((Assembly { words, alloc }, Seat { grip, claims }))
    }

    /// Returns the root of the blob.
    pub fn root(&self) -> Hash
        ensures { result ≡ (fixed_of self.now).root }
    {
        self.words.fixed().root
    }

    /// Returns the mode of the blob.
    pub fn mode(&self) -> Mode
        ensures { result ≡ (fixed_of self.now).mode }
    {
        self.words.fixed().mode
    }

    /// Returns the capacity in chunks.
    pub fn capacity(&self) -> u32
        ensures { result ≡ (fixed_of self.now).capacity }
    {
        self.words.fixed().capacity
    }

    /// Returns the index in the blob of the store's chunk 0.
    pub fn base(&self) -> u64
        ensures { result ≡ (fixed_of self.now).base }
    {
        self.words.fixed().base
    }

    /// Returns how many groups of 64 chunks there are; the last may have fewer.
    pub fn groups(&self) -> u32
        ensures { result ≡ groups (fixed_of self.now) }
    {
        self.capacity().div_ceil(GROUP_LEN)
    }

    /// Splits a seat in two. The first keeps the claims and the calls. The second has seen the same history and
    /// has neither.
    ///
    /// Refuses with 806 if out of memory, and returns the seat unchanged.
    pub fn split(&self, seat: Seat) -> Result<(Seat, Seat), SplitFault>
        requires of { IsSeatOf self.now seat }
        ensures of { IfOk result (λ parts. IsSeatOf self.now parts.0 × IsSeatOf self.now parts.1) }
        ensures parts { IfOk result (λ parts. ArePartsOf seat.view parts.0.view parts.1.view) }
        ensures back { IfErr result (λ fault. fault.seat ≡ seat) }
    {
        let Ok(none) = vec![in self.alloc; 0u64; self.groups() as usize] else {
            return Err(SplitFault { seat });
        };
        let Seat { grip, claims } = seat;
        match self.words.part(grip) {
            Ok((first, second)) => Ok((
                Seat {
                    grip: first,
                    claims,
                },
                Seat {
                    grip: second,
                    claims: none,
                },
            )),
            Err(grip) => Err(SplitFault {
                seat: Seat { grip, claims },
            }),
        }
    }

    /// Joins two seats into one, with the claims and the calls of both. The history that it has seen begins
    /// with what each had seen. It doesn't allocate.
    pub fn join(&self, first: Seat, second: Seat) -> Seat
        requires first { IsSeatOf self.now first }
        requires second { IsSeatOf self.now second }
        ensures of { IsSeatOf self.now result }
        ensures merged { IsMerged first.view second.view result.view }
    {
        let Seat { grip, mut claims } = first;
        let Seat {
            grip: other,
            claims: others,
        } = second;
        put_masks(claims.as_mut_slice(), others.as_slice());
        let grip = self.words.merge(grip, other);
        Seat { grip, claims }
    }

    /// Sees all calls made so far, and makes none. For a seat with all existing names, as one that all others
    /// were joined with, these are its own. It doesn't allocate.
    pub fn look_round(&self, seat: &mut Seat)
        requires of { IsSeatOf self.now seat.old }
        ensures of { IsSeatOf self.now seat.new }
        ensures looked { LooksRound seat.old.view seat.new.view }
    {
        self.words.look_round(&mut seat.grip);
    }

    /// Lets two seats meet: afterwards both have seen one history, which begins with what each had seen. Their
    /// calls and claims are unchanged, and no chunk is claimed by both. It doesn't allocate.
    ///
    /// Any two seats can meet at any moment. So of any two, also of such as never meet, what one has seen begins
    /// what the other has seen at each moment, and a call that is made after another has ended comes after it in
    /// the history (`calls_in_real_time`).
    pub fn meet(&self, first: &mut Seat, second: &mut Seat)
        requires first { IsSeatOf self.now first.old }
        requires second { IsSeatOf self.now second.old }
        ensures first { IsSeatOf self.now first.new }
        ensures second { IsSeatOf self.now second.new }
        ensures met { AreMet first.old.view second.old.view first.new.view second.new.view }
        ensures claims { KeepsClaims first.old.view first.new.view × KeepsClaims second.old.view second.new.view }
        ensures apart { NoneIsClaimedByBoth first.new.view second.new.view }
        ensures were_apart { NoneIsClaimedByBoth first.old.view second.old.view }
        ensures one_line { AreInOneLine first.old.view second.old.view }
    {
        self.words.meet(&mut first.grip, &mut second.grip);
    }

    /// Claims those wanted chunks of a group that are below the capacity and neither held nor claimed, and
    /// returns their mask. A chunk that the seat already claims isn't granted again. It doesn't allocate.
    ///
    /// Refuses with 803 `NoGroup` if there is no such group; there is then no event.
    pub fn take(&self, seat: &mut Seat, group: u32, want: u64) -> Result<u64, NoGroup>
        requires of { IsSeatOf self.now seat.old }
        ensures of { IsSeatOf self.now seat.new }
        ensures group { IsOk result ↔ IsGroupOf self.now group }
        ensures called { IfOk result (λ granted. Called (Take group want granted) seat.old.view seat.new.view) }
        ensures same { OnErr result (seat.new ≡ seat.old) }
    {
        if group >= self.groups() {
            return Err(NoGroup);
        }
        let granted = self.words.take(&mut seat.grip, group, want);
        seat.claims[group as usize] |= granted;
        Ok(granted)
    }

    /// Ends the seat's claims to chunks of `mask`, and returns the mask of those that it had: 0 if there is no
    /// such group. It doesn't allocate.
    pub fn give(&self, seat: &mut Seat, group: u32, mask: u64) -> u64
        requires of { IsSeatOf self.now seat.old }
        ensures of { IsSeatOf self.now seat.new }
        ensures called { Called (Give group mask result) seat.old.view seat.new.view }
    {
        if group >= self.groups() {
            self.words.give_none(&mut seat.grip, group, mask);
            return 0;
        }
        let given = seat.claims[group as usize] & mask;
        self.words.give(&mut seat.grip, group, mask, given);
        seat.claims[group as usize] &= !given;
        given
    }

    /// Stores exactly those chunks of a group that the seat claims and the accepted slice has, ends these
    /// claims, and returns their mask: 0 if there is no such group. It doesn't allocate.
    ///
    /// Refuses with 804 `OtherRoot` if the slice has another root or mode, tested first; there is then no
    /// event.
    ///
    /// For every blob with the store's root, each chunk stored is the blob's chunk of that index, counted from
    /// the base; or the contract exhibits a collision, one input from the blob and one from the slice.
    pub fn commit(&self, seat: &mut Seat, group: u32, piece: &Checked<'_>) -> Result<u64, OtherRoot>
        requires of { IsSeatOf self.now seat.old }
        ensures of { IsSeatOf self.now seat.new }
        ensures root { IsOk result ↔ IsOf (fixed_of self.now) piece.now }
        ensures called { IfOk result (λ committed. Called (Commit group (piece_of (fixed_of self.now).base piece.now) committed) seat.old.view seat.new.view) }
        ensures same { OnErr result (seat.new ≡ seat.old) }
        ensures binds { IfOk result (λ committed. ChunksBind (fixed_of self.now) (piece_of (fixed_of self.now).base piece.now) group committed) }
    {
        if !self.words.fixed().is_of(&piece.root(), &piece.mode()) {
            return Err(OtherRoot);
        }
        if group >= self.groups() {
            self.words.publish_none(&mut seat.grip, group, piece);
            return Ok(0);
        }
        let claimed = seat.claims[group as usize];
        let committed = commit(&self.words, &mut seat.grip, group, piece, claimed);
        seat.claims[group as usize] &= !committed;
        Ok(committed)
    }

    /// Records the blob's length in bytes that the tail certifies. It doesn't allocate.
    ///
    /// Returns `Settled` if none was recorded, `Known` if the same was, and `Differs` if another was, which
    /// stays. Returns `OtherRoot` (804), tested first, if the tail has another root or mode, and `TooLarge`
    /// (805) if the length is above 1,024 times the capacity, or if the base isn't 0; there is then no event.
    ///
    /// For every blob with the store's root, the length of a tail that isn't `OtherRoot` is the blob's; or the
    /// contract exhibits a collision, one input from the blob and one from the tail.
    pub fn settle(&self, seat: &mut Seat, tail: &Tail<'_>) -> Settling
        requires of { IsSeatOf self.now seat.old }
        ensures of { IsSeatOf self.now seat.new }
        ensures settles { SeatSettles (fixed_of self.now) seat.old seat.new (tail_piece tail.now) result }
        ensures binds { result ≢ RootIsOther → ClaimBinds (fixed_of self.now) (piece_of (fixed_of self.now).base (tail_piece tail.now)) }
    {
        let fixed = self.words.fixed();
        // Laws, so that the proof has what they say: nothing runs.
        fixed.mode.is_keyed();
        tail.is_last();
        if !fixed.is_of(&tail.root(), &tail.mode()) {
            return Settling::OtherRoot;
        }
        if !fixed.has_room(tail.length()) {
            return Settling::TooLarge;
        }
        self.words.settle(&mut seat.grip, tail)
    }

    /// Stores parents of the accepted slice at boundaries of a group, and returns their mask: bit j stands for
    /// the parent whose right child begins at chunk 64 * group + j. It doesn't allocate.
    ///
    /// Parents that are held, or that another seat is storing at that moment, are left out. A seat with all
    /// existing names stores all that it hasn't seen held, so that afterwards all the slice's parents at the
    /// group's boundaries are held. The mask is 0 if there is no such group.
    ///
    /// Refuses with 804 `OtherRoot`, tested first, if the slice has another root or mode; there is then no
    /// event. Refuses with 807 `OtherLength` if the slice claims another length than the recorded one, or none
    /// is recorded.
    ///
    /// For every blob with the store's root, each parent that is then seen held is the blob's parent there; or
    /// the contract exhibits a collision, one input from the blob and one from the slice that the parent or the
    /// recorded length came from.
    pub fn commit_parents(
        &self,
        seat: &mut Seat,
        group: u32,
        piece: &Checked<'_>,
    ) -> Result<u64, ParentsFault>
        requires of { IsSeatOf self.now seat.old }
        ensures of { IsSeatOf self.now seat.new }
        ensures root { IsErrOf result ParentsFault.OtherRoot ↔ (¬ IsOf (fixed_of self.now) piece.now) }
        ensures called { IfOk result (λ stored. Called (Parents group (piece_of (fixed_of self.now).base piece.now) (Stored stored)) seat.old.view seat.new.view) }
        ensures refused { IfErr result (λ fault. SeatIsUnstored (fixed_of self.now) group piece.now fault seat.old seat.new) }
        ensures alone { AreAllNames seat.old.view.names → IfOk result (λ stored. AreAllParents seat.old.view group (piece_of (fixed_of self.now).base piece.now) (Stored stored)) }
        ensures held { AreAllNames seat.old.view.names → IfOk result (λ _. AreParentsHeld seat.new.view group (piece_of (fixed_of self.now).base piece.now)) }
        ensures absent { (¬ IsGroupOf self.now group) → IfOk result (λ stored. stored ≡ 0) }
        ensures binds { IfOk result (λ _. SeatParentsBind seat.new.view) }
    {
        let fixed = self.words.fixed();
        if !fixed.is_of(&piece.root(), &piece.mode()) {
            return Err(ParentsFault::OtherRoot);
        }
        match commit_parents(&self.words, &mut seat.grip, group, piece) {
            Storing::Stored(mask) => Ok(mask),
            Storing::OtherLength => Err(ParentsFault::OtherLength),
        }
    }

    /// Returns the encoding of the slice (`start`, `len`) of the blob: the recorded length, and the bytes of
    /// the slice's nodes.
    ///
    /// Refuses with 808 `NoLength` if no length is recorded, with 809 `Lacking` and the first node, in the
    /// order of the encoding, that isn't held, and with 810 `Memory`, which is no event: the seat has only seen
    /// more. If the seat has seen a length recorded and all nodes of the slice held, it can only be refused for
    /// memory.
    ///
    /// For every blob with the store's root it is the blob's slice; or the contract exhibits a collision, one
    /// input from the blob and one from the slice that a node or the recorded length came from. Under any root,
    /// a blob's hash or not, it is accepted as this slice; or one of its chunks was committed from a slice that
    /// claims another length than the one that settled the length; or at one of its parents a collision is
    /// exhibited, one input from the slice that the parent came from and one from another that a node or the
    /// length came from.
    pub fn serve_slice(&self, seat: &mut Seat, start: u64, len: u64) -> Result<Vec<u8>, ServeFault>
        requires of { IsSeatOf self.now seat.old }
        ensures of { IsSeatOf self.now seat.new }
        ensures served { IfOk result (λ text. Called (Serve start len (Text text.items)) seat.old.view seat.new.view) }
        ensures refused { IfErr result (λ fault. SeatIsRefused start len fault seat.old.view seat.new.view) }
        ensures held { HasSliceHeld seat.old.view start len → IfErr result (λ fault. fault ≡ ServeFault.Memory) }
        ensures binds { IfOk result (λ text. SeatSliceBinds seat.new.view start len text.items) }
        ensures accepted { IfOk result (λ text. SeatSliceIsAccepted seat.new.view start len text.items) }
    {
        serve_slice(self.alloc, &self.words, &mut seat.grip, start, len)
    }

    /// Returns whether the parent whose right child begins with chunk `boundary` is held. It doesn't allocate.
    ///
    /// If it is held, the seat has seen it. If not, the call linearizes as a Serve of the slice of that chunk's
    /// first byte, which lacks it.
    pub fn has_parent(&self, seat: &mut Seat, boundary: u32) -> bool
        requires of { IsSeatOf self.now seat.old }
        requires boundary { boundary < (fixed_of self.now).capacity }
        ensures of { IsSeatOf self.now seat.new }
        ensures held { result ≡ is_some ((state_after seat.new.view.seen).parents boundary) }
        ensures seen { result ≡ true → Sees seat.old.view seat.new.view }
        ensures lacked { result ≡ false → (answer : Serving) × Called (Serve (1024 * boundary) 1 answer) seat.old.view seat.new.view }
    {
        has_parent(&self.words, &mut seat.grip, boundary)
    }

    /// Returns the recorded length in bytes, if there is one; there is none if the base isn't 0. It doesn't
    /// allocate.
    ///
    /// For every blob with the store's root it is the blob's length; or the contract exhibits a collision, one
    /// input from the blob and one from the slice by which it was settled.
    pub fn length(&self, seat: &mut Seat) -> Option<u64>
        requires of { IsSeatOf self.now seat.old }
        ensures of { IsSeatOf self.now seat.new }
        ensures called { Called (Length result) seat.old.view seat.new.view }
        ensures binds { IfSome result (λ l. SeatLengthBinds seat.new.view l) }
        ensures fits { IfSome result (λ l. l ≤ 1024 * (fixed_of self.now).capacity) }
        ensures whole { IfSome result (λ l. (fixed_of self.now).base ≡ 0) }
    {
        // A law, so that the proof has what it says: nothing runs.
        self.words.fixed().mode.is_keyed();
        self.words.length(&mut seat.grip)
    }

    /// Fills `out` with the bytes from offset `at` on. It doesn't allocate.
    ///
    /// Refuses with `Missing(p)` if the range isn't all held, where p is the least offset that isn't: the bytes
    /// before p are filled in, and the rest of `out` is unchanged. An offset is held if its chunk is held and
    /// long enough; none from 1,024 times the capacity on is. An empty `out` is never refused.
    ///
    /// For every blob with the store's root, each byte filled in is the blob's byte at that offset, counted
    /// from the base; or the contract exhibits a collision, one input from the blob and one from a slice that
    /// was committed.
    pub fn read(&self, seat: &mut Seat, at: u64, out: &mut [u8]) -> Result<(), Missing>
        requires of { IsSeatOf self.now seat.old }
        ensures of { IsSeatOf self.now seat.new }
        ensures event { SeatDidRead seat.old.view seat.new.view at out.old out.new (missing_in result) }
        ensures binds { SeatReadBinds seat.new.view at out.new (filled_count at (length out.old) (missing_in result)) }
    {
        read(&self.words, &mut seat.grip, at, out)
    }
}
