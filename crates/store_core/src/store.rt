ghost use Rattle.std.specs.Prelude.{◌≡◌, ◌≢◌, ◌↔◌, ◌*◌, ◌^◌, ℕ, ◌<◌, ◌≤◌, IfErr, IfOk, IfSome, IsOk, IsErrOf, IsTrue, MatchResult, None, OnErr, List, is_some, length, not, ◌&&◌};
ghost use Rattle.store_core.specs.Slots.{caller, state_in, with_parents};
ghost use Rattle.store_core.specs.Reached.{IsReached};

use crate::bytes::{bytes_from, put_bytes};
use crate::fault::{BadCapacity, Missing, ServeFault, StoreFault};
use crate::history::Settling;
use crate::masks::GROUP_LEN;
use crate::parents::{held_parent, make_room, put_parents, wanted};
use crate::slot::{
    Pick, Slot, chosen, copies, grow, held_chunk, is_held, is_picked, put_claims, put_ready,
};
use b3tree::{CHUNK_LEN, Hash, Mode};
use bao_check::{Checked, Tail};
use bao_text::{Node, nodes};
use holders::Fixed;
use std::alloc::{AllocError, Global};

/// The greatest capacity of a store, in chunks.
pub const MAX_CAPACITY: u32 = 65_536;

/// The greatest base of a store. A tree has at most 2^54 chunks, so a store with this base stays empty.
pub const MAX_BASE: u64 = 1 << 54;

/// A store of one blob's chunks for one thread: which chunks are held, which seat claims which, and the blob's
/// length once it is recorded. All of it comes from encodings accepted under the store's root.
///
/// Chunk c of the store is chunk base + c of the blob, and offset q of the store is byte 1,024 * base + q of
/// the blob. The base is 0 for [`new`](Store::new), and an argument of [`from_chunk`](Store::from_chunk).
#[derive(Drop)]
pub struct Store {
    fixed: Fixed,
    alloc: Global,
    slots: Vec<Slot>,
    recorded: Option<u64>,
    // The parents by boundary, as far as any was stored.
    parents: Vec<Option<[u8; 64]>>,
    ghost limit: { fixed.capacity ≤ 65536 },
    ghost low: { fixed.base ≤ 2 ^ 54 },
    ghost within: { length slots.items ≤ fixed.capacity },
    // Some legal history leads to the state. Which one isn't kept, since a ghost field has one value at most: clauses speak of every one.
    ghost reached: { ∥ IsReached fixed (with_parents (state_in slots.items recorded) parents.items) ∥₁ },
}

impl Store {
    ghost use Rattle.store_core.specs.declared.history.Call.TheVariants.{Commit, Give, Length, Take};
    ghost use Rattle.store_core.specs.declared.fault.StoreFault.TheVariants.{Memory, NoGroup, OtherLength, OtherRoot};
    ghost use Rattle.store_core.specs.declared.fault.ServeFault.TheVariants.{NoLength};
    ghost use Rattle.store_core.specs.declared.history.Settling.TheVariants.{OtherRoot as RootIsOther};
    ghost use Rattle.store_core.specs.declared.history.Storing.TheVariants.{Stored};
    ghost use Rattle.holders.specs.Room.{groups};
    ghost use Rattle.store_core.specs.Masks.{IsMaskOf};
    ghost use Rattle.bao_check.specs.Tail.{tail_piece};
    ghost use Rattle.store_core.specs.Names.{Name};
    ghost use Rattle.holders.specs.Pieces.{holds_parent, length_of, piece_of};
    ghost use Rattle.store_core.specs.declared.history.Serving.TheVariants.{Text};
    ghost use Rattle.store_core.specs.Serves.{node_held};
    ghost use Rattle.store_core.specs.States.{claims, empty, held_count};
    ghost use Rattle.store_core.specs.Stores.{ChunksBind, ClaimBinds, DidRead, DidServe, DidStore, GainsNode, IsEvent, IsNew, IsOf, IsSame, IsUnserved, IsUnstored, LengthBinds, ParentsBind, ReadBinds, Settles, SliceBinds, SliceIsAccepted, StoresParent, filled_count, fixed_of, missing_in, state_of};

    /// Returns an empty store of a whole blob. It doesn't allocate.
    ///
    /// Refuses with 802 unless `capacity`, in chunks, is 1 to 65,536.
    pub fn new(alloc: Global, root: Hash, mode: Mode, capacity: u32) -> Result<Store, BadCapacity>
        ensures fits { IsOk result ↔ ((0 < capacity) × (capacity ≤ 65536)) }
        ensures made { IfOk result (λ store. IsNew store (record { root = root; mode = mode; capacity = capacity; base = 0 })) }
    {
        Store::from_chunk(alloc, root, mode, 0, capacity)
    }

    /// Returns an empty store of the `capacity` chunks of a blob from chunk `base` on. It doesn't allocate.
    ///
    /// Chunks, groups and offsets are counted from `base`. Only a store with the base 0 records a length, so no
    /// other stores parents or serves slices. Refuses with 802 unless `capacity` is 1 to 65,536 and `base` at
    /// most 2^54, which no chunk's index reaches.
    pub fn from_chunk(
        alloc: Global,
        root: Hash,
        mode: Mode,
        base: u64,
        capacity: u32,
    ) -> Result<Store, BadCapacity>
        ensures fits { IsOk result ↔ ((0 < capacity) × (capacity ≤ 65536) × (base ≤ 2 ^ 54)) }
        ensures made { IfOk result (λ store. IsNew store (record { root = root; mode = mode; capacity = capacity; base = base })) }
    {
        if capacity == 0 || capacity > MAX_CAPACITY || base > MAX_BASE {
            return Err(BadCapacity);
        }
        Ok(Store {
            fixed: Fixed {
                root,
                mode,
                capacity,
                base,
            },
            alloc,
            slots: Vec::new(alloc),
            recorded: None,
            parents: Vec::new(alloc),
        })
    }

    /// Returns the root, the mode, the capacity in chunks and the base, which never change.
    pub fn fixed(&self) -> Fixed
        ensures { result ≡ fixed_of self.now }
    {
        let Store { fixed, .. } = self;
        *fixed
    }

    // How many groups there are.
    pub(crate) fn groups(&self) -> u32
        ensures { result ≡ groups (fixed_of self.now) }
    {
        self.fixed.groups()
    }

    // How many bytes it has room for.
    pub(crate) fn byte_capacity(&self) -> u64
        ensures { result ≡ 1024 * (fixed_of self.now).capacity }
    {
        CHUNK_LEN as u64 * u64::from(self.fixed.capacity)
    }

    // Whether the piece is of the store's root and mode.
    pub(crate) fn is_of(&self, piece: &Checked<'_>) -> bool
        ensures { IsTrue result ↔ IsOf (fixed_of self.now) piece.now }
    {
        self.fixed.is_of(&piece.root(), &piece.mode())
    }

    // Whether the seat claims the chunk.
    pub(crate) fn has_claim(&self, seat: u32, chunk: u32) -> bool
        ensures { result ≡ claims (caller seat) (state_of self.now) chunk }
    {
        is_picked(self.slots.as_slice(), chunk as usize, &Pick::Claimed(seat))
    }

    /// Claims for the seat those wanted chunks of a group that are below the capacity and neither held nor
    /// claimed, and returns their mask: bit j stands for chunk 64 * group + j. A chunk that the seat already
    /// claims isn't granted again.
    ///
    /// Refuses with 803 `NoGroup` if there is no such group, and with 701 `Memory`. The store's state is then
    /// unchanged.
    pub fn take(&mut self, seat: u32, group: u32, want: u64) -> Result<u64, StoreFault>
        ensures ok { IfOk result (λ granted. IsEvent self.old self.new (caller seat) (Take group want granted)) }
        ensures err { OnErr result (IsSame self.old self.new) }
        ensures no_group { IsErrOf result NoGroup ↔ (groups (fixed_of self.old) ≤ group) }
        ensures never { result ≢ Err OtherRoot }
        ensures never_length { result ≢ Err OtherLength }
    {
        if group >= self.groups() {
            return Err(StoreFault::NoGroup);
        }
        let end = (GROUP_LEN as usize * (group as usize + 1)).min(self.fixed.capacity as usize);
        grow(&mut self.slots, end)?;
        let granted = chosen(self.slots.as_slice(), group, want, &Pick::Free);
        put_claims(self.slots.as_mut_slice(), group, granted, Some(seat));
        Ok(granted)
    }

    /// Ends the seat's claims to chunks of `mask`, and returns the mask of those that it had: 0 if there is no
    /// such group. It doesn't allocate.
    pub fn give(&mut self, seat: u32, group: u32, mask: u64) -> u64
        ensures { IsEvent self.old self.new (caller seat) (Give group mask result) }
    {
        if group >= self.groups() {
            return 0;
        }
        let given = chosen(self.slots.as_slice(), group, mask, &Pick::Claimed(seat));
        put_claims(self.slots.as_mut_slice(), group, given, None);
        given
    }

    /// Records the blob's length in bytes that the tail certifies. It doesn't allocate.
    ///
    /// Returns `Settled` if none was recorded, `Known` if the same was, and `Differs` if another was, which
    /// stays. Returns `OtherRoot` (804), tested first, if the tail has another root or mode, and `TooLarge`
    /// (805) if the length is above 1,024 times the capacity, or if the base isn't 0. The store is then
    /// unchanged.
    ///
    /// For every blob with the store's root, the length of a tail that isn't `OtherRoot` is the blob's; or the
    /// contract exhibits a collision, one input from the blob and one from the tail.
    pub fn settle(&mut self, tail: &Tail<'_>) -> Settling
        ensures event { Settles self.old self.new (tail_piece tail.now) result }
        ensures other_root { (result ≡ RootIsOther) ↔ (¬ IsOf (fixed_of self.old) (tail_piece tail.now)) }
        ensures binds { result ≢ RootIsOther → ClaimBinds (fixed_of self.old) (piece_of (fixed_of self.old).base (tail_piece tail.now)) }
    {
        // Laws, so that the proof has what they say: nothing runs.
        self.fixed.mode.is_keyed();
        tail.is_last();
        if !self.fixed.is_of(&tail.root(), &tail.mode()) {
            return Settling::OtherRoot;
        }
        let length = tail.length();
        if !self.fixed.has_room(length) {
            return Settling::TooLarge;
        }
        match self.recorded {
            None => {
                self.recorded = Some(length);
                Settling::Settled
            }
            Some(known) => {
                if known == length {
                    Settling::Known
                } else {
                    Settling::Differs
                }
            }
        }
    }

    /// Returns the recorded length in bytes, if there is one; there is none if the base isn't 0. It doesn't
    /// allocate.
    ///
    /// For every blob with the store's root it is the blob's length; or, whatever legal history led to the
    /// store, the contract exhibits a collision, one input from the blob and one from the slice by which that
    /// history settled it.
    pub fn length(&self) -> Option<u64>
        ensures event { (who : List Name) → IsEvent self.now self.now who (Length result) }
        ensures binds { IfSome result (λ l. LengthBinds self.now l) }
        ensures fits { IfSome result (λ l. l ≤ 1024 * (fixed_of self.now).capacity) }
        ensures whole { IfSome result (λ l. (fixed_of self.now).base ≡ 0) }
    {
        // A law, so that the proof has what it says: nothing runs.
        self.fixed.mode.is_keyed();
        self.recorded
    }

    /// Lemma: some legal history leads to the store. No effect at run time.
    pub fn is_reached(&self)
        ensures { ∥ IsReached (fixed_of self.now) (state_of self.now) ∥₁ }
    {}

    /// Returns how many chunks are held.
    pub fn held_count(&self) -> u64
        ensures { result ≡ held_count (state_of self.now) (fixed_of self.now).capacity }
    {
        let mut count = 0;
        for chunk in 0..self.fixed.capacity as usize {
            if is_held(self.slots.as_slice(), chunk) {
                count += 1;
            }
        }
        count
    }

    /// Stores exactly those chunks of a group that the seat claims and the accepted slice has, ends these
    /// claims, and returns their mask: 0 if there is no such group.
    ///
    /// Refuses with 804 `OtherRoot`, tested first, if the slice has another root or mode, and with 701
    /// `Memory`. The store is then unchanged.
    ///
    /// For every blob with the store's root, each chunk stored is the blob's chunk of that index, counted from
    /// the base; or the contract exhibits a collision, one input from the blob and one from the slice.
    pub fn commit(&mut self, seat: u32, group: u32, piece: &Checked<'_>) -> Result<u64, StoreFault>
        ensures ok { IfOk result (λ committed. IsEvent self.old self.new (caller seat) (Commit group (piece_of (fixed_of self.old).base piece.now) committed)) }
        ensures err { OnErr result (IsSame self.old self.new) }
        ensures other_root { IsErrOf result OtherRoot ↔ (¬ IsOf (fixed_of self.old) piece.now) }
        ensures absent { IsOf (fixed_of self.old) piece.now → groups (fixed_of self.old) ≤ group → result ≡ Ok 0 }
        ensures never { result ≢ Err NoGroup }
        ensures never_length { result ≢ Err OtherLength }
        ensures binds { IfOk result (λ committed. ChunksBind (fixed_of self.old) (piece_of (fixed_of self.old).base piece.now) group committed) }
    {
        // Laws, so that the proof has what they say: nothing runs.
        self.fixed.mode.is_keyed();
        piece.is_accepted();
        if !self.fixed.is_of(&piece.root(), &piece.mode()) {
            return Err(StoreFault::OtherRoot);
        }
        if group >= self.groups() {
            return Ok(0);
        }
        let base = self.fixed.base;
        let pick = Pick::InPiece(seat, base, *piece);
        let committed = chosen(self.slots.as_slice(), group, u64::MAX, &pick);
        let mut ready = copies(self.alloc, piece, base, group, committed)?;
        put_ready(
            self.slots.as_mut_slice(),
            group,
            committed,
            ready.as_mut_slice(),
        );
        Ok(committed)
    }

    /// Fills `out` with the bytes from offset `at` on. It doesn't allocate.
    ///
    /// Refuses with `Missing(p)` if the range isn't all held, where p is the least offset that isn't: the bytes
    /// before p are filled in, and the rest of `out` is unchanged. An offset is held if its chunk is held and
    /// long enough; none from 1,024 times the capacity on is. An empty `out` is never refused.
    ///
    /// For every blob with the store's root, each byte filled in is the blob's byte at that offset, counted
    /// from the base; or, whatever legal history led to the store, the contract exhibits a collision, one input
    /// from the blob and one from the slice from which that history committed the byte's chunk.
    pub fn read(&self, at: u64, out: &mut [u8]) -> Result<(), Missing>
        ensures event { DidRead self.now at out.old out.new (missing_in result) }
        ensures binds { ReadBinds self.now at out.new (filled_count at (length out.old) (missing_in result)) }
    {
        // A law, so that the proof has what it says: nothing runs.
        self.fixed.mode.is_keyed();
        let mut done = 0;
        while done < out.len() {
            let position = at + done as u64;
            let held = bytes_from(self.slots.as_slice(), position);
            let count = held.len().min(out.len() - done);
            if count == 0 {
                return Err(Missing(position));
            }
            put_bytes(out, done, &held[..count]);
            done += count;
        }
        Ok(())
    }

    /// Stores the slice's parents at those boundaries of a group where none is held, and returns their mask:
    /// bit j stands for the parent whose right child begins at chunk 64 * group + j. The mask is 0 if there is
    /// no such group.
    ///
    /// Refuses with 804 `OtherRoot`, tested first, if the slice has another root or mode, with 807
    /// `OtherLength` if it claims another length than the recorded one, or none is recorded, and with 701
    /// `Memory` only if there is a parent to store. The store's state is then unchanged.
    ///
    /// For every blob with the store's root, each parent held afterwards is the blob's parent there; or,
    /// whatever legal history led to the store, the contract exhibits a collision, one input from the blob and
    /// one from the slice from which that history stored the parent, or by which it settled the length.
    pub fn commit_parents(&mut self, group: u32, piece: &Checked<'_>) -> Result<u64, StoreFault>
        ensures ok { IfOk result (λ mask. DidStore self.old self.new group piece.now (Stored mask)) }
        ensures all { IfOk result (λ mask. IsMaskOf group mask (λ m. holds_parent (piece_of (fixed_of self.old).base piece.now) m && not (is_some ((state_of self.old).parents m)))) }
        ensures other_root { IsErrOf result OtherRoot ↔ (¬ IsOf (fixed_of self.old) piece.now) }
        ensures other_length { IsErrOf result OtherLength ↔ (IsOf (fixed_of self.old) piece.now × ((state_of self.old).recorded ≢ Some (length_of (piece_of (fixed_of self.old).base piece.now)))) }
        ensures refused { IfErr result (λ fault. IsUnstored self.old self.new group piece.now fault) }
        ensures absent { IsOf (fixed_of self.old) piece.now → (state_of self.old).recorded ≡ Some (length_of (piece_of (fixed_of self.old).base piece.now)) → groups (fixed_of self.old) ≤ group → result ≡ Ok 0 }
        ensures memory { IsErrOf result Memory → StoresParent self.old group piece.now }
        ensures never { result ≢ Err NoGroup }
        ensures binds { IfOk result (λ _. ParentsBind self.new) }
    {
        // Laws, so that the proof has what they say: nothing runs.
        self.fixed.mode.is_keyed();
        piece.is_accepted();
        if !self.is_of(piece) {
            return Err(StoreFault::OtherRoot);
        }
        if self.recorded != Some(piece.claimed()) {
            return Err(StoreFault::OtherLength);
        }
        let mask = wanted(self.parents.as_slice(), group, piece);
        if mask == 0 {
            return Ok(0);
        }
        make_room(&mut self.parents, GROUP_LEN as usize * (group as usize + 1))?;
        put_parents(self.parents.as_mut_slice(), group, mask, piece);
        Ok(mask)
    }

    /// Returns whether the parent whose right child begins with chunk `boundary` is held. It doesn't allocate.
    pub fn has_parent(&self, boundary: u32) -> bool
        ensures { result ≡ is_some ((state_of self.now).parents boundary) }
    {
        held_parent(self.parents.as_slice(), boundary as usize).is_some()
    }

    // Appends the bytes that are held of a node, and answers whether they are held.
    fn append_node(&self, node: &Node, out: &mut Vec<u8>) -> Result<bool, AllocError>
        ensures { IfOk result (λ there. GainsNode (node_held (state_of self.now) node.now) out.old.items out.new.items there) }
    {
        let bytes = match node {
            Node::Chunk(c) => held_chunk(self.slots.as_slice(), *c as usize),
            Node::Parent(m) => held_parent(self.parents.as_slice(), *m as usize),
        };
        match bytes {
            Some(bytes) => {
                out.extend_from_slice(bytes)?;
                Ok(true)
            }
            None => Ok(false),
        }
    }

    /// Returns the encoding of the slice (`start`, `len`) of the blob: the recorded length, and the bytes of
    /// the slice's nodes.
    ///
    /// Refuses with 808 `NoLength` if no length is recorded, with 809 `Lacking` and the first node, in the
    /// order of the encoding, that isn't held, and with 810 `Memory`.
    ///
    /// For every blob with the store's root it is the blob's slice; or, whatever legal history led to the
    /// store, the contract exhibits a collision, one input from the blob and one from the slice that a node or
    /// the length came from. Under any root, a blob's hash or not, it is accepted as that slice; or one of its
    /// chunks was committed from a slice that claims another length than the one that settled the length; or at
    /// one of its parents a collision is exhibited between two slices of the history.
    pub fn serve_slice(&self, start: u64, len: u64) -> Result<Vec<u8>, ServeFault>
        ensures served { IfOk result (λ text. DidServe self.now start len (Text text.items)) }
        ensures refused { IfErr result (λ fault. IsUnserved self.now start len fault) }
        ensures no_length { IsErrOf result NoLength ↔ ((state_of self.now).recorded ≡ None) }
        ensures binds { IfOk result (λ text. SliceBinds self.now start len text.items) }
        ensures accepted { IfOk result (λ text. SliceIsAccepted self.now start len text.items) }
    {
        // A law, so that the proof has what it says: nothing runs.
        self.fixed.mode.is_keyed();
        let Some(length) = self.recorded else {
            return Err(ServeFault::NoLength);
        };
        let mut out = Vec::new(self.alloc);
        out.extend_from_slice(&length.to_le_bytes())?;
        for node in nodes(length, start, len) {
            if !self.append_node(&node, &mut out)? {
                return Err(ServeFault::Lacking(node));
            }
        }
        Ok(out)
    }
}
