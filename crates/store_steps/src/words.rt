ghost use Rattle.std.specs.Prelude.{◌≡◌, [], Some, is_some, ◌+◌, ◌*◌, ◌/◌, ◌%◌, ◌^◌, ◌<◌, ◌≤◌, ℕ, nat_lt, not, ◌&&◌, true, IfErr, IfOk, IsErrOf, IsOk, OnErr};
ghost use Rattle.holders.specs.Room.{groups};
ghost use Rattle.store_steps.specs.Layout.{word_count};

use crate::fault::NewFault;
use crate::grip::Grip;
use crate::items::Item;
use crate::joins::{Both, Entering, Leaving, LookingRound, Meeting, Merging, Parting, Parts};
use crate::lengths::{length_in, settling};
use crate::places::{
    cells_place, claim_place, has_node, held_place, length_place, node_place, parent_claim_place,
    parent_held_place, word_count,
};
use crate::plays::{
    Answering, Arguments, ClaimingParents, Copying, Giving, Loading, LoadingNode, LoadingToServe,
    LoadingToStore, NodeArguments, Publishing, PublishingParents, SettlingLength, StoringWord,
    Taking,
};
use crate::rule::Law;
use crate::zeros::{ZEROS_LEN, zeros};
use atomic_table::Table;
use b3tree::{Hash, Mode};
use bao_check::{Checked, Tail};
use bao_text::Node;
use std::alloc::Global;
use std::collections::LinkedList;
use std::marker::Brand;
use std::mem::replace;
use store_core::{Fixed, SeatView, Settling, mask_below};

/// The words of a store that many threads share: a held word and a claim word for each group of 64 chunks, a
/// cell of 129 words for each chunk, and the length word.
///
/// Each call works on one word at a time, so that no thread waits for another. No call but `new` allocates. A
/// grip passed to a call belongs to these words. In a mask of a group's chunks, bit j stands for chunk 64 *
/// group + j.
#[derive(Drop)]
pub struct Words {
    table: Table<(), LinkedList<SeatView>, Fixed, Law, Global>,
    fixed: Fixed,
    // Where the cells begin: it is asked for with each word of them.
    cells: usize,
    ghost key_is: { table.shared.key ≡ fixed },
    ghost count: { table.shared.table_id.words ≡ word_count fixed },
    ghost some: { 0 < fixed.capacity },
    ghost limit: { fixed.capacity ≤ 65536 },
    ghost low: { fixed.base ≤ 2 ^ 54 },
    ghost begin: { cells ≡ 2 * groups fixed },
    ghost few: { cells ≤ 2 ^ 27 },
}

impl Words {
    ghost use Rattle.bao_check.specs.Checked.{piece_claimed};
    ghost use Rattle.bao_check.specs.Tail.{tail_piece};
    ghost use Rattle.store_core.specs.declared.history.Call.TheVariants.{Commit, Give, Length, Parents, Settle, Take};
    ghost use Rattle.holders.specs.Room.{has_room};
    ghost use Rattle.holders.specs.Pieces.{length_of, piece_of};
    ghost use Rattle.store_core.specs.Stores.{IsOf};
    ghost use Rattle.store_core.specs.Views.{mine};
    ghost use Rattle.store_core.specs.declared.history.Storing.TheVariants.{Stored};
    ghost use Rattle.store_core.specs.Histories.{state_after};
    ghost use Rattle.store_steps.specs.Asks.{AreClaimed, AreHeldClaims, AreParentsWritten, AreWordsStored};
    ghost use Rattle.store_core.specs.Knowledge.{AreAllNames, AreMet, ArePartsOf, Did, EndsStoring, IsMerged, Looked, LooksRound, opening_view};
    ghost use Rattle.store_steps.specs.Kinds.{Owns, chunk_kind, width};
    ghost use Rattle.store_steps.specs.Reads.{read_events};
    ghost use Rattle.store_core.specs.Serves.{node_held};
    ghost use Rattle.store_steps.specs.Slices.{node_events, node_number, unserved_events, unstored_events};
    ghost use Rattle.store_core.specs.Masks.{IsMaskOf, has_bit};
    ghost use Rattle.store_steps.specs.Tells.{FindsHeld, FindsWord, IsStoringNow, Stores};
    ghost use Rattle.store_steps.specs.Words.{CoversGroup, IsGripOf, fixed_of};

    /// Returns empty words for the `capacity` chunks of a blob from chunk `base` on, and their first grip,
    /// which has seen nothing.
    ///
    /// Refuses with 801 `Memory`, and keeps no memory then.
    pub fn new(
        alloc: Global,
        root: Hash,
        mode: Mode,
        base: u64,
        capacity: u32,
    ) -> Result<(Words, Grip), NewFault>
        requires some { (0 < capacity) × (capacity ≤ 65536) }
        requires low { base ≤ 2 ^ 54 }
        ensures of { IfOk result (λ made. IsGripOf made.0 made.1) }
        ensures fixed { IfOk result (λ made. fixed_of made.0 ≡ record { root = root; mode = mode; capacity = capacity; base = base }) }
        ensures view { IfOk result (λ made. made.1.view ≡ opening_view (fixed_of made.0)) }
        ensures memory { OnErr result (IsErrOf result NewFault.Memory) }
    {
        let fixed = Fixed {
            root,
            mode,
            capacity,
            base,
        };
        let count = word_count(&fixed);
        let (table, seat) = if count <= ZEROS_LEN {
            Table::of_words(alloc, zeros(count), &fixed)?
        } else {
            let zeros = vec![in alloc; 0u64; count]?;
            Table::of_words(alloc, zeros.as_slice(), &fixed)?
        };
        let cells = cells_place(&fixed);
        Ok((
            Words {
                table,
                fixed,
                cells,
            },
            Grip { seat },
        ))
    }

    /// Returns the root, the mode, the capacity in chunks and the base, which never change.
    pub fn fixed(&self) -> Fixed
        ensures { result ≡ fixed_of self.now }
    {
        let Words { fixed, .. } = self;
        *fixed
    }

    /// Returns the index in the blob of chunk 0 here.
    pub fn base(&self) -> u64
        ensures value { result ≡ (fixed_of self.now).base }
        ensures low { result ≤ 2 ^ 54 }
    {
        let Words { fixed, .. } = self;
        fixed.base
    }

    // Each step stands twice. What it is asked for beside its operands, as the piece of a commit, reaches what it tells by
    // a type alone (`Arguments`), that each call picks anew: so `take` picks one, and `take_asked` makes the step for any.
    // docs/DECISIONS.md says why.

    /// Claims those wanted chunks of a group that are below the capacity and neither held nor claimed, and
    /// returns their mask. A chunk that the grip already claims isn't granted again. One `fetch_or` on the
    /// claim word.
    pub fn take(&self, grip: &mut Grip, group: u32, want: u64) -> u64
        requires of { IsGripOf self.now grip.old }
        requires group { CoversGroup self.now group }
        ensures of { IsGripOf self.now grip.new }
        ensures did { Did (Take group want result) grip.old.view grip.new.view }
    {
        self.take_asked::<Brand>(grip, group, want)
    }

    fn take_asked<A: Arguments>(&self, grip: &mut Grip, group: u32, want: u64) -> u64
        requires of { IsGripOf self.now grip.old }
        requires group { CoversGroup self.now group }
        requires asked { (A.group ≡ group) × (A.first ≡ want) }
        ensures of { IsGripOf self.now grip.new }
        ensures did { Did (Take group want result) grip.old.view grip.new.view }
    {
        let mask = want & mask_below(group, u64::from(self.fixed.capacity));
        let place = claim_place(&self.fixed, group);
        let found = self
            .table
            .shared
            .fetch_or::<Taking<A>>(&mut grip.seat, place, mask);
        mask & !found
    }

    /// Ends the grip's claims to chunks of `mask`, which are `given`. One `fetch_and` on the claim word.
    pub fn give(&self, grip: &mut Grip, group: u32, mask: u64, given: u64)
        requires of { IsGripOf self.now grip.old }
        requires group { CoversGroup self.now group }
        requires given { AreClaimed grip.old.view group mask given }
        ensures of { IsGripOf self.now grip.new }
        ensures did { Did (Give group mask given) grip.old.view grip.new.view }
    {
        self.give_asked::<Brand>(grip, group, mask, given);
    }

    fn give_asked<A: Arguments>(&self, grip: &mut Grip, group: u32, mask: u64, given: u64)
        requires of { IsGripOf self.now grip.old }
        requires group { CoversGroup self.now group }
        requires given { AreClaimed grip.old.view group mask given }
        requires asked { (A.group ≡ group) × (A.first ≡ mask) × (A.second ≡ given) }
        ensures of { IsGripOf self.now grip.new }
        ensures did { Did (Give group mask given) grip.old.view grip.new.view }
    {
        let place = claim_place(&self.fixed, group);
        self.table
            .shared
            .fetch_and::<Giving<A>>(&mut grip.seat, place, !given);
    }

    /// The give of a group that doesn't exist: no claim ends. One load, which changes nothing.
    pub fn give_none(&self, grip: &mut Grip, group: u32, mask: u64)
        requires of { IsGripOf self.now grip.old }
        requires group { ¬ CoversGroup self.now group }
        ensures of { IsGripOf self.now grip.new }
        ensures did { Did (Give group mask 0) grip.old.view grip.new.view }
    {
        self.give_none_asked::<Brand>(grip, group, mask);
    }

    fn give_none_asked<A: Arguments>(&self, grip: &mut Grip, group: u32, mask: u64)
        requires of { IsGripOf self.now grip.old }
        requires group { ¬ CoversGroup self.now group }
        requires asked { (A.group ≡ group) × (A.first ≡ mask) × (A.second ≡ 0) }
        ensures of { IsGripOf self.now grip.new }
        ensures did { Did (Give group mask 0) grip.old.view grip.new.view }
    {
        // For the proof alone: by it the call has its place in the history.
        self.table.shared.load::<Giving<A>>(&mut grip.seat, 0);
    }

    /// Stores a word of an item that the grip may store. One store, which no reader sees before the item is
    /// published.
    ///
    /// The item is the cell of a chunk that the grip claims, with the chunk's size in bytes in word 0 and its
    /// data in words 1 to 128; or the parent at a boundary that it is storing, with its 64 bytes in words 0 to
    /// 7.
    pub fn store<K: Item>(&self, grip: &mut Grip, item: u32, word: u8, value: u64)
        requires of { IsGripOf self.now grip.old }
        requires own { Owns K.kind grip.old.view item }
        requires word { word < width K.kind }
        ensures of { IsGripOf self.now grip.new }
        ensures stored { Stores K.kind item word value grip.old.view grip.new.view }
    {
        self.store_asked::<K, Brand>(grip, item, word, value);
    }

    fn store_asked<K: Item, A: Arguments>(&self, grip: &mut Grip, item: u32, word: u8, value: u64)
        requires of { IsGripOf self.now grip.old }
        requires own { Owns K.kind grip.old.view item }
        requires word { word < width K.kind }
        requires asked { (A.first ≡ item) × (A.second ≡ word) }
        ensures of { IsGripOf self.now grip.new }
        ensures stored { Stores K.kind item word value grip.old.view grip.new.view }
    {
        let place = K::place(&self.fixed, self.cells, item, word);
        self.table
            .shared
            .store::<StoringWord<K, A>>(&mut grip.seat, place, value);
    }

    /// Publishes chunks of an accepted slice of this store's root and mode, all of whose words the grip stored:
    /// they are held from now on, and their claims end. `mask` has those chunks that the grip claims and the
    /// slice has. One `fetch_or` on the held word, even if the mask is 0.
    pub fn publish(&self, grip: &mut Grip, group: u32, piece: &Checked<'_>, mask: u64)
        requires of { IsGripOf self.now grip.old }
        requires group { CoversGroup self.now group }
        requires piece { IsOf (fixed_of self.now) piece.now }
        requires mask { AreHeldClaims grip.old.view group (piece_of (fixed_of self.now).base piece.now) mask }
        requires written { AreWordsStored chunk_kind grip.old.view group mask (piece_of (fixed_of self.now).base piece.now) }
        ensures of { IsGripOf self.now grip.new }
        ensures did { Did (Commit group (piece_of (fixed_of self.now).base piece.now) mask) grip.old.view grip.new.view }
    {
        self.publish_asked::<Brand>(grip, group, piece, mask);
    }

    fn publish_asked<A: Arguments>(
        &self,
        grip: &mut Grip,
        group: u32,
        piece: &Checked<'_>,
        mask: u64,
    )
        requires of { IsGripOf self.now grip.old }
        requires group { CoversGroup self.now group }
        requires piece { IsOf (fixed_of self.now) piece.now }
        requires mask { AreHeldClaims grip.old.view group (piece_of (fixed_of self.now).base piece.now) mask }
        requires written { AreWordsStored chunk_kind grip.old.view group mask (piece_of (fixed_of self.now).base piece.now) }
        requires asked { (A.group ≡ group) × (A.piece ≡ piece_of (fixed_of self.now).base piece.now) }
        ensures of { IsGripOf self.now grip.new }
        ensures did { Did (Commit group (piece_of (fixed_of self.now).base piece.now) mask) grip.old.view grip.new.view }
    {
        // A law, so that the proof has what it says: nothing runs.
        piece.is_accepted();
        let place = held_place(&self.fixed, group);
        self.table
            .shared
            .fetch_or::<Publishing<A>>(&mut grip.seat, place, mask);
    }

    /// The commit to a group that doesn't exist: nothing is published, and no claim ends. One load, which
    /// changes nothing.
    pub fn publish_none(&self, grip: &mut Grip, group: u32, piece: &Checked<'_>)
        requires of { IsGripOf self.now grip.old }
        requires group { ¬ CoversGroup self.now group }
        requires piece { IsOf (fixed_of self.now) piece.now }
        ensures of { IsGripOf self.now grip.new }
        ensures did { Did (Commit group (piece_of (fixed_of self.now).base piece.now) 0) grip.old.view grip.new.view }
    {
        self.publish_none_asked::<Brand>(grip, group, piece);
    }

    fn publish_none_asked<A: Arguments>(&self, grip: &mut Grip, group: u32, piece: &Checked<'_>)
        requires of { IsGripOf self.now grip.old }
        requires group { ¬ CoversGroup self.now group }
        requires piece { IsOf (fixed_of self.now) piece.now }
        requires asked { (A.group ≡ group) × (A.piece ≡ piece_of (fixed_of self.now).base piece.now) }
        ensures of { IsGripOf self.now grip.new }
        ensures did { Did (Commit group (piece_of (fixed_of self.now).base piece.now) 0) grip.old.view grip.new.view }
    {
        // A law, so that the proof has what it says: nothing runs.
        piece.is_accepted();
        // For the proof alone: by it the call has its place in the history.
        self.table.shared.load::<Publishing<A>>(&mut grip.seat, 0);
    }

    /// Returns the held word of a group: bit j is set exactly if chunk 64 * group + j is held. One load for a
    /// read of `len` bytes from offset `at` on; the read linearizes at its last.
    pub fn load(&self, grip: &mut Grip, group: u32, at: u64, len: u64) -> u64
        requires of { IsGripOf self.now grip.old }
        requires group { CoversGroup self.now group }
        ensures of { IsGripOf self.now grip.new }
        ensures looked { Looked (read_events grip.old.view group at len) grip.old.view grip.new.view }
        ensures held { FindsHeld group result grip.new.view }
    {
        self.load_asked::<Brand>(grip, group, at, len)
    }

    fn load_asked<A: Arguments>(&self, grip: &mut Grip, group: u32, at: u64, len: u64) -> u64
        requires of { IsGripOf self.now grip.old }
        requires group { CoversGroup self.now group }
        requires asked { (A.group ≡ group) × (A.first ≡ at) × (A.second ≡ len) }
        ensures of { IsGripOf self.now grip.new }
        ensures looked { Looked (read_events grip.old.view group at len) grip.old.view grip.new.view }
        ensures held { FindsHeld group result grip.new.view }
    {
        let place = held_place(&self.fixed, group);
        self.table.shared.load::<Loading<A>>(&mut grip.seat, place)
    }

    /// Returns a word of an item. If the grip has seen the item held, it is the word of its bytes, as in
    /// `store`. One load, which changes nothing.
    pub fn copy<K: Item>(&self, grip: &mut Grip, item: u32, word: u8) -> u64
        requires of { IsGripOf self.now grip.old }
        requires item { item < (fixed_of self.now).capacity }
        requires word { word < width K.kind }
        ensures same { grip.new ≡ grip.old }
        ensures word { FindsWord K.kind item word result grip.old.view }
    {
        self.copy_asked::<K, Brand>(grip, item, word)
    }

    fn copy_asked<K: Item, A: Arguments>(&self, grip: &mut Grip, item: u32, word: u8) -> u64
        requires of { IsGripOf self.now grip.old }
        requires item { item < (fixed_of self.now).capacity }
        requires word { word < width K.kind }
        requires asked { (A.first ≡ item) × (A.second ≡ word) }
        ensures same { grip.new ≡ grip.old }
        ensures word { FindsWord K.kind item word result grip.old.view }
    {
        let place = K::place(&self.fixed, self.cells, item, word);
        self.table
            .shared
            .load::<Copying<K, A>>(&mut grip.seat, place)
    }

    /// Records the blob's length in bytes that the tail, of this store's root and mode, certifies; the store
    /// has capacity for it. Returns `Settled` if none was recorded, `Known` if the same was, and `Differs` if
    /// another was. One `compare_exchange` on the length word.
    pub fn settle(&self, grip: &mut Grip, tail: &Tail<'_>) -> Settling
        requires of { IsGripOf self.now grip.old }
        requires piece { IsOf (fixed_of self.now) (tail_piece tail.now) }
        requires fits { has_room (fixed_of self.now) (piece_claimed (tail_piece tail.now)) ≡ true }
        ensures of { IsGripOf self.now grip.new }
        ensures did { Did (Settle (piece_of (fixed_of self.now).base (tail_piece tail.now)) result) grip.old.view grip.new.view }
    {
        self.settle_asked::<Brand>(grip, tail)
    }

    fn settle_asked<A: Arguments>(&self, grip: &mut Grip, tail: &Tail<'_>) -> Settling
        requires of { IsGripOf self.now grip.old }
        requires piece { IsOf (fixed_of self.now) (tail_piece tail.now) }
        requires fits { has_room (fixed_of self.now) (piece_claimed (tail_piece tail.now)) ≡ true }
        requires asked { A.piece ≡ piece_of (fixed_of self.now).base (tail_piece tail.now) }
        ensures of { IsGripOf self.now grip.new }
        ensures did { Did (Settle (piece_of (fixed_of self.now).base (tail_piece tail.now)) result) grip.old.view grip.new.view }
    {
        // A law, so that the proof has what it says: nothing runs.
        tail.is_last();
        let length = tail.length();
        let place = length_place(&self.fixed);
        let found = self
            .table
            .shared
            .compare_exchange::<SettlingLength<A>>(&mut grip.seat, place, 0, length + 1);
        settling(length_in(found), length)
    }

    /// Returns the recorded length in bytes, if there is one. One load of the length word.
    pub fn length(&self, grip: &mut Grip) -> Option<u64>
        requires of { IsGripOf self.now grip.old }
        ensures of { IsGripOf self.now grip.new }
        ensures did { Did (Length result) grip.old.view grip.new.view }
    {
        let place = length_place(&self.fixed);
        let found = self.table.shared.load::<Answering>(&mut grip.seat, place);
        length_in(found)
    }

    /// Returns whether a node of the slice (`start`, `len`) is held. One load of a held word. Serving the slice
    /// linearizes here if the node isn't held, or if it is the slice's last, as `last` says.
    pub fn load_node(&self, grip: &mut Grip, node: &Node, last: bool, start: u64, len: u64) -> bool
        requires of { IsGripOf self.now grip.old }
        requires node { node_number node.now < (fixed_of self.now).capacity }
        ensures of { IsGripOf self.now grip.new }
        ensures looked { Looked (node_events grip.old.view node.now last start len) grip.old.view grip.new.view }
        ensures held { result ≡ is_some (node_held (state_after grip.new.view.seen) node.now) }
    {
        self.load_node_asked::<Brand>(grip, node, last, start, len)
    }

    fn load_node_asked<A: NodeArguments>(
        &self,
        grip: &mut Grip,
        node: &Node,
        last: bool,
        start: u64,
        len: u64,
    ) -> bool
        requires of { IsGripOf self.now grip.old }
        requires node { node_number node.now < (fixed_of self.now).capacity }
        requires asked { (A.node ≡ node.now) × (A.last ≡ last) × (A.start ≡ start) × (A.len ≡ len) }
        ensures of { IsGripOf self.now grip.new }
        ensures looked { Looked (node_events grip.old.view node.now last start len) grip.old.view grip.new.view }
        ensures held { result ≡ is_some (node_held (state_after grip.new.view.seen) node.now) }
    {
        let place = node_place(&self.fixed, node);
        let found = self
            .table
            .shared
            .load::<LoadingNode<A>>(&mut grip.seat, place);
        has_node(found, node)
    }

    /// Returns the recorded length in bytes, if there is one, to serve the slice (`start`, `len`). One load of
    /// the length word. Serving linearizes here if there is none.
    pub fn length_to_serve(&self, grip: &mut Grip, start: u64, len: u64) -> Option<u64>
        requires of { IsGripOf self.now grip.old }
        ensures of { IsGripOf self.now grip.new }
        ensures looked { Looked (unserved_events grip.old.view start len) grip.old.view grip.new.view }
        ensures recorded { result ≡ (state_after grip.new.view.seen).recorded }
    {
        self.length_to_serve_asked::<Brand>(grip, start, len)
    }

    fn length_to_serve_asked<A: Arguments>(
        &self,
        grip: &mut Grip,
        start: u64,
        len: u64,
    ) -> Option<u64>
        requires of { IsGripOf self.now grip.old }
        requires asked { (A.first ≡ start) × (A.second ≡ len) }
        ensures of { IsGripOf self.now grip.new }
        ensures looked { Looked (unserved_events grip.old.view start len) grip.old.view grip.new.view }
        ensures recorded { result ≡ (state_after grip.new.view.seen).recorded }
    {
        let place = length_place(&self.fixed);
        let found = self
            .table
            .shared
            .load::<LoadingToServe<A>>(&mut grip.seat, place);
        length_in(found)
    }

    /// Returns the recorded length in bytes, if there is one, to store parents of an accepted slice of this
    /// store's root and mode. One load of the length word. Storing them linearizes here if it isn't the length
    /// that the slice claims, or if there is no such group.
    pub fn length_to_store(&self, grip: &mut Grip, group: u32, piece: &Checked<'_>) -> Option<u64>
        requires of { IsGripOf self.now grip.old }
        requires piece { IsOf (fixed_of self.now) piece.now }
        ensures of { IsGripOf self.now grip.new }
        ensures looked { Looked (unstored_events grip.old.view group (piece_of (fixed_of self.now).base piece.now)) grip.old.view grip.new.view }
        ensures recorded { result ≡ (state_after grip.new.view.seen).recorded }
    {
        self.length_to_store_asked::<Brand>(grip, group, piece)
    }

    fn length_to_store_asked<A: Arguments>(
        &self,
        grip: &mut Grip,
        group: u32,
        piece: &Checked<'_>,
    ) -> Option<u64>
        requires of { IsGripOf self.now grip.old }
        requires piece { IsOf (fixed_of self.now) piece.now }
        requires asked { (A.group ≡ group) × (A.piece ≡ piece_of (fixed_of self.now).base piece.now) }
        ensures of { IsGripOf self.now grip.new }
        ensures looked { Looked (unstored_events grip.old.view group (piece_of (fixed_of self.now).base piece.now)) grip.old.view grip.new.view }
        ensures recorded { result ≡ (state_after grip.new.view.seen).recorded }
    {
        // A law, so that the proof has what it says: nothing runs.
        piece.is_accepted();
        let place = length_place(&self.fixed);
        let found = self
            .table
            .shared
            .load::<LoadingToStore<A>>(&mut grip.seat, place);
        length_in(found)
    }

    /// Claims those wanted boundaries of a group that are below the capacity and whose parents are neither held
    /// nor being stored, and returns their mask. One `fetch_or` on the claim word of boundaries.
    ///
    /// Before the call the grip is storing no parents, and afterwards these. A grip with all existing names
    /// gets all whose parents it hasn't seen held.
    pub fn claim_parents(&self, grip: &mut Grip, group: u32, want: u64) -> u64
        requires of { IsGripOf self.now grip.old }
        requires group { CoversGroup self.now group }
        requires none { grip.old.view.storing ≡ [] }
        ensures of { IsGripOf self.now grip.new }
        ensures claimed { IsStoringNow group result grip.old.view grip.new.view }
        ensures among { (j : ℕ) → has_bit result j ≡ true → has_bit want j ≡ true }
        ensures alone { AreAllNames grip.old.view.names → IsMaskOf group result (λ m. has_bit want (m % 64) && (nat_lt m (fixed_of self.now).capacity && not (is_some ((state_after grip.old.view.seen).parents m)))) }
        ensures own { AreAllNames grip.old.view.names → mine grip.old.view ≡ grip.old.view.seen }
    {
        self.claim_parents_asked::<Brand>(grip, group, want)
    }

    fn claim_parents_asked<A: Arguments>(&self, grip: &mut Grip, group: u32, want: u64) -> u64
        requires of { IsGripOf self.now grip.old }
        requires group { CoversGroup self.now group }
        requires none { grip.old.view.storing ≡ [] }
        requires asked { A.group ≡ group }
        ensures of { IsGripOf self.now grip.new }
        ensures claimed { IsStoringNow group result grip.old.view grip.new.view }
        ensures among { (j : ℕ) → has_bit result j ≡ true → has_bit want j ≡ true }
        ensures alone { AreAllNames grip.old.view.names → IsMaskOf group result (λ m. has_bit want (m % 64) && (nat_lt m (fixed_of self.now).capacity && not (is_some ((state_after grip.old.view.seen).parents m)))) }
        ensures own { AreAllNames grip.old.view.names → mine grip.old.view ≡ grip.old.view.seen }
    {
        let wanted = mask_below(group, u64::from(self.fixed.capacity)) & want;
        let place = parent_claim_place(&self.fixed, group);
        let before = self
            .table
            .shared
            .fetch_or::<ClaimingParents<A>>(&mut grip.seat, place, wanted);
        wanted & !before
    }

    /// Publishes parents of an accepted slice of this store's root and mode that claims the length that the
    /// grip has seen recorded: they are held from now on, and the grip is storing none. `mask` has the
    /// boundaries that it is storing, all of whose words it stored. One `fetch_or` on the held word of
    /// boundaries, even if the mask is 0.
    pub fn publish_parents(&self, grip: &mut Grip, group: u32, piece: &Checked<'_>, mask: u64)
        requires of { IsGripOf self.now grip.old }
        requires group { CoversGroup self.now group }
        requires piece { IsOf (fixed_of self.now) piece.now }
        requires length { (state_after grip.old.view.seen).recorded ≡ Some (length_of (piece_of (fixed_of self.now).base piece.now)) }
        requires written { AreParentsWritten grip.old.view group mask (piece_of (fixed_of self.now).base piece.now) }
        ensures of { IsGripOf self.now grip.new }
        ensures called { EndsStoring (Parents group (piece_of (fixed_of self.now).base piece.now) (Stored mask)) grip.old.view grip.new.view }
        ensures written { grip.new.view.written ≡ grip.old.view.written }
    {
        self.publish_parents_asked::<Brand>(grip, group, piece, mask);
    }

    fn publish_parents_asked<A: Arguments>(
        &self,
        grip: &mut Grip,
        group: u32,
        piece: &Checked<'_>,
        mask: u64,
    )
        requires of { IsGripOf self.now grip.old }
        requires group { CoversGroup self.now group }
        requires piece { IsOf (fixed_of self.now) piece.now }
        requires length { (state_after grip.old.view.seen).recorded ≡ Some (length_of (piece_of (fixed_of self.now).base piece.now)) }
        requires written { AreParentsWritten grip.old.view group mask (piece_of (fixed_of self.now).base piece.now) }
        requires asked { (A.group ≡ group) × (A.piece ≡ piece_of (fixed_of self.now).base piece.now) }
        ensures of { IsGripOf self.now grip.new }
        ensures called { EndsStoring (Parents group (piece_of (fixed_of self.now).base piece.now) (Stored mask)) grip.old.view grip.new.view }
        ensures written { grip.new.view.written ≡ grip.old.view.written }
    {
        // A law, so that the proof has what it says: nothing runs.
        piece.is_accepted();
        let place = parent_held_place(&self.fixed, group);
        self.table
            .shared
            .fetch_or::<PublishingParents<A>>(&mut grip.seat, place, mask);
    }

    /// Parts a grip in two. The first keeps the calls and the claims. The second has seen the same history and
    /// has neither; its name is new, unused even by a dropped grip.
    ///
    /// It needs no memory today, so it always returns `Ok`. `Err` would return the grip unchanged.
    pub fn part(&self, grip: Grip) -> Result<(Grip, Grip), Grip>
        requires of { IsGripOf self.now grip }
        ensures ok { IsOk result }
        ensures of { IfOk result (λ parts. IsGripOf self.now parts.0 × IsGripOf self.now parts.1) }
        ensures parts { IfOk result (λ parts. ArePartsOf grip.view parts.0.view parts.1.view) }
        ensures back { IfErr result (λ back. back ≡ grip) }
    {
        let Grip { mut seat } = grip;
        // For the proof alone: by it the new name is known to be new.
        self.table.shared.load::<Parting>(&mut seat, 0);
        let other = self.table.shared.split_seat::<Parts>(&mut seat);
        Ok((Grip { seat }, Grip { seat: other }))
    }

    /// Sees all calls made so far. For a grip with all existing names these are its own. One load, which
    /// changes nothing.
    pub fn look_round(&self, grip: &mut Grip)
        requires of { IsGripOf self.now grip.old }
        ensures of { IsGripOf self.now grip.new }
        ensures looked { LooksRound grip.old.view grip.new.view }
    {
        // For the proof alone: by it the grip sees the history so far.
        self.table.shared.load::<LookingRound>(&mut grip.seat, 0);
    }

    /// Merges two grips into one, with the calls, the claims and the stored words of both. The history that it
    /// has seen begins with what each had seen.
    pub fn merge(&self, first: Grip, second: Grip) -> Grip
        requires first { IsGripOf self.now first }
        requires second { IsGripOf self.now second }
        ensures of { IsGripOf self.now result }
        ensures merged { IsMerged first.view second.view result.view }
    {
        let Grip { mut seat } = first;
        let Grip { seat: other } = second;
        self.table.shared.join_seat::<Both>(&mut seat, other);
        // For the proof alone: by it the two views become one.
        self.table.shared.load::<Merging>(&mut seat, 0);
        Grip { seat }
    }

    /// Lets two grips meet: afterwards both have seen one history, which begins with what each had seen. Their
    /// calls, claims and stored words are unchanged.
    pub fn meet(&self, first: &mut Grip, second: &mut Grip)
        requires first { IsGripOf self.now first.old }
        requires second { IsGripOf self.now second.old }
        ensures first { IsGripOf self.now first.new }
        ensures second { IsGripOf self.now second.new }
        ensures met { AreMet first.old.view second.old.view first.new.view second.new.view }
    {
        let (_, spare) = self.table.shared.load_new_seat::<Entering>(0);
        let other = replace(&mut second.seat, spare);
        self.table.shared.join_seat::<Both>(&mut first.seat, other);
        // For the proof alone: by it both have seen one history.
        self.table.shared.load::<Meeting>(&mut first.seat, 0);
        second.seat = self.table.shared.split_seat::<Leaving>(&mut first.seat);
    }
}
