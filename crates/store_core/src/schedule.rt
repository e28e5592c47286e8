ghost use Rattle.std.specs.Prelude.{◌≡◌, ◌≢◌, ◌⊎◌, ◌↔◌, ℕ, ◌<◌, ◌≤◌, ◌==◌, if◌then◌else◌, List, [], ◌++◌, Some, option_map, option_to_list, IfOk, IsErrOf, IsOk, IsTrue, OnOk};
ghost use Rattle.bao_check.specs.declared.checked.Checked.{Checked};
ghost use Rattle.store_core.specs.declared.fault.ReplayFault.TheVariants.{Capacity, Illegal, Memory};
ghost use Rattle.store_core.specs.Machine.{current_holds};
ghost use Rattle.holders.specs.Pieces.{piece_of};
ghost use Rattle.store_core.specs.Replays.{BeginsLegally, IsIllegalAt, IsReplayed, ReplayBinds};
ghost use Rattle.store_core.specs.Stores.{fixed_of};
ghost use Rattle.store_core.specs.ScheduleRuns.{IsAllMarked, IsTakenPlayer, player_in};

use crate::fault::{BadCapacity, ReplayFault, StepFault};
use crate::masks::{CELL_WORDS, GROUP_LEN};
use crate::micro::{MicroStep, Reply};
use crate::reading::Reading;
use crate::slot::is_in;
use crate::store::Store;
use crate::written::{is_written, mark, unmark_claims, unmark_group};
use b3tree::{Hash, Mode};
use bao_check::Checked;
use std::alloc::{AllocError, Global};

// The most bytes that a read of a schedule asks for.
const MAX_READ: u32 = 65_536;

// What a seat has: its current piece, and a read under way.
#[derive(Drop)]
struct Player<'a> {
    number: u32,
    piece: Option<Checked<'a>>,
    reading: Option<Reading>,
}

/// A schedule that runs step by step.
///
/// A single-threaded store stands in for the shared words: it has their held bits and claims. The values of the
/// words needn't be kept, since a chunk is held only once all of them come from the current slice of the one
/// seat that claims it.
#[derive(Drop)]
pub struct ScheduleRun<'a> {
    alloc: Global,
    store: Store,
    // Which words were written, each at index 129 * chunk + word.
    written: Vec<bool>,
    players: Vec<Player<'a>>,
}

// Takes the seat's player out of the list; a seat that did nothing yet has a new one.
fn take_player<'a>(players: &mut Vec<Player<'a>>, number: u32) -> Player<'a>
    ensures is { IsTakenPlayer (player_in players.old.items number) result }
    ensures others { (k : ℕ) → k ≢ number → player_in players.new.items k ≡ player_in players.old.items k }
    ensures number { result.number ≡ number }
{
    for i in 0..players.len() {
        if players[i].number == number {
            return players.remove(i);
        }
    }
    Player {
        number,
        piece: None,
        reading: None,
    }
}

// Puts a seat's player first in the list.
fn put_player<'a>(players: &mut Vec<Player<'a>>, player: Player<'a>) -> Result<(), AllocError>
    ensures { OnOk result ((k : ℕ) → player_in players.new.items k ≡ (if player.entry.number == k then Some player.entry else player_in players.old.items k)) }
{
    players.insert(0, player)?;
    Ok(())
}

// One more reply, if the step has one.
fn add(replies: &mut Vec<Reply>, reply: Option<Reply>) -> Result<(), AllocError>
    ensures { OnOk result (replies.new.items ≡ replies.old.items ++ option_to_list reply) }
{
    if let Some(reply) = reply {
        replies.push(reply)?;
    }
    Ok(())
}

// Whether the player's current piece holds the chunk of the store.
fn does_hold(store: &Store, player: &Player<'_>, chunk: u32) -> bool
    ensures { result ≡ current_holds (option_map (piece_of (fixed_of store.now).base) player.now.piece) chunk }
{
    match player.piece {
        Some(piece) => is_in(&piece, store.fixed().base, u64::from(chunk)),
        None => false,
    }
}

impl<'a> ScheduleRun<'a> {
    ghost use Rattle.store_core.specs.declared.micro.MicroStep.{MicroStep};
    ghost use Rattle.store_core.specs.declared.fault.StepFault.{StepFault};
    ghost use Rattle.holders.specs.declared.fixed.Fixed.{Fixed};
    ghost use Rattle.store_core.specs.Replays.{LeavesStore};
    ghost use Rattle.store_core.specs.ScheduleRuns.{DoesRefuse, DoesStep, IsFresh, IsLegalFor};

    /// Returns a run without steps over an empty store. It doesn't allocate.
    ///
    /// Refuses with 802 `BadCapacity` unless `capacity`, in chunks, is 1 to 65,536.
    pub fn new(
        alloc: Global,
        root: Hash,
        mode: Mode,
        capacity: u32,
    ) -> Result<ScheduleRun<'a>, BadCapacity>
        ensures fits { IsOk result ↔ ((0 < capacity) × (capacity ≤ 65536)) }
        ensures fresh { IfOk result (IsFresh (record { root = root; mode = mode; capacity = capacity; base = 0 })) }
    {
        Ok(ScheduleRun {
            alloc,
            store: Store::new(alloc, root, mode, capacity)?,
            written: Vec::new(alloc),
            players: Vec::new(alloc),
        })
    }

    /// Returns the store after the steps so far.
    ///
    /// For every blob with its root, each held chunk is the blob's chunk of that index, and a recorded length
    /// is the blob's; or the contract exhibits a collision, two different inputs with the same chaining value,
    /// one from the blob and one from the slice from which the run committed the chunk, or by which it settled
    /// the length.
    pub fn into_store(self) -> Store
        ensures left { LeavesStore self.entry result }
        ensures binds { (fixed : Fixed) (pieces : List Checked) (steps : List MicroStep) (replies : List Reply) → ReplayBinds fixed pieces steps replies result }
    {
        // A law, so that the proof has what it says: nothing runs.
        self.store.fixed().mode.is_keyed();
        self.store
    }

    // Each step has its function. Whether a step is legal depends on the pieces for a Hash alone: of the others it is said with none.
    fn claim(&mut self, seat: u32, group: u32, want: u64) -> Result<Option<Reply>, StepFault>
        ensures ok { (pieces : List Checked) → IfOk result (λ reply. DoesStep pieces self.old self.new (MicroStep.Claim seat group want) reply) }
        ensures illegal { IsErrOf result StepFault.Illegal → DoesRefuse [] self.old (MicroStep.Claim seat group want) }
        ensures memory { IsErrOf result StepFault.Memory → IsLegalFor [] self.old (MicroStep.Claim seat group want) }
    {
        if group >= self.store.groups() {
            return Err(StepFault::Illegal);
        }
        match self.store.take(seat, group, want) {
            Ok(granted) => Ok(Some(Reply::Granted(granted))),
            Err(_) => Err(StepFault::Memory),
        }
    }

    fn hash(
        &mut self,
        pieces: &[Checked<'a>],
        seat: u32,
        index: usize,
    ) -> Result<Option<Reply>, StepFault>
        ensures ok { IfOk result (λ reply. DoesStep pieces.now self.old self.new (MicroStep.Hash seat index) reply) }
        ensures illegal { IsErrOf result StepFault.Illegal → DoesRefuse pieces.now self.old (MicroStep.Hash seat index) }
        ensures memory { IsErrOf result StepFault.Memory → IsLegalFor pieces.now self.old (MicroStep.Hash seat index) }
    {
        if index >= pieces.len() {
            return Err(StepFault::Illegal);
        }
        let piece = pieces[index];
        // A law, so that the proof has what it says: nothing runs.
        piece.is_accepted();
        if !self.store.is_of(&piece) {
            return Err(StepFault::Illegal);
        }
        unmark_claims(self.written.as_mut_slice(), &self.store, seat);
        let mut player = take_player(&mut self.players, seat);
        player.piece = Some(piece);
        put_player(&mut self.players, player)?;
        Ok(None)
    }

    fn write(&mut self, seat: u32, chunk: u32, word: u8) -> Result<Option<Reply>, StepFault>
        ensures ok { (pieces : List Checked) → IfOk result (λ reply. DoesStep pieces self.old self.new (MicroStep.Write seat chunk word) reply) }
        ensures illegal { IsErrOf result StepFault.Illegal → DoesRefuse [] self.old (MicroStep.Write seat chunk word) }
        ensures memory { IsErrOf result StepFault.Memory → IsLegalFor [] self.old (MicroStep.Write seat chunk word) }
    {
        let player = take_player(&mut self.players, seat);
        let holds = does_hold(&self.store, &player, chunk);
        if word >= CELL_WORDS || !holds || !self.store.has_claim(seat, chunk) {
            return Err(StepFault::Illegal);
        }
        mark(&mut self.written, chunk, word)?;
        put_player(&mut self.players, player)?;
        Ok(None)
    }

    fn publish(&mut self, seat: u32, group: u32) -> Result<Option<Reply>, StepFault>
        ensures ok { (pieces : List Checked) → IfOk result (λ reply. DoesStep pieces self.old self.new (MicroStep.Publish seat group) reply) }
        ensures illegal { IsErrOf result StepFault.Illegal → DoesRefuse [] self.old (MicroStep.Publish seat group) }
        ensures memory { IsErrOf result StepFault.Memory → IsLegalFor [] self.old (MicroStep.Publish seat group) }
    {
        let player = take_player(&mut self.players, seat);
        let piece = match player.piece {
            Some(piece) => piece,
            None => return Err(StepFault::Illegal),
        };
        if group >= self.store.groups() || !self.is_filled(seat, group, &piece) {
            return Err(StepFault::Illegal);
        }
        let reply = match self.store.commit(seat, group, &piece) {
            Ok(committed) => Reply::Committed(committed),
            Err(_) => return Err(StepFault::Memory),
        };
        put_player(&mut self.players, player)?;
        Ok(Some(reply))
    }

    // Whether all words were written of each chunk of the group that the seat claims and the piece holds.
    fn is_filled(&self, seat: u32, group: u32, piece: &Checked<'_>) -> bool
        requires { group < 1024 }
        ensures { IsTrue result ↔ IsAllMarked self.now.store self.now.written.items seat group piece.now }
    {
        let base = self.store.fixed().base;
        for j in 0..64u32 {
            let chunk = GROUP_LEN * group + j;
            if self.store.has_claim(seat, chunk)
                && is_in(piece, base, u64::from(chunk))
                && !is_written(self.written.as_slice(), chunk)
            {
                return false;
            }
        }
        true
    }

    fn give_back(&mut self, seat: u32, group: u32, mask: u64) -> Result<Option<Reply>, StepFault>
        ensures ok { (pieces : List Checked) → IfOk result (λ reply. DoesStep pieces self.old self.new (MicroStep.GiveBack seat group mask) reply) }
        ensures illegal { IsErrOf result StepFault.Illegal → DoesRefuse [] self.old (MicroStep.GiveBack seat group mask) }
        ensures memory { IsErrOf result StepFault.Memory → IsLegalFor [] self.old (MicroStep.GiveBack seat group mask) }
    {
        if group >= self.store.groups() {
            return Err(StepFault::Illegal);
        }
        let given = self.store.give(seat, group, mask);
        unmark_group(self.written.as_mut_slice(), group, given);
        Ok(Some(Reply::Given(given)))
    }

    fn load(&mut self, seat: u32, at: u64, len: u32) -> Result<Option<Reply>, StepFault>
        ensures ok { (pieces : List Checked) → IfOk result (λ reply. DoesStep pieces self.old self.new (MicroStep.Load seat at len) reply) }
        ensures illegal { IsErrOf result StepFault.Illegal → DoesRefuse [] self.old (MicroStep.Load seat at len) }
        ensures memory { IsErrOf result StepFault.Memory → IsLegalFor [] self.old (MicroStep.Load seat at len) }
    {
        let Player {
            number,
            piece,
            reading,
        } = take_player(&mut self.players, seat);
        let before = Reading::begun(self.alloc, reading, at, len);
        if len > MAX_READ || !before.is_of(at, len) {
            return Err(StepFault::Illegal);
        }
        let from = before.position();
        let after = before.carry_on(self.alloc, &self.store)?;
        let is_last = after.is_over(&self.store, from);
        let (reply, reading) = after.outcome(is_last);
        let player = Player {
            number,
            piece,
            reading,
        };
        put_player(&mut self.players, player)?;
        Ok(reply)
    }

    fn settle(&mut self, seat: u32) -> Result<Option<Reply>, StepFault>
        ensures ok { (pieces : List Checked) → IfOk result (λ reply. DoesStep pieces self.old self.new (MicroStep.Settle seat) reply) }
        ensures illegal { IsErrOf result StepFault.Illegal → DoesRefuse [] self.old (MicroStep.Settle seat) }
        ensures memory { IsErrOf result StepFault.Memory → IsLegalFor [] self.old (MicroStep.Settle seat) }
    {
        let player = take_player(&mut self.players, seat);
        let piece = match player.piece {
            Some(piece) => piece,
            None => return Err(StepFault::Illegal),
        };
        let tail = match piece.tail() {
            Some(tail) => tail,
            None => return Err(StepFault::Illegal),
        };
        let answer = self.store.settle(&tail);
        put_player(&mut self.players, player)?;
        Ok(Some(Reply::Settling(answer)))
    }

    fn length(&self) -> Reply
        ensures { (pieces : List Checked) (seat : ℕ) → DoesStep pieces self.now self.now (MicroStep.Length seat) (Some result) }
    {
        Reply::LengthIs(self.store.length())
    }

    /// Runs a step, and returns its reply, if it has one.
    ///
    /// Refuses with 702 `Illegal` exactly if the step isn't legal, and with 701 `Memory` only if it is. After a
    /// refusal the state of the run is unspecified: drop it.
    pub fn step(
        &mut self,
        pieces: &[Checked<'a>],
        step: &MicroStep,
    ) -> Result<Option<Reply>, StepFault>
        ensures ok { IfOk result (λ reply. DoesStep pieces.now self.old self.new step.now reply) }
        ensures illegal { IsErrOf result StepFault.Illegal → DoesRefuse pieces.now self.old step.now }
        ensures memory { IsErrOf result StepFault.Memory → IsLegalFor pieces.now self.old step.now }
    {
        match *step {
            MicroStep::Claim { seat, group, want } => self.claim(seat, group, want),
            MicroStep::Hash { seat, piece } => self.hash(pieces, seat, piece),
            MicroStep::Write { seat, chunk, word } => self.write(seat, chunk, word),
            MicroStep::Publish { seat, group } => self.publish(seat, group),
            MicroStep::GiveBack { seat, group, mask } => self.give_back(seat, group, mask),
            MicroStep::Load { seat, at, len } => self.load(seat, at, len),
            MicroStep::Settle { seat } => self.settle(seat),
            MicroStep::Length { .. } => Ok(Some(self.length())),
        }
    }
}

/// Runs a schedule from the empty store, and returns the replies of its steps in order, and the store after the
/// last.
///
/// A seat is a number. It may have a current slice, words written from that slice, claims, and a read in
/// progress.
///
/// Refuses with 802 `Capacity` unless `capacity` is 1 to 65,536 chunks. Otherwise refuses with whichever comes
/// first: 702 `Illegal` with the index (from 0) of the first step that isn't legal, or 701 `Memory` at a legal
/// step. No store is then returned.
///
/// For every blob with the hash `root`, each held chunk is the blob's chunk of that index, and a recorded
/// length is the blob's; or the contract exhibits a collision, two different inputs with the same chaining
/// value, one from the blob and one from the element of `pieces` from which the schedule committed the chunk,
/// or by which it settled the length.
pub fn replay(
    alloc: Global,
    root: Hash,
    mode: Mode,
    capacity: u32,
    pieces: &[Checked<'_>],
    steps: &[MicroStep],
) -> Result<(Vec<Reply>, Store), ReplayFault>
    ensures capacity { IsErrOf result Capacity ↔ ((capacity ≡ 0) ⊎ (65536 < capacity)) }
    ensures ok { IfOk result (λ r. IsReplayed (record { root = root; mode = mode; capacity = capacity; base = 0 }) pieces.now steps.now r.0.items r.1) }
    ensures illegal { (i : ℕ) → IsErrOf result (Illegal i) → IsIllegalAt (record { root = root; mode = mode; capacity = capacity; base = 0 }) pieces.now steps.now i }
    ensures memory { IsErrOf result Memory → BeginsLegally (record { root = root; mode = mode; capacity = capacity; base = 0 }) pieces.now steps.now }
    ensures binds { IfOk result (λ r. ReplayBinds (record { root = root; mode = mode; capacity = capacity; base = 0 }) pieces.now steps.now r.0.items r.1) }
{
    let mut run = match ScheduleRun::new(alloc, root, mode, capacity) {
        Ok(run) => run,
        Err(BadCapacity) => return Err(ReplayFault::Capacity),
    };
    let mut replies = Vec::new(alloc);
    for i in 0..steps.len() {
        match run.step(pieces, &steps[i]) {
            Ok(reply) => add(&mut replies, reply)?,
            Err(StepFault::Memory) => return Err(ReplayFault::Memory),
            Err(StepFault::Illegal) => return Err(ReplayFault::Illegal { step: i }),
        }
    }
    Ok((replies, run.into_store()))
}
