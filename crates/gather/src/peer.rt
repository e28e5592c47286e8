ghost use Rattle.std.specs.Prelude.{◌≡◌, ◌<◌, ◌≤◌, ◌++◌, ℕ, List, [], IsErrOf, OnErr, OnOk};
ghost use Rattle.store_core.specs.declared.history.Serving.TheVariants.{Text};
ghost use Rattle.store_core.specs.Histories.{state_after};
ghost use Rattle.store_core.specs.Serves.{serving};
ghost use Rattle.store_shared.specs.Seats.{IsSeatOf};

use holders::{Holder, HolderFault};
use std::marker::Model;
use store_shared::{Assembly, Seat, ServeFault};

/// A holder of the slices that a shared store serves, which may be unfinished, by a seat of it.
#[derive(Drop)]
pub struct Peer<'a> {
    assembly: &'a Assembly,
    seat: Seat,
}

impl<'a> Model for Peer<'a> {
    ghost use Rattle.gather.specs.Peers.{Peered};
    ghost use Rattle.store_shared.specs.Seats.{IsSeatOf};

    ghost Value = { Peered };

    ghost view = { λ p. record { assembly = p.assembly.now; seat = p.seat } };

    ghost invariant = { λ p. IsSeatOf p.assembly.now p.seat };
}

impl<'a> Peer<'a> {
    /// Returns a holder of what this store serves, by a seat of it.
    pub fn new(assembly: &'a Assembly, seat: Seat) -> Peer<'a>
        requires of { IsSeatOf assembly.now seat }
        ensures assembly { result.assembly ≡ assembly.now }
        ensures seat { result.seat ≡ seat }
    {
        Peer { assembly, seat }
    }

    /// Returns the seat.
    pub fn into_seat(self) -> Seat
        ensures seat { result ≡ self.entry.seat }
        ensures of { IsSeatOf self.entry.assembly result }
    {
        let Peer { seat, .. } = self;
        seat
    }
}

impl<'a> Holder for Peer<'a> {
    ghost use Rattle.holders.specs.declared.holder.HolderFault.TheVariants.{Device};
    ghost use Rattle.holders.specs.Holders.{Appends, GivesNoMore};
    ghost use Rattle.gather.specs.Peers.{Fetches, MayServe, Starves};

    ghost count = { λ _. 0 };

    ghost gives = { λ peer start len text. MayServe peer start len text };

    /// Appends the slice that the store serves, or nothing if it has no length or lacks a node. It has no
    /// device that fails.
    ///
    /// If the seat has seen a length recorded and all nodes of the slice held, that slice's encoding is
    /// appended. What is appended, unless empty, is the slice of every blob with the store's root; or a
    /// collision is exhibited: two different inputs with the same chaining value, one from the blob and one
    /// from the slice that a node or the recorded length came from. Under any root it is accepted as that
    /// slice, or two such slices contradict each other, as `Assembly::serve_slice` says.
    ///
    /// A peer may give as a slice only what its store answers after what the seat has seen and whatever legally
    /// follows. Once the seat has seen a length recorded and all nodes of a slice held, that is this slice alone.
    fn fetch(&mut self, start: u64, len: u64, into: &mut Vec<u8>) -> Result<(), HolderFault>
        ensures appended { OnOk result (Appends (MayServe self.old start len) into.old.items into.new.items) }
        ensures no_more { GivesNoMore MayServe self.old self.new }
        ensures unchanged { OnErr result (into.new.items ≡ into.old.items) }
        ensures device { IsErrOf result Device → 0 < 0 }
        ensures lost { IsErrOf result Device → MayServe self.old start len [] }
        ensures counts { 0 ≤ 0 }
        ensures same { self.new.assembly ≡ self.old.assembly }
        ensures gives { OnOk result ((text : List ℕ) → serving (state_after self.old.seat.view.seen) start len ≡ Text text → into.new.items ≡ into.old.items ++ text) }
        ensures fetches { OnOk result (Fetches start len into.old.items into.new.items self.old.seat.view self.new.seat.view) }
        ensures starves { OnErr result (Starves start len self.old.seat.view self.new.seat.view) }
    {
        let text = match self.assembly.serve_slice(&mut self.seat, start, len) {
            Ok(text) => text,
            Err(ServeFault::NoLength) => return Ok(()),
            Err(ServeFault::Lacking(_)) => return Ok(()),
            Err(ServeFault::Memory) => return Err(HolderFault::Memory),
        };
        if into.is_empty() {
            // The vector itself is handed over: nothing is copied twice.
            *into = text;
            return Ok(());
        }
        match into.extend_from_slice(text.as_slice()) {
            Ok(()) => Ok(()),
            Err(_) => Err(HolderFault::Memory),
        }
    }

    fn faults(&self) -> u64 {
        0
    }
}
