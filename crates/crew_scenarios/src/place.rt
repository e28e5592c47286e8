ghost use Rattle.std.specs.Prelude.{All, IfOk};
ghost use Rattle.store_shared.specs.Seats.{IsSeatOf};

use crate::holder::{Asked, Kind};
use anyhow::{Context, Result, bail};
use b3tree::{Hash, Mode};
use bao_check::{Checked, check_outboard};
use gather::{Crew, FinishFault, Holder, Open, Peer, Report, finish, run, run_bare};
use std::alloc::Global;
use std::marker::Model;
use std::thread::Threads;
use store_core::{Missing, Settling};
use store_shared::{Assembly, NewFault, Seat};

// A crew for each list of holders, with a seat that is split off this one, which stays.
fn crews_of<H: Holder + Drop>(
    alloc: Global,
    assembly: &Assembly,
    mut seat: Seat,
    lists: Vec<Vec<H>>,
) -> Result<(Seat, Vec<Crew<H>>)>
    requires { IsSeatOf assembly.now seat }
    ensures seat { IfOk result (λ made. IsSeatOf assembly.now made.0) }
    ensures crews { IfOk result (λ made. All (λ crew. IsSeatOf assembly.now crew.seat) made.1.items) }
{
    let mut crews = Vec::with_capacity(alloc, lists.len())?;
    for holders in lists {
        let (stays, new) = split(assembly, seat)?;
        seat = stays;
        crews.push(Crew::new(new, holders))?;
    }
    Ok((seat, crews))
}

// A second seat, split off this one.
fn split(assembly: &Assembly, seat: Seat) -> Result<(Seat, Seat)>
    requires { IsSeatOf assembly.now seat }
    ensures { IfOk result (λ seats. IsSeatOf assembly.now seats.0 × IsSeatOf assembly.now seats.1) }
{
    match assembly.split(seat) {
        Ok(seats) => Ok(seats),
        Err(_) => bail!("a second seat"),
    }
}

// One list of one holder, a peer with this seat.
fn peers<'a>(alloc: Global, assembly: &'a Assembly, seat: Seat) -> Result<Vec<Vec<Asked<'a>>>>
    requires { IsSeatOf assembly.now seat }
{
    let peer = Kind::Peer(Peer::new(assembly, seat));
    let holders = vec![in alloc; Asked::of(peer)]?;
    Ok(vec![in alloc; holders]?)
}

// Has 1 to 64 crews work.
fn worked<R: Threads + Sync, H: Holder + Send>(
    rt: &R,
    alloc: Global,
    assembly: &Assembly,
    outline: Option<&[u8]>,
    crews: &mut [Crew<H>],
) -> Result<Report>
    requires { All (λ crew. IsSeatOf assembly.now crew.seat) crews.old }
{
    if crews.is_empty() || crews.len() > 64 {
        bail!("1 to 64 workers");
    }
    let Some(outline) = outline else {
        return Ok(run(rt, alloc, assembly, crews, &Open));
    };
    let (root, mode) = (assembly.root(), assembly.mode());
    let outline = check_outboard(alloc, &mode, &root, outline)?;
    Ok(run_bare(rt, alloc, assembly, &outline, crews, &Open))
}

// How many chunks a seat can take, which it then gives back.
fn free(assembly: &Assembly, seat: &mut Seat) -> u32
    requires { IsSeatOf assembly.now seat.old }
    ensures { IsSeatOf assembly.now seat.new }
{
    let mut taken = 0u32;
    for group in 0..assembly.groups() {
        if let Ok(granted) = assembly.take(seat, group, u64::MAX) {
            taken = taken.saturating_add(granted.count_ones());
            assembly.give(seat, group, granted);
        }
    }
    taken
}

// A shared store, and a seat of it. Contracts see the store.
#[derive(Drop)]
pub struct Place {
    assembly: Assembly,
    seat: Seat,
}

impl Model for Place {
    ghost use Rattle.store_shared.specs.Seats.{IsSeatOf};
    ghost use Rattle.store_shared.specs.declared.assembly.Assembly.{Assembly};

    ghost Value = { Assembly };

    ghost view = { λ place. place.assembly };

    ghost invariant = { λ place. IsSeatOf place.assembly place.seat };
}

impl Place {
    pub fn new(alloc: Global, root: Hash, mode: Mode, capacity: u32) -> Result<Place, NewFault> {
        let (assembly, seat) = Assembly::new(alloc, root, mode, capacity)?;
        Ok(Place { assembly, seat })
    }

    pub fn groups(&self) -> u32 {
        self.assembly.groups()
    }

    // Each list is of one worker's holders, of plain copies where there is an outboard encoding.
    pub fn work<R: Threads + Sync, H: Holder + Drop + Send>(
        self,
        rt: &R,
        alloc: Global,
        outline: Option<&[u8]>,
        lists: Vec<Vec<H>>,
    ) -> Result<(Place, Report)> {
        let Place { assembly, seat } = self;
        let (seat, mut crews) = crews_of(alloc, &assembly, seat, lists)?;
        let report = worked(rt, alloc, &assembly, outline, crews.as_mut_slice())?;
        Ok((Place { assembly, seat }, report))
    }

    // The same of one worker whose one holder is a peer over another store.
    pub fn work_over<R: Threads + Sync>(
        self,
        rt: &R,
        alloc: Global,
        other: Place,
    ) -> Result<(Place, Place, Report)> {
        let Place { assembly, seat } = other;
        let (seat, lent) = split(&assembly, seat)?;
        let lists = peers(alloc, &assembly, lent)?;
        let (ours, report) = self.work(rt, alloc, None, lists)?;
        Ok((ours, Place { assembly, seat }, report))
    }

    pub fn finish(&mut self, alloc: Global) -> Result<Vec<u8>, FinishFault> {
        finish(alloc, &self.assembly, &mut self.seat)
    }

    // How many chunks a seat can take.
    pub fn free(&mut self) -> u32 {
        free(&self.assembly, &mut self.seat)
    }

    // Another seat takes chunks of a group, if there is one with this number, and is gone.
    pub fn claim(self, group: u32, want: u64) -> Result<(Place, Option<u64>)> {
        let Place { assembly, seat } = self;
        let (seat, mut other) = split(&assembly, seat)?;
        let granted = assembly.take(&mut other, group, want).ok();
        Ok((Place { assembly, seat }, granted))
    }

    // The piece settles the length.
    pub fn settle(&mut self, piece: &Checked<'_>) -> Result<Settling> {
        let tail = piece.tail().context("the last chunk")?;
        Ok(self.assembly.settle(&mut self.seat, &tail))
    }

    pub fn read(&mut self, at: u64, out: &mut [u8]) -> Result<(), Missing> {
        self.assembly.read(&mut self.seat, at, out)
    }
}
