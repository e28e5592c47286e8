ghost use Rattle.std.specs.Prelude.{◌<◌, ◌≤◌, IfOk, length};

use crate::draw::Draw;
use crate::piece::Piece;
use crate::places::{put_back, put_last, take_out};
use anyhow::{Context, Result, bail};
use b3tree::{CHUNK_LEN, Hash, Mode, hash};
use bao_text::Node;
use std::alloc::Global;
use std::fmt::Display;
use store_core::{Missing, ServeFault, Settling, Store};
use store_shared::{Assembly, NewFault, Seat};

// A byte that a buffer has before it is read into.
const UNREAD: u8 = 9;

// The most bytes that one read asks for.
const MOST_READ: u64 = 1 << 20;

// The most bytes that a drawn read asks for.
const MOST_DRAWN: u64 = 3000;

// How many bytes of a digest tell bytes apart.
const SHORT: usize = 8;

// One store in two forms, and the seats of the shared one; in the other a seat is its number.
#[derive(Drop)]
pub struct Room {
    alone: Store,
    pub shared: Assembly,
    pub seats: Vec<Option<Seat>>,
}

// The reply of the store of one thread, and that of the shared one where it is another.
fn both(alloc: Global, alone: String, shared: String) -> Result<String> {
    if alone.as_str() == shared.as_str() {
        Ok(alone)
    } else {
        Ok(format!(in alloc; "{alone} alone, {shared} shared")?)
    }
}

fn masked<F: Display + Drop>(alloc: Global, word: &str, reply: Result<u64, F>) -> Result<String> {
    match reply {
        Ok(mask) => Ok(format!(in alloc; "{word} {mask:x}")?),
        Err(fault) => Ok(format!(in alloc; "{fault}")?),
    }
}

fn settling(alloc: Global, settling: Settling) -> Result<String> {
    let said = match settling {
        Settling::Settled => "settled",
        Settling::Known => "known",
        Settling::Differs => "differs",
        Settling::OtherRoot => "other root",
        Settling::TooLarge => "too large",
    };
    Ok(String::from_str(alloc, said)?)
}

fn recorded(alloc: Global, length: Option<u64>) -> Result<String> {
    match length {
        Some(length) => Ok(format!(in alloc; "length {length}")?),
        None => Ok(String::from_str(alloc, "no length")?),
    }
}

// How many bytes these are, and the first bytes of their plain hash.
pub fn told(alloc: Global, bytes: &[u8]) -> Result<String> {
    let count = bytes.len();
    let digits = hex::encode(alloc, &hash(&Mode::hash(), bytes).0[..SHORT])?;
    Ok(format!(in alloc; "{count} bytes {digits}")?)
}

// The text of a slice, or why it isn't served.
fn served(alloc: Global, reply: Result<Vec<u8>, ServeFault>) -> Result<String> {
    match reply {
        Ok(text) => told(alloc, text.as_slice()),
        Err(ServeFault::Lacking(Node::Parent(m))) => Ok(format!(in alloc; "lacking parent {m}")?),
        Err(ServeFault::Lacking(Node::Chunk(c))) => Ok(format!(in alloc; "lacking chunk {c}")?),
        Err(fault) => Ok(format!(in alloc; "{fault}")?),
    }
}

fn filled(alloc: Global, reply: Result<(), Missing>, out: &[u8]) -> Result<String> {
    let said = told(alloc, out)?;
    match reply {
        Ok(()) => Ok(said),
        Err(Missing(position)) => Ok(format!(in alloc; "missing {position}, {said}")?),
    }
}

// The claims of the second seat are the first one's.
fn hand_over(store: &mut Store, groups: u32, first: u32, second: u32) -> Result<()> {
    for group in 0..groups {
        let claims = store.give(second, group, u64::MAX);
        store.take(first, group, claims)?;
    }
    Ok(())
}

impl Room {
    ghost use Rattle.store_scenarios.specs.Rooms.{IsWell};
    ghost use Rattle.store_shared.specs.Seats.{IsSeatOf};

    // The stores of a whole blob, and the first seat.
    pub fn new(alloc: Global, root: Hash, mode: Mode, capacity: u32) -> Result<Room, NewFault>
        ensures { IfOk result IsWell }
    {
        let (shared, seat) = Assembly::new(alloc, root, mode, capacity)?;
        let Ok(alone) = Store::new(alloc, root, mode, capacity) else {
            return Err(NewFault::Capacity);
        };
        Room::of(alloc, alone, shared, seat)
    }

    // The same of the part of a blob that begins with a chunk.
    pub fn from_chunk(
        alloc: Global,
        root: Hash,
        mode: Mode,
        base: u64,
        capacity: u32,
    ) -> Result<Room, NewFault>
        ensures { IfOk result IsWell }
    {
        let (shared, seat) = Assembly::from_chunk(alloc, root, mode, base, capacity)?;
        let Ok(alone) = Store::from_chunk(alloc, root, mode, base, capacity) else {
            return Err(NewFault::Capacity);
        };
        Room::of(alloc, alone, shared, seat)
    }

    fn of(alloc: Global, alone: Store, shared: Assembly, seat: Seat) -> Result<Room, NewFault>
        requires { IsSeatOf shared seat }
        ensures { IfOk result IsWell }
    {
        let mut seats = Vec::new(alloc);
        if seats.push(Some(seat)).is_err() {
            return Err(NewFault::Memory);
        }
        Ok(Room {
            alone,
            shared,
            seats,
        })
    }

    pub fn take(&mut self, alloc: Global, number: u32, group: u32, want: u64) -> Result<String>
        requires { IsWell self.old }
        ensures { IsWell self.new }
    {
        let mut seat = take_out(&self.shared, &mut self.seats, number as usize)?;
        let shared = self.shared.take(&mut seat, group, want);
        put_back(&self.shared, &mut self.seats, number as usize, seat)?;
        let alone = self.alone.take(number, group, want);
        both(
            alloc,
            masked(alloc, "granted", alone)?,
            masked(alloc, "granted", shared)?,
        )
    }

    pub fn give(&mut self, alloc: Global, number: u32, group: u32, mask: u64) -> Result<String>
        requires { IsWell self.old }
        ensures { IsWell self.new }
    {
        let mut seat = take_out(&self.shared, &mut self.seats, number as usize)?;
        let shared = self.shared.give(&mut seat, group, mask);
        put_back(&self.shared, &mut self.seats, number as usize, seat)?;
        let alone = self.alone.give(number, group, mask);
        both(
            alloc,
            format!(in alloc; "given {alone:x}")?,
            format!(in alloc; "given {shared:x}")?,
        )
    }

    pub fn commit(
        &mut self,
        alloc: Global,
        number: u32,
        group: u32,
        piece: &Piece,
    ) -> Result<String>
        requires { IsWell self.old }
        ensures { IsWell self.new }
    {
        let piece = piece.checked(alloc)?;
        let mut seat = take_out(&self.shared, &mut self.seats, number as usize)?;
        let shared = self.shared.commit(&mut seat, group, &piece);
        put_back(&self.shared, &mut self.seats, number as usize, seat)?;
        let alone = self.alone.commit(number, group, &piece);
        both(
            alloc,
            masked(alloc, "committed", alone)?,
            masked(alloc, "committed", shared)?,
        )
    }

    // Stores the piece's parents.
    pub fn store_parents(
        &mut self,
        alloc: Global,
        number: u32,
        group: u32,
        piece: &Piece,
    ) -> Result<String>
        requires { IsWell self.old }
        ensures { IsWell self.new }
    {
        let piece = piece.checked(alloc)?;
        let mut seat = take_out(&self.shared, &mut self.seats, number as usize)?;
        let shared = self.shared.commit_parents(&mut seat, group, &piece);
        put_back(&self.shared, &mut self.seats, number as usize, seat)?;
        let alone = self.alone.commit_parents(group, &piece);
        both(
            alloc,
            masked(alloc, "stored", alone)?,
            masked(alloc, "stored", shared)?,
        )
    }

    // Serves a slice.
    pub fn serve(&mut self, alloc: Global, number: u32, start: u64, len: u64) -> Result<String>
        requires { IsWell self.old }
        ensures { IsWell self.new }
    {
        let mut seat = take_out(&self.shared, &mut self.seats, number as usize)?;
        let shared = self.shared.serve_slice(&mut seat, start, len);
        put_back(&self.shared, &mut self.seats, number as usize, seat)?;
        let alone = self.alone.serve_slice(start, len);
        both(alloc, served(alloc, alone)?, served(alloc, shared)?)
    }

    pub fn settle(&mut self, alloc: Global, number: u32, piece: &Piece) -> Result<String>
        requires { IsWell self.old }
        ensures { IsWell self.new }
    {
        let Some(tail) = piece.checked(alloc)?.tail() else {
            return Ok(String::from_str(alloc, "no tail")?);
        };
        let mut seat = take_out(&self.shared, &mut self.seats, number as usize)?;
        let shared = self.shared.settle(&mut seat, &tail);
        put_back(&self.shared, &mut self.seats, number as usize, seat)?;
        let alone = self.alone.settle(&tail);
        both(alloc, settling(alloc, alone)?, settling(alloc, shared)?)
    }

    pub fn length(&mut self, alloc: Global, number: u32) -> Result<String>
        requires { IsWell self.old }
        ensures { IsWell self.new }
    {
        let mut seat = take_out(&self.shared, &mut self.seats, number as usize)?;
        let shared = self.shared.length(&mut seat);
        put_back(&self.shared, &mut self.seats, number as usize, seat)?;
        both(
            alloc,
            recorded(alloc, self.alone.length())?,
            recorded(alloc, shared)?,
        )
    }

    pub fn read(&mut self, alloc: Global, number: u32, at: u64, len: u64) -> Result<String>
        requires { IsWell self.old }
        ensures { IsWell self.new }
    {
        if len > MOST_READ {
            bail!("a shorter range");
        }
        let mut ours = vec![in alloc; UNREAD; len as usize]?;
        let mut theirs = vec![in alloc; UNREAD; len as usize]?;
        let mut seat = take_out(&self.shared, &mut self.seats, number as usize)?;
        let shared = self.shared.read(&mut seat, at, theirs.as_mut_slice());
        put_back(&self.shared, &mut self.seats, number as usize, seat)?;
        let alone = self.alone.read(at, ours.as_mut_slice());
        let (ours, theirs) = (ours.as_slice(), theirs.as_slice());
        both(
            alloc,
            filled(alloc, alone, ours)?,
            filled(alloc, shared, theirs)?,
        )
    }

    pub fn held(&self, alloc: Global) -> Result<String> {
        let held = self.alone.held_count();
        Ok(format!(in alloc; "held {held}")?)
    }

    // Splits a seat, whose other part is the next.
    pub fn split(&mut self, alloc: Global, number: u32) -> Result<String>
        requires { IsWell self.old }
        ensures { IsWell self.new }
    {
        let seat = take_out(&self.shared, &mut self.seats, number as usize)?;
        let (first, second) = self.shared.split(seat).ok().context("a second seat")?;
        put_back(&self.shared, &mut self.seats, number as usize, first)?;
        let next = self.seats.len();
        put_last(&self.shared, &mut self.seats, second)?;
        Ok(format!(in alloc; "seat {next}")?)
    }

    // The first seat has the claims of both, and the second is away.
    pub fn join(&mut self, first: u32, second: u32) -> Result<()>
        requires { IsWell self.old }
        ensures { IsWell self.new }
    {
        let ours = take_out(&self.shared, &mut self.seats, first as usize)?;
        let theirs = take_out(&self.shared, &mut self.seats, second as usize)?;
        let joined = self.shared.join(ours, theirs);
        put_back(&self.shared, &mut self.seats, first as usize, joined)?;
        hand_over(&mut self.alone, self.shared.groups(), first, second)
    }

    pub fn meet(&mut self, first: u32, second: u32) -> Result<()>
        requires { IsWell self.old }
        ensures { IsWell self.new }
    {
        let mut ours = take_out(&self.shared, &mut self.seats, first as usize)?;
        let mut theirs = take_out(&self.shared, &mut self.seats, second as usize)?;
        self.shared.meet(&mut ours, &mut theirs);
        put_back(&self.shared, &mut self.seats, first as usize, ours)?;
        put_back(&self.shared, &mut self.seats, second as usize, theirs)
    }

    // The seat is gone, and its claims stay.
    pub fn leave(&mut self, number: u32) -> Result<()>
        requires { IsWell self.old }
        ensures { IsWell self.new }
    {
        let _seat = take_out(&self.shared, &mut self.seats, number as usize)?;
        Ok(())
    }

    // One call, drawn by chance, of a seat with a piece.
    fn drawn(&mut self, alloc: Global, draw: &mut Draw, pieces: &[Piece]) -> Result<String>
        requires { IsWell self.old }
        ensures { IsWell self.new }
    {
        let seats = (self.seats.len() as u64).max(1);
        let number = u32::try_from(draw.below(seats))?;
        let group = draw.below(u64::from(self.shared.groups()) + 1) as u32;
        let mask = draw.mask();
        let kind = draw.below(8);
        match kind {
            0 => self.take(alloc, number, group, mask),
            1 => self.give(alloc, number, group, mask),
            2 => self.length(alloc, number),
            3 | 4 => {
                let bytes = CHUNK_LEN as u64 * u64::from(self.shared.capacity());
                let at = draw.below(bytes.max(1));
                let len = draw.below(MOST_DRAWN);
                if kind == 3 {
                    self.read(alloc, number, at, len)
                } else {
                    self.serve(alloc, number, at, len)
                }
            }
            _ => {
                let index = draw.below((pieces.len() as u64).max(1)) as usize;
                let piece = pieces.get(index).context("a piece")?;
                match kind {
                    5 => self.commit(alloc, number, group, piece),
                    6 => self.store_parents(alloc, number, group, piece),
                    _ => self.settle(alloc, number, piece),
                }
            }
        }
    }

    // Calls drawn by chance; the replies are told by the hash of their lines.
    pub fn draw(&mut self, alloc: Global, seed: u64, calls: u64, pieces: &[Piece]) -> Result<String>
        requires { IsWell self.old }
        ensures { IsWell self.new }
    {
        let mut draw = Draw(seed);
        let mut replies = String::new(alloc);
        'calls: for _ in 0..calls {
            let reply = self.drawn(alloc, &mut draw, pieces)?;
            replies.push_str(reply.as_str())?;
            replies.push('\n')?;
        }
        let digits = hex::encode(alloc, &hash(&Mode::hash(), replies.as_bytes()).0[..SHORT])?;
        Ok(format!(in alloc; "{calls} replies {digits}")?)
    }
}
