ghost use Rattle.std.specs.Prelude.{IfOk};

use crate::faults::faults;
use crate::line::{mask, mode, number, short, words};
use crate::piece::Piece;
use crate::room::{Room, told};
use anyhow::{Context, Result, bail};
use b3tree::{Mode, hash};
use std::alloc::Global;
use store_shared::NewFault;

// What the lines before have made, beside the room.
#[derive(Drop)]
pub struct Scene {
    mode: Mode,
    blob: Vec<u8>,
    pieces: Vec<Piece>,
}

// The bytes i mod 251.
fn counted(alloc: Global, len: u64) -> Result<Vec<u8>> {
    let mut bytes = Vec::new(alloc);
    for i in 0..len {
        bytes.push((i % 251) as u8)?;
    }
    Ok(bytes)
}

impl Scene {
    ghost use Rattle.store_scenarios.specs.Rooms.{IsWell};

    pub fn new(alloc: Global) -> Scene {
        Scene {
            mode: Mode::hash(),
            blob: Vec::new(alloc),
            pieces: Vec::new(alloc),
        }
    }

    // Does what a line says, and answers the reply: a line, or nothing.
    pub fn reply(&mut self, alloc: Global, room: &mut Room, line: &str) -> Result<String>
        requires { IsWell room.old }
        ensures { IsWell room.new }
    {
        if line.is_empty() || line.starts_with('#') {
            return Ok(String::new(alloc));
        }
        let (name, rest) = line.split_once(' ').unwrap_or((line, ""));
        let said = words(alloc, rest)?;
        match name {
            "mode" | "blob" | "bytes" | "piece" | "claim" => self.set(
                alloc,
                name,
                rest,
                said.as_slice(),
            ),
            "store" => self.open(alloc, room, said.as_slice()),
            "take" | "give" | "commit" | "settle" | "length" | "read" => self.call(
                alloc,
                room,
                name,
                said.as_slice(),
            ),
            "parents" | "serve" => self.serve(alloc, room, name, said.as_slice()),
            _ => self.sit(alloc, room, name, said.as_slice()),
        }
    }

    fn set(&mut self, alloc: Global, name: &str, rest: &str, words: &[&str]) -> Result<String> {
        match (name, words) {
            ("mode", _) => self.mode = mode(rest)?,
            ("blob", [len]) => self.blob = counted(alloc, number(len)?)?,
            ("bytes", [digits]) => self.blob = hex::decode(alloc, *digits)?,
            ("piece", [name, start, len]) => {
                let (start, len) = (number(start)?, number(len)?);
                let piece = Piece::cut(alloc, name, self.mode, self.blob.as_slice(), start, len)?;
                let said = told(alloc, piece.text.as_slice())?;
                self.pieces.retain(|it| it.name.as_str() != *name);
                self.pieces.push(piece)?;
                return Ok(said);
            }
            ("claim", [name, length]) => {
                let length = number(length)?;
                let piece = self.pieces.iter_mut().find(|it| it.name.as_str() == *name);
                let piece = piece.context("a piece")?;
                piece.claim(length)?;
                let claimed = piece.checked(alloc)?.claimed();
                return Ok(format!(in alloc; "accepted: claims {claimed}")?);
            }
            _ => bail!("a command"),
        }
        Ok(String::new(alloc))
    }

    // The stores that a line asks for: for the whole blob, or for the part that begins with a chunk.
    fn room(&self, alloc: Global, words: &[&str]) -> Result<Result<Room, NewFault>>
        ensures { IfOk result (λ made. IfOk made IsWell) }
    {
        let root = hash(&self.mode, self.blob.as_slice());
        match words {
            [capacity] => Ok(Room::new(alloc, root, self.mode, short(capacity)?)),
            [capacity, "from", base] => Ok(Room::from_chunk(
                alloc,
                root,
                self.mode,
                number(base)?,
                short(capacity)?,
            )),
            _ => bail!("a capacity"),
        }
    }

    // A new store, with one seat.
    fn open(&self, alloc: Global, room: &mut Room, words: &[&str]) -> Result<String>
        requires { IsWell room.old }
        ensures { IsWell room.new }
    {
        match self.room(alloc, words)? {
            Ok(new) => {
                *room = new;
                let groups = room.shared.groups();
                Ok(format!(in alloc; "groups {groups}")?)
            }
            Err(fault) => Ok(format!(in alloc; "{fault}")?),
        }
    }

    fn piece(&self, name: &str) -> Result<&Piece> {
        self.pieces
            .iter()
            .find(|it| it.name.as_str() == name)
            .context("a piece")
    }

    // A call of both stores.
    fn call(&self, alloc: Global, room: &mut Room, name: &str, words: &[&str]) -> Result<String>
        requires { IsWell room.old }
        ensures { IsWell room.new }
    {
        match (name, words) {
            ("take", [seat, group, want]) => room.take(
                alloc,
                short(seat)?,
                short(group)?,
                mask(want)?,
            ),
            ("give", [seat, group, given]) => room.give(
                alloc,
                short(seat)?,
                short(group)?,
                mask(given)?,
            ),
            ("commit", [seat, group, piece]) => room.commit(
                alloc,
                short(seat)?,
                short(group)?,
                self.piece(piece)?,
            ),
            ("settle", [seat, piece]) => room.settle(alloc, short(seat)?, self.piece(piece)?),
            ("length", [seat]) => room.length(alloc, short(seat)?),
            ("read", [seat, at, len]) => room.read(alloc, short(seat)?, number(at)?, number(len)?),
            _ => bail!("a call"),
        }
    }

    // Parents that are stored, and slices that are served.
    fn serve(&self, alloc: Global, room: &mut Room, name: &str, words: &[&str]) -> Result<String>
        requires { IsWell room.old }
        ensures { IsWell room.new }
    {
        match (name, words) {
            ("parents", [seat, group, piece]) => room.store_parents(
                alloc,
                short(seat)?,
                short(group)?,
                self.piece(piece)?,
            ),
            ("serve", [seat, start, len]) => room.serve(
                alloc,
                short(seat)?,
                number(start)?,
                number(len)?,
            ),
            _ => bail!("a call"),
        }
    }

    // What seats do, and what is asked of the room.
    fn sit(&self, alloc: Global, room: &mut Room, name: &str, words: &[&str]) -> Result<String>
        requires { IsWell room.old }
        ensures { IsWell room.new }
    {
        match (name, words) {
            ("split", [seat]) => return room.split(alloc, short(seat)?),
            ("join", [first, second]) => room.join(short(first)?, short(second)?)?,
            ("meet", [first, second]) => room.meet(short(first)?, short(second)?)?,
            ("drop", [seat]) => room.leave(short(seat)?)?,
            ("held", _) => return room.held(alloc),
            ("faults", _) => return faults(alloc),
            ("drawn", [seed, calls]) => return room.draw(
                alloc,
                number(seed)?,
                number(calls)?,
                self.pieces.as_slice(),
            ),
            _ => bail!("a command"),
        }
        Ok(String::new(alloc))
    }
}
