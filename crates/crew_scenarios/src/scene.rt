use crate::faults::faults;
use crate::fetches::fetches;
use crate::holder::{Asked, holder_of};
use crate::line::{mode, number, short, words};
use crate::place::Place;
use crate::texts::{Texts, told};
use anyhow::{Context, Result, bail};
use b3tree::Hash;
use bao_check::check_slice;
use gather::{FinishFault, Report, finish_one, run_one};
use hex::FromHex;
use std::alloc::Global;
use std::thread::Threads;
use store_core::{Missing, Settling, Store};

// The most bytes that one read asks for.
const MOST_READ: u64 = 1 << 20;

// What the lines before have made: texts, shared stores, and one of one thread.
#[derive(Drop)]
pub struct Scene {
    texts: Texts,
    places: [Option<Place>; 4],
    alone: Option<Store>,
}

// What one worker did, or several together.
fn reported(alloc: Global, report: Report, workers: u64) -> Result<String> {
    let Report {
        committed,
        parents,
        asked,
        refused,
        failed,
        memory,
        too_large,
    } = report;
    let said = format!(in alloc; "committed {committed}, parents {parents}")?;
    let large = if too_large { ", too large" } else { "" };
    if workers > 1 {
        return Ok(format!(in alloc; "{said}{large}")?);
    }
    let met = format!(in alloc;
        "asked {asked}, refused {refused}, failed {failed}, memory {memory}"
    )?;
    Ok(format!(in alloc; "{said}, {met}{large}")?)
}

fn finished(alloc: Global, ended: Result<Vec<u8>, FinishFault>) -> Result<String> {
    match ended {
        Ok(blob) => told(alloc, blob.as_slice()),
        Err(fault) => Ok(format!(in alloc; "{fault}")?),
    }
}

// A list of holders that these words say.
fn list<'a>(alloc: Global, texts: &'a Texts, words: &[&str]) -> Result<Vec<Asked<'a>>> {
    let mut holders = Vec::new(alloc);
    for word in words {
        holders.push(holder_of(alloc, texts, word)?)?;
    }
    Ok(holders)
}

// Such a list for each of so many workers.
fn lists<'a>(
    alloc: Global,
    texts: &'a Texts,
    workers: u64,
    words: &[&str],
) -> Result<Vec<Vec<Asked<'a>>>> {
    let mut lists = Vec::new(alloc);
    for _ in 0..workers.min(64) {
        lists.push(list(alloc, texts, words)?)?;
    }
    Ok(lists)
}

// A store's number, and the words after it.
fn store_of<'a, 'b>(words: &'b [&'a str]) -> Result<(usize, &'b [&'a str])> {
    let (first, rest) = words.split_first().context("a store")?;
    Ok((short(first)? as usize, rest))
}

// The outboard encoding beside which workers are to work, where they are, and the words after it.
fn beside<'a, 'b, 'c>(
    texts: &'a Texts,
    name: &str,
    words: &'b [&'c str],
) -> Result<(Option<&'a [u8]>, &'b [&'c str])> {
    if name == "work" {
        return Ok((None, words));
    }
    let (outline, rest) = words.split_first().context("an outboard encoding")?;
    Ok((Some(texts.get(outline)?), rest))
}

// What so many workers do, with the holders that these words say.
fn worked<R: Threads + Sync>(
    rt: &R,
    alloc: Global,
    texts: &Texts,
    name: &str,
    place: Place,
    count: u64,
    words: &[&str],
) -> Result<(Place, Report)> {
    let (outline, words) = beside(texts, name, words)?;
    let lists = lists(alloc, texts, count, words)?;
    place.work(rt, alloc, outline, lists)
}

fn settled(alloc: Global, texts: &Texts, place: &mut Place, text: &str) -> Result<String> {
    let (mode, root) = (texts.mode, texts.root);
    let piece = check_slice(alloc, &mode, &root, u64::MAX, 1, texts.get(text)?)?;
    let settled = place.settle(&piece)? == Settling::Settled;
    Ok(format!(in alloc; "settled {settled}")?)
}

fn read(alloc: Global, place: &mut Place, at: u64, len: u64) -> Result<String> {
    let mut out = vec![in alloc; 9u8; len.min(MOST_READ) as usize]?;
    match place.read(at, out.as_mut_slice()) {
        Ok(()) => told(alloc, out.as_slice()),
        Err(Missing(position)) => Ok(format!(in alloc; "missing {position}")?),
    }
}

impl Scene {
    pub fn new(alloc: Global) -> Result<Scene> {
        Ok(Scene {
            texts: Texts::new(alloc),
            places: [None, None, None, None],
            alone: None,
        })
    }

    // Does what a line says, and answers the reply.
    pub fn reply<R: Threads + Sync>(
        &mut self,
        rt: &R,
        alloc: Global,
        line: &str,
    ) -> Result<String> {
        if line.is_empty() || line.starts_with('#') {
            return Ok(String::new(alloc));
        }
        let (name, rest) = line.split_once(' ').unwrap_or((line, ""));
        let said = words(alloc, rest)?;
        self.done(rt, alloc, name, rest, said.as_slice())
    }

    // What a name and its words ask for.
    fn done<R: Threads + Sync>(
        &mut self,
        rt: &R,
        alloc: Global,
        name: &str,
        rest: &str,
        said: &[&str],
    ) -> Result<String> {
        match name {
            "mode" | "blob" | "root" | "top" => self.set(alloc, name, rest),
            "faults" => faults(alloc),
            "fetch" | "ranges" | "failing" | "shrinking" | "endless" => {
                fetches(alloc, &self.texts, name, said)
            }
            "alone" => self.open_one(alloc, said),
            "one" | "ended" => self.one(alloc, name, said),
            "store" => self.open(alloc, said),
            "work" | "beside" => self.work(rt, alloc, name, said),
            "over" => self.over(rt, alloc, said),
            "claims" => self.claims(alloc, said),
            "finish" | "free" | "settle" | "read" => self.ask(alloc, name, said),
            _ => self.texts.make(alloc, name, said),
        }
    }

    fn set(&mut self, alloc: Global, name: &str, rest: &str) -> Result<String> {
        match name {
            "mode" => self.texts.mode = mode(rest)?,
            "blob" => self.texts.set(alloc, number(rest)?)?,
            "root" => self.texts.root = Hash(<[u8; 32] as FromHex>::from_hex(rest)?),
            _ => self.texts.top(rest)?,
        }
        Ok(String::new(alloc))
    }

    // A new store of one thread.
    fn open_one(&mut self, alloc: Global, words: &[&str]) -> Result<String> {
        let capacity = short(words.first().context("a capacity")?)?;
        let (root, mode) = (self.texts.root, self.texts.mode);
        self.alone = Some(Store::new(alloc, root, mode, capacity)?);
        Ok(String::new(alloc))
    }

    // One worker's run of that store, or its blob.
    fn one(&mut self, alloc: Global, name: &str, words: &[&str]) -> Result<String> {
        let store = self.alone.as_mut().context("a store")?;
        if name == "ended" {
            return finished(alloc, finish_one(alloc, store));
        }
        let mut holders = list(alloc, &self.texts, words)?;
        reported(alloc, run_one(alloc, store, holders.as_mut_slice()), 1)
    }

    // The shared store with this number, which is then away.
    fn taken(&mut self, number: usize) -> Result<Place> {
        let place = self.places.get_mut(number).context("a store")?;
        place.take().context("a store that is there")
    }

    // The store is there again.
    fn put(&mut self, number: usize, place: Place) -> Result<()> {
        *self.places.get_mut(number).context("a store")? = Some(place);
        Ok(())
    }

    // A new shared store.
    fn open(&mut self, alloc: Global, words: &[&str]) -> Result<String> {
        let (store, words) = store_of(words)?;
        let capacity = short(words.first().context("a capacity")?)?;
        match Place::new(alloc, self.texts.root, self.texts.mode, capacity) {
            Ok(place) => {
                let groups = place.groups();
                self.put(store, place)?;
                Ok(format!(in alloc; "groups {groups}")?)
            }
            Err(fault) => Ok(format!(in alloc; "{fault}")?),
        }
    }

    // Workers, each with the same list of holders, beside an outboard encoding or not.
    fn work<R: Threads + Sync>(
        &mut self,
        rt: &R,
        alloc: Global,
        name: &str,
        words: &[&str],
    ) -> Result<String> {
        let (store, words) = store_of(words)?;
        let (first, words) = words.split_first().context("a number")?;
        let count = number(first)?;
        let place = self.taken(store)?;
        let (place, report) = worked(rt, alloc, &self.texts, name, place, count, words)?;
        self.put(store, place)?;
        reported(alloc, report, count)
    }

    // One worker over another store.
    fn over<R: Threads + Sync>(&mut self, rt: &R, alloc: Global, words: &[&str]) -> Result<String> {
        let (store, words) = store_of(words)?;
        let (first, _) = store_of(words)?;
        let place = self.taken(store)?;
        let other = self.taken(first)?;
        let (place, other, report) = place.work_over(rt, alloc, other)?;
        self.put(first, other)?;
        self.put(store, place)?;
        reported(alloc, report, 1)
    }

    // Another seat's claims.
    fn claims(&mut self, alloc: Global, words: &[&str]) -> Result<String> {
        let [store, group, count] = words else {
            bail!("a store, a group and a count")
        };
        let (store, group) = (short(store)? as usize, short(group)?);
        let want = u64::MAX >> (64 - number(count)?.clamp(1, 64));
        let place = self.taken(store)?;
        let (place, granted) = place.claim(group, want)?;
        self.put(store, place)?;
        let granted = granted.context("a group")?;
        Ok(format!(in alloc; "granted {granted:x}")?)
    }

    // What is asked of a store.
    fn ask(&mut self, alloc: Global, name: &str, words: &[&str]) -> Result<String> {
        let (store, words) = store_of(words)?;
        let place = self.places.get_mut(store).context("a store")?;
        let place = place.as_mut().context("a store that is there")?;
        match (name, words) {
            ("finish", []) => finished(alloc, place.finish(alloc)),
            ("free", []) => {
                let free = place.free();
                Ok(format!(in alloc; "free {free}")?)
            }
            ("settle", [text]) => settled(alloc, &self.texts, place, text),
            ("read", [at, len]) => read(alloc, place, number(at)?, number(len)?),
            _ => bail!("a command"),
        }
    }
}
