ghost use Rattle.std.specs.Prelude.{◌≡◌, OnErr, OnOk};
ghost use Rattle.holders.specs.Holders.{Appends};

use crate::dealing::Dealing;
use crate::line::number;
use crate::texts::Texts;
use anyhow::{Context, Result, bail};
use gather::{Encoded, Holder, HolderFault, Peer, Plain};
use std::alloc::Global;

// What a holder is over.
#[derive(Drop)]
pub enum Kind<'a> {
    // A device that fails at each fetch.
    Broken,
    Encoded(Encoded<&'a [u8]>),
    EncodedAt(Dealing<'a>),
    Plain(Plain<&'a [u8]>),
    PlainAt(Dealing<'a>),
    Peer(Peer<'a>),
}

// What any holder appends, of which nothing is known.
fn fetched<H: Holder>(
    holder: &mut H,
    start: u64,
    len: u64,
    into: &mut Vec<u8>,
) -> Result<(), HolderFault>
    ensures appended { OnOk result (Appends (λ _. Unit {0}) into.old.items into.new.items) }
    ensures unchanged { OnErr result (into.new.items ≡ into.old.items) }
{
    holder.fetch(start, len, into)
}

impl Kind<'_> {
    fn fetch(&mut self, start: u64, len: u64, into: &mut Vec<u8>) -> Result<(), HolderFault>
        ensures appended { OnOk result (Appends (λ _. Unit {0}) into.old.items into.new.items) }
        ensures unchanged { OnErr result (into.new.items ≡ into.old.items) }
    {
        match self {
            Kind::Broken => Err(HolderFault::Device),
            Kind::Encoded(holder) => fetched(holder, start, len, into),
            Kind::EncodedAt(source) => { fetched(&mut Encoded::at(&*source), start, len, into) }
            Kind::Plain(holder) => fetched(holder, start, len, into),
            Kind::PlainAt(source) => fetched(&mut Plain::at(&*source), start, len, into),
            Kind::Peer(holder) => fetched(holder, start, len, into),
        }
    }
}

// A holder that has memory for so many fetches. Where there is one group it has that alone, and the blob's end.
#[derive(Drop)]
pub struct Asked<'a> {
    kind: Kind<'a>,
    fetches: u64,
    only: Option<u64>,
    faults: u64,
}

impl<'a> Asked<'a> {
    pub fn of(kind: Kind<'a>) -> Asked<'a> {
        Asked {
            kind,
            fetches: u64::MAX,
            only: None,
            faults: 0,
        }
    }
}

impl Holder for Asked<'_> {
    ghost count = { λ asked. asked.faults };

    ghost gives = { λ _ _ _ _. Unit {0} };

    fn fetch(&mut self, start: u64, len: u64, into: &mut Vec<u8>) -> Result<(), HolderFault> {
        if self.fetches == 0 {
            return Err(HolderFault::Memory);
        }
        self.fetches -= 1;
        if let Some(group) = self.only {
            if start != u64::MAX && start / 65_536 != group {
                return Ok(());
            }
        }
        match self.kind.fetch(start, len, into) {
            Ok(()) => Ok(()),
            Err(HolderFault::Memory) => Err(HolderFault::Memory),
            Err(HolderFault::Device) => {
                if self.faults == u64::MAX {
                    return Ok(());
                }
                self.faults += 1;
                Err(HolderFault::Device)
            }
        }
    }

    fn faults(&self) -> u64 {
        self.faults
    }
}

// Does what a pair of words says of a source.
fn deal(source: &mut Dealing<'_>, pair: &[&str]) -> Result<()> {
    match pair {
        ["most", most] => source.most = number(most)? as usize,
        ["fails", at] => source.fails = number(at)?,
        ["breaks", _] => source.breaks = true,
        ["shrinks", at] => source.shrinks = number(at)?,
        ["left", left] => source.left = number(left)? as usize,
        _ => bail!("of a source"),
    }
    Ok(())
}

// A source over a text, with what is said of it: most, fails, breaks.
pub fn source_of<'a>(alloc: Global, texts: &'a Texts, word: &str) -> Result<Dealing<'a>> {
    let parts: Vec<&str> = word.split(':').collect(alloc)?;
    let (text, pairs) = parts.as_slice().split_first().context("a text")?;
    let mut source = Dealing::of(texts.get(text)?);
    for pair in pairs.chunks(2) {
        deal(&mut source, pair)?;
    }
    Ok(source)
}

// What the kind and the text say.
fn kind_of<'a>(alloc: Global, texts: &'a Texts, word: &str) -> Result<Kind<'a>> {
    let (kind, rest) = word.split_once(':').unwrap_or((word, ""));
    Ok(match kind {
        "broken" => Kind::Broken,
        "encoded" => Kind::Encoded(Encoded::new(texts.get(rest)?)),
        "encoded_at" => Kind::EncodedAt(source_of(alloc, texts, rest)?),
        "plain" => Kind::Plain(Plain::new(texts.get(rest)?)),
        "plain_at" => Kind::PlainAt(source_of(alloc, texts, rest)?),
        _ => bail!("a holder"),
    })
}

// The holder that a word says: its kind, its text, and what is said of it.
pub fn holder_of<'a>(alloc: Global, texts: &'a Texts, word: &str) -> Result<Asked<'a>> {
    let (word, more) = word.split_once('/').unwrap_or((word, ""));
    let (fetches, only, faults) = match more.split_once(':') {
        None => (u64::MAX, None, 0),
        Some(("only", group)) => (u64::MAX, Some(number(group)?), 0),
        Some(("starves", fetches)) => (number(fetches)?, None, 0),
        Some(("counted", faults)) => (u64::MAX, None, number(faults)?),
        Some(_) => bail!("of a holder"),
    };
    Ok(Asked {
        kind: kind_of(alloc, texts, word)?,
        fetches,
        only,
        faults,
    })
}
