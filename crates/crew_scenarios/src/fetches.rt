use crate::dealing::{Dealing, Endless};
use crate::holder::{Asked, Kind, holder_of, source_of};
use crate::line::number;
use crate::texts::{Texts, told};
use anyhow::{Context, Result, bail};
use gather::{Encoded, Holder, HolderFault, Plain};
use std::alloc::Global;

// The ranges that are asked for: nothing, one byte, the last chunk, groups, across chunks and groups, everything and more.
const RANGES: [(u64, u64); 11] = [
    (0, 0),
    (0, 1),
    (u64::MAX, 1),
    (0, 65_536),
    (131_072, 65_536),
    (196_608, 65_536),
    (262_144, 65_536),
    (1023, 2),
    (130_000, 2000),
    (199_999, 1),
    (1, u64::MAX),
];

// What a holder appends to two bytes that are there, with these.
fn appended<H: Holder>(alloc: Global, holder: &mut H, start: u64, len: u64) -> Result<Vec<u8>> {
    let mut text = vec![in alloc; 1, 2]?;
    holder.fetch(start, len, &mut text)?;
    Ok(text)
}

fn fetch(alloc: Global, texts: &Texts, word: &str, start: u64, len: u64) -> Result<String> {
    let mut holder = holder_of(alloc, texts, word)?;
    match appended(alloc, &mut holder, start, len) {
        Ok(text) => told(alloc, text.as_slice()),
        Err(fault) => Ok(format!(in alloc; "{fault}")?),
    }
}

// What it appends for all ranges, one after another.
fn ranges(alloc: Global, texts: &Texts, word: &str) -> Result<String> {
    let mut all = Vec::new(alloc);
    for (start, len) in RANGES {
        let mut holder = holder_of(alloc, texts, word)?;
        all.extend_from_slice(appended(alloc, &mut holder, start, len)?.as_slice())?;
    }
    told(alloc, all.as_slice())
}

// The source as a holder at places.
fn placed<'a>(kind: &str, source: Dealing<'a>) -> Result<Asked<'a>> {
    match kind {
        "encoded_at" => Ok(Asked::of(Kind::EncodedAt(source))),
        "plain_at" => Ok(Asked::of(Kind::PlainAt(source))),
        _ => bail!("a kind"),
    }
}

// How many reads a fetch makes, by holders that count faults themselves.
fn reads(alloc: Global, kind: &str, source: &Dealing<'_>, start: u64, len: u64) -> Result<u64> {
    if kind == "encoded_at" {
        appended(alloc, &mut Encoded::at(source), start, len)?;
    } else {
        appended(alloc, &mut Plain::at(source), start, len)?;
    }
    Ok(source.reads())
}

// Whether a holder of which one read fails refuses a fetch, with nothing appended, and appends what is expected at the next one.
fn recovers(
    alloc: Global,
    mut holder: Asked<'_>,
    start: u64,
    len: u64,
    expected: &[u8],
) -> Result<bool> {
    let mut text = vec![in alloc; 1, 2]?;
    let refused = holder.fetch(start, len, &mut text);
    if refused != Err(HolderFault::Device) || text.as_slice() != [1, 2].as_slice() {
        return Ok(false);
    }
    let again = appended(alloc, &mut holder, start, len)?;
    Ok(again.as_slice() == expected && holder.faults() == 1)
}

// What a holder that is never refused appends.
fn unharmed(
    alloc: Global,
    texts: &Texts,
    kind: &str,
    word: &str,
    start: u64,
    len: u64,
) -> Result<Vec<u8>> {
    let mut holder = placed(kind, source_of(alloc, texts, word)?)?;
    appended(alloc, &mut holder, start, len)
}

// A holder of which the read with this number fails.
fn failing_at<'a>(
    alloc: Global,
    texts: &'a Texts,
    kind: &str,
    word: &str,
    fails: u64,
) -> Result<Asked<'a>> {
    let mut source = source_of(alloc, texts, word)?;
    source.fails = fails;
    placed(kind, source)
}

// How many of so many reads each fail once.
fn failed(
    alloc: Global,
    texts: &Texts,
    kind: &str,
    word: &str,
    count: u64,
    start: u64,
    len: u64,
) -> Result<u64> {
    let expected = unharmed(alloc, texts, kind, word, start, len)?;
    let mut right = 0u64;
    for fails in 0..count {
        let holder = failing_at(alloc, texts, kind, word, fails)?;
        if recovers(alloc, holder, start, len, expected.as_slice())? {
            right = right.saturating_add(1);
        }
    }
    Ok(right)
}

// A fetch of which one read fails, each of them in turn: that is a fault of the device, and nothing is appended. The next one goes
// well.
fn failing(alloc: Global, texts: &Texts, word: &str, start: u64, len: u64) -> Result<String> {
    let (kind, word) = word.split_once(':').context("a source")?;
    let count = reads(alloc, kind, &source_of(alloc, texts, word)?, start, len)?;
    let right = failed(alloc, texts, kind, word, count, start, len)?;
    if count > 1 && right == count {
        Ok(String::from_str(alloc, "each read fails once")?)
    } else {
        Ok(format!(in alloc; "{right} of {count} reads")?)
    }
}

// What a holder over an encoding at places appends, and how many faults it then counts.
fn encoded(alloc: Global, source: &Dealing<'_>, start: u64, len: u64) -> Result<(Vec<u8>, u64)> {
    let mut holder = Encoded::at(source);
    let text = appended(alloc, &mut holder, start, len)?;
    Ok((text, holder.faults()))
}

// What comes of a source that shrinks while it is read, beside what it has whole.
fn shrinking(alloc: Global, texts: &Texts, words: &[&str]) -> Result<String> {
    let [text, word, start, len] = words else {
        bail!("a text, a source and a range")
    };
    let (start, len) = (number(start)?, number(len)?);
    let (expected, _) = encoded(alloc, &Dealing::of(texts.get(text)?), start, len)?;
    let (got, faults) = encoded(alloc, &source_of(alloc, texts, word)?, start, len)?;
    let said = if !expected.as_slice().starts_with(got.as_slice()) || faults != 0 {
        "other bytes"
    } else if got.len() < expected.len() {
        "a beginning"
    } else {
        "all"
    };
    Ok(String::from_str(alloc, said)?)
}

// The length that a stranger claims takes no room.
fn endless(alloc: Global, start: u64, len: u64) -> Result<String> {
    let mut text = Vec::new(alloc);
    Encoded::at(&Endless).fetch(start, len, &mut text)?;
    let count = text.len();
    let room = if text.capacity() < 1 << 18 {
        "little"
    } else {
        "much"
    };
    Ok(format!(in alloc; "{count} bytes, in {room} room")?)
}

pub fn fetches(alloc: Global, texts: &Texts, name: &str, words: &[&str]) -> Result<String> {
    match (name, words) {
        ("ranges", [word]) => ranges(alloc, texts, word),
        ("fetch", [word, start, len]) => fetch(alloc, texts, word, number(start)?, number(len)?),
        ("failing", [word, start, len]) => failing(
            alloc,
            texts,
            word,
            number(start)?,
            number(len)?,
        ),
        ("shrinking", _) => shrinking(alloc, texts, words),
        ("endless", [start, len]) => endless(alloc, number(start)?, number(len)?),
        _ => bail!("a fetch"),
    }
}
