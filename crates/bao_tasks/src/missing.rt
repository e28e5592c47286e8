ghost use Rattle.std.specs.Prelude.{◌≡◌, ℕ, ◌+◌, ◌-◌, ◌*◌, ◌^◌, ◌<◌, ◌≤◌, ◌++◌, ◌∷◌, List, [], min, not, take, true, false, None, IfOk, IfSome, OnOk};
ghost use Rattle.holders.specs.Forms.{AreSlices, IsLengthOf};
ghost use Rattle.bao_tasks.specs.Missing.{AreGaps, AreParts, BeginsWithin, ClaimsIn, ClaimsLength, GoesUpTo, HasSome, HasUnit, IsLackBy, IsLackOf, IsNextGap, IsUnit, JudgesClaim, JudgesUnit, Tells, claim_in, place_of, span_len, span_of, unit_chunks, units_in};
ghost use Rattle.bao_tasks.specs.Worth.{HasChunks, IsSaidOf, JudgesGroup};

use b3par::{Source, fill};
use b3tree::CHUNK_LEN;
use bao_check::{GROUP_BYTES, GROUP_LEN};
use bao_text::{LENGTH_LEN, Memory, chunk_count, claimed};
use bao_windows::{GatherFault, Wanted, ask, certified_length};
use holders::{ByteRange, Form, Grain};
use std::alloc::{AllocError, Global};

// The most groups, or chunks, that are looked for. Whoever made the root may have certified an absurd length.
const MOST_UNITS: u64 = 1 << 22;

// The most groups, or chunks, that are tried to see whether a length that a source claims holds.
const MOST_TRIED: u64 = 64;

/// A range of a blob: the bytes from offset `at` up to but not including `end`.
#[derive(Clone, Copy, Debug, PartialEq, Eq)]
pub struct Span {
    pub at: u64,
    pub end: u64,
}

/// What no source has of a blob, as ranges that don't touch each other.
#[derive(Debug, Drop)]
pub struct MissingParts {
    /// The length of the blob in bytes.
    pub total: u64,
    /// Whether a source certifies that length. Otherwise the outboard encoding, or a source, only claims it.
    pub certified: bool,
    /// How many bytes, from the beginning on, were looked for: all, if it has at most 2^22 groups, or chunks.
    pub looked: u64,
    /// The first ranges in order, at most as many as were asked for.
    pub shown: Vec<Span>,
    /// How many ranges there are.
    pub count: u64,
    /// How many bytes they have together.
    pub bytes: u64,
}

/// What is known about why a blob stayed unfinished.
#[derive(Debug, Drop)]
pub enum Lack {
    /// It wasn't looked for.
    Unasked,
    /// There was no memory to look for it.
    Starved,
    /// No source certifies the length of the blob, and none claims one that holds.
    End,
    /// No source has these ranges of it.
    Missing(MissingParts),
}

// Returns whether a source lacks one of at most `most` chunks from chunk `first` on.
pub(crate) fn lacks_part<S: Source>(
    alloc: Global,
    wanted: &Wanted<'_>,
    source: &S,
    first: u64,
    most: u64,
    room: &mut Vec<u8>,
) -> Result<bool, Memory>
    requires first { BeginsWithin wanted.now.form first }
    requires some { 0 < most }
    requires few { most ≤ 64 }
    ensures { IfOk result (λ lacks. IsSaidOf (S.contents source.now) (S.faultless source.now) (λ bytes. JudgesGroup lacks (HasChunks wanted.now.form wanted.now.mode wanted.now.root.0 first most bytes))) }
{
    let range = ByteRange {
        start: CHUNK_LEN as u64 * first,
        len: CHUNK_LEN as u64 * most,
    };
    match ask(alloc, wanted, source, range, room) {
        Ok(found) => Ok(found.is_none()),
        Err(AllocError) => Err(Memory),
    }
}

// How many chunks a unit has: a group or a chunk.
fn unit_chunks(grain: Grain) -> u64
    ensures value { result ≡ unit_chunks grain }
    ensures some { 0 < result }
    ensures few { result ≤ 64 }
{
    match grain {
        Grain::Group => GROUP_LEN,
        Grain::Chunk => 1,
    }
}

// Returns whether a source lacks a unit.
fn lacks_unit<S: Source>(
    alloc: Global,
    wanted: &Wanted<'_>,
    source: &S,
    unit: u64,
    room: &mut Vec<u8>,
) -> Result<bool, Memory>
    requires { IsUnit wanted.now unit }
    ensures { IfOk result (λ lacks. IsSaidOf (S.contents source.now) (S.faultless source.now) (λ bytes. JudgesGroup lacks (HasUnit wanted.now unit bytes))) }
{
    let most = unit_chunks(wanted.grain);
    lacks_part(alloc, wanted, source, most * unit, most, room)
}

// Returns whether all sources lack a unit. They are asked in order, up to the first that has it.
fn is_lacked<S: Source>(
    alloc: Global,
    wanted: &Wanted<'_>,
    sources: &[S],
    unit: u64,
    room: &mut Vec<u8>,
) -> Result<bool, Memory>
    requires { IsUnit wanted.now unit }
    ensures { IfOk result (λ lacked. JudgesUnit S.contents S.faultless wanted.now sources.now unit lacked) }
{
    for source in sources {
        if !lacks_unit(alloc, wanted, source, unit, room)? {
            return Ok(false);
        }
    }
    Ok(true)
}

// Returns the first unit from `from` on that all sources lack, or with `lacked` the first that some source has; or
// `units` if there is none.
fn up_to<S: Source>(
    alloc: Global,
    wanted: &Wanted<'_>,
    sources: &[S],
    units: u64,
    from: u64,
    lacked: bool,
    room: &mut Vec<u8>,
) -> Result<u64, Memory>
    requires from { from ≤ units }
    requires units { (u : ℕ) → u < units → IsUnit wanted.now u }
    ensures { IfOk result (GoesUpTo (JudgesUnit S.contents S.faultless wanted.now sources.now) units lacked (not lacked) from) }
{
    let mut at = from;
    'units: while at < units {
        if is_lacked(alloc, wanted, sources, at, room)? != lacked {
            return Ok(at);
        }
        at += 1;
    }
    Ok(at)
}

// Returns the next units from `from` on that all sources lack: the first, and the one after the last.
fn next_gap<S: Source>(
    alloc: Global,
    wanted: &Wanted<'_>,
    sources: &[S],
    units: u64,
    from: u64,
    room: &mut Vec<u8>,
) -> Result<Option<(u64, u64)>, Memory>
    requires from { from ≤ units }
    requires units { (u : ℕ) → u < units → IsUnit wanted.now u }
    ensures none { IfOk result (λ gap. gap ≡ None → AreGaps (JudgesUnit S.contents S.faultless wanted.now sources.now) units from []) }
    ensures some { IfOk result (λ gap. IfSome gap (λ gap. IsNextGap (JudgesUnit S.contents S.faultless wanted.now sources.now) units from gap.0 gap.1)) }
{
    let first = up_to(alloc, wanted, sources, units, from, false, room)?;
    if first >= units {
        return Ok(None);
    }
    let end = up_to(alloc, wanted, sources, units, first + 1, true, room)?;
    Ok(Some((first, end)))
}

// How many units of a blob of `total` bytes are looked for.
fn units_of(grain: Grain, total: u64) -> u64
    ensures { result ≡ units_in grain total }
{
    match grain {
        Grain::Group => chunk_count(total).div_ceil(GROUP_LEN).min(MOST_UNITS),
        Grain::Chunk => chunk_count(total).min(MOST_UNITS),
    }
}

// The offset of a unit in a blob of `total` bytes, or `total` if the unit is past the end.
fn place_of(grain: Grain, total: u64, unit: u64) -> u64
    ensures { result ≡ place_of grain total unit }
{
    match grain {
        Grain::Group => GROUP_BYTES.saturating_mul(unit).min(total),
        Grain::Chunk => (CHUNK_LEN as u64).saturating_mul(unit).min(total),
    }
}

// The range of these units in a blob of `total` bytes.
fn bytes_of(grain: Grain, total: u64, gap: (u64, u64)) -> Span
    ensures { result ≡ span_of grain total gap }
{
    Span {
        at: place_of(grain, total, gap.0),
        end: place_of(grain, total, gap.1),
    }
}

impl MissingParts {
    // Adds a range to those shown, if these are fewer than `most`.
    fn show(&mut self, most: usize, part: Span) -> Result<(), Memory>
        ensures total { self.new.total ≡ self.old.total }
        ensures certified { self.new.certified ≡ self.old.certified }
        ensures looked { self.new.looked ≡ self.old.looked }
        ensures count { self.new.count ≡ self.old.count }
        ensures bytes { self.new.bytes ≡ self.old.bytes }
        ensures shown { OnOk result ((spans : List Span) → self.old.shown.items ≡ take most spans → self.new.shown.items ≡ take most (spans ++ part ∷ [])) }
    {
        if self.shown.len() >= most {
            return Ok(());
        }
        match self.shown.push(part) {
            Ok(()) => Ok(()),
            Err(_) => Err(Memory),
        }
    }

    // Counts a range, and adds it to those shown, if these are fewer than `most`.
    fn add(&mut self, most: usize, part: Span) -> Result<(), Memory>
        requires order { part.at ≤ part.end }
        requires count { self.old.count < 2 ^ 64 - 1 }
        requires bytes { self.old.bytes + span_len part < 2 ^ 64 }
        ensures total { self.new.total ≡ self.old.total }
        ensures certified { self.new.certified ≡ self.old.certified }
        ensures looked { self.new.looked ≡ self.old.looked }
        ensures count { OnOk result (self.new.count ≡ self.old.count + 1) }
        ensures bytes { OnOk result (self.new.bytes ≡ self.old.bytes + span_len part) }
        ensures told { OnOk result ((spans : List Span) → Tells most self.old spans → Tells most self.new (spans ++ part ∷ [])) }
    {
        self.show(most, part)?;
        self.count += 1;
        self.bytes += part.end - part.at;
        Ok(())
    }
}

// Returns all ranges of a blob of `total` bytes, certified or claimed, that no source has. At most `most` are shown.
fn parts_of<S: Source>(
    alloc: Global,
    wanted: &Wanted<'_>,
    sources: &[S],
    most: usize,
    total: u64,
    certified: bool,
) -> Result<MissingParts, Memory>
    requires { (u : ℕ) → u < units_in wanted.now.grain total → IsUnit wanted.now u }
    ensures parts { IfOk result (AreParts (JudgesUnit S.contents S.faultless wanted.now sources.now) wanted.now.grain most) }
    ensures total { IfOk result (λ parts. parts.total ≡ total) }
    ensures certified { IfOk result (λ parts. parts.certified ≡ certified) }
{
    let units = units_of(wanted.grain, total);
    let mut room = Vec::new(alloc);
    let mut parts = MissingParts {
        total,
        certified,
        looked: place_of(wanted.grain, total, units),
        shown: Vec::new(alloc),
        count: 0,
        bytes: 0,
    };
    let mut from = 0;
    'gaps: while from < units {
        let Some(gap) = next_gap(alloc, wanted, sources, units, from, &mut room)? else {
            return Ok(parts);
        };
        parts.add(most, bytes_of(wanted.grain, total, gap))?;
        from = gap.1;
    }
    Ok(parts)
}

// The length for the ranges: `length`, which beside an outboard encoding is the one that it claims.
fn total_for(form: &Form<'_>, length: u64) -> u64
    ensures same { IsLengthOf form.now length → result ≡ length }
    ensures within { (first : ℕ) → 1024 * first < result → BeginsWithin form.now first }
    ensures first { BeginsWithin form.now 0 }
{
    match form {
        Form::Slices => length,
        Form::Bare(outline) => outline.claimed(),
    }
}

// Returns those ranges for this length, unless memory is refused.
fn lack_by<S: Source>(
    alloc: Global,
    wanted: &Wanted<'_>,
    sources: &[S],
    most: usize,
    length: u64,
    certified: bool,
) -> Lack
    ensures { IsLengthOf wanted.now.form length → IsLackBy S.contents S.faultless wanted.now sources.now most length certified result }
{
    let total = total_for(&wanted.form, length);
    match parts_of(alloc, wanted, sources, most, total, certified) {
        Ok(parts) => Lack::Missing(parts),
        Err(Memory) => Lack::Starved,
    }
}

// The length that a source begins with, if it has one.
fn claim_in<S: Source>(source: &S) -> Option<u64>
    ensures { IsSaidOf (S.contents source.now) (S.faultless source.now) (λ text. result ≡ claim_in text) }
{
    let mut first = [0; LENGTH_LEN];
    match fill(source, 0, &mut first) {
        Ok(()) => Some(claimed(&first)),
        Err(_) => None,
    }
}

// Returns whether a source lacks each of the first 64 units of a blob of `total` bytes.
fn lacks_first<S: Source>(
    alloc: Global,
    wanted: &Wanted<'_>,
    source: &S,
    total: u64,
    room: &mut Vec<u8>,
) -> Result<bool, Memory>
    requires { AreSlices wanted.now.form }
    ensures { IfOk result (λ lacks. IsSaidOf (S.contents source.now) (S.faultless source.now) (λ bytes. JudgesGroup lacks (HasSome wanted.now total bytes))) }
{
    let units = units_of(wanted.grain, total).min(MOST_TRIED);
    for first in 0..units {
        if !lacks_unit(alloc, wanted, source, first, room)? {
            return Ok(false);
        }
    }
    Ok(true)
}

// Returns the length that a combined encoding claims, if one of its first 64 units is accepted for it.
fn claimed_by<S: Source>(
    alloc: Global,
    wanted: &Wanted<'_>,
    source: &S,
    room: &mut Vec<u8>,
) -> Result<Option<u64>, Memory>
    requires { AreSlices wanted.now.form }
    ensures { IfOk result (λ found. IsSaidOf (S.contents source.now) (S.faultless source.now) (λ text. JudgesClaim wanted.now text found)) }
{
    let Some(total) = claim_in(source) else {
        return Ok(None);
    };
    if lacks_first(alloc, wanted, source, total, room)? {
        return Ok(None);
    }
    Ok(Some(total))
}

// Returns the first length that one of the encodings claims and that holds for it.
fn first_claim<S: Source>(
    alloc: Global,
    wanted: &Wanted<'_>,
    sources: &[S],
) -> Result<Option<u64>, Memory>
    requires { AreSlices wanted.now.form }
    ensures { IfOk result (ClaimsIn S.contents S.faultless wanted.now sources.now) }
{
    let mut room = Vec::new(alloc);
    for source in sources {
        match claimed_by(alloc, wanted, source, &mut room)? {
            Some(total) => return Ok(Some(total)),
            None => {}
        }
    }
    Ok(None)
}

// Returns the length to use if none is certified: the one that the outline claims, or the first one that an encoding
// claims and that holds for it.
fn claimed_length<S: Source>(
    alloc: Global,
    wanted: &Wanted<'_>,
    sources: &[S],
) -> Result<Option<u64>, Memory>
    ensures { IfOk result (ClaimsLength S.contents S.faultless wanted.now sources.now wanted.now.form) }
{
    match wanted.form {
        Form::Slices => first_claim(alloc, wanted, sources),
        Form::Bare(outline) => Ok(Some(outline.claimed())),
    }
}

/// Returns which ranges of the blob with this root no source has, in whole groups of 64 chunks, or with
/// `Grain::Chunk` in whole chunks. The first `most` ranges are shown, and all are counted.
///
/// For each group, or chunk, the sources are asked in order, up to the first whose slice, or beside an outboard
/// encoding whose bytes, are accepted under the root in the mode. A source whose read fails lacks what it was asked
/// for.
///
/// The length of the blob is the one that the first source with its last chunk certifies. If no source has that
/// chunk, `certified` is false, and the length is only claimed: by the outboard encoding, or by the first combined
/// encoding that has one of the first 64 groups, or chunks, accepted for the length that it claims. Without such an
/// encoding the result is `End`.
///
/// At most the first 2^22 groups (256 GiB) or chunks (4 GiB) are looked for, so an absurd length doesn't keep this
/// from ending. The memory is that of one slice and 16 bytes for each range shown; the result is `Starved` if it is
/// refused.
pub fn lack_of<S: Source>(alloc: Global, wanted: &Wanted<'_>, sources: &[S], most: usize) -> Lack
    ensures { IsLackOf S.contents S.faultless wanted.now sources.now most result }
{
    match certified_length(alloc, wanted, sources) {
        Ok(length) => lack_by(alloc, wanted, sources, most, length, true),
        Err(GatherFault::Unfinished) => match claimed_length(alloc, wanted, sources) {
            Ok(Some(length)) => lack_by(alloc, wanted, sources, most, length, false),
            Ok(None) => Lack::End,
            Err(Memory) => Lack::Starved,
        },
        Err(_) => Lack::Starved,
    }
}
