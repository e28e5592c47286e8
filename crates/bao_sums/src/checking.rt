ghost use Rattle.std.specs.Prelude.{◌≡◌, ◌≢◌, ◌⊎◌, ◌++◌, ◌∷◌, ◌&&◌, [], List, All, Option, map, IfErr, IfOk, IfSome, None, OnErr, OnOk};
ghost use Rattle.std.specs.Io.KnownBytes.{Appends};
ghost use Rattle.bao_files.specs.Printed.{AppendsBeginning, Prints};
ghost use Rattle.bao_files.specs.declared.fault.FileFault.TheVariants as FileFault;
ghost use Rattle.bao_sums.specs.Checked.{Checks, HasDamage, IsOutcomeAt, IsPartAt, IsVerdictAt, check_line, is_left_out, is_other, tally_of, verdict_line, verdict_text, verdicts_of};
ghost use Rattle.bao_sums.specs.Damage.{Damage, IsDamageOf, IsPartOf, damage_lines, outboard_path};
ghost use Rattle.bao_sums.specs.Early.{IsHashedEarly};
ghost use Rattle.bao_sums.specs.Steps.{LeavesPart, PrintsOne};
ghost use Rattle.bao_sums.specs.Sums.{shown};
ghost use Rattle.bao_sums.specs.declared.verdict.Verdict.{Verdict};
ghost use Rattle.bao_sums.specs.declared.verdict.Verdict.TheVariants as Verdict;
ghost use Rattle.bao_sums.specs.Each.{LeavesParts, PrintsEach};
ghost use Rattle.bao_sums.specs.Found.{sum_of};

use crate::ahead::{Ahead, BATCH, begins_batch};
use crate::damage::print_damage;
use crate::fault::SumsFault;
use crate::lines::put_shown;
use crate::logic::line_at;
use crate::one::len_at;
use crate::parsing::{SumLine, read_lines, report_lines};
use crate::report::{Telling, tell_unread};
use crate::text::read_text;
use crate::verdict::{Tally, Verdict};
use b3tree::{Hash, Mode};
use bao_files::{Disk, FileFault, Progress, print_text};
use std::alloc::{AllocError, Global};
use std::io::Write;
use std::thread::Threads;

/// Files to be checked.
#[derive(Clone, Copy)]
pub struct Checking<'a> {
    /// The mode of the hashes.
    pub mode: &'a Mode,
    /// The path of the file with the lines; `-` is standard input.
    pub sums: &'a str,
    /// Whether nothing is printed of a file that has the hash of its line.
    pub quiet: bool,
    /// Whether it is printed, too, where a file is damaged that has another hash.
    pub ranges: bool,
    /// How it is told which files can't be read, and which lines aren't good.
    pub telling: Telling<'a>,
}

// The verdict on a file with this hash, or on one that can't be read.
fn verdict_on(found: Option<Hash>, digest: &Hash) -> Verdict
    ensures none { found ≡ None → result ≡ Verdict.Unread }
    ensures some { IfSome found (λ answer. ((result ≡ Verdict.Same) × (answer.0 ≡ digest.now.0)) ⊎ ((result ≡ Verdict.Other) × (answer.0 ≢ digest.now.0))) }
{
    match found {
        None => Verdict::Unread,
        Some(hash) if hash == *digest => Verdict::Same,
        Some(_) => Verdict::Other,
    }
}

// What is printed after a path.
fn verdict_text(verdict: Verdict) -> &'static [u8]
    ensures { result.now ≡ verdict_text verdict }
{
    match verdict {
        Verdict::Same => b": OK\n",
        Verdict::Other => b": FAILED\n",
        Verdict::Unread => b": cannot read\n",
    }
}

// The line of a verdict.
fn verdict_line(alloc: Global, path: &str, verdict: Verdict) -> Result<Vec<u8>, AllocError>
    ensures { IfOk result (λ line. line.items ≡ shown path.now ++ verdict_text verdict) }
{
    let mut line = Vec::new(alloc);
    put_shown(path.as_bytes(), &mut line)?;
    line.extend_from_slice(verdict_text(verdict))?;
    Ok(line)
}

// Whether nothing is printed.
fn is_left_out(quiet: bool, verdict: Verdict) -> bool
    ensures { result ≡ is_left_out quiet verdict }
{
    match verdict {
        Verdict::Same => quiet,
        Verdict::Other | Verdict::Unread => false,
    }
}

// Prints the line of a verdict, if it isn't left out.
fn print_verdict<'a, O: Write>(
    alloc: Global,
    quiet: bool,
    line: &SumLine,
    verdict: Verdict,
    out: &mut O,
) -> Result<(), FileFault<'a>>
    ensures prints { Prints (verdict_line quiet (sum_of line.now) verdict) (O.contents out.old) (O.contents out.new) result }
    ensures fault { IfErr result (λ fault. (fault ≡ FileFault.Memory) ⊎ (fault ≡ FileFault.Output)) }
{
    if is_left_out(quiet, verdict) {
        return Ok(());
    }
    let text = verdict_line(alloc, line.path.as_str(), verdict)?;
    print_text(text.as_slice(), out)
}

// Whether it is looked for where a file is damaged.
fn asks_ranges(ranges: bool, verdict: Verdict) -> bool
    ensures { result ≡ (ranges && is_other verdict) }
{
    match verdict {
        Verdict::Other => ranges,
        Verdict::Same | Verdict::Unread => false,
    }
}

// Prints a line for each damaged range of a file, if they are asked for.
fn print_asked<'a, R: AllocGlobal + Threads + Sync, D: Disk, O: Write, E: Write>(
    rt: &R,
    disk: &D,
    checking: &Checking<'_>,
    asks: bool,
    line: &SumLine,
    out: &mut O,
    err: &mut E,
) -> Result<(), FileFault<'a>>
    ensures done { OnOk result ((damage : Option Damage) × HasDamage (IsDamageOf (D.faultless disk.now) (D.at disk.now (outboard_path (sum_of line.now).path)) (D.at disk.now (sum_of line.now).path) checking.now.mode.now (sum_of line.now).digest) asks damage
        × Appends (O.contents out.old) (O.contents out.new) (damage_lines (sum_of line.now).path damage)) }
    ensures part { OnErr result ((damage : Option Damage) × HasDamage (IsPartOf (D.faultless disk.now) (D.at disk.now (outboard_path (sum_of line.now).path)) (D.at disk.now (sum_of line.now).path) checking.now.mode.now (sum_of line.now).digest) asks damage
        × AppendsBeginning (O.contents out.old) (O.contents out.new) (damage_lines (sum_of line.now).path damage)) }
    ensures fault { IfErr result (λ fault. (fault ≡ FileFault.Memory) ⊎ (fault ≡ FileFault.Output)) }
{
    if !asks {
        return Ok(());
    }
    print_damage(rt, disk, checking.mode, line, checking.telling, out, err)
}

// A tally with one more verdict.
fn noted(tally: Tally, verdict: Verdict) -> Tally
    ensures { (verdicts : List Verdict) → tally ≡ tally_of verdicts → result ≡ tally_of (verdicts ++ verdict ∷ []) }
{
    match verdict {
        Verdict::Same => tally,
        Verdict::Other => Tally {
            failed: true,
            ..tally
        },
        Verdict::Unread => Tally {
            unread: true,
            ..tally
        },
    }
}

// The paths of the lines from `index` on that are looked at together, as far as there is memory for them.
fn paths_from(alloc: Global, lines: &[SumLine], index: usize) -> Vec<&str> {
    let mut paths = Vec::new(alloc);
    if !begins_batch(index) {
        return paths;
    }
    for line in lines.iter().skip(index).take(BATCH) {
        if paths.push(line.path.as_str()).is_err() {
            return paths;
        }
    }
    paths
}

// The verdict on the file of a line.
fn verdict_of<R: AllocGlobal + Threads + Sync, D: Disk, P: Progress + Sync>(
    rt: &R,
    disk: &D,
    mode: &Mode,
    ahead: &mut Ahead<'_>,
    line: &SumLine,
    progress: &P,
) -> Result<Verdict, AllocError>
    requires { All (IsHashedEarly (D.at disk.now) mode.now) ahead.old.early.items }
    ensures same { ahead.new.early ≡ ahead.old.early }
    ensures verdict { IfOk result (IsVerdictAt (D.faultless disk.now) (D.at disk.now) mode.now (sum_of line.now)) }
{
    let found = ahead.hash_at(rt, disk, mode, line.path.as_str(), progress)?;
    Ok(verdict_on(found, &line.digest))
}

// Checks the file of one line, and returns the verdict.
fn check_one<'a, R: AllocGlobal + Threads + Sync, D: Disk, O: Write, E: Write, P: Progress + Sync>(
    rt: &R,
    disk: &D,
    checking: &Checking<'_>,
    ahead: &mut Ahead<'_>,
    line: &SumLine,
    out: &mut O,
    err: &mut E,
    progress: &P,
) -> Result<Verdict, FileFault<'a>>
    requires { All (IsHashedEarly (D.at disk.now) checking.now.mode.now) ahead.old.early.items }
    ensures same { ahead.new.early ≡ ahead.old.early }
    ensures one { IfOk result (λ verdict. PrintsOne (IsOutcomeAt (D.faultless disk.now) (D.at disk.now) checking.now.mode.now checking.now.ranges) (check_line checking.now.quiet) (sum_of line.now)
        (O.contents out.old) (O.contents out.new) (λ outcome. verdict ≡ outcome.verdict)) }
    ensures fault { IfErr result (LeavesPart (IsPartAt (D.faultless disk.now) (D.at disk.now) checking.now.mode.now checking.now.ranges) (check_line checking.now.quiet) (sum_of line.now)
        (O.contents out.old) (O.contents out.new)) }
{
    let verdict = verdict_of(rt, disk, checking.mode, ahead, line, progress)?;
    if verdict == Verdict::Unread {
        tell_unread(checking.telling, disk, line.path.as_str(), err);
    }
    print_verdict(rt.alloc(), checking.quiet, line, verdict, out)?;
    let asks = asks_ranges(checking.ranges, verdict);
    print_asked(rt, disk, checking, asks, line, out, err)?;
    Ok(verdict)
}

// Tells `progress` how many files and bytes there are to read.
fn begin<D: Disk, P: Progress>(disk: &D, lines: &[SumLine], progress: &P) {
    if !progress.is_shown() {
        return;
    }
    let mut total: u64 = 0;
    for line in lines {
        total = total.saturating_add(len_at(disk, line.path.as_str()));
    }
    progress.begin_files(lines.len() as u64, total);
}

// Checks the files of all lines.
fn check_all<'a, R: AllocGlobal + Threads + Sync, D: Disk, O: Write, E: Write, P: Progress + Sync>(
    rt: &R,
    disk: &D,
    checking: &Checking<'_>,
    lines: &[SumLine],
    out: &mut O,
    err: &mut E,
    progress: &P,
) -> Result<Tally, FileFault<'a>>
    ensures each { IfOk result (λ tally. PrintsEach (IsOutcomeAt (D.faultless disk.now) (D.at disk.now) checking.now.mode.now checking.now.ranges) (check_line checking.now.quiet) (map sum_of lines.now)
        (O.contents out.old) (O.contents out.new) (λ outcomes. tally ≡ tally_of (verdicts_of outcomes))) }
    ensures fault { IfErr result (LeavesParts (IsPartAt (D.faultless disk.now) (D.at disk.now) checking.now.mode.now checking.now.ranges) (check_line checking.now.quiet) (map sum_of lines.now)
        (O.contents out.old) (O.contents out.new)) }
{
    begin(disk, lines, progress);
    let mut ahead = Ahead::new(rt.alloc());
    let mut tally = Tally {
        failed: false,
        unread: false,
    };
    'items: for index in 0..lines.len() {
        let paths = paths_from(rt.alloc(), lines, index);
        ahead.go_on(rt, disk, checking.mode, index, paths.as_slice());
        let line = line_at(lines, index);
        let verdict = check_one(rt, disk, checking, &mut ahead, line, out, err, progress)?;
        tally = noted(tally, verdict);
    }
    Ok(tally)
}

/// Checks the files that the lines of the file at `sums` name, in their order, and prints a line for each to `out`:
/// the path, as `b3sum` shows it, and `: OK`, `: FAILED` if the file has another hash, or `: cannot read`. Returns
/// whether a file has another hash, and whether one can't be read.
///
/// A good line is one that `hash_files` prints with names, without its line feed: 64 lower-case digits, two spaces, and
/// a path in UTF-8. If that has a backslash or a line feed, the line begins with a backslash, and they are written as
/// `\\` and `\n`. Other lines are left out, and told on `err` if they aren't empty, as are files that can't be
/// read.
///
/// With `ranges`, a line `PATH: damaged: START LEN` follows for each damaged range of a file that has another hash. The
/// file `PATH.obao` is taken as its outboard encoding if it has the size that the length in it asks for, and if its first
/// parent is that of the hash; if not, or if one of the two isn't regular or can't be read, that is told on `err`. The
/// ranges are the longest runs of groups of 64 chunks that aren't accepted, each cut out of the two as by
/// [`has_slice`](bao_decode::has_slice). They are printed while the file is read, by several threads.
///
/// `progress` is told how many files and bytes there are, and what was read. The file at `sums` is read whole; the
/// memory doesn't grow with the files that are checked. Refuses with `File` and `Read` if it can't be read, with
/// `TooLong` if it has more than [`MOST_SUMS_BYTES`](crate::MOST_SUMS_BYTES), and with `NoLine` if no line is good;
/// nothing is then printed. Refuses with `File` and `Memory`, and with `File` and `Output`, when a beginning of the
/// lines has been printed.
pub fn check_files<
    'a,
    R: AllocGlobal + Threads + Sync,
    D: Disk,
    O: Write,
    E: Write,
    P: Progress + Sync,
>(
    rt: &R,
    disk: &D,
    checking: &Checking<'a>,
    out: &mut O,
    err: &mut E,
    progress: &P,
) -> Result<Tally, SumsFault<'a>>
    ensures { Checks (D.faultless disk.now) (D.at disk.now) checking.now.mode.now checking.now.sums checking.now.quiet checking.now.ranges (O.contents out.old) (O.contents out.new) result }
{
    let text = read_text(rt.alloc(), disk, checking.sums)?;
    let lines = read_lines(rt.alloc(), text.as_slice())?;
    report_lines(rt.alloc(), text.as_slice(), checking.telling, err)?;
    if lines.is_empty() {
        return Err(SumsFault::NoLine);
    }
    let tally = check_all(rt, disk, checking, lines.as_slice(), out, err, progress)?;
    Ok(tally)
}
