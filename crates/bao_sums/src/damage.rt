// The ranges of a file that differ from the blob with the hash of its line, by an outboard file beside it.

ghost use Rattle.std.specs.Prelude.{◌≡◌, ◌+◌, ◌-◌, ◌*◌, ◌^◌, ◌<◌, ◌≤◌, ◌⊎◌, Bool, List, ℕ, Option, None, length, min, slice_get, slice_index_or, vec_len, IfErr, IfOk, IfSome, OnErr, OnOk, Some, string_bytes};
ghost use Rattle.std.specs.Io.KnownBytes.{Appends};
ghost use Rattle.bao_files.specs.Printed.{AppendsBeginning};
ghost use Rattle.bao_files.specs.declared.fault.FileFault.TheVariants as FileFault;
ghost use Rattle.bao_sums.specs.Damage.{AreJudged, Damage, IsDamageOf, IsPartOf, damage_lines, ended_line, group_count, outboard_path, range_line, run_after, run_line, run_lines};
ghost use Rattle.bao_sums.specs.Opened.{IsBesideOf, IsPlacedOf};
ghost use Rattle.bao_sums.specs.Judged.{IsShare, JudgesGroupOf, share_start};

use crate::lines::put_shown;
use crate::one::regular_len;
use crate::parsing::SumLine;
use crate::report::{Telling, tell_no_ranges};
use crate::window::{Window, hold};
use b3par::{Source, WORKERS};
use b3tree::{Hash, Mode};
use bao_decode::{has_slice, outline_length};
use bao_files::{Disk, FileFault, print_text};
use bao_text::chunk_count;
use std::alloc::{AllocError, Global};
use std::io::Write;
use std::thread::{Threads, map_indices};

// The bytes of a group.
const GROUP_BYTES: u64 = 64 << 10;

// How many groups a thread judges at once.
const SHARE: u64 = 64;

// Room for a group's own parents in an outboard file, of fewer than 2^32 groups: these begin at most 32 parents before or after as many
// as there are chunks before the group.
const PARENTS_LEN: usize = 64 * 128;

// Room for a group, the parents above it, and those in it.
const BLOCK_LEN: usize = 72 << 10;

// A regular file that was opened, and how many bytes it is said to have.
#[derive(Drop)]
struct Placed<I> {
    input: I,
    size: u64,
}

// An outboard file that is accepted, the file that it is beside, and the length that it claims.
#[derive(Drop)]
struct Beside<I> {
    outboard: I,
    file: I,
    total: u64,
}

// Verdicts on groups, one after another from group `first` on.
#[derive(Drop)]
struct Round {
    first: u64,
    had: Vec<bool>,
}

// How many groups a blob of `total` bytes has.
fn group_count(total: u64) -> u64
    ensures value { result ≡ group_count total }
    ensures few { result ≤ 2 ^ 48 }
{
    chunk_count(total).div_ceil(64)
}

// The first group of a share.
fn share_start(first: u64, end: u64, share: u64) -> u64
    ensures { result ≡ share_start first end share }
{
    first.saturating_add(share.saturating_mul(SHARE)).min(end)
}

// The group after those of a share that begins with group `from`.
fn share_end(from: u64, end: u64) -> u64
    ensures { result ≡ min (from + 64) end }
{
    from.saturating_add(SHARE).min(end)
}

// Whether the file has a group. What is read of the two is held in `parents` and `chunks`; it is read through `block`, and verified in
// `room`.
fn has_group<S: Source>(
    mode: &Mode,
    root: &Hash,
    outboard: &S,
    copy: &S,
    group: u64,
    parents: &mut [u8],
    chunks: &mut [u8],
    block: &mut [u8],
    room: &mut [u8],
) -> bool
    requires few { group < 2 ^ 48 }
    requires rooms { (length parents.old ≡ 8192) × (length chunks.old ≡ 65536) × (length block.old ≡ 73728) × (length room.old ≡ 73728) }
    ensures { JudgesGroupOf (S.faultless outboard.now × S.faultless copy.now) (S.contents outboard.now) (S.contents copy.now) mode.now root.now.0 group result }
{
    let start = GROUP_BYTES * group;
    let parents_at = 8 + 64 * (64 * group).saturating_sub(32);
    let parents_len = hold(outboard, parents_at, parents);
    let chunks_len = hold(copy, start, chunks);
    let outboard = Window::over(outboard, parents_at, &parents[..parents_len]);
    let copy = Window::over(copy, start, &chunks[..chunks_len]);
    has_slice(
        mode,
        root,
        &outboard,
        &copy,
        start,
        GROUP_BYTES,
        block,
        room,
    )
}

// The same of the groups from `first` on, up to and without `end`.
fn judge<S: Source>(
    alloc: Global,
    mode: &Mode,
    root: &Hash,
    outboard: &S,
    copy: &S,
    first: u64,
    end: u64,
    parents: &mut [u8],
    chunks: &mut [u8],
    block: &mut [u8],
    room: &mut [u8],
) -> Result<Vec<bool>, AllocError>
    requires order { first ≤ end }
    requires few { end ≤ 2 ^ 48 }
    requires rooms { (length parents.old ≡ 8192) × (length chunks.old ≡ 65536) × (length block.old ≡ 73728) × (length room.old ≡ 73728) }
    ensures len { IfOk result (λ had. length had.items ≡ end - first) }
    ensures judged { IfOk result (λ had. AreJudged (JudgesGroupOf (S.faultless outboard.now × S.faultless copy.now) (S.contents outboard.now) (S.contents copy.now) mode.now root.now.0) first had.items) }
{
    let mut had = Vec::new(alloc);
    'groups: for group in first..end {
        let has = has_group(
            mode, root, outboard, copy, group, parents, chunks, block, room,
        );
        had.push(has)?;
    }
    Ok(had)
}

// The same of a share of them.
fn judge_share<S: Source>(
    alloc: Global,
    mode: &Mode,
    root: &Hash,
    outboard: &S,
    copy: &S,
    first: u64,
    end: u64,
    share: usize,
) -> Result<Vec<bool>, AllocError>
    requires { end ≤ 2 ^ 48 }
    ensures { IfOk result (λ had. IsShare (JudgesGroupOf (S.faultless outboard.now × S.faultless copy.now) (S.contents outboard.now) (S.contents copy.now) mode.now root.now.0) first end share had.items) }
{
    let from = share_start(first, end, share as u64);
    let to = share_end(from, end);
    let mut parents = vec![in alloc; 0u8; PARENTS_LEN]?;
    let mut chunks = vec![in alloc; 0u8; GROUP_BYTES as usize]?;
    let mut block = vec![in alloc; 0u8; BLOCK_LEN]?;
    let mut room = vec![in alloc; 0u8; BLOCK_LEN]?;
    judge(
        alloc,
        mode,
        root,
        outboard,
        copy,
        from,
        to,
        parents.as_mut_slice(),
        chunks.as_mut_slice(),
        block.as_mut_slice(),
        room.as_mut_slice(),
    )
}

// The same of all shares, by several threads.
fn judge_shares<R: AllocGlobal + Threads + Sync, S: Source + Sync>(
    rt: &R,
    mode: &Mode,
    root: &Hash,
    outboard: &S,
    copy: &S,
    first: u64,
    end: u64,
) -> Result<Vec<Result<Vec<bool>, AllocError>>, AllocError>
    requires { end ≤ 2 ^ 48 }
    ensures len { IfOk result (λ shares. vec_len shares ≡ 4) }
    ensures each { IfOk result (λ shares. (i : ℕ) (d : _) → i < vec_len shares → IfOk (slice_index_or shares.items i d) (λ had. IsShare (JudgesGroupOf (S.faultless outboard.now × S.faultless copy.now) (S.contents outboard.now) (S.contents copy.now) mode.now root.now.0) first end i had.items)) }
{
    let alloc = rt.alloc();
    map_indices(
        rt,
        alloc,
        WORKERS,
        &|share: usize| -> Result<Vec<bool>, AllocError>
            requires { end ≤ 2 ^ 48 }
            ensures { IfOk result (λ had. IsShare (JudgesGroupOf (S.faultless outboard.entry.now × S.faultless copy.entry.now) (S.contents outboard.entry.now) (S.contents copy.entry.now) mode.entry.now root.entry.now.0) first end share had.items) }
        { judge_share(alloc, mode, root, outboard, copy, first, end, share) },
    )
}

// The same of the first of them.
fn judge_round<R: AllocGlobal + Threads + Sync, S: Source + Sync>(
    rt: &R,
    mode: &Mode,
    root: &Hash,
    outboard: &S,
    copy: &S,
    first: u64,
    end: u64,
) -> Result<Round, AllocError>
    requires order { first < end }
    requires few { end ≤ 2 ^ 48 }
    ensures first { IfOk result (λ round. (round.first ≡ first) × (0 < length round.had.items)) }
    ensures judged { IfOk result (λ round. AreJudged (JudgesGroupOf (S.faultless outboard.now × S.faultless copy.now) (S.contents outboard.now) (S.contents copy.now) mode.now root.now.0) first round.had.items) }
{
    let shares = judge_shares(rt, mode, root, outboard, copy, first, end)?;
    let mut had = Vec::new(rt.alloc());
    'shares: for share in &shares {
        match share {
            Ok(more) => had.extend_from_slice(more.as_slice())?,
            Err(_) => return Err(AllocError),
        }
    }
    Ok(Round { first, had })
}

// The verdict on a group, if it is among these.
fn verdict_in(round: &Round, group: u64) -> Option<bool>
    ensures { IfSome result (λ has. (round.now.first ≤ group) × (slice_get round.now.had.items (group - round.now.first) ≡ Some has)) }
{
    let at = group.checked_sub(round.first)?;
    round.had.get(usize::try_from(at).ok()?).copied()
}

// The verdict on a group; where it isn't among these, they are replaced by those that begin with it.
fn next_verdict<R: AllocGlobal + Threads + Sync, S: Source + Sync>(
    rt: &R,
    mode: &Mode,
    root: &Hash,
    outboard: &S,
    copy: &S,
    group: u64,
    end: u64,
    round: &mut Round,
) -> Result<bool, AllocError>
    requires order { group < end }
    requires few { end ≤ 2 ^ 48 }
    requires judged { AreJudged (JudgesGroupOf (S.faultless outboard.now × S.faultless copy.now) (S.contents outboard.now) (S.contents copy.now) mode.now root.now.0) round.old.first round.old.had.items }
    ensures judged { AreJudged (JudgesGroupOf (S.faultless outboard.now × S.faultless copy.now) (S.contents outboard.now) (S.contents copy.now) mode.now root.now.0) round.new.first round.new.had.items }
    ensures verdict { IfOk result (JudgesGroupOf (S.faultless outboard.now × S.faultless copy.now) (S.contents outboard.now) (S.contents copy.now) mode.now root.now.0 group) }
{
    if let Some(has) = verdict_in(round, group) {
        return Ok(has);
    }
    let next = judge_round(rt, mode, root, outboard, copy, group, end)?;
    let has = next.had[0];
    *round = next;
    Ok(has)
}

// The line of a range.
fn range_line(
    alloc: Global,
    path: &str,
    total: u64,
    first: u64,
    end: u64,
) -> Result<Vec<u8>, AllocError>
    ensures { IfOk result (λ line. line.items ≡ range_line path.now total first end) }
{
    let start = u128::from(GROUP_BYTES) * u128::from(first);
    let len = (u128::from(GROUP_BYTES) * u128::from(end))
        .min(u128::from(total))
        .saturating_sub(start);
    let text = format!(in alloc; ": damaged: {start} {len}\n")?;
    let mut line = Vec::new(alloc);
    put_shown(path.as_bytes(), &mut line)?;
    line.extend_from_slice(text.as_bytes())?;
    Ok(line)
}

// Prints the line of a run of groups, if there is one, that ends before group `end`.
fn print_run<'a, O: Write>(
    alloc: Global,
    path: &str,
    total: u64,
    since: Option<u64>,
    end: u64,
    out: &mut O,
) -> Result<(), FileFault<'a>>
    ensures done { OnOk result (Appends (O.contents out.old) (O.contents out.new) (run_line (range_line path.now total) since end)) }
    ensures part { OnErr result (AppendsBeginning (O.contents out.old) (O.contents out.new) (run_line (range_line path.now total) since end)) }
    ensures fault { IfErr result (λ fault. (fault ≡ FileFault.Memory) ⊎ (fault ≡ FileFault.Output)) }
{
    let Some(first) = since else {
        return Ok(());
    };
    let line = range_line(alloc, path, total, first, end)?;
    print_text(line.as_slice(), out)
}

// Prints the line that the verdict on a group ends, and returns since which group a run lasts then.
fn print_ended<'a, O: Write>(
    alloc: Global,
    path: &str,
    total: u64,
    since: Option<u64>,
    group: u64,
    has: bool,
    out: &mut O,
) -> Result<Option<u64>, FileFault<'a>>
    ensures done { IfOk result (λ after. (after ≡ run_after since group has)
        × Appends (O.contents out.old) (O.contents out.new) (ended_line (range_line path.now total) since group has)) }
    ensures part { OnErr result (AppendsBeginning (O.contents out.old) (O.contents out.new) (run_line (range_line path.now total) since group)) }
    ensures fault { IfErr result (λ fault. (fault ≡ FileFault.Memory) ⊎ (fault ≡ FileFault.Output)) }
{
    if !has {
        return Ok(Some(since.unwrap_or(group)));
    }
    print_run(alloc, path, total, since, group, out)?;
    Ok(None)
}

// Judges the groups, and prints a line for each run of them that the file lacks.
fn print_runs<'a, R: AllocGlobal + Threads + Sync, S: Source + Sync, O: Write>(
    rt: &R,
    mode: &Mode,
    root: &Hash,
    outboard: &S,
    copy: &S,
    path: &str,
    total: u64,
    out: &mut O,
) -> Result<(), FileFault<'a>>
    ensures done { OnOk result ((had : List Bool) × (length had ≡ group_count total)
        × AreJudged (JudgesGroupOf (S.faultless outboard.now × S.faultless copy.now) (S.contents outboard.now) (S.contents copy.now) mode.now root.now.0) 0 had
        × Appends (O.contents out.old) (O.contents out.new) (run_lines (range_line path.now total) None 0 had)) }
    ensures part { OnErr result ((had : List Bool) × (length had ≤ group_count total)
        × AreJudged (JudgesGroupOf (S.faultless outboard.now × S.faultless copy.now) (S.contents outboard.now) (S.contents copy.now) mode.now root.now.0) 0 had
        × AppendsBeginning (O.contents out.old) (O.contents out.new) (run_lines (range_line path.now total) None 0 had)) }
    ensures fault { IfErr result (λ fault. (fault ≡ FileFault.Memory) ⊎ (fault ≡ FileFault.Output)) }
{
    let alloc = rt.alloc();
    let groups = group_count(total);
    let mut round = Round {
        first: 0,
        had: Vec::new(alloc),
    };
    let mut since = None;
    'groups: for group in 0..groups {
        let has = next_verdict(rt, mode, root, outboard, copy, group, groups, &mut round)?;
        since = print_ended(alloc, path, total, since, group, has, out)?;
    }
    print_run(alloc, path, total, since, groups, out)
}

// Opens a regular file, to be read by position.
fn open_placed<D: Disk>(disk: &D, path: &str) -> Result<Option<Placed<D::Input>>, AllocError>
    ensures { IfOk result (IsPlacedOf D.Input.contents D.Input.faultless (D.faultless disk.now) (D.at disk.now path.now)) }
{
    let input = match disk.open(path) {
        Ok(input) => input,
        Err(FileFault::Memory) => return Err(AllocError),
        Err(_) => return Ok(None),
    };
    match regular_len(disk.extent(&input)) {
        Some(size) => Ok(Some(Placed { input, size })),
        None => Ok(None),
    }
}

// The path of the outboard file of the file at `path`.
fn outboard_path(alloc: Global, path: &str) -> Result<String, AllocError>
    ensures { IfOk result (λ name. string_bytes name ≡ outboard_path path.now) }
{
    format!(in alloc; "{path}.obao")
}

// Finds the outboard file of the file of a line.
fn find_outboard<D: Disk>(
    alloc: Global,
    disk: &D,
    mode: &Mode,
    line: &SumLine,
) -> Result<Option<Beside<D::Input>>, AllocError>
    ensures { IfOk result (IsBesideOf D.Input.contents D.Input.faultless (D.faultless disk.now) (D.at disk.now (outboard_path (string_bytes line.now.path))) (D.at disk.now (string_bytes line.now.path)) mode.now line.now.digest.0) }
{
    let name = outboard_path(alloc, line.path.as_str())?;
    let Some(outboard) = open_placed(disk, name.as_str())? else {
        return Ok(None);
    };
    let Some(file) = open_placed(disk, line.path.as_str())? else {
        return Ok(None);
    };
    let Some(total) = outline_length(mode, &line.digest, &outboard.input, outboard.size) else {
        return Ok(None);
    };
    Ok(Some(Beside {
        outboard: outboard.input,
        file: file.input,
        total,
    }))
}

/// Prints a line for each damaged range of the file of a line, by the outboard file beside it. If that isn't accepted, or
/// one of the two can't be read, it is told that there are none.
pub(crate) fn print_damage<'a, R: AllocGlobal + Threads + Sync, D: Disk, O: Write, E: Write>(
    rt: &R,
    disk: &D,
    mode: &Mode,
    line: &SumLine,
    telling: Telling<'_>,
    out: &mut O,
    err: &mut E,
) -> Result<(), FileFault<'a>>
    ensures done { OnOk result ((damage : Option Damage) × IsDamageOf (D.faultless disk.now) (D.at disk.now (outboard_path (string_bytes line.now.path))) (D.at disk.now (string_bytes line.now.path)) mode.now line.now.digest.0 damage
        × Appends (O.contents out.old) (O.contents out.new) (damage_lines (string_bytes line.now.path) damage)) }
    ensures part { OnErr result ((damage : Option Damage) × IsPartOf (D.faultless disk.now) (D.at disk.now (outboard_path (string_bytes line.now.path))) (D.at disk.now (string_bytes line.now.path)) mode.now line.now.digest.0 damage
        × AppendsBeginning (O.contents out.old) (O.contents out.new) (damage_lines (string_bytes line.now.path) damage)) }
    ensures fault { IfErr result (λ fault. (fault ≡ FileFault.Memory) ⊎ (fault ≡ FileFault.Output)) }
{
    let path = line.path.as_str();
    match find_outboard(rt.alloc(), disk, mode, line)? {
        Some(beside) => {
            let Beside {
                outboard,
                file,
                total,
            } = beside;
            print_runs(rt, mode, &line.digest, &outboard, &file, path, total, out)
        }
        None => {
            tell_no_ranges(telling, path, err);
            Ok(())
        }
    }
}
