ghost use Rattle.std.specs.Borrow.{Bor};
ghost use Rattle.std.specs.Prelude.{⊤, ◌≡◌, ◌≢◌, ◌⊎◌, ◌<◌, ◌≤◌, ◌^◌, ℕ, List, [], IfErr, IfOk, IfSome, IsErrOf, IsSome, IsTrue, MatchResult, Ok, OnErr, OnOk, None, Some, false, length, slice_get, true};
ghost use Rattle.bao_files.specs.Disks.{Absent, IsKnown, IsStored, KeepsFiles, Puts, Stored};
ghost use Rattle.bao_files.specs.declared.fault.FileFault.TheVariants as FileFault;
ghost use Rattle.bao_text.specs.Choice.{chunk_count};
ghost use Rattle.bao_text.specs.Texts.{outboard_text};
ghost use Rattle.bao_tasks.specs.declared.gathered_fault.GatheredFault.TheVariants as GatheredFault;
ghost use Rattle.bao_windows.specs.Written.{AreTooLong};
ghost use Rattle.bao_windows.specs.declared.fault.GatherFault.{GatherFault as Cause};
ghost use Rattle.bao_windows.specs.declared.fault.GatherFault.TheVariants as GatherFault;
ghost use Rattle.holders.specs.Forms.{AreSlices};
ghost use Rattle.holders.specs.Blobs.{HasCollision};
ghost use Rattle.holders.specs.Lists.{IsFromSource};
ghost use Rattle.holders.specs.Blobs.{IsBlob};
ghost use Rattle.bao_tasks.specs.FromFiles.{AreEnough, CollidesBeside, CollidesBesideOutline, HasRoom, HaveBytes, IsExcusedGathering, IsFromFile, IsInFile, IsPutAt, IsRightAt, file_bytes, fixed_of, is_regular, taken_bytes};
ghost use Rattle.bao_windows.specs.Available.{CertifiesEnd};
ghost use Rattle.bao_tasks.specs.TakenFiles.{IsReachOf, IsSourceOf, IsFaultAt, IsGathered, AreKinds, AreOfFiles, Follows, HasSound, IsDrafted, IsRightDraft, IsTried, is_open, open_fault};
ghost use Rattle.bao_tasks.specs.GatheredFaults.{AreAbsent, IsFirstUnread, IsOfFiles, IsQuietGathered, LooksUnfinished, NamesBeside, NamesFirst, StopsBeside};
ghost use Rattle.bao_tasks.specs.declared.missing.Lack.TheVariants as Lack;
ghost use Rattle.bao_tasks.specs.Missing.{IsLackOf};
ghost use Rattle.bao_tasks.specs.MissingInFiles.{IsLackBeside, IsLackIn, IsReachIn};
ghost use Rattle.bao_tasks.specs.Gathered.{Fits, HasOutlineIn, HasRootAndFits, IsFaultOfOutline, gathered_text};
ghost use Rattle.bao_tasks.specs.Givens.{given_contents, is_given_faultless, most_bytes, shown_contents, shown_faultless};
ghost use Rattle.bao_tasks.specs.Worth.{IsWorthAs};

use crate::file_fate::Fate;
use crate::gathered_fault::GatheredFault;
use crate::given::{Given, Opened, held, most_bytes, placed, spool, spooled};
use crate::missing::{Lack, lack_of};
use crate::notes::Notes;
use crate::worth::{Worth, worth_of};
use crate::written::write_whole;
use b3par::Source;
use b3tree::{CHUNK_LEN, bytes_are};
use bao_check::check_outboard;
use bao_decode::read_outboard_on;
use bao_files::{Disk, FileFault, Progress, STANDARD_INPUT, Shown, encode_input};
use bao_text::{Encoding, encoded_len};
use bao_windows::{GatherFault, Wanted, WindowsFault, certified_length, write_windows};
use holders::Form;
use std::alloc::{AllocError, Global};
use std::io::Write;
use std::thread::Threads;

// How long a blob of any length may be for its longest encoding, or copy, to be read to the end from a file that isn't
// regular, if no file certifies the blob's length: so that an endless pipe ends before it has filled a large disk.
const MOST_UNCERTIFIED_LEN: u64 = 1 << 40;

// The progress of shorter files isn't reported.
const LEAST_SHOWN_LEN: u64 = 4 << 20;

/// What is gathered, how, and what is written and noted.
#[derive(Clone, Copy, Debug)]
pub struct Gathering<'a> {
    /// The blob, the form of the files, and the smallest range that they are asked for.
    pub wanted: Wanted<'a>,
    /// How many workers gather, 1 to 64. A number outside counts as the nearest of these.
    pub workers: u32,
    /// The most chunks that the blob may have, unless it is `long`.
    pub capacity: u32,
    /// Whether the blob may have any length.
    pub long: bool,
    /// Whether the blob's combined encoding is written in place of the blob.
    pub encode: bool,
    /// Whether the worth of each file that is taken is counted.
    pub count: bool,
    /// The most missing ranges to show if the blob stays unfinished. With 0 they aren't looked for.
    pub parts: usize,
}

// The files taken so far, the length in bytes of the longest, and whether memory was refused for one. Files that aren't
// regular are copied beside the file at `beside`.
#[derive(Drop)]
struct Taken<'p, S: Source + Drop, P: Progress> {
    givens: Vec<Shown<'p, S, P>>,
    longest: u64,
    starved: bool,
    beside: &'p str,
    progress: &'p P,
}

// How many files the last attempt had, and the fault it ended with, if another file may help.
#[derive(Drop)]
struct Tried {
    count: usize,
    met: Option<GatherFault>,
}

// Notes what became of the file with this index.
fn note(fates: &mut [Fate], place: usize, fate: Fate) {
    if let Some(noted) = fates.get_mut(place) {
        *noted = fate;
    }
}

// Returns whether the file at this path is regular, so that it can be read by position, and what to note of it until
// it is opened. Standard input isn't regular.
fn kind_of<D: Disk>(disk: &D, path: &str) -> (bool, Fate)
    ensures { IsStored (D.at disk.now path.now) → result.0 ≡ is_regular path.now }
{
    if path == STANDARD_INPUT {
        return (false, Fate::Unopened);
    }
    match disk.look(path) {
        Some(extent) => (extent.is_regular, Fate::Unopened),
        None => (false, Fate::Unread),
    }
}

// Returns which of the files are regular. Each is looked at once, so that it is taken exactly once even if it changes.
fn kinds_of<D: Disk>(
    alloc: Global,
    disk: &D,
    paths: &[&str],
    fates: &mut [Fate],
) -> Result<Vec<bool>, AllocError>
    ensures count { IfOk result (λ kinds. length kinds.items ≡ length paths.now) }
    ensures kinds { IfOk result (λ kinds. AreKinds (D.at disk.now) paths.now kinds.items) }
{
    let mut kinds = Vec::with_capacity(alloc, paths.len())?;
    for (place, path) in paths.iter().enumerate() {
        let (is_regular, fate) = kind_of(disk, path);
        kinds.push(is_regular)?;
        note(fates, place, fate);
    }
    Ok(kinds)
}

// Counts the worth of a file, if that is asked for and memory isn't refused.
fn counted<I: Source>(alloc: Global, how: &Gathering<'_>, given: &Given<I>) -> Option<Worth>
    ensures asked { IsSome result → IsTrue how.now.count }
    ensures worth { IfSome result (IsWorthAs how.now.wanted.form how.now.wanted.mode how.now.wanted.root.0 (given_contents I.contents given.now) (is_given_faultless I.faultless given.now)) }
{
    if !how.count {
        return None;
    }
    worth_of(alloc, &how.wanted, given).ok()
}

// How long the blob may be for its longest encoding, or copy, to be read to the end from a file that is copied: as long as
// one of the files taken certifies.
fn reach<S: Source + Drop, P: Progress>(
    alloc: Global,
    how: &Gathering<'_>,
    taken: &Taken<'_, S, P>,
) -> u64
    ensures { (result ≡ 2 ^ 40) ⊎ ((place : ℕ) × CertifiesEnd (shown_contents S.contents) (shown_faultless S.faultless) how.now.wanted taken.now.givens.items place result) }
{
    if let Ok(len) = certified_length(alloc, &how.wanted, taken.givens.as_slice()) {
        return len;
    }
    MOST_UNCERTIFIED_LEN
}

// Opens a file, which is regular or not. One that isn't regular is copied, if the blob may have any length, or else held
// in memory.
fn opened<'a, D: Disk, P: Progress>(
    alloc: Global,
    disk: &D,
    how: &Gathering<'_>,
    path: &'a str,
    regular: bool,
    taken: &Taken<'a, Given<D::Input>, P>,
) -> Result<Opened<D::Input>, FileFault<'a>>
    ensures source { IfOk result (λ made. IsSourceOf (given_contents D.Input.contents) (is_given_faultless D.Input.faultless) (D.faultless disk.now)
        (IsReachOf (shown_contents (given_contents D.Input.contents)) (shown_faultless (is_given_faultless D.Input.faultless)) how.now.wanted how.now.long how.now.capacity taken.now.givens.items)
        (λ n. taken_bytes regular (most_bytes how.now.wanted.form n) (D.at disk.now path.now)) made.given) }
    ensures found { OnOk result (D.at disk.now path.now ≢ Absent) }
    ensures there { IfErr result (λ fault. regular ≡ true → D.faultless disk.now → IsStored (D.at disk.now path.now) → fault ≡ FileFault.Memory) }
{
    if regular {
        return placed(disk, path);
    }
    let input = disk.open(path)?;
    if how.long
        && let Some(draft) = spool(disk, taken.beside)
    {
        let most = most_bytes(&how.wanted.form, reach(alloc, how, taken));
        return spooled(disk, input, draft, most, path, taken.beside);
    }
    let most = most_bytes(&how.wanted.form, CHUNK_LEN as u64 * u64::from(how.capacity));
    held(alloc, input, most, path)
}

// Takes a file, which is regular or not, and returns what became of it.
fn take<D: Disk, P: Progress>(
    alloc: Global,
    disk: &D,
    how: &Gathering<'_>,
    path: &str,
    regular: bool,
    taken: &mut Taken<'_, Given<D::Input>, P>,
) -> Fate
    ensures starved { taken.old.starved ≡ true → taken.new.starved ≡ true }
    ensures absent { D.at disk.now path.now ≡ Absent → taken.new.givens.items ≡ taken.old.givens.items }
    ensures taken { (taken.new.givens.items ≡ taken.old.givens.items)
        ⊎ Follows (shown_contents (given_contents D.Input.contents)) (shown_faultless (is_given_faultless D.Input.faultless)) (D.faultless disk.now)
        (IsReachOf (shown_contents (given_contents D.Input.contents)) (shown_faultless (is_given_faultless D.Input.faultless)) how.now.wanted how.now.long how.now.capacity taken.old.givens.items)
        (λ n. taken_bytes regular (most_bytes how.now.wanted.form n) (D.at disk.now path.now)) taken.old.givens.items taken.new.givens.items }
    ensures there { regular ≡ true → D.faultless disk.now → IsStored (D.at disk.now path.now) → (taken.new.starved ≡ true)
        ⊎ Follows (shown_contents (given_contents D.Input.contents)) (shown_faultless (is_given_faultless D.Input.faultless)) (D.faultless disk.now)
        (IsReachOf (shown_contents (given_contents D.Input.contents)) (shown_faultless (is_given_faultless D.Input.faultless)) how.now.wanted how.now.long how.now.capacity taken.old.givens.items)
        (λ n. taken_bytes regular (most_bytes how.now.wanted.form n) (D.at disk.now path.now)) taken.old.givens.items taken.new.givens.items }
{
    match opened(alloc, disk, how, path, regular, taken) {
        Ok(file) => {
            let Opened { given, len, is_cut } = file;
            let worth = counted(alloc, how, &given);
            taken.longest = taken.longest.max(len);
            match taken.givens.push(Shown::over(given, None, taken.progress)) {
                Ok(()) => Fate::Taken {
                    worth,
                    cut: is_cut.then_some(len),
                },
                Err(_) => {
                    taken.starved = true;
                    Fate::Starved
                }
            }
        }
        Err(FileFault::Memory) => {
            taken.starved = true;
            Fate::Starved
        }
        Err(FileFault::Write(_)) => Fate::Uncopied,
        Err(_) => Fate::Unread,
    }
}

// Opens the first regular file once more, if there are files of this kind to open. This reserves a file descriptor for OUT
// while they are opened.
fn spare<D: Disk>(disk: &D, paths: &[&str], kinds: &[bool], regular: bool) -> Option<D::Input> {
    if !kinds.contains(&regular) {
        return None;
    }
    for (path, is_regular) in paths.iter().zip(kinds) {
        if *is_regular {
            return disk.open(path).ok();
        }
    }
    None
}

// Takes the files of one kind: the regular ones, or the others.
fn take_files<D: Disk, P: Progress>(
    alloc: Global,
    disk: &D,
    how: &Gathering<'_>,
    paths: &[&str],
    kinds: &[bool],
    regular: bool,
    taken: &mut Taken<'_, Given<D::Input>, P>,
    fates: &mut [Fate],
)
    requires count { length kinds.now ≡ length paths.now }
    requires kinds { AreKinds (D.at disk.now) paths.now kinds.now }
    ensures starved { taken.old.starved ≡ true → taken.new.starved ≡ true }
    ensures absent { AreAbsent (D.at disk.now) paths.now → taken.new.givens.items ≡ taken.old.givens.items }
    ensures files { AreOfFiles (shown_contents (given_contents D.Input.contents)) (shown_faultless (is_given_faultless D.Input.faultless)) (D.faultless disk.now)
        (IsReachIn how.now.wanted how.now.long how.now.capacity (D.at disk.now) paths.now) (λ n. file_bytes (most_bytes how.now.wanted.form n) (D.at disk.now)) paths.now taken.old.givens.items
        → AreOfFiles (shown_contents (given_contents D.Input.contents)) (shown_faultless (is_given_faultless D.Input.faultless)) (D.faultless disk.now)
        (IsReachIn how.now.wanted how.now.long how.now.capacity (D.at disk.now) paths.now) (λ n. file_bytes (most_bytes how.now.wanted.form n) (D.at disk.now)) paths.now taken.new.givens.items }
    ensures kept { (bytes : List ℕ) → HasSound (shown_contents (given_contents D.Input.contents)) (shown_faultless (is_given_faultless D.Input.faultless)) taken.old.givens.items bytes → HasSound (shown_contents (given_contents D.Input.contents)) (shown_faultless (is_given_faultless D.Input.faultless)) taken.new.givens.items bytes }
    ensures there { regular ≡ true → D.faultless disk.now → (i : ℕ) (path : Bor (List ℕ)) (bytes : List ℕ) → slice_get paths.now i ≡ Some path → is_regular path.now ≡ true
        → D.at disk.now path.now ≡ Stored bytes → (taken.new.starved ≡ true) ⊎ HasSound (shown_contents (given_contents D.Input.contents)) (shown_faultless (is_given_faultless D.Input.faultless)) taken.new.givens.items bytes }
{
    let _spare = spare(disk, paths, kinds, regular);
    for (place, path) in paths.iter().enumerate() {
        if kinds[place] != regular {
            continue;
        }
        let fate = take(alloc, disk, how, path, regular, taken);
        note(fates, place, fate);
    }
}

// Returns whether another file may help after this fault.
fn is_unfinished(fault: GatherFault) -> bool
    ensures { result ≡ is_open fault }
{
    match fault {
        GatherFault::Unfinished | GatherFault::TooLarge | GatherFault::Starved => true,
        GatherFault::NotTheRoot | GatherFault::Memory => false,
    }
}

// Returns the fault that an attempt ended with, if another file may help after it.
fn unfinished_by(ended: &Result<u64, GatheredFault<'_>>) -> Option<GatherFault>
    ensures { result ≡ open_fault ended.now }
{
    match ended {
        Err(GatheredFault::Gather(fault)) if is_unfinished(*fault) => Some(*fault),
        _ => None,
    }
}

// Returns why no blob was gathered: there was no memory for a file; the fault of the last attempt; or no file could be
// taken, and the first is named.
fn cause_of<'a>(
    starved: bool,
    met: Option<GatherFault>,
    files: &[&'a str],
    path: &'a str,
) -> GatheredFault<'a>
    ensures quiet { IsQuietGathered result }
    ensures files { IsOfFiles result }
    ensures paths { NamesFirst files.now path.entry result }
    ensures cause { (fault : Cause) → result ≡ GatheredFault.Gather fault → (met ≡ Some fault) ⊎ (fault ≡ GatherFault.Unfinished) }
    ensures excused { (starved ≡ true) ⊎ (met ≡ Some GatherFault.Starved) → IsExcusedGathering result }
    ensures met { starved ≡ false → IfSome met (λ fault. result ≡ GatheredFault.Gather fault) }
    ensures none { met ≡ None → IsFirstUnread files.now result }
    ensures unread { (file : Bor (List ℕ)) → result ≡ GatheredFault.File (FileFault.Read file) → (starved ≡ false) × (met ≡ None) }
    ensures unfinished { result ≡ GatheredFault.Gather GatherFault.Unfinished → (starved ≡ false) × ((met ≡ Some GatherFault.Unfinished) ⊎ ((met ≡ None) × (files.now ≡ []))) }
{
    if starved {
        return GatheredFault::File(FileFault::Memory);
    }
    match (met, files.first()) {
        (None, Some(first)) => GatheredFault::File(FileFault::Read(first)),
        (None, None) => GatheredFault::Gather(GatherFault::Unfinished),
        (Some(fault), _) => GatheredFault::Gather(fault),
    }
}

// Looks for what none of the files taken has, if that is asked for and is why the blob stayed unfinished.
fn lack_left<S: Source + Drop, P: Progress>(
    alloc: Global,
    how: &Gathering<'_>,
    met: Option<GatherFault>,
    taken: &Taken<'_, S, P>,
) -> Lack
    ensures unasked { ((met ≡ Some GatherFault.Unfinished) × (taken.now.starved ≡ false)) ⊎ (result ≡ Lack.Unasked) }
    ensures lack { met ≡ Some GatherFault.Unfinished → taken.now.starved ≡ false → ((how.now.parts ≡ 0) × (result ≡ Lack.Unasked))
        ⊎ IsLackOf (shown_contents S.contents) (shown_faultless S.faultless) how.now.wanted taken.now.givens.items how.now.parts result }
{
    match met {
        Some(GatherFault::Unfinished) if how.parts > 0 && !taken.starved => {
            lack_of(alloc, &how.wanted, taken.givens.as_slice(), how.parts)
        }
        _ => Lack::Unasked,
    }
}

// How many chunks a blob may have that is gathered window by window.
fn most_chunks(how: &Gathering<'_>) -> u64
    ensures fits { (n : ℕ) → chunk_count n ≤ result → Fits how.now.long how.now.capacity n }
    ensures room { (n : ℕ) → n < 2 ^ 64 → HasRoom how.now n → chunk_count n ≤ result }
    ensures most { how.now.capacity ≤ result }
{
    let capacity = u64::from(how.capacity);
    if how.long { u64::MAX } else { capacity }
}

// Gathers the blob from the files taken, and writes it to `out` window by window.
fn gather_into<
    'a,
    R: AllocGlobal + Threads + Sync,
    S: Source + Sync + Drop,
    P: Progress + Sync,
    W: Write,
>(
    rt: &R,
    how: &Gathering<'_>,
    taken: &Taken<'_, S, P>,
    path: &'a str,
    out: &mut W,
) -> Result<u64, GatheredFault<'a>>
    ensures gathered { IsGathered (shown_contents S.contents) (shown_faultless S.faultless) taken.now.givens.items how.now ⊤ false (W.contents out.old) (W.contents out.new) result }
    ensures fault { IfErr result (IsFaultAt path.entry) }
{
    let givens = taken.givens.as_slice();
    match write_windows(rt, &how.wanted, how.workers, most_chunks(how), givens, out) {
        Ok(count) => Ok(count),
        Err(WindowsFault::Gather(fault)) => Err(GatheredFault::Gather(fault)),
        Err(WindowsFault::Write) => Err(GatheredFault::File(FileFault::Write(path))),
    }
}

// Gathers the blob into a draft of its own, and writes its combined encoding to `out`.
fn encode_draft<
    'a,
    R: AllocGlobal + Threads + Sync,
    D: Disk,
    S: Source + Sync + Drop,
    P: Progress + Sync,
>(
    rt: &R,
    disk: &D,
    how: &Gathering<'_>,
    taken: &Taken<'_, S, P>,
    path: &'a str,
    out: &mut D::Draft,
) -> Result<u64, GatheredFault<'a>>
    ensures gathered { IsGathered (shown_contents S.contents) (shown_faultless S.faultless) taken.now.givens.items how.now (IsKnown (D.at disk.now path.now)) true (D.Draft.contents out.old) (D.Draft.contents out.new) result }
    ensures fault { IfErr result (IsFaultAt path.entry) }
{
    let Ok(mut draft) = disk.draft(path) else {
        return Err(GatheredFault::File(FileFault::Memory));
    };
    // OUT itself would be written, if it can't be looked at once more.
    if !disk.is_replaced(&draft) {
        return Err(GatheredFault::File(FileFault::Write(path)));
    }
    let count = gather_into(rt, how, taken, path, &mut draft)?;
    let mut blob = disk.read_back(draft, path)?;
    let combined = Encoding::Combined;
    match encode_input(
        rt,
        &how.wanted.mode,
        combined,
        &mut blob,
        count,
        path,
        out,
        path,
    ) {
        Ok(hash) if hash == how.wanted.root => Ok(count),
        // Somebody else has changed the draft, or it can't be read.
        Ok(_) | Err(FileFault::Read(_)) => Err(GatheredFault::File(FileFault::Write(path))),
        Err(fault) => Err(GatheredFault::File(fault)),
    }
}

// Gathers the blob in memory, and writes it, or with `encode` its combined encoding, to `out`.
fn write_held<
    'a,
    R: AllocGlobal + Threads + Sync,
    S: Source + Sync + Drop,
    P: Progress + Sync,
    W: Write,
>(
    rt: &R,
    how: &Gathering<'_>,
    taken: &Taken<'_, S, P>,
    path: &'a str,
    out: &mut W,
) -> Result<u64, GatheredFault<'a>>
    ensures gathered { IsGathered (shown_contents S.contents) (shown_faultless S.faultless) taken.now.givens.items how.now ⊤ how.now.encode (W.contents out.old) (W.contents out.new) result }
    ensures fault { IfErr result (IsFaultAt path.entry) }
{
    let alloc = rt.alloc();
    let mut blob = Vec::new(alloc);
    let count = match gather_into(rt, how, taken, path, &mut blob) {
        Ok(count) => count,
        // Writing to memory fails for want of it alone.
        Err(GatheredFault::File(_)) => return Err(GatheredFault::Gather(GatherFault::Memory)),
        Err(fault) => return Err(fault),
    };
    // A law, so that the proof has what it says: nothing runs.
    bytes_are(blob.as_slice());
    write_whole(
        alloc,
        &how.wanted.mode,
        how.encode,
        blob.as_slice(),
        path,
        out,
    )?;
    Ok(count)
}

// Gathers the blob from the files taken, and writes it, or with `encode` its combined encoding, to `out`, a draft of the
// file at `path`. What can't be replaced is written once all of the blob is verified, unless it may have any length.
fn write_taken<
    'a,
    R: AllocGlobal + Threads + Sync,
    D: Disk,
    S: Source + Sync + Drop,
    P: Progress + Sync,
>(
    rt: &R,
    disk: &D,
    how: &Gathering<'_>,
    taken: &Taken<'_, S, P>,
    path: &'a str,
    out: &mut D::Draft,
) -> Result<u64, GatheredFault<'a>>
    ensures gathered { IsGathered (shown_contents S.contents) (shown_faultless S.faultless) taken.now.givens.items how.now (IsKnown (D.at disk.now path.now)) how.now.encode (D.Draft.contents out.old) (D.Draft.contents out.new) result }
    ensures fault { IfErr result (IsFaultAt path.entry) }
{
    let is_replaced = disk.is_replaced(out);
    if how.encode {
        if is_replaced {
            encode_draft(rt, disk, how, taken, path, out)
        } else {
            write_held(rt, how, taken, path, out)
        }
    } else if how.long || is_replaced {
        gather_into(rt, how, taken, path, out)
    } else {
        write_held(rt, how, taken, path, out)
    }
}

// Reports the number of bytes that are read if each range comes from one file: the length of the longest, but no more
// than the longest encoding of a blob that fits has. Short files aren't reported.
fn begin<P: Progress>(how: &Gathering<'_>, longest: u64, progress: &P) {
    let len = if how.long {
        longest
    } else {
        longest.min(encoded_len(CHUNK_LEN as u64 * u64::from(how.capacity)) as u64)
    };
    if len >= LEAST_SHOWN_LEN {
        progress.begin(len);
    }
}

// Returns whether all files have to be taken first. A `long` blob is written to an OUT that can't be replaced as it
// is gathered, so there is only one attempt.
fn is_too_early(how: &Gathering<'_>, first: bool, is_replaced: bool) -> bool
    ensures replaced { is_replaced ≡ true → result ≡ false }
    ensures again { first ≡ false → result ≡ false }
{
    first && how.long && !is_replaced
}

// Gathers the blob from the files taken, if these are more than in the last attempt, into a draft of the file at `path`
// and returns its length in bytes with the draft. Returns `None`, and notes the fault, if another file may help.
fn attempt<
    'a,
    R: AllocGlobal + Threads + Sync,
    D: Disk,
    S: Source + Sync + Drop,
    P: Progress + Sync,
>(
    rt: &R,
    disk: &D,
    how: &Gathering<'_>,
    first: bool,
    taken: &Taken<'_, S, P>,
    tried: &mut Tried,
    path: &'a str,
) -> Result<Option<(u64, D::Draft)>, GatheredFault<'a>>
    ensures ok { IfOk result (λ found. IfSome found (λ made. (blob : List ℕ) × HasRootAndFits how.now how.now.wanted.mode how.now.wanted.root.0 blob × (made.0 ≡ length blob)
        × (IsKnown (D.at disk.now path.now) → D.Draft.contents made.1 ≡ Some (gathered_text how.now.encode how.now.wanted.mode blob)))) }
    ensures fault { IfErr result (IsFaultAt path.entry) }
    ensures right { IsKnown (D.at disk.now path.now) → (blob : List ℕ) → IsBlob (fixed_of how.now) blob
        → IsTried D.Draft.contents how.now how.now.wanted.mode blob result ⊎ HasCollision (IsFromSource how.now.wanted.form (shown_contents S.contents) (shown_faultless S.faultless) taken.now.givens.items) (fixed_of how.now) blob }
    ensures closed { IfErr result (λ fault. open_fault (Err fault) ≡ None) }
    ensures none { length taken.now.givens.items ≡ tried.old.count → MatchResult result (λ found. found ≡ None) (λ fault. fault ≡ GatheredFault.File FileFault.Memory) }
    ensures same { length taken.now.givens.items ≡ tried.old.count → tried.new ≡ tried.old }
    ensures unmet { result ≡ Ok None → (tried.old.count ≡ 0) ⊎ IsSome tried.old.met
        → (first ≡ false → length taken.now.givens.items ≡ tried.new.count) × ((tried.new.count ≡ 0) ⊎ IsSome tried.new.met) }
    ensures met { IfSome tried.old.met (λ fault. is_open fault ≡ true) → IfSome tried.new.met (λ fault. is_open fault ≡ true) }
    ensures too_large { AreSlices how.now.wanted.form → tried.new.met ≡ Some GatherFault.TooLarge → (tried.old.met ≡ Some GatherFault.TooLarge)
        ⊎ AreTooLong (IsFromSource how.now.wanted.form (shown_contents S.contents) (shown_faultless S.faultless) taken.now.givens.items) (fixed_of how.now) how.now.capacity }
    ensures left { result ≡ Ok None → IsKnown (D.at disk.now path.now) → (blob : List ℕ) → AreEnough how.now.wanted.form (fixed_of how.now) how.now blob (HasSound (shown_contents S.contents) (shown_faultless S.faultless) taken.now.givens.items)
        → (tried.old.count ≡ 0) ⊎ (tried.old.met ≡ Some GatherFault.Starved) → (tried.new.met ≡ Some GatherFault.Starved) ⊎ HasCollision (IsFromSource how.now.wanted.form (shown_contents S.contents) (shown_faultless S.faultless) taken.now.givens.items) (fixed_of how.now) blob }
{
    let Ok(mut out) = disk.draft(path) else {
        return Err(GatheredFault::File(FileFault::Memory));
    };
    let is_replaced = disk.is_replaced(&out);
    let count = taken.givens.len();
    if is_too_early(how, first, is_replaced) {
        return Ok(None);
    }
    if count == tried.count {
        return Ok(None);
    }
    tried.count = count;
    begin(how, taken.longest, taken.progress);
    let ended = write_taken(rt, disk, how, taken, path, &mut out);
    taken.progress.end();
    tried.met = unfinished_by(&ended);
    if tried.met.is_some() {
        return Ok(None);
    }
    match ended {
        Ok(count) => Ok(Some((count, out))),
        Err(fault) => Err(fault),
    }
}

// Gathers the blob, as `gather_on` does, and returns its length in bytes with the draft of the file at `path`.
fn drafted<'a, R: AllocGlobal + Threads + Sync, D: Disk, P: Progress + Sync>(
    rt: &R,
    disk: &D,
    how: &Gathering<'_>,
    files: &[&'a str],
    path: &'a str,
    notes: &mut Notes,
    progress: &P,
) -> Result<(u64, D::Draft), GatheredFault<'a>>
    ensures ok { IfOk result (λ made. (blob : List ℕ) × HasRootAndFits how.now how.now.wanted.mode how.now.wanted.root.0 blob × (made.0 ≡ length blob)
        × (IsKnown (D.at disk.now path.now) → D.Draft.contents made.1 ≡ Some (gathered_text how.now.encode how.now.wanted.mode blob))) }
    ensures err { IfErr result IsQuietGathered }
    ensures files { IfErr result IsOfFiles }
    ensures paths { IfErr result (NamesFirst files.now path.entry) }
    ensures absent { AreAbsent (D.at disk.now) files.now → MatchResult result (λ _. ⊥) (IsFirstUnread files.now) }
    ensures unread { (file : Bor (List ℕ)) → IsErrOf result (GatheredFault.File (FileFault.Read file)) → D.faultless disk.now → (text : List ℕ) → IsInFile (D.at disk.now) files.now text → ⊥ }
    ensures right { D.faultless disk.now → IsKnown (D.at disk.now path.now) → (blob : List ℕ) → IsBlob (fixed_of how.now) blob
        → IsRightDraft D.Draft.contents how.now how.now.wanted.mode blob result ⊎ HasCollision (IsFromFile how.now.wanted.form (fixed_of how.now) how.now.long (D.at disk.now) files.now) (fixed_of how.now) blob }
    ensures too_large { AreSlices how.now.wanted.form → D.faultless disk.now → IsErrOf result (GatheredFault.Gather GatherFault.TooLarge)
        → AreTooLong (IsFromFile how.now.wanted.form (fixed_of how.now) how.now.long (D.at disk.now) files.now) (fixed_of how.now) how.now.capacity }
    ensures available { D.faultless disk.now → IsKnown (D.at disk.now path.now) → (blob : List ℕ) → AreEnough how.now.wanted.form (fixed_of how.now) how.now blob (IsInFile (D.at disk.now) files.now)
        → IsDrafted D.Draft.contents how.now how.now.wanted.mode blob result ⊎ HasCollision (IsFromFile how.now.wanted.form (fixed_of how.now) how.now.long (D.at disk.now) files.now) (fixed_of how.now) blob }
    ensures looked { LooksUnfinished result notes.old.lack notes.new.lack }
    ensures listed { IsErrOf result (GatheredFault.Gather GatherFault.Unfinished) → D.faultless disk.now
        → IsLackIn how.now.wanted how.now.long how.now.capacity how.now.parts (D.at disk.now) files.now notes.new.lack }
{
    let alloc = rt.alloc();
    let Ok(kinds) = kinds_of(alloc, disk, files, notes.fates.as_mut_slice()) else {
        return Err(GatheredFault::File(FileFault::Memory));
    };
    let kinds = kinds.as_slice();
    let mut taken = Taken {
        givens: Vec::new(alloc),
        longest: 0,
        starved: false,
        beside: path,
        progress,
    };
    let mut tried = Tried {
        count: 0,
        met: None,
    };
    let fates = notes.fates.as_mut_slice();
    take_files(alloc, disk, how, files, kinds, true, &mut taken, fates);
    match attempt(rt, disk, how, true, &taken, &mut tried, path) {
        Ok(None) => {}
        Ok(Some(made)) => return Ok(made),
        Err(fault) => return Err(fault),
    }
    let fates = notes.fates.as_mut_slice();
    take_files(alloc, disk, how, files, kinds, false, &mut taken, fates);
    match attempt(rt, disk, how, false, &taken, &mut tried, path) {
        Ok(None) => {}
        Ok(Some(made)) => return Ok(made),
        Err(fault) => return Err(fault),
    }
    notes.lack = lack_left(alloc, how, tried.met, &taken);
    Err(cause_of(taken.starved, tried.met, files, path))
}

/// Gathers the blob with this root from untrusted files on `disk`; writes it, or with `encode` its combined encoding,
/// to the file at `path` there; and returns the length of the blob in bytes.
///
/// The blob has at most `capacity` chunks, or with `long` any length. As the form says, the files are combined encodings,
/// or plain copies beside an outboard encoding that was accepted under this root in this mode.
///
/// The file at `path` is replaced once the whole blob is verified; until then the blob is written to a draft, window by
/// window ([`write_windows`]), in the memory of two windows. An encoding is made of a blob in a draft of its own
/// ([`encode_input`]). A file that can't be replaced ([`Disk::is_replaced`]), such as a device or a pipe, is written once
/// the blob is complete in memory. A `long` blob that isn't encoded is written there as it is gathered, so a beginning may
/// be there after a fault.
///
/// Regular files are read by position, only where workers ask for bytes. Other files, such as pipes, are opened only if
/// the regular ones leave the blob unfinished, or from the start for a `long` blob and a `path` that can't be replaced.
/// They are held in memory, and at most one byte more is read of them than the longest encoding, or copy, of a blob of
/// `capacity` chunks has. For a `long` blob they are copied to drafts of the file at `path` instead, if that can be
/// replaced: at most one byte more than the longest encoding, or copy, has of a blob of the length that the files taken
/// before certify or, if none does, of 2^40 bytes. A file that can't be opened, read or copied, or for which there is no
/// descriptor or no memory, is left out.
///
/// What became of each file is noted in `notes.fates` under its index, as far as that goes, whatever the result; with
/// `count` also its worth ([`worth_of`]), unless memory is refused. If the blob stays
/// unfinished (901), `notes.lack` says what no file has ([`lack_of`]), unless `parts` is 0 or there are no files;
/// otherwise it is unchanged or `Unasked`. The bytes read are reported to `progress` if the longest file has at least
/// 4 MiB; this doesn't affect the result.
///
/// Refuses with `File` and `Read` of the first file if no file can be read; with `File` and `Memory` if there is none
/// for a file; with `Gather` if the blob was not gathered; with `File` and `Encoding` if there is no memory
/// for the encoding; and with `File` and `Write` if `path` can't be created or written, or its draft can't be read.
/// All files are then unchanged, except one that can't be replaced.
///
/// If no file is at any of the paths, the fault is `Read` of the first, or memory was refused: never 901. If calls of
/// the disk fail for want of memory alone and one of the files, other than standard input, is there, it isn't `Read`.
///
/// On a disk whose calls fail for want of memory alone, and if it is known what is at `path`, one true file among any
/// others suffices: the combined encoding of a blob with this root or, beside the blob's own outboard encoding, a copy of
/// the blob, which then has at least one byte. No file need be complete: it suffices that the slice of the last byte cut
/// from some file is the blob's, and so for each group, or with `Grain::Chunk` each chunk; or that some copy has the
/// blob's last chunk in its place, and for each group, or chunk, some copy has the blob's bytes there. The blob, or its
/// encoding, is then put at `path`, unless memory is refused, writing fails or a collision is exhibited: two different
/// inputs with the same chaining value, one from the blob and one from a slice that is accepted under the root and is cut
/// from a file, or made from a range of one. Files with the blob have fewer than 2^64 bytes each, and none of them is
/// standard input, `-`, of which only a limited number of bytes is read.
///
/// Whatever the files are, on such a disk what is put at `path` is every blob with this root, and at 902 `NotTheRoot`
/// there is none; or a collision is exhibited. At 805 `TooLarge`, every blob with this root has more chunks than
/// `capacity`, or a collision is exhibited; this is for combined encodings only.
///
/// At 901 on such a disk, `notes.lack` is exact, unless memory was refused to look for it: no regular file has a group, or
/// chunk, of the missing ranges, and some file has each other one that was looked for. If the length is certified, some
/// file certifies it, and it is that of every blob with this root, or a collision is exhibited; otherwise no regular file
/// has the last chunk. Standard input may have more than what is read of it.
pub fn gather_on<'a, R: AllocGlobal + Threads + Sync, D: Disk, P: Progress + Sync>(
    rt: &R,
    disk: &mut D,
    how: &Gathering<'_>,
    files: &[&'a str],
    path: &'a str,
    notes: &mut Notes,
    progress: &P,
) -> Result<u64, GatheredFault<'a>>
    ensures done { IfOk result (λ count. (blob : List ℕ) × HasRootAndFits how.now how.now.wanted.mode how.now.wanted.root.0 blob × (count ≡ length blob)
        × Puts (D.at disk.old) (D.at disk.new) path.now (Some (gathered_text how.now.encode how.now.wanted.mode blob))) }
    ensures kept { OnErr result (KeepsFiles (D.at disk.old) (D.at disk.new)) }
    ensures err { IfErr result IsQuietGathered }
    ensures files { IfErr result IsOfFiles }
    ensures paths { IfErr result (NamesFirst files.now path.entry) }
    ensures absent { AreAbsent (D.at disk.old) files.now → MatchResult result (λ _. ⊥) (IsFirstUnread files.now) }
    ensures unread { (file : Bor (List ℕ)) → IsErrOf result (GatheredFault.File (FileFault.Read file)) → D.faultless disk.old → (text : List ℕ) → IsInFile (D.at disk.old) files.now text → ⊥ }
    ensures right { D.faultless disk.old → IsKnown (D.at disk.old path.now) → (blob : List ℕ) → IsBlob (fixed_of how.now) blob
        → IsRightAt (D.at disk.old) (D.at disk.new) path.now how.now how.now.wanted.mode blob result
        ⊎ HasCollision (IsFromFile how.now.wanted.form (fixed_of how.now) how.now.long (D.at disk.old) files.now) (fixed_of how.now) blob }
    ensures too_large { AreSlices how.now.wanted.form → D.faultless disk.old → IsErrOf result (GatheredFault.Gather GatherFault.TooLarge)
        → AreTooLong (IsFromFile how.now.wanted.form (fixed_of how.now) how.now.long (D.at disk.old) files.now) (fixed_of how.now) how.now.capacity }
    ensures available { D.faultless disk.old → IsKnown (D.at disk.old path.now) → (blob : List ℕ) → AreEnough how.now.wanted.form (fixed_of how.now) how.now blob (IsInFile (D.at disk.old) files.now)
        → IsPutAt (D.at disk.old) (D.at disk.new) path.now how.now how.now.wanted.mode blob result
        ⊎ HasCollision (IsFromFile how.now.wanted.form (fixed_of how.now) how.now.long (D.at disk.old) files.now) (fixed_of how.now) blob }
    ensures looked { LooksUnfinished result notes.old.lack notes.new.lack }
    ensures listed { IsErrOf result (GatheredFault.Gather GatherFault.Unfinished) → D.faultless disk.old
        → IsLackIn how.now.wanted how.now.long how.now.capacity how.now.parts (D.at disk.old) files.now notes.new.lack }
{
    let (count, out) = drafted(rt, disk, how, files, path, notes, progress)?;
    disk.finish(out, path)?;
    Ok(count)
}

/// Gathers the blob as [`gather_on`] does, from plain copies beside the outboard encoding in the file at `outboard`,
/// which takes the place of the form in `how`.
///
/// The outboard encoding is read, as far as it matters, and checked under this root in this mode before any copy is
/// looked at. Copies may be complete, cut, changed, or any bytes.
///
/// Refuses an outboard encoding that can't be read (`File` and `Read` with its path, or `File` and `Memory`) or isn't
/// accepted (`Outboard` with its first fault, 501 to 504); then as [`gather_on`] does. If no file is at any of the
/// copies' paths, the fault is one of the outboard encoding, or `Read` of the first copy, or memory was refused.
///
/// On a disk as for [`gather_on`], beside the outboard encoding of a blob of at least one byte, one copy among any other
/// files suffices, and so do several that have its bytes together. The blob, or its encoding, is then put at `path`,
/// unless memory is refused, writing fails or a collision is exhibited, one input from the blob and one from a slice that
/// is made from the parents of its outboard encoding and a range of a file.
///
/// Whatever the files are, what is put at `path` is every blob with this root, and at 902 there is none; or such a
/// collision is exhibited beside the outboard encoding that was accepted. At 901 `notes.lack` is exact as
/// for [`gather_on`], beside that outboard encoding.
pub fn gather_beside_on<'a, R: AllocGlobal + Threads + Sync, D: Disk, P: Progress + Sync>(
    rt: &R,
    disk: &mut D,
    how: &Gathering<'_>,
    outboard: &'a str,
    files: &[&'a str],
    path: &'a str,
    notes: &mut Notes,
    progress: &P,
) -> Result<u64, GatheredFault<'a>>
    ensures done { IfOk result (λ count. (blob : List ℕ) × HasRootAndFits how.now how.now.wanted.mode how.now.wanted.root.0 blob × (count ≡ length blob)
        × Puts (D.at disk.old) (D.at disk.new) path.now (Some (gathered_text how.now.encode how.now.wanted.mode blob))) }
    ensures outline { OnOk result (HasOutlineIn (D.at disk.old outboard.now) how.now.wanted.mode how.now.wanted.root.0) }
    ensures kept { OnErr result (KeepsFiles (D.at disk.old) (D.at disk.new)) }
    ensures outboard { IfErr result (IsFaultOfOutline (D.at disk.old outboard.now) how.now.wanted.mode how.now.wanted.root.0) }
    ensures err { IfErr result IsQuietGathered }
    ensures paths { IfErr result (NamesBeside outboard.entry files.now path.entry) }
    ensures absent { AreAbsent (D.at disk.old) files.now → MatchResult result (λ _. ⊥) (λ fault. StopsBeside outboard.entry fault ⊎ IsFirstUnread files.now fault) }
    ensures unread { (file : Bor (List ℕ)) → IsErrOf result (GatheredFault.File (FileFault.Read file)) → D.faultless disk.old → (text : List ℕ) → IsInFile (D.at disk.old) files.now text → file ≡ outboard.entry }
    ensures right { D.faultless disk.old → IsKnown (D.at disk.old path.now) → (blob : List ℕ) → IsBlob (fixed_of how.now) blob
        → IsRightAt (D.at disk.old) (D.at disk.new) path.now how.now how.now.wanted.mode blob result
        ⊎ CollidesBesideOutline (fixed_of how.now) how.now.long (D.at disk.old) outboard.now files.now blob }
    ensures available { D.faultless disk.old → IsKnown (D.at disk.old path.now) → (blob : List ℕ) → IsBlob (fixed_of how.now) blob
        → HasRoom how.now (length blob) → 0 < length blob → length blob < 2 ^ 64 → D.at disk.old outboard.now ≡ Stored (outboard_text how.now.wanted.mode blob)
        → IsInFile (D.at disk.old) files.now blob ⊎ HaveBytes (IsInFile (D.at disk.old) files.now) how.now.wanted.grain blob
        → IsPutAt (D.at disk.old) (D.at disk.new) path.now how.now how.now.wanted.mode blob result
        ⊎ CollidesBeside (fixed_of how.now) how.now.long (D.at disk.old) files.now blob }
    ensures looked { LooksUnfinished result notes.old.lack notes.new.lack }
    ensures listed { IsErrOf result (GatheredFault.Gather GatherFault.Unfinished) → D.faultless disk.old
        → IsLackBeside how.now.wanted.root how.now.wanted.mode how.now.wanted.grain how.now.long how.now.capacity how.now.parts (D.at disk.old) outboard.now files.now notes.new.lack }
{
    let wanted = &how.wanted;
    // For the prover alone: the flags of a mode are apart from the tree's.
    wanted.mode.is_keyed();
    let alloc = rt.alloc();
    let text = read_outboard_on(alloc, disk, &wanted.mode, &wanted.root, outboard)?;
    // A law, so that the proof has what it says: nothing runs.
    bytes_are(text.as_slice());
    let outline = match check_outboard(alloc, &wanted.mode, &wanted.root, text.as_slice()) {
        Ok(outline) => outline,
        Err(fault) => return Err(GatheredFault::Outboard(fault)),
    };
    let form = Form::Bare(&outline);
    let beside = Gathering {
        wanted: Wanted { form, ..*wanted },
        ..*how
    };
    gather_on(rt, disk, &beside, files, path, notes, progress)
}
