ghost use Rattle.std.specs.Prelude.{◌≡◌, [], ◌∷◌, IfErr, IfOk, List, codes, map, string_bytes, true, ℕ};
ghost use Rattle.std.specs.Option.{option_copied};
ghost use Rattle.clap.specs.Words.{FailsBy, fault_of, first_of, found_of, kind_of, rows_of, subcommand_of, subcommand_rows_of, takes};
ghost use Rattle.clap.specs.declared.error.kind.ErrorKind.TheVariants.{OutOfMemory};
ghost use Rattle.bao_request.specs.CommandLine.{AreGood, Asks, AsksForHelp, IsHelp, IsRead, program_app};
ghost use Rattle.bao_request.specs.Requests.{Finds, Gives, GivesEncoding, GivesFlag, GivesNumber, GivesRange, GivesSurveyTask, GivesTask, GivesText, GivesTexts};

use crate::rules::program;
use crate::tasks::{Asked, GatherTask, Request, Survey, SurveyTask, Task};
use bao_text::{Encoding, Part};
use clap::error::ErrorKind;
use clap::{ArgMatches, Error};
use std::alloc::{AllocError, Global};

// The text of the argument `id`.
fn text<'a>(words: &ArgMatches<'a>, id: &str) -> Option<&'a str>
    ensures value { option_copied result ≡ first_of id.now (rows_of (found_of words.now)) }
    ensures found { Finds (λ text. GivesText (rows_of (found_of words.now)) id.now text.now) result }
{
    words.get_str(id)
}

// The number of the argument `id`.
fn number(words: &ArgMatches<'_>, id: &str) -> Option<u64>
    ensures { Finds (GivesNumber 64 (rows_of (found_of words.now)) id.now) result }
{
    words.get_one(id)
}

// The number of the argument `id`, if it fits 32 bits.
fn count(words: &ArgMatches<'_>, id: &str) -> Option<u32>
    ensures { Finds (GivesNumber 32 (rows_of (found_of words.now)) id.now) result }
{
    u32::try_from(number(words, id)?).ok()
}

// Whether the flag `id` is given.
fn flag(words: &ArgMatches<'_>, id: &str) -> bool
    ensures { GivesFlag (rows_of (found_of words.now)) id.now result }
{
    matches!(text(words, id), Some("true"))
}

// All texts of the argument `id`.
fn texts<'m, 'a>(words: &'m ArgMatches<'a>, id: &str) -> Option<&'m [&'a str]>
    ensures { Finds (λ texts. GivesTexts (rows_of (found_of words.now)) id.now texts.now) result }
{
    words.get_strs(id)
}

// The range that the arguments START and LEN give.
fn range(words: &ArgMatches<'_>) -> Option<(u64, u64)>
    ensures { Finds (λ range. GivesRange (rows_of (found_of words.now)) range.0 range.1) result }
{
    Some((number(words, "START")?, number(words, "LEN")?))
}

// The only file, if there is one alone.
fn single<'a>(files: &[&'a str]) -> Option<&'a str>
    ensures { Finds (λ file. files.now ≡ file ∷ []) result }
{
    match files {
        [file] => Some(*file),
        _ => None,
    }
}

// The task of `hash` with one file.
fn hash_of<'a>(words: &ArgMatches<'a>) -> Option<Task<'a>>
    ensures { Finds (GivesTask (codes "hash") (rows_of (found_of words.now))) result }
{
    Some(Task::Hash {
        at: number(words, "at")?,
        length: count(words, "length")?,
        file: single(texts(words, "FILE")?)?,
    })
}

// The task of `encode` or `outboard`, or of `slice` with its range.
fn encode_of<'a>(encoding: Encoding, words: &ArgMatches<'a>) -> Option<Task<'a>>
    ensures { (name : List ℕ) → GivesEncoding name (rows_of (found_of words.now)) encoding → Finds (GivesTask name (rows_of (found_of words.now))) result }
{
    Some(Task::Encode {
        encoding,
        file: text(words, "FILE")?,
        out: text(words, "OUT")?,
    })
}

// The task of `slice`.
fn slice_of<'a>(words: &ArgMatches<'a>) -> Option<Task<'a>>
    ensures { Finds (GivesTask (codes "slice") (rows_of (found_of words.now))) result }
{
    let (start, len) = range(words)?;
    encode_of(Encoding::Slice { start, len }, words)
}

// The task of `cut-slice`.
fn cut_slice_of<'a>(words: &ArgMatches<'a>) -> Option<Task<'a>>
    ensures { Finds (GivesTask (codes "cut-slice") (rows_of (found_of words.now))) result }
{
    let (start, len) = range(words)?;
    Some(Task::CutSlice {
        root: text(words, "ROOT")?,
        start,
        len,
        outboard: text(words, "outboard"),
        file: text(words, "ENC")?,
        out: text(words, "OUT")?,
    })
}

// The task of `decode`, with or without `--outboard`.
fn decode_of<'a>(words: &ArgMatches<'a>) -> Option<Task<'a>>
    ensures { Finds (GivesTask (codes "decode") (rows_of (found_of words.now))) result }
{
    let root = text(words, "ROOT")?;
    let file = text(words, "ENC")?;
    let out = text(words, "OUT")?;
    match text(words, "outboard") {
        Some(outboard) => Some(Task::DecodeCopy {
            root,
            outboard,
            copy: file,
            out,
        }),
        None => Some(Task::Decode {
            root,
            part: Part::Whole,
            file,
            out,
        }),
    }
}

// The task of `decode-slice`.
fn decode_slice_of<'a>(words: &ArgMatches<'a>) -> Option<Task<'a>>
    ensures { Finds (GivesTask (codes "decode-slice") (rows_of (found_of words.now))) result }
{
    let (start, len) = range(words)?;
    Some(Task::Decode {
        root: text(words, "ROOT")?,
        part: Part::Slice { start, len },
        file: text(words, "SLICE")?,
        out: text(words, "OUT")?,
    })
}

// The task of `gather`, if no argument is missing.
fn gather_of<'a>(alloc: Global, words: &ArgMatches<'a>) -> Result<Option<Task<'a>>, AllocError>
    ensures { IfOk result (Finds (GivesTask (codes "gather") (rows_of (found_of words.now)))) }
{
    let (Some(root), Some(workers), Some(capacity), Some(files), Some(out)) = (
        text(words, "ROOT"),
        count(words, "workers"),
        count(words, "capacity"),
        texts(words, "FILE"),
        text(words, "OUT"),
    ) else {
        return Ok(None);
    };
    Ok(Some(Task::Gather(GatherTask {
        root,
        workers,
        capacity,
        long: flag(words, "long"),
        outboard: text(words, "outboard"),
        salvage: flag(words, "salvage"),
        encode: flag(words, "encode"),
        missing: text(words, "missing"),
        files: files.to_vec(alloc)?,
        out,
    })))
}

// The task of `replay`, if no argument is missing.
fn replay_of<'a>(alloc: Global, words: &ArgMatches<'a>) -> Result<Option<Task<'a>>, AllocError>
    ensures { IfOk result (Finds (GivesTask (codes "replay") (rows_of (found_of words.now)))) }
{
    let capacity = count(words, "capacity");
    let (Some(root), Some(capacity), Some(script), Some(files)) = (
        text(words, "ROOT"),
        capacity,
        text(words, "SCRIPT"),
        texts(words, "FILE"),
    ) else {
        return Ok(None);
    };
    let files = files.to_vec(alloc)?;
    Ok(Some(Task::Replay {
        root,
        capacity,
        script,
        files,
    }))
}

// The task of the subcommand `name`, if no argument is missing.
fn task_of<'a>(
    alloc: Global,
    name: &str,
    words: &ArgMatches<'a>,
) -> Result<Option<Task<'a>>, AllocError>
    ensures { IfOk result (Finds (GivesTask name.now (rows_of (found_of words.now)))) }
{
    match name {
        "hash" => Ok(hash_of(words)),
        "encode" => Ok(encode_of(Encoding::Combined, words)),
        "outboard" => Ok(encode_of(Encoding::Outboard, words)),
        "slice" => Ok(slice_of(words)),
        "cut-slice" => Ok(cut_slice_of(words)),
        "decode" => Ok(decode_of(words)),
        "decode-slice" => Ok(decode_slice_of(words)),
        "gather" => gather_of(alloc, words),
        "replay" => replay_of(alloc, words),
        _ => Ok(None),
    }
}

// The survey of `hash` with several files, if no argument is missing.
fn hashes_of<'a>(
    alloc: Global,
    words: &ArgMatches<'a>,
) -> Result<Option<SurveyTask<'a>>, AllocError>
    ensures { IfOk result (Finds (GivesSurveyTask (codes "hash") (rows_of (found_of words.now)))) }
{
    let (Some(at), Some(length), Some(files)) = (
        number(words, "at"),
        count(words, "length"),
        texts(words, "FILE"),
    ) else {
        return Ok(None);
    };
    if files.len() < 2 {
        return Ok(None);
    }
    Ok(Some(SurveyTask::Hashes {
        at,
        length,
        bare: flag(words, "no-names"),
        files: files.to_vec(alloc)?,
    }))
}

// The survey of `check`.
fn check_of<'a>(words: &ArgMatches<'a>) -> Option<SurveyTask<'a>>
    ensures { Finds (GivesSurveyTask (codes "check") (rows_of (found_of words.now))) result }
{
    Some(SurveyTask::Check {
        quiet: flag(words, "quiet"),
        ranges: flag(words, "ranges"),
        sums: text(words, "SUMS")?,
    })
}

// The survey of `info`, if no argument is missing.
fn info_of<'a>(alloc: Global, words: &ArgMatches<'a>) -> Result<Option<SurveyTask<'a>>, AllocError>
    ensures { IfOk result (Finds (GivesSurveyTask (codes "info") (rows_of (found_of words.now)))) }
{
    let Some(files) = texts(words, "FILE") else {
        return Ok(None);
    };
    let files = files.to_vec(alloc)?;
    Ok(Some(SurveyTask::Info { files }))
}

// The survey of the subcommand `name`, if no argument is missing.
fn survey_of<'a>(
    alloc: Global,
    name: &str,
    words: &ArgMatches<'a>,
) -> Result<Option<SurveyTask<'a>>, AllocError>
    ensures { IfOk result (Finds (GivesSurveyTask name.now (rows_of (found_of words.now)))) }
{
    match name {
        "hash" => hashes_of(alloc, words),
        "check" => Ok(check_of(words)),
        "info" => info_of(alloc, words),
        _ => Ok(None),
    }
}

// What the subcommand and its arguments ask for, if none is missing.
fn asked_of<'a>(alloc: Global, matches: &ArgMatches<'a>) -> Result<Option<Asked<'a>>, AllocError>
    ensures { IfOk result (Finds (Gives (subcommand_rows_of matches.now))) }
{
    let Some((name, words)) = matches.subcommand() else {
        return Ok(None);
    };
    let key = text(words, "key");
    let key_file = text(words, "key-file");
    let context = text(words, "context");
    let verbose = flag(words, "verbose");
    if let Some(task) = task_of(alloc, name, words)? {
        return Ok(Some(Asked::One(Request {
            key,
            key_file,
            context,
            verbose,
            task,
        })));
    }
    if let Some(task) = survey_of(alloc, name, words)? {
        return Ok(Some(Asked::Many(Survey {
            key,
            key_file,
            context,
            verbose,
            task,
        })));
    }
    Ok(None)
}

// What `clap` finds in the arguments.
fn matches_of<'a>(alloc: Global, words: &'a [String]) -> Result<ArgMatches<'a>, Error>
    ensures rows { IfOk result (λ matches. subcommand_rows_of matches ≡ subcommand_of program_app (map string_bytes words.entry.now)) }
    ensures kinds { FailsBy (fault_of program_app (map string_bytes words.entry.now)) result }
    ensures passes { IfErr result (λ error. takes program_app (map string_bytes words.entry.now) ≡ true → kind_of error ≡ OutOfMemory) }
{
    let program = program(alloc)?;
    program.try_get_matches_from(words)
}

// The error for a missing argument. `clap` lets no such arguments through.
fn incomplete(alloc: Global) -> Result<Error, AllocError>
    ensures { IfOk result (λ error. kind_of error ≡ ErrorKind.MissingSubcommand) }
{
    program(alloc)?.error(ErrorKind::MissingSubcommand, "a command is missing")
}

/// Parses the arguments, of which the first is the program's name.
///
/// Refuses with `clap`'s error what `clap` refuses; help and the version are such errors, too. Otherwise refuses
/// only if out of memory.
pub fn parse<'a>(alloc: Global, words: &'a [String]) -> Result<Asked<'a>, Error>
    ensures request { IfOk result (Asks (map string_bytes words.entry.now)) }
    ensures help { IfErr result (λ error. IsHelp (kind_of error) → AsksForHelp (map string_bytes words.entry.now)) }
    ensures refused { IsRead (map string_bytes words.entry.now) result }
    ensures good { IfErr result (λ error. AreGood (map string_bytes words.entry.now) → kind_of error ≡ OutOfMemory) }
{
    let matches = matches_of(alloc, words)?;
    match asked_of(alloc, &matches)? {
        Some(asked) => Ok(asked),
        None => Err(incomplete(alloc)?),
    }
}
