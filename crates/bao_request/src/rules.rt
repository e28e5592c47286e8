ghost use Rattle.std.specs.Prelude.{◌≡◌, IfOk, Some, false};
ghost use Rattle.clap.specs.Words.{app_of, rule_of, with_rule, with_subcommand};
ghost use Rattle.clap.specs.declared.builder.command.Command.TheViews.{out-Command};
ghost use Rattle.bao_request.specs.CommandLine.{IsApp, any_number, at_rule, bare_app, capacity_rule, checkers_app, cut_slice_app, decode_app, decode_slice_app, encode_app, check_app, encode_rule, files_rule, gather_app, gatherers_app, hash_app, info_app, length_rule, long_rule, missing_rule, no_names_rule, option_rule, outboard_app, outboard_rule, place_rule, program_app, quiet_rule, ranges_rule, replay_app, salvage_rule, slice_app, verbose_rule, with_cut_rules, with_encoding_rules, with_file_rules, with_holders_rules, with_key_rules, with_mode_rules, with_output_rules, with_range_rules, with_script_rules, with_slice_rules, workers_rule, writers_app};

use clap::{Arg, ArgAction, Command, value_parser};
use std::alloc::{AllocError, Global};

// The most bytes of output that one command prints. `--at` gives the others.
const MOST_OUTPUT: i64 = 65_536;

// The largest `--capacity`, in chunks.
const MOST_CHUNKS: i64 = 65_536;

// The most worker threads.
const MOST_WORKERS: i64 = 64;

// The help of the options that choose the mode.
const OF_KEY: &str = "Use keyed hashing with this key, 64 hex digits; other users can see it in ps";

const OF_KEY_FILE: &str =
    "Read the key from this file: 64 hex digits, optionally followed by a line feed";

// The help of ROOT.
const OF_ROOT: &str = "BLAKE3 hash of the blob, 64 hex digits";

// The help of START.
const OF_START: &str = "First byte of the range, counted from 0";

// The help of OUT.
const OF_OUT: &str = "File to write; an existing file is replaced";

// The help of `--verbose`.
const OF_VERBOSE: &str =
    "Report on standard error what is wrong with each file, and the system's reason";

// What `--help` prints below the options.
const OF_PROGRAM: &str =
    "FILE, ENC, SLICE and SCRIPT may be -, for standard input.\nExit status: 0 success; 1 the input doesn't verify, or is incomplete; 2 usage error;\n3 a file can't be read or written; 4 out of memory.";

const OF_HASH: &str =
    "Several FILEs get a line each, as b3sum prints it: the digits, two spaces and the name.\nA FILE that can't be read is reported, and the others are hashed; the status is then 3.";

const OF_SLICE: &str =
    "A range that runs past the end of FILE ends there. A START at or past the end selects the last byte.";

const OF_CUT_SLICE: &str =
    "Only the length, the range and the parents above it are read, so other damage doesn't matter.\nOUT is written once the slice has been verified.";

const OF_DECODE: &str =
    "OUT is written once everything has been verified. With --outboard, that file is checked before ENC is.";

const OF_DECODE_SLICE: &str =
    "OUT is written once the slice has been verified. It gets those bytes of the range that the blob has:\nnone if START is at or past its end.";

const OF_GATHER: &str =
    "Blobs above 64 MiB need --long.\nA FILE may be cut short, altered, or a copy of something else. One that can't be read is left out.\nPipes and devices are read only if the regular files leave the blob unfinished.\nWith --long, a pipe is copied beside OUT, up to the length that the FILEs before it certify, or 2^40 bytes.\nWith --outboard, that file is checked first, and has to be good.\nA bad byte of the blob spoils its group of 64 KiB in that FILE; with --salvage, only its chunk of 1024 bytes.\nOUT is written once the blob has been verified. With --long, an OUT that is a pipe or device gets the bytes\nas they are verified, and may be left with only the beginning of the blob after a failure.";

const OF_CHECK: &str =
    "SUMS has a line for each file, as hash prints it for several and b3sum does. - is standard input.\nEach file gets a line: its name, and OK, FAILED or cannot read. Other lines of SUMS are reported.\nExit status: 1 if a file FAILED, else 3 if one can't be read, 2 if no line of SUMS is one of hash's.";

const OF_INFO: &str =
    "A FILE is judged by its size and its first eight bytes alone; decode verifies it.";

const OF_REPLAY: &str =
    "Each line of SCRIPT is empty or has one of nine forms, with single spaces between words, and ends with a\nline feed, without a carriage return. S is a seat, G a group of 64 chunks, MASK a decimal bit mask of chunks\nin G, bit 0 for the first, C a chunk, and F a FILE, counted from 0:\n  claim S G MASK       S claims chunks of G\n  hash S F START LEN   the slice cut from F becomes the current slice of S\n  write S C W          S writes word W, 0 to 128, of chunk C\n  fill S C             S writes all words of C\n  publish S G          S commits the chunks of G that it claims and its slice has\n  give S G MASK        S gives chunks of G back\n  load S AT LEN        S loads the next word of its read of LEN bytes from byte AT on\n  settle S             S settles the length that its slice certifies\n  length S             S asks for the length";

// The option `--id NAME`.
fn option<'a>(alloc: Global, id: &'a str, name: &'a str) -> Arg<'a>
    ensures rule { rule_of result ≡ option_rule id.entry.now }
    ensures global { result.global ≡ false }
{
    Arg::new(alloc, id).long(id).value_name(name)
}

// The required argument `id`.
fn place<'a>(alloc: Global, id: &'a str, help: &'a str) -> Arg<'a>
    ensures rule { rule_of result ≡ place_rule id.entry.now }
    ensures global { result.global ≡ false }
{
    Arg::new(alloc, id).required(true).help(help)
}

fn at_option<'a>(alloc: Global) -> Arg<'a>
    ensures rule { rule_of result ≡ at_rule }
    ensures global { result.global ≡ false }
{
    option(alloc, "at", "N")
        .value_parser(value_parser!(u64))
        .default_value("0")
        .help("First byte of output to print")
}

fn length_option<'a>(alloc: Global) -> Arg<'a>
    ensures rule { rule_of result ≡ length_rule }
    ensures global { result.global ≡ false }
{
    option(alloc, "length", "N")
        .value_parser(value_parser!(u32).range(1..=MOST_OUTPUT))
        .default_value("32")
        .help("Number of bytes of output to print, 1 to 65536")
}

// The option `--outboard FILE`.
fn outboard_option<'a>(alloc: Global, help: &'a str) -> Arg<'a>
    ensures rule { rule_of result ≡ outboard_rule }
    ensures global { result.global ≡ false }
{
    option(alloc, "outboard", "FILE").help(help)
}

// The flag `--verbose`.
fn verbose_flag<'a>(alloc: Global) -> Arg<'a>
    ensures rule { rule_of result ≡ verbose_rule }
    ensures global { result.global ≡ false }
{
    Arg::new(alloc, "verbose")
        .long("verbose")
        .action(ArgAction::SetTrue)
        .help(OF_VERBOSE)
}

// The required argument `id`, a number of 64 bits.
fn number_place<'a>(alloc: Global, id: &'a str, help: &'a str) -> Arg<'a>
    ensures rule { rule_of result ≡ record (place_rule id.entry.now) { parser = Some any_number } }
    ensures global { result.global ≡ false }
{
    place(alloc, id, help).value_parser(value_parser!(u64))
}

// The command with the options that choose a mode.
fn with_keys<'a>(alloc: Global, command: Command<'a>) -> Result<Command<'a>, AllocError>
    requires { (out-Command command).has_globals ≡ false }
    ensures { IfOk result (IsApp (with_key_rules (app_of command.entry))) }
{
    let command = command.arg(option(alloc, "key", "HEX").help(OF_KEY))?;
    let command = command.arg(option(alloc, "key-file", "FILE").help(OF_KEY_FILE))?;
    command.arg(option(alloc, "context", "TEXT").help(
        "Use key derivation with this context string",
    ))
}

// The command with the options that all have.
fn with_mode<'a>(alloc: Global, command: Command<'a>) -> Result<Command<'a>, AllocError>
    requires { (out-Command command).has_globals ≡ false }
    ensures { IfOk result (IsApp (with_mode_rules (app_of command.entry))) }
{
    with_keys(alloc, command)?.arg(verbose_flag(alloc))
}

fn no_names_flag<'a>(alloc: Global) -> Arg<'a>
    ensures rule { rule_of result ≡ no_names_rule }
    ensures global { result.global ≡ false }
{
    Arg::new(alloc, "no-names")
        .long("no-names")
        .action(ArgAction::SetTrue)
        .help("Print no names of files")
}

// One file or more.
fn files_place<'a>(alloc: Global, help: &'a str) -> Arg<'a>
    ensures rule { rule_of result ≡ files_rule }
    ensures global { result.global ≡ false }
{
    place(alloc, "FILE", help).num_args(1..)
}

// The command with the options that choose bytes of output.
fn with_output<'a>(alloc: Global, command: Command<'a>) -> Result<Command<'a>, AllocError>
    requires { (out-Command command).has_globals ≡ false }
    ensures { IfOk result (IsApp (with_output_rules (app_of command.entry))) }
{
    command.arg(at_option(alloc))?.arg(length_option(alloc))
}

fn hash_command<'a>(alloc: Global) -> Result<Command<'a>, AllocError>
    ensures { IfOk result (IsApp hash_app) }
{
    let command = Command::new(alloc, "hash")
        .about("Print the BLAKE3 hash of each file, or other bytes of its extended output")
        .after_help(OF_HASH);
    let command = with_output(alloc, command)?.arg(no_names_flag(alloc))?;
    let command = command.arg(files_place(alloc, "Files to hash"))?;
    with_mode(alloc, command)
}

// The command with the arguments FILE and OUT, and those of the mode.
fn with_files<'a>(alloc: Global, command: Command<'a>) -> Result<Command<'a>, AllocError>
    requires { (out-Command command).has_globals ≡ false }
    ensures { IfOk result (IsApp (with_file_rules (app_of command.entry))) }
{
    let command = command.arg(place(alloc, "FILE", "File to encode"))?;
    let command = command.arg(place(alloc, "OUT", OF_OUT))?;
    with_mode(alloc, command)
}

fn encode_command<'a>(alloc: Global) -> Result<Command<'a>, AllocError>
    ensures { IfOk result (IsApp encode_app) }
{
    let about = "Write a file's combined Bao encoding, and print its hash";
    with_files(alloc, Command::new(alloc, "encode").about(about))
}

fn outboard_command<'a>(alloc: Global) -> Result<Command<'a>, AllocError>
    ensures { IfOk result (IsApp outboard_app) }
{
    let about = "Write a file's outboard Bao encoding, and print its hash";
    with_files(alloc, Command::new(alloc, "outboard").about(about))
}

fn slice_command<'a>(alloc: Global) -> Result<Command<'a>, AllocError>
    ensures { IfOk result (IsApp slice_app) }
{
    let command = Command::new(alloc, "slice")
        .about("Write the Bao slice for a range of a file, and print the file's hash")
        .after_help(OF_SLICE)
        .arg(number_place(alloc, "START", OF_START))?;
    let help = "Length of the range in bytes; 0 counts as 1";
    let command = command.arg(number_place(alloc, "LEN", help))?;
    with_files(alloc, command)
}

// The command with the arguments ROOT, ENC and OUT, and those of the mode.
fn with_encoding<'a>(alloc: Global, command: Command<'a>) -> Result<Command<'a>, AllocError>
    requires { (out-Command command).has_globals ≡ false }
    ensures { IfOk result (IsApp (with_encoding_rules (app_of command.entry))) }
{
    let command = command.arg(place(alloc, "ROOT", OF_ROOT))?;
    let help = "Combined encoding to check, or a plain copy with --outboard";
    let command = command.arg(place(alloc, "ENC", help))?;
    let command = command.arg(place(alloc, "OUT", OF_OUT))?;
    with_mode(alloc, command)
}

fn decode_command<'a>(alloc: Global) -> Result<Command<'a>, AllocError>
    ensures { IfOk result (IsApp decode_app) }
{
    let outboard = outboard_option(
        alloc,
        "Outboard encoding of the blob; ENC is then a plain copy",
    );
    let command = Command::new(alloc, "decode")
        .about("Check a combined Bao encoding, or a plain copy, under ROOT, and write the blob")
        .after_help(OF_DECODE)
        .arg(outboard)?;
    with_encoding(alloc, command)
}

// The command with the arguments ROOT, START and LEN.
fn with_range<'a>(alloc: Global, command: Command<'a>) -> Result<Command<'a>, AllocError>
    requires { (out-Command command).has_globals ≡ false }
    ensures { IfOk result (IsApp (with_range_rules (app_of command.entry))) }
{
    let command = command.arg(place(alloc, "ROOT", OF_ROOT))?;
    let command = command.arg(number_place(alloc, "START", OF_START))?;
    command.arg(number_place(alloc, "LEN", "Length of the range in bytes"))
}

// The command with the arguments SLICE and OUT, and those of the mode.
fn with_slice<'a>(alloc: Global, command: Command<'a>) -> Result<Command<'a>, AllocError>
    requires { (out-Command command).has_globals ≡ false }
    ensures { IfOk result (IsApp (with_slice_rules (app_of command.entry))) }
{
    let command = command.arg(place(alloc, "SLICE", "Slice to check"))?;
    let command = command.arg(place(alloc, "OUT", OF_OUT))?;
    with_mode(alloc, command)
}

fn decode_slice_command<'a>(alloc: Global) -> Result<Command<'a>, AllocError>
    ensures { IfOk result (IsApp decode_slice_app) }
{
    let about = "Check a Bao slice under ROOT, and write its bytes";
    let command = Command::new(alloc, "decode-slice")
        .about(about)
        .after_help(OF_DECODE_SLICE);
    let command = with_range(alloc, command)?;
    with_slice(alloc, command)
}

// The command with the arguments ENC and OUT, and those of the mode.
fn with_cut<'a>(alloc: Global, command: Command<'a>) -> Result<Command<'a>, AllocError>
    requires { (out-Command command).has_globals ≡ false }
    ensures { IfOk result (IsApp (with_cut_rules (app_of command.entry))) }
{
    let help = "Combined encoding to cut from, or a plain copy with --outboard";
    let command = command.arg(place(alloc, "ENC", help))?;
    let command = command.arg(place(alloc, "OUT", OF_OUT))?;
    with_mode(alloc, command)
}

fn cut_slice_command<'a>(alloc: Global) -> Result<Command<'a>, AllocError>
    ensures { IfOk result (IsApp cut_slice_app) }
{
    let outboard = outboard_option(
        alloc,
        "Outboard encoding of the blob; ENC is then a plain copy",
    );
    let command = Command::new(alloc, "cut-slice")
        .about("Cut the Bao slice for a range out of an encoding, and check it under ROOT")
        .after_help(OF_CUT_SLICE)
        .arg(outboard)?;
    let command = with_range(alloc, command)?;
    with_cut(alloc, command)
}

fn workers_option<'a>(alloc: Global) -> Arg<'a>
    ensures rule { rule_of result ≡ workers_rule }
    ensures global { result.global ≡ false }
{
    option(alloc, "workers", "N")
        .value_parser(value_parser!(u32).range(1..=MOST_WORKERS))
        .default_value("4")
        .help("Number of worker threads, 1 to 64")
}

fn long_flag<'a>(alloc: Global) -> Arg<'a>
    ensures rule { rule_of result ≡ long_rule }
    ensures global { result.global ≡ false }
{
    Arg::new(alloc, "long")
        .long("long")
        .action(ArgAction::SetTrue)
        .help("Allow a blob of any length; not with --capacity")
}

fn salvage_flag<'a>(alloc: Global) -> Arg<'a>
    ensures rule { rule_of result ≡ salvage_rule }
    ensures global { result.global ≡ false }
{
    Arg::new(alloc, "salvage")
        .long("salvage")
        .action(ArgAction::SetTrue)
        .help("Ask for missing chunks one at a time as a last resort, which is slow")
}

fn encode_flag<'a>(alloc: Global) -> Arg<'a>
    ensures rule { rule_of result ≡ encode_rule }
    ensures global { result.global ≡ false }
{
    Arg::new(alloc, "encode")
        .long("encode")
        .action(ArgAction::SetTrue)
        .help("Write the blob's combined encoding instead of the blob")
}

fn missing_option<'a>(alloc: Global) -> Arg<'a>
    ensures rule { rule_of result ≡ missing_rule }
    ensures global { result.global ≡ false }
{
    option(alloc, "missing", "LIST").help(
        "Write to LIST the ranges that no FILE has, a line of START and LEN for each",
    )
}

fn capacity_option<'a>(alloc: Global) -> Arg<'a>
    ensures rule { rule_of result ≡ capacity_rule }
    ensures global { result.global ≡ false }
{
    option(alloc, "capacity", "N")
        .value_parser(value_parser!(u32).range(1..=MOST_CHUNKS))
        .default_value("65536")
        .help("Longest blob to allow, in chunks of 1024 bytes, 1 to 65536 (64 MiB)")
}

// The command with the arguments ROOT, OUT and FILE.., and those of the mode.
fn with_holders<'a>(alloc: Global, command: Command<'a>) -> Result<Command<'a>, AllocError>
    requires { (out-Command command).has_globals ≡ false }
    ensures { IfOk result (IsApp (with_holders_rules (app_of command.entry))) }
{
    let command = command.arg(place(alloc, "ROOT", OF_ROOT))?;
    let command = command.arg(place(alloc, "OUT", OF_OUT))?;
    let help = "Combined encodings, or plain copies with --outboard; 1 to 64 files";
    let command = command.arg(files_place(alloc, help))?;
    with_mode(alloc, command)
}

// The command with the options `--workers`, `--capacity` and `--long`.
fn with_sizes<'a>(alloc: Global, command: Command<'a>) -> Result<Command<'a>, AllocError>
    requires { (out-Command command).has_globals ≡ false }
    ensures { IfOk result (IsApp (with_rule (with_rule (with_rule (app_of command.entry) workers_rule) capacity_rule) long_rule)) }
{
    let command = command.arg(workers_option(alloc))?;
    command.arg(capacity_option(alloc))?.arg(long_flag(alloc))
}

// The command with the options `--outboard`, `--salvage` and `--encode`.
fn with_forms<'a>(alloc: Global, command: Command<'a>) -> Result<Command<'a>, AllocError>
    requires { (out-Command command).has_globals ≡ false }
    ensures { IfOk result (IsApp (with_rule (with_rule (with_rule (app_of command.entry) outboard_rule) salvage_rule) encode_rule)) }
{
    let help = "Outboard encoding of the blob; FILEs are then plain copies";
    let outboard = outboard_option(alloc, help);
    let command = command.arg(outboard)?.arg(salvage_flag(alloc))?;
    command.arg(encode_flag(alloc))
}

fn gather_command<'a>(alloc: Global) -> Result<Command<'a>, AllocError>
    ensures { IfOk result (IsApp gather_app) }
{
    let command = Command::new(alloc, "gather")
        .about(
            "Gather the blob with hash ROOT from combined Bao encodings or plain copies, and write it",
        )
        .after_help(OF_GATHER);
    let command = with_sizes(alloc, command)?;
    let command = with_forms(alloc, command)?;
    let command = command.arg(missing_option(alloc))?;
    with_holders(alloc, command)
}

// The command with the arguments ROOT, SCRIPT and FILE.., and those of the mode.
fn with_script<'a>(alloc: Global, command: Command<'a>) -> Result<Command<'a>, AllocError>
    requires { (out-Command command).has_globals ≡ false }
    ensures { IfOk result (IsApp (with_script_rules (app_of command.entry))) }
{
    let command = command.arg(place(alloc, "ROOT", OF_ROOT))?;
    let command = command.arg(place(alloc, "SCRIPT", "Schedule, one step per line"))?;
    let help = "Combined encodings that slices are cut from, 1 to 64 files";
    let command = command.arg(files_place(alloc, help))?;
    with_mode(alloc, command)
}

fn replay_command<'a>(alloc: Global) -> Result<Command<'a>, AllocError>
    ensures { IfOk result (IsApp replay_app) }
{
    let command = Command::new(alloc, "replay")
        .about("Run a schedule of steps on a store of a blob's chunks, and print the replies")
        .after_help(OF_REPLAY)
        .arg(capacity_option(alloc))?;
    with_script(alloc, command)
}

fn quiet_flag<'a>(alloc: Global) -> Arg<'a>
    ensures rule { rule_of result ≡ quiet_rule }
    ensures global { result.global ≡ false }
{
    Arg::new(alloc, "quiet")
        .long("quiet")
        .action(ArgAction::SetTrue)
        .help("Print nothing of files that are OK")
}

fn ranges_flag<'a>(alloc: Global) -> Arg<'a>
    ensures rule { rule_of result ≡ ranges_rule }
    ensures global { result.global ≡ false }
{
    Arg::new(alloc, "ranges")
        .long("ranges")
        .action(ArgAction::SetTrue)
        .help(
            "Print the damaged ranges of a file that FAILED, by the outboard encoding beside it, FILE.obao",
        )
}

fn check_command<'a>(alloc: Global) -> Result<Command<'a>, AllocError>
    ensures { IfOk result (IsApp check_app) }
{
    let command = Command::new(alloc, "check")
        .about("Hash the files of a list, and print which of them have another hash")
        .after_help(OF_CHECK)
        .arg(quiet_flag(alloc))?;
    let command = command.arg(ranges_flag(alloc))?;
    let command = command.arg(place(alloc, "SUMS", "Hashes and names of files"))?;
    with_mode(alloc, command)
}

fn info_command<'a>(alloc: Global) -> Result<Command<'a>, AllocError>
    ensures { IfOk result (IsApp info_app) }
{
    let command = Command::new(alloc, "info")
        .about("Print what each file may be: an encoding, and of how long a blob")
        .after_help(OF_INFO)
        .arg(files_place(alloc, "Files to look at"))?;
    command.arg(verbose_flag(alloc))
}

// The program with one more command.
fn with_command<'a>(program: Command<'a>, command: Command<'a>) -> Result<Command<'a>, AllocError>
    requires program { (out-Command program).has_globals ≡ false }
    requires command { (out-Command command).has_globals ≡ false }
    ensures { IfOk result (IsApp (with_subcommand (app_of program.entry) (app_of command.entry).top)) }
{
    program.subcommand(command)
}

// The program without its commands.
fn bare<'a>(alloc: Global) -> Command<'a>
    ensures { IsApp bare_app result }
{
    Command::new(alloc, "bao_gather")
        .version("0.1.0")
        .about(
            "Hash files with BLAKE3, write and check their Bao encodings, and gather blobs from many copies",
        )
        .after_help(OF_PROGRAM)
        .subcommand_required(true)
}

// The program with the commands that hash and encode.
fn writers<'a>(alloc: Global) -> Result<Command<'a>, AllocError>
    ensures { IfOk result (IsApp writers_app) }
{
    let program = with_command(bare(alloc), hash_command(alloc)?)?;
    let program = with_command(program, encode_command(alloc)?)?;
    let program = with_command(program, outboard_command(alloc)?)?;
    with_command(program, slice_command(alloc)?)
}

// The same, with the commands that check an encoding.
fn checkers<'a>(alloc: Global) -> Result<Command<'a>, AllocError>
    ensures { IfOk result (IsApp checkers_app) }
{
    let program = with_command(writers(alloc)?, cut_slice_command(alloc)?)?;
    let program = with_command(program, decode_command(alloc)?)?;
    with_command(program, decode_slice_command(alloc)?)
}

// The same, with the commands that take many encodings.
fn gatherers<'a>(alloc: Global) -> Result<Command<'a>, AllocError>
    ensures { IfOk result (IsApp gatherers_app) }
{
    let program = with_command(checkers(alloc)?, gather_command(alloc)?)?;
    with_command(program, replay_command(alloc)?)
}

// The program with all its commands.
pub(crate) fn program<'a>(alloc: Global) -> Result<Command<'a>, AllocError>
    ensures { IfOk result (IsApp program_app) }
{
    let program = with_command(gatherers(alloc)?, check_command(alloc)?)?;
    with_command(program, info_command(alloc)?)
}
