use bao_text::{Encoding, Part};

/// What the arguments ask for: what one file or blob is needed for, or a survey of many files.
#[derive(Debug, Drop)]
pub enum Asked<'a> {
    One(Request<'a>),
    Many(Survey<'a>),
}

/// A command on one file or blob.
#[derive(Debug, Drop)]
pub struct Request<'a> {
    /// The value of `--key`.
    pub key: Option<&'a str>,
    /// The path of `--key-file`.
    pub key_file: Option<&'a str>,
    /// The value of `--context`.
    pub context: Option<&'a str>,
    /// Whether `--verbose` is given: what is wrong with the files is reported, with the system's reasons.
    pub verbose: bool,
    /// The command.
    pub task: Task<'a>,
}

/// The arguments of `gather`: gathers the blob with this root, and writes it to the file `out`.
#[derive(Debug, Drop)]
pub struct GatherTask<'a> {
    pub root: &'a str,
    /// How many workers gather, 1 to 64.
    pub workers: u32,
    /// The most chunks that the blob may have, 1 to 65,536, unless it is `long`.
    pub capacity: u32,
    /// Whether the blob may have any length.
    pub long: bool,
    /// The path of the outboard encoding, if the files are plain copies and not combined encodings.
    pub outboard: Option<&'a str>,
    /// Whether missing chunks are asked for one at a time as a last resort.
    pub salvage: bool,
    /// Whether the blob's combined encoding is written in place of the blob.
    pub encode: bool,
    /// The path that the ranges which no file has are written to, if any.
    pub missing: Option<&'a str>,
    /// One or more files.
    pub files: Vec<&'a str>,
    pub out: &'a str,
}

/// A command with its arguments.
#[derive(Debug, Drop)]
pub enum Task<'a> {
    /// `hash` with one file: prints `length` bytes, 1 to 65,536, of a file's extended output, from offset `at` on.
    Hash {
        at: u64,
        length: u32,
        file: &'a str,
    },
    /// `encode`, `outboard` or `slice`: writes an encoding of a file to the file `out`.
    Encode {
        encoding: Encoding,
        file: &'a str,
        out: &'a str,
    },
    /// `cut-slice`: cuts the slice for the `len` bytes from byte `start` on out of a combined encoding, checks
    /// it under a root and writes it to the file `out`. With `outboard`, the path of the outboard encoding, it is
    /// cut out of a plain copy.
    CutSlice {
        root: &'a str,
        start: u64,
        len: u64,
        outboard: Option<&'a str>,
        file: &'a str,
        out: &'a str,
    },
    /// `decode` or `decode-slice`: checks an encoding under a root, and writes the bytes that it certifies to the
    /// file `out`.
    Decode {
        root: &'a str,
        part: Part,
        file: &'a str,
        out: &'a str,
    },
    /// `decode --outboard`: checks a plain copy under a root, beside the outboard encoding in the file
    /// `outboard`, and writes it to the file `out`.
    DecodeCopy {
        root: &'a str,
        outboard: &'a str,
        copy: &'a str,
        out: &'a str,
    },
    /// `gather`: gathers a blob from files.
    Gather(GatherTask<'a>),
    /// `replay`: runs the schedule in the file `script` on a store of `capacity` chunks, 1 to 65,536, with this
    /// root. Its slices are cut out of one or more files.
    Replay {
        root: &'a str,
        capacity: u32,
        script: &'a str,
        files: Vec<&'a str>,
    },
}

/// A command that prints a line for each of many files, and goes on where one can't be read.
#[derive(Debug, Drop)]
pub struct Survey<'a> {
    /// The value of `--key`.
    pub key: Option<&'a str>,
    /// The path of `--key-file`.
    pub key_file: Option<&'a str>,
    /// The value of `--context`.
    pub context: Option<&'a str>,
    /// Whether `--verbose` is given: the system's reasons are reported.
    pub verbose: bool,
    /// The command.
    pub task: SurveyTask<'a>,
}

/// The command of a survey, with its arguments.
#[derive(Debug, Drop)]
pub enum SurveyTask<'a> {
    /// `hash` with more than one file: prints `length` bytes, 1 to 65,536, of the extended output of each, from offset `at`
    /// on, with the file's name unless they are `bare`.
    Hashes {
        at: u64,
        length: u32,
        bare: bool,
        files: Vec<&'a str>,
    },
    /// `check`: hashes the files that the list `sums` names, and prints which of them have another hash; with `ranges`, where
    /// they differ. If `quiet`, prints nothing of files that are right.
    Check {
        quiet: bool,
        ranges: bool,
        sums: &'a str,
    },
    /// `info`: prints what each of one or more files may be, by its size and its beginning.
    Info {
        files: Vec<&'a str>,
    },
}
