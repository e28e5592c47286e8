// What the manual says of a command, word by word, over files in memory.

ghost use Rattle.std.specs.Prelude.{◌≡◌, ◌≢◌, ◌⊎◌, ℕ, ◌^◌, ◌<◌, ◌≤◌, false, List, [], ◌∷◌, length, map, string_bytes, codes, Ok, Some};
ghost use Rattle.std.specs.Fmt.{decimal};
ghost use Rattle.std.specs.Io.KnownBytes.{Appends, Keeps};
ghost use Rattle.hex.specs.Hex.{decode_of};
ghost use Rattle.b3tree.specs.Hashing.{hash};
ghost use Rattle.b3tree.specs.Modes.{plain};
ghost use Rattle.b3tree.specs.Pieces.{piece};
ghost use Rattle.b3tree.specs.Valid.{AreBytes};
ghost use Rattle.bao_text.specs.Choice.{chunk_count};
ghost use Rattle.bao_text.specs.Texts.{combined_text, slice_text};
ghost use Rattle.bao_text.specs.declared.kinds.Encoding.TheVariants.{Slice};
ghost use Rattle.bao_files.specs.Disks.{KeepsFiles, Puts, Stored};
ghost use Rattle.bao_files.specs.Encoded.{encoding_text};
ghost use Rattle.bao_files.specs.HeldFiles.{held_at};
ghost use Rattle.bao_files.specs.Printed.{AppendsBeginning, digits_line, ok_line};
ghost use Rattle.bao_sums.specs.Hashed.{paths_of};
ghost use Rattle.bao_command.specs.Tasks.{IsNoOutput};
ghost use Rattle.determined_program.specs.Manual.{AllStored, HasCollidingSlice, HasNoSums, HasRange, IsAmongThem, IsBlobSlice, IsChecked, IsCommand, IsCopyOf, IsDoneOrFailed, IsEncodingOf, check_words, hash_lines, info_lines, words_for};

use b3tree::{Hash, Mode, bytes_are};
use bao_command::command;
use bao_files::{MemoryFiles, Progress};
use bao_text::Encoding;
use std::io::Write;
use std::thread::Threads;

// `hash FILE` prints the hash of FILE, and changes nothing.
pub fn hash_is<R: AllocGlobal + Threads + Sync, O: Write, E: Write, P: Progress + Sync>(
    rt: &R,
    disk: &mut MemoryFiles,
    words: &[String],
    file: &str,
    out: &mut O,
    err: &mut E,
    progress: &P,
) -> u8
    requires { IsCommand (map string_bytes words.now) (codes "hash" ∷ []) (file.now ∷ []) }
    ensures done { result ≡ 0 → (bytes : List ℕ) × (held_at disk.old.files file.now ≡ Stored bytes) × Appends (O.contents out.old) (O.contents out.new) (digits_line (hash plain bytes)) }
    ensures files { KeepsFiles (held_at disk.old.files) (held_at disk.new.files) }
    ensures status { IsDoneOrFailed result }
{
    command(rt, disk, words, out, err, progress)
}

// `encode FILE OUT` puts the combined encoding of FILE at OUT and prints FILE's hash. So does `outboard FILE OUT` with the outboard encoding, and
// `slice START LEN FILE OUT` with the slice for the range. If it isn't done, OUT is as it was, or has the encoding.
pub fn encode_is<R: AllocGlobal + Threads + Sync, O: Write, E: Write, P: Progress + Sync>(
    rt: &R,
    disk: &mut MemoryFiles,
    words: &[String],
    encoding: Encoding,
    file: &str,
    path: &str,
    out: &mut O,
    err: &mut E,
    progress: &P,
) -> u8
    requires asked { IsCommand (map string_bytes words.now) (words_for encoding) (file.now ∷ path.now ∷ []) }
    requires apart { IsNoOutput path.now × (path.now ≢ file.now) }
    ensures done { result ≡ 0 → (blob : List ℕ) × (held_at disk.old.files file.now ≡ Stored blob)
        × Puts (held_at disk.old.files) (held_at disk.new.files) path.now (Some (encoding_text plain encoding blob)) × Appends (O.contents out.old) (O.contents out.new) (digits_line (hash plain blob)) }
    ensures files { KeepsFiles (held_at disk.old.files) (held_at disk.new.files) ⊎ ((blob : List ℕ) × (held_at disk.old.files file.now ≡ Stored blob)
        × Puts (held_at disk.old.files) (held_at disk.new.files) path.now (Some (encoding_text plain encoding blob))) }
    ensures status { IsDoneOrFailed result }
{
    // A law, so that the proof has what it says: nothing runs.
    range_fits(encoding);
    command(rt, disk, words, out, err, progress)
}

// Lemma: the numbers of a range have 64 bits. No effect at run time.
fn range_fits(encoding: Encoding)
    ensures { (start len : ℕ) → encoding ≡ Slice start len → (start < 2 ^ 64) × (len < 2 ^ 64) }
{
    if let Encoding::Slice { start, len } = encoding {
        let _range = (start, len);
    }
}

// `decode ROOT FILE OUT` puts at OUT the blob of which FILE is the combined encoding and ROOT the hash, and prints how many bytes it has. If there is
// none, that is refused, and nothing changes. If it isn't done, OUT is as it was, or has the blob.
pub fn decode_is<R: AllocGlobal + Threads + Sync, O: Write, E: Write, P: Progress + Sync>(
    rt: &R,
    disk: &mut MemoryFiles,
    words: &[String],
    digits: &str,
    root: &Hash,
    file: &str,
    path: &str,
    out: &mut O,
    err: &mut E,
    progress: &P,
) -> u8
    requires asked { IsCommand (map string_bytes words.now) (codes "decode" ∷ []) (digits.now ∷ file.now ∷ path.now ∷ []) }
    requires root { decode_of digits.now ≡ Ok root.now.0 }
    requires apart { IsNoOutput path.now × (path.now ≢ file.now) }
    ensures done { result ≡ 0 → (blob : List ℕ) × IsEncodingOf (held_at disk.old.files) file.now root.now.0 blob
        × Puts (held_at disk.old.files) (held_at disk.new.files) path.now (Some blob) × Appends (O.contents out.old) (O.contents out.new) (ok_line (length blob)) }
    ensures refused { result ≡ 1 → (blob : List ℕ) → length (combined_text plain blob) < 2 ^ 63 → ¬ IsEncodingOf (held_at disk.old.files) file.now root.now.0 blob }
    ensures kept { result ≡ 1 → KeepsFiles (held_at disk.old.files) (held_at disk.new.files) × Keeps (O.contents out.old) (O.contents out.new) }
    ensures files { KeepsFiles (held_at disk.old.files) (held_at disk.new.files) ⊎ ((blob : List ℕ) × IsEncodingOf (held_at disk.old.files) file.now root.now.0 blob
        × Puts (held_at disk.old.files) (held_at disk.new.files) path.now (Some blob)) }
    ensures status { IsDoneOrFailed result ⊎ (result ≡ 1) }
{
    // Laws, so that the proof has what they say: nothing runs.
    Mode::hash().is_keyed();
    bytes_are(&root.0);
    command(rt, disk, words, out, err, progress)
}

// `decode --outboard FILE ROOT COPY OUT` puts at OUT the blob whose bytes are in COPY, whose outboard encoding is FILE, and whose hash is ROOT, and prints
// how many bytes it has. If there is none, that is refused, and nothing changes. If it isn't done, OUT is as it was, or has the blob.
pub fn decode_copy_is<R: AllocGlobal + Threads + Sync, O: Write, E: Write, P: Progress + Sync>(
    rt: &R,
    disk: &mut MemoryFiles,
    words: &[String],
    outboard: &str,
    digits: &str,
    root: &Hash,
    copy: &str,
    path: &str,
    out: &mut O,
    err: &mut E,
    progress: &P,
) -> u8
    requires asked { IsCommand (map string_bytes words.now) (codes "decode" ∷ codes "--outboard" ∷ []) (outboard.now ∷ digits.now ∷ copy.now ∷ path.now ∷ []) }
    requires root { decode_of digits.now ≡ Ok root.now.0 }
    requires apart { IsNoOutput path.now × (path.now ≢ outboard.now) × (path.now ≢ copy.now) }
    ensures done { result ≡ 0 → (blob : List ℕ) × IsCopyOf (held_at disk.old.files) outboard.now copy.now root.now.0 blob
        × Puts (held_at disk.old.files) (held_at disk.new.files) path.now (Some blob) × Appends (O.contents out.old) (O.contents out.new) (ok_line (length blob)) }
    ensures refused { result ≡ 1 → (blob : List ℕ) → length blob < 2 ^ 64 → ¬ IsCopyOf (held_at disk.old.files) outboard.now copy.now root.now.0 blob }
    ensures kept { result ≡ 1 → KeepsFiles (held_at disk.old.files) (held_at disk.new.files) × Keeps (O.contents out.old) (O.contents out.new) }
    ensures files { KeepsFiles (held_at disk.old.files) (held_at disk.new.files) ⊎ ((blob : List ℕ) × IsCopyOf (held_at disk.old.files) outboard.now copy.now root.now.0 blob
        × Puts (held_at disk.old.files) (held_at disk.new.files) path.now (Some blob)) }
    ensures status { IsDoneOrFailed result ⊎ (result ≡ 1) }
{
    // Laws, so that the proof has what they say: nothing runs.
    Mode::hash().is_keyed();
    bytes_are(&root.0);
    held_are(disk, outboard);
    held_are(disk, copy);
    command(rt, disk, words, out, err, progress)
}

// Lemma: what a file in memory has is bytes. No effect at run time.
fn held_are(disk: &MemoryFiles, path: &str)
    ensures { (bytes : List ℕ) → held_at disk.now.files path.now ≡ Stored bytes → AreBytes bytes }
{
    if let Some(bytes) = disk.get(path) {
        bytes_are(bytes);
    }
}

// `decode-slice ROOT START LEN SLICE OUT` puts bytes at OUT, and prints their number. If SLICE is the slice of a blob with the hash ROOT for the range, that
// isn't refused, and they are the blob's bytes of the range. Whatever SLICE is, they are those of each blob with the hash ROOT, and SLICE is the blob's slice
// if it claims the blob's length; or else two different inputs with one chaining value are exhibited, one of the blob and one of SLICE. If it is refused,
// nothing changes. If it isn't done, OUT is as it was, or has the bytes.
pub fn decode_slice_is<R: AllocGlobal + Threads + Sync, O: Write, E: Write, P: Progress + Sync>(
    rt: &R,
    disk: &mut MemoryFiles,
    words: &[String],
    digits: &str,
    root: &Hash,
    start: u64,
    len: u64,
    file: &str,
    path: &str,
    out: &mut O,
    err: &mut E,
    progress: &P,
) -> u8
    requires asked { IsCommand (map string_bytes words.now) (codes "decode-slice" ∷ []) (digits.now ∷ decimal start ∷ decimal len ∷ file.now ∷ path.now ∷ []) }
    requires root { decode_of digits.now ≡ Ok root.now.0 }
    requires apart { IsNoOutput path.now × (path.now ≢ file.now) }
    ensures done { result ≡ 0 → (slice : List ℕ) × (bytes : List ℕ) × (held_at disk.old.files file.now ≡ Stored slice) × HasRange root.now.0 start len slice bytes
        × Puts (held_at disk.old.files) (held_at disk.new.files) path.now (Some bytes) × Appends (O.contents out.old) (O.contents out.new) (ok_line (length bytes)) }
    ensures same { result ≡ 0 → (blob : List ℕ) → length (combined_text plain blob) < 2 ^ 63 → IsBlobSlice (held_at disk.old.files) file.now root.now.0 start len blob
        → Puts (held_at disk.old.files) (held_at disk.new.files) path.now (Some (piece blob start len))
        × Appends (O.contents out.old) (O.contents out.new) (ok_line (length (piece blob start len))) }
    ensures refused { result ≡ 1 → (blob : List ℕ) → length (combined_text plain blob) < 2 ^ 63 → ¬ IsBlobSlice (held_at disk.old.files) file.now root.now.0 start len blob }
    ensures kept { result ≡ 1 → KeepsFiles (held_at disk.old.files) (held_at disk.new.files) × Keeps (O.contents out.old) (O.contents out.new) }
    ensures files { KeepsFiles (held_at disk.old.files) (held_at disk.new.files) ⊎ ((slice : List ℕ) × (bytes : List ℕ) × (held_at disk.old.files file.now ≡ Stored slice)
        × HasRange root.now.0 start len slice bytes × Puts (held_at disk.old.files) (held_at disk.new.files) path.now (Some bytes)) }
    ensures status { IsDoneOrFailed result ⊎ (result ≡ 1) }
{
    // Laws, so that the proof has what they say: nothing runs.
    Mode::hash().is_keyed();
    bytes_are(&root.0);
    command(rt, disk, words, out, err, progress)
}

// `cut-slice ROOT START LEN FILE OUT` puts at OUT a slice for the range that `decode-slice` accepts, and prints how many bytes of the range it has. If FILE
// is the combined encoding of a blob with the hash ROOT, that isn't refused, and the slice is the one that `slice` writes for the blob. If it is refused,
// nothing changes. If it isn't done, OUT is as it was, or has the slice.
pub fn cut_slice_is<R: AllocGlobal + Threads + Sync, O: Write, E: Write, P: Progress + Sync>(
    rt: &R,
    disk: &mut MemoryFiles,
    words: &[String],
    digits: &str,
    root: &Hash,
    start: u64,
    len: u64,
    file: &str,
    path: &str,
    out: &mut O,
    err: &mut E,
    progress: &P,
) -> u8
    requires asked { IsCommand (map string_bytes words.now) (codes "cut-slice" ∷ []) (digits.now ∷ decimal start ∷ decimal len ∷ file.now ∷ path.now ∷ []) }
    requires root { decode_of digits.now ≡ Ok root.now.0 }
    requires apart { IsNoOutput path.now × (path.now ≢ file.now) }
    ensures done { result ≡ 0 → (slice : List ℕ) × (bytes : List ℕ) × HasRange root.now.0 start len slice bytes
        × Puts (held_at disk.old.files) (held_at disk.new.files) path.now (Some slice) × Appends (O.contents out.old) (O.contents out.new) (ok_line (length bytes)) }
    ensures same { result ≡ 0 → (blob : List ℕ) → length (combined_text plain blob) < 2 ^ 63 → IsEncodingOf (held_at disk.old.files) file.now root.now.0 blob
        → Puts (held_at disk.old.files) (held_at disk.new.files) path.now (Some (slice_text plain blob start len))
        × Appends (O.contents out.old) (O.contents out.new) (ok_line (length (piece blob start len))) }
    ensures refused { result ≡ 1 → (blob : List ℕ) → length (combined_text plain blob) < 2 ^ 63 → ¬ IsEncodingOf (held_at disk.old.files) file.now root.now.0 blob }
    ensures kept { result ≡ 1 → KeepsFiles (held_at disk.old.files) (held_at disk.new.files) × Keeps (O.contents out.old) (O.contents out.new) }
    ensures files { KeepsFiles (held_at disk.old.files) (held_at disk.new.files) ⊎ ((slice : List ℕ) × (bytes : List ℕ) × HasRange root.now.0 start len slice bytes
        × Puts (held_at disk.old.files) (held_at disk.new.files) path.now (Some slice)) }
    ensures status { IsDoneOrFailed result ⊎ (result ≡ 1) }
{
    // Laws, so that the proof has what they say: nothing runs.
    Mode::hash().is_keyed();
    bytes_are(&root.0);
    command(rt, disk, words, out, err, progress)
}

// `cut-slice --outboard FILE ROOT START LEN COPY OUT` does that for the blob whose bytes are in COPY, whose outboard encoding is FILE, and whose hash is ROOT.
pub fn cut_slice_beside_is<R: AllocGlobal + Threads + Sync, O: Write, E: Write, P: Progress + Sync>(
    rt: &R,
    disk: &mut MemoryFiles,
    words: &[String],
    outboard: &str,
    digits: &str,
    root: &Hash,
    start: u64,
    len: u64,
    copy: &str,
    path: &str,
    out: &mut O,
    err: &mut E,
    progress: &P,
) -> u8
    requires asked { IsCommand (map string_bytes words.now) (codes "cut-slice" ∷ codes "--outboard" ∷ []) (outboard.now ∷ digits.now ∷ decimal start ∷ decimal len ∷ copy.now ∷ path.now ∷ []) }
    requires root { decode_of digits.now ≡ Ok root.now.0 }
    requires apart { IsNoOutput path.now × (path.now ≢ outboard.now) × (path.now ≢ copy.now) }
    ensures done { result ≡ 0 → (slice : List ℕ) × (bytes : List ℕ) × HasRange root.now.0 start len slice bytes
        × Puts (held_at disk.old.files) (held_at disk.new.files) path.now (Some slice) × Appends (O.contents out.old) (O.contents out.new) (ok_line (length bytes)) }
    ensures same { result ≡ 0 → (blob : List ℕ) → length (combined_text plain blob) < 2 ^ 63 → IsCopyOf (held_at disk.old.files) outboard.now copy.now root.now.0 blob
        → Puts (held_at disk.old.files) (held_at disk.new.files) path.now (Some (slice_text plain blob start len))
        × Appends (O.contents out.old) (O.contents out.new) (ok_line (length (piece blob start len))) }
    ensures refused { result ≡ 1 → (blob : List ℕ) → length (combined_text plain blob) < 2 ^ 63 → ¬ IsCopyOf (held_at disk.old.files) outboard.now copy.now root.now.0 blob }
    ensures kept { result ≡ 1 → KeepsFiles (held_at disk.old.files) (held_at disk.new.files) × Keeps (O.contents out.old) (O.contents out.new) }
    ensures files { KeepsFiles (held_at disk.old.files) (held_at disk.new.files) ⊎ ((slice : List ℕ) × (bytes : List ℕ) × HasRange root.now.0 start len slice bytes
        × Puts (held_at disk.old.files) (held_at disk.new.files) path.now (Some slice)) }
    ensures status { IsDoneOrFailed result ⊎ (result ≡ 1) }
{
    // Laws, so that the proof has what they say: nothing runs.
    Mode::hash().is_keyed();
    bytes_are(&root.0);
    command(rt, disk, words, out, err, progress)
}

// `gather ROOT OUT FILE..` puts at OUT a blob with the hash ROOT, whatever the FILEs are, and prints how many bytes it has. If it is refused, nothing
// changes. If it isn't done, OUT is as it was, or has such a blob. It isn't refused where one FILE is the combined encoding of such a blob of at most 64 MiB,
// whatever the others are; or else two different inputs with one chaining value are exhibited, one of the blob and one of a slice that is cut out of a FILE
// and accepted under ROOT.
pub fn gather_is<R: AllocGlobal + Threads + Sync, O: Write, E: Write, P: Progress + Sync>(
    rt: &R,
    disk: &mut MemoryFiles,
    words: &[String],
    digits: &str,
    root: &Hash,
    path: &str,
    files: &Vec<&str>,
    out: &mut O,
    err: &mut E,
    progress: &P,
) -> u8
    requires asked { IsCommand (map string_bytes words.now) (codes "gather" ∷ []) (digits.now ∷ path.now ∷ map (λ file. file.now) files.now.items) }
    requires few { (0 < length files.now.items) × (length files.now.items ≤ 64) }
    requires root { decode_of digits.now ≡ Ok root.now.0 }
    ensures done { result ≡ 0 → (blob : List ℕ) × (hash plain blob ≡ root.now.0)
        × Puts (held_at disk.old.files) (held_at disk.new.files) path.now (Some blob) × Appends (O.contents out.old) (O.contents out.new) (ok_line (length blob)) }
    ensures files { KeepsFiles (held_at disk.old.files) (held_at disk.new.files) ⊎ ((blob : List ℕ) × (hash plain blob ≡ root.now.0)
        × Puts (held_at disk.old.files) (held_at disk.new.files) path.now (Some blob)) }
    ensures kept { result ≡ 1 → KeepsFiles (held_at disk.old.files) (held_at disk.new.files) × Keeps (O.contents out.old) (O.contents out.new) }
    ensures enough { result ≡ 1 → (blob : List ℕ) → AreBytes blob → hash plain blob ≡ root.now.0 → chunk_count (length blob) ≤ 65536
        → IsAmongThem (held_at disk.old.files) (map (λ file. file.now) files.now.items) blob
        → HasCollidingSlice (held_at disk.old.files) (map (λ file. file.now) files.now.items) root.now.0 blob }
    ensures status { IsNoOutput path.now → IsDoneOrFailed result ⊎ (result ≡ 1) }
{
    // A law, so that the proof has what it says: nothing runs.
    bytes_are(&root.0);
    command(rt, disk, words, out, err, progress)
}

// `hash FILE FILE ..` prints a line for each FILE that is there, in order: its hash and its path. It changes nothing. It isn't done if a FILE isn't there;
// and if it isn't done, what was printed is a beginning of these lines.
pub fn hashes_are<R: AllocGlobal + Threads + Sync, O: Write, E: Write, P: Progress + Sync>(
    rt: &R,
    disk: &mut MemoryFiles,
    words: &[String],
    files: &Vec<&str>,
    out: &mut O,
    err: &mut E,
    progress: &P,
) -> u8
    requires asked { IsCommand (map string_bytes words.now) (codes "hash" ∷ []) (paths_of files.now.items) }
    requires some { 1 < length files.now.items }
    ensures done { result ≡ 0 → AllStored (held_at disk.old.files) (paths_of files.now.items)
        × Appends (O.contents out.old) (O.contents out.new) (hash_lines (held_at disk.old.files) (paths_of files.now.items)) }
    ensures begun { AppendsBeginning (O.contents out.old) (O.contents out.new) (hash_lines (held_at disk.old.files) (paths_of files.now.items)) }
    ensures files { KeepsFiles (held_at disk.old.files) (held_at disk.new.files) }
    ensures status { IsDoneOrFailed result }
{
    command(rt, disk, words, out, err, progress)
}

// `check SUMS` hashes each file that a line of SUMS names, and prints a line for each, in order: whether it has the hash of its line. With `--ranges` a line
// for each damaged range of a file comes after that, if the file has another hash and its outboard file is there and is accepted. Nothing changes.
pub fn check_is<R: AllocGlobal + Threads + Sync, O: Write, E: Write, P: Progress + Sync>(
    rt: &R,
    disk: &mut MemoryFiles,
    words: &[String],
    ranges: bool,
    sums: &str,
    out: &mut O,
    err: &mut E,
    progress: &P,
) -> u8
    requires { IsCommand (map string_bytes words.now) (check_words ranges) (sums.now ∷ []) }
    ensures done { (result ≡ 0) ⊎ (result ≡ 1) → IsChecked (held_at disk.old.files) false ranges sums.now (O.contents out.old) (O.contents out.new) result }
    ensures usage { result ≡ 2 → Keeps (O.contents out.old) (O.contents out.new) × HasNoSums (held_at disk.old.files sums.now) }
    ensures files { KeepsFiles (held_at disk.old.files) (held_at disk.new.files) }
    ensures status { result ≤ 4 }
{
    command(rt, disk, words, out, err, progress)
}

// `info FILE ..` prints a line for each FILE that is there, in order: its path, and what it may be. It changes nothing. It isn't done if a FILE isn't there;
// and if it isn't done, what was printed is a beginning of these lines.
pub fn info_is<R: AllocGlobal + Threads + Sync, O: Write, E: Write, P: Progress + Sync>(
    rt: &R,
    disk: &mut MemoryFiles,
    words: &[String],
    files: &Vec<&str>,
    out: &mut O,
    err: &mut E,
    progress: &P,
) -> u8
    requires asked { IsCommand (map string_bytes words.now) (codes "info" ∷ []) (paths_of files.now.items) }
    requires some { 0 < length files.now.items }
    ensures done { result ≡ 0 → AllStored (held_at disk.old.files) (paths_of files.now.items)
        × Appends (O.contents out.old) (O.contents out.new) (info_lines (held_at disk.old.files) (paths_of files.now.items)) }
    ensures begun { AppendsBeginning (O.contents out.old) (O.contents out.new) (info_lines (held_at disk.old.files) (paths_of files.now.items)) }
    ensures files { KeepsFiles (held_at disk.old.files) (held_at disk.new.files) }
    ensures status { IsDoneOrFailed result }
{
    command(rt, disk, words, out, err, progress)
}
