// The program.

ghost use Rattle.std.specs.Prelude.{◌≡◌, ◌≢◌, ◌⊎◌, ℕ, List, [], map, string_bytes};
ghost use Rattle.std.specs.Io.KnownBytes.{Keeps};
ghost use Rattle.b3tree.specs.declared.mode.Mode.{Mode};
ghost use Rattle.b3tree.specs.Valid.{AreBytes};
ghost use Rattle.bao_command.specs.ModeWords.{HasMode};
ghost use Rattle.bao_command.specs.Outcome.{AreRefused};
ghost use Rattle.bao_command.specs.Surveys.{AreOfOne};
ghost use Rattle.bao_command.specs.Tasks.{Gathers, IsRight, Replays};
ghost use Rattle.bao_request.specs.declared.tasks.Request.{Request};
ghost use Rattle.bao_request.specs.declared.tasks.Task.{Task};
ghost use Rattle.bao_request.specs.CommandLine.{AsksFor, AsksForHelp, program_app};
ghost use Rattle.clap.specs.Words.{fault_of};
ghost use Rattle.bao_files.specs.Disks.{FileState, IsKnown, KeepsFiles, Unknown};
ghost use Rattle.determined_program.specs.Commands.{BothKeep, CollidesAsked, IsFair, IsGatheredUnder, IsGood, IsJudged, IsKeyKnown, IsOfKnown, IsShort, LacksFile, PutTwo, SamePrinted, SameRefusal, SameStatus, SameVerdict, WritesOverRead};
ghost use Rattle.determined_program.specs.Outcomes.{IsOfOne, Outcome, OutcomeOf, Ran};
ghost use Rattle.determined_program.specs.Files.{SameWhereKnown};

use bao_command::{Fault, SurveyFault, command};
use bao_files::{Disk, Progress};
use std::io::Write;
use std::thread::Threads;

// What is printed no contract says.
pub fn report_determined<E: Write>(fault: Fault<'_>, ours: &mut E, theirs: &mut E) -> (u8, u8)
    ensures { result.0 ≡ result.1 }
{
    (fault.report(ours), fault.report(theirs))
}

pub fn survey_report_determined<E: Write>(
    fault: SurveyFault<'_>,
    ours: &mut E,
    theirs: &mut E,
) -> (u8, u8)
    ensures { result.0 ≡ result.1 }
{
    (fault.report(ours), fault.report(theirs))
}

// The arguments that are refused are so whatever the files hold, and other faults than a file's leave the streams as they were.
pub fn command_determined<
    R: AllocGlobal + Threads + Sync,
    D: Disk,
    O: Write,
    E: Write,
    P: Progress + Sync,
>(
    rt: &R,
    disk: &mut D,
    words: &[String],
    ours: &mut O,
    theirs: &mut O,
    err: &mut E,
    progress: &P,
) -> (u8, u8)
    requires one { AreOfOne (map string_bytes words.now) }
    requires streams { O.contents ours.old ≡ O.contents theirs.old }
    ensures refused { AreRefused (map string_bytes words.now) → SameStatus result.0 result.1 }
    ensures kept { result.0 ≢ 0 → result.0 ≢ 3 → result.1 ≢ 0 → result.1 ≢ 3 → BothKeep (O.contents ours.old) (O.contents ours.new) (O.contents theirs.new) }
{
    (
        command(rt, disk, words, ours, err, progress),
        command(rt, disk, words, theirs, err, progress),
    )
}

// The files that are hashed, encoded, decoded or cut out of, also beside an outboard encoding, and those of a schedule, decide what is printed and
// written, where both runs are done. And they decide whether a text, or a schedule, is refused: where the one run is done, the other doesn't end with 1.
// Where all files are known, so is whether the arguments are wrong: both runs end alike. 3 and 4 may come at any time, since memory may run out and
// writing may fail.
pub fn known_files_decide<
    R: AllocGlobal + Threads + Sync,
    D: Disk,
    O: Write,
    E: Write,
    P: Progress + Sync,
>(
    rt: &R,
    our_disk: &mut D,
    their_disk: &mut D,
    words: &[String],
    ours: &mut O,
    theirs: &mut O,
    err: &mut E,
    progress: &P,
) -> (u8, u8)
    requires one { AreOfOne (map string_bytes words.now) }
    requires files { D.at our_disk.old ≡ D.at their_disk.old }
    requires streams { O.contents ours.old ≡ O.contents theirs.old }
    requires known { (request : Request) → AsksFor (map string_bytes words.now) request → IsOfKnown (D.at our_disk.old) request.task × IsKeyKnown (D.at our_disk.old) request }
    requires work { ¬ AsksForHelp (map string_bytes words.now) }
    ensures done { result.0 ≡ 0 → result.1 ≡ 0 → SamePrinted (O.contents ours.old) (O.contents ours.new) (O.contents theirs.new)
        × SameWhereKnown (D.at our_disk.old) (D.at our_disk.new) (D.at their_disk.new) }
    ensures refusal { ((request : Request) → AsksFor (map string_bytes words.now) request → IsJudged (D.at our_disk.old) request.task) → SameRefusal result.0 result.1 }
    ensures status { ((request : Request) → AsksFor (map string_bytes words.now) request → IsJudged (D.at our_disk.old) request.task × IsFair (D.at our_disk.old) request.task)
        → ((path : List ℕ) → IsKnown (D.at our_disk.old path)) → SameVerdict result.0 result.1 }
{
    (
        command(rt, our_disk, words, ours, err, progress),
        command(rt, their_disk, words, theirs, err, progress),
    )
}

// Files decide in the same way what is gathered of them. Where both runs are done, the same was printed and written, or the two blobs are a collision. On
// disks without faults, where it is known what is at OUT, a collision of a blob with the root is named from the files.
pub fn known_holders_decide<
    R: AllocGlobal + Threads + Sync,
    D: Disk,
    O: Write,
    E: Write,
    P: Progress + Sync,
>(
    rt: &R,
    our_disk: &mut D,
    their_disk: &mut D,
    words: &[String],
    ours: &mut O,
    theirs: &mut O,
    err: &mut E,
    progress: &P,
) -> (u8, u8)
    requires one { AreOfOne (map string_bytes words.now) }
    requires files { D.at our_disk.old ≡ D.at their_disk.old }
    requires streams { O.contents ours.old ≡ O.contents theirs.old }
    requires asked { (request : Request) → AsksFor (map string_bytes words.now) request → Gathers request.task × IsKeyKnown (D.at our_disk.old) request }
    requires work { ¬ AsksForHelp (map string_bytes words.now) }
    ensures put { result.0 ≡ 0 → result.1 ≡ 0
        → (SamePrinted (O.contents ours.old) (O.contents ours.new) (O.contents theirs.new) × SameWhereKnown (D.at our_disk.old) (D.at our_disk.new) (D.at their_disk.new))
        ⊎ PutTwo (map string_bytes words.now) (D.at our_disk.old) (D.at our_disk.new) (D.at their_disk.new) (O.contents ours.old) (O.contents ours.new) (O.contents theirs.new) }
    ensures right { result.0 ≡ 0 → result.1 ≡ 0 → D.faultless our_disk.old → D.faultless their_disk.old
        → (request : Request) (mode : Mode) (blob : List ℕ) → AsksFor (map string_bytes words.now) request → HasMode (D.at our_disk.old) request mode
        → IsGatheredUnder (D.at our_disk.old) mode request.task blob
        → (SamePrinted (O.contents ours.old) (O.contents ours.new) (O.contents theirs.new) × SameWhereKnown (D.at our_disk.old) (D.at our_disk.new) (D.at their_disk.new))
        ⊎ CollidesAsked (map string_bytes words.now) (D.at our_disk.old) mode blob }
{
    (
        command(rt, our_disk, words, ours, err, progress),
        command(rt, their_disk, words, theirs, err, progress),
    )
}

// Of a file that isn't there nothing is printed or written, and nothing is refused with 1: also of a copy beside an outboard encoding.
pub fn absent_file_unread<
    R: AllocGlobal + Threads + Sync,
    D: Disk,
    O: Write,
    E: Write,
    P: Progress + Sync,
>(rt: &R, disk: &mut D, words: &[String], out: &mut O, err: &mut E, progress: &P) -> u8
    requires one { AreOfOne (map string_bytes words.now) }
    requires asked { (request : Request) (mode : Mode) → AsksFor (map string_bytes words.now) request → HasMode (D.at disk.old) request mode → LacksFile (D.at disk.old) mode request.task }
    requires work { ¬ AsksForHelp (map string_bytes words.now) }
    ensures status { (result ≢ 0) × (result ≢ 1) }
    ensures files { KeepsFiles (D.at disk.old) (D.at disk.new) }
    ensures kept { Keeps (O.contents out.old) (O.contents out.new) }
{
    command(rt, disk, words, out, err, progress)
}

// An OUT or a list that would take the place of a file that is read, by its name, is never made: no such command is done, and no file changes. Of a
// gathering OUT may be one of the files.
pub fn write_over_read_refused<
    R: AllocGlobal + Threads + Sync,
    D: Disk,
    O: Write,
    E: Write,
    P: Progress + Sync,
>(rt: &R, disk: &mut D, words: &[String], out: &mut O, err: &mut E, progress: &P) -> u8
    requires one { AreOfOne (map string_bytes words.now) }
    requires asked { (request : Request) → AsksFor (map string_bytes words.now) request → WritesOverRead request }
    requires work { ¬ AsksForHelp (map string_bytes words.now) }
    ensures status { result ≢ 0 }
    ensures files { KeepsFiles (D.at disk.old) (D.at disk.new) }
{
    command(rt, disk, words, out, err, progress)
}

// Wrong arguments change no file, whatever they are.
pub fn usage_changes_none<
    R: AllocGlobal + Threads + Sync,
    D: Disk,
    O: Write,
    E: Write,
    P: Progress + Sync,
>(rt: &R, disk: &mut D, words: &[String], out: &mut O, err: &mut E, progress: &P) -> u8
    ensures { result ≡ 2 → KeepsFiles (D.at disk.old) (D.at disk.new) }
{
    command(rt, disk, words, out, err, progress)
}

// Of files of which nothing is known, as the system's own, the line is of bytes: numbers below 256. A schedule's is the text of its replies.
pub fn lines_are_of_bytes()
    ensures { (mode : Mode) (task : Task) (bytes : List ℕ) → IsRight (λ _. Unknown) mode task bytes → ¬ Replays task → AreBytes bytes }
{}

// Where all files are known, hashing and decoding do what the files make of them: what is printed and written is that outcome, and a text is refused only
// where it is one that isn't accepted.
pub fn one_file_decides<
    R: AllocGlobal + Threads + Sync,
    D: Disk,
    O: Write,
    E: Write,
    P: Progress + Sync,
>(rt: &R, disk: &mut D, words: &[String], out: &mut O, err: &mut E, progress: &P) -> u8
    requires one { AreOfOne (map string_bytes words.now) }
    requires asked { (request : Request) → AsksFor (map string_bytes words.now) request → IsOfOne request.task }
    requires known { (path : List ℕ) → IsKnown (D.at disk.old path) }
    requires short { (path : List ℕ) → IsShort (D.at disk.old path) }
    requires work { ¬ AsksForHelp (map string_bytes words.now) }
    ensures { (result ≡ 0) ⊎ (result ≡ 1) → Ran (map string_bytes words.now) (D.at disk.old) (D.at disk.new) (O.contents out.old) (O.contents out.new) result }
{
    command(rt, disk, words, out, err, progress)
}

// There is one outcome.
pub fn outcome_is_one()
    ensures { (at : List ℕ → FileState) (mode : Mode) (task : Task) (a b : Outcome) → OutcomeOf at mode task a → OutcomeOf at mode task b → a ≡ b }
{}

// Over known files a good command isn't refused with 2.
pub fn good_command_runs<
    R: AllocGlobal + Threads + Sync,
    D: Disk,
    O: Write,
    E: Write,
    P: Progress + Sync,
>(rt: &R, disk: &mut D, words: &[String], out: &mut O, err: &mut E, progress: &P) -> u8
    requires one { AreOfOne (map string_bytes words.now) }
    requires asked { (request : Request) → AsksFor (map string_bytes words.now) request → IsGood (D.at disk.old) request }
    requires known { (path : List ℕ) → IsKnown (D.at disk.old path) }
    requires some { (request : Request) × AsksFor (map string_bytes words.now) request }
    requires taken { fault_of program_app (map string_bytes words.now) ≡ [] }
    ensures { result ≢ 2 }
{
    command(rt, disk, words, out, err, progress)
}
