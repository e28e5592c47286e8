// Surveys of many files: a line for each, also where others can't be read.

ghost use Rattle.std.specs.Prelude.{◌≡◌, true, false};
ghost use Rattle.std.specs.Option.{option_copied};
ghost use Rattle.bao_command.specs.ModeWords.{AsksForMode};
ghost use Rattle.bao_command.specs.Surveys.{AsksForOutput, SurveyAnswers, SurveyEnds, Surveys, fault_status_of, tallied};

use crate::fault::Fault;
use crate::mode::mode_by;
use crate::survey_fault::{SurveyFault, tally_status};
use crate::unread::tell_file;
use b3tree::Mode;
use bao_files::{Disk, FileFault, Progress};
use bao_request::{Survey, SurveyTask};
use bao_sums::{Checking, Hashing, SumsFault, Tally, Telling, check_files, hash_files, info_files};
use std::io::Write;
use std::thread::Threads;

// The bytes of a hash.
const HASH_LEN: u32 = 32;

// What came of files none of which has to have a hash, if they were looked at to the end.
fn tallied<'a>(whole: Result<bool, FileFault<'a>>) -> Result<Tally, SumsFault<'a>>
    ensures { result ≡ tallied whole.entry }
{
    match whole {
        Ok(whole) => Ok(Tally {
            failed: false,
            unread: !whole,
        }),
        Err(fault) => Err(SumsFault::File(fault)),
    }
}

// Whether other bytes of output are asked for than the hash of each file.
fn asks_for_output(task: &SurveyTask<'_>) -> bool
    ensures yes { result ≡ true → AsksForOutput task.now }
    ensures no { result ≡ false → ¬ AsksForOutput task.now }
{
    match task {
        SurveyTask::Hashes { at, length, .. } => *at != 0 || *length != HASH_LEN,
        SurveyTask::Check { .. } | SurveyTask::Info { .. } => false,
    }
}

// Prints the lines of the files.
fn survey_files<
    'a,
    R: AllocGlobal + Threads + Sync,
    D: Disk,
    O: Write,
    E: Write,
    P: Progress + Sync,
>(
    rt: &R,
    disk: &D,
    mode: &'a Mode,
    survey: &'a Survey<'a>,
    out: &mut O,
    err: &mut E,
    progress: &P,
) -> Result<Tally, SumsFault<'a>>
    ensures { Surveys (D.faultless disk.now) (D.at disk.now) mode.now survey.now.task (O.contents out.old) (O.contents out.new) result }
{
    let telling = Telling {
        program: "bao_gather",
        verbose: survey.verbose,
    };
    match &survey.task {
        SurveyTask::Hashes { bare, files, .. } => {
            let names = !*bare;
            let files = files.as_slice();
            let hashing = Hashing {
                mode,
                files,
                names,
                telling,
            };
            tallied(hash_files(rt, disk, &hashing, out, err, progress))
        }
        SurveyTask::Check {
            quiet,
            ranges,
            sums,
        } => {
            let quiet = *quiet;
            let checking = Checking {
                mode,
                sums,
                quiet,
                ranges: *ranges,
                telling,
            };
            check_files(rt, disk, &checking, out, err, progress)
        }
        SurveyTask::Info { files } => tallied(info_files(
            rt.alloc(),
            disk,
            files.as_slice(),
            telling,
            out,
            err,
        )),
    }
}

// Does what the survey asks for, in its mode.
fn conduct<'a, R: AllocGlobal + Threads + Sync, D: Disk, O: Write, E: Write, P: Progress + Sync>(
    rt: &R,
    disk: &D,
    mode: &'a Mode,
    survey: &'a Survey<'a>,
    out: &mut O,
    err: &mut E,
    progress: &P,
) -> Result<Tally, SurveyFault<'a>>
    requires { AsksForMode (D.at disk.now) (option_copied survey.now.key) (option_copied survey.now.key_file) (option_copied survey.now.context) mode.now }
    ensures { SurveyAnswers (D.faultless disk.now) (D.at disk.now) survey.now (O.contents out.old) (O.contents out.new) result }
{
    if asks_for_output(&survey.task) {
        return Err(SurveyFault::Output);
    }
    match survey_files(rt, disk, mode, survey, out, err, progress) {
        Ok(tally) => Ok(tally),
        Err(fault) => Err(SurveyFault::Sums(fault)),
    }
}

// Reports what stops a survey, and with `--verbose` why a file can't be read, if this is the fault. Returns the exit status.
fn report<D: Disk, E: Write>(
    disk: &D,
    survey: &Survey<'_>,
    fault: SurveyFault<'_>,
    err: &mut E,
) -> u8
    ensures { result ≡ fault_status_of fault.entry }
{
    match fault {
        SurveyFault::Mode(Fault::File(fault)) | SurveyFault::Sums(SumsFault::File(fault))
            if survey.verbose => {
            tell_file(disk, fault, err);
        }
        _ => {}
    }
    fault.report(err)
}

/// Does what the survey asks for, reports on `err` what stops it, and returns the exit status.
pub(crate) fn conduct_survey<
    R: AllocGlobal + Threads + Sync,
    D: Disk,
    O: Write,
    E: Write,
    P: Progress + Sync,
>(rt: &R, disk: &D, survey: &Survey<'_>, out: &mut O, err: &mut E, progress: &P) -> u8
    ensures { SurveyEnds (D.faultless disk.now) (D.at disk.now) survey.now (O.contents out.old) (O.contents out.new) result }
{
    let mode = match mode_by(disk, survey.key, survey.key_file, survey.context) {
        Ok(mode) => mode,
        Err(fault) => return report(disk, survey, SurveyFault::Mode(fault), err),
    };
    match conduct(rt, disk, &mode, survey, out, err, progress) {
        Ok(tally) => tally_status(tally),
        Err(fault) => report(disk, survey, fault, err),
    }
}
