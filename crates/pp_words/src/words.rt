//! The program's whole command line, and the job that its words ask for.

ghost use Rattle.std.specs.Prelude.{◌≡◌, ◌≢◌, false, map, IfOk, IfErr, IfSome, IsSome, string_bytes, option_map, true, Some};
ghost use Rattle.clap.specs.Words.{app_of, fault_of, kind_of, subcommand_rows_of};
ghost use Rattle.pp_shown.specs.Shown.{shown_lines, shown_path};
ghost use Rattle.pp_words.specs.CommandLine.{asked, asked_by, asked_in_parts, asked_of, asked_plainly, asked_segments};
ghost use Rattle.pp_words.specs.CommandLine.{faults_in, program, program_alone, segments_of, segments_program};
ghost use Rattle.pp_words.specs.CommandLine.{PlainWordsAreThePaths};
ghost use Rattle.pp_words.specs.Faults.{IsToldAs, IsToldBy};
ghost use Rattle.pp_words.specs.Texts.{is_ended, with_line_feed, IsSaid, IsShownText};

use crate::annotate::AnnotatePaths;
use crate::audit::AuditPaths;
use crate::check::CheckPaths;
use crate::cut::front_and_files;
use crate::draw::DrawPaths;
use crate::format::FormatPaths;
use crate::request::{Job, JobError};
use crate::run::RunPaths;
use crate::segments::{SegmentsPaths, USAGE};
use crate::simulate::SimulatePaths;
use clap::error::ErrorKind;
use clap::{ArgMatches, Command};
use pp_shown::{ShownLines, ShownPath};
use std::alloc::{AllocError, Global};
use std::convert::AsStr;
use std::fmt::Display;

/// Reads the program's words, its name first.
///
/// # Errors
///
/// `Shown` where the words ask for the help or the version, `Words` where they are no command of the program or an
/// audit of segments without a file, and `OutOfMemory`.
#[tactic(auto, using(crate::proofs::PlainWords::plain_words))]
pub fn job<'a, S: AsStr>(alloc: Global, words: &'a [S]) -> Result<Job<'a>, JobError>
    // The command and its paths are what the matches of the words give, and the words have no fault.
    ensures ok { IfOk result (λ job. asked (map S.text words.entry.now) ≡ Some (asked_by job)) }
    // Words that ask for a job are refused only for want of memory.
    ensures err { IfErr result (λ error. IsSome (asked (map S.text words.entry.now))
        → error ≡ JobError.OutOfMemory) }
    // The help and the version are shown only where the words ask for them, and all other faults are told as such.
    ensures told { IfErr result (IsToldBy (faults_in (map S.text words.entry.now))) }
    // The text of a fault, of the help or of the version ends with a line feed, and so is never empty. A fault's shows nothing
    // that isn't printable but line feeds.
    ensures text { IfErr result IsSaid }
    // What a command asks for where none of its paths begins with a hyphen.
    ensures plain { PlainWordsAreThePaths }
{
    match front_and_files(words) {
        Some((front, files)) => segments_job(alloc, front, files),
        None => plain_job(alloc, words),
    }
}

/// As [`job`], of words that want no audit of segments.
fn plain_job<'a, S: AsStr>(alloc: Global, words: &'a [S]) -> Result<Job<'a>, JobError>
    ensures ok { IfOk result (λ job. asked_plainly (map S.text words.entry.now) ≡ Some (asked_by job)) }
    ensures err { IfErr result (λ error. IsSome (asked_plainly (map S.text words.entry.now))
        → error ≡ JobError.OutOfMemory) }
    ensures told { IfErr result (IsToldBy (fault_of program (map S.text words.entry.now))) }
    ensures text { IfErr result IsSaid }
{
    match command(alloc)?.try_get_matches_from(words) {
        Ok(matches) => match job_of(alloc, &matches)? {
            Some(job) => Ok(job),
            None => Err(JobError::Words(shown(alloc, "error: no command is named", true)?)),
        },
        Err(fault) => Err(refused(alloc, &fault, are_lines(words))),
    }
}

/// As [`job`], of words that want an audit of segments: of their front, which `clap` reads, and of their files.
fn segments_job<'a, S: AsStr>(
    alloc: Global,
    front: &'a [S],
    files: &'a [S],
) -> Result<Job<'a>, JobError>
    ensures ok { IfOk result (λ job.
        asked_in_parts (map S.text front.entry.now) (map S.text files.entry.now) ≡ Some (asked_by job)) }
    ensures err { IfErr result (λ error.
        IsSome (asked_in_parts (map S.text front.entry.now) (map S.text files.entry.now))
        → error ≡ JobError.OutOfMemory) }
    ensures told { IfErr result (IsToldBy (fault_of segments_program (map S.text front.entry.now))) }
    ensures text { IfErr result IsSaid }
{
    match segments_command(alloc)?.try_get_matches_from(front) {
        Ok(matches) => match segments_of(alloc, &matches, files)? {
            Some(paths) => Ok(Job::AuditSegments(paths)),
            None => Err(JobError::Words(no_file(alloc)?)),
        },
        Err(fault) => Err(refused(alloc, &fault, are_lines(front))),
    }
}

/// The command line of the program: its commands, one of which has to be named.
fn command<'a>(alloc: Global) -> Result<Command<'a>, AllocError>
    ensures { IfOk result (λ command. app_of command ≡ program) }
{
    let whole = top(alloc)?
        .subcommand(CheckPaths::command(alloc)?)?
        .subcommand(AnnotatePaths::command(alloc)?)?
        .subcommand(SimulatePaths::command(alloc)?)?
        .subcommand(FormatPaths::command(alloc)?)?
        .subcommand(RunPaths::command(alloc)?)?
        .subcommand(AuditPaths::command(alloc)?)?
        .subcommand(DrawPaths::command(alloc)?)?;
    Ok(whole)
}

/// The command line that reads the front of the words of an audit of segments.
fn segments_command<'a>(alloc: Global) -> Result<Command<'a>, AllocError>
    ensures { IfOk result (λ command. app_of command ≡ segments_program) }
{
    let whole = top(alloc)?.subcommand(SegmentsPaths::command(alloc)?)?;
    Ok(whole)
}

/// The program's command line without its commands.
fn top<'a>(alloc: Global) -> Result<Command<'a>, AllocError>
    ensures { IfOk result (λ command. app_of command ≡ program_alone) }
{
    let command = Command::new(alloc, "pinpool")
        .version("0.1.0")
        .about(
            "Makes and checks the certificates of plans for a page buffer pool, plays scripts over a pool, formats \
            devices, runs plans over them, and audits and draws journals.",
        )
        .subcommand_required(true)
        .arg_required_else_help(true);
    // The name stands in the texts of faults and of the help, whatever the file of the program is called.
    let named = command.bin_name("pinpool")?;
    Ok(named)
}

/// The command that the matches name, with its paths.
fn job_of<'a>(alloc: Global, matches: &ArgMatches<'a>) -> Result<Option<Job<'a>>, AllocError>
    ensures { IfOk result (λ job. option_map asked_by job ≡ asked_of (subcommand_rows_of matches.now)) }
{
    let job = match matches.subcommand() {
        Some(("check", given)) => Job::Check(CheckPaths::among(given)),
        Some(("annotate", given)) => Job::Annotate(AnnotatePaths::among(given)),
        Some(("simulate", given)) => Job::Simulate(SimulatePaths::among(alloc, given)?),
        Some(("format", given)) => Job::Format(FormatPaths::among(given)),
        Some(("run", given)) => Job::Run(RunPaths::among(alloc, given)?),
        Some(("audit", given)) => Job::Audit(AuditPaths::among(alloc, given)?),
        Some(("draw", given)) => Job::Draw(DrawPaths::among(alloc, given)?),
        _ => return Ok(None),
    };
    Ok(Some(job))
}

/// The audit of segments that the matches and these files ask for; none where there is no file.
fn segments_of<'a, S: AsStr>(
    alloc: Global,
    matches: &ArgMatches<'a>,
    files: &'a [S],
) -> Result<Option<SegmentsPaths<'a>>, AllocError>
    ensures { IfOk result (λ paths.
        option_map asked_segments paths ≡ segments_of (subcommand_rows_of matches.now) (map S.text files.entry.now)) }
{
    match matches.subcommand() {
        Some((_, given)) if !files.is_empty() => {
            Ok(Some(SegmentsPaths::among(alloc, given, files)?))
        }
        _ => Ok(None),
    }
}

/// The text of the mistake that an audit of segments has no file, as `clap` words it of other arguments.
fn no_file(alloc: Global) -> Result<String, AllocError>
    ensures ended { IfOk result (λ text. is_ended (string_bytes text) ≡ true) }
    ensures quiet { IfOk result (λ text. IsShownText (string_bytes text)) }
{
    let text = format!(in alloc;
        "error: the following required arguments were not provided:\n  <FILE>...\n\nUsage: {USAGE}\n\n\
        For more information, try '--help'.\n"
    )?;
    shown(alloc, text.as_str(), true)
}

/// Why words with this fault give no job.
fn refused(alloc: Global, fault: &clap::Error, are_lines: bool) -> JobError
    ensures memory { kind_of fault.now ≡ ErrorKind.OutOfMemory → result ≡ JobError.OutOfMemory }
    // The help and the version are shown, and a mistake is told as one.
    ensures told { IsToldAs (kind_of fault.now) result }
    ensures text { IsSaid result }
{
    if fault.kind() == ErrorKind::OutOfMemory {
        return JobError::OutOfMemory;
    }
    match error_of(alloc, fault, are_lines) {
        Ok(error) => error,
        Err(AllocError) => JobError::OutOfMemory,
    }
}

/// What is told of a fault that isn't want of memory.
fn error_of(alloc: Global, fault: &clap::Error, are_lines: bool) -> Result<JobError, AllocError>
    requires { kind_of fault.now ≢ ErrorKind.OutOfMemory }
    ensures told { IfOk result (IsToldAs (kind_of fault.now)) }
    ensures text { IfOk result IsSaid }
{
    if !fault.use_stderr() {
        return Ok(JobError::Shown(text_of(alloc, fault)?));
    }
    let text = format!(in alloc; "{fault}")?;
    Ok(JobError::Words(shown(alloc, text.as_str(), are_lines)?))
}

/// Whether each word stands in a line: then a line feed in the text of a fault is the text's own.
fn are_lines<S: AsStr>(words: &[S]) -> bool {
    for word in words {
        if word.as_str().contains('\n') {
            return false;
        }
    }
    true
}

/// The text of a mistake in the words, which may show some of them: its lines, or all of it in one line.
fn shown(alloc: Global, text: &str, are_lines: bool) -> Result<String, AllocError>
    ensures lines { are_lines ≡ true → IfOk result (λ shown. string_bytes shown ≡ with_line_feed (shown_lines text.now)) }
    ensures line { are_lines ≡ false → IfOk result (λ shown. string_bytes shown ≡ with_line_feed (shown_path text.now)) }
    ensures ended { IfOk result (λ shown. is_ended (string_bytes shown) ≡ true) }
    ensures quiet { IfOk result (λ shown. IsShownText (string_bytes shown)) }
{
    if are_lines {
        text_of(alloc, &ShownLines(text))
    } else {
        text_of(alloc, &ShownPath(text))
    }
}

/// The text that a value prints, ended by a line feed where it has none at its end.
#[tactic(auto, using(crate::proofs::Ended::ended_after))]
fn text_of<D: Display>(alloc: Global, value: &D) -> Result<String, AllocError>
    ensures said { IfOk result (λ text. IfSome (D.output value.now) (λ said. string_bytes text ≡ with_line_feed said)) }
    ensures ended { IfOk result (λ text. is_ended (string_bytes text) ≡ true) }
{
    let mut text = format!(in alloc; "{value}")?;
    if !text.as_bytes().ends_with(b"\n") {
        text.push_str("\n")?;
    }
    Ok(text)
}
