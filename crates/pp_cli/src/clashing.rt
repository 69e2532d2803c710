//! Two words of one command that name one file, of which one is written.

ghost use Rattle.std.specs.Prelude.{◌≡◌, ◌∷◌, [], IfOk, IfSome, IsNone, Some, codes, string_bytes, true};
ghost use Rattle.pp_judge.specs.Answers.{seen};
ghost use Rattle.pp_words.specs.CommandLine.{asked_by, asked_run, text_in, texts};
ghost use Rattle.pp_cli.specs.Clashes.{AreApart, IsApart, IsApartAt, IsApartInRun, IsWrittenBy, clash_line};
ghost use Rattle.pp_cli.specs.Faults.{IsMisusedBy};

use pp_judge::Exit;
use pp_shown::ShownPath;
use pp_words::{DrawPaths, Job, RunPaths};
use std::alloc::{AllocError, Global};
use std::fs;
use std::os::unix::fs::MetadataExt;
use std::rt::Files;

/// The word for a file that a command would write, and another of its words that names the same file. The word `-` names
/// no file that can be written.
#[derive(Clone, Copy, Debug, PartialEq, Eq)]
pub struct Clash<'a> {
    /// The word for the file that is written.
    pub written: &'a str,
    /// The other word.
    pub other: &'a str,
}

/// Two words of the job that name one file, of which one is written.
pub fn clash_of<'a, R: Files>(rt: &R, job: &Job<'a>) -> Option<Clash<'a>>
    ensures apart { IsNone result → AreApart (asked_by job.now) }
    ensures written { IfSome result (λ clash. IsWrittenBy (asked_by job.now) clash.written.now) }
{
    match job {
        Job::Annotate(paths) => named(rt, paths.output, &[paths.settings, paths.plan]),
        Job::Format(paths) => named(rt, Some(paths.device), &[paths.settings]),
        Job::Run(paths) => clash_of_run(rt, paths),
        Job::Draw(paths) => clash_of_draw(rt, paths),
        Job::Check(_) | Job::Simulate(_) | Job::Audit(_) | Job::AuditSegments(_) => None,
    }
}

/// What the words come to of which two name one file.
pub fn misplaced<'a>(alloc: Global, clash: Clash<'_>) -> Exit<'a>
    ensures { IsMisusedBy (clash_line clash.entry.written.now clash.entry.other.now) (seen result) }
{
    match clash_line(alloc, clash.written, clash.other) {
        Ok(text) => Exit::Misused(text),
        Err(AllocError) => Exit::OutOfMemory,
    }
}

/// The line that complains of the two words.
fn clash_line(alloc: Global, written: &str, other: &str) -> Result<String, AllocError>
    ensures { IfOk result (λ text. string_bytes text ≡ clash_line written.now other.now) }
{
    if written == "-" {
        return String::from_str(alloc, "error: - is no file that this command can write\n");
    }
    let (written, other) = (ShownPath(written), ShownPath(other));
    Ok(format!(in alloc;
        "error: {written} and {other} name one file, and this command would write it\n"
    )?)
}

/// The words of `draw` that name the file that it writes.
#[tactic(auto, using(crate::proofs::Apart::behind))]
fn clash_of_draw<'a, R: Files>(rt: &R, paths: &DrawPaths<'a>) -> Option<Clash<'a>>
    ensures texts { IsNone result → IsApartAt (text_in paths.now.output) (codes "-" ∷ paths.now.settings.now ∷ paths.now.journal.now ∷ []) }
    ensures plans { IsNone result → IsApartAt (text_in paths.now.output) (texts paths.now.plans.items) }
    ensures written { IfSome result (λ clash. text_in paths.now.output ≡ Some clash.written.now) }
{
    if let Some(clash) = named(rt, paths.output, &[paths.settings, paths.journal]) {
        return Some(clash);
    }
    named(rt, paths.output, &paths.plans)
}

/// The words of `run` that name the device or the journal.
fn clash_of_run<'a, R: Files>(rt: &R, paths: &RunPaths<'a>) -> Option<Clash<'a>>
    ensures apart { IsNone result → AreApart (asked_run paths.now) }
    ensures written { IfSome result (λ clash. IsWrittenBy (asked_run paths.now) clash.written.now) }
{
    if let Some(clash) = named_in_run(rt, Some(paths.device), &[paths.settings], paths) {
        return Some(clash);
    }
    named_in_run(rt, paths.journal, &[paths.settings, paths.device], paths)
}

/// The word for the file that is written, where it is one of these, of the plans, or of the choices of `run`.
#[tactic(auto, using(crate::proofs::Apart::behind))]
fn named_in_run<'a, R: Files>(
    rt: &R,
    written: Option<&'a str>,
    others: &[&'a str],
    paths: &RunPaths<'a>,
) -> Option<Clash<'a>>
    ensures apart { IsNone result → IsApartInRun (text_in written.entry) (codes "-" ∷ texts others.now)
        (text_in paths.now.trace) (texts paths.now.plans.items) }
    ensures written { IfSome result (λ clash. text_in written.entry ≡ Some clash.written.now) }
{
    if let Some(clash) = named(rt, written, others) {
        return Some(clash);
    }
    if let Some(trace) = paths.trace {
        if let Some(clash) = named(rt, written, &[trace]) {
            return Some(clash);
        }
    }
    named(rt, written, &paths.plans)
}

/// The word for the file that is written, where it is `-`, or one of the others names it too.
fn named<'a, R: Files>(rt: &R, written: Option<&'a str>, others: &[&'a str]) -> Option<Clash<'a>>
    ensures apart { IsNone result → IsApartAt (text_in written.entry) (codes "-" ∷ texts others.now) }
    ensures written { IfSome result (λ clash. text_in written.entry ≡ Some clash.written.now) }
{
    let word = written?;
    if word == "-" {
        return Some(Clash {
            written: word,
            other: word,
        });
    }
    named_again(rt, word, others)
}

/// The word for the file that is written, where one of the others names that file too.
fn named_again<'a, R: Files>(rt: &R, word: &'a str, others: &[&'a str]) -> Option<Clash<'a>>
    ensures apart { IsNone result → IsApart word.entry.now (texts others.now) }
    ensures written { IfSome result (λ clash. clash.written.now ≡ word.entry.now) }
{
    for other in others {
        if is_one_file(rt, word, other) {
            return Some(Clash {
                written: word,
                other,
            });
        }
    }
    None
}

/// Whether both words name one file: they are the same word, or the system has one file under both.
fn is_one_file<R: Files>(rt: &R, left: &str, right: &str) -> bool
    ensures { right.now ≡ left.now → result ≡ true }
{
    left == right || is_there_under_both(rt, left, right)
}

/// Whether the system has one file under both names, by links, by another way to it, or by `.` and `..`.
fn is_there_under_both<R: Files>(rt: &R, left: &str, right: &str) -> bool {
    match (fs::metadata(rt, left), fs::metadata(rt, right)) {
        (Ok(left), Ok(right)) => left.dev() == right.dev() && left.ino() == right.ino(),
        _ => false,
    }
}
