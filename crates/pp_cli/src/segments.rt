//! Auditing the segments of an endless pool's journal, file by file.

ghost use Rattle.std.specs.Prelude.{◌≡◌, ◌∷◌, ◌++◌, [], ℕ, List, IfOk, IfSome, MatchResult, None, length, option_map};
ghost use Rattle.std.specs.List.{Contains};
ghost use Rattle.pp_explain.specs.Paragraphs.{IsAbout};
ghost use Rattle.pp_judge.specs.Answers.{seen};
ghost use Rattle.pp_judge.specs.Passed.{HasPassed};
ghost use Rattle.pp_words.specs.CommandLine.{Asked, Text, asked_segments, texts};
ghost use Rattle.pp_cli.specs.Runs.{ComesOf, ExplainsOf, stopped_by};

use crate::explaining::{Texts, source};
use crate::files::{Unread, contents, contents_of_all};
use pp_explain::{Refused, SegmentFault};
use pp_judge::{Exit, JudgeError, pass_segments, segment_auditor, segments_exit};
use pp_segments::SegmentAuditor;
use pp_words::SegmentsPaths;
use std::alloc::Global;
use std::rt::Files;

/// What the files of `audit --segments` come to. The settings and the plans are read before any of them is refused.
/// Then the files of segments are read, each when those before it were audited.
pub fn audit_segments<'a, R: Files + AllocGlobal>(
    rt: &R,
    paths: SegmentsPaths<'a>,
    note: &mut Option<Vec<u8>>,
) -> Result<Exit<'a>, Unread<'a>>
    requires { note.old ≡ None }
    ensures explained { MatchResult result
        (λ exit. ExplainsOf (asked_segments paths.entry) (seen exit) (option_map (λ text. text.items) note.new))
        (λ why. note.new ≡ None) }
    ensures comes { MatchResult result (λ exit. ComesOf (asked_segments paths.entry) (seen exit))
        (λ why. ComesOf (asked_segments paths.entry) (stopped_by why)) }
{
    let settings = contents(rt, paths.settings)?;
    let plans = contents_of_all(rt, &paths.plans)?;
    let files = Texts {
        settings: source(paths.settings, &settings),
        other: None,
        paths: &paths.plans,
        plans: &plans,
    };
    match segment_auditor(rt.alloc(), settings.as_slice(), plans.as_slice()) {
        Ok(mut auditor) => {
            let (settings, segments) = (paths.settings, &paths.files);
            let (exit, place) = audit_files(rt, &mut auditor, settings, segments, paths.ended)?;
            *note = place.explained(rt.alloc(), files, &auditor, &exit);
            Ok(exit)
        }
        Err(refusal) => {
            let exit = Exit::from(refusal);
            *note = files.explained(rt.alloc(), &exit);
            Ok(exit)
        }
    }
}

/// The file at which an audit of segments has ended.
#[derive(Drop)]
struct Place<'a> {
    path: &'a str,
    /// Its bytes, where a line of it is refused.
    bytes: Vec<u8>,
    /// How many lines the files before it have.
    lines_before: u64,
}

/// What the files of segments come to, with an auditor that has passed none, and where that is found: at one of them,
/// or at the settings where there are none.
fn audit_files<'a, R: Files + AllocGlobal>(
    rt: &R,
    auditor: &mut SegmentAuditor,
    settings: &'a str,
    files: &[&'a str],
    ended: bool,
) -> Result<(Exit<'a>, Place<'a>), Unread<'a>>
    ensures place { IfOk result (λ found. Contains (settings.entry.now ∷ texts files.now) found.1.path.now) }
    ensures comes { (path : Text) (plan_paths : List Text) (bytes : List ℕ) (plans : List (List ℕ))
        → length plans ≡ length plan_paths → HasPassed bytes plans [] auditor.old
        → MatchResult result (λ found. ComesOf (Asked.segments ended path plan_paths (texts files.now)) (seen found.0))
        (λ why. ComesOf (Asked.segments ended path plan_paths (texts files.now)) (stopped_by why)) }
{
    for path in files {
        let lines_before = auditor.lines();
        let bytes = contents(rt, path)?;
        match pass_segments(auditor, &bytes) {
            Ok(()) => {}
            Err(refusal) => {
                let place = Place {
                    path,
                    bytes,
                    lines_before,
                };
                return Ok((Exit::from(refusal), place));
            }
        }
    }
    let place = Place {
        path: last_of(settings, files),
        bytes: Vec::new(rt.alloc()),
        lines_before: auditor.lines(),
    };
    Ok((segments_exit(auditor, ended), place))
}

/// The last of the files, or the settings where there are none.
fn last_of<'a>(settings: &'a str, files: &[&'a str]) -> &'a str
    ensures { Contains (settings.entry.now ∷ texts files.now) result.now }
{
    if files.is_empty() {
        return settings;
    }
    files[files.len() - 1]
}

impl Place<'_> {
    /// What explains the exit, where it is a refusal of the file; else a warning of a key that stands twice in one of
    /// the plans. Nothing where memory runs out for it.
    fn explained(
        &self,
        alloc: Global,
        files: Texts<'_>,
        auditor: &SegmentAuditor,
        exit: &Exit<'_>,
    ) -> Option<Vec<u8>>
        requires { length files.paths.now ≡ length files.plans.now }
        ensures { IfSome (option_map (λ text. text.items) result)
            (IsAbout ((files.entry.settings.path.now ∷ self.now.path.now ∷ []) ++ texts files.entry.paths.now)) }
    {
        let files = Texts {
            other: Some(source(self.path, &self.bytes)),
            ..files
        };
        match exit {
            Exit::Refused(JudgeError::Segments(error)) => {
                let fault = SegmentFault {
                    error: *error,
                    auditor,
                    lines_before: self.lines_before,
                };
                files.explained_as(alloc, Refused::Segments(fault))
            }
            _ => files.warned(alloc),
        }
    }
}
