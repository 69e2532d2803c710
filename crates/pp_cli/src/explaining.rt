//! What explains a refusal, or warns of a text that is accepted, for standard error behind what stands on standard output.

ghost use Rattle.std.specs.Prelude.{◌≡◌, ◌∷◌, [], IfOk, IfSome, length, option_map};
ghost use Rattle.pp_explain.specs.Paragraphs.{IsAbout, paths_in, paths_of};
ghost use Rattle.pp_words.specs.CommandLine.{texts};

use pp_core::PrepareError;
use pp_explain::{Refused, Source, Sources, explain, repeated};
use pp_judge::{Exit, JudgeError};
use pp_segments::SegmentError;
use pp_simulate::SimulateError;
use std::alloc::{AllocError, Global};

/// What explains the exit, where it is a refusal of these files; else a warning of a key that stands twice in one of them.
/// Nothing where memory runs out for it.
pub fn explained(alloc: Global, files: Sources<'_>, exit: &Exit<'_>) -> Option<Vec<u8>>
    // A paragraph about one of the files.
    ensures { IfSome (option_map (λ text. text.items) result) (IsAbout (paths_of files.entry)) }
{
    match exit {
        Exit::Refused(refusal) => explained_as(alloc, files, refused_as(*refusal)?),
        _ => warned(alloc, files),
    }
}

/// A warning of a key that stands twice in one of these files, of which the grammar takes the last one. Nothing where memory
/// runs out for it.
#[tactic(auto, using(crate::proofs::Beside::lifted))]
fn warned(alloc: Global, files: Sources<'_>) -> Option<Vec<u8>>
    ensures { IfSome (option_map (λ text. text.items) result) (IsAbout (paths_of files.entry)) }
{
    match repeated(alloc, files) {
        Ok(text) => text,
        Err(AllocError) => None,
    }
}

/// The same of settings alone.
pub fn explained_alone(alloc: Global, settings: Source<'_>, exit: &Exit<'_>) -> Option<Vec<u8>>
    ensures { IfSome (option_map (λ text. text.items) result) (IsAbout (settings.entry.path.now ∷ [])) }
{
    let sources = Sources {
        settings,
        other: None,
        plans: &[],
    };
    explained(alloc, sources, exit)
}

/// What explains that the files are refused so. Nothing where memory runs out for it.
#[tactic(auto, using(crate::proofs::Beside::lifted))]
pub fn explained_as(alloc: Global, files: Sources<'_>, refused: Refused<'_>) -> Option<Vec<u8>>
    ensures { IfSome (option_map (λ text. text.items) result) (IsAbout (paths_of files.entry)) }
{
    match explain(alloc, files, refused) {
        Ok(told) => told,
        Err(AllocError) => None,
    }
}

/// The refusal, as it is explained.
fn refused_as(refusal: JudgeError) -> Option<Refused<'static>> {
    match refusal {
        JudgeError::Settings(error) => Some(Refused::Settings(error)),
        JudgeError::OtherLife => Some(Refused::OtherLife),
        JudgeError::Script(error) => Some(Refused::Script(error)),
        JudgeError::Plan(error) => Some(Refused::Plan(error)),
        JudgeError::Certificate(error) => Some(Refused::Certificate(error)),
        JudgeError::Check(error) => Some(Refused::Check(error)),
        JudgeError::Annotate(error) => Some(Refused::Annotate(error)),
        JudgeError::Simulate(SimulateError::Submit(error)) => Some(Refused::Submit(error)),
        JudgeError::Simulate(SimulateError::TooManyPrepared) => Some(Refused::TooManyPrepared),
        JudgeError::Simulate(SimulateError::OutOfMemory) => None,
        JudgeError::Audit(error) => Some(Refused::Audit(error)),
        JudgeError::Segments(error) => begun_as(error),
    }
}

/// Why an audit of segments doesn't begin. What it finds in a file is explained where that file is at hand.
fn begun_as(error: SegmentError) -> Option<Refused<'static>> {
    match error {
        SegmentError::OtherLife => Some(Refused::BoundedLife),
        SegmentError::Prepare(PrepareError::TooManyPrepared) => Some(Refused::TooManyPrepared),
        _ => None,
    }
}

/// The texts of a command that reads several plans.
#[derive(Clone, Copy)]
pub struct Texts<'a> {
    /// The settings.
    pub settings: Source<'a>,
    /// The script, the journal or a file of segments, where the command reads one.
    pub other: Option<Source<'a>>,
    /// The paths of the plans.
    pub paths: &'a [&'a str],
    /// Their bytes.
    pub plans: &'a [Vec<u8>],
}

impl Texts<'_> {
    ghost use Rattle.pp_cli.specs.Texts.{paths_at};

    /// What explains the exit, where it is a refusal of these texts; else a warning of a key that stands twice in one of
    /// them. Nothing where memory runs out for it.
    pub fn explained(&self, alloc: Global, exit: &Exit<'_>) -> Option<Vec<u8>>
        requires { length self.now.paths.now ≡ length self.now.plans.now }
        ensures { IfSome (option_map (λ text. text.items) result) (IsAbout (paths_at self.now)) }
    {
        match exit {
            Exit::Refused(refusal) => self.explained_as(alloc, refused_as(*refusal)?),
            _ => self.warned(alloc),
        }
    }

    /// What explains that they are refused so. Nothing where memory runs out for it.
    pub fn explained_as(&self, alloc: Global, refused: Refused<'_>) -> Option<Vec<u8>>
        requires { length self.now.paths.now ≡ length self.now.plans.now }
        ensures { IfSome (option_map (λ text. text.items) result) (IsAbout (paths_at self.now)) }
    {
        self.told(alloc, Some(refused))
    }

    /// A warning of a key that stands twice in one of them. Nothing where memory runs out for it.
    pub fn warned(&self, alloc: Global) -> Option<Vec<u8>>
        requires { length self.now.paths.now ≡ length self.now.plans.now }
        ensures { IfSome (option_map (λ text. text.items) result) (IsAbout (paths_at self.now)) }
    {
        self.told(alloc, None)
    }

    /// What explains a refusal of them, or else what there is to warn of in them.
    fn told(&self, alloc: Global, refused: Option<Refused<'_>>) -> Option<Vec<u8>>
        requires { length self.now.paths.now ≡ length self.now.plans.now }
        ensures { IfSome (option_map (λ text. text.items) result) (IsAbout (paths_at self.now)) }
    {
        let Ok(plans) = plans_at(alloc, self.paths, self.plans) else {
            return None;
        };
        let sources = Sources {
            settings: self.settings,
            other: self.other,
            plans: &plans,
        };
        match refused {
            Some(refused) => explained_as(alloc, sources, refused),
            None => warned(alloc, sources),
        }
    }
}

/// The file at this path with these bytes.
pub fn source<'a>(path: &'a str, bytes: &'a [u8]) -> Source<'a>
    ensures { result.path.now ≡ path.entry.now }
{
    Source { path, bytes }
}

/// The plans at the paths, in their order, with their bytes.
fn plans_at<'a>(
    alloc: Global,
    paths: &'a [&'a str],
    plans: &'a [Vec<u8>],
) -> Result<Vec<Source<'a>>, AllocError>
    requires { length paths.now ≡ length plans.now }
    ensures { IfOk result (λ files. paths_in files.items ≡ texts paths.entry.now) }
{
    let mut files = Vec::new(alloc);
    for (place, path) in paths.iter().enumerate() {
        files.push(source(path, &plans[place]))?;
    }
    Ok(files)
}
