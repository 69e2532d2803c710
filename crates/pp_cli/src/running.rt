//! The command `run`: its files, the run, and the file of the journal.

ghost use Rattle.std.specs.Prelude.{◌≡◌, ◌⊎◌, ◌&&◌, IfErr, IfOk, IfSome, List, MatchResult, None, Some, is_none, is_some, length, option_map, string_bytes};
ghost use Rattle.pp_settings.specs.declared.span.Span.TheVariants.{Bounded};
ghost use Rattle.pp_judge.specs.Answers.{seen};
ghost use Rattle.pp_explain.specs.Paragraphs.{IsAbout};
ghost use Rattle.pp_report.specs.Reports.{report_text};
ghost use Rattle.pp_run_command.specs.Endings.{went_well};
ghost use Rattle.pp_run_command.specs.Runs.{MayEnd, Tells};
ghost use Rattle.pp_words.specs.CommandLine.{Text, asked_run, text_in};
ghost use Rattle.pp_cli.specs.Notes.{IsBeside, IsOfJournal, run_note, seen_fault};
ghost use Rattle.pp_cli.specs.Runs.{ComesOf, ExplainsOf, IsStopped, IsUnprepared, MayEndTraced, files_of, listed, stopped_by};
ghost use Rattle.pp_cli.specs.Texts.{paths_at};
ghost use Rattle.pp_cli.specs.Warnings.{IsRepeat, IsWarned, IsWarning};

use crate::explaining::{Texts, source};
use crate::files::{Unread, contents, contents_of_all};
use crate::holding::hold;
use crate::journal::JournalFile;
use crate::looking::{Look, warnings};
use crate::noting::{Aside, run_note};
use crate::tracing::trace_in;
use crate::writing::put;
use pp_explain::{Refused, Stop};
use pp_judge::{DeviceSize, Exit, FileFault, RunReport, Workload};
use pp_report::{Journal, RunRecord, packed_journal_text};
use pp_run::RunError;
use pp_run_command::{Choices, RunCommandError, stopped_line, told};
use pp_words::RunPaths;
use std::alloc::{AllocError, Global};
use std::fs::File;
use std::io::Write;
use std::rt::Files;
use std::sync::Wait;
use std::thread::Threads;
use std::time::Clock;

/// What the files of `run` come to, where all texts can be read: their refusal, or what the run comes to. Where a key stands
/// twice in a plan, or the device isn't one of these settings, standard error warns of that before the run. Where there is a terminal, it shows how far a
/// long run is.
pub fn run<
    'a,
    R: Files<File = File> + AllocGlobal + Threads + Wait + Clock + Sync + Copy + Send + Drop,
    E: Write,
    P: Write + Send,
>(
    rt: &R,
    paths: RunPaths<'a>,
    err: &mut E,
    terminal: Option<&mut P>,
    note: &mut Option<Vec<u8>>,
) -> Result<Exit<'a>, Unread<'a>>
    requires { note.old ≡ None }
    ensures explained { MatchResult result
        (λ exit. ExplainsOf (asked_run paths.entry) (seen exit) (option_map (λ text. text.items) note.new))
        (λ why. note.new ≡ None) }
    ensures comes { MatchResult result (λ exit. ComesOf (asked_run paths.entry) (seen exit))
        (λ why. ComesOf (asked_run paths.entry) (stopped_by why)) }
    ensures warned { IsWarned E.contents (files_of (asked_run paths.entry)) paths.entry.device.now err.old err.new }
{
    let settings = contents(rt, paths.settings)?;
    let plans = contents_of_all(rt, &paths.plans)?;
    let trace = trace_text(rt, paths.trace)?;
    let texts = Texts {
        settings: source(paths.settings, &settings),
        other: None,
        paths: &paths.plans,
        plans: &plans,
    };
    match Workload::read(rt.alloc(), settings.as_slice(), plans.as_slice()) {
        Ok(workload) => {
            let trace = trace.as_deref();
            Ok(run_traced(rt, workload, &paths, trace, texts, err, terminal, note))
        }
        Err(refusal) => {
            let exit = Exit::from(refusal);
            *note = texts.explained(rt.alloc(), &exit);
            Ok(exit)
        }
    }
}

/// The bytes of the file of the choices, where one is named.
fn trace_text<'a, R: Files + AllocGlobal>(
    rt: &R,
    path: Option<&'a str>,
) -> Result<Option<Vec<u8>>, Unread<'a>>
    ensures there { IfOk result (λ text. is_some text ≡ is_some path.entry) }
    ensures stopped { IfErr result (λ why. IsStopped (listed (text_in path.entry)) (stopped_by why)) }
{
    match path {
        Some(path) => Ok(Some(contents(rt, path)?)),
        None => Ok(None),
    }
}

/// What running the plans comes to, with the choices of this text where there is one.
#[tactic(auto, using(crate::proofs::Beside::mistraced_quiet))]
fn run_traced<
    'a,
    R: Files<File = File> + AllocGlobal + Threads + Wait + Clock + Sync + Copy + Send + Drop,
    E: Write,
    P: Write + Send,
>(
    rt: &R,
    workload: Workload,
    paths: &RunPaths<'a>,
    trace: Option<&[u8]>,
    texts: Texts<'_>,
    err: &mut E,
    terminal: Option<&mut P>,
    note: &mut Option<Vec<u8>>,
) -> Exit<'a>
    requires bounded { workload.settings.span ≡ Bounded }
    requires long { length texts.paths.now ≡ length texts.plans.now }
    requires traced { is_some trace ≡ is_some paths.now.trace }
    requires note { note.old ≡ None }
    ensures explained { IsBeside (paths_at texts.entry) (text_in paths.now.journal) (is_some paths.now.trace) (seen result)
        (option_map (λ text. text.items) note.new) }
    ensures comes { MayEndTraced (asked_run paths.now) (workload.settings, workload.plans.items) (seen result) }
    ensures warned { IsWarned E.contents (paths_at texts.entry) paths.now.device.now err.old err.new }
{
    let trace = match (paths.trace, trace) {
        (Some(path), Some(text)) => {
            match trace_in(rt.alloc(), path, text, workload.settings.workers()) {
                Ok(trace) => Some(trace),
                Err(exit) => return exit,
            }
        }
        _ => None,
    };
    let choices = Choices::new(paths.seed, trace.as_deref());
    run_workload(rt, workload, paths, &choices, texts, err, terminal, note)
}

/// What running the plans over the device comes to, once that and the file of the journal are opened.
#[tactic(auto, using(crate::proofs::Beside::quiet))]
fn run_workload<
    'a,
    R: Files<File = File> + AllocGlobal + Threads + Wait + Clock + Sync + Copy + Send + Drop,
    E: Write,
    P: Write + Send,
>(
    rt: &R,
    workload: Workload,
    paths: &RunPaths<'a>,
    choices: &Choices<'_>,
    texts: Texts<'_>,
    err: &mut E,
    terminal: Option<&mut P>,
    note: &mut Option<Vec<u8>>,
) -> Exit<'a>
    requires bounded { workload.settings.span ≡ Bounded }
    requires long { length texts.paths.now ≡ length texts.plans.now }
    requires note { note.old ≡ None }
    ensures explained { IsBeside (paths_at texts.entry) (text_in paths.now.journal) (is_some choices.now.trace) (seen result)
        (option_map (λ text. text.items) note.new) }
    ensures comes { IsUnprepared paths.now.device.now (text_in paths.now.journal) (seen result)
        ⊎ MayEnd paths.now.device.now (text_in paths.now.journal) (workload.settings, workload.plans.items) (seen result) }
    ensures warned { IsWarned E.contents (paths_at texts.entry) paths.now.device.now err.old err.new }
{
    let size = DeviceSize {
        pages: workload.settings.pages(),
        page_bytes: workload.settings.page_bytes(),
    };
    match prepare(rt, paths, size, texts, err) {
        Ok(held) => run_held(rt, workload, paths, choices, held, texts, terminal, note),
        Err(exit) => exit,
    }
}

/// What running the plans comes to, with the files that it writes opened.
fn run_held<
    'a,
    R: Files<File = File> + AllocGlobal + Threads + Wait + Clock + Sync + Copy + Send + Drop,
    P: Write + Send,
>(
    rt: &R,
    workload: Workload,
    paths: &RunPaths<'a>,
    choices: &Choices<'_>,
    held: Held<'a>,
    texts: Texts<'_>,
    terminal: Option<&mut P>,
    note: &mut Option<Vec<u8>>,
) -> Exit<'a>
    requires bounded { workload.settings.span ≡ Bounded }
    requires long { length texts.paths.now ≡ length texts.plans.now }
    requires note { note.old ≡ None }
    ensures explained { IsBeside (paths_at texts.entry) (option_map (λ journal. journal.path.now) held.entry.journal)
        (is_some choices.now.trace) (seen result) (option_map (λ text. text.items) note.new) }
    ensures comes { MayEnd paths.now.device.now (option_map (λ journal. journal.path.now) held.entry.journal)
        (workload.settings, workload.plans.items) (seen result) }
{
    match pp_run_command::run(rt, workload, paths.device, choices, terminal) {
        Ok(done) => {
            let missed = choices.missed_of_given();
            ended(rt, &done, held.journal, missed, note)
        }
        Err(RunCommandError::Unopened) => {
            held.discard(rt);
            Exit::Unread(FileFault {
                path: paths.device,
                cause: "it was there, and can't be opened any more",
            })
        }
        Err(RunCommandError::OutOfMemory) => {
            held.discard(rt);
            Exit::OutOfMemory
        }
        Err(RunCommandError::Stopped(error)) => {
            held.discard(rt);
            *note = stop_explained(rt.alloc(), texts, error);
            match stopped_line(rt.alloc(), error) {
                Ok(text) => Exit::Stopped(text),
                Err(_) => Exit::OutOfMemory,
            }
        }
    }
}

/// The files that a run writes, opened before it begins.
#[derive(Drop)]
struct Held<'a> {
    /// Nobody else runs over the device while this is kept.
    device: File,
    journal: Option<JournalFile<'a>>,
}

impl Held<'_> {
    /// Lets go of the files, where there is no journal to be written.
    fn discard<R: Files<File = File>>(self, rt: &R) {
        let Held { device: _, journal } = self;
        if let Some(journal) = journal {
            journal.discard(rt);
        }
    }
}

/// Opens the device, and then the file of the journal where one is wanted, and warns where a key stands twice in a plan, and
/// where the device isn't of this size.
fn prepare<'a, R: Files<File = File> + AllocGlobal, E: Write>(
    rt: &R,
    paths: &RunPaths<'a>,
    size: DeviceSize,
    texts: Texts<'_>,
    err: &mut E,
) -> Result<Held<'a>, Exit<'a>>
    requires long { length texts.paths.now ≡ length texts.plans.now }
    ensures held { IfOk result (λ held. option_map (λ journal. journal.path.now) held.journal ≡ text_in paths.now.journal) }
    ensures unheld { IfErr result (λ exit. IsUnprepared paths.now.device.now (text_in paths.now.journal) (seen exit)) }
    ensures warned { IsWarned E.contents (paths_at texts.entry) paths.now.device.now err.old err.new }
{
    let device = hold(rt, paths.device)?;
    let journal = match paths.journal {
        Some(path) => Some(JournalFile::open(rt, path)?),
        None => None,
    };
    let look = Look::at(&device, size);
    match warning(rt.alloc(), texts, paths.device, size, look) {
        Ok(text) => {
            put(err, &text);
            Ok(Held { device, journal })
        }
        Err(AllocError) => Err(Exit::OutOfMemory),
    }
}

/// What there is to warn of before a run: a key that stands twice in one of its plans, then the device in which this was found.
fn warning(
    alloc: Global,
    texts: Texts<'_>,
    device: &str,
    size: DeviceSize,
    look: Look,
) -> Result<Vec<u8>, AllocError>
    requires long { length texts.paths.now ≡ length texts.plans.now }
    ensures { IfOk result (λ text. IsWarning (paths_at texts.entry) device.now text.items) }
{
    let mut text = repeat_in(alloc, texts);
    let of_device = warnings(alloc, device, size, look)?;
    text.extend_from_slice(of_device.as_bytes())?;
    Ok(text)
}

/// A warning of a key that stands twice in one of the texts, or nothing.
fn repeat_in(alloc: Global, texts: Texts<'_>) -> Vec<u8>
    requires long { length texts.paths.now ≡ length texts.plans.now }
    ensures { IsRepeat (paths_at texts.entry) result.items }
{
    match texts.warned(alloc) {
        Some(text) => text,
        None => Vec::new(alloc),
    }
}

/// What explains why a run stopped.
fn stop_explained(alloc: Global, texts: Texts<'_>, error: RunError) -> Option<Vec<u8>>
    requires long { length texts.paths.now ≡ length texts.plans.now }
    ensures { IfSome (option_map (λ text. text.items) result) (IsAbout (paths_at texts.entry)) }
{
    texts.explained_as(alloc, stopped_as(error)?)
}

/// Why a run stopped, as it is explained.
fn stopped_as(error: RunError) -> Option<Refused<'static>> {
    match error {
        RunError::Refused(error) => Some(Refused::Submit(error)),
        RunError::OutOfMemory => None,
        RunError::Mismatch(worker) => Some(Refused::Stop(Stop::Mismatch(worker))),
        RunError::Broken(worker) => Some(Refused::Stop(Stop::Broken(worker))),
        RunError::NoThread(worker) => Some(Refused::Stop(Stop::NoThread(worker))),
    }
}

/// What a run comes to that gave this record: its report, once the journal is written where one is wanted.
#[tactic(auto, using(crate::proofs::Beside::noted))]
fn ended<'a, R: Files<File = File> + AllocGlobal>(
    rt: &R,
    done: &RunRecord,
    journal: Option<JournalFile<'a>>,
    missed: Option<u64>,
    note: &mut Option<Vec<u8>>,
) -> Exit<'a>
    requires { note.old ≡ None }
    ensures comes { Tells done.now (option_map (λ file. file.path.now) journal.entry) (seen result) }
    ensures explained { (files : List Text) → IsBeside files (option_map (λ file. file.path.now) journal.entry)
        (is_some missed) (seen result) (option_map (λ text. text.items) note.new) }
{
    let unkept = match journal_kept(rt, journal, &done.events) {
        Ok(unkept) => unkept,
        Err(AllocError) => return Exit::OutOfMemory,
    };
    match reported(rt.alloc(), done, Aside { missed, unkept }) {
        Ok((report, text)) => {
            *note = Some(text);
            Exit::Ran(report)
        }
        Err(AllocError) => Exit::OutOfMemory,
    }
}

/// Writes the journal to its file, where one is wanted. Why that failed, where it did.
fn journal_kept<'a, R: Files<File = File> + AllocGlobal>(
    rt: &R,
    journal: Option<JournalFile<'a>>,
    events: &Journal,
) -> Result<Option<FileFault<'a>>, AllocError>
    ensures { IfOk result (λ unkept. IsOfJournal (option_map (λ file. file.path.now) journal.entry)
        (option_map seen_fault unkept)) }
{
    match journal {
        Some(journal) => keep_journal(rt, journal, events),
        None => Ok(None),
    }
}

/// The report of a run, and what standard error has behind it.
fn reported(
    alloc: Global,
    done: &RunRecord,
    aside: Aside<'_>,
) -> Result<(RunReport, Vec<u8>), AllocError>
    ensures report { IfOk result (λ told. string_bytes told.0.text ≡ report_text done.now) }
    ensures is_well { IfOk result (λ told. told.0.is_well
        ≡ (went_well done.now.events.items && is_none aside.entry.unkept)) }
    ensures note { IfOk result (λ told. told.1.items
        ≡ run_note done.now aside.entry.missed (option_map seen_fault aside.entry.unkept)) }
{
    let report = told(alloc, done)?;
    let text = run_note(alloc, done, aside)?;
    let report = RunReport {
        is_well: report.is_well && aside.unkept.is_none(),
        text: report.text,
    };
    Ok((report, text.into_bytes()))
}

/// Writes the journal to its file. Why that failed, where it did. Where memory runs out for the text, what stood in the
/// file stays.
fn keep_journal<'a, R: Files<File = File> + AllocGlobal>(
    rt: &R,
    journal: JournalFile<'a>,
    events: &Journal,
) -> Result<Option<FileFault<'a>>, AllocError>
    ensures { IfOk result (λ unkept. IsOfJournal (Some journal.entry.path.now) (option_map seen_fault unkept)) }
{
    let mut journal = journal;
    match packed_journal_text(rt.alloc(), events) {
        Ok(text) => journal.keep(text.as_str()),
        Err(AllocError) => {
            journal.discard(rt);
            Err(AllocError)
        }
    }
}
