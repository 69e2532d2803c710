//! Reading and writing the files that a job names, and what the job comes to.

ghost use Rattle.std.specs.Prelude.{◌≡◌, ◌≤◌, ◌∷◌, [], IfOk, IfErr, IfSome, None, MatchResult, length, map, option_map, replicate, vec_len};
ghost use Rattle.std.specs.Io.KnownBytes.{Appends};
ghost use Rattle.pp_device.specs.DeviceFile.{blank_file};
ghost use Rattle.pp_judge.specs.Answers.{ComesTo, audit_answer_of, formatted, seen};
ghost use Rattle.pp_words.specs.CommandLine.{asked_annotate, asked_audit, asked_by, asked_check, asked_draw};
ghost use Rattle.pp_words.specs.CommandLine.{asked_format, asked_simulate, text_in, texts};
ghost use Rattle.pp_cli.specs.Faults.{IsKeptAt};
ghost use Rattle.pp_cli.specs.Runs.{ComesOf, ComesOfWriting, ExplainsOf, IsPut, IsStopped, IsWarnedBy, is_text_of, stopped_by};

use crate::bar::Bar;
use crate::explaining::{Texts, explained, explained_alone, source};
use crate::fault::{fault_at, unwritten};
use crate::holding::hold_anew;
use crate::keeping::keep;
use crate::running::run;
use crate::segments::audit_segments;
use pp_device::format_onto;
use pp_device::image::HEAD;
use pp_explain::Sources;
use pp_judge::{
    AnnotateFiles, AuditFiles, CheckFiles, Contents, DeviceSize, DrawFiles, Exit, Figures,
    FileFault, SimulateFiles, device_size, exit_of,
};
use pp_settings::limits::MOST_BOUNDED_EVENTS;
use pp_words::{AnnotatePaths, AuditPaths, CheckPaths, DrawPaths, FormatPaths, Job, SimulatePaths};
use std::alloc::Global;
use std::fs;
use std::fs::File;
use std::io::{ErrorKind, Write};
use std::rt::Files;
use std::sync::Wait;
use std::thread::Threads;
use std::time::Clock;

/// Why the bytes of a job's files aren't there.
#[derive(Clone, Copy, Debug)]
pub enum Unread<'a> {
    /// A file can't be read.
    File(FileFault<'a>),
    /// Memory ran out.
    Memory,
}

/// What the job comes to. All texts that it needs are read, in the order of the words, before any is refused, but for files of
/// segments, each of which is audited before the next is read; the device of a run is opened after that. Where they are refused,
/// the note explains that.
pub fn perform<
    'a,
    R: Files<File = File> + AllocGlobal + Threads + Wait + Clock + Sync + Copy + Send + Drop,
    E: Write,
    P: Write + Send,
>(rt: &R, job: Job<'a>, err: &mut E, bar: &mut Bar<P>, note: &mut Option<Vec<u8>>) -> Exit<'a>
    requires { note.old ≡ None }
    ensures comes { ComesOf (asked_by job.entry) (seen result) }
    ensures explained { ExplainsOf (asked_by job.entry) (seen result) (option_map (λ text. text.items) note.new) }
    ensures warned { IsWarnedBy E.contents (asked_by job.entry) err.old err.new }
{
    let ended = match job {
        Job::Check(paths) => check(rt, paths, bar.terminal(), note),
        Job::Annotate(paths) => annotate(rt, paths, bar.terminal(), note),
        Job::Simulate(paths) => simulate(rt, paths, note),
        Job::Format(paths) => format(rt, paths, bar, note),
        Job::Run(paths) => run(rt, paths, err, bar.terminal(), note),
        Job::Audit(paths) => audit(rt, paths, note),
        Job::AuditSegments(paths) => audit_segments(rt, paths, note),
        Job::Draw(paths) => draw(rt, paths, note),
    };
    match ended {
        Ok(exit) => exit,
        Err(Unread::File(fault)) => Exit::Unread(fault),
        Err(Unread::Memory) => Exit::OutOfMemory,
    }
}

/// What the three files of `check` come to, where all can be read.
fn check<'a, R: Files + AllocGlobal, P: Write>(
    rt: &R,
    paths: CheckPaths<'a>,
    terminal: Option<&mut P>,
    note: &mut Option<Vec<u8>>,
) -> Result<Exit<'a>, Unread<'a>>
    requires { note.old ≡ None }
    ensures explained { MatchResult result
        (λ exit. ExplainsOf (asked_check paths.entry) (seen exit) (option_map (λ text. text.items) note.new))
        (λ why. note.new ≡ None) }
    ensures comes { MatchResult result (λ exit. ComesOf (asked_check paths.entry) (seen exit))
        (λ why. ComesOf (asked_check paths.entry) (stopped_by why)) }
{
    let settings = contents(rt, paths.settings)?;
    let plan = contents(rt, paths.plan)?;
    let certificate = contents(rt, paths.certificate)?;
    let files = CheckFiles {
        settings: settings.as_slice(),
        plan: plan.as_slice(),
        certificate: certificate.as_slice(),
    };
    let exit = exit_of(rt.alloc(), Contents::Check(files));
    show_figures(&exit, terminal);
    let sources = Sources {
        settings: source(paths.settings, &settings),
        other: Some(source(paths.certificate, &certificate)),
        plans: &[source(paths.plan, &plan)],
    };
    *note = explained(rt.alloc(), sources, &exit);
    Ok(exit)
}

/// What the two files of `annotate` come to, where both can be read.
fn annotate<'a, R: Files<File = File> + AllocGlobal, P: Write>(
    rt: &R,
    paths: AnnotatePaths<'a>,
    terminal: Option<&mut P>,
    note: &mut Option<Vec<u8>>,
) -> Result<Exit<'a>, Unread<'a>>
    requires { note.old ≡ None }
    ensures explained { MatchResult result
        (λ exit. ExplainsOf (asked_annotate paths.entry) (seen exit) (option_map (λ text. text.items) note.new))
        (λ why. note.new ≡ None) }
    ensures comes { MatchResult result (λ exit. ComesOf (asked_annotate paths.entry) (seen exit))
        (λ why. ComesOf (asked_annotate paths.entry) (stopped_by why)) }
{
    let settings = contents(rt, paths.settings)?;
    let plan = contents(rt, paths.plan)?;
    let files = AnnotateFiles {
        settings: settings.as_slice(),
        plan: plan.as_slice(),
    };
    let exit = exit_of(rt.alloc(), Contents::Annotate(files));
    let sources = Sources {
        settings: source(paths.settings, &settings),
        other: None,
        plans: &[source(paths.plan, &plan)],
    };
    *note = explained(rt.alloc(), sources, &exit);
    show_made(rt.alloc(), files, &exit, terminal);
    Ok(put_out(rt, paths.output, exit))
}

/// Shows the figures of the plan whose certificate was made, where there is a terminal.
fn show_made<P: Write>(
    alloc: Global,
    files: AnnotateFiles<'_>,
    exit: &Exit<'_>,
    terminal: Option<&mut P>,
) {
    if terminal.is_some() {
        show_figures(&checked_again(alloc, files, exit), terminal);
    }
}

/// What a check of the certificate comes to that was made.
fn checked_again<'a>(alloc: Global, files: AnnotateFiles<'_>, exit: &Exit<'_>) -> Exit<'a> {
    let Exit::Made(text) = exit else {
        return Exit::Kept;
    };
    let files = CheckFiles {
        settings: files.settings,
        plan: files.plan,
        certificate: text.as_bytes(),
    };
    exit_of(alloc, Contents::Check(files))
}

/// Shows the figures of an accepted plan on the terminal, where there is one.
fn show_figures<P: Write>(exit: &Exit<'_>, terminal: Option<&mut P>) {
    if let (Exit::Done(Figures { peak, steps, cost }), Some(terminal)) = (exit, terminal) {
        let _ = writeln!(
            terminal,
            "peak {peak} of the pool's frames, at most {steps} steps, cost {cost} of {MOST_BOUNDED_EVENTS}"
        );
    }
}

/// What a text comes to that goes to a file where one is named: nothing is printed then. Another answer stays.
fn put_out<'a, R: Files<File = File> + AllocGlobal>(
    rt: &R,
    output: Option<&'a str>,
    exit: Exit<'a>,
) -> Exit<'a>
    ensures { IsPut (text_in output.entry) (seen exit.entry) (seen result) }
{
    match output {
        Some(path) if is_text(&exit) => put_text(rt, path, exit),
        _ => exit,
    }
}

/// Whether the exit has a text that may go to a file.
fn is_text(exit: &Exit<'_>) -> bool
    ensures { result ≡ is_text_of (seen exit.now) }
{
    matches!(exit, Exit::Made(_) | Exit::Drawn(_))
}

/// What a text comes to that goes to the file at the path.
fn put_text<'a, R: Files<File = File> + AllocGlobal>(
    rt: &R,
    path: &'a str,
    exit: Exit<'a>,
) -> Exit<'a>
    ensures { IsKeptAt path.entry.now (seen result) }
{
    match exit {
        Exit::Made(text) => keep_made(rt, path, text),
        Exit::Drawn(text) => keep(rt, path, text.as_str()),
        // No other exit has one.
        _ => Exit::Kept,
    }
}

/// What a certificate comes to that goes to a file. It gets the line feed that is printed behind it.
fn keep_made<'a, R: Files<File = File> + AllocGlobal>(
    rt: &R,
    path: &'a str,
    text: String,
) -> Exit<'a>
    ensures { IsKeptAt path.entry.now (seen result) }
{
    let mut text = text;
    match text.push_str("\n") {
        Ok(()) => keep(rt, path, text.as_str()),
        Err(_) => Exit::OutOfMemory,
    }
}

/// What the files of `simulate` come to, where all can be read.
fn simulate<'a, R: Files + AllocGlobal>(
    rt: &R,
    paths: SimulatePaths<'a>,
    note: &mut Option<Vec<u8>>,
) -> Result<Exit<'a>, Unread<'a>>
    requires { note.old ≡ None }
    ensures explained { MatchResult result
        (λ exit. ExplainsOf (asked_simulate paths.entry) (seen exit) (option_map (λ text. text.items) note.new))
        (λ why. note.new ≡ None) }
    ensures comes { MatchResult result (λ exit. ComesOf (asked_simulate paths.entry) (seen exit))
        (λ why. ComesOf (asked_simulate paths.entry) (stopped_by why)) }
{
    let settings = contents(rt, paths.settings)?;
    let script = contents(rt, paths.script)?;
    let plans = contents_of_all(rt, &paths.plans)?;
    let files = SimulateFiles {
        settings: settings.as_slice(),
        script: script.as_slice(),
        plans: plans.as_slice(),
    };
    let exit = exit_of(rt.alloc(), Contents::Simulate(files));
    let files = Texts {
        settings: source(paths.settings, &settings),
        other: Some(source(paths.script, &script)),
        paths: &paths.plans,
        plans: &plans,
    };
    *note = files.explained(rt.alloc(), &exit);
    Ok(exit)
}

/// What the files of `audit` come to, where all can be read.
fn audit<'a, R: Files + AllocGlobal>(
    rt: &R,
    paths: AuditPaths<'a>,
    note: &mut Option<Vec<u8>>,
) -> Result<Exit<'a>, Unread<'a>>
    requires { note.old ≡ None }
    ensures explained { MatchResult result
        (λ exit. ExplainsOf (asked_audit paths.entry) (seen exit) (option_map (λ text. text.items) note.new))
        (λ why. note.new ≡ None) }
    ensures comes { MatchResult result (λ exit. ComesOf (asked_audit paths.entry) (seen exit))
        (λ why. ComesOf (asked_audit paths.entry) (stopped_by why)) }
{
    let settings = contents(rt, paths.settings)?;
    let journal = contents(rt, paths.journal)?;
    let plans = contents_of_all(rt, &paths.plans)?;
    let files = AuditFiles {
        settings: settings.as_slice(),
        journal: journal.as_slice(),
        plans: plans.as_slice(),
    };
    let exit = audited(rt.alloc(), paths.lives, files);
    let files = Texts {
        settings: source(paths.settings, &settings),
        other: Some(source(paths.journal, &journal)),
        paths: &paths.plans,
        plans: &plans,
    };
    *note = files.explained(rt.alloc(), &exit);
    Ok(exit)
}

/// What the contents of the files of `audit` come to, of one life or of several.
fn audited<'a>(alloc: Global, lives: bool, files: AuditFiles<'_>) -> Exit<'a>
    ensures { ComesTo (audit_answer_of lives files.entry.settings.now files.entry.journal.now
        (map (λ plan. plan.items) files.entry.plans.now)) result }
{
    if lives {
        exit_of(alloc, Contents::AuditLives(files))
    } else {
        exit_of(alloc, Contents::Audit(files))
    }
}

/// What the files of `draw` come to, where all can be read.
fn draw<'a, R: Files<File = File> + AllocGlobal>(
    rt: &R,
    paths: DrawPaths<'a>,
    note: &mut Option<Vec<u8>>,
) -> Result<Exit<'a>, Unread<'a>>
    requires { note.old ≡ None }
    ensures explained { MatchResult result
        (λ exit. ExplainsOf (asked_draw paths.entry) (seen exit) (option_map (λ text. text.items) note.new))
        (λ why. note.new ≡ None) }
    ensures comes { MatchResult result (λ exit. ComesOf (asked_draw paths.entry) (seen exit))
        (λ why. ComesOf (asked_draw paths.entry) (stopped_by why)) }
{
    let settings = contents(rt, paths.settings)?;
    let text = contents(rt, paths.journal)?;
    let plans = contents_of_all(rt, &paths.plans)?;
    let files = DrawFiles {
        settings: settings.as_slice(),
        journal: text.as_slice(),
        plans: plans.as_slice(),
        names: paths.plans.as_slice(),
    };
    let exit = exit_of(rt.alloc(), Contents::Draw(files));
    let files = Texts {
        settings: source(paths.settings, &settings),
        other: Some(source(paths.journal, &text)),
        paths: &paths.plans,
        plans: &plans,
    };
    *note = files.explained(rt.alloc(), &exit);
    Ok(put_out(rt, paths.output, exit))
}

/// What the settings of `format` come to, where they can be read: their refusal, or what writing the device comes to.
fn format<'a, R: Files<File = File> + AllocGlobal, P: Write>(
    rt: &R,
    paths: FormatPaths<'a>,
    bar: &mut Bar<P>,
    note: &mut Option<Vec<u8>>,
) -> Result<Exit<'a>, Unread<'a>>
    requires { note.old ≡ None }
    ensures explained { MatchResult result
        (λ exit. ExplainsOf (asked_format paths.entry) (seen exit) (option_map (λ text. text.items) note.new))
        (λ why. note.new ≡ None) }
    ensures comes { MatchResult result (λ exit. ComesOf (asked_format paths.entry) (seen exit))
        (λ why. ComesOf (asked_format paths.entry) (stopped_by why)) }
{
    let settings = contents(rt, paths.settings)?;
    match device_size(rt.alloc(), settings.as_slice()) {
        Ok(size) => Ok(format_device(rt, paths.device, size, bar)),
        Err(refusal) => {
            let exit = Exit::from(refusal);
            let file = source(paths.settings, &settings);
            *note = explained_alone(rt.alloc(), file, &exit);
            Ok(exit)
        }
    }
}

/// What writing a device of this size anew comes to. What stood in its file is lost; want of memory, and that it is in use,
/// are told before that.
fn format_device<'a, R: Files<File = File> + AllocGlobal, P: Write>(
    rt: &R,
    device: &'a str,
    size: DeviceSize,
    bar: &mut Bar<P>,
) -> Exit<'a>
    requires { HEAD ≤ size.page_bytes }
    ensures { ComesOfWriting device.entry.now size (seen result) }
{
    let Ok(image) = Vec::from_elem(rt.alloc(), 0, size.page_bytes as usize) else {
        return Exit::OutOfMemory;
    };
    match hold_anew(rt, device) {
        Ok(mut file) => format_opened(&mut file, image, device, size, bar),
        Err(exit) => exit,
    }
}

/// What writing every page blank to the opened file of the device comes to, with an image of zeros for all of them.
fn format_opened<'a, W: Write, P: Write>(
    file: &mut W,
    image: Vec<u8>,
    device: &'a str,
    size: DeviceSize,
    bar: &mut Bar<P>,
) -> Exit<'a>
    requires long { vec_len image ≡ size.page_bytes }
    requires zeros { image.items ≡ replicate (vec_len image) 0 }
    requires head { HEAD ≤ size.page_bytes }
    ensures ended { ComesOfWriting device.entry.now size (seen result) }
    // It is told as done only where the file has taken exactly the images of all pages.
    ensures done { seen result ≡ formatted size.pages
        → Appends (W.contents file.old) (W.contents file.new) (blank_file size.pages size.page_bytes) }
{
    bar.begin(size);
    let written = format_onto(file, image, size.pages, bar);
    bar.end();
    match written {
        Ok(()) => Exit::Formatted(size.pages),
        Err(error) => unwritten(device, &error),
    }
}

/// The bytes of the file at the path.
pub fn contents<'a, R: Files + AllocGlobal>(rt: &R, path: &'a str) -> Result<Vec<u8>, Unread<'a>>
    ensures { IfErr result (λ why. IsStopped (path.entry.now ∷ []) (stopped_by why)) }
{
    match fs::read(rt, path) {
        Ok(bytes) => Ok(bytes),
        Err(error) if error.kind() == ErrorKind::OutOfMemory => Err(Unread::Memory),
        Err(error) => Err(Unread::File(fault_at(path, &error))),
    }
}

/// The bytes of the files at the paths, in their order.
pub fn contents_of_all<'a, R: Files + AllocGlobal>(
    rt: &R,
    paths: &[&'a str],
) -> Result<Vec<Vec<u8>>, Unread<'a>>
    ensures each { IfOk result (λ files. length files.items ≡ length paths.now) }
    ensures stopped { IfErr result (λ why. IsStopped (texts paths.now) (stopped_by why)) }
{
    let mut files = Vec::new(rt.alloc());
    for path in paths {
        let bytes = contents(rt, path)?;
        if files.push(bytes).is_err() {
            return Err(Unread::Memory);
        }
    }
    Ok(files)
}
