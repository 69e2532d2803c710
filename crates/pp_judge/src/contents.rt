//! What was asked for with the bytes of its files, and what these come to: one exit, but where a script is played.

ghost use Rattle.std.specs.Prelude.{map};
ghost use Rattle.pp_judge.specs.Answers.{audit_answer, certification_answer, judgement_answer, ComesTo, IsDrawingAnswer};
ghost use Rattle.pp_judge.specs.Answers.{MayAnswer, MayCome, IsSimulationAnswer, lives_answer};
ghost use Rattle.pp_judge.specs.Answers.{segments_answer};
ghost use Rattle.pp_judge.specs.Judgement.{audited_in, staged_in};

use crate::auditing::{audit, audit_lives};
use crate::drawing::draw;
use crate::exit::{Exit, Figures};
use crate::judgement::{certify, judge};
use crate::rehearsal::rehearse;
use crate::segments::{SegmentsFiles, audit_segments};
use std::alloc::Global;

/// A command with the bytes of the files that it reads.
#[derive(Clone, Copy, Debug)]
pub enum Contents<'a> {
    /// A plan's certificate is checked.
    Check(CheckFiles<'a>),
    /// A plan's certificate is made.
    Annotate(AnnotateFiles<'a>),
    /// A script is played over a pool with some plans.
    Simulate(SimulateFiles<'a>),
    /// A journal is audited.
    Audit(AuditFiles<'a>),
    /// The journals of a pool's lives are audited, which stand in one text.
    AuditLives(AuditFiles<'a>),
    /// The segments of an endless pool's journal are audited.
    AuditSegments(SegmentsFiles<'a>),
    /// A journal is drawn.
    Draw(DrawFiles<'a>),
}

/// The bytes of the three files of `check`.
#[derive(Clone, Copy, Debug)]
pub struct CheckFiles<'a> {
    /// The bytes of the settings.
    pub settings: &'a [u8],
    /// The bytes of the plan.
    pub plan: &'a [u8],
    /// The bytes of the certificate.
    pub certificate: &'a [u8],
}

/// The bytes of the two files of `annotate`.
#[derive(Clone, Copy, Debug)]
pub struct AnnotateFiles<'a> {
    /// The bytes of the settings.
    pub settings: &'a [u8],
    /// The bytes of the plan.
    pub plan: &'a [u8],
}

/// The bytes of the files of `simulate`.
#[derive(Clone, Copy, Debug)]
pub struct SimulateFiles<'a> {
    /// The bytes of the settings.
    pub settings: &'a [u8],
    /// The bytes of the script.
    pub script: &'a [u8],
    /// The bytes of the plans, in their order.
    pub plans: &'a [Vec<u8>],
}

/// The bytes of the files of `audit`.
#[derive(Clone, Copy, Debug)]
pub struct AuditFiles<'a> {
    /// The bytes of the settings.
    pub settings: &'a [u8],
    /// The bytes of the journal, or of the journals of lives in one text.
    pub journal: &'a [u8],
    /// The bytes of the plans, in their order.
    pub plans: &'a [Vec<u8>],
}

/// The bytes of the files of `draw`, and what the plans are called.
#[derive(Clone, Copy, Debug)]
pub struct DrawFiles<'a> {
    /// The bytes of the settings.
    pub settings: &'a [u8],
    /// The bytes of the journal.
    pub journal: &'a [u8],
    /// The bytes of the plans, in their order.
    pub plans: &'a [Vec<u8>],
    /// The paths of the plans, in their order. A plan without one is named by its number.
    pub names: &'a [&'a str],
}

/// What the contents of the files come to.
pub fn exit_of<'a>(alloc: Global, contents: Contents<'_>) -> Exit<'a>
    // What the definition gives of these bytes, or want of memory.
    ensures { MayCome (MayAnswer contents.entry) result }
{
    match contents {
        Contents::Check(files) => checked(alloc, files),
        Contents::Annotate(files) => annotated(alloc, files),
        Contents::Simulate(files) => simulated(alloc, files),
        Contents::Audit(files) => audited(alloc, files),
        Contents::AuditLives(files) => lives_audited(alloc, files),
        Contents::AuditSegments(files) => segments_audited(alloc, files),
        Contents::Draw(files) => drawn(alloc, files),
    }
}

/// What the three files of `check` come to.
fn checked<'a>(alloc: Global, files: CheckFiles<'_>) -> Exit<'a>
    ensures { ComesTo
        (judgement_answer files.entry.settings.now files.entry.plan.now files.entry.certificate.now)
        result }
{
    match judge(alloc, files) {
        Ok(accepted) => Exit::Done(Figures::of(&accepted)),
        Err(refusal) => Exit::from(refusal),
    }
}

/// What the two files of `annotate` come to.
fn annotated<'a>(alloc: Global, files: AnnotateFiles<'_>) -> Exit<'a>
    ensures { ComesTo (certification_answer files.entry.settings.now files.entry.plan.now) result }
{
    match certify(alloc, files) {
        Ok(text) => Exit::Made(text),
        Err(refusal) => Exit::from(refusal),
    }
}

/// What the files of `simulate` come to.
fn simulated<'a>(alloc: Global, files: SimulateFiles<'_>) -> Exit<'a>
    ensures { MayCome (IsSimulationAnswer (staged_in files.entry.settings.now files.entry.script.now
        (map (λ plan. plan.items) files.entry.plans.now))) result }
{
    match rehearse(alloc, files) {
        Ok(text) => Exit::Simulated(text),
        Err(refusal) => Exit::from(refusal),
    }
}

/// What the files of `audit` come to.
fn audited<'a>(alloc: Global, files: AuditFiles<'_>) -> Exit<'a>
    ensures { ComesTo (audit_answer files.entry.settings.now files.entry.journal.now
        (map (λ plan. plan.items) files.entry.plans.now)) result }
{
    match audit(alloc, files) {
        Ok(audited) => Exit::Audited(audited.lines),
        Err(refusal) => Exit::from(refusal),
    }
}

/// What the files of `audit --lives` come to.
fn lives_audited<'a>(alloc: Global, files: AuditFiles<'_>) -> Exit<'a>
    ensures { ComesTo (lives_answer files.entry.settings.now files.entry.journal.now
        (map (λ plan. plan.items) files.entry.plans.now)) result }
{
    match audit_lives(alloc, files) {
        Ok(lives) => Exit::Audited(lives.lines),
        Err(refusal) => Exit::from(refusal),
    }
}

/// What the files of `audit --segments` come to.
fn segments_audited<'a>(alloc: Global, files: SegmentsFiles<'_>) -> Exit<'a>
    ensures { ComesTo (segments_answer files.entry.ended files.entry.settings.now
        (map (λ plan. plan.items) files.entry.plans.now) (map (λ file. file.items) files.entry.files.now)) result }
{
    match audit_segments(alloc, files) {
        Ok(audited) => Exit::AuditedSegments(audited),
        Err(refusal) => Exit::from(refusal),
    }
}

/// What the files of `draw` come to.
fn drawn<'a>(alloc: Global, files: DrawFiles<'_>) -> Exit<'a>
    ensures { MayCome (IsDrawingAnswer (audited_in files.entry.settings.now files.entry.journal.now
        (map (λ plan. plan.items) files.entry.plans.now))) result }
{
    match draw(alloc, files) {
        Ok(text) => Exit::Drawn(text),
        Err(refusal) => Exit::from(refusal),
    }
}
