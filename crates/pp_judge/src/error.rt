//! Refusals, as the program prints them.

ghost use Rattle.std.specs.Prelude.{◌≡◌, Some};
ghost use Rattle.pp_judge.specs.Steps.{is_want_of_memory};
ghost use Rattle.pp_text.specs.Views.{row_of_refusal};
ghost use Rattle.pp_judge.specs.Lines.{refusal_line, judge_error_row};
ghost use Rattle.pp_judge.specs.declared.error.JudgeError.TheVariants.{Settings, Script, Plan, Certificate, Annotate};
ghost use Rattle.pp_judge.specs.declared.error.JudgeError.TheVariants.{Simulate, Audit, Segments};
ghost use Rattle.pp_judge.specs.declared.error.JudgeError.TheVariants.{OtherLife as other_life};
ghost use Rattle.pp_simulate.specs.declared.error.SimulateError.TheVariants.{OutOfMemory};

use pp_annotate::AnnotateError;
use pp_cert::{CertError, CheckError};
use pp_plan::PlanError;
use pp_report::AuditError;
use pp_script::ScriptError;
use pp_segments::SegmentError;
use pp_settings::{OtherLife, SettingsError};
use pp_simulate::SimulateError;
use std::alloc::AllocFailed;
use std::fmt;

/// Why the files of a command are refused: the first refusal, in the order of the files.
#[derive(Clone, Copy, Debug, PartialEq, Eq)]
pub enum JudgeError {
    /// The first file gives no settings.
    Settings(SettingsError),
    /// The settings are of an endless life, and what was asked serves bounded lives alone: 8 OtherLife.
    OtherLife,
    /// The script's file gives no script.
    Script(ScriptError),
    /// A plan's file gives no plan under these settings.
    Plan(PlanError),
    /// The third file gives no certificate for this plan.
    Certificate(CertError),
    /// The certificate is not one of this plan.
    Check(CheckError),
    /// The plan has no certificate under these settings.
    Annotate(AnnotateError),
    /// A new pool doesn't take a plan in behind the earlier ones, or keeps no more of them.
    Simulate(SimulateError),
    /// The journal is not a true one of these plans.
    Audit(AuditError),
    /// The texts are not the segments of a true journal with these prepared plans, or their audit doesn't begin: the life of
    /// the settings is bounded, or there are more plans than a pool keeps.
    Segments(SegmentError),
}

impl JudgeError {
    /// Whether this is no refusal of a file, but want of memory.
    pub fn is_want_of_memory(&self) -> bool
        ensures { result ≡ is_want_of_memory self.now }
    {
        matches!(
            self,
            JudgeError::Settings(SettingsError::OutOfMemory)
                | JudgeError::Script(ScriptError::OutOfMemory)
                | JudgeError::Plan(PlanError::OutOfMemory)
                | JudgeError::Certificate(CertError::OutOfMemory)
                | JudgeError::Annotate(AnnotateError::OutOfMemory)
                | JudgeError::Simulate(SimulateError::OutOfMemory)
                | JudgeError::Audit(AuditError::OutOfMemory)
                | JudgeError::Segments(SegmentError::Audit(AuditError::OutOfMemory))
        )
    }

    /// The number, the name and what the refusal is about.
    fn printed(&self) -> pp_text::Refusal
        ensures { row_of_refusal result ≡ judge_error_row self.now }
    {
        match self {
            JudgeError::Settings(error) => error.refusal(),
            JudgeError::OtherLife => OtherLife.refusal(),
            JudgeError::Script(error) => error.refusal(),
            JudgeError::Plan(error) => error.refusal(),
            JudgeError::Certificate(error) => error.refusal(),
            JudgeError::Check(error) => error.refusal(),
            JudgeError::Annotate(error) => error.refusal(),
            JudgeError::Simulate(error) => error.refusal(),
            JudgeError::Audit(error) => error.refusal(),
            JudgeError::Segments(error) => error.refusal(),
        }
    }
}

/// The line without its line feed: `refused`, the number, the name and what it is about, as in
/// `refused 4 Range frames`, `refused 31 NotesShort at 8` and `refused 43 StepsTooFew`.
impl fmt::Display for JudgeError {
    ghost output = { λ refusal. Some (refusal_line refusal) };

    fn fmt<W: fmt::Write>(&self, f: &mut fmt::Formatter<W>) -> fmt::Result {
        let refusal = self.printed();
        write!(f, "refused {refusal}")
    }
}

impl From<SettingsError> for JudgeError {
    ghost from_gives = { λ error refusal. refusal ≡ Settings error };

    fn from(error: SettingsError) -> JudgeError {
        JudgeError::Settings(error)
    }
}

impl From<OtherLife> for JudgeError {
    ghost from_gives = { λ _ refusal. refusal ≡ other_life };

    fn from(_other: OtherLife) -> JudgeError {
        JudgeError::OtherLife
    }
}

impl From<ScriptError> for JudgeError {
    ghost from_gives = { λ error refusal. refusal ≡ Script error };

    fn from(error: ScriptError) -> JudgeError {
        JudgeError::Script(error)
    }
}

impl From<PlanError> for JudgeError {
    ghost from_gives = { λ error refusal. refusal ≡ Plan error };

    fn from(error: PlanError) -> JudgeError {
        JudgeError::Plan(error)
    }
}

impl From<CertError> for JudgeError {
    ghost from_gives = { λ error refusal. refusal ≡ Certificate error };

    fn from(error: CertError) -> JudgeError {
        JudgeError::Certificate(error)
    }
}

impl From<AnnotateError> for JudgeError {
    ghost from_gives = { λ error refusal. refusal ≡ Annotate error };

    fn from(error: AnnotateError) -> JudgeError {
        JudgeError::Annotate(error)
    }
}

impl From<SimulateError> for JudgeError {
    ghost from_gives = { λ error refusal. refusal ≡ Simulate error };

    fn from(error: SimulateError) -> JudgeError {
        JudgeError::Simulate(error)
    }
}

impl From<AuditError> for JudgeError {
    ghost from_gives = { λ error refusal. refusal ≡ Audit error };

    fn from(error: AuditError) -> JudgeError {
        JudgeError::Audit(error)
    }
}

impl From<SegmentError> for JudgeError {
    ghost from_gives = { λ error refusal. refusal ≡ Segments error };

    fn from(error: SegmentError) -> JudgeError {
        JudgeError::Segments(error)
    }
}

impl<T: Drop> From<AllocFailed<T>> for JudgeError {
    ghost from_gives = { λ _ refusal. refusal ≡ Simulate OutOfMemory };

    fn from(_refused: AllocFailed<T>) -> JudgeError {
        JudgeError::Simulate(SimulateError::OutOfMemory)
    }
}
