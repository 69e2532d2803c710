//! What the program's words ask for, and why they ask for nothing.

ghost use Rattle.std.specs.Prelude.{◌≡◌, option_map};
ghost use Rattle.pp_words.specs.declared.request.JobError.TheVariants.{OutOfMemory};

use crate::annotate::AnnotatePaths;
use crate::audit::AuditPaths;
use crate::check::CheckPaths;
use crate::draw::DrawPaths;
use crate::format::FormatPaths;
use crate::run::RunPaths;
use crate::segments::SegmentsPaths;
use crate::simulate::SimulatePaths;
use std::alloc::{AllocError, AllocFailed};
use thiserror::Error;

/// A command with what it works on. The paths are words of the command line.
#[derive(Debug, Drop)]
pub enum Job<'a> {
    /// Check a plan's certificate: `check SETTINGS PLAN CERT`.
    Check(CheckPaths<'a>),
    /// Make a plan's certificate: `annotate [-o FILE] SETTINGS PLAN`.
    Annotate(AnnotatePaths<'a>),
    /// Play a script over a pool: `simulate SETTINGS SCRIPT PLAN...`.
    Simulate(SimulatePaths<'a>),
    /// Write a device anew: `format SETTINGS DEVICE`.
    Format(FormatPaths<'a>),
    /// Run plans over a device: `run [--journal FILE] [--trace FILE] SETTINGS DEVICE SEED PLAN...`.
    Run(RunPaths<'a>),
    /// Say whether a journal is a true one: `audit [--lives] SETTINGS JOURNAL PLAN...`.
    Audit(AuditPaths<'a>),
    /// Say whether the segments of an endless pool's journal are true ones:
    /// `audit --segments [--ended] SETTINGS PLAN... -- FILE...`.
    AuditSegments(SegmentsPaths<'a>),
    /// Draw a true journal: `draw [-o FILE] SETTINGS JOURNAL PLAN...`.
    Draw(DrawPaths<'a>),
}

/// Why words give no job.
#[derive(Debug, Drop, Error)]
pub enum JobError {
    /// The words ask for the help or the version: this text, which ends with a line feed.
    #[error("{0}")]
    Shown(String),
    /// The words are no command of the program: the fault's text with the usage, which ends with a line feed.
    #[error("{0}")]
    Words(String),
    /// Memory ran out. It says nothing of the words.
    #[error("out of memory")]
    OutOfMemory,
}

impl JobError {
    ghost use Rattle.pp_words.specs.Refusals.{job_error_number, job_error_name};

    /// The number of the refusal: 19 for want of memory. Help and faults of the words have none.
    pub fn number(&self) -> Option<u8>
        ensures { result ≡ job_error_number self.now }
    {
        match self {
            JobError::Shown(_) | JobError::Words(_) => None,
            JobError::OutOfMemory => Some(19),
        }
    }

    /// The name of the refusal: `OutOfMemory` for want of memory. Help and faults of the words have none.
    pub fn name(&self) -> Option<&'static str>
        ensures { option_map (λ name. name.now) result ≡ job_error_name self.now }
    {
        match self {
            JobError::Shown(_) | JobError::Words(_) => None,
            JobError::OutOfMemory => Some("OutOfMemory"),
        }
    }
}

impl From<AllocError> for JobError {
    ghost from_gives = { λ _ e. e ≡ OutOfMemory };

    fn from(_refused: AllocError) -> JobError {
        JobError::OutOfMemory
    }
}

impl<T: Drop> From<AllocFailed<T>> for JobError {
    ghost from_gives = { λ _ e. e ≡ OutOfMemory };

    fn from(_refused: AllocFailed<T>) -> JobError {
        JobError::OutOfMemory
    }
}
