//! Why texts aren't the segments of a true journal.

ghost use Rattle.std.specs.Prelude.{◌≡◌};
ghost use Rattle.pp_report.specs.declared.error.AuditError.TheVariants.{OutOfMemory};
ghost use Rattle.pp_segments.specs.declared.error.SegmentError.TheVariants.{Audit};

use pp_core::{CoreError, PrepareError};
use pp_report::AuditError;
use pp_settings::OtherLife;
use pp_text::{About, Refusal};
use std::alloc::{AllocError, AllocFailed};
use thiserror::Error;

/// Why texts aren't the segments of a true journal, or why their audit doesn't begin. Lines are numbered from 1
/// through all texts.
///
/// `Display` is for people; `refusal` is what the program prints.
#[derive(Clone, Copy, Debug, PartialEq, Eq, Error)]
pub enum SegmentError {
    /// As it is of a journal's text: the line is none of a segment, isn't possible there, or tells something else
    /// than the pool; at the end something is left to do; or memory ran out. The words for people are those of a
    /// journal: of a submit they have the number of the plan, and not that of the prepared plan.
    #[error("{0}")]
    Audit(AuditError),
    /// The line with this number is a head whose number isn't the next one, or that tells another number of plans
    /// than were submitted before it; or it is the first line, and no head.
    #[error("line {0} is not the head of the next segment")]
    OtherSegment(u64),
    /// The line with this number names a prepared plan that there isn't.
    #[error("line {0} names a prepared plan that there is not")]
    NotPrepared(u64),
    /// The life of the settings is bounded, and only an endless one has segments: 8 OtherLife.
    #[error("the life of these settings is bounded")]
    OtherLife,
    /// A plan can't be prepared.
    #[error("{0}")]
    Prepare(PrepareError),
}

impl SegmentError {
    ghost use Rattle.pp_text.specs.Views.{row_of_refusal};
    ghost use Rattle.pp_segments.specs.Refusals.{segment_error_row};

    /// What the program prints: the number, the name and the line, as in `96 OtherSegment at 5`.
    pub fn refusal(self) -> Refusal
        ensures { row_of_refusal result ≡ segment_error_row self }
    {
        match self {
            SegmentError::Audit(error) => error.refusal(),
            SegmentError::OtherSegment(line) => Refusal::new(96, "OtherSegment", About::At(line)),
            SegmentError::NotPrepared(line) => Refusal::new(97, "NotPrepared", About::At(line)),
            SegmentError::OtherLife => OtherLife.refusal(),
            SegmentError::Prepare(error) => error.refusal(),
        }
    }

    /// The number of the refusal: 8, 19, 53, 57, 91 to 94, 96 or 97.
    pub fn number(self) -> u8
        ensures { result ≡ (segment_error_row self).number }
    {
        self.refusal().number
    }

    /// The name of the refusal, as it is printed.
    pub fn name(self) -> &'static str
        ensures { result.now ≡ (segment_error_row self).name }
    {
        self.refusal().name
    }
}

impl From<CoreError> for SegmentError {
    ghost from_gives = { λ _ e. e ≡ Audit OutOfMemory };

    fn from(_refused: CoreError) -> SegmentError {
        SegmentError::Audit(AuditError::OutOfMemory)
    }
}

impl From<AllocError> for SegmentError {
    ghost from_gives = { λ _ e. e ≡ Audit OutOfMemory };

    fn from(_refused: AllocError) -> SegmentError {
        SegmentError::Audit(AuditError::OutOfMemory)
    }
}

impl<T: Drop> From<AllocFailed<T>> for SegmentError {
    ghost from_gives = { λ _ e. e ≡ Audit OutOfMemory };

    fn from(_refused: AllocFailed<T>) -> SegmentError {
        SegmentError::Audit(AuditError::OutOfMemory)
    }
}
