//! Why a journal isn't a true one.

ghost use Rattle.std.specs.Prelude.{◌≡◌, Some};
ghost use Rattle.pp_report.specs.declared.error.AuditError.TheVariants.{OutOfMemory};

use crate::line::{Asked, Told};
use pp_core::CoreError;
use pp_model::{RenewError, Turn};
use pp_text::{About, Refusal};
use std::alloc::{AllocError, AllocFailed};
use std::fmt;
use thiserror::Error;

/// Who could have moved instead, for a message to people.
#[derive(Clone, Copy, Debug, PartialEq, Eq)]
pub struct Next {
    /// None where every plan that was submitted is ended, and no flush is in flight.
    pub turn: Option<Turn>,
}

impl fmt::Display for Next {
    fn fmt<W: fmt::Write>(&self, f: &mut fmt::Formatter<W>) -> fmt::Result {
        match self.turn {
            Some(turn) => write!(f, "next is `{turn}`"),
            None => f.write_str("nothing is left to do"),
        }
    }
}

/// Why a text isn't a true journal of these plans. Lines are numbered from 1.
///
/// `Display` is for people: it says what stood there and what would have been possible. `refusal` is what the program
/// prints.
#[derive(Clone, Copy, Debug, PartialEq, Eq, Error)]
pub enum AuditError {
    /// The line with this number isn't a line of a journal.
    #[error("line {0} is not a line of a journal")]
    NotALine(u64),
    /// What the line asks isn't possible there; who could have moved.
    #[error("line {0}: `{1}` is not possible there; {2}")]
    NotPossible(u64, Asked, Next),
    /// The line tells this, and the pool tells that.
    #[error("line {0} tells `{1}`, and the pool tells `{2}`")]
    ReplyDiffers(u64, Told, Told),
    /// The line with this number is the one between two lives, and the pool can't be renewed there; why, and who could have
    /// moved. [`audit`](crate::audit), which knows one life, never gives it.
    #[error("line {0}: the pool can't be renewed there, since {1}; {2}")]
    NotRenewed(u64, RenewError, Next),
    /// The lines are true, and at the end something is left to do: a plan was not submitted or not ended, or a flush is in
    /// flight.
    #[error("the journal ends with something left to do")]
    Unfinished,
    /// Memory ran out. It says nothing of the journal.
    #[error("out of memory")]
    OutOfMemory,
}

impl AuditError {
    ghost use Rattle.pp_text.specs.Views.{row_of_refusal};
    ghost use Rattle.pp_report.specs.Refusals.{audit_error_row};

    /// What the program prints: the number, the name and the line, as in `93 ReplyDiffers at 5`.
    pub fn refusal(self) -> Refusal
        ensures { row_of_refusal result ≡ audit_error_row self }
    {
        match self {
            AuditError::NotALine(line) => Refusal::new(91, "NotALine", About::At(line)),
            AuditError::NotPossible(line, _, _) => Refusal::new(92, "NotPossible", About::At(line)),
            AuditError::ReplyDiffers(line, _, _) => Refusal::new(
                93,
                "ReplyDiffers",
                About::At(line),
            ),
            AuditError::NotRenewed(line, _, _) => Refusal::new(92, "NotPossible", About::At(line)),
            AuditError::Unfinished => Refusal::new(94, "Unfinished", About::Nothing),
            AuditError::OutOfMemory => Refusal::new(19, "OutOfMemory", About::Nothing),
        }
    }

    /// The number of the refusal: 91 to 94, and 19 for want of memory.
    pub fn number(self) -> u8
        ensures { result ≡ (audit_error_row self).number }
    {
        self.refusal().number
    }

    /// The name of the refusal, as it is printed.
    pub fn name(self) -> &'static str
        ensures { result.now ≡ (audit_error_row self).name }
    {
        self.refusal().name
    }
}

impl From<CoreError> for AuditError {
    ghost from_gives = { λ _ e. e ≡ OutOfMemory };

    fn from(_refused: CoreError) -> AuditError {
        AuditError::OutOfMemory
    }
}

impl From<AllocError> for AuditError {
    ghost from_gives = { λ _ e. e ≡ OutOfMemory };

    fn from(_refused: AllocError) -> AuditError {
        AuditError::OutOfMemory
    }
}

impl<T: Drop> From<AllocFailed<T>> for AuditError {
    ghost from_gives = { λ _ e. e ≡ OutOfMemory };

    fn from(_refused: AllocFailed<T>) -> AuditError {
        AuditError::OutOfMemory
    }
}
