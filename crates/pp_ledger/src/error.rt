//! Why a ledger doesn't take a plan in.

ghost use Rattle.std.specs.Prelude.{◌≡◌};

use pp_model::SubmitError;
use pp_text::{About, Refusal};

/// Why a ledger doesn't take a plan in.
#[derive(Clone, Copy, Debug, PartialEq, Eq, thiserror::Error)]
pub enum LedgerError {
    /// The present segment has no room for one event more. It says nothing of the plan.
    #[error("the segment is full")]
    SegmentFull,
    /// The core refuses the plan; never as [`SubmitError::OtherSettings`], which is told when a plan is prepared.
    #[error(transparent)]
    Refused(SubmitError),
}

impl LedgerError {
    ghost use Rattle.pp_text.specs.Views.{row_of_refusal};
    ghost use Rattle.pp_ledger.specs.LedgerErrors.{ledger_error_row};

    /// What a program prints: the number and the name, as in `58 SegmentFull`.
    pub fn refusal(self) -> Refusal
        ensures { row_of_refusal result ≡ ledger_error_row self }
    {
        match self {
            LedgerError::SegmentFull => Refusal::new(58, "SegmentFull", About::Nothing),
            LedgerError::Refused(error) => error.refusal(),
        }
    }

    /// The number of the refusal: 58, or the core's: of [`Ledger::submit`](crate::Ledger::submit) 51, 52 or 56.
    pub fn number(self) -> u8
        ensures { result ≡ (ledger_error_row self).number }
    {
        self.refusal().number
    }

    /// The name of the refusal, as it is printed.
    pub fn name(self) -> &'static str
        ensures { result.now ≡ (ledger_error_row self).name }
    {
        self.refusal().name
    }
}
