//! Why no certificate is made, and how a program says so.

ghost use Rattle.std.specs.Prelude.{◌≡◌};
ghost use Rattle.pp_annotate.specs.declared.error.AnnotateError.TheVariants.{OutOfMemory};

use pp_cert::CheckError;
use pp_text::{About, Refusal};
use std::alloc::AllocError;
use thiserror::Error;

/// Why no certificate is made.
///
/// `Display` is for people; `refusal` is what the program prints.
#[derive(Clone, Copy, Debug, PartialEq, Eq, Error)]
pub enum AnnotateError {
    /// The plan has no certificate under the settings: its first fault, in the order of the check.
    #[error(transparent)]
    Fault(CheckError),
    /// Memory ran out. It says nothing of the plan.
    #[error("out of memory")]
    OutOfMemory,
}

impl AnnotateError {
    ghost use Rattle.pp_text.specs.Views.{row_of_refusal};
    ghost use Rattle.pp_annotate.specs.Refusals.{annotate_error_row, annotate_error_place};

    /// What the program prints: the number, the name and the place, as in `40 LoopChanges at 2`.
    pub fn refusal(self) -> Refusal
        ensures { row_of_refusal result ≡ annotate_error_row self }
    {
        match self {
            AnnotateError::Fault(fault) => fault.refusal(),
            AnnotateError::OutOfMemory => Refusal::new(19, "OutOfMemory", About::Nothing),
        }
    }

    /// The number of the refusal: 34 to 38, 40 to 42, 44 to 46, and 19 for want of memory.
    pub fn number(self) -> u8
        ensures { result ≡ (annotate_error_row self).number }
    {
        self.refusal().number
    }

    /// The name of the refusal, as it is printed.
    pub fn name(self) -> &'static str
        ensures { result.now ≡ (annotate_error_row self).name }
    {
        self.refusal().name
    }

    /// The place that the refusal is about, if it is about one.
    pub fn place(self) -> Option<u32>
        ensures { result ≡ annotate_error_place self }
    {
        match self {
            AnnotateError::Fault(fault) => fault.place(),
            AnnotateError::OutOfMemory => None,
        }
    }
}

impl From<AllocError> for AnnotateError {
    ghost from_gives = { λ _ e. e ≡ OutOfMemory };

    fn from(_refused: AllocError) -> AnnotateError {
        AnnotateError::OutOfMemory
    }
}
