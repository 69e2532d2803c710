//! Why a plan isn't taken in, and why a book isn't renewed.

ghost use Rattle.std.specs.Prelude.{◌≡◌};

use pp_model::{RenewError, SubmitError};
use pp_text::{About, Refusal};

/// Why a book doesn't take a plan in.
#[derive(Clone, Copy, Debug, PartialEq, Eq, thiserror::Error)]
pub enum BookError {
    /// The core refuses the plan.
    #[error(transparent)]
    Refused(SubmitError),
    /// Memory ran out. It says nothing of the plan.
    #[error("out of memory")]
    OutOfMemory,
}

/// Why a book isn't renewed.
#[derive(Clone, Copy, Debug, PartialEq, Eq, thiserror::Error)]
pub enum BookRenewError {
    /// The core refuses it.
    #[error(transparent)]
    Refused(RenewError),
    /// Memory ran out for the next life's journal. It says nothing of the book.
    #[error("out of memory")]
    OutOfMemory,
}

impl BookRenewError {
    ghost use Rattle.pp_text.specs.Views.{row_of_refusal};
    ghost use Rattle.pp_pool.specs.BookErrors.{book_renew_error_row};

    /// What a program prints: the number and the name, as in `54 NotAtRest`.
    pub fn refusal(self) -> Refusal
        ensures { row_of_refusal result ≡ book_renew_error_row self }
    {
        match self {
            BookRenewError::Refused(error) => error.refusal(),
            BookRenewError::OutOfMemory => Refusal::new(19, "OutOfMemory", About::Nothing),
        }
    }

    /// The number of the refusal: 54 or 55, and 19 for want of memory.
    pub fn number(self) -> u8
        ensures { result ≡ (book_renew_error_row self).number }
    {
        self.refusal().number
    }

    /// The name of the refusal, as it is printed.
    pub fn name(self) -> &'static str
        ensures { result.now ≡ (book_renew_error_row self).name }
    {
        self.refusal().name
    }
}

impl BookError {
    ghost use Rattle.pp_text.specs.Views.{row_of_refusal};
    ghost use Rattle.pp_pool.specs.BookErrors.{book_error_row};

    /// What a program prints: the number and the name, as in `52 JournalLimit`.
    pub fn refusal(self) -> Refusal
        ensures { row_of_refusal result ≡ book_error_row self }
    {
        match self {
            BookError::Refused(error) => error.refusal(),
            BookError::OutOfMemory => Refusal::new(19, "OutOfMemory", About::Nothing),
        }
    }

    /// The number of the refusal: 51 to 53, and 19 for want of memory.
    pub fn number(self) -> u8
        ensures { result ≡ (book_error_row self).number }
    {
        self.refusal().number
    }

    /// The name of the refusal, as it is printed.
    pub fn name(self) -> &'static str
        ensures { result.now ≡ (book_error_row self).name }
    {
        self.refusal().name
    }
}
