//! Why a script is refused, and how a program says so.

ghost use Rattle.std.specs.Prelude.{◌≡◌};
ghost use Rattle.pp_script.specs.declared.error.ScriptError.TheVariants.{OutOfMemory};

use pp_text::{About, Refusal};
use std::alloc::{AllocError, AllocFailed};
use thiserror::Error;

/// Why a text gives no script.
///
/// `Display` is for people; `refusal` is what the program prints.
#[derive(Clone, Copy, Debug, PartialEq, Eq, Error)]
pub enum ScriptError {
    /// The line with this number, from 1, is the first that is not empty and spells no cue and no trouble.
    #[error("line {0} is not a cue")]
    NotACue(u64),
    /// Memory ran out. It says nothing of the text.
    #[error("out of memory")]
    OutOfMemory,
}

impl ScriptError {
    ghost use Rattle.pp_text.specs.Views.{row_of_refusal};
    ghost use Rattle.pp_script.specs.Refusals.{script_error_row};

    /// What the program prints: the number, the name and the line, as in `95 NotACue at 3`.
    pub fn refusal(self) -> Refusal
        ensures { row_of_refusal result ≡ script_error_row self }
    {
        match self {
            ScriptError::NotACue(line) => Refusal::new(95, "NotACue", About::At(line)),
            ScriptError::OutOfMemory => Refusal::new(19, "OutOfMemory", About::Nothing),
        }
    }

    /// The number of the refusal: 95, and 19 for want of memory.
    pub fn number(self) -> u8
        ensures { result ≡ (script_error_row self).number }
    {
        self.refusal().number
    }

    /// The name of the refusal, as it is printed.
    pub fn name(self) -> &'static str
        ensures { result.now ≡ (script_error_row self).name }
    {
        self.refusal().name
    }
}

impl From<AllocError> for ScriptError {
    ghost from_gives = { λ _ e. e ≡ OutOfMemory };

    fn from(_refused: AllocError) -> ScriptError {
        ScriptError::OutOfMemory
    }
}

impl<T: Drop> From<AllocFailed<T>> for ScriptError {
    ghost from_gives = { λ _ e. e ≡ OutOfMemory };

    fn from(_refused: AllocFailed<T>) -> ScriptError {
        ScriptError::OutOfMemory
    }
}
