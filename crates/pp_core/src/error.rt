//! Why a core isn't made, a run isn't begun, or a plan isn't prepared.

ghost use Rattle.std.specs.Prelude.{◌≡◌};

use pp_text::{About, Refusal};
use std::alloc::AllocError;

/// Why a call does nothing.
#[derive(Clone, Copy, Debug, PartialEq, Eq, thiserror::Error)]
pub enum CoreError {
    /// Memory ran out.
    #[error("out of memory")]
    OutOfMemory,
}

impl CoreError {
    ghost use Rattle.pp_text.specs.Views.{row_of_refusal};
    ghost use Rattle.pp_core.specs.CoreErrors.{core_error_row};

    /// What a program prints: the number and the name, `19 OutOfMemory`.
    pub fn refusal(self) -> Refusal
        ensures { row_of_refusal result ≡ core_error_row self }
    {
        match self {
            CoreError::OutOfMemory => Refusal::new(19, "OutOfMemory", About::Nothing),
        }
    }

    /// The number of the refusal: 19.
    pub fn number(self) -> u8
        ensures { result ≡ (core_error_row self).number }
    {
        self.refusal().number
    }

    /// The name of the refusal, as it is printed.
    pub fn name(self) -> &'static str
        ensures { result.now ≡ (core_error_row self).name }
    {
        self.refusal().name
    }
}

/// Why a plan isn't prepared.
#[derive(Clone, Copy, Debug, PartialEq, Eq, thiserror::Error)]
pub enum PrepareError {
    /// It was accepted under another layout than the pool's.
    #[error("the plan was accepted under other settings")]
    OtherSettings,
    /// 4,096 plans are prepared, or the lives of the pool are bounded, which take no prepared plan.
    #[error("the pool keeps no more prepared plans")]
    TooManyPrepared,
}

impl PrepareError {
    ghost use Rattle.pp_text.specs.Views.{row_of_refusal};
    ghost use Rattle.pp_core.specs.CoreErrors.{prepare_error_row};

    /// What a program prints: the number and the name, as in `57 TooManyPrepared`.
    pub fn refusal(self) -> Refusal
        ensures { row_of_refusal result ≡ prepare_error_row self }
    {
        match self {
            PrepareError::OtherSettings => Refusal::new(53, "OtherSettings", About::Nothing),
            PrepareError::TooManyPrepared => Refusal::new(57, "TooManyPrepared", About::Nothing),
        }
    }

    /// The number of the refusal: 53 or 57.
    pub fn number(self) -> u8
        ensures { result ≡ (prepare_error_row self).number }
    {
        self.refusal().number
    }

    /// The name of the refusal, as it is printed.
    pub fn name(self) -> &'static str
        ensures { result.now ≡ (prepare_error_row self).name }
    {
        self.refusal().name
    }
}

impl From<AllocError> for CoreError {
    ghost use Rattle.pp_core.specs.declared.error.CoreError.TheVariants.{OutOfMemory};

    ghost from_gives = { λ _ e. e ≡ OutOfMemory };

    fn from(_: AllocError) -> CoreError {
        CoreError::OutOfMemory
    }
}
