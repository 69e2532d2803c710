//! Why a script is not played.

ghost use Rattle.std.specs.Prelude.{◌≡◌};
ghost use Rattle.pp_simulate.specs.declared.error.SimulateError.TheVariants.{Submit, OutOfMemory};

use pp_play::PlayError;
use pp_text::{About, Refusal};
use pp_vault::{SubmitError, VaultError};
use std::alloc::AllocError;
use thiserror::Error;

/// Why a script is not played over a pool with these plans.
#[derive(Clone, Copy, Debug, PartialEq, Eq, Error)]
pub enum SimulateError {
    /// The pool does not take a plan in.
    #[error("a plan is not taken in: {0}")]
    Submit(SubmitError),
    /// The pool's life is endless, and it has taken in 4,096 plans: it keeps no plan more.
    #[error("a plan is not taken in: the pool keeps no more than the 4,096 before it")]
    TooManyPrepared,
    /// Memory ran out. It says nothing of the plans and the script.
    #[error("out of memory")]
    OutOfMemory,
}

impl SimulateError {
    ghost use Rattle.pp_text.specs.Views.{row_of_refusal};
    ghost use Rattle.pp_simulate.specs.Refusals.{simulate_error_row};

    /// What a program prints: the number and the name, as in `52 JournalLimit`.
    pub fn refusal(self) -> Refusal
        ensures { row_of_refusal result ≡ simulate_error_row self }
    {
        match self {
            SimulateError::Submit(error) => error.refusal(),
            SimulateError::TooManyPrepared => {
                Refusal::new(57, "TooManyPrepared", About::Nothing)
            }
            SimulateError::OutOfMemory => Refusal::new(19, "OutOfMemory", About::Nothing),
        }
    }
}

impl From<SubmitError> for SimulateError {
    ghost from_gives = { λ error e. e ≡ Submit error };

    fn from(error: SubmitError) -> SimulateError {
        SimulateError::Submit(error)
    }
}

impl From<VaultError> for SimulateError {
    ghost from_gives = { λ _ e. e ≡ OutOfMemory };

    fn from(_error: VaultError) -> SimulateError {
        SimulateError::OutOfMemory
    }
}

impl From<PlayError> for SimulateError {
    ghost from_gives = { λ _ e. e ≡ OutOfMemory };

    fn from(_error: PlayError) -> SimulateError {
        SimulateError::OutOfMemory
    }
}

impl From<AllocError> for SimulateError {
    ghost from_gives = { λ _ e. e ≡ OutOfMemory };

    fn from(_error: AllocError) -> SimulateError {
        SimulateError::OutOfMemory
    }
}
