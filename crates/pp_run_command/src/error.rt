//! Why a run over a file gives no record.

ghost use Rattle.std.specs.Prelude.{◌≡◌};
ghost use Rattle.pp_run_command.specs.declared.error.RunCommandError.TheVariants.{OutOfMemory};
ghost use Rattle.pp_run_command.specs.Runs.{run_command_error_of, unopened};

use pp_run::RunError;
use pp_shared::OpenError;
use std::alloc::AllocError;
use thiserror::Error;

/// Why a run over a file gives no record.
#[derive(Clone, Copy, Debug, PartialEq, Eq, Error)]
pub enum RunCommandError {
    /// The file of the device can't be opened for reading and writing. Nothing was run.
    #[error("the device can't be opened")]
    Unopened,
    /// Memory ran out.
    #[error("out of memory")]
    OutOfMemory,
    /// The pool gives no record: it doesn't take a plan in, or a worker came to no good end. No want of memory.
    #[error(transparent)]
    Stopped(RunError),
}

impl From<OpenError> for RunCommandError {
    ghost from_gives = { λ error e. e ≡ unopened error };

    fn from(error: OpenError) -> RunCommandError {
        match error {
            OpenError::Fault(_) => RunCommandError::Unopened,
            OpenError::OutOfMemory => RunCommandError::OutOfMemory,
        }
    }
}

impl From<RunError> for RunCommandError {
    ghost from_gives = { λ error e. e ≡ run_command_error_of error };

    fn from(error: RunError) -> RunCommandError {
        match error {
            RunError::OutOfMemory => RunCommandError::OutOfMemory,
            error => RunCommandError::Stopped(error),
        }
    }
}

impl From<AllocError> for RunCommandError {
    ghost from_gives = { λ _ e. e ≡ OutOfMemory };

    fn from(_refused: AllocError) -> RunCommandError {
        RunCommandError::OutOfMemory
    }
}
