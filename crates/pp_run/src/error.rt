//! Why a run gives no record.

ghost use Rattle.std.specs.Prelude.{◌≡◌};
ghost use Rattle.pp_run.specs.declared.error.RunError.TheVariants as run_errors;
ghost use Rattle.pp_run.specs.RunErrors.{run_error_of};

use pp_model::SubmitError;
use pp_pool::BookError;
use pp_text::{About, Refusal};
use pp_vault::VaultError;
use std::alloc::AllocError;

/// Why a run gives no record. Workers are numbered from 0, and the flusher's number is that of the workers.
#[derive(Clone, Copy, Debug, PartialEq, Eq, thiserror::Error)]
pub enum RunError {
    /// The pool doesn't take a plan in. Nothing was run.
    #[error(transparent)]
    Refused(SubmitError),
    /// Memory ran out: for the run itself, or for the journal of a kept pool's next life; or plans are left because every worker
    /// stopped for want of it.
    #[error("out of memory")]
    OutOfMemory,
    /// The log of this worker isn't its part of the journal, or the counts of the flusher aren't the journal's.
    #[error("the log of worker {0} is not its part of the journal")]
    Mismatch(u32),
    /// A turn of this worker met a slip; or, as the flusher's number, one of the flusher's did, or a plan, a flush or a page
    /// that could have been flushed is left. By that number, too, a kept pool isn't renewed at a run's end: a mark has come to
    /// 2^63, or a token isn't back in its place.
    #[error("worker {0} is broken")]
    Broken(u32),
    /// The thread of this worker wasn't started, or the flusher's. The workers before it, if any, did the plans.
    #[error("no thread for worker {0}")]
    NoThread(u32),
}

impl RunError {
    ghost use Rattle.pp_text.specs.Views.{row_of_refusal};
    ghost use Rattle.pp_run.specs.RunErrors.{run_error_row};

    /// What a program prints: the number and the name, as in `82 Broken`, and for 81 to 83 the worker's number.
    pub fn refusal(self) -> Refusal
        ensures { row_of_refusal result ≡ run_error_row self }
    {
        match self {
            RunError::Refused(error) => error.refusal(),
            RunError::OutOfMemory => Refusal::new(19, "OutOfMemory", About::Nothing),
            RunError::Mismatch(worker) => Refusal::new(81, "Mismatch", About::Worker(worker)),
            RunError::Broken(worker) => Refusal::new(82, "Broken", About::Worker(worker)),
            RunError::NoThread(worker) => Refusal::new(83, "NoThread", About::Worker(worker)),
        }
    }
}

impl From<BookError> for RunError {
    ghost from_gives = { λ error e. e ≡ run_error_of error };

    fn from(error: BookError) -> RunError {
        match error {
            BookError::Refused(error) => RunError::Refused(error),
            BookError::OutOfMemory => RunError::OutOfMemory,
        }
    }
}

impl From<VaultError> for RunError {
    ghost from_gives = { λ _ e. e ≡ run_errors.OutOfMemory };

    fn from(_error: VaultError) -> RunError {
        RunError::OutOfMemory
    }
}

impl From<AllocError> for RunError {
    ghost from_gives = { λ _ e. e ≡ run_errors.OutOfMemory };

    fn from(_error: AllocError) -> RunError {
        RunError::OutOfMemory
    }
}
