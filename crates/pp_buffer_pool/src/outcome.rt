//! How a plan ended that was run.

ghost use Rattle.std.specs.Prelude.{◌≡◌};
ghost use Rattle.pp_buffer_pool.specs.Executing.{outcome_as};

use pp_model::Failure;
use pp_pool::End;

/// How a plan ended that was run. A plan that is gone has given back all that it held, so this is no error.
#[derive(Clone, Copy, Debug, PartialEq, Eq)]
pub enum Outcome {
    /// All that the plan says was done.
    Done,
    /// It was left, since a call of the device failed, or a reading gave an image of another page. What it had changed
    /// by then stays changed.
    Gone {
        /// The page of that call. After [`Failure::WriteFault`] it is the victim, a page that the plan may never have
        /// asked for; it stays in its frame, changed.
        page: u32,
        /// What came of the call.
        why: Failure,
    },
}

/// The end as an outcome.
pub(crate) fn as_outcome(end: End) -> Outcome
    ensures { result ≡ outcome_as end }
{
    match end {
        End::Done => Outcome::Done,
        End::Gone { page, why } => Outcome::Gone { page, why },
    }
}
