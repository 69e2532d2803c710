//! Why there is no plan.

use std::alloc::AllocError;

/// Why there are no settings or no plan.
#[derive(Clone, Copy, Debug, PartialEq, Eq, thiserror::Error)]
pub enum PlanError {
    /// The settings don't allow so many workers, or the checker didn't take the plan.
    #[error("the pool refused a plan or its settings")]
    Refused,
    /// Memory ran out.
    #[error("out of memory")]
    OutOfMemory,
}

impl From<AllocError> for PlanError {
    fn from(_refused: AllocError) -> PlanError {
        PlanError::OutOfMemory
    }
}
