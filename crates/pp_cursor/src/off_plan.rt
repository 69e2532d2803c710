//! The refusal of an action.

/// The action isn't one that the plan asks.
#[derive(Clone, Copy, Debug, PartialEq, Eq, thiserror::Error)]
#[error("the plan asks another action")]
pub struct OffPlan;
