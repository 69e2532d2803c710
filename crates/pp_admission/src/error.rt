//! The refusal of one that comes.

/// As many wait as may. (A queue that has given 2^64 - 1 tickets gives no more either.)
#[derive(Clone, Copy, Debug, PartialEq, Eq, thiserror::Error)]
#[error("the queue is full")]
pub struct QueueFull;
