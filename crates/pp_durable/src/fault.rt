//! Why a sync failed.

/// What was written may not be on the medium, and no later call tells which part of it is.
///
/// It is final: a device that has answered so answers so for good. Once a sync has failed the system may have dropped the
/// pages that it couldn't write and call them clean, so that a second sync is answered as done though they are lost. What
/// they held is nowhere else, where a pool has given their frames to other pages meanwhile. So nothing is tried again: the
/// engine opens anew and recovers from its log.
#[derive(Clone, Copy, Debug, PartialEq, Eq, thiserror::Error)]
#[error("what was written may not be on the medium")]
pub struct SyncFault;
