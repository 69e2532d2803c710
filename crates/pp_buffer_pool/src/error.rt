//! Why a pool isn't opened, why a plan wasn't run, and why a checkpoint wasn't done.

ghost use Rattle.std.specs.Prelude.{◌≡◌};
ghost use Rattle.pp_buffer_pool.specs.Executing.{refused_entry};

use pp_durable::SyncFault;
use pp_hall::EnterError;

/// Why a pool isn't opened.
#[derive(Clone, Copy, Debug, PartialEq, Eq, thiserror::Error)]
pub enum OpenError {
    /// The settings or the number of devices are at fault, or memory ran out.
    #[error(transparent)]
    Hall(pp_hall::OpenError),
    /// The device is of other settings, or can't be read: this page, the last of the settings, wasn't read, or the image that
    /// stands there names another.
    #[error("page {0}, the last of these settings, wasn't found on the device")]
    OtherDevice(u32),
}

/// Why a plan wasn't run.
#[derive(Clone, Copy, Debug, PartialEq, Eq, thiserror::Error)]
pub enum ExecuteError {
    /// The pool is stopped: it lets no plan in any more. The plan didn't start.
    #[error("the pool is stopped")]
    Stopped,
    /// As many plans wait to start as may ([`Policy::queue`](crate::Policy)). It can be tried again later.
    #[error("the queue is full")]
    QueueFull,
    /// The plan's peak is greater than the pool: another pool has prepared it.
    #[error("the plan needs more frames than the pool has")]
    TooLarge,
    /// Memory ran out for the events of the plan, before it was taken.
    #[error("out of memory")]
    NoMemory,
    /// A token didn't fit, the plan asked something else, the log of its events couldn't grow, or the plan was prepared
    /// by another pool: a slip. The work may have been called. A chair whose plan was begun stays out, and then the pool
    /// can only be abandoned ([`BufferPool::abandon`](crate::BufferPool::abandon)).
    #[error("the call met a slip")]
    Broken,
}

/// Why a checkpoint wasn't done. But with `Sync` no change is lost by it: a page that isn't written stays in its frame, changed.
#[derive(Clone, Copy, Debug, PartialEq, Eq, thiserror::Error)]
pub enum CheckpointError {
    /// Memory ran out for the list of pages, before any page was written.
    #[error("out of memory")]
    OutOfMemory,
    /// The device failed to write this page, which stays in its frame, changed. Another call tries again.
    #[error("page {0} couldn't be written")]
    WriteFault(u32),
    /// No flush of the settings is left, though a page could be flushed.
    #[error("no flush is left, and pages are still changed")]
    Spent,
    /// This page, and maybe others behind it, couldn't be flushed for as long as the call tried: it was latched X, or a worker
    /// was writing it. Nothing is wrong, and it can be tried again.
    #[error("page {0} is held")]
    Held(u32),
    /// All pages were written and count as unchanged, but may not be on the medium. That is final, and each later sync of this
    /// device fails too: open anew, and recover from the log.
    #[error(transparent)]
    Sync(SyncFault),
    /// A slip, which no test has met.
    #[error("the call met a slip")]
    Broken,
}

impl From<EnterError> for ExecuteError {
    ghost from_gives = { λ error e. e ≡ refused_entry error };

    fn from(error: EnterError) -> ExecuteError {
        match error {
            EnterError::Stopped => ExecuteError::Stopped,
            EnterError::Full => ExecuteError::QueueFull,
            EnterError::TooLarge => ExecuteError::TooLarge,
        }
    }
}
