//! Why a call does nothing.

use pp_core::PrepareError;

/// Why steps aren't opened.
#[derive(Clone, Copy, Debug, PartialEq, Eq, thiserror::Error)]
pub enum OpenError {
    /// Memory ran out.
    #[error("out of memory")]
    OutOfMemory,
    /// No one may wait in the queue, or more than 65,000.
    #[error("the queue isn't 1 to 65,000 long")]
    BadQueue,
    /// The hall isn't opened.
    #[error(transparent)]
    Hall(pp_hall::OpenError),
}

/// Why a plan isn't kept.
#[derive(Clone, Copy, Debug, PartialEq, Eq, thiserror::Error)]
pub enum KeepError {
    /// Memory ran out.
    #[error("out of memory")]
    OutOfMemory,
    /// The hall doesn't prepare it.
    #[error(transparent)]
    Prepare(PrepareError),
}

/// Why one doesn't come to the queue.
#[derive(Clone, Copy, Debug, PartialEq, Eq, thiserror::Error)]
pub enum EnterError {
    /// No plan has this number.
    #[error("no plan has this number")]
    NoSuchPlan,
    /// Nobody starts any more.
    #[error("the pool is stopped")]
    Stopped,
    /// As many wait as may.
    #[error("the queue is full")]
    Full,
}

/// Why a call by a pass does nothing.
#[derive(Clone, Copy, Debug, PartialEq, Eq, thiserror::Error)]
pub enum PassError {
    /// The pass was spent, or never given.
    #[error("not a pass, or one that was spent")]
    BadPass,
    /// It isn't what the pass's next step wants.
    #[error("not what the next step wants")]
    WrongStep,
    /// A length or a place is wrong.
    #[error("a length or a place is wrong")]
    WrongLength,
}

/// Why a reading isn't begun or ended by one call.
#[derive(Clone, Copy, Debug, PartialEq, Eq, thiserror::Error)]
pub enum AtOnceError {
    /// Nobody runs with the pass, or the bytes don't lie in a body.
    #[error(transparent)]
    Pass(PassError),
    /// Both moves aren't possible at once.
    #[error("not possible at once")]
    NotAtOnce,
}

/// Why a step isn't made, or no start.
#[derive(Clone, Copy, Debug, PartialEq, Eq, thiserror::Error)]
pub enum GoError {
    /// The pass was spent, or never given.
    #[error("not a pass, or one that was spent")]
    BadPass,
    /// It isn't what the pass's next step wants: it waits to start, or has started; or a reading is said to have come, and no
    /// bytes did.
    #[error("not what the next step wants")]
    WrongStep,
    /// The argument isn't one of those that may be named.
    #[error("the argument isn't one that may be named")]
    WrongArgument,
    /// It isn't possible now. The thread sleeps until its bell rings, and asks again.
    #[error("not possible now")]
    NotNow,
    /// Nobody starts any more, and the pass is spent.
    #[error("the pool is stopped")]
    Stopped,
    /// Memory ran out before the plan was taken.
    #[error("out of memory")]
    OutOfMemory,
    /// No page is changed that could be flushed now.
    #[error("nothing can be flushed now")]
    NothingToFlush,
    /// Pages are changed, and no flush of the settings is left.
    #[error("no flush is left")]
    FlushesSpent,
    /// A token didn't fit, or the plan asked something else: a slip. The chair stays out.
    #[error("the call met a slip")]
    Broken,
}

/// Why steps can't be closed.
#[derive(Clone, Copy, Debug, PartialEq, Eq, thiserror::Error)]
pub enum WhyOpen {
    /// A chair is out, or the flusher.
    #[error("a chair or the flusher is still out")]
    InUse,
    /// Pages are newer than the device's.
    #[error("pages are newer than the device's")]
    StillDirty,
}
