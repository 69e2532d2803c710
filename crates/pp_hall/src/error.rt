//! Why a hall isn't opened or closed, and why one doesn't come to its queue.

ghost use Rattle.std.specs.Prelude.{◌≡◌};
ghost use Rattle.pp_settings.specs.declared.span.Span.TheVariants.{Bounded};
ghost use Rattle.pp_hall.specs.Calls.{open_fault};

use pp_settings::limits::BELLS;
use pp_settings::{Settings, Span};

/// Why a hall isn't opened.
#[derive(Clone, Copy, Debug, PartialEq, Eq, thiserror::Error)]
pub enum OpenError {
    /// Memory ran out.
    #[error("out of memory")]
    OutOfMemory,
    /// The settings are for a bounded life.
    #[error("the settings are for a bounded life")]
    Bounded,
    /// By the settings no page may be flushed.
    #[error("the settings allow no flush")]
    NoFlushes,
    /// There isn't one device for each worker, and one for the flusher.
    #[error("not one device for each worker and the flusher")]
    OtherEnds,
    /// The settings have more than 32 workers.
    #[error("more than 32 workers")]
    TooManyWorkers,
}

impl OpenError {
    /// The first fault that these settings have, with so many devices, in this order:
    ///
    /// - [`OpenError::Bounded`]: the life of the settings isn't endless.
    /// - [`OpenError::NoFlushes`]: no flush may begin.
    /// - [`OpenError::TooManyWorkers`]: there are more than 32 workers.
    /// - [`OpenError::OtherEnds`]: there isn't one device for each worker and one for the flusher.
    ///
    /// Where there is none, a hall is opened, or memory runs out.
    pub fn of(settings: &Settings, devices: usize) -> Option<OpenError>
        ensures { result ≡ open_fault settings.now devices }
    {
        if settings.span() == Span::Bounded {
            return Some(OpenError::Bounded);
        }
        if settings.flushes() == 0 {
            return Some(OpenError::NoFlushes);
        }
        // A call tells whom it helps by a bell for each ([`crate::Told`]).
        if settings.workers() > BELLS {
            return Some(OpenError::TooManyWorkers);
        }
        if devices != settings.workers() as usize + 1 {
            return Some(OpenError::OtherEnds);
        }
        None
    }
}

/// Why one doesn't come to the queue.
#[derive(Clone, Copy, Debug, PartialEq, Eq, thiserror::Error)]
pub enum EnterError {
    /// Nobody starts any more.
    #[error("the pool is stopped")]
    Stopped,
    /// As many wait as may.
    #[error("the queue is full")]
    Full,
    /// The peak is greater than the number of frames.
    #[error("the peak is greater than the number of frames")]
    TooLarge,
}

/// Why a hall isn't closed.
#[derive(Clone, Copy, Debug, PartialEq, Eq, thiserror::Error)]
pub enum CloseError {
    /// A chair is out, or the flusher.
    #[error("a worker or the flusher is still out")]
    Busy,
    /// The device failed to write this page, which is still newer than the device's.
    #[error("page {0} couldn't be written")]
    WriteFault(u32),
    /// Pages are newer than the device's, and none of them can be flushed: the flushes of the settings are spent.
    #[error("no flush is left, and pages are still changed")]
    FlushesSpent,
}
