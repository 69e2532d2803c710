//! What is counted of the moves on cores: each kind of reply, and each way of using a bundle.

use pp_core::{Cause, Delay, Ending, Failure, Move, Reply};

/// How many kinds of replies there are.
pub const KINDS: usize = 32;

/// How many ways of using a bundle there are.
pub const WAYS: usize = 8;

/// A bundle that a move is about: how many pins it has, and whether one of them is of the page that is asked for.
#[derive(Clone, Copy)]
pub struct Bundle {
    pub pins: u32,
    pub has_page: bool,
}

/// The number of the way in which the bundle is used, if it is, and else a number of none: a page that it has is gathered
/// again, a first page or a further one is gathered, a gather fails while it has pins, it is scattered or unwound with one pin
/// or with several.
pub fn way(asked: Move, reply: Reply, bundle: Bundle) -> usize {
    match reply {
        Reply::Hit { .. } if bundle.has_page => 0,
        Reply::Hit { .. } | Reply::Loaded { .. } if bundle.pins == 0 => 1,
        Reply::Hit { .. } | Reply::Loaded { .. } => 2,
        Reply::Failed(_) if bundle.pins > 0 => 3,
        Reply::Did => match asked {
            Move::Unfix { .. } if bundle.pins == 1 => 4,
            Move::Unfix { .. } => 5,
            Move::Unwind { .. } if bundle.pins == 1 => 6,
            Move::Unwind { .. } if bundle.pins > 1 => 7,
            _ => WAYS,
        },
        _ => WAYS,
    }
}

/// The number of a reply's kind.
pub fn kind(reply: Reply) -> usize {
    match reply {
        Reply::Taken { .. } => 0,
        Reply::Hit { .. } => 1,
        Reply::MustRead { .. } => 2,
        Reply::MustWrite { .. } => 3,
        Reply::Failed(Failure::WriteFault) => 4,
        Reply::Failed(Failure::ReadFault) => 5,
        Reply::Failed(Failure::Misread) => 6,
        Reply::Loaded { .. } => 7,
        Reply::Did => 8,
        Reply::Latched { .. } => 9,
        Reply::Unlatched { .. } => 10,
        Reply::Finished(Ending::Done) => 11,
        Reply::Finished(Ending::Gone) => 12,
        Reply::Flushing { .. } => 13,
        Reply::Flushed { clean: true } => 14,
        Reply::Flushed { clean: false } => 15,
        Reply::NotNow(delay) => delay_kind(delay),
        Reply::OffPlan(cause) => cause_kind(cause),
    }
}

fn delay_kind(delay: Delay) -> usize {
    match delay {
        Delay::NothingWaiting => 16,
        Delay::NoRoom => 17,
        Delay::InFlight => 18,
        Delay::FlushHolds => 19,
        Delay::LatchHeld => 20,
        Delay::FlushBusy => 21,
    }
}

fn cause_kind(cause: Cause) -> usize {
    match cause {
        Cause::NoWorker => 22,
        Cause::NotIdle => 23,
        Cause::NotActing => 24,
        Cause::NotAsked => 25,
        Cause::NoErrand => 26,
        Cause::NotLeaving => 27,
        Cause::NotHeld => 28,
        Cause::NotEnded => 29,
        Cause::NotDirty => 30,
        Cause::NoFlushLeft => 31,
    }
}
