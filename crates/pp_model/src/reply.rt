//! What the pool answers.

ghost use Rattle.std.specs.Prelude.{◌≡◌, Some};

use crate::refusals::{Cause, Delay};
use pp_text::{About, Refusal};
use std::fmt;

/// Why a fix failed at the device.
#[derive(Clone, Copy, Debug, PartialEq, Eq)]
pub enum Failure {
    /// The victim could not be written back.
    WriteFault,
    /// The page could not be read.
    ReadFault,
    /// What was read is an image of another page, or has another stamp than the known one, or, where none is known, a
    /// stamp of 2^62 or more.
    Misread,
}

impl fmt::Display for Failure {
    ghost use Rattle.pp_model.specs.Words.{failure_word};

    ghost output = { λ failure. Some (failure_word failure) };

    fn fmt<W: fmt::Write>(&self, f: &mut fmt::Formatter<W>) -> fmt::Result {
        f.write_str(match self {
            Failure::WriteFault => "write",
            Failure::ReadFault => "read",
            Failure::Misread => "misread",
        })
    }
}

impl Failure {
    ghost use Rattle.pp_text.specs.Views.{row_of_refusal};
    ghost use Rattle.pp_model.specs.Refusals.{failure_row};

    /// The number and the name of the failure, as in `73 Misread`.
    pub fn refusal(self) -> Refusal
        ensures { row_of_refusal result ≡ failure_row self }
    {
        match self {
            Failure::WriteFault => Refusal::new(72, "WriteFault", About::Nothing),
            Failure::ReadFault => Refusal::new(71, "ReadFault", About::Nothing),
            Failure::Misread => Refusal::new(73, "Misread", About::Nothing),
        }
    }

    /// The number of the failure: 71 to 73.
    pub fn number(self) -> u8
        ensures { result ≡ (failure_row self).number }
    {
        self.refusal().number
    }

    /// The name of the failure: `ReadFault`, `WriteFault` or `Misread`.
    pub fn name(self) -> &'static str
        ensures { result.now ≡ (failure_row self).name }
    {
        self.refusal().name
    }
}

/// How a worker ended its plan.
#[derive(Clone, Copy, Debug, PartialEq, Eq)]
pub enum Ending {
    /// At the plan's end.
    Done,
    /// Before it, after a fix that failed.
    Gone,
}

impl fmt::Display for Ending {
    ghost use Rattle.pp_model.specs.Words.{ending_word};

    ghost output = { λ ending. Some (ending_word ending) };

    fn fmt<W: fmt::Write>(&self, f: &mut fmt::Formatter<W>) -> fmt::Result {
        f.write_str(match self {
            Ending::Done => "done",
            Ending::Gone => "gone",
        })
    }
}

/// What a move is answered.
#[derive(Clone, Copy, Debug, PartialEq, Eq)]
pub enum Reply {
    /// The worker runs the plan of this number from now on.
    Taken { plan: u64 },
    /// The page was cached already, in this frame, and has this mark.
    Hit { frame: u32, mark: u64 },
    /// The device has to read the page into this frame.
    MustRead { frame: u32 },
    /// The device has to write this victim back first, whose frame the page gets.
    MustWrite { frame: u32, victim: u32 },
    /// The fix failed, and the worker leaves its plan.
    Failed(Failure),
    /// The page was read, and has this mark.
    Loaded { mark: u64 },
    /// The move is done.
    Did,
    /// The page is latched, and has this mark.
    Latched { mark: u64 },
    /// The worker's latch is off the page, which has this mark.
    Unlatched { mark: u64 },
    /// The worker is idle again.
    Finished(Ending),
    /// The page is to be written, as it is with this mark.
    Flushing { mark: u64 },
    /// The flush is over, and the page is as the device has it; or it isn't, and the page is still newer.
    Flushed { clean: bool },
    /// The move isn't possible now. Nothing has changed.
    NotNow(Delay),
    /// The move isn't one that may be asked here. Nothing has changed.
    OffPlan(Cause),
}

impl fmt::Display for Reply {
    ghost use Rattle.pp_model.specs.Words.{reply_words};

    ghost output = { λ reply. Some (reply_words reply) };

    fn fmt<W: fmt::Write>(&self, f: &mut fmt::Formatter<W>) -> fmt::Result {
        match self {
            Reply::Taken { plan } => write!(f, "taken {plan}"),
            Reply::Hit { frame, mark } => write!(f, "hit {frame} {mark}"),
            Reply::MustRead { frame } => write!(f, "mustread {frame}"),
            Reply::MustWrite { frame, victim } => write!(f, "mustwrite {frame} {victim}"),
            Reply::Failed(failure) => write!(f, "failed {failure}"),
            Reply::Loaded { mark } => write!(f, "loaded {mark}"),
            Reply::Did => f.write_str("did"),
            Reply::Latched { mark } => write!(f, "latched {mark}"),
            Reply::Unlatched { mark } => write!(f, "unlatched {mark}"),
            Reply::Finished(ending) => write!(f, "{ending}"),
            Reply::Flushing { mark } => write!(f, "flushing {mark}"),
            Reply::Flushed { clean } => f.write_str(if *clean { "clean" } else { "dirty" }),
            Reply::NotNow(delay) => write!(f, "notnow {delay}"),
            Reply::OffPlan(cause) => write!(f, "offplan {cause}"),
        }
    }
}
