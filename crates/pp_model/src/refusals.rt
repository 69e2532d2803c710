//! Why a move, a plan or a renewal is refused.

ghost use Rattle.std.specs.Prelude.{◌≡◌, Some};

use pp_text::{About, Refusal};
use std::fmt;

/// Why a move isn't possible now. It may become possible without the mover's doing.
#[derive(Clone, Copy, Debug, PartialEq, Eq)]
pub enum Delay {
    /// No plan waits.
    NothingWaiting,
    /// The peak of the first plan that waits doesn't fit beside the running peaks.
    NoRoom,
    /// The page is being loaded for a worker, also where its victim is still being written, or is written back as a
    /// victim.
    InFlight,
    /// Every page that could leave the cache is taken, or is the one being flushed.
    FlushHolds,
    /// A latch stands on the page that doesn't go with the one that is asked for, or an X latch, where a flush would
    /// begin.
    LatchHeld,
    /// A flush is in flight.
    FlushBusy,
}

impl fmt::Display for Delay {
    ghost use Rattle.pp_model.specs.Words.{delay_word};

    ghost output = { λ delay. Some (delay_word delay) };

    fn fmt<W: fmt::Write>(&self, f: &mut fmt::Formatter<W>) -> fmt::Result {
        f.write_str(match self {
            Delay::NothingWaiting => "nothingwaiting",
            Delay::NoRoom => "noroom",
            Delay::InFlight => "inflight",
            Delay::FlushHolds => "flushholds",
            Delay::LatchHeld => "latchheld",
            Delay::FlushBusy => "flushbusy",
        })
    }
}

impl Delay {
    ghost use Rattle.pp_text.specs.Views.{row_of_refusal};
    ghost use Rattle.pp_model.specs.Refusals.{delay_row};

    /// The refusal that it is a cause of: the number and the name, `61 NotNow`.
    pub fn refusal(self) -> Refusal
        ensures { row_of_refusal result ≡ delay_row self }
    {
        Refusal::new(61, "NotNow", About::Nothing)
    }

    /// The number of the refusal: 61, whatever delays the move.
    pub fn number(self) -> u8
        ensures { result ≡ (delay_row self).number }
    {
        self.refusal().number
    }

    /// The name of the refusal: `NotNow`.
    pub fn name(self) -> &'static str
        ensures { result.now ≡ (delay_row self).name }
    {
        self.refusal().name
    }
}

/// Why a move isn't one that may be asked here at all.
#[derive(Clone, Copy, Debug, PartialEq, Eq)]
pub enum Cause {
    /// There is no worker of this number.
    NoWorker,
    /// The worker isn't idle.
    NotIdle,
    /// The worker doesn't act in its plan.
    NotActing,
    /// The worker's plan asks something else.
    NotAsked,
    /// No errand is out that could be answered so.
    NoErrand,
    /// The worker doesn't leave its plan.
    NotLeaving,
    /// The slot isn't held any more.
    NotHeld,
    /// The plan isn't at its end, or a slot is still held.
    NotEnded,
    /// The page isn't cached, or isn't newer than the device's.
    NotDirty,
    /// All flushes of this run were begun.
    NoFlushLeft,
}

impl fmt::Display for Cause {
    ghost use Rattle.pp_model.specs.Words.{cause_word};

    ghost output = { λ cause. Some (cause_word cause) };

    fn fmt<W: fmt::Write>(&self, f: &mut fmt::Formatter<W>) -> fmt::Result {
        f.write_str(match self {
            Cause::NoWorker => "noworker",
            Cause::NotIdle => "notidle",
            Cause::NotActing => "notacting",
            Cause::NotAsked => "notasked",
            Cause::NoErrand => "noerrand",
            Cause::NotLeaving => "notleaving",
            Cause::NotHeld => "notheld",
            Cause::NotEnded => "notended",
            Cause::NotDirty => "notdirty",
            Cause::NoFlushLeft => "noflushleft",
        })
    }
}

impl Cause {
    ghost use Rattle.pp_text.specs.Views.{row_of_refusal};
    ghost use Rattle.pp_model.specs.Refusals.{cause_row};

    /// The refusal that it is a cause of: the number and the name, `62 OffPlan`.
    pub fn refusal(self) -> Refusal
        ensures { row_of_refusal result ≡ cause_row self }
    {
        Refusal::new(62, "OffPlan", About::Nothing)
    }

    /// The number of the refusal: 62, whatever the cause.
    pub fn number(self) -> u8
        ensures { result ≡ (cause_row self).number }
    {
        self.refusal().number
    }

    /// The name of the refusal: `OffPlan`.
    pub fn name(self) -> &'static str
        ensures { result.now ≡ (cause_row self).name }
    {
        self.refusal().name
    }
}

/// Why a plan isn't taken in.
#[derive(Clone, Copy, Debug, PartialEq, Eq, thiserror::Error)]
pub enum SubmitError {
    /// It was accepted under another layout than the pool's.
    #[error("the plan was accepted under other settings")]
    OtherSettings,
    /// In a bounded life: 256 plans were submitted in it, and only a renewal helps. In an endless one: as many plans wait as may,
    /// and it can be tried again once one of them was taken.
    #[error("as many plans were submitted as a pool keeps")]
    TooManyPlans,
    /// The events of all plans and flushes would not fit a journal.
    #[error("the journal of all plans and flushes would be too long")]
    JournalLimit,
    /// In an endless life a plan is submitted that wasn't prepared before, or a prepared one that the pool doesn't keep; or in a
    /// bounded life a prepared one.
    #[error("the plan isn't prepared")]
    NotPrepared,
}

impl SubmitError {
    ghost use Rattle.pp_text.specs.Views.{row_of_refusal};
    ghost use Rattle.pp_model.specs.SubmitErrors.{submit_error_row};

    /// What a program prints: the number and the name, as in `52 JournalLimit`.
    pub fn refusal(self) -> Refusal
        ensures { row_of_refusal result ≡ submit_error_row self }
    {
        match self {
            SubmitError::OtherSettings => Refusal::new(53, "OtherSettings", About::Nothing),
            SubmitError::TooManyPlans => Refusal::new(51, "TooManyPlans", About::Nothing),
            SubmitError::JournalLimit => Refusal::new(52, "JournalLimit", About::Nothing),
            SubmitError::NotPrepared => Refusal::new(56, "NotPrepared", About::Nothing),
        }
    }

    /// The number of the refusal: 51 to 53, or 56.
    pub fn number(self) -> u8
        ensures { result ≡ (submit_error_row self).number }
    {
        self.refusal().number
    }

    /// The name of the refusal, as it is printed.
    pub fn name(self) -> &'static str
        ensures { result.now ≡ (submit_error_row self).name }
    {
        self.refusal().name
    }
}

/// Why a pool isn't renewed.
#[derive(Clone, Copy, Debug, PartialEq, Eq, thiserror::Error)]
pub enum RenewError {
    /// A plan waits, a worker isn't idle, or a flush is in flight.
    #[error("a plan waits, a worker isn't idle, or a flush is in flight")]
    NotAtRest,
    /// The known mark of this page is 2^63 or more; it is the least such page. Without this limit a mark could come to 2^64
    /// over many lives.
    #[error("the mark of page {page} is 2^63 or more")]
    MarkTooHigh { page: u32 },
}

impl RenewError {
    ghost use Rattle.pp_text.specs.Views.{row_of_refusal};
    ghost use Rattle.pp_model.specs.RenewErrors.{renew_error_row};

    /// What a program prints: the number and the name, as in `54 NotAtRest`.
    pub fn refusal(self) -> Refusal
        ensures { row_of_refusal result ≡ renew_error_row self }
    {
        match self {
            RenewError::NotAtRest => Refusal::new(54, "NotAtRest", About::Nothing),
            RenewError::MarkTooHigh { page: _ } => {
                Refusal::new(55, "MarkTooHigh", About::Nothing)
            }
        }
    }

    /// The number of the refusal: 54 or 55.
    pub fn number(self) -> u8
        ensures { result ≡ (renew_error_row self).number }
    {
        self.refusal().number
    }

    /// The name of the refusal, as it is printed.
    pub fn name(self) -> &'static str
        ensures { result.now ≡ (renew_error_row self).name }
    {
        self.refusal().name
    }
}
