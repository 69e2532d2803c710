//! What a call answers.

ghost use Rattle.std.specs.Prelude.{◌≡◌};
ghost use Rattle.pp_pool_c.specs.Answers.{code, of_pass, of_at_once, of_go, of_enter, of_keep, of_open, of_why};

use pp_core::PrepareError;
use pp_steps::{AtOnceError, EnterError, GoError, KeepError, OpenError, PassError, WhyOpen};

/// What a call answers, to C as a number.
#[derive(Clone, Copy, Debug, PartialEq, Eq)]
pub enum Answer {
    /// The call did its work.
    Done,
    /// It is possible later.
    NotNow,
    /// No page is changed that could be flushed now.
    NoneToFlush,
    /// No flush of the settings is left.
    FlushesSpent,
    /// A text is refused.
    Refused,
    /// Memory ran out.
    OutOfMemory,
    /// A number is out of its range, a length is wrong, or a text isn't UTF-8.
    WrongArgument,
    /// The handle holds no pool.
    NoPool,
    /// It isn't what the ticket's next step wants.
    WrongStep,
    /// The ticket was spent, or never given.
    BadTicket,
    /// The handle holds a pool already, or a chair or the flusher is out.
    InUse,
    /// As many wait to start as may.
    QueueFull,
    /// Nobody starts any more.
    Stopped,
    /// Pages are newer than the device's.
    StillDirty,
    /// The settings aren't those of a pool that stands.
    OtherSettings,
    /// As many plans are kept as may be.
    TooManyPlans,
    /// A slip.
    Broken,
    /// Not by one call.
    NotAtOnce,
}

impl Answer {
    /// The number that C sees.
    pub fn code(self) -> u32
        ensures { result ≡ code self }
    {
        match self {
            Answer::Done => 0,
            Answer::NotNow => 1,
            Answer::NoneToFlush => 2,
            Answer::FlushesSpent => 3,
            Answer::Refused => 4,
            Answer::OutOfMemory => 5,
            Answer::WrongArgument => 6,
            Answer::NoPool => 7,
            Answer::WrongStep => 8,
            Answer::BadTicket => 9,
            Answer::InUse => 10,
            Answer::QueueFull => 11,
            Answer::Stopped => 12,
            Answer::StillDirty => 13,
            Answer::OtherSettings => 14,
            Answer::TooManyPlans => 15,
            Answer::Broken => 16,
            Answer::NotAtOnce => 17,
        }
    }
}

impl From<PassError> for Answer {
    ghost from_gives = { λ error answer. answer ≡ of_pass error };

    fn from(error: PassError) -> Answer {
        match error {
            PassError::BadPass => Answer::BadTicket,
            PassError::WrongStep => Answer::WrongStep,
            PassError::WrongLength => Answer::WrongArgument,
        }
    }
}

impl From<AtOnceError> for Answer {
    ghost from_gives = { λ error answer. answer ≡ of_at_once error };

    fn from(error: AtOnceError) -> Answer {
        match error {
            AtOnceError::Pass(error) => Answer::from(error),
            AtOnceError::NotAtOnce => Answer::NotAtOnce,
        }
    }
}

impl From<GoError> for Answer {
    ghost from_gives = { λ error answer. answer ≡ of_go error };

    fn from(error: GoError) -> Answer {
        match error {
            GoError::BadPass => Answer::BadTicket,
            GoError::WrongStep => Answer::WrongStep,
            GoError::WrongArgument => Answer::WrongArgument,
            GoError::NotNow => Answer::NotNow,
            GoError::Stopped => Answer::Stopped,
            GoError::OutOfMemory => Answer::OutOfMemory,
            GoError::NothingToFlush => Answer::NoneToFlush,
            GoError::FlushesSpent => Answer::FlushesSpent,
            GoError::Broken => Answer::Broken,
        }
    }
}

impl From<EnterError> for Answer {
    ghost from_gives = { λ error answer. answer ≡ of_enter error };

    fn from(error: EnterError) -> Answer {
        match error {
            EnterError::NoSuchPlan => Answer::WrongArgument,
            EnterError::Stopped => Answer::Stopped,
            EnterError::Full => Answer::QueueFull,
        }
    }
}

impl From<KeepError> for Answer {
    ghost from_gives = { λ error answer. answer ≡ of_keep error };

    fn from(error: KeepError) -> Answer {
        match error {
            KeepError::OutOfMemory => Answer::OutOfMemory,
            KeepError::Prepare(PrepareError::TooManyPrepared) => Answer::TooManyPlans,
            KeepError::Prepare(PrepareError::OtherSettings) => Answer::OtherSettings,
        }
    }
}

impl From<OpenError> for Answer {
    ghost from_gives = { λ error answer. answer ≡ of_open error };

    fn from(error: OpenError) -> Answer {
        match error {
            OpenError::OutOfMemory => Answer::OutOfMemory,
            OpenError::BadQueue => Answer::WrongArgument,
            OpenError::Hall(pp_hall::OpenError::OutOfMemory) => Answer::OutOfMemory,
            OpenError::Hall(_) => Answer::OtherSettings,
        }
    }
}

impl From<WhyOpen> for Answer {
    ghost from_gives = { λ why answer. answer ≡ of_why why };

    fn from(why: WhyOpen) -> Answer {
        match why {
            WhyOpen::InUse => Answer::InUse,
            WhyOpen::StillDirty => Answer::StillDirty,
        }
    }
}
