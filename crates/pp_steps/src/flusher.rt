//! The flusher.

ghost use Rattle.std.specs.Prelude.{◌≡◌, true, false, ℕ, Some, None, IfSome, IfNone, if◌then◌else◌};
ghost use Rattle.pp_steps.specs.Calls.{FlusherIs, HandsOut, IsntHandedOut, WishIs, FlusherLeaves, flusher_told, no_flush, flush_went, is_other};
ghost use Rattle.pp_steps.specs.declared.error.PassError.TheVariants as pass_error;
ghost use Rattle.pp_steps.specs.Parts.{is_flushers, IsFlushing};
ghost use Rattle.pp_steps.specs.Sites.{SameOut};
ghost use Rattle.pp_steps.specs.Turning.{FlushesOver, SameFlusher, RestsFlusher};

use crate::device::{Answer, HostDevice};
use crate::error::{GoError, PassError};
use crate::going::Went;
use crate::homing::park_flusher;
use crate::pass::{LAST_TURN, Pass};
use crate::rings::Rings;
use crate::site::{KeptHall, StepSite};
use crate::step::Step;
use crate::steps::Steps;
use core::mem;
use pp_hall::Told;
use pp_pool::{Flusher, Turned};

/// What the flusher's thread is to do, by the policy.
#[derive(Clone, Copy, Debug, PartialEq, Eq)]
pub enum FlushWish {
    /// To flush.
    Flush,
    /// To sleep until its bell rings.
    Sleep,
    /// To end: nobody starts any more.
    Stop,
}

/// The flusher, while a host has it.
pub(crate) struct AwayFlusher {
    pub(crate) flusher: Flusher<StepSite, HostDevice>,
}

impl AwayFlusher {
    /// Tells the device what the host says of its own call.
    fn tell(&mut self, argument: u32)
        ensures told { SameFlusher (flusher_told self.old argument) self.new.flusher }
        ensures site { self.new.flusher.site ≡ self.old.flusher.site }
    {
        let answer = if argument == 1 {
            Answer::Wrote
        } else {
            Answer::Fails
        };
        self.flusher.device.tell(answer);
    }

    /// One turn over this hall, which comes back, with the flusher, how the turn ended, and whom the hall has told.
    fn turn(self, hall: KeptHall) -> (KeptHall, (AwayFlusher, Turned, Told))
        requires { RestsFlusher self.flusher }
        ensures flushes { FlushesOver self.flusher hall.value result.1.1 result.1.2 result.0.value result.1.0.flusher }
        ensures rests { RestsFlusher result.1.0.flusher }
        ensures out { SameOut hall.value result.0.value }
    {
        let AwayFlusher { mut flusher } = self;
        flusher.site.lend(hall, None);
        let turned = flusher.turn();
        let (hall, told) = flusher.site.take_back();
        (hall, (AwayFlusher { flusher }, turned, told))
    }
}

/// What a turn of the flusher is answered, after which this comes next.
fn went_by(turned: Turned, next: Step, could_flush: bool) -> Result<Went, GoError>
    ensures { result ≡ flush_went turned next could_flush }
{
    match turned {
        Turned::Done => Ok(Went::On(next)),
        Turned::Ended => Err(nothing(could_flush)),
        Turned::NotNow => Err(GoError::NotNow),
        _ => Err(GoError::Broken),
    }
}

/// Why the flusher's step isn't made, where it had nothing to do.
fn nothing(could_flush: bool) -> GoError
    ensures { result ≡ no_flush could_flush }
{
    if could_flush {
        GoError::FlushesSpent
    } else {
        GoError::NothingToFlush
    }
}

impl Steps {
    /// Gives the flusher's pass out, where the flusher is home.
    pub fn take_flusher(&mut self) -> Option<Pass>
        ensures some { IfSome result (λ pass. HandsOut self.old pass self.new) }
        ensures none { IfNone result (IsntHandedOut self.old) }
        ensures unchanged { IfNone result (self.new ≡ self.old) }
    {
        if self.flusher.is_some() || self.flushed >= LAST_TURN {
            return None;
        }
        let Some(flusher) = self.hall.take_flusher() else {
            return None;
        };
        let (_, flusher) = flusher.over_site(StepSite::new());
        match self.flusher.replace(AwayFlusher { flusher }) {
            None => {}
            Some(_) => unreachable!(),
        }
        self.flushed += 1;
        Some(Pass {
            bell: self.line.end(),
            turn: self.flushed,
        })
    }

    /// What the flusher's thread is to do now. `is_on` tells whether it comes from a flush, and hasn't slept since.
    ///
    /// # Errors
    ///
    /// [`PassError::BadPass`]; [`PassError::WrongStep`] where the pass isn't the flusher's.
    pub fn flush_wish(&mut self, pass: Pass, is_on: bool) -> Result<FlushWish, PassError>
        ensures { WishIs (is_flushers self.old pass) self.old pass is_on result self.new }
    {
        if !self.is_flushers(pass) {
            return Err(self.not_flushers(pass));
        }
        if self.hall.is_stopped() {
            return Ok(FlushWish::Stop);
        }
        if self.hall.is_flush_wanted() || (is_on && self.hall.goes_on()) {
            return Ok(FlushWish::Flush);
        }
        if self.hall.sleep_flusher() {
            Ok(FlushWish::Sleep)
        } else {
            Ok(FlushWish::Flush)
        }
    }

    /// Why a pass isn't the flusher's.
    fn not_flushers(&self, pass: Pass) -> PassError
        ensures { result ≡ (if is_other self.now pass then pass_error.WrongStep else pass_error.BadPass) }
    {
        if self.seats.get(pass).is_some() || self.line.get(pass).is_some() {
            PassError::WrongStep
        } else {
            PassError::BadPass
        }
    }

    /// The flusher's next step.
    pub(crate) fn go_flushing(&mut self, argument: u32) -> (Result<Went, GoError>, Rings)
        ensures { FlusherIs self.old.flusher self.old argument result.0 result.1 self.new }
    {
        let Some(mut away) = self.flusher.take() else {
            return (Err(GoError::BadPass), Rings::nobody());
        };
        let step = Step::of_flush(&away.flusher.flushing);
        if !step.takes(argument) {
            self.put_away(away);
            return (Err(GoError::WrongArgument), Rings::nobody());
        }
        away.tell(argument);
        let could_flush = self.hall.can_flush();
        let (away, turned, told) = mem::replace_with(
            &mut self.hall,
            away,
            |hall, away| away.turn(hall),
        );
        let next = Step::of_flush(&away.flusher.flushing);
        self.put_away(away);
        (went_by(turned, next, could_flush), self.rings(told))
    }

    /// Puts the flusher into its place, which is empty.
    fn put_away(&mut self, away: AwayFlusher)
        requires none { self.old.flusher ≡ None }
        requires away { IsFlushing self.old.hall away }
        ensures { self.new ≡ record self.old { flusher = Some away } }
    {
        match self.flusher.replace(away) {
            None => {}
            Some(_) => unreachable!(),
        }
    }

    /// The flusher comes home, where it has no flush in hand.
    pub(crate) fn flusher_home(&mut self) -> Result<Rings, PassError>
        ensures { FlusherLeaves self.old.flusher self.old result self.new }
    {
        let Some(away) = self.flusher.take() else {
            return Err(PassError::BadPass);
        };
        if away.flusher.flushing.is_some() {
            self.put_away(away);
            return Err(PassError::WrongStep);
        }
        park_flusher(&mut self.hall, away);
        Ok(Rings::nobody())
    }
}
