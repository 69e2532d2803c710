//! One step of one that runs.

ghost use Rattle.std.specs.Prelude.{◌≡◌, ℕ, Some};
ghost use Rattle.pp_steps.specs.declared.seated.Seated.{Seated};
ghost use Rattle.pp_steps.specs.Calls.{GoIs, After, TurnIn, TurnIf, next_of, AreResting, go_fault, step_seated, unseated, error_of};
ghost use Rattle.pp_steps.specs.Parts.{is_flushers};
ghost use Rattle.pp_steps.specs.Seats.{seated_at};
ghost use Rattle.pp_steps.specs.Sites.{SameOut};
ghost use Rattle.pp_steps.specs.Turning.{IsAtRest};

use crate::error::{GoError, PassError};
use crate::pass::Pass;
use crate::rings::Rings;
use crate::seated::Seated;
use crate::seats::Seats;
use crate::site::KeptHall;
use crate::step::Step;
use crate::steps::Steps;
use core::mem;
use pp_hall::Told;
use pp_pool::{End, Turned};

/// What a step has led to.
#[derive(Clone, Copy, Debug, PartialEq, Eq)]
pub enum Went {
    /// This comes next.
    On(Step),
    /// The plan has ended so, and the pass is spent.
    Over(End),
}

/// What came of one turn: how it ended, how the plan did if it has, whom the hall has told, and what comes next.
pub(crate) struct Came {
    pub(crate) turned: Turned,
    pub(crate) end: Option<End>,
    pub(crate) told: Told,
    pub(crate) step: Step,
}

impl Seated {
    /// Makes one turn over this hall, which comes back.
    ///
    /// # Errors
    ///
    /// Why the step can't be made with this argument. Nothing has changed.
    fn go(&mut self, hall: KeptHall, argument: u32) -> (KeptHall, Result<Came, GoError>)
        requires { (chair : ℕ) × IsAtRest chair self.old }
        ensures turns { TurnIf (go_fault self.old argument) self.old hall.value argument result.1 result.0.value self.new }
        ensures rests { (chair : ℕ) → IsAtRest chair self.old → IsAtRest chair self.new }
        ensures out { SameOut hall.value result.0.value }
    {
        let step = self.step();
        if let Some(fault) = self.fault(step, argument) {
            return (hall, Err(fault));
        }
        self.tell(step, argument);
        let (hall, turned, end, told) = self.turn(hall, argument);
        let step = self.step();
        (
            hall,
            Ok(Came {
                turned,
                end,
                told,
                step,
            }),
        )
    }
}

impl Seats<Seated> {
    /// Makes one turn of the one with this pass over this hall, which comes back.
    ///
    /// # Errors
    ///
    /// Nothing has changed. [`GoError::BadPass`] where nobody has it, else why the step can't be made with this argument.
    pub(crate) fn go(
        &mut self,
        pass: Pass,
        hall: KeptHall,
        argument: u32,
    ) -> (KeptHall, Result<Came, GoError>)
        requires { AreResting self.old }
        ensures turns { TurnIn (seated_at self.old pass) self.old pass hall.value argument result.1 result.0.value self.new }
        ensures rests { AreResting self.new }
        ensures out { SameOut hall.value result.0.value }
    {
        let Some(_) = self.get(pass) else {
            return (hall, Err(GoError::BadPass));
        };
        let place = &mut self.places[pass.bell as usize];
        match &mut place.seated {
            Some(seated) => seated.go(hall, argument),
            None => (hall, Err(GoError::BadPass)),
        }
    }
}

impl Steps {
    /// What the next step of the one with this pass is.
    ///
    /// # Errors
    ///
    /// [`PassError::BadPass`]; [`PassError::WrongStep`] where it waits to start.
    pub fn next(&self, pass: Pass) -> Result<Step, PassError>
        ensures { result ≡ next_of (is_flushers self.now pass) self.now pass }
    {
        if self.is_flushers(pass) {
            return match &self.flusher {
                Some(away) => Ok(Step::of_flush(&away.flusher.flushing)),
                None => Ok(Step::Flush),
            };
        }
        match self.seats.get(pass) {
            Some(seated) => Ok(seated.step()),
            None => {
                if self.line.get(pass).is_some() {
                    Err(PassError::WrongStep)
                } else {
                    Err(PassError::BadPass)
                }
            }
        }
    }

    /// Makes the next step of the one with this pass, with this argument, and tells what it has led to.
    ///
    /// It is one turn of the worker of its chair ([`pp_pool::Worker::turn`]), over the hall alone: with a work that answers the
    /// argument, and a device that answers what the host has told of its own call. Where that ends the plan, the worker
    /// comes home, and the pass is spent.
    ///
    /// # Errors
    ///
    /// See [`GoError`]. Nothing has changed, but that the thread of one that has to wait is known to sleep.
    pub fn go(&mut self, pass: Pass, argument: u32) -> (Result<Went, GoError>, Rings)
        ensures { GoIs (is_flushers self.old pass) self.old pass argument result.0 result.1 self.new }
    {
        if self.is_flushers(pass) {
            return self.go_flushing(argument);
        }
        let Some(_) = self.seats.get(pass) else {
            return (Err(self.unseated(pass)), Rings::nobody());
        };
        let came = mem::replace_with(self, (pass, argument), |steps, (pass, argument)| {
            steps.turned(pass, argument)
        });
        match came {
            Ok(came) => self.after(pass, came),
            Err(error) => (Err(error), Rings::nobody()),
        }
    }

    /// Makes one turn of the one with this pass, with the pool out of its place.
    fn turned(self, pass: Pass, argument: u32) -> (Steps, Result<Came, GoError>)
        ensures turns { TurnIn (seated_at self.seats pass) self.seats pass self.hall argument result.1 result.0.hall
            result.0.seats }
        ensures rest { result.0 ≡ record self { hall = result.0.hall; seats = result.0.seats } }
    {
        let Steps {
            hall,
            plans,
            line,
            mut seats,
            flushed,
            flusher,
        } = self;
        let (hall, came) = seats.go(pass, hall, argument);
        let steps = Steps {
            hall,
            plans,
            line,
            seats,
            flushed,
            flusher,
        };
        (steps, came)
    }

    /// Why there is no step of a pass with which nobody runs.
    fn unseated(&self, pass: Pass) -> GoError
        ensures { result ≡ unseated self.now pass }
    {
        if self.line.get(pass).is_some() {
            GoError::WrongStep
        } else {
            GoError::BadPass
        }
    }

    /// What a turn has led to. Where the plan has ended, the worker comes home.
    fn after(&mut self, pass: Pass, came: Came) -> (Result<Went, GoError>, Rings)
        requires { (s : Seated) × (seated_at self.old.seats pass ≡ Some s) × (came.step ≡ step_seated s) }
        ensures { (s : Seated) → seated_at self.old.seats pass ≡ Some s
            → After self.old pass s came.turned came.end came.told result.0 result.1 self.new }
    {
        let Came {
            turned,
            end,
            told,
            step,
        } = came;
        match (turned, end) {
            (Turned::Done, Some(end)) => {
                let told = self.send_home(pass, told);
                (Ok(Went::Over(end)), self.rings(told))
            }
            (Turned::Done, None) => (Ok(Went::On(step)), self.rings(told)),
            (turned, _) => (Err(error_of(turned)), self.rings(told)),
        }
    }
}

/// What is answered after a turn that wasn't done.
fn error_of(turned: Turned) -> GoError
    ensures { result ≡ error_of turned }
{
    match turned {
        Turned::NotNow => GoError::NotNow,
        Turned::NoMemory => GoError::OutOfMemory,
        _ => GoError::Broken,
    }
}
