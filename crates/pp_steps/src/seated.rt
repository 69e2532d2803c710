//! One that runs.

ghost use Rattle.std.specs.Prelude.{◌≡◌, ℕ, [], if◌then◌else◌};
ghost use Rattle.pp_vault.specs.Stages.{is_chair};
ghost use Rattle.pp_steps.specs.Devices.{has_come};
ghost use Rattle.pp_steps.specs.Bytes.{Brings};
ghost use Rattle.pp_steps.specs.Sites.{SameOut};
ghost use Rattle.pp_steps.specs.Turning.{TurnsOver, IsAtRest};
ghost use Rattle.pp_steps.specs.Calls.{go_fault, told_by, step_seated};

use crate::device::{Answer, HostDevice};
use crate::error::{GoError, PassError};
use crate::named::Named;
use crate::plans::KeptPlan;
use crate::site::{KeptHall, StepSite};
use crate::step::Step;
use pp_hall::Told;
use pp_pool::{End, Turned, Worker};
use pp_vault::Stage;

/// One that runs: the worker of its chair, and its plan.
pub(crate) struct Seated {
    pub(crate) worker: Worker<StepSite, HostDevice>,
    pub(crate) plan: KeptPlan,
}

impl Seated {
    /// What comes next.
    pub(crate) fn step(&self) -> Step
        ensures { result ≡ step_seated self.now }
    {
        Step::of_hand(&self.worker.hand, &self.worker.layout)
    }

    /// Why this step, the next one, isn't made with this argument, if it can't be.
    pub(crate) fn fault(&self, step: Step, argument: u32) -> Option<GoError>
        requires { step ≡ step_seated self.now }
        ensures { result ≡ go_fault self.now argument }
    {
        if !step.takes(argument) {
            return Some(GoError::WrongArgument);
        }
        match step {
            Step::Read { page: _ } if argument == 1 && !self.worker.device.has_come() => {
                Some(GoError::WrongStep)
            }
            _ => None,
        }
    }

    /// Tells the device what the host says of its own call, at this step, the next one.
    pub(crate) fn tell(&mut self, step: Step, argument: u32)
        requires { step ≡ step_seated self.old }
        ensures { self.new ≡ told_by self.old argument }
    {
        let answer = match (step, argument) {
            (Step::Read { page: _ }, 1) => return,
            (Step::Write { page: _ }, 1) => Answer::Wrote,
            _ => Answer::Fails,
        };
        self.worker.device.tell(answer);
    }

    /// Takes the image that the host's device has read.
    pub(crate) fn bring(&mut self, bytes: &[u8]) -> Result<(), PassError>
        ensures { Brings self.old bytes.now result self.new }
    {
        match &self.worker.hand.stage {
            Stage::Out(errand) if errand.is_reading() => {
                if self.worker.device.bring(bytes) {
                    Ok(())
                } else {
                    Err(PassError::WrongLength)
                }
            }
            _ => Err(PassError::WrongStep),
        }
    }

    /// Empties the log, where it is to take its plan.
    fn begin(&mut self)
        ensures rest { self.new ≡ record self.old { worker = record self.old.worker { log = self.new.worker.log } } }
        ensures log { self.new.worker.log.items
            ≡ (if is_chair self.old.worker.hand.stage then [] else self.old.worker.log.items) }
    {
        if matches!(&self.worker.hand.stage, Stage::Idle(_)) {
            self.worker.log.clear();
        }
    }

    /// Makes one turn over this hall. The hall comes back, with how the turn ended, how the plan did if it has, and whom the hall has
    /// told.
    pub(crate) fn turn(
        &mut self,
        hall: KeptHall,
        argument: u32,
    ) -> (KeptHall, Turned, Option<End>, Told)
        requires { (chair : ℕ) × IsAtRest chair self.old }
        ensures turns { TurnsOver self.old hall.value argument result.1 result.2 result.3 result.0.value self.new }
        ensures rests { (chair : ℕ) → IsAtRest chair self.old → IsAtRest chair self.new }
        ensures out { SameOut hall.value result.0.value }
    {
        self.begin();
        let mut work = Named::new(argument);
        self.worker.site.lend(hall, Some(self.plan));
        let turned = self.worker.turn(&mut work);
        let (hall, told) = self.worker.site.take_back();
        (hall, turned, work.end, told)
    }
}
