//! Who comes to the queue, starts, and leaves.

ghost use Rattle.std.specs.Prelude.{◌≡◌, ◌<◌, true, false, ℕ, Some, None, IfOk, IfErr, OnErr, slice_get};
ghost use Rattle.pp_steps.specs.declared.error.GoError.TheVariants as go_error;
ghost use Rattle.pp_steps.specs.Calls.{Enters, EnterFails, StartIs, unwaiting, has_started, StartOf, LeaveOf, SendsHome, SeatsPost};
ghost use Rattle.pp_vault.specs.Stages.{stage_worker};
ghost use Rattle.pp_steps.specs.declared.seated.Seated.{Seated};
ghost use Rattle.pp_steps.specs.Lines.{waiter_at};
ghost use Rattle.pp_steps.specs.Seats.{seated_at, IsFree};
ghost use Rattle.pp_steps.specs.Parts.{is_flushers};

use crate::device::HostDevice;
use crate::error::{EnterError, GoError, PassError};
use crate::homing::{bring_back, park};
use crate::line::Waiter;
use crate::pass::Pass;
use crate::plans::KeptPlan;
use crate::rings::Rings;
use crate::seated::Seated;
use crate::seats::Seats;
use crate::site::StepSite;
use crate::steps::Steps;
use pp_hall::{Post, Started, Told};
use pp_vault::Stage;

impl Steps {
    /// Lets one come to the queue, behind all others, who wants the plan of this number run.
    ///
    /// # Errors
    ///
    /// [`EnterError::NoSuchPlan`], else [`EnterError::Stopped`], else [`EnterError::Full`]. Nothing has changed.
    pub fn enter(&mut self, plan: u32) -> Result<Pass, EnterError>
        ensures ok { IfOk result (λ pass. Enters self.old plan pass self.new) }
        ensures error { IfErr result (EnterFails self.old plan) }
        ensures unchanged { OnErr result (self.new ≡ self.old) }
    {
        let Some(plan) = self.kept(plan) else {
            return Err(EnterError::NoSuchPlan);
        };
        if self.hall.is_stopped() {
            return Err(EnterError::Stopped);
        }
        let Some(place) = self.line.free() else {
            return Err(EnterError::Full);
        };
        match self.hall.enter(plan.peak) {
            Ok(ticket) => Ok(self.line.put(place, Waiter { ticket, plan })),
            Err(_) => Err(EnterError::Full),
        }
    }

    /// The plan of this number.
    fn kept(&self, plan: u32) -> Option<KeptPlan>
        ensures { result ≡ slice_get self.now.plans plan }
    {
        self.plans.get(plan as usize).copied()
    }

    /// Lets the one with this pass start, if it may. Then its pass is spent, and it has that of its chair, with another bell.
    ///
    /// # Errors
    ///
    /// [`GoError::BadPass`]; [`GoError::WrongStep`] where it has started; [`GoError::NotNow`], and its thread sleeps; [`GoError::Stopped`]: nobody
    /// starts any more, and the pass is spent. [`GoError::Broken`] where the hall has handed out a worker that isn't idle: the pass is
    /// spent, and the chair stays out.
    pub fn start(&mut self, pass: Pass) -> (Result<Pass, GoError>, Rings)
        ensures { StartOf (waiter_at self.old.line pass) self.old pass result.0 result.1 self.new }
    {
        let Some(waiter) = self.line.get(pass) else {
            return (Err(self.not_waiting(pass)), Rings::nobody());
        };
        self.hall.known();
        match self.hall.start(waiter.ticket) {
            Started::Takes(post, told) => {
                self.line.take(pass);
                if !matches!(&post.hand.stage, Stage::Idle(_)) {
                    let told = told.and(bring_back(&mut self.hall, post));
                    return (Err(GoError::Broken), self.rings(told));
                }
                let next = seat(&mut self.seats, post, waiter.plan);
                (Ok(next), self.rings(told))
            }
            Started::Waits(told) => (Err(GoError::NotNow), self.rings(told)),
            Started::Stopped(told) => {
                self.line.take(pass);
                (Err(GoError::Stopped), self.rings(told))
            }
        }
    }

    /// Why one isn't started that doesn't wait.
    fn not_waiting(&self, pass: Pass) -> GoError
        ensures { result ≡ unwaiting self.now pass }
    {
        if self.seats.get(pass).is_some() || self.is_flushers(pass) {
            GoError::WrongStep
        } else {
            GoError::BadPass
        }
    }

    /// The one with this pass leaves the queue, or gives back a chair whose plan wasn't taken; or the flusher comes home, with no flush in
    /// hand. The pass is spent.
    ///
    /// # Errors
    ///
    /// [`PassError::BadPass`], else [`PassError::WrongStep`]. Nothing has changed.
    pub fn leave(&mut self, pass: Pass) -> Result<Rings, PassError>
        ensures { LeaveOf (waiter_at self.old.line pass) (is_flushers self.old pass) self.old pass result self.new }
    {
        if let Some(waiter) = self.line.get(pass) {
            self.line.take(pass);
            let told = self.hall.leave(waiter.ticket);
            return Ok(self.rings(told));
        }
        if self.is_flushers(pass) {
            return self.flusher_home();
        }
        match self.seats.get(pass) {
            None => Err(PassError::BadPass),
            Some(seated) => {
                if !matches!(&seated.worker.hand.stage, Stage::Idle(_)) {
                    return Err(PassError::WrongStep);
                }
                let told = self.send_home(pass, Told::nobody());
                Ok(self.rings(told))
            }
        }
    }

    /// The one with this pass comes home, if it runs.
    #[tactic(auto, using(crate::proofs::Halls::home_steps))]
    pub(crate) fn send_home(&mut self, pass: Pass, told: Told) -> Told
        ensures { (s : Seated) → seated_at self.old.seats pass ≡ Some s → SendsHome self.old pass s told result self.new }
    {
        match self.seats.take(pass) {
            Some(seated) => told.and(park(&mut self.hall, seated)),
            None => told,
        }
    }
}

/// Seats the worker of a chair, whose place is free, with the plan that it is to take.
fn seat(seats: &mut Seats<Seated>, post: Post<HostDevice>, plan: KeptPlan) -> Pass
    requires { (chair : ℕ) × (stage_worker post.hand.stage ≡ Some chair) × IsFree seats.old chair }
    ensures turn { result.turn < 281474976710656 }
    ensures own { stage_worker post.hand.stage ≡ Some result.bell }
    ensures seat { SeatsPost seats.old post.hand plan result seats.new }
{
    let Some(chair) = post.hand.worker() else {
        unreachable!();
    };
    let (_, worker) = post.over_site(StepSite::new());
    seats.seat(chair, Seated { worker, plan })
}
