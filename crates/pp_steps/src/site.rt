//! Where a worker asks, in one step.

ghost use Rattle.std.specs.Prelude.{◌≡◌, None, Some, true, is_some};
ghost use Rattle.pp_model.specs.declared.refusals.Delay.TheVariants.{NothingWaiting};
ghost use Rattle.pp_vault.specs.declared.refusal.Refusal.TheVariants.{NotNow};
ghost use Rattle.pp_pool.specs.declared.response.BookAnswer.TheVariants.{No};
ghost use Rattle.pp_pool.specs.Replies.{Replies};
ghost use Rattle.pp_steps.specs.Sites.{nobody_told, AreBoth, HallDoes, SameOut, has_plan};

use crate::device::HostDevice;
use crate::plans::KeptPlan;
use core::mem;
use pp_hall::{Hall, Told};
use pp_model::Delay;
use pp_pool::{BookAnswer, Request, Response, Site};
use pp_vault::{ReadGuard, Refusal};
use std::marker::Model;

/// A hall that lies aside.
pub(crate) type KeptHall = Box<Hall<HostDevice>>;

/// A site that is lent the hall for one step. It waits for nothing: what isn't possible now is refused. Between two steps it has
/// none, and then it refuses all.
pub(crate) struct StepSite {
    hall: Option<KeptHall>,
    // The plan that is to be taken.
    plan: Option<KeptPlan>,
    // Whom the hall has told.
    told: Told,
}

impl Model for StepSite {
    ghost use Rattle.std.specs.Coded.{codes};
    ghost use Rattle.std.specs.Option.{option_map};
    ghost use Rattle.pp_hall.specs.Coding.{coded_seating};
    ghost use Rattle.pp_steps.specs.Sites.{Parts};

    ghost Value = { Parts };

    ghost coded = { Prim.hlevel (codes, coded_seating) };

    ghost view = { λ s. record { hall = option_map (λ b. b.value) s.hall; plan = s.plan; told = s.told } };
}

impl StepSite {
    /// A site without a hall.
    pub(crate) fn new() -> StepSite
        ensures { result ≡ record { hall = None; plan = None; told = nobody_told } }
    {
        StepSite {
            hall: None,
            plan: None,
            told: Told::nobody(),
        }
    }

    /// Lends it the hall, and this plan to take.
    pub(crate) fn lend(&mut self, hall: KeptHall, plan: Option<KeptPlan>)
        requires { self.old.hall ≡ None }
        ensures { self.new ≡ record { hall = Some hall.value; plan = plan; told = self.old.told } }
    {
        self.plan = plan;
        self.put(hall);
    }

    /// Puts the hall into its place, which is empty.
    fn put(&mut self, hall: KeptHall)
        requires { self.old.hall ≡ None }
        ensures { self.new ≡ record self.old { hall = Some hall.value } }
    {
        match self.hall.replace(hall) {
            None => {}
            Some(_) => unreachable!(),
        }
    }

    /// Takes the hall back, with whom it has told.
    pub(crate) fn take_back(&mut self) -> (KeptHall, Told)
        requires { is_some self.old.hall ≡ true }
        ensures hall { self.old.hall ≡ Some result.0.value }
        ensures told { result.1 ≡ self.old.told }
        ensures rest { self.new ≡ record { hall = None; plan = self.old.plan; told = nobody_told } }
    {
        let told = mem::replace(&mut self.told, Told::nobody());
        match self.hall.take() {
            Some(hall) => (hall, told),
            None => unreachable!(),
        }
    }

    /// Ends a site without a hall.
    pub(crate) fn end(self)
        requires { self.hall ≡ None }
    {
        let StepSite {
            hall,
            plan: _,
            told,
        } = self;
        match hall {
            None => {}
            Some(_) => unreachable!(),
        }
        spend(told);
    }

    /// Notes that the hall has told these too.
    fn note(&mut self, more: Told)
        ensures both { AreBoth self.old.told more self.new.told }
        ensures hall { self.new.hall ≡ self.old.hall }
        ensures plan { self.new.plan ≡ self.old.plan }
    {
        let before = mem::replace(&mut self.told, Told::nobody());
        let nobody = mem::replace(&mut self.told, before.and(more));
        spend(nobody);
    }
}

/// Wakes nobody.
pub(crate) fn spend(told: Told) {
    let Told {
        workers,
        next: _,
        all: _,
        flusher: _,
    } = told;
    workers.into_mask();
}

/// Whether there is a plan where the request wants one.
fn has_plan(plan: Option<KeptPlan>, request: &Request) -> bool
    ensures { result ≡ has_plan plan request.now }
{
    match request {
        Request::Take(_) => plan.is_some(),
        _ => true,
    }
}

/// The hall takes the plan, or performs the request.
fn performed(hall: KeptHall, plan: Option<KeptPlan>, request: Request) -> (KeptHall, Response, Told)
    requires { has_plan plan request ≡ true }
    ensures does { HallDoes plan hall.value request result.1 result.2 result.0.value }
    ensures fits { Replies request result.1 }
    ensures out { SameOut hall.value result.0.value }
{
    let mut hall = hall;
    let (response, told) = match request {
        Request::Take(chair) => match plan {
            Some(plan) => hall.take(chair, plan.prepared),
            None => unreachable!(),
        },
        request => hall.perform(request),
    };
    (hall, response, told)
}

/// What is answered where it isn't possible.
fn refused(request: Request) -> Response
    ensures is { result ≡ record { event = None; answer = No request (NotNow NothingWaiting) } }
    ensures fits { Replies request result }
{
    Response {
        event: None,
        answer: BookAnswer::No(request, Refusal::NotNow(Delay::NothingWaiting)),
    }
}

impl Site for StepSite {
    ghost use Rattle.pp_steps.specs.Sites.{StepGives, StepShows};

    ghost gives = { λ s request response t. StepGives s request response t };

    ghost shows = { λ s guard before shown after. StepShows s guard before shown after };

    // The number is only for how many events there is to be memory.
    ghost tells = { λ s most. Unit {0} };

    #[tactic(auto, using(crate::proofs::Keeping::step_given, crate::proofs::Keeping::step_refused))]
    fn perform(&mut self, request: Request) -> Response {
        if !has_plan(self.plan, &request) {
            return refused(request);
        }
        let Some(hall) = self.hall.take() else {
            return refused(request);
        };
        let (hall, response, told) = performed(hall, self.plan, request);
        self.put(hall);
        self.note(told);
        response
    }

    fn look(&mut self, guard: &ReadGuard, bytes: &mut [u8]) -> bool {
        match &mut self.hall {
            Some(hall) => hall.look(guard, bytes),
            None => false,
        }
    }

    fn most(&mut self) -> u64 {
        match self.plan {
            Some(plan) => plan.cost,
            None => 1,
        }
    }
}
