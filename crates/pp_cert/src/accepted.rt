//! An accepted plan.

ghost use Rattle.std.specs.Prelude.{◌≡◌, ◌+◌, ◌*◌};
ghost use Rattle.pp_settings.specs.Limits.{step_events, plan_events};

use pp_plan::Plan;
use pp_settings::Layout;
use pp_settings::limits::{PLAN_EVENTS, STEP_EVENTS};
use std::marker::Model;

/// A plan whose certificate was accepted. Only `check` makes one.
///
/// Every beginning of every trace of the plan fixes, unfixes, latches, unlatches, gathers and scatters in a legal way,
/// takes latches in rising classes, has at most `peak` pins and has at most `steps` actions; every whole trace ends
/// holding nothing. The peak is at most the number of frames, and the steps are at most 1,000,000.
#[derive(Debug, Drop)]
pub struct Accepted {
    plan: Plan,
    peak: u64,
    steps: u64,
}

impl Model for Accepted {
    ghost use Rattle.pp_cert.specs.Accepted.{Acceptance, coded_acceptance};

    ghost Value = { Acceptance };

    ghost coded = { coded_acceptance };

    ghost use Rattle.pp_cert.specs.Accepted.{IsAccepted};

    ghost view = { λ a. record { plan = a.plan; peak = a.peak; steps = a.steps } };

    ghost invariant = { λ a. IsAccepted (record { plan = a.plan; peak = a.peak; steps = a.steps }) };
}

impl Accepted {
    ghost use Rattle.pp_cert.specs.Accepted.{IsAccepted};

    /// The accepted plan, where the certificate's claims hold.
    pub(crate) fn new(plan: Plan, peak: u64, steps: u64) -> Accepted
        requires { IsAccepted (record { plan = plan; peak = peak; steps = steps }) }
        ensures { result ≡ record { plan = plan; peak = peak; steps = steps } }
    {
        Accepted { plan, peak, steps }
    }

    /// The plan.
    pub fn plan(&self) -> &Plan
        ensures is { result.now ≡ self.now.plan }
        // What holds of every accepted plan.
        ensures facts { IsAccepted self.now }
    {
        &self.plan
    }

    /// A bound on the pins that the plan has at once.
    pub fn peak(&self) -> u64
        ensures { result ≡ self.now.peak }
    {
        self.peak
    }

    /// A bound on the actions that the plan makes.
    pub fn steps(&self) -> u64
        ensures { result ≡ self.now.steps }
    {
        self.steps
    }

    /// The most events that a journal needs for the plan: three for each step, and 34 more.
    pub fn cost(&self) -> u64
        ensures { result ≡ step_events * self.now.steps + plan_events }
    {
        STEP_EVENTS * self.steps + PLAN_EVENTS
    }

    /// The layout of the settings that the plan was read and accepted for.
    pub fn layout(&self) -> Layout
        ensures { result ≡ self.now.plan.layout }
    {
        self.plan.layout()
    }
}
