//! Submitting a plan, and preparing one.

ghost use Rattle.std.specs.Prelude.{◌≡◌, ◌≢◌, ◌↔◌, ◌+◌, ◌*◌, ◌^◌, ◌<◌, ◌≤◌, true, Some, IfOk, IfErr, IfSome, OnErr, length};
ghost use Rattle.std.specs.Prelude.{is_none, slice_get};
ghost use Rattle.pp_cert.specs.Accepted.{Acceptance, IsAccepted};
ghost use Rattle.pp_cert.specs.Walk.{same_layout};
ghost use Rattle.pp_settings.specs.declared.span.Span.TheVariants.{Bounded};
ghost use Rattle.pp_model.specs.declared.refusals.SubmitError.TheVariants.{NotPrepared};
ghost use Rattle.pp_model.specs.Pool.{State};
ghost use Rattle.pp_model.specs.Budget.{cost_of};
ghost use Rattle.pp_model.specs.Submitting.{counted_plans, plan_limit, most_events, submit_error};
ghost use Rattle.pp_core.specs.Parts.{parts_of};
ghost use Rattle.pp_core.specs.StandsFor.{StandsFor, IsKept};
ghost use Rattle.pp_core.specs.Limits.{most_kept};
ghost use Rattle.pp_core.specs.Submits.{submit_fault, CanAdd, with_waiting, with_kept, TakesIn, TakesPrepared, Prepares};
ghost use Rattle.pp_core.specs.Submits.{SubmitFails, PreparedFails, PrepareFails};

use crate::error::PrepareError;
use crate::table::Table;
use pp_cert::Accepted;
use pp_model::SubmitError;
use pp_settings::limits::{MOST_BOUNDED_EVENTS, MOST_ENDLESS_EVENTS, MOST_PLANS, MOST_PREPARED};
use pp_settings::{Layout, Span};

/// Whether two layouts are the same.
fn is_same_layout(left: &Layout, right: &Layout) -> bool
    ensures { result ≡ same_layout left.now right.now }
{
    left.frames() == right.frames() && left.extents() == right.extents()
}

/// The most plans that are kept: in a bounded life those that were submitted, and in an endless one those that were prepared.
pub(crate) fn most_kept(span: Span) -> usize
    ensures { result ≡ most_kept span }
{
    match span {
        Span::Bounded => MOST_PLANS,
        Span::Endless { .. } => MOST_PREPARED,
    }
}

/// The most plans that may count.
pub(crate) fn plan_limit(span: Span) -> u64
    ensures { result ≡ plan_limit span }
{
    match span {
        Span::Bounded => MOST_PLANS as u64,
        Span::Endless { waiting } => u64::from(waiting),
    }
}

/// The most events besides submits of one life.
fn most_events(span: Span) -> u64
    ensures { result ≡ most_events span }
{
    match span {
        Span::Bounded => MOST_BOUNDED_EVENTS,
        Span::Endless { .. } => MOST_ENDLESS_EVENTS,
    }
}

impl Table {
    /// How many plans count.
    fn counted_plans(&self) -> u64
        requires { self.now.taken ≤ 2 ^ 61 }
        ensures { result ≡ counted_plans self.now.span (self.now.taken + length self.now.waiting.items) self.now.taken }
    {
        match self.span {
            Span::Bounded => self.taken + self.waiting.len() as u64,
            Span::Endless { .. } => self.waiting.len() as u64,
        }
    }

    /// Why the plan isn't taken in, if it isn't.
    fn submit_fault(&self, accepted: &Accepted) -> Option<SubmitError>
        requires need { self.now.need ≤ most_events self.now.span }
        requires taken { self.now.taken ≤ 2 ^ 61 }
        ensures is { result ≡ submit_fault (parts_of self.now) accepted.now }
        ensures facts { IsAccepted accepted.now }
    {
        if !is_same_layout(&self.layout, &accepted.plan().layout()) {
            return Some(SubmitError::OtherSettings);
        }
        if self.counted_plans() >= plan_limit(self.span) {
            return Some(SubmitError::TooManyPlans);
        }
        if accepted.cost() > most_events(self.span) - self.need {
            return Some(SubmitError::JournalLimit);
        }
        None
    }

    /// A plan of this cost, which stands at this place, waits behind the others.
    fn enqueue(&mut self, place: u32, cost: u64)
        requires { (a : Acceptance) × CanAdd (parts_of self.old) a × (cost_of a ≡ cost) }
        ensures { (a : Acceptance) → cost_of a ≡ cost → parts_of self.new ≡ with_waiting (parts_of self.old) place a }
    {
        self.need += cost;
        self.budget += cost;
        match self.waiting.try_push_back(place) {
            Ok(()) => {}
            Err(_) => unreachable!(),
        }
    }

    /// One plan more is kept.
    fn keep(&mut self, accepted: Accepted)
        requires { length self.old.plans.items < most_kept self.old.span }
        ensures { parts_of self.new ≡ with_kept (parts_of self.old) accepted }
    {
        self.plans.push_reserved(accepted);
    }

    /// Takes the plan in, and answers its number; or gives it back. In an endless life it always gives it back.
    pub(crate) fn submit(&mut self, accepted: Accepted) -> Result<u64, (Accepted, SubmitError)>
        requires { IsKept (parts_of self.old) }
        ensures ok { IfOk result (λ number. TakesIn (parts_of self.old) accepted number (parts_of self.new)) }
        ensures error { IfErr result (λ e. SubmitFails (parts_of self.old) accepted e.1) }
        ensures back { IfErr result (λ e. e.0 ≡ accepted) }
        ensures unchanged { OnErr result (parts_of self.new ≡ parts_of self.old) }
    {
        if self.is_endless() {
            return Err((accepted, SubmitError::NotPrepared));
        }
        if let Some(error) = self.submit_fault(&accepted) {
            return Err((accepted, error));
        }
        let number = self.plan_count();
        let cost = accepted.cost();
        let place = self.plans.len() as u32;
        self.keep(accepted);
        self.enqueue(place, cost);
        Ok(number)
    }

    /// Whether a life may last as long as its host wants.
    pub(crate) fn is_endless(&self) -> bool
        ensures { (result ≡ true) ↔ (self.now.span ≢ Bounded) }
    {
        match self.span {
            Span::Bounded => false,
            Span::Endless { .. } => true,
        }
    }

    /// Why the plan isn't kept, if it isn't.
    fn prepare_fault(&self, accepted: &Accepted) -> Option<PrepareError>
        ensures some { IfSome result (PrepareFails (parts_of self.now) accepted.now) }
        ensures none { is_none result ≡ true → (self.now.span ≢ Bounded)
            × (same_layout self.now.layout accepted.now.plan.layout ≡ true)
            × (length self.now.plans.items < most_kept self.now.span) }
    {
        if !is_same_layout(&self.layout, &accepted.plan().layout()) {
            return Some(PrepareError::OtherSettings);
        }
        if !self.is_endless() || self.plans.len() >= most_kept(self.span) {
            return Some(PrepareError::TooManyPrepared);
        }
        None
    }

    /// Keeps the plan, so that it can be submitted as often as wanted, and answers its place; or gives it back.
    pub(crate) fn prepare(&mut self, accepted: Accepted) -> Result<u32, (Accepted, PrepareError)>
        requires { IsKept (parts_of self.old) }
        ensures ok { IfOk result (λ place. Prepares (parts_of self.old) accepted place (parts_of self.new)) }
        ensures error { IfErr result (λ e. PrepareFails (parts_of self.old) accepted e.1) }
        ensures back { IfErr result (λ e. e.0 ≡ accepted) }
        ensures unchanged { OnErr result (parts_of self.new ≡ parts_of self.old) }
    {
        if let Some(error) = self.prepare_fault(&accepted) {
            return Err((accepted, error));
        }
        let place = self.plans.len() as u32;
        self.keep(accepted);
        Ok(place)
    }

    /// The plan at this place, where plans are prepared and one stands there.
    pub(crate) fn prepared(&self, place: u32) -> Option<&Accepted>
        ensures some { IfSome result (λ accepted. (self.now.span ≢ Bounded)
            × (slice_get self.now.plans.items place ≡ Some accepted.now)) }
        ensures none { is_none result ≡ true → PreparedFails (parts_of self.now) place NotPrepared }
    {
        if !self.is_endless() {
            return None;
        }
        self.plans.get(place as usize)
    }

    /// Takes the prepared plan in that stands at this place, and answers its number.
    pub(crate) fn submit_prepared(&mut self, place: u32) -> Result<u64, SubmitError>
        requires { IsKept (parts_of self.old) }
        ensures ok { IfOk result (λ number.
            (a : Acceptance) × TakesPrepared (parts_of self.old) place number a (parts_of self.new)) }
        ensures error { IfErr result (PreparedFails (parts_of self.old) place) }
        ensures unchanged { OnErr result (parts_of self.new ≡ parts_of self.old) }
    {
        let Some(accepted) = self.prepared(place) else {
            return Err(SubmitError::NotPrepared);
        };
        let cost = accepted.cost();
        if let Some(error) = self.submit_fault(accepted) {
            return Err(error);
        }
        let number = self.plan_count();
        self.enqueue(place, cost);
        Ok(number)
    }
}
