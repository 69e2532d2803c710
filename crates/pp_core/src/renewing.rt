//! Renewing a core that is at rest.

ghost use Rattle.std.specs.Prelude.{◌≡◌, ◌^◌, ◌≤◌, Some, IfErr, OnOk, OnErr, is_none};
ghost use Rattle.std.specs.List.{list_all};
ghost use Rattle.pp_model.specs.Pool.{State};
ghost use Rattle.pp_model.specs.Renewing.{renew_error};
ghost use Rattle.pp_core.specs.Parts.{parts_of};
ghost use Rattle.pp_core.specs.StandsFor.{StandsFor, IsKept};
ghost use Rattle.pp_core.specs.Renewals.{is_resting, renew_fault, kept_plans, renewed_parts, Renews};

use crate::seat::Seat;
use crate::table::Table;
use pp_model::RenewError;
use pp_settings::limits::MARK_LIMIT;

/// Whether each seat is an idle worker's.
fn are_idle(seats: &[Option<Seat>]) -> bool
    ensures { result ≡ list_all is_none seats.now }
{
    seats.iter().all(|seat| seat.is_none())
}

impl Table {
    /// Whether no plan waits, every worker is idle, and no flush is in flight.
    fn is_at_rest(&self) -> bool
        ensures { result ≡ is_resting (parts_of self.now) }
    {
        self.waiting.is_empty() && are_idle(&self.seats) && self.flush.is_none()
    }

    /// Why the core isn't renewed, if it isn't.
    fn renew_fault(&self) -> Option<RenewError>
        ensures { result ≡ renew_fault (parts_of self.now) }
    {
        if !self.is_at_rest() {
            return Some(RenewError::NotAtRest);
        }
        let page = self.marks.first_stamped(MARK_LIMIT)?;
        Some(RenewError::MarkTooHigh { page })
    }

    /// The plans of a bounded life go.
    fn forget_plans(&mut self)
        ensures { parts_of self.new ≡ record (parts_of self.old) { plans = kept_plans self.old.span self.old.plans.items } }
    {
        if !self.is_endless() {
            self.plans.clear();
        }
    }

    /// The plans of a bounded life go, none waits, and the flushes come back.
    fn begin_anew(&mut self)
        requires { self.old.flushes ≤ 2 ^ 59 }
        ensures { parts_of self.new ≡ renewed_parts (parts_of self.old) }
    {
        let moves = 2 * self.flushes;
        self.forget_plans();
        self.waiting.clear();
        self.taken = 0;
        self.flushes_left = self.flushes;
        self.need = moves;
        self.budget = moves;
    }

    /// Begins the next life of a core that is at rest.
    pub(crate) fn renew(&mut self) -> Result<(), RenewError>
        requires { IsKept (parts_of self.old) }
        ensures ok { OnOk result (Renews (parts_of self.old) (parts_of self.new)) }
        ensures error { IfErr result (λ e. (s : State) → StandsFor (parts_of self.old) s → renew_error s ≡ Some e) }
        ensures unchanged { OnErr result (parts_of self.new ≡ parts_of self.old) }
    {
        if let Some(error) = self.renew_fault() {
            return Err(error);
        }
        self.begin_anew();
        Ok(())
    }
}
