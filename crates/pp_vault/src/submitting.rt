//! Plans that are submitted to a vault.

ghost use Rattle.std.specs.Prelude.{◌≡◌, Some, IfOk, IfErr, OnErr};
ghost use Rattle.pp_settings.specs.declared.span.Span.TheVariants.{Bounded};
ghost use Rattle.pp_cert.specs.Accepted.{Acceptance};
ghost use Rattle.pp_core.specs.Submits.{PrepareFails, PreparedFails};
ghost use Rattle.pp_vault.specs.Parts.{parts_of};
ghost use Rattle.pp_vault.specs.Submits.{TakesIn, TakesPrepared, SubmitFails, Prepares};

use crate::store::Store;
use pp_core::{Accepted, PlanId, PrepareError, Prepared, SubmitError};

impl Store {
    /// Takes a plan in, as the core does.
    pub(crate) fn submit(&mut self, accepted: Accepted) -> Result<PlanId, (Accepted, SubmitError)>
        ensures ok { IfOk result (λ id. TakesIn (parts_of self.old) accepted id (parts_of self.new)) }
        ensures bounded { IfOk result (λ _. (parts_of self.old).core.span ≡ Bounded) }
        ensures error { IfErr result (λ e. SubmitFails (parts_of self.old) accepted e.1) }
        ensures back { IfErr result (λ e. e.0 ≡ accepted) }
        ensures unchanged { OnErr result (parts_of self.new ≡ parts_of self.old) }
    {
        self.core.submit(accepted)
    }

    /// Keeps a plan, as the core does.
    pub(crate) fn prepare(
        &mut self,
        accepted: Accepted,
    ) -> Result<Prepared, (Accepted, PrepareError)>
        ensures ok { IfOk result (λ prepared. Prepares (parts_of self.old) accepted prepared (parts_of self.new)) }
        ensures error { IfErr result (λ e. PrepareFails (parts_of self.old).core accepted e.1) }
        ensures back { IfErr result (λ e. e.0 ≡ accepted) }
        ensures unchanged { OnErr result (parts_of self.new ≡ parts_of self.old) }
    {
        self.core.prepare(accepted)
    }

    /// Takes a prepared plan in, as the core does.
    pub(crate) fn submit_prepared(&mut self, prepared: Prepared) -> Result<PlanId, SubmitError>
        ensures ok { IfOk result (λ id. (a : Acceptance) × TakesPrepared (parts_of self.old) prepared id a (parts_of self.new)) }
        ensures error { IfErr result (PreparedFails (parts_of self.old).core prepared) }
        ensures unchanged { OnErr result (parts_of self.new ≡ parts_of self.old) }
    {
        self.core.submit_prepared(prepared)
    }
}
