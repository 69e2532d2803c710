//! Renewing a vault whose core is at rest.

ghost use Rattle.std.specs.Prelude.{◌≡◌, Some, IfErr, OnOk, OnErr};
ghost use Rattle.pp_model.specs.Pool.{State};
ghost use Rattle.pp_model.specs.Renewing.{renew_error};
ghost use Rattle.pp_vault.specs.Parts.{parts_of};
ghost use Rattle.pp_vault.specs.StandsFor.{StandsFor};
ghost use Rattle.pp_vault.specs.Renewals.{Renews};

use crate::store::Store;
use pp_core::RenewError;

impl Store {
    /// Begins the next life, as the core does. No image moves.
    pub(crate) fn renew(&mut self) -> Result<(), RenewError>
        ensures ok { OnOk result (Renews (parts_of self.old) (parts_of self.new)) }
        ensures error { IfErr result (λ e. (s : State) → StandsFor (parts_of self.old) s → renew_error s ≡ Some e) }
        ensures unchanged { OnErr result (parts_of self.new ≡ parts_of self.old) }
    {
        self.core.renew()
    }
}
