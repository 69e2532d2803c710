//! A site with a vault, whose journal nobody keeps.

ghost use Rattle.std.specs.Prelude.{◌≡◌, option_map};
ghost use Rattle.pp_model.specs.declared.event.Event.TheVariants.{Step};

use crate::showing::show;
use pp_model::Event;
use pp_pool::{Request, Response, Site, ask};
use pp_vault::{Done, ReadGuard, Vault};

/// A site for one thread, with a vault and no journal. It answers at once.
///
/// For a host that wants to know of an event no more than its worker is told. The life of the vault may be endless or
/// bounded. A site takes no memory.
#[derive(Drop)]
pub struct VaultSite {
    /// The vault.
    pub vault: Vault,
    /// For how many events a worker gets room in its log before it takes a plan. Its host says it, since a vault
    /// doesn't tell its plans' costs: the greatest cost of the plans that it submits ([`pp_vault::Accepted::cost`]).
    /// With less, a worker's log gets room event by event.
    pub most: u64,
}

impl Site for VaultSite {
    ghost use Rattle.pp_ledger.specs.Sites.{Answers, ShowsPage};

    // The vault's answer, and the model's event, from each state that the vault stands for.
    ghost gives = { λ x request response t. Answers x.vault request response t.vault × (t.most ≡ x.most) };

    ghost shows = { λ x guard before shown after. ShowsPage x.vault guard before shown after };

    // What the host said.
    ghost tells = { λ x most. most ≡ x.most };

    #[inline(always)]
    fn perform(&mut self, request: Request) -> Response {
        self.vault.known();
        let (answer, done) = ask(&mut self.vault, request);
        let event = event_of(done);
        Response { event, answer }
    }

    #[inline(always)]
    fn look(&mut self, guard: &ReadGuard, bytes: &mut [u8]) -> bool {
        show(&self.vault, guard, bytes)
    }

    fn most(&mut self) -> u64 {
        self.most
    }
}

/// What a vault did, as an event.
#[inline(always)]
fn event_of(done: Option<Done>) -> Option<Event>
    ensures { result ≡ option_map (λ t. Step t.0 t.1) done }
{
    let (did, reply) = done?;
    Some(Event::Step { did, reply })
}
