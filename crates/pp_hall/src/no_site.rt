//! The site of a worker that is parked.

ghost use Rattle.std.specs.Prelude.{◌≡◌, None, false};
ghost use Rattle.pp_model.specs.declared.refusals.Delay.TheVariants.{NoRoom};
ghost use Rattle.pp_vault.specs.declared.refusal.Refusal.TheVariants.{NotNow};
ghost use Rattle.pp_pool.specs.declared.response.BookAnswer.TheVariants.{No};

use pp_model::Delay;
use pp_pool::{BookAnswer, Request, Response, Site};
use pp_vault::{ReadGuard, Refusal};

/// A site that performs nothing: a worker is made over it, and ended, and has none while it is parked.
#[derive(Drop)]
pub(crate) struct NoSite;

impl Site for NoSite {
    ghost gives = { λ x request response t. response ≡ record { event = None; answer = No request (NotNow NoRoom) } };

    ghost shows = { λ x guard before shown after. shown ≡ false };

    ghost tells = { λ x most. most ≡ 1 };

    fn perform(&mut self, request: Request) -> Response {
        Response {
            event: None,
            answer: BookAnswer::No(request, Refusal::NotNow(Delay::NoRoom)),
        }
    }

    fn look(&mut self, _guard: &ReadGuard, _bytes: &mut [u8]) -> bool {
        false
    }

    fn most(&mut self) -> u64 {
        1
    }
}
