//! Where a worker and the flusher ask, for as long as they turn.

use pp_ledger::Ledger;
use pp_pool::{BookAnswer, Request, Response, Site};
use pp_vault::{Delay, ReadGuard, Refusal};

/// A ledger that is lent for some turns. Where its segment is full it refuses each request, as one that isn't possible
/// now. It shows no page: a turn that latches one S is told as broken, though it is done.
#[derive(Drop)]
pub(crate) struct Seat<'a> {
    pub ledger: &'a mut Ledger,
}

impl Site for Seat<'_> {
    ghost use Rattle.pp_pool.specs.Replies.{Replies};

    // Who turns here need not know more than what is so of each site.
    ghost gives = { λ s request response t. Replies request response };

    ghost shows = { λ s guard before shown after. Unit {0} };

    ghost tells = { λ s most. Unit {0} };

    fn perform(&mut self, request: Request) -> Response {
        match self.ledger.perform(request) {
            Ok(response) => response,
            Err(request) => Response {
                event: None,
                answer: BookAnswer::No(request, Refusal::NotNow(Delay::NoRoom)),
            },
        }
    }

    fn look(&mut self, _guard: &ReadGuard, _bytes: &mut [u8]) -> bool {
        false
    }

    fn most(&mut self) -> u64 {
        0
    }
}
