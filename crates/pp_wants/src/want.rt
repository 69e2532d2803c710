//! What a worker's thread sleeps for.

ghost use Rattle.std.specs.Prelude.{◌≡◌};

use pp_model::Delay;
use pp_pool::Request;
use pp_vault::Move;

/// What a worker's thread sleeps for, whose request the vault refused for now.
#[derive(Clone, Copy, Debug, PartialEq, Eq)]
pub enum Want {
    /// To take the plan that waits first, which has no room yet.
    Take,
    /// To fix the page of this number.
    Fix { page: u32 },
    /// To latch the page of this number: X where it is exclusive, else S.
    Latch { page: u32, exclusive: bool },
}

impl Want {
    ghost use Rattle.pp_wants.specs.Wants.{want_of, want_of_take, want_when, asked};

    /// What the request waits for where it is refused for now, whatever the delay: of a fix, a join, or a latch. None of any
    /// other request.
    pub fn of(request: &Request) -> Option<Want>
        ensures { result ≡ want_of request.now }
    {
        match request {
            Request::Fix(_, page) | Request::Join(_, page) => Some(Want::Fix { page: *page }),
            Request::LatchShared(_, guard) => Some(Want::Latch {
                page: guard.page(),
                exclusive: false,
            }),
            Request::LatchExclusive(_, guard) => Some(Want::Latch {
                page: guard.page(),
                exclusive: true,
            }),
            _ => None,
        }
    }

    /// What the request waits for where it is refused with this delay. Beside those of [`Want::of`] a take waits, but for room
    /// alone: where no plan waits, no other worker's move brings one.
    pub fn of_refused(request: &Request, delay: Delay) -> Option<Want>
        ensures { result ≡ want_when request.now delay }
    {
        match request {
            Request::Take(_) => Want::of_take(delay),
            _ => Want::of(request),
        }
    }

    /// What a take waits for that is refused with this delay.
    fn of_take(delay: Delay) -> Option<Want>
        ensures { result ≡ want_of_take delay }
    {
        match delay {
            Delay::NoRoom => Some(Want::Take),
            _ => None,
        }
    }

    /// The move that a worker with this want asks again.
    pub fn asked(self, worker: u32) -> Move
        ensures { result ≡ asked self worker }
    {
        match self {
            Want::Take => Move::Take { worker },
            Want::Fix { page } => Move::Fix { worker, page },
            Want::Latch { .. } => Move::Latch { worker },
        }
    }
}
