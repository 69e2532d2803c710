//! Whom a call has told that it can go on.

ghost use Rattle.std.specs.Prelude.{◌≡◌, ◌||◌, ◌&&◌, not, ℕ, true, false, None};
ghost use Rattle.pp_wants.specs.Masks.{has_bell};
ghost use Rattle.pp_hall.specs.Telling.{both_next, are_apart};

use pp_admission::Ticket;
use pp_wants::Wakes;

/// Whom a call has told. Each of them has to be woken, once the lock is let go or before its own thread sleeps.
///
/// The compiler refuses code that lets it fall.
#[derive(Debug)]
pub struct Told {
    /// The bells of the workers whose threads were told: of a hall, which has 32 at most, each has its own.
    pub workers: Wakes,
    /// The one that may start, if it was asleep.
    pub next: Option<Ticket>,
    /// Whether everybody in the queue has to be woken.
    pub all: bool,
    /// Whether the flusher was told.
    pub flusher: bool,
}

impl Told {
    /// Nobody was told.
    pub fn nobody() -> Told
        ensures { result ≡ record { workers = 0; next = None; all = false; flusher = false } }
    {
        Told {
            workers: Wakes::none(),
            next: None,
            all: false,
            flusher: false,
        }
    }

    /// Those whom either tells. Where these name two that may start, everybody in the queue is woken.
    pub fn and(self, other: Told) -> Told
        ensures workers { (b : ℕ) → has_bell result.workers b ≡ (has_bell self.workers b || has_bell other.workers b) }
        ensures next { result.next ≡ both_next self.next other.next }
        ensures all { result.all ≡ (self.all || other.all || are_apart self.next other.next) }
        ensures flusher { result.flusher ≡ (self.flusher || other.flusher) }
    {
        let Told {
            workers,
            next,
            all,
            flusher,
        } = self;
        let apart = are_apart(next, other.next);
        let Told {
            workers: more,
            next: second,
            all: others,
            flusher: other_flusher,
        } = other;
        Told {
            workers: workers.and(more),
            next: first_of(next, second),
            all: all || others || apart,
            flusher: flusher || other_flusher,
        }
    }
}

/// The first of the two, or the second where there is none.
fn first_of(first: Option<Ticket>, second: Option<Ticket>) -> Option<Ticket>
    ensures { result ≡ both_next first second }
{
    match first {
        Some(ticket) => Some(ticket),
        None => second,
    }
}

/// Whether they are two tickets, and not the same.
fn are_apart(first: Option<Ticket>, second: Option<Ticket>) -> bool
    ensures { result ≡ are_apart first second }
{
    match (first, second) {
        (Some(first), Some(second)) => first.number() != second.number(),
        _ => false,
    }
}
