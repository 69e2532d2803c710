//! Who waits is known by a ticket.

ghost use Rattle.std.specs.Prelude.{◌≡◌};

use std::marker::Model;

/// The ticket of one that waits: how many came to the queue before it.
///
/// It is of the queue that gave it. Another queue takes it for its own ticket of the same number.
#[derive(Clone, Copy, Debug, PartialEq, Eq)]
pub struct Ticket(u64);

impl Model for Ticket {
    ghost use Rattle.std.specs.Prelude.{ℕ};

    ghost Value = { ℕ };

    ghost view = { λ ticket. ticket.0 };

    ghost inverse = { λ n. record { 0 = n } };
}

impl Ticket {
    /// The ticket of this number.
    pub(crate) fn new(number: u64) -> Ticket
        ensures { result ≡ number }
    {
        Ticket(number)
    }

    /// The number, from 0.
    pub fn number(self) -> u64
        ensures { result ≡ self }
    {
        self.0
    }
}
