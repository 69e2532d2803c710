//! What a journal is made of.

use crate::moves::Move;
use crate::reply::Reply;

/// A line of a journal.
#[derive(Clone, Copy, Debug, PartialEq, Eq)]
pub enum Event {
    /// The plan of this number was submitted, and waits.
    Submit { plan: u64 },
    /// This move was done, and was answered so.
    Step { did: Move, reply: Reply },
}
