//! What a book answers.

use crate::request::Request;
use pp_model::Event;
use pp_vault::{
    BundleGuard, Chair, Errand, Leaver, PinGuard, ReadGuard, Refusal, Session, WriteGuard,
};

/// What a request is answered: the tokens that come of it.
///
/// The compiler refuses code that lets it fall.
#[derive(Debug)]
pub enum BookAnswer {
    /// The worker acts in its plan.
    Acts(Session),
    /// The worker is idle.
    Idle(Chair),
    /// The worker leaves its plan, since a fix or a gather failed.
    Leaves(Leaver),
    /// The worker acts, and a slot holds a page, not latched.
    Pinned(Session, PinGuard),
    /// The worker acts, and a slot is a bundle, which has its first page.
    Opened(Session, BundleGuard),
    /// The worker acts, and a bundle that had pages has one more.
    Joined(Session),
    /// The worker acts, and a slot has its page latched S.
    Shared(Session, ReadGuard),
    /// The worker acts, and a slot has its page latched X.
    Exclusive(Session, WriteGuard),
    /// A device has to work first, for the worker or for the flusher.
    Away(Errand),
    /// The flush is over; whether the page is clean.
    Flushed(bool),
    /// The request is refused and comes back, and nothing has changed.
    No(Request, Refusal),
}

/// What comes of a request: the event that the journal has gained, if one, and the answer.
#[derive(Debug)]
pub struct Response {
    /// The event; none if and only if the request was refused.
    pub event: Option<Event>,
    pub answer: BookAnswer,
}
