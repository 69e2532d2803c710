//! What may be asked of a book.

use pp_vault::{
    BundleGuard, Chair, Guard, Leaver, PinGuard, ReadGuard, Returned, Session, WriteGuard,
};

/// One call of the book's vault, with the tokens that it wants. Pages, branches and page numbers count from 0.
///
/// The compiler refuses code that lets it fall: the tokens in it have to be spent.
#[derive(Debug)]
pub enum Request {
    /// An idle worker takes the first plan that waits.
    Take(Chair),
    /// A worker fixes a page into the slot that its plan names, or gathers it into the bundle there.
    Fix(Session, u32),
    /// A worker gathers a further page into the bundle whose guard it has. No guard comes of it: where the bundle holds no
    /// page, or the session's plan asks no gather, the request is a stranger's.
    Join(Session, u32),
    /// A worker gives back the page of a slot that isn't latched.
    Unfix(Session, PinGuard),
    /// A worker gives back all pages of a bundle.
    Scatter(Session, BundleGuard),
    /// A worker latches the page of a slot S.
    LatchShared(Session, PinGuard),
    /// A worker latches the page of a slot X.
    LatchExclusive(Session, PinGuard),
    /// A worker takes its latch S off.
    UnlatchShared(Session, ReadGuard),
    /// A worker takes its latch X off. The page's image is as the guard has it from then on.
    UnlatchExclusive(Session, WriteGuard),
    /// A worker goes on with this branch of a choice.
    Choose(Session, u32),
    /// A worker is done with its plan.
    Finish(Session),
    /// A worker has left its plan, and holds nothing any more.
    End(Leaver),
    /// A worker that leaves its plan gives a slot back, latch and pin together, or a bundle with all its pages.
    GiveBack(Leaver, Guard),
    /// A device was called, for a worker or for the flusher.
    Answer(Returned),
    /// A device was called for a page that comes into a bundle whose guard the worker has. No guard comes of it, as of
    /// [`Request::Join`].
    AnswerJoin(Returned),
    /// The flusher begins to write this page.
    Flush(u32),
    /// The flusher begins to write a page that is changed, in a frame, and not latched X: the least from this number
    /// on, or, where there is none above, the least of all.
    FlushNext(u32),
}
