//! What is owed to those who wait.

use pp_wants::Wakes;

/// What is owed to those who wait for any move, or for a page to be changed, by what was done under a hold of the lock.
#[derive(Clone, Copy)]
pub(crate) struct Owed {
    /// Whether a move was done.
    pub is_moved: bool,
    /// Whether one of them lets a page be flushed.
    pub lets_flush: bool,
}

impl Owed {
    /// Nothing was done.
    pub(crate) fn nothing() -> Owed {
        Owed {
            is_moved: false,
            lets_flush: false,
        }
    }

    /// One move more was done, which lets a page be flushed or doesn't.
    pub(crate) fn and(self, lets_flush: bool) -> Owed {
        Owed {
            is_moved: true,
            lets_flush: self.lets_flush || lets_flush,
        }
    }
}

/// Whom a hold of the lock has told. Each of them has to be woken, once the lock is let go or before its own thread sleeps.
///
/// The compiler refuses code that lets it fall.
pub(crate) struct Told {
    /// The bells of the workers that were told.
    pub workers: Wakes,
    /// Whether those have to be woken that wait for any move.
    pub moved: bool,
    /// Whether those have to be woken that wait for a page to be changed.
    pub changed: bool,
}
