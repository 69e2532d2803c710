//! Numbers that only contracts see.

ghost use Rattle.std.specs.Prelude.{◌≡◌, ℕ, ◌+◌};
ghost use Rattle.std.specs.Borrow.{ftrue};

use std::marker::Model;

/// A count that only contracts see, by its ghost field `number`. It takes no bytes, nothing is done to raise it, and it
/// has no upper end.
///
/// A device holds one for its calls and one for those that failed. It says as much of a device as the calls of
/// [`Count::raise`] in its body do, and nothing of what a disk or a file did.
#[derive(Drop)]
pub struct Count {
    pub ghost number: { ℕ },
}

impl Model for Count {
    ghost also_owns = { λ _. ftrue };
}

// It owns nothing, so it may go to another thread.
unsafe impl Send for Count {}

impl Count {
    /// The count at 0.
    pub fn new() -> Count
        ensures { result.number ≡ 0 }
    {
        Count {}
    }

    /// Counts one more.
    pub fn raise(&mut self)
        ensures { self.new.number ≡ self.old.number + 1 }
    {}
}
