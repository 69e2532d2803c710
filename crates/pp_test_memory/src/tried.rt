//! A call that is tried.

use crate::answer::Answer;
use std::fmt;

/// What a call comes to, as far as it is printed.
pub trait Told: fmt::Display {
    /// Whether the call need not be made again.
    fn is_last(&self) -> bool;
}

/// A call on values of its own, which can be made again.
pub trait Tried {
    /// What it comes to.
    type Told: Told + Drop;

    /// How the values stand before the call, where it may change them.
    fn stand(&self) -> Option<Answer> {
        None
    }

    /// Makes the call. Nothing else that it does takes memory.
    fn call(&mut self) -> Self::Told;
}
