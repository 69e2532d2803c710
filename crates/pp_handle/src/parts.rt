//! The two parts of a box.

ghost use Rattle.std.specs.Prelude.{◌≡◌};
ghost use Rattle.std_alloc.specs.Box.Ownership.{box_owns};

use std::alloc::Allocator;
use std::marker::Model;

/// A box as its pointer and its allocator. It owns what the box owned.
///
/// It is not `Drop`, so whoever has one makes a box of it again, or hands its pointer on.
pub struct BoxParts<T, A: Allocator> {
    /// Where the value is. It is never null.
    pub at: *mut T,
    /// What takes the memory back.
    pub alloc: A,
    /// The value.
    pub ghost value: { T },
}

impl<T, A: Allocator> Model for BoxParts<T, A> {
    ghost also_owns = { λ parts. box_owns (A.dealloc_token parts.alloc) T.row parts.at parts.value };
}

impl<T: Drop, A: Allocator> BoxParts<T, A> {
    /// The parts of a box.
    pub fn of(kept: Box<T, A>) -> BoxParts<T, A>
        ensures value { result.value ≡ kept.value }
    {
        let (at, alloc) = Box::into_raw_with_allocator(kept);
        BoxParts { at, alloc }
    }

    /// The box that has these parts.
    pub fn into_box(self) -> Box<T, A>
        ensures value { result.value ≡ self.value }
    {
        let BoxParts { at, alloc } = self;
        unsafe { Box::from_raw(alloc, at) }
    }
}
