//! The marks of the pages of a buffer pool: which frame has a page, how it is pinned and latched, whether its bytes are
//! newer than the disk's, and its stamp.
//!
//! To a caller [`Marks`] is a plain map from pages to these five, and each call is an equation over that map, as
//! `specs/Marks.antt` defines it. A page is placed before it is pinned, and pinned before it is latched; S latches go
//! with S latches, and an X latch with none. A [`NumberSet`] is a set of numbers, with a bit for each.
#![tactic(auto)]

pub use marks::Marks;
pub use mode::Mode;
pub use number_set::NumberSet;

mod held;
mod home;
mod marks;
mod mode;
mod number_set;
mod records;
mod word;
