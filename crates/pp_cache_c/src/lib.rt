//! The page cache of `pp_keyed`, called from C.
//!
//! A program in C holds a cache by a [`Handle`], which is one pointer, and calls the functions of `calls`. Each of them is
//! total: a null handle, a size of 0 and a number that says nothing are answered by a status, and no call asks for more
//! than pointers that are valid. What C owes beside that is in docs/assumptions.md, and examples/sqlite/pinpool_cache.h
//! declares the calls.
#![tactic(auto)]

pub use counts::Counts;
pub use handle::{Handle, Kept};
pub use place::Place;
pub use status::Status;

mod calls;
mod counts;
mod handle;
mod place;
mod status;
