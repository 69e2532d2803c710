//! A pool that stands, called from C.
//!
//! A program in C holds a pool by a [`Handle`], which is one pointer, and calls the functions of `calls`, `running`, `reading`,
//! `pages` and `whole`. Each of them is total: a null handle, a ticket that was spent or made up, a number out of its range and a text that isn't
//! one are answered by a status, and no call asks for more than pointers that are valid. What C owes beside that is in
//! docs/assumptions.md, and include/pinpool.h declares the calls.
#![tactic(auto)]

pub use answer::Answer;
pub use ask::Ask;
pub use fault::Fault;
pub use figures::{Dirty, Figures, Policy, PreparedPlan, Sizes};
pub use handle::{Handle, Kept};
pub use told::Told;

mod answer;
mod ask;
mod calls;
mod fault;
mod figures;
mod handle;
mod pages;
mod preparing;
mod reading;
mod refusal;
mod running;
mod texts;
mod told;
mod whole;
