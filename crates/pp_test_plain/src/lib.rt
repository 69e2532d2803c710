//! What tests share: ARC as a plain program to compare with, numbers that look like chance, sample settings and plans, and
//! the plan that a text spells, accepted.
//!
//! ARC is written apart from the crates that are tested, for a reader who wants to see what they do, and costs a walk over its
//! lists at each call.
#![tactic(auto)]

pub use chance::Chance;
pub use lists::Lists;
pub use plans::{accepted, all_accepted};
pub use pp_arc::Answer;

mod chance;
mod lists;
mod plans;
pub mod samples;
