//! Totals of journals: what was done in a life, or in a segment of it, and how the totals of segments add up.
#![tactic(auto)]

pub use totals::Totals;

pub mod laws;
mod totals;
