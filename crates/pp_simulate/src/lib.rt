//! A script played over a new pool with a device in memory, as text: a line for each plan, for each cue, and for who is
//! next.
#![tactic(auto)]

mod error;
mod printing;
mod simulation;

pub use error::SimulateError;
pub use simulation::simulate;
