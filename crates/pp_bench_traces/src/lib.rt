//! Traces of page requests, and plans that follow them, for programs that measure a pool.
#![tactic(auto)]

pub use error::PlanError;
pub use plans::{
    FRAMES, LARGE, MOST_OPS, Size, accepted, accepted_while_held, settings, settings_of,
};
pub use trace::{Kind, PAGES, Trace};
pub use trouble::Trouble;

mod error;
mod plans;
mod trace;
mod trouble;
