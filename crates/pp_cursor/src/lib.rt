//! Where a worker is in its plan, and what the plan asks there.
#![tactic(auto)]

mod cursor;
pub mod laws;
mod off_plan;

pub use cursor::Cursor;
pub use off_plan::OffPlan;
