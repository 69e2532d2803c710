//! The core of a buffer pool: a machine over moves, without pages, devices or threads.
#![tactic(auto)]

pub use draining::Decide;
pub use error::{CoreError, PrepareError};
pub use machine::{Core, PlanId, Prepared};
pub use pp_cert::{Accepted, Held};
pub use pp_model::{
    Came, Cause, Delay, Ending, Event, Failure, Move, RenewError, Reply, SubmitError, Turn,
};
pub use pp_plan::Ask;

mod answering;
mod busy;
mod draining;
mod error;
mod fixing;
mod flushing;
pub mod laws;
mod leaving;
mod machine;
mod moves;
mod opening;
mod queries;
mod reading;
mod refusing;
mod renewing;
mod seat;
mod submitting;
mod table;
mod taking;
mod turns;
mod using;
