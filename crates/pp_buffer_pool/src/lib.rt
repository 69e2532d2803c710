//! A pool that stands: it is opened once, threads share it by reference, and any of them runs a plan on it at any time.
//!
//! Whoever comes with a query calls [`BufferPool::execute`], and its own thread does the work. The pool starts no
//! thread.
#![tactic(auto)]

pub use copies::OnCopies;
pub use error::{CheckpointError, ExecuteError, OpenError};
pub use flushing::{Flush, FlusherEnd};
pub use outcome::Outcome;
pub use plan::PreparedPlan;
pub use pool::BufferPool;
pub use pp_hall::{CloseError, Closed, Counts, Policy, Stats};

mod bells;
mod checkpointing;
mod copies;
mod ending;
mod error;
mod executing;
mod flushing;
mod opening;
mod outcome;
mod plan;
mod pool;
mod remaining;
mod site;
mod turning;
