//! A pool that runs plans on threads: one book under a lock, a thread for each worker, and one for the flusher.
#![tactic(auto)]

pub use bells::Bells;
pub use desk::Desk;
pub use error::RunError;
pub use judging::{Left, judge};
pub use locked::Locked;
pub use pool::Pool;
pub use pp_report::{Journal, RunRecord};
pub use queries::{Query, StalledQueries, UnbegunQueries, UnrunQueries};
pub use running::run_once;
pub use site::LockedSite;
pub use stalled::Stalled;
pub use stop::{Flushed, Stop, Worked};
pub use threads::{ThreadRoom, run_all};
pub use unrun::{Unbegun, Unrun};

mod bells;
mod comparing;
mod counting;
mod desk;
mod error;
mod flushing;
mod holding;
mod judging;
pub mod laws;
mod life;
mod locked;
mod owed;
mod planning;
mod pool;
mod queries;
mod renewing;
mod running;
mod site;
mod stalled;
mod stop;
mod threads;
mod unrun;
mod working;
