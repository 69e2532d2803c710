//! A buffer pool that stands: what lies under its lock.
//!
//! A [`Hall`] is opened once, and then serves plans that come at any time. It has a vault whose life is endless, the
//! workers that are parked in it, the flusher, and who waits: those that want to start, the threads that sleep for a
//! page or a latch, and the flusher. A call that does something tells everybody whom that helps ([`Told`]), so that no
//! wake-up is lost.
//!
//! It has no lock and no thread. Whoever shares it puts a lock round it, and rings the bells of those who are told.
#![tactic(auto)]

pub use counts::{Counts, Stats};
pub use error::{CloseError, EnterError, OpenError};
pub use hall::{Closed, Hall, Started};
pub use policy::Policy;
pub use posts::Post;
pub use told::Told;

mod asker;
mod closing;
mod counts;
mod error;
mod hall;
mod no_site;
mod policy;
mod posts;
mod seating;
mod told;
mod waiters;
