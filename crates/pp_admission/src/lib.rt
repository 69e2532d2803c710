//! An admission queue: in what order queries that wait for memory start, so that none is overtaken without bound.
//!
//! Each has a peak, the most pages that it holds at once, and waits until that many are free. One whose peak fits may
//! overtake those before it that don't fit, so that a large one holds up nobody needlessly. But each is overtaken only
//! so many times: then all behind it wait until it fits. Grants of query memory are queued so, as by the resource
//! semaphore of SQL Server; that waiting is bounded by a count of overtakings is known from mutual exclusion as bounded
//! bypass (Raynal, Concurrent Programming: Algorithms, Principles, and Foundations).
//!
//! [`AdmissionQueue`] is plain data. It has no lock and no thread, and knows neither plans nor pages: whoever keeps it
//! tells it how many pages are free, and rings those that it says are to be woken.
#![tactic(auto)]

pub use error::QueueFull;
pub use queue::AdmissionQueue;
pub use ticket::Ticket;
pub use waiting::Waiting;

mod error;
pub mod laws;
mod line;
mod queue;
mod ticket;
mod waiting;
