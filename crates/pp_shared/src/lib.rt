//! Several ends of one device.
//!
//! [`SharedDevice`] is an end of pages in memory or in a file. Each user has an end of its own and counts its own calls;
//! what one end writes, every end reads afterwards. Each page in memory has a lock, so calls of that page may wait for
//! each other, for a copy. A file has none: its calls go to the system at once, and those of one page must not meet. Only
//! its syncs wait for one another.
#![tactic(auto)]

pub use error::OpenError;
pub use shared::SharedDevice;

mod error;
mod file;
mod memory;
mod shared;
mod store;
