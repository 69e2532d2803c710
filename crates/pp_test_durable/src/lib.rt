//! Tests of devices whose pages outlive a crash: a device whose power fails, a log over pages, and an engine over both.
#![tactic(auto)]

pub use crashing::Crashing;
pub use ends::CrashingEnd;
pub use leaf::Leaf;
pub use page_log::{Handle, PageLog};
pub use record::Record;

mod crashing;
#[cfg(test)]
mod devices;
mod ends;
#[cfg(test)]
mod engine;
pub mod laws;
mod leaf;
mod page_log;
mod record;
#[cfg(test)]
mod syncing;
