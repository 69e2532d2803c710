//! Devices whose pages outlive a crash.
//!
//! A [`Durable`] device has a call more than a [`Device`](pp_device::Device): `sync`, after which what was written is on
//! the medium. A sync that failed is final. [`WriteAhead`] has an engine's log on the medium before it writes a page, and
//! [`Checksummed`] notices a page that was torn or changed.
#![tactic(auto)]

pub use ahead::WriteAhead;
pub use checksummed::{Checksummed, SUM};
pub use durable::Durable;
pub use fault::SyncFault;
pub use log::Log;
pub use sum::sum_of;
pub use syncs::Syncs;

mod ahead;
mod checksummed;
mod durable;
mod fault;
pub mod laws;
mod log;
mod sum;
mod syncs;
