//! An endless pool on one thread, for tests and for times: a ledger with its tokens, over a device in memory. It is
//! moved a turn at a time, by chance or as a caller says.
#![tactic(auto)]

pub use stand::{Disk, Stand};
pub use text::text_of;

mod picks;
mod seat;
mod stand;
mod text;
