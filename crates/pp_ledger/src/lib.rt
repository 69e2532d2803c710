//! An endless pool, on one thread: a vault with the present segment of its journal.
//!
//! An endless life, of up to 2^61 moves, has a journal that no memory holds. So its host takes it out in segments, one
//! after the other, at any time ([`Ledger::take_segment`]). One behind the other they are a true journal of the life.
//!
//! The workers and the flusher of pp_pool serve it by a site: a [`LedgerSite`] hands each full segment to a [`Sink`],
//! and a [`VaultSite`] is for a host that wants no journal.
#![tactic(auto)]

pub use error::LedgerError;
pub use ledger::Ledger;
pub use segment::Segment;
pub use sink::Sink;
pub use site::LedgerSite;
pub use vault_site::VaultSite;

mod error;
pub mod laws;
mod ledger;
mod segment;
mod showing;
mod sink;
mod site;
mod vault_site;
