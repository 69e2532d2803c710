//! A journal that takes 16 bytes an event.
#![tactic(auto)]

pub use journal::Journal;

mod entry;
mod journal;
