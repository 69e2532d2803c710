//! What a ledger that was served leaves: the texts of its segments, and that their audit accepts them.
//!
//! A host takes segments out of a [`Ledger`](pp_ledger::Ledger) and writes each down as [`text_of`] has it. The laws
//! say that [`audit_segments`](pp_segments::audit_segments) accepts these texts, whatever was called in between.
#![tactic(auto)]

pub use text::text_of;

pub mod laws;
mod numbers;
mod text;
