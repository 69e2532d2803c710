//! Makes the least certificate of a plan. Nobody has to trust it: what it makes is handed to the check.
#![tactic(auto)]

mod entries;
mod error;
mod growth;
mod maker;
mod writing;

pub use entries::{bound_at, gathered, held_as, inserted, removed, scattered};
pub use error::AnnotateError;
pub use maker::annotate;
pub use writing::first_note;
