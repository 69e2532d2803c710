//! Certificates of plans, and the checker that accepts them.
#![tactic(auto)]

mod accepted;
mod certificate;
mod check_error;
mod checker;
mod entries;
mod error;
mod limits;
mod longest;
mod note;
mod reading;
mod scattered;
mod turns;
mod walk;
mod writing;

pub use accepted::Accepted;
pub use certificate::Certificate;
pub use check_error::CheckError;
pub use checker::{check, fault_apart_from_growth, fault_under};
pub use error::CertError;
pub use limits::{MOST_ENTRIES, MOST_NOTES, MOST_STEPS, most_bound, most_counted};
pub use longest::longest_trace;
pub use note::{Entry, Held, Note};
pub use scattered::scatters;
