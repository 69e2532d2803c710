//! The pool on one thread: a vault with the journal of what was done.
#![tactic(auto)]

pub use asking::ask;
pub use book::Book;
pub use error::{BookError, BookRenewError};
pub use flusher::Flusher;
pub use held::{Held, Loan, Slots};
pub use pp_journal::Journal;
pub use pp_model::Event;
pub use pp_outset::Outset;
pub use request::Request;
pub use response::{BookAnswer, Response};
pub use site::{OwnSite, Site, copy_front};
pub use turned::Turned;
pub use work::{End, Kind, Work};
pub use worker::Worker;

mod asked;
mod asking;
mod book;
mod both;
mod error;
mod flusher;
mod held;
mod lending;
mod reading;
mod renewing;
mod request;
mod response;
mod site;
mod taken;
mod turned;
mod work;
mod worker;
