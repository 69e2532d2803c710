//! The vault of a buffer pool: its core, an image of a page for each frame, and guards that must be spent.
//!
//! Each call of a worker or of the flusher is one move of the core, and answers that move and the core's reply ([`Done`]).
//! What a worker has at hand are tokens: values that can't be copied and can't be let fall, so that a fixed page is unfixed,
//! a latch is let go, and what a device was asked is answered.
#![tactic(auto)]

pub use answering::Answered;
pub use fixing::Fixed;
pub use guards::{BundleGuard, Guard, PinGuard, ReadGuard, WriteGuard};
pub use hands::{Flushing, Hands, Workers};
pub use looking::LookError;
pub use places::Guards;
pub use pp_core::{
    Accepted, Ask, Came, Cause, CoreError as VaultError, Delay, Ending, Failure, Held, Move,
    PlanId, PrepareError, Prepared, RenewError, Reply, SubmitError, Turn,
};
pub use pp_device::{Device, Fault};
pub use refusal::Refusal;
pub use stage::{Hand, Stage};
pub use stopped::Stopped;
pub use tokens::{Chair, Errand, Leaver, Returned, Session};
pub use vault::{Done, Vault};

mod answering;
mod carrying;
mod fixing;
mod flushing;
mod guards;
mod hands;
mod image;
mod latching;
pub mod laws;
mod leaving;
mod looking;
mod opening;
mod places;
mod reading;
mod refusal;
mod renewing;
mod seating;
mod stage;
mod stopped;
mod store;
mod stored;
mod submitting;
mod tokens;
mod vault;
