//! Who sleeps for what, in a pool whose workers wait for one another, and who has to be woken.
//!
//! A worker whose request is refused for now sleeps with a [`Want`], and is told when it may go. [`Sleepers::settle`]
//! asks the vault about each one that wasn't told yet. It leaves no lost wake-up: nobody sleeps untold on what is
//! possible, unless another that was told of the same thing is on its way. The bells of those whom it told come out of it as
//! [`Wakes`], a value that must be spent.
//!
//! [`hold`] takes the lock under which all of this lies.
#![tactic(auto)]

pub use lock::hold;
pub use mask::bell_of;
pub use sleepers::{Sleeper, Sleepers};
pub use wakes::Wakes;
pub use want::Want;

mod asking;
pub mod laws;
mod lock;
mod mask;
mod sleepers;
mod wakes;
mod want;
