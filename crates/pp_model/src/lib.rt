//! The model of the pool: the moves that may be asked of it, what it answers, its state, and which state comes next.
//!
//! The enums are what callers see and what journals hold. The rest is definitions: a state keeps the lists of actions
//! that each worker has done, and computes from them who holds what; one total function over states and moves says what
//! is possible, why not where it isn't, the reply and the next state. Runs, journals and the bound on the moves left
//! are folds of it. The functions of [`laws`] have no body: their contracts are laws of every state that a journal
//! leads to.
#![tactic(auto)]

pub use event::Event;
pub use moves::{Came, Move};
pub use refusals::{Cause, Delay, RenewError, SubmitError};
pub use reply::{Ending, Failure, Reply};
pub use turn::Turn;

mod event;
pub mod laws;
mod moves;
mod refusals;
mod reply;
mod turn;
