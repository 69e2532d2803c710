//! Plans: what a query worker does with pages, read exactly from a JSON text.
#![tactic(auto)]

mod action;
mod error;
mod flat;
mod kind;
mod limits;
mod mode;
mod names;
mod numbering;
mod plan;
mod progress;
mod reading;
mod shape;
mod stmt;
mod writing;

pub use action::{Action, Ask};
pub use error::PlanError;
pub use flat::{FlatStep, Next};
pub use mode::Mode;
pub use plan::Plan;
pub use stmt::{Body, Branches, Stmt};
