//! A B+ tree on the pages of a pool that stands, which threads of the program's own use at once. Each query is a work of
//! its own, which goes from plan to plan.
//!
//! [`Client`] is that work, [`Plans`] keeps the plans that it goes through, [`answer_all`] has four threads answer
//! queries, and [`shape_of`] looks at a whole tree on its device.
//!
//! It is written to be copied; docs/embedding.md goes through it.
#![tactic(auto)]

pub use client::Client;
pub use plans::{Job, accepted, plan_for};
pub use query::{Answer, Query};
pub use serve::{Desk, OnceLeft, Plans, answer_all};
pub use shape::{Shape, shape_of};

mod client;
pub mod node;
mod path;
mod plans;
mod query;
pub mod regions;
mod serve;
mod shape;
pub mod space;
mod splits;
