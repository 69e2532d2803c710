//! A pool that stands, whose host is asked for each step.
//!
//! A [`Steps`] is a hall ([`pp_hall::Hall`]) with all tokens of all that run. A host names a plan's run by a [`Pass`], asks
//! what its next step is ([`Step`]), does what is its own outside, and has the step made with one number as its argument
//! ([`Steps::go`]). So a host needs no token, no callback and no thread of the pool's: it may be a program in another
//! language, an event loop, or a test.
//!
//! Each call is total: a pass that is old or made up, a step that isn't the next one, and an argument that may not be named are
//! answered by an error, and nothing has changed then.
#![tactic(auto)]

pub use error::{AtOnceError, EnterError, GoError, KeepError, OpenError, PassError, WhyOpen};
pub use flusher::FlushWish;
pub use going::Went;
pub use lent::Lent;
pub use pass::Pass;
pub use plans::KeptPlan;
pub use pp_hall::{Counts, Policy, Stats};
pub use rings::Rings;
pub use step::Step;
pub use steps::Steps;

mod bytes;
mod device;
mod error;
mod flusher;
mod going;
mod homing;
mod lent;
mod line;
mod named;
mod pass;
mod plans;
mod reading;
mod rings;
mod seated;
mod seats;
mod site;
mod starting;
mod step;
mod steps;
mod whole;
