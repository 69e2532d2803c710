//! What a refusal means, in a paragraph for people: where in which file, what stands there, and the rule.
//!
//! An explanation is made of the bytes of the files, the paths that were given for them, and the refusal. It is no part
//! of what programs read: that is the line of the refusal alone.
#![tactic(auto)]

mod check;
mod entries;
mod explaining;
mod fault;
mod journal;
mod longest;
mod paragraph;
mod places;
mod plans;
mod reading;
mod replay;
mod segments;
mod source;
mod stop;
mod submit;
mod turns;
mod warning;

pub use explaining::{Refused, Sources, explain};
pub use segments::SegmentFault;
pub use source::Source;
pub use stop::Stop;
pub use warning::repeated;
