//! Scripts: what the workers of a pool are to do, cue by cue, and which calls of the device are troubled.
//!
//! A script is a text with one cue on a line, as in
//!
//!     lie 2 16 9
//!     take 0
//!     fix 0 16
//!     device 0
//!
//! [`Script::from_text`] reads it exactly: what it accepts, and the first line that it refuses, are said by how cues
//! and troubles are spelled.
#![tactic(auto)]

mod cue;
mod error;
mod line;
mod script;

pub use cue::Cue;
pub use error::ScriptError;
pub use script::Script;
