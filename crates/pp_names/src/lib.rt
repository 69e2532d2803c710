//! Small numbers for keys of any size: which name a key has, and which key a name has.
//!
//! Names are numbered from 0. A program that keeps something for each of a few keys, which lie far apart, keeps it by the
//! key's name, so that its memory goes with how many keys have a name and not with the greatest key.
#![tactic(auto)]

pub use names::Names;
pub use table::Table;

mod names;
mod slots;
mod table;
