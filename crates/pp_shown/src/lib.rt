//! How texts that aren't the program's own, as paths and words of a command line, are shown on a terminal: what isn't printable
//! is escaped, so that no text can write where it isn't meant to.
#![tactic(auto)]

mod character;
mod lines;
mod path;

pub use character::ShownChar;
pub use lines::ShownLines;
pub use path::ShownPath;
