//! Where something stands in a text: lines and columns, lines by number, ways into a JSON value and the bytes where they
//! lead, statements by number, and words that are nearly known ones.
#![tactic(auto)]

mod lines;
mod malformed;
mod place;
mod repeats;
mod said;
mod statement;
mod statements;
mod steps;
mod text;
mod values;
mod words;

pub use lines::{line_at, line_text};
pub use malformed::{Malformed, malformed_in};
pub use place::{Spot, spot_at};
pub use repeats::{Repeat, repeat_in};
pub use said::{Said, no_text, said_at, shown_at, value_of};
pub use statement::{Statement, slot_in, slot_key};
pub use statements::{first_use, steps_to};
pub use steps::{Step, offset_of, steps_text, value_at};
pub use text::text_of;
pub use values::{front, quoted, shown};
pub use words::{hint, listed, nearest};
