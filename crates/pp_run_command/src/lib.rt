//! What the command `run` does between its files and its report: it runs plans on threads over the file of a device, and
//! tells how that went.
#![tactic(auto)]

mod error;
mod progress;
mod rounds;
mod running;
mod telling;
mod traced;
mod watching;

pub use error::RunCommandError;
pub use progress::progress_line;
pub use rounds::Rounds;
pub use running::run;
pub use telling::{stopped_line, told, write_journal};
pub use traced::{Choices, Traced};
