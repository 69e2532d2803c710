//! Adaptive replacement (ARC) as a directory over four lists of page numbers.
//!
//! A cache that has room for `c` pages asks the directory for each page that it needs, and is told
//! whether the page is cached, may take a free frame, or takes the frame of a victim.
//! Pages that are in use are passed over: the caller names them by a type that implements [`Busy`], and keeps a [`Search`],
//! by which no page is passed over again and again.
//!
//! The rule restates figure 4 of Megiddo and Modha, "ARC: A Self-Tuning, Low Overhead Replacement
//! Cache", FAST 2003. `specs/Figure.antt` is the definition, and names the choices made there.
#![tactic(auto)]

pub use answer::Answer;
pub use busy::Busy;
pub use directory::Directory;
pub use links::Links;
pub use list::List;
pub use names::Names;
pub use search::Search;

mod answer;
mod busy;
mod directory;
pub mod laws;
mod links;
mod list;
mod lists;
mod named;
mod names;
mod numbers;
mod search;
mod tournament;
