//! A picture of a run: what a journal says, as one SVG document.
#![tactic(auto)]

pub use column::{Column, Doing, Latches, Lengths, PageAt, Wait, WorkerAt};
pub use extent::Extent;
pub use picture::Picture;
pub use scene::{Scene, scene_of};
pub use share::{Share, Shares};
pub use tally::{Tally, Turn};
pub use totals::Totals;

mod band;
mod column;
mod curves;
mod extent;
mod lanes;
mod legend;
mod picture;
mod place;
mod row;
mod scene;
mod share;
mod strip;
mod style;
mod tally;
mod totals;
mod walk;
mod words;
