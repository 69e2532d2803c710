//! The words of the command line: what they ask for, as `clap` reads them.
#![tactic(auto)]

mod annotate;
mod audit;
mod check;
mod cut;
mod draw;
mod format;
mod parts;
mod request;
mod run;
mod segments;
mod simulate;
mod words;

pub use annotate::AnnotatePaths;
pub use audit::AuditPaths;
pub use check::CheckPaths;
pub use draw::DrawPaths;
pub use format::FormatPaths;
pub use request::{Job, JobError};
pub use run::RunPaths;
pub use segments::SegmentsPaths;
pub use simulate::SimulatePaths;
pub use words::job;
