//! What the bytes of files come to, and what is printed of it. Nothing here reads a file or a word of a command line.
#![tactic(auto)]

mod auditing;
mod contents;
mod device;
mod drawing;
mod error;
mod exit;
mod judgement;
mod rehearsal;
mod segments;
mod workload;

pub use auditing::{audit, audit_lives};
pub use contents::{
    AnnotateFiles, AuditFiles, CheckFiles, Contents, DrawFiles, SimulateFiles, exit_of,
};
pub use device::{DeviceSize, device_size};
pub use drawing::draw;
pub use error::JudgeError;
pub use exit::{Exit, Figures, FileFault, RunReport};
pub use judgement::{certify, judge};
pub use rehearsal::rehearse;
pub use segments::{SegmentsFiles, audit_segments, pass_segments, segment_auditor, segments_exit};
pub use workload::Workload;
