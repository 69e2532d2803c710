//! The journal of an endless life, as text in segments, and its audit.
#![tactic(auto)]

pub use auditing::{AuditedSegments, audit_segments};
pub use auditor::SegmentAuditor;
pub use error::SegmentError;
pub use line::SegmentLine;
pub use text::segment_text;

mod auditing;
mod auditor;
mod error;
pub mod laws;
mod line;
mod reading;
mod text;
