//! Journals as text, and what can be told from them.
#![tactic(auto)]

pub use auditing::{Audited, audit};
pub use auditor::{Auditor, RENEWAL_LINE, first_line, line_in};
pub use error::{AuditError, Next};
pub use events::{names_worker, worker_of};
pub use figure::{FIGURES, Figure};
pub use journal::{journal_text, packed_journal_text};
pub use line::{Asked, Line, Told};
pub use lives::audit_lives;
pub use pp_journal::Journal;
pub use record::RunRecord;
pub use reporting::report;

mod auditing;
mod auditor;
mod error;
mod events;
mod figure;
mod journal;
pub mod laws;
mod line;
mod lives;
mod reading;
mod record;
mod reporting;
mod row;
mod turns;
