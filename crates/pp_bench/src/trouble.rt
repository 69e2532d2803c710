//! What this program says where it gives no figures.

use pp_report::AuditError;

/// Why a run gave no figures: its audit may have failed, too.
pub type Trouble = pp_bench_traces::Trouble<AuditError>;

/// What the words of the command line are.
pub const USAGE: &str =
    "usage: pp_bench directory hit|skew|loop|mixed OPS [FRAMES], pp_bench pinned OPS, pp_bench marks OPS [FRAMES], \
    pp_bench moves|pool|book|lives hit|skew|loop|mixed OPS, pp_bench large hit|skew|loop|mixed OPS [FRAMES PAGES BYTES], \
    pp_bench open|memory [FRAMES PAGES BYTES], pp_bench journal|audit LINES, \
    pp_bench segments LINES, or pp_bench write-segments DIR LINES PER_FILE SETTINGS PLAN..";

/// How much may be asked.
pub const LIMITS: &str =
    "OPS is at most 250000, and LINES of a journal 1000000: a plan has at most 1000000 steps, and each operation is \
    four";
