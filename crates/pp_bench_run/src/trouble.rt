//! What this program says where it gives no times.

use pp_run::RunError;

/// Why a run gave no times: the pool's run may have failed, too.
pub type Trouble = pp_bench_traces::Trouble<RunError>;

/// What the words of the command line are.
pub const USAGE: &str =
    "usage: pp_bench_run [WORKERS] hit|skew|loop|mixed OPS, with 1 to 32 workers, or held PAGES OPS";

/// How much may be asked.
pub const LIMITS: &str = "OPS is at most 250000, since a journal has at most 4000000 events";
