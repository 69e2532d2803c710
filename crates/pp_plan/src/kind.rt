//! The kinds of statements.

/// Which statement a value is. Gather and scatter are version 2's.
#[derive(Clone, Copy, Debug, PartialEq, Eq)]
pub(crate) enum Kind {
    Fix,
    Unfix,
    Latch,
    Unlatch,
    Gather,
    Scatter,
    Loop,
    Choice,
}
