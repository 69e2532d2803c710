//! Which pages leave.

/// Which pages leave where many do at once.
#[derive(Clone, Copy)]
pub(crate) enum Leaving {
    /// Those whose key is at least this one, pinned or not.
    From(u32),
    /// Those that stand in frames and aren't pinned.
    Idle,
}
