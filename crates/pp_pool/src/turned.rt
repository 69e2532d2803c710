//! How a turn ends.

/// How a turn of a worker or of the flusher ends.
#[derive(Clone, Copy, Debug, PartialEq, Eq)]
pub enum Turned {
    /// A move was done.
    Done,
    /// The move isn't possible now. Nothing has changed.
    NotNow,
    /// There is nothing to do: no plan waits, or no page can be flushed any more.
    Ended,
    /// Memory ran out before a plan was taken. Nothing has changed.
    NoMemory,
    /// A token doesn't fit, or the plan asks something else: a slip. Or there was no memory for the event of an errand's
    /// answer, which was sent all the same.
    Broken,
}
