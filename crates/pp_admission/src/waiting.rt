//! One that waits.

/// One that waits to start.
#[derive(Clone, Copy, Debug, PartialEq, Eq)]
pub struct Waiting {
    /// The number of its ticket.
    pub ticket: u64,
    /// The most pages that it holds at once.
    pub peak: u64,
    /// How many that came after it have started.
    pub overtaken: u32,
    /// Whether it was refused, and has not been woken since.
    pub is_asleep: bool,
}
