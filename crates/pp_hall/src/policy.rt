//! How a hall is served.

/// What the host of a hall decides.
#[derive(Clone, Copy, Debug)]
pub struct Policy {
    /// How many may wait to start at once. With 0 nobody ever starts, since each waits first.
    pub queue: u32,
    /// How many that came later may start before one that waits.
    pub bypass: u32,
    /// How many pages have to be newer than the device's for a flush to be wanted.
    pub flush_from: u32,
    /// Down to how many such pages the flusher goes on, once it is woken.
    pub flush_to: u32,
}
