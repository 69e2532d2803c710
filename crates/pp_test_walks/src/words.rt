//! Plans as plain statements.

use pp_cert::Held;

/// A statement. Slots and regions are numbers.
#[derive(Clone, Copy)]
pub enum Word {
    Fix(u32, u8),
    Unfix(u32),
    Latch(u32, Held),
    Unlatch(u32),
    Gather(u32, u8),
    Scatter(u32),
    /// The branches, each with all that is left to do once it is chosen.
    Choice(&'static [&'static [Word]]),
}

/// A plan: its greatest number of pins at once, and its statements, where each loop is written out.
#[derive(Clone, Copy)]
pub struct Plan<'a> {
    pub peak: u32,
    pub words: &'a [Word],
}
