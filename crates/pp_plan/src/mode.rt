//! The modes of a latch.

/// How a page is latched: shared by readers, or exclusive for one writer.
///
/// S goes with S; X goes with nothing (Gray and Reuter, Transaction Processing, chapter 13).
#[derive(Clone, Copy, Debug, PartialEq, Eq)]
pub enum Mode {
    /// Shared.
    S,
    /// Exclusive.
    X,
}
