//! The modes of a latch.

/// The mode of a latch on a page: shared, for readers, or exclusive, for one writer.
///
/// S goes with S, and X goes with nothing (Gray and Reuter, *Transaction Processing*, chapter 13).
#[derive(Clone, Copy, Debug, PartialEq, Eq)]
pub enum Mode {
    S,
    X,
}
