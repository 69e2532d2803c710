//! The files that are explained.

/// A file of a command.
#[derive(Clone, Copy)]
pub struct Source<'a> {
    /// The path that was given for it.
    pub path: &'a str,
    /// Its bytes.
    pub bytes: &'a [u8],
}
