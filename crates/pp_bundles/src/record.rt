//! Records, and the tops of stacks.

/// A page, and the number of the record below it in its stack. The lowest record's `next` means nothing.
#[derive(Clone, Copy)]
pub(crate) struct Record {
    pub(crate) page: u32,
    pub(crate) next: u32,
}

/// The number of a stack's first record, and how many records it has. The `head` of an empty stack means nothing.
#[derive(Clone, Copy)]
pub(crate) struct Top {
    pub(crate) head: u32,
    pub(crate) count: u32,
}
