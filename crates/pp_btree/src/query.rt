//! What is asked of the tree, and what that comes to.

use crate::plans::Job;

/// What is asked of the tree.
#[derive(Clone, Copy, Debug, PartialEq, Eq)]
pub enum Query {
    /// Finds the value of the key.
    Find { key: u64 },
    /// Adds the key, or gives it another value.
    Insert { key: u64, value: u64 },
    /// Gives a key that is there another value.
    Update { key: u64, value: u64 },
    /// Takes a key out.
    Delete { key: u64 },
    /// Counts the keys from one on and below another, and adds them up.
    Scan { from: u64, to: u64 },
}

impl Query {
    /// The key by which the tree is descended.
    pub fn key(self) -> u64 {
        match self {
            Query::Find { key } => key,
            Query::Insert { key, value: _ } => key,
            Query::Update { key, value: _ } => key,
            Query::Delete { key } => key,
            Query::Scan { from, to: _ } => from,
        }
    }

    /// What its first plan is for.
    pub fn job(self) -> Job {
        match self {
            Query::Find { key: _ } => Job::Look,
            Query::Scan { from: _, to: _ } => Job::Scan,
            _ => Job::Write,
        }
    }
}

/// What a query came to.
#[derive(Clone, Copy, Debug, PartialEq, Eq)]
pub enum Answer {
    /// The key is there, with this value.
    Found { value: u64 },
    /// The tree doesn't have the key.
    Missing,
    /// The key was there, and is changed or taken out; or it is added.
    Changed,
    /// How many keys there are, and their sum, which wraps.
    Counted { keys: u64, sum: u64 },
    /// A split wants a page, and none is free; or the root can't grow.
    NoSpace,
}
