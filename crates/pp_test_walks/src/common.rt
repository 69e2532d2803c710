//! What the walks share: how answers are compared and counted, and how files are read.

use std::alloc::{AllocError, Global};
use std::fmt::Debug;
use std::fs;
use std::rt::Files;

/// Sees that both answer the same.
///
/// # Errors
///
/// An error that tells both answers, where they differ.
pub fn same<T: Copy + PartialEq + Debug>(what: &str, got: T, want: T) -> anyhow::Result<()> {
    if got != want {
        anyhow::bail!("{what}: {got:?}, and plainly {want:?}");
    }
    Ok(())
}

/// The least stamp that is never taken for a page that isn't known.
pub const TOO_GREAT: u64 = 4_611_686_018_427_387_904;

/// How often each kind of what is seen came. A kind is a number.
#[derive(Drop)]
pub struct Tally {
    counts: Vec<u32>,
}

impl Tally {
    /// A tally of so many kinds.
    pub fn new(alloc: Global, kinds: usize) -> Result<Tally, AllocError> {
        let counts = Vec::from_elem(alloc, 0, kinds)?;
        Ok(Tally { counts })
    }

    /// Counts one more of this kind, if there is such a kind.
    pub fn add(&mut self, kind: usize) {
        if let Some(count) = self.counts.get_mut(kind) {
            *count = count.saturating_add(1);
        }
    }

    /// How often the kind came.
    pub fn count(&self, kind: usize) -> u32 {
        self.counts.get(kind).copied().unwrap_or(0)
    }

    /// How many of the kinds from the first on, and below the last, came so often.
    pub fn often(&self, first: usize, last: usize, least: u32) -> u32 {
        let mut kinds: u32 = 0;
        for kind in first..last {
            if self.count(kind) >= least {
                kinds = kinds.saturating_add(1);
            }
        }
        kinds
    }
}

/// The file of this name in the folder.
pub fn text_in<R: Files + AllocGlobal>(rt: &R, folder: &str, name: &str) -> anyhow::Result<String> {
    let path = format!(in rt.alloc(); "{folder}/{name}")?;
    Ok(fs::read_to_string(rt, path.as_str())?)
}
