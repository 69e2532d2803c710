//! How workers and the flusher spend the lines of a column that stands for several.

use crate::column::{Doing, Wait, doing_of, wait_of};
use pp_core::Core;
use std::alloc::{AllocError, Global};

/// Behind how many lines of a column a worker is at what. Behind the others it is idle, and waits for nothing.
#[derive(Clone, Copy)]
pub struct Share {
    /// It runs its plan, and can go on.
    pub acts: u64,
    /// A device reads for it.
    pub reads: u64,
    /// A device writes a victim back for it.
    pub writes: u64,
    /// It waits for a latch, or for room.
    pub waits: u64,
    /// It leaves its plan.
    pub leaves: u64,
}

/// What a worker is at, as shares tell it.
#[derive(Clone, Copy, PartialEq, Eq)]
pub(crate) enum Kind {
    Acts,
    Reads,
    Writes,
    Waits,
    Leaves,
}

/// How the workers spend the lines of a column, by their numbers, and behind how many of these a page is being flushed.
#[derive(Drop)]
pub struct Shares {
    pub workers: Vec<Share>,
    pub flushes: u64,
}

impl Share {
    /// Of no lines.
    pub(crate) fn none() -> Share {
        Share {
            acts: 0,
            reads: 0,
            writes: 0,
            waits: 0,
            leaves: 0,
        }
    }

    /// Behind how many lines the worker is at this or at what comes before it in the list of kinds.
    pub(crate) fn up_to(self, kind: Kind) -> u64 {
        let reads = self.acts.saturating_add(self.reads);
        let writes = reads.saturating_add(self.writes);
        let waits = writes.saturating_add(self.waits);
        match kind {
            Kind::Acts => self.acts,
            Kind::Reads => reads,
            Kind::Writes => writes,
            Kind::Waits => waits,
            Kind::Leaves => waits.saturating_add(self.leaves),
        }
    }

    /// Of one line more, behind which the worker is at this.
    fn with(self, doing: Doing, wait: Option<Wait>) -> Share {
        if wait.is_some() {
            return Share {
                waits: one_more(self.waits),
                ..self
            };
        }
        match doing {
            Doing::Idle => self,
            Doing::Acting => Share {
                acts: one_more(self.acts),
                ..self
            },
            Doing::Reading { .. } => Share {
                reads: one_more(self.reads),
                ..self
            },
            Doing::Writing { .. } => Share {
                writes: one_more(self.writes),
                ..self
            },
            Doing::Leaving => Share {
                leaves: one_more(self.leaves),
                ..self
            },
        }
    }
}

/// One line more.
fn one_more(lines: u64) -> u64 {
    lines.saturating_add(1)
}

impl Shares {
    /// Of no lines, of so many workers.
    pub(crate) fn none(alloc: Global, workers: u32) -> Result<Shares, AllocError> {
        Ok(Shares {
            workers: vec![in alloc; Share::none(); workers as usize]?,
            flushes: 0,
        })
    }

    /// Of one line more, behind which the core stands.
    pub(crate) fn note(&mut self, core: &Core) {
        let mut worker = 0_u32;
        for share in self.workers.iter_mut() {
            *share = share.with(doing_of(core, worker), wait_of(core, worker));
            worker = worker.saturating_add(1);
        }
        if core.flushing().is_some() {
            self.flushes = one_more(self.flushes);
        }
    }

    /// These, of a column that is over; the next one has none yet.
    pub(crate) fn taken(&mut self, alloc: Global) -> Result<Shares, AllocError> {
        let next = Shares {
            workers: vec![in alloc; Share::none(); self.workers.len()]?,
            flushes: 0,
        };
        Ok(std::mem::replace(self, next))
    }
}
