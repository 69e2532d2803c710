//! The rows of a picture, and what a column shows in each.

use crate::column::{Column, Doing, PageAt, Wait, WorkerAt};

/// A row whose parts begin and end with what a column shows.
#[derive(Clone, Copy)]
pub(crate) enum Row {
    /// The way out of a worker's failed plan.
    WayOut(usize),
    /// The errands of a worker, and what it waits for.
    Errands(usize),
    /// The pages that a worker has latched S.
    Shared(usize),
    /// The pages that a worker has latched X.
    Exclusive(usize),
    /// The flusher.
    Flusher,
    /// A frame.
    Frame(u32),
}

/// What is shown in a row.
#[derive(Clone, Copy, PartialEq, Eq)]
pub(crate) enum Shown {
    /// A worker leaves its plan.
    Leaves,
    /// A device reads the page.
    Reads { page: u32 },
    /// A device writes the victim, whose frame the page gets.
    Writes { page: u32, victim: u32 },
    /// A worker waits.
    Waits(Wait),
    /// A worker has the page latched S.
    Shares { page: u32 },
    /// A worker has the page latched X.
    Changes { page: u32 },
    /// The page is flushed.
    Flushes { page: u32 },
    /// The page stands in the frame.
    Stands(PageAt),
}

impl Shown {
    /// The page that it shows in a frame.
    pub(crate) fn page(self) -> Option<u32> {
        match self {
            Shown::Stands(at) => Some(at.page),
            _ => None,
        }
    }
}

impl Row {
    /// What the column shows in the row.
    pub(crate) fn shown(self, column: &Column) -> Option<Shown> {
        match self {
            Row::WayOut(worker) => match column.workers.get(worker)?.doing {
                Doing::Leaving => Some(Shown::Leaves),
                _ => None,
            },
            Row::Errands(worker) => errand(*column.workers.get(worker)?),
            Row::Shared(worker) => {
                let page = column.workers.get(worker)?.latches.shared?;
                Some(Shown::Shares { page })
            }
            Row::Exclusive(worker) => {
                let page = column.workers.get(worker)?.latches.exclusive?;
                Some(Shown::Changes { page })
            }
            Row::Flusher => {
                let page = column.flushed?;
                Some(Shown::Flushes { page })
            }
            Row::Frame(frame) => page_in(column, frame),
        }
    }
}

/// What a device does for the worker, or what it waits for.
fn errand(at: WorkerAt) -> Option<Shown> {
    match at.doing {
        Doing::Reading { page } => Some(Shown::Reads { page }),
        Doing::Writing { page, victim } => Some(Shown::Writes { page, victim }),
        Doing::Idle | Doing::Acting | Doing::Leaving => {
            let wait = at.wait?;
            Some(Shown::Waits(wait))
        }
    }
}

/// What stands in the frame.
fn page_in(column: &Column, frame: u32) -> Option<Shown> {
    for at in &column.pages {
        if at.frame == frame {
            return Some(Shown::Stands(*at));
        }
    }
    None
}
