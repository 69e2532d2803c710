//! Runs that give no record.

use pp_locate::Said;
use pp_settings::Settings;
use std::alloc::{AllocError, Global};

/// Why a run gives no record, though it began. Workers are numbered from 0, and the flusher's number is that of the
/// workers.
#[derive(Clone, Copy)]
pub enum Stop {
    /// The log of this worker isn't its part of the journal.
    Mismatch(u32),
    /// A turn of this worker met a slip, or, as the flusher's number, something is left undone.
    Broken(u32),
    /// The thread of this worker wasn't started.
    NoThread(u32),
}

/// What is said of a run under these settings that stops so.
pub(crate) fn stop_said(
    alloc: Global,
    settings: &Settings,
    stop: Stop,
) -> Result<Said, AllocError> {
    Ok(Said::of(stop_text(alloc, settings.workers(), stop)?))
}

/// The same, of a run with so many workers.
fn stop_text(alloc: Global, count: u32, stop: Stop) -> Result<String, AllocError> {
    let (Stop::Mismatch(worker) | Stop::Broken(worker) | Stop::NoThread(worker)) = stop;
    let who = named(alloc, worker, count)?;
    match stop {
        Stop::Mismatch(_) => format!(in alloc;
            "no file is at fault: what {who} did isn't its part of the journal, so there is no report; \
            pages of the device may have changed"
        ),
        Stop::Broken(_) => format!(in alloc;
            "no file is at fault: {who} was broken off or left something undone, so there is no report; \
            pages of the device may have changed"
        ),
        Stop::NoThread(_) => format!(in alloc;
            "the system started no thread for {who}, and workers is {count}: a run takes a thread for each worker, and \
            one for the flusher; with fewer workers it takes fewer"
        ),
    }
}

/// The worker with this number among so many, or the flusher.
fn named(alloc: Global, worker: u32, count: u32) -> Result<String, AllocError> {
    if worker < count {
        return format!(in alloc; "worker {worker}");
    }
    String::from_str(alloc, "the flusher")
}
