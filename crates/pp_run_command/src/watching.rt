//! Showing on a terminal how far a run is.

use crate::progress::{Progress, progress_line};
use std::alloc::Global;
use std::io::Write;
use std::sync::atomic::Ordering;
use std::sync::{Condvar, Mutex, Wait};
use std::time::{Clock, Duration, Instant};

/// For how many milliseconds a run shows nothing: one that is over by then has its report before anybody wonders.
const QUIET: u64 = 2_000;

/// For how many milliseconds a line stands until the next one: long enough to be read, and short enough to show that the
/// run goes on.
const PAUSE: u64 = 500;

/// Whether a run is over, for another thread that waits for it.
#[derive(Drop)]
pub struct Completion {
    is_over: Mutex<bool>,
    changed: Condvar,
}

impl Completion {
    /// The run isn't over.
    pub fn new() -> Completion {
        Completion {
            is_over: Mutex::new(false),
            changed: Condvar::new(),
        }
    }

    /// Tells that the run is over. Who waits for it is woken.
    pub fn signal<R: Wait>(&self, rt: &R) {
        *self.is_over.lock(rt) = true;
        self.changed.notify_all();
    }

    /// Waits until the run is over, but no longer than so many milliseconds, and answers whether it is.
    fn comes_within<R: Wait + Clock>(&self, rt: &R, milliseconds: u64) -> bool {
        let patience = Duration::from_millis(milliseconds);
        let guard = self.is_over.lock(rt);
        let (_guard, waited) = self
            .changed
            .wait_timeout_while(rt, guard, patience, |is_over| !*is_over);
        !waited.timed_out()
    }
}

/// Shows on the terminal how far a run of so many plans is, until it is over: nothing in the first two seconds, and from
/// then on a line every half second, each over the one before. It leaves the line at the end.
///
/// Where no clock can be read nothing is shown. What the terminal doesn't take is lost.
pub fn watch<R: Wait + Clock, T: Write>(
    rt: &R,
    alloc: Global,
    progress: &Progress,
    all: usize,
    completion: &Completion,
    terminal: &mut T,
) {
    if completion.comes_within(rt, QUIET) || Instant::now(rt).is_err() {
        return;
    }
    for _ in rt.forever() {
        show(alloc, progress, all, terminal);
        if completion.comes_within(rt, PAUSE) {
            break;
        }
    }
    show(alloc, progress, all, terminal);
    let _ = terminal.write_all(b"\n");
}

/// Writes the line over the one before.
fn show<T: Write>(alloc: Global, progress: &Progress, all: usize, terminal: &mut T) {
    let plans = progress.plans.load(Ordering::SeqCst);
    let read = progress.read.load(Ordering::SeqCst);
    let written = progress.written.load(Ordering::SeqCst);
    if let Ok(line) = progress_line(alloc, plans, all, read, written) {
        let _ = terminal.write_all(line.as_bytes());
    }
}
