//! How far a run is, as another thread sees it.

ghost use Rattle.std.specs.Prelude.{◌≡◌, IfOk, string_bytes};
ghost use Rattle.pp_run_command.specs.Showing.{progress_line};

use pp_device::{Device, Fault};
use std::alloc::{AllocError, Global};
use std::marker::Model;
use std::sync::atomic::{AtomicU64, Ordering};

/// What a run counts while it goes on. Counting takes no lock and no memory.
#[derive(Drop)]
pub struct Progress {
    /// How many plans have ended.
    pub plans: AtomicU64,
    /// How many pages were read from the device.
    pub read: AtomicU64,
    /// How many pages were written to the device.
    pub written: AtomicU64,
}

impl Progress {
    /// Nothing was done yet.
    pub fn new() -> Progress {
        Progress {
            plans: AtomicU64::new(0),
            read: AtomicU64::new(0),
            written: AtomicU64::new(0),
        }
    }
}

/// The line of a run of so many plans: how many have ended, and how many pages were read and written, as in
/// `12 of 200 plans, 345 pages read, 67 written`. It begins where the terminal's line begins.
///
/// # Errors
///
/// Only where memory runs out.
pub fn progress_line(
    alloc: Global,
    plans: u64,
    all: usize,
    read: u64,
    written: u64,
) -> Result<String, AllocError>
    ensures { IfOk result (λ text. string_bytes text ≡ progress_line plans all read written) }
{
    Ok(format!(in alloc; "\r{plans} of {all} plans, {read} pages read, {written} written")?)
}

/// An end of a device that counts the pages that it reads and writes.
#[derive(Drop)]
pub struct Counted<'a, D> {
    pub device: D,
    pub progress: &'a Progress,
}

impl<'a, D: Device> Device for Counted<'a, D> {
    ghost calls = { λ d. D.calls d.device };

    ghost failures = { λ d. D.failures d.device };

    ghost read_gives = { λ d page old answer new e. D.read_gives d.device page old answer new e.device };

    ghost write_leaves = { λ d page image answer e. D.write_leaves d.device page image answer e.device };

    fn read(&mut self, page: u32, image: &mut [u8]) -> Result<(), Fault> {
        let answer = self.device.read(page, image);
        if answer.is_ok() {
            self.progress.read.fetch_add(1, Ordering::SeqCst);
        }
        answer
    }

    fn write(&mut self, page: u32, image: &[u8]) -> Result<(), Fault> {
        let answer = self.device.write(page, image);
        if answer.is_ok() {
            self.progress.written.fetch_add(1, Ordering::SeqCst);
        }
        answer
    }
}
