//! Whether what the threads give back fits the journal.

ghost use Rattle.std.specs.Prelude.{◌≡◌, ◌≢◌, ◌↔◌, ◌<◌, ◌^◌, true, false, IfOk, IfErr, IfNone, IfSome, OnOk, Err, length};
ghost use Rattle.std.specs.Prelude.{vec_len};
ghost use Rattle.std.specs.List.{list_all};
ghost use Rattle.pp_run.specs.declared.error.RunError.TheVariants as run_errors;
ghost use Rattle.pp_run.specs.declared.stop.Stop.TheVariants.{Broken};
ghost use Rattle.pp_run.specs.Calling.{begun_flushes_in};
ghost use Rattle.pp_run.specs.Ends.{AllSound, FlushSettled, Settled};
ghost use Rattle.pp_run.specs.Verdicts.{is_no_memory, IsFirstBroken, IsStarved, IsUnlike, IsUnsettled, IsVerdict, LeavesAPage};

use crate::comparing::{agreement, is_part};
use crate::counting::{FlushCounts, flush_counts};
use crate::error::RunError;
use crate::stop::{Flushed, Worked};
use pp_pool::Journal;
use std::alloc::Global;

/// What is left of a book when all threads are joined.
#[derive(Clone, Copy, Debug, PartialEq, Eq)]
pub struct Left {
    /// Whether no plan waits or is unfinished, and no flush is in flight.
    pub over: bool,
    /// How many pages are newer than the device's.
    pub dirty: u32,
    /// How many flushes the settings allow.
    pub flushes: u32,
}

/// The devices of the workers, where all that the threads give back fits the journal, and nothing is left undone.
///
/// # Errors
///
/// In this order: want of memory, where something is left undone because every worker stopped for it; the least worker
/// that met a slip; the flusher, where it met one, or left a page that it could have flushed, or anything is left undone;
/// the least worker whose log isn't its part of the journal; the flusher, where its counts aren't the journal's.
pub fn judge<D: Drop>(
    alloc: Global,
    worked: Vec<Worked<D>>,
    flushed: &Flushed<D>,
    events: &Journal,
    left: Left,
) -> Result<Vec<D>, RunError>
    requires { vec_len worked < 2 ^ 32 }
    ensures over { OnOk result (left.over ≡ true) }
    ensures flushed { OnOk result (0 < left.dirty → begun_flushes_in events.now.items ≡ left.flushes) }
    ensures flusher { OnOk result (FlushSettled flushed.now events.now.items) }
    ensures workers { IfOk result (λ back. Settled worked.items events.now.items back.items) }
    ensures error { IfErr result (IsVerdict worked.items flushed.now events.now.items left) }
    ensures starved { IsStarved worked.items left → result ≡ Err run_errors.OutOfMemory }
{
    let flusher = worked.len() as u32;
    if is_starved(worked.as_slice(), left) {
        return Err(RunError::OutOfMemory);
    }
    if let Some(worker) = first_broken(worked.as_slice()) {
        return Err(RunError::Broken(worker));
    }
    let counts = flush_counts(events);
    if is_unsettled(flushed, left, counts) {
        return Err(RunError::Broken(flusher));
    }
    let back = settle(alloc, worked, events)?;
    if !is_counted(flushed, counts) {
        return Err(RunError::Mismatch(flusher));
    }
    Ok(back)
}

/// Whether something is left undone, and every worker stopped for want of memory.
fn is_starved<D>(worked: &[Worked<D>], left: Left) -> bool
    ensures { (result ≡ true) ↔ IsStarved worked.now left }
{
    !left.over && all_without_memory(worked)
}

/// Whether every worker stopped for want of memory.
fn all_without_memory<D>(worked: &[Worked<D>]) -> bool
    ensures { result ≡ list_all (λ x. is_no_memory x.stop) worked.now }
{
    worked.iter().all(|end| end.stop.is_no_memory())
}

/// The least worker that met a slip.
fn first_broken<D>(worked: &[Worked<D>]) -> Option<u32>
    requires { length worked.now < 2 ^ 32 }
    ensures none { IfNone result (AllSound worked.now) }
    ensures some { IfSome result (IsFirstBroken worked.now) }
{
    let mut worker = 0u32;
    for end in worked {
        if end.stop.is_broken() {
            return Some(worker);
        }
        worker += 1;
    }
    None
}

/// Whether a slip ended the flusher, or something is left undone that could have been done.
fn is_unsettled<D>(flushed: &Flushed<D>, left: Left, counts: FlushCounts) -> bool
    ensures { (result ≡ true) ↔ IsUnsettled flushed.now left counts.begun }
{
    flushed.stop.is_broken() || !left.over || leaves_a_page(left, counts)
}

/// Whether the flusher left a page that it could have flushed.
fn leaves_a_page(left: Left, counts: FlushCounts) -> bool
    ensures { (result ≡ true) ↔ LeavesAPage left counts.begun }
{
    left.dirty > 0 && counts.begun != left.flushes as usize
}

/// Whether the flusher's counts are these.
fn is_counted<D>(flushed: &Flushed<D>, counts: FlushCounts) -> bool
    ensures { (result ≡ true) ↔ ((flushed.now.ended ≡ counts.ended) × (flushed.now.failed ≡ counts.failed)) }
{
    flushed.ended == counts.ended as u64 && flushed.failed == counts.failed as u64
}

/// The devices, where each log is its worker's part of the journal.
fn settle<D: Drop>(
    alloc: Global,
    worked: Vec<Worked<D>>,
    events: &Journal,
) -> Result<Vec<D>, RunError>
    requires few { vec_len worked < 2 ^ 32 }
    requires sound { AllSound worked.items }
    ensures ok { IfOk result (λ back. Settled worked.items events.now.items back.items) }
    ensures error { IfErr result (IsUnlike worked.items events.now.items) }
{
    let counts = agreement(worked.as_slice(), events);
    let mut back = Vec::new(alloc);
    let mut worker = 0u32;
    for end in worked {
        let Worked {
            device,
            log,
            stop: _,
        } = end;
        if !is_part(&counts, &log, events, worker) {
            return Err(RunError::Mismatch(worker));
        }
        if back.push(device).is_err() {
            return Err(RunError::OutOfMemory);
        }
        worker += 1;
    }
    Ok(back)
}
