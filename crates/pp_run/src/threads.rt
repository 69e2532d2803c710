//! The threads of a run.

ghost use Rattle.std.specs.Prelude.{◌≡◌, ◌+◌, ◌^◌, ◌<◌, ◌≤◌, IfOk, IfErr, vec_len};
ghost use Rattle.pp_run.specs.Ends.{AllWorkedFrom, FlushedFrom, IsUnstarted};

use crate::desk::Desk;
use crate::error::RunError;
use crate::flushing::flush_on;
use crate::site::LockedSite;
use crate::stop::{Flushed, Worked};
use crate::working::work_on;
use pp_device::Device;
use pp_pool::Work;
use std::alloc::{AllocError, Global};
use std::marker::Model;
use std::snapshot::Snapshot;
use std::sync::Wait;
use std::thread;
use std::thread::{Promise, PromisedHandle, Scope, Threads};

/// What a worker's thread gives back fits the device that it began with.
#[derive(Drop)]
struct WorkPromise<D: Device + Drop>(Snapshot<D>);

impl<D: Device + Drop> Promise<Worked<D>> for WorkPromise<D> {
    ghost use Rattle.pp_run.specs.Ends.{WorkedFrom};

    ghost kept_by = { λ p r. WorkedFrom D.calls D.failures p.0.value r };
}

/// What the flusher's thread gives back fits the device that it began with.
#[derive(Drop)]
struct FlushPromise<D: Device + Drop>(Snapshot<D>);

impl<D: Device + Drop> Promise<Flushed<D>> for FlushPromise<D> {
    ghost use Rattle.pp_run.specs.Ends.{FlushedFrom};

    ghost kept_by = { λ p r. FlushedFrom D.calls D.failures p.0.value r };
}

/// Room for the handles of the workers' threads. It is got before a run begins, so that no run stops for want of it.
///
/// Contracts see for how many workers there is room.
#[derive(Drop)]
pub struct ThreadRoom<D: Device + Drop> {
    handles: Vec<PromisedHandle<Worked<D>, WorkPromise<D>>>,
}

impl<D: Device + Drop> Model for ThreadRoom<D> {
    ghost use Rattle.std.specs.Prelude.{◌≡◌, ℕ, [], vec_capacity};

    ghost Value = { ℕ };

    ghost view = { λ r. vec_capacity r.handles };

    ghost invariant = { λ r. r.handles.items ≡ [] };
}

impl<D: Device + Drop> ThreadRoom<D> {
    /// Room for so many workers.
    pub fn new(alloc: Global, workers: usize) -> Result<ThreadRoom<D>, AllocError>
        ensures { IfOk result (λ room. workers ≤ room) }
    {
        let handles = Vec::with_capacity(alloc, workers)?;
        Ok(ThreadRoom { handles })
    }
}

/// Waits until these threads have ended, and lets go what they give back.
fn join_all<T: Drop, P: Promise<T>, R: Threads>(rt: &R, handles: Vec<PromisedHandle<T, P>>) {
    for handle in handles {
        handle.join(rt);
    }
}

/// Starts a thread for each worker, and joins them all.
///
/// # Errors
///
/// [`RunError::NoThread`] with the first worker whose thread couldn't be started; the threads of the workers before it
/// are joined first. [`RunError::OutOfMemory`] where there is none for what the joined threads gave back.
fn run_workers<
    's,
    E,
    B: Desk + Send,
    D: Device + Drop + Send + 's,
    W: Work + Drop + Send + 's,
    R: Threads + Wait + Sync,
>(
    scope: &Scope<'s, E>,
    site: &LockedSite<'s, B, R>,
    alloc: Global,
    room: ThreadRoom<D>,
    devices: Vec<D>,
    works: Vec<W>,
) -> Result<Vec<Worked<D>>, RunError>
    requires few { vec_len devices < 2 ^ 32 }
    requires room { vec_len devices ≤ room }
    requires works { vec_len works ≡ vec_len devices }
    ensures workers { IfOk result (λ v. AllWorkedFrom D.calls D.failures devices.items v.items) }
    ensures error { IfErr result (IsUnstarted (vec_len devices)) }
{
    let (rt, lock, bells) = (site.rt, site.lock, site.bells);
    let ThreadRoom { mut handles } = room;
    let mut works = works.into_iter();
    let mut worker = 0u32;
    for device in devices {
        let Some(work) = works.next() else {
            unreachable!();
        };
        let promise = WorkPromise(Snapshot::of(&device));
        let number = worker;
        let job = move || {
            let site = LockedSite { rt, lock, bells };
            work_on(site, alloc, number, device, work)
        };
        match scope.spawn_with(promise, job) {
            Ok(handle) => handles.push_reserved(handle),
            Err(_) => {
                join_all(rt, handles);
                return Err(RunError::NoThread(worker));
            }
        }
        worker += 1;
    }
    match thread::join_promised(rt, handles) {
        Ok(all) => Ok(all),
        Err(kept) => {
            join_all(rt, kept.value);
            Err(RunError::OutOfMemory)
        }
    }
}

/// The first thread that wasn't started, where the flusher's wasn't and the workers came to this.
fn first_unstarted<D: Drop>(worked: Result<Vec<Worked<D>>, RunError>, flusher: u32) -> RunError
    requires { IfErr worked (IsUnstarted flusher) }
    ensures { IsUnstarted (flusher + 1) result }
{
    match worked {
        Err(RunError::NoThread(worker)) => RunError::NoThread(worker),
        _ => RunError::NoThread(flusher),
    }
}

/// Starts a thread for each worker and one for the flusher, all over this site, joins the workers, closes the book, and joins
/// the flusher. There is a device and a work for each worker; the flusher's device comes last. Its first flush is sought from this
/// page on.
///
/// # Errors
///
/// [`RunError::NoThread`] with the first worker whose thread couldn't be started, or with the number of the workers where
/// that was the flusher's. [`RunError::OutOfMemory`] where memory runs out for what the threads give back. The workers whose threads were started do the plans, and the book is closed only when all of them have ended.
pub fn run_all<
    B: Desk + Send,
    D: Device + Drop + Send,
    W: Work + Drop + Send,
    R: Threads + Wait + Sync,
>(
    site: LockedSite<'_, B, R>,
    alloc: Global,
    room: ThreadRoom<D>,
    devices: Vec<D>,
    last: D,
    from: u32,
    works: Vec<W>,
) -> Result<(Vec<Worked<D>>, Flushed<D>), RunError>
    requires few { vec_len devices < 2 ^ 32 }
    requires room { vec_len devices ≤ room }
    requires works { vec_len works ≡ vec_len devices }
    ensures workers { IfOk result (λ v. AllWorkedFrom D.calls D.failures devices.items v.0.items) }
    ensures flusher { IfOk result (λ v. FlushedFrom D.calls D.failures last v.1) }
    ensures error { IfErr result (IsUnstarted (vec_len devices + 1)) }
{
    let (rt, lock, bells) = (site.rt, site.lock, site.bells);
    thread::scope(
        thread::scope_env(),
        rt,
        move |scope| -> Result<(Vec<Worked<D>>, Flushed<D>), RunError>
            requires few { vec_len devices < 2 ^ 32 }
            requires room { vec_len devices ≤ room }
            requires works { vec_len works ≡ vec_len devices }
            ensures workers { IfOk result (λ v. AllWorkedFrom D.calls D.failures devices.items v.0.items) }
            ensures flusher { IfOk result (λ v. FlushedFrom D.calls D.failures last v.1) }
            ensures error { IfErr result (IsUnstarted (vec_len devices + 1)) }
        {
            let flusher = devices.len() as u32;
            let promise = FlushPromise(Snapshot::of(&last));
            let job = move || {
                let site = LockedSite { rt, lock, bells };
                flush_on(site, last, from)
            };
            let started = scope.spawn_with(promise, job);
            let site = LockedSite { rt, lock, bells };
            let worked = run_workers(scope, &site, alloc, room, devices, works);
            site.close();
            match started {
                Ok(handle) => {
                    let flushed = handle.join(rt);
                    Ok((worked?, flushed))
                }
                Err(_) => Err(first_unstarted(worked, flusher)),
            }
        },
    )
}
