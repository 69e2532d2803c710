//! Running plans over the file of a device.

ghost use Rattle.std.specs.Prelude.{◌≡◌, ◌+◌, IfOk, IfErr, vec_len};
ghost use Rattle.pp_settings.specs.declared.span.Span.TheVariants.{Bounded};
ghost use Rattle.pp_core.specs.Opening.{kept_of};
ghost use Rattle.pp_run.specs.Runs.{IsRun, IsRunError};
ghost use Rattle.pp_run_command.specs.Choices.{new_works};
ghost use Rattle.pp_run_command.specs.Runs.{IsRunCommandError};

use crate::error::RunCommandError;
use crate::progress::{Counted, Progress};
use crate::rounds::Rounds;
use crate::traced::{Choices, Traced};
use crate::watching::{Completion, watch};
use pp_cert::Accepted;
use pp_device::Device;
use pp_judge::Workload;
use pp_pool::Work;
use pp_report::RunRecord;
use pp_run::{RunError, run_once};
use pp_settings::Settings;
use pp_shared::SharedDevice;
use std::alloc::{AllocError, Global};
use std::fs::File;
use std::io::Write;
use std::rt::Files;
use std::sync::Wait;
use std::sync::atomic::AtomicU64;
use std::thread;
use std::thread::Threads;
use std::time::Clock;

/// Runs the plans on threads over the device in the file at the path, and answers what was done. The work of each worker
/// is [`Rounds`] with the seed of the choices, or [`Traced`] where numbers are given.
///
/// Where there is a terminal, a thread beside shows on it how far a run of more than two seconds is: how many plans have
/// ended, and how many pages were read and written. What the terminal doesn't take is lost.
///
/// # Errors
///
/// `Unopened` where the file can't be opened for reading and writing; then, as [`run_once`] has them, `Stopped` and
/// `OutOfMemory`, which may come before.
pub fn run<
    R: Files<File = File> + AllocGlobal + Threads + Wait + Clock + Sync + Copy + Send + Drop,
    T: Write + Send,
>(
    rt: &R,
    workload: Workload,
    device: &str,
    choices: &Choices<'_>,
    terminal: Option<&mut T>,
) -> Result<RunRecord, RunCommandError>
    requires { workload.settings.span ≡ Bounded }
    // What was done is a true journal of these settings and plans, to their end.
    ensures journal { IfOk result (λ done. IsRun (kept_of workload.settings) workload.plans.items done) }
    // A run stops where the pool doesn't take a plan in, or by a thread of its own.
    ensures error { IfErr result (IsRunCommandError (workload.settings, workload.plans.items)) }
{
    let Workload { settings, plans } = workload;
    let alloc = rt.alloc();
    let workers = settings.workers();
    let page_bytes = settings.page_bytes() as usize;
    let ends = SharedDevice::over_file(*rt, alloc, device, page_bytes, workers as usize + 1)?;
    if let Some(trace) = choices.trace {
        let works = traced_works(alloc, choices, trace, workers)?;
        return run_works(rt, &settings, plans, ends, works, terminal);
    }
    let works = works_of(alloc, choices.seed, workers)?;
    run_works(rt, &settings, plans, ends, works, terminal)
}

/// Runs the plans with these works, and shows how far the run is where there is a terminal.
fn run_works<
    R: AllocGlobal + Threads + Wait + Clock + Sync,
    D: Device + Drop + Send,
    W: Work + Drop + Send,
    T: Write + Send,
>(
    rt: &R,
    settings: &Settings,
    plans: Vec<Accepted>,
    ends: Vec<D>,
    works: Vec<W>,
    terminal: Option<&mut T>,
) -> Result<RunRecord, RunCommandError>
    requires bounded { settings.now.span ≡ Bounded }
    requires ends { vec_len ends ≡ settings.now.workers + 1 }
    requires works { vec_len works ≡ settings.now.workers }
    ensures journal { IfOk result (λ done. IsRun (kept_of settings.now) plans.items done) }
    ensures error { IfErr result (IsRunCommandError (settings.now, plans.items)) }
{
    let alloc = rt.alloc();
    if let Some(terminal) = terminal {
        return Ok(run_shown(rt, alloc, settings, plans, ends, works, terminal)?);
    }
    // (nobody looks at it)
    let finished = AtomicU64::new(0);
    let (done, _ends) = run_once(rt, alloc, settings, plans, ends, works, &finished)?;
    Ok(done)
}

/// As [`run_once`], and shows on the terminal how far the run is.
fn run_shown<
    R: Threads + Wait + Clock + Sync,
    D: Device + Drop + Send,
    W: Work + Drop + Send,
    T: Write + Send,
>(
    rt: &R,
    alloc: Global,
    settings: &Settings,
    plans: Vec<Accepted>,
    ends: Vec<D>,
    works: Vec<W>,
    terminal: &mut T,
) -> Result<RunRecord, RunError>
    requires bounded { settings.now.span ≡ Bounded }
    requires ends { vec_len ends ≡ settings.now.workers + 1 }
    requires works { vec_len works ≡ settings.now.workers }
    ensures journal { IfOk result (λ done. IsRun (kept_of settings.now) plans.items done) }
    ensures error { IfErr result (IsRunError (kept_of settings.now) plans.items) }
{
    let all = plans.len();
    let (progress, completion) = (Progress::new(), Completion::new());
    let ends = counted(alloc, ends, &progress)?;
    let (_watched, done) = thread::join(
        rt,
        || watch(rt, alloc, &progress, all, &completion, terminal),
        || -> Result<RunRecord, RunError>
            requires bounded { settings.now.span ≡ Bounded }
            requires ends { vec_len ends ≡ settings.now.workers + 1 }
            requires works { vec_len works ≡ settings.now.workers }
            ensures journal { IfOk result (λ done. IsRun (kept_of settings.entry.now) plans.items done) }
            ensures error { IfErr result (IsRunError (kept_of settings.entry.now) plans.items) }
        {
            let ran = run_once(rt, alloc, settings, plans, ends, works, &progress.plans);
            completion.signal(rt);
            let (done, _ends) = ran?;
            Ok(done)
        },
    );
    done
}

/// The same ends of a device, which count the pages that they read and write.
fn counted<'a, D: Device + Drop>(
    alloc: Global,
    ends: Vec<D>,
    progress: &'a Progress,
) -> Result<Vec<Counted<'a, D>>, AllocError>
    ensures { IfOk result (λ counted. vec_len counted ≡ vec_len ends) }
{
    let mut counted = Vec::with_capacity(alloc, ends.len())?;
    for device in ends {
        counted.push(Counted { device, progress })?;
    }
    Ok(counted)
}

/// The works of so many workers whose choices are given.
fn traced_works<'a>(
    alloc: Global,
    choices: &'a Choices<'_>,
    trace: &'a [Vec<u32>],
    workers: u32,
) -> Result<Vec<Traced<'a>>, AllocError>
    ensures { IfOk result (λ works. vec_len works ≡ workers) }
{
    let mut works = Vec::with_capacity(alloc, workers as usize)?;
    for worker in 0..workers {
        let numbers = match trace.get(worker as usize) {
            Some(numbers) => numbers.as_slice(),
            None => &[],
        };
        works.push(Traced::new(choices.seed, worker, numbers, &choices.missed))?;
    }
    Ok(works)
}

/// The works of so many workers.
fn works_of(alloc: Global, seed: u32, workers: u32) -> Result<Vec<Rounds>, AllocError>
    ensures count { IfOk result (λ works. vec_len works ≡ workers) }
    ensures each { IfOk result (λ works. works.items ≡ new_works seed workers) }
{
    let mut works = Vec::with_capacity(alloc, workers as usize)?;
    for worker in 0..workers {
        works.push(Rounds::new(seed, worker))?;
    }
    Ok(works)
}
