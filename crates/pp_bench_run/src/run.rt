//! A run of a pool on threads, over pages in memory.

ghost use Rattle.std.specs.Prelude.{◌≡◌, ◌≤◌, IfOk, length, vec_len};

use crate::clocked::{Clocked, Span};
use crate::trouble::Trouble;
use crate::words::Asked;
use pp_bench_traces::{PAGES, Trace};
use pp_cert::Accepted;
use pp_model::{Event, Reply};
use pp_run::{Journal, run_once};
use pp_settings::Settings;
use pp_shared::SharedDevice;
use std::alloc::{AllocError, Global};
use std::sync::Wait;
use std::sync::atomic::AtomicU64;
use std::thread::Threads;
use std::time::Clock;

/// What a run was, and how long its operations took.
#[derive(Clone, Copy)]
pub struct Ran {
    /// How many pages had to be read.
    pub misses: usize,
    /// How many operations all workers did.
    pub operations: u64,
    /// How many events there are in these: four for each.
    pub events: u64,
    /// From the begin of the first to the end of the last, in nanoseconds.
    pub nanos: u64,
}

/// Runs a worker for each thread, each with a trace of its own, and as many plans as there are workers.
pub fn run<R: AllocGlobal + Threads + Wait + Clock + Copy + Drop + Sync + Send>(
    rt: R,
    asked: Asked,
) -> Result<Ran, Trouble>
    requires { asked.ops ≤ 250000 }
{
    let alloc = rt.alloc();
    let settings = pp_bench_traces::settings(alloc, asked.workers)?;
    let workers = settings.workers();
    let span = Span::new(&rt)?;
    let plans = plans(alloc, &settings, asked)?;
    let works = works(rt, alloc, &settings, &span, asked)?;
    let page_bytes = settings.page_bytes() as usize;
    let devices = SharedDevice::over_memory(rt, alloc, PAGES, page_bytes, workers as usize + 1)?;
    let finished = AtomicU64::new(0);
    let ran = run_once(&rt, alloc, &settings, plans, devices, works, &finished);
    let (record, _devices) = ran.map_err(Trouble::Failed)?;
    let operations = u64::from(workers) * asked.ops;
    Ok(Ran {
        misses: misses(&record.events),
        operations,
        events: operations.saturating_mul(4),
        nanos: span.nanos(),
    })
}

/// A plan of so many operations for each worker, while the pages are held.
fn plans(alloc: Global, settings: &Settings, asked: Asked) -> Result<Vec<Accepted>, Trouble> {
    let mut plans = Vec::new(alloc);
    for _worker in 0..settings.workers() {
        let accepted = pp_bench_traces::accepted_while_held(
            alloc, settings, asked.held, asked.ops,
        )?;
        plans.push(accepted).map_err(|_| Trouble::Memory)?;
    }
    Ok(plans)
}

/// A work for each worker, with a trace of its own.
fn works<'a, R: Clock + Copy + Drop>(
    rt: R,
    alloc: Global,
    settings: &Settings,
    span: &'a Span,
    asked: Asked,
) -> Result<Vec<Clocked<'a, R>>, AllocError>
    ensures { IfOk result (λ works. vec_len works ≡ settings.now.workers) }
{
    let mut works = Vec::new(alloc);
    for worker in 0..settings.workers() {
        let trace = Trace::of_worker(asked.kind, asked.frames, worker);
        works.push(Clocked::new(rt, span, trace, asked.held, asked.ops))?;
    }
    Ok(works)
}

/// How many of the events are of a page that was read.
fn misses(events: &Journal) -> usize
    ensures { result ≤ length events.now.items }
{
    let mut count = 0;
    for place in 0..events.len() {
        if is_loaded(events.event(place)) {
            count += 1;
        }
    }
    count
}

/// Whether the event is of a page that was read.
fn is_loaded(event: Event) -> bool {
    matches!(
        event,
        Event::Step {
            reply: Reply::Loaded { .. },
            ..
        }
    )
}
