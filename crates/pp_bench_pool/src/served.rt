//! A pool that stands, and the threads that run plans on it.

use crate::asked::{Asked, Load};
use crate::client::{self, Client};
use crate::times::Times;
use pp_annotate::annotate;
use pp_bench_traces::{FRAMES, PAGES};
use pp_buffer_pool::{BufferPool, CloseError, OpenError, Policy, PreparedPlan};
use pp_cert::{Accepted, check};
use pp_device::Device;
use pp_plan::Plan;
use pp_settings::Settings;
use pp_shared::SharedDevice;
use std::alloc::{AllocError, Global};
use std::sync::Wait;
use std::thread::{self, Threads};
use std::time::{Clock, Instant};

/// Why nothing was measured.
pub type Trouble = pp_bench_traces::Trouble<CloseError>;

/// How many bytes a page has.
const PAGE_BYTES: usize = 4096;

/// Who may wait to start, and when the flusher would write. No page is changed but the hot one.
const POLICY: Policy = Policy {
    queue: 64,
    bypass: 0,
    flush_from: 2,
    flush_to: 1,
};

/// What was served, and how long it took.
#[derive(Clone, Copy)]
pub struct Served {
    /// How many plans were done.
    pub plans: u64,
    /// How many pages these have fixed.
    pub pages: u64,
    /// From the start of the first thread to the end of the last one, in nanoseconds.
    pub nanos: u64,
    /// Half of the plans took no longer, in nanoseconds.
    pub half: u64,
    /// 99 of 100 took no longer, in nanoseconds.
    pub most_of_them: u64,
    /// None took longer, in nanoseconds.
    pub longest: u64,
}

/// Has the threads run their plans on one pool.
///
/// # Errors
///
/// [`Trouble::Memory`] and [`Trouble::Refused`]; [`Trouble::Io`] where the clock can't be read when the threads start or
/// end; and [`Trouble::Failed`] where the pool isn't closed.
pub fn serve<R: AllocGlobal + Threads + Wait + Clock + Copy + Drop + Sync + Send>(
    rt: R,
    asked: Asked,
) -> Result<Served, Trouble> {
    let alloc = rt.alloc();
    let settings = settings(alloc, asked.threads)?;
    let accepted = accepted(alloc, &settings, asked)?;
    let pool = opened(rt, alloc, &settings)?;
    let prepared = pool.prepare(&rt, accepted);
    let clients = match prepared {
        Ok(plan) => clients(&rt, alloc, &pool, plan, asked),
        Err((_accepted, _error)) => Err(Trouble::Refused),
    };
    match pool.close() {
        Ok(_closed) => {}
        Err((error, pool)) => {
            let (_devices, _dirty) = pool.abandon();
            return Err(Trouble::Failed(error));
        }
    }
    let (clients, nanos) = clients?;
    Ok(summed(alloc, clients, nanos, asked.pages)?)
}

/// Settings of a pool whose life is endless: 4,096 frames, a region of all page numbers of version 1, and a chair for
/// each thread.
fn settings(alloc: Global, threads: u32) -> Result<Settings, Trouble> {
    let text = format!(in alloc;
        "version = 2
frames = {FRAMES}
page_bytes = {PAGE_BYTES}
workers = {threads}
waiting = 1
flushes = 1000000
[[region]]
name = \"all\"
first = 0
count = {PAGES}
class = 0
"
    )?;
    Settings::from_text(alloc, text.as_str()).map_err(|_| Trouble::Refused)
}

/// The plan that all threads run.
fn accepted(alloc: Global, settings: &Settings, asked: Asked) -> Result<Accepted, Trouble> {
    let mode = match asked.load {
        Load::Trace(_) | Load::Copies(_) => "S",
        Load::Hot => "X",
    };
    let turns = asked.pages;
    let text = format!(in alloc;
        "{{\"body\":[{{\"body\":[{{\"fix\":\"a\",\"region\":\"all\"}},{{\"latch\":\"a\",\"mode\":\"{mode}\"}},\
         {{\"unlatch\":\"a\"}},{{\"unfix\":\"a\"}}],\"loop\":{turns}}}],\"version\":1}}"
    )?;
    let plan = Plan::from_text(alloc, settings, text.as_str()).map_err(|_| Trouble::Refused)?;
    let certificate = annotate(alloc, settings, &plan).map_err(|_| Trouble::Refused)?;
    check(settings, plan, &certificate).map_err(|_| Trouble::Refused)
}

/// The pool, over pages in memory.
fn opened<R: AllocGlobal + Wait + Copy + Drop>(
    rt: R,
    alloc: Global,
    settings: &Settings,
) -> Result<BufferPool<SharedDevice<R>>, Trouble> {
    let ends = settings.workers() as usize + 1;
    let devices = SharedDevice::over_memory(rt, alloc, PAGES, PAGE_BYTES, ends)?;
    match BufferPool::open(alloc, settings, POLICY, devices) {
        Ok(pool) => Ok(pool),
        Err((OpenError::Hall(pp_hall::OpenError::OutOfMemory), _devices)) => Err(Trouble::Memory),
        Err((_error, _devices)) => Err(Trouble::Refused),
    }
}

/// Has the threads run their plans, and tells in how many nanoseconds.
fn clients<D: Device + Drop + Send, R: Threads + Wait + Clock + Sync>(
    rt: &R,
    alloc: Global,
    pool: &BufferPool<D>,
    plan: PreparedPlan,
    asked: Asked,
) -> Result<(Vec<Result<Client, AllocError>>, u64), Trouble> {
    let began = Instant::now(rt)?;
    let clients = thread::map_indices(
        rt,
        alloc,
        asked.threads as usize,
        &|thread| client::run(
            rt,
            alloc,
            pool,
            plan,
            asked.load,
            thread as u32,
            asked.plans,
        ),
    )?;
    let spent = began.elapsed(rt)?;
    Ok((clients, u64::try_from(spent.as_nanos()).unwrap_or(u64::MAX)))
}

/// What all threads have done together.
fn summed(
    alloc: Global,
    clients: Vec<Result<Client, AllocError>>,
    nanos: u64,
    pages: u32,
) -> Result<Served, AllocError> {
    let mut times = Times::with_room(alloc, 0)?;
    let mut plans = 0u64;
    for client in clients {
        let client = client?;
        plans = plans.saturating_add(client.done);
        times.add(&client.times)?;
    }
    times.sort();
    Ok(Served {
        plans,
        pages: plans.saturating_mul(u64::from(pages)),
        nanos,
        half: times.at(50),
        most_of_them: times.at(1),
        longest: times.at(0),
    })
}
