//! What one thread does: plan after plan, each of which it times.

ghost use Rattle.std.specs.Prelude.{◌≡◌, ◌+◌};

use crate::asked::Load;
use crate::times::Times;
use pp_bench_traces::{FRAMES, Trace};
use pp_buffer_pool::{BufferPool, ExecuteError, OnCopies, Outcome, PreparedPlan};
use pp_device::Device;
use pp_device::image::HEAD;
use pp_pool::Work;
use std::alloc::{AllocError, Global};
use std::sync::Wait;
use std::time::{Clock, Instant};

/// How many bytes of a body a work looks at, from its first one on.
const LOOKED_AT: usize = 8;

/// How many bytes of a page are copied for a work that sees copies.
const SEEN: u32 = 64;

/// A work that asks for the pages of a trace, or for the first one each time.
#[derive(Drop)]
struct Asking {
    trace: Option<Trace>,
    // What was looked at, added up.
    sum: u64,
}

impl Asking {
    /// What this thread of several asks for.
    fn of_thread(load: Load, thread: u32) -> Asking {
        let trace = match load {
            Load::Trace(kind) | Load::Copies(kind) => Some(Trace::of_worker(kind, FRAMES, thread)),
            Load::Hot => None,
        };
        Asking { trace, sum: 0 }
    }
}

impl Work for Asking {
    ghost use Rattle.pp_device.specs.declared.image.TheConstants.{HEAD};
    ghost use Rattle.pp_bench_pool.specs.declared.client.TheConstants.{LOOKED_AT};

    ghost reach_gives = { λ work bytes. bytes ≡ HEAD + LOOKED_AT };

    fn page(&mut self, _region: u8, first: u32, count: u32) -> u32 {
        match &mut self.trace {
            Some(trace) => first + trace.next_page() % count,
            None => first,
        }
    }

    fn branch(&mut self, _count: u16) -> u16 {
        0
    }

    fn reach(&self) -> usize {
        HEAD + LOOKED_AT
    }

    fn change(&mut self, _page: u32, body: &mut [u8]) {
        body[0] = body[0].wrapping_add(1);
    }

    fn see(&mut self, _page: u32, _mark: u64, image: &[u8]) {
        self.sum = self.sum.wrapping_add(u64::from(image[HEAD]));
    }
}

/// The work of a thread, and what it looks at.
#[derive(Drop)]
enum Looking {
    Pages(Asking),
    Copies(OnCopies<Asking>),
}

impl Looking {
    /// What this thread of several looks at.
    fn of_thread(alloc: Global, load: Load, thread: u32) -> Result<Looking, AllocError> {
        let work = Asking::of_thread(load, thread);
        match load {
            Load::Trace(_) | Load::Hot => Ok(Looking::Pages(work)),
            Load::Copies(_) => match OnCopies::new(alloc, work, SEEN) {
                Ok(work) => Ok(Looking::Copies(work)),
                Err((error, _work)) => Err(error),
            },
        }
    }

    /// Runs the plan.
    fn execute<D: Device + Drop, R: Wait>(
        &mut self,
        rt: &R,
        pool: &BufferPool<D>,
        plan: &PreparedPlan,
    ) -> Result<Outcome, ExecuteError> {
        match self {
            Looking::Pages(work) => pool.execute(rt, plan, work),
            Looking::Copies(work) => pool.execute_on_copies(rt, plan, work),
        }
    }
}

/// What a thread has done.
#[derive(Drop)]
pub struct Client {
    /// How many plans were done.
    pub done: u64,
    /// How long each of these took, but for those of which the clock didn't tell.
    pub times: Times,
}

/// Runs so many plans, one after the other.
///
/// # Errors
///
/// Where there is no memory to note so many times. Then no plan was run.
pub fn run<D: Device + Drop, R: Wait + Clock>(
    rt: &R,
    alloc: Global,
    pool: &BufferPool<D>,
    plan: PreparedPlan,
    load: Load,
    thread: u32,
    plans: u64,
) -> Result<Client, AllocError> {
    let mut times = Times::with_room(alloc, plans as usize)?;
    let mut work = Looking::of_thread(alloc, load, thread)?;
    let mut done = 0u64;
    for _ in 0..plans {
        let began = Instant::now(rt);
        if let Ok(Outcome::Done) = work.execute(rt, pool, &plan) {
            if let Ok(began) = began {
                times.note(rt, began);
            }
            done = done.saturating_add(1);
        }
    }
    Ok(Client { done, times })
}
