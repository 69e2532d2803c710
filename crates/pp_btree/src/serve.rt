//! Threads of the program's own answer queries on a pool that stands.

use crate::client::Client;
use crate::plans::{Job, plan_for};
use crate::regions::CHAIRS;
use pp_buffer_pool::{BufferPool, Flush, PreparedPlan};
use pp_device::Device;
use pp_settings::Settings;
use std::alloc::{AllocError, Global};
use std::sync::{Mutex, Wait};
use std::thread::{self, Threads};

/// How many plans a query is given at most. One wants a few, and one more each time that a device fails.
const TRIES: u32 = 10_000;

/// How often a page is written at most before all are found written.
const WRITINGS: u32 = 100_000;

/// The plans of all jobs, which are prepared once.
#[derive(Clone, Copy)]
pub struct Plans {
    look: PreparedPlan,
    write: PreparedPlan,
    split: PreparedPlan,
    grow: PreparedPlan,
    scan: PreparedPlan,
}

impl Plans {
    /// Has the pool prepare a plan for each job.
    ///
    /// # Errors
    ///
    /// Where the pool keeps no further plan, and where memory runs out.
    pub fn prepare<D: Device + Drop, R: Wait>(
        rt: &R,
        alloc: Global,
        settings: &Settings,
        pool: &BufferPool<D>,
    ) -> anyhow::Result<Plans> {
        Ok(Plans {
            look: prepared(rt, alloc, settings, pool, Job::Look)?,
            write: prepared(rt, alloc, settings, pool, Job::Write)?,
            split: prepared(rt, alloc, settings, pool, Job::Split)?,
            grow: prepared(rt, alloc, settings, pool, Job::Grow)?,
            scan: prepared(rt, alloc, settings, pool, Job::Scan)?,
        })
    }

    /// The job's plan.
    pub fn of(&self, job: Job) -> &PreparedPlan {
        match job {
            Job::Look => &self.look,
            Job::Write => &self.write,
            Job::Split => &self.split,
            Job::Grow => &self.grow,
            Job::Scan => &self.scan,
        }
    }
}

/// The job's plan, which the pool keeps from now on.
fn prepared<D: Device + Drop, R: Wait>(
    rt: &R,
    alloc: Global,
    settings: &Settings,
    pool: &BufferPool<D>,
    job: Job,
) -> anyhow::Result<PreparedPlan> {
    match pool.prepare(rt, plan_for(alloc, settings, job)?) {
        Ok(plan) => Ok(plan),
        Err((_plan, error)) => Err(anyhow::Error::from(error)),
    }
}

/// What becomes of a query whose plan was left.
#[derive(Clone, Copy, Debug, PartialEq, Eq)]
pub enum OnceLeft {
    /// A further plan is run for it.
    AskAgain,
    /// It isn't answered.
    GiveUp,
}

/// Queries that wait for a thread, those that are answered, and those that were given up.
#[derive(Drop)]
pub struct Desk {
    waiting: Vec<Client>,
    /// Those that are answered, in no order that is promised.
    pub answered: Vec<Client>,
    /// Those that were given up once a plan of theirs was left.
    pub given_up: Vec<Client>,
}

impl Desk {
    /// Nothing is answered yet. There is room for all answers.
    fn new(alloc: Global, waiting: Vec<Client>) -> Result<Desk, AllocError> {
        Ok(Desk {
            answered: Vec::with_capacity(alloc, waiting.len())?,
            given_up: Vec::with_capacity(alloc, waiting.len())?,
            waiting,
        })
    }

    /// Takes a query back.
    fn take(&mut self, client: Client) -> Result<(), AllocError> {
        if client.answer().is_some() {
            self.answered.push(client)?;
        } else {
            self.given_up.push(client)?;
        }
        Ok(())
    }
}

/// Runs the query's plans until it is answered, or given up.
///
/// # Errors
///
/// Where the pool doesn't run a plan, and where so many plans don't answer the query.
fn answer<D: Device + Drop, R: Wait>(
    rt: &R,
    pool: &BufferPool<D>,
    plans: &Plans,
    client: &mut Client,
    once_left: OnceLeft,
) -> anyhow::Result<()> {
    for _ in 0..TRIES {
        pool.execute(rt, plans.of(client.job()), client)?;
        if client.answer().is_some() || (client.left() > 0 && once_left == OnceLeft::GiveUp) {
            return Ok(());
        }
    }
    anyhow::bail!("a query isn't answered by all its plans")
}

/// What a thread does: it answers one query after another, until none waits.
fn serve<D: Device + Drop, R: Wait>(
    rt: &R,
    pool: &BufferPool<D>,
    plans: &Plans,
    desk: &Mutex<Desk>,
    once_left: OnceLeft,
) -> anyhow::Result<()> {
    for _ in rt.forever() {
        let next = desk.lock(rt).waiting.pop();
        let Some(mut client) = next else {
            return Ok(());
        };
        answer(rt, pool, plans, &mut client, once_left)?;
        desk.lock(rt).take(client)?;
    }
    unreachable!()
}

/// Has four threads answer the queries, and then writes all that they have changed.
///
/// # Errors
///
/// Where a query can't be answered, changed pages can't be written, or memory runs out. What was answered by then is
/// done all the same.
pub fn answer_all<D: Device + Drop + Send, R: Threads + Wait + Sync>(
    rt: &R,
    alloc: Global,
    pool: &BufferPool<D>,
    plans: &Plans,
    clients: Vec<Client>,
    once_left: OnceLeft,
) -> anyhow::Result<Desk> {
    let desk = Mutex::new(Desk::new(alloc, clients)?);
    let ended = thread::map_indices(
        rt,
        alloc,
        CHAIRS,
        &|_thread| serve(rt, pool, plans, &desk, once_left),
    )?;
    for end in ended {
        end?;
    }
    write_all(rt, pool)?;
    Ok(desk.into_inner())
}

/// Writes all changed pages to the device, while no thread runs a plan. A writing that fails is made again.
///
/// # Errors
///
/// Where so many writings don't do, no flush of the settings is left, or another thread flushes.
fn write_all<D: Device + Drop, R: Wait>(rt: &R, pool: &BufferPool<D>) -> anyhow::Result<()> {
    for _ in 0..WRITINGS {
        match pool.flush_once(rt) {
            Flush::Written | Flush::WriteFault => {}
            Flush::Nothing => return Ok(()),
            Flush::Spent => anyhow::bail!("no flush is left, and pages are still changed"),
            Flush::Busy => anyhow::bail!("another thread flushes"),
            Flush::Broken => anyhow::bail!("a flush met a slip"),
        }
    }
    anyhow::bail!("pages are still changed after all writings")
}
