//! The calls that open a pool that stands, with a lock and without, and the one that runs a plan on it.

use crate::answer::Answer;
use crate::printing::twice;
use crate::samples::settings_of;
use crate::tried::Tried;
use pp_buffer_pool::{BufferPool, OnCopies, OpenError, Outcome, Policy, PreparedPlan};
use pp_hall::{Closed, Hall};
use pp_run_command::Rounds;
use pp_settings::Settings;
use pp_shared::SharedDevice;
use pp_test_plain::accepted;
use pp_test_plain::samples::WRITE;
use std::alloc::Global;
use std::fs::File;
use std::rt::Files;
use std::sync::Wait;

/// What the host of each pool decides.
const POLICY: Policy = Policy {
    queue: 4,
    bypass: 1,
    flush_from: 2,
    flush_to: 0,
};

/// How many bytes of a page are copied for a work.
const COPIED: u32 = 512;

/// Does the case of this call.
pub fn case<R: Files<File = File> + AllocGlobal + Print + Wait + Copy + Drop>(
    rt: &R,
    call: &str,
) -> anyhow::Result<()> {
    let settings = settings_of(rt.alloc(), "endless")?;
    let ends = SharedDevice::over_memory(
        *rt,
        rt.alloc(),
        24,
        512,
        settings.workers() as usize + 1,
    )?;
    match call {
        "BufferPool::execute" => executes(rt, &settings, ends),
        "BufferPool::checkpoint" => checkpoints(rt, &settings, ends),
        "OnCopies::new" => {
            let mut copying = Copying {
                alloc: rt.alloc(),
                work: Some(Rounds::new(0, 0)),
            };
            twice(rt, &mut copying)
        }
        "Hall::open" | "BufferPool::open" => {
            let mut opening = Opening {
                alloc: rt.alloc(),
                has_lock: call == "BufferPool::open",
                settings,
                ends: Some(ends),
            };
            twice(rt, &mut opening)
        }
        _ => anyhow::bail!("there is no such call"),
    }
}

/// What a pool is opened with, or a hall, which is one without its lock.
#[derive(Drop)]
struct Opening<R: Wait> {
    alloc: Global,
    has_lock: bool,
    settings: Settings,
    ends: Option<Vec<SharedDevice<R>>>,
}

impl<R: Wait + Drop> Tried for Opening<R> {
    type Told = Answer;

    fn call(&mut self) -> Answer {
        let Some(ends) = self.ends.take() else {
            return Answer::Nothing;
        };
        let opened = if self.has_lock {
            pool(self.alloc, &self.settings, ends)
        } else {
            hall(self.alloc, &self.settings, ends)
        };
        match opened {
            Ok(answer) => answer,
            Err((error, ends)) => {
                self.ends = Some(ends);
                Answer::Failed(anyhow::Error::from(error))
            }
        }
    }
}

/// Opens a hall and closes it.
fn hall<R: Wait + Drop>(
    alloc: Global,
    settings: &Settings,
    ends: Vec<SharedDevice<R>>,
) -> Result<Answer, (OpenError, Vec<SharedDevice<R>>)> {
    let hall = match Hall::open(alloc, settings, POLICY, ends) {
        Ok(hall) => hall,
        Err((fault, ends)) => return Err((OpenError::Hall(fault), ends)),
    };
    match hall.close() {
        Ok(closed) => Ok(of_closed(closed)),
        Err((_error, hall)) => {
            hall.abandon();
            Ok(Answer::Nothing)
        }
    }
}

/// Opens a pool and closes it.
fn pool<R: Wait + Drop>(
    alloc: Global,
    settings: &Settings,
    ends: Vec<SharedDevice<R>>,
) -> Result<Answer, (OpenError, Vec<SharedDevice<R>>)> {
    let pool = BufferPool::open(alloc, settings, POLICY, ends)?;
    match pool.close() {
        Ok(closed) => Ok(of_closed(closed)),
        Err((_error, pool)) => {
            pool.abandon();
            Ok(Answer::Nothing)
        }
    }
}

/// What is left of a pool.
fn of_closed<R: Wait + Drop>(closed: Closed<SharedDevice<R>>) -> Answer {
    let Closed { devices, stats } = closed;
    Answer::Two(
        "devices",
        devices.len() as u64,
        "chairs",
        stats.chairs as u64,
    )
}

/// A work that is to see copies.
#[derive(Drop)]
struct Copying {
    alloc: Global,
    work: Option<Rounds>,
}

impl Tried for Copying {
    type Told = Answer;

    fn call(&mut self) -> Answer {
        let Some(work) = self.work.take() else {
            return Answer::Nothing;
        };
        match OnCopies::new(self.alloc, work, COPIED) {
            Ok(copies) => {
                self.work = Some(copies.into_work());
                Answer::One("bytes", u64::from(COPIED))
            }
            Err((error, work)) => {
                self.work = Some(work);
                Answer::Lacking(error)
            }
        }
    }
}

/// A pool, a plan that it keeps, and the work of that plan.
struct Executing<R: Wait> {
    rt: R,
    pool: BufferPool<SharedDevice<R>>,
    plan: PreparedPlan,
    work: Rounds,
}

impl<R: Wait + Drop> Tried for Executing<R> {
    type Told = Answer;

    fn stand(&self) -> Option<Answer> {
        Some(self.told())
    }

    fn call(&mut self) -> Answer {
        match self.pool.execute(&self.rt, &self.plan, &mut self.work) {
            Ok(Outcome::Done) => self.told(),
            Ok(Outcome::Gone { .. }) => Answer::Nothing,
            Err(error) => Answer::Failed(anyhow::Error::from(error)),
        }
    }
}

impl<R: Wait + Drop> Executing<R> {
    fn told(&self) -> Answer {
        let stats = self.pool.stats(&self.rt);
        Answer::Three(
            "done",
            stats.counts.done,
            "dirty",
            u64::from(stats.dirty),
            "chairs",
            stats.chairs as u64,
        )
    }
}

/// A plan is run that changes a page, and then the pool is closed.
fn executes<R: AllocGlobal + Print + Wait + Copy + Drop>(
    rt: &R,
    settings: &Settings,
    ends: Vec<SharedDevice<R>>,
) -> anyhow::Result<()> {
    let plan = accepted(rt.alloc(), settings, WRITE)?;
    let pool = match BufferPool::open(rt.alloc(), settings, POLICY, ends) {
        Ok(pool) => pool,
        Err((error, _ends)) => return Err(anyhow::Error::from(error)),
    };
    let plan = match pool.prepare(rt, plan) {
        Ok(plan) => plan,
        Err((_plan, error)) => {
            pool.abandon();
            return Err(anyhow::Error::from(error));
        }
    };
    let mut executing = Executing {
        rt: *rt,
        pool,
        plan,
        work: Rounds::new(0, 0),
    };
    let done = twice(rt, &mut executing);
    let Executing {
        rt: _rt,
        pool,
        plan: _plan,
        work: _work,
    } = executing;
    let flushes = flushes_at_close(pool);
    done?;
    println!(rt; "flushes {flushes}")?;
    Ok(())
}

/// A pool that has a changed page, and an end to be synced.
struct Checkpointing<R: Wait> {
    rt: R,
    alloc: Global,
    pool: BufferPool<SharedDevice<R>>,
    end: SharedDevice<R>,
}

impl<R: Wait + Drop> Tried for Checkpointing<R> {
    type Told = Answer;

    fn stand(&self) -> Option<Answer> {
        Some(self.told())
    }

    fn call(&mut self) -> Answer {
        match self.pool.checkpoint(&self.rt, self.alloc, &mut self.end) {
            Ok(()) => self.told(),
            Err(error) => Answer::Failed(anyhow::Error::from(error)),
        }
    }
}

impl<R: Wait + Drop> Checkpointing<R> {
    fn told(&self) -> Answer {
        let stats = self.pool.stats(&self.rt);
        Answer::Two(
            "flushes",
            stats.counts.flushes,
            "dirty",
            u64::from(stats.dirty),
        )
    }
}

/// A plan is run that changes a page, then comes a checkpoint, and then the pool is closed.
fn checkpoints<R: AllocGlobal + Print + Wait + Copy + Drop>(
    rt: &R,
    settings: &Settings,
    ends: Vec<SharedDevice<R>>,
) -> anyhow::Result<()> {
    let end = SharedDevice::over_memory(*rt, rt.alloc(), 1, 512, 1)?.pop();
    let Some(end) = end else {
        anyhow::bail!("there is no end");
    };
    let plan = accepted(rt.alloc(), settings, WRITE)?;
    let pool = match BufferPool::open(rt.alloc(), settings, POLICY, ends) {
        Ok(pool) => pool,
        Err((error, _ends)) => return Err(anyhow::Error::from(error)),
    };
    let plan = match pool.prepare(rt, plan) {
        Ok(plan) => plan,
        Err((_plan, error)) => {
            pool.abandon();
            return Err(anyhow::Error::from(error));
        }
    };
    let ran = pool.execute(rt, &plan, &mut Rounds::new(0, 0));
    let mut checkpointing = Checkpointing {
        rt: *rt,
        alloc: rt.alloc(),
        pool,
        end,
    };
    let done = twice(rt, &mut checkpointing);
    let Checkpointing {
        rt: _rt,
        alloc: _alloc,
        pool,
        end: _end,
    } = checkpointing;
    let flushes = flushes_at_close(pool);
    ran?;
    done?;
    println!(rt; "flushes {flushes}")?;
    Ok(())
}

/// How often the pool has flushed once it is closed; none where it can't be.
fn flushes_at_close<R: Wait + Drop>(pool: BufferPool<SharedDevice<R>>) -> u64 {
    match pool.close() {
        Ok(closed) => closed.stats.counts.flushes,
        Err((_error, pool)) => {
            pool.abandon();
            0
        }
    }
}
