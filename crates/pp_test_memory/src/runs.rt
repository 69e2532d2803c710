//! The calls that run plans on threads.

ghost use Rattle.std.specs.Prelude.{◌≡◌, ◌+◌, vec_len};
ghost use Rattle.pp_settings.specs.declared.span.Span.TheVariants.{Bounded};

use crate::answer::Answer;
use crate::printing::{begin, end};
use pp_cert::Accepted;
use pp_report::RunRecord;
use pp_run::{Pool, RunError, Stalled, Unbegun, Unrun, run_once};
use pp_run_command::Rounds;
use pp_settings::Settings;
use pp_shared::SharedDevice;
use pp_test_plain::all_accepted;
use pp_test_plain::samples::{SETTINGS, TOUCH, WRITE};
use std::alloc::{AllocError, Global};
use std::fs::File;
use std::rt::Files;
use std::sync::Wait;
use std::sync::atomic::AtomicU64;
use std::thread::Threads;

/// Does the case of this call.
pub fn case<
    R: Files<File = File> + AllocGlobal + Print + Threads + Wait + Sync + Copy + Send + Drop,
>(rt: &R, call: &str) -> anyhow::Result<()> {
    let is_kept = call == "Pool::run";
    let settings = Settings::from_text(rt.alloc(), SETTINGS)?;
    for _round in 0..2 {
        let lot = lot_of(rt, &settings)?;
        begin(rt)?;
        let told = ran(rt, is_kept, &settings, lot);
        if end(rt, &told)? {
            break;
        }
    }
    Ok(())
}

/// What a run takes, for each round its own.
#[derive(Drop)]
pub struct Lot<R: Wait> {
    pub plans: Vec<Accepted>,
    pub ends: Vec<SharedDevice<R>>,
    pub works: Vec<Rounds>,
    /// An end, and a work, that no run gets.
    pub spare: SharedDevice<R>,
    pub other: Rounds,
}

/// What three plans take.
pub fn lot_of<R: Files<File = File> + AllocGlobal + Wait + Copy + Drop>(
    rt: &R,
    settings: &Settings,
) -> anyhow::Result<Lot<R>> {
    let plans = all_accepted(rt.alloc(), settings, &[TOUCH, WRITE, TOUCH])?;
    let workers = settings.workers();
    let mut ends = SharedDevice::over_memory(*rt, rt.alloc(), 24, 64, workers as usize + 2)?;
    let Some(spare) = ends.pop() else {
        anyhow::bail!("there are no ends");
    };
    Ok(Lot {
        plans,
        ends,
        works: works_of(rt.alloc(), workers)?,
        spare,
        other: Rounds::new(0, workers),
    })
}

/// The works of so many workers.
fn works_of(alloc: Global, workers: u32) -> Result<Vec<Rounds>, AllocError> {
    let mut works = Vec::with_capacity(alloc, workers as usize)?;
    for worker in 0..workers {
        works.push(Rounds::new(0, worker))?;
    }
    Ok(works)
}

/// What plans come to that are run, over a pool that is made for them or one that is kept.
fn ran<R: Files<File = File> + AllocGlobal + Threads + Wait + Sync + Copy + Send + Drop>(
    rt: &R,
    is_kept: bool,
    settings: &Settings,
    lot: Lot<R>,
) -> Answer {
    let Lot {
        plans,
        ends,
        works,
        spare,
        other,
    } = lot;
    let Ok(()) = settings.see_bounded() else {
        return Answer::Nothing;
    };
    let workers = settings.workers() as usize;
    if ends.len() != workers + 1 || works.len() != workers {
        return Answer::Nothing;
    }
    let ran = if is_kept {
        life(rt, settings, plans, ends, works, spare, other)
    } else {
        let finished = AtomicU64::new(0);
        match run_once(rt, rt.alloc(), settings, plans, ends, works, &finished) {
            Ok((done, _ends)) => Ok((done, 0)),
            Err(error) => Err(error),
        }
    };
    answer_of(ran)
}

/// What is told of a run: its plans, and how many pages it and then the pool had changed.
pub fn answer_of(ran: Result<(RunRecord, u32), RunError>) -> Answer {
    match ran {
        Ok((done, dirty)) => Answer::Three(
            "plans",
            u64::from(done.plans),
            "dirty",
            u64::from(done.dirty),
            "dirty in the pool",
            u64::from(dirty),
        ),
        Err(error) => Answer::Refused(error.refusal()),
    }
}

/// Opens a pool, runs the plans over it, and gives it up. What the run left, and how many pages the pool had changed.
///
/// Where it gives no record, what is left has to go on: a run that wasn't begun is made again, with all that came back; one that
/// stopped is done to its end by the spare end and the other work, and its pool is renewed.
fn life<R: Files<File = File> + AllocGlobal + Threads + Wait + Sync + Copy + Send + Drop>(
    rt: &R,
    settings: &Settings,
    plans: Vec<Accepted>,
    ends: Vec<SharedDevice<R>>,
    works: Vec<Rounds>,
    spare: SharedDevice<R>,
    other: Rounds,
) -> Result<(RunRecord, u32), RunError>
    requires bounded { settings.now.span ≡ Bounded }
    requires ends { vec_len ends ≡ settings.now.workers + 1 }
    requires works { vec_len works ≡ settings.now.workers }
{
    let pool = Pool::open(rt.alloc(), settings)?;
    let finished = AtomicU64::new(0);
    let (error, goes_on) = match pool.run(rt, rt.alloc(), plans, ends, works, &finished) {
        Ok((done, pool, _ends)) => return Ok((done, pool.close())),
        Err((error, Unrun::Unbegun(unbegun))) => (error, runs_again(rt, unbegun)),
        Err((error, Unrun::Stalled(stalled))) => (error, is_ended(rt, stalled, spare, other)),
    };
    // (an answer that no refused allocation may have)
    if goes_on {
        Err(error)
    } else {
        Err(RunError::Mismatch(0))
    }
}

/// Whether a run that wasn't begun is made where nothing is refused, and leaves two pages changed at most.
fn runs_again<R: Files<File = File> + AllocGlobal + Threads + Wait + Sync + Copy + Send + Drop>(
    rt: &R,
    unbegun: Unbegun<SharedDevice<R>, Rounds>,
) -> bool {
    let Unbegun {
        pool,
        plans,
        devices,
        works,
    } = unbegun;
    let workers = pool.workers() as usize;
    if devices.len() != workers + 1 || works.len() != workers {
        pool.close();
        return false;
    }
    let finished = AtomicU64::new(0);
    match pool.run(rt, rt.alloc(), plans, devices, works, &finished) {
        Ok((done, pool, _ends)) => pool.close() == done.dirty && done.plans == 3,
        Err((_error, left)) => {
            left.close();
            false
        }
    }
}

/// Whether one thread does what is left of a run that stopped, so that the pool can be renewed.
pub fn is_ended<R: AllocGlobal + Wait + Drop>(
    rt: &R,
    stalled: Stalled,
    spare: SharedDevice<R>,
    other: Rounds,
) -> bool {
    let mut other = other;
    let (stalled, spare) = stalled.flush(spare);
    let (stalled, spare) = stalled.drain(rt.alloc(), spare, &mut other);
    let (stalled, _spare) = stalled.flush(spare);
    let plans = stalled.book.next_possible().is_none();
    match stalled.renew(rt.alloc()) {
        Ok((_journal, pool)) => pool.close() == 0 && plans,
        Err((_error, stalled)) => {
            stalled.close();
            false
        }
    }
}
