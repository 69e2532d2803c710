//! The call that runs plans on threads, each with a work of its own.

ghost use Rattle.std.specs.Prelude.{◌≡◌, ◌+◌, vec_len};
ghost use Rattle.pp_settings.specs.declared.span.Span.TheVariants.{Bounded};

use crate::answer::Answer;
use crate::printing::{begin, end};
use crate::runs::{Lot, answer_of, is_ended, lot_of};
use pp_cert::Accepted;
use pp_pool::End;
use pp_report::RunRecord;
use pp_run::{Pool, Query, RunError, StalledQueries, UnbegunQueries, UnrunQueries};
use pp_run_command::Rounds;
use pp_settings::Settings;
use pp_shared::SharedDevice;
use pp_test_plain::samples::SETTINGS;
use std::alloc::{AllocError, Global};
use std::fs::File;
use std::rt::Files;
use std::sync::Wait;
use std::thread::Threads;

/// How many plans are run.
const PLANS: usize = 3;

/// Does the case.
pub fn case<
    R: Files<File = File> + AllocGlobal + Print + Threads + Wait + Sync + Copy + Send + Drop,
>(rt: &R) -> anyhow::Result<()> {
    let settings = Settings::from_text(rt.alloc(), SETTINGS)?;
    for _round in 0..2 {
        let lot = lot_of(rt, &settings)?;
        begin(rt)?;
        let told = ran(rt, &settings, lot);
        if end(rt, &told)? {
            break;
        }
    }
    Ok(())
}

/// What the plans come to.
fn ran<R: Files<File = File> + AllocGlobal + Threads + Wait + Sync + Copy + Send + Drop>(
    rt: &R,
    settings: &Settings,
    lot: Lot<R>,
) -> Answer {
    let Lot {
        plans,
        ends,
        works: _works,
        spare,
        other,
    } = lot;
    let Ok(()) = settings.see_bounded() else {
        return Answer::Nothing;
    };
    if ends.len() != settings.workers() as usize + 1 {
        return Answer::Nothing;
    }
    answer_of(life(rt, settings, plans, ends, spare, other))
}

/// Opens a pool, runs the plans over it, and gives it up. What the run left, and how many pages the pool had changed.
///
/// Where it gives no record, what is left has to go on: a run that wasn't begun is made again, with all that came back; of one that
/// stopped all works came back, it is done to its end by the spare end and the other work, and its pool is renewed.
fn life<R: Files<File = File> + AllocGlobal + Threads + Wait + Sync + Copy + Send + Drop>(
    rt: &R,
    settings: &Settings,
    plans: Vec<Accepted>,
    ends: Vec<SharedDevice<R>>,
    spare: SharedDevice<R>,
    other: Rounds,
) -> Result<(RunRecord, u32), RunError>
    requires bounded { settings.now.span ≡ Bounded }
    requires ends { vec_len ends ≡ settings.now.workers + 1 }
{
    let queries = with_works(rt.alloc(), plans)?;
    let pool = Pool::open(rt.alloc(), settings)?;
    let (error, goes_on) = match pool.run_queries(rt, rt.alloc(), queries, ends) {
        Ok((done, pool, _ends, queries)) => {
            let dirty = pool.close();
            if are_done(&queries) {
                return Ok((done, dirty));
            }
            return Err(RunError::Mismatch(0));
        }
        Err((error, UnrunQueries::Unbegun(unbegun))) => (error, runs_again(rt, unbegun)),
        Err((error, UnrunQueries::Stalled(stopped))) => (error, goes_on(rt, stopped, spare, other)),
    };
    // (an answer that no refused allocation may have)
    if goes_on {
        Err(error)
    } else {
        Err(RunError::Mismatch(0))
    }
}

/// Each plan with a work of its own.
fn with_works(alloc: Global, plans: Vec<Accepted>) -> Result<Vec<(Accepted, Rounds)>, AllocError> {
    let mut queries = Vec::with_capacity(alloc, PLANS)?;
    for plan in plans {
        queries.push((plan, Rounds::new(0, 0)))?;
    }
    Ok(queries)
}

/// Whether all plans were done.
fn are_done(queries: &Vec<Query<Rounds>>) -> bool {
    queries.len() == PLANS && queries.iter().all(|query| query.end == Some(End::Done))
}

/// Whether a run that wasn't begun is made where nothing is refused, and leaves two pages changed at most.
fn runs_again<R: Files<File = File> + AllocGlobal + Threads + Wait + Sync + Copy + Send + Drop>(
    rt: &R,
    unbegun: UnbegunQueries<SharedDevice<R>, Rounds>,
) -> bool {
    let UnbegunQueries {
        pool,
        plans,
        devices,
    } = unbegun;
    if devices.len() != pool.workers() as usize + 1 {
        pool.close();
        return false;
    }
    match pool.run_queries(rt, rt.alloc(), plans, devices) {
        Ok((done, pool, _ends, queries)) => pool.close() == done.dirty && are_done(&queries),
        Err((_error, left)) => {
            left.close();
            false
        }
    }
}

/// Whether all works of a run that stopped came back, and one thread does what is left, so that the pool can be renewed.
fn goes_on<R: AllocGlobal + Wait + Drop>(
    rt: &R,
    stopped: StalledQueries<Rounds>,
    spare: SharedDevice<R>,
    other: Rounds,
) -> bool {
    let StalledQueries { stalled, queries } = stopped;
    is_ended(rt, stalled, spare, other) && queries.len() == PLANS
}
