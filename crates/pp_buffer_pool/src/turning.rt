//! The turns of one plan.

ghost use Rattle.std.specs.Prelude.{◌≡◌, [], None, Some, true, length};
ghost use Rattle.pp_vault.specs.Stages.{is_chair};
ghost use Rattle.pp_pool.specs.Turns.{IsReach, reach_of};
ghost use Rattle.pp_buffer_pool.specs.Running.{Runs, LoopStops, noted_calls};

use crate::ending::Ending;
use core::mem;
use pp_device::Device;
use pp_pool::{End, Site, Turned, Work, Worker};
use pp_vault::Stage;
use std::sync::Wait;

/// Why a worker stopped.
#[derive(Clone, Copy, Debug, PartialEq, Eq)]
pub(crate) enum Stop {
    /// The plan that it took has ended.
    Ended,
    /// Memory ran out before it took the plan.
    NoMemory,
    /// A slip.
    Broken,
}

/// Takes the site's plan, with an empty log, and makes turns until it has ended. The worker comes back, with why it
/// stopped, and how the plan ended if it has. The work isn't told that end.
pub(crate) fn run<S: Site, D: Device, W: Work, R: Wait>(
    rt: &R,
    worker: Worker<S, D>,
    work: &mut W,
) -> (Worker<S, D>, Stop, Option<End>)
    requires { reach_of worker ≡ None }
    ensures { Runs S.Site D.Device W.Work worker work.old result.1 result.2 result.0 work.new }
{
    mem::replace_with(work, (rt, worker), |work, (rt, worker)| {
        ran(rt, worker, work)
    })
}

/// The same, with the work out of its place.
fn ran<S: Site, D: Device, W: Work, R: Wait>(
    rt: &R,
    worker: Worker<S, D>,
    work: W,
) -> (W, (Worker<S, D>, Stop, Option<End>))
    requires { reach_of worker ≡ None }
    ensures { Runs S.Site D.Device W.Work worker work result.1.1 result.1.2 result.1.0 result.0 }
{
    let mut worker = worker;
    worker.log.clear();
    let mut ending = Ending::over(work);
    let stop = turns_if_idle(rt, &mut worker, &mut ending);
    let Ending { work, end } = ending;
    (work, (worker, stop, end))
}

/// Makes turns until the plan has ended, where the worker is idle. Another is a slip.
fn turns_if_idle<S: Site, D: Device, W: Work, R: Wait>(
    rt: &R,
    worker: &mut Worker<S, D>,
    work: &mut Ending<W>,
) -> Stop
    requires { reach_of worker.old ≡ None }
    ensures { LoopStops S.Site D.Device (noted_calls W.Work) worker.old work.old result worker.new work.new }
{
    if is_idle(&worker.hand.stage) {
        turns(rt, worker, work)
    } else {
        Stop::Broken
    }
}

/// Makes turns until the plan has ended. The next turn is made at once, so the site may keep its lock between two.
fn turns<S: Site, D: Device, W: Work, R: Wait>(
    rt: &R,
    worker: &mut Worker<S, D>,
    work: &mut Ending<W>,
) -> Stop
    requires idle { is_chair worker.old.hand.stage ≡ true }
    requires reach { reach_of worker.old ≡ None }
    ensures { LoopStops S.Site D.Device (noted_calls W.Work) worker.old work.old result worker.new work.new }
{
    for _ in rt.forever() {
        match worker.quick_turns(work) {
            Turned::Done => {
                if is_idle(&worker.hand.stage) {
                    return Stop::Ended;
                }
            }
            Turned::NoMemory => {
                if worker.log.is_empty() {
                    return Stop::NoMemory;
                }
                return Stop::Broken;
            }
            Turned::NotNow | Turned::Ended | Turned::Broken => return Stop::Broken,
        }
    }
    unreachable!()
}

/// Whether the worker is idle.
fn is_idle(stage: &Stage) -> bool
    ensures { result ≡ is_chair stage.now }
{
    matches!(stage, Stage::Idle(_))
}
