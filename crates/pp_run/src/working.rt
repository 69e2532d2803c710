//! What the thread of a worker runs.

ghost use Rattle.std.specs.Prelude.{◌≡◌, [], true, false, Some};
ghost use Rattle.pp_vault.specs.Stages.{is_chair, stage_worker};
ghost use Rattle.pp_pool.specs.Turns.{IsReach, reach_of};
ghost use Rattle.pp_run.specs.Ends.{CountsBy, Unless, WorkedFrom};
ghost use Rattle.pp_run.specs.Counted.{IsAtWork};

use crate::desk::Desk;
use crate::holding::WorkerSite;
use crate::site::LockedSite;
use crate::stop::{Stop, Worked};
use pp_device::Device;
use pp_pool::{Journal, Turned, Work, Worker};
use pp_vault::Stage;
use std::alloc::Global;
use std::sync::Wait;

/// Takes the worker's tokens, turns until there is nothing more to do, and puts the tokens back.
pub(crate) fn work_on<'a, B: Desk, D: Device, W: Work + Drop, R: Wait>(
    site: LockedSite<'a, B, R>,
    alloc: Global,
    number: u32,
    device: D,
    work: W,
) -> Worked<D>
    ensures { WorkedFrom D.calls D.failures device result }
{
    let Some(hand) = site.part(number) else {
        return broken(alloc, device);
    };
    if !is_idle(&hand.stage) {
        site.put_back(hand);
        return broken(alloc, device);
    }
    let rt = site.rt;
    let (layout, page_bytes) = site.pages();
    let site = WorkerSite::over(site);
    let mut worker = Worker::over(alloc, site, device, hand, layout, page_bytes);
    let mut work = work;
    let stop = turns(rt, &mut worker, &mut work);
    let (site, device, hand, log) = worker.end();
    let site = site.end();
    site.put_back(hand);
    Worked { device, log, stop }
}

/// Turns until there is nothing more to do. The next turn is made at once, so the site may keep its lock between two.
fn turns<'a, B: Desk, D: Device, W: Work, R: Wait>(
    rt: &R,
    worker: &mut Worker<WorkerSite<'a, B, R>, D>,
    work: &mut W,
) -> Stop
    requires at_work { IsAtWork worker.old.hand.stage }
    requires reach { IsReach W.Work (reach_of worker.old) work.old }
    ensures { Unless result (CountsBy D.calls D.failures worker.old.device worker.old.log.items worker.new.device
        worker.new.log.items) }
{
    for _ in rt.forever() {
        match worker.quick_turns(work) {
            Turned::Done => {}
            Turned::NoMemory => return Stop::NoMemory,
            Turned::Ended => {
                if is_idle(&worker.hand.stage) {
                    return Stop::Ended;
                }
                return Stop::Broken;
            }
            Turned::NotNow | Turned::Broken => return Stop::Broken,
        }
    }
    unreachable!()
}

/// What a thread gives back that found no chair.
fn broken<D: Device>(alloc: Global, device: D) -> Worked<D>
    ensures { WorkedFrom D.calls D.failures device result }
{
    Worked {
        device,
        log: Journal::new(alloc),
        stop: Stop::Broken,
    }
}

/// Whether the worker is idle.
fn is_idle(stage: &Stage) -> bool
    ensures { result ≡ is_chair stage.now }
{
    matches!(stage, Stage::Idle(_))
}
