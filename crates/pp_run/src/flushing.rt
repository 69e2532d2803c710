//! What the thread of the flusher runs.

ghost use Rattle.std.specs.Prelude.{◌≡◌, None};
ghost use Rattle.pp_run.specs.Ends.{FlushesBy, Unless, FlushedFrom};
ghost use Rattle.pp_run.specs.Counted.{HoldsNoAnswer};

use crate::desk::Desk;
use crate::site::LockedSite;
use crate::stop::{Flushed, Stop};
use pp_device::Device;
use pp_pool::{Flusher, Turned};
use std::sync::Wait;

/// Flushes until the run is closing and nothing can be flushed any more. The first flush is sought from this page on.
pub(crate) fn flush_on<'a, B: Desk, D: Device, R: Wait>(
    site: LockedSite<'a, B, R>,
    device: D,
    from: u32,
) -> Flushed<D>
    ensures { FlushedFrom D.calls D.failures device result }
{
    let rt = site.rt;
    let mut flusher = Flusher::new(site, device);
    flusher.from = from;
    let stop = turns(rt, &mut flusher);
    let (site, device, flushing, ended, failed) = flusher.end();
    match flushing {
        None => {}
        Some(flushing) => site.put_flush_back(flushing),
    }
    Flushed {
        device,
        ended,
        failed,
        stop,
    }
}

/// Turns until there is nothing more to do.
fn turns<'a, B: Desk, D: Device, R: Wait>(
    rt: &R,
    flusher: &mut Flusher<LockedSite<'a, B, R>, D>,
) -> Stop
    requires { HoldsNoAnswer flusher.old.flushing }
    ensures { Unless result (FlushesBy D.calls D.failures flusher.old.device flusher.old.ended flusher.old.failed
        flusher.new.device flusher.new.ended flusher.new.failed) }
{
    for _ in rt.forever() {
        match flusher.turn() {
            Turned::Done => {}
            Turned::Ended => {
                if flusher.flushing.is_none() {
                    return Stop::Ended;
                }
                return Stop::Broken;
            }
            Turned::NotNow | Turned::NoMemory | Turned::Broken => return Stop::Broken,
        }
    }
    unreachable!()
}
