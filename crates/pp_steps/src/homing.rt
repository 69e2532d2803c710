//! The way home.

ghost use Rattle.std.specs.Prelude.{◌≡◌, ℕ, true};
ghost use Rattle.pp_vault.specs.Stages.{stage_worker};
ghost use Rattle.pp_hall.specs.Calls.{Parks, is_out, with_flusher};
ghost use Rattle.pp_steps.specs.Parts.{IsSeated, IsFlushing};

use crate::device::HostDevice;
use crate::flusher::AwayFlusher;
use crate::seated::Seated;
use crate::site::KeptHall;
use pp_hall::{Post, Told};

/// Brings the worker of one that ran home. Where it isn't idle it is kept, but its chair stays out.
pub(crate) fn park(hall: &mut KeptHall, seated: Seated) -> Told
    requires { (chair : ℕ) × IsSeated hall.old.value chair seated }
    ensures { Parks hall.old.value seated.worker.hand.stage result hall.new.value }
{
    let Seated { worker, plan: _ } = seated;
    let (site, post) = worker.over_site(());
    site.end();
    bring_back(hall, post)
}

/// Brings a worker home whose chair is out. Where it isn't idle it is kept, but its chair stays out.
pub(crate) fn bring_back(hall: &mut KeptHall, post: Post<HostDevice>) -> Told
    requires { is_out hall.old.value (stage_worker post.hand.stage) ≡ true }
    ensures { Parks hall.old.value post.hand.stage result hall.new.value }
{
    match hall.park(post) {
        Ok(told) => told,
        Err(_) => unreachable!(),
    }
}

/// Brings the flusher home, whatever it has in hand.
pub(crate) fn park_flusher(hall: &mut KeptHall, away: AwayFlusher)
    requires { IsFlushing hall.old.value away }
    ensures { hall.new.value ≡ with_flusher hall.old.value true }
{
    let AwayFlusher { flusher } = away;
    let (site, flusher) = flusher.over_site(());
    site.end();
    match hall.park_flusher(flusher) {
        Ok(()) => {}
        Err(_) => unreachable!(),
    }
}
