//! What lies under the lock of a run: its desk, and who waits.

ghost use Rattle.std.specs.Prelude.{◌≡◌, ℕ, true, Some, slice_set};
ghost use Rattle.pp_wants.specs.Masks.{has_bell, bell_of};
ghost use Rattle.pp_wants.specs.Sleepers.{untold, is_told_anew, Keeps};
ghost use Rattle.pp_wants.specs.WakeUps.{NoWakeUpIsLost};

use crate::desk::Desk;
use crate::owed::{Owed, Told};
use pp_model::{Cause, Delay};
use pp_pool::Request;
use pp_vault::Refusal;
use pp_wants::{Sleepers, Want};

/// What lies under the lock: the desk, whether the run is closing, and who waits.
pub struct Locked<B: Desk> {
    pub desk: B,
    closing: bool,
    // The workers whose threads sleep, and what for.
    sleepers: Sleepers,
    // How many threads wait for any move.
    waiting: u64,
    // How many threads wait for a page to be changed.
    idle: u64,
}

/// What a request that was refused waits for.
pub(crate) enum WaitsFor {
    /// For nothing: the refusal goes back.
    Nothing,
    /// Until this worker, whose thread sleeps with this want, is told.
    Bell(u32, Want),
    /// Until any move was done: the flusher, and what a desk refuses by itself.
    Move,
    /// Until a page can be flushed, or the run is closing.
    Change,
}

impl<B: Desk> Locked<B> {
    /// A desk, and places for the workers whose threads may sleep. Nobody waits.
    pub fn new(desk: B, sleepers: Sleepers) -> Locked<B>
        ensures { result.desk ≡ desk }
    {
        Locked {
            desk,
            closing: false,
            sleepers,
            waiting: 0,
            idle: 0,
        }
    }

    pub(crate) fn close(&mut self) {
        self.closing = true;
    }

    /// What a request waits for that was refused so. Where nothing can be flushed it waits until the run is closing.
    pub(crate) fn waits_for(&self, request: &Request, refusal: Refusal) -> WaitsFor {
        match refusal {
            Refusal::NotNow(Delay::NothingWaiting) => WaitsFor::Nothing,
            Refusal::NotNow(delay) => match sleeper(request, delay) {
                Some((worker, want)) if self.may_sleep(worker, want, refusal) => {
                    WaitsFor::Bell(worker, want)
                }
                _ => WaitsFor::Move,
            },
            Refusal::OffPlan(Cause::NotDirty | Cause::NoFlushLeft) if !self.closing =>
                WaitsFor::Change,
            _ => WaitsFor::Nothing,
        }
    }

    /// Whether the worker has a place to sleep, and the vault refuses the want's move just so. A desk may refuse by itself what its
    /// vault would do: then any move may help.
    fn may_sleep(&self, worker: u32, want: Want, refusal: Refusal) -> bool {
        if worker >= self.sleepers.workers() {
            return false;
        }
        match self.desk.vault().refusal(&want.asked(worker)) {
            Some(why) => why == refusal,
            None => false,
        }
    }

    /// Tells each worker whose wake-up would be lost, and answers whom it told. Who waits for any move, or for a page to be
    /// changed, is among them where that is owed. From then on no worker's wake-up is lost.
    ///
    /// It comes last under each hold of the lock in which something may have been done.
    pub(crate) fn settle(&mut self, owed: Owed) -> Told
        ensures awake { NoWakeUpIsLost (B.lends self.new.desk) self.new.sleepers }
        ensures told { (w : ℕ) → is_told_anew self.old.sleepers self.new.sleepers w ≡ true
            → has_bell result.workers (bell_of w) ≡ true }
        ensures keeps { Keeps self.old.sleepers self.new.sleepers }
        ensures desk { self.new.desk ≡ self.old.desk }
    {
        let workers = self.sleepers.settle(self.desk.vault());
        Told {
            workers,
            moved: owed.is_moved && self.waiting > 0,
            changed: owed.lets_flush && self.idle > 0,
        }
    }

    /// The worker's thread sleeps with this want from now on, and wasn't told. Tells whom [`Locked::settle`] tells.
    pub(crate) fn fall_asleep(&mut self, worker: u32, want: Want, owed: Owed) -> Told
        ensures awake { NoWakeUpIsLost (B.lends self.new.desk) self.new.sleepers }
        ensures asleep { Keeps (slice_set self.old.sleepers worker (Some (untold want))) self.new.sleepers }
        ensures desk { self.new.desk ≡ self.old.desk }
    {
        self.sleepers.sleep(worker, want);
        self.settle(owed)
    }

    /// The worker's thread doesn't sleep any more, and asks again.
    pub(crate) fn rise(&mut self, worker: u32) {
        self.sleepers.rise(worker);
    }

    /// One thread more waits for any move. Tells whom [`Locked::settle`] tells.
    pub(crate) fn wait_for_move(&mut self, owed: Owed) -> Told {
        let told = self.settle(owed);
        self.waiting = self.waiting.saturating_add(1);
        told
    }

    /// One thread less waits for any move.
    pub(crate) fn moved(&mut self) {
        self.waiting = self.waiting.saturating_sub(1);
    }

    /// One thread more waits for a page to be changed. Tells whom [`Locked::settle`] tells.
    pub(crate) fn wait_for_change(&mut self, owed: Owed) -> Told {
        let told = self.settle(owed);
        self.idle = self.idle.saturating_add(1);
        told
    }

    /// One thread less waits for a page to be changed.
    pub(crate) fn changed(&mut self) {
        self.idle = self.idle.saturating_sub(1);
    }

    /// The desk, when all threads are joined.
    pub fn into_desk(self) -> B
        ensures { result ≡ self.desk }
    {
        let Locked {
            desk,
            closing: _,
            sleepers: _,
            waiting: _,
            idle: _,
        } = self;
        desk
    }
}

/// The worker whose thread sleeps where its request is refused with this delay, and what for. None where any move may help, as
/// the flusher.
fn sleeper(request: &Request, delay: Delay) -> Option<(u32, Want)> {
    let want = Want::of_refused(request, delay)?;
    match request {
        Request::Take(chair) => Some((chair.worker(), want)),
        Request::Fix(session, _) | Request::Join(session, _) => Some((session.worker(), want)),
        Request::LatchShared(session, _) => Some((session.worker(), want)),
        Request::LatchExclusive(session, _) => Some((session.worker(), want)),
        _ => None,
    }
}
