//! The site of a worker's thread, whose requests may come one after another under one hold of the lock.

ghost use Rattle.pp_run.specs.Shared.{IsGiven};

use crate::desk::Desk;
use crate::locked::Locked;
use crate::owed::Owed;
use crate::site::{LockedSite, has_failed_to_write, takes_writer_off};
use pp_pool::{BookAnswer, Request, Response, Site};
use pp_vault::{ReadGuard, Session};
use std::marker::Model;
use std::sync::{MutexGuard, Wait};

/// A shared site that keeps the lock after a call, for the next one, until it is let go ([`Site::let_go`]).
///
/// While it has the lock it takes no other, and calls neither a work nor a device; that its worker calls none either, a
/// worker sees to, which lets it go before. Whom a move that was done may help is woken when the lock is let go, and before
/// the site waits itself. Nothing is said of what it keeps: contracts see all sites of one desk as the same.
///
/// The compiler refuses code that lets it fall: [`WorkerSite::end`] gives the lock back.
pub(crate) struct WorkerSite<'a, B: Desk, R: Wait> {
    site: LockedSite<'a, B, R>,
    held: Option<MutexGuard<'a, Locked<B>>>,
    // What was done since the lock was taken.
    owed: Owed,
}

impl<'a, B: Desk, R: Wait> Model for WorkerSite<'a, B, R> {
    ghost Value = { Unit {0} };

    ghost view = { λ s. tt };
}

impl<'a, B: Desk, R: Wait> WorkerSite<'a, B, R> {
    /// The same site, which hasn't taken the lock.
    pub(crate) fn over(site: LockedSite<'a, B, R>) -> WorkerSite<'a, B, R> {
        WorkerSite {
            site,
            held: None,
            owed: Owed::nothing(),
        }
    }

    /// The site without the lock, which it gives back if it has it.
    pub(crate) fn end(self) -> LockedSite<'a, B, R> {
        let WorkerSite { site, held, owed } = self;
        if let Some(locked) = held {
            site.give_back(locked, owed);
        }
        site
    }

    /// The lock, out of its place: as it is held, or taken now.
    #[inline(always)]
    fn hold(&mut self) -> MutexGuard<'a, Locked<B>> {
        match self.held.take() {
            Some(locked) => locked,
            None => self.site.hold(),
        }
    }

    /// What lies under the lock, which is taken now if it isn't held. It stays in its place, so that nothing is moved where it is
    /// held already.
    #[inline(always)]
    fn locked(&mut self) -> &mut Locked<B> {
        if self.held.is_none() {
            self.held = Some(self.site.hold());
        }
        match &mut self.held {
            Some(locked) => &mut *locked,
            None => unreachable!(),
        }
    }

    /// Performs a request that was refused, and may have to wait for what it wants.
    #[inline(never)]
    fn perform_later(&mut self, request: Request, locked: MutexGuard<'a, Locked<B>>) -> Response
        ensures { IsGiven B.gives request result }
    {
        let (response, locked, owed) = self.site.perform_under(request, locked, self.owed);
        self.owed = owed;
        self.held = Some(locked);
        response
    }

    /// Notes what a call owes that did moves, or none.
    #[inline(always)]
    fn owe(&mut self, is_done: bool) {
        if is_done {
            self.owed = self.owed.and(false);
        }
    }
}

impl<'a, B: Desk, R: Wait> Site for WorkerSite<'a, B, R> {
    ghost use Rattle.pp_run.specs.Shared.{IsGiven};

    ghost gives = { λ s request response t. IsGiven B.gives request response };

    ghost shows = { λ s guard before shown after. (desk : B) × B.shows desk guard before shown after };

    ghost tells = { λ s most. (desk : B) × B.tells desk most };

    #[tactic(auto, using(crate::proofs::Tried::refused_given))]
    #[inline(always)]
    fn perform(&mut self, request: Request) -> Response {
        let mut locked = self.hold();
        let takes_writer_off = takes_writer_off(&request);
        let Response { event, answer } = locked.desk.perform(request);
        match answer {
            BookAnswer::No(request, _refusal) => self.perform_later(request, locked),
            answer => {
                let lets_flush = takes_writer_off || has_failed_to_write(event);
                self.owed = self.owed.and(lets_flush);
                self.held = Some(locked);
                Response { event, answer }
            }
        }
    }

    #[inline(always)]
    fn look(&mut self, guard: &ReadGuard, bytes: &mut [u8]) -> bool {
        self.locked().desk.look(guard, bytes)
    }

    fn most(&mut self) -> u64 {
        self.locked().desk.most()
    }

    #[inline(always)]
    fn let_go(&mut self) {
        if let Some(locked) = self.held.take() {
            self.site.give_back(locked, self.owed);
            self.owed = Owed::nothing();
        }
    }

    #[inline(always)]
    fn read(&mut self, session: Session, page: u32) -> Result<(Session, ReadGuard, u32), Session> {
        let read = self.locked().desk.read(session, page);
        self.owe(read.is_ok());
        read
    }

    #[inline(always)]
    fn end_read(
        &mut self,
        session: Session,
        guard: ReadGuard,
    ) -> Result<(Session, u64), (Session, ReadGuard)> {
        let ended = self.locked().desk.end_read(session, guard);
        self.owe(ended.is_ok());
        ended
    }
}
