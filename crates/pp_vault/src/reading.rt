//! A reading in two calls: a page is fixed and latched S by one, and unlatched and unfixed by the other.

ghost use Rattle.std.specs.Prelude.{◌≡◌, Some, IfOk, IfErr, IfSome, IfNone, OnErr, is_ok, is_some};
ghost use Rattle.pp_model.specs.Pool.{State};
ghost use Rattle.pp_core.specs.StandsFor.{StandsFor as CoreStandsFor};
ghost use Rattle.pp_core.specs.Queries.{ask_of};
ghost use Rattle.pp_core.specs.Reading.{MovesTwo, can_read, can_end_read};
ghost use Rattle.pp_vault.specs.Parts.{parts_of};
ghost use Rattle.pp_vault.specs.StandsFor.{StandsFor, IsKept};
ghost use Rattle.pp_vault.specs.Fits.{IsEmpty};
ghost use Rattle.pp_vault.specs.Reads.{may_read, may_end_read, Reads, EndsRead};

use crate::fixing::slot_of;
use crate::guards::ReadGuard;
use crate::store::Store;
use crate::tokens::Session;
use pp_core::{Ask, Move, Reply};

impl Store {
    /// Does a fix that hits and the latch S of its slot, if both are possible.
    #[inline(always)]
    fn step_two_in(&mut self, worker: u32, slot: u32, page: u32) -> Option<(u32, u64, Ask)>
        ensures exact { (s : State) → CoreStandsFor (parts_of self.old).core s → is_some result ≡ can_read s worker slot page }
        ensures moves { IfSome result (λ now. MovesTwo (parts_of self.old).core (Move.Fix worker page)
            (Reply.Hit now.0 now.1) (Move.Latch worker) (Reply.Latched now.1) (parts_of self.new).core) }
        ensures asks { IfSome result (λ now. (s : State) → CoreStandsFor (parts_of self.new).core s
            → ask_of s worker ≡ Some now.2) }
        ensures unchanged { IfNone result (parts_of self.new ≡ parts_of self.old) }
        ensures rest { parts_of self.new ≡ record (parts_of self.old) { core = (parts_of self.new).core } }
    {
        self.core.fix_and_share(worker, slot, page)
    }

    /// Does an unlatch of this page of this slot, held S, and its unfix, if both are possible.
    #[inline(always)]
    fn step_two_out(&mut self, worker: u32, slot: u32, page: u32) -> Option<(u64, Ask)>
        ensures exact { (s : State) → CoreStandsFor (parts_of self.old).core s
            → is_some result ≡ can_end_read s worker slot page }
        ensures moves { IfSome result (λ now. MovesTwo (parts_of self.old).core (Move.Unlatch worker)
            (Reply.Unlatched now.0) (Move.Unfix worker) Reply.Did (parts_of self.new).core) }
        ensures asks { IfSome result (λ now. (s : State) → CoreStandsFor (parts_of self.new).core s
            → ask_of s worker ≡ Some now.1) }
        ensures unchanged { IfNone result (parts_of self.new ≡ parts_of self.old) }
        ensures rest { parts_of self.new ≡ record (parts_of self.old) { core = (parts_of self.new).core } }
    {
        self.core.unshare_and_unfix(worker, slot, page)
    }

    /// A worker fixes a page that is cached into the slot that its plan names, and latches it S.
    #[inline(always)]
    pub(crate) fn fix_and_share(
        &mut self,
        session: Session,
        page: u32,
    ) -> Result<(Session, ReadGuard, u32), Session>
        requires { IsKept (parts_of self.old) }
        ensures exact { (s : State) → StandsFor (parts_of self.old) s → is_ok result ≡ may_read session page s }
        ensures ok { IfOk result
            (λ now. Reads (parts_of self.old) session page (parts_of self.new) now.0 now.1 now.2) }
        ensures back { IfErr result (λ e. e ≡ session) }
        ensures unchanged { OnErr result (parts_of self.new ≡ parts_of self.old) }
    {
        let slot = slot_of(session.ask);
        match self.step_two_in(session.worker, slot, page) {
            Some((frame, mark, ask)) => {
                let Session { worker, ask: _ } = session;
                Ok((
                    Session { worker, ask },
                    ReadGuard {
                        worker,
                        slot,
                        page,
                        mark,
                    },
                    frame,
                ))
            }
            None => Err(session),
        }
    }

    /// A worker takes its latch S off the page of a slot, and gives the page back.
    #[inline(always)]
    pub(crate) fn unshare_and_unfix(
        &mut self,
        session: Session,
        guard: ReadGuard,
    ) -> Result<(Session, u64), (Session, ReadGuard)>
        requires { IsKept (parts_of self.old) }
        ensures exact { (s : State) → StandsFor (parts_of self.old) s → is_ok result ≡ may_end_read session guard s }
        ensures ok { IfOk result (λ now. EndsRead (parts_of self.old) session guard (parts_of self.new) now.0 now.1) }
        ensures empty { IfOk result (λ _. (s : State) → StandsFor (parts_of self.new) s
            → IsEmpty s session.worker guard.slot) }
        ensures back { IfErr result (λ e. (e.0 ≡ session) × (e.1 ≡ guard)) }
        ensures unchanged { OnErr result (parts_of self.new ≡ parts_of self.old) }
    {
        let worker = session.worker;
        let of = guard.worker;
        if of != worker {
            return Err((session, guard));
        }
        match self.step_two_out(worker, guard.slot, guard.page) {
            Some((mark, ask)) => {
                let Session { worker, ask: _ } = session;
                let ReadGuard {
                    worker: _,
                    slot: _,
                    page: _,
                    mark: _,
                } = guard;
                Ok((Session { worker, ask }, mark))
            }
            None => Err((session, guard)),
        }
    }
}
