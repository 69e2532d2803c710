//! Unfix, scatter, latch and unlatch: guards that are spent, or turn into one another.

ghost use Rattle.std.specs.Prelude.{◌≡◌, ◌<◌, ◌&&◌, true, Some, IfOk, IfErr, IfSome, IfNone, OnErr, length, slice_set};
ghost use Rattle.pp_device.specs.Image.{with_head};
ghost use Rattle.pp_model.specs.Pool.{State};
ghost use Rattle.pp_cert.specs.declared.note.Held.TheVariants.{Free, S, X};
ghost use Rattle.pp_plan.specs.declared.mode.Mode.TheVariants as mode;
ghost use Rattle.pp_core.specs.StandsFor.{StandsFor as CoreStandsFor};
ghost use Rattle.pp_core.specs.Queries.{ask_of};
ghost use Rattle.pp_vault.specs.Calls.{Call, refusal_of};
ghost use Rattle.pp_vault.specs.Parts.{parts_of};
ghost use Rattle.pp_vault.specs.StandsFor.{StandsFor, IsKept};
ghost use Rattle.pp_vault.specs.Fits.{unfix_call, scatter_call, latch_call, unlatch_call, put_back_call, is_held_so};
ghost use Rattle.pp_vault.specs.Fits.{is_gathered, bundle_fits, IsEmpty, guard_call, ask_fitting};
ghost use Rattle.pp_vault.specs.Fits.{fits_both as both_fit, asks_scatter as scatter_is_asked};
ghost use Rattle.pp_vault.specs.Fits.{asks_latch as latch_is_asked, asks_unlatch as unlatch_is_asked};
ghost use Rattle.pp_vault.specs.Steps.{told_mark};
ghost use Rattle.pp_vault.specs.Events.{Refuses, Tells};
ghost use Rattle.pp_vault.specs.Uses.{Unfixes, Scatters, LatchesShared, LatchesExclusive, UnlatchesShared, UnlatchesExclusive};
ghost use Rattle.pp_vault.specs.Tokens.{is_long};

use crate::guards::{BundleGuard, PinGuard, ReadGuard, WriteGuard};
use crate::refusal::Refusal;
use crate::store::Store;
use crate::tokens::Session;
use crate::vault::Done;
use pp_core::{Ask, Cause, Held, Move, Reply};
use pp_plan::Mode;

/// Why a call with a session and a guard is no move, if it isn't: they don't fit, or the plan asks something else.
fn objection(fits: bool, asked: bool) -> Option<Refusal>
    ensures none { IfNone result ((fits ≡ true) × (asked ≡ true)) }
    ensures some { IfSome result
        (λ why. (call : Call) (s : State) → refusal_of s (guard_call fits asked call) ≡ Some why) }
{
    if !fits {
        return Some(Refusal::Stranger);
    }
    if !asked {
        return Some(Refusal::OffPlan(Cause::NotAsked));
    }
    None
}

/// The mark that a latch or an unlatch is told.
pub(crate) fn mark_in(reply: Reply) -> u64
    ensures { result ≡ told_mark reply }
{
    match reply {
        Reply::Latched { mark } => mark,
        Reply::Unlatched { mark } => mark,
        _ => 0,
    }
}

impl Store {
    /// Whether the worker's slot holds the page in this way.
    pub(crate) fn holds_so(&self, worker: u32, slot: u32, page: u32, held: Held) -> bool
        ensures { (s : State) → StandsFor (parts_of self.now) s → result ≡ is_held_so s worker slot page held }
    {
        match self.core.held(worker, slot) {
            Some((other, how)) => {
                if other != page {
                    return false;
                }
                how == held
            }
            None => false,
        }
    }

    /// Whether the worker's slot is a bundle that holds a page.
    pub(crate) fn has_gathered(&self, worker: u32, slot: u32) -> bool
        ensures { (s : State) → StandsFor (parts_of self.now) s → result ≡ is_gathered s worker slot }
    {
        self.core.gathered(worker, slot) > 0
    }

    /// Whether a session and a bundle's guard fit: the worker acts, the guard is that worker's, and its slot is a bundle.
    fn fits_bundle(&self, worker: u32, of: u32, slot: u32) -> bool
        ensures { (s : State) → StandsFor (parts_of self.now) s → result ≡ bundle_fits s worker of slot }
    {
        self.core.ask(worker).is_some() && of == worker && self.has_gathered(worker, slot)
    }

    /// Whether a session and a guard fit: the worker acts, the guard is that worker's, and its slot holds its page so.
    fn fits_both(&self, worker: u32, of: u32, slot: u32, page: u32, held: Held) -> bool
        ensures { (s : State) → StandsFor (parts_of self.now) s → result ≡ both_fit s worker of slot page held }
    {
        self.core.ask(worker).is_some() && of == worker && self.holds_so(worker, slot, page, held)
    }

    /// Whether a session and a guard with an image fit: they do so with the page latched X, and the image is as long as
    /// a page's.
    fn fits_writer(&self, worker: u32, guard: &WriteGuard) -> bool
        ensures { (s : State) → StandsFor (parts_of self.now) s → result
            ≡ (both_fit s worker guard.now.worker guard.now.slot guard.now.page X
            && is_long (parts_of self.now) guard.now.image) }
    {
        self.fits_both(worker, guard.worker, guard.slot, guard.page, Held::X)
            && guard.image.len() == self.page_bytes
    }

    /// What the plan asks, where a session and a guard fit: one look at the worker's seat.
    #[inline(always)]
    fn ask_fitting(&self, worker: u32, of: u32, slot: u32, page: u32, held: Held) -> Option<Ask>
        ensures { (s : State) → CoreStandsFor (parts_of self.now).core s
            → result ≡ ask_fitting s worker of slot page held }
    {
        if of != worker {
            return None;
        }
        self.core.ask_holding(worker, slot, page, held)
    }

    /// The slot of a session and a guard, where they fit and the plan asks its unfix; else why an unfix is none.
    #[inline(always)]
    fn slot_to_unfix(&self, worker: u32, of: u32, slot: u32, page: u32) -> Result<u8, Refusal>
        ensures ok { IfOk result (λ own. (own ≡ slot) × ((s : State)
            → CoreStandsFor (parts_of self.now).core s → ask_fitting s worker of slot page Free ≡ Some (Ask.Unfix slot))) }
        ensures err { IfErr result (λ why. Refuses (parts_of self.now) (unfix_call worker of slot page) why) }
    {
        let Some(ask) = self.ask_fitting(worker, of, slot, page, Held::Free) else {
            return Err(Refusal::Stranger);
        };
        match ask {
            Ask::Unfix { slot: own } => {
                if slot != u32::from(own) {
                    return Err(Refusal::OffPlan(Cause::NotAsked));
                }
                Ok(own)
            }
            _ => Err(Refusal::OffPlan(Cause::NotAsked)),
        }
    }

    /// The slot of a session and a guard, where they fit and the plan asks its latch in this mode; else why a latch is none.
    #[inline(always)]
    fn slot_to_latch(
        &self,
        worker: u32,
        of: u32,
        slot: u32,
        page: u32,
        mode: Mode,
    ) -> Result<u8, Refusal>
        ensures ok { IfOk result (λ own. (own ≡ slot) × ((s : State)
            → CoreStandsFor (parts_of self.now).core s
            → ask_fitting s worker of slot page Free ≡ Some (Ask.Latch slot mode))) }
        ensures err { IfErr result (λ why. Refuses (parts_of self.now) (latch_call mode worker of slot page) why) }
    {
        let Some(ask) = self.ask_fitting(worker, of, slot, page, Held::Free) else {
            return Err(Refusal::Stranger);
        };
        match ask {
            Ask::Latch {
                slot: own,
                mode: how,
            } => {
                if slot != u32::from(own) {
                    return Err(Refusal::OffPlan(Cause::NotAsked));
                }
                if mode != how {
                    return Err(Refusal::OffPlan(Cause::NotAsked));
                }
                Ok(own)
            }
            _ => Err(Refusal::OffPlan(Cause::NotAsked)),
        }
    }

    /// The slot of a session and a guard, where they fit and the plan asks its unlatch; else why an unlatch is none.
    #[inline(always)]
    fn slot_to_unlatch(
        &self,
        worker: u32,
        of: u32,
        slot: u32,
        page: u32,
        held: Held,
    ) -> Result<u8, Refusal>
        ensures ok { IfOk result (λ own. (own ≡ slot) × ((s : State)
            → CoreStandsFor (parts_of self.now).core s → ask_fitting s worker of slot page held ≡ Some (Ask.Unlatch slot))) }
        ensures err { IfErr result (λ why. Refuses (parts_of self.now) (unlatch_call held worker of slot page) why) }
    {
        let Some(ask) = self.ask_fitting(worker, of, slot, page, held) else {
            return Err(Refusal::Stranger);
        };
        match ask {
            Ask::Unlatch { slot: own } => {
                if slot != u32::from(own) {
                    return Err(Refusal::OffPlan(Cause::NotAsked));
                }
                Ok(own)
            }
            _ => Err(Refusal::OffPlan(Cause::NotAsked)),
        }
    }

    /// Whether the worker's plan asks a scatter of the slot.
    fn asks_scatter(&self, worker: u32, slot: u32) -> bool
        ensures { (s : State) → StandsFor (parts_of self.now) s → result ≡ scatter_is_asked slot (ask_of s worker) }
    {
        match self.core.ask(worker) {
            Some(Ask::Scatter { slot: of }) => slot == u32::from(of),
            _ => false,
        }
    }

    /// Whether the worker's plan asks a latch of the slot in this mode.
    fn asks_latch(&self, worker: u32, slot: u32, mode: Mode) -> bool
        ensures { (s : State) → StandsFor (parts_of self.now) s → result ≡ latch_is_asked slot mode (ask_of s worker) }
    {
        match self.core.ask(worker) {
            Some(
                Ask::Latch {
                    slot: of,
                    mode: how,
                },
            ) => slot == u32::from(of) && mode == how,
            _ => false,
        }
    }

    /// Whether the worker's plan asks an unlatch of the slot.
    fn asks_unlatch(&self, worker: u32, slot: u32) -> bool
        ensures { (s : State) → StandsFor (parts_of self.now) s → result ≡ unlatch_is_asked slot (ask_of s worker) }
    {
        match self.core.ask(worker) {
            Some(Ask::Unlatch { slot: of }) => slot == u32::from(of),
            _ => false,
        }
    }

    /// A worker gives back the page of a slot that isn't latched.
    pub(crate) fn unfix(
        &mut self,
        session: Session,
        guard: PinGuard,
    ) -> Result<(Session, Done), (Session, PinGuard, Refusal)>
        requires { IsKept (parts_of self.old) }
        ensures ok { IfOk result (λ now. Unfixes (parts_of self.old) session guard (parts_of self.new) now.0) }
        ensures empty { IfOk result (λ _. (s : State) → StandsFor (parts_of self.new) s
            → IsEmpty s session.worker guard.slot) }
        ensures done { IfOk result (λ now. Tells (parts_of self.old)
            (unfix_call session.worker guard.worker guard.slot guard.page) now.1) }
        ensures err { IfErr result (λ e. Refuses (parts_of self.old)
            (unfix_call session.worker guard.worker guard.slot guard.page) e.2) }
        ensures back { IfErr result (λ e. (e.0 ≡ session) × (e.1 ≡ guard)) }
        ensures unchanged { OnErr result (parts_of self.new ≡ parts_of self.old) }
    {
        let worker = session.worker;
        let own = match self.slot_to_unfix(worker, guard.worker, guard.slot, guard.page) {
            Ok(own) => own,
            Err(refusal) => return Err((session, guard, refusal)),
        };
        match self.step_unfix_held(worker, own, guard.page) {
            Ok(reply) => {
                let Session { worker, ask: _ } = session;
                let PinGuard {
                    worker: _,
                    slot: _,
                    page: _,
                } = guard;
                Ok((self.session(worker), (Move::Unfix { worker }, reply)))
            }
            Err(refusal) => Err((session, guard, refusal)),
        }
    }

    /// A worker gives back all pages of a bundle.
    pub(crate) fn scatter(
        &mut self,
        session: Session,
        guard: BundleGuard,
    ) -> Result<(Session, Done), (Session, BundleGuard, Refusal)>
        requires { IsKept (parts_of self.old) }
        ensures ok { IfOk result (λ now. Scatters (parts_of self.old) session guard (parts_of self.new) now.0) }
        ensures empty { IfOk result (λ _. (s : State) → StandsFor (parts_of self.new) s
            → IsEmpty s session.worker guard.slot) }
        ensures done { IfOk result (λ now. Tells (parts_of self.old)
            (scatter_call session.worker guard.worker guard.slot) now.1) }
        ensures err { IfErr result (λ e. Refuses (parts_of self.old)
            (scatter_call session.worker guard.worker guard.slot) e.2) }
        ensures back { IfErr result (λ e. (e.0 ≡ session) × (e.1 ≡ guard)) }
        ensures unchanged { OnErr result (parts_of self.new ≡ parts_of self.old) }
    {
        let worker = session.worker;
        let fits = self.fits_bundle(worker, guard.worker, guard.slot);
        if let Some(refusal) = objection(fits, self.asks_scatter(worker, guard.slot)) {
            return Err((session, guard, refusal));
        }
        match self.step_unfix(worker) {
            Ok(reply) => {
                let Session { worker, ask: _ } = session;
                let BundleGuard { worker: _, slot: _ } = guard;
                Ok((self.session(worker), (Move::Unfix { worker }, reply)))
            }
            Err(refusal) => Err((session, guard, refusal)),
        }
    }

    /// A worker latches the page of a slot S. The image stays in its frame.
    pub(crate) fn latch_shared(
        &mut self,
        session: Session,
        guard: PinGuard,
    ) -> Result<(Session, ReadGuard, Done), (Session, PinGuard, Refusal)>
        requires { IsKept (parts_of self.old) }
        ensures ok { IfOk result
            (λ now. LatchesShared (parts_of self.old) session guard (parts_of self.new) now.0 now.1) }
        ensures done { IfOk result (λ now. Tells (parts_of self.old)
            (latch_call mode.S session.worker guard.worker guard.slot guard.page) now.2) }
        ensures err { IfErr result (λ e. Refuses (parts_of self.old)
            (latch_call mode.S session.worker guard.worker guard.slot guard.page) e.2) }
        ensures back { IfErr result (λ e. (e.0 ≡ session) × (e.1 ≡ guard)) }
        ensures unchanged { OnErr result (parts_of self.new ≡ parts_of self.old) }
    {
        let worker = session.worker;
        let own = match self.slot_to_latch(worker, guard.worker, guard.slot, guard.page, Mode::S) {
            Ok(own) => own,
            Err(refusal) => return Err((session, guard, refusal)),
        };
        match self.step_latch_held(worker, own, guard.page, Mode::S) {
            Ok(reply) => {
                let mark = mark_in(reply);
                let Session { worker, ask: _ } = session;
                let PinGuard {
                    worker: _,
                    slot,
                    page,
                } = guard;
                Ok((
                    self.session(worker),
                    ReadGuard {
                        worker,
                        slot,
                        page,
                        mark,
                    },
                    (Move::Latch { worker }, reply),
                ))
            }
            Err(refusal) => Err((session, guard, refusal)),
        }
    }

    /// A worker latches the page of a slot X. The image goes from its frame into the guard.
    pub(crate) fn latch_exclusive(
        &mut self,
        session: Session,
        guard: PinGuard,
    ) -> Result<(Session, WriteGuard, Done), (Session, PinGuard, Refusal)>
        requires { IsKept (parts_of self.old) }
        ensures ok { IfOk result
            (λ now. LatchesExclusive (parts_of self.old) session guard (parts_of self.new) now.0 now.1) }
        ensures done { IfOk result (λ now. Tells (parts_of self.old)
            (latch_call mode.X session.worker guard.worker guard.slot guard.page) now.2) }
        ensures err { IfErr result (λ e. Refuses (parts_of self.old)
            (latch_call mode.X session.worker guard.worker guard.slot guard.page) e.2) }
        ensures back { IfErr result (λ e. (e.0 ≡ session) × (e.1 ≡ guard)) }
        ensures unchanged { OnErr result (parts_of self.new ≡ parts_of self.old) }
    {
        let worker = session.worker;
        let fits = self.fits_both(worker, guard.worker, guard.slot, guard.page, Held::Free);
        if let Some(refusal) = objection(fits, self.asks_latch(worker, guard.slot, Mode::X)) {
            return Err((session, guard, refusal));
        }
        let Some(frame) = self.core.frame_of(guard.page) else {
            unreachable!()
        };
        match self.step_latch(worker) {
            Ok(reply) => {
                let mark = mark_in(reply);
                let image = self.take_out(frame);
                let Session { worker, ask: _ } = session;
                let PinGuard {
                    worker: _,
                    slot,
                    page,
                } = guard;
                Ok((
                    self.session(worker),
                    WriteGuard {
                        worker,
                        slot,
                        page,
                        mark,
                        image,
                    },
                    (Move::Latch { worker }, reply),
                ))
            }
            Err(refusal) => Err((session, guard, refusal)),
        }
    }

    /// A worker takes its latch S off the page of a slot.
    pub(crate) fn unlatch_shared(
        &mut self,
        session: Session,
        guard: ReadGuard,
    ) -> Result<(Session, PinGuard, Done), (Session, ReadGuard, Refusal)>
        requires { IsKept (parts_of self.old) }
        ensures ok { IfOk result
            (λ now. UnlatchesShared (parts_of self.old) session guard (parts_of self.new) now.0 now.1) }
        ensures done { IfOk result (λ now. Tells (parts_of self.old)
            (unlatch_call S session.worker guard.worker guard.slot guard.page) now.2) }
        ensures err { IfErr result (λ e. Refuses (parts_of self.old)
            (unlatch_call S session.worker guard.worker guard.slot guard.page) e.2) }
        ensures back { IfErr result (λ e. (e.0 ≡ session) × (e.1 ≡ guard)) }
        ensures unchanged { OnErr result (parts_of self.new ≡ parts_of self.old) }
    {
        let worker = session.worker;
        let own = match self.slot_to_unlatch(
            worker,
            guard.worker,
            guard.slot,
            guard.page,
            Held::S,
        ) {
            Ok(own) => own,
            Err(refusal) => return Err((session, guard, refusal)),
        };
        match self.step_unlatch_held(worker, own, guard.page, Held::S) {
            Ok(reply) => {
                let Session { worker, ask: _ } = session;
                let ReadGuard {
                    worker: _,
                    slot,
                    page,
                    mark: _,
                } = guard;
                Ok((
                    self.session(worker),
                    PinGuard { worker, slot, page },
                    (Move::Unlatch { worker }, reply),
                ))
            }
            Err(refusal) => Err((session, guard, refusal)),
        }
    }

    /// A worker takes its latch X off the page of a slot. The image goes back into its frame, with the raised mark.
    pub(crate) fn unlatch_exclusive(
        &mut self,
        session: Session,
        guard: WriteGuard,
    ) -> Result<(Session, PinGuard, Done), (Session, WriteGuard, Refusal)>
        requires { IsKept (parts_of self.old) }
        ensures ok { IfOk result
            (λ now. UnlatchesExclusive (parts_of self.old) session guard (parts_of self.new) now.0 now.1) }
        ensures done { IfOk result (λ now. Tells (parts_of self.old)
            (put_back_call (is_long (parts_of self.old) guard.image) session.worker guard.worker guard.slot guard.page) now.2) }
        ensures err { IfErr result (λ e. Refuses (parts_of self.old) (put_back_call
            (is_long (parts_of self.old) guard.image) session.worker guard.worker guard.slot guard.page) e.2) }
        ensures back { IfErr result (λ e. (e.0 ≡ session) × (e.1 ≡ guard)) }
        ensures unchanged { OnErr result (parts_of self.new ≡ parts_of self.old) }
    {
        let worker = session.worker;
        let fits = self.fits_writer(worker, &guard);
        if let Some(refusal) = objection(fits, self.asks_unlatch(worker, guard.slot)) {
            return Err((session, guard, refusal));
        }
        let Some(frame) = self.core.frame_of(guard.page) else {
            unreachable!()
        };
        match self.step_unlatch(worker) {
            Ok(reply) => {
                let Session { worker, ask: _ } = session;
                let WriteGuard {
                    worker: _,
                    slot,
                    page,
                    mark: _,
                    mut image,
                } = guard;
                image.set_head(page, mark_in(reply));
                self.put(frame, image);
                Ok((
                    self.session(worker),
                    PinGuard { worker, slot, page },
                    (Move::Unlatch { worker }, reply),
                ))
            }
            Err(refusal) => Err((session, guard, refusal)),
        }
    }
}
