//! Take, choose, finish and end: what a worker does without pages.

ghost use Rattle.std.specs.Prelude.{◌≡◌, true, IfOk, IfErr, OnErr};
ghost use Rattle.pp_model.specs.Pool.{State};
ghost use Rattle.pp_core.specs.Queries.{is_idle};
ghost use Rattle.pp_vault.specs.Parts.{parts_of};
ghost use Rattle.pp_vault.specs.Fits.{take_call, choose_call, finish_call, end_call};
ghost use Rattle.pp_vault.specs.StandsFor.{StandsFor, IsKept};
ghost use Rattle.pp_vault.specs.Events.{Refuses, Does, Tells};
ghost use Rattle.pp_vault.specs.ImageMoves.{ImagesStay};
ghost use Rattle.pp_vault.specs.Tokens.{SessionFits, ActsIn, HoldsNothing};

use crate::refusal::Refusal;
use crate::store::Store;
use crate::tokens::{Chair, Leaver, Session};
use crate::vault::Done;
use pp_core::Move;

impl Store {
    /// An idle worker takes the first plan that waits.
    #[tactic(auto, using(crate::proofs::SeatMoves::stepped_stays))]
    pub(crate) fn take(&mut self, chair: Chair) -> Result<(Session, Done), (Chair, Refusal)>
        requires { IsKept (parts_of self.old) }
        ensures ok { IfOk result (λ _. Does (parts_of self.old) (take_call chair.worker) (parts_of self.new)) }
        ensures images { IfOk result (λ _. ImagesStay (parts_of self.old) (parts_of self.new)) }
        ensures session { IfOk result (λ now. SessionFits (parts_of self.new) chair.worker now.0) }
        ensures done { IfOk result (λ now. Tells (parts_of self.old) (take_call chair.worker) now.1) }
        ensures err { IfErr result (λ e. Refuses (parts_of self.old) (take_call chair.worker) e.1) }
        ensures back { IfErr result (λ e. e.0 ≡ chair) }
        ensures unchanged { OnErr result (parts_of self.new ≡ parts_of self.old) }
    {
        let worker = chair.worker;
        if !self.core.is_idle(worker) {
            return Err((chair, Refusal::Stranger));
        }
        match self.step(Move::Take { worker }) {
            Ok(reply) => {
                let Chair { worker } = chair;
                Ok((self.session(worker), (Move::Take { worker }, reply)))
            }
            Err(refusal) => Err((chair, refusal)),
        }
    }

    /// A worker takes the branch of a choice that its plan asks.
    #[tactic(auto, using(crate::proofs::SeatMoves::stepped_stays))]
    pub(crate) fn choose(
        &mut self,
        session: Session,
        branch: u32,
    ) -> Result<(Session, Done), (Session, Refusal)>
        requires { IsKept (parts_of self.old) }
        ensures ok { IfOk result
            (λ _. Does (parts_of self.old) (choose_call session.worker branch) (parts_of self.new)) }
        ensures images { IfOk result (λ _. ImagesStay (parts_of self.old) (parts_of self.new)) }
        ensures session { IfOk result (λ now. SessionFits (parts_of self.new) session.worker now.0) }
        ensures done { IfOk result (λ now. Tells (parts_of self.old) (choose_call session.worker branch) now.1) }
        ensures err { IfErr result (λ e. Refuses (parts_of self.old) (choose_call session.worker branch) e.1) }
        ensures back { IfErr result (λ e. e.0 ≡ session) }
        ensures unchanged { OnErr result (parts_of self.new ≡ parts_of self.old) }
    {
        let worker = session.worker;
        if self.core.ask(worker).is_none() {
            return Err((session, Refusal::Stranger));
        }
        match self.step(Move::Choose { worker, branch }) {
            Ok(reply) => {
                let Session { worker, ask: _ } = session;
                Ok((
                    self.session(worker),
                    (Move::Choose { worker, branch }, reply),
                ))
            }
            Err(refusal) => Err((session, refusal)),
        }
    }

    /// A worker is done with its plan.
    #[tactic(auto, using(crate::proofs::SeatMoves::stepped_stays))]
    pub(crate) fn finish(&mut self, session: Session) -> Result<(Chair, Done), (Session, Refusal)>
        requires { IsKept (parts_of self.old) }
        ensures ok { IfOk result (λ _. Does (parts_of self.old) (finish_call session.worker) (parts_of self.new)) }
        ensures images { IfOk result (λ _. ImagesStay (parts_of self.old) (parts_of self.new)) }
        ensures chair { IfOk result (λ now. now.0 ≡ record { worker = session.worker }) }
        ensures idle { IfOk result (λ _. (s : State) → StandsFor (parts_of self.new) s
            → is_idle s session.worker ≡ true) }
        ensures nothing_held { IfOk result (λ _. HoldsNothing (parts_of self.old) session.worker) }
        ensures done { IfOk result (λ now. Tells (parts_of self.old) (finish_call session.worker) now.1) }
        ensures err { IfErr result (λ e. Refuses (parts_of self.old) (finish_call session.worker) e.1) }
        ensures back { IfErr result (λ e. e.0 ≡ session) }
        ensures unchanged { OnErr result (parts_of self.new ≡ parts_of self.old) }
    {
        let worker = session.worker;
        if self.core.ask(worker).is_none() {
            return Err((session, Refusal::Stranger));
        }
        match self.step(Move::Finish { worker }) {
            Ok(reply) => {
                let Session { worker, ask: _ } = session;
                Ok((Chair { worker }, (Move::Finish { worker }, reply)))
            }
            Err(refusal) => Err((session, refusal)),
        }
    }

    /// A worker has left its plan, and holds nothing any more.
    #[tactic(auto, using(crate::proofs::SeatMoves::stepped_stays))]
    pub(crate) fn end(&mut self, leaver: Leaver) -> Result<(Chair, Done), (Leaver, Refusal)>
        requires { IsKept (parts_of self.old) }
        ensures ok { IfOk result (λ _. Does (parts_of self.old) (end_call leaver.worker) (parts_of self.new)) }
        ensures images { IfOk result (λ _. ImagesStay (parts_of self.old) (parts_of self.new)) }
        ensures chair { IfOk result (λ now. now.0 ≡ record { worker = leaver.worker }) }
        ensures idle { IfOk result (λ _. (s : State) → StandsFor (parts_of self.new) s
            → is_idle s leaver.worker ≡ true) }
        ensures nothing_held { IfOk result (λ _. HoldsNothing (parts_of self.old) leaver.worker) }
        ensures done { IfOk result (λ now. Tells (parts_of self.old) (end_call leaver.worker) now.1) }
        ensures err { IfErr result (λ e. Refuses (parts_of self.old) (end_call leaver.worker) e.1) }
        ensures back { IfErr result (λ e. e.0 ≡ leaver) }
        ensures unchanged { OnErr result (parts_of self.new ≡ parts_of self.old) }
    {
        let worker = leaver.worker;
        if !self.core.is_leaving(worker) {
            return Err((leaver, Refusal::Stranger));
        }
        match self.step(Move::Finish { worker }) {
            Ok(reply) => {
                let Leaver { worker } = leaver;
                Ok((Chair { worker }, (Move::Finish { worker }, reply)))
            }
            Err(refusal) => Err((leaver, refusal)),
        }
    }

    /// The session of a worker that acts.
    pub(crate) fn session(&self, worker: u32) -> Session
        requires kept { IsKept (parts_of self.now) }
        requires acts { ActsIn (parts_of self.now) worker }
        ensures { SessionFits (parts_of self.now) worker result }
    {
        let Some(ask) = self.core.ask(worker) else {
            unreachable!()
        };
        Session { worker, ask }
    }
}
