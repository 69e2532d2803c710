//! Fix: a page comes into a slot, or an image leaves its frame with an errand.

ghost use Rattle.std.specs.Prelude.{◌≡◌, IfOk, IfErr, OnErr};
ghost use Rattle.pp_vault.specs.Parts.{parts_of};
ghost use Rattle.pp_vault.specs.Fixes.{FixAnswers};
ghost use Rattle.pp_vault.specs.Fits.{fix_slot, fix_call, asked_at};
ghost use Rattle.pp_vault.specs.Events.{Refuses, Tells};
ghost use Rattle.pp_vault.specs.StandsFor.{IsKept};
ghost use Rattle.pp_model.specs.Pool.{State};
ghost use Rattle.pp_core.specs.StandsFor.{StandsFor as CoreStandsFor};
ghost use Rattle.pp_core.specs.Queries.{ask_of};

use crate::guards::{BundleGuard, PinGuard};
use crate::refusal::Refusal;
use crate::store::Store;
use crate::tokens::{Duty, Errand, Session};
use crate::vault::Done;
use pp_core::{Ask, Move, Reply};

/// What a fix comes to.
#[derive(Debug)]
pub enum Fixed {
    /// The page was cached, and the slot holds it.
    Got(Session, PinGuard),
    /// The page was cached. The plan asks a gather, and it is the first page of the bundle.
    Opened(Session, BundleGuard),
    /// The page was cached. The plan asks a gather, and it is one more page of a bundle that holds some.
    Joined(Session),
    /// A device has to work first. The page has a frame, and the errand has the image that was in it.
    Away(Errand),
}

/// The slot of a plan that asks a fix or a gather; zero where it asks something else.
pub(crate) fn slot_of(ask: Ask) -> u32
    ensures { result ≡ fix_slot ask }
{
    match ask {
        Ask::Fix { slot, .. } | Ask::Gather { slot, .. } => u32::from(slot),
        _ => 0,
    }
}

impl Store {
    /// What the plan of the session's worker asks, where the worker acts and the session tells the slot of it.
    #[inline(always)]
    fn asked_slot(&self, session: &Session) -> Option<Ask>
        ensures { (s : State) → CoreStandsFor (parts_of self.now).core s
            → result ≡ asked_at (fix_slot session.now.ask) (ask_of s session.now.worker) }
    {
        match self.core.ask(session.worker) {
            Some(ask) if slot_of(session.ask) == slot_of(ask) => Some(ask),
            _ => None,
        }
    }

    /// A worker fixes or gathers a page into the slot that its plan names.
    pub(crate) fn fix(
        &mut self,
        session: Session,
        page: u32,
    ) -> Result<(Fixed, Done), (Session, Refusal)>
        requires { IsKept (parts_of self.old) }
        ensures ok { IfOk result (λ now. FixAnswers (parts_of self.old) session page now.0 (parts_of self.new)) }
        ensures done { IfOk result (λ now. Tells (parts_of self.old)
            (fix_call session.worker (fix_slot session.ask) page) now.1) }
        ensures err { IfErr result (λ e. Refuses (parts_of self.old)
            (fix_call session.worker (fix_slot session.ask) page) e.1) }
        ensures back { IfErr result (λ e. e.0 ≡ session) }
        ensures unchanged { OnErr result (parts_of self.new ≡ parts_of self.old) }
    {
        let Some(asked) = self.asked_slot(&session) else {
            return Err((session, Refusal::Stranger));
        };
        let worker = session.worker;
        let slot = slot_of(session.ask);
        let reply = match self.step_fix(worker, asked, page) {
            Ok(reply) => reply,
            Err(refusal) => return Err((session, refusal)),
        };
        let Session { worker, ask: _ } = session;
        let done = (Move::Fix { worker, page }, reply);
        match reply {
            Reply::Hit { .. } => {
                let session = self.session(worker);
                let Ask::Gather { .. } = asked else {
                    return Ok((Fixed::Got(session, PinGuard { worker, slot, page }), done));
                };
                if self.core.gathered(worker, slot) > 1 {
                    return Ok((Fixed::Joined(session), done));
                }
                Ok((Fixed::Opened(session, BundleGuard { worker, slot }), done))
            }
            Reply::MustRead { frame } => {
                let image = self.take_out(frame);
                let duty = Duty::Read { worker, slot, page };
                Ok((Fixed::Away(Errand { duty, image }), done))
            }
            Reply::MustWrite { frame, victim } => {
                let image = self.take_out(frame);
                let duty = Duty::Write {
                    worker,
                    slot,
                    page,
                    victim,
                };
                Ok((Fixed::Away(Errand { duty, image }), done))
            }
            _ => unreachable!(),
        }
    }
}
