//! A flush: a changed page is copied, to be written to the device, and stays in its frame.

ghost use Rattle.std.specs.Prelude.{◌≡◌, None, IfOk, IfErr, OnErr};
ghost use Rattle.std.specs.Option.{is_some};
ghost use Rattle.pp_model.specs.Pool.{State};
ghost use Rattle.pp_core.specs.Queries.{flushed_page};
ghost use Rattle.pp_vault.specs.Calls.{refused};
ghost use Rattle.pp_vault.specs.Parts.{parts_of};
ghost use Rattle.pp_vault.specs.StandsFor.{StandsFor, IsKept};
ghost use Rattle.pp_vault.specs.Events.{Refuses, Does, Tells};
ghost use Rattle.pp_vault.specs.Tokens.{ErrandFits};
ghost use Rattle.pp_vault.specs.Flushes.{flush_call, flush_if, next_call, CanCopy, CopiesOut, CopiesNext, IsImageOf};

use crate::refusal::Refusal;
use crate::store::Store;
use crate::tokens::{Duty, Errand};
use crate::vault::Done;
use pp_core::{Cause, Delay, Move};

impl Store {
    /// The flusher begins to write a changed page.
    pub(crate) fn flush(&mut self, page: u32) -> Result<(Errand, Done), Refusal>
        requires { IsKept (parts_of self.old) }
        ensures ok { IfOk result (λ _. Does (parts_of self.old) (flush_call page) (parts_of self.new)) }
        ensures errand { IfOk result (λ now. ErrandFits (parts_of self.new) now.0) }
        ensures copied { IfOk result (λ now. CopiesOut (parts_of self.old) (parts_of self.new) page now.0) }
        ensures done { IfOk result (λ now. Tells (parts_of self.old) (flush_call page) now.1) }
        ensures err { IfErr result (λ why. Refuses (parts_of self.old) (flush_call page) why) }
        ensures unchanged { OnErr result (parts_of self.new ≡ parts_of self.old) }
    {
        match self.step(Move::FlushBegin { page }) {
            Ok(reply) => Ok((self.copy_out(page), (Move::FlushBegin { page }, reply))),
            Err(refusal) => Err(refusal),
        }
    }

    /// The flusher begins to write the next changed page.
    pub(crate) fn flush_next(&mut self, number: u32) -> Result<(Errand, Done), Refusal>
        requires { IsKept (parts_of self.old) }
        ensures ok { IfOk result (λ _. Does (parts_of self.old) (next_call number) (parts_of self.new)) }
        ensures errand { IfOk result (λ now. ErrandFits (parts_of self.new) now.0) }
        ensures copied { IfOk result (λ now. CopiesNext (parts_of self.old) (parts_of self.new) number now.0) }
        ensures done { IfOk result (λ now. Tells (parts_of self.old) (next_call number) now.1) }
        ensures err { IfErr result (λ why. Refuses (parts_of self.old) (next_call number) why) }
        ensures unchanged { OnErr result (parts_of self.new ≡ parts_of self.old) }
    {
        match self.core.dirty_from(number) {
            Some(page) => self.flush(page),
            None => Err(self.no_flush()),
        }
    }

    /// Why no flush begins where no page lets one begin.
    fn no_flush(&self) -> Refusal
        ensures { (s : State) → StandsFor (parts_of self.now) s
            → flush_if (is_some (flushed_page s)) None ≡ refused result }
    {
        match self.core.flushing() {
            Some(_) => Refusal::NotNow(Delay::FlushBusy),
            None => Refusal::OffPlan(Cause::NotDirty),
        }
    }

    /// The errand to write the page, with a copy of its image in the flusher's buffer.
    fn copy_out(&mut self, page: u32) -> Errand
        requires { CanCopy (parts_of self.old) page }
        ensures duty { result.duty ≡ Duty.Flush page }
        ensures image { (s : State) → StandsFor (parts_of self.old) s
            → IsImageOf (parts_of self.old) s page result.image }
        ensures rest { parts_of self.new ≡ record (parts_of self.old) { spare = None } }
    {
        let Some(mut image) = self.spare.take() else {
            unreachable!()
        };
        let Some(frame) = self.core.frame_of(page) else {
            unreachable!()
        };
        let Some(source) = &self.images[frame as usize] else {
            unreachable!()
        };
        image.copy_from(source);
        Errand {
            duty: Duty::Flush { page },
            image,
        }
    }
}
