//! Giving slots back: what a worker that leaves its plan does with its guards.

ghost use Rattle.std.specs.Prelude.{◌≡◌, ◌≢◌, ◌&&◌, true, IfOk, IfErr, OnErr};
ghost use Rattle.pp_model.specs.Pool.{State};
ghost use Rattle.pp_cert.specs.declared.note.Held.TheVariants.{X};
ghost use Rattle.pp_vault.specs.Holding.{slot_by};
ghost use Rattle.pp_vault.specs.Parts.{parts_of};
ghost use Rattle.pp_vault.specs.StandsFor.{StandsFor, IsKept};
ghost use Rattle.pp_vault.specs.Fits.{leaver_fits as fits_leaving, leaver_fits_bundle, IsEmpty, unwind_call};
ghost use Rattle.pp_vault.specs.Fits.{unwind_bundle_call};
ghost use Rattle.pp_vault.specs.Events.{Refuses, Tells};
ghost use Rattle.pp_vault.specs.Tokens.{is_long};
ghost use Rattle.pp_vault.specs.Leaves.{give_back_call, GivesSlot, GivesImage, GivesBundle, GivesBack};

use crate::guards::{BundleGuard, Guard, PinGuard, ReadGuard, WriteGuard};
use crate::latching::mark_in;
use crate::refusal::Refusal;
use crate::store::Store;
use crate::tokens::Leaver;
use crate::vault::Done;
use pp_core::{Held, Move};

impl Store {
    /// Whether a leaving worker and a guard fit: the guard is the worker's, and its slot holds its page so.
    fn fits_leaver(&self, worker: u32, of: u32, slot: u32, page: u32, held: Held) -> bool
        ensures { (s : State) → StandsFor (parts_of self.now) s → result ≡ fits_leaving s worker of slot page held }
    {
        self.core.is_leaving(worker) && of == worker && self.holds_so(worker, slot, page, held)
    }

    /// Whether a leaving worker and a guard with an image fit: they do so with the page latched X, and the image is as
    /// long as a page's.
    fn fits_leaving_writer(&self, worker: u32, guard: &WriteGuard) -> bool
        ensures { (s : State) → StandsFor (parts_of self.now) s → result
            ≡ (fits_leaving s worker guard.now.worker guard.now.slot guard.now.page X
            && is_long (parts_of self.now) guard.now.image) }
    {
        self.fits_leaver(worker, guard.worker, guard.slot, guard.page, Held::X)
            && guard.image.len() == self.page_bytes
    }

    /// Whether a leaving worker and a bundle's guard fit: the guard is the worker's, and its slot is a bundle.
    fn fits_leaver_bundle(&self, worker: u32, of: u32, slot: u32) -> bool
        ensures { (s : State) → StandsFor (parts_of self.now) s → result ≡ leaver_fits_bundle s worker of slot }
    {
        self.core.is_leaving(worker) && of == worker && self.has_gathered(worker, slot)
    }

    /// A worker that leaves gives back a slot that isn't latched X. All images stay.
    fn give_slot(
        &mut self,
        leaver: Leaver,
        of: u32,
        slot: u32,
        page: u32,
        held: Held,
    ) -> Result<(Leaver, Done), (Leaver, Refusal)>
        requires kept { IsKept (parts_of self.old) }
        requires not_written { held ≢ X }
        ensures ok { IfOk result
            (λ now. GivesSlot (parts_of self.old) leaver of slot page held (parts_of self.new) now.0) }
        ensures empty { IfOk result (λ _. (s : State) → StandsFor (parts_of self.new) s
            → IsEmpty s leaver.worker slot) }
        ensures done { IfOk result (λ now. Tells (parts_of self.old)
            (unwind_call true held leaver.worker of slot page) now.1) }
        ensures err { IfErr result (λ e. Refuses (parts_of self.old)
            (unwind_call true held leaver.worker of slot page) e.1) }
        ensures back { IfErr result (λ e. e.0 ≡ leaver) }
        ensures unchanged { OnErr result (parts_of self.new ≡ parts_of self.old) }
    {
        let worker = leaver.worker;
        if !self.fits_leaver(worker, of, slot, page, held) {
            return Err((leaver, Refusal::Stranger));
        }
        match self.step(Move::Unwind { worker, slot }) {
            Ok(reply) => Ok((leaver, (Move::Unwind { worker, slot }, reply))),
            Err(refusal) => Err((leaver, refusal)),
        }
    }

    /// A worker that leaves gives back a slot that is latched X. The image goes back into its frame, with the raised
    /// mark.
    fn give_image(
        &mut self,
        leaver: Leaver,
        guard: WriteGuard,
    ) -> Result<(Leaver, Done), (Leaver, WriteGuard, Refusal)>
        requires { IsKept (parts_of self.old) }
        ensures ok { IfOk result (λ now. GivesImage (parts_of self.old) leaver guard (parts_of self.new) now.0) }
        ensures empty { IfOk result (λ _. (s : State) → StandsFor (parts_of self.new) s
            → IsEmpty s leaver.worker guard.slot) }
        ensures done { IfOk result (λ now. Tells (parts_of self.old)
            (unwind_call (is_long (parts_of self.old) guard.image) X leaver.worker guard.worker guard.slot guard.page) now.1) }
        ensures err { IfErr result (λ e. Refuses (parts_of self.old) (unwind_call
            (is_long (parts_of self.old) guard.image) X leaver.worker guard.worker guard.slot guard.page) e.2) }
        ensures back { IfErr result (λ e. (e.0 ≡ leaver) × (e.1 ≡ guard)) }
        ensures unchanged { OnErr result (parts_of self.new ≡ parts_of self.old) }
    {
        let worker = leaver.worker;
        if !self.fits_leaving_writer(worker, &guard) {
            return Err((leaver, guard, Refusal::Stranger));
        }
        let Some(frame) = self.core.frame_of(guard.page) else {
            unreachable!()
        };
        let slot = guard.slot;
        match self.step(Move::Unwind { worker, slot }) {
            Ok(reply) => {
                let WriteGuard {
                    worker: _,
                    slot: _,
                    page,
                    mark: _,
                    mut image,
                } = guard;
                image.set_head(page, mark_in(reply));
                self.put(frame, image);
                Ok((leaver, (Move::Unwind { worker, slot }, reply)))
            }
            Err(refusal) => Err((leaver, guard, refusal)),
        }
    }

    /// A worker that leaves gives a bundle back, all its pages at once. All images stay.
    fn give_bundle(
        &mut self,
        leaver: Leaver,
        guard: BundleGuard,
    ) -> Result<(Leaver, Done), (Leaver, BundleGuard, Refusal)>
        requires { IsKept (parts_of self.old) }
        ensures ok { IfOk result
            (λ now. GivesBundle (parts_of self.old) leaver guard.worker guard.slot (parts_of self.new) now.0) }
        ensures empty { IfOk result (λ _. (s : State) → StandsFor (parts_of self.new) s
            → IsEmpty s leaver.worker guard.slot) }
        ensures done { IfOk result (λ now. Tells (parts_of self.old)
            (unwind_bundle_call leaver.worker guard.worker guard.slot) now.1) }
        ensures err { IfErr result (λ e. Refuses (parts_of self.old)
            (unwind_bundle_call leaver.worker guard.worker guard.slot) e.2) }
        ensures back { IfErr result (λ e. (e.0 ≡ leaver) × (e.1 ≡ guard)) }
        ensures unchanged { OnErr result (parts_of self.new ≡ parts_of self.old) }
    {
        let worker = leaver.worker;
        let slot = guard.slot;
        if !self.fits_leaver_bundle(worker, guard.worker, slot) {
            return Err((leaver, guard, Refusal::Stranger));
        }
        match self.step(Move::Unwind { worker, slot }) {
            Ok(reply) => {
                let BundleGuard { worker: _, slot: _ } = guard;
                Ok((leaver, (Move::Unwind { worker, slot }, reply)))
            }
            Err(refusal) => Err((leaver, guard, refusal)),
        }
    }

    /// A worker that leaves gives a slot back.
    pub(crate) fn give_back(
        &mut self,
        leaver: Leaver,
        guard: Guard,
    ) -> Result<(Leaver, Done), (Leaver, Guard, Refusal)>
        requires { IsKept (parts_of self.old) }
        ensures ok { IfOk result (λ now. GivesBack (parts_of self.old) leaver guard (parts_of self.new) now.0) }
        ensures empty { IfOk result (λ _. (s : State) → StandsFor (parts_of self.new) s
            → IsEmpty s leaver.worker (slot_by guard)) }
        ensures done { IfOk result (λ now. Tells (parts_of self.old)
            (give_back_call (parts_of self.old) leaver guard) now.1) }
        ensures err { IfErr result
            (λ e. Refuses (parts_of self.old) (give_back_call (parts_of self.old) leaver guard) e.2) }
        ensures back { IfErr result (λ e. (e.0 ≡ leaver) × (e.1 ≡ guard)) }
        ensures unchanged { OnErr result (parts_of self.new ≡ parts_of self.old) }
    {
        match guard {
            Guard::Pin(PinGuard { worker, slot, page }) => {
                match self.give_slot(leaver, worker, slot, page, Held::Free) {
                    Ok(now) => Ok(now),
                    Err((leaver, refusal)) => {
                        Err((leaver, Guard::Pin(PinGuard { worker, slot, page }), refusal))
                    }
                }
            }
            Guard::Read(
                ReadGuard {
                    worker,
                    slot,
                    page,
                    mark,
                },
            ) => match self.give_slot(leaver, worker, slot, page, Held::S) {
                Ok(now) => Ok(now),
                Err((leaver, refusal)) => Err((
                    leaver,
                    Guard::Read(ReadGuard {
                        worker,
                        slot,
                        page,
                        mark,
                    }),
                    refusal,
                )),
            },
            Guard::Write(guard) => match self.give_image(leaver, guard) {
                Ok(now) => Ok(now),
                Err((leaver, guard, refusal)) => Err((leaver, Guard::Write(guard), refusal)),
            },
            Guard::Bundle(guard) => match self.give_bundle(leaver, guard) {
                Ok(now) => Ok(now),
                Err((leaver, guard, refusal)) => Err((leaver, Guard::Bundle(guard), refusal)),
            },
        }
    }
}
