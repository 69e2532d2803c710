//! The answer of a device: what it was handed comes back.

ghost use Rattle.std.specs.Prelude.{◌≡◌, IfOk, IfErr, OnErr};
ghost use Rattle.pp_model.specs.Pool.{State};
ghost use Rattle.pp_vault.specs.Parts.{parts_of};
ghost use Rattle.pp_vault.specs.StandsFor.{StandsFor, IsKept};
ghost use Rattle.pp_vault.specs.Events.{Refuses, Tells};
ghost use Rattle.pp_vault.specs.Answers.{is_flush_out, flushed_call, IsFlushed};
ghost use Rattle.pp_vault.specs.Answers.{is_head_of, is_write_out, write_call, WriteEnds};
ghost use Rattle.pp_vault.specs.Answers.{came_of, is_read_out, read_call, ReadEnds};
ghost use Rattle.pp_vault.specs.Answers.{duty_call, answer_call, DutyEnds, AnswerComesTo};
ghost use Rattle.pp_model.specs.Pool.{known_mark};
ghost use Rattle.pp_device.specs.Image.{head_of};

use crate::guards::{BundleGuard, PinGuard};
use crate::image::Image;
use crate::refusal::Refusal;
use crate::store::Store;
use crate::tokens::{Duty, Errand, Leaver, Returned, Session};
use crate::vault::Done;
use pp_core::{Came, Move, Reply};

/// What the answer of a device comes to.
#[derive(Debug)]
pub enum Answered {
    /// The page was read for a fix. Its image stands in its frame, and the slot holds it.
    Got(Session, PinGuard),
    /// The page was read for a gather. Its image stands in its frame, and it is the first page of the bundle.
    Opened(Session, BundleGuard),
    /// The page was read for a gather. Its image stands in its frame, and it is one more page of a bundle that holds some.
    Joined(Session),
    /// The victim was written. Its image goes on with an errand to read the page into it.
    Away(Errand),
    /// The worker leaves its plan, and the image that came is back in the frame that the page had. Either the device
    /// failed to write the victim, which has the frame again. Or it failed to read the page, or gave an image of another
    /// page or of another stamp than the page's known mark; where no mark is known, a stamp of 2^62 or more.
    Lost(Leaver),
    /// The flush is over, and its buffer is back; whether the page is clean. It isn't where the device failed, or where
    /// the page has changed meanwhile.
    Flushed(bool),
}

/// What the core is told that came.
fn came_of(ok: bool, image: &Image) -> Came
    ensures { result ≡ came_of ok (head_of image.now) }
{
    if !ok {
        return Came::Fault;
    }
    let (named, stamp) = image.head();
    Came::Image(named, stamp)
}

impl Store {
    /// Whether the image is the buffer of a flush of this page that is in flight.
    fn is_flush_out(&self, page: u32, image: &Image) -> bool
        ensures { (s : State) → StandsFor (parts_of self.now) s
            → result ≡ is_flush_out (parts_of self.now).page_bytes page image.now s }
    {
        match self.core.flushing() {
            Some(flushed) => flushed == page && image.len() == self.page_bytes,
            None => false,
        }
    }

    /// The device has answered a flush: its buffer comes back. Tells whether the page is clean.
    pub(crate) fn flushed(
        &mut self,
        page: u32,
        image: Image,
        ok: bool,
    ) -> Result<(bool, Done), (Image, Refusal)>
        requires { IsKept (parts_of self.old) }
        ensures ok { IfOk result (λ now. IsFlushed (parts_of self.old) page image ok now.0 (parts_of self.new)) }
        ensures done { IfOk result (λ now. Tells (parts_of self.old)
            (flushed_call (parts_of self.old).page_bytes page image ok) now.1) }
        ensures err { IfErr result (λ e. Refuses (parts_of self.old)
            (flushed_call (parts_of self.old).page_bytes page image ok) e.1) }
        ensures back { IfErr result (λ e. e.0 ≡ image) }
        ensures unchanged { OnErr result (parts_of self.new ≡ parts_of self.old) }
    {
        if !self.is_flush_out(page, &image) {
            return Err((image, Refusal::Stranger));
        }
        let reply = match self.step(Move::FlushDone { ok }) {
            Ok(reply) => reply,
            Err(refusal) => return Err((image, refusal)),
        };
        self.spare = Some(image);
        let done = (Move::FlushDone { ok }, reply);
        match reply {
            Reply::Flushed { clean } => Ok((clean, done)),
            _ => unreachable!(),
        }
    }

    /// Whether the image names the page and its known mark.
    fn is_headed(&self, page: u32, image: &Image) -> bool
        ensures { (s : State) → StandsFor (parts_of self.now) s
            → result ≡ is_head_of page (head_of image.now) (known_mark s page) }
    {
        let (named, stamp) = image.head();
        match self.core.mark(page) {
            Some(mark) => named == page && stamp == mark,
            None => false,
        }
    }

    /// Whether this write of a victim is out for the worker, with this image.
    fn is_write_out(&self, worker: u32, slot: u32, page: u32, victim: u32, image: &Image) -> bool
        ensures { (s : State) → StandsFor (parts_of self.now) s
            → result ≡ is_write_out (parts_of self.now).page_bytes worker slot page victim image.now s }
    {
        let fits = image.len() == self.page_bytes && self.is_headed(victim, image);
        match self.core.errand(worker) {
            Some((its_slot, its_page, Some(its_victim))) => its_slot == slot
                && its_page == page
                && its_victim == victim
                && fits,
            _ => false,
        }
    }

    /// The device has answered the write of a victim: its image goes on to be read into, or comes back.
    pub(crate) fn written(
        &mut self,
        worker: u32,
        slot: u32,
        page: u32,
        victim: u32,
        image: Image,
        ok: bool,
    ) -> Result<(Result<Errand, Leaver>, Done), (Image, Refusal)>
        requires { IsKept (parts_of self.old) }
        ensures ok { IfOk result (λ now. WriteEnds (parts_of self.old) worker slot page victim image ok now.0
            (parts_of self.new)) }
        ensures done { IfOk result (λ now. Tells (parts_of self.old)
            (write_call (parts_of self.old).page_bytes worker slot page victim image ok) now.1) }
        ensures err { IfErr result (λ e. Refuses (parts_of self.old)
            (write_call (parts_of self.old).page_bytes worker slot page victim image ok) e.1) }
        ensures back { IfErr result (λ e. e.0 ≡ image) }
        ensures unchanged { OnErr result (parts_of self.new ≡ parts_of self.old) }
    {
        if !self.is_write_out(worker, slot, page, victim, &image) {
            return Err((image, Refusal::Stranger));
        }
        let Some(frame) = self.core.frame_of(page) else {
            unreachable!()
        };
        let reply = match self.step(Move::WriteDone { worker, ok }) {
            Ok(reply) => reply,
            Err(refusal) => return Err((image, refusal)),
        };
        let done = (Move::WriteDone { worker, ok }, reply);
        match reply {
            Reply::MustRead { .. } => {
                let duty = Duty::Read { worker, slot, page };
                Ok((Ok(Errand { duty, image }), done))
            }
            Reply::Failed { .. } => {
                self.put(frame, image);
                Ok((Err(Leaver { worker }), done))
            }
            _ => unreachable!(),
        }
    }

    /// Whether this read is out for the worker, with an image of a page's length.
    fn is_read_out(&self, worker: u32, slot: u32, page: u32, image: &Image) -> bool
        ensures { (s : State) → StandsFor (parts_of self.now) s
            → result ≡ is_read_out (parts_of self.now).page_bytes worker slot page image.now s }
    {
        let fits = image.len() == self.page_bytes;
        match self.core.errand(worker) {
            Some((its_slot, its_page, None)) => its_slot == slot && its_page == page && fits,
            _ => false,
        }
    }

    /// The device has answered a read: the image comes back, with the page in it or without.
    pub(crate) fn read(
        &mut self,
        worker: u32,
        slot: u32,
        page: u32,
        image: Image,
        ok: bool,
    ) -> Result<(Answered, Done), (Image, Refusal)>
        requires { IsKept (parts_of self.old) }
        ensures ok { IfOk result (λ now. ReadEnds (parts_of self.old) worker slot page image ok now.0
            (parts_of self.new)) }
        ensures done { IfOk result (λ now. Tells (parts_of self.old)
            (read_call (parts_of self.old).page_bytes worker slot page image ok) now.1) }
        ensures err { IfErr result (λ e. Refuses (parts_of self.old)
            (read_call (parts_of self.old).page_bytes worker slot page image ok) e.1) }
        ensures back { IfErr result (λ e. e.0 ≡ image) }
        ensures unchanged { OnErr result (parts_of self.new ≡ parts_of self.old) }
    {
        if !self.is_read_out(worker, slot, page, &image) {
            return Err((image, Refusal::Stranger));
        }
        let Some(frame) = self.core.frame_of(page) else {
            unreachable!()
        };
        let came = came_of(ok, &image);
        let reply = match self.step_read_done(worker, came) {
            Ok(reply) => reply,
            Err(refusal) => return Err((image, refusal)),
        };
        self.put(frame, image);
        let done = (Move::ReadDone { worker, came }, reply);
        match reply {
            Reply::Loaded { .. } => {
                let session = self.session(worker);
                match self.core.gathered(worker, slot) {
                    0 => Ok((
                        Answered::Got(session, PinGuard { worker, slot, page }),
                        done,
                    )),
                    1 => Ok((
                        Answered::Opened(session, BundleGuard { worker, slot }),
                        done,
                    )),
                    _ => Ok((Answered::Joined(session), done)),
                }
            }
            Reply::Failed { .. } => Ok((Answered::Lost(Leaver { worker }), done)),
            _ => unreachable!(),
        }
    }

    /// The device has answered this duty.
    fn end_duty(
        &mut self,
        duty: Duty,
        image: Image,
        ok: bool,
    ) -> Result<(Answered, Done), (Image, Refusal)>
        requires { IsKept (parts_of self.old) }
        ensures ok { IfOk result (λ now. DutyEnds (parts_of self.old) duty image ok now.0 (parts_of self.new)) }
        ensures done { IfOk result (λ now. Tells (parts_of self.old)
            (duty_call (parts_of self.old).page_bytes duty image ok) now.1) }
        ensures err { IfErr result (λ e. Refuses (parts_of self.old)
            (duty_call (parts_of self.old).page_bytes duty image ok) e.1) }
        ensures back { IfErr result (λ e. e.0 ≡ image) }
        ensures unchanged { OnErr result (parts_of self.new ≡ parts_of self.old) }
    {
        match duty {
            Duty::Read { worker, slot, page } => self.read(worker, slot, page, image, ok),
            Duty::Write {
                worker,
                slot,
                page,
                victim,
            } => {
                let (ends, done) = self.written(worker, slot, page, victim, image, ok)?;
                match ends {
                    Ok(errand) => Ok((Answered::Away(errand), done)),
                    Err(leaver) => Ok((Answered::Lost(leaver), done)),
                }
            }
            Duty::Flush { page } => {
                let (clean, done) = self.flushed(page, image, ok)?;
                Ok((Answered::Flushed(clean), done))
            }
        }
    }

    /// The device has answered: what it was asked ends, or goes on.
    pub(crate) fn answer(
        &mut self,
        returned: Returned,
    ) -> Result<(Answered, Done), (Returned, Refusal)>
        requires { IsKept (parts_of self.old) }
        ensures ok { IfOk result (λ now. AnswerComesTo (parts_of self.old) returned now.0 (parts_of self.new)) }
        ensures done { IfOk result (λ now. Tells (parts_of self.old)
            (answer_call (parts_of self.old).page_bytes returned) now.1) }
        ensures err { IfErr result (λ e. Refuses (parts_of self.old)
            (answer_call (parts_of self.old).page_bytes returned) e.1) }
        ensures back { IfErr result (λ e. e.0 ≡ returned) }
        ensures unchanged { OnErr result (parts_of self.new ≡ parts_of self.old) }
    {
        let Returned {
            duty,
            image,
            answer,
        } = returned;
        match self.end_duty(duty, image, answer.is_ok()) {
            Ok(now) => Ok(now),
            Err((image, refusal)) => Err((
                Returned {
                    duty,
                    image,
                    answer,
                },
                refusal,
            )),
        }
    }
}
