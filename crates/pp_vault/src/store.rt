//! What a vault keeps.

ghost use Rattle.std.specs.Prelude.{◌≡◌, ◌<◌, None, Some, IsSome, IfOk, IfErr, length, slice_set};
ghost use Rattle.pp_cert.specs.declared.note.Held.TheVariants.{Free};
ghost use Rattle.pp_model.specs.Pool.{State};
ghost use Rattle.pp_core.specs.StandsFor.{StandsFor as CoreStandsFor};
ghost use Rattle.pp_core.specs.Queries.{ask_of, ask_holding};
ghost use Rattle.pp_vault.specs.Parts.{parts_of};
ghost use Rattle.pp_vault.specs.StandsFor.{image_in};
ghost use Rattle.pp_vault.specs.Steps.{Stepped, Refused, IsDone, IsRefusal};

use crate::image::Image;
use crate::refusal::Refusal;
use pp_core::{Ask, Came, Core, Held, Move, Reply};
use pp_plan::Mode;

/// A pool's core, and the images of its pages.
#[derive(Drop)]
pub struct Store {
    pub(crate) core: Core,
    /// At place f the image in frame f. It is missing while an errand loads the page that gets the frame, and while a
    /// worker has the frame's page latched X.
    pub(crate) images: Vec<Option<Image>>,
    /// The buffer of the flusher. It is missing while a flush is in flight.
    pub(crate) spare: Option<Image>,
    /// How many bytes a page has.
    pub(crate) page_bytes: usize,
}

/// The reply of a move that is done, or why the move is refused.
#[inline(always)]
fn answered(reply: Reply) -> Result<Reply, Refusal>
    ensures done { IfOk result (λ given. IsDone reply given) }
    ensures refused { IfErr result (λ refusal. IsRefusal reply refusal) }
{
    match reply {
        Reply::NotNow(delay) => Err(Refusal::NotNow(delay)),
        Reply::OffPlan(cause) => Err(Refusal::OffPlan(cause)),
        _ => Ok(reply),
    }
}

impl Store {
    /// Does the move, if it is possible.
    pub(crate) fn step(&mut self, asked: Move) -> Result<Reply, Refusal>
        ensures done { IfOk result (λ reply. Stepped (parts_of self.old) (parts_of self.new) asked reply) }
        ensures refused { IfErr result (λ refusal. Refused (parts_of self.old) (parts_of self.new) asked refusal) }
    {
        answered(self.core.step(&asked))
    }

    /// Does the fix, which the plan asks so, if it is possible.
    #[inline(always)]
    pub(crate) fn step_fix(&mut self, worker: u32, ask: Ask, page: u32) -> Result<Reply, Refusal>
        requires { (s : State) → CoreStandsFor (parts_of self.old).core s → ask_of s worker ≡ Some ask }
        ensures done { IfOk result (λ reply. Stepped (parts_of self.old) (parts_of self.new) (Move.Fix worker page) reply) }
        ensures refused { IfErr result (λ refusal. Refused (parts_of self.old) (parts_of self.new) (Move.Fix worker page) refusal) }
    {
        answered(self.core.fix_asked(worker, ask, page))
    }

    /// Does the answer to a read, if it is possible.
    #[inline(always)]
    pub(crate) fn step_read_done(&mut self, worker: u32, came: Came) -> Result<Reply, Refusal>
        ensures done { IfOk result (λ reply. Stepped (parts_of self.old) (parts_of self.new) (Move.ReadDone worker came) reply) }
        ensures refused { IfErr result (λ refusal. Refused (parts_of self.old) (parts_of self.new) (Move.ReadDone worker came) refusal) }
    {
        answered(self.core.read_done(worker, came))
    }

    /// Does the unfix, if it is possible.
    #[inline(always)]
    pub(crate) fn step_unfix(&mut self, worker: u32) -> Result<Reply, Refusal>
        ensures done { IfOk result (λ reply. Stepped (parts_of self.old) (parts_of self.new) (Move.Unfix worker) reply) }
        ensures refused { IfErr result (λ refusal. Refused (parts_of self.old) (parts_of self.new) (Move.Unfix worker) refusal) }
    {
        answered(self.core.unfix(worker))
    }

    /// Does the latch, if it is possible.
    #[inline(always)]
    pub(crate) fn step_latch(&mut self, worker: u32) -> Result<Reply, Refusal>
        ensures done { IfOk result (λ reply. Stepped (parts_of self.old) (parts_of self.new) (Move.Latch worker) reply) }
        ensures refused { IfErr result (λ refusal. Refused (parts_of self.old) (parts_of self.new) (Move.Latch worker) refusal) }
    {
        answered(self.core.latch(worker))
    }

    /// Does the unlatch, if it is possible.
    #[inline(always)]
    pub(crate) fn step_unlatch(&mut self, worker: u32) -> Result<Reply, Refusal>
        ensures done { IfOk result (λ reply. Stepped (parts_of self.old) (parts_of self.new) (Move.Unlatch worker) reply) }
        ensures refused { IfErr result (λ refusal. Refused (parts_of self.old) (parts_of self.new) (Move.Unlatch worker) refusal) }
    {
        answered(self.core.unlatch(worker))
    }

    /// Does the unfix of this page of this slot, which the plan asks, if it is possible.
    #[inline(always)]
    pub(crate) fn step_unfix_held(
        &mut self,
        worker: u32,
        slot: u8,
        page: u32,
    ) -> Result<Reply, Refusal>
        requires { (s : State) → CoreStandsFor (parts_of self.old).core s
            → ask_holding s worker slot page Free ≡ Some (Ask.Unfix slot) }
        ensures done { IfOk result (λ reply. Stepped (parts_of self.old) (parts_of self.new) (Move.Unfix worker) reply) }
        ensures refused { IfErr result (λ refusal. Refused (parts_of self.old) (parts_of self.new) (Move.Unfix worker) refusal) }
    {
        answered(self.core.unfix_held(worker, slot, page))
    }

    /// Does the latch of this page of this slot, which the plan asks, if it is possible.
    #[inline(always)]
    pub(crate) fn step_latch_held(
        &mut self,
        worker: u32,
        slot: u8,
        page: u32,
        mode: Mode,
    ) -> Result<Reply, Refusal>
        requires { (s : State) → CoreStandsFor (parts_of self.old).core s
            → ask_holding s worker slot page Free ≡ Some (Ask.Latch slot mode) }
        ensures done { IfOk result (λ reply. Stepped (parts_of self.old) (parts_of self.new) (Move.Latch worker) reply) }
        ensures refused { IfErr result (λ refusal. Refused (parts_of self.old) (parts_of self.new) (Move.Latch worker) refusal) }
    {
        answered(self.core.latch_held(worker, slot, page, mode))
    }

    /// Does the unlatch of this page of this slot, which the plan asks, if it is possible.
    #[inline(always)]
    pub(crate) fn step_unlatch_held(
        &mut self,
        worker: u32,
        slot: u8,
        page: u32,
        held: Held,
    ) -> Result<Reply, Refusal>
        requires { (s : State) → CoreStandsFor (parts_of self.old).core s
            → ask_holding s worker slot page held ≡ Some (Ask.Unlatch slot) }
        ensures done { IfOk result (λ reply. Stepped (parts_of self.old) (parts_of self.new) (Move.Unlatch worker) reply) }
        ensures refused { IfErr result (λ refusal. Refused (parts_of self.old) (parts_of self.new) (Move.Unlatch worker) refusal) }
    {
        answered(self.core.unlatch_held(worker, slot, page, held))
    }

    /// Takes the image out of a frame that has one.
    pub(crate) fn take_out(&mut self, frame: u32) -> Image
        requires { IsSome (image_in (parts_of self.old).images frame) }
        ensures image { image_in (parts_of self.old).images frame ≡ Some result }
        ensures rest { parts_of self.new ≡ record (parts_of self.old) {
          images = slice_set (parts_of self.old).images frame None;
        } }
    {
        let Some(image) = self.images[frame as usize].take() else {
            unreachable!()
        };
        image
    }

    /// Puts the image into the frame.
    pub(crate) fn put(&mut self, frame: u32, image: Image)
        requires { frame < length (parts_of self.old).images }
        ensures { parts_of self.new ≡ record (parts_of self.old) {
          images = slice_set (parts_of self.old).images frame (Some image);
        } }
    {
        self.images[frame as usize] = Some(image);
    }
}
