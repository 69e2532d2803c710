//! A work that sees copies of pages, whose latches may be off by then.

ghost use Rattle.std.specs.Prelude.{◌≡◌, ◌⊎◌, ◌≤◌, ◌<◌, ◌+◌, ◌-◌, ◌^◌, None, Some, IfOk, IfErr, length, take, min, max};
ghost use Rattle.pp_device.specs.Image.{head_of};
ghost use Rattle.pp_buffer_pool.specs.Copies.{CatchesUp, Ends};

use pp_device::image;
use pp_pool::{End, Held, Kind, Loan, Work};
use pp_settings::limits::FEWEST_PAGE_BYTES;
use std::alloc::{AllocError, Global};

/// As many bytes of an image as a work sees at least: as many as every page has.
const SHORTEST: usize = FEWEST_PAGE_BYTES as usize;

/// A page that a work has still to see.
#[derive(Clone, Copy, Debug)]
pub(crate) struct Late {
    pub page: u32,
    pub mark: u64,
    /// How many bytes of its image were copied.
    pub len: usize,
}

/// A work for [`BufferPool::execute_on_copies`](crate::BufferPool::execute_on_copies): it sees a copy of each page that
/// the plan latches S, when the page may be unlatched already, and given back.
///
/// Each call is the caller's own work's, in the same order. But a page that was shown is kept here, and that work sees
/// it before its next call. So it has seen all pages before it names the next one, chooses a branch, changes a page, or
/// is told that its plan has ended. Only its [`Work::reach`] isn't asked: how much it sees is said when this is made.
///
/// What it sees of a page is what the page was while it was latched: whole, and no change in part. But the page may
/// have been changed since. It is for works that read one page after the other, as a scan does, and need no page to
/// stay as it is while they look at it. What a plan keeps latched until a later call of the work, as a descent does, is
/// still latched when the work sees it.
///
/// [`BufferPool::execute`](crate::BufferPool::execute) takes such a work too, but gives the lock back all the same.
#[derive(Drop)]
pub struct OnCopies<W> {
    /// The caller's work.
    pub work: W,
    late: Option<Late>,
    // Room for the image of one page.
    copy: Vec<u8>,
}

impl<W: Work> OnCopies<W> {
    /// The work, with room for a copy of so many bytes, and for 64 at least: as far as that it sees each page, from the
    /// first byte of the head on. One can serve any number of plans, one after the other.
    ///
    /// # Errors
    ///
    /// The work comes back where memory ran out.
    pub fn new(alloc: Global, work: W, bytes: u32) -> Result<OnCopies<W>, (AllocError, W)>
        ensures work { IfOk result (λ made. made.work ≡ work) }
        ensures late { IfOk result (λ made. made.late ≡ None) }
        ensures room { IfOk result (λ made. length made.copy.items ≡ max bytes 64) }
        ensures back { IfErr result (λ e. e.1 ≡ work) }
    {
        match vec![in alloc; 0; (bytes as usize).max(SHORTEST)] {
            Ok(copy) => Ok(OnCopies {
                work,
                late: None,
                copy,
            }),
            Err(error) => Err((error, work)),
        }
    }

    /// The caller's work.
    pub fn into_work(self) -> W
        ensures { result ≡ self.work }
    {
        let OnCopies {
            work,
            late: _,
            copy: _copy,
        } = self;
        work
    }

    /// Shows the work the page that it has still to see, if there is one, and tells it that its plan has ended so.
    pub(crate) fn tell_end(&mut self, end: End)
        ensures { Ends W.Work self.old end self.new }
    {
        self.catch_up();
        self.work.ended(end);
    }

    /// Shows the work the page that it has still to see, if there is one.
    pub(crate) fn catch_up(&mut self)
        ensures work { CatchesUp W.Work self.old.copy.items self.old.late self.old.work self.new.work }
        ensures late { self.new.late ≡ None }
        ensures room { length self.new.copy.items ≡ length self.old.copy.items }
    {
        let Some(Late { page, mark, len }) = self.late.take() else {
            return;
        };
        if len < SHORTEST || self.copy.len() < len {
            return;
        }
        let front = &self.copy[..len];
        if image::head(front) == (page, mark) {
            self.work.see(page, mark, front);
        }
    }
}

impl<W: Work> Work for OnCopies<W> {
    ghost use Rattle.std.specs.Prelude.{◌≡◌, ◌⊎◌, length};
    ghost use Rattle.pp_buffer_pool.specs.Copies.{CatchesUpIn, CopiesLate, Ends};

    ghost page_gives = { λ e region first count page f.
        (w : W) × CatchesUpIn W.Work e w f × W.page_gives w region first count page f.work };

    ghost branch_gives = { λ e count branch f. (w : W) × CatchesUpIn W.Work e w f × W.branch_gives w count branch f.work };

    ghost reach_gives = { λ e bytes. bytes ≡ length e.copy.items };

    ghost change_leaves = { λ e page before left f.
        (w : W) × CatchesUpIn W.Work e w f × W.change_leaves w page before left f.work };

    ghost see_leaves = { λ e page mark image f. CopiesLate W.Work e page mark image f };

    ghost page_into_gives = { λ e slot kind region first count page f.
        (w : W) × CatchesUpIn W.Work e w f
        × (W.page_into_gives w slot kind region first count page f.work ⊎ W.page_gives w region first count page f.work) };

    ghost begins_leaves = { λ e plan f.
        (w : W) × CatchesUpIn W.Work e w f × (W.begins_leaves w plan f.work ⊎ (f.work ≡ w)) };

    ghost ended_leaves = { λ e end f. Ends W.Work e end f };

    ghost wants_rework_gives = { λ wanted. W.wants_rework_gives wanted };

    ghost rework_leaves = { λ e off before left f.
        (w : W) × CatchesUpIn W.Work e w f
        × (W.rework_leaves w off before left f.work ⊎ ((f.work ≡ w) × (left ≡ before))) };

    fn begins(&mut self, plan: u64) {
        self.catch_up();
        self.work.begins(plan);
    }

    fn ended(&mut self, end: End) {
        self.tell_end(end);
    }

    fn page_into(&mut self, slot: u8, kind: Kind, region: u8, first: u32, count: u32) -> u32 {
        self.catch_up();
        self.work.page_into(slot, kind, region, first, count)
    }

    fn page(&mut self, region: u8, first: u32, count: u32) -> u32 {
        self.catch_up();
        self.work.page(region, first, count)
    }

    fn branch(&mut self, count: u16) -> u16 {
        self.catch_up();
        self.work.branch(count)
    }

    fn reach(&self) -> usize {
        self.copy.len()
    }

    fn change(&mut self, page: u32, body: &mut [u8]) {
        self.catch_up();
        self.work.change(page, body);
    }

    fn see(&mut self, page: u32, mark: u64, image: &[u8]) {
        self.catch_up();
        let len = copy_front(&mut self.copy, image);
        self.late = Some(Late { page, mark, len });
    }

    fn wants_rework() -> bool {
        W::wants_rework()
    }

    fn rework<L: Loan>(&mut self, off: u8, held: &mut Held<L>) {
        self.catch_up();
        self.work.rework(off, held);
    }
}

/// Copies as many bytes from the front of the one to the front of the other as both have. Tells how many.
#[tactic(auto, using(crate::proofs::Copied::front_copied))]
fn copy_front(to: &mut [u8], from: &[u8]) -> usize
    ensures len { result ≡ min (length from.now) (length to.old) }
    ensures front { take result to.new ≡ take result from.now }
    ensures room { length to.new ≡ length to.old }
{
    let len = from.len().min(to.len());
    to[..len].copy_from_slice(&from[..len]);
    len
}
