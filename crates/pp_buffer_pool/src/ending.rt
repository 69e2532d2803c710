//! A work, and how its plan ended.

ghost use Rattle.std.specs.Prelude.{◌≡◌, ◌⊎◌, ◌≤◌, ◌<◌, ◌+◌, ◌-◌, ◌^◌, None, Some, length, false};
ghost use Rattle.pp_device.specs.Image.{head_of};

use pp_pool::{End, Held, Kind, Loan, Work};

/// A caller's work, with a note how the plan ended. Each call is the work's own, but [`Work::ended`]: it notes the end
/// and goes no further, so that it may come while the lock is held. Whoever runs the plan tells the work once the lock
/// is let go.
pub(crate) struct Ending<W> {
    pub work: W,
    /// How the plan ended, once it has.
    pub end: Option<End>,
}

impl<W: Work> Ending<W> {
    /// The work, whose plan hasn't ended.
    pub(crate) fn over(work: W) -> Ending<W>
        ensures { result ≡ record { work = work; end = None } }
    {
        Ending { work, end: None }
    }
}

impl<W: Work> Work for Ending<W> {
    ghost use Rattle.std.specs.Prelude.{◌≡◌, ◌⊎◌, Some};

    ghost page_gives = { λ e region first count page f.
        W.page_gives e.work region first count page f.work × (f.end ≡ e.end) };

    ghost branch_gives = { λ e count branch f. W.branch_gives e.work count branch f.work × (f.end ≡ e.end) };

    ghost reach_gives = { λ e bytes. W.reach_gives e.work bytes };

    ghost change_leaves = { λ e page before left f. W.change_leaves e.work page before left f.work × (f.end ≡ e.end) };

    ghost see_leaves = { λ e page mark image f. W.see_leaves e.work page mark image f.work × (f.end ≡ e.end) };

    ghost page_into_gives = { λ e slot kind region first count page f.
        W.page_into_gives e.work slot kind region first count page f.work × (f.end ≡ e.end) };

    ghost begins_leaves = { λ e plan f. (W.begins_leaves e.work plan f.work ⊎ (f.work ≡ e.work)) × (f.end ≡ e.end) };

    ghost ended_leaves = { λ e end f. (f.work ≡ e.work) × (f.end ≡ Some end) };

    ghost wants_rework_gives = { λ wanted. W.wants_rework_gives wanted };

    ghost rework_leaves = { λ e off before left f. W.rework_leaves e.work off before left f.work × (f.end ≡ e.end) };

    fn begins(&mut self, plan: u64) {
        self.work.begins(plan);
    }

    fn ended(&mut self, end: End) {
        self.end = Some(end);
    }

    fn page_into(&mut self, slot: u8, kind: Kind, region: u8, first: u32, count: u32) -> u32 {
        self.work.page_into(slot, kind, region, first, count)
    }

    fn page(&mut self, region: u8, first: u32, count: u32) -> u32 {
        self.work.page(region, first, count)
    }

    fn branch(&mut self, count: u16) -> u16 {
        self.work.branch(count)
    }

    fn reach(&self) -> usize {
        self.work.reach()
    }

    fn change(&mut self, page: u32, body: &mut [u8]) {
        self.work.change(page, body);
    }

    fn see(&mut self, page: u32, mark: u64, image: &[u8]) {
        self.work.see(page, mark, image);
    }

    fn wants_rework() -> bool {
        W::wants_rework()
    }

    fn rework<L: Loan>(&mut self, off: u8, held: &mut Held<L>) {
        self.work.rework(off, held);
    }
}
