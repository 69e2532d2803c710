//! Which pages may not leave the cache.

ghost use Rattle.std.specs.Prelude.{◌≡◌};

use pp_arc::Busy;
use pp_frames::Marks;

/// The pages that are taken, by their pins, and the one that is being flushed.
#[derive(Clone, Copy)]
pub(crate) struct BusyPages<'a> {
    pub(crate) marks: &'a Marks,
    pub(crate) flushed: Option<u32>,
}

impl Busy for BusyPages<'_> {
    ghost use Rattle.pp_core.specs.Busy.{is_busy_in};

    ghost busy = { λ b page. is_busy_in b.marks.now b.flushed page };

    fn is_busy(&self, page: u32) -> bool {
        self.marks.pins(page) > 0 || self.flushed == Some(page)
    }
}
