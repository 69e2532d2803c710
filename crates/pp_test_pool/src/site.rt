//! A site that doesn't show a page, shows it with another mark, or tells of a plan for whose events no memory has room.

use pp_device::image;
use pp_pool::{OwnSite, Request, Response, Site};
use pp_vault::ReadGuard;
use std::process::Abort;

/// What a site does.
#[derive(Clone, Copy)]
pub enum Habit {
    /// What its book says.
    Honest,
    /// It shows no page.
    Refuses,
    /// It shows the page with the next mark.
    MarksAnew,
    /// It tells of a plan that is too dear.
    Boasts,
}

/// A site with a habit.
#[derive(Drop)]
pub struct Odd<'a, R: Abort> {
    pub rt: &'a R,
    pub site: OwnSite,
    pub habit: Habit,
}

impl<'a, R: Abort> Site for Odd<'a, R> {
    ghost use Rattle.pp_pool.specs.Replies.{Replies};

    ghost gives = { λ s request response t. Replies request response };

    ghost shows = { λ s guard before shown after. Unit {0} };

    ghost tells = { λ s most. Unit {0} };

    fn perform(&mut self, request: Request) -> Response {
        self.site.perform(request)
    }

    fn look(&mut self, guard: &ReadGuard, bytes: &mut [u8]) -> bool {
        if matches!(self.habit, Habit::Refuses) || !self.site.look(guard, bytes) {
            return false;
        }
        if matches!(self.habit, Habit::MarksAnew) {
            image::make(bytes, guard.page(), guard.mark().wrapping_add(1));
            if image::head(bytes).0 != guard.page() {
                panic!(self.rt; "the head names another page");
            }
        }
        true
    }

    fn most(&mut self) -> u64 {
        match self.habit {
            Habit::Boasts => u64::MAX,
            _ => self.site.most(),
        }
    }
}
