//! What a worker does with its pages.

ghost use Rattle.std.specs.Prelude.{◌≡◌, ◌<◌, ◌≤◌, ◌+◌, ◌-◌, ◌^◌, ◌⊎◌, ℕ, Bool, false, List, length};
ghost use Rattle.pp_device.specs.Image.{head_of};
ghost use Rattle.pp_pool.specs.declared.work.End.{End};
ghost use Rattle.pp_pool.specs.declared.work.Kind.{Kind};
ghost use Rattle.pp_pool.specs.Lent.{LentPage, lent};

use crate::held::{Held, Loan};
use pp_model::Failure;

/// How a page comes into a slot.
#[derive(Clone, Copy, Debug, PartialEq, Eq)]
pub enum Kind {
    /// By a fix: the slot holds this page alone, and it may be latched.
    Fix,
    /// By a gather: it is one of the slot's bundle.
    Gather,
}

/// How a plan ended.
#[derive(Clone, Copy, Debug, PartialEq, Eq)]
pub enum End {
    /// All that it says was done.
    Done,
    /// It was left, since a call of the device failed, or a reading gave an image of another page.
    Gone {
        /// The page of that call: where a victim couldn't be written back, the victim.
        page: u32,
        why: Failure,
    },
}

/// What a worker does with the pages of its plans, and which way it takes where a plan leaves that open.
///
/// Each worker has a work of its own. A turn of the worker makes at most one of these calls, so they come one after
/// another, in the order of the plan's statements:
///
/// | Call | When |
/// |---|---|
/// | [`Work::begins`] | once as the worker has taken a plan |
/// | [`Work::page_into`] | each time the worker asks its site for a fix or a gather |
/// | [`Work::branch`] | each time it asks for a choice |
/// | [`Work::change`] | once after each latch X |
/// | [`Work::see`] | once after each latch S |
/// | [`Work::rework`] | once before each latch X is taken off, where the work wants that ([`Work::wants_rework`]) |
/// | [`Work::ended`] | once as the plan is done, or as the worker has left it and holds nothing any more |
///
/// [`Work::reach`] is asked besides, before each look at a page, and may answer another number each time. Where a worker's turns
/// follow at once, it is asked with the page, or as a device has answered, and no other call of the work comes before the look.
///
/// A work that doesn't care into which slot a page comes, and how, writes [`Work::page`] alone. The three calls `begins`, `rework`
/// and `ended` do nothing where a work doesn't write them.
///
/// A fix or a gather may have to wait. A site of one's own refuses it then, and the worker's next turn asks for a page anew; a
/// site that is shared waits, and asks for the same page again. So let `page` only tell the page, and go on in `see` or in
/// `change`.
///
/// The page stays latched when `see` or `change` returns: a later turn takes the latch off, where the plan says so, or
/// where a later fix or gather fails. Until then nobody else changes the page, and one that is latched X nobody else sees.
///
/// `change` has one page, and comes as soon as that is latched. What wants several pages at once, as a split of a node does, is
/// for `rework`: there the work has all pages that the worker has latched X at that moment, and it comes before the first of them is
/// let go. It comes on the way out of a plan too, where a later fix failed: so a work that has begun to change some
/// pages together can finish or undo that.
///
/// An image has as many bytes as the settings give a page: a head of 12 bytes, the page's number and its mark, and then
/// the body. A mark rises by one each time a latch X is taken off its page. `see` gets a copy of the image, or of as much
/// of its front as [`Work::reach`] says; the head names the page and the mark. `change` gets the body where it stands; what
/// it leaves there is the page from then on, also where a later fix of the plan fails.
///
/// A call may do what it likes with the work's own values, and may write the bodies as it likes. The pool can't be
/// reached from it, so it can't wait for a page, and no lock of it is held. It should not wait for anything else either: meanwhile
/// the worker keeps its latches.
///
/// Contracts see of a work what its calls do, by ghost members: `page_gives`, which page it can answer to these numbers,
/// `branch_gives`, which branch to this count, `change_leaves`, which body it can leave in place of this one of the page,
/// and `see_leaves`, what it can be once it has seen this image of the page with this mark; each with the work before and
/// after. `reach_gives` is which reach it can answer, beside all bytes; `page_into_gives`, which page into this slot, beside what
/// `page_gives` says; and `begins_leaves`, `ended_leaves` and `rework_leaves`, what these three calls leave, beside all as it was.
/// A turn of a worker says by these that the work was
/// asked for exactly what its plan asks, and was handed exactly the pages that are latched. A work that gives none of them is
/// known by the clauses of its calls alone, reaches for all bytes, and isn't told of its plans.
pub trait Work {
    ghost page_gives: { Self → (region first count : ℕ) → (page : ℕ) → Self → Type 0 } = { λ work region first count page after. Unit {0} };

    ghost branch_gives: { Self → (count : ℕ) → (branch : ℕ) → Self → Type 0 } = { λ work count branch after. Unit {0} };

    ghost reach_gives: { Self → (bytes : ℕ) → Type 0 } = { λ work bytes. ⊥ };

    ghost change_leaves: { Self → (page : ℕ) → (before after : List ℕ) → Self → Type 0 } = { λ work page before left after. Unit {0} };

    ghost see_leaves: { Self → (page mark : ℕ) → (image : List ℕ) → Self → Type 0 } = { λ work page mark image after. Unit {0} };

    ghost page_into_gives: { Self → (slot : ℕ) → Kind → (region first count : ℕ) → (page : ℕ) → Self → Type 0 } = { λ work slot kind region first count page after. ⊥ };

    ghost begins_leaves: { Self → (plan : ℕ) → Self → Type 0 } = { λ work plan after. ⊥ };

    ghost ended_leaves: { Self → End → Self → Type 0 } = { λ work end after. ⊥ };

    ghost wants_rework_gives: { (wanted : Bool) → Type 0 } = { λ wanted. ⊥ };

    ghost rework_leaves: { Self → (off : ℕ) → (before after : List LentPage) → Self → Type 0 } = { λ work off before left after. ⊥ };

    /// The worker has taken this plan: its number is that of its [`PlanId`](pp_vault::PlanId), which the journal has too.
    fn begins(&mut self, _plan: u64)
        ensures begun { begins_leaves self.old _plan self.new ⊎ (self.new ≡ self.old) }
    {}

    /// The plan that the worker took last has ended so, and the worker holds nothing of it any more.
    fn ended(&mut self, _end: End)
        ensures ended { ended_leaves self.old _end self.new ⊎ (self.new ≡ self.old) }
    {}

    /// The page that comes into this slot, of a region that has `count` pages from `first` on. Slots are numbered by their names
    /// in byte order.
    fn page_into(&mut self, _slot: u8, _kind: Kind, region: u8, first: u32, count: u32) -> u32
        requires some { 1 ≤ count }
        requires ends { first + count ≤ 4294967292 }
        ensures from { first ≤ result }
        ensures below { result < first + count }
        ensures given { page_into_gives self.old _slot _kind region first count result self.new
            ⊎ page_gives self.old region first count result self.new }
    {
        self.page(region, first, count)
    }

    /// The page to fix or to gather, of a region that has `count` pages from `first` on.
    fn page(&mut self, region: u8, first: u32, count: u32) -> u32
        requires some { 1 ≤ count }
        requires ends { first + count ≤ 4294967292 }
        ensures from { first ≤ result }
        ensures below { result < first + count }
        ensures given { page_gives self.old region first count result self.new };

    /// The branch to go on with, of `count` branches, counted from 0.
    fn branch(&mut self, count: u16) -> u16
        requires { 1 ≤ count }
        ensures below { result < count }
        ensures given { branch_gives self.old count result self.new };

    /// How many bytes of an image [`Work::see`] is to get, from the first of the head on: all of them, unless a work says
    /// fewer. It gets 64 at least, and never more than a page has.
    ///
    /// So many are copied for it. Where the pool is shared, its lock is held meanwhile, so a work that looks at the front of
    /// pages alone keeps the others waiting for less time.
    fn reach(&self) -> usize
        ensures given { reach_gives self.now result ⊎ (result ≡ 2 ^ 64 - 1) }
    {
        usize::MAX
    }

    /// Changes the body of the page, which the worker has latched X: 52 bytes or more.
    fn change(&mut self, page: u32, body: &mut [u8])
        requires { 52 ≤ length body.old }
        ensures left { change_leaves self.old page body.old body.new self.new };

    /// Sees the image of the page, which the worker has latched S, as far as the work's reach goes: 64 bytes or more, and
    /// its head names the page and this mark.
    fn see(&mut self, page: u32, mark: u64, image: &[u8])
        requires head { head_of image.now ≡ (page, mark) }
        requires long { 64 ≤ length image.now }
        ensures seen { see_leaves self.old page mark image.now self.new };

    /// Whether the work is for [`Work::rework`]: not, unless a work says so. It is asked of the type, so that a worker spends nothing
    /// on the others.
    fn wants_rework() -> bool
        ensures given { wants_rework_gives result ⊎ (result ≡ false) }
    {
        false
    }

    /// Changes the bodies of all pages that the worker has latched X, before the latch of slot `off` is taken off: by the plan,
    /// or on the way out of a plan that is left, where that slot is given back. What it leaves in them is what they are from then
    /// on.
    ///
    /// A worker that was made with the tokens of a plan under way lends nothing before its next plan. A site that refuses to take a latch
    /// off is asked again by the next turn, before which the work is lent the pages once more; no site of this crate does.
    fn rework<L: Loan>(&mut self, _off: u8, _held: &mut Held<L>)
        ensures left { rework_leaves self.old _off (lent _held.old) (lent _held.new) self.new
            ⊎ ((self.new ≡ self.old) × (_held.new ≡ _held.old)) }
    {}
}
