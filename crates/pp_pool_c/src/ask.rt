//! What comes next, as C sees it.

ghost use Rattle.std.specs.Prelude.{◌≡◌};
ghost use Rattle.pp_pool_c.specs.Asks.{no_ask, plain, of_slot, of_pages, of_device, ask_of, ask_went};

use crate::told::NOBODY;
use pp_pool::End;
use pp_steps::{Step, Went};

/// What the next step of a ticket is.
#[repr(C)]
#[derive(Clone, Copy, Debug, PartialEq, Eq)]
pub struct Ask {
    pub step: u32,
    pub slot: u32,
    pub region: u32,
    /// The first page that may be named.
    pub first: u32,
    /// How many pages there are from it on; of a choice, how many branches.
    pub count: u32,
    /// The page in the slot, or that of the device's call; else 4,294,967,295.
    pub page: u32,
    /// Why a plan was left.
    pub why: u32,
    pub unused: u32,
}

impl Ask {
    /// No step.
    pub(crate) fn none() -> Ask
        ensures { result ≡ no_ask }
    {
        Ask {
            step: 0,
            slot: 0,
            region: 0,
            first: 0,
            count: 0,
            page: NOBODY,
            why: 0,
            unused: 0,
        }
    }

    /// A step that is about nothing.
    fn plain(step: u32) -> Ask
        ensures { result ≡ plain step }
    {
        Ask {
            step,
            ..Ask::none()
        }
    }

    /// A step that is about a slot's page.
    fn slot(step: u32, slot: u8, page: Option<u32>) -> Ask
        ensures { result ≡ of_slot step slot page }
    {
        Ask {
            step,
            slot: u32::from(slot),
            page: page.unwrap_or(NOBODY),
            ..Ask::none()
        }
    }

    /// A step that is about the device's call of a page.
    fn device(step: u32, page: u32) -> Ask
        ensures { result ≡ of_device step page }
    {
        Ask {
            step,
            page,
            ..Ask::none()
        }
    }

    /// A step that wants a page named.
    fn pages(step: u32, slot: u8, region: u8, first: u32, count: u32) -> Ask
        ensures { result ≡ of_pages step slot region first count }
    {
        Ask {
            step,
            slot: u32::from(slot),
            region: u32::from(region),
            first,
            count,
            ..Ask::none()
        }
    }

    /// What this step is. The two that a hit asks come first: a call that tells one of them compares twice.
    #[inline(always)]
    pub(crate) fn of(step: Step) -> Ask
        ensures { result ≡ ask_of step }
    {
        match step {
            Step::Fix {
                slot,
                region,
                first,
                count,
            } => Ask::pages(2, slot, region, first, count),
            Step::Unlatch { slot, page } => Ask::slot(8, slot, page),
            step => Ask::of_any(step),
        }
    }

    /// The same of any step.
    fn of_any(step: Step) -> Ask
        ensures { result ≡ ask_of step }
    {
        match step {
            Step::Take => Ask::plain(1),
            Step::Fix {
                slot,
                region,
                first,
                count,
            } => Ask::pages(2, slot, region, first, count),
            Step::Gather {
                slot,
                region,
                first,
                count,
            } => Ask::pages(3, slot, region, first, count),
            Step::Unfix { slot, page } => Ask::slot(4, slot, page),
            Step::Scatter { slot } => Ask::slot(5, slot, None),
            Step::LatchShared { slot, page } => Ask::slot(6, slot, page),
            Step::LatchExclusive { slot, page } => Ask::slot(7, slot, page),
            Step::Unlatch { slot, page } => Ask::slot(8, slot, page),
            Step::Choose { branches } => Ask {
                step: 9,
                count: u32::from(branches),
                ..Ask::none()
            },
            Step::Finish => Ask::plain(10),
            Step::Read { page } => Ask::device(11, page),
            Step::Write { page } => Ask::device(12, page),
            Step::Leave => Ask::plain(13),
            Step::Flush => Ask::plain(16),
            Step::Tell { page } => Ask::device(17, page),
        }
    }

    /// What a step has led to.
    pub(crate) fn of_went(went: Went) -> Ask
        ensures { result ≡ ask_went went }
    {
        match went {
            Went::On(step) => Ask::of(step),
            Went::Over(End::Done) => Ask::plain(14),
            Went::Over(End::Gone { page, why }) => Ask {
                why: u32::from(why.number()),
                ..Ask::device(15, page)
            },
        }
    }
}
