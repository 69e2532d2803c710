//! What comes next.

ghost use Rattle.std.specs.Prelude.{◌≡◌};
ghost use Rattle.pp_steps.specs.StepsOf.{pages_of, page_in, step_out, step_asked, step_of_hand, step_of_flush, takes as may_take};

use pp_plan::{Ask, Mode};
use pp_settings::Layout;
use pp_vault::{Errand, Flushing, Guards, Hand, Stage};

/// What the next step of one that runs is.
#[derive(Clone, Copy, Debug, PartialEq, Eq)]
pub enum Step {
    /// Its plan is taken.
    Take,
    /// A page is fixed into the slot: the argument, one of `count` from `first` on.
    Fix {
        slot: u8,
        region: u8,
        first: u32,
        count: u32,
    },
    /// A page is gathered into the slot's bundle: the argument, as for a fix.
    Gather {
        slot: u8,
        region: u8,
        first: u32,
        count: u32,
    },
    /// The slot's page is given back.
    Unfix {
        slot: u8,
        page: Option<u32>,
    },
    /// The slot's bundle is given back.
    Scatter {
        slot: u8,
    },
    /// The slot's page is latched S.
    LatchShared {
        slot: u8,
        page: Option<u32>,
    },
    /// The slot's page is latched X.
    LatchExclusive {
        slot: u8,
        page: Option<u32>,
    },
    /// The latch is taken off the slot's page.
    Unlatch {
        slot: u8,
        page: Option<u32>,
    },
    /// A branch is chosen: the argument, one of so many from 0 on.
    Choose {
        branches: u16,
    },
    /// The plan is at its end, and is finished.
    Finish,
    /// The host's device reads the page. The argument is 1 where it did, and the bytes were brought before.
    Read {
        page: u32,
    },
    /// The host's device writes the page. The argument is 1 where it did.
    Write {
        page: u32,
    },
    /// The plan is left, since a call of the device failed: something that it holds is given back, or it ends.
    Leave,
    /// What came of a device is told again. It comes behind a slip alone.
    Tell {
        page: u32,
    },
    /// A flush begins.
    Flush,
}

impl Step {
    /// What comes next with these tokens.
    pub(crate) fn of_hand(hand: &Hand, layout: &Layout) -> Step
        ensures { result ≡ step_of_hand layout.now hand.now }
    {
        match &hand.stage {
            Stage::Idle(_) => Step::Take,
            Stage::In(session) => Step::asked(session.ask(), &hand.guards, layout),
            Stage::Out(errand) => Step::of_errand(errand),
            Stage::Back(returned) => Step::Tell {
                page: returned.page(),
            },
            Stage::Leaving(_) => Step::Leave,
        }
    }

    /// What comes next of the flusher.
    pub(crate) fn of_flush(flushing: &Option<Flushing>) -> Step
        ensures { result ≡ step_of_flush flushing.now }
    {
        match flushing {
            None => Step::Flush,
            Some(Flushing::Out(errand)) => Step::of_errand(errand),
            Some(Flushing::Back(returned)) => Step::Tell {
                page: returned.page(),
            },
        }
    }

    /// The device's call.
    fn of_errand(errand: &Errand) -> Step
        ensures { result ≡ step_out errand.now.duty }
    {
        let page = errand.page();
        if errand.is_reading() {
            Step::Read { page }
        } else {
            Step::Write { page }
        }
    }

    /// What a plan asks.
    #[inline(always)]
    pub(crate) fn asked(ask: Ask, guards: &Guards, layout: &Layout) -> Step
        ensures { result ≡ step_asked layout.now guards.now ask }
    {
        match ask {
            Ask::Fix { slot, region } => {
                let (first, count) = pages_of(layout, region);
                Step::Fix {
                    slot,
                    region,
                    first,
                    count,
                }
            }
            Ask::Gather { slot, region } => {
                let (first, count) = pages_of(layout, region);
                Step::Gather {
                    slot,
                    region,
                    first,
                    count,
                }
            }
            Ask::Choose { branches } => Step::Choose { branches },
            Ask::End => Step::Finish,
            Ask::Scatter { slot } => Step::Scatter { slot },
            Ask::Unfix { slot } => Step::Unfix {
                slot,
                page: page_in(guards, slot),
            },
            Ask::Latch {
                slot,
                mode: Mode::S,
            } => Step::LatchShared {
                slot,
                page: page_in(guards, slot),
            },
            Ask::Latch {
                slot,
                mode: Mode::X,
            } => Step::LatchExclusive {
                slot,
                page: page_in(guards, slot),
            },
            Ask::Unlatch { slot } => Step::Unlatch {
                slot,
                page: page_in(guards, slot),
            },
        }
    }

    /// Whether the step may have this argument.
    pub(crate) fn takes(self, argument: u32) -> bool
        ensures { result ≡ may_take self argument }
    {
        match self {
            Step::Fix { first, count, .. } | Step::Gather { first, count, .. } => {
                first <= argument && argument - first < count
            }
            Step::Choose { branches } => argument < u32::from(branches),
            Step::Read { .. } | Step::Write { .. } => argument <= 1,
            _ => argument == 0,
        }
    }
}

/// The first page of a region, and how many it has.
fn pages_of(layout: &Layout, region: u8) -> (u32, u32)
    ensures { result ≡ pages_of layout.now region }
{
    match layout.extent(region) {
        Some(extent) => (extent.first, extent.count),
        None => (0, 0),
    }
}

/// The page in a slot.
fn page_in(guards: &Guards, slot: u8) -> Option<u32>
    ensures { result ≡ page_in guards.now slot }
{
    match guards.held(u32::from(slot)) {
        Some((page, _)) => Some(page),
        None => None,
    }
}
