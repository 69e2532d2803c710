//! What a worker does, and what a plan asks.

use crate::mode::Mode;

/// One action of a worker that runs a plan.
#[derive(Clone, Copy, Debug, PartialEq, Eq)]
pub enum Action {
    /// Fixes the page into the slot.
    Fix { slot: u8, page: u32 },
    /// Gives the slot's page back.
    Unfix { slot: u8 },
    /// Latches the slot's page.
    Latch { slot: u8, mode: Mode },
    /// Takes the latch off the slot's page.
    Unlatch { slot: u8 },
    /// Fixes one more page into the bundle, a slot that pins several pages; it may have the page already.
    Gather { slot: u8, page: u32 },
    /// Gives all pages of the bundle back.
    Scatter { slot: u8 },
    /// Goes on with the branch of this number, from 0.
    Choose { branch: u16 },
}

/// What a plan asks next: one action, or one of a set of actions.
#[derive(Clone, Copy, Debug, PartialEq, Eq)]
pub enum Ask {
    /// A fix of any page of the region into the slot.
    Fix { slot: u8, region: u8 },
    /// An unfix of the slot.
    Unfix { slot: u8 },
    /// A latch of the slot's page.
    Latch { slot: u8, mode: Mode },
    /// An unlatch of the slot's page.
    Unlatch { slot: u8 },
    /// A fix of any page of the region into the bundle.
    Gather { slot: u8, region: u8 },
    /// An unfix of the whole bundle.
    Scatter { slot: u8 },
    /// A choice among so many branches.
    Choose { branches: u16 },
    /// Nothing: the plan is at its end.
    End,
}
