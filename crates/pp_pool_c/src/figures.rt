//! Numbers of a pool, as C sees them.

ghost use Rattle.std.specs.Prelude.{◌≡◌};
ghost use Rattle.pp_pool_c.specs.Figures.{policy_of, prepared_of, figures_of, dirty_of};

use pp_steps::{KeptPlan, Stats};

/// What the host decides.
#[repr(C)]
#[derive(Clone, Copy, Debug, PartialEq, Eq)]
pub struct Policy {
    pub queue: u32,
    pub bypass: u32,
    pub flush_from: u32,
    pub flush_to: u32,
}

/// A plan that is kept.
#[repr(C)]
#[derive(Clone, Copy, Debug, PartialEq, Eq)]
pub struct PreparedPlan {
    pub plan: u32,
    pub unused: u32,
    pub peak: u64,
    pub cost: u64,
}

/// What stays as it is.
#[repr(C)]
#[derive(Clone, Copy, Debug, PartialEq, Eq)]
pub struct Sizes {
    pub workers: u32,
    pub bells: u32,
    pub frames: u32,
    pub page_bytes: u32,
    pub pages: u32,
    pub unused: u32,
}

/// What was done, and how it stands.
#[repr(C)]
#[derive(Clone, Copy, Debug, PartialEq, Eq)]
pub struct Figures {
    pub hits: u64,
    pub misses: u64,
    pub write_backs: u64,
    pub flushes: u64,
    pub failed_flushes: u64,
    pub done: u64,
    pub gone: u64,
    pub running_peaks: u64,
    pub dirty: u32,
    pub waiting: u32,
    pub chairs: u32,
    pub is_stopped: u32,
}

/// A page that is newer than the device's.
#[repr(C)]
#[derive(Clone, Copy, Debug, PartialEq, Eq)]
pub struct Dirty {
    pub mark: u64,
    pub page: u32,
    pub unused: u32,
}

impl Policy {
    /// As a hall has it.
    pub(crate) fn policy(&self) -> pp_steps::Policy
        ensures { result ≡ policy_of self.now }
    {
        pp_steps::Policy {
            queue: self.queue,
            bypass: self.bypass,
            flush_from: self.flush_from,
            flush_to: self.flush_to,
        }
    }
}

impl PreparedPlan {
    /// The plan of this number.
    pub(crate) fn of(number: u32, plan: KeptPlan) -> PreparedPlan
        ensures { result ≡ prepared_of number plan }
    {
        PreparedPlan {
            plan: number,
            unused: 0,
            peak: plan.peak,
            cost: plan.cost,
        }
    }
}

impl Figures {
    /// What these say.
    pub(crate) fn of(stats: Stats, is_stopped: bool) -> Figures
        ensures { result ≡ figures_of stats is_stopped }
    {
        Figures {
            hits: stats.counts.hits,
            misses: stats.counts.misses,
            write_backs: stats.counts.write_backs,
            flushes: stats.counts.flushes,
            failed_flushes: stats.counts.failed_flushes,
            done: stats.counts.done,
            gone: stats.counts.gone,
            running_peaks: stats.running_peaks,
            dirty: stats.dirty,
            waiting: stats.waiting,
            chairs: stats.chairs.min(u32::MAX as usize) as u32,
            is_stopped: u32::from(is_stopped),
        }
    }
}

impl Dirty {
    /// The page with this mark.
    pub(crate) fn of(page: u32, mark: u64) -> Dirty
        ensures { result ≡ dirty_of (page, mark) }
    {
        Dirty {
            mark,
            page,
            unused: 0,
        }
    }
}
