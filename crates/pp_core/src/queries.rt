//! What the table tells.

ghost use Rattle.std.specs.Prelude.{◌≡◌, ◌+◌, ◌^◌, ◌≤◌, length, slice_get};
ghost use Rattle.pp_settings.specs.Limits.{most_workers};
ghost use Rattle.pp_frames.specs.Marks.{all_dirty};
ghost use Rattle.pp_core.specs.Queries.{idle_seat, held_seat, ask_holding_seat, gathered_in, errand_seat};

use crate::seat::Phase;
use crate::table::{STACKS, Table, bundle_place};
use pp_cert::Held;
use pp_plan::Ask;

impl Table {
    /// How many plans were submitted.
    pub(crate) fn plan_count(&self) -> u64
        requires { self.now.taken ≤ 2 ^ 61 }
        ensures { result ≡ self.now.taken + length self.now.waiting.items }
    {
        self.taken + self.waiting.len() as u64
    }

    /// Whether the worker is idle.
    pub(crate) fn is_idle(&self, worker: u32) -> bool
        ensures { result ≡ idle_seat (slice_get self.now.seats.items worker) }
    {
        match self.seats.get(worker as usize) {
            Some(None) => true,
            _ => false,
        }
    }

    /// The page that the worker's slot holds, and how.
    pub(crate) fn held(&self, worker: u32, slot: u32) -> Option<(u32, Held)>
        ensures { result ≡ held_seat (slice_get self.now.seats.items worker) slot }
    {
        match self.seats.get(worker as usize) {
            Some(Some(seat)) => seat.held(slot),
            _ => None,
        }
    }

    /// What the worker's plan asks, where the worker acts and its slot holds this page so: one look at the seat.
    #[inline(always)]
    pub(crate) fn ask_holding(&self, worker: u32, slot: u32, page: u32, held: Held) -> Option<Ask>
        ensures { result ≡ ask_holding_seat (slice_get self.now.seats.items worker) slot page held }
    {
        match self.seats.get(worker as usize) {
            Some(Some(seat)) => seat.ask_holding(slot, page, held),
            _ => None,
        }
    }

    /// How many pins the worker's slot has as a bundle.
    pub(crate) fn gathered(&self, worker: u32, slot: u32) -> u32
        requires { length self.now.seats.items ≤ most_workers }
        ensures { result ≡ gathered_in self.now.bundles (length self.now.seats.items) worker slot }
    {
        if slot >= STACKS || worker as usize >= self.seats.len() {
            return 0;
        }
        self.bundles.count(bundle_place(worker, slot))
    }

    /// The errand that is out for the worker.
    pub(crate) fn errand(&self, worker: u32) -> Option<(u32, u32, Option<u32>)>
        ensures { result ≡ errand_seat (slice_get self.now.seats.items worker) }
    {
        match self.seats.get(worker as usize) {
            Some(Some(seat)) => match seat.phase {
                Phase::Writing { slot, page, victim } => Some((
                    u32::from(slot),
                    page,
                    Some(victim),
                )),
                Phase::Reading { slot, page } => Some((u32::from(slot), page, None)),
                _ => None,
            },
            _ => None,
        }
    }

    /// How many pages are newer than the device's.
    pub(crate) fn dirty(&self) -> u32
        ensures { result ≡ all_dirty self.now.marks }
    {
        self.marks.all_dirty()
    }
}
