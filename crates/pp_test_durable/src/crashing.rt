//! A device whose power may fail.

ghost use Rattle.std.specs.Prelude.{◌≡◌, ℕ, ◌≤◌, All, IfOk, length, map};
ghost use Rattle.pp_test_durable.specs.Leaves.{settled};
ghost use Rattle.pp_test_durable.specs.Power.{AllCrashed};

use crate::leaf::Leaf;
use pp_device::image::HEAD;
use pp_device::{Count, Device, Fault};
use pp_durable::{Durable, SyncFault, Syncs};
use std::alloc::{AllocError, Global};
use std::marker::Model;

/// A device in memory that tells apart what is on the medium and what was written since the last sync.
///
/// Its power lasts for so many calls. The last of these fails: a writing that it cuts off is on its way to the medium, and
/// a sync that it cuts off does nothing more. All calls behind it fail and do nothing. A crash then leaves of each page
/// what was on the medium, what was written since, or a part of each.
#[derive(Drop)]
pub struct Crashing {
    page_bytes: usize,
    leaves: Vec<Leaf>,
    power: u64,
    calls: Count,
    failures: Count,
    syncs: Syncs,
}

impl Model for Crashing {
    ghost use Rattle.std.specs.Prelude.{◌≡◌, All, length};
    ghost use Rattle.pp_test_durable.specs.Power.{Powered};

    ghost Value = { Powered };

    ghost view = { λ d. record {
      page_bytes = d.page_bytes;
      images = d.leaves.items;
      power = d.power;
      calls = d.calls.number;
      failures = d.failures.number;
      syncs = d.syncs;
    } };

    ghost invariant = { λ d. All (λ image. length image.shown ≡ d.page_bytes) d.leaves.items };
}

/// The next number of a sequence that looks like chance.
fn next(seed: u64) -> u64 {
    seed.wrapping_mul(6_364_136_223_846_793_005)
        .wrapping_add(1_442_695_040_888_963_407)
}

/// Which bytes of so many a crash lets through: none, all, those up to a place, or those from there on.
fn span(pick: u64, len: usize) -> (usize, usize)
    ensures { result.1 ≤ len }
{
    let place = if len == 0 {
        0
    } else {
        (pick / 4) as usize % len
    };
    match pick % 4 {
        0 => (0, 0),
        1 => (0, len),
        2 => (0, place),
        _ => (place, len),
    }
}

/// Each page crashes, by chance.
fn crash_all(leaves: &mut [Leaf], page_bytes: usize, seed: u64)
    requires { All (λ image. length image.shown ≡ page_bytes) leaves.old }
    ensures { AllCrashed leaves.old leaves.new }
{
    let mut seed = seed;
    for page in 0..leaves.len() {
        seed = next(seed);
        let (from, to) = span(seed >> 33, page_bytes);
        leaves[page].crash(from, to);
    }
}

/// Each page has on the medium what is shown.
fn settle_all(leaves: &mut Vec<Leaf>)
    ensures exact { leaves.new.items ≡ map settled leaves.old.items }
    ensures lengths { (len : ℕ) → All (λ image. length image.shown ≡ len) leaves.old.items
        → All (λ image. length image.shown ≡ len) leaves.new.items }
{
    for page in 0..leaves.len() {
        leaves[page].settle();
    }
}

impl Crashing {
    ghost use Rattle.pp_test_durable.specs.Power.{new_powered, is_served, is_done, is_begun, IsAfterCrash, Powered};

    /// A device of so many pages, whose power lasts for so many calls.
    ///
    /// # Errors
    ///
    /// Memory may run out.
    pub fn new(
        alloc: Global,
        pages: u32,
        page_bytes: usize,
        power: u64,
    ) -> Result<Crashing, AllocError>
        requires { HEAD ≤ page_bytes }
        ensures { IfOk result (λ device. device ≡ new_powered pages page_bytes power) }
    {
        let mut leaves = Vec::with_capacity(alloc, pages as usize)?;
        for page in 0..pages {
            leaves.push(Leaf::new(alloc, page, page_bytes)?)?;
        }
        Ok(Crashing {
            page_bytes,
            leaves,
            power,
            calls: Count::new(),
            failures: Count::new(),
            syncs: Syncs::new(),
        })
    }

    /// Has the power last for so many calls from now on.
    pub fn set_power(&mut self, power: u64)
        ensures { self.new ≡ record self.old { power = power } }
    {
        self.power = power;
    }

    /// The device after a crash, which leaves by chance what it may. Its power lasts.
    pub fn crash(self, seed: u64) -> Crashing
        ensures { IsAfterCrash self result }
    {
        let Crashing {
            page_bytes,
            mut leaves,
            ..
        } = self;
        crash_all(&mut leaves, page_bytes, seed);
        Crashing {
            page_bytes,
            leaves,
            power: u64::MAX,
            calls: Count::new(),
            failures: Count::new(),
            syncs: Syncs::new(),
        }
    }

    /// Whether the device has the page, and a slice of this length is as long as an image.
    fn serves(&self, page: u32, len: usize) -> bool
        ensures { result ≡ is_served self.now page len }
    {
        (page as usize) < self.leaves.len() && len == self.page_bytes
    }
}

impl Device for Crashing {
    ghost use Rattle.pp_test_durable.specs.Power.{PowerReads, PowerWrites};

    ghost calls = { λ d. d.calls };

    ghost failures = { λ d. d.failures };

    ghost read_gives = { PowerReads };

    ghost write_leaves = { PowerWrites };

    fn read(&mut self, page: u32, image: &mut [u8]) -> Result<(), Fault> {
        let is_done = self.serves(page, image.len()) && 1 < self.power;
        self.power = self.power.saturating_sub(1);
        self.calls.raise();
        if !is_done {
            self.failures.raise();
            return Err(Fault::Read);
        }
        self.leaves[page as usize].read(image);
        Ok(())
    }

    fn write(&mut self, page: u32, image: &[u8]) -> Result<(), Fault> {
        let serves = self.serves(page, image.len());
        let is_begun = serves && 0 < self.power;
        let is_done = serves && 1 < self.power;
        self.power = self.power.saturating_sub(1);
        self.calls.raise();
        if is_begun {
            self.leaves[page as usize].write(image);
        }
        if !is_done {
            self.failures.raise();
            return Err(Fault::Write);
        }
        Ok(())
    }
}

impl Durable for Crashing {
    ghost use Rattle.pp_test_durable.specs.Power.{PowerSyncs, PowerLeaves, reads-keep, writes-keep};

    ghost syncs = { λ d. d.syncs.asked };

    ghost failed_syncs = { λ d. d.syncs.failed };

    ghost sync_leaves = { PowerSyncs };

    ghost may_leave = { PowerLeaves };

    ghost read_keeps = { reads-keep };

    ghost write_keeps = { writes-keep };

    fn sync(&mut self) -> Result<(), SyncFault> {
        let is_done = !self.syncs.has_failed() && 1 < self.power;
        self.power = self.power.saturating_sub(1);
        if !is_done {
            self.syncs.count(Err(SyncFault));
            return Err(SyncFault);
        }
        settle_all(&mut self.leaves);
        self.syncs.count(Ok(()));
        Ok(())
    }
}
