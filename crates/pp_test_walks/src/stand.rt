//! A vault beside the plain pool and its plain device.

use crate::common::same;
use crate::facts::{image_of, see};
use crate::kept::see_kept;
use crate::lives_counts::Counts;
use crate::scenario::Scenario;
use crate::store::{Call, Store};
use pp_device::image::HEAD;
use pp_device::{Device, Failing, SoloDevice, Trouble};
use pp_play::{Line, play};
use pp_script::Cue;
use pp_settings::Span;
use pp_vault::{Accepted, Hands, Prepared, RenewError, SubmitError, Vault};
use std::alloc::Global;

/// A vault with its tokens and its device, and the plain ones that are to come to the same.
pub struct Stand<'a> {
    alloc: Global,
    vault: Vault,
    hands: Hands,
    device: Failing<SoloDevice>,
    pub store: Store<'a>,
    /// The scenario's plans, where the vault keeps them, each at the place of its number.
    kept: Vec<Prepared>,
}

/// Plays the script with one more trouble, then all plans to their ends, and then reads each page. Tells the calls of the
/// device that the script made.
pub fn play_with(
    alloc: Global,
    scenario: &Scenario,
    planted: Option<(u32, Trouble)>,
) -> anyhow::Result<Vec<Call>> {
    let mut stand = Stand::new(alloc, scenario, planted)?;
    let played = stand.play_all(scenario);
    let ended = stand.end();
    let calls = played?;
    ended?;
    Ok(calls)
}

/// Sees that the device has what the plain device has.
fn see_device(
    alloc: Global,
    page_bytes: usize,
    mut device: SoloDevice,
    store: &Store,
) -> anyhow::Result<()> {
    let mut shown = Vec::from_elem(alloc, 0, page_bytes.max(HEAD))?;
    for page in 0..store.plain.size {
        device.read(page, &mut shown)?;
        let want = image_of(alloc, page, store.of(page).kept, page_bytes)?;
        same("what the device has", shown.as_slice(), want.as_slice())?;
    }
    Ok(())
}

/// Submits the plan to the vault, and tells its number.
fn submit(vault: &mut Vault, plan: Accepted) -> anyhow::Result<Option<u64>> {
    match vault.submit(plan) {
        Ok(id) => Ok(Some(id.number())),
        Err((_plan, error)) => Err(anyhow::Error::from(error)),
    }
}

/// Submits the plan that the vault keeps, and tells its number.
fn submit_kept(vault: &mut Vault, plan: Prepared) -> Result<u64, SubmitError> {
    Ok(vault.submit_prepared(plan)?.number())
}

/// The vault keeps the plan from now on.
fn prepare(vault: &mut Vault, plan: Accepted) -> anyhow::Result<Prepared> {
    match vault.prepare(plan) {
        Ok(prepared) => Ok(prepared),
        Err((_plan, error)) => Err(anyhow::Error::from(error)),
    }
}

/// A device in memory with the scenario's troubles, and one more where one is planted.
fn device_of(
    alloc: Global,
    scenario: &Scenario,
    planted: Option<(u32, Trouble)>,
) -> anyhow::Result<Failing<SoloDevice>> {
    let settings = &scenario.settings;
    let memory = SoloDevice::new(alloc, settings.pages(), settings.page_bytes() as usize)?;
    let troubles = scenario.troubles_with(alloc, planted)?;
    Ok(Failing::new(memory, troubles))
}

impl<'a> Stand<'a> {
    /// A new vault with the scenario's settings over a device with its troubles, and one more where one is planted.
    pub fn new(
        alloc: Global,
        scenario: &'a Scenario,
        planted: Option<(u32, Trouble)>,
    ) -> anyhow::Result<Stand<'a>> {
        let troubles = scenario.troubles_with(alloc, planted)?;
        let store = Store::new(alloc, &scenario.settings, troubles)?;
        let device = device_of(alloc, scenario, planted)?;
        let (vault, hands) = Vault::new(alloc, &scenario.settings)?;
        Ok(Stand {
            alloc,
            vault,
            hands,
            device,
            store,
            kept: Vec::new(alloc),
        })
    }

    /// Keeps each of the scenario's plans, where lives don't end.
    pub fn keep_all(&mut self, scenario: &'a Scenario) -> anyhow::Result<()> {
        if let Span::Bounded = self.vault.span() {
            return Ok(());
        }
        for number in 0..scenario.shapes.len() {
            self.keep(scenario, number)?;
        }
        Ok(())
    }

    /// Keeps the plan of this number.
    fn keep(&mut self, scenario: &'a Scenario, number: usize) -> anyhow::Result<()> {
        let Some(shape) = scenario.shapes.get(number) else {
            anyhow::bail!("there is no plan {number}");
        };
        let plan = scenario.accepted(self.alloc, number)?;
        let prepared = prepare(&mut self.vault, plan)?;
        self.kept.push(prepared)?;
        let is_kept = self.store.plain.prepare(shape.plan())?;
        same("whether a plan is kept", true, is_kept)
    }

    /// The same over a device that keeps what it has, and has no trouble any more.
    pub fn mended(self) -> Stand<'a> {
        let Stand {
            alloc,
            vault,
            hands,
            device,
            mut store,
            kept,
        } = self;
        store.troubles.clear();
        Stand {
            alloc,
            vault,
            hands,
            device: Failing::new(device.into_inner(), Vec::new(alloc)),
            store,
            kept,
        }
    }

    /// Gives the vault up, and sees that the device has what the plain device has.
    pub fn end(self) -> anyhow::Result<()> {
        let Stand {
            alloc,
            vault,
            hands,
            device,
            store,
            kept: _,
        } = self;
        let page_bytes = vault.page_bytes();
        vault.scrap(hands);
        see_device(alloc, page_bytes, device.into_inner(), &store)
    }

    fn play_all(&mut self, scenario: &'a Scenario) -> anyhow::Result<Vec<Call>> {
        self.keep_all(scenario)?;
        for number in 0..scenario.plans {
            self.submit(scenario, number)?;
        }
        for cue in &scenario.cues {
            self.play(*cue)?;
        }
        let calls = self.store.calls.clone()?;
        self.play_to_the_end()?;
        self.read_all(scenario)?;
        Ok(calls)
    }

    /// Submits the plan of this number to both.
    pub fn submit(&mut self, scenario: &'a Scenario, number: usize) -> anyhow::Result<()> {
        let Some(shape) = scenario.shapes.get(number) else {
            anyhow::bail!("there is no plan {number}");
        };
        if let Some(prepared) = self.kept.get(number).copied() {
            let got = submit_kept(&mut self.vault, prepared);
            let want = self.store.plain.submit_kept(number)?;
            return same("a submit of a plan that is kept", got, want);
        }
        let accepted = scenario.accepted(self.alloc, number)?;
        let got = submit(&mut self.vault, accepted)?;
        let want = self.store.plain.submit(shape.plan())?;
        same("a submit", got, want)
    }

    /// Renews both, and sees that they answer the same. After a renewal as after one that is refused, the vault keeps what is
    /// kept plainly. No test brings a mark to 2^63: a stamp of 2^62 isn't taken.
    pub fn renew(&mut self, counts: &mut Counts) -> anyhow::Result<()> {
        counts.count_renewal(&self.store.plain)?;
        let want = if self.store.plain.renew() {
            Ok(())
        } else {
            Err(RenewError::NotAtRest)
        };
        same("a renewal", self.vault.renew(), want)?;
        see(self.alloc, &self.vault, &mut self.hands, &self.store)?;
        let dirty = self.store.plain.dirty();
        same("how many pages are dirty", self.vault.dirty(), dirty)?;
        see_kept(self.alloc, self.vault.core(), &self.store.plain)
    }

    /// Plays a cue on both, and sees that they come to the same, and what holds then.
    fn play(&mut self, cue: Cue) -> anyhow::Result<Line> {
        let line = self.step(cue)?;
        see(self.alloc, &self.vault, &mut self.hands, &self.store)?;
        Ok(line)
    }

    /// Plays a cue on both, and sees that they come to the same.
    pub fn step(&mut self, cue: Cue) -> anyhow::Result<Line> {
        let mut lines = Vec::new(self.alloc);
        play(
            &mut self.vault,
            &mut self.hands,
            &mut self.device,
            &[cue],
            &mut lines,
        )?;
        let want = self.store.play(cue)?;
        same("a cue", (cue, lines.first().copied()), (cue, Some(want)))?;
        Ok(want)
    }

    /// Plays the cues of those whose turn is next, until nothing is left to do.
    pub fn play_to_the_end(&mut self) -> anyhow::Result<()> {
        for _ in 0..self.store.plain.budget() {
            let Some(cue) = self.store.plain.next_cue() else {
                break;
            };
            match self.play(cue)? {
                Line::Did(_, _) => {}
                line => anyhow::bail!("{cue} was to be possible, and comes to {line:?}"),
            }
        }
        same(
            "who is left behind the bound",
            self.store.plain.turn(),
            None,
        )
    }

    /// Reads each page of each region.
    pub fn read_all(&mut self, scenario: &'a Scenario) -> anyhow::Result<()> {
        let mut plan = scenario.plans;
        for extent in scenario.settings.layout().extents() {
            for behind in 0..extent.count {
                self.read(scenario, plan, extent.first.saturating_add(behind))?;
            }
            plan = plan.saturating_add(1);
        }
        Ok(())
    }

    /// Reads the page by a plan, until that isn't lost, and sees that it has the byte that was written last, where the pool
    /// took no lie for it.
    fn read(&mut self, scenario: &'a Scenario, plan: usize, page: u32) -> anyhow::Result<()> {
        for _ in 0..4 {
            self.submit(scenario, plan)?;
            let line = self.play_reader(page)?;
            let known = self.store.of(page);
            if known.is_lied {
                return Ok(());
            }
            if let Line::Looked(byte) = line {
                return same("what a page has, and what was written", byte, known.written);
            }
        }
        anyhow::bail!("page {page} can't be read")
    }

    /// Plays a plan that reads the page, and tells what was looked at.
    fn play_reader(&mut self, page: u32) -> anyhow::Result<Line> {
        let worker = 0;
        let mut looked = Line::NoLatch;
        for cue in [
            Cue::Take { worker },
            Cue::Fix { worker, page },
            Cue::Device { worker },
            Cue::Device { worker },
            Cue::Latch { worker },
            Cue::Look { worker, slot: 0 },
            Cue::Unlatch { worker },
            Cue::Unfix { worker },
            Cue::Finish { worker },
        ] {
            let line = self.play(cue)?;
            if matches!(cue, Cue::Look { .. }) {
                looked = line;
            }
        }
        Ok(looked)
    }
}
