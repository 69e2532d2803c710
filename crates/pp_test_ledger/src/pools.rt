//! The pools that are walked: their settings, plans and devices.

use pp_device::Trouble;
use pp_settings::Settings;
use pp_test_plain::Chance;
use pp_test_plain::samples::{DESCENT, NOTHING, READ, REGIONS, SCAN, TOUCH, WRITE};
use pp_test_stand::Stand;
use std::alloc::{AllocError, Global};

/// A pool's settings, beside its regions; its plans; and how seldom a call of its device fails or lies.
pub struct Pool {
    pub frames: u32,
    pub page_bytes: u32,
    pub workers: u32,
    /// How many plans may wait.
    pub waiting: u32,
    pub flushes: u64,
    pub plans: &'static [&'static str],
    /// Of so many calls one has a trouble; none where this is 0.
    pub calls: u32,
}

/// A bundle of three leaves, and then two roots that are written one after the other.
const BUNDLE: &str =
    "{\"body\":[{\"body\":[{\"gather\":\"g\",\"region\":\"leaf\"}],\"loop\":3},{\"scatter\":\"g\"},\
{\"body\":[{\"fix\":\"a\",\"region\":\"root\"},{\"latch\":\"a\",\"mode\":\"X\"},{\"unlatch\":\"a\"},{\"unfix\":\"a\"}],\
\"loop\":2}],\"version\":2}";

/// The pools.
pub static POOLS: [Pool; 4] = [
    // One worker, one plan that waits, and a device without trouble.
    Pool {
        frames: 3,
        page_bytes: 512,
        workers: 1,
        waiting: 1,
        flushes: 0,
        plans: &[NOTHING, WRITE, TOUCH],
        calls: 0,
    },
    // Loops and choices, and flushes as many as are wanted.
    Pool {
        frames: 4,
        page_bytes: 1024,
        workers: 2,
        waiting: 2,
        flushes: 1_000_000_000_000,
        plans: &[SCAN, READ, WRITE, DESCENT],
        calls: 40,
    },
    // Bundles; many workers for few frames, and a poor device.
    Pool {
        frames: 5,
        page_bytes: 4096,
        workers: 8,
        waiting: 5,
        flushes: 1_000_000_000_000,
        plans: &[BUNDLE, DESCENT, NOTHING, SCAN, TOUCH],
        calls: 6,
    },
    // Many plans that wait, and few flushes.
    Pool {
        frames: 7,
        page_bytes: 640,
        workers: 3,
        waiting: 100,
        flushes: 50,
        plans: &[DESCENT, BUNDLE, WRITE],
        calls: 15,
    },
];

/// How many of a device's calls may have a trouble.
const CALLS: u32 = 5_000;

/// Troubles by chance: where one call in so many has one, it fails as often as it lies.
fn troubles_of(
    alloc: Global,
    chance: &mut Chance,
    calls: u32,
) -> Result<Vec<(u32, Trouble)>, AllocError> {
    let mut troubles = Vec::new(alloc);
    for number in 0..CALLS {
        if calls > 0 && chance.below(calls) == 0 {
            let trouble = match chance.below(2) {
                0 => Trouble::Fail,
                _ => Trouble::Lie(chance.below(24), u64::from(chance.below(4))),
            };
            troubles.push((number, trouble))?;
        }
    }
    Ok(troubles)
}

impl Pool {
    /// Its settings.
    pub fn settings(&self, alloc: Global) -> anyhow::Result<Settings> {
        let Pool {
            frames,
            page_bytes,
            workers,
            waiting,
            flushes,
            plans: _,
            calls: _,
        } = self;
        let text = format!(in alloc;
            "version = 2\nframes = {frames}\npage_bytes = {page_bytes}\nworkers = {workers}\nwaiting = {waiting}\n\
            flushes = {flushes}\n{REGIONS}"
        )?;
        Ok(Settings::from_text(alloc, &text)?)
    }

    /// The pool, in which nothing was done yet, with room for so many events.
    pub fn stand(
        &self,
        alloc: Global,
        settings: &Settings,
        chance: &mut Chance,
        room: usize,
    ) -> anyhow::Result<Stand> {
        let troubles = troubles_of(alloc, chance, self.calls)?;
        Stand::new(alloc, settings, self.plans, troubles, room)
    }
}
