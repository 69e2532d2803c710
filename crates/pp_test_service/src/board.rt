//! What the threads of a scene tell one another.

use crate::scene::{ANY, Call, Cue, PAGES, Scene, THINGS, Thing, Until};
use std::alloc::Global;
use std::process::Abort;
use std::sync::atomic::{AtomicU64, Ordering};
use std::thread;
use std::time::{Clock, Duration};

/// The counts of a scene, how often each page was changed, and what its device has of it.
#[derive(Drop)]
pub struct Board {
    pub scene: &'static Scene,
    /// How many times as long as the scene says it goes on.
    pub scale: u32,
    counts: Vec<AtomicU64>,
    changes: Vec<AtomicU64>,
    /// The mark of each page's last image that was written, and of the last one before a sync.
    written: Vec<AtomicU64>,
    stable: Vec<AtomicU64>,
}

/// So many counts of 0.
fn zeros(rt: &impl Abort, alloc: Global, count: usize) -> Vec<AtomicU64> {
    let mut zeros = Vec::new(alloc);
    for _place in 0..count {
        zeros.push(AtomicU64::new(0)).expect(rt, "memory");
    }
    zeros
}

/// The count at this place; 0 where there is none.
fn number_at(counts: &[AtomicU64], place: usize) -> u64 {
    match counts.get(place) {
        Some(count) => count.load(Ordering::SeqCst),
        None => 0,
    }
}

/// Raises the count at this place.
fn raise_at(counts: &[AtomicU64], place: usize) {
    if let Some(count) = counts.get(place) {
        count.fetch_add(1, Ordering::SeqCst);
    }
}

/// Raises the count at this place to this number, if it is less.
fn raise_to(counts: &[AtomicU64], place: usize, number: u64) {
    if let Some(count) = counts.get(place) {
        let _before = count.fetch_update(
            Ordering::SeqCst,
            Ordering::SeqCst,
            |there| if there < number { Some(number) } else { None },
        );
    }
}

/// Sleeps for so many milliseconds.
pub fn rest(rt: &impl Clock, milliseconds: u64) {
    let _slept = thread::sleep(rt, Duration::from_millis(milliseconds));
}

/// The test fails where the two numbers differ, and tells both.
pub fn same(rt: &impl Abort, name: &str, what: &str, got: u64, want: u64) {
    if got != want {
        panic!(rt; "{name}: {what}: got {got}, wanted {want}");
    }
}

impl Board {
    /// Nothing was told yet.
    pub fn new(rt: &impl Abort, alloc: Global, scene: &'static Scene, scale: u32) -> Board {
        Board {
            scene,
            scale,
            counts: zeros(rt, alloc, THINGS),
            changes: zeros(rt, alloc, PAGES as usize),
            written: zeros(rt, alloc, PAGES as usize),
            stable: zeros(rt, alloc, PAGES as usize),
        }
    }

    /// How many of a thing were told.
    pub fn number(&self, thing: Thing) -> u64 {
        number_at(&self.counts, thing as usize)
    }

    /// One more of a thing.
    pub fn tell(&self, thing: Thing) {
        raise_at(&self.counts, thing as usize);
    }

    /// How often the page was changed.
    pub fn changes(&self, page: u32) -> u64 {
        number_at(&self.changes, page as usize)
    }

    /// The page was changed once more.
    pub fn tell_change(&self, page: u32) {
        raise_at(&self.changes, page as usize);
    }

    /// An image of the page with this mark was written.
    pub fn tell_written(&self, page: u32, mark: u64) {
        raise_to(&self.written, page as usize, mark);
    }

    /// All that was written is on the medium.
    pub fn settle(&self) {
        for place in 0..self.written.len() {
            raise_to(&self.stable, place, number_at(&self.written, place));
        }
    }

    /// The mark of the page's image that a crash leaves at least.
    pub fn stable(&self, page: u32) -> u64 {
        number_at(&self.stable, page as usize)
    }

    /// How many looks a thread waits.
    pub fn patience(&self) -> u32 {
        self.scene.patience.saturating_mul(self.scale)
    }

    /// Waits until this has come. The test fails where it doesn't.
    pub fn wait<R: Abort + Clock>(&self, rt: &R, until: Until) {
        for _look in 0..self.patience() {
            if self.number(until.0) >= until.1 {
                return;
            }
            rest(rt, 5);
        }
        self.fail_in_vain(rt, until);
    }

    /// The test fails, since this hasn't come.
    pub fn fail_in_vain(&self, rt: &impl Abort, until: Until) {
        let Until(thing, number) = until;
        panic!(rt;
            "{}: waited in vain for {number} of {thing:?}",
            self.scene.name
        );
    }

    /// A thread is in this call. It meets the cues of it, in their order.
    pub fn meet<R: Abort + Clock>(&self, rt: &R, call: Call, page: u32) {
        for cue in self.scene.cues {
            if is_due(*cue, call, page) {
                self.wait(rt, cue.until);
                rest(rt, 50);
            }
        }
    }
}

/// Whether the cue is met in this call.
fn is_due(cue: Cue, call: Call, page: u32) -> bool {
    cue.at == call && (cue.page == ANY || cue.page == page)
}
