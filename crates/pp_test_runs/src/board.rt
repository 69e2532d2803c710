//! What the threads of a run tell one another.

use crate::case::{ANY, Call, Case, Cue, Step, Thing, Until};
use std::sync::atomic::{AtomicU64, Ordering};
use std::thread;
use std::time::{Clock, Duration};

/// The counts of a run.
#[derive(Drop)]
pub struct Board {
    pub case: &'static Case,
    begun: AtomicU64,
    asked: AtomicU64,
    changed: AtomicU64,
    seen: AtomicU64,
    read: AtomicU64,
    flushed: AtomicU64,
    written: AtomicU64,
    lingered: AtomicU64,
    finished: AtomicU64,
    waited: AtomicU64,
    in_vain: AtomicU64,
    amiss: AtomicU64,
    /// How many plans were begun that wait for a call.
    plans: AtomicU64,
    /// How often each part was asked for, and each cue met.
    parts: [AtomicU64; 4],
    cues: [AtomicU64; 4],
}

impl Board {
    /// Nothing was told yet.
    pub fn new(case: &'static Case) -> Board {
        Board {
            case,
            begun: AtomicU64::new(0),
            asked: AtomicU64::new(0),
            changed: AtomicU64::new(0),
            seen: AtomicU64::new(0),
            read: AtomicU64::new(0),
            flushed: AtomicU64::new(0),
            written: AtomicU64::new(0),
            lingered: AtomicU64::new(0),
            finished: AtomicU64::new(0),
            waited: AtomicU64::new(0),
            in_vain: AtomicU64::new(0),
            amiss: AtomicU64::new(0),
            plans: AtomicU64::new(0),
            parts: [
                AtomicU64::new(0),
                AtomicU64::new(0),
                AtomicU64::new(0),
                AtomicU64::new(0),
            ],
            cues: [
                AtomicU64::new(0),
                AtomicU64::new(0),
                AtomicU64::new(0),
                AtomicU64::new(0),
            ],
        }
    }

    /// The count of a thing that is told while the run goes on.
    fn count(&self, thing: Thing) -> &AtomicU64 {
        match thing {
            Thing::Begun => &self.begun,
            Thing::Asked => &self.asked,
            Thing::Changed => &self.changed,
            Thing::Seen => &self.seen,
            Thing::Read => &self.read,
            Thing::Flushed => &self.flushed,
            Thing::Written => &self.written,
            Thing::Lingered => &self.lingered,
            Thing::Finished => &self.finished,
            Thing::Waited => &self.waited,
            Thing::InVain => &self.in_vain,
            _ => &self.amiss,
        }
    }

    /// Where the run counts the plans that end.
    pub fn counter(&self) -> &AtomicU64 {
        &self.finished
    }

    /// How many of a thing were told.
    pub fn number(&self, thing: Thing) -> u64 {
        self.count(thing).load(Ordering::SeqCst)
    }

    /// One more of a thing.
    pub fn tell(&self, thing: Thing) {
        self.count(thing).fetch_add(1, Ordering::SeqCst);
    }

    /// Tells where something isn't as it should be.
    pub fn note(&self, is_right: bool) {
        if !is_right {
            self.tell(Thing::Amiss);
        }
    }

    /// Waits until this has come, and tells where that was in vain.
    pub fn wait(&self, rt: &impl Clock, until: Until) {
        let (thing, number) = match until {
            Until::Nothing => return,
            Until::Come(thing, number) => (thing, number),
            Until::PlanMore => (Thing::Finished, one_more(&self.waited)),
            Until::PlanMoreBeside => (Thing::Finished, one_more(&self.waited).wrapping_add(1)),
            Until::CallMore => (Thing::Waited, one_more(&self.plans)),
        };
        if !comes_to(rt, self.count(thing), number) {
            self.tell(Thing::InVain);
        }
    }

    /// A thread is in this call. It meets the cues of it, in their order.
    pub fn meet(&self, rt: &impl Clock, call: Call, page: u32) {
        for (place, cue) in self.case.cues.iter().enumerate() {
            if self.is_due(place, *cue, call, page) {
                self.wait(rt, cue.until);
                let _slept = thread::sleep(rt, Duration::from_millis(50));
                self.tell(Thing::Lingered);
            }
        }
    }

    /// Whether the cue is met in this call.
    fn is_due(&self, place: usize, cue: Cue, call: Call, page: u32) -> bool {
        if cue.at != call || (cue.page != ANY && cue.page != page) {
            return false;
        }
        match cue.until {
            Until::PlanMore | Until::PlanMoreBeside => is_first(self.cues.get(place)),
            _ => true,
        }
    }

    /// The steps of the first part of this region that nobody has taken; none where all are taken.
    pub fn steps(&self, region: u8) -> &'static [Step] {
        for (place, part) in self.case.parts.iter().enumerate() {
            if part.region == region && is_first(self.parts.get(place)) {
                return part.steps;
            }
        }
        &[]
    }
}

/// Counts one more, and tells how many there are then.
fn one_more(count: &AtomicU64) -> u64 {
    count.fetch_add(1, Ordering::SeqCst).wrapping_add(1)
}

/// Counts one more, and tells whether it is the first.
fn is_first(count: Option<&AtomicU64>) -> bool {
    match count {
        Some(count) => one_more(count) == 1,
        None => false,
    }
}

/// How many times a thread looks whether another one has come so far: for five seconds, longer than a busy machine lets a
/// thread wait.
const LOOKS: u32 = 1_000;

/// Waits until the count has come so far. It is told whether it has.
fn comes_to(rt: &impl Clock, count: &AtomicU64, number: u64) -> bool {
    for _look in 0..LOOKS {
        if count.load(Ordering::SeqCst) >= number {
            return true;
        }
        let _slept = thread::sleep(rt, Duration::from_millis(5));
    }
    false
}
