//! A run as data: its settings and plans, what its threads wait for, and what is left of it.

use pp_test_plain::samples::REGIONS;

/// What is counted while a run goes on, or afterwards in its record.
#[derive(Clone, Copy)]
pub enum Thing {
    /// Works that were asked for a page.
    Begun,
    /// Pages that works have told.
    Asked,
    /// Pages whose change has begun.
    Changed,
    /// Images that works were shown.
    Seen,
    /// Readings that have begun, of the counted page.
    Read,
    /// Writings of the flusher that have begun.
    Flushed,
    /// Writings of workers that have begun.
    Written,
    /// Cues that are over.
    Lingered,
    /// Plans that have ended, as the run counts them.
    Finished,
    /// Calls that have waited for a plan to end.
    Waited,
    /// Whatever was waited for in vain.
    InVain,
    /// Whatever a work or a device was handed that isn't what the plans ask.
    Amiss,
    /// Events.
    Events,
    /// Pages that are newer than the device's.
    Dirty,
    /// Events that tell of a page that was read.
    Loads,
    /// Events that tell of a page that was there.
    Hits,
    /// Events that tell of a plan that was done.
    Done,
    /// Events that tell of a plan that could not go on.
    Gone,
    /// The same, of another worker than the first.
    GoneElsewhere,
    /// Fixes of another page than the worker's own.
    Strays,
}

/// What a thread waits for.
#[derive(Clone, Copy)]
pub enum Until {
    /// For nothing.
    Nothing,
    /// For so many of a thing.
    Come(Thing, u64),
    /// For one plan more to end than calls have waited for before. A cue that says this, or the next one, is met once.
    PlanMore,
    /// The same beside a plan that has ended already, and so was counted.
    PlanMoreBeside,
    /// For one call more to wait for a plan than have been waited for so before.
    CallMore,
}

/// A page that a work tells: so far behind the first of its region, once this has come.
#[derive(Clone, Copy)]
pub struct Step {
    pub behind: u32,
    pub until: Until,
}

/// A part of a run. The first work that is asked for a page of its region, and has no part yet, takes it, and tells the pages of its
/// steps, one behind the other; afterwards, and without a part, first pages.
pub struct Part {
    pub region: u8,
    pub steps: &'static [Step],
}

/// A call of a work or of a device.
#[derive(Clone, Copy, PartialEq, Eq)]
pub enum Call {
    /// A work is told of a plan; its number stands for the page.
    Begin,
    Branch,
    Reach,
    Change,
    See,
    /// A work is lent pages; the slot whose latch comes off stands for the page.
    Rework,
    /// A work is told of the end of a plan; its number stands for the page.
    End,
    Read,
    /// A writing of the flusher.
    Flush,
    /// A writing of a worker.
    WriteBack,
}

/// A call in which a thread waits until this has come, and then lingers for a while: so long that who has asked by then
/// waits for it. Where it doesn't wait yet the test shows less, and doesn't fail.
#[derive(Clone, Copy)]
pub struct Cue {
    pub at: Call,
    /// The page of the call; [`ANY`] for all.
    pub page: u32,
    pub until: Until,
}

/// Any page.
pub const ANY: u32 = u32::MAX;

/// How works tell pages and branches.
#[derive(Clone, Copy)]
pub enum Picks {
    /// By their parts.
    Parts,
    /// By numbers that look like chance.
    Chance,
    /// The page of the work's own number in each region, once all works have begun.
    Seats,
}

/// What devices do amiss.
#[derive(Clone, Copy)]
pub enum Faults {
    None,
    /// No device reads this page.
    Page(u32),
    /// The workers' writings fail.
    Writings,
    /// The first call of the end with this number fails. The workers' ends come first, and the flusher's is the last.
    First(u32),
    /// At each end every tenth call fails, and between two of these one lies.
    Tenths,
}

/// Where a region lies.
pub struct Area {
    pub first: u32,
    pub count: u32,
}

/// A run.
#[derive(Drop)]
pub struct Case {
    /// What it is called where it fails.
    pub name: &'static str,
    pub frames: u32,
    pub workers: u32,
    pub flushes: u32,
    pub page_bytes: usize,
    /// How many pages the device has.
    pub pages: u32,
    /// The regions as the settings have them, and once more as a work is told of them.
    pub regions: &'static str,
    pub areas: &'static [Area],
    /// The plans in their order, and how often they are given so.
    pub plans: &'static [&'static str],
    pub rounds: u64,
    pub picks: Picks,
    pub parts: &'static [Part],
    pub cues: &'static [Cue],
    /// How far works reach.
    pub reach: usize,
    /// The page whose readings are counted; [`ANY`] for all.
    pub counted: u32,
    pub faults: Faults,
    /// Whether each plan changes one page, so that as many have ended at each call as pages were changed before.
    pub is_in_step: bool,
    /// How many of these things there are afterwards.
    pub counts: &'static [(Thing, u64)],
}

const SAMPLE_AREAS: &[Area] = &[
    Area { first: 0, count: 4 },
    Area {
        first: 16,
        count: 8,
    },
];

/// The sample settings, with two workers and four flushes, and no plan.
pub const SAMPLE: Case = Case {
    name: "",
    frames: 3,
    workers: 2,
    flushes: 4,
    page_bytes: 64,
    pages: 24,
    regions: REGIONS,
    areas: SAMPLE_AREAS,
    plans: &[],
    rounds: 1,
    picks: Picks::Parts,
    parts: &[],
    cues: &[],
    reach: usize::MAX,
    counted: ANY,
    faults: Faults::None,
    is_in_step: false,
    counts: &[],
};
