//! A scene as data: a pool, what its threads do with it, and what is left of it.

use pp_buffer_pool::{CheckpointError, CloseError, ExecuteError, Flush, Outcome, Policy};
use pp_test_plain::samples::REGIONS;

/// What is counted while a scene goes on.
#[derive(Clone, Copy, Debug, PartialEq, Eq)]
pub enum Thing {
    /// Plans that were taken.
    Begun,
    /// Pages that works have told.
    Asked,
    /// Pages whose change has begun.
    Changed,
    /// Images that works were shown.
    Seen,
    /// Readings that have begun.
    Read,
    /// Writings of workers that have begun.
    Written,
    /// Writings of the flusher that have begun.
    Flushed,
    /// Syncs of checkpoints that have begun.
    Synced,
    /// Calls of `execute` that have returned, and of them those whose plans were done, are gone, or weren't run.
    Ended,
    Done,
    Gone,
    Refused,
    /// Works that were told of the end of their plans.
    Over,
    /// Signs that threads have given.
    Sign,
    /// How many wait to start, as the pool tells it. Only threads wait for this, and no work or device.
    Waiting,
}

/// How many things there are.
pub const THINGS: usize = 15;

/// So many of a thing have come.
#[derive(Clone, Copy)]
pub struct Until(pub Thing, pub u64);

/// Nothing is waited for.
pub const AT_ONCE: Until = Until(Thing::Begun, 0);

/// A page that a work tells: so far behind the first of its region, once this has come.
#[derive(Clone, Copy)]
pub struct Step(pub u32, pub Until);

/// The first page of its region, at once.
pub const FIRST: Step = Step(0, AT_ONCE);

/// What `execute` has to answer.
pub type Answer = Result<Outcome, ExecuteError>;

/// The plan is done.
pub const DONE: Answer = Ok(Outcome::Done);

/// What a thread does.
#[derive(Clone, Copy)]
pub enum Act {
    /// Runs this plan, with a work that tells the pages of these steps one behind the other, and first pages
    /// afterwards. It is answered so.
    Run(&'static str, &'static [Step], Answer),
    /// The same, and it is done. Of all plans so many were taken before.
    RunAs(u64, &'static str, &'static [Step]),
    /// Runs this plan so many times, with a work that tells pages by chance. It is done, or a device was at fault.
    Many(u32, &'static str),
    /// The same as `Run` and as `Many`, with a work that sees copies.
    RunOnCopies(&'static str, &'static [Step], Answer),
    ManyOnCopies(u32, &'static str),
    /// Flushes a page, and is answered so.
    Flush(Flush),
    /// Flushes until the pool is stopped, and goes on where a writing fails.
    FlushOn,
    /// Flushes until no flush is left.
    FlushSpent,
    /// Asks to flush so, and is told that another thread does.
    FlushBusy,
    /// Has all dirty pages on the medium, and is answered so. After `Ok` they are there, as they were at the call or newer.
    Checkpoint(Result<(), CheckpointError>),
    /// The same so many times. A page may be held, or a writing fail.
    Checkpoints(u32),
    /// Sees that these pages are dirty, by rising numbers, and no others.
    Dirty(&'static [u32]),
    /// Stops the pool.
    Stop,
    /// Gives a sign.
    Sign,
}

/// What a thread does once this has come.
pub type Deed = (Until, Act);

/// A call of a work or of a device.
#[derive(Clone, Copy, PartialEq, Eq)]
pub enum Call {
    /// A work is told of its plan, or of its end; the plan's number stands for the page.
    Begin,
    End,
    Branch,
    Change,
    See,
    Read,
    /// A writing of a worker.
    Write,
    /// A writing of the flusher.
    Flush,
}

/// A call in which a thread waits until this has come, and then lingers for a while: so long that who has asked by
/// then waits for it. Where it doesn't wait yet the test shows less, and doesn't fail.
#[derive(Clone, Copy)]
pub struct Cue {
    pub at: Call,
    /// The page of the call; [`ANY`] for all.
    pub page: u32,
    pub until: Until,
}

/// Any page.
pub const ANY: u32 = u32::MAX;

/// What devices do amiss.
#[derive(Clone, Copy)]
pub enum Faults {
    None,
    /// No device reads this page.
    Page(u32),
    /// No end but the flusher's writes.
    Writings,
    /// These writings of the flusher's end fail, counted from 1 on.
    Flusher(&'static [u32]),
    /// The sync with this number fails, counted from 1 on, and so do all behind it.
    Syncs(u64),
    /// At each end a call fails now and then, and between two of these one lies.
    Often,
}

/// A scene.
#[derive(Drop)]
pub struct Scene {
    /// What it is called where it fails.
    pub name: &'static str,
    pub frames: u32,
    /// How many chairs there are.
    pub workers: u32,
    pub policy: Policy,
    /// The regions as the settings have them.
    pub regions: &'static str,
    /// How many flushes there are.
    pub flushes: u64,
    /// What each thread does, one deed behind the other, and how many more do what the last of them does.
    pub threads: &'static [&'static [Deed]],
    pub copies: usize,
    /// How often all threads begin and end.
    pub waves: u32,
    pub cues: &'static [Cue],
    pub faults: Faults,
    /// How many looks of five milliseconds a thread waits for another. A scene may take twice as long.
    pub patience: u32,
    /// How many of these things there are once all threads have ended, and how many pages are dirty then.
    pub counts: &'static [(Thing, u64)],
    pub dirty: Option<u32>,
    /// How often the pool isn't closed before it is, since a page can't be written; and what is done each time in
    /// between.
    pub faults_at_close: Option<u32>,
    pub between: &'static [Deed],
    /// Why it can't be closed, where it is given up, and how many changed pages are lost with it.
    pub gives_up: Option<(CloseError, u32)>,
}

/// Many may wait to start, nobody overtakes, and a page is flushed as soon as one is changed.
pub const POLICY: Policy = Policy {
    queue: 64,
    bypass: 0,
    flush_from: 1,
    flush_to: 0,
};

/// Three frames and two chairs, and no thread.
pub const SAMPLE: Scene = Scene {
    name: "",
    frames: 3,
    workers: 2,
    policy: POLICY,
    regions: REGIONS,
    flushes: 1_000_000_000,
    threads: &[],
    copies: 0,
    waves: 1,
    cues: &[],
    faults: Faults::None,
    patience: 2_000,
    counts: &[],
    dirty: None,
    faults_at_close: Some(0),
    between: &[],
    gives_up: None,
};

/// The flusher's thread, which begins at once.
pub const FLUSHER: &[Deed] = &[(AT_ONCE, Act::FlushOn)];

/// How many pages the devices have.
pub const PAGES: u32 = 24;

/// How many bytes a page has.
pub const PAGE_BYTES: usize = 512;
