//! What a column of a picture shows: what there is in a core.

ghost use Rattle.std.specs.Prelude.{◌≡◌, IfOk, map};
ghost use Rattle.std.specs.List.{range_with_len};
ghost use Rattle.pp_settings.specs.Limits.{most_slots};
ghost use Rattle.pp_cert.specs.declared.note.Held.{Held};
ghost use Rattle.pp_frames.specs.Marks.{page_count};
ghost use Rattle.pp_model.specs.Pool.{State};
ghost use Rattle.pp_model.specs.Moves.{seat_of};
ghost use Rattle.pp_core.specs.StandsFor.{StandsFor};
ghost use Rattle.pp_draw.specs.Columns.{doing_by, exclusive_in, latches_below, lengths_of, page_at, pages_below};
ghost use Rattle.pp_draw.specs.Columns.{shared_in, worker_at, is_drawn, is_latch_held, is_no_room, latch_asked};
ghost use Rattle.pp_draw.specs.Columns.{wait_of};

use crate::share::Shares;
use pp_arc::{Directory, List};
use pp_cert::Held;
use pp_core::Core;
use pp_frames::{Marks, Mode};
use pp_model::{Delay, Move, Reply};
use pp_plan::Ask;
use pp_settings::limits::MOST_SLOTS;
use std::alloc::{AllocError, Global};

/// The most slots that a plan has, as a core numbers them.
const SLOTS: u32 = MOST_SLOTS as u32;

/// What a worker is at.
#[derive(Clone, Copy)]
pub enum Doing {
    /// It has no plan.
    Idle,
    /// It runs its plan.
    Acting,
    /// A device writes the victim back, whose frame the page gets.
    Writing { page: u32, victim: u32 },
    /// A device reads the page.
    Reading { page: u32 },
    /// A fix failed, and it leaves its plan.
    Leaving,
}

/// What a worker waits for, which others have to give.
#[derive(Clone, Copy, PartialEq, Eq)]
pub enum Wait {
    /// A latch on the page, which others have latched.
    Latch { page: u32 },
    /// Room for the plan that waits first.
    Room,
}

/// The pages that a worker has latched: of each mode the one in its greatest slot.
#[derive(Clone, Copy)]
pub struct Latches {
    pub shared: Option<u32>,
    pub exclusive: Option<u32>,
}

/// A worker at the end of a column.
#[derive(Clone, Copy)]
pub struct WorkerAt {
    pub doing: Doing,
    pub latches: Latches,
    /// What it waits for. None where it can go on, works with a device, or has nothing to do. Which page a fix will name
    /// isn't known before it is made, so a wait for a page isn't told.
    pub wait: Option<Wait>,
}

/// A page in its frame at the end of a column.
#[derive(Clone, Copy, PartialEq, Eq)]
pub struct PageAt {
    pub page: u32,
    pub frame: u32,
    /// The page's mark, if one is known.
    pub mark: Option<u64>,
    /// Whether it is newer than the device's.
    pub is_dirty: bool,
    /// Whether a worker has it latched X.
    pub is_exclusive: bool,
}

/// How many pages ARC's lists have: `T1`, `T2`, `B1` and `B2`; and the target of `T1`.
#[derive(Clone, Copy)]
pub struct Lengths {
    pub recent: usize,
    pub frequent: usize,
    pub left_recent: usize,
    pub left_frequent: usize,
    pub target: u32,
}

/// What a column shows: the state behind its last line.
#[derive(Drop)]
pub struct Column {
    /// The number of its last line, from 1.
    pub line: u64,
    /// The workers, by their numbers.
    pub workers: Vec<WorkerAt>,
    /// The page that is being flushed.
    pub flushed: Option<u32>,
    /// How many pages are newer than the device's.
    pub dirty: u32,
    /// ARC's lists and target.
    pub lengths: Lengths,
    /// The pages in frames that are drawn, by their numbers.
    pub pages: Vec<PageAt>,
    /// How the workers and the flusher spent its lines, where a column stands for several.
    pub shares: Shares,
}

// ---- workers

/// The page, if it is held S.
fn shared_in(held: Option<(u32, Held)>) -> Option<u32>
    ensures { result ≡ shared_in held }
{
    match held {
        Some((page, Held::S)) => Some(page),
        _ => None,
    }
}

/// The page, if it is held X.
fn exclusive_in(held: Option<(u32, Held)>) -> Option<u32>
    ensures { result ≡ exclusive_in held }
{
    match held {
        Some((page, Held::X)) => Some(page),
        _ => None,
    }
}

/// What the worker has latched.
fn latches_of(core: &Core, worker: u32) -> Latches
    ensures { (s : State) → StandsFor core.now s → result ≡ latches_below s worker most_slots }
{
    let mut latches = Latches {
        shared: None,
        exclusive: None,
    };
    for slot in 0..SLOTS {
        let held = core.held(worker, slot);
        latches = Latches {
            shared: shared_in(held).or(latches.shared),
            exclusive: exclusive_in(held).or(latches.exclusive),
        };
    }
    latches
}

/// What the worker is at.
pub(crate) fn doing_of(core: &Core, worker: u32) -> Doing
    ensures { (s : State) → StandsFor core.now s → result ≡ doing_by (seat_of s worker) }
{
    if let Some((_, page, victim)) = core.errand(worker) {
        return match victim {
            Some(victim) => Doing::Writing { page, victim },
            None => Doing::Reading { page },
        };
    }
    if core.is_leaving(worker) {
        return Doing::Leaving;
    }
    match core.ask(worker) {
        Some(_) => Doing::Acting,
        None => Doing::Idle,
    }
}

/// Whether a latch is refused since others have latched the page.
fn is_latch_held(refusal: Option<Reply>) -> bool
    ensures { result ≡ is_latch_held refusal }
{
    matches!(refusal, Some(Reply::NotNow(Delay::LatchHeld)))
}

/// Whether a take is refused since the plan that waits first doesn't fit.
fn is_no_room(refusal: Option<Reply>) -> bool
    ensures { result ≡ is_no_room refusal }
{
    matches!(refusal, Some(Reply::NotNow(Delay::NoRoom)))
}

/// The page that the worker's plan asks a latch on.
fn latch_asked(core: &Core, worker: u32) -> Option<u32>
    ensures { (s : State) → StandsFor core.now s → result ≡ latch_asked s worker }
{
    let Some(Ask::Latch { slot, .. }) = core.ask(worker) else {
        return None;
    };
    let (page, _) = core.held(worker, u32::from(slot))?;
    Some(page)
}

/// What the worker waits for.
pub(crate) fn wait_of(core: &Core, worker: u32) -> Option<Wait>
    ensures { (s : State) → StandsFor core.now s → result ≡ wait_of s worker }
{
    if is_latch_held(core.refusal(&Move::Latch { worker })) {
        let page = latch_asked(core, worker)?;
        return Some(Wait::Latch { page });
    }
    if is_no_room(core.refusal(&Move::Take { worker })) {
        return Some(Wait::Room);
    }
    None
}

/// So many workers, by their numbers.
pub(crate) fn workers_of(
    alloc: Global,
    core: &Core,
    workers: u32,
) -> Result<Vec<WorkerAt>, AllocError>
    ensures { IfOk result (λ all. (s : State) → StandsFor core.now s
        → all.items ≡ map (worker_at s) (range_with_len 0 workers)) }
{
    let mut all = Vec::new(alloc);
    for worker in 0..workers {
        all.push(WorkerAt {
            doing: doing_of(core, worker),
            latches: latches_of(core, worker),
            wait: wait_of(core, worker),
        })?;
    }
    Ok(all)
}

// ---- pages

/// Whether the frame has a row in the picture.
pub(crate) fn is_drawn(drawn: &[bool], frame: u32) -> bool
    ensures { result ≡ is_drawn drawn.now frame }
{
    drawn.get(frame as usize).copied().unwrap_or(false)
}

/// The page in its frame, where it has one that is drawn.
fn page_at(marks: &Marks, drawn: &[bool], page: u32) -> Option<PageAt>
    ensures { result ≡ page_at marks.now drawn.now page }
{
    let frame = marks.frame_of(page)?;
    if !is_drawn(drawn, frame) {
        return None;
    }
    Some(PageAt {
        page,
        frame,
        mark: marks.stamp(page),
        is_dirty: marks.is_dirty(page),
        is_exclusive: marks.is_latched(page, Mode::X),
    })
}

/// The pages in frames that are drawn, by their numbers.
pub(crate) fn pages_in(
    alloc: Global,
    marks: &Marks,
    drawn: &[bool],
) -> Result<Vec<PageAt>, AllocError>
    ensures { IfOk result (λ pages. pages.items ≡ pages_below marks.now drawn.now (page_count marks.now)) }
{
    let mut pages = Vec::new(alloc);
    for page in 0..marks.pages() {
        if let Some(at) = page_at(marks, drawn, page) {
            pages.push(at)?;
        }
    }
    Ok(pages)
}

// ---- ARC

/// The lengths of the lists, and the target.
pub(crate) fn lengths_of(directory: &Directory) -> Lengths
    ensures { result ≡ lengths_of directory.now }
{
    Lengths {
        recent: directory.len(List::T1),
        frequent: directory.len(List::T2),
        left_recent: directory.len(List::B1),
        left_frequent: directory.len(List::B2),
        target: directory.target(),
    }
}
