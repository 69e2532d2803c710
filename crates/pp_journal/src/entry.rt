//! The entries of a journal: events in 16 bytes.

ghost use Rattle.std.specs.Prelude.{◌≡◌, ◌↔◌, ℕ, List, true, Some, IfSome, slice_index_or};
ghost use Rattle.pp_model.specs.declared.event.Event.{Event};
ghost use Rattle.pp_model.specs.declared.moves.Came.TheVariants.{Image};
ghost use Rattle.pp_model.specs.declared.moves.Move.TheVariants as moves;
ghost use Rattle.pp_model.specs.declared.event.Event.TheVariants.{Submit, Step};
ghost use Rattle.pp_model.specs.WorkerParts.{names_worker};
ghost use Rattle.std.specs.Option.{is_some};
ghost use Rattle.pp_journal.specs.Entries.{event_of, is_packed, is_packed_event, StandsAlone};

use core::mem::size_of;
use pp_model::{Came, Ending, Event, Failure, Move, Reply};

/// Workers below this number have their number in one byte, so that an entry has 16 in all.
const WORKERS: u32 = 256;

/// Frames below this number have their number in two bytes, for the same reason.
const FRAMES: u32 = 65_536;

/// An event in 16 bytes, or where it stands else.
#[derive(Clone, Copy, PartialEq, Eq)]
pub(crate) enum Entry {
    /// A plan was submitted.
    Submit {
        plan: u64,
    },
    /// A worker took a plan.
    Take {
        worker: u32,
        plan: u64,
    },
    /// A worker fixed a page that was cached.
    Hit {
        worker: u8,
        frame: u16,
        page: u32,
        mark: u64,
    },
    /// A worker fixed a page that has to be read.
    MustRead {
        worker: u32,
        page: u32,
        frame: u32,
    },
    /// A worker fixed a page for which a victim has to be written back first.
    MustWrite {
        worker: u8,
        frame: u16,
        page: u32,
        victim: u32,
    },
    /// The victim was written back, and the page has to be read.
    Written {
        worker: u32,
        frame: u32,
    },
    /// The victim could not be written back.
    Unwritten {
        worker: u32,
    },
    /// The page was read, and its mark is the stamp that came.
    Loaded {
        worker: u8,
        page: u32,
        stamp: u64,
    },
    /// Another page or another stamp came.
    Misread {
        worker: u8,
        page: u32,
        stamp: u64,
    },
    /// The page could not be read.
    Unread {
        worker: u32,
    },
    /// A worker gave pages back.
    Unfix {
        worker: u32,
    },
    /// A worker latched a page.
    Latch {
        worker: u32,
        mark: u64,
    },
    /// A worker took its latch off a page.
    Unlatch {
        worker: u32,
        mark: u64,
    },
    /// A worker went on with a branch.
    Choose {
        worker: u32,
        branch: u32,
    },
    /// A worker that leaves its plan gave a slot back.
    Unwind {
        worker: u32,
        slot: u32,
    },
    /// A worker that leaves its plan gave a slot back whose page it had latched X.
    UnwindExclusive {
        worker: u8,
        slot: u32,
        mark: u64,
    },
    /// A worker is idle again.
    Finish {
        worker: u32,
        ending: Ending,
    },
    /// A flush began.
    Flush {
        page: u32,
        mark: u64,
    },
    /// A flush ended.
    Flushed {
        ok: bool,
        clean: bool,
    },
    /// Any other event. It stands at this place of a list beside the entries.
    Other {
        place: u64,
    },
}

const _: () = prove!(size_of::<Entry>() == 16);

/// The event of an entry, beside which these others stand.
#[inline(always)]
pub(crate) fn event_of(others: &[Event], entry: Entry) -> Event
    ensures { result ≡ event_of others.now entry }
{
    match entry {
        Entry::Submit { plan } => Event::Submit { plan },
        Entry::Take { worker, plan } => step(Move::Take { worker }, Reply::Taken { plan }),
        Entry::Hit {
            worker,
            frame,
            page,
            mark,
        } => {
            let (worker, frame) = (u32::from(worker), u32::from(frame));
            step(Move::Fix { worker, page }, Reply::Hit { frame, mark })
        }
        Entry::MustRead {
            worker,
            page,
            frame,
        } => { step(Move::Fix { worker, page }, Reply::MustRead { frame }) }
        Entry::MustWrite {
            worker,
            frame,
            page,
            victim,
        } => {
            let (worker, frame) = (u32::from(worker), u32::from(frame));
            step(
                Move::Fix { worker, page },
                Reply::MustWrite { frame, victim },
            )
        }
        Entry::Written { worker, frame } => {
            step(
                Move::WriteDone { worker, ok: true },
                Reply::MustRead { frame },
            )
        }
        Entry::Unwritten { worker } => {
            let failed = Reply::Failed(Failure::WriteFault);
            step(Move::WriteDone { worker, ok: false }, failed)
        }
        Entry::Loaded {
            worker,
            page,
            stamp,
        } => {
            let (worker, came) = (u32::from(worker), Came::Image(page, stamp));
            step(
                Move::ReadDone { worker, came },
                Reply::Loaded { mark: stamp },
            )
        }
        Entry::Misread {
            worker,
            page,
            stamp,
        } => {
            let (worker, came) = (u32::from(worker), Came::Image(page, stamp));
            step(
                Move::ReadDone { worker, came },
                Reply::Failed(Failure::Misread),
            )
        }
        Entry::Unread { worker } => {
            let came = Came::Fault;
            step(
                Move::ReadDone { worker, came },
                Reply::Failed(Failure::ReadFault),
            )
        }
        Entry::Unfix { worker } => step(Move::Unfix { worker }, Reply::Did),
        Entry::Latch { worker, mark } => step(Move::Latch { worker }, Reply::Latched { mark }),
        Entry::Unlatch { worker, mark } => step(
            Move::Unlatch { worker },
            Reply::Unlatched { mark },
        ),
        Entry::Choose { worker, branch } => step(Move::Choose { worker, branch }, Reply::Did),
        Entry::Unwind { worker, slot } => step(Move::Unwind { worker, slot }, Reply::Did),
        Entry::UnwindExclusive { worker, slot, mark } => {
            let worker = u32::from(worker);
            step(Move::Unwind { worker, slot }, Reply::Unlatched { mark })
        }
        Entry::Finish { worker, ending } => step(Move::Finish { worker }, Reply::Finished(ending)),
        Entry::Flush { page, mark } => step(Move::FlushBegin { page }, Reply::Flushing { mark }),
        Entry::Flushed { ok, clean } => step(Move::FlushDone { ok }, Reply::Flushed { clean }),
        Entry::Other { place } => other(others, place),
    }
}

/// Whether two entries are equal, and stand alone. Then they are one event, whatever stands beside them.
// They are lent, since to compare copies would take as long as to copy them.
#[inline(always)]
pub(crate) fn is_one_event(left: &Entry, right: &Entry) -> bool
    ensures { result ≡ true → (others more : List Event) → event_of others left.now ≡ event_of more right.now }
{
    match left {
        Entry::Other { .. } => false,
        _ => left == right,
    }
}

/// Whether the events of two entries are the same, by the events themselves.
// Not inlined, since events that are the same are mostly packed alike.
#[inline(never)]
pub(crate) fn is_same_event(others: &[Event], left: Entry, more: &[Event], right: Entry) -> bool
    ensures { (result ≡ true) ↔ (event_of others.now left ≡ event_of more.now right) }
{
    let first = event_of(others, left);
    let second = event_of(more, right);
    first == second
}

/// The worker whose move the entry's event is, if it is one's.
#[inline(always)]
pub(crate) fn worker_of(others: &[Event], entry: Entry) -> Option<u32>
    ensures { (w : ℕ) → (names_worker w (event_of others.now entry) ≡ true) ↔ (result ≡ Some w) }
{
    match entry {
        Entry::Take { worker, .. }
        | Entry::MustRead { worker, .. }
        | Entry::Written { worker, .. }
        | Entry::Unwritten { worker }
        | Entry::Unread { worker }
        | Entry::Unfix { worker }
        | Entry::Latch { worker, .. }
        | Entry::Unlatch { worker, .. }
        | Entry::Choose { worker, .. }
        | Entry::Unwind { worker, .. }
        | Entry::Finish { worker, .. } => Some(worker),
        Entry::Hit { worker, .. }
        | Entry::MustWrite { worker, .. }
        | Entry::Loaded { worker, .. }
        | Entry::Misread { worker, .. }
        | Entry::UnwindExclusive { worker, .. } => Some(u32::from(worker)),
        Entry::Submit { .. } | Entry::Flush { .. } | Entry::Flushed { .. } => None,
        Entry::Other { place } => worker_aside(others, place),
    }
}

/// The same of an event that stands beside the entries.
#[inline(never)]
fn worker_aside(others: &[Event], place: u64) -> Option<u32>
    ensures { (w : ℕ) → (names_worker w (slice_index_or others.now place (Submit 0)) ≡ true) ↔ (result ≡ Some w) }
{
    match other(others, place) {
        Event::Submit { .. } => None,
        Event::Step { did, .. } => match did {
            Move::Take { worker }
            | Move::Fix { worker, .. }
            | Move::WriteDone { worker, .. }
            | Move::ReadDone { worker, .. }
            | Move::Unfix { worker }
            | Move::Latch { worker }
            | Move::Unlatch { worker }
            | Move::Choose { worker, .. }
            | Move::Unwind { worker, .. }
            | Move::Finish { worker } => Some(worker),
            Move::FlushBegin { .. } | Move::FlushDone { .. } => None,
        },
    }
}

/// The move with its reply.
#[inline(always)]
fn step(did: Move, reply: Reply) -> Event
    ensures { result ≡ Step did reply }
{
    Event::Step { did, reply }
}

/// The event at this place. No entry names a place past the last one.
#[inline(always)]
fn other(others: &[Event], place: u64) -> Event
    ensures { result ≡ slice_index_or others.now place (Submit 0) }
{
    match others.get(place as usize) {
        Some(event) => *event,
        None => Event::Submit { plan: 0 },
    }
}

/// The entry that is the event, where one is.
#[inline(always)]
pub(crate) fn entry_of(event: Event) -> Option<Entry>
    ensures entry { IfSome result (StandsAlone event) }
    ensures packs { is_some result ≡ is_packed_event event }
{
    match event {
        Event::Submit { plan } => Some(Entry::Submit { plan }),
        Event::Step { did, reply } => step_entry(did, reply),
    }
}

/// The entry of a move with its reply, where there is one.
#[inline(always)]
fn step_entry(did: Move, reply: Reply) -> Option<Entry>
    ensures entry { IfSome result (StandsAlone (Step did reply)) }
    ensures packs { is_some result ≡ is_packed did reply }
{
    match did {
        Move::Take { worker } => match reply {
            Reply::Taken { plan } => Some(Entry::Take { worker, plan }),
            _ => None,
        },
        Move::Fix { worker, page } => fix_entry(worker, page, reply),
        Move::WriteDone { worker, ok } => write_entry(worker, ok, reply),
        Move::ReadDone { worker, came } => read_entry(worker, came, reply),
        Move::Unfix { worker } => match reply {
            Reply::Did => Some(Entry::Unfix { worker }),
            _ => None,
        },
        Move::Latch { worker } => match reply {
            Reply::Latched { mark } => Some(Entry::Latch { worker, mark }),
            _ => None,
        },
        Move::Unlatch { worker } => match reply {
            Reply::Unlatched { mark } => Some(Entry::Unlatch { worker, mark }),
            _ => None,
        },
        Move::Choose { worker, branch } => match reply {
            Reply::Did => Some(Entry::Choose { worker, branch }),
            _ => None,
        },
        Move::Unwind { worker, slot } => unwind_entry(worker, slot, reply),
        Move::Finish { worker } => match reply {
            Reply::Finished(ending) => Some(Entry::Finish { worker, ending }),
            _ => None,
        },
        Move::FlushBegin { page } => match reply {
            Reply::Flushing { mark } => Some(Entry::Flush { page, mark }),
            _ => None,
        },
        Move::FlushDone { ok } => match reply {
            Reply::Flushed { clean } => Some(Entry::Flushed { ok, clean }),
            _ => None,
        },
    }
}

/// The entry of a fix.
#[inline(always)]
fn fix_entry(worker: u32, page: u32, reply: Reply) -> Option<Entry>
    ensures entry { IfSome result (StandsAlone (Step (moves.Fix worker page) reply)) }
    ensures packs { is_some result ≡ is_packed (moves.Fix worker page) reply }
{
    match reply {
        Reply::Hit { frame, mark } => {
            if worker < WORKERS && frame < FRAMES {
                let (worker, frame) = (worker as u8, frame as u16);
                return Some(Entry::Hit {
                    worker,
                    frame,
                    page,
                    mark,
                });
            }
            None
        }
        Reply::MustRead { frame } => Some(Entry::MustRead {
            worker,
            page,
            frame,
        }),
        Reply::MustWrite { frame, victim } => {
            if worker < WORKERS && frame < FRAMES {
                let (worker, frame) = (worker as u8, frame as u16);
                return Some(Entry::MustWrite {
                    worker,
                    frame,
                    page,
                    victim,
                });
            }
            None
        }
        _ => None,
    }
}

/// The entry of a device's answer to a writing.
#[inline(always)]
fn write_entry(worker: u32, ok: bool, reply: Reply) -> Option<Entry>
    ensures entry { IfSome result (StandsAlone (Step (moves.WriteDone worker ok) reply)) }
    ensures packs { is_some result ≡ is_packed (moves.WriteDone worker ok) reply }
{
    match reply {
        Reply::MustRead { frame } => {
            if ok {
                return Some(Entry::Written { worker, frame });
            }
            None
        }
        Reply::Failed(Failure::WriteFault) => {
            if ok {
                return None;
            }
            Some(Entry::Unwritten { worker })
        }
        _ => None,
    }
}

/// The entry of a device's answer to a reading.
#[inline(always)]
fn read_entry(worker: u32, came: Came, reply: Reply) -> Option<Entry>
    ensures entry { IfSome result (StandsAlone (Step (moves.ReadDone worker came) reply)) }
    ensures packs { is_some result ≡ is_packed (moves.ReadDone worker came) reply }
{
    match came {
        Came::Fault => match reply {
            Reply::Failed(Failure::ReadFault) => Some(Entry::Unread { worker }),
            _ => None,
        },
        Came::Image(page, stamp) => image_entry(worker, page, stamp, reply),
    }
}

/// The entry of an image that was read.
#[inline(always)]
fn image_entry(worker: u32, page: u32, stamp: u64, reply: Reply) -> Option<Entry>
    ensures entry { IfSome result (StandsAlone (Step (moves.ReadDone worker (Image page stamp)) reply)) }
    ensures packs { is_some result ≡ is_packed (moves.ReadDone worker (Image page stamp)) reply }
{
    if worker >= WORKERS {
        return None;
    }
    let worker = worker as u8;
    match reply {
        Reply::Loaded { mark } => {
            if mark == stamp {
                return Some(Entry::Loaded {
                    worker,
                    page,
                    stamp,
                });
            }
            None
        }
        Reply::Failed(Failure::Misread) => Some(Entry::Misread {
            worker,
            page,
            stamp,
        }),
        _ => None,
    }
}

/// The entry of an unwinding.
#[inline(always)]
fn unwind_entry(worker: u32, slot: u32, reply: Reply) -> Option<Entry>
    ensures entry { IfSome result (StandsAlone (Step (moves.Unwind worker slot) reply)) }
    ensures packs { is_some result ≡ is_packed (moves.Unwind worker slot) reply }
{
    match reply {
        Reply::Did => Some(Entry::Unwind { worker, slot }),
        Reply::Unlatched { mark } => {
            if worker < WORKERS {
                let worker = worker as u8;
                return Some(Entry::UnwindExclusive { worker, slot, mark });
            }
            None
        }
        _ => None,
    }
}
