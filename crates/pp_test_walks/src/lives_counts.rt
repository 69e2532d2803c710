//! What was seen in the lives of pools, and how often.

use crate::common::{TOO_GREAT, Tally};
use crate::plain::{Plain, Stage};
use crate::store::Store;
use pp_play::Line;
use pp_vault::{Came, Ending, Failure, Move, Reply};
use std::alloc::{AllocError, Global};

/// What is counted.
#[derive(Clone, Copy)]
pub enum Seen {
    /// A renewal is refused: a plan waits, else a worker is in its plan, else a flush is in flight.
    PlanWaits,
    WorkerIsBusy,
    FlushIsInFlight,
    /// A renewal finds such pages, or that a flush was begun.
    KeepsCached,
    KeepsDirty,
    KeepsRemembered,
    KeepsUncachedMark,
    KeepsHighMark,
    GivesFlushesBack,
    /// A page that a life before cached is hit; one that it changed is written back or flushed; one that it knew and that isn't
    /// cached is read, or misread with its number in the head.
    OldPageIsHit,
    OldChangeIsWrittenBack,
    OldChangeIsFlushed,
    OldMarkIsMet,
    OldMarkRefuses,
    /// The device fails or lies, and a plan is done or given up.
    ReadFails,
    WriteFails,
    Misreads,
    FlushLeavesDirty,
    LieIsTaken,
    PlanIsDone,
    PlanIsGone,
}

/// How many things are counted.
const ALL: usize = 21;

/// Whether the life before cached a page, changed it, or knew it uncached, as far as that is still so.
#[derive(Clone, Copy)]
struct Old {
    cached: bool,
    changed: bool,
    known: bool,
}

const UNKNOWN: Old = Old {
    cached: false,
    changed: false,
    known: false,
};

/// How often each was seen, and what the life before left of each page.
#[derive(Drop)]
pub struct Counts {
    tally: Tally,
    pages: Vec<Old>,
}

impl Counts {
    pub fn new(alloc: Global) -> Result<Counts, AllocError> {
        let tally = Tally::new(alloc, ALL)?;
        Ok(Counts {
            tally,
            pages: Vec::new(alloc),
        })
    }

    fn add(&mut self, seen: Seen) {
        self.tally.add(seen as usize);
    }

    fn add_if(&mut self, is_so: bool, seen: Seen) {
        if is_so {
            self.add(seen);
        }
    }

    /// How many of the things were seen so often.
    pub fn often(&self, least: u32) -> u32 {
        self.tally.often(0, ALL, least)
    }

    /// Nothing is of a life before: another pool begins.
    pub fn begin(&mut self) {
        self.pages.clear();
    }

    /// What the life before left of the page.
    fn old(&self, page: u32) -> Old {
        self.pages.get(page as usize).copied().unwrap_or(UNKNOWN)
    }

    // ---- renewals

    /// Counts a renewal that is asked for now.
    pub fn count_renewal(&mut self, plain: &Plain) -> Result<(), AllocError> {
        if plain.waiting() > 0 {
            self.add(Seen::PlanWaits);
        } else if !plain.are_idle() {
            self.add(Seen::WorkerIsBusy);
        } else if plain.flush.is_some() {
            self.add(Seen::FlushIsInFlight);
        } else {
            self.keep(plain)?;
            self.count_kept(plain);
        }
        Ok(())
    }

    /// Keeps what the next life begins with.
    fn keep(&mut self, plain: &Plain) -> Result<(), AllocError> {
        self.pages.clear();
        for page in &plain.pages {
            let cached = page.frame.is_some();
            self.pages.push(Old {
                cached,
                changed: page.dirty,
                known: !cached && page.mark.is_some(),
            })?;
        }
        Ok(())
    }

    /// Counts what a renewal finds.
    fn count_kept(&mut self, plain: &Plain) {
        let mut found = UNKNOWN;
        let mut is_high = false;
        for page in 0..plain.size {
            let old = self.old(page);
            found.cached = found.cached || old.cached;
            found.changed = found.changed || old.changed;
            found.known = found.known || old.known;
            is_high = is_high || plain.mark_or_zero(page) >= TOO_GREAT;
        }
        let remembers = !plain.lists.b1.is_empty() || !plain.lists.b2.is_empty();
        self.add_if(found.cached, Seen::KeepsCached);
        self.add_if(found.changed, Seen::KeepsDirty);
        self.add_if(found.known, Seen::KeepsUncachedMark);
        self.add_if(remembers, Seen::KeepsRemembered);
        self.add_if(is_high, Seen::KeepsHighMark);
        self.add_if(plain.flushes_left < plain.flushes, Seen::GivesFlushesBack);
    }

    // ---- moves

    /// Counts what a cue came to, which found its worker at this stage, and goes on with the pages that are still as the life
    /// before left them.
    pub fn count(&mut self, line: Line, stage: Option<Stage>, store: &Store) {
        if let Line::Did(asked, reply) = line {
            if let Some(seen) = self.old_seen(asked, reply, stage) {
                self.add(seen);
            }
            self.count_reply(reply, store);
        }
        let mut number: u32 = 0;
        for old in &mut self.pages {
            let is_cached = store.plain.frame(number).is_some();
            old.cached = old.cached && is_cached;
            old.changed = old.changed && store.plain.is_dirty(number);
            old.known = old.known && (!is_cached || store.plain.is_loaded(number));
            number = number.saturating_add(1);
        }
    }

    /// What of the life before the move comes to, if to anything.
    fn old_seen(&self, asked: Move, reply: Reply, stage: Option<Stage>) -> Option<Seen> {
        match asked {
            Move::Fix { page, .. } if self.is_hit(page, reply) => Some(Seen::OldPageIsHit),
            Move::Fix { .. } if self.is_written(reply) => Some(Seen::OldChangeIsWrittenBack),
            Move::FlushBegin { page } if self.old(page).changed => match reply {
                Reply::Flushing { .. } => Some(Seen::OldChangeIsFlushed),
                _ => None,
            },
            Move::ReadDone { came, .. } if self.is_old_read(came, stage) => match reply {
                Reply::Loaded { .. } => Some(Seen::OldMarkIsMet),
                _ => Some(Seen::OldMarkRefuses),
            },
            _ => None,
        }
    }

    /// Whether the reply is a hit of a page that the life before cached.
    fn is_hit(&self, page: u32, reply: Reply) -> bool {
        matches!(reply, Reply::Hit { .. }) && self.old(page).cached
    }

    /// Whether the reply has a page written back that the life before changed.
    fn is_written(&self, reply: Reply) -> bool {
        match reply {
            Reply::MustWrite { victim, .. } => self.old(victim).changed,
            _ => false,
        }
    }

    /// Whether what came has the number of the page that is loaded, which the life before knew.
    fn is_old_read(&self, came: Came, stage: Option<Stage>) -> bool {
        match (came, stage) {
            (Came::Image(head, _), Some(Stage::Reading { page, .. })) => {
                head == page && self.old(page).known
            }
            _ => false,
        }
    }

    fn count_reply(&mut self, reply: Reply, store: &Store) {
        let seen = match reply {
            Reply::Failed(Failure::ReadFault) => Seen::ReadFails,
            Reply::Failed(Failure::WriteFault) => Seen::WriteFails,
            Reply::Failed(Failure::Misread) => Seen::Misreads,
            Reply::Flushed { clean: false } => Seen::FlushLeavesDirty,
            Reply::Finished(Ending::Done) => Seen::PlanIsDone,
            Reply::Finished(Ending::Gone) => Seen::PlanIsGone,
            Reply::Loaded { .. } if store.trouble().is_some() => Seen::LieIsTaken,
            _ => return,
        };
        self.add(seen);
    }
}
