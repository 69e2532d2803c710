//! What is counted of a pool.

ghost use Rattle.std.specs.Prelude.{◌≡◌};
ghost use Rattle.pp_hall.specs.Counting.{no_counts, counted_in, counted_step, raised};

use pp_model::{Ending, Event, Move, Reply};

/// How often what was done, since the hall was opened. No count goes beyond 2^64 - 1.
#[derive(Clone, Copy, Debug)]
pub struct Counts {
    /// Fixes of a page that was cached.
    pub hits: u64,
    /// Fixes of a page that wasn't, so that a device had to read it.
    pub misses: u64,
    /// Those of them for which a device had to write another page back first.
    pub write_backs: u64,
    /// Flushes that ended well.
    pub flushes: u64,
    /// Flushes that failed at the device.
    pub failed_flushes: u64,
    /// Plans that ended at their end.
    pub done: u64,
    /// Plans that ended before it, since a call of the device failed.
    pub gone: u64,
}

/// What was counted, and how things stand.
#[derive(Clone, Copy, Debug)]
pub struct Stats {
    /// What was counted since the hall was opened.
    pub counts: Counts,
    /// How many pages are newer than the device's.
    pub dirty: u32,
    /// The peaks of the chairs that are out, together: so many frames are spoken for.
    pub running_peaks: u64,
    /// How many wait to start.
    pub waiting: u32,
    /// How many chairs are home.
    pub chairs: usize,
}

impl Counts {
    /// Nothing was counted yet.
    pub(crate) fn none() -> Counts
        ensures { result ≡ no_counts }
    {
        Counts {
            hits: 0,
            misses: 0,
            write_backs: 0,
            flushes: 0,
            failed_flushes: 0,
            done: 0,
            gone: 0,
        }
    }

    /// Counts what was done, if anything was.
    pub(crate) fn count(&mut self, event: Option<Event>)
        ensures { self.new ≡ counted_in self.old event }
    {
        if let Some(Event::Step { did, reply }) = event {
            self.count_step(did, reply);
        }
    }

    /// Counts a move that was answered so.
    fn count_step(&mut self, did: Move, reply: Reply)
        ensures { self.new ≡ counted_step self.old did reply }
    {
        match (did, reply) {
            (Move::Fix { .. }, Reply::Hit { .. }) => self.count_hit(),
            (Move::Fix { .. }, Reply::MustRead { .. }) => self.misses = more(self.misses),
            (Move::Fix { .. }, Reply::MustWrite { .. }) => {
                self.misses = more(self.misses);
                self.write_backs = more(self.write_backs);
            }
            (Move::FlushDone { ok: true }, Reply::Flushed { .. }) => {
                self.flushes = more(self.flushes);
            }
            (Move::FlushDone { ok: false }, Reply::Flushed { .. }) => {
                self.failed_flushes = more(self.failed_flushes);
            }
            (Move::Finish { .. }, Reply::Finished(Ending::Done)) => self.done = more(self.done),
            (Move::Finish { .. }, Reply::Finished(Ending::Gone)) => self.gone = more(self.gone),
            _ => {}
        }
    }

    /// Counts a fix of a page that was cached.
    pub(crate) fn count_hit(&mut self)
        ensures { self.new ≡ record self.old { hits = raised self.old.hits } }
    {
        self.hits = more(self.hits);
    }
}

/// One more, up to the greatest number.
fn more(count: u64) -> u64
    ensures { result ≡ raised count }
{
    count.saturating_add(1)
}
