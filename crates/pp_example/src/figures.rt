//! What a pool did, counted from its journal.

ghost use Rattle.std.specs.Prelude.{◌≡◌, count_by};
ghost use Rattle.pp_example.specs.Figures.{is_hit, is_load, is_write_back, is_flush};

use pp_model::{Event, Move, Reply};
use std::fmt::{self, Display, Formatter, Write};

/// How often a pool did what costs time.
#[derive(Clone, Copy, Debug, PartialEq, Eq)]
pub struct Figures {
    /// Fixes of a page that was cached.
    pub hits: usize,
    /// Pages that were read.
    pub loads: usize,
    /// Changed pages that were written because their frame was wanted.
    pub write_backs: usize,
    /// Pages that the flusher wrote.
    pub flushes: usize,
}

impl Figures {
    /// The figures of a journal.
    pub fn of(journal: &[Event]) -> Self
        ensures hits { result.hits ≡ count_by is_hit journal.now }
        ensures loads { result.loads ≡ count_by is_load journal.now }
        ensures write_backs { result.write_backs ≡ count_by is_write_back journal.now }
        ensures flushes { result.flushes ≡ count_by is_flush journal.now }
    {
        Figures {
            hits: journal.iter().filter(|event| is_hit(event)).count(),
            loads: journal.iter().filter(|event| is_load(event)).count(),
            write_backs: journal.iter().filter(|event| is_write_back(event)).count(),
            flushes: journal.iter().filter(|event| is_flush(event)).count(),
        }
    }
}

fn is_hit(event: &Event) -> bool
    ensures { result ≡ is_hit event.now }
{
    matches!(
        event,
        Event::Step {
            reply: Reply::Hit { .. },
            ..
        }
    )
}

fn is_load(event: &Event) -> bool
    ensures { result ≡ is_load event.now }
{
    matches!(
        event,
        Event::Step {
            reply: Reply::Loaded { .. },
            ..
        }
    )
}

fn is_write_back(event: &Event) -> bool
    ensures { result ≡ is_write_back event.now }
{
    matches!(
        event,
        Event::Step {
            did: Move::WriteDone { ok: true, .. },
            ..
        }
    )
}

fn is_flush(event: &Event) -> bool
    ensures { result ≡ is_flush event.now }
{
    matches!(
        event,
        Event::Step {
            did: Move::FlushDone { ok: true },
            ..
        }
    )
}

impl Display for Figures {
    fn fmt<W: Write>(&self, f: &mut Formatter<W>) -> fmt::Result {
        let Figures {
            hits,
            loads,
            write_backs,
            flushes,
        } = self;
        write!(
            f,
            "hits {hits}, loads {loads}, write-backs {write_backs}, flushes {flushes}"
        )
    }
}
