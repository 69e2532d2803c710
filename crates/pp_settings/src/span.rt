//! How long a life of a pool may last.

ghost use Rattle.std.specs.Prelude.{◌≡◌, ◌≤◌};
ghost use Rattle.pp_settings.specs.Limits.{most_endless_flushes};
ghost use Rattle.pp_settings.specs.Spans.{span_of, flush_limit};

use crate::limits::{MOST_ENDLESS_FLUSHES, MOST_FLUSHES};

/// How long a life of a pool may last.
#[derive(Clone, Copy, Debug, PartialEq, Eq)]
pub enum Span {
    /// It takes 256 plans in, and its journal has at most 4,000,000 events besides their submits.
    Bounded,
    /// It lasts as long as its host wants, up to 2^61 events besides the submits. So many submitted plans may wait at a time: 1 to
    /// 1,048,576.
    Endless { waiting: u32 },
}

impl Span {
    /// That of a text that lets so many plans wait at a time: a bounded one where it is 0.
    pub(crate) fn of_waiting(waiting: u32) -> Span
        ensures { result ≡ span_of waiting }
    {
        if waiting == 0 {
            Span::Bounded
        } else {
            Span::Endless { waiting }
        }
    }

    /// The most flushes that one life may begin: 100,000 in a bounded life, and 2^59 in an endless one.
    pub fn most_flushes(self) -> u64
        ensures is { result ≡ flush_limit self }
        ensures within { result ≤ most_endless_flushes }
    {
        match self {
            Span::Bounded => MOST_FLUSHES,
            Span::Endless { .. } => MOST_ENDLESS_FLUSHES,
        }
    }
}
