//! A segment of a journal.

ghost use Rattle.std.specs.Prelude.{◌≡◌, ◌<◌, [], true, IfOk, IsSome, length, option_map};
ghost use Rattle.pp_model.specs.declared.event.Event.TheVariants.{Step};
ghost use Rattle.pp_ledger.specs.Segments.{empty_segment, is_full, is_ready, count_submits};
ghost use Rattle.pp_ledger.specs.Segments.{with_event, with_submit, numbered};

use pp_journal::Journal;
use pp_model::Event;
use pp_vault::Done;
use std::alloc::{AllocError, Global};
use std::marker::Model;

/// A part of the journal of an endless life: the events that a ledger has noted since the part before it was
/// taken out.
///
/// Contracts see it as the record `Segment`: the events, the places of the prepared plans, the two numbers, and for
/// how many events there is memory.
///
/// All its memory is got by [`Segment::with_room`]: for each event what a [`Journal`] needs, and 4 bytes. No other
/// call takes any.
pub struct Segment {
    journal: Journal,
    prepared: Vec<u32>,
    number: u64,
    plans_before: u64,
}

// By hand, so that code that lets one go calls this, and doesn't let each field go anew.
impl Drop for Segment {
    fn drop(self) {
        let Segment {
            journal: _,
            prepared: _,
            number: _,
            plans_before: _,
        } = self;
    }
}

impl Model for Segment {
    ghost use Rattle.pp_ledger.specs.Segments.{Segment};
    ghost use Rattle.pp_ledger.specs.Coding.{coded_segment};
    ghost use Rattle.pp_ledger.specs.Inside.{segment_in, PreparedFit};

    ghost Value = { Segment };

    ghost coded = { coded_segment };

    ghost view = { segment_in };

    ghost invariant = { PreparedFit };
}

impl Segment {
    /// A segment in which nothing was noted yet, of number 0, with memory for so many events.
    ///
    /// # Errors
    ///
    /// Only where that memory can't be had.
    pub fn with_room(alloc: Global, events: usize) -> Result<Segment, AllocError>
        ensures { IfOk result (λ segment. segment ≡ empty_segment events) }
    {
        Ok(Segment {
            journal: Journal::with_capacity(alloc, events)?,
            prepared: Vec::with_capacity(alloc, events)?,
            number: 0,
            plans_before: 0,
        })
    }

    /// Does nothing. It tells that each submit among the events has its place, and that no place is left over.
    pub fn known(&self)
        ensures { length self.now.prepared ≡ count_submits self.now.events }
    {
        let _ = &self.journal;
    }

    /// What was done in it, the first event first.
    pub fn events(&self) -> &Journal
        ensures items { result.now.items ≡ self.now.events }
        ensures capacity { result.now.capacity ≡ self.now.capacity }
    {
        &self.journal
    }

    /// Of each submit among the events the plan that was submitted, in order: its place among those that are prepared
    /// ([`pp_core::Prepared::place`]).
    pub fn prepared(&self) -> &[u32]
        ensures { result.now ≡ self.now.prepared }
    {
        &self.prepared
    }

    /// How many segments of the life were taken out before it.
    pub fn number(&self) -> u64
        ensures { result ≡ self.now.number }
    {
        self.number
    }

    /// How many plans were submitted in the life before it. So this is the number of the first plan that is
    /// submitted in it.
    pub fn plans_before(&self) -> u64
        ensures { result ≡ self.now.plans_before }
    {
        self.plans_before
    }

    /// Empties it, once its host has written it down, so that it can be handed to a ledger again. Its memory stays.
    pub fn clear(&mut self)
        ensures { self.new ≡ empty_segment (self.old.capacity) }
    {
        self.journal.clear();
        self.prepared.clear();
        self.number = 0;
        self.plans_before = 0;
    }

    /// Whether it has no memory for one event more.
    pub(crate) fn is_full(&self) -> bool
        ensures { result ≡ is_full self.now }
    {
        self.journal.capacity() <= self.journal.len()
    }

    /// Whether it is empty and has memory for an event, so that a ledger can go on in it.
    #[tactic(auto, using(crate::proofs::Going::ready_prepared))]
    pub fn is_ready(&self) -> bool
        ensures ready { result ≡ is_ready self.now }
        ensures none_prepared { result ≡ true → self.now.prepared ≡ [] }
    {
        self.journal.is_empty() && 1 <= self.journal.capacity()
    }

    /// The same events under this number, with so many plans submitted before them.
    pub(crate) fn numbered(self, number: u64, plans_before: u64) -> Segment
        ensures { result ≡ numbered self number plans_before }
    {
        let Segment {
            journal,
            prepared,
            number: _,
            plans_before: _,
        } = self;
        Segment {
            journal,
            prepared,
            number,
            plans_before,
        }
    }

    /// Adds what a vault did, its move with the reply, where it did one.
    #[tactic(auto, using(crate::proofs::Counted::step_counts))]
    #[inline(always)]
    pub(crate) fn note(&mut self, done: Option<Done>) -> Option<Event>
        requires { IsSome done → length self.old.events < self.old.capacity }
        ensures event { result ≡ option_map (λ t. Step t.0 t.1) done }
        ensures segment { self.new ≡ with_event self.old result }
    {
        let (did, reply) = done?;
        let event = Event::Step { did, reply };
        self.journal.push_reserved(event);
        Some(event)
    }

    /// Adds the submit of this number, of the plan that is prepared at this place.
    #[tactic(auto, using(crate::proofs::Counted::submit_counts, crate::proofs::Counted::counted_within))]
    pub(crate) fn note_submit(&mut self, plan: u64, place: u32)
        requires { length self.old.events < self.old.capacity }
        ensures { self.new ≡ with_submit self.old plan place }
    {
        self.journal.push_reserved(Event::Submit { plan });
        self.prepared.push_reserved(place);
    }
}
