//! A list of events that takes 16 bytes for each.

ghost use Rattle.std.specs.Iterator.{YieldsFirst, item_count};
ghost use Rattle.std.specs.Prelude.{◌≡◌, ◌==◌, ◌↔◌, ℕ, true, false, ◌≤◌, ◌<◌, ◌+◌, ◌^◌, ◌++◌, ◌∷◌, []};
ghost use Rattle.std.specs.Prelude.{None, Some, IfOk, OnOk, OnErr};
ghost use Rattle.std.specs.Prelude.{length, map, slice_get, slice_index_or, vec_capacity};
ghost use Rattle.pp_model.specs.declared.event.Event.{Event};
ghost use Rattle.pp_model.specs.WorkerParts.{names_worker};
ghost use Rattle.pp_journal.specs.Entries.{event_of, is_packed_event, IsInside};
ghost use Rattle.pp_journal.specs.Packing.{IsMore};

use crate::entry::{Entry, entry_of, event_of, is_one_event, is_same_event, worker_of};
use pp_model::Event;
use std::alloc::{AllocError, Global};
use std::marker::Model;

/// A list of events, the first of them first, that takes 16 bytes for each.
///
/// An event whose worker is below 256 and whose frame is below 65,536, and whose reply is one that a move of its kind can
/// have when it is done, is one entry of 16 bytes, and so are others that fit one. What doesn't stands in a list beside the
/// entries, as it is, and its entry names its place there. In a pool that has at most 32 workers and 4,096 frames none does.
///
/// Room is had for both lists before: for each event that there is memory for, 16 bytes in the one, and 48 in the other. The
/// latter aren't touched while no event stands beside the entries, so a system that gives memory at its first use gives none
/// for them.
///
/// Contracts see it as the record `Events`: the events, and for how many there is memory.
pub struct Journal {
    entries: Vec<Entry>,
    others: Vec<Event>,
    capacity: usize,
}

// By hand, so that code that lets one go calls this, and doesn't let each field go anew.
impl Drop for Journal {
    fn drop(self) {
        let Journal {
            entries: _,
            others: _,
            capacity: _,
        } = self;
    }
}

impl Model for Journal {
    ghost use Rattle.pp_journal.specs.Events.{Events};
    ghost use Rattle.pp_journal.specs.Coding.{coded_events};

    ghost Value = { Events };

    ghost coded = { coded_events };

    ghost use Rattle.pp_journal.specs.Packing.{packed_events, IsPacked};

    ghost view = { λ j. packed_events j.entries j.others j.capacity };

    ghost invariant = { λ j. IsPacked j.entries j.others j.capacity };
}

impl Journal {
    /// A journal with no event and no memory.
    pub fn new(alloc: Global) -> Journal
        ensures items { result.items ≡ [] }
        ensures capacity { result.capacity ≡ 0 }
    {
        Journal {
            entries: Vec::new(alloc),
            others: Vec::new(alloc),
            capacity: 0,
        }
    }

    /// A journal with no event, and memory for so many.
    ///
    /// # Errors
    ///
    /// Only where that memory can't be had.
    pub fn with_capacity(alloc: Global, events: usize) -> Result<Journal, AllocError>
        ensures items { IfOk result (λ made. made.items ≡ []) }
        ensures capacity { IfOk result (λ made. made.capacity ≡ events) }
    {
        let entries = Vec::with_capacity(alloc, events)?;
        let others = Vec::with_capacity(alloc, events)?;
        Ok(Journal {
            entries,
            others,
            capacity: events,
        })
    }

    /// A journal of these events, with memory for as many.
    ///
    /// # Errors
    ///
    /// Only where that memory can't be had.
    pub fn from_events(alloc: Global, events: &[Event]) -> Result<Journal, AllocError>
        ensures items { IfOk result (λ made. made.items ≡ events.now) }
        ensures capacity { IfOk result (λ made. made.capacity ≡ length events.now) }
    {
        let mut journal = Journal::with_capacity(alloc, events.len())?;
        for event in events {
            journal.push_reserved(*event);
        }
        Ok(journal)
    }

    /// How many events it has.
    pub fn len(&self) -> usize
        ensures { result ≡ length self.now.items }
    {
        self.entries.len()
    }

    /// Does nothing. It tells that the events, and those for which there is memory, can be counted.
    pub fn known(&self)
        ensures items { length self.now.items < 2 ^ 64 }
        ensures capacity { self.now.capacity < 2 ^ 63 }
    {
        let _events = self.entries.len();
        let _room = self.entries.capacity();
    }

    /// Whether it has none.
    pub fn is_empty(&self) -> bool
        ensures { result ≡ (length self.now.items == 0) }
    {
        self.entries.is_empty()
    }

    /// For how many events, with those that it has, there is memory.
    pub fn capacity(&self) -> usize
        ensures { result ≡ self.now.capacity }
    {
        self.capacity
    }

    /// Gets memory for so many events more.
    ///
    /// # Errors
    ///
    /// Only where it can't be had, and wasn't there. The journal stays as it was.
    pub fn reserve(&mut self, more: usize) -> Result<(), AllocError>
        ensures items { self.new.items ≡ self.old.items }
        ensures ok { OnOk result (length self.new.items + more ≤ self.new.capacity) }
        ensures grown { self.old.capacity ≤ self.new.capacity }
        ensures full { OnErr result (self.old.capacity < length self.old.items + more) }
        ensures err { OnErr result (self.new ≡ self.old) }
    {
        self.entries.reserve(more)?;
        let room = self.entries.len() + more;
        self.others.reserve(room - self.others.len())?;
        self.capacity = self.capacity.max(room);
        Ok(())
    }

    /// Adds an event for which there is memory.
    #[inline(always)]
    pub fn push_reserved(&mut self, event: Event)
        requires { length self.old.items < self.old.capacity }
        ensures items { self.new.items ≡ self.old.items ++ event ∷ [] }
        ensures capacity { self.new.capacity ≡ self.old.capacity }
    {
        let entry = entry_for(&mut self.others, event);
        self.entries.push_reserved(entry);
    }

    /// Forgets its events. Its memory stays.
    pub fn clear(&mut self)
        ensures items { self.new.items ≡ [] }
        ensures capacity { self.new.capacity ≡ self.old.capacity }
    {
        self.entries.clear();
        self.others.clear();
    }

    /// The event at this place, counted from 0.
    #[inline(always)]
    pub fn event(&self, place: usize) -> Event
        requires { place < length self.now.items }
        ensures { result ≡ slice_index_or self.now.items place result }
    {
        event_of(self.others.as_slice(), self.entries[place])
    }

    /// The event at this place, counted from 0. None past the last one.
    #[inline(always)]
    pub fn get(&self, place: usize) -> Option<Event>
        ensures { result ≡ slice_get self.now.items place }
    {
        match self.entries.get(place) {
            Some(entry) => Some(event_of(self.others.as_slice(), *entry)),
            None => None,
        }
    }

    /// Its events, the first of them first.
    pub fn iter(&self) -> Iter<'_>
        ensures { result ≡ self.now.items }
    {
        Iter {
            entries: self.entries.as_slice(),
            others: self.others.as_slice(),
        }
    }

    /// Whether the events at these places of two journals are the same. Mostly that is seen of their entries, without unpacking
    /// them. False where one of the places is past the last event.
    #[inline(always)]
    pub fn is_same(&self, place: usize, other: &Journal, at: usize) -> bool
        ensures same { (event : Event) → slice_get other.now.items at ≡ Some event
            → (result ≡ true) ↔ (slice_get self.now.items place ≡ Some event) }
        ensures within { result ≡ true → place < length self.now.items }
        ensures past { slice_get other.now.items at ≡ None → result ≡ false }
    {
        match (self.entries.get(place), other.entries.get(at)) {
            (Some(left), Some(right)) => {
                is_one_event(left, right)
                    || is_same_event(
                        self.others.as_slice(),
                        *left,
                        other.others.as_slice(),
                        *right,
                    )
            }
            _ => false,
        }
    }

    /// The worker whose move the event at this place is. None where it is no worker's, or the place is past the last event.
    #[inline(always)]
    pub fn worker(&self, place: usize) -> Option<u32>
        ensures names { (event : Event) → slice_get self.now.items place ≡ Some event
            → (w : ℕ) → (names_worker w event ≡ true) ↔ (result ≡ Some w) }
        ensures past { slice_get self.now.items place ≡ None → result ≡ None }
    {
        worker_of(self.others.as_slice(), *self.entries.get(place)?)
    }

    /// Its events as they are by themselves, in memory of their own.
    ///
    /// # Errors
    ///
    /// Only where that memory can't be had.
    pub fn to_events(&self, alloc: Global) -> Result<Vec<Event>, AllocError>
        ensures { IfOk result (λ events. events.items ≡ self.now.items) }
    {
        events_of(alloc, self.others.as_slice(), self.entries.as_slice())
    }
}

impl<'a> IntoIterator for &'a Journal {
    type Item = Event;

    type IntoIter = Iter<'a>;

    ghost into_iter_gives = { λ journal events. events ≡ journal.now.items };

    fn into_iter(self) -> Iter<'a> {
        self.iter()
    }
}

/// The events of a journal, the first of them first.
#[derive(Drop)]
pub struct Iter<'a> {
    entries: &'a [Entry],
    others: &'a [Event],
}

impl<'a> Model for Iter<'a> {
    ghost use Rattle.std.specs.Prelude.{List, map};
    ghost use Rattle.pp_model.specs.declared.event.Event.{Event};
    ghost use Rattle.pp_journal.specs.Entries.{event_of};

    ghost Value = { List Event };

    ghost view = { λ i. map (event_of i.others.now) i.entries.now };
}

impl<'a> Iterator for Iter<'a> {
    type Item = Event;

    ghost next_gives = { YieldsFirst (λ events. events) };

    ghost remaining = { item_count (λ events. events) };

    #[inline(always)]
    fn next(&mut self) -> Option<Event> {
        let (first, rest) = self.entries.split_first()?;
        self.entries = rest;
        Some(event_of(self.others, *first))
    }
}

/// The events of these entries, beside which the others stand.
fn events_of(alloc: Global, others: &[Event], entries: &[Entry]) -> Result<Vec<Event>, AllocError>
    ensures { IfOk result (λ events. events.items ≡ map (event_of others.now) entries.now) }
{
    let mut events = Vec::with_capacity(alloc, entries.len())?;
    for entry in entries {
        events.push_reserved(event_of(others, *entry));
    }
    Ok(events)
}

/// The entry of the event: the event itself, or the place at which it is added to the others.
#[inline(always)]
fn entry_for(others: &mut Vec<Event>, event: Event) -> Entry
    requires { length others.old.items < vec_capacity others.old }
    ensures event { event_of others.new.items result ≡ event }
    ensures inside { IsInside (length others.new.items) result }
    ensures others { IsMore others.old.items others.new.items }
    ensures memory { vec_capacity others.new ≡ vec_capacity others.old }
    ensures packs { is_packed_event event ≡ true → others.new ≡ others.old }
{
    match entry_of(event) {
        Some(entry) => entry,
        None => set_aside(others, event),
    }
}

/// Adds the event to the others. The entry names its place.
// Not inlined, since a pool has no such event.
#[inline(never)]
fn set_aside(others: &mut Vec<Event>, event: Event) -> Entry
    requires { length others.old.items < vec_capacity others.old }
    ensures event { event_of others.new.items result ≡ event }
    ensures inside { IsInside (length others.new.items) result }
    ensures others { IsMore others.old.items others.new.items }
    ensures memory { vec_capacity others.new ≡ vec_capacity others.old }
{
    let place = others.len() as u64;
    others.push_reserved(event);
    Entry::Other { place }
}
