//! The queue.

ghost use Rattle.std.specs.Prelude.{◌≡◌, ◌≢◌, ℕ, ◌↔◌, ◌⊎◌, ◌==◌, true, false, IsTrue, length};
ghost use Rattle.std.specs.Prelude.{None, Some, IfSome, IsErr, IfOk, OnErr};
ghost use Rattle.pp_admission.specs.Queues.{next_in, waiting_at, is_waiting, peak_at, is_asleep_at, IsFull, Fits};
ghost use Rattle.pp_admission.specs.Queues.{NextIsAwake, IsSound, empty_queue, newcomer, entered, left};
ghost use Rattle.pp_admission.specs.Queues.{overtaken, started};
ghost use Rattle.pp_admission.specs.Queues.{set_asleep, put_to_sleep, woken, all_woken, some_asleep};
ghost use Rattle.pp_admission.specs.Places.{AreOvertakenBelow};

use crate::line::{holder, mark, next_of, overtake, place_of, wake};
use crate::{QueueFull, Ticket, Waiting};
use std::alloc::{AllocError, Global};
use std::marker::Model;

/// Those that wait to start, in the order in which they came.
///
/// One that comes is given a ticket ([`AdmissionQueue::enter`]), and asks by it whether it may start
/// ([`AdmissionQueue::start`]). Where it is refused it is asleep from then on: its thread may sleep until
/// [`AdmissionQueue::wake_next`] or [`AdmissionQueue::wake_all`] has told that it is to be woken. So that no wake-up is
/// lost, call `wake_next` after each start and leave, and whenever more pages are free.
///
/// Contracts see it as the record `Parts`. `next_in` says who may start. All memory is got by [`AdmissionQueue::new`],
/// 24 bytes for each one that may wait; no other call takes any. A call takes a step for each one that waits.
#[derive(Drop)]
pub struct AdmissionQueue {
    waiting: Vec<Waiting>,
    next: u64,
    most: u32,
    bypass: u32,
}

impl Model for AdmissionQueue {
    ghost use Rattle.pp_admission.specs.Queues.{Parts};

    ghost Value = { Parts };

    ghost use Rattle.pp_admission.specs.Kept.{parts_of, IsKept};

    ghost view = { parts_of };

    ghost invariant = { IsKept };
}

impl AdmissionQueue {
    /// A queue in which nobody waits. At most `most` may wait at once, and each that waits is overtaken at most
    /// `bypass` times.
    ///
    /// # Errors
    ///
    /// Only where memory can't be had.
    pub fn new(alloc: Global, most: u32, bypass: u32) -> Result<AdmissionQueue, AllocError>
        ensures empty { IfOk result (λ queue. queue ≡ empty_queue most bypass) }
        ensures sound { IfOk result IsSound }
    {
        Ok(AdmissionQueue {
            waiting: Vec::with_capacity(alloc, most as usize)?,
            next: 0,
            most,
            bypass,
        })
    }

    /// Who waits, in the order in which they came.
    pub fn waiting(&self) -> &[Waiting]
        ensures waiting { result.now ≡ self.now.waiting }
        ensures sound { IsSound self.now }
    {
        &self.waiting
    }

    /// How many wait.
    pub fn len(&self) -> u32
        ensures count { result ≡ length self.now.waiting }
        ensures sound { IsSound self.now }
    {
        self.waiting.len() as u32
    }

    /// Whether nobody waits.
    pub fn is_empty(&self) -> bool
        ensures empty { result ≡ (length self.now.waiting == 0) }
        ensures sound { IsSound self.now }
    {
        self.waiting.is_empty()
    }

    /// Whether nobody can come now: as many wait as may.
    pub fn is_full(&self) -> bool
        ensures full { IsTrue result ↔ IsFull self.now }
        ensures sound { IsSound self.now }
    {
        self.len() == self.most || self.next == u64::MAX
    }

    /// The peak of the one that waits with this ticket.
    pub fn peak_of(&self, ticket: Ticket) -> Option<u64>
        ensures { result ≡ peak_at self.now ticket }
    {
        match self.holder(ticket) {
            Some(one) => Some(one.peak),
            None => None,
        }
    }

    /// Whether one waits with this ticket and is asleep.
    pub fn is_asleep(&self, ticket: Ticket) -> bool
        ensures { result ≡ is_asleep_at self.now ticket }
    {
        match self.holder(ticket) {
            Some(one) => one.is_asleep,
            None => false,
        }
    }

    /// Who may start while so many pages are free: the first whose peak fits them, unless one before it was overtaken
    /// as often as may be.
    pub fn next(&self, room: u64) -> Option<Ticket>
        ensures next { result ≡ next_in self.now room }
        ensures fits { IfSome result (λ ticket. Fits self.now ticket room) }
        ensures sound { IsSound self.now }
    {
        let ticket = next_of(&self.waiting, self.bypass, room)?;
        Some(Ticket::new(ticket))
    }

    /// Lets one more wait, behind all others. It is awake, and asks next whether it may start.
    ///
    /// # Errors
    ///
    /// `QueueFull` where as many wait as may. Then nothing has changed.
    pub fn enter(&mut self, peak: u64) -> Result<Ticket, QueueFull>
        ensures full { IsErr result ↔ IsFull self.old }
        ensures unchanged { OnErr result (self.new ≡ self.old) }
        ensures ticket { IfOk result (λ ticket. ticket ≡ self.old.next) }
        ensures entered { IfOk result (λ _. self.new ≡ entered self.old peak) }
        ensures waits { IfOk result (λ ticket. waiting_at self.new ticket ≡ Some (newcomer ticket peak)) }
        ensures others { IfOk result (λ ticket. (t : ℕ) → t ≢ ticket
            → waiting_at self.new t ≡ waiting_at self.old t) }
        // It is behind all others: it may start only where nobody could. It and whoever may start are awake.
        ensures next { IfOk result (λ ticket. (room t : ℕ) → next_in self.new room ≡ Some t
            → (next_in self.old room ≡ Some t) ⊎ ((next_in self.old room ≡ None) × (t ≡ ticket))) }
        ensures stays { (room t : ℕ) → next_in self.old room ≡ Some t → next_in self.new room ≡ Some t }
        ensures awake { (room : ℕ) → NextIsAwake self.old room → NextIsAwake self.new room }
        ensures sound { IsSound self.new }
    {
        if self.is_full() {
            return Err(QueueFull);
        }
        let ticket = self.next;
        self.waiting.push_reserved(Waiting {
            ticket,
            peak,
            overtaken: 0,
            is_asleep: false,
        });
        self.next = ticket + 1;
        Ok(Ticket::new(ticket))
    }

    /// Takes the one with this ticket out, if it may start while so many pages are free. Each that came before it was
    /// then overtaken once more.
    ///
    /// Else it is asleep from now on, if it waits.
    pub fn start(&mut self, ticket: Ticket, room: u64) -> bool
        ensures may { IsTrue result ↔ (next_in self.old room ≡ Some ticket) }
        ensures started { result ≡ true → self.new ≡ started self.old ticket }
        ensures fits { result ≡ true → Fits self.old ticket room }
        ensures gone { result ≡ true → waiting_at self.new ticket ≡ None }
        ensures refused { result ≡ false → self.new ≡ put_to_sleep self.old ticket }
        ensures asleep { result ≡ false → is_asleep_at self.new ticket ≡ is_waiting self.old ticket }
        ensures others { result ≡ false → (t : ℕ) → t ≢ ticket
            → waiting_at self.new t ≡ waiting_at self.old t }
        ensures next { result ≡ false → (r : ℕ) → next_in self.new r ≡ next_in self.old r }
        ensures awake { result ≡ false → NextIsAwake self.old room → NextIsAwake self.new room }
        ensures sound { IsSound self.new }
    {
        if !self.may_start(ticket, room) {
            self.set_asleep(ticket, true);
            return false;
        }
        self.take_out(ticket);
        self.overtake(ticket);
        true
    }

    /// Takes the one with this ticket out, wherever it stands. False where nobody waits with it.
    pub fn leave(&mut self, ticket: Ticket) -> bool
        ensures waits { result ≡ is_waiting self.old ticket }
        ensures left { self.new ≡ left self.old ticket }
        ensures gone { waiting_at self.new ticket ≡ None }
        ensures others { (t : ℕ) → t ≢ ticket → waiting_at self.new t ≡ waiting_at self.old t }
        ensures unchanged { result ≡ false → self.new ≡ self.old }
        ensures sound { IsSound self.new }
    {
        self.take_out(ticket)
    }

    /// Wakes the one that may start while so many pages are free, if it is asleep, and tells its ticket.
    pub fn wake_next(&mut self, room: u64) -> Option<Ticket>
        ensures told { (t : ℕ) → (result ≡ Some t)
            ↔ ((next_in self.old room ≡ Some t) × (is_asleep_at self.old t ≡ true)) }
        ensures woken { IfSome result (λ ticket. self.new ≡ woken self.old ticket) }
        ensures others { IfSome result (λ ticket. (t : ℕ) → t ≢ ticket
            → waiting_at self.new t ≡ waiting_at self.old t) }
        ensures unchanged { result ≡ None → self.new ≡ self.old }
        ensures next { (r : ℕ) → next_in self.new r ≡ next_in self.old r }
        ensures awake { NextIsAwake self.new room }
        ensures sound { IsSound self.new }
    {
        let ticket = self.next(room)?;
        if !self.is_asleep(ticket) {
            return None;
        }
        self.set_asleep(ticket, false);
        Some(ticket)
    }

    /// Wakes everybody. True where somebody was asleep.
    pub fn wake_all(&mut self) -> bool
        ensures some { result ≡ some_asleep self.old }
        ensures woken { self.new ≡ all_woken self.old }
        ensures next { (r : ℕ) → next_in self.new r ≡ next_in self.old r }
        ensures awake { (t : ℕ) → is_asleep_at self.new t ≡ false }
        ensures sound { IsSound self.new }
    {
        wake(&mut self.waiting)
    }

    /// The one that waits with this ticket.
    fn holder(&self, ticket: Ticket) -> Option<Waiting>
        ensures { result ≡ waiting_at self.now ticket }
    {
        holder(&self.waiting, ticket.number())
    }

    /// Whether the one with this ticket may start while so many pages are free.
    fn may_start(&self, ticket: Ticket, room: u64) -> bool
        ensures may { IsTrue result ↔ (next_in self.now room ≡ Some ticket) }
        ensures sound { IsSound self.now }
    {
        match self.next(room) {
            Some(next) => next.number() == ticket.number(),
            None => false,
        }
    }

    /// The one with this ticket is asleep or awake from now on, as told.
    fn set_asleep(&mut self, ticket: Ticket, is_asleep: bool)
        ensures exact { self.new ≡ set_asleep self.old ticket is_asleep }
        ensures sound { IsSound self.new }
    {
        mark(&mut self.waiting, ticket.number(), is_asleep);
    }

    /// Each that came before this ticket was overtaken once more.
    fn overtake(&mut self, ticket: Ticket)
        requires { AreOvertakenBelow self.old.bypass ticket self.old.waiting }
        ensures exact { self.new ≡ overtaken self.old ticket }
        ensures sound { IsSound self.new }
    {
        overtake(&mut self.waiting, ticket.number());
    }

    /// Takes the one with this ticket out. False where nobody waits with it.
    fn take_out(&mut self, ticket: Ticket) -> bool
        ensures waits { result ≡ is_waiting self.old ticket }
        ensures left { self.new ≡ left self.old ticket }
        ensures sound { IsSound self.new }
    {
        match place_of(&self.waiting, ticket.number()) {
            Some(place) => {
                let _ = self.waiting.remove(place);
                true
            }
            None => false,
        }
    }
}
