//! Who waits at a hall.

ghost use Rattle.std.specs.Prelude.{◌≡◌, ◌↔◌, ℕ, ◌≤◌, ◌&&◌, max, true, false, not, None, Some, IfOk, IfErr, IfSome, OnErr};
ghost use Rattle.std.specs.Prelude.{length, replicate};
ghost use Rattle.pp_settings.specs.Limits.{bell_count};
ghost use Rattle.pp_model.specs.Pool.{State};
ghost use Rattle.pp_vault.specs.StandsFor.{StandsFor};
ghost use Rattle.pp_admission.specs.Queues.{empty_queue, IsFull, next_in, peak_at, entered, started, left};
ghost use Rattle.pp_admission.specs.Queues.{put_to_sleep, is_asleep_at, woken, NextIsAwake};
ghost use Rattle.pp_hall.specs.Seatings.{room_of, is_wanted};
ghost use Rattle.pp_hall.specs.Waiters.{IsWaiters, NobodyIsForgotten, Settles, with_place, with_queue, place_after};
ghost use Rattle.pp_hall.specs.Waiters.{stopped, FlusherRests};

use crate::seating::Seating;
use crate::told::Told;
use pp_admission::{AdmissionQueue, QueueFull, Ticket};
use pp_pool::BookAnswer;
use pp_vault::Refusal;
use pp_wants::{Sleepers, Wakes, Want};
use std::alloc::{AllocError, Global};
use std::marker::Model;

/// Who waits: to start, for a page or a latch, and the flusher.
#[derive(Drop)]
pub(crate) struct Waiters {
    queue: AdmissionQueue,
    sleepers: Sleepers,
    is_flusher_asleep: bool,
    is_stopped: bool,
}

impl Model for Waiters {
    ghost use Rattle.pp_hall.specs.Waiters.{Parts};

    ghost Value = { Parts };

    ghost use Rattle.pp_hall.specs.Waiters.{IsWaiters};

    ghost view = { λ w. record {
      queue = w.queue;
      sleepers = w.sleepers;
      is_flusher_asleep = w.is_flusher_asleep;
      is_stopped = w.is_stopped;
    } };

    ghost invariant = { λ w. IsWaiters (record {
      queue = w.queue;
      sleepers = w.sleepers;
      is_flusher_asleep = w.is_flusher_asleep;
      is_stopped = w.is_stopped;
    }) };
}

impl Waiters {
    /// Nobody waits. So many may wait to start, each of whom so many may overtake, and there are so many chairs.
    pub(crate) fn new(
        alloc: Global,
        most: u32,
        bypass: u32,
        chairs: u32,
    ) -> Result<Waiters, AllocError>
        requires { chairs ≤ bell_count }
        ensures { IfOk result (λ made. made ≡ record {
          queue = empty_queue most bypass;
          sleepers = replicate chairs None;
          is_flusher_asleep = false;
          is_stopped = false;
        }) }
    {
        Ok(Waiters {
            queue: AdmissionQueue::new(alloc, most, bypass)?,
            sleepers: Sleepers::new(alloc, chairs)?,
            is_flusher_asleep: false,
            is_stopped: false,
        })
    }

    /// Does nothing. It tells what holds of each.
    pub(crate) fn known(&self)
        ensures { IsWaiters self.now }
    {
        let _ = &self.queue;
    }

    /// Whether nobody starts any more.
    pub(crate) fn is_stopped(&self) -> bool
        ensures { result ≡ self.now.is_stopped }
    {
        self.is_stopped
    }

    /// How many wait to start.
    pub(crate) fn len(&self) -> u32
        ensures { result ≡ length self.now.queue.waiting }
    {
        self.queue.len()
    }

    // ---- whom a call tells

    /// Tells everybody whose wake-up would be lost, and answers whom it told. From then on nobody is forgotten.
    #[inline(always)]
    pub(crate) fn settle(&mut self, seating: &Seating, flush_from: u32) -> Told
        ensures awake { NobodyIsForgotten seating.now flush_from self.new }
        ensures settles { Settles seating.now flush_from self.old result self.new }
    {
        let workers = self.sleepers.settle(seating.vault());
        let next = wake_next(&mut self.queue, seating);
        let (flusher, sleeps) = flusher_after(self.is_flusher_asleep, seating, flush_from);
        self.is_flusher_asleep = sleeps;
        Told {
            workers,
            next,
            all: false,
            flusher,
        }
    }

    // ---- the queue

    /// Lets one more wait, behind all others, with a peak of one page at least.
    pub(crate) fn enter(&mut self, peak: u64) -> Result<Ticket, QueueFull>
        requires { self.old.is_stopped ≡ false }
        ensures full { IfErr result (λ _. IsFull self.old.queue) }
        ensures unchanged { OnErr result (self.new ≡ self.old) }
        ensures ticket { IfOk result (λ ticket. ticket ≡ self.old.queue.next) }
        ensures entered { IfOk result (λ _. self.new ≡ with_queue self.old (entered self.old.queue (max peak 1))) }
        ensures awake { (room : ℕ) → NextIsAwake self.old.queue room → NextIsAwake self.new.queue room }
    {
        self.queue.enter(peak.max(1))
    }

    /// Takes the one with this ticket out, if it may start in the room that the seating has, and answers its peak. Else
    /// it is asleep from now on.
    pub(crate) fn start(&mut self, ticket: Ticket, seating: &Seating) -> Option<u64>
        requires { self.old.is_stopped ≡ false }
        ensures some { IfSome result (λ peak. next_in self.old.queue (room_of seating.now) ≡ Some ticket) }
        ensures peak { IfSome result (λ peak. peak_at self.old.queue ticket ≡ Some peak) }
        ensures fits { IfSome result (λ peak. peak ≤ room_of seating.now) }
        ensures large { IfSome result (λ peak. 1 ≤ peak) }
        ensures started { IfSome result (λ peak. self.new ≡ with_queue self.old (started self.old.queue ticket)) }
        ensures none { result ≡ None → ¬ (next_in self.old.queue (room_of seating.now) ≡ Some ticket) }
        ensures refused { result ≡ None → self.new ≡ with_queue self.old (put_to_sleep self.old.queue ticket) }
    {
        // It tells that the tickets of the queue rise.
        let _ = self.queue.is_empty();
        let peak = self.queue.peak_of(ticket);
        if !self.queue.start(ticket, seating.room()) {
            return None;
        }
        let Some(peak) = peak else {
            unreachable!();
        };
        Some(peak)
    }

    /// Takes the one with this ticket out, wherever it stands.
    pub(crate) fn leave(&mut self, ticket: Ticket)
        ensures { self.new ≡ with_queue self.old (left self.old.queue ticket) }
    {
        self.queue.leave(ticket);
    }

    // ---- workers

    /// Notes how the worker's thread waits that asked with this want: it sleeps, where that isn't possible now, and
    /// else not.
    #[tactic(auto, using(crate::proofs::Settling::placed_waiters))]
    pub(crate) fn note(&mut self, worker: Option<u32>, want: Option<Want>, answer: &BookAnswer)
        ensures { self.new ≡ with_place self.old worker (place_after want answer.now) }
    {
        if let Some(worker) = worker {
            match (want, answer) {
                (Some(want), BookAnswer::No(_, Refusal::NotNow(_))) => {
                    self.sleepers.sleep(worker, want);
                }
                _ => self.sleepers.rise(worker),
            }
        }
    }

    /// The worker's thread doesn't sleep any more.
    #[tactic(auto, using(crate::proofs::Settling::placed_waiters))]
    pub(crate) fn rise(&mut self, worker: u32)
        ensures { self.new ≡ with_place self.old (Some worker) None }
    {
        self.sleepers.rise(worker);
    }

    // ---- the flusher, and the end

    /// The flusher sleeps, unless a flush is wanted, or nobody starts any more. Tells whether it does.
    pub(crate) fn sleep_flusher(&mut self, seating: &Seating, flush_from: u32) -> bool
        ensures is { self.new ≡ record self.old { is_flusher_asleep = result } }
        ensures exact { (s : State) → StandsFor seating.now.vault s
            → result ≡ (not self.old.is_stopped && not (is_wanted flush_from s)) }
        ensures rests { FlusherRests seating.now.vault flush_from result }
    {
        let sleeps = !self.is_stopped && !seating.is_flush_wanted(flush_from);
        self.is_flusher_asleep = sleeps;
        sleeps
    }

    /// Wakes everybody in the queue, and the flusher. Nobody starts any more.
    pub(crate) fn stop(&mut self) -> Told
        ensures is { self.new ≡ stopped self.old }
        ensures told { result ≡ record {
          workers = 0;
          next = None;
          all = true;
          flusher = self.old.is_flusher_asleep;
        } }
        ensures awake { (room : ℕ) → NextIsAwake self.new.queue room }
    {
        self.queue.wake_all();
        let flusher = self.is_flusher_asleep;
        self.is_flusher_asleep = false;
        self.is_stopped = true;
        Told {
            workers: Wakes::none(),
            next: None,
            all: true,
            flusher,
        }
    }
}

/// Wakes the one that waits to start and may in the room that the seating has, if it was asleep. Where nobody waits, nobody looks
/// for that room, which takes a step for each chair.
#[inline(always)]
#[tactic(auto, using(crate::proofs::Settling::nobody_told, crate::proofs::Settling::nobody_asleep))]
fn wake_next(queue: &mut AdmissionQueue, seating: &Seating) -> Option<Ticket>
    ensures told { (t : ℕ) → (result ≡ Some t)
        ↔ ((next_in queue.old (room_of seating.now) ≡ Some t) × (is_asleep_at queue.old t ≡ true)) }
    ensures woken { IfSome result (λ ticket. queue.new ≡ woken queue.old ticket) }
    ensures unchanged { result ≡ None → queue.new ≡ queue.old }
    ensures awake { NextIsAwake queue.new (room_of seating.now) }
{
    if queue.is_empty() {
        return None;
    }
    queue.wake_next(seating.room())
}

/// Whether the flusher is told, which sleeps or doesn't, and whether it sleeps then.
fn flusher_after(sleeps: bool, seating: &Seating, flush_from: u32) -> (bool, bool)
    ensures told { result.0 ≡ (sleeps && not result.1) }
    ensures wanted { result.0 ≡ true → (s : State) → StandsFor seating.now.vault s → is_wanted flush_from s ≡ true }
    ensures rests { FlusherRests seating.now.vault flush_from result.1 }
    ensures only { sleeps ≡ false → result.1 ≡ false }
{
    if sleeps && seating.is_flush_wanted(flush_from) {
        return (true, false);
    }
    (false, sleeps)
}
