//! Who waits to start.

ghost use Rattle.std.specs.Prelude.{◌≡◌, ◌<◌, ◌+◌, ℕ, true, false, None, Some, IfOk, IfSome, IfNone, length, replicate};
ghost use Rattle.pp_steps.specs.Lines.{waiter_at, put_at, without, is_open, IsFreeAt, HasNoFree, IsNextPass, IsBellOf, HasTicket};

use crate::pass::{LAST_TURN, Pass};
use crate::plans::KeptPlan;
use pp_admission::Ticket;
use std::alloc::{AllocError, Global};
use std::marker::Model;

/// One that waits: its ticket of the hall's queue, and its plan.
#[derive(Clone, Copy, Debug)]
pub(crate) struct Waiter {
    pub(crate) ticket: Ticket,
    pub(crate) plan: KeptPlan,
}

/// A place of one that waits.
#[derive(Clone, Copy, Debug)]
pub(crate) struct LinePlace {
    // How many waited there.
    turn: u64,
    waiter: Option<Waiter>,
}

impl LinePlace {
    /// Whether nobody waits there, and it has had fewer than can be told.
    fn is_free(&self) -> bool
        ensures { result ≡ is_open self.now }
    {
        self.waiter.is_none() && self.turn < LAST_TURN
    }
}

/// Those that wait to start, in no order.
#[derive(Drop)]
pub(crate) struct Line {
    // The bell of the first place, and how many places there are.
    first: u32,
    count: u32,
    places: Vec<LinePlace>,
}

impl Model for Line {
    ghost use Rattle.pp_steps.specs.Lines.{Parts, IsLine};

    ghost Value = { Parts };

    ghost view = { λ l. record { first = l.first; places = l.places.items } };

    ghost invariant = { λ l. IsLine l.first l.count l.places.items };
}

impl Line {
    /// So many places, whose bells begin with this one. Nobody waits.
    pub(crate) fn new(alloc: Global, first: u32, places: u32) -> Result<Line, AllocError>
        requires { first + places < 65536 }
        ensures { IfOk result (λ line. line
            ≡ record { first = first; places = replicate places (record { turn = 0; waiter = None }) }) }
    {
        let none = LinePlace {
            turn: 0,
            waiter: None,
        };
        Ok(Line {
            first,
            count: places,
            places: vec![in alloc; none; places as usize]?,
        })
    }

    /// The bell of the first place: so many chairs there are.
    pub(crate) fn first(&self) -> u32
        ensures { result ≡ self.now.first }
    {
        self.first
    }

    /// The bell behind those of the line.
    pub(crate) fn end(&self) -> u32
        ensures is { result ≡ self.now.first + length self.now.places }
        ensures below { result < 65536 }
    {
        self.first + self.count
    }

    /// A place in which nobody waits.
    pub(crate) fn free(&self) -> Option<u32>
        ensures some { IfSome result (IsFreeAt self.now.places) }
        ensures none { IfNone result (HasNoFree self.now.places) }
    {
        for at in 0..self.count {
            if self.places[at as usize].is_free() {
                return Some(at);
            }
        }
        None
    }

    /// Lets one wait in a free place, and gives it a pass.
    pub(crate) fn put(&mut self, at: u32, waiter: Waiter) -> Pass
        requires { IsFreeAt self.old.places at }
        ensures bell { result.bell ≡ self.old.first + at }
        ensures next { IsNextPass self.old result }
        ensures put { self.new ≡ put_at self.old at result.turn waiter }
        ensures there { waiter_at self.new result ≡ Some waiter }
    {
        let place = &mut self.places[at as usize];
        place.turn += 1;
        place.waiter = Some(waiter);
        Pass {
            bell: self.first + at,
            turn: place.turn,
        }
    }

    /// The one that waits with this pass.
    pub(crate) fn get(&self, pass: Pass) -> Option<Waiter>
        ensures { result ≡ waiter_at self.now pass }
    {
        if pass.bell < self.first {
            return None;
        }
        match self.places.get((pass.bell - self.first) as usize) {
            Some(place) if place.turn == pass.turn => place.waiter,
            _ => None,
        }
    }

    /// Takes the one with this pass out: it waits no more.
    pub(crate) fn take(&mut self, pass: Pass) -> Option<Waiter>
        ensures is { result ≡ waiter_at self.old pass }
        ensures taken { IfSome result (λ _. self.new ≡ without self.old pass) }
        ensures unchanged { IfNone result (self.new ≡ self.old) }
    {
        let waiter = self.get(pass)?;
        let place = &mut self.places[(pass.bell - self.first) as usize];
        place.waiter = None;
        Some(waiter)
    }

    /// The bell of the one with this ticket.
    pub(crate) fn bell_of(&self, ticket: Ticket) -> Option<u32>
        ensures some { IfSome result (IsBellOf self.now ticket) }
        ensures none { IfNone result ((at : ℕ) → ¬ HasTicket self.now.places ticket at) }
    {
        for at in 0..self.count {
            if let Some(waiter) = self.places[at as usize].waiter {
                if waiter.ticket.number() == ticket.number() {
                    return Some(self.first + at);
                }
            }
        }
        None
    }
}
