//! Who runs, each in the place of its chair.

ghost use Rattle.std.specs.Prelude.{◌≡◌, ◌<◌, ◌+◌, ℕ, true, false, None, Some, IfOk, IfErr, OnErr, IfSome, IfNone, length, replicate, slice_set, slice_get};
ghost use Rattle.pp_steps.specs.Seats.{seated_at, AllFree, without, IsFree, IsNextSeat, with_seat};

use crate::pass::{LAST_TURN, Pass};
use std::alloc::{AllocError, Global};
use std::marker::Model;

/// A place, and how many had it.
pub(crate) struct Place<T> {
    pub(crate) turn: u64,
    pub(crate) seated: Option<T>,
}

/// Those that run, each in the place of its chair.
pub(crate) struct Seats<T> {
    pub(crate) places: Vec<Place<T>>,
}

impl<T> Model for Seats<T> {
    ghost use Rattle.std.specs.Prelude.{List};
    ghost use Rattle.pp_steps.specs.declared.seats.Place.{Place};

    ghost Value = { List (Place T) };

    ghost view = { λ s. s.places.items };
}

impl<T> Seats<T> {
    /// So many places, in which nobody is seated.
    pub(crate) fn new(alloc: Global, chairs: u32) -> Result<Seats<T>, AllocError>
        ensures { IfOk result (λ seats. seats ≡ replicate chairs (record { turn = 0; seated = None })) }
    {
        let mut places = Vec::with_capacity(alloc, chairs as usize)?;
        for _ in 0..chairs {
            places.push_reserved(Place {
                turn: 0,
                seated: None,
            });
        }
        Ok(Seats { places })
    }

    /// Whether nobody is seated.
    pub(crate) fn is_empty(&self) -> bool
        ensures free { result ≡ true → AllFree self.now }
        ensures some { result ≡ false → ¬ AllFree self.now }
    {
        self.places.iter().all(|place| place.seated.is_none())
    }

    /// The one with this pass.
    pub(crate) fn get(&self, pass: Pass) -> Option<&T>
        ensures some { IfSome result (λ one. seated_at self.now pass ≡ Some one.now) }
        ensures none { IfNone result (seated_at self.now pass ≡ None) }
    {
        match self.places.get(pass.bell as usize) {
            Some(place) if place.turn == pass.turn => place.seated.as_ref(),
            _ => None,
        }
    }

    /// Seats one in the place of this chair, which is free, and gives it a pass. After 2^48 - 1 of them a chair's passes
    /// aren't told apart any more.
    pub(crate) fn seat(&mut self, chair: u32, one: T) -> Pass
        requires { IsFree self.old chair }
        ensures bell { result.bell ≡ chair }
        ensures turn { result.turn < 281474976710656 }
        ensures next { IsNextSeat self.old result }
        ensures seat { self.new ≡ with_seat self.old result one }
    {
        let place = &mut self.places[chair as usize];
        match place.seated.replace(one) {
            None => {}
            Some(_) => unreachable!(),
        }
        place.turn = place.turn.saturating_add(1).min(LAST_TURN);
        Pass {
            bell: chair,
            turn: place.turn,
        }
    }

    /// Takes the one with this pass out of its place.
    pub(crate) fn take(&mut self, pass: Pass) -> Option<T>
        ensures is { result ≡ seated_at self.old pass }
        ensures taken { IfSome result (λ _. self.new ≡ without self.old pass) }
        ensures unchanged { IfNone result (self.new ≡ self.old) }
    {
        if self.get(pass).is_none() {
            return None;
        }
        let place = &mut self.places[pass.bell as usize];
        place.seated.take()
    }
}
