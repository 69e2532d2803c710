//! The guards of a worker, each in the place of its slot.

ghost use Rattle.std.specs.Prelude.{◌≡◌, true, false, None, Some, OnOk, IfErr, IfOk};
ghost use Rattle.std.specs.Prelude.{OnErr, IfSome, IfNone, slice_set, option_and_then, length};
ghost use Rattle.pp_settings.specs.Limits.{most_slots};
ghost use Rattle.pp_vault.specs.Holding.{slot_by, held_by, has_bundle, placed, is_free, all_free, no_guards};

use crate::guards::Guard;
use crate::stored::StoredGuard;
use pp_core::Held;
use pp_settings::limits::MOST_SLOTS;
use std::alloc::{AllocError, Global};
use std::marker::Model;

/// How many slots a plan has at most, as the length of an array.
pub(crate) const SLOTS: usize = MOST_SLOTS as usize;

/// The guards of one worker, each in the place of its slot. Contracts see them as a list of 32: at place s the guard of
/// slot s, if it is there. The places lie apart, since a worker's tokens are handed on by value.
///
/// The compiler refuses code that lets it fall.
pub struct Guards {
    pub(crate) places: Box<[Option<StoredGuard>; SLOTS]>,
}

impl Model for Guards {
    ghost use Rattle.std.specs.Prelude.{List, Option};
    ghost use Rattle.pp_vault.specs.declared.guards.Guard.{Guard};
    ghost use Rattle.pp_vault.specs.GuardCoding.{coded_guards};

    ghost Value = { List (Option Guard) };

    ghost coded = { coded_guards };

    ghost view = { λ g. g.places.value };

    ghost use Rattle.pp_vault.specs.Holding.{GuardPlaces};

    ghost invariant = { λ g. GuardPlaces g.places.value };
}

impl Guards {
    /// No guards, and a place for one of each slot.
    pub(crate) fn new(alloc: Global) -> Result<Guards, AllocError>
        ensures { IfOk result (λ guards. guards ≡ no_guards) }
    {
        let places: [Option<StoredGuard>; SLOTS] = Default::default();
        match Box::new(alloc, places) {
            Ok(places) => Ok(Guards { places }),
            Err(_refused) => Err(AllocError),
        }
    }

    /// Puts a guard into the place of its slot.
    ///
    /// # Errors
    ///
    /// The guard, and nothing changes, where the slot is 32 or more, or a guard is in its place.
    pub fn put(&mut self, guard: Guard) -> Result<(), Guard>
        ensures was { OnOk result (is_free self.old (slot_by guard) ≡ true) }
        ensures joined { OnOk result (self.new ≡ slice_set self.old (slot_by guard) (Some guard)) }
        ensures err { OnErr result (is_free self.old (slot_by guard) ≡ false) }
        ensures back { IfErr result (λ e. e ≡ guard) }
        ensures unchanged { OnErr result (self.new ≡ self.old) }
    {
        let place = guard.slot() as usize;
        if place >= SLOTS || self.places[place].is_some() {
            return Err(guard);
        }
        self.places[place] = Some(StoredGuard::of(guard));
        Ok(())
    }

    /// Takes the guard of a slot out. None, and nothing changes, where no guard is there.
    pub fn take(&mut self, slot: u32) -> Option<Guard>
        ensures guard { result ≡ placed self.old slot }
        ensures taken { IfSome result (λ _. self.new ≡ slice_set self.old slot None) }
        ensures slot { IfSome result (λ guard. slot_by guard ≡ slot) }
        ensures unchanged { IfNone result (self.new ≡ self.old) }
    {
        let places = &mut *self.places;
        if slot as usize >= SLOTS {
            return None;
        }
        match places[slot as usize].take() {
            Some(stored) => Some(stored.guard()),
            None => None,
        }
    }

    /// The page that the guard of a slot is of, and how it is held. None also where the guard is a bundle's.
    pub fn held(&self, slot: u32) -> Option<(u32, Held)>
        ensures held { result ≡ option_and_then held_by (placed self.now slot) }
        ensures long { length self.now ≡ most_slots }
    {
        let places = &*self.places;
        match places.get(slot as usize) {
            Some(Some(stored)) => stored.held(),
            _ => None,
        }
    }

    /// Whether there is a guard of the slot, and it is a bundle's.
    pub fn has_bundle(&self, slot: u32) -> bool
        ensures { result ≡ has_bundle (placed self.now slot) }
    {
        let places = &*self.places;
        match places.get(slot as usize) {
            Some(Some(stored)) => stored.is_bundle(),
            _ => false,
        }
    }

    /// Whether the slot has a place, with no guard in it, so that [`Guards::put`] puts one there.
    pub fn is_free(&self, slot: u32) -> bool
        ensures { result ≡ is_free self.now slot }
    {
        let places = &*self.places;
        match places.get(slot as usize) {
            Some(place) => place.is_none(),
            None => false,
        }
    }

    /// Whether no guard is there.
    pub fn is_empty(&self) -> bool
        ensures free { result ≡ all_free self.now }
        ensures long { length self.now ≡ most_slots }
    {
        let places = &*self.places;
        places.iter().all(|place| place.is_none())
    }
}
