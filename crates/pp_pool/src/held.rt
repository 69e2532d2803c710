//! The pages that a worker holds latched X, lent to its work.

ghost use Rattle.std.specs.Prelude.{◌≡◌, ◌<◌, ◌↔◌, List, IsTrue, true, false, [], length, None, Some, OnOk, OnErr, IfSome, IfNone, slice_set, vec_capacity};
ghost use Rattle.std.specs.Borrow.{sem};
ghost use Rattle.std.specs.Option.{is_some};
ghost use Rattle.pp_settings.specs.Limits.{most_slots};
ghost use Rattle.pp_device.specs.Image.{body_of};
ghost use Rattle.pp_vault.specs.declared.guards.WriteGuard.{WriteGuard};
ghost use Rattle.pp_vault.specs.Holding.{placed};
ghost use Rattle.pp_vault.specs.declared.guards.Guard.TheVariants as guard_kinds;
ghost use Rattle.pp_pool.specs.Lent.{AreReworked, is_writer, off_on_way_out, with_back, FindPlaces};

use crate::both::{change_falling, change_rising};
use pp_settings::limits::MOST_SLOTS;
use pp_vault::{Guard, Guards, Held as Holds, WriteGuard};
use std::alloc::{AllocError, Global};
use std::marker::{Brand, Model, PhantomData};

/// How many slots a plan has at most, as guards number them.
pub(crate) const SLOTS: u32 = MOST_SLOTS as u32;

/// Room for the guards of all pages that a worker can have latched X, where its work is lent them. No guard is in it while no work
/// has them. Contracts see whether there is room.
pub(crate) struct Room {
    guards: Vec<WriteGuard>,
    is_open: bool,
}

impl Model for Room {
    ghost use Rattle.std.specs.Prelude.{◌≡◌, Bool};
    ghost use Rattle.pp_pool.specs.Lent.{HasRoom};

    ghost Value = { Bool };

    ghost view = { λ r. r.is_open };

    ghost invariant = { λ r. HasRoom r.is_open r.guards };
}

impl Room {
    /// No room: the work is lent no page.
    pub(crate) fn closed(alloc: Global) -> Room
        ensures { result ≡ false }
    {
        Room {
            guards: Vec::new(alloc),
            is_open: false,
        }
    }

    /// Gets room for the guard of each slot that a plan can have.
    pub(crate) fn open(&mut self) -> Result<(), AllocError>
        ensures open { OnOk result (self.new ≡ true) }
        ensures same { OnErr result (self.new ≡ self.old) }
    {
        self.guards.reserve(SLOTS as usize)?;
        self.is_open = true;
        Ok(())
    }

    /// Whether there is room, so that the work is lent the pages.
    pub(crate) fn is_open(&self) -> bool
        ensures { result ≡ self.now }
    {
        self.is_open
    }

    /// Gives the room up.
    pub(crate) fn end(self) {
        let Room { guards, is_open: _ } = self;
        guards.destroy_empty();
    }
}

/// Which pages are lent, for contracts alone: each time that a work is lent pages, they are of a loan of their own. So what
/// it hands back is what it was lent.
pub trait Loan {
    ghost began: { List WriteGuard };
}

impl Loan for Brand {
    ghost began = { [] };
}

/// The pages that a worker holds latched X, by their slots, with their bodies to be changed.
///
/// A work gets it in [`Work::rework`](crate::Work::rework). It lends the bodies alone: no page's head can be reached through it, nor
/// any page that isn't latched X. Whatever is left in a body is the page's body from then on.
///
/// Contracts see the guards of these pages, by rising slots. Whatever is done with them, they are those of the loan: the slots and the
/// pages are the same, and each body is as long as it was. `lent` is the list of the pages.
pub struct Held<L: Loan> {
    guards: Vec<WriteGuard>,
    loan: PhantomData<L>,
}

impl<L: Loan> Model for Held<L> {
    ghost use Rattle.std.specs.Prelude.{List};
    ghost use Rattle.pp_vault.specs.declared.guards.WriteGuard.{WriteGuard};
    ghost use Rattle.pp_pool.specs.Lent.{IsLending};

    ghost Value = { List WriteGuard };

    ghost view = { λ h. h.guards.items };

    ghost invariant = { λ h. IsLending L.began h.guards };
}

impl<L: Loan> Held<L> {
    ghost use Rattle.pp_pool.specs.Lent.{lent, writers_in, TakesOut, AreOut, place_of, guard_at, has_lent, page_lent, body_lent};
    ghost use Rattle.pp_pool.specs.Lending.{LendsAt};
    ghost use Rattle.pp_pool.specs.Together.{ChangesSlots};

    /// Takes the guards of all pages that are latched X out of their places.
    pub(crate) fn out_of(guards: &mut Guards, room: Room) -> Held<L>
        requires room { room ≡ true }
        requires loan { L.began ≡ writers_in guards.old }
        ensures out { TakesOut L.began guards.old guards.new }
        ensures lent { result ≡ L.began }
    {
        let Room {
            guards: mut out,
            is_open: _,
        } = room;
        for slot in 0..SLOTS {
            if let Some(guard) = take_writer(guards, slot) {
                out.push_reserved(guard);
            }
        }
        Held {
            guards: out,
            loan: PhantomData,
        }
    }

    /// Puts the guards back into their places.
    pub(crate) fn into(self, guards: &mut Guards) -> Room
        requires { AreOut L.began guards.old }
        ensures room { result ≡ true }
        ensures back { (places : _) → TakesOut L.began places guards.old
            → AreReworked places guards.new × (writers_in guards.new ≡ self) }
    {
        let Held {
            guards: mut out,
            loan: _,
        } = self;
        put_back(&mut out, guards);
        Room {
            guards: out,
            is_open: true,
        }
    }

    /// The slots whose pages are latched X, by rising numbers.
    pub fn slots(&self) -> Slots<'_>
        ensures { result.rest.now ≡ self.now }
    {
        Slots {
            rest: self.guards.as_slice(),
        }
    }

    /// The page of the slot. None where no page of the slot is latched X.
    pub fn page(&self, slot: u8) -> Option<u32>
        ensures { result ≡ page_lent (lent self.now) slot }
    {
        match self.place(slot) {
            Some(place) => Some(self.guards[place].page()),
            None => None,
        }
    }

    /// The body of the slot's page, to be changed. None where no page of the slot is latched X.
    pub fn body(&mut self, slot: u8) -> Option<&mut [u8]>
        ensures there { is_some result ≡ has_lent (lent self.old) slot }
        ensures body { IfSome result (λ body. body.now ≡ body_lent (lent self.old) slot) }
    {
        match self.place(slot) {
            Some(place) => Some(self.body_at(place)),
            None => None,
        }
    }

    /// Has `change` change the bodies of the pages of two slots together, in the order in which the slots are named. None, and it isn't
    /// called, where they are one slot, or no page of one of them is latched X. What `change` has in it may be let go.
    pub fn two<R, F: FnOnce(&mut [u8], &mut [u8]) -> R>(
        &mut self,
        first: u8,
        second: u8,
        change: F,
    ) -> Option<R>
    where
        F: Drop,
        requires { F.IsAlwaysCallable change }
        ensures there { IsTrue (is_some result) ↔ ((first ≡ second → ⊥) × (has_lent (lent self.old) first ≡ true)
            × (has_lent (lent self.old) second ≡ true)) }
        ensures none { IfNone result (self.new ≡ self.old) }
        ensures changes { IfSome result (λ answer. ChangesSlots F.FnOnce change first second self.old answer self.new) }
    {
        let Some(one) = self.place(first) else {
            return None;
        };
        let Some(other) = self.place(second) else {
            return None;
        };
        if one == other {
            return None;
        }
        if one < other {
            let answer = change_rising(&mut self.guards, one, other, change);
            return Some(answer);
        }
        let answer = change_falling(&mut self.guards, one, other, change);
        Some(answer)
    }

    /// Where the guard of the slot stands, if its page is latched X.
    fn place(&self, slot: u8) -> Option<usize>
        ensures { result ≡ place_of self.now slot }
    {
        self.guards
            .iter()
            .position(|guard| guard.slot() == u32::from(slot))
    }

    /// The body of the page whose guard stands at this place.
    fn body_at(&mut self, place: usize) -> &mut [u8]
        requires { place < length self.old }
        ensures* writes_back { sem 𝓛 (LendsAt L.row L.Loan self.entry place result) }
        ensures body { result.now ≡ body_of (guard_at self.old place).image }
    {
        let guard = &mut self.guards[place];
        guard.body_mut()
    }
}

/// The slots whose pages are latched X, by rising numbers.
#[derive(Drop)]
pub struct Slots<'a> {
    rest: &'a [WriteGuard],
}

impl<'a> Iterator for Slots<'a> {
    type Item = u8;

    ghost use Rattle.std.specs.Iterator.{item_count, YieldsFirst};
    ghost use Rattle.pp_pool.specs.Lent.{slots_of};

    ghost next_gives = { YieldsFirst (λ s. slots_of s.rest.now) };

    ghost remaining = { item_count (λ s. s.rest.now) };

    fn next(&mut self) -> Option<u8> {
        let (first, rest) = self.rest.split_first()?;
        self.rest = rest;
        Some((first.slot() % SLOTS) as u8)
    }
}

/// Takes the guard of the slot out of its place, where its page is latched X.
fn take_writer(guards: &mut Guards, slot: u32) -> Option<WriteGuard>
    ensures there { is_some result ≡ is_writer (placed guards.old slot) }
    ensures guard { IfSome result (λ guard. placed guards.old slot ≡ Some (guard_kinds.Write guard)) }
    ensures slot { IfSome result (λ guard. guard.slot ≡ slot) }
    ensures taken { IfSome result (λ _. guards.new ≡ slice_set guards.old slot None) }
    ensures none { IfNone result (guards.new ≡ guards.old) }
    ensures long { length guards.old ≡ most_slots }
{
    if !is_exclusive(guards, slot) {
        return None;
    }
    match guards.take(slot) {
        Some(Guard::Write(guard)) => Some(guard),
        _ => unreachable!(),
    }
}

/// Puts the guards into their places, the last first.
fn put_back(out: &mut Vec<WriteGuard>, guards: &mut Guards)
    requires { FindPlaces guards.old out.old.items }
    ensures guards { guards.new ≡ with_back guards.old out.old.items }
    ensures out { out.new.items ≡ [] }
    ensures capacity { vec_capacity out.new ≡ vec_capacity out.old }
{
    while let Some(guard) = out.pop() {
        match guards.put(Guard::Write(guard)) {
            Ok(()) => {}
            Err(_) => unreachable!(),
        }
    }
}

/// Whether the page of the slot is latched X.
pub(crate) fn is_exclusive(guards: &Guards, slot: u32) -> bool
    ensures writer { result ≡ is_writer (placed guards.now slot) }
    ensures long { length guards.now ≡ most_slots }
{
    matches!(guards.held(slot), Some((_, Holds::X)))
}

/// The least slot that has a guard, where its page is latched X.
pub(crate) fn first_exclusive(guards: &Guards) -> Option<u8>
    ensures { result ≡ off_on_way_out guards.now }
{
    for slot in 0..SLOTS as u8 {
        if is_exclusive(guards, u32::from(slot)) {
            return Some(slot);
        }
        if !guards.is_free(u32::from(slot)) {
            return None;
        }
    }
    None
}
