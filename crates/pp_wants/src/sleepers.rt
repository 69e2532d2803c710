//! Who sleeps, for what, and who of them was told.

ghost use Rattle.std.specs.Prelude.{◌≡◌, ℕ, ◌≤◌, ◌<◌, true, false, None, Some, IfOk, IfSome, IfNone};
ghost use Rattle.std.specs.Prelude.{length, replicate, slice_set};
ghost use Rattle.pp_model.specs.Pool.{State};
ghost use Rattle.pp_vault.specs.Holding.{placed};
ghost use Rattle.pp_vault.specs.StandsFor.{StandsFor};
ghost use Rattle.pp_wants.specs.Masks.{has_bell, bell_of};
ghost use Rattle.pp_wants.specs.Sleepers.{untold, told, is_told_anew, Keeps};
ghost use Rattle.pp_wants.specs.Inside.{counts_in, is_told_alike};
ghost use Rattle.pp_wants.specs.WakeUps.{IsOnItsWay, IsForgotten, IsRungFor, SleepsRightly, NoWakeUpIsLost};

use crate::wakes::Wakes;
use crate::want::Want;
use crate::{asking, mask};
use pp_vault::Vault;
use std::alloc::{AllocError, Global};
use std::marker::Model;

/// One worker whose thread sleeps.
#[derive(Clone, Copy, Debug, PartialEq, Eq)]
pub struct Sleeper {
    /// What it sleeps for.
    pub want: Want,
    /// Whether it was told to ask again.
    pub is_told: bool,
}

/// The workers whose threads sleep. Contracts see them as a list: at place w worker w, if it sleeps.
///
/// Beside the places it keeps how many of them weren't told, so that with nobody of these [`Sleepers::settle`] asks nothing.
#[derive(Drop)]
pub struct Sleepers {
    places: Vec<Option<Sleeper>>,
    untold: usize,
}

impl Model for Sleepers {
    ghost use Rattle.std.specs.Prelude.{List, Option};
    ghost use Rattle.pp_wants.specs.declared.sleepers.Sleeper.{Sleeper};
    ghost use Rattle.pp_wants.specs.Inside.{IsCounted};

    ghost Value = { List (Option Sleeper) };

    ghost view = { λ a. a.places.items };

    ghost invariant = { λ a. IsCounted a.places.items a.untold };
}

impl Sleepers {
    /// Places for so many workers, of whom nobody sleeps.
    ///
    /// # Errors
    ///
    /// Only where the memory can't be had.
    #[tactic(auto, using(crate::proofs::Places::counted_none))]
    pub fn new(alloc: Global, workers: u32) -> Result<Sleepers, AllocError>
        ensures { IfOk result (λ made. made ≡ replicate workers None) }
    {
        let places = vec![in alloc; None; workers as usize]?;
        Ok(Sleepers { places, untold: 0 })
    }

    /// For how many workers there are places.
    pub fn workers(&self) -> u32
        ensures { result ≡ length self.now }
    {
        self.places.len() as u32
    }

    /// The worker, where it sleeps.
    pub fn get(&self, worker: u32) -> Option<Sleeper>
        ensures { result ≡ placed self.now worker }
    {
        if (worker as usize) < self.places.len() {
            self.places[worker as usize]
        } else {
            None
        }
    }

    /// The worker sleeps with this want, and wasn't told. Nothing changes where it has no place.
    ///
    /// What it wants may be possible already, and it may have been told of what another one sleeps for: then call
    /// [`Sleepers::settle`], in the same hold of the lock.
    pub fn sleep(&mut self, worker: u32, want: Want)
        ensures { self.new ≡ slice_set self.old worker (Some (untold want)) }
    {
        let sleeper = Sleeper {
            want,
            is_told: false,
        };
        self.put(worker, Some(sleeper));
    }

    /// The worker doesn't sleep any more: it is about to ask again, or gives up. Nothing changes where it has no place.
    ///
    /// It may have been told of what another one sleeps for. So call [`Sleepers::settle`] in the same hold of the lock,
    /// once it has asked.
    #[inline(always)]
    #[tactic(auto, using(crate::proofs::Places::stays_none))]
    pub fn rise(&mut self, worker: u32)
        ensures { self.new ≡ slice_set self.old worker None }
    {
        if self.get(worker).is_some() {
            self.put(worker, None);
        }
    }

    /// Tells each worker whose wake-up would be lost, in the order of the workers, and answers the bells of those that it
    /// told. From then on no wake-up is lost.
    ///
    /// It asks the vault about each one that wasn't told, and where it may go, looks for one that was told of the same
    /// thing. Where all were told, or nobody sleeps, it compares one word.
    #[inline(always)]
    pub fn settle(&mut self, vault: &Vault) -> Wakes
        ensures settled { NoWakeUpIsLost vault.now self.new }
        ensures told { (w : ℕ) → is_told_anew self.old self.new w ≡ true → has_bell result (bell_of w) ≡ true }
        ensures only { (b : ℕ) → has_bell result b ≡ true → IsRungFor self.old self.new b }
        ensures needed { (w : ℕ) → is_told_anew self.old self.new w ≡ true
            → (s : State) → StandsFor vault.now s → IsForgotten s self.old w }
        ensures rest { Keeps self.old self.new }
    {
        if self.untold == 0 {
            return Wakes::none();
        }
        self.tell_all(vault)
    }

    /// Tells each worker whose wake-up would be lost.
    fn tell_all(&mut self, vault: &Vault) -> Wakes
        ensures settled { NoWakeUpIsLost vault.now self.new }
        ensures told { (w : ℕ) → is_told_anew self.old self.new w ≡ true → has_bell result (bell_of w) ≡ true }
        ensures only { (b : ℕ) → has_bell result b ≡ true → IsRungFor self.old self.new b }
        ensures needed { (w : ℕ) → is_told_anew self.old self.new w ≡ true
            → (s : State) → StandsFor vault.now s → IsForgotten s self.old w }
        ensures rest { Keeps self.old self.new }
    {
        let workers = self.places.len() as u32;
        let mut now_told = 0;
        for worker in 0..workers {
            if let Some(want) = self.forgotten(vault, worker) {
                self.tell(worker, want);
                let bell = mask::bell_of(worker);
                now_told = mask::with_bell(now_told, bell);
            }
        }
        Wakes::of(now_told)
    }

    /// What the worker sleeps for, where its wake-up would be lost.
    fn forgotten(&self, vault: &Vault, worker: u32) -> Option<Want>
        ensures untold { IfSome result (λ want. placed self.now worker ≡ Some (untold want)) }
        ensures some { IfSome result (λ _. (s : State) → StandsFor vault.now s → IsForgotten s self.now worker) }
        ensures none { IfNone result ((s : State) → StandsFor vault.now s → SleepsRightly s self.now worker) }
    {
        let Sleeper { want, is_told } = self.get(worker)?;
        if is_told || !asking::may_go(vault, worker, want) || self.is_on_its_way(vault, want) {
            None
        } else {
            Some(want)
        }
    }

    /// Whether somebody that was told sleeps for the same thing.
    fn is_on_its_way(&self, vault: &Vault, want: Want) -> bool
        ensures yes { result ≡ true → (s : State) → StandsFor vault.now s → IsOnItsWay s self.now want }
        ensures no { result ≡ false → (s : State) → StandsFor vault.now s → ¬ IsOnItsWay s self.now want }
    {
        for place in &self.places {
            if is_told_alike(vault, want, *place) {
                return true;
            }
        }
        false
    }

    /// The worker is told, which sleeps with this want.
    fn tell(&mut self, worker: u32, want: Want)
        requires { placed self.old worker ≡ Some (untold want) }
        ensures { self.new ≡ slice_set self.old worker (Some (told want)) }
    {
        let sleeper = Sleeper {
            want,
            is_told: true,
        };
        self.put(worker, Some(sleeper));
    }

    /// So it is in the worker's place from now on. Nothing changes where it has none.
    fn put(&mut self, worker: u32, place: Option<Sleeper>)
        ensures { self.new ≡ slice_set self.old worker place }
    {
        if (worker as usize) < self.places.len() {
            self.put_at(worker as usize, place);
        }
    }

    /// The same of a worker that has a place.
    #[tactic(auto, using(crate::proofs::Places::counted_on, crate::proofs::Places::counted_few))]
    fn put_at(&mut self, worker: usize, place: Option<Sleeper>)
        requires { worker < length self.old }
        ensures { self.new ≡ slice_set self.old worker place }
    {
        let before = counts_in(self.places[worker]);
        let now = counts_in(place);
        self.untold = (self.untold + now).saturating_sub(before);
        self.places[worker] = place;
    }
}

/// 1 where one sleeps in the place that wasn't told, else 0.
fn counts_in(place: Option<Sleeper>) -> usize
    ensures is { result ≡ counts_in place }
    ensures low { result ≤ 1 }
{
    match place {
        Some(sleeper) => { if sleeper.is_told { 0 } else { 1 } }
        None => 0,
    }
}

/// Whether one that was told sleeps in the place for what this want is for.
fn is_told_alike(vault: &Vault, want: Want, place: Option<Sleeper>) -> bool
    ensures { (s : State) → StandsFor vault.now s → result ≡ is_told_alike s want place }
{
    match place {
        Some(other) => other.is_told && asking::is_alike(vault, want, other.want),
        None => false,
    }
}
