//! All tokens of a vault.

ghost use Rattle.std.specs.Prelude.{◌≡◌, true, false, None, Some, IfOk, IfSome, OnOk, OnErr, IfErr, IfNone, slice_set};
ghost use Rattle.pp_vault.specs.Holding.{placed};
ghost use Rattle.pp_vault.specs.Stages.{AllIdle, stage_worker, is_free_for, put_for};

use crate::places::Guards;
use crate::stage::{Hand, Stage};
use crate::stored::StoredHand;
use crate::tokens::{Chair, Errand, Returned};
use std::alloc::{AllocError, Global};
use std::marker::Model;

/// The hands of a vault's workers that weren't parted out. Contracts see them as a list: at place w the hand of worker
/// w, if it is there.
///
/// The compiler refuses code that lets it fall.
pub struct Workers {
    places: Vec<Option<StoredHand>>,
}

impl Model for Workers {
    ghost use Rattle.std.specs.Prelude.{List, Option};
    ghost use Rattle.pp_vault.specs.declared.stage.Hand.{Hand};
    ghost use Rattle.pp_vault.specs.HandCoding.{coded_workers};

    ghost Value = { List (Option Hand) };

    ghost coded = { coded_workers };

    ghost view = { λ w. w.places.items };

    ghost use Rattle.pp_vault.specs.Stages.{HandPlaces};

    ghost invariant = { λ w. HandPlaces w.places.items };
}

/// What the flusher has at hand while a flush is in flight.
pub enum Flushing {
    /// A device has to write.
    Out(Errand),
    /// A device has written, and the vault doesn't know yet what came of it.
    Back(Returned),
}

/// All tokens of a vault that weren't parted out: the hand of each worker, and what the flusher has while a flush is in
/// flight.
///
/// The compiler refuses code that lets it fall.
pub struct Hands {
    pub workers: Workers,
    pub flushing: Option<Flushing>,
}

impl Hands {
    /// The hands of so many workers, each with its chair and nothing else.
    pub(crate) fn new(alloc: Global, workers: u32) -> Result<Hands, AllocError>
        ensures workers { IfOk result (λ hands. AllIdle workers hands.workers) }
        ensures flushing { IfOk result (λ hands. hands.flushing ≡ None) }
    {
        let mut places = Vec::with_capacity(alloc, workers as usize)?;
        for worker in 0..workers {
            let guards = Guards::new(alloc)?;
            places.push_reserved(Some(StoredHand::of(Hand::of(Chair { worker }, guards))));
        }
        Ok(Hands {
            workers: Workers { places },
            flushing: None,
        })
    }

    /// Takes the worker's hand out. None, and nothing changes, where there is no such worker or its hand is out.
    pub fn part(&mut self, worker: u32) -> Option<Hand>
        ensures hand { result ≡ placed self.old.workers worker }
        ensures of { IfSome result (λ hand. stage_worker hand.stage ≡ Some worker) }
        ensures taken { IfSome result (λ _. self.new.workers ≡ slice_set self.old.workers worker None) }
        ensures unchanged { IfNone result (self.new.workers ≡ self.old.workers) }
        ensures flushing { self.new.flushing ≡ self.old.flushing }
    {
        self.workers.part(worker)
    }

    /// Puts a worker's hand back.
    ///
    /// # Errors
    ///
    /// The hand, and nothing changes, where the worker of its stage has no place here or its place isn't empty, or the
    /// stage is an errand of the flusher.
    pub fn join(&mut self, hand: Hand) -> Result<(), Hand>
        ensures was { OnOk result (is_free_for self.old.workers (stage_worker hand.stage) ≡ true) }
        ensures joined { OnOk result (self.new.workers ≡ put_for self.old.workers hand (stage_worker hand.stage)) }
        ensures err { OnErr result (is_free_for self.old.workers (stage_worker hand.stage) ≡ false) }
        ensures back { IfErr result (λ e. e ≡ hand) }
        ensures unchanged { OnErr result (self.new.workers ≡ self.old.workers) }
        ensures flushing { self.new.flushing ≡ self.old.flushing }
    {
        self.workers.join(hand)
    }

    /// Gives the tokens up.
    pub(crate) fn scrap(self) {
        let Hands { workers, flushing } = self;
        let Workers { places: _places } = workers;
        match flushing {
            None => {}
            Some(
                Flushing::Out(
                    Errand {
                        duty: _,
                        image: _image,
                    },
                ),
            ) => {}
            Some(
                Flushing::Back(
                    Returned {
                        duty: _,
                        image: _image,
                        answer: _,
                    },
                ),
            ) => {}
        }
    }
}

impl Workers {
    /// Takes the worker's hand out, where it is there.
    fn part(&mut self, worker: u32) -> Option<Hand>
        ensures hand { result ≡ placed self.old worker }
        ensures of { IfSome result (λ hand. stage_worker hand.stage ≡ Some worker) }
        ensures taken { IfSome result (λ _. self.new ≡ slice_set self.old worker None) }
        ensures unchanged { IfNone result (self.new ≡ self.old) }
    {
        if worker as usize >= self.places.len() {
            return None;
        }
        match self.places[worker as usize].take() {
            Some(stored) => Some(stored.hand()),
            None => None,
        }
    }

    /// Puts a hand into its worker's place, where that is empty.
    fn join(&mut self, hand: Hand) -> Result<(), Hand>
        ensures was { OnOk result (is_free_for self.old (stage_worker hand.stage) ≡ true) }
        ensures joined { OnOk result (self.new ≡ put_for self.old hand (stage_worker hand.stage)) }
        ensures err { OnErr result (is_free_for self.old (stage_worker hand.stage) ≡ false) }
        ensures back { IfErr result (λ e. e ≡ hand) }
        ensures unchanged { OnErr result (self.new ≡ self.old) }
    {
        let Some(worker) = hand.worker() else {
            return Err(hand);
        };
        let place = worker as usize;
        if place >= self.places.len() || self.places[place].is_some() {
            return Err(hand);
        }
        self.places[place] = Some(StoredHand::of(hand));
        Ok(())
    }
}
