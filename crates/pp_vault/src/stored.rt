//! Guards and a worker's tokens as plain data: what the places of the hands keep.

ghost use Rattle.std.specs.Prelude.{◌≡◌};
ghost use Rattle.pp_vault.specs.Holding.{held_by, is_bundle};
ghost use Rattle.pp_vault.specs.StoredHands.{stage_of};

use crate::guards::{BundleGuard, Guard, PinGuard, ReadGuard, WriteGuard};
use crate::image::Image;
use crate::places::{Guards, SLOTS};
use crate::stage::{Hand, Stage};
use crate::tokens::{Chair, Duty, Errand, Leaver, Returned, Session};
use pp_core::Held;
use pp_device::Fault;
use pp_plan::Ask;
use std::marker::Model;

/// What a guard has beside its worker and slot, and the page that a guard of one has.
#[derive(Drop)]
pub(crate) enum StoredLatch {
    /// Not latched.
    Free,
    /// Latched S, with the mark.
    Shared(u64),
    /// Latched X, with the mark and the image.
    Exclusive(u64, Image),
    /// A bundle's, which has no page.
    Bundle,
}

/// A guard as plain data. Contracts see it as the guard.
#[derive(Drop)]
pub(crate) struct StoredGuard {
    worker: u32,
    slot: u32,
    page: u32,
    latch: StoredLatch,
}

impl Model for StoredGuard {
    ghost use Rattle.pp_vault.specs.declared.guards.Guard.{Guard};
    ghost use Rattle.pp_vault.specs.GuardCoding.{coded_guard};

    ghost Value = { Guard };

    ghost coded = { coded_guard };

    ghost use Rattle.pp_vault.specs.StoredGuards.{guard_of};

    ghost view = { guard_of };
}

impl StoredGuard {
    /// The guard, stored as plain data.
    pub(crate) fn of(guard: Guard) -> StoredGuard
        ensures { result ≡ guard }
    {
        match guard {
            Guard::Pin(PinGuard { worker, slot, page }) => StoredGuard {
                worker,
                slot,
                page,
                latch: StoredLatch::Free,
            },
            Guard::Read(
                ReadGuard {
                    worker,
                    slot,
                    page,
                    mark,
                },
            ) => StoredGuard {
                worker,
                slot,
                page,
                latch: StoredLatch::Shared(mark),
            },
            Guard::Write(
                WriteGuard {
                    worker,
                    slot,
                    page,
                    mark,
                    image,
                },
            ) => StoredGuard {
                worker,
                slot,
                page,
                latch: StoredLatch::Exclusive(mark, image),
            },
            Guard::Bundle(BundleGuard { worker, slot }) => StoredGuard {
                worker,
                slot,
                page: 0,
                latch: StoredLatch::Bundle,
            },
        }
    }

    /// The guard that was stored.
    pub(crate) fn guard(self) -> Guard
        ensures { result ≡ self }
    {
        let StoredGuard {
            worker,
            slot,
            page,
            latch,
        } = self;
        match latch {
            StoredLatch::Free => Guard::Pin(PinGuard { worker, slot, page }),
            StoredLatch::Shared(mark) => Guard::Read(ReadGuard {
                worker,
                slot,
                page,
                mark,
            }),
            StoredLatch::Exclusive(mark, image) => Guard::Write(WriteGuard {
                worker,
                slot,
                page,
                mark,
                image,
            }),
            StoredLatch::Bundle => Guard::Bundle(BundleGuard { worker, slot }),
        }
    }

    /// The page that the guard is of, and how it is held. None of a bundle's.
    pub(crate) fn held(&self) -> Option<(u32, Held)>
        ensures { result ≡ held_by self.now }
    {
        match &self.latch {
            StoredLatch::Free => Some((self.page, Held::Free)),
            StoredLatch::Shared(_) => Some((self.page, Held::S)),
            StoredLatch::Exclusive(_, _) => Some((self.page, Held::X)),
            StoredLatch::Bundle => None,
        }
    }

    /// Whether the guard is a bundle's.
    pub(crate) fn is_bundle(&self) -> bool
        ensures { result ≡ is_bundle self.now }
    {
        match &self.latch {
            StoredLatch::Free => false,
            StoredLatch::Shared(_) => false,
            StoredLatch::Exclusive(_, _) => false,
            StoredLatch::Bundle => true,
        }
    }
}

/// A worker's stage with its token as plain data.
#[derive(Drop)]
pub(crate) enum StoredStage {
    Idle(u32),
    In(u32, Ask),
    Out(Duty, Image),
    Back(Duty, Image, Result<(), Fault>),
    Leaving(u32),
}

/// A worker's tokens as plain data. Contracts see them as the hand.
#[derive(Drop)]
pub(crate) struct StoredHand {
    stage: StoredStage,
    guards: Box<[Option<StoredGuard>; SLOTS]>,
}

impl Model for StoredHand {
    ghost use Rattle.pp_vault.specs.declared.stage.Hand.{Hand};
    ghost use Rattle.pp_vault.specs.HandCoding.{coded_hand};

    ghost Value = { Hand };

    ghost coded = { coded_hand };

    ghost use Rattle.pp_vault.specs.StoredHands.{hand_of};

    ghost view = { hand_of };

    ghost use Rattle.pp_vault.specs.Holding.{GuardPlaces};

    ghost invariant = { λ k. GuardPlaces k.guards.value };
}

impl StoredStage {
    /// The stage with its token, stored as plain data.
    pub(crate) fn of(stage: Stage) -> StoredStage
        ensures { stage_of result ≡ stage }
    {
        match stage {
            Stage::Idle(Chair { worker }) => StoredStage::Idle(worker),
            Stage::In(Session { worker, ask }) => StoredStage::In(worker, ask),
            Stage::Out(Errand { duty, image }) => StoredStage::Out(duty, image),
            Stage::Back(
                Returned {
                    duty,
                    image,
                    answer,
                },
            ) => StoredStage::Back(duty, image, answer),
            Stage::Leaving(Leaver { worker }) => StoredStage::Leaving(worker),
        }
    }
}

impl StoredHand {
    /// The hand, stored as plain data.
    pub(crate) fn of(hand: Hand) -> StoredHand
        ensures { result ≡ hand }
    {
        let Hand { stage, guards } = hand;
        let Guards { places } = guards;
        let stage = StoredStage::of(stage);
        StoredHand {
            stage,
            guards: places,
        }
    }

    /// The hand that was stored.
    pub(crate) fn hand(self) -> Hand
        ensures { result ≡ self }
    {
        let StoredHand { stage, guards } = self;
        let stage = match stage {
            StoredStage::Idle(worker) => Stage::Idle(Chair { worker }),
            StoredStage::In(worker, ask) => Stage::In(Session { worker, ask }),
            StoredStage::Out(duty, image) => Stage::Out(Errand { duty, image }),
            StoredStage::Back(duty, image, answer) => Stage::Back(Returned {
                duty,
                image,
                answer,
            }),
            StoredStage::Leaving(worker) => Stage::Leaving(Leaver { worker }),
        };
        Hand {
            stage,
            guards: Guards { places: guards },
        }
    }
}
