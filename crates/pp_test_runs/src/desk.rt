//! A desk that refuses what its book would do.

use crate::case::Case;
use pp_pool::{Book, BookAnswer, Journal, OwnSite, Request, Response, Site};
use pp_run::{Desk, Left};
use pp_settings::{Layout, Settings};
use pp_vault::{Cause, Delay, Flushing, Hand, Hands, ReadGuard, Refusal, Stage, Vault};
use std::process::Abort;
use std::sync::atomic::{AtomicU64, Ordering};

/// What a desk refuses.
#[derive(Clone, Copy, Drop)]
pub enum Habit {
    /// Room for the log of a worker that asks for a plan: it tells so many workers as the row says of a plan for whose events no
    /// memory has room.
    Room,
    /// The worker that asks first for a plan waits for the other's hand.
    Hand,
    /// The worker that doesn't ask first waits for the flush, whose end is refused.
    Flush,
    /// Nothing but what its book refuses.
    None,
}

/// What a request is told that waits.
#[derive(Clone, Copy, Drop)]
pub enum Told {
    /// That a move has to come first.
    Move,
    /// That a page has to be changed first.
    Page,
}

/// A book with its tokens, on which one worker goes on, and the other is refused what it asks.
pub struct Odd {
    site: OwnSite,
    hands: Hands,
    pages: (Layout, u32),
    habit: Habit,
    told: Told,
    refusals: u64,
    /// Whether a worker has asked for a plan, and the one that asked first.
    is_asked: bool,
    first: u32,
    is_back: bool,
    /// How often it was asked for the greatest cost.
    costs: AtomicU64,
    /// How often its book has refused a request for now.
    vain: u64,
}

/// What is left on a desk.
#[derive(Drop)]
pub struct Closed {
    pub left: Left,
    pub events: Journal,
    /// Whether what a worker waited for came back.
    pub is_back: bool,
    pub is_flushing: bool,
    /// How often a request was refused for now.
    pub vain: u64,
}

impl Odd {
    /// A desk with this book, which refuses room so many times.
    pub fn new(
        book: Book,
        hands: Hands,
        settings: &Settings,
        habit: Habit,
        told: Told,
        refusals: u64,
    ) -> Odd {
        Odd {
            site: OwnSite { book },
            hands,
            pages: (settings.layout(), settings.page_bytes()),
            habit,
            told,
            refusals,
            is_asked: false,
            first: 0,
            is_back: false,
            costs: AtomicU64::new(0),
            vain: 0,
        }
    }

    /// What is left, and the journal. The test fails where a worker's chair isn't there.
    pub fn close(self, rt: &impl Abort, case: &Case) -> Closed {
        let Odd {
            site: OwnSite { book },
            mut hands,
            pages: _,
            habit: _,
            told: _,
            refusals: _,
            is_asked: _,
            first: _,
            is_back,
            costs: _,
            vain,
        } = self;
        for worker in 0..case.workers {
            if !has_chair(rt, &mut hands, worker) {
                panic!(rt; "worker {worker} is not in its chair");
            }
        }
        let is_flushing = hands.flushing.is_some();
        let left = Left {
            over: book.next_possible().is_none(),
            dirty: book.dirty(),
            flushes: case.flushes,
        };
        Closed {
            left,
            events: book.close(hands),
            is_back,
            is_flushing,
            vain,
        }
    }

    /// Whether this worker is the one that asked first.
    fn is_first(&mut self, worker: u32) -> bool {
        if !self.is_asked {
            self.is_asked = true;
            self.first = worker;
        }
        self.first == worker
    }

    /// How the request is refused, if the desk refuses it by itself.
    fn refusal(&mut self, request: &Request) -> Option<Refusal> {
        match request {
            Request::Take(chair) => {
                let is_first = self.is_first(chair.worker());
                self.plan_refusal(is_first)
            }
            Request::Answer(returned) if returned.worker().is_none() => self.flush_refusal(),
            _ => None,
        }
    }

    /// How a worker is refused a plan.
    fn plan_refusal(&self, is_first: bool) -> Option<Refusal> {
        let waits = match self.habit {
            Habit::Room | Habit::None => false,
            Habit::Hand => is_first && !self.is_back,
            Habit::Flush => !is_first && !self.is_back,
        };
        if !waits {
            return None;
        }
        match self.told {
            Told::Move => Some(Refusal::NotNow(Delay::NoRoom)),
            Told::Page => Some(Refusal::OffPlan(Cause::NotDirty)),
        }
    }

    /// How the end of a flush is refused.
    fn flush_refusal(&self) -> Option<Refusal> {
        match self.habit {
            Habit::Flush => Some(Refusal::Stranger),
            _ => None,
        }
    }
}

/// Whether a request is refused for now.
fn is_delayed(answer: &BookAnswer) -> bool {
    matches!(answer, BookAnswer::No(_, Refusal::NotNow(_)))
}

/// Whether the worker's hand is there, and idle.
fn has_chair(rt: &impl Abort, hands: &mut Hands, worker: u32) -> bool {
    let Some(hand) = hands.part(worker) else {
        return false;
    };
    let is_idle = matches!(&hand.stage, Stage::Idle(_));
    match hands.join(hand) {
        Ok(()) => is_idle,
        Err(_) => panic!(rt; "the hand has no place"),
    }
}

impl Site for Odd {
    ghost use Rattle.pp_pool.specs.Replies.{Replies};

    ghost gives = { λ s request response t. Replies request response };

    ghost shows = { λ s guard before shown after. Unit {0} };

    ghost tells = { λ s most. Unit {0} };

    fn perform(&mut self, request: Request) -> Response {
        match self.refusal(&request) {
            Some(refusal) => Response {
                event: None,
                answer: BookAnswer::No(request, refusal),
            },
            None => {
                let response = self.site.perform(request);
                if is_delayed(&response.answer) {
                    self.vain = self.vain.saturating_add(1);
                }
                response
            }
        }
    }

    fn look(&mut self, guard: &ReadGuard, bytes: &mut [u8]) -> bool {
        self.site.look(guard, bytes)
    }

    fn most(&mut self) -> u64 {
        if self.costs.fetch_add(1, Ordering::SeqCst) < self.refusals {
            return u64::MAX;
        }
        self.site.most()
    }
}

impl Desk for Odd {
    ghost lends = { λ s. s.site.book.vault };

    fn vault(&self) -> &Vault {
        self.site.book.vault()
    }

    fn pages(&self) -> (Layout, u32) {
        self.pages
    }

    fn part(&mut self, worker: u32) -> Option<Hand> {
        self.hands.part(worker)
    }

    fn join(&mut self, hand: Hand) -> Result<(), Hand> {
        if let Habit::Hand = self.habit {
            self.is_back = true;
        }
        self.hands.join(hand)
    }

    fn join_flush(&mut self, flushing: Flushing) -> Result<(), Flushing> {
        if self.hands.flushing.is_some() {
            return Err(flushing);
        }
        if let Habit::Flush = self.habit {
            self.is_back = true;
        }
        match self.hands.flushing.replace(flushing) {
            None => Ok(()),
            Some(other) => Err(other),
        }
    }
}
