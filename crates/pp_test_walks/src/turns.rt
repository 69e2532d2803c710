//! Whose turn is next, plainly, what they do, and how many moves are left at most.

use crate::plain::{Plain, Stage, Worker};
use crate::words::Word;
use pp_core::{Move, Turn};
use pp_script::Cue;

/// The move that a cue asks, where it asks one that isn't of a device.
pub fn move_of(cue: Cue) -> Option<Move> {
    match cue {
        Cue::Take { worker } => Some(Move::Take { worker }),
        Cue::Fix { worker, page } => Some(Move::Fix { worker, page }),
        Cue::Unfix { worker } => Some(Move::Unfix { worker }),
        Cue::Latch { worker } => Some(Move::Latch { worker }),
        Cue::Unlatch { worker } => Some(Move::Unlatch { worker }),
        Cue::Choose { worker, branch } => Some(Move::Choose { worker, branch }),
        Cue::Unwind { worker, slot } => Some(Move::Unwind { worker, slot }),
        Cue::Finish { worker } => Some(Move::Finish { worker }),
        Cue::Flush { page } => Some(Move::FlushBegin { page }),
        _ => None,
    }
}

impl<'a> Plain<'a> {
    /// Whether the worker's plan asks a latch that isn't possible now.
    fn is_held_up(&self, worker: u32) -> bool {
        let Some(Word::Latch(slot, held)) = self.word(worker) else {
            return false;
        };
        match self.holding(worker, slot) {
            Some(holding) => self.is_latched(holding.page, held),
            None => true,
        }
    }

    /// The turn that the worker could have.
    fn turn_of(&self, worker: u32) -> Option<Turn> {
        match self.stage(worker)? {
            Stage::Writing { .. } | Stage::Reading { .. } => Some(Turn::Device(worker)),
            Stage::Leaving => Some(Turn::Act(worker)),
            Stage::Acting if !self.is_held_up(worker) => Some(Turn::Act(worker)),
            Stage::Idle if self.waiting() > 0 => Some(Turn::Take(worker)),
            _ => None,
        }
    }

    /// Whose turn is next, if anything is left to do: the device's for a worker, its for the flusher, a worker's in its
    /// plan, an idle worker's; of several workers the least one's.
    pub fn turn(&self) -> Option<Turn> {
        let (mut device, mut act, mut take) = (None, None, None);
        for worker in 0..self.crew {
            let turn = self.turn_of(worker);
            match turn {
                Some(Turn::Device(_)) => device = device.or(turn),
                Some(Turn::Act(_)) => act = act.or(turn),
                _ => take = take.or(turn),
            }
        }
        if device.is_none() && self.flush.is_some() {
            return Some(Turn::FlushDevice);
        }
        device.or(act).or(take)
    }

    /// A cue of the turn that is next.
    pub fn next_cue(&self) -> Option<Cue> {
        match self.turn()? {
            Turn::Device(worker) => Some(Cue::Device { worker }),
            Turn::FlushDevice => Some(Cue::FlushDevice),
            Turn::Take(worker) => Some(Cue::Take { worker }),
            Turn::Act(worker) => match self.stage(worker)? {
                Stage::Leaving => Some(self.leave(worker)),
                _ => Some(self.act(worker)),
            },
        }
    }

    /// The worker lets go of its least slot, or ends.
    pub fn leave(&self, worker: u32) -> Cue {
        for slot in 0..32 {
            if self.holding(worker, slot).is_some() {
                return Cue::Unwind { worker, slot };
            }
        }
        Cue::Finish { worker }
    }

    /// The first page of the region.
    pub fn first_page(&self, region: u8) -> u32 {
        match self.regions.get(usize::from(region)) {
            Some(extent) => extent.first,
            None => 0,
        }
    }

    /// The worker does what its plan asks, fixes first pages, and chooses first branches.
    pub fn act(&self, worker: u32) -> Cue {
        match self.word(worker) {
            Some(Word::Fix(_, region) | Word::Gather(_, region)) => {
                let page = self.first_page(region);
                Cue::Fix { worker, page }
            }
            Some(Word::Unfix(_) | Word::Scatter(_)) => Cue::Unfix { worker },
            Some(Word::Latch(_, _)) => Cue::Latch { worker },
            Some(Word::Unlatch(_)) => Cue::Unlatch { worker },
            Some(Word::Choice(_)) => Cue::Choose { worker, branch: 0 },
            None => Cue::Finish { worker },
        }
    }

    /// How many moves are left at most, where no plan has a choice.
    pub fn budget(&self) -> u64 {
        let flush = u64::from(self.flush.is_some());
        let mut budget = self.flushes_left.saturating_mul(2).saturating_add(flush);
        for plan in &self.queue {
            budget = budget.saturating_add(left(plan.words, 34));
        }
        for number in 0..self.crew {
            budget = budget.saturating_add(self.share(number));
        }
        budget
    }

    /// What the worker may still do.
    fn share(&self, number: u32) -> u64 {
        let Some(
            Worker {
                stage,
                left: words,
                ..
            },
        ) = self.worker(number)
        else {
            return 0;
        };
        match stage {
            Stage::Idle => 0,
            Stage::Acting => left(words, 33),
            Stage::Writing { .. } => left(words, 32),
            Stage::Reading { .. } => left(words, 31),
            Stage::Leaving => self.slots_held(number).saturating_add(1),
        }
    }

    /// How many of the worker's slots hold something. A bundle counts once, however many pins it has.
    fn slots_held(&self, worker: u32) -> u64 {
        let mut held = 0u64;
        for slot in 0..32 {
            if self.holding(worker, slot).is_some() {
                held = held.saturating_add(1);
            }
        }
        held
    }
}

/// Three moves for each statement that is left, and so many more.
fn left(words: &[Word], more: u64) -> u64 {
    (words.len() as u64).saturating_mul(3).saturating_add(more)
}
