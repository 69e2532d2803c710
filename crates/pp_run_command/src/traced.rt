//! The work of a run whose choices are given.

ghost use Rattle.std.specs.Prelude.{◌≡◌, ◌+◌, ◌<◌, ◌≤◌, is_some};
ghost use Rattle.pp_settings.specs.Limits.{page_numbers};
ghost use Rattle.pp_run_command.specs.Choices.{after_traced, new_rounds, next_number, raised, traced};

use crate::rounds::{Rounds, raise_first};
use pp_pool::Work;
use std::sync::atomic::{AtomicU64, Ordering};

/// How the choices are made that plans leave open.
#[derive(Drop)]
pub struct Choices<'a> {
    /// Where they begin, as [`Rounds`] has it.
    pub seed: u32,
    /// The numbers that each worker takes, by the workers' numbers, where they are given.
    pub trace: Option<&'a [Vec<u32>]>,
    /// How many choices were made by the seed although numbers are given.
    pub missed: AtomicU64,
}

impl<'a> Choices<'a> {
    /// The choices that this seed makes, but for those that are given.
    pub fn new(seed: u32, trace: Option<&'a [Vec<u32>]>) -> Choices<'a>
        ensures seed { result.seed ≡ seed }
        ensures trace { result.trace ≡ trace.entry }
    {
        Choices {
            seed,
            trace,
            missed: AtomicU64::new(0),
        }
    }

    /// How many choices were made by the seed, where numbers are given.
    pub fn missed_of_given(&self) -> Option<u64>
        ensures { is_some result ≡ is_some self.now.trace }
    {
        match self.trace {
            Some(_) => Some(self.missed.load(Ordering::SeqCst)),
            None => None,
        }
    }
}

/// The work of one worker whose choices are given.
///
/// Its k-th choice, pages and branches together and k from 0, takes the k-th number: the page with this number, or this
/// branch. Where there is no such number, or no such page or branch may be chosen, it takes what [`Rounds`] takes there,
/// and counts that. With pages it does what [`Rounds`] does.
#[derive(Drop)]
pub struct Traced<'a> {
    rounds: Rounds,
    numbers: &'a [u32],
    missed: &'a AtomicU64,
}

impl<'a> Traced<'a> {
    /// The work of the worker with this number, which made no choice yet.
    pub fn new(seed: u32, worker: u32, numbers: &'a [u32], missed: &'a AtomicU64) -> Traced<'a>
        ensures rounds { result.rounds ≡ new_rounds seed worker }
        ensures numbers { result.numbers ≡ numbers.entry }
    {
        Traced {
            rounds: Rounds::new(seed, worker),
            numbers,
            missed,
        }
    }

    /// The number that is given for the next choice.
    fn next_number(&self) -> Option<u32>
        ensures { result ≡ next_number self.now }
    {
        self.numbers.get(self.rounds.made() as usize).copied()
    }

    /// The next choice among `count` numbers from `first` on.
    fn choose(&mut self, first: u32, count: u32) -> u32
        requires some { 1 ≤ count }
        requires ends { first + count ≤ page_numbers }
        ensures number { result ≡ traced self.old first count }
        ensures from { first ≤ result }
        ensures below { result < first + count }
        ensures after { self.new ≡ after_traced self.old }
    {
        let number = self.next_number();
        let otherwise = first + self.rounds.choose(count);
        match number {
            Some(number) if first <= number && number < first + count => number,
            _ => {
                self.missed.fetch_add(1, Ordering::SeqCst);
                otherwise
            }
        }
    }
}

impl Work for Traced<'_> {
    ghost page_gives = { λ work region first count page after.
        (page ≡ traced work first count) × (after ≡ after_traced work) };

    ghost branch_gives = { λ work count branch after. (branch ≡ traced work 0 count) × (after ≡ after_traced work) };

    ghost reach_gives = { λ work bytes. bytes ≡ 0 };

    ghost change_leaves = { λ work page before left after. (left ≡ raised before) × (after ≡ work) };

    ghost see_leaves = { λ work page mark image after. after ≡ work };

    fn page(&mut self, _region: u8, first: u32, count: u32) -> u32 {
        self.choose(first, count)
    }

    fn branch(&mut self, count: u16) -> u16 {
        self.choose(0, u32::from(count)) as u16
    }

    fn change(&mut self, _page: u32, body: &mut [u8]) {
        raise_first(body);
    }

    // It looks at nothing.
    fn reach(&self) -> usize {
        0
    }

    fn see(&mut self, _page: u32, _mark: u64, _image: &[u8]) {}
}
