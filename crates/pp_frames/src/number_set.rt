//! A set of numbers below a limit, in which the least member from a number on is found in a few steps.

ghost use Rattle.std.specs.Prelude.{◌≡◌, ◌<◌, ◌*◌, ◌+◌, ◌&&◌, Bool, true, false, IfOk, length, replicate, slice_set};
ghost use Rattle.std.specs.Prelude.{nat_le};
ghost use Rattle.pp_frames.specs.Least.{least_below};

use crate::word;
use std::alloc::{AllocError, Global};
use std::marker::Model;

/// A set of numbers below a limit.
///
/// It keeps a bit for each number, 64 to a word, and above these a smaller set: of the words that have a bit. So a
/// search passes over 64 words at once, over 4,096 on the next level, and so on. Two levels serve 4,096 numbers,
/// three serve 262,144, and six serve all of `u32`.
#[cycle(number_set)]
#[derive(Drop)]
pub struct NumberSet {
    limit: u32,
    /// Number n is bit n % 64 of word n / 64.
    words: Vec<u64>,
    above: Above,
}

/// The next level, if there is more than one word.
#[cycle(number_set)]
#[derive(Drop)]
enum Above {
    Nothing,
    /// The set of the words that have a bit.
    Words(Box<NumberSet>),
}

impl Model for NumberSet {
    ghost use Rattle.std.specs.Prelude.{List, Bool, length};

    ghost Value = { List Bool };

    ghost use Rattle.pp_frames.specs.Words.{members_of, IsSpelled, IsSummed};

    ghost view = { λ s. members_of s.limit s.words.items };

    ghost invariant = { λ s. IsSpelled s.limit s.words.items × IsSummed s.limit s.words.items s.above };

    ghost size = { length };

    ghost use Rattle.pp_frames.specs.WordsFall.{depth_falls};

    ghost size_decreases = { λ s h. depth_falls s.limit s.words.items s.above h.1 };
}

impl NumberSet {
    ghost use Rattle.pp_frames.specs.Numbers.{is_member, least_from};
    ghost use Rattle.pp_frames.specs.Words.{members_of, IsSpelled, IsSummed};

    /// The set of no number below this limit.
    ///
    /// # Errors
    ///
    /// Only where the memory can't be had.
    pub fn new(alloc: Global, limit: u32) -> Result<NumberSet, AllocError>
        ensures { IfOk result (λ set. set ≡ replicate limit false) }
    {
        let count = limit.div_ceil(word::BITS);
        let words = word::no_bits(alloc, count)?;
        if count <= 1 {
            return Ok(NumberSet::of(limit, words, Above::Nothing));
        }
        let above = Box::new(alloc, NumberSet::new(alloc, count)?)?;
        Ok(NumberSet::of(limit, words, Above::Words(above)))
    }

    /// The set of all numbers below this limit.
    ///
    /// # Errors
    ///
    /// Only where the memory can't be had.
    pub fn full(alloc: Global, limit: u32) -> Result<NumberSet, AllocError>
        ensures { IfOk result (λ set. set ≡ replicate limit true) }
    {
        let mut set = NumberSet::new(alloc, limit)?;
        for number in 0..limit {
            set.insert(number);
        }
        Ok(set)
    }

    /// The set that these words spell.
    fn of(limit: u32, words: Vec<u64>, above: Above) -> NumberSet
        requires spelled { IsSpelled limit words.items }
        requires summed { IsSummed limit words.items above }
        ensures { result ≡ members_of limit words.items }
    {
        NumberSet {
            limit,
            words,
            above,
        }
    }

    /// Every number that may be a member is below this one.
    pub fn limit(&self) -> u32
        ensures { result ≡ length self.now }
    {
        self.limit
    }

    /// Whether the number is a member. One from the limit on is none.
    pub fn contains(&self, number: u32) -> bool
        ensures { result ≡ is_member self.now number }
    {
        number < self.limit
            && word::has_bit(
                self.words[(number / word::BITS) as usize],
                number % word::BITS,
            )
    }

    /// Makes the number a member.
    pub fn insert(&mut self, number: u32)
        requires { number < length self.old }
        ensures { self.new ≡ slice_set self.old number true }
    {
        let place = number / word::BITS;
        let old = self.words[place as usize];
        self.words[place as usize] = word::with_bit(old, number % word::BITS);
        if old == 0 {
            if let Above::Words(words) = &mut self.above {
                words.insert(place);
            }
        }
    }

    /// Makes the number none of the members.
    pub fn remove(&mut self, number: u32)
        requires { number < length self.old }
        ensures { self.new ≡ slice_set self.old number false }
    {
        let place = number / word::BITS;
        let left = word::without_bit(self.words[place as usize], number % word::BITS);
        self.words[place as usize] = left;
        if left == 0 {
            if let Above::Words(words) = &mut self.above {
                words.remove(place);
            }
        }
    }

    /// Makes the number a member, or none.
    pub fn put(&mut self, number: u32, is: bool)
        requires { number < length self.old }
        ensures { self.new ≡ slice_set self.old number is }
    {
        if is {
            self.insert(number);
        } else {
            self.remove(number);
        }
    }

    /// The least member of this word from this bit on, if it has one.
    fn least_in_word(&self, place: u32, from: u32) -> Option<u32>
        requires word { 64 * place < length self.now }
        requires bit { from < 64 }
        ensures { result ≡ least_below (λ k. nat_le (64 * place + from) k && is_member self.now k) (64 * place + 64) }
    {
        let bit = word::least_bit(self.words[place as usize], from)?;
        Some(word::BITS * place + bit)
    }

    /// The least member from this number on, if there is one.
    pub fn least_from(&self, from: u32) -> Option<u32>
        ensures { result ≡ least_from self.now from }
    {
        if from >= self.limit {
            return None;
        }
        let place = from / word::BITS;
        if let Some(number) = self.least_in_word(place, from % word::BITS) {
            return Some(number);
        }
        match &self.above {
            Above::Nothing => None,
            Above::Words(words) => self.least_in_word(words.least_from(place + 1)?, 0),
        }
    }
}
