//! The bits of one word of 64: the numbers below 64 that it has.

ghost use Rattle.std.specs.Prelude.{◌≡◌, ℕ, ◌<◌, ◌≤◌, ◌&&◌, true, false, nat_le, IfOk, replicate};
ghost use Rattle.pp_frames.specs.Least.{FirstBelow};
ghost use Rattle.pp_frames.specs.Words.{has_bit};

use std::alloc::{AllocError, Global};

/// How many bits a word has: as many as the processor tests at once.
pub(crate) const BITS: u32 = 64;

/// So many words, of which none has a bit.
pub(crate) fn no_bits(alloc: Global, count: u32) -> Result<Vec<u64>, AllocError>
    ensures { IfOk result (λ words. words.items ≡ replicate count 0) }
{
    vec![in alloc; 0; count as usize]
}

/// Whether the word has this bit.
pub(crate) fn has_bit(word: u64, bit: u32) -> bool
    requires { bit < 64 }
    ensures { result ≡ has_bit word bit }
{
    (word >> bit) & 1 == 1
}

/// The word with this bit.
pub(crate) fn with_bit(word: u64, bit: u32) -> u64
    requires { bit < 64 }
    ensures here { has_bit result bit ≡ true }
    ensures others { (k : ℕ) → ¬ (k ≡ bit) → has_bit result k ≡ has_bit word k }
{
    word | (1 << bit)
}

/// The word without this bit.
pub(crate) fn without_bit(word: u64, bit: u32) -> u64
    requires { bit < 64 }
    ensures here { has_bit result bit ≡ false }
    ensures others { (k : ℕ) → k < 64 → ¬ (k ≡ bit) → has_bit result k ≡ has_bit word k }
    ensures no_more { result ≤ word }
{
    word & !(1 << bit)
}

/// The least bit of the word from this one on, if it has one.
pub(crate) fn least_bit(word: u64, from: u32) -> Option<u32>
    requires { from < 64 }
    ensures first { FirstBelow (λ k. nat_le from k && has_bit word k) 64 result }
{
    let onward = word & (u64::MAX << from);
    if onward == 0 {
        None
    } else {
        Some(onward.trailing_zeros())
    }
}
