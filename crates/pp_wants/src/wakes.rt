//! Whose bells have to be rung.

ghost use Rattle.std.specs.Prelude.{◌≡◌, ℕ, ◌||◌};
ghost use Rattle.pp_wants.specs.Masks.{has_bell};

use std::marker::Model;

/// The bells that have to be rung, since workers were told to go on whose bells they are ([`bell_of`](crate::bell_of)).
/// Contracts see the set as a number: bell b is in it where bit b is 1. Of 32 workers or fewer each has a bell of its own.
///
/// The compiler refuses code that lets it fall: only [`Wakes::into_mask`] spends it.
#[derive(Debug)]
pub struct Wakes {
    mask: u32,
}

impl Model for Wakes {
    ghost use Rattle.std.specs.Prelude.{ℕ, ◌<◌, ◌^◌};

    ghost Value = { ℕ };

    ghost view = { λ a. a.mask };

    ghost invariant = { λ a. a.mask < 2 ^ 32 };
}

impl Wakes {
    /// No bell has to be rung.
    pub fn none() -> Wakes
        ensures { result ≡ 0 }
    {
        Wakes { mask: 0 }
    }

    /// The bells of this set.
    pub(crate) fn of(mask: u32) -> Wakes
        ensures { result ≡ mask }
    {
        Wakes { mask }
    }

    /// Those of both.
    pub fn and(self, other: Wakes) -> Wakes
        ensures { (b : ℕ) → has_bell result b ≡ (has_bell self b || has_bell other b) }
    {
        Wakes {
            mask: self.into_mask() | other.into_mask(),
        }
    }

    /// Takes it apart: the bells that the caller now has to ring. Bell b is one of them where bit b is 1.
    pub fn into_mask(self) -> u32
        ensures { result ≡ self }
    {
        let Wakes { mask } = self;
        mask
    }
}
