//! Sets of bells, each a bit of one word.

ghost use Rattle.std.specs.Prelude.{◌≡◌, ℕ, ◌<◌, true};
ghost use Rattle.pp_settings.specs.Limits.{bell_count};
ghost use Rattle.pp_wants.specs.Masks.{has_bell, bell_of};

use pp_settings::limits::BELLS;

/// The worker's bell. Workers whose numbers are 32 apart share one: a bell that is rung for nothing does no harm, since who
/// wakes asks again.
pub fn bell_of(worker: u32) -> u32
    ensures is { result ≡ bell_of worker }
    ensures low { result < bell_count }
{
    worker % BELLS
}

/// The set with this bell.
pub(crate) fn with_bell(mask: u32, bell: u32) -> u32
    requires { bell < bell_count }
    ensures here { has_bell result bell ≡ true }
    ensures others { (b : ℕ) → ¬ (b ≡ bell) → has_bell result b ≡ has_bell mask b }
{
    mask | (1 << bell)
}
