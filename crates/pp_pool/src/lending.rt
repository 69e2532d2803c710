//! Lends a work the pages that are latched X.

ghost use Rattle.std.specs.Prelude.{◌≡◌, ◌⊎◌, true};
ghost use Rattle.pp_pool.specs.Lent.{writers_in};
ghost use Rattle.pp_pool.specs.Turns.{Reworks};

use crate::held::{Held, Loan, Room};
use crate::work::Work;
use pp_vault::Guards;
use std::marker::Brand;

/// Lends the work the pages that are latched X, before the latch of this slot comes off.
pub(crate) fn lend<W: Work>(guards: &mut Guards, room: Room, off: u8, work: &mut W) -> Room
    requires { room ≡ true }
    ensures reworks { Reworks W.Work off work.old guards.old guards.new work.new
        ⊎ ((work.new ≡ work.old) × (guards.new ≡ guards.old)) }
    ensures room { result ≡ true }
{
    lend_as::<Brand, W>(guards, room, off, work)
}

/// The same as a loan of its own.
fn lend_as<L: Loan, W: Work>(guards: &mut Guards, room: Room, off: u8, work: &mut W) -> Room
    requires room { room ≡ true }
    requires loan { L.began ≡ writers_in guards.old }
    ensures reworks { Reworks W.Work off work.old guards.old guards.new work.new
        ⊎ ((work.new ≡ work.old) × (guards.new ≡ guards.old)) }
    ensures room { result ≡ true }
{
    let mut held: Held<L> = Held::out_of(guards, room);
    work.rework(off, &mut held);
    held.into(guards)
}
