//! Statements and bodies: a plan's syntax as a tree.

ghost use Rattle.std.specs.Prelude.{◌≡◌};

use crate::mode::Mode;
use std::marker::Model;

/// A statement of a plan. Slots and regions are numbers: a slot's is the place of its name among the
/// plan's slot names in byte order, a region's its place in the settings.
#[cycle(plan)]
#[derive(Debug, Drop)]
pub enum Stmt {
    /// Fixes a page of the region into the slot.
    Fix { slot: u8, region: u8 },
    /// Gives the slot's page back.
    Unfix { slot: u8 },
    /// Latches the slot's page.
    Latch { slot: u8, mode: Mode },
    /// Takes the latch off the slot's page.
    Unlatch { slot: u8 },
    /// Fixes one more page of the region into the bundle, a slot that pins several pages.
    Gather { slot: u8, region: u8 },
    /// Gives all pages of the bundle back.
    Scatter { slot: u8 },
    /// Does the body `count` times, 1 to 65,535.
    Loop { count: u16, body: Body },
    /// Does one of the branches, which the worker chooses.
    Choice { branches: Branches },
}

/// Statements, one after another.
#[cycle(plan)]
#[derive(Debug, Drop)]
pub struct Body {
    pub(crate) stmts: Vec<Stmt>,
}

/// The branches of a choice, 1 to 16; a branch may be empty.
#[cycle(plan)]
#[derive(Debug, Drop)]
pub struct Branches {
    pub(crate) bodies: Vec<Body>,
}

impl Model for Body {
    ghost use Rattle.pp_plan.specs.Tree.{Sequence, sequence_size};
    ghost use Rattle.pp_plan.specs.Coding.{coded_sequence};

    ghost Value = { Sequence };

    ghost coded = { coded_sequence };

    ghost use Rattle.pp_plan.specs.View.{sequence_of};

    ghost view = { λ a. sequence_of a.stmts.items };

    ghost size = { sequence_size };

    ghost use Rattle.std.proofs.Common.{arith};
    ghost use Rattle.pp_plan.specs.Falls.{most_le-sequence_size};

    ghost size_decreases = { λ a h. omega (arith, most_le-sequence_size a.stmts.items) };
}

impl Model for Branches {
    ghost use Rattle.pp_plan.specs.Tree.{Alternatives, alternatives_size};
    ghost use Rattle.pp_plan.specs.Coding.{coded_alternatives};

    ghost Value = { Alternatives };

    ghost coded = { coded_alternatives };

    ghost use Rattle.pp_plan.specs.View.{alternatives_of};

    ghost view = { λ a. alternatives_of a.bodies.items };

    ghost size = { alternatives_size };

    ghost use Rattle.std.proofs.Common.{arith};
    ghost use Rattle.pp_plan.specs.Falls.{most_le-alternatives_size};

    ghost size_decreases = { λ a h. omega (arith, most_le-alternatives_size a.bodies.items) };
}

impl Body {
    ghost use Rattle.pp_plan.specs.View.{sequence_of};

    /// The statements in order.
    pub fn stmts(&self) -> &[Stmt]
        ensures { sequence_of result.now ≡ self.now }
    {
        &self.stmts
    }
}

impl Branches {
    ghost use Rattle.pp_plan.specs.View.{alternatives_of};

    /// The branches in order.
    pub fn bodies(&self) -> &[Body]
        ensures { alternatives_of result.now ≡ self.now }
    {
        &self.bodies
    }
}
