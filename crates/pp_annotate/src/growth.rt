//! By how much a body raises the bound of a bundle.

ghost use Rattle.std.specs.Prelude.{◌≡◌, min};
ghost use Rattle.pp_plan.specs.View.{statement_of, sequence_of};
ghost use Rattle.pp_annotate.specs.Growth.{statement_growth, growth, first_growth, rise, risen};

use pp_cert::scatters;
use pp_plan::{Body, Branches, Stmt};

/// So many pages, or `stop` if there are more.
fn counted(pages: u64, stop: u32) -> u64
    ensures { result ≡ min pages stop }
{
    pages.min(u64::from(stop))
}

/// How many pages the statements add to a bundle that they nowhere scatter, or `stop` if there are more.
#[cycle(growth)]
#[tactic(auto, using(crate::proofs::Walk::walks))]
fn growth(stmts: &[Stmt], slot: u8, stop: u32) -> u64
    ensures { result ≡ min (growth (sequence_of stmts.now) slot) stop }
{
    let mut sum = 0;
    for stmt in stmts {
        sum = counted(sum + growth_of_stmt(stmt, slot, stop), stop);
    }
    sum
}

/// How many pages one statement adds to such a bundle, or `stop`.
#[cycle(growth)]
#[tactic(auto, using(crate::proofs::Walk::walks, crate::proofs::Stops::times_counted))]
fn growth_of_stmt(stmt: &Stmt, slot: u8, stop: u32) -> u64
    ensures { result ≡ min (statement_growth (statement_of stmt.now) slot) stop }
{
    match stmt {
        Stmt::Gather { slot: of, .. } => counted(u64::from(*of == slot), stop),
        Stmt::Loop { count, body } => {
            counted(u64::from(*count) * growth_of_body(body, slot, stop), stop)
        }
        Stmt::Choice { branches } => growth_of_first(branches, slot, stop),
        Stmt::Fix { .. }
        | Stmt::Unfix { .. }
        | Stmt::Latch { .. }
        | Stmt::Unlatch { .. }
        | Stmt::Scatter { .. } => 0,
    }
}

/// How many pages a body adds to such a bundle, or `stop`.
#[cycle(growth)]
#[tactic(auto, using(crate::proofs::Walk::walks))]
fn growth_of_body(body: &Body, slot: u8, stop: u32) -> u64
    ensures { result ≡ min (growth body.now slot) stop }
{
    growth(body.stmts(), slot, stop)
}

/// How many pages the first branch adds to such a bundle, or `stop`.
#[cycle(growth)]
#[tactic(auto, using(crate::proofs::Walk::walks))]
fn growth_of_first(branches: &Branches, slot: u8, stop: u32) -> u64
    ensures { result ≡ min (first_growth branches.now slot) stop }
{
    match branches.bodies().split_first() {
        Some((first, _)) => growth_of_body(first, slot, stop),
        None => 0,
    }
}

/// The bound at the first place of the body of a loop of so many turns, where it is `before` just before the loop, or
/// `stop`.
#[tactic(auto, using(crate::proofs::Stops::rise_counted))]
pub(crate) fn first_bound(turns: u16, body: &Body, slot: u8, before: u32, stop: u32) -> u32
    ensures { result ≡ risen stop before (rise turns body.now slot) }
{
    let mut rise = 0;
    if !scatters(body, slot) {
        rise = u64::from(turns.saturating_sub(1)) * growth_of_body(body, slot, stop);
    }
    counted(u64::from(before) + rise, stop) as u32
}
