//! Whether a body scatters a bundle.

ghost use Rattle.std.specs.Prelude.{◌≡◌};
ghost use Rattle.pp_plan.specs.View.{statement_of};
ghost use Rattle.pp_plan.specs.Tree.{scatters, statement_scatters, branches_scatter};

use pp_plan::{Body, Branches, Stmt};

/// Whether the body scatters the bundle, itself or in a body inside it.
///
/// It takes no memory.
#[cycle(scatters)]
#[tactic(auto, using(crate::proofs::Rules::walks))]
pub fn scatters(body: &Body, slot: u8) -> bool
    ensures { result ≡ scatters body.now slot }
{
    for stmt in body.stmts() {
        if stmt_scatters(stmt, slot) {
            return true;
        }
    }
    false
}

/// Whether the statement scatters the bundle, or one inside it does.
#[cycle(scatters)]
#[tactic(auto, using(crate::proofs::Rules::walks))]
fn stmt_scatters(stmt: &Stmt, slot: u8) -> bool
    ensures { result ≡ statement_scatters (statement_of stmt.now) slot }
{
    match stmt {
        Stmt::Fix { .. }
        | Stmt::Unfix { .. }
        | Stmt::Latch { .. }
        | Stmt::Unlatch { .. }
        | Stmt::Gather { .. } => false,
        Stmt::Scatter { slot: of } => *of == slot,
        Stmt::Loop { body, .. } => scatters(body, slot),
        Stmt::Choice { branches } => branches_scatter(branches, slot),
    }
}

/// Whether one of the branches scatters the bundle.
#[cycle(scatters)]
#[tactic(auto, using(crate::proofs::Rules::walks))]
fn branches_scatter(branches: &Branches, slot: u8) -> bool
    ensures { result ≡ branches_scatter branches.now slot }
{
    for body in branches.bodies() {
        if scatters(body, slot) {
            return true;
        }
    }
    false
}
