//! The length of the longest trace.

ghost use Rattle.std.specs.Prelude.{◌≡◌, min};
ghost use Rattle.pp_plan.specs.View.{statement_of, sequence_of, alternatives_of};
ghost use Rattle.pp_cert.specs.Limits.{counted};
ghost use Rattle.pp_cert.specs.Longest.{statement_longest, sequence_longest, alternatives_longest, IsLongest};

use crate::limits::COUNTED;
use pp_plan::{Body, Branches, Plan, Stmt};

/// The most actions of a trace of the plan, or 1,000,001 if there are more.
///
/// What it does grows with the statements of the plan, not with the turns of its loops.
pub fn longest_trace(plan: &Plan) -> u64
    ensures counted { result ≡ min (sequence_longest plan.now.body) counted }
    // What is counted is the length of the longest trace.
    ensures longest { IsLongest plan.now.layout plan.now.body (sequence_longest plan.now.body) }
{
    longest(plan.body())
}

/// The most actions of a trace of the statements, or `COUNTED` if there are more.
#[cycle(longest)]
#[tactic(auto, using(crate::proofs::Rules::walks))]
pub(crate) fn longest(stmts: &[Stmt]) -> u64
    ensures { result ≡ min (sequence_longest (sequence_of stmts.now)) counted }
{
    let mut sum = 0;
    for stmt in stmts {
        sum = (sum + longest_of_stmt(stmt)).min(COUNTED);
    }
    sum
}

/// The most actions of a trace of one statement, or `COUNTED`.
#[cycle(longest)]
#[tactic(auto, using(crate::proofs::Rules::walks))]
fn longest_of_stmt(stmt: &Stmt) -> u64
    ensures { result ≡ min (statement_longest (statement_of stmt.now)) counted }
{
    match stmt {
        Stmt::Fix { .. }
        | Stmt::Unfix { .. }
        | Stmt::Latch { .. }
        | Stmt::Unlatch { .. }
        | Stmt::Gather { .. }
        | Stmt::Scatter { .. } => 1,
        Stmt::Loop { count, body } => (u64::from(*count) * longest_of_body(body)).min(COUNTED),
        Stmt::Choice { branches } => (1 + longest_of_branches(branches)).min(COUNTED),
    }
}

/// The most actions of a trace of a body, or `COUNTED`.
#[cycle(longest)]
#[tactic(auto, using(crate::proofs::Rules::walks))]
fn longest_of_body(body: &Body) -> u64
    ensures { result ≡ min (sequence_longest body.now) counted }
{
    longest(body.stmts())
}

/// The most actions of a trace of one of the branches, or `COUNTED`.
#[cycle(longest)]
#[tactic(auto, using(crate::proofs::Rules::walks))]
fn longest_of_branches(branches: &Branches) -> u64
    ensures { result ≡ min (alternatives_longest branches.now) counted }
{
    let mut most = 0;
    for body in branches.bodies() {
        most = longest_of_body(body).max(most);
    }
    most
}
