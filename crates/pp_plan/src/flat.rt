//! A plan's statements as one flat list of steps, so that a cursor goes on without a walk from the plan's top.

ghost use Rattle.std.specs.Prelude.{◌≡◌, ◌++◌, ◌∷◌, [], ◌+◌, IfOk, OnOk};
ghost use Rattle.pp_plan.specs.View.{statement_of, sequence_of, alternatives_of};
ghost use Rattle.pp_plan.specs.Tree.{loop, choice, branch_count};
ghost use Rattle.pp_plan.specs.FlatList.{near, row, choosing, starts, flat_statement, flat, flat_branches, flat_body};
ghost use Rattle.pp_plan.specs.FlatList.{statement_steps, sequence_steps, alternatives_steps};
ghost use Rattle.pp_plan.specs.declared.flat.Next.TheVariants.{Asks};

use crate::action::Ask;
use crate::stmt::{Body, Branches, Stmt};
use std::alloc::{AllocError, Global};

/// What is next at a step.
#[derive(Clone, Copy, Debug)]
pub enum Next {
    /// A loop of so many turns, which is entered.
    Enter(u16),
    /// The end of a body inside another, which is left.
    Leave,
    /// What the plan asks: an action, or the end.
    Asks(Ask),
}

/// A step of the list. Loops and choices have further ones: a choice is followed by one for each branch, which tells
/// how far on the branch begins, and behind each body stands one that leaves it.
#[derive(Clone, Copy, Debug)]
pub struct FlatStep {
    /// What is next here.
    pub next: Next,
    /// Where a statement begins, how many steps it comes to; where a body is left, how far back its statement begins.
    pub reach: u32,
}

/// The statements of a body, and behind them the end.
///
/// # Errors
///
/// `AllocError` where memory runs out.
pub(crate) fn flat_body(alloc: Global, body: &Body) -> Result<Vec<FlatStep>, AllocError>
    ensures { IfOk result (λ steps. steps.items ≡ flat_body body.now) }
{
    let mut steps = Vec::new(alloc);
    push_stmts(body.stmts(), &mut steps)?;
    steps.push(FlatStep {
        next: Next::Asks(Ask::End),
        reach: 1,
    })?;
    Ok(steps)
}

/// Puts the steps of the statements behind the others.
#[cycle(flat)]
#[tactic(auto, using(crate::proofs::Flattening::flattens))]
fn push_stmts(stmts: &[Stmt], steps: &mut Vec<FlatStep>) -> Result<(), AllocError>
    ensures { OnOk result (steps.new.items ≡ steps.old.items ++ flat (sequence_of stmts.now)) }
{
    for stmt in stmts {
        push_stmt(stmt, steps)?;
    }
    Ok(())
}

/// The same of one statement.
#[cycle(flat)]
#[tactic(auto, using(crate::proofs::Flattening::flattens))]
fn push_stmt(stmt: &Stmt, steps: &mut Vec<FlatStep>) -> Result<(), AllocError>
    ensures { OnOk result (steps.new.items ≡ steps.old.items ++ flat_statement (statement_of stmt.now)) }
{
    match stmt {
        Stmt::Fix { slot, region } => push_ask(
            steps,
            Ask::Fix {
                slot: *slot,
                region: *region,
            },
        ),
        Stmt::Unfix { slot } => push_ask(steps, Ask::Unfix { slot: *slot }),
        Stmt::Latch { slot, mode } => push_ask(
            steps,
            Ask::Latch {
                slot: *slot,
                mode: *mode,
            },
        ),
        Stmt::Unlatch { slot } => push_ask(steps, Ask::Unlatch { slot: *slot }),
        Stmt::Gather { slot, region } => push_ask(
            steps,
            Ask::Gather {
                slot: *slot,
                region: *region,
            },
        ),
        Stmt::Scatter { slot } => push_ask(steps, Ask::Scatter { slot: *slot }),
        Stmt::Loop { count, body } => push_loop(*count, body, steps),
        Stmt::Choice { branches } => push_choice(branches, steps),
    }
}

/// A step that asks.
fn push_ask(steps: &mut Vec<FlatStep>, ask: Ask) -> Result<(), AllocError>
    ensures { OnOk result (steps.new.items ≡ steps.old.items ++ row (Asks ask) 1 ∷ []) }
{
    steps.push(FlatStep {
        next: Next::Asks(ask),
        reach: 1,
    })?;
    Ok(())
}

/// A loop, its body, and the step that leaves it.
#[cycle(flat)]
#[tactic(auto, using(crate::proofs::Flattening::flattens))]
fn push_loop(count: u16, body: &Body, steps: &mut Vec<FlatStep>) -> Result<(), AllocError>
    ensures { OnOk result (steps.new.items ≡ steps.old.items ++ flat_statement (loop count body.now)) }
{
    let inside = steps_of_body(body);
    steps.push(FlatStep {
        next: Next::Enter(count),
        reach: inside.saturating_add(2),
    })?;
    push_stmts(body.stmts(), steps)?;
    steps.push(FlatStep {
        next: Next::Leave,
        reach: inside.saturating_add(1),
    })?;
    Ok(())
}

/// A choice, where its branches begin, and the branches.
#[cycle(flat)]
#[tactic(auto, using(crate::proofs::Flattening::flattens))]
fn push_choice(branches: &Branches, steps: &mut Vec<FlatStep>) -> Result<(), AllocError>
    ensures { OnOk result (steps.new.items ≡ steps.old.items ++ flat_statement (choice branches.now)) }
{
    let count = count_of(branches);
    steps.push(FlatStep {
        next: choosing(branches),
        reach: steps_of_choice(branches),
    })?;
    push_starts(count, branches.bodies(), steps)?;
    push_branches(count, branches.bodies(), steps)
}

/// What a choice asks.
#[tactic(auto, using(crate::proofs::Flattening::flattens))]
fn choosing(branches: &Branches) -> Next
    ensures { result ≡ choosing (branch_count branches.now) }
{
    let count = u16::try_from(branches.bodies().len()).unwrap_or(u16::MAX);
    Next::Asks(Ask::Choose { branches: count })
}

/// How many branches, or the greatest number of the type.
#[tactic(auto, using(crate::proofs::Flattening::flattens))]
fn count_of(branches: &Branches) -> u32
    ensures { result ≡ near (branch_count branches.now) }
{
    u32::try_from(branches.bodies().len()).unwrap_or(u32::MAX)
}

/// Where the branches begin, the first of them so far on.
#[tactic(auto, using(crate::proofs::Flattening::flattens))]
fn push_starts(first: u32, bodies: &[Body], steps: &mut Vec<FlatStep>) -> Result<(), AllocError>
    ensures { OnOk result (steps.new.items ≡ steps.old.items ++ starts first (alternatives_of bodies.now)) }
{
    let mut on = first;
    for body in bodies {
        steps.push(FlatStep {
            next: Next::Leave,
            reach: on,
        })?;
        on = on.saturating_add(steps_of_body(body));
    }
    Ok(())
}

/// The branches, the first of them so far behind the choice, and behind each the step that leaves it.
#[cycle(flat)]
#[tactic(auto, using(crate::proofs::Flattening::flattens))]
fn push_branches(behind: u32, bodies: &[Body], steps: &mut Vec<FlatStep>) -> Result<(), AllocError>
    ensures { OnOk result (steps.new.items ≡ steps.old.items ++ flat_branches behind (alternatives_of bodies.now)) }
{
    let mut back = behind;
    for body in bodies {
        push_stmts(body.stmts(), steps)?;
        back = back.saturating_add(steps_of_body(body)).saturating_add(1);
        steps.push(FlatStep {
            next: Next::Leave,
            reach: back,
        })?;
    }
    Ok(())
}

/// How many steps the body comes to, or the greatest number of the type.
#[cycle(sizes)]
#[tactic(auto, using(crate::proofs::Flattening::flattens))]
fn steps_of_body(body: &Body) -> u32
    ensures { result ≡ near (sequence_steps body.now) }
{
    let mut sum = 0u32;
    for stmt in body.stmts() {
        sum = sum.saturating_add(steps_of_stmt(stmt));
    }
    sum
}

/// The same of a statement.
#[cycle(sizes)]
#[tactic(auto, using(crate::proofs::Flattening::flattens))]
fn steps_of_stmt(stmt: &Stmt) -> u32
    ensures { result ≡ near (statement_steps (statement_of stmt.now)) }
{
    match stmt {
        Stmt::Loop { body, .. } => steps_of_body(body).saturating_add(2),
        Stmt::Choice { branches } => steps_of_choice(branches),
        Stmt::Fix { .. }
        | Stmt::Unfix { .. }
        | Stmt::Latch { .. }
        | Stmt::Unlatch { .. }
        | Stmt::Gather { .. }
        | Stmt::Scatter { .. } => 1,
    }
}

/// The same of a choice.
#[cycle(sizes)]
#[tactic(auto, using(crate::proofs::Flattening::flattens))]
fn steps_of_choice(branches: &Branches) -> u32
    ensures { result ≡ near (statement_steps (choice branches.now)) }
{
    steps_of_branches(branches)
        .saturating_add(count_of(branches))
        .saturating_add(1)
}

/// The same of branches, each with the step behind it.
#[cycle(sizes)]
#[tactic(auto, using(crate::proofs::Flattening::flattens))]
fn steps_of_branches(branches: &Branches) -> u32
    ensures { result ≡ near (alternatives_steps branches.now) }
{
    let mut sum = 0u32;
    for body in branches.bodies() {
        sum = sum.saturating_add(steps_of_body(body)).saturating_add(1);
    }
    sum
}
