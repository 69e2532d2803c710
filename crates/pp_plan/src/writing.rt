//! Writes a plan as JSON.

ghost use Rattle.std.specs.Prelude.{◌≡◌, IfOk, length};
ghost use Rattle.serde_json.specs.Data.{array, object};
ghost use Rattle.serde_json.specs.View.{view, items_of};
ghost use Rattle.pp_settings.specs.Settings.{geometry_of};
ghost use Rattle.pp_plan.specs.View.{statement_of};
ghost use Rattle.pp_plan.specs.Rules.{IsStatement, IsSequence, AreAlternatives};
ghost use Rattle.pp_plan.specs.Terms.{IsPlan};
ghost use Rattle.pp_plan.specs.Spelling.{letter_of};
ghost use Rattle.pp_plan.specs.Values.{statement_value, statement_values, branch_values, plan_members};

use crate::mode::Mode;
use crate::plan::Plan;
use crate::stmt::{Body, Branches, Stmt};
use pp_settings::Settings;
use serde_json::{Value, json};
use std::alloc::{AllocError, Global};

/// The letter that stands for the mode.
fn letter_of(mode: Mode) -> &'static str
    ensures { result.now ≡ letter_of mode }
{
    match mode {
        Mode::S => "S",
        Mode::X => "X",
    }
}

/// The JSON value that is written for the statement.
#[cycle(writing)]
fn statement_value(
    alloc: Global,
    settings: &Settings,
    plan: &Plan,
    stmt: &Stmt,
) -> Result<Value, AllocError>
    requires { IsStatement (length plan.now.slots) (length settings.now.regions) (statement_of stmt.now) }
    ensures { IfOk result (λ v. view v ≡ statement_value settings.now plan.now.slots (statement_of stmt.now)) }
{
    match stmt {
        Stmt::Fix { slot, region } => {
            json!(in alloc; {"fix": plan.slot_name(*slot), "region": settings.name(*region)})
        }
        Stmt::Unfix { slot } => json!(in alloc; {"unfix": plan.slot_name(*slot)}),
        Stmt::Latch { slot, mode } => {
            json!(in alloc; {"latch": plan.slot_name(*slot), "mode": letter_of(*mode)})
        }
        Stmt::Unlatch { slot } => json!(in alloc; {"unlatch": plan.slot_name(*slot)}),
        Stmt::Gather { slot, region } => {
            json!(in alloc; {"gather": plan.slot_name(*slot), "region": settings.name(*region)})
        }
        Stmt::Scatter { slot } => json!(in alloc; {"scatter": plan.slot_name(*slot)}),
        Stmt::Loop { count, body } => {
            let body = body_value(alloc, settings, plan, body)?;
            json!(in alloc; {"body": body, "loop": *count})
        }
        Stmt::Choice { branches } => {
            let branches = branches_value(alloc, settings, plan, branches)?;
            json!(in alloc; {"choice": branches})
        }
    }
}

/// The list that is written for the body: one value for each statement, in order.
#[cycle(writing)]
fn body_value(
    alloc: Global,
    settings: &Settings,
    plan: &Plan,
    body: &Body,
) -> Result<Value, AllocError>
    requires { IsSequence (length plan.now.slots) (length settings.now.regions) body.now }
    ensures { IfOk result (λ v. view v ≡ array (items_of (statement_values settings.now plan.now.slots body.now))) }
{
    let mut values = Vec::new(alloc);
    for stmt in &body.stmts {
        values.push(statement_value(alloc, settings, plan, stmt)?)?;
    }
    Ok(Value::from(values))
}

/// The list that is written for the branches: one list for each branch, in order.
#[cycle(writing)]
fn branches_value(
    alloc: Global,
    settings: &Settings,
    plan: &Plan,
    branches: &Branches,
) -> Result<Value, AllocError>
    requires { AreAlternatives (length plan.now.slots) (length settings.now.regions) branches.now }
    ensures { IfOk result (λ v. view v ≡ array (items_of (branch_values settings.now plan.now.slots branches.now))) }
{
    let mut values = Vec::new(alloc);
    for body in &branches.bodies {
        values.push(body_value(alloc, settings, plan, body)?)?;
    }
    Ok(Value::from(values))
}

/// The JSON value that is written for the plan.
pub(crate) fn plan_value(
    alloc: Global,
    settings: &Settings,
    plan: &Plan,
) -> Result<Value, AllocError>
    requires { plan.now.layout ≡ geometry_of settings.now }
    ensures value { IfOk result (λ v. view v ≡ object (plan_members settings.now plan.now)) }
    // What holds of every plan.
    ensures facts { IsPlan plan.now }
{
    let body = body_value(alloc, settings, plan, &plan.body)?;
    json!(in alloc; {"body": body, "version": plan.version})
}
