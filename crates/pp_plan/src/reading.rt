//! Reads the statements of a plan, in the order of the refusals.

ghost use Rattle.std.specs.Prelude.{◌≡◌, ◌&&◌, ◌==◌, not, nat_le, ℕ, Ok};
ghost use Rattle.serde_json.specs.View.{view, items_view};
ghost use Rattle.pp_settings.specs.Settings.{region_named};
ghost use Rattle.pp_plan.specs.Refusals.{is_plan_memory};
ghost use Rattle.pp_text.specs.Steps.{Gives};
ghost use Rattle.pp_plan.specs.Tree.{Statement, Sequence, skip, none};
ghost use Rattle.pp_plan.specs.View.{statement_of};
ghost use Rattle.pp_plan.specs.ShapeView.{shape_view};
ghost use Rattle.pp_plan.specs.Reading.{sequence_from, alternatives_from, fix_by, statement_by, statement_at, items_in};
ghost use Rattle.pp_plan.specs.Reading.{item_count};

use crate::error::PlanError;
use crate::limits::{MOST_BRANCHES, MOST_TURNS};
use crate::names::is_slot_name;
use crate::progress::Progress;
use crate::shape::{Shape, shape_of};
use crate::stmt::{Body, Branches, Stmt};
use pp_settings::Settings;
use serde_json::Value;
use std::alloc::Global;

/// A loop of this count and body may stand.
#[tactic(auto, using(crate::proofs::Trees::item_count_view))]
fn is_loop(count: u64, body: &[Value]) -> bool
    ensures { result ≡ ((nat_le 1 count && nat_le count MOST_TURNS) && not (item_count (items_view body.now) == 0)) }
{
    1 <= count && count <= u64::from(MOST_TURNS) && !body.is_empty()
}

/// A choice of these branches may stand.
#[tactic(auto, using(crate::proofs::Trees::item_count_view))]
fn is_choice(branches: &[Value]) -> bool
    ensures { let n = item_count (items_view branches.now) in result ≡ (nat_le 1 n && nat_le n MOST_BRANCHES) }
{
    1 <= branches.len() && branches.len() <= MOST_BRANCHES
}

/// The items of a list, none of another value.
fn items_in(value: &Value) -> &[Value]
    ensures { items_view result.now ≡ items_in (view value.now) }
{
    match value.as_array() {
        Some(items) => items,
        None => &[],
    }
}

/// The statements of the items.
#[cycle(reading)]
#[tactic(auto, using(crate::proofs::Walk::walk))]
pub(crate) fn read_body(
    alloc: Global,
    settings: &Settings,
    version: u8,
    levels: u8,
    progress: &mut Progress,
    items: &[Value],
) -> Result<Body, PlanError>
    ensures { Gives is_plan_memory (λ b. (progress.new, b)) result
        (sequence_from (statement_at version (region_named settings.now) levels) skip progress.old (items_view items.now)) }
{
    let mut stmts = Vec::new(alloc);
    for value in items {
        let stmt = read_statement(alloc, settings, version, levels, progress, value)?;
        stmts.push(stmt)?;
    }
    Ok(Body { stmts })
}

/// The branches of the lists.
#[cycle(reading)]
#[tactic(auto, using(crate::proofs::Walk::walk))]
fn read_branches(
    alloc: Global,
    settings: &Settings,
    version: u8,
    levels: u8,
    progress: &mut Progress,
    lists: &[Value],
) -> Result<Branches, PlanError>
    ensures { Gives is_plan_memory (λ b. (progress.new, b)) result
        (alternatives_from (statement_at version (region_named settings.now) levels) none progress.old (items_view lists.now)) }
{
    let mut bodies = Vec::new(alloc);
    for list in lists {
        let body = read_body(alloc, settings, version, levels, progress, items_in(list))?;
        bodies.push(body)?;
    }
    Ok(Branches { bodies })
}

/// The statement of the value in a plan of this version, where so many levels of statements may stand from here on.
#[cycle(reading)]
fn read_statement(
    alloc: Global,
    settings: &Settings,
    version: u8,
    levels: u8,
    progress: &mut Progress,
    value: &Value,
) -> Result<Stmt, PlanError>
    ensures { Gives is_plan_memory (λ s. (progress.new, statement_of s)) result
        (statement_at version (region_named settings.now) levels progress.old (view value.now)) }
{
    let number = progress.begin()?;
    if levels == 0 {
        return Err(PlanError::TooDeep(number));
    }
    let shape = shape_of(version, number, value)?;
    read_shape(
        alloc,
        settings,
        version,
        levels - 1,
        progress,
        number,
        shape,
    )
}

/// The slot and the region of a fix, or of a gather where the slot is a bundle.
#[tactic(auto, unfolding(crate::specs::Reading::fix_by))]
fn read_fix(
    alloc: Global,
    settings: &Settings,
    progress: &mut Progress,
    number: u32,
    bundle: bool,
    slot: &str,
    region: &str,
) -> Result<(u8, u8), PlanError>
    ensures { Gives is_plan_memory (λ s. (progress.new, s)) result
        (fix_by (region_named settings.now) number bundle progress.old slot.now region.now) }
{
    if !is_slot_name(slot) {
        return Err(PlanError::BadName(number));
    }
    let region = settings
        .region(region)
        .ok_or(PlanError::NoSuchRegion(number))?;
    let slot = progress.use_slot(alloc, number, bundle, slot)?;
    Ok((slot, region))
}

/// The statement of this form and number.
#[cycle(reading)]
#[tactic(auto, unfolding(crate::specs::Reading::statement_by))]
fn read_shape(
    alloc: Global,
    settings: &Settings,
    version: u8,
    levels: u8,
    progress: &mut Progress,
    number: u32,
    shape: Shape<'_>,
) -> Result<Stmt, PlanError>
    ensures { Gives is_plan_memory (λ s. (progress.new, statement_of s)) result
        (statement_by (region_named settings.now) (statement_at version (region_named settings.now) levels) number progress.old
        (shape_view shape.entry)) }
{
    match shape {
        Shape::Fix { slot, region } => {
            let (slot, region) = read_fix(alloc, settings, progress, number, false, slot, region)?;
            Ok(Stmt::Fix { slot, region })
        }
        Shape::Unfix { slot } => {
            let slot = progress.slot(alloc, number, false, slot)?;
            Ok(Stmt::Unfix { slot })
        }
        Shape::Latch { slot, mode } => {
            let slot = progress.slot(alloc, number, false, slot)?;
            Ok(Stmt::Latch { slot, mode })
        }
        Shape::Unlatch { slot } => {
            let slot = progress.slot(alloc, number, false, slot)?;
            Ok(Stmt::Unlatch { slot })
        }
        Shape::Gather { slot, region } => {
            let (slot, region) = read_fix(alloc, settings, progress, number, true, slot, region)?;
            Ok(Stmt::Gather { slot, region })
        }
        Shape::Scatter { slot } => {
            let slot = progress.slot(alloc, number, true, slot)?;
            Ok(Stmt::Scatter { slot })
        }
        Shape::Loop { count, body } => {
            if !is_loop(count, body) {
                return Err(PlanError::Range(number));
            }
            let body = read_body(alloc, settings, version, levels, progress, body)?;
            Ok(Stmt::Loop {
                count: count as u16,
                body,
            })
        }
        Shape::Choice { branches } => {
            if !is_choice(branches) {
                return Err(PlanError::Range(number));
            }
            let branches = read_branches(alloc, settings, version, levels, progress, branches)?;
            Ok(Stmt::Choice { branches })
        }
    }
}
